//! What a state folder in memory keeps at one moment, and each change of it.
ghost use Rattle.std.specs.Prelude.{◌≡◌, ◌≤◌, ◌↔◌, IfOk, IsTrue, length, take, drop};
ghost use Rattle.std.specs.Option.{option_map};
ghost use Rattle.ocfl_state.specs.{Content.{is_closed}, Calls.{bytes_of, HasLong, IsReadOf}};
ghost use Rattle.ocfl_state.specs.Memory.{kept_whole, after_put, after_append, after_cut, after_close, after_crash, or_zeros};

use crate::folder::MOST_CHECKPOINT;
use std::alloc::{AllocError, Global};
use std::marker::Model;
use std::mem;

/// The report of a cycle that has ended, and whether it is whole.
#[derive(Debug, Drop)]
pub struct ClosedReport {
    pub cycle: u64,
    pub whole: bool,
    pub report: Vec<u8>,
}

impl Model for ClosedReport {
    ghost use Rattle.ocfl_state.specs.Content.{Closed};

    ghost Value = { Closed };

    ghost view = { λ a. record { cycle = a.cycle; whole = a.whole; report = a.report.items } };
}

/// What is kept at one moment. Of the report `synced` bytes are on the disk; since then it had at
/// most `most` bytes.
#[derive(Debug)]
pub(crate) struct Held {
    pub(crate) checkpoint: Option<Vec<u8>>,
    pub(crate) report: Vec<u8>,
    pub(crate) closed: Vec<ClosedReport>,
    pub(crate) synced: usize,
    pub(crate) most: usize,
}

/// Written by hand, so that to let it go is one call wherever that happens.
impl Drop for Held {
    fn drop(self) {
        let Held {
            checkpoint: _checkpoint,
            report: _report,
            closed: _closed,
            synced: _synced,
            most: _most,
        } = self;
    }
}

impl Model for Held {
    ghost use Rattle.std.specs.Option.{option_map};
    ghost use Rattle.ocfl_state.specs.{Memory.{Kept}, Calls.{bytes_of}};

    ghost Value = { Kept };

    ghost view = { λ a. record {
      content = record {
        checkpoint = option_map bytes_of a.checkpoint;
        report = a.report.items;
        closed = a.closed.items;
      };
      synced = a.synced;
      most = a.most;
    } };
}

/// Whether what is there is longer than a checkpoint may be.
pub(crate) fn has_long(checkpoint: &Option<Vec<u8>>) -> bool
    ensures { IsTrue result ↔ HasLong (option_map bytes_of checkpoint.now) }
{
    match checkpoint {
        None => false,
        Some(bytes) => bytes.len() > MOST_CHECKPOINT,
    }
}

pub(crate) fn copy_checkpoint(
    alloc: Global,
    checkpoint: &Option<Vec<u8>>,
) -> Result<Option<Vec<u8>>, AllocError>
    ensures { IfOk result (λ copy. option_map bytes_of copy ≡ option_map bytes_of checkpoint.now) }
{
    match checkpoint {
        None => Ok(None),
        Some(bytes) => Ok(Some(bytes.to_vec(alloc)?)),
    }
}

fn copy_closed(alloc: Global, closed: &[ClosedReport]) -> Result<Vec<ClosedReport>, AllocError>
    ensures { IfOk result (λ copy. copy.items ≡ closed.now) }
{
    let mut copies = Vec::new(alloc);
    for one in closed {
        copies.push(ClosedReport {
            cycle: one.cycle,
            whole: one.whole,
            report: one.report.to_vec(alloc)?,
        })?;
    }
    Ok(copies)
}

pub(crate) fn copy_held(alloc: Global, held: &Held) -> Result<Held, AllocError>
    ensures { IfOk result (λ copy. copy ≡ held.now) }
{
    Ok(Held {
        checkpoint: copy_checkpoint(alloc, &held.checkpoint)?,
        report: held.report.to_vec(alloc)?,
        closed: copy_closed(alloc, &held.closed)?,
        synced: held.synced,
        most: held.most,
    })
}

/// Whether one of these reports is that of a cycle.
pub(crate) fn is_among(closed: &[ClosedReport], cycle: u64) -> bool
    ensures { result ≡ is_closed closed.now cycle }
{
    for one in closed {
        if one.cycle == cycle {
            return true;
        }
    }
    false
}

/// Gives the bytes from an offset on, as many as there is room for.
pub(crate) fn give_from(report: &[u8], start: u64, buffer: &mut [u8]) -> usize
    ensures bound { result ≤ length buffer.new }
    ensures given { IsReadOf report.now start (take result buffer.new) (length buffer.new) }
{
    if start >= report.len() as u64 {
        return 0;
    }
    let left = &report[start as usize..];
    let count = left.len().min(buffer.len());
    buffer[..count].copy_from_slice(&left[..count]);
    count
}

/// The same with another checkpoint.
pub(crate) fn put_held(alloc: Global, held: &Held, bytes: &[u8]) -> Result<Held, AllocError>
    ensures { IfOk result (λ next. next ≡ after_put bytes.now held.now) }
{
    Ok(Held {
        checkpoint: Some(bytes.to_vec(alloc)?),
        report: held.report.to_vec(alloc)?,
        closed: copy_closed(alloc, &held.closed)?,
        synced: held.synced,
        most: held.most,
    })
}

/// The same with bytes appended to the report.
pub(crate) fn append_held(alloc: Global, held: &Held, bytes: &[u8]) -> Result<Held, AllocError>
    ensures { IfOk result (λ next. next ≡ after_append bytes.now held.now) }
{
    let mut next = copy_held(alloc, held)?;
    next.report.extend_from_slice(bytes)?;
    Ok(next)
}

/// The same with all of the report on the disk.
pub(crate) fn sync_held(alloc: Global, held: &Held) -> Result<Held, AllocError>
    ensures { IfOk result (λ next. next ≡ kept_whole held.now.content) }
{
    let mut next = copy_held(alloc, held)?;
    next.synced = next.report.len();
    next.most = 0;
    Ok(next)
}

/// The same with the report cut to a length.
pub(crate) fn cut_held(alloc: Global, held: &Held, most: u64) -> Result<Held, AllocError>
    ensures { IfOk result (λ next. next ≡ after_cut most held.now) }
{
    let mut next = copy_held(alloc, held)?;
    next.most = held.most.max(held.report.len());
    if most < held.report.len() as u64 {
        next.report.truncate(most as usize);
    }
    if most < held.synced as u64 {
        next.synced = most as usize;
    }
    Ok(next)
}

/// The same with the report closed.
pub(crate) fn close_held(
    alloc: Global,
    held: &Held,
    cycle: u64,
    whole: bool,
) -> Result<Held, AllocError>
    ensures { IfOk result (λ next. next ≡ after_close cycle whole held.now) }
{
    let mut next = copy_held(alloc, held)?;
    let report = mem::replace(&mut next.report, Vec::new(alloc));
    next.closed.push(ClosedReport {
        cycle,
        whole,
        report,
    })?;
    next.synced = 0;
    next.most = 0;
    Ok(next)
}

/// The same bytes, or as many zeros.
fn bytes_or_zeros(alloc: Global, bytes: &[u8], zeroed: bool) -> Result<Vec<u8>, AllocError>
    ensures { IfOk result (λ copy. copy.items ≡ or_zeros zeroed bytes.now) }
{
    let mut copy = bytes.to_vec(alloc)?;
    if zeroed {
        copy.fill(0);
    }
    Ok(copy)
}

/// The first bytes, at most `most`.
#[tactic(auto, using(std::proofs::lemmas::List::take_min))]
fn front(bytes: &[u8], most: usize) -> &[u8]
    ensures { result.now ≡ take most bytes.now }
{
    &bytes[..most.min(bytes.len())]
}

/// All bytes but the first `most`.
#[tactic(auto, using(crate::proofs::Images::drop_min))]
fn rest(bytes: &[u8], most: usize) -> &[u8]
    ensures { result.now ≡ drop most bytes.now }
{
    &bytes[most.min(bytes.len())..]
}

/// What a crash leaves: of the report's bytes that are not on the disk at most `left`, all zeros if
/// `zeroed`. All of it is on the disk.
#[tactic(auto, using(crate::proofs::Images::torn_is_image))]
pub(crate) fn image_of(
    alloc: Global,
    held: &Held,
    left: usize,
    zeroed: bool,
) -> Result<Held, AllocError>
    ensures is { IfOk result (λ image. image ≡ kept_whole (after_crash left zeroed held.now)) }
{
    let lost = front(rest(&held.report, held.synced), left);
    let tail = bytes_or_zeros(alloc, lost, zeroed)?;
    let mut report = front(&held.report, held.synced).to_vec(alloc)?;
    report.extend_from_slice(&tail)?;
    let synced = report.len();
    Ok(Held {
        checkpoint: copy_checkpoint(alloc, &held.checkpoint)?,
        report,
        closed: copy_closed(alloc, &held.closed)?,
        synced,
        most: 0,
    })
}
