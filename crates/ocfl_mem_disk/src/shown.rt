//! What reads of a disk in memory show, by the log of its calls.
ghost use Rattle.std.specs.Prelude.{◌≡◌, ◌++◌, true, false, IfOk, OnOk, None, take};
ghost use Rattle.ocfl_mem_disk.specs.Log.{may_make, shown_next, shown_after, shown_of, stuff_of};
ghost use Rattle.ocfl_mem_disk.specs.Log.{is_name_of, is_ready, is_own, with_stuff, with_empty};
ghost use Rattle.ocfl_disk.specs.Names.{closed_names};

use crate::mem_call::MemCall;
use std::alloc::{AllocError, Global};
use std::marker::Model;

/// The name of a closed report, and which file has it.
#[derive(Debug, Drop)]
pub(crate) struct ReportName {
    pub(crate) cycle: u64,
    pub(crate) whole: bool,
    pub(crate) file: usize,
}

impl Model for ReportName {
    ghost use Rattle.ocfl_disk.specs.Names.{ClosedName};

    ghost Value = { ClosedName };

    ghost view = { λ a. record { cycle = a.cycle; whole = a.whole; file = a.file } };
}

/// The bytes of a file, and whether they are on the disk.
#[derive(Debug, Drop)]
pub(crate) struct Stored {
    pub(crate) bytes: Vec<u8>,
    pub(crate) synced: bool,
}

impl Model for Stored {
    ghost use Rattle.ocfl_mem_disk.specs.Log.{Stuff};

    ghost Value = { Stuff };

    ghost view = { λ a. record { bytes = a.bytes.items; synced = a.synced } };
}

/// The names, and the files by their numbers.
#[derive(Debug, Drop)]
pub(crate) struct Shown {
    pub(crate) checkpoint: Option<usize>,
    pub(crate) beside: Option<usize>,
    pub(crate) report: Option<usize>,
    pub(crate) closed: Vec<ReportName>,
    pub(crate) files: Vec<Stored>,
}

impl Model for Shown {
    ghost use Rattle.ocfl_mem_disk.specs.Log.{Shown as ModelShown};

    ghost Value = { ModelShown };

    ghost view = { λ a. record {
      names = record {
        checkpoint = a.checkpoint;
        beside = a.beside;
        report = a.report;
        closed = a.closed.items;
      };
      files = a.files.items;
    } };
}

fn is_name_of(file: usize, name: Option<usize>) -> bool
    ensures { result ≡ is_name_of file name }
{
    match name {
        None => false,
        Some(other) => other == file,
    }
}

/// Whether what has that name, if anything has, is on the disk.
fn is_ready(name: Option<usize>, shown: &Shown) -> bool
    ensures { result ≡ is_ready name shown.now }
{
    match name {
        None => true,
        Some(file) => match shown.files.get(file) {
            None => true,
            Some(there) => there.synced,
        },
    }
}

fn is_own(file: usize, shown: &Shown) -> bool
    ensures { result ≡ is_own file shown.now }
{
    is_name_of(file, shown.report) || is_name_of(file, shown.beside)
}

/// Whether a state folder may make that call.
fn may_make(call: &MemCall, shown: &Shown) -> bool
    ensures { result ≡ may_make call.now shown.now }
{
    match call {
        MemCall::Append(file, _) => is_own(*file, shown),
        MemCall::Cut(file, _) => is_own(*file, shown),
        MemCall::MakeNew => shown.beside.is_none(),
        MemCall::MakeReport => shown.report.is_none(),
        MemCall::Put => is_ready(shown.beside, shown),
        MemCall::Close(_, _) => is_ready(shown.report, shown),
        MemCall::Remove => true,
        MemCall::Sync(_) => true,
        MemCall::SyncFolder => true,
        MemCall::SyncReports => true,
    }
}

/// An empty file is there too.
fn add_file(alloc: Global, shown: &mut Shown) -> Result<(), AllocError>
    ensures { OnOk result (shown.new ≡ with_empty shown.old.names shown.old) }
{
    shown.files.push(Stored {
        bytes: Vec::new(alloc),
        synced: false,
    })?;
    Ok(())
}

/// The bytes of a file are others, which are on the disk or not.
fn put_bytes(shown: &mut Shown, file: usize, bytes: Vec<u8>, synced: bool)
    ensures { shown.new ≡ with_stuff file bytes.items synced shown.old }
{
    if let Some(there) = shown.files.get_mut(file) {
        *there = Stored { bytes, synced };
    }
}

/// The bytes of a file, copied. None if there is no such file.
pub(crate) fn copy_bytes(alloc: Global, shown: &Shown, file: usize) -> Result<Vec<u8>, AllocError>
    ensures { IfOk result (λ copy. copy.items ≡ (stuff_of file shown.now).bytes) }
{
    match shown.files.get(file) {
        None => Ok(Vec::new(alloc)),
        Some(there) => there.bytes.to_vec(alloc),
    }
}

fn append_to(alloc: Global, shown: &mut Shown, file: usize, bytes: &[u8]) -> Result<(), AllocError>
    ensures { OnOk result (shown.new
        ≡ with_stuff file ((stuff_of file shown.old).bytes ++ bytes.now) false shown.old) }
{
    let mut all = copy_bytes(alloc, shown, file)?;
    all.extend_from_slice(bytes)?;
    put_bytes(shown, file, all, false);
    Ok(())
}

fn cut_to(alloc: Global, shown: &mut Shown, file: usize, most: u64) -> Result<(), AllocError>
    ensures { OnOk result (shown.new
        ≡ with_stuff file (take most (stuff_of file shown.old).bytes) false shown.old) }
{
    let mut all = copy_bytes(alloc, shown, file)?;
    if most < all.len() as u64 {
        all.truncate(most as usize);
    }
    put_bytes(shown, file, all, false);
    Ok(())
}

fn sync_it(alloc: Global, shown: &mut Shown, file: usize) -> Result<(), AllocError>
    ensures { OnOk result (shown.new
        ≡ with_stuff file (stuff_of file shown.old).bytes true shown.old) }
{
    let all = copy_bytes(alloc, shown, file)?;
    put_bytes(shown, file, all, true);
    Ok(())
}

fn close_it(shown: &mut Shown, cycle: u64, whole: bool) -> Result<(), AllocError>
    ensures { OnOk result (shown.new ≡ record shown.old {
      names = record shown.old.names {
        report = None;
        closed = closed_names cycle whole shown.old.names.report shown.old.names.closed;
      };
    }) }
{
    if let Some(file) = shown.report.take() {
        shown.closed.push(ReportName { cycle, whole, file })?;
    }
    Ok(())
}

/// Makes a call, which a state folder may make.
fn make(alloc: Global, shown: &mut Shown, call: &MemCall) -> Result<(), AllocError>
    ensures { OnOk result (shown.new ≡ shown_after call.now shown.old) }
{
    match call {
        MemCall::Append(file, bytes) => append_to(alloc, shown, *file, bytes),
        MemCall::Cut(file, most) => cut_to(alloc, shown, *file, *most),
        MemCall::MakeNew => {
            let file = shown.files.len();
            add_file(alloc, shown)?;
            shown.beside = Some(file);
            Ok(())
        }
        MemCall::MakeReport => {
            let file = shown.files.len();
            add_file(alloc, shown)?;
            shown.report = Some(file);
            Ok(())
        }
        MemCall::Put => {
            shown.checkpoint = shown.beside.take();
            Ok(())
        }
        MemCall::Close(cycle, whole) => close_it(shown, *cycle, *whole),
        MemCall::Remove => {
            shown.beside = None;
            Ok(())
        }
        MemCall::Sync(file) => sync_it(alloc, shown, *file),
        MemCall::SyncFolder => Ok(()),
        MemCall::SyncReports => Ok(()),
    }
}

fn make_if_it_may(alloc: Global, shown: &mut Shown, call: &MemCall) -> Result<(), AllocError>
    ensures { OnOk result (shown.new ≡ shown_next call.now shown.old) }
{
    if may_make(call, shown) {
        make(alloc, shown, call)
    } else {
        Ok(())
    }
}

/// What reads show after these calls.
pub(crate) fn show(alloc: Global, log: &[MemCall]) -> Result<Shown, AllocError>
    ensures { IfOk result (λ shown. shown ≡ shown_of log.now) }
{
    let mut shown = Shown {
        checkpoint: None,
        beside: None,
        report: None,
        closed: Vec::new(alloc),
        files: Vec::new(alloc),
    };
    for call in log {
        make_if_it_may(alloc, &mut shown, call)?;
    }
    Ok(shown)
}
