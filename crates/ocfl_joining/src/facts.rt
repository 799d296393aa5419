//! What the checkpoints of parts say of them, and of their closed reports.
ghost use Rattle.std.specs.Prelude.{◌≡◌, ◌⊎◌, ◌++◌, IfErr, IfOk, OnOk, map, min};
ghost use Rattle.std.specs.Option.{option_map};
ghost use Rattle.ocfl_cursor.specs.State.{state_of};
ghost use Rattle.ocfl_joining.specs.Facts.{below_of, from_of, has_ended, has_lines, is_closed};
ghost use Rattle.ocfl_joining.specs.Facts.{is_emptied as is_emptied_by, is_open, known_of, last_by};
ghost use Rattle.ocfl_joining.specs.Facts.{last_closed, last_of_all as last_of_these, left_in};
ghost use Rattle.ocfl_joining.specs.Facts.{mark_by, mark_of as mark_of_these, names_in};
ghost use Rattle.ocfl_joining.specs.Facts.{root_of, runs_in, sum_runs, AreFacts, counted_with};
ghost use Rattle.ocfl_joining.specs.Facts.{facts_at, is_lost as is_lost_by, known_runs, mark_at};
ghost use Rattle.ocfl_joining.specs.Facts.{none_counted};
ghost use Rattle.ocfl_state.specs.Checkpoint.{Checkpoint as ModelCheckpoint, IsCheckpointText};
ghost use Rattle.ocfl_state.specs.CheckpointRefusal.{RefusedRightly};

use crate::part::ClosedPart;
use crate::reports::KeptMark;
use ocfl_cursor::{Refused, State};
use ocfl_report::Further;
use ocfl_state::{Checkpoint, Left, Phase, RootIdentity, decode_checkpoint};
use ocfl_tree::Place;
use std::alloc::{AllocError, Global};

/// What the checkpoint of a part says.
#[derive(Debug)]
pub struct Facts {
    /// Which storage root it is of: its path, a line feed, and the digest of its declaration.
    pub root: Vec<u8>,
    /// Where the part begins. The first part, and a whole root, has no beginning.
    pub from: Option<Place>,
    /// Below which place it stays. The last part, and a whole root, has no end.
    pub below: Option<Place>,
    /// What its audit checks further.
    pub further: Further,
    /// The cycle that was closed last; 0 if none was.
    pub last: u64,
    /// Whether that cycle is known to have read files, so that its report has lines.
    pub has_lines: bool,
}

/// Written by hand, so that to let it go is one call wherever that happens.
impl Drop for Facts {
    fn drop(self) {
        let Facts {
            root: _root,
            from: _from,
            below: _below,
            further: _further,
            last: _last,
            has_lines: _has_lines,
        } = self;
    }
}

/// A closed report of a part that was found.
#[derive(Debug, Drop)]
pub struct FoundReport {
    /// Whether nothing of it was lost, and nothing left out.
    pub whole: bool,
    /// The checkpoint with which it was closed. `None` if none was kept, and `Some(None)` if what
    /// was kept is no checkpoint any more.
    pub kept: Option<Option<Checkpoint>>,
}

/// Which storage root it is of.
fn root_text(alloc: Global, identity: &RootIdentity) -> Result<Vec<u8>, AllocError>
    ensures { IfOk result (λ root. root.items ≡ root_of identity.now) }
{
    let mut root = Vec::from_slice(alloc, identity.path.path().as_bytes())?;
    root.push(b'\n')?;
    root.extend_from_slice(&identity.declared)?;
    Ok(root)
}

fn is_ended(state: &State) -> bool
    ensures { result ≡ has_ended (state_of state.now) }
{
    matches!(state, State::Ended)
}

/// Whether the cycle of a checkpoint has ended, and its report is closed.
fn is_closed(checkpoint: &Checkpoint) -> bool
    ensures { result ≡ is_closed checkpoint.now }
{
    is_ended(checkpoint.cursor.state()) && checkpoint.phase == Phase::Open
}

/// The cycle whose report was closed last.
fn last_closed(checkpoint: &Checkpoint) -> u64
    ensures { result ≡ last_closed checkpoint.now }
{
    let cycle = checkpoint.cursor.cycle();
    if is_closed(checkpoint) {
        cycle
    } else {
        cycle.saturating_sub(1)
    }
}

fn has_lines(checkpoint: &Checkpoint) -> bool
    ensures { result ≡ has_lines checkpoint.now }
{
    is_closed(checkpoint) && checkpoint.cursor.spent() > 0
}

fn copy_end(end: &Option<Place>) -> Result<Option<Place>, AllocError>
    ensures { IfOk result (λ copy. copy ≡ end.now) }
{
    match end {
        Some(place) => Ok(Some(place.try_clone()?)),
        None => Ok(None),
    }
}

fn find_from(checkpoint: &Checkpoint) -> Result<Option<Place>, AllocError>
    ensures { IfOk result (λ from. from ≡ from_of checkpoint.now.part) }
{
    match &checkpoint.part {
        Some(ends) => copy_end(&ends.from),
        None => Ok(None),
    }
}

fn find_below(checkpoint: &Checkpoint) -> Result<Option<Place>, AllocError>
    ensures { IfOk result (λ below. below ≡ below_of checkpoint.now.part) }
{
    match &checkpoint.part {
        Some(ends) => copy_end(&ends.below),
        None => Ok(None),
    }
}

/// What a checkpoint says of its part.
///
/// The only error is running out of memory.
pub fn facts_of(alloc: Global, checkpoint: &Checkpoint) -> Result<Facts, AllocError>
    ensures root { IfOk result (λ facts. facts.root.items ≡ root_of checkpoint.now.root) }
    ensures from { IfOk result (λ facts. facts.from ≡ from_of checkpoint.now.part) }
    ensures below { IfOk result (λ facts. facts.below ≡ below_of checkpoint.now.part) }
    ensures further { IfOk result (λ facts. facts.further ≡ checkpoint.now.cursor.further) }
    ensures last { IfOk result (λ facts. facts.last ≡ last_closed checkpoint.now) }
    ensures lines { IfOk result (λ facts. facts.has_lines ≡ has_lines checkpoint.now) }
{
    Ok(Facts {
        root: root_text(alloc, &checkpoint.root)?,
        from: find_from(checkpoint)?,
        below: find_below(checkpoint)?,
        further: checkpoint.cursor.further(),
        last: last_closed(checkpoint),
        has_lines: has_lines(checkpoint),
    })
}

fn last_in(facts: &Option<Facts>) -> u64
    ensures { result ≡ last_by facts.now }
{
    match facts {
        Some(facts) => facts.last,
        None => 0,
    }
}

/// The lesser one of the last cycle that a part has closed and of that of the parts before it.
fn lesser(facts: &Option<Facts>, last: u64) -> u64
    ensures { result ≡ min (last_by facts.now) last }
{
    last_in(facts).min(last)
}

/// The last cycle that each part has closed: 0 if one has closed none, and the greatest number if
/// there is no part.
pub fn last_of_all(all: &[Option<Facts>]) -> u64
    ensures { result ≡ last_of_these all.now }
{
    let mut last = u64::MAX;
    for facts in all {
        last = lesser(facts, last);
    }
    last
}

/// What the checkpoint of the part with a number says, from 1.
pub fn facts_with(all: &[Option<Facts>], number: usize) -> Option<&Facts>
    ensures { option_map (λ facts. facts.now) result ≡ facts_at all.now number }
{
    match all.get(number.saturating_sub(1)) {
        Some(Some(facts)) => Some(facts),
        _ => None,
    }
}

/// Whether the report of a cycle, of so many bytes now, had lines when it was closed and has none.
pub fn is_emptied(facts: &Facts, cycle: u64, bytes: u64) -> bool
    ensures { result ≡ is_emptied_by facts.now cycle bytes }
{
    bytes == 0 && facts.has_lines && facts.last == cycle
}

fn kept_mark(kept: &Option<Option<Checkpoint>>) -> KeptMark
    ensures { result ≡ mark_by kept.now }
{
    match kept {
        None => KeptMark::NotKept,
        Some(None) => KeptMark::Damaged,
        Some(Some(checkpoint)) => KeptMark::Kept(checkpoint.report),
    }
}

/// With what a report was closed, by what was kept then: `None` if nothing was, and `Some(None)` if
/// that is no checkpoint any more. One that lost all its lines is damaged.
pub fn mark_of(emptied: bool, kept: &Option<Option<Checkpoint>>) -> KeptMark
    ensures { result ≡ mark_of_these emptied kept.now }
{
    if emptied {
        KeptMark::Damaged
    } else {
        kept_mark(kept)
    }
}

/// Whether the report of a part, of so many bytes now, had lines when it was closed and has none.
fn is_lost(facts: Option<&Facts>, cycle: u64, bytes: u64) -> bool
    ensures { result ≡ is_lost_by (option_map (λ facts. facts.now) facts.entry) cycle bytes }
{
    match facts {
        Some(facts) => is_emptied(facts, cycle, bytes),
        None => false,
    }
}

/// With what the report of a cycle was closed by the part with this number, from 1, of which the
/// checkpoints say these facts: the report has so many bytes now, and this was kept when it was
/// closed, `None` if nothing was, and `Some(None)` if that is no checkpoint any more. One
/// that lost all its lines is damaged.
pub fn mark_with(
    all: &[Option<Facts>],
    number: usize,
    cycle: u64,
    bytes: u64,
    kept: &Option<Option<Checkpoint>>,
) -> KeptMark
    ensures { result ≡ mark_at all.now number cycle bytes kept.now }
{
    mark_of(is_lost(facts_with(all, number), cycle, bytes), kept)
}

/// The places of branches that were left out.
fn places_of(alloc: Global, left: &[Left]) -> Result<Vec<Place>, AllocError>
    ensures { IfOk result (λ places. places.items ≡ map (λ l. l.place) left.now) }
{
    let mut places = Vec::new(alloc);
    for branch in left {
        places.push(branch.place.try_clone()?)?;
    }
    Ok(places)
}

/// The places that were left out of a closed report, by what was kept then.
fn left_out(alloc: Global, kept: &Option<Option<Checkpoint>>) -> Result<Vec<Place>, AllocError>
    ensures { IfOk result (λ places. places.items ≡ left_in kept.now) }
{
    match kept {
        Some(Some(checkpoint)) => places_of(alloc, &checkpoint.left),
        _ => Ok(Vec::new(alloc)),
    }
}

/// How many names the storage root had when the cycle of a closed report began, if that was kept.
fn names_of(kept: &Option<Option<Checkpoint>>) -> Option<u64>
    ensures { result ≡ names_in kept.now }
{
    match kept {
        Some(Some(checkpoint)) => Some(checkpoint.names.count),
        _ => None,
    }
}

/// How many runs the cycle of a closed report had, if that was kept.
fn runs_of(kept: &Option<Option<Checkpoint>>) -> Option<u64>
    ensures { result ≡ runs_in kept.now }
{
    match kept {
        Some(Some(checkpoint)) => Some(checkpoint.cursor.runs()),
        _ => None,
    }
}

/// How many runs parts had in a cycle, with one more part, of which this was kept. `None` if that
/// is not known of each.
pub fn add_runs(sum: Option<u64>, kept: &Option<Option<Checkpoint>>) -> Option<u64>
    ensures { result ≡ sum_runs sum kept.now }
{
    match (sum, runs_of(kept)) {
        (Some(sum), Some(more)) => Some(sum.saturating_add(more)),
        _ => None,
    }
}

/// How many runs the parts had of which reports were counted, in the cycle of the last one.
#[derive(Clone, Copy, Debug, PartialEq, Eq)]
pub struct RunCount {
    cycle: u64,
    /// `None` if that is not known of each of them.
    runs: Option<u64>,
}

impl RunCount {
    /// None was counted.
    pub fn new() -> RunCount
        ensures { result ≡ none_counted }
    {
        RunCount {
            cycle: 0,
            runs: None,
        }
    }

    /// With one more report, of which this was kept when it was closed. The first one of another
    /// cycle than that of the last one is counted anew.
    pub fn with(self, cycle: u64, kept: &Option<Option<Checkpoint>>) -> RunCount
        ensures { result ≡ counted_with self cycle kept.now }
    {
        let before = if self.cycle == cycle {
            self.runs
        } else {
            Some(0)
        };
        RunCount {
            cycle,
            runs: add_runs(before, kept),
        }
    }

    /// How many runs these had; 0 if that is not known of each of them.
    pub fn known(self) -> u64
        ensures { result ≡ known_runs self }
    {
        self.runs.unwrap_or(0)
    }
}

/// What the bytes of the checkpoint of a part say of it. Else why they are none, or that memory was
/// refused.
pub fn read_facts(alloc: Global, bytes: &[u8]) -> Result<Facts, Refused>
    ensures facts { IfOk result (λ facts. (c : ModelCheckpoint)
        × (IsCheckpointText bytes.now c × AreFacts c facts)) }
    ensures refused { IfErr result (λ why.
        RefusedRightly bytes.now why ⊎ (why ≡ Refused.Memory)) }
{
    let checkpoint = decode_checkpoint(alloc, bytes)?;
    match facts_of(alloc, &checkpoint) {
        Ok(facts) => Ok(facts),
        Err(_) => Err(Refused::Memory),
    }
}

/// What is known of the report of a cycle that a part has closed and that was found: by the part's
/// checkpoint, by whether what the report has new and gone was said, and by what was kept at its
/// closing.
///
/// The only error is running out of memory.
pub fn known_part(
    alloc: Global,
    facts: &Facts,
    cycle: u64,
    has_said: bool,
    found: &FoundReport,
) -> Result<ClosedPart, AllocError>
    ensures { IfOk result (λ part. part ≡ known_of facts.now cycle has_said found.now) }
{
    Ok(ClosedPart {
        root: facts.root.to_vec(alloc)?,
        from: copy_end(&facts.from)?,
        below: copy_end(&facts.below)?,
        further: facts.further,
        cycle,
        whole: found.whole,
        has_said,
        names: names_of(&found.kept),
        left: left_out(alloc, &found.kept)?,
    })
}
