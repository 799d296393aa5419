//! The most serious findings among those that are taken one after the other.
ghost use Rattle.std.specs.Prelude.{◌≡◌, ◌-◌, ◌^◌, ◌<◌, List, [], ◌∷◌, ◌++◌, length, map, take, IfOk, OnOk, OnErr};
ghost use Rattle.ocfl_messages.specs.Finding.{Finding as ModelFinding, filled, finding_of};
ghost use Rattle.ocfl_messages.specs.Gravest.{most_kept};

use crate::finding::{FileCounts, Finding};
use ocfl_codes::{Weight, weigh};
use std::alloc::{AllocError, Global};

/// How many findings are kept of each weight at most.
pub const KEPT: usize = 200;

/// The first 200 of some findings, and how many there were.
#[derive(Drop)]
pub struct Kept {
    /// The first of them, in their order.
    pub first: Vec<Finding>,
    /// How many there were: all, not only those that are kept.
    pub count: u64,
}

impl Kept {
    ghost use Rattle.ocfl_messages.specs.Gravest.{IsFirst};

    /// None.
    pub fn new(alloc: Global) -> Kept
        ensures { IsFirst result [] }
    {
        Kept {
            first: Vec::new(alloc),
            count: 0,
        }
    }

    /// Takes one more. If memory runs out, it has those that it had.
    pub fn add(&mut self, finding: Finding) -> Result<(), AllocError>
        ensures ok { OnOk result ((fs : List ModelFinding)
            → IsFirst self.old fs → IsFirst self.new (fs ++ finding_of finding ∷ [])) }
        ensures err { OnErr result ((fs : List ModelFinding)
            → IsFirst self.old fs → IsFirst self.new fs) }
    {
        keep(&mut self.first, finding)?;
        self.count = self.count.saturating_add(1);
        Ok(())
    }

    /// Takes others too, which come after these. It is not used again if memory runs out.
    fn join(&mut self, other: &mut Kept) -> Result<(), AllocError>
        ensures { OnOk result ((fs gs : List ModelFinding)
            → IsFirst self.old fs → IsFirst other.old gs → IsFirst self.new (fs ++ gs)) }
    {
        self.first.append(&mut other.first)?;
        self.first.truncate(KEPT);
        self.count = self.count.saturating_add(other.count);
        Ok(())
    }

    /// Gives each of those that have none how many files of its object are right.
    fn fill(&mut self, files: FileCounts)
        ensures { (fs : List ModelFinding) → IsFirst self.old fs
            → IsFirst self.new (map (filled files) fs) }
    {
        fill_all(&mut self.first, files);
    }
}

/// Gives each of those that have none how many files of its object are right.
fn fill_all(findings: &mut Vec<Finding>, files: FileCounts)
    ensures { map finding_of findings.new.items
        ≡ map (filled files) (map finding_of findings.old.items) }
{
    for index in 0..findings.len() {
        findings[index].fill(files);
    }
}

/// Appends a finding to the first of some, unless there are 200 already.
fn keep(kept: &mut Vec<Finding>, finding: Finding) -> Result<(), AllocError>
    ensures ok { OnOk result ((fs : List ModelFinding)
        → map finding_of kept.old.items ≡ take most_kept fs
        → map finding_of kept.new.items ≡ take most_kept (fs ++ finding_of finding ∷ [])) }
    ensures err { OnErr result (kept.new.items ≡ kept.old.items) }
{
    if kept.len() >= KEPT {
        return Ok(());
    }
    kept.push(finding)?;
    Ok(())
}

/// The first findings of each weight, and how many there were of it.
pub struct Gravest {
    /// Findings of [`Weight::Bytes`].
    pub bytes: Kept,
    /// Those of [`Weight::Object`].
    pub objects: Kept,
    /// Those of [`Weight::Record`].
    pub records: Kept,
    /// Those of [`Weight::Position`].
    pub positions: Kept,
}

impl Drop for Gravest {
    fn drop(self) {
        let Gravest {
            bytes: _bytes,
            objects: _objects,
            records: _records,
            positions: _positions,
        } = self;
    }
}

impl Gravest {
    ghost use Rattle.ocfl_messages.specs.Gravest.{IsOf, by_weight, gravest};

    /// No findings.
    pub fn new(alloc: Global) -> Gravest
        ensures { IsOf result [] }
    {
        Gravest {
            bytes: Kept::new(alloc),
            objects: Kept::new(alloc),
            records: Kept::new(alloc),
            positions: Kept::new(alloc),
        }
    }

    /// Takes one more line of a report, and keeps it if it is a finding that may be shown. If
    /// memory runs out, it has those that it had.
    pub fn add(&mut self, finding: Finding) -> Result<(), AllocError>
        ensures ok { OnOk result ((fs : List ModelFinding)
            → IsOf self.old fs → IsOf self.new (fs ++ finding_of finding ∷ [])) }
        ensures err { OnErr result ((fs : List ModelFinding)
            → IsOf self.old fs → IsOf self.new fs) }
    {
        match weigh(finding.line.code) {
            None => Ok(()),
            Some(Weight::Bytes) => self.bytes.add(finding),
            Some(Weight::Object) => self.objects.add(finding),
            Some(Weight::Record) => self.records.add(finding),
            Some(Weight::Position) => self.positions.add(finding),
        }
    }

    /// Takes the findings of another reading too, which come after these. It is not used again if
    /// memory runs out.
    pub fn join(&mut self, other: &mut Gravest) -> Result<(), AllocError>
        ensures { OnOk result ((fs gs : List ModelFinding)
            → IsOf self.old fs → IsOf other.old gs → IsOf self.new (fs ++ gs)) }
    {
        self.bytes.join(&mut other.bytes)?;
        self.objects.join(&mut other.objects)?;
        self.records.join(&mut other.records)?;
        self.positions.join(&mut other.positions)
    }

    /// Gives each of those that have none how many files of its object are right.
    pub(crate) fn fill(&mut self, files: FileCounts)
        ensures { (fs : List ModelFinding) → IsOf self.old fs
            → IsOf self.new (map (filled files) fs) }
    {
        self.bytes.fill(files);
        self.objects.fill(files);
        self.records.fill(files);
        self.positions.fill(files);
    }

    /// The most serious of them, up to 200.
    pub(crate) fn shown(&self, alloc: Global) -> Result<Vec<Finding>, AllocError>
        ensures { IfOk result (λ all. (fs : List ModelFinding) → IsOf self.now fs
            → map finding_of all.items ≡ gravest fs) }
    {
        let mut all = Vec::new(alloc);
        let room = put_first(&self.bytes.first, KEPT, &mut all)?;
        let room = put_first(&self.objects.first, room, &mut all)?;
        let room = put_first(&self.records.first, room, &mut all)?;
        put_first(&self.positions.first, room, &mut all)?;
        Ok(all)
    }

    /// How many findings there were.
    pub fn count(&self) -> u128
        ensures { (fs : List ModelFinding) → IsOf self.now fs → length (by_weight fs) < 2 ^ 64
            → result ≡ length (by_weight fs) }
    {
        wide(self.bytes.count)
            + wide(self.objects.count)
            + wide(self.records.count)
            + wide(self.positions.count)
    }
}

/// Appends the first of these findings, up to `room`. Gives how many more there may be.
pub(crate) fn put_first(
    kept: &[Finding],
    room: usize,
    all: &mut Vec<Finding>,
) -> Result<usize, AllocError>
    ensures all { OnOk result (map finding_of all.new.items
        ≡ map finding_of all.old.items ++ map finding_of (take room kept.now)) }
    ensures room { IfOk result (λ left. left ≡ room - length kept.now) }
{
    let count = kept.len().min(room);
    put_copies(&kept[..count], all)?;
    Ok(room - count)
}

/// Appends these findings.
fn put_copies(kept: &[Finding], all: &mut Vec<Finding>) -> Result<(), AllocError>
    ensures { OnOk result (map finding_of all.new.items
        ≡ map finding_of all.old.items ++ map finding_of kept.now) }
{
    for finding in kept {
        all.push(finding.try_clone()?)?;
    }
    Ok(())
}

/// The number as one that takes the sum of a few.
fn wide(number: u64) -> u128
    ensures value { result ≡ number }
    ensures fits { result < 2 ^ 64 }
{
    u128::from(number)
}
