//! The joining of one cycle on a disk.
ghost use Rattle.std.specs.Prelude.{◌≡◌, [], false, if◌then◌else◌, Some, None};
ghost use Rattle.std.specs.Prelude.{IsTrue, IfErr, IfOk, OnErr, OnOk};
ghost use Rattle.ocfl_joining.specs.{Folders.{with_noted}, Saying.{lacking_text, missing_text}};
ghost use Rattle.ocfl_joining.specs.Stops.{IsCallStop};
ghost use Rattle.ocfl_join_disk.specs.Cycles.{EndsAs, StopsAs, said_of};
ghost use Rattle.ocfl_join_disk.specs.Shown.{with_text};
ghost use Rattle.ocfl_join_disk.specs.Internal.Coming.{HasCome, HasEnded};

use crate::comparing::ComparedReports;
use crate::disk::JoinDisk;
use crate::looking::find_parts;
use crate::making::MakingReports;
use ocfl_joining::{
    ClosedPart, Facts, JoinStop, Joined, MissingPart, ReportTrouble, find_root, join, say_lacking,
    say_missing,
};
use ocfl_say::Say;
use ocfl_separators::Separators;
use std::alloc::Global;

/// A disk on which reports were joined, and what came of it.
#[derive(Drop)]
struct Came<D: Drop> {
    disk: D,
    joined: Result<Joined, JoinStop>,
}

/// A disk on which a cycle was joined, and whether the joined report is whole. `None` if parts keep
/// the cycle from being joined.
#[derive(Drop)]
pub(crate) struct Ended<D: Drop> {
    pub(crate) disk: D,
    pub(crate) whole: Result<Option<bool>, JoinStop>,
}

/// Which cycle is joined, whether the joined report that was made before is whole, if one is there,
/// and whether parts are named that keep it from being joined.
#[derive(Clone, Copy)]
pub(crate) struct Asked {
    pub(crate) cycle: u64,
    pub(crate) made: Option<bool>,
    pub(crate) names: bool,
}

/// Makes the joined report of a cycle of the closed ones of these parts.
fn make<D: JoinDisk + Drop, S: Say>(
    alloc: Global,
    separators: &Separators,
    disk: D,
    cycle: u64,
    parts: &[Option<ClosedPart>],
    out: &mut S,
) -> Came<D>
    ensures came { IsTrue D.told → HasCome separators.now parts.now cycle None (D.parts disk)
        (D.parts result.disk) (D.state disk).seen (D.state result.disk).seen
        (S.said out.old) (S.said out.new) result.joined }
{
    let mut reports = MakingReports::over(alloc, disk, cycle);
    let root = find_root(parts);
    let joined = join(alloc, separators, root, cycle, parts, &mut reports, out);
    let disk = reports.into_disk();
    Came { disk, joined }
}

/// Compares the closed reports of these parts with the joined one that was made of them before.
fn compare<D: JoinDisk + Drop, S: Say>(
    alloc: Global,
    separators: &Separators,
    disk: D,
    cycle: u64,
    whole: bool,
    parts: &[Option<ClosedPart>],
    out: &mut S,
) -> Came<D>
    ensures came { IsTrue D.told → HasCome separators.now parts.now cycle (Some whole)
        (D.parts disk) (D.parts result.disk) (D.state disk).seen (D.state result.disk).seen
        (S.said out.old) (S.said out.new) result.joined }
{
    let mut reports = ComparedReports::over(alloc, disk, cycle, whole);
    let root = find_root(parts);
    let found = join(alloc, separators, root, cycle, parts, &mut reports, out);
    let disk = reports.into_disk();
    Came {
        disk,
        joined: found,
    }
}

/// Makes the joined report, or compares that which was made before.
fn join_on<D: JoinDisk + Drop, S: Say>(
    alloc: Global,
    separators: &Separators,
    disk: D,
    cycle: u64,
    made: Option<bool>,
    parts: &[Option<ClosedPart>],
    out: &mut S,
) -> Came<D>
    ensures came { IsTrue D.told → HasCome separators.now parts.now cycle made (D.parts disk)
        (D.parts result.disk) (D.state disk).seen (D.state result.disk).seen
        (S.said out.old) (S.said out.new) result.joined }
{
    match made {
        Some(whole) => compare(alloc, separators, disk, cycle, whole, parts, out),
        None => make(alloc, separators, disk, cycle, parts, out),
    }
}

/// Says what the joined report of a cycle lacks, which is not whole.
fn note_lacking<D: JoinDisk>(
    alloc: Global,
    disk: &mut D,
    cycle: u64,
    parts: &[Option<ClosedPart>],
) -> Result<(), ReportTrouble>
    ensures said { IsTrue D.told → OnOk result (D.parts disk.new ≡ with_text (lacking_text cycle
        parts.now ((D.parts disk.old).folders.path cycle false)) (D.parts disk.old)) }
    ensures silent { IsTrue D.told → OnErr result (D.parts disk.new ≡ D.parts disk.old) }
    ensures seen { IsTrue D.told → (D.state disk.new).seen ≡ (D.state disk.old).seen }
{
    let path = disk.show_path(cycle, false)?;
    let text = say_lacking(alloc, cycle, parts, path.as_str())?;
    disk.note(text.as_str())
}

/// Names the parts that keep a cycle from being joined.
fn note_missing<D: JoinDisk>(
    alloc: Global,
    disk: &mut D,
    cycle: u64,
    parts: &[Option<ClosedPart>],
    missing: &[MissingPart],
) -> Result<(), ReportTrouble>
    ensures said { IsTrue D.told → OnOk result (D.parts disk.new
        ≡ with_text (missing_text cycle parts.now missing.now) (D.parts disk.old)) }
    ensures silent { IsTrue D.told → OnErr result (D.parts disk.new ≡ D.parts disk.old) }
    ensures seen { IsTrue D.told → (D.state disk.new).seen ≡ (D.state disk.old).seen }
{
    let text = say_missing(alloc, cycle, parts, missing)?;
    disk.note(text.as_str())
}

/// What a call that was not done means for a joining.
pub(crate) fn stop_of(trouble: ReportTrouble) -> JoinStop
    ensures { IsCallStop (λ _. ⊥) result }
{
    match trouble {
        ReportTrouble::Failed => JoinStop::Output(trouble),
        ReportTrouble::Memory => JoinStop::Memory,
    }
}

/// Says what the joined report of a cycle lacks, if it is not whole. Gives whether it is.
fn say_joined<D: JoinDisk>(
    alloc: Global,
    disk: &mut D,
    cycle: u64,
    parts: &[Option<ClosedPart>],
    whole: bool,
) -> Result<Option<bool>, JoinStop>
    ensures whole { IfOk result (λ is. is ≡ Some whole) }
    ensures why { IfErr result (IsCallStop (λ _. ⊥)) }
    ensures said { IsTrue D.told → OnOk result ((D.parts disk.new).folders ≡ with_noted
        (if whole then [] else lacking_text cycle parts.now
        ((D.parts disk.old).folders.path cycle false)) (D.parts disk.old).folders) }
    ensures silent { IsTrue D.told
        → OnErr result ((D.parts disk.new).folders ≡ (D.parts disk.old).folders) }
    ensures seen { IsTrue D.told → (D.state disk.new).seen ≡ (D.state disk.old).seen }
{
    if whole {
        return Ok(Some(whole));
    }
    match note_lacking(alloc, disk, cycle, parts) {
        Ok(()) => Ok(Some(whole)),
        Err(trouble) => Err(stop_of(trouble)),
    }
}

/// Names the parts that keep a cycle from being joined, if that is asked for.
fn say_hindered<D: JoinDisk>(
    alloc: Global,
    disk: &mut D,
    asked: Asked,
    parts: &[Option<ClosedPart>],
    missing: &[MissingPart],
) -> Result<Option<bool>, JoinStop>
    ensures none { IfOk result (λ is. is ≡ None) }
    ensures why { IfErr result (IsCallStop (λ _. ⊥)) }
    ensures said { IsTrue D.told → OnOk result ((D.parts disk.new).folders ≡ with_noted
        (if asked.names then missing_text asked.cycle parts.now missing.now else [])
        (D.parts disk.old).folders) }
    ensures silent { IsTrue D.told
        → OnErr result ((D.parts disk.new).folders ≡ (D.parts disk.old).folders) }
    ensures seen { IsTrue D.told → (D.state disk.new).seen ≡ (D.state disk.old).seen }
{
    if !asked.names {
        return Ok(None);
    }
    match note_missing(alloc, disk, asked.cycle, parts, missing) {
        Ok(()) => Ok(None),
        Err(trouble) => Err(stop_of(trouble)),
    }
}

/// Says of a cycle what its joined report lacks, or which parts keep it from being joined. Gives
/// whether the joined report is whole.
fn say_end<D: JoinDisk>(
    alloc: Global,
    disk: &mut D,
    asked: Asked,
    parts: &[Option<ClosedPart>],
    joined: Result<Joined, JoinStop>,
) -> Result<Option<bool>, JoinStop>
    ensures ends { IfOk result (EndsAs joined) }
    ensures why { IfErr result (StopsAs joined) }
    ensures said { IsTrue D.told → OnOk result ((D.parts disk.new).folders ≡ with_noted
        (said_of parts.now asked.cycle asked.names
        ((D.parts disk.old).folders.path asked.cycle false) joined)
        (D.parts disk.old).folders) }
    ensures silent { IsTrue D.told
        → OnErr result ((D.parts disk.new).folders ≡ (D.parts disk.old).folders) }
    ensures seen { IsTrue D.told → (D.state disk.new).seen ≡ (D.state disk.old).seen }
{
    match joined {
        Ok(joined) => say_joined(alloc, disk, asked.cycle, parts, joined.whole),
        Err(JoinStop::Missing(found)) => say_hindered(alloc, disk, asked, parts, found.as_slice()),
        Err(stop) => Err(stop),
    }
}

/// Joins a cycle of the parts whose checkpoints say these facts, and says what its report lacks, or
/// which parts keep it from being joined.
pub(crate) fn join_one<D: JoinDisk + Drop, S: Say>(
    alloc: Global,
    separators: &Separators,
    facts: &[Option<Facts>],
    disk: D,
    asked: Asked,
    out: &mut S,
) -> Ended<D>
    ensures ended { IsTrue D.told → HasEnded separators.now facts.now asked.cycle asked.made
        asked.names (D.parts disk) (D.parts result.disk)
        (D.state disk).seen (D.state result.disk).seen
        (S.said out.old) (S.said out.new) result.whole }
{
    let mut disk = disk;
    let parts = match find_parts(alloc, &mut disk, facts, asked.cycle) {
        Ok(parts) => parts,
        Err(stop) => {
            let whole = Err(stop);
            return Ended { disk, whole };
        }
    };
    let came = join_on(
        alloc,
        separators,
        disk,
        asked.cycle,
        asked.made,
        parts.as_slice(),
        out,
    );
    let Came { mut disk, joined } = came;
    let whole = say_end(alloc, &mut disk, asked, parts.as_slice(), joined);
    Ended { disk, whole }
}
