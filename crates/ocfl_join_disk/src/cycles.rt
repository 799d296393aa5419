//! The cycles of parts, joined on a disk.
ghost use Rattle.std.specs.Prelude.{◌≡◌, [], Ok, IfErr, IfOk, IsOkAnd, IsTrue, Some, true, false};
ghost use Rattle.std.specs.Prelude.{if◌then◌else◌, string_bytes};
ghost use Rattle.ocfl_tree.specs.Place.{Text};
ghost use Rattle.ocfl_joining.specs.{Cycles.{SaysStop}, Folders.{with_noted}, Stops.{IsCallStop}};
ghost use Rattle.ocfl_joining.specs.Saying.{stop_text, words_of};
ghost use Rattle.ocfl_join_disk.specs.Cycles.{cycles_on};

use crate::coming::{Asked, Ended, join_one, stop_of};
use crate::disk::JoinDisk;
use crate::looking::{has_said, look_at, stop_at};
use ocfl_joining::{
    Facts, FailedCall, JoinEnd, JoinStop, JoinedLook, PartCycles, ReportTrouble, failed_status,
    say_stop,
};
use ocfl_say::Say;
use ocfl_separators::Separators;
use std::alloc::{AllocError, Global};

/// The cycles of the parts that separators make, on a disk: the closed reports of each are joined
/// by `join`, and the words on joined reports are said on an output. It tells what it shows if its
/// disk does.
#[derive(Drop)]
pub struct DiskCycles<'a, D: JoinDisk + Drop, S: Say + Drop> {
    alloc: Global,
    separators: &'a Separators,
    /// What the checkpoints of the parts say.
    facts: &'a [Option<Facts>],
    /// It is lent to a joining while that lasts.
    disk: Option<D>,
    out: S,
}

impl<'a, D: JoinDisk + Drop, S: Say + Drop> DiskCycles<'a, D, S> {
    /// Those of parts whose checkpoints say these facts.
    pub fn over(
        alloc: Global,
        separators: &'a Separators,
        facts: &'a [Option<Facts>],
        disk: D,
        out: S,
    ) -> DiskCycles<'a, D, S>
        ensures separators { result.separators.now ≡ separators.now }
        ensures facts { result.facts.now ≡ facts.now }
        ensures disk { result.disk ≡ Some disk }
        ensures out { result.out ≡ out }
    {
        DiskCycles {
            alloc,
            separators,
            facts,
            disk: Some(disk),
            out,
        }
    }

    /// The disk, unless a joining still has it, and the output.
    pub fn into_given(self) -> (Option<D>, S)
        ensures disk { result.0 ≡ self.entry.disk }
        ensures out { result.1 ≡ self.entry.out }
    {
        let DiskCycles { disk, out, .. } = self;
        (disk, out)
    }
}

/// Says a text, if it was made. Whether it was taken.
fn note_made<D: JoinDisk>(disk: &mut D, text: Result<String, AllocError>) -> bool
    ensures said { IsTrue D.told → result ≡ true → IsOkAnd text (λ text. (D.parts disk.new).folders
        ≡ with_noted (string_bytes text) (D.parts disk.old).folders) }
    ensures silent { IsTrue D.told → result ≡ false → D.parts disk.new ≡ D.parts disk.old }
    ensures seen { IsTrue D.told → (D.state disk.new).seen ≡ (D.state disk.old).seen }
{
    match text {
        Ok(text) => disk.note(text.as_str()).is_ok(),
        Err(_) => false,
    }
}

/// Says why the joining of a cycle stopped, with what the system said of a call that failed.
/// Whether that was taken.
fn note_why<D: JoinDisk>(
    alloc: Global,
    disk: &mut D,
    cycle: u64,
    stop: &JoinStop,
    call: &Option<FailedCall>,
) -> bool
    ensures said { IsTrue D.told → (D.parts disk.new).folders ≡ with_noted (if result
        then stop_text cycle stop.now (words_of call.now) else []) (D.parts disk.old).folders }
    ensures seen { IsTrue D.told → (D.state disk.new).seen ≡ (D.state disk.old).seen }
{
    let text = say_stop(alloc, cycle, stop, call);
    note_made(disk, text)
}

/// The same. Gives the status too.
fn note_stop<D: JoinDisk>(alloc: Global, disk: &mut D, cycle: u64, stop: &JoinStop) -> JoinEnd
    ensures says { IsTrue D.told → (text : Text) × (SaysStop cycle stop.now result text
        × ((D.parts disk.new).folders ≡ with_noted text (D.parts disk.old).folders)) }
    ensures seen { IsTrue D.told → (D.state disk.new).seen ≡ (D.state disk.old).seen }
{
    let call = disk.take_failure();
    let said = note_why(alloc, disk, cycle, stop, &call);
    let status = failed_status(stop, &call);
    JoinEnd { status, said }
}

/// What there is of a cycle, or why its joining stops.
fn looked(made: Result<JoinedLook, ReportTrouble>) -> Result<JoinedLook, JoinStop>
    ensures ok { IfOk result (λ look. made ≡ Ok look) }
    ensures why { IfErr result (IsCallStop (λ _. ⊥)) }
{
    match made {
        Ok(look) => Ok(look),
        Err(trouble) => Err(stop_of(trouble)),
    }
}

/// Whether the part with this number has closed a cycle, or why its joining stops.
fn closed(part: usize, made: Result<bool, ReportTrouble>) -> Result<bool, JoinStop>
    ensures ok { IfOk result (λ is. made ≡ Ok is) }
    ensures why { IfErr result (IsCallStop (λ at. at ≡ part)) }
{
    match made {
        Ok(is) => Ok(is),
        Err(trouble) => Err(stop_at(part, trouble)),
    }
}

impl<D: JoinDisk + Drop, S: Say + Drop> PartCycles for DiskCycles<'_, D, S> {
    ghost told = { D.told };

    ghost seen = { λ s.
        cycles_on D.parts D.state s.separators.now s.facts.now (S.said s.out) s.disk };

    fn look(&mut self, cycle: u64) -> Result<JoinedLook, JoinStop> {
        match &mut self.disk {
            Some(disk) => looked(look_at(disk, cycle)),
            None => Err(JoinStop::Memory),
        }
    }

    fn has_closed(&mut self, part: usize, cycle: u64) -> Result<bool, JoinStop> {
        match &mut self.disk {
            Some(disk) => closed(part, has_said(disk, part, cycle)),
            None => Err(JoinStop::Memory),
        }
    }

    fn join(
        &mut self,
        cycle: u64,
        made: Option<bool>,
        names: bool,
    ) -> Result<Option<bool>, JoinStop> {
        let Some(disk) = self.disk.take() else {
            return Err(JoinStop::Memory);
        };
        let asked = Asked { cycle, made, names };
        let (separators, facts) = (self.separators, self.facts);
        let ended = join_one(self.alloc, separators, facts, disk, asked, &mut self.out);
        let Ended { disk, whole } = ended;
        self.disk = Some(disk);
        whole
    }

    fn fail(&mut self, cycle: u64, stop: &JoinStop) -> JoinEnd {
        match &mut self.disk {
            Some(disk) => note_stop(self.alloc, disk, cycle, stop),
            None => JoinEnd {
                status: failed_status(stop, &None),
                said: false,
            },
        }
    }
}
