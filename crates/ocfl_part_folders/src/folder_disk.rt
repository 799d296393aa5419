//! The state folders of parts, and the folder of their joined reports, as a joining asks for them.
ghost use Rattle.std.specs.Prelude.{◌≡◌, None, Ok, Err, IfErr, IfOk, IsTrue, Some};
ghost use Rattle.ocfl_files.specs.Failing.{OrMemory, StopsOn};
ghost use Rattle.ocfl_files.specs.declared.failing.Failure.{Failure as ModelFailure};
ghost use Rattle.ocfl_kept.specs.FilePaths.{report_path};
ghost use Rattle.ocfl_part_folders.specs.Folder.{files_in, new_path};
ghost use Rattle.ocfl_part_folders.specs.Refusing.{SaysUnjoined, trouble_of as trouble_by};

use crate::asking::{
    find_closed, has_closed, has_joined, has_said, is_packed, make, name_made, open_joined,
    shown_path, sync_reports, unjoined_at, unmade, word_on,
};
use crate::calls::PartCalls;
use crate::failing::{call_of, failed_report, trouble_of};
use crate::opening::open_part;
use ocfl_files::failing::Failure;
use ocfl_join_disk::{JoinDisk, OpenPart};
use ocfl_joining::{Facts, FailedCall, FoundReport, ReportTrouble};
use std::io;

/// The state folders of parts below that of all parts, whose checkpoints say these facts. It tells
/// what is on the disk if the calls do that are made.
pub(crate) struct FolderDisk<'a, C: PartCalls + Drop> {
    calls: C,
    facts: &'a [Option<Facts>],
    /// Why the last call failed that did.
    failure: Option<Failure>,
}

/// Written by hand, so that to let it go is one call wherever that happens.
impl<'a, C: PartCalls + Drop> Drop for FolderDisk<'a, C> {
    fn drop(self) {
        let FolderDisk {
            calls: _calls,
            facts: _facts,
            failure: _failure,
        } = self;
    }
}

impl<'a, C: PartCalls + Drop> FolderDisk<'a, C> {
    /// The folders of the parts of which this is known.
    pub(crate) fn new(calls: C, facts: &'a [Option<Facts>]) -> FolderDisk<'a, C>
        ensures calls { result.calls ≡ calls }
        ensures facts { result.facts.now ≡ facts.now }
        ensures failure { result.failure ≡ None }
    {
        FolderDisk {
            calls,
            facts,
            failure: None,
        }
    }

    /// The calls alone.
    pub(crate) fn into_calls(self) -> C
        ensures { result ≡ self.entry.calls }
    {
        let FolderDisk {
            calls,
            facts: _facts,
            failure: _failure,
        } = self;
        calls
    }

    /// Keeps why a call failed.
    fn keep(&mut self, failure: Failure) -> ReportTrouble
        ensures trouble { result ≡ trouble_by failure }
        ensures kept { self.new.failure ≡ Some failure }
        ensures calls { self.new.calls ≡ self.old.calls }
        ensures facts { self.new.facts ≡ self.old.facts }
    {
        let trouble = trouble_of(&failure);
        self.failure = Some(failure);
        trouble
    }

    /// Keeps that a file in place of the joined report of a cycle is not that, or was not read.
    fn keep_unjoined(&mut self, cycle: u64, whole: bool, error: &Option<io::Error>) -> ReportTrouble
        ensures kept { IsTrue C.told → (failure : ModelFailure) × (SaysUnjoined
            (report_path (C.folder self.old.calls).path cycle whole) error.now failure
            × ((result ≡ trouble_by failure) × (self.new.failure ≡ Some failure))) }
        ensures calls { self.new.calls ≡ self.old.calls }
        ensures facts { self.new.facts ≡ self.old.facts }
    {
        let failure = unjoined_at(&self.calls, cycle, whole, error);
        self.keep(failure)
    }

    /// What a call gave, or why it failed, which is kept.
    fn answer<T: Drop>(&mut self, made: Result<T, Failure>) -> Result<T, ReportTrouble>
        ensures ok { IfOk result (λ value. made ≡ Ok value) }
        ensures err { IfErr result (λ why. (failure : ModelFailure) × ((made ≡ Err failure)
            × ((why ≡ trouble_by failure) × (self.new.failure ≡ Some failure)))) }
        ensures calls { self.new.calls ≡ self.old.calls }
        ensures facts { self.new.facts ≡ self.old.facts }
    {
        match made {
            Ok(made) => Ok(made),
            Err(failure) => Err(self.keep(failure)),
        }
    }

    /// What a call gave on the file in which the joined report of a cycle is made.
    fn answer_made(&mut self, cycle: u64, made: io::Result<()>) -> Result<(), ReportTrouble>
        ensures ok { IfOk result (λ value. made ≡ Ok value) }
        ensures err { IsTrue C.told → IfErr result (λ why. (failure : ModelFailure)
            × (OrMemory (StopsOn (new_path (C.folder self.old.calls).path cycle)) failure
            × ((why ≡ trouble_by failure) × (self.new.failure ≡ Some failure)))) }
        ensures calls { self.new.calls ≡ self.old.calls }
        ensures facts { self.new.facts ≡ self.old.facts }
    {
        match made {
            Ok(()) => Ok(()),
            Err(error) => {
                let failure = unmade(&self.calls, cycle, error);
                Err(self.keep(failure))
            }
        }
    }
}

impl<C: PartCalls + Drop> JoinDisk for FolderDisk<'_, C> {
    type Report = C::Report;

    type Made = C::Made;

    ghost told = { C.told };

    ghost parts = { λ d. files_in d.facts.now (C.folder d.calls) };

    ghost state = { λ d. C.disk d.calls };

    ghost number = { C.number };

    ghost is_disk = { λ told d. C.is_disk told d.calls };

    fn open_part(
        &mut self,
        cycle: u64,
        number: usize,
    ) -> Result<OpenPart<C::Report>, ReportTrouble> {
        let found = open_part(&mut self.calls, self.facts, cycle, number);
        self.answer(found)
    }

    fn keep_failure(&mut self, _cycle: u64, error: io::Error) -> ReportTrouble {
        let failure = failed_report(self.calls.global(), &error);
        self.keep(failure)
    }

    fn open_joined(&mut self, cycle: u64, whole: bool) -> Result<C::Report, ReportTrouble> {
        let made = open_joined(&mut self.calls, cycle, whole);
        self.answer(made)
    }

    fn refuse_joined(
        &mut self,
        cycle: u64,
        whole: bool,
        error: Option<io::Error>,
    ) -> ReportTrouble {
        self.keep_unjoined(cycle, whole, &error)
    }

    fn has_joined(&mut self, cycle: u64, whole: bool) -> Result<bool, ReportTrouble> {
        Ok(has_joined(&mut self.calls, cycle, whole)?)
    }

    fn create(&mut self, cycle: u64) -> Result<C::Made, ReportTrouble> {
        let made = make(&mut self.calls, cycle);
        self.answer(made)
    }

    fn append(
        &mut self,
        cycle: u64,
        file: &mut C::Made,
        bytes: &[u8],
    ) -> Result<(), ReportTrouble> {
        let written = self.calls.append(file, bytes);
        self.answer_made(cycle, written)
    }

    fn sync(&mut self, cycle: u64, file: &C::Made) -> Result<(), ReportTrouble> {
        let synced = self.calls.sync(file);
        self.answer_made(cycle, synced)
    }

    fn find_word(&mut self, cycle: u64, whole: bool) -> Result<Vec<u8>, ReportTrouble> {
        let word = word_on(&mut self.calls, self.facts.len(), cycle, whole);
        self.answer(word)
    }

    fn rename(&mut self, cycle: u64, whole: bool) -> Result<(), ReportTrouble> {
        let named = name_made(&mut self.calls, cycle, whole);
        self.answer(named)
    }

    fn sync_folder(&mut self) -> Result<(), ReportTrouble> {
        let synced = sync_reports(&mut self.calls);
        self.answer(synced)
    }

    fn is_packed(&mut self, cycle: u64, whole: bool) -> Result<bool, ReportTrouble> {
        Ok(is_packed(&mut self.calls, cycle, whole)?)
    }

    fn has_closed(&mut self, cycle: u64, number: usize) -> Result<bool, ReportTrouble> {
        Ok(has_closed(&mut self.calls, cycle, number)?)
    }

    fn has_said(&mut self, cycle: u64, number: usize) -> Result<bool, ReportTrouble> {
        Ok(has_said(&mut self.calls, cycle, number)?)
    }

    fn find_closed(
        &mut self,
        cycle: u64,
        number: usize,
    ) -> Result<Option<FoundReport>, ReportTrouble> {
        let found = find_closed(&mut self.calls, cycle, number);
        self.answer(found)
    }

    fn show_path(&mut self, cycle: u64, whole: bool) -> Result<String, ReportTrouble> {
        Ok(shown_path(&self.calls, cycle, whole)?)
    }

    fn note(&mut self, text: &str) -> Result<(), ReportTrouble> {
        Ok(self.calls.say(text)?)
    }

    fn take_failure(&mut self) -> Option<FailedCall> {
        let failure = self.failure.take()?;
        call_of(self.calls.global(), &failure)
    }
}
