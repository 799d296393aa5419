//! The closed reports of a state folder, as closings ask for them by the numbers of cycles.
ghost use Rattle.std.specs.Prelude.{◌≡◌, ◌+◌, Err, IfErr, IfOk, IfSome, MatchResult, Ok, Some};
ghost use Rattle.ocfl_accounts.specs.Causes.{IsCause};
ghost use Rattle.ocfl_accounts.specs.declared.closings.ClosingStop.TheVariants.{Failed, Memory};
ghost use Rattle.ocfl_files.specs.Failing.{out_of_memory};
ghost use Rattle.ocfl_closing.specs.Calls.{stop_of as stop_by};

use crate::asking::{
    find_paths, has_list, has_packed, log_closing, make_list, name_list, open_list, open_named,
    read_list, refuse_changed_pair, sync_reports,
};
use crate::calls::ClosingCalls;
use crate::comparing::{
    changed_report, failed_list, failed_report, gone_report, uncompared, uncounted,
};
use crate::report::NamedReport;
use ocfl_accounts::{ClosingStop, Pair};
use ocfl_closed::{Account, ClosedDisk, Paths, compared};
use ocfl_compare::CompareStop;
use ocfl_files::failing::Failure;
use ocfl_reading::expected::Listed;
use ocfl_tree::Place;
use std::alloc::AllocError;
use std::io::{self, ErrorKind};

/// The closed reports of a state folder. It tells what is on the disk if its calls do.
pub(crate) struct FolderClosings<C: ClosingCalls + Drop> {
    calls: C,
    /// When the night began that says them, in seconds since the epoch.
    began: u64,
    /// The digest of the bytes of the list of the objects that must be there. Empty if none was
    /// read since a list of what is gone was made.
    listed: String,
    /// How often what had been opened was not read.
    refused: u64,
    /// Why the last call failed that did.
    failure: Option<Failure>,
}

/// Written by hand, so that to let it go is one call wherever that happens.
impl<C: ClosingCalls + Drop> Drop for FolderClosings<C> {
    fn drop(self) {
        let FolderClosings {
            calls: _calls,
            began: _began,
            listed: _listed,
            refused: _refused,
            failure: _failure,
        } = self;
    }
}

/// Why a closing is not said, by what is said of that.
fn stop_of(failure: &Failure) -> ClosingStop
    ensures { result ≡ stop_by failure.now }
{
    match &failure.text {
        Some(_) => ClosingStop::Failed,
        None => ClosingStop::Memory,
    }
}

/// What was made, or that memory was refused for it.
fn or_memory<T: Drop>(made: Result<T, AllocError>) -> Result<T, ClosingStop>
    ensures { MatchResult made (λ value. result ≡ Ok value) (λ _. result ≡ Err Memory) }
{
    match made {
        Ok(value) => Ok(value),
        Err(_) => Err(ClosingStop::Memory),
    }
}

impl<C: ClosingCalls + Drop> FolderClosings<C> {
    /// Those over these calls, in a night that began at this time.
    pub(crate) fn over(calls: C, began: u64) -> FolderClosings<C>
        ensures calls { result.calls ≡ calls }
        ensures refused { result.refused ≡ 0 }
    {
        let listed = String::new(calls.global());
        FolderClosings {
            calls,
            began,
            listed,
            refused: 0,
            failure: None,
        }
    }

    /// The calls alone.
    pub(crate) fn into_calls(self) -> C
        ensures { result ≡ self.calls }
    {
        let FolderClosings {
            calls,
            began: _began,
            listed: _listed,
            refused: _refused,
            failure: _failure,
        } = self;
        calls
    }

    /// Keeps why a call failed.
    fn keep(&mut self, failure: Failure) -> ClosingStop
        ensures stop { result ≡ stop_by failure }
        ensures kept { self.new.failure ≡ Some failure }
        ensures calls { self.new.calls ≡ self.old.calls }
        ensures refused { self.new.refused ≡ self.old.refused }
        ensures listed { self.new.listed ≡ self.old.listed }
    {
        let stop = stop_of(&failure);
        self.failure = Some(failure);
        stop
    }

    /// What a call gave, or why it failed, which is kept.
    fn answer<T: Drop>(&mut self, made: Result<T, Failure>) -> Result<T, ClosingStop>
        ensures ok { IfOk made (λ value. result ≡ Ok value) }
        ensures err { IfErr made (λ failure. result ≡ Err (stop_by failure)) }
        ensures kept { IfErr made (λ failure. self.new.failure ≡ Some failure) }
        ensures calls { self.new.calls ≡ self.old.calls }
        ensures refused { self.new.refused ≡ self.old.refused }
        ensures listed { self.new.listed ≡ self.old.listed }
    {
        match made {
            Ok(value) => Ok(value),
            Err(failure) => Err(self.keep(failure)),
        }
    }

    /// Keeps why what had been opened was not read.
    fn refuse(&mut self, failure: Failure) -> ClosingStop
        ensures cause { IsCause (C.faults self.old.calls + self.old.refused)
            (C.faults self.new.calls + self.new.refused) result }
        ensures kept { result ≡ Failed → self.new.failure ≡ Some failure }
        ensures calls { self.new.calls ≡ self.old.calls }
    {
        if self.refused == u64::MAX {
            return ClosingStop::Memory;
        }
        self.refused += 1;
        self.keep(failure)
    }

    /// Why a closing was not said.
    fn failure_of(&mut self, stop: ClosingStop) -> Failure
        ensures failed { stop ≡ Failed → IfSome self.old.failure (λ failure. result ≡ failure) }
        ensures memory { stop ≡ Memory → result ≡ out_of_memory }
        ensures calls { self.new.calls ≡ self.old.calls }
        ensures refused { self.new.refused ≡ self.old.refused }
    {
        let alloc = self.calls.global();
        match (stop, self.failure.take()) {
            (ClosingStop::Failed, Some(failure)) => failure,
            (ClosingStop::Memory, _) => Failure::from(AllocError),
            _ => Failure::saying(String::from_str(alloc, "output failed\n")),
        }
    }
}

impl<C: ClosingCalls + Drop> ClosedDisk for FolderClosings<C> {
    type Report = NamedReport<C::Report>;

    type List = C::List;

    type Rows = C::Rows;

    ghost told = { C.told };

    ghost state = { λ d. C.state d.calls };

    ghost faults = { λ d. C.faults d.calls + d.refused };

    ghost reports = { C.reports };

    ghost is_disk = { λ told d. C.is_disk told d.calls };

    fn has_list(&mut self, cycle: u64) -> Result<bool, ClosingStop> {
        or_memory(has_list(&mut self.calls, cycle))
    }

    fn open_list(&mut self, cycle: u64) -> Result<Option<C::Rows>, ClosingStop> {
        let found = open_list(&mut self.calls, cycle);
        self.answer(found)
    }

    fn find_paths(&mut self, pair: &Pair) -> Result<Paths, ClosingStop> {
        or_memory(find_paths(&self.calls, pair))
    }

    fn open_report(
        &mut self,
        cycle: u64,
        whole: bool,
    ) -> Result<Option<NamedReport<C::Report>>, ClosingStop> {
        let found = open_named(&mut self.calls, cycle, whole);
        self.answer(found)
    }

    fn miss_report(&mut self, cycle: u64) -> ClosingStop {
        let failure = gone_report(self.calls.global(), self.calls.path(), cycle);
        self.refuse(failure)
    }

    fn refuse_report(&mut self, report: &NamedReport<C::Report>, error: io::Error) -> ClosingStop {
        let (cycle, whole) = (report.cycle, report.whole);
        let failure = failed_report(self.calls.global(), self.calls.path(), cycle, whole, &error);
        self.refuse(failure)
    }

    fn refuse_reports(
        &mut self,
        pair: &Pair,
        before: u64,
        stop: CompareStop,
        error: Option<io::Error>,
    ) -> ClosingStop {
        let alloc = self.calls.global();
        let failure = match refuse_changed_pair(&mut self.calls, pair) {
            Ok(()) => uncompared(alloc, pair.closed.cycle(), before, stop, error),
            Err(failure) => failure,
        };
        self.refuse(failure)
    }

    fn refuse_changed(&mut self, pair: &Pair, before: u64) -> ClosingStop {
        let (cycle, last) = (pair.closed.cycle(), compared(pair));
        let failure = changed_report(self.calls.global(), cycle, last, before);
        self.refuse(failure)
    }

    fn refuse_search(
        &mut self,
        cycle: u64,
        before: u64,
        stop: CompareStop,
        error: Option<io::Error>,
    ) -> ClosingStop {
        let failure = uncompared(self.calls.global(), cycle, before, stop, error);
        self.refuse(failure)
    }

    fn refuse_list(&mut self, cycle: u64, error: io::Error) -> ClosingStop {
        let failure = failed_list(self.calls.global(), self.calls.path(), cycle, &error);
        self.refuse(failure)
    }

    fn refuse_rows(&mut self, cycle: u64) -> ClosingStop {
        self.refuse_list(cycle, io::Error::from(ErrorKind::InvalidData))
    }

    fn refuse_lines(
        &mut self,
        cycle: u64,
        stop: CompareStop,
        error: Option<io::Error>,
    ) -> ClosingStop {
        let failure = uncounted(self.calls.global(), self.calls.path(), cycle, stop, error);
        self.refuse(failure)
    }

    fn read_listed(&mut self) -> Result<Option<Vec<Place>>, ClosingStop> {
        let found = read_list(&mut self.calls);
        let Some(listed) = self.answer(found)? else {
            return Ok(None);
        };
        let Listed { places, digits } = listed;
        self.listed = digits;
        Ok(Some(places))
    }

    fn make_list(&mut self, cycle: u64) -> Result<C::List, ClosingStop> {
        self.listed = String::new(self.calls.global());
        let made = make_list(&mut self.calls, cycle);
        self.answer(made)
    }

    fn end_list(&mut self, list: &C::List) -> Result<(), ClosingStop> {
        let ended = self.calls.end(list);
        self.answer(ended)
    }

    fn kept_checkpoint(&mut self, cycle: u64) -> Result<Option<Vec<u8>>, ClosingStop> {
        let kept = self.calls.kept(cycle);
        self.answer(kept)
    }

    fn is_packed(&mut self, cycle: u64) -> Result<bool, ClosingStop> {
        or_memory(has_packed(&mut self.calls, cycle))
    }

    fn sync_list(&mut self) -> Result<(), ClosingStop> {
        let synced = self.calls.sync_made();
        self.answer(synced)
    }

    fn rename_list(&mut self, cycle: u64) -> Result<(), ClosingStop> {
        let named = name_list(&mut self.calls, cycle);
        self.answer(named)
    }

    fn sync_folder(&mut self) -> Result<(), ClosingStop> {
        let synced = sync_reports(&mut self.calls);
        self.answer(synced)
    }

    fn remove_list(&mut self) {
        self.calls.remove_made();
    }

    fn log(&mut self, pair: &Pair, account: &Account) -> Result<(), ClosingStop> {
        let list = self.listed.as_str();
        let logged = log_closing(&mut self.calls, self.began, pair, account, list);
        self.answer(logged)
    }

    fn fail(&mut self, stop: ClosingStop) {
        let failure = self.failure_of(stop);
        let _ = self.calls.say(&failure);
    }
}
