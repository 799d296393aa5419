//! The lines that a night appends to the log of its folder.
ghost use Rattle.std.specs.Prelude.{◌≡◌, ◌↔◌, ◌++◌, ◌∷◌, [], Bool, IfErr, IfOk, IsErr, IsNone, IsOk};
ghost use Rattle.std.specs.Prelude.{IsSome, IsTrue, List, None, OnOk, false, max, string_bytes};
ghost use Rattle.ocfl_cursor.specs.State.{state_of};
ghost use Rattle.ocfl_messages.specs.Log.{row_data, stands_text};
ghost use Rattle.ocfl_messages.specs.declared.log.LogRow.TheVariants as row;
ghost use Rattle.ocfl_files.specs.Failing.{stopped_status};
ghost use Rattle.ocfl_journal.specs.Calls.{Given, LogCall, Showed, why_not};
ghost use Rattle.ocfl_journal.specs.Rows.{AreLinesOn, IsRowLine, began_row, left_row, refusal_row};
ghost use Rattle.ocfl_journal.specs.Rows.{run_row, stands_at, stands_next};
ghost use Rattle.ocfl_journal.specs.Logging.{Logs, Takes, log_of};
ghost use Rattle.ocfl_journal.specs.Ending.{EndsLogged, IsLogged, status_by};

use ocfl_cursor::State;
use ocfl_disk::{FsLog, Reason};
use ocfl_files::failing::{Failure, say_failure};
use ocfl_files::timing::seconds_now;
use ocfl_kept::stand::{Standing, at_most};
use ocfl_kept::state::{failed_folder, folder_failure};
use ocfl_kept::state_dir::Folder;
use ocfl_messages::{BeganRow, LeftRow, LogRow, NightRow, RefusalRow, SliceRow, Stands, log_line};
use ocfl_state::{Checkpoint, Left};
use std::alloc::{AllocError, Global};
use std::fs::File;
use std::rt::Files;
use std::time::Clock;

/// Where the lines of a night's log go, and the clock that says when they went: what logs a night
/// needs no more of the system than this.
pub trait NightLog {
    /// Whether it is told what it is asked for. Of one that does not tell, the clauses say nothing.
    ghost told: { Bool } = { false };

    /// What it was asked for, oldest first.
    ghost calls: { Self → List LogCall } = { λ _. [] };

    /// Where memory comes from.
    fn global(&self) -> Global;

    /// The time, in seconds since the epoch.
    fn now(&mut self) -> u64
        ensures { IsTrue told → calls self.new ≡ calls self.old ++ Showed result ∷ [] };

    /// Appends a line, whole or not at all. Fails with the reason if it is not appended.
    fn append(&mut self, line: &[u8]) -> Result<(), Reason>
        ensures { IsTrue told
            → calls self.new ≡ calls self.old ++ Given line.now (why_not result) ∷ [] };
}

/// The log of a state folder, by the system's clock.
#[derive(Drop)]
pub struct SystemLog<'a, R: Files<File = File> + AllocGlobal> {
    rt: &'a R,
    log: FsLog<&'a R>,
}

impl<'a, R: Files<File = File> + AllocGlobal> SystemLog<'a, R> {
    /// That of the folder at a path. Nothing is opened yet.
    pub fn at(rt: &'a R, state: &str) -> Result<SystemLog<'a, R>, AllocError> {
        match FsLog::at(rt, state) {
            Ok(log) => Ok(SystemLog { rt, log }),
            Err(_) => Err(AllocError),
        }
    }
}

impl<R: Files<File = File> + AllocGlobal + Clock> NightLog for SystemLog<'_, R> {
    fn global(&self) -> Global {
        self.rt.alloc()
    }

    fn now(&mut self) -> u64 {
        seconds_now(self.rt)
    }

    fn append(&mut self, line: &[u8]) -> Result<(), Reason> {
        self.log.append(line)
    }
}

/// The lines that are appended while a night is under way: one once it has begun, one for each run,
/// and one for each place that is left out.
pub struct Journal<L: Drop> {
    log: L,
    /// When the night began, in seconds since the epoch.
    night: u64,
    /// Why the last line that was not appended was not.
    lost: Option<Reason>,
}

/// Written by hand, so that to let it go is one call wherever that happens.
impl<L: Drop> Drop for Journal<L> {
    fn drop(self) {
        let Journal {
            log: _log,
            night: _night,
            lost: _lost,
        } = self;
    }
}

/// What a night reads, and by which program.
#[derive(Drop)]
pub(crate) struct Reading {
    /// The path of the storage root.
    pub(crate) root: String,
    /// The number of the part; 0 for the whole root.
    pub(crate) part: u64,
    /// The SHA-256 of the program; empty if it is not known.
    pub(crate) program: String,
}

/// A run that is kept.
#[derive(Clone, Copy)]
pub struct RunMade<'a> {
    /// The checkpoint after it.
    pub checkpoint: &'a Checkpoint,
    /// What its items cost.
    pub cost: u64,
    /// Its status: 3 if it stopped, 1 if it found something, else 0.
    pub status: u8,
}

/// Where a cursor stands.
fn stands_at(state: &State) -> Stands<'_>
    ensures { stands_text result ≡ stands_text (stands_at (state_of state.now)) }
{
    match state {
        State::Start => Stands::Start,
        State::After(place) => Stands::After(place),
        State::Ended => Stands::Ended,
    }
}

/// Where the cycle stands that a night goes on with.
fn stands_next(checkpoint: &Checkpoint) -> Stands<'_>
    ensures { stands_text result ≡ stands_text (stands_next checkpoint.now) }
{
    if Standing::of(checkpoint).is_closed {
        Stands::Start
    } else {
        stands_at(checkpoint.cursor.state())
    }
}

/// The row of a night that has taken up this checkpoint at a time.
fn began_row<'a>(
    time: u64,
    night: u64,
    checkpoint: &'a Checkpoint,
    reading: &'a Reading,
) -> BeganRow<'a>
    ensures { row_data (row.Began result)
        ≡ row_data (began_row night checkpoint.now reading.now time) }
{
    BeganRow {
        time,
        night,
        cycle: Standing::of(checkpoint).next_cycle(),
        stands: stands_next(checkpoint),
        lines: checkpoint.report.lines,
        bytes: checkpoint.report.bytes,
        root: reading.root.as_str(),
        part: reading.part,
        program: reading.program.as_str(),
    }
}

/// The line of a night that has taken up this checkpoint.
fn began_text(
    alloc: Global,
    time: u64,
    night: u64,
    checkpoint: &Checkpoint,
    reading: &Reading,
) -> Result<String, AllocError>
    ensures { IfOk result (λ line. IsRowLine (string_bytes line)
        (began_row night checkpoint.now reading.now time)) }
{
    log_line(
        alloc,
        &LogRow::Began(began_row(time, night, checkpoint, reading)),
    )
}

/// The row of a run that began then, and whose checkpoint is put.
fn run_row(made: RunMade<'_>, night: u64, began: u64, now: u64) -> SliceRow<'_>
    ensures { row_data (row.Slice result) ≡ row_data (run_row night made.entry.checkpoint.now
        made.entry.cost made.entry.status began now) }
{
    let checkpoint = made.checkpoint;
    let Checkpoint { report, cursor, .. } = checkpoint;
    SliceRow {
        time: began,
        night,
        cycle: cursor.cycle(),
        run: cursor.runs(),
        status: made.status,
        cost: made.cost,
        spent: at_most(cursor.spent()),
        files: at_most(cursor.files()),
        lines: report.lines,
        bytes: report.bytes,
        seconds: now.saturating_sub(began),
        stands: stands_at(cursor.state()),
    }
}

/// The line of a run that began then, and whose checkpoint is put.
fn run_text(
    alloc: Global,
    made: RunMade<'_>,
    night: u64,
    began: u64,
    now: u64,
) -> Result<String, AllocError>
    ensures { IfOk result (λ line. IsRowLine (string_bytes line) (run_row night
        made.entry.checkpoint.now made.entry.cost made.entry.status began now)) }
{
    log_line(alloc, &LogRow::Slice(run_row(made, night, began, now)))
}

impl<L: NightLog + Drop> Journal<L> {
    /// That of a night that began then.
    pub(crate) fn of(log: L, night: u64) -> Journal<L>
        ensures { result ≡ record { log = log; night = night; lost = None } }
    {
        Journal {
            log,
            night,
            lost: None,
        }
    }

    /// Why the last line that was not appended was not. `None` if each was, or there was no memory
    /// for it.
    pub(crate) fn lost(&self) -> Option<Reason>
        ensures { result ≡ self.now.lost }
    {
        self.lost
    }

    /// Appends a line, or keeps why it could not be.
    fn append(&mut self, line: &str)
        ensures taken { IsTrue L.told
            → Takes line.now (log_of L.calls self.old) (log_of L.calls self.new) }
        ensures night { self.new.night ≡ self.old.night }
    {
        match self.log.append(line.as_bytes()) {
            Ok(()) => {}
            Err(reason) => self.lost = Some(reason),
        }
    }

    /// Appends the line of a night that has taken up this checkpoint, or keeps why it could not be.
    /// The only error is that there is no memory for the line, which is left out then.
    pub(crate) fn began(
        &mut self,
        checkpoint: &Checkpoint,
        reading: &Reading,
    ) -> Result<(), AllocError>
        ensures logged { IsTrue L.told → OnOk result
            (Logs (began_row self.old.night checkpoint.now reading.now)
            (log_of L.calls self.old) (log_of L.calls self.new)) }
        ensures night { self.new.night ≡ self.old.night }
    {
        let (alloc, time) = (self.log.global(), self.log.now());
        let line = began_text(alloc, time, self.night, checkpoint, reading)?;
        self.append(line.as_str());
        Ok(())
    }

    /// Appends the line of a run that is kept and began then, in seconds since the epoch, or keeps
    /// why it could not be. The only error is that there is no memory for the line, which is left
    /// out then.
    pub fn run(&mut self, made: RunMade<'_>, began: u64) -> Result<(), AllocError>
        ensures logged { IsTrue L.told → OnOk result
            (Logs (run_row self.old.night made.entry.checkpoint.now made.entry.cost
            made.entry.status began) (log_of L.calls self.old) (log_of L.calls self.new)) }
        ensures night { self.new.night ≡ self.old.night }
    {
        let (alloc, now) = (self.log.global(), self.log.now());
        let line = run_text(alloc, made, self.night, began, now)?;
        self.append(line.as_str());
        Ok(())
    }

    /// Appends the line of a place that a checkpoint names as left out, and why it was; that is
    /// empty if it is not known. Or keeps why the line could not be appended. The only error is
    /// that there is no memory for it; it is left out then.
    pub(crate) fn left(&mut self, cycle: u64, left: &Left, why: &str) -> Result<(), AllocError>
        ensures logged { IsTrue L.told → OnOk result
            (Logs (left_row self.old.night cycle left.now why.now)
            (log_of L.calls self.old) (log_of L.calls self.new)) }
        ensures night { self.new.night ≡ self.old.night }
    {
        let (alloc, time) = (self.log.global(), self.log.now());
        let line = left_text(alloc, time, self.night, cycle, left, why)?;
        self.append(line.as_str());
        Ok(())
    }
}

/// The line of a place that is left out.
fn left_text(
    alloc: Global,
    time: u64,
    night: u64,
    cycle: u64,
    left: &Left,
    why: &str,
) -> Result<String, AllocError>
    ensures { IfOk result (λ line. IsRowLine (string_bytes line)
        (left_row night cycle left.now why.now time)) }
{
    let row = LeftRow {
        time,
        night,
        cycle,
        place: &left.place,
        why,
    };
    log_line(alloc, &LogRow::Left(row))
}

/// What the log says of a night.
#[derive(Clone, Copy)]
pub(crate) struct Account<'a> {
    pub(crate) row: NightRow<'a>,
    /// Why it stopped or was refused, if so.
    pub(crate) said: Option<&'a str>,
}

/// The line on why a night stopped or was refused.
fn refusal_line(alloc: Global, row: NightRow<'_>, said: &str) -> Result<String, AllocError>
    ensures { IfOk result (λ line. IsRowLine (string_bytes line)
        (refusal_row row.entry said.entry)) }
{
    let refusal = RefusalRow {
        time: row.time,
        night: row.night,
        status: row.status,
        said,
    };
    log_line(alloc, &LogRow::Refusal(refusal))
}

/// The lines on a night: one on why it stopped, if it did, and one on all of it.
fn lines_of(alloc: Global, account: Account<'_>) -> Result<String, AllocError>
    ensures { IfOk result (λ lines.
        AreLinesOn account.entry.row account.entry.said (string_bytes lines)) }
{
    let Account { row, said } = account;
    let last = log_line(alloc, &LogRow::Night(row))?;
    match said {
        Some(said) => {
            let mut lines = refusal_line(alloc, row, said)?;
            lines.push_str(last.as_str())?;
            Ok(lines)
        }
        None => Ok(last),
    }
}

/// Appends them to the log.
fn append<F: Folder>(
    alloc: Global,
    folder: &mut F,
    state: &str,
    account: Account<'_>,
) -> Result<(), Failure>
    ensures logged { OnOk result (IsLogged account.entry.row account.entry.said
        (F.log folder.old) (F.log folder.new)) }
    ensures failed { IfErr result (λ failure. failure.status ≡ stopped_status) }
{
    let lines = lines_of(alloc, account)?;
    match folder.add_to_log(lines.as_bytes()) {
        Ok(()) => Ok(()),
        Err(_) => Err(failed_folder(alloc, folder, state)),
    }
}

/// That a line before those on a night was not written, if one was not.
fn refuse_lost(alloc: Global, state: &str, lost: Option<Reason>) -> Result<(), Failure>
    ensures lost { IsErr result ↔ IsSome lost }
    ensures failed { IfErr result (λ failure. failure.status ≡ stopped_status) }
{
    match lost {
        Some(_) => Err(Failure::made(folder_failure(alloc, state, lost))),
        None => Ok(()),
    }
}

/// Appends the lines on a night to the log. `lost` is why a line before them was not written.
fn append_all<F: Folder>(
    alloc: Global,
    folder: &mut F,
    state: &str,
    account: Account<'_>,
    lost: Option<Reason>,
) -> Result<(), Failure>
    ensures logged { OnOk result (IsLogged account.entry.row account.entry.said
        (F.log folder.old) (F.log folder.new)) }
    ensures lost { IsOk result → IsNone lost }
    ensures failed { IfErr result (λ failure. failure.status ≡ stopped_status) }
{
    append(alloc, folder, state, account)?;
    refuse_lost(alloc, state, lost)
}

/// The status of a night whose lines were logged, or were not, which is said and makes it 3 at
/// least.
fn status_logged<R: Eprint>(rt: &R, status: u8, logged: Result<(), Failure>) -> u8
    ensures { IfErr logged (λ failure. failure.status ≡ stopped_status)
        → result ≡ status_by status logged }
{
    match logged {
        Ok(()) => status,
        Err(failure) => status.max(say_failure(rt, &failure)),
    }
}

/// Appends the lines on a night to the log, and gives its status. A log that cannot be written, or
/// could not be while the night was under way, is said, and makes the status 3 at least.
pub(crate) fn log_night<R: Eprint, F: Folder>(
    rt: &R,
    alloc: Global,
    folder: &mut F,
    state: &str,
    account: Account<'_>,
    lost: Option<Reason>,
) -> u8
    ensures status { EndsLogged account.entry.row account.entry.said
        (F.log folder.old) (F.log folder.new) result }
    ensures lost { IsSome lost → result ≡ max account.entry.row.status stopped_status }
{
    let logged = append_all(alloc, folder, state, account, lost);
    status_logged(rt, account.row.status, logged)
}
