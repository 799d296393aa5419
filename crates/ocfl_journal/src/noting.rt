//! A state folder whose checkpoints are noted as they are put.
ghost use Rattle.std.specs.Prelude.{◌≡◌, ◌==◌, ◌⊎◌, [], IfOk, IfSome, IsSome, IsTrue, None, OnOk, Some};
ghost use Rattle.std.specs.Prelude.{if◌then◌else◌, string_bytes, unwrap_or};
ghost use Rattle.std.specs.Option.{option_map};
ghost use Rattle.ocfl_kept.specs.Standing.{spent_until};
ghost use Rattle.ocfl_journal.specs.Begun.{IsBegunBy, IsFirst};
ghost use Rattle.ocfl_journal.specs.Logging.{LogsAll, log_of};
ghost use Rattle.ocfl_journal.specs.Noting.{IsReadingOf, KeepsReason, began_rows};
ghost use Rattle.ocfl_journal.specs.Noting.{left_rows, newly_left, noted_at, rows_on};

use crate::begun::{Begun, read_begun};
use crate::logging::{Journal, NightLog, Reading, SystemLog};
use ocfl_disk::Reason as StateReason;
use ocfl_files::failing::Failure;
use ocfl_files::reasons::{Reason, Reasons, last_reason};
use ocfl_kept::names::About;
use ocfl_kept::stand::Standing;
use ocfl_kept::state::open_state;
use ocfl_kept::state_dir::{Folder, StateDir};
use ocfl_messages::Heads;
use ocfl_report::Line;
use ocfl_speaking::{Speaker, heads_before};
use ocfl_state::{Checkpoint, Left, Observed, Observer, StateFolder, decode_checkpoint};
use std::alloc::{AllocError, Global};
use std::cell::Cell;
use std::fs::File;
use std::rc::Rc;
use std::rt::Files;
use std::time::Clock;

/// Where the nights stand by the checkpoint that was put last. What is said of a night, and its
/// clock, go by that. That the night has begun is logged, and each place that is left out.
pub struct Notes<L: Drop> {
    alloc: Global,
    standing: Standing,
    /// The same, for what is said meanwhile.
    shown: Rc<Cell<Standing>>,
    journal: Journal<L>,
    /// What the night reads. `None` once it has begun.
    reading: Option<Reading>,
    /// Why places of the storage root could not be read.
    reasons: Rc<Cell<Reasons>>,
    /// The places that were left out since the night began, and why.
    left: Vec<Reason>,
}

/// Written by hand, so that to let it go is one call wherever that happens.
impl<L: Drop> Drop for Notes<L> {
    fn drop(self) {
        let Notes {
            alloc: _alloc,
            standing: _standing,
            shown: _shown,
            journal: _journal,
            reading: _reading,
            reasons: _reasons,
            left: _left,
        } = self;
    }
}

/// A state folder, and what is noted of its checkpoints.
#[derive(Drop)]
pub struct Noting<F: Drop, L: Drop> {
    /// The folder. A night over it notes each checkpoint that it puts.
    pub folder: Observed<F, Notes<L>>,
    /// Where the night began.
    pub(crate) begun: Begun,
}

/// One over the state folder of the file system.
pub type OnDisk<'a, R> = Noting<StateDir<'a, R>, SystemLog<'a, R>>;

/// What stands beside the state folder in a night.
#[derive(Drop)]
pub struct Beside<'n, L: Drop> {
    /// What logs the runs.
    pub journal: Journal<L>,
    /// What makes the messages, and what it speaks by.
    pub speaker: Speaker<'n>,
    pub spoken_by: SpokenBy,
    /// Why places of the storage root could not be read.
    pub reasons: Rc<Cell<Reasons>>,
}

/// What a message goes by that is made: where the nights stand, and why places could not be read
/// since the message before.
#[derive(Drop)]
pub struct SpokenBy {
    pub now: Rc<Cell<Standing>>,
    pub reasons: Rc<Cell<Reasons>>,
}

/// What a night spent, and what it said of its runs.
pub struct Totals {
    /// What the items of its runs cost, at most 2^64 - 1.
    pub cost: u64,
    /// How many findings were said, and how many lines of the report were none.
    pub findings: u64,
    pub broken: u64,
    /// The lines of the report that were said.
    pub said: Vec<Line>,
    /// Why the line on a run was not logged, if one was not.
    pub lost: Option<StateReason>,
}

/// Written by hand, so that to let it go is one call wherever that happens.
impl Drop for Totals {
    fn drop(self) {
        let Totals {
            cost: _cost,
            findings: _findings,
            broken: _broken,
            said: _said,
            lost: _lost,
        } = self;
    }
}

/// What a night reads, and by which program.
fn reading_of(alloc: Global, about: About<'_>) -> Result<Reading, AllocError>
    ensures { IfOk result (λ reading. IsReadingOf about.entry reading) }
{
    Ok(Reading {
        root: String::from_str(alloc, about.names.root)?,
        part: about.names.part.unwrap_or(0),
        program: String::from_str(alloc, about.program)?,
    })
}

/// Notes on the checkpoints of a night that reads this and has not begun, where the nights stand
/// so.
fn notes_of<L: NightLog + Drop>(
    reading: Reading,
    standing: Standing,
    journal: Journal<L>,
    alloc: Global,
) -> Result<Notes<L>, AllocError>
    ensures reading { IfOk result (λ notes. notes.reading ≡ Some reading) }
    ensures standing { IfOk result (λ notes. notes.standing ≡ standing) }
    ensures journal { IfOk result (λ notes. notes.journal ≡ journal) }
    ensures left { IfOk result (λ notes. notes.left.items ≡ []) }
{
    let shown = Rc::new(alloc, Cell::new(standing))?;
    let reasons = Rc::new(alloc, Cell::new(Reasons::new(alloc)))?;
    Ok(Notes {
        alloc,
        standing,
        shown,
        journal,
        reading: Some(reading),
        reasons,
        left: Vec::new(alloc),
    })
}

/// Notes on a folder that is open, which are logged so.
fn noting_over<F: Folder + Drop, L: NightLog + Drop>(
    alloc: Global,
    about: About<'_>,
    folder: F,
    log: L,
) -> Result<Noting<F, L>, AllocError>
    ensures begun { IsTrue F.shown → IfOk result (λ noting.
        IsFirst noting.begun ⊎ IsBegunBy (F.holding folder).checkpoint noting.begun) }
    ensures standing { IfOk result (λ noting.
        noting.folder.observer.standing ≡ noting.begun.standing) }
    ensures reading { IfOk result (λ noting. IfSome noting.folder.observer.reading
        (IsReadingOf about.entry)) }
    ensures unbegun { IfOk result (λ noting. IsSome noting.folder.observer.reading) }
    ensures journal { IfOk result (λ noting. noting.folder.observer.journal
        ≡ record { log = log; night = about.entry.began; lost = None }) }
    ensures left { IfOk result (λ noting. noting.folder.observer.left.items ≡ []) }
{
    let mut folder = folder;
    let begun = read_begun(alloc, &mut folder)?;
    let journal = Journal::of(log, about.began);
    let observer = notes_of(reading_of(alloc, about)?, begun.standing, journal, alloc)?;
    Ok(Noting {
        folder: Observed { folder, observer },
        begun,
    })
}

/// Opens the state folder of a night, and holds its lock. With `create` the folder is made if it is
/// not there.
pub fn open_noting<'a, R>(
    rt: &'a R,
    about: About<'_>,
    create: bool,
) -> Result<OnDisk<'a, R>, Failure>
where
    R: Files<File = File> + AllocGlobal + Clock,
{
    let names = about.names;
    let folder = open_state(rt, names.state, names.root, create)?;
    let log = SystemLog::at(rt, names.state)?;
    Ok(noting_over(rt.alloc(), about, folder, log)?)
}

impl<F: Folder + StateFolder + Drop, L: NightLog + Drop> Noting<F, L> {
    /// Where the night began.
    pub fn began(&self) -> Standing
        ensures { result ≡ self.now.begun.standing }
    {
        self.begun.standing
    }

    /// Why the last call on the folder failed that did.
    pub fn reason(&self) -> Option<StateReason> {
        self.folder.folder.last_reason()
    }

    /// The places that were left out since the night began, and why.
    pub(crate) fn left(&self) -> &[Reason]
        ensures { result.now ≡ self.now.folder.observer.left.items }
    {
        &self.folder.observer.left
    }

    /// Why a line of the log was not appended, if one was not: that the night began, or that a
    /// place was left out.
    pub(crate) fn lost(&self) -> Option<StateReason>
        ensures { result ≡ self.now.folder.observer.journal.lost }
    {
        self.folder.observer.journal.lost()
    }

    /// What stands beside the folder in the night, whose runs are logged so.
    pub fn beside<'n>(&mut self, about: About<'n>, log: L) -> Result<Beside<'n, L>, AllocError>
        ensures journal { IfOk result (λ beside. beside.journal
            ≡ record { log = log; night = about.entry.began; lost = None }) }
        ensures names { IfOk result (λ beside. beside.speaker.names ≡ about.entry.names) }
        ensures known { IfOk result (λ beside. beside.speaker.known ≡ about.entry.known) }
        ensures said_to { IfOk result (λ beside.
            beside.speaker.said_to ≡ self.old.folder.observer.standing) }
        ensures begun { self.new.begun ≡ self.old.begun }
        ensures observer { self.new.folder.observer ≡ self.old.folder.observer }
    {
        let alloc = self.folder.observer.alloc;
        let heads = heads_before(alloc, &mut self.folder.folder, self.begun.said).unwrap_or(
            Heads::new(),
        );
        let notes = &self.folder.observer;
        let (now, reasons) = (notes.shown.clone()?, notes.reasons.clone()?);
        Ok(Beside {
            speaker: Speaker::new(alloc, about.names, about.known, notes.standing, heads),
            spoken_by: SpokenBy { now, reasons },
            journal: Journal::of(log, about.began),
            reasons: notes.reasons.clone()?,
        })
    }

    /// What the night spent, what was said of its runs, and why one was not logged, if so.
    pub fn totals_by(&self, speaker: Speaker<'_>, runs: &Journal<L>) -> Totals
        ensures cost { result.cost ≡ spent_until self.now.begun.standing
            self.now.folder.observer.standing }
        ensures findings { result.findings ≡ speaker.entry.gone }
        ensures broken { result.broken ≡ speaker.entry.sifting.broken }
        ensures said { result.said.items ≡ (if speaker.entry.findings == speaker.entry.gone
            then speaker.entry.said.items else []) }
        ensures lost { result.lost ≡ runs.now.lost }
    {
        Totals {
            cost: self
                .begun
                .standing
                .spent_until(self.folder.observer.standing),
            findings: speaker.findings(),
            broken: speaker.broken(),
            said: speaker.into_said(),
            lost: runs.lost(),
        }
    }

    /// The folder.
    pub(crate) fn into_folder(self) -> F
        ensures { result ≡ self.folder.folder }
    {
        let Noting {
            folder,
            begun: _begun,
        } = self;
        let Observed {
            folder,
            observer: _observer,
        } = folder;
        folder
    }
}

/// The branch that a checkpoint leaves out which was not left out when the nights stood there.
fn newly_left(before: Standing, checkpoint: &Checkpoint) -> Option<&Left>
    ensures { option_map (λ l. l.now) result ≡ newly_left before checkpoint.now }
{
    let now = Standing::of(checkpoint).noted_after(before);
    if now.leaves_more_than(before) {
        checkpoint.left.last()
    } else {
        None
    }
}

impl<L: NightLog + Drop> Notes<L> {
    /// Logs that the night has begun. The first checkpoint that it puts is the one that it took up.
    fn log_began(&mut self, checkpoint: &Checkpoint) -> Result<(), AllocError>
        ensures logged { IsTrue L.told → OnOk result
            (LogsAll (began_rows self.old.journal.night checkpoint.now self.old.reading)
            (log_of L.calls self.old.journal) (log_of L.calls self.new.journal)) }
        ensures begun { self.new.reading ≡ None }
        ensures night { self.new.journal.night ≡ self.old.journal.night }
        ensures standing { self.new.standing ≡ self.old.standing }
        ensures left { self.new.left ≡ self.old.left }
    {
        match self.reading.take() {
            Some(reading) => self.journal.began(checkpoint, &reading),
            None => Ok(()),
        }
    }

    /// Keeps why a branch was left out.
    fn keep_left(&mut self, left: &Left, words: String) -> Result<(), AllocError>
        ensures kept { OnOk result (KeepsReason (Some left.now) (Some (string_bytes words))
            self.old.left.items self.new.left.items) }
        ensures same { self.new ≡ record self.old { left = self.new.left } }
    {
        let place = left.place.try_clone()?;
        self.left.push(Reason { place, words })?;
        Ok(())
    }

    /// Logs a branch of a cycle that is left out newly, and keeps why, if that is known.
    fn log_left(&mut self, cycle: u64, left: &Left, words: Option<String>) -> Result<(), AllocError>
        ensures logged { IsTrue L.told → OnOk result (LogsAll (left_rows self.old.journal.night
            cycle (unwrap_or (option_map string_bytes words) []) (Some left.now))
            (log_of L.calls self.old.journal) (log_of L.calls self.new.journal)) }
        ensures kept { OnOk result (KeepsReason (Some left.now)
            (option_map string_bytes words) self.old.left.items self.new.left.items) }
        ensures begun { self.new.reading ≡ self.old.reading }
        ensures standing { self.new.standing ≡ self.old.standing }
    {
        let Some(words) = words else {
            return self.journal.left(cycle, left, "");
        };
        let logged = self.journal.left(cycle, left, words.as_str());
        self.keep_left(left, words)?;
        logged
    }

    /// The words on the call over the storage root that failed last, if a checkpoint leaves out a
    /// branch newly.
    fn words_on(&self, checkpoint: &Checkpoint) -> Option<String>
        ensures { newly_left self.now.standing checkpoint.now ≡ None → result ≡ None }
    {
        match newly_left(self.standing, checkpoint) {
            Some(_) => last_reason(self.alloc, &self.reasons),
            None => None,
        }
    }

    /// Logs a branch that a checkpoint leaves out newly, if it does.
    fn log_newly_left(
        &mut self,
        checkpoint: &Checkpoint,
        words: Option<String>,
    ) -> Result<(), AllocError>
        ensures logged { IsTrue L.told → OnOk result (LogsAll (left_rows self.old.journal.night
            checkpoint.now.cursor.cycle (unwrap_or (option_map string_bytes words) [])
            (newly_left self.old.standing checkpoint.now))
            (log_of L.calls self.old.journal) (log_of L.calls self.new.journal)) }
        ensures kept { OnOk result (KeepsReason (newly_left self.old.standing checkpoint.now)
            (option_map string_bytes words) self.old.left.items self.new.left.items) }
        ensures begun { self.new.reading ≡ self.old.reading }
        ensures standing { self.new.standing ≡ self.old.standing }
    {
        match newly_left(self.standing, checkpoint) {
            Some(left) => self.log_left(checkpoint.cursor.cycle(), left, words),
            None => Ok(()),
        }
    }

    /// Notes a checkpoint, with the words on the call over the storage root that failed last. The
    /// only error is that there was no memory to log something, or to keep why a branch was left
    /// out.
    fn note_read(
        &mut self,
        checkpoint: &Checkpoint,
        words: Option<String>,
    ) -> Result<(), AllocError>
        ensures logged { IsTrue L.told → OnOk result (LogsAll (rows_on self.old.journal.night
            self.old.reading self.old.standing checkpoint.now
            (unwrap_or (option_map string_bytes words) []))
            (log_of L.calls self.old.journal) (log_of L.calls self.new.journal)) }
        ensures kept { OnOk result (KeepsReason (newly_left self.old.standing checkpoint.now)
            (option_map string_bytes words) self.old.left.items self.new.left.items) }
        ensures begun { self.new.reading ≡ None }
        ensures standing { self.new.standing ≡ noted_at self.old.standing checkpoint.now }
    {
        let began = self.log_began(checkpoint);
        let left = self.log_newly_left(checkpoint, words);
        self.standing = Standing::of(checkpoint).noted_after(self.standing);
        began?;
        left
    }
}

impl<L: NightLog + Drop> Observer for Notes<L> {
    /// Notes a checkpoint. One for which there is no memory is not noted.
    fn note(&mut self, bytes: &[u8]) {
        if let Ok(checkpoint) = decode_checkpoint(self.alloc, bytes) {
            let words = self.words_on(&checkpoint);
            let _ = self.note_read(&checkpoint, words);
            self.shown.set(self.standing);
        }
    }
}
