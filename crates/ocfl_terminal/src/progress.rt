//! Progress: one line on a terminal, which is written over again while a command works.
ghost use Rattle.std.specs.Prelude.{◌≡◌, ◌+◌};
ghost use Rattle.ocfl_terminal.specs.Progress.{share};

use crate::naming::why_failed;
use ocfl_files::reasons::{Reasons, keep_reason};
use ocfl_folder::{FsTree, System};
use ocfl_inventory::{Level, is_declaration_name};
use ocfl_report::DisplayPlace;
use ocfl_tree::{Entry, Kind, Place, Tree, Trouble};
use std::alloc::{AllocError, Global};
use std::cell::Cell;
use std::io::{self, IsTerminal, Write};
use std::rt::Files;
use std::time::{Clock, Instant};

/// The work from one showing to the next, in bytes: a fifth of a second and more.
const STEP: u64 = 256 << 20;

/// The work of a listing or of an opening: the bytes that could be hashed in its time.
const CALL: u64 = 32 << 10;

/// How long the line is at most.
const WIDTH: usize = 79;

/// How much of a place is shown at most, from its end.
const TAIL: usize = 40;

/// Which outputs go to a terminal.
#[derive(Clone, Copy)]
pub struct Terminals {
    pub output: bool,
    pub error: bool,
}

/// Asks the system which outputs go to a terminal.
pub fn find_terminals(rt: &HostRuntime) -> Terminals {
    Terminals {
        output: rt.stdout().is_terminal(),
        error: rt.stderr().is_terminal(),
    }
}

/// Removes what is shown.
pub fn clear<R: Eprint>(rt: &R) {
    let _ = eprint!(rt; "\r{:79}\r", "");
}

/// The last part of a text in ASCII, of at most this length.
fn tail(text: &str, room: usize) -> &str {
    text.get(text.len().saturating_sub(room)..).unwrap_or("")
}

/// Whether these are the entries of an object's root directory.
fn declare_object(entries: &[Entry]) -> bool {
    for entry in entries {
        if entry.kind == Kind::File && is_declaration_name(Level::Object, entry.name.as_str()) {
            return true;
        }
    }
    false
}

/// How many hundredths of the last cycle's cost so many files and bytes cost; no more than 999, so
/// that the line fits. `None` if that cost is not known, or nothing.
fn percent(files: u64, bytes: u64, last: Option<u128>) -> Option<u128>
    ensures { result ≡ share (files + bytes) last }
{
    let last = last?;
    if last == 0 {
        return None;
    }
    let cost = u128::from(files) + u128::from(bytes);
    Some((cost * 100 / last).min(999))
}

/// How much of a cycle was read, in hundredths of the last one, and the minutes left if they are
/// known.
fn share_text(alloc: Global, share: u128, minutes: Option<u128>) -> Result<String, AllocError> {
    match minutes {
        Some(minutes) => format!(in alloc; "{share} % of the last cycle, {minutes} min left, "),
        None => format!(in alloc; "{share} % of the last cycle, "),
    }
}

/// What was read, and where.
fn line_of(
    alloc: Global,
    files: u64,
    mebibytes: u64,
    share: &str,
    place: &Place,
) -> Result<String, AllocError> {
    let mut line = format!(in alloc; "{files} files, {mebibytes} MiB, {share}at ")?;
    let place = format!(in alloc; "{}", DisplayPlace(place))?;
    let room = WIDTH.saturating_sub(line.len()).min(TAIL);
    line.push_str(tail(place.as_str(), room))?;
    Ok(line)
}

/// What progress asks of the system: what shows it needs no more of it than this.
pub trait Sight {
    /// Where memory comes from.
    fn global(&self) -> Global;

    /// The time, if the clock can be read.
    fn now(&self) -> Option<Instant>;

    /// How many seconds have passed since then, if the clock can be read.
    fn seconds_since(&self, began: Instant) -> Option<u64>;

    /// Shows a line in place of the one before.
    fn show_line(&self, line: &str);

    /// Why a call failed, in words, if there is memory for them.
    fn words_on(&self, error: io::Error) -> Option<String>;
}

impl<R: Files + AllocGlobal + Clock + Eprint> Sight for R {
    fn global(&self) -> Global {
        self.alloc()
    }

    fn now(&self) -> Option<Instant> {
        Instant::now(self).ok()
    }

    fn seconds_since(&self, began: Instant) -> Option<u64> {
        match began.elapsed(self) {
            Ok(passed) => Some(passed.as_secs()),
            Err(_) => None,
        }
    }

    fn show_line(&self, line: &str) {
        let _ = eprint!(self; "\r{line:<79}");
    }

    fn words_on(&self, error: io::Error) -> Option<String> {
        why_failed(self, error).ok()
    }
}

/// A store that knows why its last call failed that did.
pub trait Reasoned {
    fn reason_of_last(&self) -> Option<io::Error>;
}

impl<S: System + Drop> Reasoned for FsTree<S> {
    fn reason_of_last(&self) -> Option<io::Error> {
        self.reason()
    }
}

/// A store that shows how much of its content was read, and keeps why a place could not be read.
pub struct Watched<'a, R, T> {
    store: &'a mut T,
    rt: &'a R,
    is_shown: bool,
    reasons: &'a Cell<Reasons>,
    /// What the last cycle cost, if that is known.
    last_cost: Option<u128>,
    /// When the work began, if the clock can be read.
    began: Option<Instant>,
    /// The content files that were opened, and the bytes that were read of them.
    files: u64,
    bytes: u64,
    is_content: bool,
    /// The work since it was shown.
    work: u64,
    /// The place that is read, if it is shown.
    place: Place,
    /// The object that was listed last.
    object: Option<Place>,
}

/// Written by hand, so that to let it go is one call wherever that happens.
impl<R, T> Drop for Watched<'_, R, T> {
    fn drop(self) {
        let Watched {
            store: _store,
            rt: _rt,
            is_shown: _is_shown,
            reasons: _reasons,
            last_cost: _last_cost,
            began: _began,
            files: _files,
            bytes: _bytes,
            is_content: _is_content,
            work: _work,
            place: _place,
            object: _object,
        } = self;
    }
}

impl<'a, R: Sight, T: Reasoned> Watched<'a, R, T> {
    pub fn over(
        rt: &'a R,
        store: &'a mut T,
        is_shown: bool,
        reasons: &'a Cell<Reasons>,
        last_cost: Option<u128>,
    ) -> Watched<'a, R, T> {
        Watched {
            store,
            rt,
            is_shown,
            reasons,
            last_cost,
            began: rt.now(),
            files: 0,
            bytes: 0,
            is_content: false,
            work: 0,
            place: Place::root(rt.global()),
            object: None,
        }
    }

    /// Counts the work at a place, and shows it when it is time to.
    fn reach(&mut self, place: &Place)
        ensures { self.new.store ≡ self.old.store }
    {
        // Its text is made when it is shown. If memory is refused, the place before stays.
        if let Ok(place) = place.try_clone() {
            self.place = place;
        }
        self.add(CALL);
    }

    /// Keeps why the place could not be read that is read, if the device failed.
    fn keep(&self, trouble: Trouble) {
        if trouble != Trouble::Device {
            return;
        }
        if let Some(error) = self.store.reason_of_last() {
            let words = self.rt.words_on(error);
            keep_reason(self.rt.global(), self.reasons, &self.place, words);
        }
    }

    fn add(&mut self, work: u64)
        ensures { self.new.store ≡ self.old.store }
    {
        self.work = self.work.saturating_add(work);
        if self.is_shown && self.work >= STEP {
            self.work = 0;
            self.show();
        }
    }

    /// Shows what was read, and where. If memory is refused, what was shown before stays.
    fn show(&self) {
        if let Ok(line) = self.line() {
            self.rt.show_line(line.as_str());
        }
    }

    fn line(&self) -> Result<String, AllocError> {
        let share = self.share()?;
        line_of(
            self.rt.global(),
            self.files,
            self.bytes >> 20,
            share.as_str(),
            &self.place,
        )
    }

    /// How far the run is, by the cost of the last cycle if that is known, and the time left.
    fn share(&self) -> Result<String, AllocError> {
        match percent(self.files, self.bytes, self.last_cost) {
            Some(share) => share_text(self.rt.global(), share, self.minutes_left(share)),
            None => Ok(String::new(self.rt.global())),
        }
    }

    /// How many minutes the rest of the cycle would take, the last one begun. `None` before the
    /// first hundredth and after the last, and if the clock cannot be read.
    fn minutes_left(&self, share: u128) -> Option<u128> {
        if share >= 100 {
            return None;
        }
        let seconds = u128::from(self.rt.seconds_since(self.began?)?);
        let left = seconds.saturating_mul(100 - share).checked_div(share)?;
        Some(left / 60 + 1)
    }
}

impl<R, T> Watched<'_, R, T> {
    /// Keeps the place of an object that was listed. The storage root and what is below an object
    /// are none.
    fn note_listing(&mut self, place: &Place, entries: &[Entry])
        ensures { self.new.store ≡ self.old.store }
    {
        let is_object = !place.path().is_empty() && declare_object(entries);
        if !self.is_shown || !is_object || self.is_in_object(place) {
            return;
        }
        if let Ok(object) = place.try_clone() {
            self.object = Some(object);
        }
    }

    fn is_in_object(&self, place: &Place) -> bool {
        match &self.object {
            Some(object) => place.starts_with(object),
            None => false,
        }
    }

    /// Whether the file at a place is hashed for itself: content, or the inventory of a version
    /// directory. Declarations and the inventory of the object are in the storage root or in the
    /// object's root directory, sidecars there and in version directories. Content is deeper.
    fn has_content_at(&self, place: &Place) -> bool {
        let (Some(object), Some((_, name))) = (&self.object, place.split_last()) else {
            return false;
        };
        match place.depth().saturating_sub(object.depth()) {
            0 | 1 => false,
            2 => name == "inventory.json",
            _ => true,
        }
    }
}

/// Does what the inner store does, with the same contract.
impl<R: Sight, T: Tree + Reasoned> Tree for Watched<'_, R, T> {
    ghost told = { T.told };

    ghost state = { λ watched. T.state watched.store.now };

    fn list(&mut self, place: &Place) -> Result<Vec<Entry>, Trouble> {
        self.reach(place);
        match self.store.list(place) {
            Ok(entries) => {
                self.note_listing(place, &entries);
                Ok(entries)
            }
            Err(trouble) => {
                self.keep(trouble);
                Err(trouble)
            }
        }
    }

    fn open(&mut self, place: &Place) -> Result<(), Trouble> {
        self.reach(place);
        self.is_content = self.has_content_at(place);
        if self.is_content {
            self.files = self.files.saturating_add(1);
        }
        match self.store.open(place) {
            Ok(()) => Ok(()),
            Err(trouble) => {
                self.keep(trouble);
                Err(trouble)
            }
        }
    }

    fn read(&mut self, buffer: &mut [u8]) -> Result<usize, Trouble> {
        let count = match self.store.read(buffer) {
            Ok(count) => count,
            Err(trouble) => {
                self.keep(trouble);
                return Err(trouble);
            }
        };
        if self.is_content {
            self.bytes = self.bytes.saturating_add(count as u64);
        }
        self.add(count as u64);
        Ok(count)
    }

    fn close(&mut self) {
        self.store.close();
    }
}

/// An output that goes to the terminal that shows progress, which it removes before each write.
#[derive(Drop)]
pub struct Clearing<'a, R, W: Drop> {
    pub rt: &'a R,
    pub is_shared: bool,
    pub out: W,
}

/// It has taken what the writer below it has.
impl<R: Eprint, W: Write + Drop> Write for Clearing<'_, R, W> {
    ghost contents = { λ c. W.contents c.out };

    fn write(&mut self, buffer: &[u8]) -> io::Result<usize> {
        if self.is_shared {
            clear(self.rt);
        }
        self.out.write(buffer)
    }

    fn flush(&mut self) -> io::Result<()> {
        self.out.flush()
    }
}
