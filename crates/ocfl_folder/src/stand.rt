//! Which directory a folder is in.
ghost use Rattle.std.specs.Prelude.{◌≡◌, ◌≢◌, ◌≤◌, ◌<◌, ◌++◌, IsTrue, IfOk, IfErr, IsOk, OnOk, OnErr, []};
ghost use Rattle.std.specs.Prelude.{MatchResult, Some, None, List, ℕ, length, take};
ghost use Rattle.ocfl_tree.specs.{StorageRoot.{file, dir, at}, Listing.{IsListing, IsOrdinary}};
ghost use Rattle.ocfl_tree.specs.declared.store.Trouble.TheVariants.{Absent};
ghost use Rattle.ocfl_tree.specs.{Place.{Place as Spot}, Path.{names_of}};
ghost use Rattle.ocfl_folder.specs.Internal.Absence.{IsAbsent};
ghost use Rattle.ocfl_folder.specs.Noted.{with_answer, with_read, with_room, IsReading, IsKeepable};

use crate::answer::{Answer, ReadAnswer};
use crate::failure::Failure;
use crate::fault::{TryFault, out_of_memory, too_often, unless_interrupted, wrong};
use crate::going::{descend, start, turn};
use crate::node::Node;
use crate::reading::{TRIES, list_here, open_here, read_on};
use crate::system::System;
use ocfl_tree::{Entry, Place, Trouble};
use std::alloc::{AllocError, Global};
use std::io;

/// A system, and in which directory of the folder it is, if that is known.
#[derive(Drop)]
pub(crate) struct Stand<S: System + Drop> {
    alloc: Global,
    pub(crate) system: S,
    here: Option<Place>,
    /// Which directory each name on the way here led to.
    way: Vec<Node>,
    ghost stands: { IsTrue S.told → (p : Spot) → here ≡ Some p → (S.state system).here ≡ Some p },
}

impl<S: System + Drop> Stand<S> {
    pub(crate) fn new(alloc: Global, system: S) -> Stand<S>
        ensures { result.system ≡ system }
    {
        Stand {
            alloc,
            system,
            here: None,
            way: Vec::new(alloc),
        }
    }

    /// From now on it is not known where it is.
    pub(crate) fn forget(&mut self)
        ensures { self.new.system ≡ self.old.system }
    {
        self.here = None;
    }

    /// Goes to a directory. If that fails, it is not known where it is.
    fn go(&mut self, dir: &Place) -> Result<(), TryFault>
        ensures store { IsTrue S.told
            → (S.state self.new.system).store ≡ (S.state self.old.system).store }
        ensures here { IsTrue S.told → MatchResult result
            (λ _. (S.state self.new.system).here ≡ Some dir.now)
            (λ fault. IsAbsent fault
            → at (S.state self.old.system).store.tree dir.now ≡ None) }
    {
        let names = dir.names()?;
        let kept = match self.here.take() {
            Some(from) => turn(&mut self.system, &mut self.way, &from.names()?, &names)?,
            None => {
                start(&mut self.system, &mut self.way)?;
                0
            }
        };
        descend(&mut self.system, &mut self.way, &names, kept)?;
        self.here = Some(dir.try_clone()?);
        Ok(())
    }

    /// Whether it is known to be in the directory with this path. Of the folder itself it is not
    /// known: its own path may lead elsewhere meanwhile.
    fn is_in(&self, path: &str) -> bool
        ensures { IsTrue result → IsTrue S.told
            → (S.state self.now.system).here ≡ Some (names_of path.now) }
    {
        match &self.here {
            Some(here) => !path.is_empty() && here.path() == path,
            None => false,
        }
    }

    /// Goes to the folder itself, by its own path.
    fn go_to_root(&mut self) -> Result<(), TryFault>
        ensures store { IsTrue S.told
            → (S.state self.new.system).store ≡ (S.state self.old.system).store }
        ensures here { IsTrue S.told → OnOk result ((S.state self.new.system).here ≡ Some []) }
        ensures there { IsTrue S.told → IfErr result (λ fault. IsAbsent fault → ⊥) }
    {
        self.here = None;
        start(&mut self.system, &mut self.way)?;
        self.here = Some(Place::root(self.alloc));
        Ok(())
    }

    /// Goes to the directory with this path, unless it is there.
    pub(crate) fn stand_in(&mut self, path: &str) -> Result<(), TryFault>
        ensures store { IsTrue S.told
            → (S.state self.new.system).store ≡ (S.state self.old.system).store }
        ensures here { IsTrue S.told → MatchResult result
            (λ _. (S.state self.new.system).here ≡ Some (names_of path.now))
            (λ fault. IsAbsent fault
            → at (S.state self.old.system).store.tree (names_of path.now) ≡ None) }
    {
        if self.is_in(path) {
            return Ok(());
        }
        if path.is_empty() {
            return self.go_to_root();
        }
        match Place::from_path(String::from_str(self.alloc, path)?) {
            Some(dir) => self.go(&dir),
            None => Err(wrong("it is no path of names")),
        }
    }

    /// The entries of a directory, in one try.
    fn entries(&mut self, place: &Place) -> Result<Vec<Entry>, TryFault>
        ensures ordinary { IfOk result (λ entries. IsOrdinary entries.items) }
        ensures store { IsTrue S.told
            → (S.state self.new.system).store ≡ (S.state self.old.system).store }
        ensures listed { IsTrue S.told → MatchResult result
            (λ entries. IsListing (S.state self.old.system).store.tree place.now entries.items)
            (λ fault. IsAbsent fault
            → at (S.state self.old.system).store.tree place.now ≢ Some dir) }
    {
        self.stand_in(place.path())?;
        list_here(&self.system, self.alloc)
    }

    /// The entries of a directory, if the calls are not interrupted too often.
    fn list(&mut self, place: &Place) -> Result<Vec<Entry>, Failure>
        ensures ordinary { IfOk result (λ entries. IsOrdinary entries.items) }
        ensures store { IsTrue S.told
            → (S.state self.new.system).store ≡ (S.state self.old.system).store }
        ensures listed { IsTrue S.told → MatchResult result
            (λ entries. IsListing (S.state self.old.system).store.tree place.now entries.items)
            (λ failure. failure.trouble ≡ Absent
            → at (S.state self.old.system).store.tree place.now ≢ Some dir) }
    {
        for _ in 0..TRIES {
            if let Some(entries) = unless_interrupted(self.entries(place))? {
                return Ok(entries);
            }
        }
        Err(too_often())
    }

    /// The file at a place, in one try.
    fn file(&mut self, place: &Place) -> Result<S::File, TryFault>
        ensures store { IsTrue S.told
            → (S.state self.new.system).store ≡ (S.state self.old.system).store }
        ensures opened { IsTrue S.told → MatchResult result
            (λ opened. at (S.state self.old.system).store.tree place.now
            ≡ Some (file (S.rest opened)))
            (λ fault. IsAbsent fault → (bytes : List ℕ)
            → at (S.state self.old.system).store.tree place.now ≢ Some (file bytes)) }
    {
        let Some((dir, name)) = place.split_last() else {
            self.stand_in("")?;
            return Err(wrong("it is a folder"));
        };
        self.stand_in(dir)?;
        open_here(&self.system, name)
    }

    /// The file at a place, if the calls are not interrupted too often.
    fn open(&mut self, place: &Place) -> Result<S::File, Failure>
        ensures store { IsTrue S.told
            → (S.state self.new.system).store ≡ (S.state self.old.system).store }
        ensures opened { IsTrue S.told → MatchResult result
            (λ opened. at (S.state self.old.system).store.tree place.now
            ≡ Some (file (S.rest opened)))
            (λ failure. failure.trouble ≡ Absent → (bytes : List ℕ)
            → at (S.state self.old.system).store.tree place.now ≢ Some (file bytes)) }
    {
        for _ in 0..TRIES {
            if let Some(file) = unless_interrupted(self.file(place))? {
                return Ok(file);
            }
        }
        Err(too_often())
    }

    /// Notes what became of a listing or an opening.
    fn note(&mut self, place: &Place, answer: Answer) -> Result<(), AllocError>
        ensures ok { IsTrue S.told → OnOk result ((S.state self.new.system).store
            ≡ with_answer answer place.now (S.state self.old.system).store) }
        ensures err { IsTrue S.told → OnErr result ((S.state self.new.system).store
            ≡ (S.state self.old.system).store) }
    {
        self.system.note(place, answer)
    }

    /// Notes what became of a read into a buffer with this room.
    pub(crate) fn note_read(&mut self, room: usize, answer: ReadAnswer) -> Result<(), AllocError>
        ensures ok { IsTrue S.told → OnOk result ((S.state self.new.system).store
            ≡ with_read answer (with_room room (S.state self.old.system).store)) }
        ensures err { IsTrue S.told → OnErr result ((S.state self.new.system).store
            ≡ (S.state self.old.system).store) }
        ensures kept { IsTrue S.told
            → IsKeepable answer (S.state self.old.system).store.openings → IsOk result }
    {
        self.system.note_read(room, answer)
    }

    /// The entries of a directory, once it is noted that they were listed.
    pub(crate) fn list_and_note(&mut self, place: &Place) -> Result<Vec<Entry>, Failure>
        ensures ordinary { IfOk result (λ entries. IsOrdinary entries.items) }
        ensures listed { IsTrue S.told → MatchResult result
            (λ entries. IsListing (S.state self.old.system).store.tree place.now entries.items)
            (λ failure. failure.trouble ≡ Absent
            → at (S.state self.old.system).store.tree place.now ≢ Some dir) }
        ensures ok { IsTrue S.told → OnOk result ((S.state self.new.system).store
            ≡ with_answer Answer.Listed place.now (S.state self.old.system).store) }
        ensures err { IsTrue S.told → OnErr result ((S.state self.new.system).store
            ≡ (S.state self.old.system).store) }
    {
        let entries = self.list(place)?;
        self.note(place, Answer::Listed)?;
        Ok(entries)
    }

    /// The file at a place, once it is noted that it was opened.
    pub(crate) fn open_and_note(&mut self, place: &Place) -> Result<S::File, Failure>
        ensures opened { IsTrue S.told → MatchResult result
            (λ opened. at (S.state self.old.system).store.tree place.now
            ≡ Some (file (S.rest opened)))
            (λ failure. failure.trouble ≡ Absent → (bytes : List ℕ)
            → at (S.state self.old.system).store.tree place.now ≢ Some (file bytes)) }
        ensures ok { IsTrue S.told → OnOk result ((S.state self.new.system).store
            ≡ with_answer Answer.Opened place.now (S.state self.old.system).store) }
        ensures err { IsTrue S.told → OnErr result ((S.state self.new.system).store
            ≡ (S.state self.old.system).store) }
    {
        let file = self.open(place)?;
        self.note(place, Answer::Opened)?;
        Ok(file)
    }

    /// Reads on in an open file, and notes it. A read whose note is refused is noted as one in
    /// which the device failed.
    pub(crate) fn read_and_note(
        &mut self,
        file: &mut S::File,
        buffer: &mut [u8],
    ) -> io::Result<usize>
        ensures bound { IfOk result (λ count. count ≤ length buffer.new) }
        ensures given { IsTrue S.told → IfOk result (λ count.
            S.rest file.old ≡ take count buffer.new ++ S.rest file.new) }
        ensures end { IsTrue S.told → IfOk result (λ count. take count buffer.new ≡ []
            → 0 < length buffer.new → S.rest file.new ≡ []) }
        ensures ok { IsTrue S.told → IfOk result (λ count. (S.state self.new.system).store
            ≡ with_read (ReadAnswer.Gave count)
            (with_room (length buffer.new) (S.state self.old.system).store)) }
        ensures err { IsTrue S.told → IsReading (S.state self.old.system).store.openings
            → OnErr result ((S.state self.new.system).store ≡ with_read ReadAnswer.Failed
            (with_room (length buffer.new) (S.state self.old.system).store)) }
    {
        let room = buffer.len();
        let error = match read_on(&self.system, file, buffer) {
            Ok(count) => match self.note_read(room, ReadAnswer::Gave(count)) {
                Ok(()) => return Ok(count),
                Err(_) => out_of_memory().error,
            },
            Err(error) => error,
        };
        let _ = self.note_read(room, ReadAnswer::Failed);
        Err(error)
    }

    /// Notes a failure if it is the device's. Gives it back, or that the note was refused memory.
    pub(crate) fn note_failure(
        &mut self,
        place: &Place,
        failure: Failure,
        answer: Answer,
    ) -> Failure
        ensures same { result.trouble ≢ Trouble.Memory → result ≡ failure }
        ensures device { IsTrue S.told → result.trouble ≡ Trouble.Device
            → (S.state self.new.system).store
            ≡ with_answer answer place.now (S.state self.old.system).store }
        ensures others { IsTrue S.told → result.trouble ≢ Trouble.Device
            → (S.state self.new.system).store ≡ (S.state self.old.system).store }
    {
        if failure.trouble == Trouble::Device && self.note(place, answer).is_err() {
            return out_of_memory();
        }
        failure
    }
}
