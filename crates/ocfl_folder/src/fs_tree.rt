//! A folder of the file system as a store.
ghost use Rattle.std.specs.Prelude.{◌≡◌, ◌≢◌, ◌≤◌, ◌↔◌, IfOk, IfErr, OnOk, OnErr, IsSome, None};
ghost use Rattle.std.specs.Prelude.{length, take, max, Err, IsTrue, Some, MatchResult};
ghost use Rattle.std.specs.Option.{option_map};
ghost use Rattle.ocfl_tree.specs.Listing.{IsOrdinary};
ghost use Rattle.ocfl_tree.specs.Calls.{Lists, ListFails, Opens, OpenFails, Reads, ReadFails};
ghost use Rattle.ocfl_tree.specs.Calls.{Closes};
ghost use Rattle.ocfl_folder.specs.{Faults.{IsKept}, Noted.{with_rest, with_answer, IsReading}};

use crate::answer::{Answer, ReadAnswer};
use crate::entering::Entering;
use crate::failure::Failure;
use crate::stand::Stand;
use crate::system::System;
use crate::whole_paths::WholePaths;
use ocfl_tree::{Entry, Place, Tree, Trouble};
use std::alloc::{AllocError, Global};
use std::io;
use std::rt::{Env, Files};

/// A folder, by the calls of a system. It tells its tree if the system does.
///
/// It is in the directory of the last place that it was asked for, and goes from there to that
/// of the next one, name by name: up by `..`, and down after a look at the name. After each step it
/// looks where it is, which must be the directory of that look, or that from which it came down. So
/// no link is followed but one to the folder itself, which is found by its own path: if it has
/// to go up to it, and after each call that failed. A file is looked at before it is opened and
/// once it is open, and must be the same. A link is listed as `Other`.
///
/// What is not found is `Absent`. Running out of memory is `Memory`, but never in a read. Every
/// other fault is `Device`:
///
/// - a read for which memory was refused, or which the system cannot note;
/// - a file where a directory is asked for, or the other way round;
/// - a directory that another one takes the place of, or one that is moved elsewhere while the
///   folder is in it or below;
/// - a name that is not UTF-8, or that is listed twice;
/// - more than 1,000,000 entries, or one that goes away while it is listed;
/// - a file that is another once it is open.
pub struct FsTree<S: System + Drop> {
    stand: Stand<S>,
    opened: Option<S::File>,
    reason: Option<io::Error>,
    ghost noted: { IsTrue S.told → IsSome opened
        → IsReading (S.state stand.system).store.openings },
}

/// Written by hand, so that letting it go is one call where it is let go.
impl<S: System + Drop> Drop for FsTree<S> {
    fn drop(self) {
        let FsTree {
            stand: _stand,
            opened: _opened,
            reason: _reason,
        } = self;
    }
}

impl<'a, R: Files + AllocGlobal> FsTree<WholePaths<'a, R>> {
    /// The folder at a path, which need not be there yet. The process stays where it is: each call
    /// of the system takes a whole path.
    pub fn at(rt: &'a R, root: &str) -> Result<FsTree<WholePaths<'a, R>>, AllocError>
        ensures { IfOk result (λ folder. folder.opened ≡ None) }
    {
        let alloc = rt.alloc();
        Ok(FsTree::over(alloc, WholePaths::at(rt, root)?))
    }
}

impl<'a, R: Files + Env + AllocGlobal> FsTree<Entering<'a, R>> {
    /// The folder at a path from `/` on, which need not be there yet. The process goes into its
    /// directories, so no path is too long, and a relative path means something else after each
    /// call.
    pub fn entering(rt: &'a R, root: &str) -> Result<FsTree<Entering<'a, R>>, AllocError>
        ensures { IfOk result (λ folder. folder.opened ≡ None) }
    {
        let alloc = rt.alloc();
        Ok(FsTree::over(alloc, Entering::at(rt, root)?))
    }
}

impl<S: System + Drop> FsTree<S> {
    /// The folder that the calls of a system show.
    pub fn over(alloc: Global, system: S) -> FsTree<S>
        ensures system { result.stand.system ≡ system }
        ensures closed { result.opened ≡ None }
    {
        FsTree {
            stand: Stand::new(alloc, system),
            opened: None,
            reason: None,
        }
    }

    /// Why the last call failed that did: the error of the system, or one that says what was wrong.
    pub fn reason(&self) -> Option<io::Error>
        ensures { result ≡ self.now.reason }
    {
        self.reason
    }

    /// The system whose calls these are.
    pub fn system(&self) -> &S
        ensures { result.now ≡ self.now.stand.system }
    {
        &self.stand.system
    }

    /// Keeps why a listing or an opening failed, and notes it if the device did.
    fn fail(&mut self, place: &Place, failure: Failure, answer: Answer) -> Trouble
        ensures closed { self.new.opened ≡ None }
        ensures kept { IsKept self.new.reason result }
        ensures trouble { result ≢ Trouble.Memory → result ≡ failure.trouble }
        ensures device { IsTrue S.told → result ≡ Trouble.Device
            → (S.state self.new.stand.system).store
            ≡ with_answer answer place.now (S.state self.old.stand.system).store }
        ensures others { IsTrue S.told → result ≢ Trouble.Device
            → (S.state self.new.stand.system).store ≡ (S.state self.old.stand.system).store }
    {
        self.opened = None;
        self.stand.forget();
        let failure = self.stand.note_failure(place, failure, answer);
        self.reason = Some(failure.error);
        failure.trouble
    }
}

impl<S: System + Drop> Tree for FsTree<S> {
    ghost told = { S.told };

    ghost state = { λ folder.
        with_rest (option_map S.rest folder.opened) (S.state folder.stand.system).store };

    fn list(&mut self, place: &Place) -> Result<Vec<Entry>, Trouble>
        ensures ordinary { IfOk result (λ entries. IsOrdinary entries.items) }
        ensures lists { IsTrue S.told → MatchResult result
            (λ entries. Lists
            (with_rest (option_map S.rest self.old.opened) (S.state self.old.stand.system).store)
            (with_rest (option_map S.rest self.new.opened) (S.state self.new.stand.system).store)
            place.now entries.items)
            (ListFails
            (with_rest (option_map S.rest self.old.opened) (S.state self.old.stand.system).store)
            (with_rest (option_map S.rest self.new.opened) (S.state self.new.stand.system).store)
            place.now) }
        ensures ok { OnOk result (self.new.opened ≡ self.old.opened) }
        ensures reason { OnOk result (self.new.reason ≡ self.old.reason) }
        ensures err { OnErr result (self.new.opened ≡ None) }
        ensures kept { IfErr result (λ trouble. IsKept self.new.reason trouble) }
    {
        match self.stand.list_and_note(place) {
            Ok(entries) => Ok(entries),
            Err(failure) => Err(self.fail(place, failure, Answer::NotListed)),
        }
    }

    #[tactic(auto, using(crate::proofs::Notes::reading_opened))]
    fn open(&mut self, place: &Place) -> Result<(), Trouble>
        ensures opens { IsTrue S.told → MatchResult result
            (λ _. Opens
            (with_rest (option_map S.rest self.old.opened) (S.state self.old.stand.system).store)
            (with_rest (option_map S.rest self.new.opened) (S.state self.new.stand.system).store)
            place.now)
            (OpenFails
            (with_rest (option_map S.rest self.old.opened) (S.state self.old.stand.system).store)
            (with_rest (option_map S.rest self.new.opened) (S.state self.new.stand.system).store)
            place.now) }
        ensures ok { OnOk result (IsSome self.new.opened) }
        ensures reason { OnOk result (self.new.reason ≡ self.old.reason) }
        ensures err { OnErr result (self.new.opened ≡ None) }
        ensures kept { IfErr result (λ trouble. IsKept self.new.reason trouble) }
    {
        self.opened = None;
        match self.stand.open_and_note(place) {
            Ok(file) => {
                self.opened = Some(file);
                Ok(())
            }
            Err(failure) => Err(self.fail(place, failure, Answer::NotOpened)),
        }
    }

    #[tactic(auto, using(crate::proofs::Notes::reads_on))]
    fn read(&mut self, buffer: &mut [u8]) -> Result<usize, Trouble>
        ensures bound { IfOk result (λ count. count ≤ length buffer.new) }
        ensures no_memory { result ≢ Err Trouble.Memory }
        ensures largest { IsTrue S.told → (S.state self.new.stand.system).store.largest
            ≡ max (S.state self.old.stand.system).store.largest (length buffer.new) }
        ensures reads { IsTrue S.told → MatchResult result
            (λ count. Reads
            (with_rest (option_map S.rest self.old.opened) (S.state self.old.stand.system).store)
            (with_rest (option_map S.rest self.new.opened) (S.state self.new.stand.system).store)
            (take count buffer.new) (length buffer.new))
            (ReadFails
            (with_rest (option_map S.rest self.old.opened) (S.state self.old.stand.system).store)
            (with_rest (option_map S.rest self.new.opened)
            (S.state self.new.stand.system).store)) }
        ensures absent { (result ≡ Err Trouble.Absent) ↔ (self.old.opened ≡ None) }
        ensures ok { OnOk result (IsSome self.new.opened) }
        ensures err { OnErr result (self.new.opened ≡ None) }
        ensures kept { result ≡ Err Trouble.Device → IsSome self.new.reason }
    {
        let Some(file) = &mut self.opened else {
            let _ = self.stand.note_read(buffer.len(), ReadAnswer::NoFile);
            return Err(Trouble::Absent);
        };
        match self.stand.read_and_note(file, buffer) {
            Ok(count) => Ok(count),
            Err(error) => {
                self.reason = Some(error);
                self.opened = None;
                Err(Trouble::Device)
            }
        }
    }

    fn close(&mut self)
        ensures closes { IsTrue S.told → Closes
            (with_rest (option_map S.rest self.old.opened) (S.state self.old.stand.system).store)
            (with_rest (option_map S.rest self.new.opened) (S.state self.new.stand.system).store) }
        ensures closed { self.new.opened ≡ None }
        ensures reason { self.new.reason ≡ self.old.reason }
    {
        self.opened = None;
    }
}
