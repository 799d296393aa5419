//! The calls of the system that a folder makes.
ghost use Rattle.std.specs.Prelude.{◌≡◌, ◌≢◌, ◌≤◌, ◌<◌, ◌++◌, ◌∷◌, [], Bool, false, IsTrue, List, Some};
ghost use Rattle.std.specs.Prelude.{None, IfOk, IfErr, IsOk, OnOk, OnErr, MatchResult, length, take};
ghost use Rattle.std.specs.IoError.{error_kind};
ghost use Rattle.std.specs.declared.io.ErrorKind.TheVariants.{NotFound, Interrupted};
ghost use Rattle.ocfl_tree.specs.{Place.{Text, Place as Spot}, StorageRoot.{file, dir, at}};
ghost use Rattle.ocfl_tree.specs.{Listing.{kind_at}, Store.{empty_store}};
ghost use Rattle.ocfl_folder.specs.System.{Standing, IfHere, AreNames, Gives};
ghost use Rattle.ocfl_folder.specs.Noted.{with_answer, with_read, with_room, IsKeepable};

use crate::answer::{Answer, ReadAnswer};
use crate::node::Seen;
use ocfl_tree::Place;
use std::alloc::AllocError;
use std::io;

/// What a folder asks of the system. It is in one directory, and what it asks for is there, by
/// its last name alone.
///
/// A system that tells its tree tells what is in the folder, and in which directory it is. One
/// that states nothing of it does not tell it.
/// The tree stays as it is. Links are told as what is neither a file nor a directory, and the calls
/// show them as such; only `start`, `enter` and `open` follow one.
pub trait System {
    type File: Drop;

    /// The names of a directory while they are read.
    type Names: Drop;

    /// Whether the system tells its tree. Of one that does not, the clauses say little.
    ghost told: { Bool } = { false };

    ghost state: { Self → Standing } = { λ _. record { store = empty_store; here = None } };

    /// What is left of an open file.
    ghost rest: { Self.File → Text } = { λ _. [] };

    /// The names that a listing has still to give.
    ghost left: { Self.Names → List Text } = { λ _. [] };

    /// Goes to the folder itself by its own path, where a link may lead to it.
    fn start(&mut self) -> io::Result<()>
        ensures store { IsTrue told → (state self.new).store ≡ (state self.old).store }
        ensures here { IsTrue told → OnOk result ((state self.new).here ≡ Some []) }
        ensures there { IsTrue told → IfErr result (λ error. error_kind error ≢ NotFound) };

    /// Goes into the directory with this name.
    fn enter(&mut self, name: &str) -> io::Result<()>
        ensures store { IsTrue told → (state self.new).store ≡ (state self.old).store }
        ensures here { IsTrue told → IfHere (state self.old) (λ root p.
            at root (p ++ name.now ∷ []) ≡ Some dir
            → OnOk result ((state self.new).here ≡ Some (p ++ name.now ∷ []))) };

    /// Goes into the directory that this one is in.
    fn leave(&mut self) -> io::Result<()>
        ensures store { IsTrue told → (state self.new).store ≡ (state self.old).store }
        ensures here { IsTrue told → (p : Spot) (n : Text)
            → (state self.old).here ≡ Some (p ++ n ∷ [])
            → OnOk result ((state self.new).here ≡ Some p) };

    /// Looks at the directory that it is in.
    fn look_here(&self) -> io::Result<Seen>;

    /// Looks at what has this name, and follows no link there.
    fn look(&self, name: &str) -> io::Result<Seen>
        ensures { IsTrue told → IfHere (state self.now) (λ root p. MatchResult result
            (λ seen. kind_at root p name.now ≡ Some seen.kind)
            (λ error. error_kind error ≡ NotFound → kind_at root p name.now ≡ None)) };

    /// Begins to list the directory that it is in.
    fn names(&self) -> io::Result<Self::Names>
        ensures { IsTrue told → IfHere (state self.now) (λ root p. IfOk result (λ names.
            AreNames root p (left names))) };

    /// Puts the next name of a listing, as its bytes, in place of what the other holds. `false` at
    /// its end.
    fn next_name(&self, names: &mut Self::Names, name: &mut Vec<u8>) -> io::Result<bool>
        ensures { IsTrue told → IfOk result (λ more.
            Gives more (left names.old) name.new.items (left names.new)) };

    /// Opens the file with this name.
    fn open(&self, name: &str) -> io::Result<Self::File>
        ensures { IsTrue told → IfHere (state self.now) (λ root p. MatchResult result
            (λ opened. (bytes : Text) → at root (p ++ name.now ∷ []) ≡ Some (file bytes)
            → rest opened ≡ bytes)
            (λ error. error_kind error ≡ NotFound → kind_at root p name.now ≡ None)) };

    /// Looks at an open file, before the first read.
    fn look_at(&self, file: &mut Self::File) -> io::Result<Seen>
        ensures { IsTrue told → rest file.new ≡ rest file.old };

    /// Reads the next bytes of an open file into the front of the buffer, and gives how many. For a
    /// buffer that is not empty, 0 is the end of the file.
    fn read(&self, file: &mut Self::File, buffer: &mut [u8]) -> io::Result<usize>
        ensures bound { IfOk result (λ count. count ≤ length buffer.new) }
        ensures given { IsTrue told → IfOk result (λ count.
            rest file.old ≡ take count buffer.new ++ rest file.new) }
        ensures end { IsTrue told → IfOk result (λ count. take count buffer.new ≡ []
            → 0 < length buffer.new → rest file.new ≡ []) }
        ensures again { IsTrue told → IfErr result (λ error. error_kind error ≡ Interrupted
            → rest file.new ≡ rest file.old) };

    /// Keeps what became of a listing or of an opening at a place, if the system tells. The error
    /// is that memory was refused.
    fn note(&mut self, place: &Place, answer: Answer) -> Result<(), AllocError>
        ensures ok { IsTrue told → OnOk result (state self.new ≡ record {
          store = with_answer answer place.now (state self.old).store;
          here = (state self.old).here;
        }) }
        ensures err { IsTrue told → OnErr result (state self.new ≡ state self.old) };

    /// Keeps what became of a read into a buffer with this room, if the system tells. The error is
    /// that memory was refused, or that the bytes cannot be counted any more.
    fn note_read(&mut self, room: usize, answer: ReadAnswer) -> Result<(), AllocError>
        ensures ok { IsTrue told → OnOk result (state self.new ≡ record {
          store = with_read answer (with_room room (state self.old).store);
          here = (state self.old).here;
        }) }
        ensures err { IsTrue told → OnErr result (state self.new ≡ state self.old) }
        ensures kept { IsTrue told → IsKeepable answer (state self.old).store.openings
            → IsOk result };
}
