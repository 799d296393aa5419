//! The calls of the system over a tree in memory.
ghost use Rattle.std.specs.Prelude.{◌≡◌, ◌≢◌, ◌++◌, ◌∷◌, [], IfOk, IfErr, MatchResult, None, Some, true};
ghost use Rattle.std.specs.IoError.{error_kind};
ghost use Rattle.std.specs.declared.io.ErrorKind.TheVariants.{NotFound};
ghost use Rattle.ocfl_tree.specs.{Place.{Place as Spot}, Listing.{kind_at}};
ghost use Rattle.ocfl_memory.specs.MemSystem.{standing};

use crate::mem_file::MemFile;
use crate::mem_names::MemNames;
use crate::mem_tree::MemTree;
use crate::watch::Watch;
use ocfl_folder::{Answer, Node, ReadAnswer, Seen, System};
use ocfl_tree::{Kind, Name, NameStop, Place};
use std::alloc::AllocError;
use std::io::{self, ErrorKind};

/// The calls of the system over a tree in memory, with what watches them. It tells that tree and
/// meets each clause of `System`, so all of them can hold together: with `MemWatch`, for one.
///
/// Each call but the notes fails with `Other` where the watch strikes. What is not there is
/// `NotFound`, and no other error is that.
#[derive(Drop)]
pub struct MemSystem<W: Watch + Drop> {
    tree: MemTree,
    here: Option<Place>,
    watch: W,
}

fn kind_only(kind: ErrorKind) -> io::Error
    ensures { error_kind result ≡ kind }
{
    io::Error::from(kind)
}

impl<W: Watch + Drop> MemSystem<W> {
    /// A system over what a tree holds. It is in no directory yet.
    pub fn over(tree: MemTree, watch: W) -> MemSystem<W>
        ensures tree { result.tree ≡ tree }
        ensures here { result.here ≡ None }
        ensures watch { result.watch ≡ watch }
    {
        MemSystem {
            tree,
            here: None,
            watch,
        }
    }

    /// What watches the calls.
    pub fn watch(&self) -> &W
        ensures { result.now ≡ self.now.watch }
    {
        &self.watch
    }

    /// Fails where the watch strikes.
    fn meet(&self) -> io::Result<()>
        ensures { IfErr result (λ error. error_kind error ≢ NotFound) }
    {
        if self.watch.strikes() {
            return Err(kind_only(ErrorKind::Other));
        }
        Ok(())
    }

    /// The place of this name in the directory that it is in.
    fn place_of(&self, name: &str) -> io::Result<Place>
        ensures { MatchResult result
            (λ place. (p : Spot) → self.now.here ≡ Some p → place ≡ p ++ name.now ∷ [])
            (λ error. error_kind error ≢ NotFound) }
    {
        let Some(here) = &self.here else {
            return Err(kind_only(ErrorKind::InvalidInput));
        };
        match Name::new(self.tree.alloc(), name) {
            Ok(name) => Ok(here.child(&name)?),
            Err(NameStop::Bad) => Err(kind_only(ErrorKind::InvalidInput)),
            Err(NameStop::Memory) => Err(kind_only(ErrorKind::OutOfMemory)),
        }
    }

    /// Looks at a name where it is.
    fn seen_at(&self, name: &str) -> io::Result<(Place, Seen)>
        ensures place { IfOk result (λ found. (p : Spot) → self.now.here ≡ Some p
            → found.0 ≡ p ++ name.now ∷ []) }
        ensures kind { (p : Spot) → self.now.here ≡ Some p → MatchResult result
            (λ found. kind_at self.now.tree.store.tree p name.now ≡ Some found.1.kind)
            (λ error. error_kind error ≡ NotFound
            → kind_at self.now.tree.store.tree p name.now ≡ None) }
    {
        self.meet()?;
        let place = self.place_of(name)?;
        match self.tree.seen_at(&place) {
            Some(seen) => Ok((place, seen)),
            None => Err(kind_only(ErrorKind::NotFound)),
        }
    }
}

impl<W: Watch + Drop> System for MemSystem<W> {
    type File = MemFile;

    type Names = MemNames;

    ghost told = { true };

    ghost state = { λ system.
        standing system.tree.store.tree (W.noted system.watch) system.here };

    ghost rest = { λ file. file };

    ghost left = { λ names. names };

    fn start(&mut self) -> io::Result<()> {
        self.meet()?;
        self.here = Some(Place::root(self.tree.alloc()));
        Ok(())
    }

    fn enter(&mut self, name: &str) -> io::Result<()> {
        let (place, seen) = self.seen_at(name)?;
        if seen.kind != Kind::Dir {
            return Err(kind_only(ErrorKind::NotADirectory));
        }
        self.here = Some(place);
        Ok(())
    }

    #[tactic(auto, using(crate::proofs::Systems::without_last))]
    fn leave(&mut self) -> io::Result<()> {
        self.meet()?;
        let Some(here) = &self.here else {
            return Err(kind_only(ErrorKind::InvalidInput));
        };
        let names = here.depth();
        if names == 0 {
            return Err(kind_only(ErrorKind::InvalidInput));
        }
        self.here = Some(here.first(names - 1)?);
        Ok(())
    }

    fn look_here(&self) -> io::Result<Seen> {
        self.meet()?;
        match &self.here {
            Some(here) => match self.tree.seen_at(here) {
                Some(seen) => Ok(seen),
                None => Err(kind_only(ErrorKind::NotFound)),
            },
            None => Err(kind_only(ErrorKind::InvalidInput)),
        }
    }

    fn look(&self, name: &str) -> io::Result<Seen> {
        let (_, seen) = self.seen_at(name)?;
        Ok(seen)
    }

    #[tactic(auto, using(crate::proofs::Systems::names_are))]
    fn names(&self) -> io::Result<MemNames> {
        self.meet()?;
        let Some(here) = &self.here else {
            return Err(kind_only(ErrorKind::InvalidInput));
        };
        match self.tree.entries_at(here)? {
            Some(entries) => Ok(MemNames::new(entries)),
            None => Err(kind_only(ErrorKind::NotADirectory)),
        }
    }

    fn next_name(&self, names: &mut MemNames, name: &mut Vec<u8>) -> io::Result<bool> {
        self.meet()?;
        Ok(names.next(name)?)
    }

    fn open(&self, name: &str) -> io::Result<MemFile> {
        let (place, seen) = self.seen_at(name)?;
        let bytes = self.tree.bytes_at(&place);
        Ok(MemFile::new(Vec::from_slice(self.tree.alloc(), bytes)?, seen))
    }

    fn look_at(&self, file: &mut MemFile) -> io::Result<Seen> {
        self.meet()?;
        Ok(file.seen())
    }

    fn read(&self, file: &mut MemFile, buffer: &mut [u8]) -> io::Result<usize> {
        self.meet()?;
        Ok(file.give(buffer))
    }

    #[tactic(auto, using(crate::proofs::Systems::noted_answer))]
    fn note(&mut self, place: &Place, answer: Answer) -> Result<(), AllocError> {
        self.watch.note(place, answer)
    }

    #[tactic(auto, using(crate::proofs::Systems::noted_read))]
    fn note_read(&mut self, room: usize, answer: ReadAnswer) -> Result<(), AllocError> {
        self.watch.note_read(room, answer)
    }
}
