//! The system, whose process goes into the directories of a folder.
ghost use Rattle.std.specs.Prelude.{◌≡◌, ◌≤◌, IfOk, length};

use crate::answer::{Answer, ReadAnswer};
use crate::dir_names::DirNames;
use crate::node::{Node, Seen};
use crate::opened::Opened;
use crate::system::System;
use ocfl_tree::Place;
use std::alloc::AllocError;
use std::fs;
use std::io::{self, ErrorKind};
use std::rt::{Env, Files};

/// The folder at a path from `/` on, by last names alone: the process itself goes into it.
/// Another folder that is put at that path later is not taken for it.
#[derive(Drop)]
pub struct Entering<'a, R: Files + Env + AllocGlobal> {
    rt: &'a R,
    root: String,
    /// Which folder was at the path when it was first entered.
    entered: Option<Node>,
}

impl<'a, R: Files + Env + AllocGlobal> Entering<'a, R> {
    pub(crate) fn at(rt: &'a R, root: &str) -> Result<Entering<'a, R>, AllocError> {
        let root = String::from_str(rt.alloc(), root)?;
        Ok(Entering {
            rt,
            root,
            entered: None,
        })
    }

    /// Keeps which folder was entered first, and refuses another one.
    fn keep_entered(&mut self, here: Node) -> io::Result<()> {
        match self.entered {
            Some(before) if !before.is(here) => Err(io::Error::new(
                ErrorKind::InvalidData,
                "the storage root's path now leads to another folder",
            )),
            _ => {
                self.entered = Some(here);
                Ok(())
            }
        }
    }
}

/// It does not tell its tree: no clause says what the calls of the system do.
impl<R: Files + Env + AllocGlobal> System for Entering<'_, R> {
    type File = Opened<R::File>;

    type Names = DirNames<R::Dir>;

    fn start(&mut self) -> io::Result<()> {
        self.rt.set_current_dir(self.root.as_str())?;
        let here = self.look(".")?.node;
        self.keep_entered(here)
    }

    fn enter(&mut self, name: &str) -> io::Result<()> {
        self.rt.set_current_dir(name)
    }

    fn leave(&mut self) -> io::Result<()> {
        self.rt.set_current_dir("..")
    }

    fn look_here(&self) -> io::Result<Seen> {
        self.look(".")
    }

    fn look(&self, name: &str) -> io::Result<Seen> {
        Ok(Seen::of(&self.rt.symlink_metadata(name)?))
    }

    fn names(&self) -> io::Result<DirNames<R::Dir>> {
        let dir = self.rt.open_dir(".")?;
        Ok(DirNames::new(self.rt.alloc(), dir)?)
    }

    fn next_name(&self, names: &mut DirNames<R::Dir>, name: &mut Vec<u8>) -> io::Result<bool> {
        names.next(name)
    }

    fn open(&self, name: &str) -> io::Result<Opened<R::File>> {
        Ok(Opened::new(fs::open(self.rt, name)?))
    }

    fn look_at(&self, file: &mut Opened<R::File>) -> io::Result<Seen> {
        file.look()
    }

    fn read(&self, file: &mut Opened<R::File>, buffer: &mut [u8]) -> io::Result<usize> {
        file.read(buffer)
    }

    fn note(&mut self, _place: &Place, _answer: Answer) -> Result<(), AllocError> {
        Ok(())
    }

    fn note_read(&mut self, _room: usize, _answer: ReadAnswer) -> Result<(), AllocError> {
        Ok(())
    }
}
