//! The system, asked by whole paths.
ghost use Rattle.std.specs.Prelude.{◌≡◌, ◌≤◌, IfOk, length};

use crate::answer::{Answer, ReadAnswer};
use crate::dir_names::DirNames;
use crate::node::Seen;
use crate::opened::Opened;
use crate::system::System;
use ocfl_tree::Place;
use std::alloc::AllocError;
use std::fs;
use std::io::{self, ErrorKind};
use std::rt::Files;

/// The folder at a path, by whole paths: the process stays where it is.
#[derive(Drop)]
pub struct WholePaths<'a, R: Files + AllocGlobal> {
    rt: &'a R,
    root: String,
    /// The path of the directory that the folder is in.
    path: String,
}

impl<'a, R: Files + AllocGlobal> WholePaths<'a, R> {
    pub(crate) fn at(rt: &'a R, root: &str) -> Result<WholePaths<'a, R>, AllocError> {
        let root = String::from_str(rt.alloc(), root)?;
        let path = String::new(rt.alloc());
        Ok(WholePaths { rt, root, path })
    }

    /// The path of what has this name where the folder is.
    fn path_of(&self, name: &str) -> Result<String, AllocError> {
        let room = self.path.len() + 1 + name.len();
        let mut path = String::with_capacity(self.rt.alloc(), room)?;
        path.push_str(self.path.as_str())?;
        path.push('/')?;
        path.push_str(name)?;
        Ok(path)
    }

    /// Whether the folder is at its root.
    fn is_at_root(&self) -> bool {
        self.path.len() == self.root.len()
    }
}

/// It does not tell its tree: no clause says what the calls of the system do.
impl<R: Files + AllocGlobal> System for WholePaths<'_, R> {
    type File = Opened<R::File>;

    type Names = DirNames<R::Dir>;

    fn start(&mut self) -> io::Result<()> {
        if !self.rt.metadata(self.root.as_str())?.is_dir() {
            return Err(io::Error::from(ErrorKind::NotADirectory));
        }
        self.path.clear();
        self.path.push_str(self.root.as_str())?;
        Ok(())
    }

    fn enter(&mut self, name: &str) -> io::Result<()> {
        self.path.push('/')?;
        self.path.push_str(name)?;
        Ok(())
    }

    fn leave(&mut self) -> io::Result<()> {
        let Some((above, _)) = self.path.rsplit_once('/') else {
            return Err(io::Error::from(ErrorKind::NotFound));
        };
        self.path = String::from_str(self.rt.alloc(), above)?;
        Ok(())
    }

    fn look_here(&self) -> io::Result<Seen> {
        let found = if self.is_at_root() {
            self.rt.metadata(self.path.as_str())?
        } else {
            self.rt.symlink_metadata(self.path.as_str())?
        };
        Ok(Seen::of(&found))
    }

    fn look(&self, name: &str) -> io::Result<Seen> {
        let path = self.path_of(name)?;
        Ok(Seen::of(&self.rt.symlink_metadata(path.as_str())?))
    }

    fn names(&self) -> io::Result<DirNames<R::Dir>> {
        // With a slash at its end the system follows a link there.
        let path = if self.is_at_root() {
            self.path_of("")?
        } else {
            self.path.clone()?
        };
        let dir = self.rt.open_dir(path.as_str())?;
        Ok(DirNames::new(self.rt.alloc(), dir)?)
    }

    fn next_name(&self, names: &mut DirNames<R::Dir>, name: &mut Vec<u8>) -> io::Result<bool> {
        names.next(name)
    }

    fn open(&self, name: &str) -> io::Result<Opened<R::File>> {
        let path = self.path_of(name)?;
        Ok(Opened::new(fs::open(self.rt, path.as_str())?))
    }

    fn look_at(&self, file: &mut Opened<R::File>) -> io::Result<Seen> {
        file.look()
    }

    fn read(&self, file: &mut Opened<R::File>, buffer: &mut [u8]) -> io::Result<usize> {
        file.read(buffer)
    }

    fn note(&mut self, _place: &Place, _answer: Answer) -> Result<(), AllocError> {
        Ok(())
    }

    fn note_read(&mut self, _room: usize, _answer: ReadAnswer) -> Result<(), AllocError> {
        Ok(())
    }
}
