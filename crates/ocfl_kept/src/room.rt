//! What the program's system is asked for: the functions over it need no more of it than this.
ghost use Rattle.std.specs.Prelude.{◌≡◌, Bool, IsTrue, false};
ghost use Rattle.ocfl_tree.specs.Place.{Text};

use crate::kept::{ClosedIn, open_closed, read_checkpoint};
use crate::state::{hold_folder, open_state};
use ocfl_files::failing::Failure;
use ocfl_files::files::open_if_there;
use ocfl_files::making::{is_there, make_file, make_folder, put_made};
use std::alloc::Global;
use std::fs::{self, File};
use std::io;
use std::rt::Files;

/// A system with files, and with state folders of parts by their paths.
///
/// One that states nothing of what is there does not show it.
pub trait Room {
    /// Whether the clauses say what is there. Of one that does not show it, they say nothing.
    ghost shown: { Bool } = { false };

    /// Whether something is at a path.
    ghost there: { Self → Text → Bool } = { λ _ _. false };

    /// Where memory comes from.
    fn global(&self) -> Global;

    /// Whether something is at a path.
    fn has(&self, path: &str) -> bool
        ensures { IsTrue shown → result ≡ there self.now path.now };

    /// Opens a file, and gives `None` if there is no such file.
    fn find_file(&self, path: &str) -> io::Result<Option<File>>;

    /// Opens a file.
    fn open_file(&self, path: &str) -> io::Result<File>;

    /// Makes a file, in place of what is there.
    fn make_file(&self, path: &str) -> Result<File, Failure>;

    /// Makes a folder, unless it is there.
    fn make_folder(&self, path: &str) -> Result<(), Failure>;

    /// Gives a file that was made its name.
    fn put_made(&self, made: &str, path: &str) -> Result<(), Failure>;

    /// Removes a file, if it can.
    fn remove_file(&self, path: &str);

    /// Holds the lock of a folder of parts while the result lives.
    fn hold_folder(&self, path: &str) -> Result<File, Failure>;

    /// The bytes of the checkpoint in a state folder, if one is there.
    fn checkpoint_in(&self, path: &str) -> Result<Option<Vec<u8>>, Failure>;

    /// Opens the closed report of a cycle in a state folder, if it is there, with what was kept of
    /// its closing.
    fn closed_in(&self, path: &str, cycle: u64) -> Result<Option<ClosedIn>, Failure>;
}

impl<R: Files<File = File> + AllocGlobal> Room for R {
    fn global(&self) -> Global {
        self.alloc()
    }

    fn has(&self, path: &str) -> bool {
        is_there(self, path)
    }

    fn find_file(&self, path: &str) -> io::Result<Option<File>> {
        open_if_there(self, path)
    }

    fn open_file(&self, path: &str) -> io::Result<File> {
        File::open(self, path)
    }

    fn make_file(&self, path: &str) -> Result<File, Failure> {
        make_file(self, path)
    }

    fn make_folder(&self, path: &str) -> Result<(), Failure> {
        make_folder(self, path)
    }

    fn put_made(&self, made: &str, path: &str) -> Result<(), Failure> {
        put_made(self, made, path)
    }

    fn remove_file(&self, path: &str) {
        let _ = fs::remove_file(self, path);
    }

    fn hold_folder(&self, path: &str) -> Result<File, Failure> {
        hold_folder(self, path)
    }

    fn checkpoint_in(&self, path: &str) -> Result<Option<Vec<u8>>, Failure> {
        let mut folder = open_state(self, path, path, false)?;
        read_checkpoint(self.alloc(), &mut folder, path)
    }

    fn closed_in(&self, path: &str, cycle: u64) -> Result<Option<ClosedIn>, Failure> {
        let mut folder = open_state(self, path, path, false)?;
        open_closed(self.alloc(), &mut folder, path, cycle)
    }
}
