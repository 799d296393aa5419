//! What the folder of a state asks of the system.

use std::alloc::Global;
use std::fs::{self, DirBuilder, File, Metadata, OpenOptions};
use std::io;
use std::os::unix::fs::DirBuilderExt;
use std::rt::Files;

/// Who may read, write and search a folder that is made: its owner, and its group may read and
/// search.
const FOLDER_MODE: u32 = 0o750;

/// The calls of the system on what is at a path: the functions over it need no more of it than
/// this.
pub trait Calls {
    /// Where memory comes from.
    fn global(&self) -> Global;

    /// What is at a path, which may be a link.
    fn look_at(&self, path: &str) -> io::Result<Metadata>;

    /// What is at a path, or where the link there leads.
    fn look_through(&self, path: &str) -> io::Result<Metadata>;

    /// Opens what is at a path.
    fn open(&self, options: &OpenOptions, path: &str) -> io::Result<File>;

    /// Whether the folder at a path has no entry.
    fn is_empty(&self, path: &str) -> io::Result<bool>;

    /// Makes a folder.
    fn make_folder(&self, path: &str) -> io::Result<()>;

    /// Removes a file.
    fn remove(&self, path: &str) -> io::Result<()>;

    /// Gives a file another name, in place of what has that name.
    fn rename(&self, from: &str, to: &str) -> io::Result<()>;
}

impl<R: Files<File = File> + AllocGlobal + Clone + Drop> Calls for R {
    fn global(&self) -> Global {
        self.alloc()
    }

    fn look_at(&self, path: &str) -> io::Result<Metadata> {
        fs::symlink_metadata(self, path)
    }

    fn look_through(&self, path: &str) -> io::Result<Metadata> {
        fs::metadata(self, path)
    }

    fn open(&self, options: &OpenOptions, path: &str) -> io::Result<File> {
        options.open(self, path)
    }

    fn is_empty(&self, path: &str) -> io::Result<bool> {
        let mut entries = fs::read_dir(self, path)?;
        match entries.next() {
            Some(entry) => {
                entry?;
                Ok(false)
            }
            None => Ok(true),
        }
    }

    fn make_folder(&self, path: &str) -> io::Result<()> {
        let mut builder = DirBuilder::new();
        builder.mode(FOLDER_MODE);
        builder.create(self, path)
    }

    fn remove(&self, path: &str) -> io::Result<()> {
        fs::remove_file(self, path)
    }

    fn rename(&self, from: &str, to: &str) -> io::Result<()> {
        fs::rename(self, from, to)
    }
}
