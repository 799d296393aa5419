//! The calls of closings, made by the system over a state folder. They are not told.
ghost use Rattle.std.specs.Prelude.{◌≡◌, IfErr};
ghost use mathlib.Core.Bool.{false≢true};
ghost use Rattle.ocfl_files.specs.Failing.{stopped_status};

use crate::calls::ClosingCalls;
use ocfl_closed::OpenReport;
use ocfl_cursor::PartEnds;
use ocfl_files::failing::{Failure, say_failure};
use ocfl_files::making::{failed_file, of_file};
use ocfl_files::timing::seconds_now;
use ocfl_kept::kept::{is_as_closed, read_ends};
use ocfl_kept::room::Room;
use ocfl_kept::state::failed_folder;
use ocfl_kept::state_dir::Folder;
use ocfl_reading::expected::{Listed, read_expected};
use ocfl_state::FolderTrouble;
use std::alloc::{AllocError, Global};
use std::fs::File;
use std::io::{self, BufReader};
use std::os::unix::fs::FileExt;
use std::time::Clock;

/// A closed report that was opened.
#[derive(Drop)]
pub(crate) struct Opened {
    file: File,
}

impl OpenReport for Opened {
    ghost short = { λ told report. absurd (false≢true told) };

    fn read_at(&self, start: u64, buffer: &mut [u8]) -> io::Result<usize> {
        self.file.read_at(buffer, start)
    }
}

/// The calls in a state folder.
pub(crate) struct FolderCalls<'t, R, F> {
    rt: &'t R,
    folder: &'t mut F,
    /// The path of the state folder.
    state: &'t str,
    /// The path of the list of the objects that must be there.
    expected: Option<&'t str>,
    /// The path of the list that was made last.
    made: Option<String>,
}

/// Written by hand, so that to let it go is one call wherever that happens.
impl<'t, R, F> Drop for FolderCalls<'t, R, F> {
    fn drop(self) {
        let FolderCalls {
            rt: _rt,
            folder: _folder,
            state: _state,
            expected: _expected,
            made: _made,
        } = self;
    }
}

/// What a list says for which none was made.
fn none_made(alloc: Global) -> Failure {
    Failure::saying(String::from_str(alloc, "no list of what is gone was made\n"))
}

impl<'t, R: Room, F: Folder> FolderCalls<'t, R, F> {
    /// Those in a state folder with this path.
    pub(crate) fn new(
        rt: &'t R,
        folder: &'t mut F,
        state: &'t str,
        expected: Option<&'t str>,
    ) -> FolderCalls<'t, R, F> {
        FolderCalls {
            rt,
            folder,
            state,
            expected,
            made: None,
        }
    }

    /// What a call on the folder gave, or what is said of why it failed.
    fn answer<T>(&mut self, answer: Result<T, FolderTrouble>) -> Result<T, Failure>
        ensures { IfErr result (λ failure. failure.status ≡ stopped_status) }
    {
        match answer {
            Ok(value) => Ok(value),
            Err(_) => Err(failed_folder(self.rt.global(), self.folder, self.state)),
        }
    }

    /// Opens and syncs a file or a folder.
    fn sync_at(&self, path: &str) -> io::Result<()> {
        let opened = self.rt.open_file(path)?;
        opened.sync_all()
    }

    /// Opens a list, if it is there.
    fn rows_at(&self, path: &str) -> io::Result<Option<BufReader<File>>> {
        match self.rt.find_file(path)? {
            Some(list) => Ok(Some(BufReader::new(self.rt.global(), list)?)),
            None => Ok(None),
        }
    }

    /// What a call gave on the list that was made last.
    fn of_made(&self, answer: io::Result<()>) -> Result<(), Failure> {
        match (answer, &self.made) {
            (Err(error), Some(path)) => Err(failed_file(self.rt.global(), path.as_str(), &error)),
            (Err(error), None) => Err(failed_file(self.rt.global(), "", &error)),
            (Ok(()), _) => Ok(()),
        }
    }
}

impl<R: Room + Clock + Eprint, F: Folder> ClosingCalls for FolderCalls<'_, R, F> {
    type Report = Opened;

    type List = File;

    type Rows = BufReader<File>;

    ghost reports = { λ told. absurd (false≢true told) };

    ghost is_disk = { λ told calls. absurd (false≢true told) };

    ghost is_listed = { λ told calls. absurd (false≢true told) };

    fn global(&self) -> Global {
        self.rt.global()
    }

    fn path(&self) -> &str {
        self.state
    }

    fn seconds(&self) -> u64 {
        seconds_now(self.rt)
    }

    fn has(&mut self, path: &str) -> Result<bool, AllocError> {
        Ok(self.rt.has(path))
    }

    fn open_report(&mut self, cycle: u64, whole: bool) -> Result<Option<Opened>, Failure> {
        let found = self.folder.closed_report_as(cycle, whole);
        match self.answer(found)? {
            Some(file) => Ok(Some(Opened { file })),
            None => Ok(None),
        }
    }

    fn kept(&mut self, cycle: u64) -> Result<Option<Vec<u8>>, Failure> {
        let found = self.folder.stored_at_closing(cycle);
        self.answer(found)
    }

    fn is_as_closed(&mut self, cycle: u64) -> Result<bool, Failure> {
        is_as_closed(self.rt.global(), self.folder, self.state, cycle)
    }

    fn ends(&mut self) -> Result<Option<PartEnds>, Failure> {
        read_ends(self.rt.global(), self.folder, self.state)
    }

    fn read_expected(&mut self) -> Result<Option<Listed>, Failure> {
        let Some(file) = self.expected else {
            return Ok(None);
        };
        Ok(Some(read_expected(self.rt.global(), file, self.rt.open_file(file))?))
    }

    fn open_rows(&mut self, path: &str) -> Result<Option<BufReader<File>>, Failure> {
        of_file(self.rt.global(), path, self.rows_at(path))
    }

    fn make(&mut self, path: &str) -> Result<File, Failure> {
        let mut kept = String::new(self.rt.global());
        kept.push_str(path)?;
        let made = self.rt.make_file(path);
        self.made = Some(kept);
        made
    }

    fn end(&mut self, list: &File) -> Result<(), Failure> {
        self.of_made(list.sync_all())
    }

    fn sync_made(&mut self) -> Result<(), Failure> {
        match &self.made {
            Some(path) => self.of_made(self.sync_at(path.as_str())),
            None => Err(none_made(self.rt.global())),
        }
    }

    fn put_made(&mut self, path: &str) -> Result<(), Failure> {
        match &self.made {
            Some(made) => self.rt.put_made(made.as_str(), path),
            None => Err(none_made(self.rt.global())),
        }
    }

    fn remove_made(&mut self) {
        if let Some(path) = &self.made {
            self.rt.remove_file(path.as_str());
        }
    }

    fn sync_folder(&mut self, path: &str) -> Result<(), Failure> {
        of_file(self.rt.global(), path, self.sync_at(path))
    }

    fn add_to_log(&mut self, line: &[u8]) -> Result<(), Failure> {
        let added = self.folder.add_to_log(line);
        self.answer(added)
    }

    fn say(&mut self, failure: &Failure) -> Result<(), AllocError> {
        let _ = say_failure(self.rt, failure);
        Ok(())
    }
}
