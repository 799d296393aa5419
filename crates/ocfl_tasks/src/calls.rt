//! The calls of the system that a task makes for its cursor, and to say something.
ghost use Rattle.std.specs.Prelude.{◌≡◌, ◌++◌, ◌∷◌, [], Bool, IsTrue, List, Some, false, is_ok};
ghost use Rattle.ocfl_tasks.specs.Calls.{Put, Said, TaskCall, line_text, opened};

use ocfl_cursor::Refused;
use ocfl_files::files::{open_if_there, put_in_place};
use ocfl_report::DisplayPlace;
use ocfl_scrub::Note;
use ocfl_tree::Place;
use std::fmt;
use std::io::{self, Read, Write};
use std::rt::Files;

/// A line that is said, without what the program puts before it.
#[derive(Clone, Copy)]
pub enum Line<'a> {
    /// What a command ends with.
    Note(&'a Note),
    /// That the path of a check has no item.
    NoItemAt(&'a str),
    /// These words.
    Words(&'a str),
    /// Why the store did not answer at a place.
    Unread(&'a Place, &'a str),
    /// Why bytes are refused as a checkpoint.
    Refused(&'a Refused),
}

impl fmt::Display for Line<'_> {
    ghost output = { λ line. Some (line_text line) };

    fn fmt<W: fmt::Write>(&self, f: &mut fmt::Formatter<W>) -> fmt::Result {
        match self {
            Line::Note(note) => write!(f, "{note}"),
            Line::NoItemAt(path) => write!(f, "no item at {path}"),
            Line::Words(words) => write!(f, "{words}"),
            Line::Unread(place, why) => write!(f, "{}: {why}", DisplayPlace(place)),
            Line::Refused(why) => write!(f, "checkpoint refused: {why}"),
        }
    }
}

/// The calls of the system that a task makes for its cursor, and to say something.
pub trait TaskCalls {
    /// What reads the file of a cursor.
    type Reader: Read + Drop;

    /// Whether the calls are told. Of calls that are not, the clauses say nothing.
    ghost told: { Bool } = { false };

    /// Which calls were made, oldest first.
    ghost calls: { Self → List TaskCall } = { λ _. [] };

    /// Opens a file. `None` if there is no such file.
    fn open(&mut self, file: &str) -> io::Result<Option<Self::Reader>>
        ensures { IsTrue told → calls self.new
            ≡ calls self.old ++ opened Self.Reader.remaining file.now result ∷ [] };

    /// Puts a cursor's text in the place of a file. `report` is the output that the report went to.
    fn put<W: Write>(&mut self, file: &str, text: &[u8], report: &W) -> io::Result<()>
        ensures { IsTrue told → calls self.new ≡ calls self.old
            ++ Put file.now text.now (W.contents report.now) (is_ok result) ∷ [] };

    /// Says a line. Where it cannot be said, nothing changes.
    fn say(&mut self, line: Line<'_>)
        ensures { IsTrue told → calls self.new ≡ calls self.old ++ Said (line_text line.entry) ∷ [] };
}

/// The calls themselves. They are not told.
#[derive(Drop)]
pub(crate) struct SystemCalls<'a, R> {
    pub(crate) rt: &'a R,
}

impl<R: Files + AllocGlobal + Eprint> TaskCalls for SystemCalls<'_, R> {
    type Reader = R::File;

    fn open(&mut self, file: &str) -> io::Result<Option<R::File>> {
        open_if_there(self.rt, file)
    }

    fn put<W: Write>(&mut self, file: &str, text: &[u8], _report: &W) -> io::Result<()> {
        put_in_place(self.rt, file, text)
    }

    fn say(&mut self, line: Line<'_>) {
        let _ = eprintln!(self.rt; "ocfl-scrub: {line}");
    }
}
