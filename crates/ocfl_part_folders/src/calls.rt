//! The calls of the system that a joining makes in the folder of all parts, each on a path.
ghost use Rattle.std.specs.Prelude.{◌≡◌, ◌⊎◌, ◌++◌, ◌<◌, ◌^◌, ℕ, Bool, IsTrue, false};
ghost use Rattle.std.specs.Prelude.{IfOk, IsSome, MatchResult, OnErr, OnOk, Some, is_some, length};
ghost use mathlib.Core.Bool.{false≢true};
ghost use Rattle.std.specs.Option.{option_map};
ghost use Rattle.ocfl_state.specs.Calls.{bytes_of};
ghost use Rattle.ocfl_disk.specs.Disk.{Calm, ClosesOver, Makes, Writes, has_name};
ghost use Rattle.ocfl_disk.specs.Names.{report_of};
ghost use Rattle.ocfl_disk.specs.PowerCut.{DiskState, IsDisk, untold};
ghost use Rattle.ocfl_disk.specs.declared.state_file.StateFile.TheVariants.{Report as TheReport};
ghost use Rattle.ocfl_join_disk.specs.Shown.{HasSureNames, text_in};
ghost use Rattle.ocfl_kept.specs.FilePaths.{list_path, packed_path, part_path, report_path};
ghost use Rattle.ocfl_part_folders.specs.Folder.{IsOpened, PartsFolder, found_in, new_path, no_parts};
ghost use Rattle.ocfl_part_folders.specs.Folder.{reports_path, text_of, with_note, with_opened, with_part};

use ocfl_disk::OpenReport;
use ocfl_files::failing::Failure;
use ocfl_joining::FoundReport;
use ocfl_kept::kept::ClosedIn;
use ocfl_kept::room::Room;
use ocfl_state::Checkpoint;
use std::alloc::{AllocError, Global};
use std::fs::File;
use std::io::{self, BufRead, BufReader, Write};

/// The closed report of a part that was opened.
#[derive(Drop)]
pub struct ClosedFile<R> {
    pub report: R,
    /// How many bytes it has.
    pub bytes: u64,
    /// The checkpoint with which it was closed. `None` if it was not kept, and `Some(None)` if
    /// what was kept is no checkpoint any more.
    pub kept: Option<Option<Checkpoint>>,
}

/// What a joining asks of the system in the folder of all parts: each file by its path, and what
/// was closed in a folder of a part by the path of that.
///
/// One that states nothing of what is there does not tell it.
pub trait PartCalls {
    /// A report that is open for reading.
    type Report: BufRead + Drop;

    /// A joined report while it is made.
    type Made: Drop;

    /// Whether the clauses say what is there. Of calls that do not tell, they say nothing.
    ghost told: { Bool } = { false };

    /// What there is of the parts.
    ghost folder: { Self → PartsFolder } = { λ _. no_parts };

    /// The joined reports and the one that is made, and what a power cut may leave of them.
    ghost disk: { Self → DiskState } = { λ _. untold };

    /// The number of the file that is made.
    ghost number: { Self.Made → ℕ } = { λ _. 0 };

    /// Where memory comes from.
    fn global(&self) -> Global;

    /// The path of the folder of all parts.
    fn path(&self) -> &str
        ensures { IsTrue told → result.now ≡ (folder self.now).path };

    /// Whether something is at a path. The only error is running out of memory.
    fn has(&mut self, path: &str) -> Result<bool, AllocError>
        ensures folder { IsTrue told → folder self.new ≡ folder self.old }
        ensures calm { IsTrue told → Calm (disk self.old) (disk self.new) }
        ensures part { IsTrue told → (part : ℕ)
            → path.now ≡ part_path (folder self.old).path part
            → IfOk result (λ is. is ≡ (folder self.old).is_there part) }
        ensures closed { IsTrue told → (cycle part : ℕ) (whole : Bool)
            → path.now ≡ report_path (part_path (folder self.old).path part) cycle whole
            → IfOk result (λ is. is ≡ is_some ((folder self.old).closed cycle part whole)) }
        ensures said { IsTrue told → (cycle part : ℕ)
            → path.now ≡ list_path (part_path (folder self.old).path part) cycle
            → IfOk result (λ is. is ≡ (folder self.old).has_said cycle part) }
        ensures packed { IsTrue told → (cycle : ℕ) (whole : Bool)
            → path.now ≡ packed_path (folder self.old).path cycle whole
            → IfOk result (λ is. is ≡ (folder self.old).packed cycle whole) }
        ensures joined { IsTrue told → (cycle : ℕ) (whole : Bool) → cycle < 2 ^ 64
            → path.now ≡ report_path (folder self.old).path cycle whole
            → IfOk result (λ is.
            is ≡ has_name cycle whole (disk self.old).seen.names.closed) };

    /// The bytes of the checkpoint in the folder of a part, if one is there.
    fn stored_in(&mut self, path: &str) -> Result<Option<Vec<u8>>, Failure>
        ensures folder { IsTrue told → folder self.new ≡ folder self.old }
        ensures calm { IsTrue told → Calm (disk self.old) (disk self.new) }
        ensures stored { IsTrue told → (part : ℕ)
            → path.now ≡ part_path (folder self.old).path part
            → IfOk result (λ found. option_map bytes_of found ≡ (folder self.old).stored part) };

    /// The closed report of a cycle in the folder of a part, if it is there, with what was kept at
    /// its closing.
    fn closed_in(&mut self, path: &str, cycle: u64) -> Result<Option<FoundReport>, Failure>
        ensures folder { IsTrue told → folder self.new ≡ folder self.old }
        ensures calm { IsTrue told → Calm (disk self.old) (disk self.new) }
        ensures found { IsTrue told → (part : ℕ)
            → path.now ≡ part_path (folder self.old).path part
            → IfOk result (λ found. found ≡ found_in (folder self.old) cycle part) };

    /// The same, opened to be read.
    fn open_closed(
        &mut self,
        path: &str,
        cycle: u64,
    ) -> Result<Option<ClosedFile<Self::Report>>, Failure>
        ensures folder { IsTrue told → folder self.new
            ≡ with_opened (folder self.new).opened (folder self.old) }
        ensures calm { IsTrue told → Calm (disk self.old) (disk self.new) }
        ensures opened { IsTrue told → (part : ℕ) → part < 2 ^ 64
            → path.now ≡ part_path (folder self.old).path part
            → OnOk result (folder self.new ≡ with_part part (folder self.old)) }
        ensures report { IsTrue told → (part : ℕ)
            → path.now ≡ part_path (folder self.old).path part
            → IfOk result (IsOpened Self.Report.remaining (folder self.old) cycle part) };

    /// Opens a joined report, or the file in which one is made.
    fn open(&mut self, path: &str) -> io::Result<Self::Report>
        ensures folder { IsTrue told → folder self.new ≡ folder self.old }
        ensures calm { IsTrue told → Calm (disk self.old) (disk self.new) }
        ensures joined { IsTrue told → (cycle : ℕ) (whole : Bool) → cycle < 2 ^ 64
            → path.now ≡ report_path (folder self.old).path cycle whole
            → IfOk result (λ report. Self.Report.remaining report
            ≡ text_in cycle whole (disk self.old).seen) }
        ensures there { IsTrue told → (cycle : ℕ) (whole : Bool) → cycle < 2 ^ 64
            → path.now ≡ report_path (folder self.old).path cycle whole
            → OnOk result (IsSome (text_in cycle whole (disk self.old).seen)) }
        ensures made { IsTrue told → (cycle : ℕ)
            → path.now ≡ new_path (folder self.old).path cycle
            → IfOk result (λ report. Self.Report.remaining report
            ≡ Some (report_of (disk self.old).seen.bytes (disk self.old).seen.names.report)) };

    /// Makes a folder, unless it is there.
    fn make_folder(&mut self, path: &str) -> Result<(), Failure>
        ensures folder { IsTrue told → folder self.new ≡ folder self.old }
        ensures calm { IsTrue told → Calm (disk self.old) (disk self.new) };

    /// Makes an empty file, in place of what is there, and opens it.
    fn make(&mut self, path: &str) -> Result<Self::Made, Failure>
        ensures folder { IsTrue told → folder self.new ≡ folder self.old }
        ensures made { IsTrue told → (cycle : ℕ)
            → path.now ≡ new_path (folder self.old).path cycle
            → MatchResult result
            (λ file. Makes TheReport (number file) (disk self.old) (disk self.new))
            (λ _. Calm (disk self.old) (disk self.new)) };

    /// Appends bytes to it.
    fn append(&mut self, file: &mut Self::Made, bytes: &[u8]) -> io::Result<()>
        requires { IsTrue told → (disk self.old).seen.names.report ≡ Some (number file.old) }
        ensures folder { IsTrue told → folder self.new ≡ folder self.old }
        ensures same { IsTrue told → number file.new ≡ number file.old }
        ensures writes { IsTrue told → Writes (number file.old)
            (length ((disk self.old).seen.bytes (number file.old)))
            (length ((disk self.old).seen.bytes (number file.old) ++ bytes.now))
            (disk self.old) (disk self.new) }
        ensures appended { IsTrue told → OnOk result
            ((disk self.new).seen.bytes (number file.old)
            ≡ (disk self.old).seen.bytes (number file.old) ++ bytes.now) };

    /// Brings its bytes to the disk.
    fn sync(&mut self, file: &Self::Made) -> io::Result<()>
        ensures folder { IsTrue told → folder self.new ≡ folder self.old }
        ensures calm { IsTrue told → Calm (disk self.old) (disk self.new) }
        ensures synced { IsTrue told → OnOk result
            (IsTrue ((disk self.new).is_synced (number file.now))) };

    /// Gives a file that was made, and was synced, the path of a joined report that is not there.
    fn put(&mut self, made: &str, path: &str) -> Result<(), Failure>
        ensures folder { IsTrue told → folder self.new ≡ folder self.old }
        ensures closes { IsTrue told → (cycle : ℕ) (whole : Bool) → cycle < 2 ^ 64
            → made.now ≡ new_path (folder self.old).path cycle
            → path.now ≡ report_path (folder self.old).path cycle whole
            → has_name cycle whole (disk self.old).seen.names.closed ≡ false
            → ((file : ℕ) → (disk self.old).seen.names.report ≡ Some file
            → IsTrue ((disk self.old).is_synced file))
            → MatchResult result
            (λ _. ClosesOver cycle whole (disk self.old) (disk self.new))
            (λ _. Calm (disk self.old) (disk self.new)
            ⊎ ClosesOver cycle whole (disk self.old) (disk self.new)) };

    /// Brings the names in a folder to the disk.
    fn sync_folder(&mut self, path: &str) -> io::Result<()>
        ensures folder { IsTrue told → folder self.new ≡ folder self.old }
        ensures calm { IsTrue told → Calm (disk self.old) (disk self.new) }
        ensures names { IsTrue told → path.now ≡ reports_path (folder self.old).path
            → OnOk result (HasSureNames (disk self.new)) };

    /// Says a text on standard error. The only error is running out of memory: a text that cannot
    /// be written is passed over.
    fn say(&mut self, text: &str) -> Result<(), AllocError>
        ensures said { IsTrue told → OnOk result
            (folder self.new ≡ with_note text.now (folder self.old)) }
        ensures silent { IsTrue told → OnErr result (folder self.new ≡ folder self.old) }
        ensures calm { IsTrue told → Calm (disk self.old) (disk self.new) };

    /// The laws of what is on a disk.
    ghost is_disk: { IsTrue told → (calls : Self) → IsDisk (disk calls) };
}

/// The calls themselves. They are not told.
pub(crate) struct RoomCalls<'a, R: Room> {
    rt: &'a R,
    /// The path of the folder of all parts.
    folder: &'a str,
}

/// Written by hand, so that to let it go is one call wherever that happens.
impl<'a, R: Room> Drop for RoomCalls<'a, R> {
    fn drop(self) {
        let RoomCalls {
            rt: _rt,
            folder: _folder,
        } = self;
    }
}

impl<'a, R: Room> RoomCalls<'a, R> {
    /// Those in a folder of all parts.
    pub(crate) fn new(rt: &'a R, folder: &'a str) -> RoomCalls<'a, R> {
        RoomCalls { rt, folder }
    }
}

/// A buffered reader of a file.
fn reader(alloc: Global, file: File) -> Result<BufReader<File>, AllocError> {
    match BufReader::new(alloc, file) {
        Ok(report) => Ok(report),
        Err(_) => Err(AllocError),
    }
}

impl<R: Room + Eprint> PartCalls for RoomCalls<'_, R> {
    type Report = BufReader<File>;

    type Made = File;

    ghost is_disk = { λ told calls. absurd (false≢true told) };

    fn global(&self) -> Global {
        self.rt.global()
    }

    fn path(&self) -> &str {
        self.folder
    }

    fn has(&mut self, path: &str) -> Result<bool, AllocError> {
        Ok(self.rt.has(path))
    }

    fn stored_in(&mut self, path: &str) -> Result<Option<Vec<u8>>, Failure> {
        self.rt.checkpoint_in(path)
    }

    fn closed_in(&mut self, path: &str, cycle: u64) -> Result<Option<FoundReport>, Failure> {
        let Some(closed) = self.rt.closed_in(path, cycle)? else {
            return Ok(None);
        };
        let ClosedIn { report, kept, .. } = closed;
        let whole = report.whole;
        Ok(Some(FoundReport { whole, kept }))
    }

    fn open_closed(
        &mut self,
        path: &str,
        cycle: u64,
    ) -> Result<Option<ClosedFile<BufReader<File>>>, Failure> {
        let Some(closed) = self.rt.closed_in(path, cycle)? else {
            return Ok(None);
        };
        let ClosedIn {
            report,
            bytes,
            kept,
        } = closed;
        let OpenReport {
            file,
            whole: _whole,
        } = report;
        let report = reader(self.rt.global(), file)?;
        Ok(Some(ClosedFile {
            report,
            bytes,
            kept,
        }))
    }

    fn open(&mut self, path: &str) -> io::Result<BufReader<File>> {
        Ok(reader(self.rt.global(), self.rt.open_file(path)?)?)
    }

    fn make_folder(&mut self, path: &str) -> Result<(), Failure> {
        self.rt.make_folder(path)
    }

    fn make(&mut self, path: &str) -> Result<File, Failure> {
        self.rt.make_file(path)
    }

    fn append(&mut self, file: &mut File, bytes: &[u8]) -> io::Result<()> {
        file.write_all(bytes)
    }

    fn sync(&mut self, file: &File) -> io::Result<()> {
        file.sync_all()
    }

    fn put(&mut self, made: &str, path: &str) -> Result<(), Failure> {
        self.rt.put_made(made, path)
    }

    fn sync_folder(&mut self, path: &str) -> io::Result<()> {
        self.rt.open_file(path)?.sync_all()
    }

    fn say(&mut self, text: &str) -> Result<(), AllocError> {
        let _ = eprint!(self.rt; "{text}");
        Ok(())
    }
}
