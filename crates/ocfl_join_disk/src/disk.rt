//! The calls of the system that a joining makes.
ghost use Rattle.std.specs.Prelude.{◌≡◌, ◌⊎◌, ◌++◌, ℕ, Bool, false, IsTrue, IfOk, IfSome, IsSome};
ghost use Rattle.std.specs.Prelude.{MatchResult, OnErr, OnOk, Some, is_some, length, string_bytes};
ghost use Rattle.ocfl_tree.specs.Place.{Text};
ghost use Rattle.ocfl_disk.specs.Disk.{Calm, ClosesOver, Makes, Writes, has_name};
ghost use Rattle.ocfl_disk.specs.Names.{report_of};
ghost use Rattle.ocfl_disk.specs.PowerCut.{DiskState, IsDisk, untold};
ghost use Rattle.ocfl_disk.specs.declared.state_file.StateFile.TheVariants.{Report as TheReport};
ghost use Rattle.ocfl_join_disk.specs.Shown.{HasSureNames, PartFiles, no_files, text_in};
ghost use Rattle.ocfl_join_disk.specs.Shown.{with_opened, with_text};

use ocfl_joining::{FailedCall, FoundReport, KeptMark, ReportTrouble};
use std::io::{self, BufRead};

/// The closed report of a part that is open, and with what it was closed.
#[derive(Drop)]
pub struct OpenPart<R> {
    pub report: R,
    pub mark: KeptMark,
}

/// What a joining asks of the system: what there is in the state folders of the parts, the closed
/// reports among it, and the joined reports, each by its cycle. The joined report is made beside
/// its place, as what `ocfl_disk` calls the report, and gets its name by a rename.
///
/// One that states nothing of what is on the disk does not tell it.
pub trait JoinDisk {
    /// A report that is open for reading.
    type Report: BufRead + Drop;

    /// The joined report while it is made.
    type Made: Drop;

    /// Whether the clauses say what is on the disk. Of one that does not tell, they say nothing.
    ghost told: { Bool } = { false };

    /// What the folders of the parts show, and which of their closed reports were opened.
    ghost parts: { Self → PartFiles } = { λ _. no_files };

    /// The joined reports and the one that is made, and what a power cut may leave of them.
    ghost state: { Self → DiskState } = { λ _. untold };

    /// The number of the file that is made.
    ghost number: { Self.Made → ℕ } = { λ _. 0 };

    /// Opens the closed report of the part with this number, from 1.
    fn open_part(
        &mut self,
        cycle: u64,
        part: usize,
    ) -> Result<OpenPart<Self::Report>, ReportTrouble>
        ensures calm { IsTrue told → Calm (state self.old) (state self.new) }
        ensures opened { IsTrue told → OnOk result
            (parts self.new ≡ with_opened part (parts self.old)) }
        ensures folders { IsTrue told → (parts self.new).folders ≡ (parts self.old).folders }
        ensures bytes { IsTrue told → IfOk result (λ found. Self.Report.remaining found.report
            ≡ Some ((parts self.old).folders.bytes cycle part)) }
        ensures mark { IsTrue told → IfOk result (λ found. found.mark
            ≡ (parts self.old).folders.marks cycle part) };

    /// Keeps why a report could not be read on.
    fn keep_failure(&mut self, cycle: u64, error: io::Error) -> ReportTrouble
        ensures calm { IsTrue told → Calm (state self.old) (state self.new) }
        ensures parts { IsTrue told → parts self.new ≡ parts self.old };

    /// Opens the joined report that was made before, whole or not.
    fn open_joined(&mut self, cycle: u64, whole: bool) -> Result<Self::Report, ReportTrouble>
        ensures calm { IsTrue told → Calm (state self.old) (state self.new) }
        ensures parts { IsTrue told → parts self.new ≡ parts self.old }
        ensures bytes { IsTrue told → IfOk result (λ report. Self.Report.remaining report
            ≡ text_in cycle whole (state self.old).seen) }
        ensures there { IsTrue told → OnOk result
            (IsSome (text_in cycle whole (state self.old).seen)) };

    /// Keeps that what is there in place of the joined report is not it, or why it could not be
    /// read.
    fn refuse_joined(&mut self, cycle: u64, whole: bool, error: Option<io::Error>) -> ReportTrouble
        ensures calm { IsTrue told → Calm (state self.old) (state self.new) }
        ensures parts { IsTrue told → parts self.new ≡ parts self.old };

    /// Whether a joined report of a cycle is there, whole or not.
    fn has_joined(&mut self, cycle: u64, whole: bool) -> Result<bool, ReportTrouble>
        ensures calm { IsTrue told → Calm (state self.old) (state self.new) }
        ensures parts { IsTrue told → parts self.new ≡ parts self.old }
        ensures value { IsTrue told → IfOk result (λ answer.
            answer ≡ has_name cycle whole (state self.old).seen.names.closed) };

    /// Makes the file of the joined report, which is empty, and opens it. What a joining that was
    /// killed left of one goes away before, and does not count.
    fn create(&mut self, cycle: u64) -> Result<Self::Made, ReportTrouble>
        ensures parts { IsTrue told → parts self.new ≡ parts self.old }
        ensures made { IsTrue told → MatchResult result
            (λ file. Makes TheReport (number file) (state self.old) (state self.new))
            (λ _. Calm (state self.old) (state self.new)) };

    /// Appends bytes to it.
    fn append(
        &mut self,
        cycle: u64,
        file: &mut Self::Made,
        bytes: &[u8],
    ) -> Result<(), ReportTrouble>
        requires { IsTrue told → (state self.old).seen.names.report ≡ Some (number file.old) }
        ensures parts { IsTrue told → parts self.new ≡ parts self.old }
        ensures same { IsTrue told → number file.new ≡ number file.old }
        ensures writes { IsTrue told → Writes (number file.old)
            (length ((state self.old).seen.bytes (number file.old)))
            (length ((state self.old).seen.bytes (number file.old) ++ bytes.now))
            (state self.old) (state self.new) }
        ensures appended { IsTrue told → OnOk result
            ((state self.new).seen.bytes (number file.old)
            ≡ (state self.old).seen.bytes (number file.old) ++ bytes.now) };

    /// Brings its bytes to the disk.
    fn sync(&mut self, cycle: u64, file: &Self::Made) -> Result<(), ReportTrouble>
        ensures parts { IsTrue told → parts self.new ≡ parts self.old }
        ensures calm { IsTrue told → Calm (state self.old) (state self.new) }
        ensures synced { IsTrue told → OnOk result
            (IsTrue ((state self.new).is_synced (number file.now))) };

    /// The word on the joined report that is made, whole or not, of which all bytes were appended.
    fn find_word(&mut self, cycle: u64, whole: bool) -> Result<Vec<u8>, ReportTrouble>
        ensures parts { IsTrue told → parts self.new ≡ parts self.old }
        ensures calm { IsTrue told → Calm (state self.old) (state self.new) }
        ensures word { IsTrue told → IfOk result (λ word. word.items
            ≡ (parts self.old).folders.word cycle whole
            (report_of (state self.old).seen.bytes (state self.old).seen.names.report)) };

    /// Gives it the name of the joined report of a cycle, which is not there.
    fn rename(&mut self, cycle: u64, whole: bool) -> Result<(), ReportTrouble>
        requires new { IsTrue told
            → has_name cycle whole (state self.old).seen.names.closed ≡ false }
        requires synced { IsTrue told → (file : ℕ)
            → (state self.old).seen.names.report ≡ Some file
            → IsTrue ((state self.old).is_synced file) }
        ensures parts { IsTrue told → parts self.new ≡ parts self.old }
        ensures closes { IsTrue told → MatchResult result
            (λ _. ClosesOver cycle whole (state self.old) (state self.new))
            (λ _. Calm (state self.old) (state self.new)
            ⊎ ClosesOver cycle whole (state self.old) (state self.new)) };

    /// Brings the names of the folder of the joined reports to the disk.
    fn sync_folder(&mut self) -> Result<(), ReportTrouble>
        ensures parts { IsTrue told → parts self.new ≡ parts self.old }
        ensures calm { IsTrue told → Calm (state self.old) (state self.new) }
        ensures names { IsTrue told → OnOk result (HasSureNames (state self.new)) };

    /// Whether a joined report of a cycle, whole or not, is there compressed.
    fn is_packed(&mut self, cycle: u64, whole: bool) -> Result<bool, ReportTrouble>
        ensures parts { IsTrue told → parts self.new ≡ parts self.old }
        ensures calm { IsTrue told → Calm (state self.old) (state self.new) }
        ensures value { IsTrue told → IfOk result (λ is.
            is ≡ (parts self.old).folders.packed cycle whole) };

    /// Whether a closed report of a part is there.
    fn has_closed(&mut self, cycle: u64, part: usize) -> Result<bool, ReportTrouble>
        ensures parts { IsTrue told → parts self.new ≡ parts self.old }
        ensures calm { IsTrue told → Calm (state self.old) (state self.new) }
        ensures value { IsTrue told → IfOk result (λ is.
            is ≡ is_some ((parts self.old).folders.found cycle part)) };

    /// Whether a part has said what a closed report of it found.
    fn has_said(&mut self, cycle: u64, part: usize) -> Result<bool, ReportTrouble>
        ensures parts { IsTrue told → parts self.new ≡ parts self.old }
        ensures calm { IsTrue told → Calm (state self.old) (state self.new) }
        ensures value { IsTrue told → IfOk result (λ is.
            is ≡ (parts self.old).folders.has_said cycle part) };

    /// The closed report of a part, if it is there, with what was kept at its closing.
    fn find_closed(&mut self, cycle: u64, part: usize) -> Result<Option<FoundReport>, ReportTrouble>
        ensures parts { IsTrue told → parts self.new ≡ parts self.old }
        ensures calm { IsTrue told → Calm (state self.old) (state self.new) }
        ensures found { IsTrue told → IfOk result (λ found.
            found ≡ (parts self.old).folders.found cycle part) };

    /// How the path of the joined report of a cycle, whole or not, is shown.
    fn show_path(&mut self, cycle: u64, whole: bool) -> Result<String, ReportTrouble>
        ensures parts { IsTrue told → parts self.new ≡ parts self.old }
        ensures calm { IsTrue told → Calm (state self.old) (state self.new) }
        ensures path { IsTrue told → IfOk result (λ path.
            string_bytes path ≡ (parts self.old).folders.path cycle whole) };

    /// Says a text on standard error.
    fn note(&mut self, text: &str) -> Result<(), ReportTrouble>
        ensures said { IsTrue told
            → OnOk result (parts self.new ≡ with_text text.now (parts self.old)) }
        ensures silent { IsTrue told → OnErr result (parts self.new ≡ parts self.old) }
        ensures calm { IsTrue told → Calm (state self.old) (state self.new) };

    /// What the system said of the last call that failed, and then it is forgotten. `None` if that
    /// was not kept.
    fn take_failure(&mut self) -> Option<FailedCall>
        ensures parts { IsTrue told → parts self.new ≡ parts self.old }
        ensures calm { IsTrue told → Calm (state self.old) (state self.new) };

    /// The laws of what is on a disk.
    ghost is_disk: { IsTrue told → (disk : Self) → IsDisk (state disk) };
}
