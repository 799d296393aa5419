//! A joined report that was made before, which is compared with the closed reports of the parts.
ghost use Rattle.std.specs.Prelude.{◌≡◌, ◌≢◌, ◌++◌, [], false, true, None, Some, IsErr, IsTrue, IfOk, OnOk};
ghost use Rattle.std.specs.Io.KnownBytes.{Consumes, IsAtEnd};
ghost use mathlib.Core.Bool.{false≢true};
ghost use Rattle.ocfl_disk.specs.Disk.{Calm};
ghost use Rattle.ocfl_join_disk.specs.Shown.{MayLeave, left_in, text_in};
ghost use Rattle.ocfl_join_disk.specs.Comparing.{compared_in, end_of, found_of, seen_comparing};

use crate::disk::JoinDisk;
use crate::parts::Parts;
use ocfl_joining::{KeptMark, PartReports, ReportTrouble};
use ocfl_tree::is_bytes;
use std::alloc::Global;
use std::io::{self, Read};

/// The closed reports of parts in a cycle, and the joined one that was made of them before: they
/// are compared with it, and nothing is made. It tells what it shows if its disk does, and not what
/// a crash leaves, since it changes nothing.
#[derive(Drop)]
pub struct ComparedReports<D: JoinDisk + Drop> {
    parts: Parts<D>,
    cycle: u64,
    /// Whether the joined report is whole.
    whole: bool,
    /// The joined report, while it is compared.
    made: Option<D::Report>,
    /// The bytes of it that are compared.
    piece: Vec<u8>,
    /// Whether it was compared to its end, and is the joined report.
    found: bool,
    ghost known: { IsTrue D.told → (one : D.Report) → made ≡ Some one
        → D.Report.remaining one ≢ None },
    ghost rest: { IsTrue D.told → (one : D.Report) → made ≡ Some one → D.Report.remaining one
        ≡ end_of (D.Report.remaining one) (text_in cycle whole (D.state parts.disk).seen) },
}

/// Whether the next bytes of a report are these. Fails if there are fewer.
fn is_next<R: Read>(report: &mut R, piece: &mut Vec<u8>, bytes: &[u8]) -> io::Result<bool>
    ensures { IfOk result (λ is. is ≡ true
        → Consumes (R.remaining report.old) (R.remaining report.new) bytes.now) }
{
    piece.clear();
    piece.resize(bytes.len(), 0)?;
    let next = piece.as_mut_slice();
    report.read_exact(next)?;
    Ok(is_bytes(next, bytes))
}

/// Whether a report has no more bytes.
fn has_ended<R: Read>(report: &mut R) -> io::Result<bool>
    ensures { IfOk result (λ ended. ended ≡ true → IsAtEnd (R.remaining report.old)) }
{
    Ok(report.read(&mut [0; 1])? == 0)
}

impl<D: JoinDisk + Drop> ComparedReports<D> {
    /// Those of a cycle on a disk, whose joined report is there, whole or not. Nothing was
    /// compared.
    pub fn over(alloc: Global, disk: D, cycle: u64, whole: bool) -> ComparedReports<D>
        ensures disk { result.parts.disk ≡ disk }
        ensures cycle { result.cycle ≡ cycle }
        ensures whole { result.whole ≡ whole }
        ensures found { result.found ≡ false }
    {
        ComparedReports {
            parts: Parts::on(disk),
            cycle,
            whole,
            made: None,
            piece: Vec::new(alloc),
            found: false,
        }
    }

    /// The disk.
    pub fn into_disk(self) -> D
        ensures { result ≡ self.parts.disk }
    {
        let ComparedReports { parts, .. } = self;
        parts.into_disk()
    }

    /// That what is there is not the joined report, or could not be read.
    fn refuse(&mut self, error: Option<io::Error>) -> Result<(), ReportTrouble>
        ensures err { IsErr result }
        ensures parts { IsTrue D.told → D.parts self.new.parts.disk ≡ D.parts self.old.parts.disk }
        ensures calm { IsTrue D.told → Calm (D.state self.old.parts.disk)
            (D.state self.new.parts.disk) }
        ensures made { self.new.made ≡ self.old.made }
        ensures found { self.new.found ≡ self.old.found }
        ensures whole { self.new.whole ≡ self.old.whole }
        ensures cycle { self.new.cycle ≡ self.old.cycle }
    {
        Err(self.parts.disk.refuse_joined(self.cycle, self.whole, error))
    }

    /// Opens the joined report, of which nothing is compared yet.
    fn open_made(&mut self) -> Result<(), ReportTrouble>
        ensures calm { IsTrue D.told → Calm (D.state self.old.parts.disk)
            (D.state self.new.parts.disk) }
        ensures none { IsTrue D.told → OnOk result (compared_in D.Report.remaining self.new.made
            (text_in self.old.cycle self.old.whole (D.state self.new.parts.disk).seen) ≡ []) }
        ensures parts { IsTrue D.told → D.parts self.new.parts.disk ≡ D.parts self.old.parts.disk }
        ensures report { self.new.parts.report ≡ self.old.parts.report }
        ensures found { self.new.found ≡ self.old.found }
        ensures whole { self.new.whole ≡ self.old.whole }
        ensures cycle { self.new.cycle ≡ self.old.cycle }
    {
        self.made = Some(self.parts.disk.open_joined(self.cycle, self.whole)?);
        Ok(())
    }

    /// Compares bytes with the next ones of the joined report.
    fn compare(&mut self, bytes: &[u8]) -> Result<(), ReportTrouble>
        ensures calm { IsTrue D.told → Calm (D.state self.old.parts.disk)
            (D.state self.new.parts.disk) }
        ensures compared { IsTrue D.told → OnOk result (compared_in D.Report.remaining self.new.made
            (text_in self.old.cycle self.old.whole (D.state self.old.parts.disk).seen)
            ≡ compared_in D.Report.remaining self.old.made
            (text_in self.old.cycle self.old.whole (D.state self.old.parts.disk).seen)
            ++ bytes.now) }
        ensures parts { IsTrue D.told → D.parts self.new.parts.disk ≡ D.parts self.old.parts.disk }
        ensures report { OnOk result (self.new.parts.report ≡ self.old.parts.report) }
        ensures found { self.new.found ≡ self.old.found }
        ensures whole { self.new.whole ≡ self.old.whole }
        ensures cycle { self.new.cycle ≡ self.old.cycle }
    {
        let Some(mut made) = self.made.take() else {
            return Err(ReportTrouble::Failed);
        };
        match is_next(&mut made, &mut self.piece, bytes) {
            Ok(true) => {
                self.made = Some(made);
                Ok(())
            }
            Ok(false) => self.refuse(None),
            Err(error) => self.refuse(Some(error)),
        }
    }

    /// That the joined report was compared to its end, and is one that is whole or not.
    fn find_end(&mut self, whole: bool) -> Result<(), ReportTrouble>
        ensures calm { IsTrue D.told → Calm (D.state self.old.parts.disk)
            (D.state self.new.parts.disk) }
        ensures all { IsTrue D.told → OnOk result (
            text_in self.old.cycle self.old.whole (D.state self.old.parts.disk).seen
            ≡ Some (compared_in D.Report.remaining self.old.made
            (text_in self.old.cycle self.old.whole (D.state self.old.parts.disk).seen))) }
        ensures as_whole { OnOk result (whole ≡ self.old.whole) }
        ensures new { OnOk result (self.old.found ≡ false) }
        ensures none { OnOk result (self.new.made ≡ None) }
        ensures parts { IsTrue D.told → D.parts self.new.parts.disk ≡ D.parts self.old.parts.disk }
        ensures report { OnOk result (self.new.parts.report ≡ self.old.parts.report) }
        ensures found { self.new.found ≡ self.old.found }
        ensures same { self.new.whole ≡ self.old.whole }
        ensures cycle { self.new.cycle ≡ self.old.cycle }
    {
        let Some(mut made) = self.made.take() else {
            return Err(ReportTrouble::Failed);
        };
        if self.found {
            return Err(ReportTrouble::Failed);
        }
        if self.whole != whole {
            return self.refuse(None);
        }
        match has_ended(&mut made) {
            Ok(true) => Ok(()),
            Ok(false) => self.refuse(None),
            Err(error) => self.refuse(Some(error)),
        }
    }
}

impl<D: JoinDisk + Drop> PartReports for ComparedReports<D> {
    ghost told = { D.told };

    ghost seen = { λ s. seen_comparing s.cycle s.whole (D.parts s.parts.disk)
        (left_in D.Report.remaining s.parts.report) (D.state s.parts.disk).seen
        (compared_in D.Report.remaining s.made
        (text_in s.cycle s.whole (D.state s.parts.disk).seen)) s.found };

    ghost may_leave = { λ s puts. MayLeave (D.state s.parts.disk)
        (λ stored. found_of s.found s.whole (text_in s.cycle s.whole stored)) puts };

    ghost stays = { λ lasts reports. absurd (false≢true lasts) };

    ghost counts_now = { λ lasts reports. absurd (false≢true lasts) };

    ghost only_now = { λ lasts reports. absurd (false≢true lasts) };

    fn begin(&mut self) -> Result<(), ReportTrouble> {
        self.open_made()
    }

    fn open(&mut self, number: usize) -> Result<KeptMark, ReportTrouble> {
        self.parts.open(self.cycle, number)
    }

    fn read_line(&mut self, text: &mut Vec<u8>) -> Result<bool, ReportTrouble> {
        self.parts.read_line(self.cycle, text)
    }

    fn give(&mut self, bytes: &[u8]) -> Result<(), ReportTrouble> {
        self.compare(bytes)
    }

    fn find_word(&mut self, _whole: bool) -> Result<Option<Vec<u8>>, ReportTrouble> {
        Ok(None)
    }

    fn put(&mut self, whole: bool) -> Result<(), ReportTrouble> {
        self.find_end(whole)?;
        // Who made it may have been killed before this.
        self.parts.sync_names()?;
        self.found = true;
        Ok(())
    }
}
