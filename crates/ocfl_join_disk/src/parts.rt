//! The closed reports of parts, opened one after the other and read line by line.
ghost use Rattle.std.specs.Prelude.{◌≡◌, ◌≢◌, [], None, Some, true, false, IsTrue, IfOk, IfSome, OnOk};
ghost use Rattle.std.specs.{Io.BufRead.{take_through}, Io.KnownBytes.{Consumes, IsAtEnd}};
ghost use Rattle.ocfl_disk.specs.Disk.{Calm};
ghost use Rattle.ocfl_join_disk.specs.Shown.{HasSureNames, ReadsNext, left_in, with_opened};

use crate::disk::{JoinDisk, OpenPart};
use ocfl_joining::{KeptMark, ReportTrouble};
use std::io::{self, BufRead};

/// The reports of parts on a disk, of which one may be open.
#[derive(Drop)]
pub(crate) struct Parts<D: JoinDisk + Drop> {
    pub(crate) disk: D,
    pub(crate) report: Option<D::Report>,
    ghost known: { IsTrue D.told → (one : D.Report) → report ≡ Some one
        → D.Report.remaining one ≢ None },
}

/// Reads the next line of a report with its line feed, or whatever is left, in place of what `text`
/// had. Gives false at the end.
pub fn next_line<R: BufRead>(report: &mut R, text: &mut Vec<u8>) -> io::Result<bool>
    ensures line { OnOk result
        (IfSome (R.remaining report.old) (λ bytes. text.new.items ≡ take_through 10 bytes)) }
    ensures rest { Consumes (R.remaining report.old) (R.remaining report.new) text.new.items }
    ensures more { IfOk result (λ more. more ≡ true → text.new.items ≢ []) }
    ensures end { IfOk result (λ more. more ≡ false → IsAtEnd (R.remaining report.old)) }
{
    text.clear();
    let count = report.read_until(b'\n', text)?;
    Ok(count > 0)
}

impl<D: JoinDisk + Drop> Parts<D> {
    /// Those on a disk, of which none is open.
    pub(crate) fn on(disk: D) -> Parts<D>
        ensures disk { result.disk ≡ disk }
        ensures left { left_in D.Report.remaining result.report ≡ [] }
    {
        Parts { disk, report: None }
    }

    /// The disk.
    pub(crate) fn into_disk(self) -> D
        ensures { result ≡ self.disk }
    {
        let Parts {
            disk,
            report: _report,
        } = self;
        disk
    }

    /// Opens the report of the part with this number, and gives with what it was closed.
    pub(crate) fn open(&mut self, cycle: u64, number: usize) -> Result<KeptMark, ReportTrouble>
        ensures calm { IsTrue D.told → Calm (D.state self.old.disk) (D.state self.new.disk) }
        ensures opened { IsTrue D.told → OnOk result
            (D.parts self.new.disk ≡ with_opened number (D.parts self.old.disk)) }
        ensures folders { IsTrue D.told
            → (D.parts self.new.disk).folders ≡ (D.parts self.old.disk).folders }
        ensures left { IsTrue D.told → OnOk result (left_in D.Report.remaining self.new.report
            ≡ (D.parts self.old.disk).folders.bytes cycle number) }
        ensures mark { IsTrue D.told → IfOk result (λ mark.
            mark ≡ (D.parts self.old.disk).folders.marks cycle number) }
    {
        let OpenPart { report, mark } = self.disk.open_part(cycle, number)?;
        self.report = Some(report);
        Ok(mark)
    }

    /// Reads the next line of the open report with its line feed, or whatever is left, in place of
    /// what `text` had. Gives false at the end.
    pub(crate) fn read_line(
        &mut self,
        cycle: u64,
        text: &mut Vec<u8>,
    ) -> Result<bool, ReportTrouble>
        ensures calm { IsTrue D.told → Calm (D.state self.old.disk) (D.state self.new.disk) }
        ensures parts { IsTrue D.told → D.parts self.new.disk ≡ D.parts self.old.disk }
        ensures read { IsTrue D.told → IfOk result (λ more. ReadsNext more text.new.items
            (left_in D.Report.remaining self.old.report)
            (left_in D.Report.remaining self.new.report)) }
    {
        match &mut self.report {
            None => {
                text.clear();
                Ok(false)
            }
            Some(report) => match next_line(report, text) {
                Ok(more) => Ok(more),
                Err(error) => Err(self.disk.keep_failure(cycle, error)),
            },
        }
    }

    /// Brings the names of the folder of the joined reports to the disk.
    pub(crate) fn sync_names(&mut self) -> Result<(), ReportTrouble>
        ensures calm { IsTrue D.told → Calm (D.state self.old.disk) (D.state self.new.disk) }
        ensures names { IsTrue D.told → OnOk result (HasSureNames (D.state self.new.disk)) }
        ensures parts { IsTrue D.told → D.parts self.new.disk ≡ D.parts self.old.disk }
        ensures report { self.new.report ≡ self.old.report }
    {
        self.disk.sync_folder()
    }
}
