//! Comparing a report with the mark of a checkpoint while its bytes come.
ghost use Rattle.std.specs.Prelude.{◌≡◌, ◌↔◌, ◌<◌, ◌^◌, ◌++◌, [], IsTrue, length};
ghost use Rattle.ocfl_state.specs.Content.{Bytes};
ghost use Rattle.ocfl_state.specs.Pieces.{Checks, summary_of};
ghost use Rattle.ocfl_state.specs.declared.checkpoint_parts.ReportMark.{ReportMark as ModelMark};

use crate::checkpoint_parts::ReportMark;
use crate::pieces::ReportDigests;

/// Compares a report with a mark while bytes are appended. The mark has the length, so each byte of
/// a report of that length is hashed once.
#[derive(Drop)]
pub struct ReportCheck {
    pub(crate) mark: ReportMark,
    pub(crate) digests: ReportDigests,
}

impl ReportCheck {
    /// Before the first byte of the report.
    pub fn new(mark: &ReportMark) -> ReportCheck
        ensures { Checks mark.now result [] }
    {
        ReportCheck {
            mark: *mark,
            digests: ReportDigests::up_to(mark.bytes),
        }
    }

    /// Appends bytes to the report, as long as it has less than 2^64 bytes.
    pub fn push(&mut self, bytes: &[u8])
        ensures { (mark : ModelMark) (report : Bytes) → Checks mark self.old report
            → length (report ++ bytes.now) < 2 ^ 64
            → Checks mark self.new (report ++ bytes.now) }
    {
        self.digests.push_from(bytes);
    }

    /// Whether the report has the mark: its length, its lines and both digests.
    pub fn is_met(&self) -> bool
        ensures { (mark : ModelMark) (report : Bytes) → Checks mark self.now report
            → (IsTrue result ↔ (mark ≡ summary_of report)) }
    {
        // Of a shorter report no tail is kept.
        if self.digests.bytes != self.mark.bytes {
            return false;
        }
        self.digests.summary() == self.mark
    }
}
