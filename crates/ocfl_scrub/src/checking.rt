//! Checking one place.
ghost use Rattle.std.specs.Prelude.{◌≡◌, ◌≢◌, true, false};
ghost use Rattle.ocfl_scrub.specs.{Call.{WhereTold}, Checking.{CheckEnds}, Taking.{WritesLines}};

use crate::stop::ReportStop;
use crate::taking::take_item;
use ocfl_digest::Block;
use ocfl_report::Further;
use ocfl_tree::{Place, Tree};
use ocfl_walk::item_at;
use std::alloc::Global;
use std::io::Write;

/// How an audit or a check ended.
#[derive(Drop)]
pub enum AuditStatus {
    Ended,
    Stopped(ReportStop),
}

/// What a check did.
#[derive(Drop)]
pub struct CheckEnd {
    /// Whether a line that was written is a finding.
    pub found: bool,
    /// Whether there are lines for the place.
    pub item: bool,
    pub end: AuditStatus,
}

/// Writes the report lines of one place, which are those that an audit has there that checks this
/// beside what every audit checks.
///
/// If there are none, nothing is written. A content file is opened once, if some digest is named
/// for it, and no other content is; each declaration, inventory and sidecar that the lines need is
/// opened once. After a stop, `found` and `item` are false.
pub fn check<T: Tree, W: Write>(
    alloc: Global,
    store: &mut T,
    further: Further,
    place: &Place,
    block: &mut Block,
    out: &mut W,
) -> CheckEnd
    // Of every store.
    ensures stopped { result.end ≢ AuditStatus.Ended → result.item ≡ false }
    ensures no_item { result.item ≡ false → result.found ≡ false }
    ensures silent { result.item ≡ false → result.end ≢ AuditStatus.Stopped ReportStop.Output
        → out.new ≡ out.old }
    ensures lines { result.item ≡ true → WritesLines (W.contents out.old)
        (W.contents out.new) result.found }

    // Of a store that tells its tree.
    ensures told { WhereTold further T.told T.state W.contents store.old store.new out.old out.new
        (λ call. CheckEnds call place.now result.item result.found result.end) }
{
    let pending = match item_at(alloc, store, further, place) {
        Ok(Some(pending)) => pending,
        Ok(None) => {
            return CheckEnd {
                found: false,
                item: false,
                end: AuditStatus::Ended,
            };
        }
        Err(why) => return stopped(ReportStop::Fault(why)),
    };
    match take_item(alloc, store, pending, block, out) {
        Ok(taken) => CheckEnd {
            found: taken.found,
            item: true,
            end: AuditStatus::Ended,
        },
        Err(why) => stopped(why),
    }
}

fn stopped(why: ReportStop) -> CheckEnd
    ensures end { result.end ≡ AuditStatus.Stopped why }
    ensures found { result.found ≡ false }
    ensures item { result.item ≡ false }
{
    CheckEnd {
        found: false,
        item: false,
        end: AuditStatus::Stopped(why),
    }
}
