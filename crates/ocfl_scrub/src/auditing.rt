//! The audit of a storage root, or of a part of it.
ghost use Rattle.std.specs.Prelude.{◌≡◌, [], None, false};
ghost use Rattle.ocfl_report.specs.{Line.{found as found_in}, Text.{text}};
ghost use Rattle.ocfl_rules.specs.{Audit.{audit as whole_audit}, Parts.{within}};
ghost use Rattle.ocfl_scrub.specs.{Call.{IsUnfailing, WhereTold, Writes}, Starting.{part_of}};
ghost use Rattle.ocfl_scrub.specs.WholeAudit.{AuditEnds, AuditEndsWithin, AuditsOnAnyStore};

use crate::checking::AuditStatus;
use crate::part::{Part, set_out};
use crate::stop::ReportStop;
use crate::taking::{either, take_item};
use ocfl_digest::Block;
use ocfl_report::Further;
use ocfl_tree::{Place, Tree};
use std::alloc::Global;
use std::io::Write;

/// What an audit did.
#[derive(Drop)]
pub struct AuditEnd {
    /// Whether a line of an item that went out whole is a finding.
    pub found: bool,
    /// The place of the last item that went out whole.
    pub last: Option<Place>,
    pub end: AuditStatus,
}

/// Writes the report lines of a whole storage root, item by item: the lines of one go out as one
/// piece before the next is looked at.
///
/// `further` is what it checks beside what every audit checks.
///
/// Each content file that some digest is named for is opened once, and no other content is. One
/// that cannot be read is reported and stops nothing. After a stop the items before it have gone
/// out whole, and of the next at most a beginning, and nothing if it was not the output that
/// failed.
pub fn audit<T: Tree, W: Write>(
    alloc: Global,
    store: &mut T,
    further: Further,
    block: &mut Block,
    out: &mut W,
) -> AuditEnd
    ensures any_store { AuditsOnAnyStore W.contents out.old out.new result }
    ensures told { WhereTold further T.told T.state W.contents store.old store.new out.old out.new
        (λ call. AuditEnds call result.last result.found result.end) }
    ensures unfailing { WhereTold further T.told T.state W.contents store.old store.new out.old
        out.new (λ call. result.end ≡ AuditStatus.Ended → IsUnfailing call
        → Writes call (text (whole_audit call.further call.root []))
        × (result.found ≡ found_in (whole_audit call.further call.root []))) }
{
    let whole = Part::whole(alloc);
    audit_part(alloc, store, further, &whole, block, out)
}

/// Does for a part what [`audit`] does for the whole. Outside the part no directory is listed and
/// no inventory read but on the way down to where it begins; `last` is `None` if no item of the
/// part went out whole.
pub fn audit_part<T: Tree, W: Write>(
    alloc: Global,
    store: &mut T,
    further: Further,
    part: &Part,
    block: &mut Block,
    out: &mut W,
) -> AuditEnd
    ensures any_store { AuditsOnAnyStore W.contents out.old out.new result }
    ensures told { WhereTold further T.told T.state W.contents store.old store.new out.old out.new
        (λ call. AuditEndsWithin call (part_of part.now) result.last result.found result.end) }
    ensures unfailing { WhereTold further T.told T.state W.contents store.old store.new out.old
        out.new (λ call. result.end ≡ AuditStatus.Ended → IsUnfailing call
        → let items = within (part_of part.now) (whole_audit call.further call.root []) in
        Writes call (text items) × (result.found ≡ found_in items)) }
{
    let mut walk = match set_out(alloc, store, further, part, None) {
        Ok(walk) => walk,
        Err(why) => {
            return audit_end(None, false, AuditStatus::Stopped(ReportStop::Fault(why)));
        }
    };
    let mut last = None;
    let mut found = false;
    let end = loop {
        let (ahead, next) = match walk.next_within(store, &part.end) {
            Ok(step) => step,
            Err(why) => break AuditStatus::Stopped(ReportStop::Fault(why)),
        };
        walk = ahead;
        let Some(pending) = next else {
            break AuditStatus::Ended;
        };
        match take_item(alloc, store, pending, block, out) {
            Ok(taken) => {
                found = either(found, taken.found);
                last = Some(taken.place);
            }
            Err(why) => break AuditStatus::Stopped(why),
        }
    };
    audit_end(last, found, end)
}

fn audit_end(last: Option<Place>, found: bool, end: AuditStatus) -> AuditEnd
    ensures last { result.last ≡ last }
    ensures found { result.found ≡ found }
    ensures end { result.end ≡ end }
{
    AuditEnd { found, last, end }
}
