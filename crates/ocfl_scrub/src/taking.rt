//! One item: it is judged, and its lines go out as one piece.
ghost use Rattle.std.specs.Prelude.{◌≡◌, ◌≢◌, ◌⊎◌, ◌||◌, IfErr, IfOk, MatchResult};
ghost use Rattle.ocfl_report.specs.declared.further.Further.{Further};
ghost use Rattle.ocfl_item.specs.{Judging.{CostFits}, Pending.{IsPending}};
ghost use Rattle.ocfl_scrub.specs.{Call.{WhereTold}, Taking.{Misses, Takes, WritesLines}};

use crate::stop::ReportStop;
use ocfl_digest::Block;
use ocfl_item::Piece;
use ocfl_report::write_all_of;
use ocfl_tree::{Place, Tree};
use ocfl_walk::{Fault, Pending, judge};
use std::alloc::Global;
use std::io::Write;

/// An item whose lines went out whole.
#[derive(Drop)]
pub(crate) struct Taken {
    pub(crate) place: Place,
    /// What it cost.
    pub(crate) cost: u64,
    /// Whether a line of it is a finding.
    pub(crate) found: bool,
}

/// Judges an item and writes its lines as one piece.
///
/// It stops for want of memory, and then nothing was written, or if the output failed.
#[tactic(auto, using(crate::proofs::TakeLaws::lines_written, crate::proofs::TakeLaws::judged_takes))]
pub(crate) fn take_item<T: Tree, W: Write>(
    alloc: Global,
    store: &mut T,
    pending: Pending,
    block: &mut Block,
    out: &mut W,
) -> Result<Taken, ReportStop>
    // Of every store.
    ensures place { IfOk result (λ taken. taken.place ≡ pending.place) }
    ensures cost { IfOk result (λ taken. CostFits pending.hashed taken.cost) }
    ensures lines { IfOk result (λ taken. WritesLines (W.contents out.old)
        (W.contents out.new) taken.found) }
    ensures only { IfErr result (λ why. (why ≡ ReportStop.Fault Fault.Memory)
        ⊎ (why ≡ ReportStop.Output)) }
    ensures unwritten { IfErr result (λ why. why ≢ ReportStop.Output → out.new ≡ out.old) }

    // Of a store that tells its tree.
    ensures told { (further : Further) → WhereTold further T.told T.state W.contents
        store.old store.new out.old out.new (λ call.
        IsPending call.further call.root pending → MatchResult result
        (λ taken. Takes call pending.place taken.cost taken.found)
        (λ why. Misses call pending.place why)) }
{
    let Ok((lines, cost)) = judge(store, pending, block) else {
        return Err(ReportStop::Fault(Fault::Memory));
    };
    let Ok(Piece { place, text, found }) = lines.into_piece(alloc) else {
        return Err(ReportStop::Fault(Fault::Memory));
    };
    match write_all_of(out, &text) {
        Ok(()) => Ok(Taken { place, cost, found }),
        Err(_) => Err(ReportStop::Output),
    }
}

/// Whether one of the two is so.
pub(crate) fn either(a: bool, b: bool) -> bool
    ensures { result ≡ (a || b) }
{
    if a { true } else { b }
}
