//! A cycle of runs from the first item of a storage root, or of a part of it, each with limits of
//! its own.
ghost use Rattle.std.specs.Prelude.{◌≡◌, ◌≤◌, IfErr, IfOk};
ghost use Rattle.ocfl_rules.specs.Parts.{whole};
ghost use Rattle.ocfl_cursor.specs.Cursor.{new_cursor};
ghost use Rattle.ocfl_scrub.specs.{Cycling.{CyclesOver}, Starting.{part_of}};

use crate::part::Part;
use crate::running::{RunEnd, RunStatus, run_part};
use crate::stop::ReportStop;
use crate::taking::either;
use ocfl_cursor::{Cursor, Limits, Refused, decode, encode};
use ocfl_digest::Block;
use ocfl_report::Further;
use ocfl_tree::Tree;
use ocfl_walk::Fault;
use std::alloc::Global;
use std::io::Write;

/// How a cycle ended.
#[derive(Drop)]
pub enum CycleStatus {
    /// No item is left.
    Ended,
    /// Items are left, and no limits for a further run.
    Spent,
    /// A call failed.
    Stopped(ReportStop),
}

/// What a cycle did.
#[derive(Drop)]
pub struct CycleEnd {
    /// The cursor of the last run.
    pub cursor: Cursor,
    /// How many runs there were.
    pub runs: usize,
    /// What the items that went out whole cost.
    pub spent: u128,
    /// How many of them are files that were read.
    pub files: u128,
    /// Whether a line of one of them is a finding.
    pub found: bool,
    pub end: CycleStatus,
}

/// Makes runs from the first item on, one for each of these limits, until no item is left. Between
/// two runs the cursor is written as its text and read again. Each run checks `further` beside what
/// every audit checks.
///
/// Each run takes the items after those of the run before, and what they write, joined, begins the
/// report of the whole audit; it is all of that where the cycle has ended. Without limits there is
/// no run. A run that stopped is counted, even if it took nothing. Running out of memory for a
/// cursor's text is a stop for `Fault::Memory`, with the cursor of the last run.
///
/// What it keeps while the root stays unchanged and every call succeeds is a law over `told`, the
/// module `headline` of `ocfl_laws`.
pub fn cycle<T: Tree, W: Write>(
    alloc: Global,
    store: &mut T,
    further: Further,
    limits: &[Limits],
    block: &mut Block,
    out: &mut W,
) -> CycleEnd
    ensures { CyclesOver further T.told T.state W.contents store.old store.new out.old out.new
        whole limits.now result }
{
    let whole = Part::whole(alloc);
    cycle_part(alloc, store, further, &whole, limits, block, out)
}

/// Does for a part what [`cycle`] does for the whole. The runs begin with the part's first item,
/// and the cycle ends once a run was made and no item of the part is left. Faults are as there.
pub fn cycle_part<T: Tree, W: Write>(
    alloc: Global,
    store: &mut T,
    further: Further,
    part: &Part,
    limits: &[Limits],
    block: &mut Block,
    out: &mut W,
) -> CycleEnd
    ensures { CyclesOver further T.told T.state W.contents store.old store.new out.old out.new
        (part_of part.now) limits.now result }
{
    let mut cursor = Cursor::new(further);
    let mut runs = 0;
    let mut found = false;
    for one in limits {
        let Ok(begun) = handed_on(alloc, further, &cursor, runs) else {
            return cycle_end(
                cursor,
                runs,
                found,
                CycleStatus::Stopped(ReportStop::Fault(Fault::Memory)),
            );
        };
        let RunEnd {
            cursor: reached,
            found: more,
            end,
            ..
        } = run_part(alloc, store, part, begun, *one, block, out);
        cursor = reached;
        runs += 1;
        found = either(found, more);
        match end {
            RunStatus::Spent => {}
            RunStatus::Ended => return cycle_end(cursor, runs, found, CycleStatus::Ended),
            RunStatus::Stopped(why) => {
                return cycle_end(cursor, runs, found, CycleStatus::Stopped(why));
            }
            RunStatus::Worn => unreachable!(),
        }
    }
    cycle_end(cursor, runs, found, CycleStatus::Spent)
}

/// What the next run begins with: a new cursor for the first, and for a further one the last run's
/// cursor, as it is read from its text.
fn handed_on(
    alloc: Global,
    further: Further,
    cursor: &Cursor,
    runs: usize,
) -> Result<Cursor, Refused>
    requires first { runs ≡ 0 → cursor.now ≡ new_cursor further }
    ensures same { IfOk result (λ begun. begun ≡ cursor.now) }
    ensures made { IfErr result (λ why. 1 ≤ runs) }
{
    if runs == 0 {
        return Ok(Cursor::new(further));
    }
    let text = encode(alloc, cursor)?;
    decode(alloc, &text)
}

fn cycle_end(cursor: Cursor, runs: usize, found: bool, end: CycleStatus) -> CycleEnd
    ensures cursor { result.cursor ≡ cursor }
    ensures runs { result.runs ≡ runs }
    ensures spent { result.spent ≡ cursor.spent }
    ensures files { result.files ≡ cursor.files }
    ensures found { result.found ≡ found }
    ensures end { result.end ≡ end }
{
    CycleEnd {
        runs,
        spent: cursor.spent(),
        files: cursor.files(),
        cursor,
        found,
        end,
    }
}
