//! Splitting a storage root by what a report of it says that its items cost.
ghost use Rattle.std.specs.Prelude.{◌≡◌, ◌+◌, ◌≤◌, ◌<◌, List, [], ◌∷◌, ◌++◌, length, ◌⊎◌};
ghost use Rattle.std.specs.Prelude.{IfOk, IfErr, IfSome, OnOk};
ghost use Rattle.std.specs.declared.cmp.Ordering.TheVariants.{Less};
ghost use Rattle.ocfl_tree.specs.{Place.{Place as ModelPlace, place_cmp}, Name.{IsPlace}};
ghost use Rattle.ocfl_report.specs.{Line.{Line as ModelLine}, Text.{IsLineText}};
ghost use Rattle.ocfl_separators.specs.{Parts.{max_separators}, Separators.{AreSeparators}};
ghost use Rattle.ocfl_separators.specs.Splits.{HasText, IsSplit, cuts, cuts_from};
ghost use Rattle.ocfl_separators.specs.{SplitStop.{SplitStopsRightly}, Costs.{item_cost}};
ghost use Rattle.ocfl_separators.specs.Internal.Cutting.{AreBelow, IsCutSoFar, StopsAtEnd, TakesNot};
ghost use Rattle.ocfl_separators.specs.Internal.Cutting.{TakesNotPlace};
ghost use Rattle.ocfl_separators.specs.declared.costs.ItemCost.{ItemCost as ModelItemCost};

use crate::costs::{ItemCost, read_item_cost};
use crate::separators::{MAX_SEPARATORS, Separators};
use ocfl_report::{InputStop, TextStop, read_next_line};
use std::alloc::Global;
use std::cmp::Ordering;
use std::io::BufRead;
use thiserror::Error;

/// Why a report was not split.
#[derive(Clone, Copy, Debug, PartialEq, Eq, Error)]
pub enum SplitStop {
    /// The first line, from 1, that is no report line, or whose place is less than the one before.
    #[error("bad report: line {0}")]
    Line(u64),
    /// More than 100,000 separators would cut it.
    #[error("too many parts")]
    Many,
    /// The reader failed.
    #[error("report failed")]
    Read,
    /// Memory was refused.
    #[error("out of memory")]
    Memory,
}

/// How far a report is cut.
#[derive(Drop)]
struct Cutter {
    /// The separators so far.
    separators: Separators,
    /// What the part has cost since the last of them, without the item that was begun.
    spent: u64,
    /// The item of the last line.
    item: Option<ItemCost>,
}

/// The separators that cut a storage root into parts of about this cost, by a report of all of it.
/// All bytes of the reader are read as that report, and one line is in memory at a time.
///
/// An `ok` line of a content file of n bytes says that its item cost n + 1. Any other line says
/// that it cost nothing. An item begins the next part if it costs something and its part has spent
/// the budget. `ocfl_split::laws` says that these are the runs that the budget makes of the items.
pub fn split_by<R: BufRead>(
    alloc: Global,
    report: &mut R,
    budget: u64,
) -> Result<Separators, SplitStop>
    ensures separators { IfOk result
        (λ separators. IfSome (R.remaining report.old) (λ bytes. IsSplit budget bytes separators)) }
    ensures refused { IfErr result
        (λ stop. IfSome (R.remaining report.old) (λ bytes. SplitStopsRightly budget bytes stop)) }
{
    let mut cutter = Cutter {
        separators: Separators::new(alloc),
        spent: 0,
        item: None,
    };
    let mut text = Vec::new(alloc);
    for number in 1..u64::MAX {
        match read_next_line(report, &mut text) {
            Ok(true) => cutter = take_line(alloc, budget, number, &text, cutter)?,
            Ok(false) => return end(budget, cutter),
            Err(InputStop::Failed) => return Err(SplitStop::Read),
            Err(InputStop::Memory) => return Err(SplitStop::Memory),
        }
    }
    Err(SplitStop::Read)
}

/// Takes one more line.
fn take_line(
    alloc: Global,
    budget: u64,
    number: u64,
    text: &[u8],
    cutter: Cutter,
) -> Result<Cutter, SplitStop>
    requires below { AreBelow cutter.separators cutter.item }
    ensures ok { IfOk result (λ left. (done : List ModelLine)
        → IsCutSoFar budget done cutter.separators cutter.spent cutter.item
        → (line : ModelLine) × IsLineText text.now line
        × IsCutSoFar budget (done ++ line ∷ []) left.separators left.spent left.item) }
    ensures refused { IfErr result (λ stop. (done : List ModelLine)
        → IsCutSoFar budget done cutter.separators cutter.spent cutter.item
        → TakesNot budget done number text.now stop) }
{
    let said = match read_item_cost(alloc, text) {
        Ok(said) => said,
        Err(TextStop::Bad) => return Err(SplitStop::Line(number)),
        Err(TextStop::Memory) => return Err(SplitStop::Memory),
    };
    take_cost(budget, number, said, cutter)
}

/// Takes the place of one more line, and the cost that it says.
fn take_cost(budget: u64, number: u64, said: ItemCost, cutter: Cutter) -> Result<Cutter, SplitStop>
    requires below { AreBelow cutter.separators cutter.item }
    ensures ok { IfOk result (λ left. (done : List ModelLine) (line : ModelLine)
        → HasText line → said ≡ item_cost line
        → IsCutSoFar budget done cutter.separators cutter.spent cutter.item
        → IsCutSoFar budget (done ++ line ∷ []) left.separators left.spent left.item) }
    ensures refused { IfErr result (λ stop. (done : List ModelLine)
        → IsCutSoFar budget done cutter.separators cutter.spent cutter.item
        → TakesNotPlace budget done number said.place stop) }
{
    let Cutter {
        mut separators,
        spent,
        item,
    } = cutter;
    let Some(item) = item else {
        return Ok(Cutter {
            separators,
            spent,
            item: Some(said),
        });
    };
    match item.place.cmp(&said.place) {
        Ordering::Less => {
            let spent = close(budget, spent, item, &mut separators)?;
            Ok(Cutter {
                separators,
                spent,
                item: Some(said),
            })
        }
        Ordering::Equal => Ok(Cutter {
            separators,
            spent,
            item: Some(ItemCost {
                place: item.place,
                cost: item.cost.saturating_add(said.cost),
            }),
        }),
        Ordering::Greater => Err(SplitStop::Line(number)),
    }
}

/// Puts a whole item into its part, or begins the next part with it. Gives what that part has
/// spent.
fn close(
    budget: u64,
    spent: u64,
    item: ItemCost,
    separators: &mut Separators,
) -> Result<u64, SplitStop>
    requires above { AreSeparators (separators.now ++ item.place ∷ []) }
    ensures cuts { IfOk result (λ left. (items : List ModelItemCost)
        → separators.old ++ cuts_from budget spent (item ∷ items)
        ≡ separators.new ++ cuts_from budget left items) }
    ensures above { OnOk result ((p : ModelPlace) → IsPlace p → place_cmp item.place p ≡ Less
        → AreSeparators (separators.new ++ p ∷ [])) }
    ensures few { OnOk result (length separators.old ≤ max_separators
        → length separators.new ≤ max_separators) }
    ensures many { result ≡ Err SplitStop.Many
        → max_separators < length (separators.old ++ cuts_from budget spent (item ∷ [])) }
    ensures stop { IfErr result (λ stop. (stop ≡ SplitStop.Many) ⊎ (stop ≡ SplitStop.Memory)) }
{
    if item.cost == 0 || spent < budget {
        return Ok(spent.saturating_add(item.cost));
    }
    if separators.len() >= MAX_SEPARATORS {
        return Err(SplitStop::Many);
    }
    match separators.push(item.place) {
        Ok(()) => Ok(item.cost),
        Err(_) => Err(SplitStop::Memory),
    }
}

/// The separators, once all lines are taken.
fn end(budget: u64, cutter: Cutter) -> Result<Separators, SplitStop>
    requires below { AreBelow cutter.separators cutter.item }
    ensures ok { IfOk result (λ separators. (done : List ModelLine)
        → IsCutSoFar budget done cutter.separators cutter.spent cutter.item
        → (separators ≡ cuts budget done) × (length separators ≤ max_separators)) }
    ensures refused { IfErr result (λ stop. (done : List ModelLine)
        → IsCutSoFar budget done cutter.separators cutter.spent cutter.item
        → StopsAtEnd budget done stop) }
{
    let Cutter {
        mut separators,
        spent,
        item,
    } = cutter;
    if let Some(item) = item {
        close(budget, spent, item, &mut separators)?;
    }
    Ok(separators)
}
