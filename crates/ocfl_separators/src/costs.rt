//! What a line of a report says of its place: how much it cost.
ghost use Rattle.std.specs.Prelude.{◌≡◌, ◌^◌, ◌<◌, true, false, IfOk, IfSome, IsNone};
ghost use Rattle.std.specs.Str.Parse.{digits_value};
ghost use Rattle.ocfl_report.specs.{Line.{Line as ModelLine}, Text.{IsLineText}};
ghost use Rattle.ocfl_separators.specs.Costs.{is_size, line_cost, item_cost};

use ocfl_report::{Code, TextStop, read_decimal, read_line};
use ocfl_tree::Place;
use std::alloc::Global;

/// Content files have fewer bytes.
const SIZE_LIMIT: u128 = 1 << 62;

/// A place, and how much a report says that it cost.
#[derive(Drop)]
pub(crate) struct ItemCost {
    pub(crate) place: Place,
    pub(crate) cost: u64,
}

/// The place of the line whose text the bytes are, and the cost that it says.
pub(crate) fn read_item_cost(alloc: Global, bytes: &[u8]) -> Result<ItemCost, TextStop>
    ensures ok { IfOk result
        (λ said. (line : ModelLine) × IsLineText bytes.now line × (said ≡ item_cost line)) }
    ensures bad { result ≡ Err TextStop.Bad
        → (line : ModelLine) → IsLineText bytes.now line → ⊥ }
{
    let line = read_line(alloc, bytes)?;
    let cost = cost_of(line.code, &line.detail);
    Ok(ItemCost {
        place: line.place,
        cost,
    })
}

fn cost_of(code: Code, detail: &str) -> u64
    ensures { result ≡ line_cost code detail.now }
{
    if !matches!(code, Code::Clean) {
        return 0;
    }
    match size_of(detail) {
        Some(size) => size + 1,
        None => 0,
    }
}

/// The number of bytes that a detail says.
fn size_of(detail: &str) -> Option<u64>
    ensures some { IfSome result (λ n. is_size detail.now ≡ true) }
    ensures value { IfSome result (λ n. n ≡ digits_value 10 detail.now) }
    ensures fits { IfSome result (λ n. n < 2 ^ 62) }
    ensures none { IsNone result → is_size detail.now ≡ false }
{
    let size = read_decimal(detail.as_bytes())?;
    if size < SIZE_LIMIT {
        Some(size as u64)
    } else {
        None
    }
}
