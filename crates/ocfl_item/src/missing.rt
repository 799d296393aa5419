//! The lines of a path that an inventory names and no file has.
ghost use Rattle.std.specs.Prelude.{◌≡◌, ◌∷◌, [], OnOk, not, option_map, map};
ghost use Rattle.std.specs.Option.{option_copied};
ghost use Rattle.ocfl_tree.specs.Ascending.{IsAscending};
ghost use Rattle.ocfl_inventory.specs.{Table.{named_cmp}, TripleView.{named_view}};
ghost use Rattle.ocfl_rules.specs.{Head.{on}, Lines.{missing_notes}};
ghost use Rattle.ocfl_item.specs.Internal.Lines.{Adds, is_repeated, is_same_block, missing_note};

use crate::lines::{PlaceLines, code_of};
use ocfl_inventory::Named;
use std::alloc::AllocError;

/// Whether two digests are named in one block and of one algorithm.
fn is_same(named: &Named, other: &Named) -> bool
    ensures { result ≡ is_same_block (named_view named.now) (named_view other.now) }
{
    named.fixity == other.fixity && named.algorithm == other.algorithm
}

fn add_missing_line(lines: &mut PlaceLines, named: &Named) -> Result<(), AllocError>
    ensures { OnOk result (Adds lines.old lines.new
        (missing_note (named_view named.now) ∷ [])) }
{
    let detail = format!(in lines.alloc(); "{} missing", named.algorithm.name())?;
    lines.add(code_of(named), detail)
}

fn is_repetition(before: Option<&Named>, named: &Named) -> bool
    ensures { result ≡ is_repeated (option_map named_view (option_copied before.entry))
        (named_view named.now) }
{
    match before {
        Some(other) => is_same(other, named),
        None => false,
    }
}

/// Appends the line for a missing file's block and algorithm, unless the one before has it.
fn add_next_missing(
    lines: &mut PlaceLines,
    before: Option<&Named>,
    named: &Named,
) -> Result<(), AllocError>
    ensures { OnOk result (Adds lines.old lines.new
        (on (not (is_repeated (option_map named_view (option_copied before.entry))
        (named_view named.now))) (missing_note (named_view named.now)))) }
{
    if is_repetition(before, named) {
        return Ok(());
    }
    add_missing_line(lines, named)
}

/// Appends the lines for a missing file, one for each block and algorithm that names it.
pub(crate) fn add_missing(lines: &mut PlaceLines, named: &[Named]) -> Result<(), AllocError>
    ensures place { OnOk result (lines.new.place ≡ lines.old.place) }
    ensures lines { IsAscending named_cmp (map named_view named.now)
        → OnOk result (Adds lines.old lines.new
        (missing_notes (map named_view named.now))) }
{
    let mut before = None;
    for entry in named {
        add_next_missing(lines, before, entry)?;
        before = Some(entry);
    }
    Ok(())
}
