//! Which items of a storage root are chosen by the arguments that `clap` found.
ghost use Rattle.std.specs.Prelude.{IfOk, codes};
ghost use Rattle.clap.specs.Words.{found_of, rows_of};
ghost use Rattle.ocfl_arguments.specs.Asks.{HasText, IsChosen, IsRead};

use crate::task::Chosen;
use crate::values::{copied, count_of, is_left_out};
use clap::ArgMatches;
use std::alloc::{AllocError, Global};

// The most parts: one more than the separators that their file may have.
const MAX_PARTS: u64 = 100001;

/// Which items are chosen, or `None` if the arguments do not go together: a part needs both the
/// file of the separators and its number, and is not chosen beside a branch.
pub(crate) fn chosen_by(alloc: Global, inner: &ArgMatches<'_>) -> Result<Option<Chosen>, AllocError>
    ensures { IfOk result (IsRead (IsChosen (rows_of (found_of inner.now)))) }
{
    if let Some(parts) = copied(alloc, inner, "parts")? {
        return Ok(part_of(inner, parts));
    }
    if !is_left_out(inner, "part") {
        return Ok(None);
    }
    match copied(alloc, inner, "under")? {
        Some(place) => Ok(Some(Chosen::Branch(place))),
        None => Ok(Some(Chosen::All)),
    }
}

/// The part of this file that is chosen, or `None` if there is no number, or a branch too.
fn part_of(inner: &ArgMatches<'_>, parts: String) -> Option<Chosen>
    requires { HasText (codes "parts") (rows_of (found_of inner.now)) parts }
    ensures { IsRead (IsChosen (rows_of (found_of inner.now))) result }
{
    if !is_left_out(inner, "under") {
        return None;
    }
    let number = count_of(inner, "part", MAX_PARTS)?;
    Some(Chosen::Part { parts, number })
}
