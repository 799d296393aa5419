//! What the arguments that `clap` found ask for of nights.
ghost use Rattle.std.specs.Prelude.{String, IfOk, IfSome, IsNone};
ghost use Rattle.std.specs.declared.alloc.Global.{Global};
ghost use Rattle.clap.specs.Words.{found_of, rows_of};
ghost use Rattle.ocfl_arguments.specs.Asks.{HasBounds, HasText, IsChosen, IsJoin, IsNight, IsRead, MayHaveSize};

use crate::budget::read_amount;
use crate::choosing::chosen_by;
use crate::ending::until_of;
use crate::night::{JoinAsked, NightAsked, NightBounds};
use crate::task::Chosen;
use crate::values::{copied, count_if_any, each_of, further_of, is_given, text_of};
use clap::ArgMatches;
use ocfl_cursor::Budget;
use std::alloc::{AllocError, Global};

/// The most days from the end of a cycle until the next one may begin.
const MAX_DAYS: u64 = 3650;

/// The size of an option, `Some(None)` if it is left out, and `None` if its text is no size.
fn size_of(inner: &ArgMatches<'_>, id: &str) -> Option<Option<u64>>
    ensures { IsRead (MayHaveSize id.now (rows_of (found_of inner.now))) result }
{
    match text_of(inner, id) {
        Some(text) => Some(Some(read_amount(text)?)),
        None => Some(None),
    }
}

/// The same of a budget, which each size is.
fn budget_of(inner: &ArgMatches<'_>, id: &str) -> Option<Option<Budget>>
    ensures { IsRead (MayHaveSize id.now (rows_of (found_of inner.now))) result }
{
    Some(size_of(inner, id)?.and_then(Budget::new))
}

/// What a night may do. `None` if one of its bounds cannot be read.
fn bounds_of(inner: &ArgMatches<'_>) -> Option<NightBounds>
    ensures { IsRead (HasBounds (rows_of (found_of inner.now))) result }
{
    let budget = budget_of(inner, "budget")?;
    let files = size_of(inner, "files")?;
    let slice = budget_of(inner, "slice")?;
    let until = until_of(inner)?;
    let every = count_if_any(inner, "every", MAX_DAYS)?;
    Some(NightBounds {
        budget,
        files,
        slice,
        until,
        every,
    })
}

/// The texts of two arguments, or `None` if one of them is left out.
fn both_of(
    alloc: Global,
    inner: &ArgMatches<'_>,
    one: &str,
    other: &str,
) -> Result<Option<(String, String)>, AllocError>
    ensures found { IfOk result (λ o. IfSome o (λ both.
        HasText one.now (rows_of (found_of inner.now)) both.0
        × HasText other.now (rows_of (found_of inner.now)) both.1)) }
    ensures missing { IfOk result (λ o. IsNone o
        → (first second : String Global) → HasText one.now (rows_of (found_of inner.now)) first
        → HasText other.now (rows_of (found_of inner.now)) second → ⊥) }
{
    let Some(first) = copied(alloc, inner, one)? else {
        return Ok(None);
    };
    match copied(alloc, inner, other)? {
        Some(second) => Ok(Some((first, second))),
        None => Ok(None),
    }
}

/// A night, or `None` if its arguments ask for none.
pub(crate) fn night_by(
    alloc: Global,
    inner: &ArgMatches<'_>,
) -> Result<Option<NightAsked>, AllocError>
    ensures { IfOk result (IsRead (IsNight (rows_of (found_of inner.now)))) }
{
    let Some(bounds) = bounds_of(inner) else {
        return Ok(None);
    };
    match chosen_by(alloc, inner)? {
        Some(chosen) => night_of(alloc, inner, bounds, chosen),
        None => Ok(None),
    }
}

/// The night with these bounds that takes these items, or `None` if a folder is not given.
fn night_of(
    alloc: Global,
    inner: &ArgMatches<'_>,
    bounds: NightBounds,
    chosen: Chosen,
) -> Result<Option<NightAsked>, AllocError>
    requires bounds { HasBounds (rows_of (found_of inner.now)) bounds }
    requires chosen { IsChosen (rows_of (found_of inner.now)) chosen }
    ensures { IfOk result (IsRead (IsNight (rows_of (found_of inner.now)))) }
{
    let Some((state, root)) = both_of(alloc, inner, "state", "root")? else {
        return Ok(None);
    };
    let (known, expected) = each_of(alloc, inner, "known", "expected")?;
    Ok(Some(NightAsked {
        state,
        root,
        bounds,
        chosen,
        further: further_of(inner),
        known,
        expected,
        create: is_given(inner, "create"),
        force_root: is_given(inner, "force-root"),
        stop_at_faults: is_given(inner, "stop-at-faults"),
    }))
}

/// The joining of the closed reports of all parts, or `None` if its arguments ask for none.
pub(crate) fn join_by(
    alloc: Global,
    inner: &ArgMatches<'_>,
) -> Result<Option<JoinAsked>, AllocError>
    ensures { IfOk result (IsRead (IsJoin (rows_of (found_of inner.now)))) }
{
    match both_of(alloc, inner, "parts", "state")? {
        Some((parts, state)) => Ok(Some(JoinAsked { parts, state })),
        None => Ok(None),
    }
}
