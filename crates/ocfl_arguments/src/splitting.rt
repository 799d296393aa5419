//! How a storage root is to be split by the arguments that `clap` found.
ghost use Rattle.std.specs.Prelude.{IfOk, codes};
ghost use Rattle.clap.specs.Words.{found_of, rows_of};
ghost use Rattle.ocfl_arguments.specs.Asks.{HasText, IsLeftOut, IsRead, IsSplit};

use crate::budget::read_amount;
use crate::task::Split;
use crate::values::{copied, count_of, is_left_out, text_of};
use clap::ArgMatches;
use std::alloc::{AllocError, Global};

// The most parts that listing splits a storage root into.
const MAX_COUNT: u64 = 100000;

/// How the storage root is split, or `None` if the arguments are not just those of one way.
pub(crate) fn split_by(alloc: Global, inner: &ArgMatches<'_>) -> Result<Option<Split>, AllocError>
    ensures { IfOk result (IsRead (IsSplit (rows_of (found_of inner.now)))) }
{
    if let Some(root) = copied(alloc, inner, "root")? {
        return Ok(listing_of(inner, root));
    }
    match copied(alloc, inner, "report")? {
        Some(report) => Ok(report_of(inner, report)),
        None => Ok(None),
    }
}

/// The split by listing this folder, or `None` if there is no count, or anything of a report.
fn listing_of(inner: &ArgMatches<'_>, root: String) -> Option<Split>
    requires { HasText (codes "root") (rows_of (found_of inner.now)) root }
    ensures { IsRead (IsSplit (rows_of (found_of inner.now))) result }
{
    if !is_left_out(inner, "budget") || !is_left_out(inner, "report") {
        return None;
    }
    let count = count_of(inner, "count", MAX_COUNT)?;
    Some(Split::Listing { count, root })
}

/// The split by this report, or `None` if there is no budget, or a count.
fn report_of(inner: &ArgMatches<'_>, report: String) -> Option<Split>
    requires report { HasText (codes "report") (rows_of (found_of inner.now)) report }
    requires no_root { IsLeftOut (codes "root") (rows_of (found_of inner.now)) }
    ensures { IsRead (IsSplit (rows_of (found_of inner.now))) result }
{
    if !is_left_out(inner, "count") {
        return None;
    }
    let budget = read_amount(text_of(inner, "budget")?)?;
    Some(Split::Report { budget, report })
}
