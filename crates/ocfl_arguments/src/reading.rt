//! What the arguments that `clap` found ask for.
ghost use Rattle.std.specs.Prelude.{IfOk, codes};
ghost use Rattle.clap.specs.Words.{Text, found_of, rows_of, subcommand_rows_of};
ghost use Rattle.ocfl_arguments.specs.Asks.{Asks, HasLimits, HasRuns, IsAsked, IsChosen, IsDeed, IsRead, IsTask};

use crate::budget::{read_amount, read_budget};
use crate::choosing::chosen_by;
use crate::nights::{join_by, night_by};
use crate::splitting::split_by;
use crate::task::{Asked, Chosen, Task};
use crate::values::{copied, count_of, each_of, further_of, is_given, text_of};
use clap::ArgMatches;
use ocfl_cursor::{FileLimit, Limits};
use ocfl_deed::Deed;
use std::alloc::{AllocError, Global};

// The most runs of a cycle.
const MAX_RUNS: u64 = 100000;

/// The limits of a run, or `None` if the text of one of them is no size.
fn limits_of(inner: &ArgMatches<'_>) -> Option<Limits>
    ensures { IsRead (HasLimits (rows_of (found_of inner.now))) result }
{
    let budget = read_budget(text_of(inner, "budget")?)?;
    let files = FileLimit::new(read_amount(text_of(inner, "files")?)?)?;
    Some(Limits { budget, files })
}

/// The most runs of a cycle.
fn runs_of(inner: &ArgMatches<'_>) -> Option<usize>
    ensures { IsRead (HasRuns (rows_of (found_of inner.now))) result }
{
    count_of(inner, "runs", MAX_RUNS)
}

/// One run, or `None` if its limits are not given.
fn run_of(inner: &ArgMatches<'_>) -> Option<Deed>
    ensures { IsRead (IsDeed (codes "run") (rows_of (found_of inner.now))) result }
{
    Some(Deed::Run(further_of(inner), limits_of(inner)?))
}

/// A cycle, or `None` if its limits or its runs are not given.
fn cycle_of(inner: &ArgMatches<'_>) -> Option<Deed>
    ensures { IsRead (IsDeed (codes "cycle") (rows_of (found_of inner.now))) result }
{
    let limits = limits_of(inner)?;
    Some(Deed::Cycle(further_of(inner), limits, runs_of(inner)?))
}

/// The check of a place, or `None` if its path is not given.
fn check_of(alloc: Global, inner: &ArgMatches<'_>) -> Result<Option<Deed>, AllocError>
    ensures { IfOk result (IsRead (IsDeed (codes "check") (rows_of (found_of inner.now)))) }
{
    match copied(alloc, inner, "path")? {
        Some(path) => Ok(Some(Deed::Check(further_of(inner), path))),
        None => Ok(None),
    }
}

/// The deed of the subcommand with this name and these matches, or `None` if they ask for none.
fn deed_of(alloc: Global, name: &str, inner: &ArgMatches<'_>) -> Result<Option<Deed>, AllocError>
    ensures { IfOk result (IsRead (IsDeed name.now (rows_of (found_of inner.now)))) }
{
    match name {
        "audit" => Ok(Some(Deed::Audit(further_of(inner)))),
        "run" => Ok(run_of(inner)),
        "cycle" => Ok(cycle_of(inner)),
        "check" => check_of(alloc, inner),
        "show" => Ok(Some(Deed::Show)),
        _ => Ok(None),
    }
}

/// The deed of the subcommand with this name and these matches, with what it is done with, or
/// `None` if they ask for none.
fn task_of(alloc: Global, name: &str, inner: &ArgMatches<'_>) -> Result<Option<Task>, AllocError>
    ensures { IfOk result (IsRead (IsTask name.now (rows_of (found_of inner.now)))) }
{
    let Some(deed) = deed_of(alloc, name, inner)? else {
        return Ok(None);
    };
    match chosen_by(alloc, inner)? {
        Some(chosen) => Ok(Some(task_with(alloc, inner, deed, chosen)?)),
        None => Ok(None),
    }
}

/// This deed with what it is done with.
fn task_with(
    alloc: Global,
    inner: &ArgMatches<'_>,
    deed: Deed,
    chosen: Chosen,
) -> Result<Task, AllocError>
    ensures { IfOk result (λ task. (name : Text) → IsDeed name (rows_of (found_of inner.now)) deed
        → IsChosen (rows_of (found_of inner.now)) chosen
        → IsTask name (rows_of (found_of inner.now)) task) }
{
    let (root, file) = each_of(alloc, inner, "root", "file")?;
    let quiet = is_given(inner, "quiet");
    Ok(Task {
        deed,
        chosen,
        root,
        file,
        quiet,
    })
}

/// The table of codes, in the form that is asked for.
fn codes_by(inner: &ArgMatches<'_>) -> Asked
    ensures { IsAsked (codes "codes") (rows_of (found_of inner.now)) result }
{
    Asked::Codes {
        json: is_given(inner, "json"),
    }
}

/// What the subcommand with this name and these matches asks for, or `None` if it is nothing.
fn asked_of(alloc: Global, name: &str, inner: &ArgMatches<'_>) -> Result<Option<Asked>, AllocError>
    ensures { IfOk result (IsRead (IsAsked name.now (rows_of (found_of inner.now)))) }
{
    match name {
        "split" => Ok(split_by(alloc, inner)?.map(Asked::Split)),
        "night" => Ok(night_by(alloc, inner)?.map(Asked::Night)),
        "join" => Ok(join_by(alloc, inner)?.map(Asked::Join)),
        "codes" => Ok(Some(codes_by(inner))),
        _ => Ok(task_of(alloc, name, inner)?.map(Asked::Task)),
    }
}

/// What is asked for by matches, or `None` if they ask for nothing.
pub(crate) fn asked_by(alloc: Global, matches: &ArgMatches<'_>) -> Result<Option<Asked>, AllocError>
    ensures { IfOk result (IsRead (Asks (subcommand_rows_of matches.now))) }
{
    match matches.subcommand() {
        Some((name, inner)) => asked_of(alloc, name, inner),
        None => Ok(None),
    }
}
