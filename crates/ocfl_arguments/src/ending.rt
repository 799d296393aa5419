//! When a night begins no further run, by the arguments that `clap` found.
ghost use Rattle.std.specs.Prelude.{codes};
ghost use Rattle.clap.specs.Words.{found_of, rows_of};
ghost use Rattle.ocfl_arguments.specs.Asks.{IsLeftOut, IsRead, IsUntil};

use crate::night::Until;
use crate::time_of_day::read_time;
use crate::values::{count_of, is_left_out, number_of, text_of};
use clap::ArgMatches;

// The most hours of a night.
const MAX_HOURS: u64 = 24;

/// When a night begins no further run, or `None` where more than one end is given, or one that is
/// no time.
pub(crate) fn until_of(inner: &ArgMatches<'_>) -> Option<Until>
    ensures { IsRead (IsUntil (rows_of (found_of inner.now))) result }
{
    if !is_left_out(inner, "hours") {
        return hours_alone(inner);
    }
    if !is_left_out(inner, "until") {
        return time_alone(inner);
    }
    if !is_left_out(inner, "end") {
        return end_alone(inner);
    }
    Some(Until::Never)
}

/// The end after some hours, or `None` if another one is given too.
fn hours_alone(inner: &ArgMatches<'_>) -> Option<Until>
    requires { IsLeftOut (codes "hours") (rows_of (found_of inner.now)) → ⊥ }
    ensures { IsRead (IsUntil (rows_of (found_of inner.now))) result }
{
    if !is_left_out(inner, "until") || !is_left_out(inner, "end") {
        return None;
    }
    Some(Until::Hours(count_of(inner, "hours", MAX_HOURS)? as u64))
}

/// The end at a time of day. `None` if the text is no time of day, or another end is given too.
#[tactic(auto, using(crate::proofs::Ends::no_number))]
fn time_alone(inner: &ArgMatches<'_>) -> Option<Until>
    requires hours { IsLeftOut (codes "hours") (rows_of (found_of inner.now)) }
    requires until { IsLeftOut (codes "until") (rows_of (found_of inner.now)) → ⊥ }
    ensures { IsRead (IsUntil (rows_of (found_of inner.now))) result }
{
    if !is_left_out(inner, "end") {
        return None;
    }
    let (hour, minute) = read_time(text_of(inner, "until")?)?;
    Some(Until::TimeOfDay { hour, minute })
}

/// The end at a second.
#[tactic(auto, using(crate::proofs::Ends::no_number))]
fn end_alone(inner: &ArgMatches<'_>) -> Option<Until>
    requires hours { IsLeftOut (codes "hours") (rows_of (found_of inner.now)) }
    requires until { IsLeftOut (codes "until") (rows_of (found_of inner.now)) }
    requires end { IsLeftOut (codes "end") (rows_of (found_of inner.now)) → ⊥ }
    ensures { IsRead (IsUntil (rows_of (found_of inner.now))) result }
{
    Some(Until::At(number_of(inner, "end")?))
}
