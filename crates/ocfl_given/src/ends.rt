//! When the clock shows the time of day at which a night ends.
ghost use Rattle.std.specs.Prelude.{◌≡◌, ◌↔◌, IfErr, IfOk, IfSome, IsOk, false, is_some};
ghost use Rattle.jiff.specs.Words.{plain_database, plain_system, zone_count};
ghost use Rattle.jiff_tz.specs.declared.timezone.TimeZone.TheVariants as plain;
ghost use Rattle.ocfl_given.specs.Given.{is_time_of_day};
ghost use Rattle.ocfl_given.specs.Ends.{IsEndOf, IsInZone, IsShownIn, IsWithinDay};

use crate::refusing::{no_memory, refusal_of};
use jiff::Error;
use jiff::tz::{SystemTimeZone, TimeZone, TimeZoneDatabase};
use ocfl_arguments::Until;
use ocfl_clock::next_time;
use ocfl_files::failing::Failure;
use std::alloc::Global;
use std::env::{self, VarError};
use std::io::ErrorKind;
use std::rt::{Env, Files};

/// When the clock next shows the time of day that is asked for, in seconds since the epoch. `None`
/// if none is.
pub(crate) fn find_shown<R>(rt: &R, until: Until, now: u64) -> Result<Option<u64>, Failure>
where
    R: Files + Env + AllocGlobal,
    ensures shown { IfOk result (λ shown. is_some shown ≡ is_time_of_day until) }
    ensures soon { IfOk result (λ shown. IfSome shown (IsWithinDay now)) }
{
    match until {
        Until::TimeOfDay { hour, minute } => Ok(Some(time_of_day(rt, now, hour, minute)?)),
        Until::Never | Until::Hours(_) | Until::At(_) => Ok(None),
    }
}

/// When the clock of the system's zone next shows this time of day.
fn time_of_day<R>(rt: &R, now: u64, hour: u8, minute: u8) -> Result<u64, Failure>
where
    R: Files + Env + AllocGlobal,
    ensures { IfOk result (IsWithinDay now) }
{
    end_of(rt.alloc(), next_in_zone(rt, now, hour, minute))
}

/// The end of a night, or why none can be found, by when the clock next shows a time of day.
#[tactic(auto, using(crate::proofs::Refusals::refuses, crate::proofs::Refusals::is_usage))]
fn end_of(alloc: Global, shown: Result<Option<u64>, Error>) -> Result<u64, Failure>
    ensures { IsEndOf shown result }
{
    match shown {
        Ok(Some(end)) => Ok(end),
        Ok(None) => Err(refusal_of(format!(in alloc;
            "the clock is not set: no end of the night can be found\n"
        ))),
        Err(Error::OutOfMemory) => Err(no_memory()),
        Err(error) => Err(refusal_of(format!(in alloc;
            "the time zone cannot be read ({error}): set TZ, or give --hours\n"
        ))),
    }
}

/// The same in the zone that `TZ` names, and else in that of the system's file.
#[tactic(auto, using(crate::proofs::Shown::within, crate::proofs::Shown::within_zone))]
fn next_in_zone<R>(rt: &R, now: u64, hour: u8, minute: u8) -> Result<Option<u64>, Error>
where
    R: Files + Env + AllocGlobal,
    ensures { IfOk result (λ shown. IfSome shown (IsWithinDay now)) }
{
    let is_set = !matches!(env::var(rt, "TZ"), Err(VarError::NotPresent));
    match SystemTimeZone::read(rt) {
        Ok(system) => next_in(&system, database_for(rt, is_set), now, hour, minute),
        Err(error) => next_without(error, is_set, now, hour, minute),
    }
}

/// The same where the system's zone could not be read. Without a file, and if none is named, the
/// zone is UTC (localtime(5)).
fn next_without(
    error: Error,
    is_set: bool,
    now: u64,
    hour: u8,
    minute: u8,
) -> Result<Option<u64>, Error>
    ensures shown { IfOk result (IsShownIn plain.UTC hour minute now) }
    ensures none { IfErr result (λ e. e ≡ error) }
    ensures unset { IsOk result ↔ ((error ≡ Error.Io ErrorKind.NotFound) × (is_set ≡ false)) }
{
    match error {
        Error::Io(ErrorKind::NotFound) if !is_set => {
            Ok(next_time(&TimeZone::UTC, now, hour, minute))
        }
        error => Err(error),
    }
}

/// The same in the system's zone, unless the zones by their names could not be read.
fn next_in(
    system: &SystemTimeZone,
    zones: Result<TimeZoneDatabase, Error>,
    now: u64,
    hour: u8,
    minute: u8,
) -> Result<Option<u64>, Error>
    ensures { IfOk result (IsInZone (plain_system system.now) zones hour minute now) }
{
    let zones = zones?;
    let zone = system.time_zone(&zones)?;
    Ok(next_time(&zone, now, hour, minute))
}

/// The zones by their names, which only `TZ` needs: the system's file has its zone in it.
fn database_for<R>(rt: &R, is_set: bool) -> Result<TimeZoneDatabase, Error>
where
    R: Files + Env + AllocGlobal,
    ensures { is_set ≡ false → IfOk result (λ zones. zone_count (plain_database zones) ≡ 0) }
{
    if is_set {
        TimeZoneDatabase::from_env(&rt)
    } else {
        Ok(TimeZoneDatabase::new(rt.alloc()))
    }
}
