//! Whether a night may begin the next cycle.
ghost use Rattle.std.specs.Prelude.{◌≡◌, ◌∷◌, ◌/◌, ◌*ℤ◌, ◌<◌, [], IfOk, IfSome, IsErr, IsNone, None, Some, pos, string_bytes};
ghost use Rattle.std.specs.Time.{system_time_nanos};
ghost use Rattle.jiff.specs.Words.{civil_nanos};
ghost use Rattle.ocfl_given.specs.Given.{wait_after};
ghost use Rattle.ocfl_given.specs.Waiting.{IsTimeText, IsWaitText};

use crate::given::Given;
use jiff::Timestamp;
use jiff::civil::DateTime;
use jiff::tz::TimeZone;
use ocfl_clock::must_wait;
use ocfl_disk::StateFile;
use ocfl_files::failing::say_text;
use ocfl_kept::stand::Standing;
use std::alloc::{AllocError, Global};
use std::rt::Files;
use std::time::SystemTime;
use std::{fs, io};

/// A day, in seconds.
const DAY: u64 = 86_400;

/// The last second that the calendar has: in the year 9999.
const LAST: u64 = 253_402_207_200;

/// A cycle that has ended, after which no new one may begin yet.
#[derive(Clone, Copy)]
pub struct Wait {
    cycle: u64,
    /// When it ended, in seconds since the epoch.
    ended: u64,
    /// How many days after that a new cycle may begin.
    days: u64,
}

/// When a file of a state folder was written last, in seconds since the epoch. `None` if that is
/// not known.
fn written_at<R>(rt: &R, state: &str, file: StateFile) -> Option<u64>
where
    R: Files + AllocGlobal,
{
    let Ok(path) = format!(in rt.alloc(); "{state}/{file}") else {
        return None;
    };
    match fs::symlink_metadata(rt, path.as_str()) {
        Ok(found) => seconds_of(found.modified()),
        Err(_) => None,
    }
}

/// A time in seconds since the epoch, if it is known and not before that.
fn seconds_of(time: io::Result<SystemTime>) -> Option<u64>
    ensures seconds { IfSome result (λ seconds.
        IfOk time (λ t. seconds ≡ system_time_nanos t / 1_000_000_000)) }
    ensures unknown { IsErr time → result ≡ None }
{
    let time = time.ok()?;
    match time.duration_since(SystemTime::UNIX_EPOCH) {
        Ok(since) => Some(since.as_secs()),
        Err(_) => None,
    }
}

/// The files of which the first that is there was written when a closed cycle ended: the checkpoint
/// that closed it, or else its report.
fn ended_files(cycle: u64) -> [StateFile; 3]
    ensures { result
        ≡ StateFile.Kept cycle ∷ StateFile.Whole cycle ∷ StateFile.Incomplete cycle ∷ [] }
{
    [
        StateFile::Kept(cycle),
        StateFile::Whole(cycle),
        StateFile::Incomplete(cycle),
    ]
}

/// When a closed cycle ended. `None` if none of its files is there.
fn ended_at<R>(rt: &R, state: &str, cycle: u64) -> Option<u64>
where
    R: Files + AllocGlobal,
{
    for file in ended_files(cycle) {
        if let Some(ended) = written_at(rt, state, file) {
            return Some(ended);
        }
    }
    None
}

/// The cycle after which a night that begins where the nights stood may begin no new one yet.
/// `None` if it may, or goes on with a cycle.
pub fn find_wait<R>(rt: &R, given: &Given<'_>, began: Standing) -> Option<Wait>
where
    R: Files + AllocGlobal,
    // The wait follows from the end that it tells.
    ensures waits { IfSome result (λ wait. wait_after given.now.asked.now.bounds.every began
        (Some wait.ended) given.now.began ≡ Some wait) }
    ensures unasked { given.now.asked.now.bounds.every ≡ None → result ≡ None }
{
    let every = given.asked.bounds.every;
    if every.is_none() {
        return None;
    }
    let ended = ended_at(rt, given.asked.state.as_str(), began.cycle);
    wait_after(every, began, ended, given.began)
}

/// The same by when the cycle ended where the nights stood, if that is known.
fn wait_after(every: Option<u64>, began: Standing, ended: Option<u64>, now: u64) -> Option<Wait>
    ensures value { result ≡ wait_after every began ended now }
    ensures end { IfSome result (λ wait. ended ≡ Some wait.ended) }
{
    let (days, ended) = (every?, ended?);
    if !must_wait(Some(days), !began.is_closed, Some(ended), now) {
        return None;
    }
    Some(Wait {
        cycle: began.cycle,
        ended,
        days,
    })
}

/// A time as RFC 3339 has it; in seconds since the epoch if no calendar has it.
fn time_text(alloc: Global, seconds: u64) -> Result<String, AllocError>
    ensures { IfOk result (λ text. IsTimeText seconds (string_bytes text)) }
{
    match calendar_time(seconds) {
        Some(time) => format!(in alloc; "{time}Z"),
        None => format!(in alloc; "{seconds}"),
    }
}

/// What a clock in UTC shows at a time that the calendar has.
fn calendar_time(seconds: u64) -> Option<DateTime>
    ensures some { IfSome result
        (λ time. civil_nanos time ≡ pos seconds *ℤ pos 1_000_000_000) }
    ensures none { IsNone result → 253402207200 < seconds }
{
    if seconds > LAST {
        return None;
    }
    match Timestamp::from_second(seconds as i64) {
        Ok(time) => Some(TimeZone::UTC.to_datetime(time)),
        Err(_) => None,
    }
}

/// What is said of a night that begins no new cycle.
fn wait_text(alloc: Global, wait: Wait) -> Result<String, AllocError>
    ensures { IfOk result (λ text. IsWaitText wait (string_bytes text)) }
{
    let Wait { cycle, ended, days } = wait;
    let next = ended.saturating_add(DAY.saturating_mul(days));
    let (ended, next) = (time_text(alloc, ended)?, time_text(alloc, next)?);
    format!(in alloc;
        "No new cycle is begun before {next}: cycle {cycle} ended at {ended}, and --every is \
         {days}.\n"
    )
}

/// Says that a night begins no new cycle, and when one may begin.
pub fn say_wait<R>(rt: &R, wait: Wait) -> Result<(), AllocError>
where
    R: AllocGlobal + Eprint,
{
    say_text(rt, wait_text(rt.alloc(), wait)?.as_str());
    Ok(())
}
