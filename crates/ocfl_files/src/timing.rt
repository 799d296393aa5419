//! The time by the system's clock.
ghost use Rattle.std.specs.Prelude.{◌≡◌, ◌-◌, ◌/◌, ◌^◌, IfSome, MatchOption};
ghost use Rattle.std.specs.Time.{system_time_nanos};

use std::time::{Clock, SystemTime};

/// How many whole seconds a time is behind the epoch. `None` if it is before that.
fn seconds_of(now: SystemTime) -> Option<u64>
    ensures { IfSome result (λ seconds. seconds
        ≡ (system_time_nanos now - system_time_nanos SystemTime.UNIX_EPOCH) / 1_000_000_000) }
{
    let since = now.duration_since(SystemTime::UNIX_EPOCH).ok()?;
    Some(since.as_secs())
}

/// The time by the system's clock, in seconds since the epoch. `None` if it cannot be read.
pub fn read_seconds<R: Clock>(rt: &R) -> Option<u64> {
    seconds_of(SystemTime::now(rt).ok()?)
}

/// A time that was read. One that could not be is past every end.
fn or_past(read: Option<u64>) -> u64
    ensures { MatchOption read (result ≡ 2 ^ 64 - 1) (λ seconds. result ≡ seconds) }
{
    read.unwrap_or(u64::MAX)
}

/// The same. A clock that cannot be read is past every end.
pub fn seconds_now<R: Clock>(rt: &R) -> u64 {
    or_past(read_seconds(rt))
}
