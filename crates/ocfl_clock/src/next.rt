//! The next time of day, second by second.
ghost use Rattle.std.specs.Prelude.{◌≡◌, ◌↔◌, ℕ, ◌+◌, ◌<◌, ◌≤◌, IfSome, IsNone, IsTrue};
ghost use Rattle.jiff.specs.Words.{plain_zone};
ghost use Rattle.ocfl_clock.specs.Clock.{Comes, IsNextTime, clock_at as clock_of, second_of_day, shifted};

use jiff::Timestamp;
use jiff::tz::TimeZone;

/// A day, in seconds.
pub(crate) const DAY: u64 = 86_400;

/// The last second that `jiff` knows: in the year 9999.
const LAST: u64 = 253_402_207_200;

/// What the clock of a zone shows at a second, counted from two days before its 1970-01-01.
fn clock_at(zone: &TimeZone<'_>, second: u64) -> Option<u64>
    ensures value { IfSome result (λ clock. clock ≡ clock_of (plain_zone zone.now) second) }
    ensures none { IsNone result → 253402207200 < second }
{
    if second > LAST {
        return None;
    }
    let Ok(instant) = Timestamp::from_second(second as i64) else {
        return None;
    };
    Some(shift(second, zone.to_offset(instant).seconds()))
}

/// What a clock at an offset from UTC shows at a second, counted so.
#[tactic(auto, using(crate::proofs::Days::shifted_back, crate::proofs::Days::shifted_on))]
fn shift(second: u64, offset: i32) -> u64
    requires { second ≤ 253402207200 }
    ensures { result ≡ shifted offset second }
{
    let size = u64::from(offset.unsigned_abs());
    if offset < 0 {
        return (second + 172_800).saturating_sub(size);
    }
    second + 172_800 + size
}

/// Whether the clock comes to a time of day, as it goes from one second to the next.
fn comes(of_day: u64, before: u64, after: u64) -> bool
    ensures { IsTrue result ↔ Comes of_day before after }
{
    if after < of_day {
        return false;
    }
    let since = (after - of_day) % DAY;
    if since == 0 {
        return true;
    }
    if before < after - since {
        return true;
    }
    false
}

/// When the clock of the zone next shows this time of day (hour 0 to 23, minute 0 to 59), in
/// seconds since the Unix epoch, as `now` is. A time that the clock leaps over has come once it has
/// leapt; of a time that it shows twice this is the next one. At most a day after `now`, even if
/// the clock is set back meanwhile and comes to that time an hour later.
///
/// `None` only if a day after `now` is beyond the years that `jiff` knows, after 9999.
pub fn next_time(zone: &TimeZone<'_>, now: u64, hour: u8, minute: u8) -> Option<u64>
    ensures next { IfSome result
        (IsNextTime (plain_zone zone.now) (second_of_day hour minute) now) }
    ensures none { IsNone result → 253402207200 < now + 86400 }
{
    let of_day = 3600 * u64::from(hour) + 60 * u64::from(minute);
    if now > LAST - DAY {
        return None;
    }
    let mut before = clock_at(zone, now)?;
    for second in now..now + DAY - 1 {
        let after = clock_at(zone, second + 1)?;
        if comes(of_day, before, after) {
            return Some(second + 1);
        }
        before = after;
    }
    Some(now + DAY)
}
