//! Whether the next cycle may begin.
ghost use Rattle.std.specs.Prelude.{◌≡◌};
ghost use Rattle.ocfl_clock.specs.Every.{may_begin, must_wait};

use crate::next::DAY;

/// Whether a new cycle may begin now, where one begins no less than so many days after the last one
/// ended. Times are in seconds since the Unix epoch. It may if none has ended, and if the end is
/// still to come, since a clock was wrong then.
pub fn may_begin(ended: Option<u64>, now: u64, days: u64) -> bool
    ensures { result ≡ may_begin ended now days }
{
    let Some(ended) = ended else {
        return true;
    };
    let next = u128::from(ended) + u128::from(DAY) * u128::from(days);
    now < ended || u128::from(now) >= next
}

/// Whether a night that begins now has to wait with a new cycle: one begins no less than so many
/// days after the last one ended, if that is asked for. Where a cycle is open, which the night goes
/// on with, it has not. Times are in seconds since the Unix epoch.
pub fn must_wait(every: Option<u64>, is_open: bool, ended: Option<u64>, now: u64) -> bool
    ensures { result ≡ must_wait every is_open ended now }
{
    match every {
        Some(days) if !is_open => !may_begin(ended, now, days),
        _ => false,
    }
}
