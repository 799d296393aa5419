//! What comes of a cycle whose joining stopped: the exit status, and whether why was said.
ghost use Rattle.std.specs.Prelude.{◌≡◌, ◌&&◌, max, true};
ghost use Rattle.ocfl_joining.specs.Failing.{called_status, failed_status as failed_status_by};
ghost use Rattle.ocfl_joining.specs.Failing.{is_failed_call as is_failed_call_by, more_of};

use crate::joining::JoinStop;
use crate::reports::ReportTrouble;

/// The status of a joining that stopped, at least.
const FAILED: u8 = 3;

/// What the system said of a call that failed.
#[derive(Debug, Drop)]
pub struct FailedCall {
    /// The exit status that goes with it.
    pub status: u8,
    /// Its words, without a line feed.
    pub text: String,
}

/// The exit status of a joining, and whether it was said of each cycle that stopped why it did.
#[derive(Clone, Copy, Debug, PartialEq, Eq)]
pub struct JoinEnd {
    pub status: u8,
    /// False if memory for a text was refused, or a text was not taken.
    pub said: bool,
}

/// Whether a joining stopped at a call that failed, of which the system has said something.
fn is_failed_call(stop: &JoinStop) -> bool
    ensures { result ≡ is_failed_call_by stop.now }
{
    match stop {
        JoinStop::Part { why, .. } | JoinStop::Output(why) => *why == ReportTrouble::Failed,
        JoinStop::Missing(_) | JoinStop::Changed(_) | JoinStop::Unsaid | JoinStop::Memory => false,
    }
}

/// The status of a call that failed.
fn call_status(call: &Option<FailedCall>) -> u8
    ensures { result ≡ called_status call.now }
{
    match call {
        Some(call) => call.status.max(FAILED),
        None => FAILED,
    }
}

/// The exit status of a joining that stopped: 3, or a greater one that goes with the call that
/// failed.
pub fn failed_status(stop: &JoinStop, call: &Option<FailedCall>) -> u8
    ensures { result ≡ failed_status_by stop.now call.now }
{
    if is_failed_call(stop) {
        call_status(call)
    } else {
        FAILED
    }
}

/// Both, one after the other: the greater status.
pub(crate) fn both(first: JoinEnd, next: JoinEnd) -> JoinEnd
    ensures { result ≡ more_of first next }
{
    JoinEnd {
        status: first.status.max(next.status),
        said: first.said && next.said,
    }
}

/// That of a cycle that stopped at nothing.
pub(crate) fn without_stop(status: u8) -> JoinEnd
    ensures { result ≡ record { status = status; said = true } }
{
    JoinEnd { status, said: true }
}
