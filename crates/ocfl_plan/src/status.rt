//! The exit status of a night and of each of its runs, and what is kept of them.
ghost use Rattle.std.specs.Prelude.{◌≡◌};
ghost use Rattle.ocfl_plan.specs.Status.{closed_by, has_stopped, is_kept, is_logged, is_own, lacks};
ghost use Rattle.ocfl_plan.specs.Status.{night_status, run_status};

use ocfl_status::status_of as exit_status;
use ocfl_terms::{Halt, Made, NightEnd, Refusal, SliceEnd, status_found, status_of};

/// Whether a run stopped.
fn has_stopped(end: &SliceEnd) -> bool
    ensures { result ≡ has_stopped end.now }
{
    matches!(end, SliceEnd::Stopped(_))
}

/// The status of a run: 3 if it stopped, 1 if it found something, else 0.
pub fn run_status(made: &Made) -> u8
    ensures { result ≡ run_status made.now.end made.now.found }
{
    exit_status(has_stopped(&made.end), made.found)
}

/// Whether anything of a run is kept.
pub fn is_kept(made: &Made) -> bool
    ensures { result ≡ is_kept made.now.end }
{
    !matches!(made.end, SliceEnd::RootChanged | SliceEnd::Unread(_))
}

/// Whether a night lacks something: lines of the report were lost or are none, or a branch was left
/// out.
fn lacks(end: &NightEnd, broken: u64) -> bool
    ensures { result ≡ lacks end.now broken }
{
    end.lost || broken > 0 || !end.left.is_empty()
}

/// The exit status of a night: the greatest of what its end gives, 3 if it lacks something, 1 if
/// findings were said, and what was said of closed cycles. `broken` is how many lines of the report
/// are none, and `findings` how many findings were said.
pub fn night_status(end: &NightEnd, broken: u64, findings: u64, closings: u8) -> u8
    ensures { result ≡ night_status end.now broken findings closings }
{
    let found = status_found(lacks(end, broken), findings);
    status_of(&end.end).max(found).max(closings)
}

/// Whether a folder that was refused is one of these nights: one of another root, part, audit or
/// program is left as it is, its log too.
fn is_own(refusal: &Refusal) -> bool
    ensures { result ≡ is_own refusal.now }
{
    match refusal {
        Refusal::NoRoot | Refusal::OtherDeclaration | Refusal::NamesGone { .. } => true,
        Refusal::Older(_) => true,
        Refusal::NoCheckpoint | Refusal::HasReports | Refusal::Unread(_) => false,
        Refusal::OtherRoot(_) | Refusal::OtherPart | Refusal::OtherAudit(_) => false,
    }
}

/// Whether a night that ended so is in the log of its folder.
pub fn is_logged(halt: &Halt) -> bool
    ensures { result ≡ is_logged halt.now }
{
    match halt {
        Halt::Refused(refusal) => is_own(refusal),
        _ => true,
    }
}

/// The cycle whose report a night closed, 0 for none. `None` if it was refused.
pub fn closed_by(halt: &Halt) -> Option<u64>
    ensures { result ≡ closed_by halt.now }
{
    match halt {
        Halt::Refused(_) => None,
        Halt::CycleEnded(cycle) => Some(*cycle),
        _ => Some(0),
    }
}
