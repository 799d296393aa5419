//! The exit status of a program after a night.
ghost use Rattle.std.specs.Prelude.{◌≡◌};
ghost use Rattle.ocfl_terms.specs.Status.{found_status, halt_status, refusal_status};

use crate::plan::Halt;
use crate::refusal::Refusal;
use ocfl_status::status_of as exit_status;

/// The status of a night that ended so, whatever it found: 0 if it ended as it may, 3 if
/// something stopped or refused it, and 4 if that is a checkpoint that cannot be read.
pub fn status_of(halt: &Halt) -> u8
    ensures { result ≡ halt_status halt.now }
{
    match halt {
        Halt::CycleEnded(_) | Halt::TimeUp | Halt::Spent | Halt::Asked => 0,
        Halt::Stopped(_) | Halt::RootChanged | Halt::Troubled(_) => 3,
        Halt::Refused(refusal) => status_of_refusal(refusal),
    }
}

/// The status of a night that was refused so.
fn status_of_refusal(refusal: &Refusal) -> u8
    ensures { result ≡ refusal_status refusal.now }
{
    match refusal {
        Refusal::Unread(_) => 4,
        Refusal::NoCheckpoint | Refusal::HasReports | Refusal::NoRoot => 3,
        Refusal::OtherRoot(_) | Refusal::OtherPart | Refusal::OtherAudit(_) => 3,
        Refusal::OtherDeclaration | Refusal::NamesGone { .. } | Refusal::Older(_) => 3,
    }
}

/// The status of a night by what came of it: 3 if some of the report was lost, 1 if findings
/// were said, else 0. The status of the night is the greater one of this and of `status_of`.
pub fn status_found(lost: bool, findings: u64) -> u8
    ensures { result ≡ found_status lost findings }
{
    exit_status(lost, findings != 0)
}
