//! The exit status of a joining.
ghost use Rattle.std.specs.Prelude.{◌≡◌};
ghost use Rattle.ocfl_joining.specs.Status.{status_of as status_by};

use ocfl_status::status_of;

/// How the joining of a cycle ended, if nothing failed.
#[derive(Clone, Copy, Debug, PartialEq, Eq)]
pub enum CycleEnd {
    /// The joined report is there.
    IsJoined {
        /// Whether it is whole.
        whole: bool,
    },
    /// Parts keep it from being joined.
    IsHindered {
        /// Whether they were named: those of the last cycle are.
        named: bool,
    },
}

/// The exit status of a joining that ended so: 0, or 3 where the joined report lacks something, or
/// parts were named that keep it from being joined.
pub fn join_status(end: CycleEnd) -> u8
    ensures { result ≡ status_by end }
{
    match end {
        CycleEnd::IsJoined { whole } => status_of(!whole, false),
        CycleEnd::IsHindered { named } => status_of(named, false),
    }
}
