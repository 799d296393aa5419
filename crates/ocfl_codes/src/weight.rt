//! How serious a finding is.
ghost use Rattle.std.specs.Prelude.{◌≡◌};
ghost use Rattle.ocfl_codes.specs.Weight.{weight_of};

use ocfl_report::Code;

/// How serious a finding is, the most serious first.
#[derive(Clone, Copy, Debug, PartialEq, Eq)]
pub enum Weight {
    /// Bytes are not those that were taken in, or nobody can say whether they are.
    Bytes,
    /// An object, or the root, that the audit did not look into, or whose inventory has changed.
    Object,
    /// What an inventory, a sidecar or a declaration says or lacks; a file that nothing vouches
    /// for.
    Record,
    /// A file or folder in the wrong place.
    Position,
}

/// How serious a line of this code is. `None` if it is no finding.
pub fn weigh(code: Code) -> Option<Weight>
    ensures { result ≡ weight_of code }
{
    match code {
        Code::Clean | Code::S07 | Code::S09 => None,
        Code::E092 | Code::E093 | Code::S08 => Some(Weight::Bytes),
        Code::E003
        | Code::E017
        | Code::E018
        | Code::E025
        | Code::E033
        | Code::E036
        | Code::E041
        | Code::E060
        | Code::E063
        | Code::E064
        | Code::E069
        | Code::E076
        | Code::S01
        | Code::S02
        | Code::S03
        | Code::S05 => Some(Weight::Object),
        Code::E007
        | Code::E023
        | Code::E058
        | Code::E061
        | Code::E080
        | Code::E096
        | Code::E097
        | Code::E099
        | Code::E100
        | Code::E101
        | Code::S04
        | Code::S06 => Some(Weight::Record),
        Code::E001 | Code::E015 | Code::E024 | Code::E072 | Code::E073 => Some(Weight::Position),
    }
}
