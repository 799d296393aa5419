//! Why a call failed.
ghost use Rattle.ocfl_folder.specs.Faults.{IsTroubleOf};

use ocfl_tree::Trouble;
use std::io;

/// Why a call failed, and the error that this is answered for: the system's, or one that says what
/// is wrong.
#[derive(Clone, Copy)]
pub(crate) struct Failure {
    pub(crate) trouble: Trouble,
    pub(crate) error: io::Error,
    ghost fits: { IsTroubleOf error trouble },
}
