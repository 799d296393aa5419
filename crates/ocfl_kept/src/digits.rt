//! Numbers in the names of files.
ghost use Rattle.std.specs.Prelude.{Some};
ghost use Rattle.ocfl_kept.specs.FilePaths.{six_digits};

use std::fmt;

/// A number whose `Display` has six digits or more: zeros come before it.
#[derive(Clone, Copy)]
pub(crate) struct SixDigits(pub(crate) u64);

impl fmt::Display for SixDigits {
    ghost output = { λ number. Some (six_digits number.0) };

    #[tactic(auto, using(crate::proofs::Zeros::six_digits_are))]
    fn fmt<W: fmt::Write>(&self, f: &mut fmt::Formatter<W>) -> fmt::Result {
        write!(f, "{:06}", self.0)
    }
}
