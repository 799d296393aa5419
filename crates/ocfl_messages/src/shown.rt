//! A text as it is shown to a user.
ghost use Rattle.std.specs.Prelude.{◌≡◌, Some, IfOk, string_bytes};
ghost use Rattle.ocfl_report.specs.Text.{escape};

use percent_encoding::{AsciiSet, CONTROLS, ascii_set, percent_encode};
use std::alloc::{AllocError, Global};
use std::fmt;

/// The ASCII bytes that are escaped, as in reports: the controls, DEL among them, and `%`.
pub(crate) const ESCAPED: AsciiSet = ascii_set!(CONTROLS.add(b'%'));

/// A text whose `Display` escapes it as report lines escape names: no byte of it can move the
/// cursor of a terminal or begin a line.
#[derive(Clone, Copy)]
pub struct Shown<'a>(pub &'a str);

impl fmt::Display for Shown<'_> {
    ghost output = { λ s. Some (escape s.0.now) };

    fn fmt<W: fmt::Write>(&self, f: &mut fmt::Formatter<W>) -> fmt::Result {
        write!(f, "{}", percent_encode(self.0.as_bytes(), ESCAPED))
    }
}

/// Bytes, escaped in the same way.
pub(crate) fn escaped(alloc: Global, bytes: &[u8]) -> Result<String, AllocError>
    ensures { IfOk result (λ text. string_bytes text ≡ escape bytes.now) }
{
    format!(in alloc; "{}", percent_encode(bytes, ESCAPED))
}
