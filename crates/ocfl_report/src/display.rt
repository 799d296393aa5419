//! A place as it is shown to a user.
ghost use Rattle.std.specs.Prelude.{Some};
ghost use Rattle.ocfl_report.specs.Text.{place_text};

use crate::escaped::ESCAPED;
use ocfl_tree::Place;
use percent_encoding::percent_encode;
use std::fmt;

/// A place whose `Display` is its text in a report, as [`put_place`](crate::put_place) appends it.
#[derive(Clone, Copy)]
pub struct DisplayPlace<'a>(pub &'a Place);

impl fmt::Display for DisplayPlace<'_> {
    ghost output = { λ d. Some (place_text d.0.now) };

    fn fmt<W: fmt::Write>(&self, f: &mut fmt::Formatter<W>) -> fmt::Result {
        let path = self.0.path();
        if path.is_empty() {
            return f.write_str(".");
        }
        write!(f, "{}", percent_encode(path.as_bytes(), ESCAPED))
    }
}
