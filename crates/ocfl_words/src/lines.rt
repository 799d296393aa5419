//! Lines of reports.
ghost use Rattle.std.specs.Prelude.{◌≡◌, IfOk};
ghost use Rattle.ocfl_tree.specs.Place.{place_eq};
ghost use Rattle.ocfl_report.specs.Line.{line_of};
ghost use Rattle.ocfl_compare.specs.Changes.{is_code as is_that_code};
ghost use Rattle.ocfl_words.specs.News.{is_same_line};

use ocfl_report::{Code, Line, TextStop};
use ocfl_tree::{Place, is_text};
use std::alloc::AllocError;
use std::io::{self, ErrorKind};

/// The error of a reader of reports.
pub fn error_of(stop: TextStop) -> io::Error {
    match stop {
        TextStop::Bad => io::Error::from(ErrorKind::InvalidData),
        TextStop::Memory => io::Error::from(ErrorKind::OutOfMemory),
    }
}

/// Whether two codes are the same.
pub(crate) fn is_code(code: Code, other: Code) -> bool
    ensures { result ≡ is_that_code code other }
{
    is_text(code.text(), other.text())
}

/// Whether two places are the same.
pub(crate) fn is_place(place: &Place, other: &Place) -> bool
    ensures { result ≡ place_eq place.now other.now }
{
    place.cmp(other).is_eq()
}

/// Whether two lines say the same of the same place.
pub(crate) fn is_same(line: &Line, other: &Line) -> bool
    ensures { result ≡ is_same_line (line_of line.now) (line_of other.now) }
{
    is_place(&line.place, &other.place)
        && is_code(line.code, other.code)
        && is_text(line.detail.as_str(), other.detail.as_str())
}

/// The same line.
pub(crate) fn copy_of(line: &Line) -> Result<Line, AllocError>
    ensures { IfOk result (λ copy. line_of copy ≡ line_of line.now) }
{
    let place = line.place.try_clone()?;
    Ok(Line {
        code: line.code,
        place,
        detail: line.detail.clone()?,
    })
}
