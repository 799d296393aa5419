//! The text of a place, written and read.
ghost use Rattle.std.specs.Prelude.{◌≡◌, ◌+◌, ◌<◌, ◌≤◌, ◌++◌, ◌↔◌, codes, length, vec_len, vec_capacity, IsTrue, IfOk, OnOk, OnErr};
ghost use Rattle.std.specs.Io.{StartsWith};
ghost use Rattle.ocfl_tree.specs.{Place.{Place as ModelPlace}, Name.{IsPlace}};
ghost use Rattle.ocfl_report.specs.Text.{place_text};

use crate::escaped::{put_escaped, read_escaped};
use crate::stop::TextStop;
use ocfl_tree::Place;
use std::alloc::{AllocError, Global};

/// Appends the place as a report has it: its names with `/` between them, and `.` for the root. In
/// a name each control, `%`, DEL and byte outside ASCII becomes `%` and two capital hexadecimal
/// digits (RFC 3986, 2.1); all else stays as it is, spaces too.
///
/// The only error is running out of memory, which happens only if `out` has too little room.
/// Then `out` is as it was.
pub fn put_place(place: &Place, out: &mut Vec<u8>) -> Result<(), AllocError>
    ensures ok { OnOk result (out.new.items ≡ out.old.items ++ place_text place.now) }
    ensures err { OnErr result (out.new.items ≡ out.old.items) }
    ensures full { OnErr result
        (vec_capacity out.old < vec_len out.old + length (place_text place.now)) }
{
    let start = out.len();
    let put = put_text(place, out);
    if put.is_err() {
        out.truncate(start);
    }
    put
}

/// Appends the text of the place. If memory is refused a beginning of it is left after what was
/// there.
pub(crate) fn put_text(place: &Place, out: &mut Vec<u8>) -> Result<(), AllocError>
    ensures ok { OnOk result (out.new.items ≡ out.old.items ++ place_text place.now) }
    ensures begins { StartsWith out.new.items out.old.items }
    ensures full { OnErr result
        (vec_capacity out.old < vec_len out.old + length (place_text place.now)) }
    ensures capacity { vec_capacity out.old ≤ vec_capacity out.new }
{
    let path = place.path();
    if path.is_empty() {
        out.push(b'.')?;
        return Ok(());
    }
    // Escaping leaves a slash as it is.
    put_escaped(path.as_bytes(), out)
}

/// The place whose text the bytes are, as [`put_place`] writes it.
///
/// Each place has one text. Any other text is [`TextStop::Bad`]: one with an empty name, with `.`
/// or `..` in a path, with small hexadecimal digits, with the escape of a byte that stays as it
/// is, or with a name that is no UTF-8.
pub fn read_place(alloc: Global, bytes: &[u8]) -> Result<Place, TextStop>
    ensures ok { IfOk result (λ place. bytes.now ≡ place_text place) }
    ensures names { IfOk result IsPlace }
    ensures bad { result ≡ Err TextStop.Bad
        → (place : ModelPlace) → IsPlace place → bytes.now ≡ place_text place → ⊥ }
{
    if is_root_text(bytes) {
        return Ok(Place::root(alloc));
    }
    if bytes.is_empty() {
        return Err(TextStop::Bad);
    }
    // Escaping leaves a slash as it is, so that all names are read at once.
    let path = read_escaped(alloc, bytes)?;
    match Place::from_path(path) {
        Some(place) => Ok(place),
        None => Err(TextStop::Bad),
    }
}

fn is_root_text(bytes: &[u8]) -> bool
    ensures { IsTrue result ↔ (bytes.now ≡ codes ".") }
{
    bytes == b".".as_slice()
}
