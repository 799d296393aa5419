//! Escaped text, after RFC 3986, 2.1, with this report's own set of bytes that stay as they are.
ghost use Rattle.std.specs.Prelude.{◌≡◌, ◌+◌, ◌<◌, ◌≤◌, ◌++◌, ◌↔◌, IsTrue, OnOk, OnErr, length, vec_len, vec_capacity, IfOk, string_bytes};
ghost use Rattle.std.specs.{Io.{StartsWith}, Str.{IsUtf8}};
ghost use Rattle.ocfl_tree.specs.Place.{Text as ModelText};
ghost use Rattle.ocfl_report.specs.Text.{escape};

use crate::stop::TextStop;
use percent_encoding::{
    AsciiSet, CONTROLS, DecodeError, ascii_set, percent_decode, percent_encode,
};
use std::alloc::{AllocError, Global};

/// The ASCII bytes that are escaped: the controls, DEL among them, and `%`. The bytes outside ASCII
/// always are.
pub(crate) const ESCAPED: AsciiSet = ascii_set!(CONTROLS.add(b'%'));

/// Appends the text with each control, `%`, DEL and byte outside ASCII as `%` and two capital
/// hexadecimal digits.
///
/// If memory is refused a beginning of that is left after what was there.
pub(crate) fn put_escaped(text: &[u8], out: &mut Vec<u8>) -> Result<(), AllocError>
    ensures ok { OnOk result (out.new.items ≡ out.old.items ++ escape text.now) }
    ensures begins { StartsWith out.new.items out.old.items }
    ensures full { OnErr result (vec_capacity out.old
        < vec_len out.old + length (escape text.now)) }
    ensures capacity { vec_capacity out.old ≤ vec_capacity out.new }
{
    for piece in percent_encode(text, ESCAPED) {
        out.extend_from_slice(piece.as_bytes())?;
    }
    Ok(())
}

/// Whether the bytes are just what [`put_escaped`] appends for the text.
pub(crate) fn is_escaped_form(bytes: &[u8], text: &[u8]) -> bool
    ensures { IsTrue result ↔ (bytes.now ≡ escape text.now) }
{
    let mut rest = bytes;
    for piece in percent_encode(text, ESCAPED) {
        match rest.strip_prefix(piece.as_bytes()) {
            Some(behind) => rest = behind,
            None => return false,
        }
    }
    rest.is_empty()
}

/// The text whose escaped form the bytes are. [`TextStop::Bad`] if no text has that form.
pub(crate) fn read_escaped(alloc: Global, bytes: &[u8]) -> Result<String, TextStop>
    ensures text { IfOk result (λ text. bytes.now ≡ escape (string_bytes text)) }
    ensures bad { result ≡ Err TextStop.Bad
        → (text : ModelText) → IsUtf8 text → bytes.now ≡ escape text → ⊥ }
{
    let text = match percent_decode(bytes).decode_utf8(alloc) {
        Ok(text) => text,
        Err(DecodeError::Utf8(_)) => return Err(TextStop::Bad),
        Err(DecodeError::OutOfMemory) => return Err(TextStop::Memory),
    };
    // Decoding takes more than one form of a text: small digits, and escapes of any byte.
    if !is_escaped_form(bytes, text.as_str().as_bytes()) {
        return Err(TextStop::Bad);
    }
    Ok(text.into_owned(alloc)?)
}
