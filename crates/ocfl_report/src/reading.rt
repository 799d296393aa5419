//! Reading a report line back from its text.
ghost use Rattle.std.specs.Prelude.{◌≡◌, ◌≢◌, ◌∷◌, ◌++◌, [], All, IfOk, IfSome, IsNone};
ghost use Rattle.ocfl_tree.specs.Place.{Text as ModelText};
ghost use Rattle.ocfl_report.specs.{Line.{Line as ModelLine, line_of}, Text.{IsLineText}};

use crate::code::read_code;
use crate::escaped::read_escaped;
use crate::line::Line;
use crate::path::read_place;
use crate::stop::TextStop;
use std::alloc::Global;

/// The line whose text the bytes are, its line feed included, as [`Line::put`] appends it.
///
/// Each line has one text. Any other text is [`TextStop::Bad`]: one without its line feed, with
/// a code that is not known, with more or fewer tabs than two, with small hexadecimal digits, or
/// with the escape of a byte that stays as it is.
pub fn read_line(alloc: Global, bytes: &[u8]) -> Result<Line, TextStop>
    ensures ok { IfOk result (λ line. IsLineText bytes.now (line_of line)) }
    ensures bad { result ≡ Err TextStop.Bad
        → (line : ModelLine) → IsLineText bytes.now line → ⊥ }
{
    let Some(fields) = split_fields(bytes) else {
        return Err(TextStop::Bad);
    };
    let Some(code) = read_code(fields.code) else {
        return Err(TextStop::Bad);
    };
    let place = read_place(alloc, fields.place)?;
    let detail = read_escaped(alloc, fields.detail)?;
    Ok(Line {
        code,
        place,
        detail,
    })
}

/// What is between the tabs of a line, and before its line feed.
#[derive(Clone, Copy)]
struct Fields<'a> {
    code: &'a [u8],
    place: &'a [u8],
    detail: &'a [u8],
}

/// The fields of a line, split at its first two tabs. `None` without them, or without a line feed
/// at the end.
fn split_fields(bytes: &[u8]) -> Option<Fields<'_>>
    ensures some { IfSome result (λ f. bytes.now
        ≡ f.code.now ++ 9 ∷ f.place.now ++ 9 ∷ f.detail.now ++ 10 ∷ []) }
    ensures first { IfSome result
        (λ f. All (λ b. b ≢ 9) f.code.now × All (λ b. b ≢ 9) f.place.now) }
    ensures none { IsNone result → (code place detail : ModelText)
        → bytes.now ≢ code ++ 9 ∷ place ++ 9 ∷ detail ++ 10 ∷ [] }
{
    let line = bytes.strip_suffix(b"\n")?;
    let (code, rest) = split_once(line, b'\t')?;
    let (place, detail) = split_once(rest, b'\t')?;
    Some(Fields {
        code,
        place,
        detail,
    })
}

/// What comes before the first such byte, and what follows it. `None` without such a byte.
pub fn split_once(bytes: &[u8], byte: u8) -> Option<(&[u8], &[u8])>
    ensures found { IfSome result (λ parts. bytes.now ≡ parts.0.now ++ byte ∷ parts.1.now) }
    ensures first { IfSome result (λ parts. All (λ b. b ≢ byte) parts.0.now) }
    ensures missing { IsNone result → All (λ b. b ≢ byte) bytes.now }
{
    let end = bytes.iter().position(|&b| b == byte)?;
    Some((&bytes[..end], &bytes[end + 1..]))
}
