//! Reading a part's cursor from its text, and why other bytes are refused.
ghost use Rattle.std.specs.Prelude.{◌≡◌, ◌≢◌, true, All, List, ℕ, ◌++◌, Option, IfOk, IfErr, IfSome, IsNone, IsTrue, ◌↔◌, codes};
ghost use Rattle.ocfl_tree.specs.Place.{Place as ModelPlace};
ghost use Rattle.ocfl_report.specs.declared.further.Further.{Further as ModelFurther};
ghost use Rattle.ocfl_cursor.specs.Cursor.{Cursor as ModelCursor};
ghost use Rattle.ocfl_cursor.specs.Part.{HasNames, AreEnds, end_text, end_line, ends_lines, part_first_line, IsPartText};
ghost use Rattle.ocfl_cursor.specs.PartRefusal.{is_part_front, AnyPartRefusedRightly, PartRefusedRightly};
ghost use Rattle.ocfl_cursor.specs.Internal.Part.{IsPartBody};
ghost use Rattle.ocfl_cursor.specs.declared.ends.PartEnds.{PartEnds as ModelEnds};

use crate::cursor::Cursor;
use crate::decoding::{read_lines, version_of};
use crate::ends::{PartEnds, is_same_part};
use crate::form::{
    BELOW, DIGEST, END, FROM, NO_WORD, PART_FIRST_LINE_ONE, PART_FIRST_LINE_TWO, START,
};
use crate::pieces::after_prefix;
use crate::refused::{PartRefused, Refused, TextKind};
use crate::seal::sealed_body;
use ocfl_report::{Further, TextStop, read_place, split_once};
use ocfl_tree::{Place, is_bytes};
use std::alloc::Global;

/// The cursor of this part whose text the bytes are.
///
/// Bytes that are no such text are refused for the first reason that applies. Memory is asked for
/// only once the bytes begin and end as a part's cursor.
pub fn decode_part(alloc: Global, text: &[u8], ends: &PartEnds) -> Result<Cursor, PartRefused>
    ensures cursor { IfOk result (λ cursor. IsPartText ends.now text.now cursor) }
    ensures refused { IfErr result (λ refused. PartRefusedRightly ends.now text.now refused) }
{
    let (named, cursor) = read_part_text(alloc, text)?;
    if is_same_part(&named, ends) {
        Ok(cursor)
    } else {
        Err(PartRefused::OtherPart)
    }
}

/// The part and its cursor whose text the bytes are.
pub(crate) fn read_part_text(alloc: Global, text: &[u8]) -> Result<(PartEnds, Cursor), Refused>
    ensures part { IfOk result (λ read. IsPartText read.0 text.now read.1) }
    ensures refused { IfErr result (λ refused. AnyPartRefusedRightly text.now refused) }
{
    if !is_part_front(text) {
        return Err(Refused::NotA(TextKind::Cursor));
    }
    let Some(body) = sealed_body(DIGEST, text) else {
        return Err(Refused::Damaged);
    };
    Ok(read_part_body(alloc, body)?)
}

/// Whether the first line is that of a part's cursor.
pub(crate) fn is_part_front(text: &[u8]) -> bool
    ensures { result ≡ is_part_front text.now }
{
    text.starts_with(PART_FIRST_LINE_ONE) || text.starts_with(PART_FIRST_LINE_TWO)
}

/// The part and its cursor of which this is the text before its digest line.
fn read_part_body(alloc: Global, body: &[u8]) -> Result<(PartEnds, Cursor), TextStop>
    ensures part { IfOk result (λ read. IsPartBody read.0 body.now read.1) }
    ensures bad { result ≡ Err TextStop.Bad
        → (e : ModelEnds) (c : ModelCursor) → IsPartBody e body.now c → ⊥ }
{
    let Some((further, lines)) = read_part_first_line(body) else {
        return Err(TextStop::Bad);
    };
    let (ends, lines) = read_ends(alloc, lines)?;
    Ok((ends, read_lines(alloc, version_of(further), lines)?))
}

/// Reads the first line, which tells what the audit checks further.
fn read_part_first_line(body: &[u8]) -> Option<(Further, &[u8])>
    ensures found { IfSome result (λ read. body.now ≡ part_first_line read.0 ++ read.1.now) }
    ensures missing { IsNone result → (further : ModelFurther) (rest : List ℕ)
        → body.now ≢ part_first_line further ++ rest }
{
    if let Some(rest) = after_prefix(PART_FIRST_LINE_TWO, body) {
        return Some((Further::Inventories, rest));
    }
    Some((Further::Nothing, after_prefix(PART_FIRST_LINE_ONE, body)?))
}

/// Reads the lines of both ends. Gives what follows them too.
pub(crate) fn read_ends(alloc: Global, lines: &[u8]) -> Result<(PartEnds, &[u8]), TextStop>
    ensures found { IfOk result (λ read. lines.now ≡ ends_lines read.0 ++ read.1.now) }
    ensures names { IfOk result (λ read. AreEnds read.0) }
    ensures bad { result ≡ Err TextStop.Bad → (e : ModelEnds) (rest : List ℕ)
        → AreEnds e → lines.now ≢ ends_lines e ++ rest }
{
    let (from, rest) = read_end(alloc, FROM, START, lines)?;
    let (below, rest) = read_end(alloc, BELOW, END, rest)?;
    Ok((PartEnds { from, below }, rest))
}

/// Reads the line of an end. Gives what follows it too.
fn read_end<'a>(
    alloc: Global,
    front: &[u8],
    word: &[u8],
    text: &'a [u8],
) -> Result<(Option<Place>, &'a [u8]), TextStop>
    requires one_line { All (λ b. b ≢ 10) word.now }
    ensures found { IfOk result
        (λ read. text.now ≡ end_line front.now word.now read.0 ++ read.1.now) }
    ensures names { IfOk result (λ read. HasNames read.0) }
    ensures bad { result ≡ Err TextStop.Bad
        → (end : Option ModelPlace) (rest : List ℕ) → HasNames end
        → text.now ≢ end_line front.now word.now end ++ rest }
{
    let Some(line) = after_prefix(front, text) else {
        return Err(TextStop::Bad);
    };
    let Some((end, rest)) = split_once(line, b'\n') else {
        return Err(TextStop::Bad);
    };
    Ok((read_end_text(alloc, word, end)?, rest))
}

/// The end that has this text.
fn read_end_text(alloc: Global, word: &[u8], text: &[u8]) -> Result<Option<Place>, TextStop>
    ensures end { IfOk result (λ end. text.now ≡ end_text word.now end) }
    ensures names { IfOk result HasNames }
    ensures bad { result ≡ Err TextStop.Bad → (end : Option ModelPlace)
        → HasNames end → text.now ≢ end_text word.now end }
{
    if is_bytes(text, word) {
        return Ok(None);
    }
    if is_place_of_word(word, text) {
        return Ok(Some(read_place(alloc, word)?));
    }
    Ok(Some(read_place(alloc, text)?))
}

/// Whether the text is the word with `./` before it.
fn is_place_of_word(word: &[u8], text: &[u8]) -> bool
    ensures { IsTrue result ↔ (text.now ≡ codes "./" ++ word.now) }
{
    match after_prefix(NO_WORD, text) {
        Some(path) => is_bytes(path, word),
        None => false,
    }
}
