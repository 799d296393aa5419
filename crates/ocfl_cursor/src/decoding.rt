//! Reading a cursor from its text, and why other bytes are refused.
ghost use Rattle.std.specs.Prelude.{◌≡◌, ◌≢◌, ◌≤◌, ℕ, List, ◌++◌, length, IfOk, IfErr, IfSome, IsNone};
ghost use Rattle.ocfl_tree.specs.{Name.{IsPlace}, Place.{Place as ModelPlace}};
ghost use Rattle.ocfl_report.specs.Text.{place_text};
ghost use Rattle.ocfl_cursor.specs.Cursor.{State as ModelState, Cursor as ModelCursor, further_line};
ghost use Rattle.ocfl_cursor.specs.State.{state_of};
ghost use Rattle.ocfl_cursor.specs.Internal.Body.{further_of, version_of, version_line, files_line, FilesFit, CountsFit, counts_text, IsStateLine, AreLinesOf, IsBodyOf};
ghost use Rattle.ocfl_cursor.specs.Refusal.{IsTextOf, RefusedRightly};
ghost use Rattle.ocfl_cursor.specs.declared.form.FormVersion.{FormVersion as ModelVersion};

use crate::cursor::Cursor;
use crate::form::{
    AFTER, CHECKS_INVENTORIES, CYCLE, DIGEST, ENDED, FILES, FIRST_LINE_ONE, FIRST_LINE_THREE,
    FIRST_LINE_TWO, FRONT, FormVersion, MAX_TEXT, RUNS, SPENT, START, VERSIONS,
};
use crate::number::{read_number, read_small_number};
use crate::pieces::{after_prefix, before_line_feed, count_slashes};
use crate::refused::{Refused, TextKind};
use crate::seal::body_of;
use crate::state::{MAX_NAMES, State};
use ocfl_report::{Further, TextStop, read_place};
use ocfl_tree::{Place, is_bytes};
use std::alloc::Global;

/// The cursor whose text the bytes are.
///
/// Bytes that are no cursor's text are refused for the first reason that applies. Memory is asked
/// for only to make the place that the cursor holds; if that is refused the answer is `Memory`.
pub fn decode(alloc: Global, text: &[u8]) -> Result<Cursor, Refused>
    ensures cursor { IfOk result (λ cursor. IsTextOf text.now cursor) }

    // Memory is asked for only once the bytes have passed every test that goes before.
    ensures refused { IfErr result (λ refused. RefusedRightly text.now refused) }
{
    if text.len() > MAX_TEXT {
        return Err(Refused::NotA(TextKind::Cursor));
    }
    let body = body_of(TextKind::Cursor, FRONT, VERSIONS, DIGEST, text)?;
    Ok(read_body(alloc, body)?)
}

/// The cursor of which this is the text before its digest line.
fn read_body(alloc: Global, body: &[u8]) -> Result<Cursor, TextStop>
    ensures cursor { IfOk result (λ cursor. IsBodyOf body.now cursor) }
    ensures bad { result ≡ Err TextStop.Bad → (c : ModelCursor) → IsBodyOf body.now c → ⊥ }
{
    match read_first_line(body) {
        Some((version, lines)) => read_lines(alloc, version, lines),
        None => Err(TextStop::Bad),
    }
}

/// The cursor whose text has these lines between its first and its last.
pub(crate) fn read_lines(
    alloc: Global,
    version: FormVersion,
    lines: &[u8],
) -> Result<Cursor, TextStop>
    ensures cursor { IfOk result (λ cursor. AreLinesOf version lines.now cursor) }
    ensures bad { result ≡ Err TextStop.Bad
        → (c : ModelCursor) → AreLinesOf version lines.now c → ⊥ }
{
    let Some((counts, line)) = read_counts(version, lines) else {
        return Err(TextStop::Bad);
    };
    let state = read_state(alloc, line)?;
    let (spent, files) = (counts.spent, counts.files);
    let further = further_of(version);
    match Cursor::from_parts(counts.cycle, counts.runs, spent, files, further, state) {
        Some(cursor) => Ok(cursor),
        None => Err(TextStop::Bad),
    }
}

/// What the audits of a version check further.
fn further_of(version: FormVersion) -> Further
    ensures { result ≡ further_of version }
{
    match version {
        FormVersion::One | FormVersion::Two => Further::Nothing,
        FormVersion::Three => Further::Inventories,
    }
}

/// The version that is written for an audit that checks this further.
pub(crate) fn version_of(further: Further) -> FormVersion
    ensures { result ≡ version_of further }
{
    match further {
        Further::Nothing => FormVersion::Two,
        Further::Inventories => FormVersion::Three,
    }
}

/// The numbers in a cursor's text.
#[derive(Clone, Copy)]
struct Counts {
    cycle: u64,
    runs: u64,
    spent: u128,
    files: u128,
}

/// Reads the lines before that of the state. Gives what follows them too.
fn read_counts(version: FormVersion, lines: &[u8]) -> Option<(Counts, &[u8])>
    ensures found { IfSome result (λ read. lines.now ≡ counts_text version
        read.0.cycle read.0.runs read.0.spent read.0.files ++ read.1.now) }
    ensures fits { IfSome result (λ read. CountsFit version
        read.0.cycle read.0.runs read.0.spent read.0.files) }
    ensures missing { IsNone result → (cycle runs spent files : ℕ) (rest : List ℕ)
        → CountsFit version cycle runs spent files
        → lines.now ≢ counts_text version cycle runs spent files ++ rest }
{
    let rest = after_further(version, lines)?;
    let (cycle, rest) = read_small_number(CYCLE, rest)?;
    let (runs, rest) = read_small_number(RUNS, rest)?;
    let (spent, rest) = read_number(SPENT, rest)?;
    let (files, rest) = read_files(version, rest)?;
    let counts = Counts {
        cycle,
        runs,
        spent,
        files,
    };
    Some((counts, rest))
}

/// Reads the first line, which names the version.
fn read_first_line(body: &[u8]) -> Option<(FormVersion, &[u8])>
    ensures found { IfSome result (λ read. body.now ≡ version_line read.0 ++ read.1.now) }
    ensures missing { IsNone result
        → (v : ModelVersion) (rest : List ℕ) → body.now ≢ version_line v ++ rest }
{
    if let Some(rest) = after_prefix(FIRST_LINE_THREE, body) {
        return Some((FormVersion::Three, rest));
    }
    if let Some(rest) = after_prefix(FIRST_LINE_TWO, body) {
        return Some((FormVersion::Two, rest));
    }
    Some((FormVersion::One, after_prefix(FIRST_LINE_ONE, body)?))
}

/// What follows the line of what is checked further, which version 3 alone has.
fn after_further(version: FormVersion, lines: &[u8]) -> Option<&[u8]>
    ensures found { IfSome result
        (λ rest. lines.now ≡ further_line (further_of version) ++ rest.now) }
    ensures missing { IsNone result → (rest : List ℕ)
        → lines.now ≢ further_line (further_of version) ++ rest }
{
    match version {
        FormVersion::One | FormVersion::Two => Some(lines),
        FormVersion::Three => after_prefix(CHECKS_INVENTORIES, lines),
    }
}

/// Reads the line of the files, which version 1 has not.
fn read_files(version: FormVersion, text: &[u8]) -> Option<(u128, &[u8])>
    ensures found { IfSome result (λ read. text.now ≡ files_line version read.0 ++ read.1.now) }
    ensures fits { IfSome result (λ read. FilesFit version read.0) }
    ensures missing { IsNone result → (files : ℕ) (rest : List ℕ)
        → FilesFit version files → text.now ≢ files_line version files ++ rest }
{
    match version {
        FormVersion::One => Some((0, text)),
        FormVersion::Two | FormVersion::Three => read_number(FILES, text),
    }
}

/// Reads the line that says where the next run begins.
fn read_state(alloc: Global, line: &[u8]) -> Result<State, TextStop>
    ensures state { IfOk result (λ state. IsStateLine line.now (state_of state)) }
    ensures bad { result ≡ Err TextStop.Bad → (s : ModelState) → IsStateLine line.now s → ⊥ }
{
    let Some(line) = before_line_feed(line) else {
        return Err(TextStop::Bad);
    };
    if is_bytes(line, START) {
        return Ok(State::Start);
    }
    if is_bytes(line, ENDED) {
        return Ok(State::Ended);
    }
    let Some(path) = after_prefix(AFTER, line) else {
        return Err(TextStop::Bad);
    };
    Ok(State::After(read_short_place(alloc, path)?))
}

/// The place of at most 255 names that has this path.
fn read_short_place(alloc: Global, path: &[u8]) -> Result<Place, TextStop>
    ensures place { IfOk result (λ place. path.now ≡ place_text place) }
    ensures names { IfOk result (λ place. IsPlace place × (length place ≤ 255)) }
    ensures bad { result ≡ Err TextStop.Bad → (p : ModelPlace)
        → IsPlace p → length p ≤ 255 → path.now ≢ place_text p }
{
    // So that no memory is asked for that no cursor's place needs.
    if count_slashes(path) >= MAX_NAMES {
        return Err(TextStop::Bad);
    }
    read_place(alloc, path)
}
