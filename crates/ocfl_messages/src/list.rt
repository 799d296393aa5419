//! Reading a list of known findings from its text.
ghost use Rattle.std.specs.Prelude.{◌≡◌, ◌≢◌, ◌⊎◌, ◌↔◌, ◌++◌, ◌∷◌, [], IfOk, IfErr, IfSome, IsNone, IsTrue, OnOk};
ghost use Rattle.std.specs.List.Sorted.{IsPermutation};
ghost use Rattle.ocfl_tree.specs.Place.{Text as ModelText};
ghost use Rattle.ocfl_report.specs.{Line.{Line as ModelLine, line_of}, Text.{IsLineText}};
ghost use Rattle.ocfl_messages.specs.List.{BeginsWith, HasFeed, IsEnded, IsEntry, IsKnownText, IsList, IsRemark, IsRow, NamesLoss, KnownStopsRightly, ListsEntries, Row as ModelRow, RowsStop, entries_of, row_text};
ghost use Rattle.ocfl_messages.specs.declared.known.KnownEntry.{KnownEntry as ModelEntry};

use crate::known::{Known, KnownEntry, Reach};
use ocfl_report::{InputStop, Line, TextStop, read_limited, read_line, split_once};
use std::alloc::{AllocError, Global};
use std::io::Read;
use thiserror::Error;

/// How many bytes a list has at most.
const MAX_BYTES: usize = 16_777_216;

/// Why no list was read: too many bytes come first, and then the lines in their order.
#[derive(Clone, Copy, Debug, PartialEq, Eq, Error)]
pub enum KnownStop {
    /// The first line, from 1, that names neither findings nor a loss, and is no remark.
    #[error("bad list of known findings: line {0} is neither a report line nor a code and a path")]
    Line(usize),
    /// There are more than 16,777,216 bytes.
    #[error("bad list of known findings: too long")]
    Long,
    /// The reader failed.
    #[error("list of known findings failed")]
    Read,
    /// Memory was refused.
    #[error("out of memory")]
    Memory,
}

/// Reads a list from all the bytes of a reader. Each line is a report line; or a code, a tab and a
/// path, for all findings of the code at that place; or the same with `/` behind the path, for
/// those at and below it, where `./` is the whole root. A line that is empty or begins with `#` is
/// a remark. So is a line of what is gone: `object`, `undeclared`, `file` or `expected`, then a
/// tab. It names a loss, and no finding. The last line may lack its line feed.
pub fn read_known<R: Read>(alloc: Global, reader: &mut R) -> Result<Known, KnownStop>
    ensures known { IfOk result
        (λ known. IfSome (R.remaining reader.old)
        (λ bytes. ListsEntries bytes known)) }
    ensures refused { IfErr result
        (λ stop. IfSome (R.remaining reader.old) (λ bytes. KnownStopsRightly bytes stop)) }
{
    match read_limited(alloc, reader, MAX_BYTES as u64 + 1) {
        Ok(bytes) => read_text(alloc, bytes),
        Err(InputStop::Failed) => Err(KnownStop::Read),
        Err(InputStop::Memory) => Err(KnownStop::Memory),
    }
}

/// The list whose text the bytes are.
fn read_text(alloc: Global, bytes: Vec<u8>) -> Result<Known, KnownStop>
    ensures known { IfOk result (λ known. ListsEntries bytes.items known) }
    ensures refused { IfErr result (λ stop. KnownStopsRightly bytes.items stop) }
{
    if bytes.len() > MAX_BYTES {
        return Err(KnownStop::Long);
    }
    let mut text = bytes;
    if end_last_line(&mut text).is_err() {
        return Err(KnownStop::Memory);
    }
    let entries = read_rows(alloc, text.as_slice())?;
    sorted_by_place(entries)
}

/// The list of these entries.
fn sorted_by_place(entries: Vec<KnownEntry>) -> Result<Known, KnownStop>
    ensures known { IfOk result (λ known. IsPermutation entries.items known) }
    ensures memory { IfErr result (λ stop. stop ≡ KnownStop.Memory) }
{
    match Known::of(entries) {
        Ok(known) => Ok(known),
        Err(_) => Err(KnownStop::Memory),
    }
}

/// Appends the line feed that the last line may lack.
fn end_last_line(bytes: &mut Vec<u8>) -> Result<(), AllocError>
    ensures { OnOk result (IsEnded bytes.old.items bytes.new.items) }
{
    if is_ended(bytes.as_slice()) {
        return Ok(());
    }
    bytes.push(b'\n')?;
    Ok(())
}

/// Whether there is no last line, or it has its line feed.
fn is_ended(bytes: &[u8]) -> bool
    ensures { IsTrue result ↔ ((bytes.now ≡ []) ⊎ HasFeed bytes.now) }
{
    if bytes.is_empty() {
        return true;
    }
    match bytes.strip_suffix(b"\n") {
        Some(_) => true,
        None => false,
    }
}

/// The entries of these lines.
fn read_rows(alloc: Global, bytes: &[u8]) -> Result<Vec<KnownEntry>, KnownStop>
    ensures known { IfOk result (λ entries. IsList bytes.now entries.items) }
    ensures refused { IfErr result (λ stop. RowsStop bytes.now stop) }
{
    let mut entries = Vec::new(alloc);
    let mut rest = bytes;
    for number in 1..usize::MAX {
        if rest.is_empty() {
            return Ok(entries);
        }
        match take_row(alloc, rest, &mut entries) {
            Ok(after) => rest = after,
            Err(TextStop::Bad) => return Err(KnownStop::Line(number)),
            Err(TextStop::Memory) => return Err(KnownStop::Memory),
        }
    }
    Err(KnownStop::Memory)
}

/// Takes the first line. Gives what follows it.
fn take_row<'a>(
    alloc: Global,
    text: &'a [u8],
    entries: &mut Vec<KnownEntry>,
) -> Result<&'a [u8], TextStop>
    ensures ok { IfOk result (λ after. (row : ModelRow) × IsRow row
        × (text.now ≡ row_text row ++ after.now)
        × (entries.new.items ≡ entries.old.items ++ entries_of (row ∷ []))) }
    ensures bad { result ≡ Err TextStop.Bad
        → (row : ModelRow) (after : ModelText) → IsRow row → text.now ≢ row_text row ++ after }
{
    let Some((row, after)) = split_once(text, b'\n') else {
        return Err(TextStop::Bad);
    };
    if is_remark(row) {
        return Ok(after);
    }
    let entry = match read_entry(alloc, row) {
        Ok(Some(entry)) => entry,
        Ok(None) => return Err(TextStop::Bad),
        Err(_) => return Err(TextStop::Memory),
    };
    put_entry(entry, entries)?;
    Ok(after)
}

fn put_entry(entry: KnownEntry, entries: &mut Vec<KnownEntry>) -> Result<(), AllocError>
    ensures { OnOk result (entries.new.items ≡ entries.old.items ++ entry ∷ []) }
{
    entries.push(entry)?;
    Ok(())
}

/// Whether a line is a remark.
fn is_remark(row: &[u8]) -> bool
    ensures { IsTrue result ↔ IsRemark row.now }
{
    match row.first() {
        Some(first) => *first == b'#' || names_loss(row),
        None => true,
    }
}

/// Whether a line is one of what is gone.
fn names_loss(row: &[u8]) -> bool
    ensures { IsTrue result ↔ NamesLoss row.now }
{
    begins_with(row, b"object\t")
        || begins_with(row, b"undeclared\t")
        || begins_with(row, b"file\t")
        || begins_with(row, b"expected\t")
}

/// Whether the first bytes of a line are this word.
fn begins_with(row: &[u8], word: &[u8]) -> bool
    ensures { IsTrue result ↔ BeginsWith row.now word.now }
{
    match row.strip_prefix(word) {
        Some(_) => true,
        None => false,
    }
}

/// What a line names, and `None` if it names nothing.
fn read_entry(alloc: Global, row: &[u8]) -> Result<Option<KnownEntry>, AllocError>
    ensures found { IfOk result (λ o. IfSome o (IsEntry row.now)) }
    ensures missing { IfOk result
        (λ o. IsNone o → (e : ModelEntry) → IsEntry row.now e → ⊥) }
{
    if let Some(line) = read_as(alloc, row, b"\n")? {
        return Ok(Some(entry_of(Reach::One, line)));
    }
    if let Some(line) = read_as(alloc, row, b"\t-\n")? {
        return Ok(Some(entry_of(Reach::Place, line)));
    }
    let Some(path) = row.strip_suffix(b"/") else {
        return Ok(None);
    };
    match read_as(alloc, path, b"\t-\n")? {
        Some(line) => Ok(Some(entry_of(Reach::Branch, line))),
        None => Ok(None),
    }
}

/// An entry.
fn entry_of(reach: Reach, line: Line) -> KnownEntry
    ensures reach { result.reach ≡ reach }
    ensures line { result.line ≡ line }
{
    KnownEntry { reach, line }
}

/// The report line that this text and the bytes after it make, if they make one.
fn read_as(alloc: Global, text: &[u8], end: &[u8]) -> Result<Option<Line>, AllocError>
    ensures found { IfOk result
        (λ o. IfSome o (λ line. IsLineText (text.now ++ end.now) (line_of line))) }
    ensures missing { IfOk result
        (λ o. IsNone o → (l : ModelLine) → IsLineText (text.now ++ end.now) l → ⊥) }
{
    let mut whole = Vec::from_slice(alloc, text)?;
    whole.extend_from_slice(end)?;
    match read_line(alloc, whole.as_slice()) {
        Ok(line) => Ok(Some(line)),
        Err(TextStop::Bad) => Ok(None),
        Err(TextStop::Memory) => Err(AllocError),
    }
}
