//! Reading a list of objects.
ghost use Rattle.std.specs.Prelude.{◌≡◌, ◌≢◌, ℕ, ◌+◌, List, [], ◌∷◌, ◌++◌, All, map, IfErr, IfOk};
ghost use Rattle.std.specs.Prelude.{◌<◌, true, false, length, IfSome, IsNone, OnOk};
ghost use Rattle.ocfl_tree.specs.Place.{Place as ModelPlace};
ghost use Rattle.ocfl_report.specs.Text.{place_text};
ghost use Rattle.ocfl_compare.specs.Listed.{IsList, IsObjectPlace, ListStopsRightly, path_in};
ghost use Rattle.ocfl_compare.specs.Listed.{is_trimmed, path_of, trimmed};

use ocfl_report::{InputStop, TextStop, read_next_line, read_place};
use ocfl_tree::Place;
use std::alloc::Global;
use std::io::BufRead;
use thiserror::Error;

/// The most lines that a list may have.
const MAX_LINES: u64 = 10_000_000;

/// Why no list was read.
#[derive(Clone, Copy, Debug, PartialEq, Eq, Error)]
pub enum ListStop {
    /// The first line, counted from 1, whose path no object can have.
    #[error("bad list: line {0}")]
    Line(u64),
    /// It has more than 10,000,000 lines.
    #[error("bad list: too long")]
    Long,
    /// The reader failed.
    #[error("list failed")]
    Failed,
    /// Memory was refused.
    #[error("out of memory")]
    Memory,
}

/// Reads a list of objects: a path a line, written as in report lines, in any order. Slashes at the
/// end of a line do not count. Empty lines and those that begin with `#` have no path, and the last
/// line need not end in a line feed. All bytes of the reader are read, and the places are in
/// memory.
pub fn read_list<R: BufRead>(alloc: Global, list: &mut R) -> Result<Vec<Place>, ListStop>
    ensures list { IfOk result (λ places. IfSome (R.remaining list.old) (λ bytes.
        IsList bytes places.items)) }
    ensures refused { IfErr result (λ stop. IfSome (R.remaining list.old) (λ bytes.
        ListStopsRightly bytes stop)) }
{
    let mut places = Vec::new(alloc);
    let mut text = Vec::new(alloc);
    for number in 1..MAX_LINES + 2 {
        match read_next_line(list, &mut text) {
            Ok(true) => take_path(alloc, number, text.as_slice(), &mut places)?,
            Ok(false) => return Ok(places),
            Err(InputStop::Memory) => return Err(ListStop::Memory),
            Err(InputStop::Failed) => return Err(ListStop::Failed),
        }
    }
    Err(ListStop::Long)
}

/// Appends the place of a line, if it has a path.
fn take_path(
    alloc: Global,
    number: u64,
    line: &[u8],
    places: &mut Vec<Place>,
) -> Result<(), ListStop>
    ensures ok { OnOk result ((more : List ModelPlace) × (All IsObjectPlace more
        × ((places.new.items ≡ places.old.items ++ more)
        × (path_in line.now ≡ map place_text more)))) }
    ensures bad { IfErr result (λ stop. (n : ℕ) → stop ≡ ListStop.Line n → (n ≡ number)
        × ((path_in line.now ≢ []) × ((p : ModelPlace) → IsObjectPlace p
        → path_in line.now ≢ place_text p ∷ []))) }
    ensures short { IfErr result (λ stop. stop ≢ ListStop.Long) }
{
    let path = trim(line);
    if !is_path(path) {
        return Ok(());
    }
    let place = match read_place(alloc, path) {
        Ok(place) => place,
        Err(TextStop::Bad) => return Err(ListStop::Line(number)),
        Err(TextStop::Memory) => return Err(ListStop::Memory),
    };
    if place.depth() == 0 {
        return Err(ListStop::Line(number));
    }
    match places.push(place) {
        Ok(()) => Ok(()),
        Err(_) => Err(ListStop::Memory),
    }
}

/// Whether a line is neither empty nor a comment.
fn is_path(line: &[u8]) -> bool
    ensures yes { result ≡ true → path_of line.now ≡ line.now ∷ [] }
    ensures no { result ≡ false → path_of line.now ≡ [] }
{
    match line.first() {
        Some(first) => *first != b'#',
        None => false,
    }
}

/// The line without slashes and line feeds at its end.
fn trim(line: &[u8]) -> &[u8]
    ensures { result.now ≡ trimmed line.now }
{
    let mut rest = line;
    while let Some(shorter) = trim_one(rest) {
        rest = shorter;
    }
    rest
}

/// The line without its last byte, if that is a slash or a line feed.
fn trim_one(line: &[u8]) -> Option<&[u8]>
    ensures some { IfSome result (λ rest. trimmed line.now ≡ trimmed rest.now) }
    ensures shorter { IfSome result (λ rest. length rest.now < length line.now) }
    ensures none { IsNone result → trimmed line.now ≡ line.now }
{
    match line.split_last() {
        Some((last, rest)) => without(line, *last, rest),
        None => None,
    }
}

/// The rest of a line before its last byte, if that is a slash or a line feed.
fn without<'a>(line: &[u8], last: u8, rest: &'a [u8]) -> Option<&'a [u8]>
    requires whole { line.now ≡ rest.now ++ last ∷ [] }
    ensures some { IfSome result (λ rest. trimmed line.now ≡ trimmed rest.now) }
    ensures shorter { IfSome result (λ rest. length rest.now < length line.now) }
    ensures none { IsNone result → trimmed line.now ≡ line.now }
{
    let _ = line;
    if is_end(last) { Some(rest) } else { None }
}

fn is_end(byte: u8) -> bool
    ensures { result ≡ is_trimmed byte }
{
    byte == b'/' || byte == b'\n'
}
