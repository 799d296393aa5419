//! Reading lists of what is gone.
ghost use Rattle.std.specs.Prelude.{◌≡◌, ◌≢◌, ◌++◌, ◌∷◌, [], IfOk, IfSome, IsNone, OnOk, List};
ghost use Rattle.std.specs.Prelude.{Err, Some, false, take, true};
ghost use Rattle.std.specs.Io.{BufRead.{take_through}, KnownBytes.{Consumes, IsAtEnd}};
ghost use Rattle.ocfl_tree.specs.{Name.{IsPlace}, Place.{Place as ModelPlace, Text}};
ghost use Rattle.ocfl_compare.specs.Gone.{gone_row, gone_word};
ghost use Rattle.ocfl_compare.specs.declared.change.Change.{Change as ModelChange};
ghost use Rattle.ocfl_compare.specs.declared.change.ChangeAt.{ChangeAt as ModelChangeAt};
ghost use Rattle.ocfl_closed.specs.Back.{AreLost, IsNoList, IsRowOf, lost_object, most_objects};

use ocfl_compare::{Change, ChangeAt};
use ocfl_report::{TextStop, read_place, split_once};
use ocfl_tree::Place;
use ocfl_words::error_of;
use std::alloc::{AllocError, Global};
use std::io::{self, BufRead, ErrorKind};

/// How many objects are looked for at most.
const MOST: usize = 1_000_000;

/// Why the rows of a list were not taken.
#[derive(Drop)]
pub(crate) enum RowsStop {
    /// They are those of no list: one of them is no row.
    Bad,
    /// They were not read, or memory was refused.
    Failed(io::Error),
}

/// What a word of a list says. `None` for a word that no list has.
fn change_of(word: &[u8]) -> Option<Change>
    ensures some { IfSome result (λ change. gone_word change ≡ word.now ∷ []) }
    ensures none { IsNone result → (change : ModelChange) → gone_word change ≢ word.now ∷ [] }
{
    if word == b"object".as_slice() {
        Some(Change::Gone)
    } else if word == b"undeclared".as_slice() {
        Some(Change::Undeclared)
    } else if word == b"file".as_slice() {
        Some(Change::FileGone)
    } else if word == b"expected".as_slice() {
        Some(Change::Missing)
    } else if word == b"changed".as_slice() {
        Some(Change::Rewritten)
    } else if word == b"older".as_slice() {
        Some(Change::WentBack)
    } else if word == b"newer".as_slice() {
        Some(Change::NewVersion)
    } else {
        None
    }
}

/// What comes before the line feed at the end of a row.
fn without_end(row: &[u8]) -> Option<&[u8]>
    ensures some { IfSome result (λ rest. row.now ≡ rest.now ++ 10 ∷ []) }
    ensures none { IsNone result → (rest : Text) → row.now ≢ rest ++ 10 ∷ [] }
{
    match row.split_last() {
        Some((b'\n', rest)) => Some(rest),
        _ => None,
    }
}

/// The change of which this is the row, with its line feed. [`TextStop::Bad`] if it is the row of
/// none.
fn read_row(alloc: Global, row: &[u8]) -> Result<ChangeAt, TextStop>
    ensures row { IfOk result (λ at. row.now ≡ gone_row at) }
    ensures place { IfOk result (λ at. IsPlace at.place) }
    ensures bad { result ≡ Err TextStop.Bad → (at : ModelChangeAt) → IsRowOf row.now at → ⊥ }
{
    let Some((word, rest)) = split_once(row, b'\t') else {
        return Err(TextStop::Bad);
    };
    let Some(change) = change_of(word) else {
        return Err(TextStop::Bad);
    };
    let Some(path) = without_end(rest) else {
        return Err(TextStop::Bad);
    };
    Ok(ChangeAt {
        place: read_place(alloc, path)?,
        change,
    })
}

/// Keeps a place, if there are not too many of them.
fn keep(place: Place, places: &mut Vec<Place>) -> Result<(), AllocError>
    ensures { OnOk result ((all : List ModelPlace)
        → places.old.items ≡ take most_objects all
        → places.new.items ≡ take most_objects (all ++ place ∷ [])) }
{
    if places.len() < MOST {
        places.push(place)?;
    }
    Ok(())
}

/// Keeps the place of an object that is gone or no longer declared.
fn keep_lost(at: ChangeAt, places: &mut Vec<Place>) -> Result<(), AllocError>
    ensures { OnOk result ((all : List ModelPlace)
        → places.old.items ≡ take most_objects all
        → places.new.items ≡ take most_objects (all ++ lost_object at)) }
{
    let ChangeAt { place, change } = at;
    match change {
        Change::Gone | Change::Undeclared => keep(place, places),
        Change::FileGone
        | Change::Unlooked
        | Change::Found(_)
        | Change::Repaired(_)
        | Change::Missing
        | Change::Rewritten
        | Change::WentBack
        | Change::NewVersion => Ok(()),
    }
}

/// Takes a row, with its line feed, and keeps the place of an object that it calls gone or no
/// longer declared.
fn take_row(alloc: Global, row: &[u8], places: &mut Vec<Place>) -> Result<(), RowsStop>
    ensures taken { OnOk result ((at : ModelChangeAt) × (IsPlace at.place
        × ((row.now ≡ gone_row at) × ((all : List ModelPlace)
        → places.old.items ≡ take most_objects all
        → places.new.items ≡ take most_objects (all ++ lost_object at))))) }
    ensures bad { result ≡ Err RowsStop.Bad → (at : ModelChangeAt) → IsRowOf row.now at → ⊥ }
{
    match read_row(alloc, row) {
        Ok(at) => match keep_lost(at, places) {
            Ok(()) => Ok(()),
            Err(error) => Err(RowsStop::Failed(io::Error::from(error))),
        },
        Err(TextStop::Bad) => Err(RowsStop::Bad),
        Err(stop) => Err(RowsStop::Failed(error_of(stop))),
    }
}

/// Reads the next row with its line feed, or whatever is left, in place of what `row` had. Gives
/// false at the end.
fn read_next<R: BufRead>(list: &mut R, row: &mut Vec<u8>) -> Result<bool, RowsStop>
    ensures row { OnOk result (IfSome (R.remaining list.old)
        (λ bytes. row.new.items ≡ take_through 10 bytes)) }
    ensures rest { Consumes (R.remaining list.old) (R.remaining list.new) row.new.items }
    ensures more { IfOk result (λ more. more ≡ true → row.new.items ≢ []) }
    ensures end { IfOk result (λ more. more ≡ false → IsAtEnd (R.remaining list.old)) }
    ensures failed { result ≢ Err RowsStop.Bad }
{
    row.clear();
    match list.read_until(b'\n', row) {
        Ok(count) => Ok(count > 0),
        Err(error) => Err(RowsStop::Failed(error)),
    }
}

/// Takes the objects that a list of what is gone calls gone or no longer declared, as long as there
/// are not too many of them. [`RowsStop::Bad`] only if it is no such list.
pub(crate) fn take_rows<R: BufRead>(
    alloc: Global,
    list: &mut R,
    places: &mut Vec<Place>,
) -> Result<(), RowsStop>
    ensures taken { OnOk result (IfSome (R.remaining list.old) (λ bytes. (more : List ModelPlace)
        × (AreLost (Some bytes) more × ((all : List ModelPlace)
        → places.old.items ≡ take most_objects all
        → places.new.items ≡ take most_objects (all ++ more))))) }
    ensures bad { result ≡ Err RowsStop.Bad → IfSome (R.remaining list.old) IsNoList }
{
    let mut row = Vec::new(alloc);
    for _ in 0..u64::MAX {
        if !read_next(list, &mut row)? {
            return Ok(());
        }
        take_row(alloc, row.as_slice(), places)?;
    }
    Err(RowsStop::Failed(io::Error::from(ErrorKind::FileTooLarge)))
}
