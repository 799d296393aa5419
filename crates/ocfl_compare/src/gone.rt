//! The list of what is gone, and of objects whose root inventory is another one.
ghost use Rattle.std.specs.Prelude.{◌≡◌, [], ◌∷◌, ◌++◌, None, IfSome, OnOk};
ghost use Rattle.std.specs.Io.KnownBytes.{Appends};
ghost use Rattle.std.proofs.KnownBytes.{Appends-nil};
ghost use Rattle.ocfl_compare.specs.Gone.{gone_row, gone_text, gone_word};
ghost use Rattle.ocfl_compare.specs.{Internal.Seeing.{rows_joined}, Seen.{changes_in}};
ghost use Rattle.ocfl_compare.specs.Changes.{change_at};

use crate::change::Change;
use crate::side::Side;
use crate::taking::{TakeChange, TakeStop};
use ocfl_report::{Line, put_place, write_all_of};
use ocfl_tree::Place;
use std::alloc::{AllocError, Global};
use std::io::Write;

/// Writes a row for each change that makes something gone, and for each object whose root inventory
/// is another one: a word, a tab, the place as reports write it, and a line feed. The word is
/// `object`, `undeclared` for an object that is no longer declared, `file`, `expected` for an
/// object of a list, or `changed`, `older` or `newer` for an inventory of the same version, of an
/// older or of a newer one. Other changes have no row.
#[derive(Drop)]
pub struct GoneList<W: Write + Drop> {
    alloc: Global,
    pub out: W,
}

impl<W: Write + Drop> GoneList<W> {
    /// Over an output.
    pub fn new(alloc: Global, out: W) -> GoneList<W>
        ensures { result.out ≡ out }
    {
        GoneList { alloc, out }
    }
}

impl<W: Write + Drop> TakeChange for GoneList<W> {
    ghost takes = { λ old seen new.
        Appends (W.contents old.out) (W.contents new.out) (gone_text (changes_in seen)) };

    fn see(&mut self, _side: Side, _line: &Line) -> Result<(), TakeStop> {
        Ok(())
    }

    fn take(&mut self, place: &Place, change: Change) -> Result<(), TakeStop> {
        let mut row = Vec::new(self.alloc);
        put_row(place, change, &mut row)?;
        match write_all_of(&mut self.out, row.as_slice()) {
            Ok(()) => Ok(()),
            Err(_) => Err(TakeStop::Failed),
        }
    }

    ghost nothing = { λ t. Appends-nil (W.contents t.out) };

    ghost joined = { λ t u v first then p q.
        rows_joined (W.contents t.out) (W.contents u.out) (W.contents v.out) first then p q };
}

/// The word of the row of a change.
fn word_of(change: Change) -> Option<&'static str>
    ensures some { IfSome result (λ word. gone_word change ≡ word.now ∷ []) }
    ensures none { result ≡ None → gone_word change ≡ [] }
{
    match change {
        Change::Gone => Some("object"),
        Change::Undeclared => Some("undeclared"),
        Change::FileGone => Some("file"),
        Change::Missing => Some("expected"),
        Change::Rewritten => Some("changed"),
        Change::WentBack => Some("older"),
        Change::NewVersion => Some("newer"),
        Change::Unlooked | Change::Found(_) | Change::Repaired(_) => None,
    }
}

/// Appends the row of a change, if it has one.
fn put_row(place: &Place, change: Change, row: &mut Vec<u8>) -> Result<(), AllocError>
    ensures { OnOk result (row.new.items ≡ row.old.items ++ gone_row (change_at place.now change)) }
{
    let Some(word) = word_of(change) else {
        return Ok(());
    };
    row.extend_from_slice(word.as_bytes())?;
    row.push(b'\t')?;
    put_place(place, row)?;
    row.push(b'\n')?;
    Ok(())
}
