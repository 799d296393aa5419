//! What sees the lines of two reports, and takes the changes between them.
ghost use Rattle.std.specs.Prelude.{◌≡◌, List, [], ◌∷◌, ◌++◌, OnOk};
ghost use Rattle.std.proofs.Common.{sym, append-nil};
ghost use Rattle.ocfl_report.specs.Line.{line_of};
ghost use Rattle.ocfl_compare.specs.Changes.{change_at};
ghost use Rattle.ocfl_compare.specs.Seen.{Seen, change as seen_change, changes_in, line as line_seen};
ghost use Rattle.ocfl_compare.specs.Internal.Seeing.{changes_joined};

use crate::change::{Change, ChangeAt};
use crate::side::Side;
use ocfl_report::Line;
use ocfl_tree::Place;
use std::alloc::AllocError;

/// Why a change was not taken: an output failed, or memory was refused.
#[derive(Clone, Copy, Debug, PartialEq, Eq)]
pub enum TakeStop {
    Failed,
    Memory,
}

impl From<AllocError> for TakeStop {
    fn from(_error: AllocError) -> TakeStop {
        TakeStop::Memory
    }
}

/// What sees lines and takes changes, one after the other. Of each place it sees the lines first:
/// those of the report before, then those of this one.
pub trait TakeChange {
    /// How it stands before and after it saw these lines and took these changes, and no others.
    ghost takes: { Self → List Seen → Self → Type 0 };

    /// Sees the next line of a report. No change is taken by that.
    fn see(&mut self, side: Side, line: &Line) -> Result<(), TakeStop>
        ensures { OnOk result (takes self.old (line_seen side (line_of line.now) ∷ []) self.new) };

    /// Takes a change at a place. After an error it is not known whether it did.
    fn take(&mut self, place: &Place, change: Change) -> Result<(), TakeStop>
        ensures { OnOk result
            (takes self.old (seen_change (change_at place.now change) ∷ []) self.new) };

    /// It stays as it is when it takes nothing.
    ghost nothing: { (t : Self) → takes t [] t };

    /// What it takes first and what it takes then is what it takes of both.
    ghost joined: { (t u v : Self) (first then : List Seen)
        → takes t first u → takes u then v → takes t (first ++ then) v };
}

/// A list of changes takes them at its end.
impl TakeChange for Vec<ChangeAt> {
    ghost takes = { λ old seen new. new.items ≡ old.items ++ changes_in seen };

    fn see(&mut self, _side: Side, _line: &Line) -> Result<(), TakeStop> {
        Ok(())
    }

    fn take(&mut self, place: &Place, change: Change) -> Result<(), TakeStop> {
        let place = place.try_clone()?;
        match self.push(ChangeAt { place, change }) {
            Ok(()) => Ok(()),
            Err(_) => Err(TakeStop::Memory),
        }
    }

    ghost nothing = { λ t. sym (append-nil t.items) };

    ghost joined = { λ t u v first then p q. changes_joined t.items u.items v.items first then p q };
}
