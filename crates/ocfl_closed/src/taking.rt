//! Taking the changes of a closed cycle.
ghost use Rattle.std.specs.Prelude.{◌≡◌, ◌||◌, Option};
ghost use Rattle.ocfl_report.specs.Line.{Line as ModelLine};
ghost use Rattle.ocfl_compare.specs.Changes.{change_at};
ghost use Rattle.ocfl_words.specs.{Counted.{is_news as is_news_by}, Noted.{noted}};
ghost use Rattle.ocfl_closed.specs.Taken.{HasTaken};
ghost use Rattle.ocfl_closed.specs.Internal.{Stands.{stand_of}, Takes.{takes_none, takes_then}};
ghost use Rattle.ocfl_tree.specs.Place.{Place as ModelPlace};

use crate::words::Words;
use ocfl_compare::{Change, GoneList, Side, TakeChange, TakeStop};
use ocfl_report::Line;
use ocfl_tree::Place;
use std::io::Write;

/// Takes changes: writes a row for each that makes something gone, counts and notes each, and notes
/// whether one is new or gone.
#[derive(Drop)]
pub(crate) struct Taking<'n, L: Write + Drop> {
    pub(crate) list: GoneList<L>,
    pub(crate) words: Words<'n>,
    pub(crate) is_grave: bool,
}

impl<L: Write + Drop> TakeChange for Taking<'_, L> {
    ghost takes = { λ old seen new. HasTaken
        (stand_of (L.contents old.list.out) old.words old.is_grave) seen
        (stand_of (L.contents new.list.out) new.words new.is_grave) };

    fn see(&mut self, side: Side, line: &Line) -> Result<(), TakeStop> {
        self.words.see(side, line)?;
        Ok(())
    }

    fn take(&mut self, place: &Place, change: Change) -> Result<(), TakeStop> {
        self.list.take(place, change)?;
        let is_known = self.words.take(place, change)?;
        self.is_grave = either(self.is_grave, is_news(change, is_known));
        Ok(())
    }

    ghost nothing = { λ t. takes_none (stand_of (L.contents t.list.out) t.words t.is_grave) };

    ghost joined = { λ t u v first then p q. takes_then
        (stand_of (L.contents t.list.out) t.words t.is_grave)
        (stand_of (L.contents u.list.out) u.words u.is_grave)
        (stand_of (L.contents v.list.out) v.words v.is_grave) first then p q };
}

/// Whether something is gone by a change, a finding is new that is not known, or a root inventory
/// is another one without a newer version.
fn is_news(change: Change, is_known: bool) -> bool
    ensures { (p : ModelPlace) (line : Option ModelLine)
        → result ≡ is_news_by (noted (change_at p change) line is_known) }
{
    match change {
        Change::Gone
        | Change::Undeclared
        | Change::FileGone
        | Change::Missing
        | Change::Rewritten
        | Change::WentBack => true,
        Change::Found(_) => !is_known,
        Change::Unlooked | Change::Repaired(_) | Change::NewVersion => false,
    }
}

fn either(one: bool, other: bool) -> bool
    ensures { result ≡ (one || other) }
{
    if one { true } else { other }
}
