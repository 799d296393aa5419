//! Words of the changes of closed cycles.
ghost use Rattle.std.specs.Prelude.{◌≡◌, ◌++◌, List, [], ◌∷◌, IfOk, IsOkUnless, OnOk, map};
ghost use Rattle.ocfl_report.specs.Line.{line_of};
ghost use Rattle.ocfl_compare.specs.Changes.{change_at};
ghost use Rattle.ocfl_words.specs.Counted.{AreCounted, counted};
ghost use Rattle.ocfl_words.specs.Held.{HasFound, AreHeld, Held, held_noted, held_seen, none_held};
ghost use Rattle.ocfl_words.specs.Kept.{kept_by, kept_seen, none_kept};
ghost use Rattle.ocfl_words.specs.Noted.{Noted, is_known_in, noted_in};

use ocfl_accounts::ClosingStop;
use ocfl_compare::{Change, Side, TakeStop};
use ocfl_messages::Known;
use ocfl_report::Line;
use ocfl_tree::Place;
use ocfl_words::{Noting, Part};
use std::alloc::Global;

/// What the words on closed cycles are made with.
#[derive(Clone, Copy)]
pub struct SaidWith<'n> {
    /// The path of the storage root.
    pub root: &'n str,
    /// The path of the state folder.
    pub state: &'n str,
    /// Whether only a part of the storage root is read.
    pub is_part: bool,
    /// The findings that are known.
    pub known: &'n Known,
    /// The findings that were said before.
    pub said: &'n [Line],
}

/// Takes the changes of a closed cycle, to make words of them.
#[derive(Drop)]
pub(crate) struct Words<'n> {
    pub(crate) noting: Noting<'n>,
    /// What changed since the report before, and since the last whole one.
    pub(crate) since: Part,
    pub(crate) whole: Part,
    /// How many objects must be there.
    pub(crate) listed: u64,
}

impl<'n> Words<'n> {
    /// With no change yet.
    pub(crate) fn new(alloc: Global, with: &SaidWith<'n>) -> Words<'n>
        ensures known { result.noting.known.now ≡ with.entry.now.known.now }
        ensures said { result.noting.said.now ≡ with.entry.now.said.now }
        ensures kept { kept_by result.noting ≡ none_kept }
        ensures noting { AreCounted result.noting.changes (counted []) }
        ensures lines { AreHeld result.noting.lines none_held }
        ensures since { AreCounted result.since.changes (counted []) }
        ensures found { HasFound result.since.found none_held }
        ensures whole { AreCounted result.whole.changes (counted []) }
        ensures again { HasFound result.whole.found none_held }
    {
        Words {
            noting: Noting::new(alloc, with.known, with.said),
            since: Part::new(alloc),
            whole: Part::new(alloc),
            listed: 0,
        }
    }

    /// Ends the comparison with the report before.
    pub(crate) fn end_since(&mut self) -> Result<(), ClosingStop>
        ensures known { self.new.noting.known.now ≡ self.old.noting.known.now }
        ensures said { self.new.noting.said.now ≡ self.old.noting.said.now }
        ensures kept { kept_by self.new.noting ≡ none_kept }
        ensures noting { AreCounted self.new.noting.changes (counted []) }
        ensures lines { AreHeld self.new.noting.lines none_held }
        ensures since { OnOk result (self.new.since.changes ≡ self.old.noting.changes) }
        ensures found { OnOk result ((h : Held) → AreHeld self.old.noting.lines h
            → HasFound self.new.since.found h) }
        ensures whole { self.new.whole ≡ self.old.whole }
        ensures memory { IsOkUnless result ClosingStop.Memory }
    {
        self.since = part_of(&mut self.noting)?;
        Ok(())
    }

    /// Ends the comparison with the last whole report.
    pub(crate) fn end_whole(&mut self) -> Result<(), ClosingStop>
        ensures known { self.new.noting.known.now ≡ self.old.noting.known.now }
        ensures said { self.new.noting.said.now ≡ self.old.noting.said.now }
        ensures kept { kept_by self.new.noting ≡ none_kept }
        ensures noting { AreCounted self.new.noting.changes (counted []) }
        ensures lines { AreHeld self.new.noting.lines none_held }
        ensures since { self.new.since ≡ self.old.since }
        ensures whole { OnOk result (self.new.whole.changes ≡ self.old.noting.changes) }
        ensures found { OnOk result ((h : Held) → AreHeld self.old.noting.lines h
            → HasFound self.new.whole.found h) }
        ensures memory { IsOkUnless result ClosingStop.Memory }
    {
        self.whole = part_of(&mut self.noting)?;
        Ok(())
    }

    /// Sees the next line of a report.
    pub(crate) fn see(&mut self, side: Side, line: &Line) -> Result<(), TakeStop>
        ensures known { self.new.noting.known.now ≡ self.old.noting.known.now }
        ensures said { self.new.noting.said.now ≡ self.old.noting.said.now }
        ensures kept { OnOk result (kept_by self.new.noting
            ≡ kept_seen (kept_by self.old.noting) side (line_of line.now)) }
        ensures noting { self.new.noting.changes ≡ self.old.noting.changes }
        ensures lines { OnOk result ((h : Held) → AreHeld self.old.noting.lines h
            → AreHeld self.new.noting.lines (held_seen h side (line_of line.now))) }
        ensures since { self.new.since ≡ self.old.since }
        ensures whole { self.new.whole ≡ self.old.whole }
    {
        match self.noting.see(side, line) {
            Ok(()) => Ok(()),
            Err(_) => Err(TakeStop::Memory),
        }
    }

    /// Takes a change at a place. Gives whether it is a finding that is known.
    pub(crate) fn take(&mut self, place: &Place, change: Change) -> Result<bool, TakeStop>
        ensures value { IfOk result (λ is. is ≡ is_known_in self.old.noting.known.now
            (kept_by self.old.noting).now (change_at place.now change)) }
        ensures counted { OnOk result ((ns : List Noted)
            → AreCounted self.old.noting.changes (counted ns)
            → AreCounted self.new.noting.changes (counted (ns ++ noted_in
            self.old.noting.known.now (kept_by self.old.noting).before
            (kept_by self.old.noting).now (change_at place.now change) ∷ []))) }
        ensures lines { OnOk result ((h : Held) → AreHeld self.old.noting.lines h
            → AreHeld self.new.noting.lines (held_noted
            (map line_of self.old.noting.said.now) h (noted_in
            self.old.noting.known.now (kept_by self.old.noting).before
            (kept_by self.old.noting).now (change_at place.now change)))) }
        ensures known { self.new.noting.known.now ≡ self.old.noting.known.now }
        ensures said { self.new.noting.said.now ≡ self.old.noting.said.now }
        ensures kept { kept_by self.new.noting ≡ kept_by self.old.noting }
        ensures since { self.new.since ≡ self.old.since }
        ensures whole { self.new.whole ≡ self.old.whole }
    {
        match self.noting.note(place, change) {
            Ok(is_known) => Ok(is_known),
            Err(_) => Err(TakeStop::Memory),
        }
    }
}

/// What came of the comparison that is noted, which ends with that.
pub(crate) fn part_of(noting: &mut Noting<'_>) -> Result<Part, ClosingStop>
    ensures known { noting.new.known.now ≡ noting.old.known.now }
    ensures said { noting.new.said.now ≡ noting.old.said.now }
    ensures kept { kept_by noting.new ≡ none_kept }
    ensures changes { IfOk result (λ part. part.changes ≡ noting.old.changes) }
    ensures found { IfOk result (λ part. (h : Held) → AreHeld noting.old.lines h
        → HasFound part.found h) }
    ensures none { AreCounted noting.new.changes (counted []) }
    ensures no_lines { AreHeld noting.new.lines none_held }
    ensures memory { IsOkUnless result ClosingStop.Memory }
{
    match noting.take_part() {
        Ok(part) => Ok(part),
        Err(_) => Err(ClosingStop::Memory),
    }
}
