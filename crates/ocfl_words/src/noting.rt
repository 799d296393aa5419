//! The changes of a closed cycle as they come, and the lines that are shown of them.
ghost use Rattle.std.specs.Prelude.{◌≡◌, ◌++◌, List, [], ◌∷◌, IfOk, OnOk, map};
ghost use Rattle.std.specs.Option.{option_map};
ghost use Rattle.ocfl_tree.specs.Place.{Place as ModelPlace};
ghost use Rattle.ocfl_report.specs.Line.{line_of};
ghost use Rattle.ocfl_compare.specs.Changes.{change_at};
ghost use Rattle.ocfl_compare.specs.declared.side.Side.TheVariants.{Now};
ghost use Rattle.ocfl_words.specs.Counted.{AreCounted, counted};
ghost use Rattle.ocfl_words.specs.Kept.{kept_by, kept_seen, none_kept};
ghost use Rattle.ocfl_words.specs.Held.{HasFound, AreHeld, Held, held_noted, held_seen, held_with};
ghost use Rattle.ocfl_words.specs.Held.{none_held};
ghost use Rattle.ocfl_words.specs.Noted.{Noted, is_known_in, noted, noted_in};

use crate::changes::{Changes, is_new};
use crate::compared::ComparedLines;
use crate::findings::Findings;
use crate::keeping::{keep_first, knows, line_of_change};
use ocfl_compare::{Change, Side};
use ocfl_messages::Known;
use ocfl_report::Line;
use ocfl_tree::Place;
use std::alloc::{AllocError, Global};
use std::mem;

/// What came of one comparison.
#[derive(Drop)]
pub struct Part {
    pub changes: Changes,
    pub found: Findings,
}

impl Part {
    /// Nothing.
    pub fn new(alloc: Global) -> Part
        ensures changes { AreCounted result.changes (counted []) }
        ensures found { HasFound result.found none_held }
    {
        Part {
            changes: Changes::new(alloc),
            found: Findings::new(alloc),
        }
    }
}

/// Notes the changes of a closed cycle as they come.
pub struct Noting<'k> {
    alloc: Global,
    /// New findings that are known do not count.
    known: &'k Known,
    /// The findings that were said before.
    said: &'k [Line],
    /// The first finding of each code that the report before has at its last place with one.
    last_before: Vec<Line>,
    /// The same of this report.
    last_now: Vec<Line>,
    /// The lines of this report.
    lines: ComparedLines,
    changes: Changes,
}

/// Written by hand, so that to let it go is one call wherever that happens.
impl Drop for Noting<'_> {
    fn drop(self) {
        let Noting {
            alloc: _alloc,
            known: _known,
            said: _said,
            last_before: _last_before,
            last_now: _last_now,
            lines: _lines,
            changes: _changes,
        } = self;
    }
}

impl<'k> Noting<'k> {
    /// With no change yet. `said` are the findings that were said before.
    pub fn new(alloc: Global, known: &'k Known, said: &'k [Line]) -> Noting<'k>
        ensures known { result.known.now ≡ known.now }
        ensures said { result.said.now ≡ said.now }
        ensures kept { kept_by result ≡ none_kept }
        ensures changes { AreCounted result.changes (counted []) }
        ensures lines { AreHeld result.lines none_held }
    {
        Noting {
            alloc,
            known,
            said,
            last_before: Vec::new(alloc),
            last_now: Vec::new(alloc),
            lines: ComparedLines::new(alloc),
            changes: Changes::new(alloc),
        }
    }

    /// Ends a comparison, and gives what came of it. It is not used again if memory runs out.
    pub fn take_part(&mut self) -> Result<Part, AllocError>
        ensures known { self.new.known.now ≡ self.old.known.now }
        ensures said { self.new.said.now ≡ self.old.said.now }
        ensures kept { kept_by self.new ≡ none_kept }
        ensures changes { IfOk result (λ part. part.changes ≡ self.old.changes) }
        ensures found { IfOk result (λ part. (h : Held) → AreHeld self.old.lines h
            → HasFound part.found h) }
        ensures none { AreCounted self.new.changes (counted []) }
        ensures no_lines { AreHeld self.new.lines none_held }
    {
        self.last_before.clear();
        self.last_now.clear();
        let changes = mem::replace(&mut self.changes, Changes::new(self.alloc));
        let lines = mem::replace(&mut self.lines, ComparedLines::new(self.alloc));
        Ok(Part {
            changes,
            found: lines.into_found(self.alloc)?,
        })
    }

    /// Sees the next line of a report. It is not used again if memory runs out.
    pub fn see(&mut self, side: Side, line: &Line) -> Result<(), AllocError>
        ensures known { self.new.known.now ≡ self.old.known.now }
        ensures said { self.new.said.now ≡ self.old.said.now }
        ensures kept { OnOk result
            (kept_by self.new ≡ kept_seen (kept_by self.old) side (line_of line.now)) }
        ensures changes { self.new.changes ≡ self.old.changes }
        ensures lines { OnOk result ((h : Held) → AreHeld self.old.lines h
            → AreHeld self.new.lines (held_seen h side (line_of line.now))) }
    {
        match side {
            Side::Before => keep_first(&mut self.last_before, line),
            Side::Now => self.see_now(line),
        }
    }

    /// Sees the next line of this report.
    fn see_now(&mut self, line: &Line) -> Result<(), AllocError>
        ensures known { self.new.known.now ≡ self.old.known.now }
        ensures said { self.new.said.now ≡ self.old.said.now }
        ensures kept { OnOk result
            (kept_by self.new ≡ kept_seen (kept_by self.old) Now (line_of line.now)) }
        ensures changes { self.new.changes ≡ self.old.changes }
        ensures lines { OnOk result ((h : Held) → AreHeld self.old.lines h
            → AreHeld self.new.lines (held_with h (line_of line.now))) }
    {
        keep_first(&mut self.last_now, line)?;
        self.lines.take(self.alloc, line)
    }

    /// Notes a change. Gives whether it is a finding that is new and known: the list names the
    /// first line of its code that was seen of this report at the place.
    pub fn note(&mut self, place: &Place, change: Change) -> Result<bool, AllocError>
        ensures value { IfOk result (λ is. is ≡ is_known_in self.old.known.now
            (kept_by self.old).now (change_at place.now change)) }
        ensures known { self.new.known.now ≡ self.old.known.now }
        ensures said { self.new.said.now ≡ self.old.said.now }
        ensures kept { kept_by self.new ≡ kept_by self.old }
        ensures counted { OnOk result ((ns : List Noted) → AreCounted self.old.changes (counted ns)
            → AreCounted self.new.changes (counted (ns ++ noted_in self.old.known.now
            (kept_by self.old).before (kept_by self.old).now (change_at place.now change) ∷ []))) }
        ensures lines { OnOk result ((h : Held) → AreHeld self.old.lines h
            → AreHeld self.new.lines (held_noted (map line_of self.old.said.now) h
            (noted_in self.old.known.now (kept_by self.old).before (kept_by self.old).now
            (change_at place.now change)))) }
    {
        let line = line_of_change(&self.last_before, &self.last_now, place, change);
        let is_known = knows(self.known, change, line);
        self.changes.add(place, change, line, is_known)?;
        name_new(&mut self.lines, self.said, change, line, is_known);
        Ok(is_known)
    }
}

/// Names the line of a change among these lines, if it is a finding that is new and not known.
fn name_new(
    lines: &mut ComparedLines,
    said: &[Line],
    change: Change,
    line: Option<&Line>,
    is_known: bool,
)
    ensures { (h : Held) (at : ModelPlace) → AreHeld lines.old h
        → AreHeld lines.new (held_noted (map line_of said.now) h (noted (change_at at change)
        (option_map (λ l. line_of l.now) line.entry) is_known)) }
{
    if !is_new(change, is_known) {
        return;
    }
    if let Some(line) = line {
        lines.name(said, line);
    }
}
