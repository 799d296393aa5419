//! How much changed, and the first of it.
ghost use Rattle.std.specs.Prelude.{◌≡◌, ◌+◌, ◌++◌, ℕ, List, [], ◌∷◌, if◌then◌else◌};
ghost use Rattle.std.specs.{Option.{option_map}, Prelude.{IfOk, OnOk, Option}};
ghost use Rattle.ocfl_tree.specs.Place.{Place as ModelPlace};
ghost use Rattle.ocfl_report.specs.Line.{Line as ModelLine, line_of};
ghost use Rattle.ocfl_compare.specs.Changes.{change_at};
ghost use Rattle.ocfl_messages.specs.Tally.{IsCount};
ghost use Rattle.ocfl_words.specs.Counted.{Counted, counted, expected_kind};
ghost use Rattle.ocfl_words.specs.Counted.{file_kind, gone_in, is_known_finding, is_new_finding};
ghost use Rattle.ocfl_words.specs.Counted.{is_back as is_back_change, is_newer as is_newer_change};
ghost use Rattle.ocfl_words.specs.Counted.{is_rewritten as is_rewritten_change};
ghost use Rattle.ocfl_words.specs.Counted.{is_repaired as is_repaired_change};
ghost use Rattle.ocfl_words.specs.Counted.{is_unlooked as is_unlooked_change, joined};
ghost use Rattle.ocfl_words.specs.Counted.{object_kind, shown_of};
ghost use Rattle.ocfl_words.specs.Noted.{Noted, noted};

use crate::missing::{Missing, add_count};
use crate::repaired::keep_repaired;
use ocfl_compare::Change;
use ocfl_messages::{Gone, GoneKind, Moved};
use ocfl_report::Line;
use ocfl_tree::Place;
use std::alloc::{AllocError, Global};

/// How much changed, and the first of what is gone.
pub struct Changes {
    /// How many findings are new and not known.
    pub appeared_count: u64,
    /// How many findings are new and known.
    pub known_count: u64,
    pub repaired_count: u64,
    /// The first of what is repaired, as the report before has it: in the order of places, and the
    /// most serious of a place first.
    pub repaired: Vec<Line>,
    /// Objects that have no line of an object any more.
    pub objects: Missing,
    /// Files that have no line any more, of objects that are looked at.
    pub files: Missing,
    /// Objects of a list that have no line.
    pub expected: Missing,
    /// How many files are not looked at any more: their object is gone, or its head stops now.
    pub unlooked: u64,
    /// How many root inventories are others.
    pub moved: Moved,
}

/// Written by hand, so that to let it go is one call wherever that happens.
impl Drop for Changes {
    fn drop(self) {
        let Changes {
            appeared_count: _appeared_count,
            known_count: _known_count,
            repaired_count: _repaired_count,
            repaired: _repaired,
            objects: _objects,
            files: _files,
            expected: _expected,
            unlooked: _unlooked,
            moved: _moved,
        } = self;
    }
}

impl Changes {
    ghost use Rattle.ocfl_words.specs.Counted.{AreCounted};

    /// None.
    pub fn new(alloc: Global) -> Changes
        ensures { AreCounted result (counted []) }
    {
        Changes {
            appeared_count: 0,
            known_count: 0,
            repaired_count: 0,
            repaired: Vec::new(alloc),
            objects: Missing::new(alloc),
            files: Missing::new(alloc),
            expected: Missing::new(alloc),
            unlooked: 0,
            moved: Moved {
                rewritten: 0,
                went_back: 0,
                newer: 0,
            },
        }
    }

    /// How many objects and files are gone.
    pub fn gone_count(&self) -> u64
        ensures { (w : Counted) → AreCounted self.now w → IsCount result (gone_in w) }
    {
        let looked_at = add_count(self.objects.count, self.files.count);
        add_count(looked_at, self.expected.count)
    }

    /// The first of what is gone: objects before files.
    pub fn gone(&self, alloc: Global) -> Result<Vec<Gone>, AllocError>
        ensures { IfOk result (λ gone. (w : Counted) → AreCounted self.now w
            → gone.items ≡ shown_of w) }
    {
        let mut gone = Vec::new(alloc);
        put_copies(&self.objects.first, &mut gone)?;
        put_copies(&self.expected.first, &mut gone)?;
        put_copies(&self.files.first, &mut gone)?;
        Ok(gone)
    }

    /// Takes those of another comparison of the same report, of other places, too.
    pub fn join(&mut self, other: &mut Changes) -> Result<(), AllocError>
        ensures { OnOk result ((v w : Counted) → AreCounted self.old v → AreCounted other.old w
            → AreCounted self.new (joined v w)) }
    {
        self.appeared_count = add_count(self.appeared_count, other.appeared_count);
        self.known_count = add_count(self.known_count, other.known_count);
        self.repaired_count = add_count(self.repaired_count, other.repaired_count);
        self.unlooked = add_count(self.unlooked, other.unlooked);
        self.moved = sum_of(self.moved, other.moved);
        self.repaired.append(&mut other.repaired)?;
        self.objects.join(&mut other.objects)?;
        self.files.join(&mut other.files)?;
        self.expected.join(&mut other.expected)
    }

    /// Takes one more: a change at a place, the line that it is of, and whether it is a finding
    /// that is known.
    pub(crate) fn add(
        &mut self,
        place: &Place,
        change: Change,
        line: Option<&Line>,
        is_known: bool,
    ) -> Result<(), AllocError>
        ensures { OnOk result ((ns : List Noted) → AreCounted self.old (counted ns)
            → AreCounted self.new (counted (ns ++ noted (change_at place.now change)
            (option_map (λ l. line_of l.now) line.entry) is_known ∷ []))) }
    {
        self.objects.add_if(object_kind_of(change), place)?;
        self.files.add_if(file_kind_of(change), place)?;
        self.expected.add_if(expected_kind_of(change), place)?;
        let unlooked = one_if(is_unlooked(change));
        self.unlooked = add_count(self.unlooked, unlooked);
        let repaired = one_if(is_repaired(change));
        self.repaired_count = add_count(self.repaired_count, repaired);
        let appeared = one_if(is_new(change, is_known));
        self.appeared_count = add_count(self.appeared_count, appeared);
        let known = one_if(is_new_and_known(change, is_known));
        self.known_count = add_count(self.known_count, known);
        self.moved = sum_of(self.moved, moved_by(change));
        keep_repaired(&mut self.repaired, is_repaired(change), line)?;
        Ok(())
    }
}

/// Appends the same rows.
fn put_copies(rows: &[Gone], copies: &mut Vec<Gone>) -> Result<(), AllocError>
    ensures { OnOk result (copies.new.items ≡ copies.old.items ++ rows.now) }
{
    for row in rows {
        copies.push(Gone {
            kind: row.kind,
            place: row.place.try_clone()?,
        })?;
    }
    Ok(())
}

/// The sums of two counts, as far as they fit.
fn sum_of(one: Moved, other: Moved) -> Moved
    ensures rewritten { (m k : ℕ) → IsCount one.rewritten m → IsCount other.rewritten k
        → IsCount result.rewritten (m + k) }
    ensures went_back { (m k : ℕ) → IsCount one.went_back m → IsCount other.went_back k
        → IsCount result.went_back (m + k) }
    ensures newer { (m k : ℕ) → IsCount one.newer m → IsCount other.newer k
        → IsCount result.newer (m + k) }
{
    Moved {
        rewritten: add_count(one.rewritten, other.rewritten),
        went_back: add_count(one.went_back, other.went_back),
        newer: add_count(one.newer, other.newer),
    }
}

fn is_rewritten(change: Change) -> bool
    ensures { result ≡ is_rewritten_change change }
{
    matches!(change, Change::Rewritten)
}

fn is_back(change: Change) -> bool
    ensures { result ≡ is_back_change change }
{
    matches!(change, Change::WentBack)
}

fn is_newer(change: Change) -> bool
    ensures { result ≡ is_newer_change change }
{
    matches!(change, Change::NewVersion)
}

/// What a change counts of root inventories that are others.
fn moved_by(change: Change) -> Moved
    ensures rewritten { result.rewritten ≡ (if is_rewritten_change change then 1 else 0) }
    ensures went_back { result.went_back ≡ (if is_back_change change then 1 else 0) }
    ensures newer { result.newer ≡ (if is_newer_change change then 1 else 0) }
{
    Moved {
        rewritten: one_if(is_rewritten(change)),
        went_back: one_if(is_back(change)),
        newer: one_if(is_newer(change)),
    }
}

/// One, if something counts.
pub(crate) fn one_if(counts: bool) -> u64
    ensures { result ≡ (if counts then 1 else 0) }
{
    if counts { 1 } else { 0 }
}

fn object_kind_of(change: Change) -> Option<GoneKind>
    ensures { result ≡ object_kind change }
{
    match change {
        Change::Gone => Some(GoneKind::Object),
        Change::Undeclared => Some(GoneKind::Undeclared),
        Change::FileGone
        | Change::Unlooked
        | Change::Found(_)
        | Change::Repaired(_)
        | Change::Missing
        | Change::Rewritten
        | Change::WentBack
        | Change::NewVersion => None,
    }
}

fn file_kind_of(change: Change) -> Option<GoneKind>
    ensures { result ≡ file_kind change }
{
    match change {
        Change::FileGone => Some(GoneKind::File),
        Change::Gone
        | Change::Undeclared
        | Change::Unlooked
        | Change::Found(_)
        | Change::Repaired(_)
        | Change::Missing
        | Change::Rewritten
        | Change::WentBack
        | Change::NewVersion => None,
    }
}

fn expected_kind_of(change: Change) -> Option<GoneKind>
    ensures { result ≡ expected_kind change }
{
    match change {
        Change::Missing => Some(GoneKind::Expected),
        Change::Gone
        | Change::Undeclared
        | Change::FileGone
        | Change::Unlooked
        | Change::Found(_)
        | Change::Repaired(_)
        | Change::Rewritten
        | Change::WentBack
        | Change::NewVersion => None,
    }
}

fn is_unlooked(change: Change) -> bool
    ensures { result ≡ is_unlooked_change change }
{
    match change {
        Change::Unlooked => true,
        Change::Gone
        | Change::Undeclared
        | Change::FileGone
        | Change::Found(_)
        | Change::Repaired(_)
        | Change::Missing
        | Change::Rewritten
        | Change::WentBack
        | Change::NewVersion => false,
    }
}

fn is_repaired(change: Change) -> bool
    ensures { result ≡ is_repaired_change change }
{
    match change {
        Change::Repaired(_) => true,
        Change::Gone
        | Change::Undeclared
        | Change::FileGone
        | Change::Unlooked
        | Change::Found(_)
        | Change::Missing
        | Change::Rewritten
        | Change::WentBack
        | Change::NewVersion => false,
    }
}

/// Whether a change is a finding that is new and not known.
pub(crate) fn is_new(change: Change, is_known: bool) -> bool
    ensures { (p : ModelPlace) (line : Option ModelLine)
        → result ≡ is_new_finding (noted (change_at p change) line is_known) }
{
    match change {
        Change::Found(_) => !is_known,
        Change::Gone
        | Change::Undeclared
        | Change::FileGone
        | Change::Unlooked
        | Change::Repaired(_)
        | Change::Missing
        | Change::Rewritten
        | Change::WentBack
        | Change::NewVersion => false,
    }
}

/// Whether a change is a finding that is new and known.
fn is_new_and_known(change: Change, is_known: bool) -> bool
    ensures { (p : ModelPlace) (line : Option ModelLine)
        → result ≡ is_known_finding (noted (change_at p change) line is_known) }
{
    match change {
        Change::Found(_) => is_known,
        Change::Gone
        | Change::Undeclared
        | Change::FileGone
        | Change::Unlooked
        | Change::Repaired(_)
        | Change::Missing
        | Change::Rewritten
        | Change::WentBack
        | Change::NewVersion => false,
    }
}
