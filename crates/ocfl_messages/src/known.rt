//! Findings that are known, and that no message needs to say.
ghost use Rattle.std.specs.Prelude.{◌≡◌, ◌≤◌, true, false, length, IfOk, OnOk};
ghost use Rattle.std.specs.{List.{list_any}, List.Sorted.{IsPartitionPoint, IsPermutation, IsSorted}, Ordering.{is_lt}};
ghost use Rattle.ocfl_report.specs.Line.{line_of};
ghost use Rattle.ocfl_messages.specs.Known.{code_eq, entry_cmp, is_known as is_known_by, names, names_at, reaches};
ghost use Rattle.ocfl_tree.specs.Place.{place_cmp, place_eq};

use ocfl_report::{Code, Line};
use ocfl_tree::{Place, is_bytes, is_text};
use std::alloc::{AllocError, Global};
use std::marker::Model;

/// What an entry of a list names.
#[derive(Clone, Copy)]
pub enum Reach {
    /// The finding of a whole line, with its detail.
    One,
    /// All findings of a code at a place.
    Place,
    /// All findings of a code at a place and below it.
    Branch,
}

/// An entry of a list.
#[derive(Drop)]
pub struct KnownEntry {
    /// What it names.
    pub reach: Reach,
    /// The code and the place; the detail counts for [`Reach::One`] alone.
    pub line: Line,
}

/// A list of findings that are known. Its value in clauses: its entries, in the order of their
/// places, by which they are looked up.
#[derive(Drop)]
pub struct Known {
    entries: Vec<KnownEntry>,
}

impl Model for Known {
    ghost use Rattle.std.specs.{Prelude.{List}, List.Sorted.{IsSorted}};
    ghost use Rattle.ocfl_messages.specs.Known.{entry_cmp};
    ghost use Rattle.ocfl_messages.specs.declared.known.KnownEntry.{KnownEntry as ModelEntry};

    ghost Value = { List ModelEntry };

    ghost view = { λ a. a.entries.items };

    ghost invariant = { λ a. IsSorted entry_cmp a.entries.items };
}

impl Known {
    ghost use Rattle.std.specs.{Prelude.{[]}, List.Sorted.{IsPermutation}};
    ghost use Rattle.ocfl_report.specs.Line.{line_of as line_from};
    ghost use Rattle.ocfl_messages.specs.Known.{is_known};

    /// A list that names nothing.
    pub fn new(alloc: Global) -> Known
        ensures { result ≡ [] }
    {
        Known {
            entries: Vec::new(alloc),
        }
    }

    /// The list of these entries. The error is running out of memory.
    pub fn of(entries: Vec<KnownEntry>) -> Result<Known, AllocError>
        ensures { IfOk result (λ known. IsPermutation entries.items known) }
    {
        let mut entries = entries;
        sort(&mut entries)?;
        Ok(Known { entries })
    }

    /// How many entries it has.
    pub fn count(&self) -> usize
        ensures { result ≡ length self.now }
    {
        self.entries.len()
    }

    /// Whether an entry names the line.
    pub fn names(&self, line: &Line) -> bool
        ensures { result ≡ is_known self.now (line_from line.now) }
    {
        match look_up(&self.entries, line) {
            Ok(answer) => answer,
            // Memory for the places above was refused.
            Err(_) => search_all(&self.entries, line),
        }
    }
}

/// Sorts entries by their places.
fn sort(entries: &mut Vec<KnownEntry>) -> Result<(), AllocError>
    ensures permutation { IsPermutation entries.old.items entries.new.items }
    ensures sorted { OnOk result (IsSorted entry_cmp entries.new.items) }
{
    entries.sort_by(|entry: &KnownEntry, next: &KnownEntry| entry.line.place.cmp(&next.line.place))
}

/// Whether one of these entries names a line.
fn search_all(entries: &[KnownEntry], line: &Line) -> bool
    ensures { result ≡ is_known_by entries.now (line_of line.now) }
{
    for entry in entries {
        if is_named(entry, line) {
            return true;
        }
    }
    false
}

/// The same of sorted entries: those of the line's place are looked up, and those of each place
/// above it. The error is running out of memory.
fn look_up(entries: &[KnownEntry], line: &Line) -> Result<bool, AllocError>
    requires { IsSorted entry_cmp entries.now }
    ensures { IfOk result (λ answer. answer ≡ is_known_by entries.now (line_of line.now)) }
{
    for names in 0..line.place.depth() {
        let above = line.place.first(names)?;
        if is_named_at(entries, &above, line) {
            return Ok(true);
        }
    }
    Ok(is_named_at(entries, &line.place, line))
}

/// Whether an entry of this place names a line.
fn is_named_at(entries: &[KnownEntry], place: &Place, line: &Line) -> bool
    requires { IsSorted entry_cmp entries.now }
    ensures { result ≡ list_any (names_at place.now (line_of line.now)) entries.now }
{
    for index in first_at(entries, place)..entries.len() {
        if !is_place(&entries[index].line.place, place) {
            return false;
        }
        if is_named(&entries[index], line) {
            return true;
        }
    }
    false
}

/// Where the entries begin that are not before a place.
fn first_at(entries: &[KnownEntry], place: &Place) -> usize
    requires { IsSorted entry_cmp entries.now }
    ensures found { IsPartitionPoint (λ e. is_lt (place_cmp e.line.place place.now) ≡ true)
        (λ e. is_lt (place_cmp e.line.place place.now) ≡ false) entries.now result }
    ensures bound { result ≤ length entries.now }
{
    entries.partition_point(|entry| entry.line.place.cmp(place).is_lt())
}

/// Whether an entry names a line.
fn is_named(entry: &KnownEntry, line: &Line) -> bool
    ensures { result ≡ names (line_of line.now) entry.now }
{
    is_code(entry.line.code, line.code) && is_reached(entry.reach, &entry.line, line)
}

pub(crate) fn is_code(code: Code, other: Code) -> bool
    ensures { result ≡ code_eq code other }
{
    is_bytes(code.text().as_bytes(), other.text().as_bytes())
}

pub(crate) fn is_place(place: &Place, other: &Place) -> bool
    ensures { result ≡ place_eq place.now other.now }
{
    place.cmp(other).is_eq()
}

fn is_reached(reach: Reach, named: &Line, line: &Line) -> bool
    ensures { result ≡ reaches reach (line_of named.now) (line_of line.now) }
{
    match reach {
        Reach::One => is_one(named, line),
        Reach::Place => is_place(&named.place, &line.place),
        Reach::Branch => line.place.starts_with(&named.place),
    }
}

/// Whether two lines have one place and one detail.
fn is_one(named: &Line, line: &Line) -> bool
    ensures { result ≡ reaches Reach.One (line_of named.now) (line_of line.now) }
{
    is_place(&named.place, &line.place) && is_text(named.detail.as_str(), line.detail.as_str())
}
