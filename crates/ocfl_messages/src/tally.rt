//! What the lines of a report count, as they come.
ghost use Rattle.std.specs.Prelude.{◌≡◌, ◌++◌, ◌∷◌, [], ◌+◌, ℕ, List, IfSome, IsNone, OnOk, true, false, if◌then◌else◌};
ghost use Rattle.std.specs.Str.Parse.{digits_value};
ghost use Rattle.ocfl_tree.specs.Place.{Place as ModelPlace};
ghost use Rattle.ocfl_report.specs.Line.{Line as ModelLine, line_of};
ghost use Rattle.ocfl_messages.specs.Tally.{IsCount, bytes_in, is_last as is_last_place, is_right as is_right_line, is_size, is_wrong as is_wrong_line, right_size};

use crate::known::is_place;
use ocfl_codes::{is_of_file, is_of_object};
use ocfl_report::{Line, read_decimal};
use ocfl_tree::Place;
use std::alloc::AllocError;

/// Content files have fewer bytes.
const SIZE_LIMIT: u128 = 1 << 62;

/// How many places come one after the other, of which each may come several times in a row.
#[derive(Drop)]
pub struct Places {
    pub(crate) count: u64,
    last: Option<Place>,
}

impl Places {
    ghost use Rattle.ocfl_messages.specs.Tally.{IsPlaces};

    /// None.
    pub(crate) fn new() -> Places
        ensures { IsPlaces result [] }
    {
        Places {
            count: 0,
            last: None,
        }
    }

    /// Takes one more place.
    fn add(&mut self, place: &Place) -> Result<(), AllocError>
        ensures { OnOk result ((ps : List ModelPlace)
            → IsPlaces self.old ps → IsPlaces self.new (ps ++ place.now ∷ [])) }
    {
        if is_last(&self.last, place) {
            return Ok(());
        }
        self.last = Some(place.try_clone()?);
        self.count = add_count(self.count, 1);
        Ok(())
    }

    /// Takes one more place, if it counts.
    pub(crate) fn add_if(&mut self, counts: bool, place: &Place) -> Result<(), AllocError>
        ensures { OnOk result ((ps : List ModelPlace) → IsPlaces self.old ps
            → IsPlaces self.new (if counts then ps ++ place.now ∷ [] else ps)) }
    {
        if counts {
            return self.add(place);
        }
        Ok(())
    }
}

/// Whether the last place is this one.
pub(crate) fn is_last(last: &Option<Place>, place: &Place) -> bool
    ensures { result ≡ is_last_place last.now place.now }
{
    match last {
        Some(last) => is_place(last, place),
        None => false,
    }
}

/// What the lines of a report count.
pub struct Tally {
    /// How many content files are right.
    right: u64,
    /// How many bytes these have.
    bytes: u64,
    /// The other content files.
    wrong: Places,
    /// The objects.
    objects: Places,
}

impl Drop for Tally {
    fn drop(self) {
        let Tally {
            right: _right,
            bytes: _bytes,
            wrong: _wrong,
            objects: _objects,
        } = self;
    }
}

/// What a report counts.
#[derive(Clone, Copy)]
pub struct Counts {
    /// How many content files are right.
    pub right: u64,
    /// How many content files there are.
    pub files: u64,
    /// How many objects there are.
    pub objects: u64,
    /// How many bytes the files have that are right.
    pub bytes: u64,
}

impl Tally {
    ghost use Rattle.ocfl_messages.specs.Tally.{IsTally, objects_in, right_in, wrong_in};

    /// Nothing, of no lines.
    pub fn new() -> Tally
        ensures { IsTally result [] }
    {
        Tally {
            right: 0,
            bytes: 0,
            wrong: Places::new(),
            objects: Places::new(),
        }
    }

    /// Takes the next line. If memory runs out, it counts nothing that is known any more.
    pub fn add(&mut self, line: &Line) -> Result<(), AllocError>
        ensures { OnOk result ((ls : List ModelLine)
            → IsTally self.old ls → IsTally self.new (ls ++ line_of line.now ∷ [])) }
    {
        self.objects.add_if(is_of_object(line), &line.place)?;
        self.wrong.add_if(is_wrong(line), &line.place)?;
        self.right = add_count(self.right, one_if(is_right(line)));
        self.bytes = add_count(self.bytes, size_in(line));
        Ok(())
    }

    /// What the lines count that were taken.
    pub fn counts(&self) -> Counts
        ensures right { (ls : List ModelLine) → IsTally self.now ls
            → IsCount result.right (right_in ls) }
        ensures files { (ls : List ModelLine) → IsTally self.now ls
            → IsCount result.files (right_in ls + wrong_in ls) }
        ensures objects { (ls : List ModelLine) → IsTally self.now ls
            → IsCount result.objects (objects_in ls) }
        ensures bytes { (ls : List ModelLine) → IsTally self.now ls
            → IsCount result.bytes (bytes_in ls) }
    {
        Counts {
            right: self.right,
            files: add_count(self.right, self.wrong.count),
            objects: self.objects.count,
            bytes: self.bytes,
        }
    }
}

/// The sum of two numbers, while it fits.
pub(crate) fn add_count(count: u64, more: u64) -> u64
    ensures { (m k : ℕ) → IsCount count m → IsCount more k → IsCount result (m + k) }
{
    count.saturating_add(more)
}

/// One, if something counts.
pub(crate) fn one_if(counts: bool) -> u64
    ensures { result ≡ (if counts then 1 else 0) }
{
    if counts { 1 } else { 0 }
}

/// Whether it is the line of a content file that is right.
pub(crate) fn is_right(line: &Line) -> bool
    ensures { result ≡ is_right_line (line_of line.now) }
{
    is_of_file(line) && !line.is_finding()
}

/// Whether it is a finding of a content file.
pub(crate) fn is_wrong(line: &Line) -> bool
    ensures { result ≡ is_wrong_line (line_of line.now) }
{
    is_of_file(line) && line.is_finding()
}

/// How many bytes the content file has that a line says to be right; none of any other line.
fn size_in(line: &Line) -> u64
    ensures { result ≡ right_size (line_of line.now) }
{
    if !is_right(line) {
        return 0;
    }
    size_of(line.detail.as_str()).unwrap_or(0)
}

/// The number of bytes that a detail says.
fn size_of(detail: &str) -> Option<u64>
    ensures some { IfSome result (λ n. is_size detail.now ≡ true) }
    ensures value { IfSome result (λ n. n ≡ digits_value 10 detail.now) }
    ensures none { IsNone result → is_size detail.now ≡ false }
{
    let size = read_decimal(detail.as_bytes())?;
    if size < SIZE_LIMIT {
        Some(size as u64)
    } else {
        None
    }
}
