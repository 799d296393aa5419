//! A finding with the object that it is in.
ghost use Rattle.std.specs.Prelude.{◌≡◌, Some, IfOk, OnOk, not};
ghost use Rattle.ocfl_report.specs.Line.{line_of};
ghost use Rattle.ocfl_messages.specs.Finding.{filled, finding_of, found_in, head_with, is_other as is_other_head, is_within, object_at};

use crate::tally::is_last;
use ocfl_codes::is_of_object;
use ocfl_report::Line;
use ocfl_tree::Place;
use std::alloc::AllocError;

/// How many files of an object are right.
#[derive(Clone, Copy)]
pub struct FileCounts {
    /// How many are right.
    pub right: u64,
    /// How many there are.
    pub files: u64,
    /// Whether these are all that it has, and not only those whose lines came.
    pub is_whole: bool,
}

/// A line of a report, and the object that it is in.
#[derive(Drop)]
pub struct Finding {
    /// The line.
    pub line: Line,
    /// The object. `None` if it is not known: no line of an object's head is known to come before,
    /// or that of another object did.
    pub object: Option<Place>,
    /// How many files of the object are right. `None` as long as its lines come.
    pub files: Option<FileCounts>,
}

impl Finding {
    /// Another one that is the same.
    pub fn try_clone(&self) -> Result<Finding, AllocError>
        ensures { IfOk result (λ copy. finding_of copy ≡ finding_of self.now) }
    {
        let object = copy_of(&self.object)?;
        Ok(Finding {
            line: line_copy(&self.line)?,
            object,
            files: self.files,
        })
    }

    /// Takes how many files of its object are right, unless it has that.
    pub(crate) fn fill(&mut self, files: FileCounts)
        ensures { finding_of self.new ≡ filled files (finding_of self.old) }
    {
        if self.files.is_none() {
            self.files = Some(files);
        }
    }
}

/// The same line.
fn line_copy(line: &Line) -> Result<Line, AllocError>
    ensures { IfOk result (λ copy. line_of copy ≡ line_of line.now) }
{
    let place = line.place.try_clone()?;
    Ok(Line {
        code: line.code,
        place,
        detail: line.detail.clone()?,
    })
}

/// The same object, or none.
fn copy_of(object: &Option<Place>) -> Result<Option<Place>, AllocError>
    ensures { IfOk result (λ copy. copy ≡ object.now) }
{
    match object {
        Some(place) => Ok(Some(place.try_clone()?)),
        None => Ok(None),
    }
}

/// The object whose head came last in a report, as its lines come.
#[derive(Drop)]
pub struct Heads {
    pub(crate) last: Option<Place>,
}

impl Heads {
    ghost use Rattle.std.specs.Prelude.{None};

    /// None came.
    pub fn new() -> Heads
        ensures { result.last ≡ None }
    {
        Heads { last: None }
    }

    /// Whether a line is one of another object's head.
    pub(crate) fn is_other(&self, line: &Line) -> bool
        ensures { result ≡ is_other_head self.now.last (line_of line.now) }
    {
        is_of_object(line) && !is_last(&self.last, &line.place)
    }

    /// Whether a place is that of the object, or below it.
    pub(crate) fn are_above(&self, place: &Place) -> bool
        ensures { result ≡ is_within self.now.last place.now }
    {
        match &self.last {
            Some(object) => place.starts_with(object),
            None => false,
        }
    }

    /// The line with the object that it is in, as it came.
    pub(crate) fn place(&self, line: Line) -> Result<Finding, AllocError>
        ensures { IfOk result (λ f. finding_of f ≡ found_in self.now.last (line_of line)) }
    {
        let object = object_of(&self.last, &line.place)?;
        Ok(Finding {
            line,
            object,
            files: None,
        })
    }
}

/// The object that came last, if the place is there or below it.
fn object_of(head: &Option<Place>, place: &Place) -> Result<Option<Place>, AllocError>
    ensures { IfOk result (λ o. o ≡ object_at head.now place.now) }
{
    match head {
        Some(object) => object_above(object, place),
        None => Ok(None),
    }
}

/// The object, if the place is there or below it.
fn object_above(object: &Place, place: &Place) -> Result<Option<Place>, AllocError>
    ensures { IfOk result (λ o. o ≡ object_at (Some object.now) place.now) }
{
    if place.starts_with(object) {
        return Ok(Some(object.try_clone()?));
    }
    Ok(None)
}
