//! The findings of a report by objects, as its lines come.
ghost use Rattle.std.specs.Prelude.{◌≡◌, ◌++◌, ◌∷◌, [], Bool, List, OnOk, false, length, map};
ghost use Rattle.ocfl_report.specs.Line.{Line as ModelLine, line_of};
ghost use Rattle.ocfl_messages.specs.Finding.{Finding as ModelFinding, Section, counted, counts_in, ended_with, first_section, found_in, lines_within, section_at, section_with};
ghost use Rattle.ocfl_messages.specs.{Gathering.{said}, Gravest.{IsOf}, Tally.{IsCount, IsPlaces, is_wrong as is_wrong_line, places_of, right_in}};

use crate::finding::{FileCounts, Heads};
use crate::gravest::Gravest;
use crate::tally::{Places, add_count, is_right, is_wrong, one_if};
use ocfl_codes::weigh;
use ocfl_report::Line;
use std::alloc::{AllocError, Global};

/// The findings among the lines of a report, each with its object and how many files of that are
/// right, which is known once all lines of the object came.
pub struct Gathering {
    /// The findings.
    pub(crate) found: Gravest,
    /// How many files of the object that came last are right.
    pub(crate) right: u64,
    /// The others.
    pub(crate) wrong: Places,
    /// Whether its first line was among them.
    pub(crate) is_begun: bool,
    /// That object.
    pub(crate) heads: Heads,
}

/// Written by hand, so that to let it go is one call wherever that happens.
impl Drop for Gathering {
    fn drop(self) {
        let Gathering {
            found: _found,
            right: _right,
            wrong: _wrong,
            is_begun: _is_begun,
            heads: _heads,
        } = self;
    }
}

impl Gathering {
    ghost use Rattle.ocfl_messages.specs.Gathering.{AreRightIn, IsGathered, section_on};

    /// Nothing, of no lines, before which these heads came.
    pub fn new(alloc: Global, before: Heads) -> Gathering
        ensures { (is_said : ModelLine → Bool)
            → IsGathered is_said result [] (first_section before.last) }
    {
        Gathering {
            found: Gravest::new(alloc),
            right: 0,
            wrong: Places::new(),
            is_begun: false,
            heads: before,
        }
    }

    /// Takes the next line. Its file is counted; the line is kept as a finding if it is to be said.
    /// It is not used again if memory runs out.
    pub fn take(&mut self, line: Line, is_said: bool) -> Result<(), AllocError>
        ensures { OnOk result ((says : ModelLine → Bool) (fs : List ModelFinding) (s : Section)
            → says (line_of line) ≡ is_said → IsGathered says self.old fs s
            → IsGathered says self.new (fs ++ ended_with s (line_of line))
            (section_with s (line_of line))) }
    {
        self.begin(&line)?;
        count(&mut self.right, &mut self.wrong, &self.heads, &line)?;
        keep_said(&mut self.found, &self.heads, line, is_said)
    }

    /// Takes the next line, which is not to be said: its file is counted. It is not used again if
    /// memory runs out.
    pub fn pass(&mut self, line: &Line) -> Result<(), AllocError>
        ensures { OnOk result ((says : ModelLine → Bool) (fs : List ModelFinding) (s : Section)
            → says (line_of line.now) ≡ false → IsGathered says self.old fs s
            → IsGathered says self.new (fs ++ ended_with s (line_of line.now))
            (section_with s (line_of line.now))) }
    {
        self.begin(line)?;
        count(&mut self.right, &mut self.wrong, &self.heads, line)?;
        Ok(())
    }

    /// Ends the object whose lines came, if this is a line of another one's head.
    fn begin(&mut self, line: &Line) -> Result<(), AllocError>
        ensures { OnOk result ((says : ModelLine → Bool) (fs : List ModelFinding) (s : Section)
            → IsGathered says self.old fs s
            → IsGathered says self.new (fs ++ ended_with s (line_of line.now))
            (section_at s (line_of line.now))) }
    {
        if !self.heads.is_other(line) {
            return Ok(());
        }
        self.fill(true);
        self.right = 0;
        self.wrong = Places::new();
        self.is_begun = true;
        self.heads.last = Some(line.place.try_clone()?);
        Ok(())
    }

    /// Takes so many lines of files that are right, in the object whose head came last. It is the
    /// same as taking them one by one, and needs no memory.
    pub fn take_right(&mut self, count: u64)
        ensures taken { (says : ModelLine → Bool) (fs : List ModelFinding) (s : Section)
            (ls : List ModelLine) → IsCount count (length ls)
            → AreRightIn s.head ls
            → IsGathered says self.old fs s → IsGathered says self.new fs (section_on s ls) }
        ensures heads { self.new.heads ≡ self.old.heads }
    {
        self.right = add_count(self.right, count);
    }

    /// How many files of the object are right.
    fn files(&self, is_over: bool) -> FileCounts
        ensures { (says : ModelLine → Bool) (fs : List ModelFinding) (s : Section)
            → IsGathered says self.now fs s → result ≡ counts_in is_over s }
    {
        FileCounts {
            right: self.right,
            files: add_count(self.right, self.wrong.count),
            is_whole: is_over && self.is_begun,
        }
    }

    /// Gives its findings how many that are, behind which no lines of it come if it is over.
    fn fill(&mut self, is_over: bool)
        ensures found { (says : ModelLine → Bool) (fs : List ModelFinding) (s : Section)
            → IsGathered says self.old fs s
            → IsOf self.new.found (said says (fs ++ counted is_over s)) }
        ensures heads { self.new.heads ≡ self.old.heads }
    {
        let files = self.files(is_over);
        self.found.fill(files);
    }

    /// The findings of all the lines, and the object whose head came last. No more lines of it come
    /// if the report is over.
    pub fn end(self, is_over: bool) -> (Gravest, Heads)
        ensures found { (says : ModelLine → Bool) (fs : List ModelFinding) (s : Section)
            → IsGathered says self fs s
            → IsOf result.0 (said says (fs ++ counted is_over s)) }
        ensures heads { result.1 ≡ self.heads }
    {
        let mut gathering = self;
        gathering.fill(is_over);
        gathering.into_parts()
    }

    /// The findings, and the object whose head came last.
    fn into_parts(self) -> (Gravest, Heads)
        ensures found { result.0 ≡ self.found }
        ensures heads { result.1 ≡ self.heads }
    {
        let Gathering {
            found,
            right: _right,
            wrong: _wrong,
            is_begun: _is_begun,
            heads,
        } = self;
        (found, heads)
    }
}

/// Counts the file of a line, if it is in the object of these heads.
fn count(right: &mut u64, wrong: &mut Places, heads: &Heads, line: &Line) -> Result<(), AllocError>
    ensures right { OnOk result ((ls : List ModelLine)
        → IsCount right.old (right_in (lines_within heads.now.last ls))
        → IsCount right.new (right_in
        (lines_within heads.now.last (ls ++ line_of line.now ∷ [])))) }
    ensures wrong { OnOk result ((ls : List ModelLine)
        → IsPlaces wrong.old (places_of is_wrong_line (lines_within heads.now.last ls))
        → IsPlaces wrong.new (places_of is_wrong_line
        (lines_within heads.now.last (ls ++ line_of line.now ∷ [])))) }
{
    if !heads.are_above(&line.place) {
        return Ok(());
    }
    wrong.add_if(is_wrong(line), &line.place)?;
    *right = add_count(*right, one_if(is_right(line)));
    Ok(())
}

/// Keeps a line of the object of these heads as a finding, if it is to be said.
fn keep_said(
    found: &mut Gravest,
    heads: &Heads,
    line: Line,
    is_said: bool,
) -> Result<(), AllocError>
    ensures { OnOk result ((says : ModelLine → Bool) (fs : List ModelFinding)
        (ls : List ModelLine) → says (line_of line) ≡ is_said
        → IsOf found.old (said says (fs ++ map (found_in heads.now.last) ls))
        → IsOf found.new
        (said says (fs ++ map (found_in heads.now.last) (ls ++ line_of line ∷ [])))) }
{
    if is_said {
        return keep(found, heads, line);
    }
    Ok(())
}

/// Keeps a line of the object of these heads, if it is a finding.
fn keep(found: &mut Gravest, heads: &Heads, line: Line) -> Result<(), AllocError>
    ensures { OnOk result ((fs : List ModelFinding) → IsOf found.old fs
        → IsOf found.new (fs ++ found_in heads.now.last (line_of line) ∷ [])) }
{
    match weigh(line.code) {
        Some(_) => found.add(heads.place(line)?),
        None => Ok(()),
    }
}
