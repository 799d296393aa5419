//! The lines of a report while it is compared, with those that are to be said.
ghost use Rattle.std.specs.Prelude.{◌≡◌, ◌++◌, ◌&&◌, All, Bool, List, IfOk, OnOk};
ghost use Rattle.std.specs.Prelude.{if◌then◌else◌, map, not};
ghost use Rattle.ocfl_report.specs.Line.{Line as ModelLine, line_of};
ghost use Rattle.ocfl_messages.specs.Finding.{Finding as ModelFinding, Section, ended_after};
ghost use Rattle.ocfl_messages.specs.Finding.{section_after};
ghost use Rattle.ocfl_messages.specs.Gathering.{IsGathered};
ghost use Rattle.ocfl_words.specs.Held.{Agrees, lines_of, marked_by, marked_of};

use crate::lines::{copy_of, is_place, is_same};
use ocfl_messages::{Gathering, Gravest, Heads};
use ocfl_report::Line;
use ocfl_tree::Place;
use std::alloc::{AllocError, Global};
use std::mem;

/// A line that waits for the changes of its place.
#[derive(Drop)]
pub(crate) struct Waiting {
    line: Line,
    is_said: bool,
}

impl Waiting {
    /// Is to be said, if its line is this one.
    fn name(&mut self, line: &Line)
        ensures { marked_of self.new ≡ marked_by (line_of line.now) (marked_of self.old) }
    {
        if is_same(&self.line, line) {
            self.is_said = true;
        }
    }
}

/// The lines of a report while it is compared, and which findings among them are to be said. Only
/// the changes of a place, which come after its lines, say which of them are new: from its first
/// finding on they wait for that.
#[derive(Drop)]
pub(crate) struct MarkedLines {
    /// Those of the last place.
    waiting: Vec<Waiting>,
    /// All before them.
    gathering: Gathering,
}

impl MarkedLines {
    ghost use Rattle.ocfl_report.specs.Line.{is_finding_code};
    ghost use Rattle.ocfl_words.specs.Held.{AreMarked, IsOfMarked, Marks, all_of, is_nil};
    ghost use Rattle.ocfl_words.specs.Held.{marks_named};
    ghost use Rattle.ocfl_words.specs.Held.{marks_with, no_marks, put_line, settled};
    ghost use Rattle.ocfl_words.specs.Held.{waits_at as is_waiting_at};

    /// None.
    pub(crate) fn new(alloc: Global) -> MarkedLines
        ensures { AreMarked result no_marks }
    {
        MarkedLines {
            waiting: Vec::new(alloc),
            gathering: Gathering::new(alloc, Heads::new()),
        }
    }

    /// Takes the next line. It is not used again if memory runs out.
    pub(crate) fn take(&mut self, alloc: Global, line: &Line) -> Result<(), AllocError>
        ensures { OnOk result ((m : Marks) → AreMarked self.old m
            → AreMarked self.new (marks_with m (line_of line.now))) }
    {
        self.end_place(alloc, &line.place)?;
        self.put(line)
    }

    /// Ends the place whose lines wait, unless it is this one.
    fn end_place(&mut self, alloc: Global, place: &Place) -> Result<(), AllocError>
        ensures { OnOk result ((m : Marks) → AreMarked self.old m
            → AreMarked self.new (if is_waiting_at m.waiting place.now then m else settled m)) }
    {
        if self.waits_at(place) {
            return Ok(());
        }
        self.settle(alloc)
    }

    /// Whether lines of a place wait.
    fn waits_at(&self, place: &Place) -> bool
        ensures { (m : Marks) → AreMarked self.now m
            → result ≡ is_waiting_at m.waiting place.now }
    {
        match self.waiting.first() {
            Some(waiting) => is_place(&waiting.line.place, place),
            None => false,
        }
    }

    /// Ends the place whose lines wait.
    fn settle(&mut self, alloc: Global) -> Result<(), AllocError>
        ensures { OnOk result ((m : Marks) → AreMarked self.old m
            → AreMarked self.new (settled m)) }
    {
        let waiting = mem::replace(&mut self.waiting, Vec::new(alloc));
        gather(&mut self.gathering, waiting)
    }

    /// Whether a line is settled as it comes: it is no finding, and none before it waits.
    fn passes(&self, line: &Line) -> bool
        ensures { (m : Marks) → AreMarked self.now m
            → result ≡ (is_nil m.waiting && not (is_finding_code line.now.code)) }
    {
        self.waiting.is_empty() && !line.is_finding()
    }

    /// Keeps a line, which waits unless it passes.
    fn put(&mut self, line: &Line) -> Result<(), AllocError>
        ensures { OnOk result ((m : Marks) → AreMarked self.old m
            → AreMarked self.new (put_line m (line_of line.now))) }
    {
        if self.passes(line) {
            return self.gathering.pass(line);
        }
        self.waiting.push(Waiting {
            line: copy_of(line)?,
            is_said: false,
        })?;
        Ok(())
    }

    /// The lines that wait and are this one are to be said.
    pub(crate) fn name(&mut self, line: &Line)
        ensures { (m : Marks) → AreMarked self.old m
            → AreMarked self.new (marks_named m (line_of line.now)) }
    {
        name_all(&mut self.waiting, line);
    }

    /// The most serious findings of those that are to be said, among all lines of the report.
    pub(crate) fn end(self, alloc: Global) -> Result<Gravest, AllocError>
        ensures { IfOk result (λ found. (m : Marks) → AreMarked self m
            → IsOfMarked found (all_of m)) }
    {
        let mut lines = self;
        lines.settle(alloc)?;
        let (found, _) = lines.into_gathering().end(true);
        Ok(found)
    }

    /// What is gathered.
    fn into_gathering(self) -> Gathering
        ensures { result ≡ self.gathering }
    {
        let MarkedLines {
            waiting: _waiting,
            gathering,
        } = self;
        gathering
    }
}

/// Gathers these lines too.
fn gather(gathering: &mut Gathering, waiting: Vec<Waiting>) -> Result<(), AllocError>
    ensures { OnOk result ((says : ModelLine → Bool) (fs : List ModelFinding) (s : Section)
        → All (Agrees says) (map marked_of waiting.items) → IsGathered says gathering.old fs s
        → IsGathered says gathering.new
        (fs ++ ended_after s (lines_of (map marked_of waiting.items)))
        (section_after s (lines_of (map marked_of waiting.items)))) }
{
    for Waiting { line, is_said } in waiting {
        gathering.take(line, is_said)?;
    }
    Ok(())
}

/// The lines that are this one are to be said.
fn name_all(lines: &mut [Waiting], line: &Line)
    ensures { map marked_of lines.new
        ≡ map (marked_by (line_of line.now)) (map marked_of lines.old) }
{
    for waiting in lines.iter_mut() {
        waiting.name(line);
    }
}
