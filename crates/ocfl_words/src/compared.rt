//! Counting the lines of a report while it is compared with one before.
ghost use Rattle.std.specs.Prelude.{◌≡◌, ◌∷◌, [], map, IfOk, OnOk};
ghost use Rattle.ocfl_report.specs.Line.{line_of};
ghost use Rattle.std.specs.List.{list_any};
ghost use Rattle.ocfl_words.specs.News.{is_among, is_same_line};

use crate::changes::one_if;
use crate::findings::Findings;
use crate::lines::is_same;
use crate::marked::MarkedLines;
use crate::missing::add_count;
use ocfl_messages::Tally;
use ocfl_report::Line;
use std::alloc::{AllocError, Global};

/// Whether one of the lines says the same of the same place.
fn have_same(lines: &[Line], line: &Line) -> bool
    ensures { result ≡ is_among (map line_of lines.now) (line_of line.now) }
{
    has_same(lines, line)
}

fn has_same(lines: &[Line], line: &Line) -> bool
    ensures { result ≡ list_any (λ l. is_same_line (line_of line.now) (line_of l)) lines.now }
{
    lines.iter().any(|one| is_same(line, one))
}

/// The lines of a report while it is compared: what they count, and which findings are to be said.
pub(crate) struct ComparedLines {
    lines: MarkedLines,
    tally: Tally,
    /// How many findings came.
    count: u64,
    /// How many new ones came that were said before.
    again: u64,
}

/// Written by hand, so that to let it go is one call wherever that happens.
impl Drop for ComparedLines {
    fn drop(self) {
        let ComparedLines {
            lines: _lines,
            tally: _tally,
            count: _count,
            again: _again,
        } = self;
    }
}

impl ComparedLines {
    ghost use Rattle.ocfl_words.specs.Held.{HasFound, AreHeld, Held, held_new, held_with};
    ghost use Rattle.ocfl_words.specs.Held.{none_held};

    /// Before the first line.
    pub(crate) fn new(alloc: Global) -> ComparedLines
        ensures { AreHeld result none_held }
    {
        ComparedLines {
            lines: MarkedLines::new(alloc),
            tally: Tally::new(),
            count: 0,
            again: 0,
        }
    }

    /// Takes the next line. It is not used again if memory runs out.
    pub(crate) fn take(&mut self, alloc: Global, line: &Line) -> Result<(), AllocError>
        ensures { OnOk result ((h : Held) → AreHeld self.old h
            → AreHeld self.new (held_with h (line_of line.now))) }
    {
        self.tally.add(line)?;
        self.count = add_count(self.count, one_if(line.is_finding()));
        self.lines.take(alloc, line)
    }

    /// Takes a finding of the last place that is new and not known, after all lines of the place.
    /// It is to be said, unless it is one of those that were said before.
    pub(crate) fn name(&mut self, before: &[Line], line: &Line)
        ensures { (h : Held) → AreHeld self.old h
            → AreHeld self.new (held_new (map line_of before.now) h (line_of line.now ∷ [])) }
    {
        if have_same(before, line) {
            self.again = add_count(self.again, 1);
        } else {
            self.lines.name(line);
        }
    }

    /// What was found in all lines of the report.
    pub(crate) fn into_found(self, alloc: Global) -> Result<Findings, AllocError>
        ensures { IfOk result (λ found. (h : Held) → AreHeld self h → HasFound found h) }
    {
        let ComparedLines {
            lines,
            tally,
            count,
            again,
        } = self;
        Ok(Findings {
            count,
            said: again,
            gravest: lines.end(alloc)?,
            tally,
        })
    }
}
