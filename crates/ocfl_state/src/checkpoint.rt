//! The checkpoint: what one night leaves for the next.
ghost use Rattle.std.specs.Prelude.{◌≡◌};

use crate::checkpoint_parts::{Left, Phase, ReportMark, RootIdentity, TopNames};
use ocfl_cursor::{Cursor, PartEnds};
use ocfl_tree::Place;
use std::marker::Model;

/// What one night leaves for the next: whose root is read, how much of the report belongs to the
/// cursor, how much of that was said, and where the next run begins.
#[derive(Debug)]
pub struct Checkpoint {
    /// The storage root that the nights read.
    pub root: RootIdentity,
    /// The names in its top folder when the cycle began.
    pub names: TopNames,
    /// Whether the report grows, or is to be closed.
    pub phase: Phase,
    /// Whether nothing of the cycle's report was lost.
    pub whole: bool,
    /// As much of the report as belongs to the cursor.
    pub report: ReportMark,
    /// How many bytes of that were said: no finding before them is unsaid.
    pub said: u64,
    /// The branches of the cycle that could not be read, in the order in which they were met.
    pub left: Vec<Left>,
    /// The part that the nights read; `None` if they read the whole root.
    pub part: Option<PartEnds>,
    /// Where the next run begins, and what the runs of the cycle have spent.
    pub cursor: Cursor,
}

impl Checkpoint {
    /// The path of the root that it is of.
    pub fn into_path(self) -> Place
        ensures { result ≡ self.root.path }
    {
        let Checkpoint {
            root,
            names: _names,
            phase: _phase,
            whole: _whole,
            report: _report,
            said: _said,
            left: _left,
            part: _part,
            cursor: _cursor,
        } = self;
        root.path
    }
}

/// Written by hand, so that to let it go is one call wherever that happens.
impl Drop for Checkpoint {
    fn drop(self) {
        let Checkpoint {
            root: _root,
            names: _names,
            phase: _phase,
            whole: _whole,
            report: _report,
            said: _said,
            left: _left,
            part: _part,
            cursor: _cursor,
        } = self;
    }
}

impl Model for Checkpoint {
    ghost use Rattle.ocfl_state.specs.Checkpoint.{Checkpoint};

    ghost Value = { Checkpoint };

    ghost view = { λ a. record {
      root = a.root;
      names = a.names;
      phase = a.phase;
      whole = a.whole;
      report = a.report;
      said = a.said;
      left = a.left.items;
      part = a.part;
      cursor = a.cursor;
    } };
}
