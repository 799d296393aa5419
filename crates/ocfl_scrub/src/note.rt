//! What a command says on standard error.
ghost use Rattle.std.specs.Prelude.{◌≡◌, Some};
ghost use Rattle.ocfl_scrub.specs.NoteText.{end_text, note_text, option_text};

use ocfl_cursor::{PartRefused, Refused};
use ocfl_report::{DisplayPlace, Further};
use ocfl_tree::Place;
use std::fmt;

/// What a command says on standard error when it ends: its `Display` is one line, without what the
/// program puts before it.
#[derive(Drop)]
pub enum Note {
    /// Nothing is said.
    Nothing,
    /// There are no lines for the place.
    NoItem,
    /// The branch has no item.
    EmptyBranch,
    /// The path is not that of a place.
    BadPath,
    /// The store did not answer at this place.
    StoppedAt(Place),
    OutOfMemory,
    OutputFailed,
    /// One run was made.
    RunMade {
        /// The cycle of the cursor that the run answered, from 1.
        cycle: u64,
        /// How many runs that cycle has had.
        runs: u64,
        /// What this run cost, in bytes and one more for each file.
        cost: u64,
        /// Whether no item is left.
        ended: bool,
    },
    /// A cycle was made, or its first runs.
    CycleMade {
        /// How many runs there were.
        runs: usize,
        /// What they cost, in bytes and one more for each file.
        cost: u128,
        /// Whether no item is left.
        ended: bool,
    },
    /// No further run can be counted.
    CursorWorn,
    /// The cursor could not be read, or not be stored.
    CursorFileFailed,
    /// The bytes are those of no cursor, for this reason, which is not that memory ran out.
    CursorRefused(Refused),
    /// The bytes are refused as the cursor of the part or, if they are to be shown, as that of any
    /// part. The reason is never that memory ran out.
    PartCursorRefused(PartRefused),
    /// The cursor is of an audit that checks this, and the run that was asked for checks something
    /// else.
    OtherAudit(Further),
}

impl fmt::Display for Note {
    ghost output = { λ note. Some (note_text note) };

    fn fmt<W: fmt::Write>(&self, f: &mut fmt::Formatter<W>) -> fmt::Result {
        match self {
            Note::Nothing => Ok(()),
            Note::NoItem | Note::EmptyBranch => f.write_str("no item"),
            Note::BadPath => f.write_str("bad path"),
            Note::StoppedAt(place) => write!(f, "stopped at {}", DisplayPlace(place)),
            Note::OutOfMemory => f.write_str("out of memory"),
            Note::OutputFailed => f.write_str("output failed"),
            Note::RunMade {
                cycle,
                runs,
                cost,
                ended,
            } => write!(
                f,
                "cycle {cycle}, run {runs}, cost {cost}, {}",
                end_word(*ended)
            ),
            Note::CycleMade { runs, cost, ended } => {
                write!(f, "runs {runs}, cost {cost}, {}", end_word(*ended))
            }
            Note::CursorWorn => f.write_str("cursor worn"),
            Note::CursorFileFailed => f.write_str("cursor file failed"),
            Note::CursorRefused(why) => write!(f, "cursor refused: {why}"),
            Note::PartCursorRefused(why) => write!(f, "cursor refused: {why}"),
            Note::OtherAudit(further) => write!(
                f,
                "cursor refused: the cursor is of an audit {}",
                option_words(*further)
            ),
        }
    }
}

// The option that an audit has.
fn option_words(further: Further) -> &'static str
    ensures { result.now ≡ option_text further }
{
    match further {
        Further::Nothing => "without --inventories",
        Further::Inventories => "with --inventories",
    }
}

// Whether an item is left for the cycle's next run.
fn end_word(ended: bool) -> &'static str
    ensures { result.now ≡ end_text ended }
{
    if ended { "ended" } else { "open" }
}
