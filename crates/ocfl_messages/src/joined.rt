//! What is said of a report that was joined of those of all parts.
ghost use Rattle.std.specs.Prelude.{◌≡◌, IfOk, string_bytes};
ghost use Rattle.ocfl_messages.specs.Closing.{joined_text as text_of_joined};

use crate::closing::{counted, had, lead};
use crate::tally::Counts;
use std::alloc::{AllocError, Global};

/// A joined report.
#[derive(Clone, Copy)]
pub struct Joined<'a> {
    /// The number of its cycle.
    pub cycle: u64,
    /// Whether it is whole.
    pub whole: bool,
    /// Its path.
    pub report: &'a str,
    /// What it counts.
    pub counts: Counts,
    /// How many runs the cycle had in all parts; 0 if that is not known.
    pub runs: u64,
}

/// The word at the end of a cycle of all parts, in one line, or in two if its report is incomplete:
/// how many files are right of how many, how many objects and bytes, and, if that is known, in how
/// many runs. What changed is not in it: each part says that of itself when it is closed.
pub fn joined_text(alloc: Global, joined: &Joined<'_>) -> Result<String, AllocError>
    ensures { IfOk result (λ text. string_bytes text ≡ text_of_joined joined.now) }
{
    let lead = lead(alloc, joined.cycle, joined.whole, joined.report)?;
    let counted = counted(alloc, joined.counts)?;
    let runs = had(alloc, joined.runs)?;
    format!(in alloc; "{lead}{counted}{runs}.\n")
}
