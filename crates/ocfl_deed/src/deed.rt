//! The deeds of the program.

use ocfl_cursor::Limits;
use ocfl_report::Further;

/// What is to be done.
///
/// Each deed that looks at a storage root says what it checks beside what every audit checks.
#[derive(Debug, Drop, PartialEq, Eq)]
pub enum Deed {
    /// The items of a scope are audited: all of them, or those of a branch or a part.
    Audit(Further),
    /// One run goes on at the cursor, within these limits, in the storage root or in a part. The
    /// cursor has to be of an audit that checks the same.
    Run(Further, Limits),
    /// A cycle from its beginning: the limits of each run, and the most runs, 1 to 100,000.
    Cycle(Further, Limits, usize),
    /// The place with this path, as the command line gives it, is checked.
    Check(Further, String),
    /// A cursor is shown.
    Show,
}
