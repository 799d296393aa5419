//! The fixed parts of a checkpoint's text.

/// How the text of each version begins.
pub(crate) const FRONT: &[u8] = b"ocfl-scrub checkpoint ";

/// What follows the front in each, up to the first line feed. The second is written if the audit
/// checks the inventories of versions.
pub(crate) const VERSIONS: &[u8] = b"12";

// The first line of each.
pub(crate) const FIRST_LINE_ONE: &[u8] = b"ocfl-scrub checkpoint 1\n";

pub(crate) const FIRST_LINE_TWO: &[u8] = b"ocfl-scrub checkpoint 2\n";

/// How the last line begins, which seals the others.
pub(crate) const SHA256: [u8; 7] = *b"sha256 ";

// How each line begins, in their order. The lines of each branch that was left out follow `LEFT`
// with their number.
pub(crate) const ROOT: &[u8] = b"root ";

pub(crate) const DECLARED: &[u8] = b"declared ";

pub(crate) const NAMES: &[u8] = b"names ";

pub(crate) const PHASE: &[u8] = b"phase ";

pub(crate) const WHOLE: &[u8] = b"whole ";

pub(crate) const REPORT: &[u8] = b"report ";

pub(crate) const PIECES: &[u8] = b"pieces ";

pub(crate) const TAIL: &[u8] = b"tail ";

pub(crate) const SAID: &[u8] = b"told ";

pub(crate) const LEFT: &[u8] = b"left ";

// The words that are in them.
pub(crate) const OPEN: &[u8] = b"open";

pub(crate) const CLOSING: &[u8] = b"closing";

pub(crate) const YES: &[u8] = b"yes";

pub(crate) const NO: &[u8] = b"no";

/// The line of a branch that was left while the cursor was at the start.
pub(crate) const START: &[u8] = b"start";

/// How the line begins if the cursor was after a place.
pub(crate) const AFTER: &[u8] = b"after ";

/// The path of the system's own root.
pub(crate) const SLASH: &[u8] = b"/";
