//! The fixed parts of a cursor's text.

/// How many bytes the text has at most.
pub(crate) const MAX_TEXT: usize = 262_144;

/// How the text of each version begins.
pub(crate) const FRONT: &[u8] = b"ocfl-scrub cursor ";

/// The versions that are read: the second and the third have a line of the files. The third is
/// written if the audit checks the inventories of versions, and has a line that says so.
#[derive(Clone, Copy)]
pub(crate) enum FormVersion {
    One,
    Two,
    Three,
}

/// What follows the front in each, up to the first line feed.
pub(crate) const VERSIONS: &[u8] = b"123";

// The first line of each.
pub(crate) const FIRST_LINE_ONE: &[u8] = b"ocfl-scrub cursor 1\n";

pub(crate) const FIRST_LINE_TWO: &[u8] = b"ocfl-scrub cursor 2\n";

pub(crate) const FIRST_LINE_THREE: &[u8] = b"ocfl-scrub cursor 3\n";

/// The line of an audit that checks the inventories of versions.
pub(crate) const CHECKS_INVENTORIES: &[u8] = b"checks inventories\n";

// The names of the lines with numbers, in their order.
pub(crate) const CYCLE: &str = "cycle";

pub(crate) const RUNS: &str = "runs";

pub(crate) const SPENT: &str = "spent";

pub(crate) const FILES: &str = "files";

// The line that says where the next run begins: the path of a place follows `after `.
pub(crate) const START: &[u8] = b"start";

pub(crate) const AFTER: &[u8] = b"after ";

pub(crate) const ENDED: &[u8] = b"ended";

/// How many bytes of a part's cursor are read at most: its ends may be long.
pub(crate) const MAX_PART_TEXT: usize = 67_108_864;

// The first line of a part's cursor in each version. The second has the line of the audit that
// checks the inventories of versions.
pub(crate) const PART_FIRST_LINE_ONE: &[u8] = b"ocfl-scrub part cursor 1\n";

pub(crate) const PART_FIRST_LINE_TWO: &[u8] = b"ocfl-scrub part cursor 2\n";

// The lines of a part's ends: after each front comes the path of a place, or the word for no end.
pub(crate) const FROM: &[u8] = b"from ";

pub(crate) const BELOW: &[u8] = b"below ";

pub(crate) const END: &[u8] = b"end";

/// How the last line of each text begins, which seals the others.
pub(crate) const DIGEST: [u8; 7] = *b"digest ";

/// What stands before a path that has the text of the word.
pub(crate) const NO_WORD: &[u8] = b"./";
