//! Why bytes are refused as a stored text of one kind.
ghost use Rattle.std.specs.Prelude.{◌≡◌, Some};
ghost use Rattle.ocfl_cursor.specs.{PartRefusal.{part_refused_text}, Refused.{refusal_of, refused_text}};
ghost use Rattle.ocfl_cursor.specs.declared.refused.PartRefused.TheVariants.{Text};
ghost use Rattle.ocfl_cursor.specs.declared.refused.Refused.TheVariants.{Memory};

use ocfl_report::TextStop;
use std::alloc::AllocError;
use std::error::Error;
use std::fmt;

/// What a stored text is of: the state of a run, or of a night.
#[derive(Clone, Copy, Debug, PartialEq, Eq)]
pub enum TextKind {
    Cursor,
    Checkpoint,
}

/// Why bytes are not read as a stored text: the first of these that applies, but that memory may be
/// refused before it is known whether they are malformed.
#[derive(Clone, Copy, Debug, PartialEq, Eq)]
pub enum Refused {
    /// They do not begin as a text of this kind, or are more than are read as one.
    NotA(TextKind),
    /// The version in the first line is not known.
    Version,
    /// The last line is not the digest line of what is before it.
    Damaged,
    /// They are no text of the kind.
    Malformed,
    /// Memory was refused.
    Memory,
}

impl fmt::Display for Refused {
    ghost output = { λ why. Some (refused_text why) };

    fn fmt<W: fmt::Write>(&self, f: &mut fmt::Formatter<W>) -> fmt::Result {
        match self {
            Refused::NotA(TextKind::Cursor) => f.write_str("not a cursor"),
            Refused::NotA(TextKind::Checkpoint) => f.write_str("not a checkpoint"),
            Refused::Version => f.write_str("version"),
            Refused::Damaged => f.write_str("damaged"),
            Refused::Malformed => f.write_str("malformed"),
            Refused::Memory => f.write_str("out of memory"),
        }
    }
}

impl Error for Refused {}

impl From<TextStop> for Refused {
    ghost from_gives = { λ stop why. why ≡ refusal_of stop };

    fn from(stop: TextStop) -> Refused {
        match stop {
            TextStop::Bad => Refused::Malformed,
            TextStop::Memory => Refused::Memory,
        }
    }
}

impl From<AllocError> for Refused {
    ghost from_gives = { λ _ why. why ≡ Memory };

    fn from(_: AllocError) -> Refused {
        Refused::Memory
    }
}

/// Why bytes are not read as the cursor of one part.
#[derive(Clone, Copy, Debug, PartialEq, Eq)]
pub enum PartRefused {
    /// They are not the text of any part's cursor, or memory was refused. The version is never the
    /// reason: their first line is that of a part's cursor, or they are not a cursor.
    Text(Refused),
    /// They are the text of a cursor of another part.
    OtherPart,
}

impl fmt::Display for PartRefused {
    ghost output = { λ why. Some (part_refused_text why) };

    fn fmt<W: fmt::Write>(&self, f: &mut fmt::Formatter<W>) -> fmt::Result {
        match self {
            PartRefused::Text(why) => write!(f, "{why}"),
            PartRefused::OtherPart => f.write_str("another part"),
        }
    }
}

impl Error for PartRefused {}

impl From<Refused> for PartRefused {
    ghost from_gives = { λ why refused. refused ≡ Text why };

    fn from(why: Refused) -> PartRefused {
        PartRefused::Text(why)
    }
}
