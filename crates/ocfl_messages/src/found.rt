//! The findings among the bytes of a report, which come piece by piece.

ghost use Rattle.std.specs.Prelude.{◌≡◌, ◌∷◌, ◌++◌, [], OnOk};

use crate::finding::Heads;
use crate::gathering::Gathering;
use crate::gravest::Gravest;
use crate::known::Known;
use ocfl_report::{Line, TextStop, read_line, split_once};
use std::alloc::{AllocError, Global};

/// What was found in the bytes of a report so far.
#[derive(Drop)]
pub struct Found {
    /// The findings among the lines.
    gathering: Gathering,
    /// What comes after the last line feed.
    rest: Vec<u8>,
}

impl Found {
    ghost use Rattle.std.specs.Prelude.{◌≡◌, ◌≢◌, List, [], ◌∷◌, ◌++◌, All, Option, IfOk, OnErr, OnOk, length};
    ghost use Rattle.ocfl_tree.specs.Place.{Place as ModelPlace, Text as ModelText};
    ghost use Rattle.ocfl_report.specs.{Line.{Line as ModelLine, line_of}, Text.{IsLine, line_text, lines_text}};
    ghost use Rattle.ocfl_messages.specs.Finding.{Finding as ModelFinding, Section, ended_with, section_with};
    ghost use Rattle.ocfl_messages.specs.{Found.{IsAfter, AreAll, HasBadLine}, Gathering.{AreRightIn, IsGathered}, Known.{is_unknown}, Tally.{IsCount}};
    ghost use Rattle.ocfl_messages.specs.declared.known.KnownEntry.{KnownEntry as ModelEntry};

    /// Nothing, of no bytes, before which these heads came.
    pub fn new(alloc: Global, before: Heads) -> Found
        ensures { (known : List ModelEntry) → IsAfter known before.last result [] }
    {
        Found {
            gathering: Gathering::new(alloc, before),
            rest: Vec::new(alloc),
        }
    }

    /// Takes the next bytes, which may begin and end within a line, and leaves out what is known.
    /// It holds one line, and at most 200 findings of each weight. To be called with one list each
    /// time. [`TextStop::Bad`] if one of their lines is not a line of a report.
    pub fn take(self, alloc: Global, known: &Known, bytes: &[u8]) -> Result<Found, TextStop>
        ensures ok { IfOk result (λ found. (head : Option ModelPlace) (b : ModelText)
            → IsAfter known.now head self b
            → IsAfter known.now head found (b ++ bytes.now)) }
        ensures bad { result ≡ Err TextStop.Bad → (head : Option ModelPlace) (b : ModelText)
            → IsAfter known.now head self b → HasBadLine (b ++ bytes.now) }
    {
        let mut found = self;
        let mut left = bytes;
        while let Some((part, after)) = split_once(left, b'\n') {
            found.take_end(alloc, known, part)?;
            left = after;
        }
        found.rest.extend_from_slice(left)?;
        Ok(found)
    }

    /// Takes the end of a line, up to its line feed.
    fn take_end(&mut self, alloc: Global, known: &Known, part: &[u8]) -> Result<(), TextStop>
        requires { All (λ c. c ≢ 10) part.now }
        ensures ok { OnOk result ((head : Option ModelPlace) (b : ModelText)
            → IsAfter known.now head self.old b
            → IsAfter known.now head self.new (b ++ (part.now ++ 10 ∷ []))) }
        ensures bad { result ≡ Err TextStop.Bad → (head : Option ModelPlace)
            (b after : ModelText)
            → IsAfter known.now head self.old b
            → HasBadLine (b ++ (part.now ++ 10 ∷ []) ++ after) }
    {
        put_end(part, &mut self.rest)?;
        let line = read_line(alloc, self.rest.as_slice())?;
        self.gather(known, line)?;
        self.rest.clear();
        Ok(())
    }

    /// Gathers a line, unless it is known.
    fn gather(&mut self, known: &Known, line: Line) -> Result<(), AllocError>
        ensures gathered { OnOk result ((fs : List ModelFinding) (s : Section)
            → IsGathered (is_unknown known.now) self.old.gathering fs s
            → IsGathered (is_unknown known.now) self.new.gathering
            (fs ++ ended_with s (line_of line)) (section_with s (line_of line))) }
        ensures rest { self.new.rest ≡ self.old.rest }
    {
        let is_said = !known.names(&line);
        self.gathering.take(line, is_said)
    }

    /// Takes a line, which was read from the next bytes, where no line was cut before it. It leaves
    /// out what is known, as [`Found::take`] does. It is not used again if memory runs out.
    pub fn take_line(&mut self, known: &Known, line: Line) -> Result<(), AllocError>
        ensures taken { OnOk result ((head : Option ModelPlace) (b : ModelText)
            → IsLine (line_of line) → self.old.rest.items ≡ []
            → IsAfter known.now head self.old b
            → IsAfter known.now head self.new (b ++ line_text (line_of line))) }
        ensures rest { self.new.rest ≡ self.old.rest }
    {
        self.gather(known, line)
    }

    /// Takes so many lines of files that are right, of the object whose head came last, where no
    /// line was cut before them. It is the same as taking them one by one, and needs no memory.
    pub fn take_right(&mut self, count: u64)
        ensures taken { (known : List ModelEntry) (head : Option ModelPlace) (b : ModelText)
            (ls : List ModelLine) → IsCount count (length ls) → All IsLine ls
            → AreRightIn self.old.gathering.heads.last ls → self.old.rest.items ≡ []
            → IsAfter known head self.old b
            → IsAfter known head self.new (b ++ lines_text ls) }
        ensures heads { self.new.gathering.heads ≡ self.old.gathering.heads }
        ensures rest { self.new.rest ≡ self.old.rest }
    {
        self.gathering.take_right(count);
    }

    /// The findings of all the bytes, each with how many files of its object are right, and the
    /// object whose head came last, which has no more lines if the report is over.
    /// [`TextStop::Bad`] if the last line has no line feed.
    pub fn end(self, is_over: bool) -> Result<(Gravest, Heads), TextStop>
        ensures ok { IfOk result (λ all. (known : List ModelEntry) (head : Option ModelPlace)
            (b : ModelText)
            → IsAfter known head self b → AreAll known is_over head all.0 all.1 b) }
        ensures bad { OnErr result (self.rest.items ≢ []) }
        ensures memory { result ≢ Err TextStop.Memory }
    {
        if !self.rest.is_empty() {
            return Err(TextStop::Bad);
        }
        let Found {
            gathering,
            rest: _rest,
        } = self;
        Ok(gathering.end(is_over))
    }
}

impl Heads {
    ghost use Rattle.std.specs.Prelude.{IfOk};
    ghost use Rattle.ocfl_messages.specs.Found.{HasBadLine, IsHeadIn};

    /// The object whose head is the last one in these bytes of a report, which begin with a line:
    /// the one that the next line may be in. What follows the last line feed is passed over.
    /// [`TextStop::Bad`] if one of their lines is not a line of a report.
    pub fn within(alloc: Global, bytes: &[u8]) -> Result<Heads, TextStop>
        ensures ok { IfOk result (λ heads. IsHeadIn heads bytes.now) }
        ensures bad { result ≡ Err TextStop.Bad → HasBadLine bytes.now }
    {
        let known = Known::new(alloc);
        let Found {
            gathering,
            rest: _rest,
        } = Found::new(alloc, Heads::new()).take(alloc, &known, bytes)?;
        let (_, heads) = gathering.end(false);
        Ok(heads)
    }
}

/// Appends the end of a line, and its line feed.
fn put_end(part: &[u8], rest: &mut Vec<u8>) -> Result<(), AllocError>
    ensures { OnOk result (rest.new.items ≡ rest.old.items ++ part.now ++ 10 ∷ []) }
{
    rest.extend_from_slice(part)?;
    rest.push(b'\n')?;
    Ok(())
}
