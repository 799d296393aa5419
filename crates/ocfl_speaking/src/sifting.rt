//! What is found among the lines of a report, as its bytes come.
ghost use Rattle.std.specs.Prelude.{◌≡◌, ◌++◌, ◌∷◌, [], OnOk, Some};
ghost use Rattle.ocfl_tree.specs.Place.{Place as Spot};
ghost use Rattle.ocfl_speaking.specs.Sifting.{beginning as beginning_of};

use ocfl_codes::is_of_object;
use ocfl_messages::{Found, Gravest, Heads, Known};
use ocfl_report::{Line, TextStop, put_place, read_line, split_once};
use ocfl_tree::Place;
use std::alloc::{AllocError, Global};
use std::mem;

/// How the lines of a report begin that find nothing.
const CLEAN: &[u8] = b"ok\t";

/// How a line that finds nothing ends that is of an object, or of the storage root.
const HEAD: &[u8] = b"\t-\n";

/// What was found in the bytes of a report since that was asked last. Lines that are no report
/// lines are left out and counted.
#[derive(Drop)]
pub struct Sifting {
    found: Found,
    /// The beginning of a line.
    rest: Vec<u8>,
    /// How lines begin of files that are right in the object whose head came last; empty if none
    /// came.
    within: Vec<u8>,
    /// How many of them came that were not taken yet.
    right: u64,
    /// How many lines were left out.
    broken: u64,
}

impl Sifting {
    ghost use Rattle.std.specs.Prelude.{◌≡◌, ◌≢◌, ◌++◌, ◌∷◌, List, [], All, Option, OnOk, IfOk, false};
    ghost use Rattle.ocfl_tree.specs.Place.{Text as ModelText};
    ghost use Rattle.ocfl_report.specs.{Line.{line_of}, Text.{IsLineText}};
    ghost use Rattle.ocfl_messages.specs.Finding.{head_after, head_with};
    ghost use Rattle.ocfl_messages.specs.declared.known.KnownEntry.{KnownEntry as ModelEntry};
    ghost use Rattle.ocfl_speaking.specs.Sifting.{Given, IsFound, IsOne, IsSifted, beginning, first_given, given_on, is_passed, lines_in};
    ghost use Rattle.ocfl_speaking.specs.Internal.{IsRead, given_whole};

    /// Nothing, of no bytes, before which these heads came.
    pub fn new(alloc: Global, before: Heads) -> Sifting
        ensures { (known : List ModelEntry) → IsSifted known result (first_given before.last) }
    {
        Sifting {
            found: Found::new(alloc, before),
            rest: Vec::new(alloc),
            within: Vec::new(alloc),
            right: 0,
            broken: 0,
        }
    }

    /// How many lines were no report lines, of all that were given.
    pub fn broken(&self) -> u64
        ensures { result ≡ self.now.broken }
    {
        self.broken
    }

    /// Takes the next bytes, which may begin and end within a line, and leaves out what is known.
    /// To be called with one list each time. It is not used again if memory runs out.
    pub fn take(&mut self, alloc: Global, known: &Known, bytes: &[u8]) -> Result<(), AllocError>
        ensures { OnOk result ((g : Given) → IsSifted known.now self.old g
            → IsSifted known.now self.new (given_on g bytes.now)) }
    {
        let mut left = bytes;
        while let Some((part, after)) = split_once(left, b'\n') {
            self.end_line(alloc, known, part)?;
            left = after;
        }
        self.rest.extend_from_slice(left)?;
        Ok(())
    }

    /// Takes the end of a line, up to its line feed.
    fn end_line(&mut self, alloc: Global, known: &Known, part: &[u8]) -> Result<(), AllocError>
        requires { All (λ c. c ≢ 10) part.now }
        ensures { OnOk result ((g : Given) → IsSifted known.now self.old g
            → IsSifted known.now self.new (given_on g (part.now ++ 10 ∷ []))) }
    {
        let mut text = mem::replace(&mut self.rest, Vec::new(alloc));
        put_end(part, &mut text)?;
        self.take_line(alloc, known, &text)?;
        text.clear();
        self.rest = text;
        Ok(())
    }

    /// Takes a line, with its line feed, where no beginning of one is kept.
    fn take_line(&mut self, alloc: Global, known: &Known, text: &[u8]) -> Result<(), AllocError>
        requires { self.now.rest.items ≡ [] }
        ensures taken { OnOk result ((g : Given) → IsOne text.now → IsSifted known.now self.old g
            → IsSifted known.now self.new (given_on g text.now)) }
        ensures rest { OnOk result (self.new.rest.items ≡ []) }
    {
        if self.is_passed(text) {
            self.right = self.right.saturating_add(1);
            return Ok(());
        }
        self.take_right();
        self.read(alloc, known, text)
    }

    /// Whether a line is passed as that of a file that is right, in the object whose head came
    /// last. Most are, and to read each would cost much.
    fn is_passed(&self, text: &[u8]) -> bool
        ensures { (seen : Option Spot) → self.now.within.items ≡ beginning seen
            → result ≡ is_passed seen text.now }
    {
        let within = self.within.as_slice();
        !within.is_empty() && text.starts_with(within) && !text.ends_with(HEAD)
    }

    /// Takes the lines of files that are right.
    fn take_right(&mut self)
        requires { self.now.rest.items ≡ [] }
        ensures read { (known : List ModelEntry) (g : Given) → IsSifted known self.old g
            → IsRead known self.new g }
        ensures within { self.new.within ≡ self.old.within }
        ensures rest { self.new.rest ≡ self.old.rest }
    {
        self.found.take_right(self.right);
        self.right = 0;
    }

    /// Reads a line, with its line feed, which is not passed.
    fn read(&mut self, alloc: Global, known: &Known, text: &[u8]) -> Result<(), AllocError>
        ensures read { OnOk result ((g : Given) (h : IsRead known.now self.old g) → IsOne text.now
            → is_passed (head_after g.seen (lines_in h.lines)) text.now ≡ false
            → IsRead known.now self.new (given_on g text.now)) }
        ensures rest { self.new.rest ≡ self.old.rest }
    {
        match read_line(alloc, text) {
            Ok(line) => self.keep(known, line),
            Err(TextStop::Bad) => {
                self.broken = self.broken.saturating_add(1);
                Ok(())
            }
            Err(TextStop::Memory) => Err(AllocError),
        }
    }

    /// Takes a line that is a report's.
    fn keep(&mut self, known: &Known, line: Line) -> Result<(), AllocError>
        ensures kept { OnOk result ((g : Given) (t : ModelText) (h : IsRead known.now self.old g)
            → IsOne t → IsLineText t (line_of line)
            → is_passed (head_after g.seen (lines_in h.lines)) t ≡ false
            → IsRead known.now self.new (given_on g t)) }
        ensures rest { self.new.rest ≡ self.old.rest }
    {
        self.note_object(&line)?;
        self.found.take_line(known, line)
    }

    /// Notes how lines begin of files that are right in the object of a line, if it is of a head.
    fn note_object(&mut self, line: &Line) -> Result<(), AllocError>
        ensures noted { OnOk result ((seen : Option Spot) → self.old.within.items ≡ beginning seen
            → self.new.within.items ≡ beginning (head_with seen (line_of line.now))) }
        ensures same { self.new ≡ record self.old { within = self.new.within } }
    {
        if !is_of_object(line) {
            return Ok(());
        }
        self.within.clear();
        put_beginning(&line.place, &mut self.within)
    }

    /// The findings among the lines that were given since they were asked for last. The beginning
    /// of a line counts as a line that is left out. The report may be over. It is not used again if
    /// memory runs out.
    pub fn end(&mut self, alloc: Global, is_over: bool) -> Result<Gravest, AllocError>
        ensures { IfOk result (λ found. (known : List ModelEntry) (g : Given)
            → IsSifted known self.old g → IsFound known is_over g found self.new) }
    {
        self.cut();
        self.take_right();
        let found = mem::replace(&mut self.found, Found::new(alloc, Heads::new()));
        let Ok((gravest, heads)) = found.end(is_over) else {
            return Err(AllocError);
        };
        self.found = Found::new(alloc, heads);
        Ok(gravest)
    }

    /// Leaves out the beginning of a line.
    fn cut(&mut self)
        ensures cut { (known : List ModelEntry) (g : Given) (h : IsSifted known self.old g)
            → IsSifted known self.new (given_whole g h.lines self.old.rest.items) }
        ensures rest { self.new.rest.items ≡ [] }
    {
        if !self.rest.is_empty() {
            self.broken = self.broken.saturating_add(1);
            self.rest.clear();
        }
    }
}

/// Appends the end of a line, and its line feed.
fn put_end(part: &[u8], text: &mut Vec<u8>) -> Result<(), AllocError>
    ensures { OnOk result (text.new.items ≡ text.old.items ++ part.now ++ 10 ∷ []) }
{
    text.extend_from_slice(part)?;
    text.push(b'\n')?;
    Ok(())
}

/// Appends how lines begin of files that are right in an object.
fn put_beginning(object: &Place, text: &mut Vec<u8>) -> Result<(), AllocError>
    ensures { OnOk result (text.new.items ≡ text.old.items ++ beginning_of (Some object.now)) }
{
    text.extend_from_slice(CLEAN)?;
    put_place(object, text)?;
    text.push(b'/')?;
    Ok(())
}
