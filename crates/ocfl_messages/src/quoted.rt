//! A text as a word of a command line that is pasted.
ghost use Rattle.std.specs.Prelude.{◌≡◌, Some, flat_map};
ghost use Rattle.ocfl_report.specs.Text.{escape};
ghost use Rattle.ocfl_messages.specs.Quoted.{has_control as has_control_in, is_control as is_control_character, is_direction as is_direction_mark, quoted, quoted_byte};

use crate::shown::ESCAPED;
use percent_encoding::percent_encode;
use std::fmt;

/// A text whose `Display` is one word of a command line for a POSIX shell: it stands in single
/// quotes, with `'\''` for each quote in it. A text that has a control character, a mark of
/// direction (`Bidi_Control` of Unicode 15.0), U+2028 or U+2029 is escaped first, as in reports. So
/// nothing of it ends the word or the line, runs a command, moves the cursor of a terminal or turns
/// the line around.
#[derive(Clone, Copy)]
pub struct Quoted<'a>(pub &'a str);

impl fmt::Display for Quoted<'_> {
    ghost output = { λ s. Some (quoted s.0.now) };

    fn fmt<W: fmt::Write>(&self, f: &mut fmt::Formatter<W>) -> fmt::Result {
        if has_control(self.0) {
            return write!(f, "'{}'", EscapedWithin(self.0));
        }
        write!(f, "'{}'", Within(self.0))
    }
}

/// A text within single quotes.
#[derive(Clone, Copy)]
struct Within<'a>(&'a str);

impl fmt::Display for Within<'_> {
    ghost output = { λ s. Some (flat_map quoted_byte s.0.now) };

    fn fmt<W: fmt::Write>(&self, f: &mut fmt::Formatter<W>) -> fmt::Result {
        let mut rest = self.0;
        while let Some((part, after)) = rest.split_once('\'') {
            write!(f, "{part}'\\''")?;
            rest = after;
        }
        f.write_str(rest)
    }
}

/// A text within single quotes, escaped as in reports.
#[derive(Clone, Copy)]
struct EscapedWithin<'a>(&'a str);

impl fmt::Display for EscapedWithin<'_> {
    ghost output = { λ s. Some (flat_map quoted_byte (escape s.0.now)) };

    fn fmt<W: fmt::Write>(&self, f: &mut fmt::Formatter<W>) -> fmt::Result {
        for piece in percent_encode(self.0.as_bytes(), ESCAPED) {
            write!(f, "{}", Within(piece))?;
        }
        Ok(())
    }
}

/// Whether a text has a character that is obeyed and not shown.
pub(crate) fn has_control(text: &str) -> bool
    ensures { result ≡ has_control_in text.now }
{
    text.chars().any(|c| is_control(c))
}

/// Whether a terminal or a viewer obeys this character in place of showing it: a control code, a
/// mark of direction, or the end of a line or of a paragraph.
fn is_control(c: char) -> bool
    ensures { result ≡ is_control_character c }
{
    c.is_control() || is_direction(c) || matches!(c, '\u{2028}' | '\u{2029}')
}

/// Whether it is a mark of direction, which can turn around what stands before and behind it.
fn is_direction(c: char) -> bool
    ensures { result ≡ is_direction_mark c }
{
    match c {
        '\u{61c}' | '\u{200e}' | '\u{200f}' => true,
        '\u{202a}'..='\u{202e}' | '\u{2066}'..='\u{2069}' => true,
        _ => false,
    }
}
