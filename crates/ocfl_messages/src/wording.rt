//! A finding in words.
ghost use Rattle.std.specs.Prelude.{◌≡◌, ◌++◌, IfOk, OnOk, option_map, string_bytes};
ghost use Rattle.ocfl_report.specs.Line.{line_of};
ghost use Rattle.ocfl_messages.specs.Wording.{at_space, both_text, coded_text, cut_text, detail_text, digests_text, has_digests as of_digests, is_missing as is_missing_part, named_text, plain_detail, path_part, said_text, words_text};

use crate::appending::put_made;
use crate::shown::{Shown, escaped};
use ocfl_codes::meaning_at;
use ocfl_report::{Code, Line, split_once};
use ocfl_tree::{is_bytes, is_text};
use std::alloc::{AllocError, Global};

/// How many digits of a digest are shown.
const DIGITS: usize = 12;

/// What comes before the first space, and what follows it.
pub(crate) fn split(text: &[u8]) -> Option<(&[u8], &[u8])>
    ensures { option_map (λ p. (p.0.now, p.1.now)) result ≡ at_space text.now }
{
    split_once(text, b' ')
}

/// Whether the detail of such a code names an algorithm and digests.
fn has_digests(code: Code) -> bool
    ensures { result ≡ of_digests code }
{
    matches!(code, Code::E060 | Code::E092 | Code::E093)
}

/// Whether the parts of a detail are an algorithm and `missing`.
pub(crate) fn is_missing(parts: Option<(&[u8], &[u8])>) -> bool
    ensures { result ≡ is_missing_part (option_map (λ p. (p.0.now, p.1.now)) parts.entry) }
{
    match parts {
        Some((_, rest)) => is_bytes(rest, b"missing"),
        None => false,
    }
}

/// What a finding means, in words.
fn words(line: &Line) -> &'static str
    ensures { result.now ≡ words_text (line_of line.now) }
{
    if has_digests(line.code) && is_missing(split(line.detail.as_bytes())) {
        return "missing";
    }
    meaning_at(line.code, &line.place)
}

/// The first digits of a digest.
fn cut(alloc: Global, digest: &[u8]) -> Result<String, AllocError>
    ensures { IfOk result (λ text. string_bytes text ≡ cut_text digest.now) }
{
    if digest.len() <= DIGITS {
        return escaped(alloc, digest);
    }
    let first = escaped(alloc, &digest[..DIGITS])?;
    format!(in alloc; "{first}..")
}

/// Which digest was expected, and which was found.
fn digests_said(
    alloc: Global,
    name: &[u8],
    expected: &[u8],
    found: &[u8],
) -> Result<String, AllocError>
    ensures { IfOk result
        (λ text. string_bytes text ≡ digests_text name.now expected.now found.now) }
{
    let name = escaped(alloc, name)?;
    let expected = cut(alloc, expected)?;
    let found = cut(alloc, found)?;
    format!(in alloc; ", expected {name} {expected}, found {found}")
}

/// Appends which digest was expected, and which was found.
fn put_digests(
    alloc: Global,
    name: &[u8],
    expected: &[u8],
    found: &[u8],
    text: &mut Vec<u8>,
) -> Result<(), AllocError>
    ensures { OnOk result (text.new.items
        ≡ text.old.items ++ digests_text name.now expected.now found.now) }
{
    put_made(digests_said(alloc, name, expected, found), text)
}

/// Appends the digests, of which there are two, or none of what is missing.
fn put_both(
    alloc: Global,
    name: &[u8],
    digests: Option<(&[u8], &[u8])>,
    text: &mut Vec<u8>,
) -> Result<(), AllocError>
    ensures { OnOk result (text.new.items ≡ text.old.items
        ++ both_text name.now (option_map (λ p. (p.0.now, p.1.now)) digests.entry)) }
{
    match digests {
        Some((expected, found)) => put_digests(alloc, name, expected, found, text),
        None => Ok(()),
    }
}

/// Appends what a detail says whose parts are an algorithm and what follows it.
fn put_named(
    alloc: Global,
    parts: Option<(&[u8], &[u8])>,
    text: &mut Vec<u8>,
) -> Result<(), AllocError>
    ensures { OnOk result (text.new.items ≡ text.old.items
        ++ named_text (option_map (λ p. (p.0.now, p.1.now)) parts.entry)) }
{
    match parts {
        Some((name, rest)) => put_both(alloc, name, split(rest), text),
        None => Ok(()),
    }
}

/// Appends a detail that has no digests.
fn put_other(alloc: Global, detail: &str, text: &mut Vec<u8>) -> Result<(), AllocError>
    ensures { OnOk result (text.new.items ≡ text.old.items ++ plain_detail detail.now) }
{
    if is_text(detail, "-") {
        return Ok(());
    }
    put_made(format!(in alloc; ": {}", Shown(detail)), text)
}

/// Appends what a detail says beyond the words.
fn put_detail(alloc: Global, code: Code, detail: &str, text: &mut Vec<u8>) -> Result<(), AllocError>
    ensures { OnOk result (text.new.items ≡ text.old.items ++ detail_text code detail.now) }
{
    if has_digests(code) {
        return put_named(alloc, split(detail.as_bytes()), text);
    }
    put_other(alloc, detail, text)
}

/// Appends a path, and what separates it from what is said of it.
pub(crate) fn put_path_part(path: &str, text: &mut Vec<u8>) -> Result<(), AllocError>
    ensures { OnOk result (text.new.items ≡ text.old.items ++ path_part path.now) }
{
    if path.is_empty() {
        return Ok(());
    }
    text.extend_from_slice(path.as_bytes())?;
    text.extend_from_slice(b": ")
}

/// Appends the words for a finding, and its code.
pub(crate) fn put_words(line: &Line, text: &mut Vec<u8>) -> Result<(), AllocError>
    ensures { OnOk result (text.new.items ≡ text.old.items ++ coded_text (line_of line.now)) }
{
    text.extend_from_slice(words(line).as_bytes())?;
    text.extend_from_slice(b" (")?;
    text.extend_from_slice(line.code.text().as_bytes())?;
    text.extend_from_slice(b")")
}

/// Appends a finding at this path.
pub(crate) fn put_said(
    alloc: Global,
    path: &str,
    line: &Line,
    text: &mut Vec<u8>,
) -> Result<(), AllocError>
    ensures { OnOk result (text.new.items
        ≡ text.old.items ++ said_text path.now (line_of line.now)) }
{
    text.extend_from_slice(b"\t")?;
    put_path_part(path, text)?;
    put_words(line, text)?;
    put_detail(alloc, line.code, line.detail.as_str(), text)?;
    text.extend_from_slice(b"\n")
}
