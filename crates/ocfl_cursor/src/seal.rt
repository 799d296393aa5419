//! Sealing stored texts by their last lines, and what such a line seals.
ghost use Rattle.std.specs.Prelude.{◌≡◌, ◌++◌, IfErr, IfOk, IfSome, IsOk, is_some};
ghost use Rattle.ocfl_cursor.specs.Refused.{IsRefused, is_version, reason_by};
ghost use Rattle.ocfl_cursor.specs.Sealed.{is_sealed_by, seal_line as line_of_seal, with_seal};
ghost use Rattle.ocfl_cursor.specs.declared.refused.Refused.TheVariants.{Malformed};

use crate::pieces::{after_prefix, first_line};
use crate::refused::{Refused, TextKind};
use ocfl_tree::is_bytes;
use sha2::{Digest, Sha256};
use std::alloc::{AllocError, Global};

/// How many bytes the last line has.
const SEAL_LINE: usize = 72;

/// The last line of a text: its front, the SHA-256 of all that stands before it, in lower-case
/// hexadecimal digits, and a line feed.
fn seal_line(front: [u8; 7], body: &[u8]) -> [u8; SEAL_LINE]
    ensures { result ≡ line_of_seal front body.now }
{
    let mut digits = [0; 64];
    hex::encode_to_slice(Sha256::digest(body), &mut digits).unwrap();
    let mut line = [b'\n'; SEAL_LINE];
    line[7..71].copy_from_slice(&digits);
    line[..7].copy_from_slice(&front);
    line
}

/// A text: its first line, with its line feed, then these lines, and a last one, which seals them.
/// The last line begins with this front.
pub fn sealed_text(
    alloc: Global,
    front: [u8; 7],
    first_line: &[u8],
    lines: &[u8],
) -> Result<Vec<u8>, AllocError>
    ensures { IfOk result (λ text. text.items ≡ with_seal front (first_line.now ++ lines.now)) }
{
    let mut text = Vec::from_slice(alloc, first_line)?;
    text.extend_from_slice(lines)?;
    let last_line = seal_line(front, text.as_slice());
    text.extend_from_slice(&last_line)?;
    Ok(text)
}

/// What stands before the last line of a text, if that begins with this front and seals it.
pub fn sealed_body(front: [u8; 7], text: &[u8]) -> Option<&[u8]>
    ensures found { IfSome result (λ body. text.now ≡ with_seal front body.now) }
    ensures sealed { is_some result ≡ is_sealed_by front text.now }
{
    if text.len() < SEAL_LINE {
        return None;
    }
    let (body, last_line) = text.split_at(text.len() - SEAL_LINE);
    if is_bytes(last_line, &seal_line(front, body)) {
        Some(body)
    } else {
        None
    }
}

/// What stands before the last line of a text of this kind, if it begins with the front, has one
/// of these digits as its version, and ends with a line of the front `seal` that seals it.
///
/// Other bytes are refused for the first reason that applies: `NotA`, `Version` or `Damaged`.
pub fn body_of<'a>(
    kind: TextKind,
    front: &[u8],
    digits: &[u8],
    seal: [u8; 7],
    text: &'a [u8],
) -> Result<&'a [u8], Refused>
    ensures body { IfOk result (λ body. text.now ≡ with_seal seal body.now) }
    ensures passed { IsOk result
        → reason_by kind front.now digits.now seal text.now ≡ Malformed }
    ensures refused { IfErr result (λ why. IsRefused
        (reason_by kind front.now digits.now seal text.now)
        (reason_by kind front.now digits.now seal text.now ≡ Malformed) why) }
{
    let Some(rest) = after_prefix(front, text) else {
        return Err(Refused::NotA(kind));
    };
    if !is_version(digits, first_line(rest)) {
        return Err(Refused::Version);
    }
    let Some(body) = sealed_body(seal, text) else {
        return Err(Refused::Damaged);
    };
    Ok(body)
}

/// Whether the text is one of these digits.
fn is_version(digits: &[u8], text: &[u8]) -> bool
    ensures { result ≡ is_version digits.now text.now }
{
    match text {
        [digit] => digits.contains(digit),
        _ => false,
    }
}
