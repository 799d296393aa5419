//! Why a call over a storage root failed, in words; with the name, if one is not UTF-8.
ghost use Rattle.std.specs.Prelude.{◌≡◌, ◌++◌, ◌==◌, IfOk, IfSome, OnOk, find, option_map, string_bytes};
ghost use Rattle.std.specs.List.{slice_split};
ghost use Rattle.ocfl_terminal.specs.Naming.{IsForeign, IsWhy, escaped_byte, is_foreign, is_shown, shown_byte, shown_name, with_name};

use std::alloc::{AllocError, Global};
use std::io::{self, Read};
use std::rt::Files;

/// Why a folder is not listed that holds a name that is not UTF-8.
const NOT_UTF_8: &str = "it holds a name that is not UTF-8";

/// How many bytes of names are read at once.
const NAMES_LEN: usize = 8_192;

/// How often names are read at most: enough for 1,000,000 of the longest.
const MOST_READS: u64 = 32_000;

/// Why a call failed. The process is in the folder that was listed, as it is while the process
/// goes into the folders of a storage root.
pub(crate) fn why_failed<R>(rt: &R, error: io::Error) -> Result<String, AllocError>
where
    R: Files + AllocGlobal,
{
    let words = format!(in rt.alloc(); "{error}")?;
    why_by(rt, words)
}

/// The same by the system's words.
fn why_by<R>(rt: &R, words: String) -> Result<String, AllocError>
where
    R: Files + AllocGlobal,
    ensures { IfOk result (λ text. IsWhy (string_bytes words) (string_bytes text)) }
{
    if words.as_str() != NOT_UTF_8 {
        return Ok(words);
    }
    with_name(rt.alloc(), words, find_foreign(rt))
}

/// Words, with the name that they are on if it is known.
fn with_name(alloc: Global, words: String, name: Option<String>) -> Result<String, AllocError>
    ensures { IfOk result (λ text. string_bytes text
        ≡ with_name (string_bytes words) (option_map string_bytes name)) }
{
    match name {
        Some(name) => format!(in alloc; "{words}: {name}"),
        None => Ok(words),
    }
}

/// The first name that is not UTF-8 in the folder that the process is in.
fn find_foreign<R>(rt: &R) -> Option<String>
where
    R: Files + AllocGlobal,
    ensures { IfSome result (λ text. IsForeign (string_bytes text)) }
{
    match rt.open_dir(".") {
        Ok(mut folder) => foreign_in(rt.alloc(), &mut folder),
        Err(_) => None,
    }
}

/// The first name that is not UTF-8 of those that a reader gives, each with NUL behind it.
fn foreign_in<F: Read>(alloc: Global, folder: &mut F) -> Option<String>
    ensures { IfSome result (λ text. IsForeign (string_bytes text)) }
{
    let mut names = [0; NAMES_LEN];
    for _ in 0..MOST_READS {
        let count = folder.read(&mut names).ok()?;
        if count == 0 {
            return None;
        }
        if let Some(name) = foreign_among(&names[..count.min(names.len())]) {
            return shown_name(alloc, name).ok();
        }
    }
    None
}

/// The first of these names, each with NUL behind it, that is not UTF-8.
fn foreign_among(names: &[u8]) -> Option<&[u8]>
    ensures { option_map (λ name. name.now) result
        ≡ find is_foreign (slice_split (λ b. b == 0) names.now) }
{
    names.split(|&byte| byte == 0).find(|name| is_foreign(name))
}

/// Whether a name is not UTF-8.
fn is_foreign(name: &[u8]) -> bool
    ensures { result ≡ is_foreign name.now }
{
    str::from_utf8(name).is_err()
}

/// Whether a byte is shown as it is.
fn is_shown(byte: u8) -> bool
    ensures { result ≡ is_shown byte }
{
    matches!(byte, b' '..=b'~') && byte != b'\\'
}

/// A byte as `\x` and two digits.
fn escaped(alloc: Global, byte: u8) -> Result<String, AllocError>
    ensures { IfOk result (λ text. string_bytes text ≡ escaped_byte byte) }
{
    format!(in alloc; "\\x{byte:02X}")
}

/// Appends a byte: as it is, or escaped.
fn push_shown(alloc: Global, text: &mut String, byte: u8) -> Result<(), AllocError>
    ensures { OnOk result
        (string_bytes text.new ≡ string_bytes text.old ++ shown_byte byte) }
{
    if is_shown(byte) {
        text.push(char::from(byte))
    } else {
        text.push_str(escaped(alloc, byte)?.as_str())
    }
}

/// A name in printable ASCII: all else as `\x` and two digits.
fn shown_name(alloc: Global, name: &[u8]) -> Result<String, AllocError>
    ensures { IfOk result (λ text. string_bytes text ≡ shown_name name.now) }
{
    let mut text = String::new(alloc);
    for &byte in name {
        push_shown(alloc, &mut text, byte)?;
    }
    Ok(text)
}
