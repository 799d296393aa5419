//! Listed paths.
ghost use Rattle.std.specs.Prelude.{◌≡◌, ◌∷◌, [], ◌≤◌, ◌==◌, ◌||◌, ◌&&◌, nat_lt, nat_eq, not, length, count_by, true, false, IfOk, MatchOption, codes};
ghost use Rattle.std.specs.List.{list_any, list_all, starts_with, ends_with};
ghost use Rattle.std.specs.{Str.{all_ascii_digits}, Char.{is_ascii_digit}};
ghost use Rattle.ocfl_tree.specs.Path.{elements};
ghost use Rattle.ocfl_inventory.specs.ListedPath.{is_version_name as is_version_text, is_too_long, is_empty_or_dots as is_empty_or_dots_text, is_too_long_or_nul as is_too_long_or_nul_text, is_content_path as is_content_place, path_fault, is_kept, max_elements};

use crate::texts::has_byte;
use ocfl_report::Code;
use ocfl_tree::{Place, is_text};
use std::alloc::{AllocError, Global};

/// A path of more elements is not kept.
const MAX_ELEMENTS: usize = 128;

/// The length of a run whose slashes are counted in one byte.
const RUN_LEN: usize = 128;

fn all_digits(bytes: &[u8]) -> bool
    ensures { result ≡ list_all is_ascii_digit bytes.now }
{
    bytes.iter().all(|b| b.is_ascii_digit())
}

fn are_digits(bytes: &[u8]) -> bool
    ensures { result ≡ all_ascii_digits bytes.now }
{
    all_digits(bytes)
}

/// Whether a name is that of a version's directory: `v` and then ASCII digits, at least one (OCFL
/// 1.1, 3.3 Version Directories).
pub fn is_version_name(text: &str) -> bool
    ensures { result ≡ is_version_text text.now }
{
    match text.as_bytes() {
        [b'v', digits @ ..] => !digits.is_empty() && are_digits(digits),
        _ => false,
    }
}

fn is_empty_or_dots(text: &str) -> bool
    ensures { result ≡ is_empty_or_dots_text text.now }
{
    is_text(text, "") || is_text(text, ".") || is_text(text, "..")
}

fn has_empty_or_dots(text: &str) -> bool
    ensures { result ≡ list_any is_empty_or_dots_text (elements text.now) }
{
    text.split('/').any(|element| is_empty_or_dots(element))
}

fn has_long(text: &str) -> bool
    ensures { result ≡ list_any is_too_long (elements text.now) }
{
    text.split('/').any(|element| element.len() > 255)
}

fn has_too_long_or_nul(text: &str) -> bool
    ensures { result ≡ list_any is_too_long_or_nul_text (elements text.now) }
{
    has_long(text) || has_byte(text.as_bytes(), 0)
}

/// How many slashes are in a run of bytes that is short enough to count them in one byte, and so
/// many at a time.
fn slashes_in(run: &[u8]) -> u8
    requires { length run.now ≤ 128 }
    ensures { result ≡ count_by (λ b. b == 47) run.now }
{
    let mut count = 0;
    for byte in run {
        count += u8::from(*byte == b'/');
    }
    count
}

fn slashes(bytes: &[u8]) -> usize
    ensures { result ≡ count_by (λ b. b == 47) bytes.now }
{
    let mut rest = bytes;
    let mut count = 0;
    while rest.len() > RUN_LEN {
        let (run, behind) = rest.split_at(RUN_LEN);
        count += slashes_in(run) as usize;
        rest = behind;
    }
    count + slashes_in(rest) as usize
}

fn is_deep(text: &str) -> bool
    ensures { result ≡ nat_lt max_elements (length (elements text.now)) }
{
    slashes(text.as_bytes()) >= MAX_ELEMENTS
}

/// The first element of a path and what is left after its slash, or none if there is no slash.
fn split_first(text: &str) -> Option<(&str, &str)>
    ensures { MatchOption result (elements text.now ≡ text.now ∷ [])
        (λ r. elements text.now ≡ r.0.now ∷ elements r.1.now) }
{
    text.split_once('/')
}

fn is_content_path(content: &str, text: &str) -> bool
    ensures { result ≡ is_content_place content.now (elements text.now) }
{
    let Some((version, below)) = split_first(text) else {
        return false;
    };
    let Some((name, _)) = split_first(below) else {
        return false;
    };
    is_version_name(version) && is_text(name, content)
}

fn has_slash_at_end(text: &str) -> bool
    ensures { result ≡ (starts_with nat_eq text.now (codes "/") || ends_with nat_eq text.now
        (codes "/")) }
{
    text.as_bytes().starts_with(b"/") || text.as_bytes().ends_with(b"/")
}

/// Whether a path is elsewhere than those that are kept, whatever its elements are.
fn is_elsewhere(content: &str, text: &str) -> bool
    ensures { result ≡ (not (is_content_place content.now (elements text.now)) || nat_lt
        max_elements (length (elements text.now))) }
{
    !is_content_path(content, text) || is_deep(text)
}

/// What is wrong with a listed path.
pub(crate) fn fault(content: &str, text: &str) -> Option<Code>
    ensures { result ≡ path_fault content.now text.now }
{
    if has_slash_at_end(text) {
        return Some(Code::E100);
    }
    if has_empty_or_dots(text) {
        return Some(Code::E099);
    }
    if is_elsewhere(content, text) || has_too_long_or_nul(text) {
        return Some(Code::S06);
    }
    None
}

/// The place of a listed path that nothing is wrong with. That its elements are names is left to
/// the place to find out.
pub(crate) fn kept_place(
    alloc: Global,
    content: &str,
    text: &str,
) -> Result<Option<Place>, AllocError>
    ensures { IfOk result (λ o. MatchOption o (is_kept content.now text.now ≡ false)
        (λ place. (is_kept content.now text.now ≡ true) × (place ≡ elements text.now))) }
{
    if is_elsewhere(content, text) {
        return Ok(None);
    }
    Ok(Place::from_path(String::from_str(alloc, text)?))
}
