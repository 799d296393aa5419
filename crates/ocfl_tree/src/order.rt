//! The order of paths.
ghost use Rattle.std.specs.Prelude.{◌≡◌, ◌≤◌, ◌<◌, length, drop, IsTrue};
ghost use Rattle.ocfl_tree.specs.Place.{place_cmp, begins as begins_place};
ghost use Rattle.ocfl_tree.specs.Path.{elements, names_of, byte_cmp, path_cmp, path_begins, is_ended as is_ended_text};

use std::cmp::Ordering;

/// Compares two bytes that differ: a slash ends a name, and so comes before all else.
fn cmp_bytes(byte: u8, other: u8) -> Ordering
    ensures { result ≡ byte_cmp byte other }
{
    if byte == b'/' {
        return Ordering::Less;
    }
    if other == b'/' {
        return Ordering::Greater;
    }
    byte.cmp(&other)
}

/// Whether two texts share the first `count` bytes.
fn shares(text: &[u8], other: &[u8], count: usize) -> bool
    ensures text { IsTrue result → count ≤ length text.now }
    ensures other { IsTrue result → count ≤ length other.now }
    ensures same { IsTrue result → path_cmp (drop count text.now) (drop count other.now)
        ≡ path_cmp text.now other.now }
{
    count <= text.len().min(other.len()) && text[..count] == other[..count]
}

/// What is left of two texts without the bytes that they share at the front, in steps of this many.
fn past_shared<'t>(text: &'t [u8], other: &'t [u8], step: usize) -> (&'t [u8], &'t [u8])
    requires { 0 < step }
    ensures { path_cmp result.0.now result.1.now ≡ path_cmp text.now other.now }
{
    let mut rest = text;
    let mut other_rest = other;
    while shares(rest, other_rest, step) {
        rest = rest.split_at(step).1;
        other_rest = other_rest.split_at(step).1;
    }
    (rest, other_rest)
}

/// Compares two texts byte by byte.
fn cmp_rest(text: &[u8], other: &[u8]) -> Ordering
    ensures { result ≡ path_cmp text.now other.now }
{
    let shared = text.len().min(other.len());
    for index in 0..shared {
        if text[index] != other[index] {
            return cmp_bytes(text[index], other[index]);
        }
    }
    text.len().cmp(&other.len())
}

/// Compares two texts by what is between their slashes, element by element, a beginning before
/// its extensions. Paths in one directory share many bytes, which are passed by in long steps.
#[tactic(auto, using(crate::proofs::PathOrders::path_cmp_is))]
pub fn cmp_elements(text: &[u8], other: &[u8]) -> Ordering
    ensures { result ≡ place_cmp (elements text.now) (elements other.now) }
{
    let (text, other) = past_shared(text, other, 512);
    let (text, other) = past_shared(text, other, 128);
    let (text, other) = past_shared(text, other, 16);
    cmp_rest(text, other)
}

/// Compares two paths name by name.
#[tactic(auto, using(crate::proofs::PathOrders::elements_cmp))]
pub(crate) fn cmp_paths(path: &str, other: &str) -> Ordering
    ensures { result ≡ place_cmp (names_of path.now) (names_of other.now) }
{
    cmp_elements(path.as_bytes(), other.as_bytes())
}

fn is_ended(rest: &[u8]) -> bool
    ensures { result ≡ is_ended_text rest.now }
{
    match rest {
        [] => true,
        [next, ..] => *next == b'/',
    }
}

fn text_begins(text: &[u8], other: &[u8]) -> bool
    ensures { result ≡ path_begins text.now other.now }
{
    if !other.starts_with(text) {
        return false;
    }
    let (_, rest) = other.split_at(text.len());
    is_ended(rest)
}

/// Whether a path's names begin those of another, or are them.
#[tactic(auto, using(crate::proofs::PathOrders::names_begin))]
pub(crate) fn begins(path: &str, other: &str) -> bool
    ensures { result ≡ begins_place (names_of path.now) (names_of other.now) }
{
    path.is_empty() || text_begins(path.as_bytes(), other.as_bytes())
}
