//! Reading the fields of a checkpoint's lines.
ghost use Rattle.std.specs.Prelude.{◌≡◌, ◌≢◌, ◌^◌, ◌<◌, ℕ, All, List, IfOk, IfSome, IsNone, Bool, Err, Option, decimal, if◌then◌else◌};
ghost use Rattle.hex.specs.Hex.{encode_lower, IsBytes};
ghost use Rattle.ocfl_tree.specs.{Name.{IsPlace}, Place.{Place as ModelPlace}};
ghost use Rattle.ocfl_state.specs.Checkpoint.{IsDigest, AreNames, path_text, names_text, phase_text, yes_or_no, stood_text};
ghost use Rattle.ocfl_state.specs.CheckpointLines.{field_line, sizes_text};
ghost use Rattle.ocfl_state.specs.declared.checkpoint_parts.TopNames.{TopNames as ModelNames};
ghost use Rattle.ocfl_state.specs.declared.checkpoint_parts.Phase.{Phase as ModelPhase};

use crate::checkpoint_form::{AFTER, CLOSING, NO, OPEN, SLASH, START, YES};
use crate::checkpoint_parts::{Phase, TopNames};
use hex::FromHex;
use ocfl_cursor::after_prefix;
use ocfl_report::{TextStop, read_decimal, read_place, split_once};
use ocfl_tree::{Place, is_bytes};
use std::alloc::Global;

/// What stands in the line that begins so, and what follows the line. `None` if the text does
/// not begin with such a line.
pub(crate) fn split_line<'a>(front: &[u8], text: &'a [u8]) -> Option<(&'a [u8], &'a [u8])>
    ensures found { IfSome result
        (λ parts. text.now ≡ field_line front.now parts.0.now parts.1.now) }
    ensures first { IfSome result (λ parts. All (λ b. b ≢ 10) parts.0.now) }
    ensures missing { IsNone result
        → (field rest : List ℕ) → text.now ≢ field_line front.now field rest }
{
    split_once(after_prefix(front, text)?, b'\n')
}

/// The number below 2^64 that has these digits.
pub(crate) fn read_count(digits: &[u8]) -> Option<u64>
    ensures found { IfSome result (λ n. digits.now ≡ decimal n) }
    ensures fits { IfSome result (λ n. n < 2 ^ 64) }
    ensures missing { IsNone result → (n : ℕ) → n < 2 ^ 64 → digits.now ≢ decimal n }
{
    match u64::try_from(read_decimal(digits)?) {
        Ok(count) => Some(count),
        Err(_) => None,
    }
}

/// The lower-case hexadecimal digits of a SHA-256.
pub(crate) fn hex_digits(digest: [u8; 32]) -> [u8; 64]
    ensures { result ≡ encode_lower digest }
{
    let mut digits = [0; 64];
    hex::encode_to_slice(digest, &mut digits).unwrap();
    digits
}

/// Each array of 32 bytes can be a SHA-256.
pub(crate) fn digest_fits(digest: [u8; 32])
    ensures { IsDigest digest }
{
    bytes_fit(&digest);
}

fn bytes_fit(bytes: &[u8])
    ensures { IsBytes bytes.now }
{
    let _ = bytes.len();
}

/// The SHA-256 that has these digits.
pub(crate) fn read_digest(digits: &[u8]) -> Option<[u8; 32]>
    ensures found { IfSome result (λ d. digits.now ≡ encode_lower d) }
    ensures fits { IfSome result IsDigest }
    ensures missing { IsNone result → (d : List ℕ) → IsDigest d → digits.now ≢ encode_lower d }
{
    let digest = match <[u8; 32] as FromHex>::from_hex(digits) {
        Ok(digest) => digest,
        Err(_) => return None,
    };
    digest_fits(digest);
    // Decoding takes capitals too.
    if !is_bytes(digits, &hex_digits(digest)) {
        return None;
    }
    Some(digest)
}

/// The names in the top folder: their number, a space, and their SHA-256.
pub(crate) fn read_names(field: &[u8]) -> Option<TopNames>
    ensures found { IfSome result (λ names. field.now ≡ names_text names) }
    ensures fits { IfSome result AreNames }
    ensures missing { IsNone result
        → (names : ModelNames) → AreNames names → field.now ≢ names_text names }
{
    let (digits, hex_digits) = split_once(field, b' ')?;
    let count = read_count(digits)?;
    let digest = read_digest(hex_digits)?;
    Some(TopNames { count, digest })
}

/// How many bytes and lines a report has: two numbers with a space between them.
pub(crate) fn read_sizes(field: &[u8]) -> Option<(u64, u64)>
    ensures found { IfSome result (λ sizes. field.now ≡ sizes_text sizes.0 sizes.1) }
    ensures fits { IfSome result (λ sizes. (sizes.0 < 2 ^ 64) × (sizes.1 < 2 ^ 64)) }
    ensures missing { IsNone result → (bytes lines : ℕ) → bytes < 2 ^ 64 → lines < 2 ^ 64
        → field.now ≢ sizes_text bytes lines }
{
    let (front, back) = split_once(field, b' ')?;
    let bytes = read_count(front)?;
    let lines = read_count(back)?;
    Some((bytes, lines))
}

/// Whether the word is the first one, or the second. `None` if it is neither.
fn is_first(word: &[u8], first: &[u8], second: &[u8]) -> Option<bool>
    ensures found { IfSome result
        (λ is. word.now ≡ (if is then first.now else second.now)) }
    ensures missing { IsNone result → (word.now ≢ first.now) × (word.now ≢ second.now) }
{
    if is_bytes(word, first) {
        return Some(true);
    }
    if is_bytes(word, second) {
        return Some(false);
    }
    None
}

/// The phase of this word.
pub(crate) fn read_phase(word: &[u8]) -> Option<Phase>
    ensures found { IfSome result (λ phase. word.now ≡ phase_text phase) }
    ensures missing { IsNone result → (phase : ModelPhase) → word.now ≢ phase_text phase }
{
    if is_first(word, OPEN, CLOSING)? {
        Some(Phase::Open)
    } else {
        Some(Phase::Closing)
    }
}

/// Whether the word is `yes` or `no`.
pub(crate) fn read_whole(word: &[u8]) -> Option<bool>
    ensures found { IfSome result (λ whole. word.now ≡ yes_or_no whole) }
    ensures missing { IsNone result → (whole : Bool) → word.now ≢ yes_or_no whole }
{
    is_first(word, YES, NO)
}

/// The names of a path from `/` on.
pub(crate) fn read_path(alloc: Global, path: &[u8]) -> Result<Place, TextStop>
    ensures place { IfOk result (λ place. path.now ≡ path_text place) }
    ensures names { IfOk result IsPlace }
    ensures bad { result ≡ Err TextStop.Bad
        → (place : ModelPlace) → IsPlace place → path.now ≢ path_text place }
{
    if is_bytes(path, SLASH) {
        return Ok(Place::root(alloc));
    }
    let Some(names) = after_prefix(SLASH, path) else {
        return Err(TextStop::Bad);
    };
    let place = match read_place(alloc, names) {
        Ok(place) => place,
        Err(why) => return Err(why),
    };
    if place.depth() == 0 {
        return Err(TextStop::Bad);
    }
    Ok(place)
}

/// Where the cursor was: `start`, or `after ` and a place.
pub(crate) fn read_stood(alloc: Global, line: &[u8]) -> Result<Option<Place>, TextStop>
    ensures place { IfOk result (λ stood. line.now ≡ stood_text stood) }
    ensures names { IfOk result (λ stood. IfSome stood IsPlace) }
    ensures bad { result ≡ Err TextStop.Bad
        → (stood : Option ModelPlace) → IfSome stood IsPlace → line.now ≢ stood_text stood }
{
    if is_bytes(line, START) {
        return Ok(None);
    }
    let Some(path) = after_prefix(AFTER, line) else {
        return Err(TextStop::Bad);
    };
    match read_place(alloc, path) {
        Ok(place) => Ok(Some(place)),
        Err(why) => Err(why),
    }
}
