//! Digests in hexadecimal digits.
ghost use Rattle.std.specs.Prelude.{◌≡◌, ◌≢◌, ◌∷◌, ◌/◌, ◌%◌, IfOk, MatchOption, slice_index};
ghost use Rattle.std.specs.Prelude.{string_bytes};
ghost use Rattle.hex.specs.Hex.{encode_lower, lower_digits};
ghost use Rattle.ocfl_tree.specs.Place.{Text, text_eq};

use std::alloc::{AllocError, Global};

const DIGITS: &[u8; 16] = b"0123456789abcdef";

/// A digest in hexadecimal digits.
pub(crate) fn hex_of(alloc: Global, digest: &[u8]) -> Result<String, AllocError>
    ensures { IfOk result (λ digits. string_bytes digits ≡ encode_lower digest.now) }
{
    hex::encode(alloc, digest)
}

/// What follows the two digits of a byte, if a text begins with these.
fn past_digits(text: &[u8], byte: u8) -> Option<&[u8]>
    ensures { MatchOption result
        ((rest : Text) → text.now ≢ slice_index lower_digits (byte / 16)
        ∷ slice_index lower_digits (byte % 16) ∷ rest)
        (λ rest. text.now ≡ slice_index lower_digits (byte / 16)
        ∷ slice_index lower_digits (byte % 16) ∷ rest.now) }
{
    let high = DIGITS[(byte / 16) as usize];
    let low = DIGITS[(byte % 16) as usize];
    match text {
        [first, second, rest @ ..] if *first == high && *second == low => Some(rest),
        _ => None,
    }
}

/// Whether a text is the digest's, in hexadecimal digits. It takes no memory.
pub(crate) fn is_hex_of(text: &str, digest: &[u8]) -> bool
    ensures { result ≡ text_eq text.now (encode_lower digest.now) }
{
    let mut rest = text.as_bytes();
    for byte in digest {
        match past_digits(rest, *byte) {
            Some(behind) => rest = behind,
            None => return false,
        }
    }
    rest.is_empty()
}
