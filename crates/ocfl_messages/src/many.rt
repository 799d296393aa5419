//! Numbers with their words.
ghost use Rattle.std.specs.Prelude.{◌≡◌, ◌^◌, ◌<◌, IfOk, string_bytes};
ghost use Rattle.ocfl_messages.specs.Many.{are_text, word_text, many_text, scaled_text, size_text};

use std::alloc::{AllocError, Global};

/// The word for one, or for more.
fn word_for<'a>(is_one: bool, one: &'a str, more: &'a str) -> &'a str
    ensures { result.now ≡ word_text is_one one.now more.now }
{
    if is_one { one } else { more }
}

/// A number with the word for one, or for more.
pub(crate) fn many(alloc: Global, count: u64, one: &str, more: &str) -> Result<String, AllocError>
    ensures { IfOk result (λ text. string_bytes text ≡ many_text count one.now more.now) }
{
    let word = word_for(count == 1, one, more);
    format!(in alloc; "{count} {word}")
}

/// The same of a number that is a sum of others.
pub(crate) fn many_wide(
    alloc: Global,
    count: u128,
    one: &str,
    more: &str,
) -> Result<String, AllocError>
    ensures { IfOk result (λ text. string_bytes text ≡ many_text count one.now more.now) }
{
    let word = word_for(count == 1, one, more);
    format!(in alloc; "{count} {word}")
}

/// The verb of so many, after a space.
pub(crate) fn are(count: u64) -> &'static str
    ensures { result.now ≡ are_text count }
{
    if count == 1 { " is" } else { " are" }
}

/// A number of bytes in a unit of ten times `tenth` bytes, cut to one digit behind the point.
fn scaled(alloc: Global, bytes: u64, tenth: u64, unit: &str) -> Result<String, AllocError>
    requires { 0 < tenth }
    ensures { IfOk result (λ text. string_bytes text ≡ scaled_text bytes tenth unit.now) }
{
    let tenths = bytes / tenth;
    let (whole, digit) = (tenths / 10, tenths % 10);
    format!(in alloc; "{whole}.{digit} {unit}")
}

/// A number of bytes, as a text.
pub(crate) fn size(alloc: Global, bytes: u64) -> Result<String, AllocError>
    ensures { IfOk result (λ text. string_bytes text ≡ size_text bytes) }
{
    if bytes < 1_000 {
        return many(alloc, bytes, "byte", "bytes");
    }
    if bytes < 1_000_000 {
        return scaled(alloc, bytes, 100, "kB");
    }
    if bytes < 1_000_000_000 {
        return scaled(alloc, bytes, 100_000, "MB");
    }
    if bytes < 1_000_000_000_000 {
        return scaled(alloc, bytes, 100_000_000, "GB");
    }
    scaled(alloc, bytes, 100_000_000_000, "TB")
}
