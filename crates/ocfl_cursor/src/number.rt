//! The decimal numbers of a cursor's text.
ghost use Rattle.std.specs.Prelude.{◌≡◌, ◌≢◌, ℕ, ◌^◌, ◌<◌, List, ◌++◌, IfSome, IsNone, OnOk};
ghost use Rattle.ocfl_cursor.specs.Cursor.{number_line};

use crate::pieces::after_prefix;
use ocfl_report::{read_decimal, split_once};
use std::alloc::{AllocError, Global};

/// Appends the line of a number: its name, a space, the number in decimal, and a line feed.
pub(crate) fn put_number(
    alloc: Global,
    name: &str,
    number: u128,
    text: &mut Vec<u8>,
) -> Result<(), AllocError>
    ensures { OnOk result (text.new.items ≡ text.old.items ++ number_line name.now number) }
{
    let line = format!(in alloc; "{name} {number}\n")?;
    text.extend_from_slice(line.as_bytes())
}

/// Reads the line of the number with this name at the front of the text. Gives the number, and
/// what follows the line.
pub(crate) fn read_number<'a>(name: &str, text: &'a [u8]) -> Option<(u128, &'a [u8])>
    ensures found { IfSome result (λ read. text.now ≡ number_line name.now read.0 ++ read.1.now) }
    ensures fits { IfSome result (λ read. read.0 < 2 ^ 128) }
    ensures missing { IsNone result
        → (n : ℕ) (rest : List ℕ) → n < 2 ^ 128 → text.now ≢ number_line name.now n ++ rest }
{
    let after_name = after_prefix(name.as_bytes(), text)?;
    let (digits, rest) = split_once(after_prefix(b" ", after_name)?, b'\n')?;
    Some((read_decimal(digits)?, rest))
}

/// Reads such a line of a number below 2^64.
pub(crate) fn read_small_number<'a>(name: &str, text: &'a [u8]) -> Option<(u64, &'a [u8])>
    ensures found { IfSome result (λ read. text.now ≡ number_line name.now read.0 ++ read.1.now) }
    ensures fits { IfSome result (λ read. read.0 < 2 ^ 64) }
    ensures missing { IsNone result
        → (n : ℕ) (rest : List ℕ) → n < 2 ^ 64 → text.now ≢ number_line name.now n ++ rest }
{
    let (number, rest) = read_number(name, text)?;
    match u64::try_from(number) {
        Ok(number) => Some((number, rest)),
        Err(_) => None,
    }
}
