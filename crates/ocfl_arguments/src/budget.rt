//! The text of a size: of a budget, or of the most files of a run.
ghost use Rattle.std.specs.Prelude.{◌≡◌, map};
ghost use Rattle.std.specs.{Char.{is_ascii_digit}, List.{prefix_len}};
ghost use Rattle.ocfl_arguments.specs.Asks.{IsRead};
ghost use Rattle.ocfl_arguments.specs.Budget.{IsSizeText, beside, digits_of, unit_of, unit_size as size_of_unit};

use ocfl_cursor::Budget;

/// The units, and what each multiplies by; the first is that of digits alone.
const UNITS: &[(&str, u64)] = &[
    ("", 1),
    ("K", 1 << 10),
    ("KiB", 1 << 10),
    ("kB", 1000),
    ("M", 1 << 20),
    ("MiB", 1 << 20),
    ("MB", 1000000),
    ("G", 1 << 30),
    ("GiB", 1 << 30),
    ("GB", 1000000000),
    ("T", 1 << 40),
    ("TiB", 1 << 40),
    ("TB", 1000000000000),
];

/// What a unit of this table multiplies by, and `None` for any other text.
fn find_unit(units: &[(&str, u64)], text: &str) -> Option<u64>
    ensures { result ≡ beside (map (λ row. (row.0.now, row.1)) units.now) text.now }
{
    for &(unit, size) in units {
        if text.eq_ignore_ascii_case(unit) {
            return Some(size);
        }
    }
    None
}

/// What a unit multiplies by, in capitals or small letters. `None` if the text is no unit.
fn unit_size(text: &str) -> Option<u64>
    ensures { result ≡ size_of_unit text.now }
{
    find_unit(UNITS, text)
}

/// How many digits a text begins with.
fn count_digits(text: &[u8]) -> usize
    ensures { result ≡ prefix_len is_ascii_digit text.now }
{
    text.iter().take_while(|byte| byte.is_ascii_digit()).count()
}

/// The digits that a text begins with, and what comes after them.
fn split_digits(text: &str) -> (&str, &str)
    ensures digits { result.0.now ≡ digits_of text.now }
    ensures unit { result.1.now ≡ unit_of text.now }
{
    text.split_at(count_digits(text.as_bytes()))
}

/// The budget that a text writes, as `read_amount` reads it.
pub(crate) fn read_budget(text: &str) -> Option<Budget>
    ensures { IsRead (IsSizeText text.now) result }
{
    Budget::new(read_amount(text)?)
}

/// The size that a text writes: 1 to 2^62, as digits alone or with a unit. `None` if it writes
/// none.
pub(crate) fn read_amount(text: &str) -> Option<u64>
    ensures { IsRead (IsSizeText text.now) result }
{
    let (digits, unit) = split_digits(text);
    let size = unit_size(unit)?;
    let Ok(number) = digits.parse::<u64>() else {
        return None;
    };
    let amount = number.checked_mul(size)?;
    Budget::new(amount)?;
    Some(amount)
}
