//! The text of a time of day.
ghost use Rattle.std.specs.Prelude.{◌≡◌, ◌+◌, ◌<◌, ◌∷◌, [], ℕ, IfSome, IsNone};
ghost use Rattle.ocfl_arguments.specs.TimeOfDay.{IsTimeText, two_digits};

/// The number that a decimal digit writes. `None` if it is no digit.
fn read_digit(byte: u8) -> Option<u8>
    ensures found { IfSome result (λ n. (n < 10) × (byte ≡ 48 + n)) }
    ensures missing { IsNone result → (n : ℕ) → n < 10 → byte ≡ 48 + n → ⊥ }
{
    if byte.is_ascii_digit() {
        Some(byte - b'0')
    } else {
        None
    }
}

/// The number that two decimal digits write. `None` if one of them is no digit.
fn read_digits(tens: u8, ones: u8) -> Option<u8>
    ensures found { IfSome result (λ n. (n < 100) × (tens ∷ ones ∷ [] ≡ two_digits n)) }
    ensures missing { IsNone result
        → (n : ℕ) → n < 100 → tens ∷ ones ∷ [] ≡ two_digits n → ⊥ }
{
    let tens = read_digit(tens)?;
    let ones = read_digit(ones)?;
    Some(10 * tens + ones)
}

/// The hour and the minute that a text writes: `HH:MM`, 00:00 to 23:59. `None` if it writes
/// none.
pub(crate) fn read_time(text: &str) -> Option<(u8, u8)>
    ensures found { IfSome result (λ time. IsTimeText text.now time.0 time.1) }
    ensures missing { IsNone result → (h m : ℕ) → IsTimeText text.now h m → ⊥ }
{
    let &[hour_tens, hour_ones, b':', minute_tens, minute_ones] = text.as_bytes() else {
        return None;
    };
    let hour = read_digits(hour_tens, hour_ones)?;
    let minute = read_digits(minute_tens, minute_ones)?;
    if hour < 24 && minute < 60 {
        Some((hour, minute))
    } else {
        None
    }
}
