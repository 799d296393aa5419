//! Numbers in decimal, as reports and cursors have them.
ghost use Rattle.std.specs.Prelude.{◌≡◌, ◌≢◌, ℕ, ◌^◌, ◌<◌, ◌↔◌, decimal, IsTrue, IfSome, IsNone};
ghost use Rattle.ocfl_report.specs.Internal.Number.{IsPlain};

/// The number below 2^128 whose digits in decimal these are, with no sign and no leading zero.
/// `None` for any other bytes.
pub fn read_decimal(digits: &[u8]) -> Option<u128>
    ensures found { IfSome result (λ n. digits.now ≡ decimal n) }
    ensures fits { IfSome result (λ n. n < 2 ^ 128) }
    ensures missing { IsNone result → (n : ℕ) → n < 2 ^ 128 → digits.now ≢ decimal n }
{
    if !is_plain(digits) {
        return None;
    }
    match std::str::from_utf8(digits) {
        Ok(text) => text.parse().ok(),
        Err(_) => None,
    }
}

/// Whether digits begin as a number that has no sign and no leading zero: `parse` takes both.
fn is_plain(digits: &[u8]) -> bool
    ensures { IsTrue result ↔ IsPlain digits.now }
{
    match digits.first() {
        Some(b'0') => digits.len() == 1,
        Some(first) => *first != b'+',
        None => false,
    }
}
