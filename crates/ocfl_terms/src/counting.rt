//! Counts of a night.
ghost use Rattle.std.specs.Prelude.{◌≡◌};
ghost use Rattle.ocfl_terms.specs.Counting.{counted};

/// A count once so much more was counted, at most 2^64 - 1.
pub fn counted(old: u64, more: u64) -> u64
    ensures { result ≡ counted old more }
{
    old.saturating_add(more)
}
