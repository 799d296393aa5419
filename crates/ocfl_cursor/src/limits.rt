//! The two limits of a run: a budget of bytes, and a number of files.
ghost use Rattle.std.specs.Prelude.{◌≡◌, ◌↔◌, IsSome, IfSome};
ghost use Rattle.ocfl_cursor.specs.Limits.{IsLimit};

use std::marker::Model;

// The most that a run may be allowed, of either.
const MAX_LIMIT: u64 = 1 << 62;

/// How much of one thing a run may do: 1 to 2^62. `OF` tells the things apart, so that no limit is
/// taken for one of another thing.
#[derive(Clone, Copy, Debug, PartialEq, Eq)]
pub struct Limit<const OF: u8> {
    pub(crate) most: u64,
}

/// How much one run may spend.
pub type Budget = Limit<0>;

/// How many files one run may start.
pub type FileLimit = Limit<1>;

impl<const OF: u8> Model for Limit<OF> {
    ghost use Rattle.std.specs.Prelude.{ℕ};
    ghost use Rattle.ocfl_cursor.specs.Limits.{IsLimit};

    ghost Value = { ℕ };

    ghost view = { λ a. a.most };

    ghost invariant = { λ a. IsLimit a.most };

    ghost inverse = { λ n. record { most = n } };
}

impl<const OF: u8> Limit<OF> {
    /// The limit of this number, or `None` if it is 0 or above 2^62.
    pub fn new(most: u64) -> Option<Limit<OF>>
        ensures value { IfSome result (λ limit. limit ≡ most) }
        ensures range { IsSome result ↔ IsLimit most }
    {
        if 1 <= most && most <= MAX_LIMIT {
            Some(Limit { most })
        } else {
            None
        }
    }
}

/// What one run may do: how much it may spend, and how many files it may start.
#[derive(Clone, Copy, Debug, PartialEq, Eq)]
pub struct Limits {
    /// How much it may spend.
    pub budget: Budget,
    /// How many files it may start.
    pub files: FileLimit,
}
