//! Sorting triples. The paths of an inventory mostly begin with the same bytes, which are compared
//! once.
ghost use Rattle.std.specs.Prelude.{◌≡◌, ◌≤◌, ◌++◌, ℕ, List, All, OnOk, length, take, IsPermutation};
ghost use Rattle.std.specs.List.Sorted.{IsSorted};
ghost use Rattle.ocfl_inventory.specs.{Table.{triple_cmp}, Internal.SharedFront.{IsBelow}};

use crate::ranks::Spots;
use crate::triple::Triple;
use std::alloc::AllocError;

/// How many bytes of a text another begins with.
fn count_shared(text: &[u8], other: &[u8]) -> usize
    ensures bound { result ≤ length text.now }
    ensures shared { (rest : List ℕ) × (other.now ≡ take result text.now ++ rest) }
{
    if other.starts_with(text) {
        return text.len();
    }
    let both = text.len().min(other.len());
    for index in 0..both {
        if text[index] != other[index] {
            return index;
        }
    }
    both
}

/// What the paths of all triples begin with.
fn shared_front(triples: &[Triple]) -> &[u8]
    ensures { All (IsBelow result.now) triples.now }
{
    let Some(first) = triples.first() else {
        return b"";
    };
    let mut shared = first.path().path().as_bytes();
    for triple in triples {
        let count = count_shared(shared, triple.path().path().as_bytes());
        shared = shared.split_at(count).0;
    }
    shared
}

/// Puts triples by their ranks, which is mostly in order.
fn sort_by_rank(triples: &mut Vec<Triple>, shared: usize) -> Result<(), AllocError>
    ensures { IsPermutation triples.old.items triples.new.items }
{
    // few are as fast without ranks
    if triples.len() < 32 {
        return Ok(());
    }
    let spots = Spots::of(triples, shared);
    triples.sort_by_cached_key(|triple| spots.rank(triple))
}

/// Puts triples in order. What is in order by the ranks is only gone through once more.
pub(crate) fn sort(triples: &mut Vec<Triple>) -> Result<(), AllocError>
    ensures permutation { IsPermutation triples.old.items triples.new.items }
    ensures sorted { OnOk result (IsSorted triple_cmp triples.new.items) }
{
    let shared = shared_front(triples).len();
    sort_by_rank(triples, shared)?;
    triples.sort_unstable_by(|triple, other| triple.cmp_past(other, shared));
    Ok(())
}
