//! The keys of a block: digest texts, whose ASCII capitals and small letters are alike.
ghost use Rattle.std.specs.{Prelude.{◌≡◌, IfOk, Some, refl, string_bytes}, Ordering.{eq_by_cmp}};
ghost use Rattle.std.specs.Cmp.{partial_equiv_from_equiv, partial_order_from_total};
ghost use Rattle.std.specs.Cmp.Lexicographic.{nat_list_cmp_total};
ghost use Rattle.std.proofs.lemmas.Cmp.{eq_by_cmp_equiv};
ghost use Rattle.ocfl_tree.specs.Place.{text_cmp, text_eq};
ghost use Rattle.ocfl_inventory.specs.{DigestText.{folded}, Notes.{repeated as repeated_of}};
ghost use Rattle.ocfl_inventory.specs.Internal.Beside.{hits};

use std::alloc::{AllocError, Global};
use std::cmp::Ordering;
use std::marker::Model;

/// A key of a block, which stands for its text with small letters.
#[derive(Drop)]
pub(crate) struct Key<'t> {
    text: &'t str,
}

impl<'t> Model for Key<'t> {
    ghost use Rattle.std.specs.Prelude.{List, ℕ};
    ghost use Rattle.ocfl_inventory.specs.DigestText.{folded};

    ghost Value = { List ℕ };

    ghost view = { λ a. folded a.text.now };
}

fn cmp_folded(text: &[u8], other: &[u8]) -> Ordering
    ensures { result ≡ text_cmp (folded text.now) (folded other.now) }
{
    let shared = text.len().min(other.len());
    for index in 0..shared {
        let byte = text[index].to_ascii_lowercase();
        let beside = other[index].to_ascii_lowercase();
        if byte != beside {
            return byte.cmp(&beside);
        }
    }
    text.len().cmp(&other.len())
}

impl<'t> Key<'t> {
    pub(crate) fn new(text: &'t str) -> Key<'t>
        ensures { result ≡ folded text.now }
    {
        Key { text }
    }

    pub(crate) fn same(&self) -> Key<'t>
        ensures { result ≡ self.now }
    {
        Key { text: self.text }
    }

    /// The text with small letters.
    pub(crate) fn folded(&self, alloc: Global) -> Result<String, AllocError>
        ensures { IfOk result (λ text. string_bytes text ≡ self.now) }
    {
        self.text.to_ascii_lowercase(alloc)
    }
}

impl PartialEq for Key<'_> {
    ghost eq = { eq_by_cmp text_cmp };

    ghost laws = { partial_equiv_from_equiv (eq_by_cmp_equiv nat_list_cmp_total) };

    fn eq(&self, other: &Self) -> bool {
        self.cmp(other) == Ordering::Equal
    }
}

impl Eq for Key<'_> {
    ghost laws = { eq_by_cmp_equiv nat_list_cmp_total };
}

impl PartialOrd for Key<'_> {
    ghost partial_cmp = { λ x y. Some (text_cmp x y) };

    ghost laws = { partial_order_from_total nat_list_cmp_total };

    fn partial_cmp(&self, other: &Self) -> Option<Ordering> {
        Some(self.cmp(other))
    }
}

/// By the bytes of the texts with small letters.
impl Ord for Key<'_> {
    ghost cmp = { text_cmp };

    ghost total = { nat_list_cmp_total };

    ghost matches_partial_cmp = { λ x y. refl };

    ghost matches_eq = { λ x y. refl };

    fn cmp(&self, other: &Self) -> Ordering {
        cmp_folded(self.text.as_bytes(), other.text.as_bytes())
    }
}

/// Each key that is like the next.
fn twins<'t>(alloc: Global, keys: &[Key<'t>]) -> Result<Vec<Key<'t>>, AllocError>
    ensures { IfOk result (λ v. v.items ≡ hits text_eq keys.now) }
{
    let mut found = Vec::new(alloc);
    for i in 1..keys.len() {
        if keys[i - 1] == keys[i] {
            found.push(keys[i - 1].same())?;
        }
    }
    Ok(found)
}

/// The keys that occur twice or more, once, in order.
pub(crate) fn repeated<'t>(
    alloc: Global,
    mut keys: Vec<Key<'t>>,
) -> Result<Vec<Key<'t>>, AllocError>
    ensures { IfOk result (λ v. v.items ≡ repeated_of text_cmp text_eq keys.entry.items) }
{
    keys.sort_unstable();
    let mut found = twins(alloc, &keys)?;
    found.dedup();
    Ok(found)
}
