//! A path with a digest that is named for it.
ghost use Rattle.std.specs.{Prelude.{◌≡◌, IfOk, Some, refl, drop}, Ordering.{eq_by_cmp}};
ghost use Rattle.std.specs.Cmp.{partial_equiv_from_equiv, partial_order_from_total};
ghost use Rattle.std.proofs.lemmas.Cmp.{eq_by_cmp_equiv};
ghost use Rattle.ocfl_tree.specs.Path.{slashed};
ghost use Rattle.ocfl_inventory.specs.Table.{named_cmp, triple_cmp};
ghost use Rattle.ocfl_inventory.specs.Internal.TripleOrder.{triple_total};
ghost use Rattle.ocfl_inventory.specs.{TripleView.{named_view}, Internal.SharedFront.{behind}};

use ocfl_digest::Algorithm;
use ocfl_tree::{Place, cmp_elements};
use std::alloc::AllocError;
use std::cmp::Ordering;
use std::marker::Model;

/// A digest that an inventory names for a path.
#[derive(Debug, Drop)]
pub struct Named {
    /// Whether a fixity block names it; else the manifest does.
    pub fixity: bool,
    /// Of the manifest, this is the inventory's digest algorithm.
    pub algorithm: Algorithm,
    /// The digest's text with its ASCII capitals made small.
    pub digest: String,
}

impl Named {
    pub(crate) fn try_clone(&self) -> Result<Named, AllocError>
        ensures { IfOk result (λ n. named_view n ≡ named_view self.now) }
    {
        Ok(Named {
            fixity: self.fixity,
            algorithm: self.algorithm,
            digest: self.digest.clone()?,
        })
    }

    /// The manifest before fixity, then by the algorithm's name, then by the digest.
    fn cmp_named(&self, other: &Named) -> Ordering
        ensures { result ≡ named_cmp (named_view self.now) (named_view other.now) }
    {
        let algorithms = self.algorithm.name().cmp(other.algorithm.name());
        let digests = self.digest.cmp(&other.digest);
        self.fixity
            .cmp(&other.fixity)
            .then(algorithms.then(digests))
    }
}

/// A path of an object, from the object's root down, with one of its digests.
#[derive(Debug, Drop)]
pub(crate) struct Triple {
    path: Place,
    named: Named,
}

impl Model for Triple {
    ghost use Rattle.ocfl_inventory.specs.{Table.{Triple as TripleModel}, TripleView.{named_view}};

    ghost Value = { TripleModel };

    ghost view = { λ a. record { path = a.path; named = named_view a.named } };
}

impl Triple {
    pub(crate) fn new(path: Place, named: Named) -> Triple
        ensures { result ≡ record { path = path; named = named_view named } }
    {
        Triple { path, named }
    }

    pub(crate) fn path(&self) -> &Place
        ensures { result.now ≡ self.now.path }
    {
        &self.path
    }

    /// What follows the first `count` bytes of the path.
    pub(crate) fn past(&self, count: usize) -> &[u8]
        ensures { result.now ≡ drop count (slashed self.now.path) }
    {
        past(self.path.path(), count)
    }

    pub(crate) fn named(&self) -> &Named
        ensures { named_view result.now ≡ self.now.named }
    {
        &self.named
    }
}

/// What follows the first `count` bytes.
fn past(text: &str, count: usize) -> &[u8]
    ensures { result.now ≡ drop count text.now }
{
    let bytes = text.as_bytes();
    bytes.split_at(count.min(bytes.len())).1
}

impl Triple {
    /// Compares triples by their paths without the first `count` bytes, and then as named digests
    /// go.
    pub(crate) fn cmp_past(&self, other: &Triple, count: usize) -> Ordering
        ensures { result ≡ triple_cmp (behind count self.now) (behind count other.now) }
    {
        match cmp_elements(self.past(count), other.past(count)) {
            Ordering::Equal => self.named.cmp_named(&other.named),
            order => order,
        }
    }
}

impl PartialEq for Triple {
    ghost eq = { eq_by_cmp triple_cmp };

    ghost laws = { partial_equiv_from_equiv (eq_by_cmp_equiv triple_total) };

    // Triples beside each other mostly have digests of their own, and paths that share many bytes.
    fn eq(&self, other: &Self) -> bool {
        self.named.digest == other.named.digest && self.cmp(other) == Ordering::Equal
    }
}

impl Eq for Triple {
    ghost laws = { eq_by_cmp_equiv triple_total };
}

impl PartialOrd for Triple {
    ghost partial_cmp = { λ x y. Some (triple_cmp x y) };

    ghost laws = { partial_order_from_total triple_total };

    fn partial_cmp(&self, other: &Self) -> Option<Ordering> {
        Some(self.cmp(other))
    }
}

/// By the path, then the manifest before fixity, then by the algorithm's name, then by the digest.
impl Ord for Triple {
    ghost cmp = { triple_cmp };

    ghost total = { triple_total };

    ghost matches_partial_cmp = { λ x y. refl };

    ghost matches_eq = { λ x y. refl };

    fn cmp(&self, other: &Self) -> Ordering {
        match self.path.cmp(&other.path) {
            Ordering::Equal => self.named.cmp_named(&other.named),
            order => order,
        }
    }
}
