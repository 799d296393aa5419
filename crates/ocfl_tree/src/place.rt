//! Places: names from the storage root down, kept as one path.
ghost use Rattle.std.specs.Prelude.{◌≡◌, ◌↔◌, ◌++◌, ◌∷◌, [], length, string_bytes, IfOk, OnOk, OnErr, take, drop, IfSome, IsNone, MatchOption, Some, nat_eq, refl};
ghost use Rattle.std.specs.Cmp.{partial_equiv_from_equiv, partial_order_from_agreeing_total};
ghost use Rattle.std.specs.Cmp.Lexicographic.{pointwise, slice_cmp, nat_list_eq_equiv, nat_list_cmp_total, texts_ties, lists_equiv, lists_total, lists_ties};
ghost use Rattle.std.specs.Ordering.{nat_cmp};
ghost use Rattle.ocfl_tree.specs.{Name.{IsName, IsPlace}, Path.{names_of, slashed}};
ghost use Rattle.ocfl_tree.specs.Place.{place_cmp, begins};

use crate::name::Name;
use crate::{order, path};
use std::alloc::{AllocError, Global};
use std::cmp::Ordering;
use std::marker::Model;

/// The names that lead from the storage root to something in it, none for the root itself (OCFL
/// 1.1, 4.1 Root Structure). They are kept in one text, its path. Its value in clauses: the list of
/// the names' bytes.
#[derive(Debug, Drop)]
pub struct Place {
    path: String,
}

impl Model for Place {
    ghost use Rattle.std.specs.Prelude.{List, ℕ, string_bytes};
    ghost use Rattle.ocfl_tree.specs.{Name.{IsPlace}, Path.{names_of}};

    ghost Value = { List (List ℕ) };

    ghost view = { λ a. names_of (string_bytes a.path) };

    ghost invariant = { λ a. IsPlace (names_of (string_bytes a.path)) };
}

impl Place {
    /// The storage root, which takes no memory.
    pub fn root(alloc: Global) -> Place
        ensures { result ≡ [] }
    {
        Place {
            path: String::new(alloc),
        }
    }

    /// The place with this path: its names with `/` between them, and nothing for the storage root.
    /// It takes no memory. `None` exactly if a text between the slashes is no name.
    pub fn from_path(path: String) -> Option<Place>
        ensures some { IfSome result (λ place. place ≡ names_of (string_bytes path)) }
        ensures none { IsNone result ↔ (IsPlace (names_of (string_bytes path)) → ⊥) }
    {
        if path::is_path(path.as_str()) {
            Some(Place { path })
        } else {
            None
        }
    }

    /// Appends a name. The only error is running out of memory, which leaves the place as
    /// it was.
    pub fn push(&mut self, name: Name) -> Result<(), AllocError>
        ensures ok { OnOk result (self.new ≡ self.old ++ name ∷ []) }
        ensures err { OnErr result (self.new ≡ self.old) }
    {
        path::push(&mut self.path, name.as_str())
    }

    /// The names, from the root down. The only error is running out of memory.
    pub fn names(&self) -> Result<Vec<Name>, AllocError>
        ensures { IfOk result (λ names. names.items ≡ self.now) }
    {
        path::names(*self.path.allocator(), self.path.as_str())
    }

    /// The path: the names with `/` between them, and nothing for the storage root.
    #[tactic(auto, using(crate::proofs::Paths::slashed_names))]
    pub fn path(&self) -> &str
        ensures value { result.now ≡ slashed self.now }
        ensures place { names_of result.now ≡ self.now }
        ensures names { IsPlace self.now }
    {
        self.path.as_str()
    }

    /// How many names lead to the place from the storage root.
    pub fn depth(&self) -> usize
        ensures { result ≡ length self.now }
    {
        path::count(self.path.as_str())
    }

    /// Whether the place is the base or is below it.
    pub fn starts_with(&self, base: &Place) -> bool
        ensures { result ≡ begins base.now self.now }
    {
        order::begins(base.path.as_str(), self.path.as_str())
    }

    /// Whether the names of a path lead to the place or to a directory above it.
    pub fn starts_with_path(&self, path: &str) -> bool
        ensures { result ≡ begins (names_of path.now) self.now }
    {
        order::begins(path, self.path.as_str())
    }

    /// The place of a name in this directory. The only error is running out of memory.
    #[tactic(auto, using(crate::proofs::Paths::names_child))]
    pub fn child(&self, name: &Name) -> Result<Place, AllocError>
        ensures { IfOk result (λ place. place ≡ self.now ++ name.now ∷ []) }
    {
        let alloc = *self.path.allocator();
        Ok(Place {
            path: path::join(alloc, self.path.as_str(), name.as_str())?,
        })
    }

    /// The place that another leads to from this one. The only error is running out of memory.
    #[tactic(auto, using(crate::proofs::Paths::names_joined))]
    pub fn join(&self, more: &Place) -> Result<Place, AllocError>
        ensures { IfOk result (λ place. place ≡ self.now ++ more.now) }
    {
        let alloc = *self.path.allocator();
        Ok(Place {
            path: path::join(alloc, self.path.as_str(), more.path.as_str())?,
        })
    }

    /// What leads on after the first `names` names: the root if there are no more. The
    /// only error is running out of memory.
    pub fn behind(&self, names: usize) -> Result<Place, AllocError>
        ensures { IfOk result (λ place. place ≡ drop names self.now) }
    {
        let alloc = *self.path.allocator();
        Ok(Place {
            path: String::from_str(alloc, path::behind(self.path.as_str(), names))?,
        })
    }

    /// The place of the first `names` names: the same place if there are no more. The only error
    /// is running out of memory.
    pub fn first(&self, names: usize) -> Result<Place, AllocError>
        ensures { IfOk result (λ place. place ≡ take names self.now) }
    {
        let alloc = *self.path.allocator();
        Ok(Place {
            path: String::from_str(alloc, path::front(self.path.as_str(), names))?,
        })
    }

    /// The path of the directory that the place is in and its name there, and none for the
    /// storage root.
    pub fn split_last(&self) -> Option<(&str, &str)>
        ensures { MatchOption result (self.now ≡ [])
            (λ p. (self.now ≡ names_of p.0.now ++ p.1.now ∷ []) × IsName p.1.now) }
    {
        path::split_last(self.path.as_str())
    }

    /// A copy of the place. The only error is running out of memory.
    pub fn try_clone(&self) -> Result<Place, AllocError>
        ensures { IfOk result (λ place. place ≡ self.now) }
    {
        Ok(Place {
            path: self.path.clone()?,
        })
    }
}

impl PartialEq for Place {
    ghost eq = { pointwise (pointwise nat_eq) };

    ghost laws = { partial_equiv_from_equiv (lists_equiv nat_list_eq_equiv) };

    #[tactic(auto, using(crate::proofs::Paths::names_eq))]
    fn eq(&self, other: &Place) -> bool {
        self.path == other.path
    }
}

impl Eq for Place {
    ghost laws = { lists_equiv nat_list_eq_equiv };
}

impl PartialOrd for Place {
    ghost partial_cmp = { λ x y. Some (place_cmp x y) };

    ghost laws = { partial_order_from_agreeing_total place_cmp (lists_total nat_list_cmp_total)
        (λ x y. refl) (lists_ties (slice_cmp nat_cmp) texts_ties) };

    fn partial_cmp(&self, other: &Place) -> Option<Ordering> {
        Some(self.cmp(other))
    }
}

/// Name by name, a beginning before its extensions.
impl Ord for Place {
    ghost cmp = { place_cmp };

    ghost total = { lists_total nat_list_cmp_total };

    ghost matches_partial_cmp = { λ x y. refl };

    ghost matches_eq = { lists_ties (slice_cmp nat_cmp) texts_ties };

    fn cmp(&self, other: &Place) -> Ordering {
        order::cmp_paths(self.path.as_str(), other.path.as_str())
    }
}
