//! What the changes of a tree in memory leave.
ghost use Rattle.std.specs.Prelude.{◌≡◌, None};
ghost use Rattle.ocfl_tree.specs.{Place.{Place}, StorageRoot.{Leaf}, Store.{Store}};
ghost use Rattle.ocfl_memory.specs.MemTree.{Puts, Removes};

/// What is put into a tree in memory or taken from it closes the open file, and leaves the record
/// of all calls as it was.
pub fn changes_leave_what_was_told()
    ensures put { (s t : Store) (p : Place) (leaf : Leaf) → Puts s t p leaf → (t.rest ≡ None)
        × ((t.openings ≡ s.openings) × ((t.listings ≡ s.listings)
        × ((t.failed_listings ≡ s.failed_listings) × ((t.failures ≡ s.failures)
        × (t.largest ≡ s.largest))))) }
    ensures removed { (s t : Store) (p : Place) → Removes s t p → (t.rest ≡ None)
        × ((t.openings ≡ s.openings) × ((t.listings ≡ s.listings)
        × ((t.failed_listings ≡ s.failed_listings) × ((t.failures ≡ s.failures)
        × (t.largest ≡ s.largest))))) }
{}
