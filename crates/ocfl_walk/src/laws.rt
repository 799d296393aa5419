//! Two walks one after the other do what one does; which directories and inventories are opened on
//! the way to a place; a walk from a place gives exactly the items from there on.
ghost use Rattle.std.specs.Prelude.{◌≡◌, ◌++◌, ◌∷◌, [], List, Option, None, Some, codes, true};
ghost use Rattle.ocfl_tree.specs.{Place.{Place}, Ascending.{IsAmong}, Store.{Store}};
ghost use Rattle.ocfl_tree.specs.{declared.store.Opening.{Opening}, StorageRoot.{StorageRoot}};
ghost use Rattle.ocfl_report.specs.declared.further.Further.{Further};
ghost use Rattle.ocfl_rules.specs.Between.{IsBeyond, IsWithin, looked_between, read_between};
ghost use Rattle.ocfl_rules.specs.Due.{due, item_places};
ghost use Rattle.ocfl_rules.specs.Objects.{IsObjectRoot};
ghost use Rattle.ocfl_rules.specs.{Trail.{is_meta, reads_inventory}, Walk.{is_reached}};
ghost use Rattle.ocfl_rules.specs.Zone.{inside, zone, beginnings};
ghost use Rattle.ocfl_item.specs.declared.fault.Fault.{Fault};
ghost use Rattle.ocfl_walk.specs.Before.{place_before, places_from};
ghost use Rattle.ocfl_walk.specs.WalkCalls.{FailsBetween, GoesDown, Walks, holder, way_of};

/// What a walk did from one place to another, and from there on, it did all the way.
#[tactic(auto, using(crate::proofs::WalkCallLaws::walks_on, crate::proofs::WalkCallLaws::walks_fail))]
pub fn walks_add_up()
    ensures on { (further : Further) (root : StorageRoot) (s t u : Store)
        (from to : Option Place) (b : Place)
        → IsBeyond from b → IsWithin to b → Walks further root s t from (Some b)
        → Walks further root t u (Some b) to → Walks further root s u from to }
    ensures fail { (further : Further) (root : StorageRoot) (s t u : Store)
        (from to : Option Place) (b : Place) (why : Fault)
        → IsBeyond from b → IsWithin to b → Walks further root s t from (Some b)
        → FailsBetween further root t u (Some b) to why
        → FailsBetween further root s u from to why }
{}

/// On the way down to a place are its beginnings, the root first, and the place. At most one
/// inventory is read there: that of the object that holds the place, if its head reaches it.
pub fn the_way_down_is_exact()
    ensures above { (root : StorageRoot) (p o : Place) → IsAmong (holder root (Some p)) o
        → (reads_inventory root o ≡ true) × ((q : Place) × (p ≡ o ++ q)) }
    ensures alone { (root : StorageRoot) (p o q : Place) → zone root p ≡ inside o q
        → reads_inventory root o ≡ true → holder root (Some p) ≡ o ∷ [] }
    ensures way { (p : Place) → way_of (Some p) ≡ beginnings p ++ p ∷ [] }
    ensures none { (root : StorageRoot) → (holder root None ≡ []) × (way_of None ≡ []) }
{}

/// On the way down to a place no call failed. Of files only metadata was opened, and of inventories
/// only that of the object that holds the place, if its head reaches it. Of directories only the
/// beginnings of the place were listed, and the place: all that are entered, and the storage root
/// first.
pub fn the_way_down_opens_one_inventory()
    ensures inventories { (further : Further) (root : StorageRoot) (s t : Store) (p : Option Place)
        → GoesDown further root s t p → (trail : List Opening) × ((t.openings ≡ s.openings ++ trail)
        × ((x : Opening) (o : Place) → IsAmong trail x → IsObjectRoot root o
        → x.place ≡ o ++ codes "inventory.json" ∷ []
        → (reads_inventory root o ≡ true) × ((q : Place) × (p ≡ Some (o ++ q))))) }
    ensures metadata { (further : Further) (root : StorageRoot) (s t : Store) (p : Option Place)
        → GoesDown further root s t p → (trail : List Opening) × ((t.openings ≡ s.openings ++ trail)
        × ((x : Opening) → IsAmong trail x → is_meta further root x.place ≡ true)) }
    ensures listed { (further : Further) (root : StorageRoot) (s t : Store) (p : Option Place)
        → GoesDown further root s t p → (listed : List Place) × ((t.listings ≡ s.listings ++ listed)
        × ((d : Place) → IsAmong listed d → (q : Place) × (p ≡ Some (d ++ q)))) }
    ensures entered { (further : Further) (root : StorageRoot) (s t : Store) (p : Option Place)
        → GoesDown further root s t p → (listed : List Place) × ((t.listings ≡ s.listings ++ listed)
        × ((d : Place) → IsAmong (way_of p) d → is_reached root d ≡ true → IsAmong listed d)) }
    ensures first { (further : Further) (root : StorageRoot) (s t : Store) (p : Option Place)
        → GoesDown further root s t p → (q : Place) → p ≡ Some q → (rest : List Place)
        × (t.listings ≡ s.listings ++ [] ∷ rest) }
    ensures unfailing { (further : Further) (root : StorageRoot) (s t : Store) (p : Option Place)
        → GoesDown further root s t p → t.failures ≡ s.failures }
{}

/// Above the place before a place is what is not less than that: what is due there, and which
/// directories are looked into and whose inventories are read from there on.
#[tactic(auto, using(crate::proofs::BeforeLaws::due_from, crate::proofs::BeforeLaws::looked_from, crate::proofs::BeforeLaws::read_from))]
pub fn before_a_place_lies_the_rest()
    ensures due { (further : Further) (root : StorageRoot) (p : Place)
        → due further root (place_before root p) ≡ places_from p (item_places further root) }
    ensures looked { (root : StorageRoot) (p : Place) (to : Option Place)
        → looked_between root (place_before root p) to
        ≡ places_from p (looked_between root None to) }
    ensures read { (root : StorageRoot) (p : Place) (to : Option Place)
        → read_between root (place_before root p) to ≡ places_from p (read_between root None to) }
{}
