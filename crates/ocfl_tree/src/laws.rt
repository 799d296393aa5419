//! What callers of a store need once, as contracts of functions that do nothing.
ghost use Rattle.std.specs.Prelude.{◌≡◌, ◌≢◌, ℕ, ◌+◌, ◌<◌, ◌++◌, [], ◌∷◌, List, length, true, false, None, Some, Bool, IsTrue};
ghost use Rattle.std.specs.List.Sorted.{IsPermutation};
ghost use Rattle.ocfl_tree.specs.{Ascending.{IsAmong}, Name.{IsPlace}, Place.{Text, Place as Spot}};
ghost use Rattle.ocfl_tree.specs.StorageRoot.{StorageRoot, file, dir, at};
ghost use Rattle.ocfl_tree.specs.Listing.{entries_in, kind_in, kind_at, IsOrdinary, IsListing};
ghost use Rattle.ocfl_tree.specs.Store.{Store, Did, IfTold, failed_openings};
ghost use Rattle.ocfl_tree.specs.Calls.{opening, Lists, ListFails, Opens, OpenFails, Reads, ReadFails, Closes};
ghost use Rattle.ocfl_tree.specs.{Reading.{IsReading}, declared.store.Entry.{Entry}};
ghost use Rattle.ocfl_tree.specs.declared.store.Opening.{Opening};
ghost use Rattle.ocfl_tree.specs.declared.store.Trouble.{Trouble};
ghost use Rattle.ocfl_tree.specs.declared.store.Trouble.TheVariants.{Device, Absent, Memory};

use crate::place::Place;

/// A place has names alone: its path determines them.
pub fn every_place_has_names(place: &Place)
    ensures { IsPlace place.now }
{
    let _ = place.path();
}

/// What is said of a store that tells its tree is said of that tree, and of another store nothing.
pub fn what_is_told_is_of_the_tree()
    ensures holds { (s : Store) (holds : StorageRoot → Bool)
        → IfTold true s (λ root. holds root ≡ true) → holds s.tree ≡ true }
    ensures said { (told : Bool) (s : Store) (holds : StorageRoot → Bool)
        → (IsTrue told → holds s.tree ≡ true) → IfTold told s (λ root. holds root ≡ true) }
{}

/// One call after another did what both did.
#[tactic(auto, using(crate::proofs::Stores::did_both))]
pub fn calls_add_up()
    ensures { (s t u : Store) (os os' : List Opening) (ls ls' : List Spot) (f f' : ℕ)
        → Did s t os ls f → Did t u os' ls' f' → Did s u (os ++ os') (ls ++ ls') (f + f') }
{}

/// An opening, reads and a close are one opening, which gave the bytes of all the reads.
#[tactic(auto, using(crate::proofs::Reading::reading_opens, crate::proofs::Reading::reading_ends, crate::proofs::Reading::reading_stays_open, crate::proofs::Reading::reading_closes))]
pub fn reads_are_one_opening()
    ensures opened { (s t : Store) (p : Spot) → Opens s t p → IsReading s t p [] }
    ensures read { (s t u : Store) (p : Spot) (given bytes : Text) (room : ℕ)
        → IsReading s t p given → Reads t u bytes room → IsReading s u p (given ++ bytes) }
    ensures ended { (s t u : Store) (p : Spot) (given : Text) (room : ℕ) → IsReading s t p given
        → Reads t u [] room → 0 < room → at s.tree p ≡ Some (file given) }
    ensures failed { (s t u : Store) (p : Spot) (given : Text) → IsReading s t p given
        → ReadFails t u Device → Did s u (opening p (length given) true ∷ []) [] 1 }
    ensures never_absent { (s t u : Store) (p : Spot) (given : Text) → IsReading s t p given
        → ReadFails t u Absent → ⊥ }
    ensures closed { (s t u : Store) (p : Spot) (given : Text) → IsReading s t p given → Closes t u
        → Did s u (opening p (length given) false ∷ []) [] 0 }
{}

/// A listing that has each name once is the entries of the directory, in some order.
#[tactic(auto, using(crate::proofs::Listings::listing_permutes))]
pub fn listing_is_complete()
    ensures { (root : StorageRoot) (d : Spot) (es : List Entry) → IsOrdinary es
        → IsListing root d es
        → IsPermutation es (entries_in root d) }
{}

/// Each call of a store that tells its tree, in other words. A listing, an opening and a failure
/// are added if the device was asked or failed, and nothing else changes. What is absent is not
/// there.
pub fn each_call_does_what_it_tells()
    ensures listed { (s t : Store) (p : Spot) (es : List Entry) → Lists s t p es
        → (at s.tree p ≡ Some dir) × (((n : Text) → kind_in es n ≡ kind_at s.tree p n)
        × ((t.tree ≡ s.tree) × ((t.openings ≡ s.openings) × ((t.listings ≡ s.listings ++ p ∷ [])
        × ((t.failures ≡ s.failures) × ((t.rest ≡ s.rest) × (t.largest ≡ s.largest))))))) }
    ensures unlisted { (s t : Store) (p : Spot) → ListFails s t p Device → (t.tree ≡ s.tree)
        × ((t.openings ≡ s.openings) × ((t.listings ≡ s.listings ++ p ∷ [])
        × ((t.failures ≡ s.failures + 1) × ((t.rest ≡ None) × (t.largest ≡ s.largest))))) }
    ensures no_directory { (s t : Store) (p : Spot) → ListFails s t p Absent
        → (at s.tree p ≢ Some dir) × ((t.tree ≡ s.tree) × ((t.openings ≡ s.openings)
        × ((t.listings ≡ s.listings) × ((t.failures ≡ s.failures) × ((t.rest ≡ None)
        × (t.largest ≡ s.largest)))))) }
    ensures no_memory { (s t : Store) (p : Spot) → ListFails s t p Memory → (t.tree ≡ s.tree)
        × ((t.openings ≡ s.openings) × ((t.listings ≡ s.listings) × ((t.failures ≡ s.failures)
        × ((t.rest ≡ None) × (t.largest ≡ s.largest))))) }
    ensures opened { (s t : Store) (p : Spot) → Opens s t p → (bytes : Text)
        × ((at s.tree p ≡ Some (file bytes)) × ((t.rest ≡ Some bytes) × ((t.tree ≡ s.tree)
        × ((t.openings ≡ s.openings ++ opening p 0 false ∷ []) × ((t.listings ≡ s.listings)
        × ((t.failures ≡ s.failures) × (t.largest ≡ s.largest))))))) }
    ensures unopened { (s t : Store) (p : Spot) → OpenFails s t p Device → (t.tree ≡ s.tree)
        × ((t.openings ≡ s.openings ++ opening p 0 true ∷ []) × ((t.listings ≡ s.listings)
        × ((t.failures ≡ s.failures + 1) × ((t.rest ≡ None) × (t.largest ≡ s.largest))))) }
    ensures no_file { (s t : Store) (p : Spot) → OpenFails s t p Absent → ((bytes : Text)
        → at s.tree p ≢ Some (file bytes)) × ((t.tree ≡ s.tree) × ((t.openings ≡ s.openings)
        × ((t.listings ≡ s.listings) × ((t.failures ≡ s.failures) × ((t.rest ≡ None)
        × (t.largest ≡ s.largest)))))) }
    ensures read { (s t : Store) (bytes : Text) (room : ℕ) → Reads s t bytes room → (left : Text)
        × ((s.rest ≡ Some (bytes ++ left)) × ((t.rest ≡ Some left) × ((bytes ≡ [] → 0 < room
        → left ≡ []) × ((t.tree ≡ s.tree) × ((t.listings ≡ s.listings)
        × (t.failures ≡ s.failures)))))) }
    ensures given { (s t : Store) (bytes : Text) (room : ℕ) (front : List Opening) (o : Opening)
        → Reads s t bytes room → s.openings ≡ front ++ o ∷ []
        → t.openings ≡ front ++ record o { given = o.given + length bytes } ∷ [] }
    ensures unread { (s t : Store) → ReadFails s t Device → (s.rest ≢ None) × ((t.rest ≡ None)
        × ((t.tree ≡ s.tree) × ((t.listings ≡ s.listings) × (t.failures ≡ s.failures + 1)))) }
    ensures failed { (s t : Store) (front : List Opening) (o : Opening) → ReadFails s t Device
        → s.openings ≡ front ++ o ∷ [] → t.openings ≡ front ++ record o { failed = true } ∷ [] }
    ensures nothing_open { (s t : Store) → ReadFails s t Absent → (s.rest ≡ None) × ((t.rest ≡ None)
        × ((t.tree ≡ s.tree) × ((t.openings ≡ s.openings) × ((t.listings ≡ s.listings)
        × (t.failures ≡ s.failures))))) }
    ensures closed { (s t : Store) → Closes s t → (t.tree ≡ s.tree) × ((t.openings ≡ s.openings)
        × ((t.listings ≡ s.listings) × ((t.failures ≡ s.failures) × ((t.rest ≡ None)
        × (t.largest ≡ s.largest))))) }
{}

/// A listing in which the device failed is told beside the others, and no other call tells one. Of
/// what calls did together, each failure is told by an opening or a listing.
pub fn failed_listings_are_told()
    ensures listed { (s t : Store) (p : Spot) (es : List Entry) → Lists s t p es
        → t.failed_listings ≡ s.failed_listings }
    ensures unlisted { (s t : Store) (p : Spot) → ListFails s t p Device
        → t.failed_listings ≡ s.failed_listings ++ p ∷ [] }
    ensures no_directory { (s t : Store) (p : Spot) → ListFails s t p Absent
        → t.failed_listings ≡ s.failed_listings }
    ensures no_memory { (s t : Store) (p : Spot) → ListFails s t p Memory
        → t.failed_listings ≡ s.failed_listings }
    ensures opened { (s t : Store) (p : Spot) → Opens s t p
        → t.failed_listings ≡ s.failed_listings }
    ensures unopened { (s t : Store) (p : Spot) (why : Trouble) → OpenFails s t p why
        → t.failed_listings ≡ s.failed_listings }
    ensures read { (s t : Store) (bytes : Text) (room : ℕ) → Reads s t bytes room
        → t.failed_listings ≡ s.failed_listings }
    ensures unread { (s t : Store) (why : Trouble) → ReadFails s t why
        → t.failed_listings ≡ s.failed_listings }
    ensures closed { (s t : Store) → Closes s t → t.failed_listings ≡ s.failed_listings }
    ensures together { (s t : Store) (os : List Opening) (ls : List Spot) (f : ℕ)
        → Did s t os ls f → (failed : List Spot)
        × ((t.failed_listings ≡ s.failed_listings ++ failed)
        × (((p : Spot) → IsAmong failed p → IsAmong ls p)
        × (f ≡ failed_openings os + length failed))) }
{}
