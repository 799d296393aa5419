//! What calls did adds up, what stopped them, and which files are short.
ghost use Rattle.std.specs.Prelude.{◌≡◌, ◌↔◌, ◌⊎◌, ◌<◌, ◌+◌, ◌++◌, ◌∷◌, [], ℕ, List, Option, Some};
ghost use Rattle.std.specs.Prelude.{length, true, false, codes};
ghost use Rattle.ocfl_tree.specs.{Place.{Place, Text}, Ascending.{IsAmong}, Store.{Store}};
ghost use Rattle.ocfl_tree.specs.StorageRoot.{StorageRoot, file_at};
ghost use Rattle.ocfl_tree.specs.declared.store.Opening.{Opening};
ghost use Rattle.ocfl_report.specs.declared.further.Further.{Further};
ghost use Rattle.ocfl_report.specs.declared.further.Further.TheVariants.{Nothing};
ghost use Rattle.ocfl_rules.specs.Inventories.{is_hashed};
ghost use Rattle.ocfl_rules.specs.{Objects.{IsVersionInventory}, Trail.{is_meta, unread_of}};
ghost use Rattle.ocfl_item.specs.{Auditing.{Audits, Fails}, Judging.{HasShortFiles}};

/// What calls did adds up, one after the other, up to a fault.
#[tactic(auto, using(crate::proofs::AuditingLaws::audits_on, crate::proofs::AuditingLaws::audits_fail))]
pub fn calls_add_up()
    ensures on { (further : Further) (root : StorageRoot) (s t u : Store)
        (ps qs ls ms hs gs : List Place) (os rs : List Opening)
        → Audits further root s t ps ls hs os → Audits further root t u qs ms gs rs
        → Audits further root s u (ps ++ qs) (ls ++ ms) (hs ++ gs) (os ++ rs) }
    ensures fail { (further : Further) (root : StorageRoot) (s t u : Store)
        (ps qs ls ms hs gs : List Place) (os rs : List Opening) (failed : Option Place)
        → Audits further root s t ps ls hs os → Fails further root t u qs ms gs rs failed
        → Fails further root s u (ps ++ qs) (ls ++ ms) (hs ++ gs)
        (os ++ rs) failed }
{}

/// Unless calls stopped, only content failed, and no listing. A stop at a place counts one failure
/// more than there are content files that could not be read. The place is no hashed file's. It is
/// that of the last listing, which alone of listings failed, and then no metadata failed; or that
/// of the last opening, which failed, and then no listing failed.
pub fn stops_name_the_call_that_failed()
    ensures content { (further : Further) (root : StorageRoot) (s t : Store)
        (places listed heads : List Place) (trail : List Opening)
        → Audits further root s t places listed heads trail
        → (s.tree ≡ root) × ((t.tree ≡ root) × ((t.failed_listings ≡ s.failed_listings)
        × ((o : Opening) → IsAmong trail o → o.failed ≡ true
        → is_meta further root o.place ≡ false))) }
    ensures counted { (further : Further) (root : StorageRoot) (s t : Store)
        (places listed heads : List Place) (trail : List Opening) (q : Place)
        → Fails further root s t places listed heads trail (Some q)
        → (is_hashed further root q ≡ false)
        × (t.failures ≡ s.failures + (length (unread_of further root trail) + 1)) }
    ensures place { (further : Further) (root : StorageRoot) (s t : Store)
        (places listed heads : List Place) (trail : List Opening) (q : Place)
        → Fails further root s t places listed heads trail (Some q)
        → ((before : List Place) × ((listed ≡ before ++ q ∷ [])
        × ((t.failed_listings ≡ s.failed_listings ++ q ∷ []) × ((o : Opening)
        → IsAmong trail o → o.failed ≡ true → is_meta further root o.place ≡ false))))
        ⊎ ((before : List Opening) × ((given : ℕ)
        × ((trail ≡ before ++ record { place = q; given = given; failed = true } ∷ [])
        × (t.failed_listings ≡ s.failed_listings)))) }
{}

/// Metadata that is opened lies right in a directory that was listed. If the inventories of
/// versions are checked, a sidecar may also lie right in the directory of a version whose inventory
/// is seen.
pub fn metadata_lies_in_listed_directories()
    ensures listed { (root : StorageRoot) (s t : Store) (places listed heads : List Place)
        (trail : List Opening) → Audits Nothing root s t places listed heads trail → (o : Opening)
        → IsAmong trail o → is_meta Nothing root o.place ≡ true
        → (d : Place) × ((n : Text) × (IsAmong listed d × (o.place ≡ d ++ n ∷ []))) }
    ensures versions { (further : Further) (root : StorageRoot) (s t : Store)
        (places listed heads : List Place) (trail : List Opening)
        → Audits further root s t places listed heads trail → (o : Opening)
        → IsAmong trail o → is_meta further root o.place ≡ true
        → ((d : Place) × ((n : Text) × (IsAmong listed d × (o.place ≡ d ++ n ∷ []))))
        ⊎ ((object : Place) × ((version : Text) × ((bytes : Text) × ((n : Text)
        × (IsVersionInventory root (object ++ version ∷ codes "inventory.json" ∷ []) object version
        bytes × (o.place ≡ object ++ version ∷ n ∷ [])))))) }
{}

/// A storage root has short files exactly if each of its files has fewer than 2^62 bytes.
pub fn short_files_are_below_the_limit()
    ensures { (root : StorageRoot) → HasShortFiles root ↔ ((p : Place) (bytes : Text)
        → file_at root p ≡ Some bytes → length bytes < 4611686018427387904) }
{}
