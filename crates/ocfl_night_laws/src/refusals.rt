//! What each refusal of a night means, by what the folder and the store then held.
ghost use Rattle.std.specs.Prelude.{◌≡◌, ◌≢◌, ◌⊎◌, ◌+◌, ◌<◌, [], Bool, IsTrue, None, Some, false, length, true, ℕ};
ghost use Rattle.ocfl_tree.specs.{Listing.{entries_in}, Place.{Place, Text}, Store.{IfTold, Store}};
ghost use Rattle.ocfl_identity.specs.Identity.{declarations_among, declared_by};
ghost use Rattle.ocfl_report.specs.declared.further.Further.{Further};
ghost use Rattle.ocfl_cursor.specs.declared.refused.Refused.{Refused};
ghost use Rattle.ocfl_state.specs.{Content.{Content, is_closed}, CheckpointRefusal.{RefusedRightly}};
ghost use Rattle.ocfl_night.specs.{Older.{IsOlder}, Promises.{IfThere}, Refusing.{IsRefused}};
ghost use Rattle.ocfl_terms.specs.declared.plan.Plan.{Plan};
ghost use Rattle.ocfl_night.specs.declared.site.Site.{Site};
ghost use Rattle.ocfl_terms.specs.declared.refusal.Refusal.TheVariants as refusal;

/// A night that is refused since its folder has no checkpoint, or something else in its place, was
/// over such a folder: each reason holds, and no other one is given for it.
pub fn each_refusal_of_a_folder_is_for_its_reason()
    ensures no_checkpoint { (tells : Bool) (s : Store) (site : Site) (plan : Plan) (c : Content)
        → IsRefused tells s site plan c refusal.NoCheckpoint
        → (c.checkpoint ≡ None) × (plan.create ≡ false) }
    ensures has_reports { (tells : Bool) (s : Store) (site : Site) (plan : Plan) (c : Content)
        → IsRefused tells s site plan c refusal.HasReports
        → (c.checkpoint ≡ None) × (plan.create ≡ true)
        × ((c.report ≢ []) ⊎ IsTrue (is_closed c.closed 1)) }
    ensures unread { (tells : Bool) (s : Store) (site : Site) (plan : Plan) (c : Content)
        (why : Refused) → IsRefused tells s site plan c (refusal.Unread why)
        → (bytes : Text) → c.checkpoint ≡ Some bytes → RefusedRightly bytes why }
    ensures older { (tells : Bool) (s : Store) (site : Site) (plan : Plan) (c : Content)
        (cycle : ℕ) → IsRefused tells s site plan c (refusal.Older cycle)
        → IfThere c (λ k. IsOlder k c cycle) }
{}

/// One that is refused since the folder is another root's, part's or audit's, or the root is not as
/// it was, was over a folder with such a checkpoint.
pub fn each_refusal_of_a_root_is_for_its_reason()
    ensures no_root { (tells : Bool) (s : Store) (site : Site) (plan : Plan) (c : Content)
        → IsRefused tells s site plan c refusal.NoRoot
        → IfTold tells s (λ root. declarations_among (entries_in root []) ≡ []) }
    ensures other_root { (tells : Bool) (s : Store) (site : Site) (plan : Plan) (c : Content)
        (path : Place) → IsRefused tells s site plan c (refusal.OtherRoot path)
        → IfThere c (λ k. (k.root.path ≡ path) × (path ≢ site.path)) }
    ensures other_part { (tells : Bool) (s : Store) (site : Site) (plan : Plan) (c : Content)
        → IsRefused tells s site plan c refusal.OtherPart
        → IfThere c (λ k. (k.root.path ≡ site.path) × (k.part ≢ site.ends)) }
    ensures other_audit { (tells : Bool) (s : Store) (site : Site) (plan : Plan) (c : Content)
        (further : Further) → IsRefused tells s site plan c (refusal.OtherAudit further)
        → IfThere c (λ k. (k.root.path ≡ site.path) × (k.part ≡ site.ends)
        × (k.cursor.further ≡ further) × (further ≢ site.further)) }
    ensures other_declaration { (tells : Bool) (s : Store) (site : Site) (plan : Plan)
        (c : Content) → IsRefused tells s site plan c refusal.OtherDeclaration
        → IfThere c (λ k. (plan.force_root ≡ false) × IfTold tells s (λ root.
        declared_by root (declarations_among (entries_in root [])) ≢ Some k.root.declared)) }
    ensures names_gone { (tells : Bool) (s : Store) (site : Site) (plan : Plan) (c : Content)
        (gone before : ℕ) → IsRefused tells s site plan c (refusal.NamesGone gone before)
        → IfThere c (λ k. (plan.force_root ≡ false) × (before ≡ k.names.count)
        × IfTold tells s (λ root. (gone + length (entries_in root []) ≡ before)
        × (length (entries_in root []) + length (entries_in root []) < before))) }
{}
