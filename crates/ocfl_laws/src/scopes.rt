//! What a command within a scope ends with.
ghost use Rattle.std.specs.Prelude.{◌≡◌, ◌≢◌, ◌⊎◌, ◌≤◌, ◌++◌, ℕ, List, [], Option, Some, Vec, length};
ghost use Rattle.std.specs.declared.alloc.Global.{Global};
ghost use Rattle.ocfl_tree.specs.{Place.{Place}, declared.store.Opening.{Opening}};
ghost use Rattle.ocfl_report.specs.declared.further.Further.{Further};
ghost use Rattle.ocfl_rules.specs.Parts.{branch};
ghost use Rattle.ocfl_cursor.specs.{Cursor.{Cursor}, Part.{IsPartText}, Refusal.{IsTextOf}};
ghost use Rattle.ocfl_cursor.specs.{Stop.{max_part_text}, declared.ends.PartEnds.{PartEnds}};
ghost use Rattle.ocfl_cursor.specs.declared.refused.PartRefused.{PartRefused};
ghost use Rattle.ocfl_cursor.specs.declared.refused.PartRefused.TheVariants as part;
ghost use Rattle.ocfl_cursor.specs.declared.refused.Refused.TheVariants as refused;
ghost use Rattle.ocfl_cursor.specs.declared.refused.TextKind.TheVariants as kind;
ghost use Rattle.ocfl_deed.specs.declared.deed.Deed.{Deed};
ghost use Rattle.ocfl_scope.specs.declared.scope.Scope.TheVariants as scope;
ghost use Rattle.ocfl_scrub.specs.Call.{Call};
ghost use Rattle.ocfl_scrub.specs.declared.note.Note.{Note};
ghost use Rattle.ocfl_scrub.specs.Performing.{HandsBack, IsSaid, Performs, RefusesRightly};
ghost use Rattle.ocfl_scrub.specs.Scoping.{BranchAudited, HandsBackIn, IsSaidIn, PartRefusesRightly, PerformsIn, RefusesRightlyIn};
ghost use Rattle.ocfl_scrub.specs.Starting.{items_in};
ghost use Rattle.ocfl_scrub.specs.declared.note.Note.TheVariants as note;

/// Within the whole storage root a command ends as it does without a scope.
pub fn the_whole_is_no_other_scope()
    ensures said { (d : Deed) (n : Note) → IsSaidIn d scope.Whole n → IsSaid d n }
    ensures refused { (d : Deed) (known : Option (Option (List ℕ))) (n : Note)
        → RefusesRightlyIn d scope.Whole known n → RefusesRightly d known n }
    ensures handed_back { (d : Deed) (known : Option (Option (List ℕ))) (status : ℕ) (n : Note)
        (stored : Option (Vec ℕ Global)) → HandsBackIn d scope.Whole known status n stored
        → HandsBack known d status n stored }
    ensures told { (call : Call) (d : Deed) (known : Option (Option (List ℕ))) (status : ℕ)
        (n : Note) (stored : Option (Vec ℕ Global))
        → PerformsIn call d scope.Whole known status n stored
        → Performs call known d status n stored }
{}

/// If the audit of a branch did not stop, it reports the branch as empty exactly if it has no item.
pub fn an_empty_branch_has_no_item()
    ensures empty { (call : Call) (p : Place) (status : ℕ)
        → BranchAudited call p status note.EmptyBranch → (trail : List Opening)
        × ((call.after.openings ≡ call.before.openings ++ trail)
        × (items_in call.further call.root trail (branch p) None ≡ [])) }
    ensures some { (call : Call) (p : Place) (status : ℕ) → BranchAudited call p status note.Nothing
        → (trail : List Opening) × ((call.after.openings ≡ call.before.openings ++ trail)
        × (items_in call.further call.root trail (branch p) None ≢ [])) }
{}

/// A run of a part refuses its own cursor, of at most 67,108,864 bytes, only for want of memory. It
/// refuses the cursor of another part as such, and that of the whole root as no cursor.
pub fn a_part_takes_its_own_cursor_alone()
    ensures own { (further : Further) (e : PartEnds) (bytes : List ℕ) (c : Cursor)
        (why : PartRefused)
        → IsPartText e bytes c → length bytes ≤ max_part_text
        → PartRefusesRightly further e (Some (Some bytes)) (note.PartCursorRefused why)
        → why ≡ part.Text refused.Memory }
    ensures of_a_part { (further : Further) (e f : PartEnds) (bytes : List ℕ) (c : Cursor)
        (why : PartRefused)
        → IsPartText f bytes c → length bytes ≤ max_part_text
        → PartRefusesRightly further e (Some (Some bytes)) (note.PartCursorRefused why)
        → (why ≡ part.OtherPart) ⊎ (why ≡ part.Text refused.Memory) }
    ensures whole { (further : Further) (e : PartEnds) (bytes : List ℕ) (c : Cursor)
        (why : PartRefused)
        → IsTextOf bytes c
        → PartRefusesRightly further e (Some (Some bytes)) (note.PartCursorRefused why)
        → (why ≡ part.Text (refused.NotA kind.Cursor)) ⊎ (why ≡ part.Text refused.Memory) }
{}
