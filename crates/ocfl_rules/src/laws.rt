//! The laws of the audit, of what could not be read, of metadata, of cuts, of runs and of parts.
ghost use Rattle.std.specs.Prelude.{◌≡◌, ◌≢◌, ◌↔◌, ◌⊎◌, ◌++◌, ◌∷◌, [], ◌<◌, ◌&&◌, nat_le, suc, ℕ, List, Option, Some, None, map, filter, flat_map, if◌then◌else◌, true, false, ◌≤◌, ◌+◌, ◌-◌, ◌/◌, ◌^◌, All, take, length, replicate, codes};
ghost use Rattle.std.specs.{Ordering.{is_lt}, declared.cmp.Ordering.TheVariants.{Less}};
ghost use Rattle.ocfl_tree.specs.Ascending.{IsAmong, IsAscending, IsBeforeAll};
ghost use Rattle.ocfl_tree.specs.Name.{IsName, IsPlace};
ghost use Rattle.ocfl_tree.specs.StorageRoot.{Leaf, StorageRoot, at, dir, is_dir, file_at, file};
ghost use Rattle.ocfl_tree.specs.Place.{Place, Text, begins, place_cmp, text_cmp};
ghost use Rattle.ocfl_tree.specs.declared.store.Opening.{Opening};
ghost use Rattle.ocfl_report.specs.{Line.{Item}, Text.{text}, declared.further.Further.{Further}};
ghost use Rattle.ocfl_report.specs.declared.code.Code.TheVariants.{E001};
ghost use Rattle.ocfl_inventory.specs.{Note.{plain}, Table.{Table, paths_of}, Notes.{listed}};
ghost use Rattle.ocfl_inventory.specs.{ListedPath.{is_version_name}, Declaration.{is_declaration}};
ghost use Rattle.ocfl_inventory.specs.declared.declaration.Level.TheVariants.{Object};
ghost use Rattle.ocfl_rules.specs.Inventories.{notes, is_hashed};
ghost use Rattle.ocfl_rules.specs.Audit.{IsAudit, Unread, after, audit, candidates, given_by, item_of, total_cost};
ghost use Rattle.ocfl_rules.specs.Walk.{is_extensions, is_reached, item_at, items_of_place, items_under, names_below, step_listed, step_zone, walk, walk_after};
ghost use Rattle.ocfl_rules.specs.Stack.{IsStack, NoPathAbove, NoPathBetween, NoneSeenAbove, NoneSeenBetween, entered_at, left_of, listed_at, lists, taken};
ghost use Rattle.ocfl_rules.specs.Zone.{is_entered, is_in_extensions, is_listed_within, files_in, is_declared, is_known, is_listed_zone, max_listed_depth, seen, skipped, zone, inside, inventory_name, object_declared, root_declared, table_at};
ghost use Rattle.ocfl_rules.specs.Objects.{IsObjectRoot, HasInventory, IsInventoryFile, IsLookedInto, IsObjectFile, IsMetadata};
ghost use Rattle.ocfl_rules.specs.Lines.{object_entry_notes, version_entry_notes};
ghost use Rattle.ocfl_rules.specs.Trail.{inventories, is_meta, content_trail, unread_of, heads_of};
ghost use Rattle.ocfl_rules.specs.Due.{item_places, items_at, due, hashed_among};
ghost use Rattle.ocfl_rules.specs.Between.{IsBeyond, IsWithin, is_looked_into, looked_between, read_between};
ghost use Rattle.ocfl_rules.specs.Runs.{Limits, total_files, cut_len, cut, IsCut, runs, joined, IsAtLeast, FileLimitFits, FilesFit, of_budget, sum_of, budget_cut, budget_runs};
ghost use Rattle.ocfl_rules.specs.Parts.{Part, whole, branch, lies_in, within, places_within, parts_of, costs_of, file_counts, unread_in, together, audited_apart, branch_end, enclosed};

/// The audit is the one list that its description fits.
#[tactic(auto, using(crate::proofs::AuditLaws::audit_unique))]
pub fn audit_is_unique()
    ensures { (further : Further) (root : StorageRoot) (unread : Unread) (xs ys : List Item)
        → IsAudit further root unread xs
        → IsAudit further root unread ys → xs ≡ ys }
{}

/// The audit fits its description.
pub fn audit_is_there()
    ensures { (further : Further) (root : StorageRoot) (unread : Unread)
        → IsAudit further root unread (audit further root unread) }
{}

/// What is above a place is an end of the audit.
#[tactic(auto, using(crate::proofs::AfterLaws::after_is_end))]
pub fn after_is_an_end()
    ensures { (items : List Item) (p : Place) → IsAscending place_cmp (map (λ i. i.place) items)
        → (front : List Item) × (items ≡ front ++ after items (Some p)) }
{}

/// The items at a place and below it: its own, and then those under each name, ascending.
pub fn items_go_by_name()
    ensures by_name { (further : Further) (root : StorageRoot) (unread : Unread) (d : Place)
        → items_under d (audit further root unread) ≡ item_at further root unread d
        ++ flat_map (λ n. items_under (d
        ++ n ∷ []) (audit further root unread)) (names_below root d) }
    ensures names { (root : StorageRoot) (d : Place) → IsAscending text_cmp (names_below root d) }
    ensures here { (further : Further) (root : StorageRoot) (unread : Unread) (d : Place)
        → items_of_place d (audit further root unread) ≡ item_at further root unread d }
{}

/// Those above a place further down: what is above it under its next name, and then all under
/// greater names.
#[tactic(auto, using(crate::proofs::PublicLaws::at_itself, crate::proofs::PublicLaws::further_down))]
pub fn items_go_on()
    ensures at_itself { (further : Further) (root : StorageRoot) (unread : Unread) (d : Place)
        → after (items_under d (audit further root unread)) (Some d)
        ≡ flat_map (λ n. items_under (d
        ++ n ∷ []) (audit further root unread)) (names_below root d) }
    ensures further_down { (further : Further) (root : StorageRoot) (unread : Unread)
        (d q : Place) (n : Text)
        → after (items_under d (audit further root unread)) (Some (d ++ n ∷ q))
        ≡ after (items_under (d ++ n ∷ []) (audit further root unread)) (Some (d ++ n ∷ q))
        ++ flat_map (λ m. items_under (d ++ m ∷ []) (audit further root unread))
        (filter (λ m. is_lt (text_cmp n m)) (names_below root d)) }
{}

/// Above each place at which there is something, there is a directory.
#[tactic(auto, using(crate::proofs::WayLaws::is_closed))]
pub fn directories_lie_above()
    ensures { (root : StorageRoot) (d : Place) (n : Text) (leaf : Leaf)
        → at root (d ++ n ∷ []) ≡ Some leaf
        → at root d ≡ Some dir }
{}

/// Zone, entered and seen, one name further.
#[tactic(auto, using(crate::proofs::StepLaws::zone_step, crate::proofs::StepLaws::entered_step, crate::proofs::StepLaws::reached_step, crate::proofs::StepLaws::seen_step, crate::proofs::StepLaws::listed_step))]
pub fn a_name_is_one_step()
    ensures zone { (root : StorageRoot) (d : Place) (n : Text)
        → zone root (d ++ n ∷ []) ≡ (if is_extensions root d n then skipped else step_zone root d n
        (zone root d)) }
    ensures entered { (root : StorageRoot) (d : Place) (n : Text)
        → is_entered root (d ++ n ∷ []) ≡ nat_le (suc (length d)) max_listed_depth &&
        (is_dir root (d ++ n ∷ []) && is_listed_zone root
        (if is_extensions root d n then skipped else step_zone root d n (zone root d))) }
    ensures reached { (root : StorageRoot) (d : Place) (n : Text)
        → is_reached root (d ++ n ∷ []) ≡ is_reached root d && is_entered root (d ++ n ∷ []) }
    ensures seen { (root : StorageRoot) (d : Place) (n : Text)
        → seen root (d ++ n ∷ []) ≡ (if is_reached root d then at root (d ++ n ∷ []) else None) }
    ensures listed { (t : Table) (q : Place) (n : Text)
        → is_listed_within t (q ++ n ∷ []) ≡ step_listed t q n }
{}

/// The walk gives the audit, and resumed at a place what is above it.
pub fn walk_gives_the_audit()
    ensures whole { (further : Further) (root : StorageRoot) (unread : Unread) (k : ℕ) → 255 < k
        → walk further k root unread [] ≡ audit further root unread }
    ensures resumed { (further : Further) (root : StorageRoot) (unread : Unread) (k : ℕ)
        (q : Place) → 255 < k
        → walk_after further k root unread [] q ≡ after (audit further root unread) (Some q) }
    ensures short { (further : Further) (root : StorageRoot) (u : Option ℕ) (p : Place)
        → notes further root u p ≢ []
        → length p < 256 }
    ensures stacked { (further : Further) (root : StorageRoot) (unread : Unread) (q : Place)
        → left_of (audit further root unread) (entered_at root [] q [])
        ≡ after (audit further root unread) (Some q) }
{}

/// A step of a walk over a stack of listings and one table.
pub fn walk_goes_on()
    ensures takes { (further : Further) (root : StorageRoot) (unread : Unread) (last x : Place)
        → place_cmp last x ≡ Less
        → NoneSeenBetween root last x → NoPathBetween root last x
        → after (audit further root unread) (Some last)
        ≡ item_at further root unread x ++ after (audit further root unread) (Some x) }
    ensures ends { (further : Further) (root : StorageRoot) (unread : Unread) (last : Place)
        → NoneSeenAbove root last
        → NoPathAbove root last → after (audit further root unread) (Some last) ≡ [] }
    ensures starts { (root : StorageRoot) (q : Place) → IsStack root q (listed_at root [] q []) }
    ensures way { (root : StorageRoot) (q e : Place)
        → IsAmong (map (λ f. f.0) (listed_at root [] q [])) e
        → begins e q ≡ true }
{}

/// The walk over a stack of listings and the table of one object gives what is above the place at
/// which it starts.
pub fn walk_over_a_stack()
    ensures first { (further : Further) (root : StorageRoot) (unread : Unread)
        → audit further root unread
        ≡ item_at further root unread [] ++ after (audit further root unread) (Some []) }
    ensures lists { (root : StorageRoot) (k : ℕ) (q : Place)
        → IsBeforeAll place_cmp q (lists k root q (listed_at root [] q []))
        × IsAscending place_cmp (lists k root q (listed_at root [] q [])) }
    ensures rest { (further : Further) (root : StorageRoot) (unread : Unread) (k : ℕ) (q : Place)
        → length (candidates root) < k → taken further k root unread q (listed_at root [] q [])
        ≡ after (audit further root unread) (Some q) }
{}

/// Which places have lines does not depend on what could be read, and what could be read changes an
/// item at its own place alone.
#[tactic(auto, using(crate::proofs::FurtherLaws::lines_alike, crate::proofs::DueLaws::items_agree, crate::proofs::DueLaws::audit_by_places, crate::proofs::DueLaws::after_is_due))]
pub fn reading_moves_no_lines()
    ensures places { (further : Further) (root : StorageRoot) (u v : Option ℕ) (p : Place)
        → notes further root u p ≡ []
        → notes further root v p ≡ [] }
    ensures items { (further : Further) (root : StorageRoot) (u v : Unread) (p : Place)
        → given_by u p ≡ given_by v p
        → items_of_place p (audit further root u) ≡ items_of_place p (audit further root v) }
    ensures by_places { (further : Further) (root : StorageRoot) (u : Unread)
        → audit further root u ≡ map (item_of further root u) (item_places further root) }
    ensures due { (further : Further) (root : StorageRoot) (trail : List Opening)
        (last : Option Place)
        → after (audit further root (unread_of further root trail)) last
        ≡ items_at further root trail (due further root last) }
{}

/// No hashed file is a declaration, an inventory or a sidecar.
#[tactic(auto, using(crate::proofs::InventoryLaws::hashed_no_meta))]
pub fn content_is_no_meta()
    ensures { (further : Further) (root : StorageRoot) (p : Place)
        → is_hashed further root p ≡ true → is_meta further root p ≡ false }
{}

/// The storage root's extensions are what is at and below a directory `extensions` right in it.
pub fn extensions_are_exact()
    ensures { (root : StorageRoot) (p : Place) → (is_in_extensions root p ≡ true) ↔ ((q : Place)
        × ((p ≡ codes "extensions" ∷ q) × (at root (codes "extensions" ∷ []) ≡ Some dir))) }
{}

/// The files and directories without a line in an object's root, and the files in a version
/// directory, are those of the names that are allowed there.
pub fn allowed_names_are_exact()
    ensures object_files { (root : StorageRoot) (p : Place) (n bytes : Text)
        → (object_entry_notes root p n (Some (file bytes)) ≡ []) ↔ IsObjectFile n }
    ensures stray_directories { (root : StorageRoot) (p : Place) (n : Text)
        → (object_entry_notes root p n (Some dir) ≡ plain E001 ∷ [])
        ↔ ((is_version_name n ≡ false) × ((n ≢ codes "extensions") × (n ≢ codes "logs"))) }
    ensures version_files { (root : StorageRoot) (t : Table) (p : Place) (n bytes : Text)
        → (version_entry_notes root t p n (Some (file bytes)) ≡ []) ↔ IsInventoryFile n }
{}

/// Metadata is the storage root's declarations, and right in an object's root its declarations, its
/// inventory and the two sidecars; the two sidecars in its version directories, if the inventories
/// there are checked; and nothing else.
pub fn metadata_is_exact()
    ensures { (further : Further) (root : StorageRoot) (p : Place)
        → (is_meta further root p ≡ true) ↔ IsMetadata further root p }
{}

/// An opening of anything but metadata shows its place as content, and an unreadable file if it
/// failed; one of metadata shows neither. More openings show more, in order.
pub fn openings_show_content()
    ensures content { (further : Further) (root : StorageRoot) (o : Opening)
        → (IsMetadata further root o.place → ⊥)
        → content_trail further root (o ∷ []) ≡ o.place ∷ [] }
    ensures unread { (further : Further) (root : StorageRoot) (o : Opening)
        → (IsMetadata further root o.place → ⊥)
        → o.failed ≡ true → unread_of further root (o ∷ []) ≡ (o.place, o.given) ∷ [] }
    ensures read { (further : Further) (root : StorageRoot) (o : Opening) → o.failed ≡ false
        → unread_of further root (o ∷ []) ≡ [] }
    ensures metadata { (further : Further) (root : StorageRoot) (o : Opening)
        → IsMetadata further root o.place
        → (content_trail further root (o ∷ []) ≡ []) × (unread_of further root (o ∷ []) ≡ []) }
    ensures more_content { (further : Further) (root : StorageRoot) (front trail : List Opening)
        → content_trail further root (front ++ trail)
        ≡ content_trail further root front ++ content_trail further root trail }
    ensures more_unread { (further : Further) (root : StorageRoot) (front trail : List Opening)
        → unread_of further root (front ++ trail)
        ≡ unread_of further root front ++ unread_of further root trail }
{}

/// An opening of the inventory of an object shows that object, and no other opening shows one. More
/// openings show more, in order.
#[tactic(auto, using(crate::proofs::MetaLaws::head_shown, crate::proofs::MetaLaws::no_head_shown, crate::proofs::MetaLaws::heads_on))]
pub fn openings_show_inventories()
    ensures inventory { (root : StorageRoot) (x : Opening) (o : Place) → IsObjectRoot root o
        → x.place ≡ o ++ codes "inventory.json" ∷ [] → heads_of root (x ∷ []) ≡ o ∷ [] }
    ensures others { (root : StorageRoot) (x : Opening) → ((o : Place) → IsObjectRoot root o
        → x.place ≡ o ++ codes "inventory.json" ∷ [] → ⊥) → heads_of root (x ∷ []) ≡ [] }
    ensures more { (root : StorageRoot) (front trail : List Opening)
        → heads_of root (front ++ trail) ≡ heads_of root front ++ heads_of root trail }
{}

/// What a content file gave is what comes first for its place.
#[tactic(auto, using(crate::proofs::MetaLaws::given_first, crate::proofs::MetaLaws::given_behind))]
pub fn first_reading_counts()
    ensures first { (unread : Unread) (p : Place) (n : ℕ)
        → given_by ((p, n) ∷ unread) p ≡ Some n }
    ensures later { (unread : Unread) (p q : Place) (n : ℕ) → q ≢ p
        → given_by ((q, n) ∷ unread) p ≡ given_by unread p }
    ensures none { (p : Place) → given_by [] p ≡ None }
{}

/// Each path that an object's table names has lines.
#[tactic(auto, using(crate::proofs::InventoryLaws::path_lines))]
pub fn named_paths_have_lines()
    ensures { (further : Further) (root : StorageRoot) (u : Option ℕ) (p o q : Place) (t : Table)
        → zone root p ≡ inside o q
        → table_at root o ≡ Some t → IsAmong (paths_of t) q → notes further root u p ≢ [] }
{}

/// What an audit looks into and reads on the way from one place to another adds up, and is all if
/// both ends are open.
#[tactic(auto, using(crate::proofs::BetweenLaws::looked_on, crate::proofs::BetweenLaws::read_on))]
pub fn ways_add_up()
    ensures looked { (root : StorageRoot) (from to : Option Place) (b : Place) → IsBeyond from b
        → IsWithin to b → looked_between root from (Some b) ++ looked_between root (Some b) to
        ≡ looked_between root from to }
    ensures read { (root : StorageRoot) (from to : Option Place) (b : Place) → IsBeyond from b
        → IsWithin to b → read_between root from (Some b) ++ read_between root (Some b) to
        ≡ read_between root from to }
{}

/// The inventories that an audit reads are those of the objects that have one, each once, in order.
/// Those objects are seen by the audit.
#[tactic(auto, using(crate::proofs::ObjectLaws::inventories_read, crate::proofs::ObjectLaws::inventories_which, crate::proofs::ObjectLaws::inventories_ascend, crate::proofs::ObjectLaws::object_seen))]
pub fn inventories_are_of_objects()
    ensures of_objects { (root : StorageRoot) → inventories root
        ≡ map (λ o. o ++ inventory_name ∷ []) (read_between root None None) }
    ensures which { (root : StorageRoot) (p : Place)
        → IsAmong (inventories root) p ↔ ((o : Place)
        × ((p ≡ o ++ inventory_name ∷ []) × HasInventory root o)) }
    ensures ascending { (root : StorageRoot) → IsAscending place_cmp (inventories root) }
    ensures seen { (root : StorageRoot) (o : Place) → HasInventory root o → seen root o ≡ Some dir }
{}

/// The zone of an object's root begins at itself.
#[tactic(auto, using(crate::proofs::ObjectLaws::object_by_zone))]
pub fn objects_have_their_zone()
    ensures { (root : StorageRoot) (o : Place) → IsObjectRoot root o ↔ (zone root o ≡ inside o []) }
{}

/// The objects whose inventories are read between two places are those between them that have one,
/// and the directories that are looked into are those between them into which an audit looks, each
/// once, in order.
#[tactic(auto, using(crate::proofs::ObjectLaws::read_part, crate::proofs::ObjectLaws::read_ascends, crate::proofs::ObjectLaws::looked_which, crate::proofs::ObjectLaws::looked_ascends))]
pub fn ways_are_parts()
    ensures read { (root : StorageRoot) (from to : Option Place) (o : Place)
        → IsAmong (read_between root from to) o
        ↔ (IsBeyond from o × (IsWithin to o × HasInventory root o)) }
    ensures read_in_order { (root : StorageRoot)
        → IsAscending place_cmp (read_between root None None) }
    ensures looked { (root : StorageRoot) (from to : Option Place) (d : Place)
        → IsAmong (looked_between root from to) d
        ↔ (IsBeyond from d × (IsWithin to d × (is_looked_into root d ≡ true))) }
    ensures looked_in_order { (root : StorageRoot) → IsAscending place_cmp
        (looked_between root None None) }
{}

/// The storage root is looked into, and so is each directory at depth 127 at most that is seen and
/// whose entries an audit looks at; no other is.
pub fn directories_looked_into_are_exact()
    ensures { (root : StorageRoot) (d : Place) → (is_looked_into root d ≡ true)
        ↔ ((d ≡ []) ⊎ IsLookedInto root d) }
{}

/// No inventory is read of an object without one, or with no known version or several declarations;
/// none in the storage root's extensions, none inside another object, and none in a storage root
/// that is not of known version.
pub fn other_inventories_are_not_read()
    ensures without_file { (root : StorageRoot) (o : Place)
        → file_at root (o ++ inventory_name ∷ []) ≡ None
        → IsAmong (inventories root) (o ++ inventory_name ∷ []) → ⊥ }
    ensures of_unknown_version { (root : StorageRoot) (o : Place)
        → is_known (object_declared root o) ≡ false
        → IsAmong (inventories root) (o ++ inventory_name ∷ []) → ⊥ }
    ensures one_declaration { (root : StorageRoot) (o : Place)
        → IsAmong (inventories root) (o ++ inventory_name ∷ [])
        → (n : Text) × (filter (is_declaration Object) (files_in root o) ≡ n ∷ []) }
    ensures of_several_declarations { (root : StorageRoot) (o : Place) (n m : Text) (ns : List Text)
        → filter (is_declaration Object) (files_in root o) ≡ n ∷ m ∷ ns
        → IsAmong (inventories root) (o ++ inventory_name ∷ []) → ⊥ }
    ensures in_extensions { (root : StorageRoot) (o : Place) → is_in_extensions root o ≡ true
        → IsAmong (inventories root) (o ++ inventory_name ∷ []) → ⊥ }
    ensures inside_an_object { (root : StorageRoot) (o : Place) (n : Text) (q : Place) → o ≢ []
        → is_declared (object_declared root o) ≡ true
        → IsAmong (inventories root) ((o ++ n ∷ q) ++ inventory_name ∷ []) → ⊥ }
    ensures in_an_unknown_root { (root : StorageRoot) (p : Place)
        → is_known (root_declared root) ≡ false
        → IsAmong (inventories root) p → ⊥ }
{}

/// The computed cut is the greatest that the rule allows, and no other number is.
#[tactic(auto, using(crate::proofs::RunLaws::cut_is, crate::proofs::RunLaws::cut_only))]
pub fn cut_is_the_greatest()
    ensures is { (items : List Item) (l : Limits) → IsCut items l (cut_len l 0 0 items) }
    ensures only { (items : List Item) (l : Limits) (n : ℕ) → IsCut items l n
        → n ≡ cut_len l 0 0 items }
{}

/// A limit on files fits if it is at least their number, and whatever their number if it is 2^62
/// and the budget at most that.
#[tactic(auto, using(crate::proofs::RunLaws::as_many_fit, crate::proofs::RunLaws::most_fit))]
pub fn limits_on_files_fit()
    ensures as_many { (items : List Item) (limits : List Limits)
        → All (λ l. total_files items ≤ l.files) limits → FilesFit items limits }
    ensures by_default { (items : List Item) (limits : List Limits)
        → All (λ l. l.budget ≤ 2 ^ 62) limits → All (λ l. l.files ≡ 2 ^ 62) limits
        → FilesFit items limits }
{}

/// Each file costs something. If the limits on files fit, cuts and runs are those of budgets alone.
#[tactic(auto, using(crate::proofs::RunLaws::files_cost, crate::proofs::RunLaws::same_cut, crate::proofs::RunLaws::same_runs, crate::proofs::RunLaws::same_budgets, crate::proofs::RunLaws::same_few_files))]
pub fn budgets_alone()
    ensures cost { (items : List Item) → total_files items ≤ total_cost items }
    ensures cut { (items : List Item) (l : Limits) → FileLimitFits items l
        → cut items l ≡ budget_cut items l.budget }
    ensures runs { (items : List Item) (limits : List Limits) → FilesFit items limits
        → runs items limits ≡ budget_runs items (map (λ l. l.budget) limits) }
    ensures by_default { (items : List Item) (budgets : List ℕ) → All (λ b. b ≤ 2 ^ 62) budgets
        → runs items (map of_budget budgets) ≡ budget_runs items budgets }
    ensures few_files { (items : List Item) (budgets : List ℕ) → total_files items ≤ 2 ^ 62
        → runs items (map of_budget budgets) ≡ budget_runs items budgets }
{}

/// If the limits on files fit, budgets that sum to the cost are enough: the runs, joined, are the
/// whole, and no budget after these is used.
#[tactic(auto, using(crate::proofs::RunLaws::limits_join, crate::proofs::RunLaws::limits_few))]
pub fn runs_join()
    ensures whole { (limits : List Limits) (items : List Item) → 1 ≤ length limits
        → FilesFit items limits → total_cost items ≤ sum_of (map (λ l. l.budget) limits)
        → joined (runs items limits) ≡ items }
    ensures few { (k : ℕ) (limits : List Limits) (items : List Item) → 1 ≤ k → k ≤ length limits
        → FilesFit items limits → total_cost items ≤ sum_of (take k (map (λ l. l.budget) limits))
        → length (runs items limits) ≤ k }
{}

/// Limits that are each at least a given size take all in at most one run more than the cost by the
/// budget and the files by their limit.
pub fn large_limits_are_few()
    ensures whole { (b n : ℕ) (limits : List Limits) (items : List Item) → 1 ≤ b → 1 ≤ n
        → All (IsAtLeast b n) limits → total_cost items / b + total_files items / n + 1
        ≤ length limits → joined (runs items limits) ≡ items }
    ensures few { (b n : ℕ) (limits : List Limits) (items : List Item) → 1 ≤ b → 1 ≤ n
        → All (IsAtLeast b n) limits → length (runs items limits)
        ≤ total_cost items / b + total_files items / n + 1 }
{}

/// Equal limits whose limit on files fits take all in at most one run more than the cost less one
/// divided by the budget, and what costs nothing in one run.
#[tactic(auto, using(crate::proofs::RunLaws::same_few, crate::proofs::RunLaws::same_join, crate::proofs::RunLaws::free_join, crate::proofs::RunLaws::free_run))]
pub fn equal_budgets_are_few()
    ensures few { (items : List Item) (l : Limits) (n : ℕ) → FileLimitFits items l
        → 1 ≤ l.budget → 1 ≤ total_cost items
        → length (runs items (replicate n l)) ≤ (total_cost items - 1) / l.budget + 1 }
    ensures whole { (items : List Item) (l : Limits) (n : ℕ) → FileLimitFits items l
        → 1 ≤ l.budget → 1 ≤ total_cost items → (total_cost items - 1) / l.budget + 1 ≤ n
        → joined (runs items (replicate n l)) ≡ items }
    ensures free { (items : List Item) (l : Limits) (n : ℕ) → total_cost items ≡ 0 → 1 ≤ n
        → joined (runs items (replicate n l)) ≡ items }
    ensures once { (items : List Item) (l : Limits) (n : ℕ) → total_cost items ≡ 0 → 1 ≤ n
        → length (runs items (replicate n l)) ≡ 1 }
{}

/// One test of its place decides what is in a part. So the items of the audit in a part are those
/// of its places.
#[tactic(auto, using(crate::proofs::PartLaws::within_is, crate::proofs::PartLaws::places_within_is, crate::proofs::ApartLaws::unread_is, crate::proofs::PartLaws::within_by_places))]
pub fn parts_are_filters()
    ensures items { (part : Part) (items : List Item)
        → within part items ≡ filter (λ i. lies_in part i.place) items }
    ensures places { (part : Part) (places : List Place)
        → places_within part places ≡ filter (lies_in part) places }
    ensures unread { (part : Part) (unread : Unread)
        → unread_in part unread ≡ filter (λ e. lies_in part e.0) unread }
    ensures by_places { (further : Further) (root : StorageRoot) (unread : Unread) (part : Part)
        → within part (audit further root unread)
        ≡ map (item_of further root unread) (places_within part (item_places further root)) }
{}

/// The whole has all items, and a branch those at its place and below it.
pub fn branches_are_parts()
    ensures whole { (items : List Item) → within whole items ≡ items }
    ensures branch { (p : Place) (items : List Item)
        → within (branch p) items ≡ items_under p items }
{}

/// Separators in strict order make one part more than they are, and each place is in just one of
/// these parts.
pub fn each_place_lies_in_one_part()
    ensures number { (separators : List Place)
        → length (parts_of separators) ≡ length separators + 1 }
    ensures one { (separators : List Place) (p : Place) → IsAscending place_cmp separators
        → (part : Part) × (filter (λ part. lies_in part p) (parts_of separators) ≡ part ∷ []) }
{}

/// The items of such parts, joined, are the audit, whether or not items are at the separators. So
/// are their texts, the files that they hash, and any places in order.
pub fn parts_join()
    ensures items { (further : Further) (root : StorageRoot) (unread : Unread)
        (separators : List Place)
        → IsAscending place_cmp separators
        → flat_map (λ part. within part (audit further root unread)) (parts_of separators)
        ≡ audit further root unread }
    ensures texts { (further : Further) (root : StorageRoot) (unread : Unread)
        (separators : List Place)
        → IsAscending place_cmp separators
        → flat_map (λ part. text (within part (audit further root unread))) (parts_of separators)
        ≡ text (audit further root unread) }
    ensures hashed { (further : Further) (root : StorageRoot) (separators : List Place)
        → IsAscending place_cmp separators
        → flat_map (λ part. hashed_among further root (places_within part
        (item_places further root)))
        (parts_of separators)
        ≡ hashed_among further root (item_places further root) }
    ensures places { (separators places : List Place) → IsAscending place_cmp separators
        → IsAscending place_cmp places
        → flat_map (λ part. places_within part places) (parts_of separators) ≡ places }
{}

/// Audits of such parts, each with what it could not read itself, joined, are the audit with what
/// they could not read together: each set counts in its own part. Texts, costs and files follow.
pub fn parts_apart_join()
    ensures items { (further : Further) (root : StorageRoot) (separators : List Place)
        (parts : List (Part × Unread))
        → IsAscending place_cmp separators → map (λ e. e.0) parts ≡ parts_of separators
        → audited_apart further root parts ≡ audit further root (together parts) }
    ensures texts { (further : Further) (root : StorageRoot) (separators : List Place)
        (parts : List (Part × Unread))
        → IsAscending place_cmp separators → map (λ e. e.0) parts ≡ parts_of separators
        → flat_map (λ e. text (within e.0 (audit further root e.1))) parts
        ≡ text (audit further root (together parts)) }
    ensures costs { (further : Further) (root : StorageRoot) (separators : List Place)
        (parts : List (Part × Unread))
        → IsAscending place_cmp separators → map (λ e. e.0) parts ≡ parts_of separators
        → sum_of (map (λ e. total_cost (within e.0 (audit further root e.1))) parts)
        ≡ total_cost (audit further root (together parts)) }
    ensures files { (further : Further) (root : StorageRoot) (separators : List Place)
        (parts : List (Part × Unread))
        → IsAscending place_cmp separators → map (λ e. e.0) parts ≡ parts_of separators
        → sum_of (map (λ e. total_files (within e.0 (audit further root e.1))) parts)
        ≡ total_files (audit further root (together parts)) }
{}

/// What such parts cost and how many files they have sums to that of the audit.
pub fn parts_add_up()
    ensures costs { (further : Further) (root : StorageRoot) (unread : Unread)
        (separators : List Place)
        → IsAscending place_cmp separators
        → sum_of (costs_of (parts_of separators) (audit further root unread))
        ≡ total_cost (audit further root unread) }
    ensures files { (further : Further) (root : StorageRoot) (unread : Unread)
        (separators : List Place)
        → IsAscending place_cmp separators
        → sum_of (file_counts (parts_of separators) (audit further root unread))
        ≡ total_files (audit further root unread) }
{}

/// What is above a place in a part is those of the items above it that are in the part.
#[tactic(auto, using(crate::proofs::PartLaws::part_goes_on))]
pub fn parts_go_on()
    ensures { (part : Part) (last : Option Place) (items : List Item)
        → after (within part items) last ≡ within part (after items last) }
{}

/// A place and the same with the byte 1 after its last name, as separators, enclose its branch and
/// nothing else. The longer name is a name, unless the other has 255 bytes already.
#[tactic(auto, using(crate::proofs::BranchLaws::ends_above, crate::proofs::BranchLaws::enclosed_is, crate::proofs::BranchLaws::enclosed_items, crate::proofs::BranchLaws::end_is_no_name))]
pub fn two_separators_enclose_a_branch()
    ensures ascend { (d : Place) (n : Text) → place_cmp (d ++ n ∷ []) (branch_end d n) ≡ Less }
    ensures places { (d : Place) (n : Text) (p : Place) → IsPlace p
        → lies_in (enclosed d n) p ≡ begins (d ++ n ∷ []) p }
    ensures items { (d : Place) (n : Text) (items : List Item) → All (λ i. IsPlace i.place) items
        → within (enclosed d n) items ≡ items_under (d ++ n ∷ []) items }
    ensures name { (n : Text) → IsName n → length n < 255 → IsName (n ++ 1 ∷ []) }
    ensures no_name { (n : Text) → 255 ≤ length n → IsName (n ++ 1 ∷ []) → ⊥ }
{}

/// Limits that are each at least a given size take a part in at most one run more than its own cost
/// by the budget and its own files by their limit.
pub fn parts_take_few_runs()
    ensures whole { (further : Further) (root : StorageRoot) (unread : Unread) (part : Part)
        (b n : ℕ)
        (limits : List Limits) → 1 ≤ b → 1 ≤ n → All (IsAtLeast b n) limits
        → total_cost (within part (audit further root unread)) / b
        + total_files (within part (audit further root unread)) / n + 1 ≤ length limits
        → joined (runs (within part (audit further root unread)) limits)
        ≡ within part (audit further root unread) }
    ensures few { (further : Further) (root : StorageRoot) (unread : Unread) (part : Part) (b n : ℕ)
        (limits : List Limits) → 1 ≤ b → 1 ≤ n → All (IsAtLeast b n) limits
        → length (runs (within part (audit further root unread)) limits)
        ≤ total_cost (within part (audit further root unread)) / b
        + total_files (within part (audit further root unread)) / n + 1 }
{}
