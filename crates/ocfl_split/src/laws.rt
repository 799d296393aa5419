//! The laws of what splits a storage root.
ghost use Rattle.std.specs.Prelude.{◌≡◌, ◌↔◌, ℕ, ◌+◌, ◌-◌, ◌*◌, ◌/◌, ◌<◌, ◌≤◌, ◌≢◌, Some, AllPairs, length, min, slice_get, List, ◌∷◌, ◌++◌, drop, flat_map, map, replicate};
ghost use Rattle.ocfl_tree.specs.{Ascending.{IsAmong, IsAscending}, Place.{Place, place_cmp}};
ghost use Rattle.ocfl_tree.specs.StorageRoot.{StorageRoot, dir, at};
ghost use Rattle.ocfl_report.specs.{Line.{Line, Item}, declared.further.Further.{Further}};
ghost use Rattle.ocfl_rules.specs.Runs.{Limits, runs, joined, FileLimitFits};
ghost use Rattle.ocfl_rules.specs.{Audit.{Unread, audit}, Parts.{within, parts_of}};
ghost use Rattle.ocfl_separators.specs.Splits.{cuts, reported};
ghost use Rattle.ocfl_split.specs.Levels.{level, LiesInHierarchy};
ghost use Rattle.ocfl_split.specs.Reported.{first_places, PassesJust};
ghost use Rattle.ocfl_split.specs.Splitting.{IsSplitLevel, listed_for, split_level, separators_of};

/// What is split is one level of the storage hierarchy: the first that has enough directories, or
/// else the widest that is reached. None above it has enough.
#[tactic(auto, using(crate::proofs::LevelLaws::one_level, crate::proofs::LevelLaws::none_above_has_enough))]
pub fn one_level_is_split()
    ensures one { (root : StorageRoot) (count : ℕ) → (n : ℕ)
        × ((split_level root count ≡ level root n) × IsSplitLevel root count n) }
    ensures first { (root : StorageRoot) (count n k : ℕ) → IsSplitLevel root count n → k < n
        → length (level root k) < count }
{}

/// The separators are directories of that level, and so of the tree.
#[tactic(auto, using(crate::proofs::LevelLaws::separator_in_level, crate::proofs::LevelLaws::separator_there))]
pub fn separators_are_directories()
    ensures level { (root : StorageRoot) (count : ℕ) (p : Place)
        → IsAmong (separators_of root count) p → IsAmong (split_level root count) p }
    ensures there { (root : StorageRoot) (count : ℕ) (p : Place)
        → IsAmong (separators_of root count) p → at root p ≡ Some dir }
{}

/// Below the storage root a level holds just the directories of the storage hierarchy at its depth,
/// and the roots of objects there (OCFL 1.1, 4.3 Storage Hierarchies).
#[tactic(auto, using(crate::proofs::LevelZones::level_is))]
pub fn levels_are_the_hierarchy()
    ensures { (root : StorageRoot) (n : ℕ) (p : Place) → IsAmong (level root (n + 1)) p
        ↔ ((length p ≡ n + 1) × LiesInHierarchy root p) }
{}

/// Parts have about equally many directories: each has the quotient of an even division, or one
/// more. There are as many as asked for, or one for each directory if these are fewer.
#[tactic(auto, using(crate::proofs::Cuts::even_parts))]
pub fn parts_are_even()
    ensures count { (root : StorageRoot) (count : ℕ) → length (separators_of root count)
        ≡ min count (length (split_level root count)) - 1 }
    ensures position { (root : StorageRoot) (count k : ℕ) → k < length (separators_of root count)
        → slice_get (separators_of root count) k ≡ slice_get (split_level root count)
        ((k + 1) * length (split_level root count) / min count (length (split_level root count))) }
    ensures even { (directories parts i : ℕ) → 0 < parts
        → (i * directories / parts + directories / parts ≤ (i + 1) * directories / parts)
        × ((i + 1) * directories / parts ≤ i * directories / parts + directories / parts + 1) }
{}

/// Levels are in order, and each directory is listed at most once.
#[tactic(auto, using(crate::proofs::Listed::level_rises, crate::proofs::Listed::listed_apart))]
pub fn directories_are_listed_once()
    ensures order { (root : StorageRoot) (n : ℕ) → IsAscending place_cmp (level root n) }
    ensures once { (root : StorageRoot) (count : ℕ)
        → AllPairs (λ a b. a ≢ b) (listed_for root count) }
{}

/// The separators are in strict order. So the parts that they make hold each audit, one that checks
/// the inventories of versions too: the items of the parts, joined, are all of its items.
#[tactic(auto, using(crate::proofs::EachAudit::separators_ascend, crate::proofs::EachAudit::parts_hold))]
pub fn parts_hold_each_audit()
    ensures order { (root : StorageRoot) (count : ℕ)
        → IsAscending place_cmp (separators_of root count) }
    ensures items { (further : Further) (root : StorageRoot) (unread : Unread) (count : ℕ)
        → flat_map (λ part. within part (audit further root unread))
        (parts_of (separators_of root count))
        ≡ audit further root unread }
{}

/// A report is cut at the first places of the runs, but the first, that a budget makes of its items
/// if there are enough of them. So the items of the parts are those of the runs. Each run but the
/// last costs at least the budget, and passes it by less than its last file.
#[tactic(auto, using(crate::proofs::ReportedRuns::cuts_begin_runs))]
pub fn a_report_is_cut_into_runs()
    ensures places { (lines : List Line) (l : Limits) (n : ℕ) → 1 ≤ l.budget
        → FileLimitFits (reported lines) l
        → joined (runs (reported lines) (replicate n l)) ≡ reported lines
        → cuts l.budget lines ≡ first_places (drop 1 (runs (reported lines) (replicate n l))) }
    ensures parts { (lines : List Line) (l : Limits) (n : ℕ) → 1 ≤ n → 1 ≤ l.budget
        → FileLimitFits (reported lines) l
        → joined (runs (reported lines) (replicate n l)) ≡ reported lines
        → IsAscending place_cmp (map (λ i. i.place) (reported lines))
        → map (λ part. within part (reported lines)) (parts_of (cuts l.budget lines))
        ≡ runs (reported lines) (replicate n l) }
    ensures costs { (items : List Item) (l : Limits) (n : ℕ) (before : List (List Item))
        (run next : List Item) (later : List (List Item)) → 1 ≤ l.budget → FileLimitFits items l
        → runs items (replicate n l) ≡ before ++ run ∷ next ∷ later → PassesJust l.budget run }
{}
