//! The laws of parts: what the runs of a part wrote, joined, and what the parts of a storage root
//! wrote together.
ghost use Rattle.std.specs.Prelude.{◌≡◌, ◌≤◌, ◌+◌, ◌++◌, ◌/◌, ℕ, Bool, List, [], ◌∷◌, Option, None, All, false, filter, flat_map, length, map};
ghost use Rattle.std.specs.List.{AllByRecursion};
ghost use Rattle.ocfl_tree.specs.{Place.{Place, Text, place_cmp}, Ascending.{IsAmong, IsAscending}};
ghost use Rattle.ocfl_tree.specs.{StorageRoot.{StorageRoot}, Store.{Store}};
ghost use Rattle.ocfl_tree.specs.declared.store.Opening.{Opening};
ghost use Rattle.ocfl_report.specs.{Text.{text}, declared.further.Further.{Further}};
ghost use Rattle.ocfl_rules.specs.{Audit.{audit, total_cost}, Due.{hashed_among, item_places}};
ghost use Rattle.ocfl_rules.specs.{Lines.{is_empty}, Parts.{Part, parts_of, places_within, within}};
ghost use Rattle.ocfl_rules.specs.Runs.{IsAtLeast, Limits, total_files};
ghost use Rattle.ocfl_rules.specs.Trail.{content_trail, heads_of};
ghost use Rattle.ocfl_cursor.specs.Cursor.{Cursor, ended};
ghost use Rattle.ocfl_item.specs.Auditing.{FailedAt};
ghost use Rattle.ocfl_item.specs.declared.fault.Fault.TheVariants as fault;
ghost use Rattle.ocfl_scrub.specs.{Call.{Call, known_call}, Chaining.{CycleOfRunsWithin, IsMadeOf}};
ghost use Rattle.ocfl_scrub.specs.Checking.{CheckEnds};
ghost use Rattle.ocfl_laws.specs.Openings.{OpensNear, OpensWithin};
ghost use Rattle.ocfl_scrub.specs.Running.{RunEndsWithin, RunsFromWithin, begun, place_in};
ghost use Rattle.ocfl_scrub.specs.Joining.{HasReport, IsWholeCycle, PartCycle, PartRun, Ran, is_taken, reports_of, unread_together};
ghost use Rattle.ocfl_scrub.specs.{Keeping.{RunsOn}, WholeAudit.{AuditEndsWithin}};
ghost use Rattle.ocfl_scrub.specs.declared.checking.AuditStatus.{AuditStatus};
ghost use Rattle.ocfl_scrub.specs.declared.cycling.CycleEnd.{CycleEnd};
ghost use Rattle.ocfl_scrub.specs.declared.running.RunEnd.{RunEnd};
ghost use Rattle.ocfl_scrub.specs.declared.running.RunStatus.{RunStatus};
ghost use Rattle.ocfl_scrub.specs.declared.cycling.CycleStatus.TheVariants as cycle;
ghost use Rattle.ocfl_scrub.specs.declared.stop.ReportStop.TheVariants as halt;
ghost use Rattle.ocfl_laws.specs.Joined.{AreRuns, IsPartCycle, opened_by};

/// If no failure was counted, the reports of the runs of one cycle of a part, joined, are what the
/// audit has there, whatever processes made them. Each hashed file of the part was opened once, in
/// order. If each budget is at least B and each limit on files at least N, there are at most
/// cost / B + files / N + 1 runs. Cost and files are the part's, and each quotient is rounded down.
#[tactic(auto, using(crate::proofs::JoinLaws::part_reports, crate::proofs::JoinLaws::part_opened))]
pub fn runs_of_a_part_join()
    ensures reports { (further : Further) (root : StorageRoot) (part : Part) (c : Cursor)
        (runs : List PartRun)
        → place_in c.state ≡ None → AreRuns further root part c runs
        → reports_of runs ≡ text (within part (audit further root [])) }
    ensures opened { (further : Further) (root : StorageRoot) (part : Part) (c : Cursor)
        (runs : List PartRun)
        → place_in c.state ≡ None → AreRuns further root part c runs
        → opened_by further root runs
        ≡ hashed_among further root (places_within part (item_places further root)) }
    ensures few { (further : Further) (root : StorageRoot) (part : Part) (c : Cursor)
        (runs : List PartRun)
        → place_in c.state ≡ None → AreRuns further root part c runs → (b n : ℕ) → 1 ≤ b → 1 ≤ n
        → All (IsAtLeast b n) (map (λ r. r.limits) runs)
        → length runs ≤ total_cost (within part (audit further root [])) / b
        + total_files (within part (audit further root [])) / n + 1 }
{}

/// While the root stays unchanged and every call succeeds, the reports of all parts that separators
/// make, joined in order, are exactly the audit of the whole root. Any number of runs, by any
/// processes, may make the report of a part. Each hashed file is opened once, by one of them.
#[tactic(auto, using(crate::proofs::JoinLaws::all_reports, crate::proofs::JoinLaws::all_opened))]
pub fn parts_join_to_the_audit()
    ensures reports { (further : Further) (root : StorageRoot) (separators : List Place)
        (cycles : List PartCycle)
        → IsAscending place_cmp separators
        → map (λ d. d.part) cycles ≡ parts_of separators
        → AllByRecursion (IsPartCycle further root) cycles
        → flat_map (λ d. reports_of d.runs) cycles ≡ text (audit further root []) }
    ensures opened { (further : Further) (root : StorageRoot) (separators : List Place)
        (cycles : List PartCycle)
        → IsAscending place_cmp separators
        → map (λ d. d.part) cycles ≡ parts_of separators
        → AllByRecursion (IsPartCycle further root) cycles
        → flat_map (λ d. opened_by further root d.runs) cycles
        ≡ hashed_among further root (item_places further root) }
{}

/// The same of the parts that separators make, if the cycle of each has ended: the reports, joined
/// in order, are the audit of the whole root, in which just the files are called unreadable that
/// could not be read by the run that took them.
#[tactic(auto, using(ocfl_scrub::proofs::CycleRuns::parts_reports))]
pub fn parts_with_runs_that_stop_join()
    ensures { (further : Further) (root : StorageRoot) (separators : List Place)
        (cycles : List PartCycle)
        → IsAscending place_cmp separators
        → map (λ d. d.part) cycles ≡ parts_of separators
        → AllByRecursion (IsWholeCycle further root) cycles
        → flat_map (λ d. reports_of d.runs) cycles
        ≡ text (audit further root (flat_map (λ d. unread_together further root d.runs) cycles)) }
{}

/// What `run_part` says of a run (`told`) gives it a report: the text that it wrote, except for a
/// beginning of the next item's lines if the output failed.
pub fn each_run_has_a_report()
    ensures { (further : Further) (root : StorageRoot) (s t : Store) (old new : Text) (part : Part)
        (c : Cursor)
        (limits : Limits) (ran : RunEnd)
        → RunsFromWithin (known_call further root s t old new) part c limits ran
        → HasReport further root old new part c limits ran }
{}

/// So has a run that goes on with the walk of the run before it, by what `run_on` says of it.
#[tactic(auto, using(ocfl_scrub::proofs::KeptRuns::goes_on_reported))]
pub fn each_run_that_goes_on_has_a_report()
    ensures { (further : Further) (root : StorageRoot) (s t : Store) (old new : Text) (part : Part)
        (met : Option Place) (c : Cursor) (limits : Limits) (ran : RunEnd)
        → RunsOn (known_call further root s t old new) part met c limits ran
        → HasReport further root old new part c limits ran }
{}

/// What a cursor has taken is not read again in its cycle: each content file that a run opens comes
/// after it, whether the run ends, stops, or is lost with its report.
pub fn what_was_taken_is_not_read_again()
    ensures { (further : Further) (root : StorageRoot) (part : Part) (c : Cursor) (r : PartRun)
        → Ran further root part c r
        → (p : Place) → IsAmong (content_trail further root r.opened) p
        → is_taken (begun c).state p ≡ false }
{}

/// The audit of a part lists each directory once and reads each inventory once, in order, whether
/// it ends or stops.
#[tactic(auto, using(crate::proofs::LooksOnce::part_lists_once, crate::proofs::LooksOnce::part_reads_once))]
pub fn an_audit_of_a_part_looks_once()
    ensures listed { (call : Call) (part : Part) (last : Option Place) (finding : Bool)
        (end : AuditStatus) → AuditEndsWithin call part last finding end → (listed : List Place)
        × ((call.after.listings ≡ call.before.listings ++ listed) × IsAscending place_cmp listed) }
    ensures read { (call : Call) (part : Part) (last : Option Place) (finding : Bool)
        (end : AuditStatus) → AuditEndsWithin call part last finding end → (trail : List Opening)
        × ((call.after.openings ≡ call.before.openings ++ trail)
        × IsAscending place_cmp (heads_of call.root trail)) }
{}

/// So does a run of a part.
#[tactic(auto, using(crate::proofs::LooksOnce::run_lists_once, crate::proofs::LooksOnce::run_reads_once))]
pub fn a_run_of_a_part_looks_once()
    ensures listed { (call : Call) (part : Part) (from last : Option Place) (limits : Limits)
        (spent files : ℕ) (finding : Bool) (end : RunStatus)
        → RunEndsWithin call part from last limits spent files finding end → (listed : List Place)
        × ((call.after.listings ≡ call.before.listings ++ listed) × IsAscending place_cmp listed) }
    ensures read { (call : Call) (part : Part) (from last : Option Place) (limits : Limits)
        (spent files : ℕ) (finding : Bool) (end : RunStatus)
        → RunEndsWithin call part from last limits spent files finding end
        → (trail : List Opening) × ((call.after.openings ≡ call.before.openings ++ trail)
        × IsAscending place_cmp (heads_of call.root trail)) }
{}

/// Each file that an audit, a run or a check opens is right in a directory that the call listed,
/// content files too, and even if the call stopped. Of a sidecar of an inventory of a version,
/// which only the option opens, it is said that it is there or beside such an inventory. Each such
/// directory is in the part or on the way down to where the call began; of a check it is on the way
/// to its place.
pub fn openings_lie_where_it_was_listed()
    ensures audit { (call : Call) (part : Part) (last : Option Place) (finding : Bool)
        (end : AuditStatus) → AuditEndsWithin call part last finding end
        → OpensWithin part None call }
    ensures run { (call : Call) (part : Part) (from last : Option Place) (limits : Limits)
        (spent files : ℕ) (finding : Bool) (end : RunStatus)
        → RunEndsWithin call part from last limits spent files finding end
        → OpensWithin part from call }
    ensures check { (call : Call) (p : Place) (item finding : Bool) (end : AuditStatus)
        → CheckEnds call p item finding end → (listed : List Place)
        × (OpensNear call listed
        × ((d : Place) → IsAmong listed d → (q : Place) × (p ≡ d ++ q))) }
{}

/// Each run of a cycle lists each directory at most once and reads each inventory at most once, in
/// order, and nothing is listed or read between two runs. So a cycle has at least as many runs as
/// listings of the storage root. If a call of the store failed, it was the last listing or the last
/// opening of the last run that is counted, and no other listing of that run failed.
pub fn each_run_of_a_cycle_looks_once()
    ensures listed { (call : Call) (part : Part) (limits : List Limits) (ran : CycleEnd)
        → CycleOfRunsWithin call part limits ran → (looks : List (List Place))
        × ((length looks ≡ ran.runs)
        × ((call.after.listings ≡ call.before.listings ++ flat_map (λ ls. ls) looks)
        × AllByRecursion (IsAscending place_cmp) looks)) }
    ensures read { (call : Call) (part : Part) (limits : List Limits) (ran : CycleEnd)
        → CycleOfRunsWithin call part limits ran → (trails : List (List Opening))
        × ((length trails ≡ ran.runs)
        × ((call.after.openings ≡ call.before.openings ++ flat_map (λ os. os) trails)
        × AllByRecursion (λ os. IsAscending place_cmp (heads_of call.root os)) trails)) }
    ensures root { (call : Call) (part : Part) (limits : List Limits) (ran : CycleEnd)
        → CycleOfRunsWithin call part limits ran → (listed : List Place)
        × ((call.after.listings ≡ call.before.listings ++ listed)
        × (length (filter is_empty listed) ≤ ran.runs)) }
    ensures failed { (call : Call) (part : Part) (limits : List Limits) (ran : CycleEnd)
        → CycleOfRunsWithin call part limits ran → (q : Place)
        → ran.end ≡ cycle.Stopped (halt.Fault (fault.Store q)) → (calls : List Call) × ((k : Call)
        × (IsMadeOf call (calls ++ k ∷ []) × ((length (calls ++ k ∷ []) ≡ ran.runs)
        × ((listed : List Place) × ((trail : List Opening)
        × ((k.after.listings ≡ k.before.listings ++ listed)
        × ((k.after.openings ≡ k.before.openings ++ trail)
        × FailedAt call.further call.root k.before k.after listed trail q))))))) }
{}
