//! The laws of calls that hand the cursor of a part from one to the next as bytes, as the program
//! does from one process to another.
ghost use Rattle.std.specs.Prelude.{◌≡◌, ◌≢◌, ◌≤◌, ◌+◌, ◌++◌, ◌/◌, ℕ, List, [], Option, All, IsSome, flat_map, length, map};
ghost use Rattle.std.specs.List.{AllByRecursion};
ghost use Rattle.ocfl_tree.specs.{Place.{Text}, StorageRoot.{StorageRoot}, Store.{Store}};
ghost use Rattle.ocfl_tree.specs.declared.store.Opening.{Opening};
ghost use Rattle.ocfl_report.specs.{Text.{text}, declared.further.Further.{Further}};
ghost use Rattle.ocfl_rules.specs.{Audit.{audit, total_cost}, Due.{hashed_among, item_places}};
ghost use Rattle.ocfl_rules.specs.{Parts.{places_within, within}, Runs.{IsAtLeast, total_files}};
ghost use Rattle.ocfl_cursor.specs.{Cursor.{Cursor}, declared.ends.PartEnds.{PartEnds}};
ghost use Rattle.ocfl_cursor.specs.declared.limits.Limits.{Limits as MadeLimits};
ghost use Rattle.ocfl_deed.specs.declared.deed.Deed.TheVariants as deeds;
ghost use Rattle.ocfl_scope.specs.Numbered.{AreAllFrom, part_between};
ghost use Rattle.ocfl_scope.specs.declared.scope.Scope.TheVariants as scopes;
ghost use Rattle.ocfl_scrub.specs.Call.{known_call};
ghost use Rattle.ocfl_scrub.specs.declared.performing.Performed.{Performed};
ghost use Rattle.ocfl_laws.specs.Handing.{AreCalls, AreMadeCalls, BeginsCycle, CalledCycle, CalledWell, IsCalledCycle, IsMadeCycle, MadeCall, MadeCycle, MadeFrom, PartCall, SayEnded, bytes_stored, content_opened, limits_given, runs_made, stored_after, stored_last, written_by};
ghost use Rattle.ocfl_scrub.specs.Joining.{left_by, reports_of, unread_together, unstopped};
ghost use Rattle.ocfl_scrub.specs.Scoping.{IsPartFirst, PerformsIn};
ghost use Rattle.ocfl_scrub.specs.declared.note.Note.TheVariants as notes;

/// A call of `perform_part` for a run of a part, by what that says of it (`told`), is one of which
/// the laws below speak, if the bytes of its cursor and of its output are known, and no failure is
/// counted. So is each that hands a cursor back, whatever failed in it. Its report is what it
/// wrote, except for a beginning of the next item's lines if the output failed.
pub fn a_call_is_told()
    ensures well { (further : Further) (root : StorageRoot) (s t : Store) (limits : MadeLimits)
        (e : PartEnds)
        (stored : Option Text) (said : Performed) (old report : Text) (opened : List Opening)
        → PerformsIn (known_call further root s t old (old ++ report)) (deeds.Run further limits)
        (scopes.Part e)
        (bytes_stored stored) said.status said.note said.cursor
        → t.openings ≡ s.openings ++ opened → t.failures ≡ s.failures
        → CalledWell further root e stored
        (record { limits = limits; report = report; opened = opened; said = said }) }
    ensures handed_back { (further : Further) (root : StorageRoot) (s t : Store)
        (limits : MadeLimits) (e : PartEnds)
        (stored : Option Text) (said : Performed) (old new : Text)
        → PerformsIn (known_call further root s t old new) (deeds.Run further limits)
        (scopes.Part e)
        (bytes_stored stored) said.status said.note said.cursor → IsSome said.cursor
        → (c : MadeCall) × ((c.call.limits ≡ limits) × ((c.call.said ≡ said)
        × ((t.openings ≡ s.openings ++ c.call.opened)
        × ((cut : Text) × ((new ≡ old ++ (c.call.report ++ cut))
        × ((said.note ≢ notes.OutputFailed → cut ≡ []) × MadeFrom further root e stored c)))))) }
{}

/// Calls of `perform_part` run one part, in any processes. Each reads as its stored cursor the
/// bytes that the call before handed back. The first reads none, or those of a cursor with which a
/// cycle begins. No failure is counted, and the last call ends the cycle. Then the outputs, joined,
/// are what the audit has in the part. Each hashed file of it was opened once, in order, and the
/// calls are few. With the bytes that the last one handed back, the next cycle begins.
#[tactic(auto, using(crate::proofs::CallsJoined::calls_report, crate::proofs::CallsJoined::calls_open, crate::proofs::CallsJoined::next_cycle))]
pub fn calls_on_a_part_join()
    ensures reports { (further : Further) (root : StorageRoot) (e : PartEnds) (stored : Option Text)
        (calls : List PartCall) → BeginsCycle e stored → AreCalls further root e stored calls
        → written_by calls ≡ text (within (part_between e) (audit further root [])) }
    ensures opened { (further : Further) (root : StorageRoot) (e : PartEnds) (stored : Option Text)
        (calls : List PartCall) → BeginsCycle e stored → AreCalls further root e stored calls
        → content_opened further root calls
        ≡ hashed_among further root (places_within (part_between e) (item_places further root)) }
    ensures few { (further : Further) (root : StorageRoot) (e : PartEnds) (stored : Option Text)
        (calls : List PartCall) → BeginsCycle e stored → AreCalls further root e stored calls
        → (b n : ℕ) → 1 ≤ b → 1 ≤ n → All (IsAtLeast b n) (limits_given calls)
        → length calls ≤ total_cost (within (part_between e) (audit further root [])) / b
        + total_files (within (part_between e) (audit further root [])) / n + 1 }
    ensures next { (further : Further) (root : StorageRoot) (e : PartEnds) (stored : Option Text)
        (calls : List PartCall) → AreCalls further root e stored calls
        → BeginsCycle e (stored_after stored calls) }
{}

/// Bytes are the text of separators, and each part that they make has its cycle of such calls.
/// While the root stays unchanged and every call succeeds, the outputs of all parts, joined in
/// order, are exactly the audit of the whole root. Each hashed file is opened once.
pub fn calls_on_all_parts_join_to_the_audit()
    ensures reports { (further : Further) (root : StorageRoot) (separators : Text)
        (cycles : List CalledCycle)
        → AreAllFrom separators 1 (map (λ d. d.ends) cycles)
        → AllByRecursion (IsCalledCycle further root) cycles
        → flat_map (λ d. written_by d.calls) cycles ≡ text (audit further root []) }
    ensures opened { (further : Further) (root : StorageRoot) (separators : Text)
        (cycles : List CalledCycle)
        → AreAllFrom separators 1 (map (λ d. d.ends) cycles)
        → AllByRecursion (IsCalledCycle further root) cycles
        → flat_map (λ d. content_opened further root d.calls) cycles
        ≡ hashed_among further root (item_places further root) }
{}

/// The same calls, of which any may stop at a call of the store that fails, and may meet content
/// that it cannot read. Each that handed a cursor back as bytes is one of them, and the next one
/// reads these bytes. Their reports, joined, are the audit of the part up to the cursor with which
/// a further call begins. In it just those files are called unreadable that could not be read by
/// the call that took them. If the last call says that no item is left, the reports are all of it,
/// and with the bytes that it handed back the next cycle begins.
///
/// Of the calls that did not stop there are at most cost / B + files / N + 1, whether or not the
/// cycle has ended, if each budget is at least B and each limit on files at least N.
pub fn calls_that_stop_join()
    ensures reports { (further : Further) (root : StorageRoot) (e : PartEnds) (stored : Option Text)
        (calls : List MadeCall) → BeginsCycle e stored → AreMadeCalls further root e stored calls
        → (last : Cursor)
        → IsPartFirst further e (bytes_stored (stored_last stored calls)) last
        → reports_of (runs_made calls) ++ text (left_by last.state
        (within (part_between e) (audit further root (unread_together further root
        (runs_made calls)))))
        ≡ text (within (part_between e) (audit further root (unread_together further root
        (runs_made calls)))) }
    ensures ended { (further : Further) (root : StorageRoot) (e : PartEnds) (stored : Option Text)
        (calls : List MadeCall) → BeginsCycle e stored → AreMadeCalls further root e stored calls
        → SayEnded calls → reports_of (runs_made calls)
        ≡ text (within (part_between e) (audit further root (unread_together further root
        (runs_made calls)))) }
    ensures few { (further : Further) (root : StorageRoot) (e : PartEnds) (stored : Option Text)
        (calls : List MadeCall) → BeginsCycle e stored → AreMadeCalls further root e stored calls
        → (b n : ℕ) → 1 ≤ b → 1 ≤ n
        → All (IsAtLeast b n) (map (λ r. r.limits) (runs_made calls))
        → unstopped (runs_made calls) ≤ total_cost
        (within (part_between e) (audit further root (unread_together further root
        (runs_made calls)))) / b
        + total_files
        (within (part_between e) (audit further root (unread_together further root
        (runs_made calls)))) / n + 1 }
    ensures next { (further : Further) (root : StorageRoot) (e : PartEnds) (stored : Option Text)
        (calls : List MadeCall) → AreMadeCalls further root e stored calls → SayEnded calls
        → BeginsCycle e (stored_last stored calls) }
{}

/// The same of all parts that the text of separators makes, if the cycle of each has ended. The
/// reports, joined in order, are the audit of the whole root, in which just the files are called
/// unreadable that could not be read by the call that took them.
#[tactic(auto, using(crate::proofs::CallsMade::made_parts))]
pub fn parts_with_calls_that_stop_join()
    ensures { (further : Further) (root : StorageRoot) (separators : Text) (cycles : List MadeCycle)
        → AreAllFrom separators 1 (map (λ d. d.ends) cycles)
        → AllByRecursion (IsMadeCycle further root) cycles
        → flat_map (λ d. reports_of (runs_made d.calls)) cycles
        ≡ text (audit further root (flat_map (λ d. unread_together further root
        (runs_made d.calls)) cycles)) }
{}
