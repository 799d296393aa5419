//! What an audit opens and lists, what a run spends, and what a command ends with.
ghost use Rattle.std.specs.Prelude.{◌≡◌, ◌≢◌, ◌↔◌, ◌⊎◌, ◌<◌, ◌≤◌, ◌+◌, ◌++◌, ◌∷◌, ℕ, List, Bool, true, Option, None, Some, Vec, if◌then◌else◌, length, take, All, ◌/◌, []};
ghost use Rattle.std.specs.declared.alloc.Global.{Global};
ghost use Rattle.ocfl_tree.specs.{Place.{Place, place_cmp}, Ascending.{IsAmong, IsAscending}};
ghost use Rattle.ocfl_tree.specs.{StorageRoot.{StorageRoot}, Store.{Store}};
ghost use Rattle.ocfl_tree.specs.declared.store.Opening.{Opening};
ghost use Rattle.ocfl_report.specs.{Line.{Item}, Text.{text}};
ghost use Rattle.ocfl_report.specs.declared.further.Further.{Further};
ghost use Rattle.ocfl_rules.specs.Audit.{audit, total_cost};
ghost use Rattle.ocfl_rules.specs.Parts.{Part};
ghost use Rattle.ocfl_rules.specs.Runs.{IsAtLeast, Limits, joined, runs, total_files};
ghost use Rattle.ocfl_rules.specs.Trail.{content_trail};
ghost use Rattle.ocfl_rules.specs.Between.{looked_between, read_between};
ghost use Rattle.ocfl_rules.specs.Due.{hashed_among, item_places};
ghost use Rattle.ocfl_rules.specs.Inventories.{is_hashed};
ghost use Rattle.ocfl_cursor.specs.Cursor.{Cursor, new_cursor, cursor_lines, cursor_text};
ghost use Rattle.ocfl_cursor.specs.{Moves.{after_run}, Part.{IsPartText, part_lines}};
ghost use Rattle.ocfl_cursor.specs.Refusal.{IsTextOf, refusal};
ghost use Rattle.ocfl_cursor.specs.Stop.{max_part_text};
ghost use Rattle.ocfl_cursor.specs.declared.limits.Limits.{Limits as MadeLimits};
ghost use Rattle.ocfl_cursor.specs.declared.reading.CursorStop.{CursorStop};
ghost use Rattle.ocfl_cursor.specs.declared.ends.PartEnds.{PartEnds};
ghost use Rattle.ocfl_cursor.specs.declared.part_reading.PartCursorStop.{PartCursorStop};
ghost use Rattle.ocfl_cursor.specs.declared.refused.PartRefused.{PartRefused};
ghost use Rattle.ocfl_cursor.specs.declared.showing.ShowStop.{ShowStop};
ghost use Rattle.ocfl_cursor.specs.declared.refused.Refused.{Refused};
ghost use Rattle.ocfl_cursor.specs.declared.refused.PartRefused.TheVariants as part;
ghost use Rattle.ocfl_cursor.specs.declared.refused.Refused.TheVariants as refused;
ghost use Rattle.ocfl_deed.specs.declared.deed.Deed.{Deed};
ghost use Rattle.ocfl_deed.specs.declared.deed.Deed.TheVariants as deed;
ghost use Rattle.ocfl_scrub.specs.{Call.{Call, known_call}, Cycling.{HeadlineOf}};
ghost use Rattle.ocfl_scrub.specs.Noting.{IsAuditNote, IsAuditSaid, IsCheckNote, IsCheckSaid, IsCycleNote, IsCycleSaid, IsOtherNote, IsRunNote, IsRunSaid, IsShowSaid, IsStatus, IsStopSaid, IsUnreadNote, IsUnshownNote};
ghost use Rattle.ocfl_scrub.specs.Performing.{IsKept, IsKeptBy, IsSilent, IsWhole, HandsBack, IsWithoutFile, RefusesRightly, ShowsWith, UnshownSaid};
ghost use Rattle.ocfl_scrub.specs.Scoping.{IsBranchNote, IsBranchSaid, IsPartRunSaid, IsPartUnreadNote};
ghost use Rattle.ocfl_scrub.specs.Running.{IsPaid, RunsWithin, begun, limits_of, state_after, taken_in};
ghost use Rattle.ocfl_scrub.specs.declared.checking.AuditStatus.{AuditStatus};
ghost use Rattle.ocfl_scrub.specs.declared.cycling.CycleStatus.{CycleStatus};
ghost use Rattle.ocfl_scrub.specs.declared.note.Note.{Note};
ghost use Rattle.ocfl_scrub.specs.declared.running.RunStatus.{RunStatus};
ghost use Rattle.ocfl_scrub.specs.declared.cycling.CycleStatus.TheVariants as cycle;
ghost use Rattle.ocfl_scrub.specs.declared.note.Note.TheVariants as note;
ghost use Rattle.ocfl_scrub.specs.declared.running.RunStatus.TheVariants as run;

use ocfl_cursor::{text_determines_the_cursor, text_determines_what_is_shown};

/// The hashed places among the audit's are all that there are, in order, each once.
#[tactic(auto, using(ocfl_scrub::proofs::OrderLaws::hashed_ascend, ocfl_scrub::proofs::OrderLaws::hashed_all))]
pub fn hashed_places_are_those_of_the_audit()
    ensures ascends { (further : Further) (root : StorageRoot)
        → IsAscending place_cmp (hashed_among further root (item_places further root)) }
    ensures all { (further : Further) (root : StorageRoot) (p : Place) → (is_hashed further root p
        ≡ true)
        ↔ IsAmong (hashed_among further root (item_places further root)) p }
{}

/// The directories that are looked into between two places, and the objects whose inventories are
/// read, are in order, each once.
#[tactic(auto, using(ocfl_scrub::proofs::OrderLaws::looked_ascend, ocfl_scrub::proofs::OrderLaws::read_ascend))]
pub fn listed_and_read_ascend()
    ensures listed { (root : StorageRoot) (from to : Option Place)
        → IsAscending place_cmp (looked_between root from to) }
    ensures read { (root : StorageRoot) (from to : Option Place)
        → IsAscending place_cmp (read_between root from to) }
{}

/// What a run spends passes its budget by less than the cost of the last file that it takes.
pub fn overrun_is_less_than_the_last_file()
    ensures { (call : Call) (part : Part) (from to next : Option Place) (limits : Limits)
        (spent files : ℕ) (finding : Bool)
        (run : RunsWithin call part from to limits spent files finding next)
        (front behind : List Item) (last : Item)
        → taken_in call.further call.root run.trail part from limits ≡ front ++ last ∷ behind
        → 0 < last.cost
        → total_cost behind ≡ 0 → spent < limits.budget + last.cost }
{}

/// The status says how a command ended. With 0 and 1 all lines went out, or with 0 there are none.
/// 2 is that of a bad path and of a branch without items. 3 is that of a stop, of a worn cursor and
/// of a cursor's file that failed. 4 is that of bytes that are refused as a cursor, and of the
/// cursor of another audit. No other is given.
#[tactic(auto, using(crate::proofs::NoteLaws::without_finding, crate::proofs::NoteLaws::with_finding, crate::proofs::NoteLaws::of_nothing_there, crate::proofs::NoteLaws::after_failures, crate::proofs::NoteLaws::of_refused_cursors, crate::proofs::NoteLaws::no_other_status))]
pub fn statuses_say_how_a_command_ended()
    ensures without_finding { (n : Note) → IsStatus 0 n ↔ (IsWhole n ⊎ (n ≡ note.NoItem)) }
    ensures with_finding { (n : Note) → IsStatus 1 n ↔ IsWhole n }
    ensures nothing_there { (n : Note) → IsStatus 2 n
        ↔ ((n ≡ note.BadPath) ⊎ (n ≡ note.EmptyBranch)) }
    ensures failed { (n : Note) → IsStatus 3 n
        ↔ (IsStopSaid n ⊎ ((n ≡ note.CursorWorn) ⊎ (n ≡ note.CursorFileFailed))) }
    ensures refused { (n : Note) → IsStatus 4 n
        ↔ (((why : Refused) × ((n ≡ note.CursorRefused why) × (why ≢ refused.Memory)))
        ⊎ (((why : PartRefused) × ((n ≡ note.PartCursorRefused why)
        × (why ≢ part.Text refused.Memory)))
        ⊎ ((other : Further) × (n ≡ note.OtherAudit other)))) }
    ensures no_other { (status : ℕ) (n : Note) → IsStatus status n → status ≤ 4 }
{}

/// If the path is bad, the status is 4, the cursor is worn or its file failed, no call is made and
/// nothing is written. Of no other text is that said.
#[tactic(auto, using(crate::proofs::NoteLaws::nothing_done))]
pub fn refusals_come_before_the_first_call()
    ensures { (status : ℕ) (n : Note) → IsStatus status n → IsSilent n ↔ ((n ≡ note.BadPath)
        ⊎ ((status ≡ 4) ⊎ ((n ≡ note.CursorWorn) ⊎ (n ≡ note.CursorFileFailed)))) }
{}

/// A run hands a cursor back with its summary and after each stop, and none if no run was made.
/// After memory ran out it hands one back or none. No other command hands one back.
#[tactic(auto, using(crate::proofs::NoteLaws::cursor_kept, crate::proofs::NoteLaws::no_cursor_kept, crate::proofs::NoteLaws::of_a_run_alone))]
pub fn a_run_that_was_made_hands_its_cursor_back()
    ensures kept { (n : Note) (stored : Vec ℕ Global) → IsRunSaid n ⊎ IsPartRunSaid n
        → IsKept n (Some stored) ↔ (IsWhole n ⊎ IsStopSaid n) }
    ensures unkept { (n : Note) → IsRunSaid n ⊎ IsPartRunSaid n
        → IsKept n None ↔ (IsSilent n ⊎ (n ≡ note.OutOfMemory)) }
    ensures of_a_run { (d : Deed) (n : Note) (stored : Vec ℕ Global)
        → IsKeptBy d n (Some stored) → (further : Further) × ((limits : MadeLimits)
        × (d ≡ deed.Run further limits)) }
{}

/// How a call ended determines its status and what is said of it.
#[tactic(auto, using(crate::proofs::NoteLaws::check_says_one, crate::proofs::NoteLaws::audit_says_one, crate::proofs::NoteLaws::run_says_one, crate::proofs::NoteLaws::cycle_says_one, crate::proofs::NoteLaws::unread_says_one, crate::proofs::NoteLaws::unshown_says_one, crate::proofs::NoteLaws::branch_says_one, crate::proofs::NoteLaws::part_unread_says_one, crate::proofs::NoteLaws::other_says_one))]
pub fn each_end_has_one_status_and_text()
    ensures check { (a b : ℕ) (m n : Note) (item finding : Bool) (end : AuditStatus)
        → IsCheckNote item finding end a m → IsCheckNote item finding end b n
        → (a ≡ b) × (m ≡ n) }
    ensures audit { (a b : ℕ) (m n : Note) (finding : Bool) (end : AuditStatus)
        → IsAuditNote finding end a m → IsAuditNote finding end b n → (a ≡ b) × (m ≡ n) }
    ensures run { (a b : ℕ) (m n : Note) (c : Cursor) (spent : ℕ) (finding : Bool)
        (end : RunStatus) → IsRunNote c spent finding end a m → IsRunNote c spent finding end b n
        → (a ≡ b) × (m ≡ n) }
    ensures cycle { (a b : ℕ) (m n : Note) (runs spent : ℕ) (finding : Bool) (end : CycleStatus)
        → IsCycleNote runs spent finding end a m → IsCycleNote runs spent finding end b n
        → (a ≡ b) × (m ≡ n) }
    ensures unread { (a b : ℕ) (m n : Note) (why : CursorStop) → IsUnreadNote why a m
        → IsUnreadNote why b n → (a ≡ b) × (m ≡ n) }
    ensures unshown { (a b : ℕ) (m n : Note) (why : ShowStop) → IsUnshownNote why a m
        → IsUnshownNote why b n → (a ≡ b) × (m ≡ n) }
    ensures branch { (a b : ℕ) (m n : Note) (finding : Bool) (end : AuditStatus)
        (last : Option Place) → IsBranchNote finding end last a m
        → IsBranchNote finding end last b n
        → (a ≡ b) × (m ≡ n) }
    ensures part_unread { (a b : ℕ) (m n : Note) (why : PartCursorStop)
        → IsPartUnreadNote why a m → IsPartUnreadNote why b n → (a ≡ b) × (m ≡ n) }
    ensures other { (a b : ℕ) (m n : Note) (further : Further) → IsOtherNote further a m
        → IsOtherNote further b n → (a ≡ b) × (m ≡ n) }
{}

/// Each status and text of a command is that of one of the ways in which it can end.
#[tactic(auto, using(crate::proofs::NoteLaws::audit_said, crate::proofs::NoteLaws::check_said, crate::proofs::NoteLaws::run_said, crate::proofs::NoteLaws::cycle_said, crate::proofs::NoteLaws::show_said, crate::proofs::NoteLaws::branch_said, crate::proofs::NoteLaws::part_run_said))]
pub fn each_command_speaks_of_its_own_ends()
    ensures audit { (status : ℕ) (n : Note) → IsStatus status n → IsAuditSaid n
        → (finding : Bool) × ((end : AuditStatus) × IsAuditNote finding end status n) }
    ensures check { (status : ℕ) (n : Note) → IsStatus status n → IsCheckSaid n
        → (n ≡ note.BadPath) ⊎ ((item : Bool) × ((finding : Bool)
        × ((end : AuditStatus) × IsCheckNote item finding end status n))) }
    ensures run { (status : ℕ) (n : Note) → IsStatus status n → IsRunSaid n
        → ((c : Cursor) × ((spent : ℕ) × ((finding : Bool)
        × ((end : RunStatus) × IsRunNote c spent finding end status n))))
        ⊎ (((why : CursorStop) × IsUnreadNote why status n)
        ⊎ ((further : Further) × IsOtherNote further status n)) }
    ensures cycle { (status : ℕ) (n : Note) → IsStatus status n → IsCycleSaid n
        → (runs : ℕ) × ((spent : ℕ) × ((finding : Bool)
        × ((end : CycleStatus) × IsCycleNote runs spent finding end status n))) }
    ensures show { (status : ℕ) (n : Note) → IsStatus status n → IsShowSaid n
        → (n ≡ note.Nothing) ⊎ ((n ≡ note.OutputFailed)
        ⊎ ((why : ShowStop) × IsUnshownNote why status n)) }
    ensures branch { (status : ℕ) (n : Note) → IsStatus status n → IsBranchSaid n
        → (finding : Bool) × ((end : AuditStatus)
        × ((last : Option Place) × IsBranchNote finding end last status n)) }
    ensures part_run { (status : ℕ) (n : Note) → IsStatus status n → IsPartRunSaid n
        → ((c : Cursor) × ((spent : ℕ) × ((finding : Bool)
        × ((end : RunStatus) × IsRunNote c spent finding end status n))))
        ⊎ (((why : PartCursorStop) × IsPartUnreadNote why status n)
        ⊎ ((further : Further) × IsOtherNote further status n)) }
{}

/// Bytes are refused as a cursor only if they are the text of no cursor, for the first reason that
/// applies to them. Without a reader nothing is refused.
#[tactic(auto, using(crate::proofs::FileLaws::refused_for))]
pub fn only_other_bytes_are_refused()
    ensures refused { (d : Deed) (bytes : List ℕ) (why : Refused) → why ≢ refused.Memory
        → RefusesRightly d (Some (Some bytes)) (note.CursorRefused why)
        ↔ (((c : Cursor) → IsTextOf bytes c → ⊥) × (why ≡ refusal bytes)) }
    ensures without_reader { (d : Deed) (why : Refused)
        → RefusesRightly d None (note.CursorRefused why) → ⊥ }
{}

/// If a cursor is to be shown, the bytes of a part's cursor are refused neither as the cursor of a
/// whole root nor as that of a part, except for want of memory.
pub fn a_parts_cursor_is_shown()
    ensures whole { (e : PartEnds) (bytes : List ℕ) (c : Cursor) (why : Refused)
        → IsPartText e bytes c → length bytes ≤ max_part_text → why ≢ refused.Memory
        → UnshownSaid deed.Show (Some (Some bytes)) (note.CursorRefused why) → ⊥ }
    ensures part { (d : Deed) (e : PartEnds) (bytes : List ℕ) (c : Cursor) (why : PartRefused)
        → IsPartText e bytes c → why ≢ part.Text refused.Memory
        → RefusesRightly d (Some (Some bytes)) (note.PartCursorRefused why) → ⊥ }
{}

/// Without a reader there is no cursor to show, which is said, and a run needs none.
#[tactic(auto, using(crate::proofs::FileLaws::none_shown, crate::proofs::FileLaws::none_needed))]
pub fn only_showing_needs_a_stored_cursor()
    ensures show { (n : Note) → IsWithoutFile None deed.Show n ↔ (n ≡ note.CursorFileFailed) }
    ensures run { (further : Further) (limits : MadeLimits) (n : Note)
        → IsWithoutFile None (deed.Run further limits) n ↔ (n ≢ note.CursorFileFailed) }
{}

/// Of bytes that are the text of a cursor, the lines of that cursor are shown: whole, or a proper
/// beginning of them if the output failed. Of a part's cursor the lines of its ends come first.
/// With a refusal nothing is shown.
pub fn a_cursor_is_shown_as_its_lines()
    ensures whole { (bytes before after : List ℕ) (c : Cursor) → IsTextOf bytes c
        → ShowsWith (Some (Some bytes)) note.Nothing (Some before) (Some after)
        ↔ (after ≡ before ++ cursor_lines c) }
    ensures part { (bytes before after : List ℕ) (c : Cursor) → IsTextOf bytes c
        → ShowsWith (Some (Some bytes)) note.OutputFailed (Some before) (Some after)
        ↔ ((gone : ℕ) × ((gone < length (cursor_lines c))
        × (after ≡ before ++ take gone (cursor_lines c)))) }
    ensures whole_of_part { (bytes before after : List ℕ) (e : PartEnds) (c : Cursor)
        → IsPartText e bytes c → length bytes ≤ max_part_text
        → ShowsWith (Some (Some bytes)) note.Nothing (Some before) (Some after)
        ↔ (after ≡ before ++ part_lines e c) }
    ensures part_of_part { (bytes before after : List ℕ) (e : PartEnds) (c : Cursor)
        → IsPartText e bytes c → length bytes ≤ max_part_text
        → ShowsWith (Some (Some bytes)) note.OutputFailed (Some before) (Some after)
        ↔ ((gone : ℕ) × ((gone < length (part_lines e c))
        × (after ≡ before ++ take gone (part_lines e c)))) }
    ensures refused { (known : Option (Option (List ℕ))) (old new : Option (List ℕ))
        (why : Refused) → ShowsWith known (note.CursorRefused why) old new → new ≡ old }
    ensures part_refused { (known : Option (Option (List ℕ))) (old new : Option (List ℕ))
        (why : PartRefused) → ShowsWith known (note.PartCursorRefused why) old new → new ≡ old }
    ensures unread { (known : Option (Option (List ℕ))) (old new : Option (List ℕ))
        → ShowsWith known note.CursorFileFailed old new → new ≡ old }
{
    text_determines_what_is_shown();
}

/// The text that a run hands back with its summary is that of the cursor to which the run led: from
/// the stored one, or from a new one without a reader. The summary has that cursor's cycle and
/// runs, and what the run itself has spent. The stored one is of an audit that checks what the run
/// is asked to, and a new one is so too.
pub fn a_run_goes_on_from_the_stored_cursor()
    ensures stored { (further : Further) (bytes : List ℕ) (c : Cursor) (limits : MadeLimits)
        (status cycle runs cost : ℕ) (whole : Bool) (stored : Vec ℕ Global) → IsTextOf bytes c
        → HandsBack (Some (Some bytes)) (deed.Run further limits) status
        (note.RunMade cycle runs cost whole) (Some stored)
        → (files : ℕ) × ((last : Option Place) × (IsPaid (limits_of limits) cost files
        × ((cycle ≡ (begun c).cycle) × ((runs ≡ (begun c).runs + 1)
        × (stored.items ≡ cursor_text (after_run (begun c) cost files
        (state_after (if whole then run.Ended else run.Spent) last))))))) }
    ensures audit { (further : Further) (bytes : List ℕ) (c : Cursor) (limits : MadeLimits)
        (status : ℕ) (n : Note) (stored : Vec ℕ Global) → IsTextOf bytes c
        → HandsBack (Some (Some bytes)) (deed.Run further limits) status n (Some stored)
        → c.further ≡ further }
    ensures first { (further : Further) (limits : MadeLimits) (status cycle runs cost : ℕ)
        (whole : Bool) (stored : Vec ℕ Global) → HandsBack None (deed.Run further limits) status
        (note.RunMade cycle runs cost whole) (Some stored)
        → (files : ℕ) × ((last : Option Place) × (IsPaid (limits_of limits) cost files
        × ((cycle ≡ 1) × ((runs ≡ 1)
        × (stored.items ≡ cursor_text (after_run (new_cursor further) cost files
        (state_after (if whole then run.Ended else run.Spent) last))))))) }
{
    text_determines_the_cursor();
}

/// The headline in other words. If a cycle without failures has ended, its reports, joined, are the
/// whole audit, and each hashed file was opened once, in order. As many runs as the cost by the
/// budget and the files by their limit, each rounded down, and one more, are enough, and no more
/// are made.
#[tactic(auto, using(crate::proofs::HeadlineLaws::whole_audit, crate::proofs::HeadlineLaws::part_of_it, crate::proofs::HeadlineLaws::each_file, crate::proofs::HeadlineLaws::few_runs, crate::proofs::HeadlineLaws::enough_runs))]
pub fn a_cycle_without_failures_is_the_audit()
    ensures whole { (further : Further) (root : StorageRoot) (s t : Store) (limits : List Limits)
        (count : ℕ)
        (before after : List ℕ)
        → HeadlineOf (known_call further root s t before after) limits count cycle.Ended
        → after ≡ before ++ text (audit further root []) }
    ensures part { (further : Further) (root : StorageRoot) (s t : Store) (limits : List Limits)
        (count : ℕ)
        (before after : List ℕ)
        → HeadlineOf (known_call further root s t before after) limits count cycle.Spent
        → after ≡ before ++ text (joined (runs (audit further root []) limits)) }
    ensures opened { (call : Call) (limits : List Limits) (count : ℕ)
        → HeadlineOf call limits count cycle.Ended → (trail : List Opening)
        × ((call.after.openings ≡ call.before.openings ++ trail)
        × (content_trail call.further call.root trail
        ≡ hashed_among call.further call.root (item_places call.further call.root))) }
    ensures few { (call : Call) (limits : List Limits) (count : ℕ) (b n : ℕ)
        → HeadlineOf call limits count cycle.Ended → 1 ≤ b → 1 ≤ n → All (IsAtLeast b n) limits
        → total_cost (audit call.further call.root []) / b + total_files
        (audit call.further call.root []) / n + 1
        ≤ length limits
        → count ≤ total_cost (audit call.further call.root []) / b
        + total_files (audit call.further call.root []) / n + 1 }
    ensures enough { (call : Call) (limits : List Limits) (count : ℕ) (b n : ℕ)
        → HeadlineOf call limits count cycle.Spent → 1 ≤ b → 1 ≤ n → All (IsAtLeast b n) limits
        → total_cost (audit call.further call.root []) / b + total_files
        (audit call.further call.root []) / n + 1
        ≤ length limits → ⊥ }
{}
