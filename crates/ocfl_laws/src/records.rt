//! What the records of a check, an audit, a run and a cycle say, in other words: of the bytes that
//! a writer got, and of what a store tells of the calls that were made. Last, on any store.
ghost use Rattle.std.specs.Prelude.{◌≡◌, ◌≢◌, ◌≤◌, ◌<◌, ◌+◌, ◌-◌, ◌/◌, ◌++◌, ◌∷◌, [], ℕ, List, Bool, true, false, not, Option, None, Some, Vec, String, string_bytes, replicate, length, take, map, All, AllPairs, ◌⊎◌, ◌↔◌, ◌^◌, IsSome};
ghost use Rattle.std.specs.declared.alloc.Global.{Global};
ghost use Rattle.ocfl_tree.specs.{Place.{Place, Text, place_cmp}, Name.{IsPlace}};
ghost use Rattle.ocfl_tree.specs.{Ascending.{IsAscending}, StorageRoot.{StorageRoot}};
ghost use Rattle.ocfl_tree.specs.{Store.{Store}, declared.store.Opening.{Opening}};
ghost use Rattle.ocfl_report.specs.{Line.{Item, found}, Text.{place_text, text}, declared.further.Further.{Further}};
ghost use Rattle.ocfl_rules.specs.{Lines.{is_empty}, Audit.{audit, after, total_cost}};
ghost use Rattle.ocfl_rules.specs.Due.{hashed_among, item_places};
ghost use Rattle.ocfl_rules.specs.Trail.{content_trail, heads_of, inventories, unread_of};
ghost use Rattle.ocfl_rules.specs.{Walk.{item_at}, Between.{looked_between, read_between}};
ghost use Rattle.ocfl_rules.specs.Parts.{Part, whole};
ghost use Rattle.ocfl_rules.specs.Runs.{Limits, cut, left, runs, joined, total_files, IsAtLeast, FilesFit, sum_of};
ghost use Rattle.ocfl_item.specs.Looking.{failures_at, way_to};
ghost use Rattle.ocfl_walk.specs.WalkCalls.{holder, way_of};
ghost use Rattle.ocfl_cursor.specs.Cursor.{Cursor, start, behind, ended, cursor_text, new_cursor};
ghost use Rattle.ocfl_cursor.specs.Moves.{after_run};
ghost use Rattle.ocfl_cursor.specs.declared.limits.Limits.{Limits as MadeLimits};
ghost use Rattle.ocfl_deed.specs.declared.deed.Deed.{Deed};
ghost use Rattle.ocfl_deed.specs.declared.deed.Deed.TheVariants as deed;
ghost use Rattle.ocfl_scrub.specs.Call.{Call, IsUnfailing, known_call};
ghost use Rattle.ocfl_scrub.specs.Running.{place_in, limits_of, ArePaid, IsWorn, RunsOnAnyStore, begun, state_after};
ghost use Rattle.ocfl_scrub.specs.Chaining.{CycleOfRunsWithin};
ghost use Rattle.ocfl_scrub.specs.Cycling.{CyclesOnAnyStore, HeadlineOf};
ghost use Rattle.ocfl_scrub.specs.Together.{CyclesToWithin};
ghost use Rattle.ocfl_scrub.specs.Checking.{Checks, CheckStops, CheckEnds};
ghost use Rattle.ocfl_scrub.specs.WholeAudit.{AuditEnds, AuditsOnAnyStore};
ghost use Rattle.ocfl_scrub.specs.Noting.{status_of, IsAuditNote, IsCheckNote, IsCycleNote, EndsUnread, IsRunNote, IsStatus, IsUnreadSaid, ReportsOnAnyStore, WritesWhole, WritesWithStatus};
ghost use Rattle.ocfl_scrub.specs.Performing.{AnswersOnAnyStore, BeginsWith, HasBadPath, IsKeptBy, IsSilent, IsWithoutFile, Performs, RefusesPath, UnshownSaid, WritesBy};
ghost use Rattle.ocfl_scrub.specs.Taking.{WritesLines, stop_place};
ghost use Rattle.ocfl_scrub.specs.declared.auditing.AuditEnd.{AuditEnd};
ghost use Rattle.ocfl_scrub.specs.declared.checking.CheckEnd.{CheckEnd};
ghost use Rattle.ocfl_scrub.specs.declared.cycling.CycleEnd.{CycleEnd};
ghost use Rattle.ocfl_scrub.specs.declared.cycling.CycleStatus.{CycleStatus};
ghost use Rattle.ocfl_scrub.specs.declared.note.Note.{Note};
ghost use Rattle.ocfl_scrub.specs.declared.performing.Performed.{Performed};
ghost use Rattle.ocfl_scrub.specs.declared.stop.ReportStop.{ReportStop};
ghost use Rattle.ocfl_scrub.specs.declared.running.RunEnd.{RunEnd};
ghost use Rattle.ocfl_scrub.specs.declared.checking.AuditStatus.TheVariants as end;
ghost use Rattle.ocfl_scrub.specs.declared.running.RunStatus.TheVariants as run;
ghost use Rattle.ocfl_scrub.specs.declared.cycling.CycleStatus.TheVariants as cycle;
ghost use Rattle.ocfl_scrub.specs.declared.note.Note.TheVariants as note;
ghost use Rattle.ocfl_scrub.specs.declared.stop.ReportStop.TheVariants as halt;
ghost use Rattle.ocfl_laws.specs.Whole.{Runs, RunStops, RunEnds, RunsFrom, RunsCleanly, Cycles, CycleStops, CycleEnds, CyclesTo, AuditsAll, AuditStops};

/// A check that ended wrote the lines of its place, in which the openings show what failed. It
/// opened that place's file if it is hashed, no other content, and no file twice. It listed the
/// first directories on the way there, and read at most the inventory of the object that holds the
/// place.
pub fn a_check_looks_at_its_place_alone()
    ensures lines { (further : Further) (root : StorageRoot) (s t : Store) (before written : List ℕ)
        (p : Place)
        (item finding : Bool) → Checks (known_call further root s t before written) p item finding
        → (trail : List Opening) × ((t.openings ≡ s.openings ++ trail)
        × ((t.failures ≡ s.failures + length (unread_of further root trail))
        × ((written ≡ before ++ text (item_at further root (unread_of further root trail) p))
        × ((item ≡ not (is_empty (item_at further root (unread_of further root trail) p)))
        × (finding ≡ found (item_at further root (unread_of further root trail) p)))))) }
    ensures opened { (call : Call) (p : Place) (item finding : Bool) → Checks call p item finding
        → (trail : List Opening) × ((call.after.openings ≡ call.before.openings ++ trail)
        × ((content_trail call.further call.root trail ≡ hashed_among call.further call.root
        (p ∷ []))
        × (AllPairs (λ a b. a.place ≢ b.place) trail))) }
    ensures listed { (call : Call) (p : Place) (item finding : Bool) → Checks call p item finding
        → (listed : List Place) × ((rest : List Place)
        × ((call.after.listings ≡ call.before.listings ++ listed) × (way_to p ≡ listed ++ rest))) }
    ensures read { (call : Call) (p : Place) (item finding : Bool)
        → Checks call p item finding → (trail : List Opening)
        × ((rest : List Place) × ((call.after.openings ≡ call.before.openings ++ trail)
        × (holder call.root (Some p) ≡ heads_of call.root trail ++ rest))) }
{}

/// A check that stopped wrote a proper beginning of its lines, and nothing unless the output
/// failed. It opened, listed and read no more than one that ends.
pub fn a_check_that_stops_wrote_a_beginning()
    ensures lines { (further : Further) (root : StorageRoot) (s t : Store) (before written : List ℕ)
        (p : Place)
        (why : ReportStop) → CheckStops (known_call further root s t before written) p why
        → (trail : List Opening) × ((gone : ℕ) × ((t.openings ≡ s.openings ++ trail)
        × ((written ≡ before ++ take gone (text (item_at further root
        (unread_of further root trail) p)))
        × ((why ≡ halt.Output
        → gone < length (text (item_at further root (unread_of further root trail) p)))
        × (why ≢ halt.Output → gone ≡ 0))))) }
    ensures opened { (call : Call) (p : Place) (why : ReportStop) → CheckStops call p why
        → (trail : List Opening) × ((begun : List Place) × ((rest : List Place)
        × ((call.after.openings ≡ call.before.openings ++ trail) × ((p ∷ [] ≡ begun ++ rest)
        × ((content_trail call.further call.root trail ≡ hashed_among call.further call.root begun)
        × (AllPairs (λ a b. a.place ≢ b.place) trail)))))) }
    ensures listed { (call : Call) (p : Place) (why : ReportStop) → CheckStops call p why
        → (listed : List Place) × ((rest : List Place)
        × ((call.after.listings ≡ call.before.listings ++ listed) × (way_to p ≡ listed ++ rest))) }
    ensures read { (call : Call) (p : Place) (why : ReportStop) → CheckStops call p why
        → (trail : List Opening) × ((rest : List Place)
        × ((call.after.openings ≡ call.before.openings ++ trail) × ((call.after.failures
        ≡ call.before.failures
        + (length (unread_of call.further call.root trail) + failures_at (stop_place why)))
        × (holder call.root (Some p) ≡ heads_of call.root trail ++ rest)))) }
{}

/// An audit that ended wrote the text of the whole audit, in which the openings show what failed.
/// It opened each hashed file once, in order, listed each directory into which an audit looks, and
/// read each inventory.
pub fn an_audit_reads_each_file_once()
    ensures lines { (further : Further) (root : StorageRoot) (s t : Store) (before written : List ℕ)
        (last : Option Place) (finding : Bool)
        → AuditsAll (known_call further root s t before written) last finding
        → (trail : List Opening)
        × ((t.openings ≡ s.openings ++ trail)
        × ((t.failures ≡ s.failures + length (unread_of further root trail))
        × ((written ≡ before ++ text (audit further root (unread_of further root trail)))
        × (finding ≡ found (audit further root (unread_of further root trail)))))) }
    ensures opened { (call : Call) (last : Option Place) (finding : Bool)
        → AuditsAll call last finding
        → (trail : List Opening) × ((call.after.openings ≡ call.before.openings ++ trail)
        × ((content_trail call.further call.root trail
        ≡ hashed_among call.further call.root (item_places call.further call.root))
        × (heads_of call.root trail ≡ read_between call.root None None))) }
    ensures listed { (call : Call) (last : Option Place) (finding : Bool)
        → AuditsAll call last finding
        → call.after.listings ≡ call.before.listings ++ looked_between call.root None None }
    ensures last { (call : Call) (last : Option Place) (finding : Bool) (front : List Place)
        (p : Place) → AuditsAll call last finding → item_places call.further call.root
        ≡ front ++ p ∷ []
        → last ≡ Some p }
{}

/// An audit that stopped wrote its first items whole, and of the next a proper beginning, which is
/// empty unless the output failed. It opened the hashed files of these, and listed and read first
/// what an audit lists and reads.
pub fn an_audit_that_stops_wrote_its_first_items()
    ensures lines { (further : Further) (root : StorageRoot) (s t : Store) (before written : List ℕ)
        (last : Option Place) (finding : Bool) (why : ReportStop)
        → AuditStops (known_call further root s t before written) last finding why
        → (trail : List Opening)
        × ((whole : List Item) × ((others : List Item)
        × ((gone : ℕ) × ((t.openings ≡ s.openings ++ trail)
        × ((audit further root (unread_of further root trail)
        ≡ whole ++ others) × ((written ≡ before ++ (text whole ++ take gone (text (take 1 others))))
        × ((why ≡ halt.Output → gone < length (text (take 1 others))) × ((why ≢ halt.Output
        → gone ≡ 0) × (finding ≡ found whole))))))))) }
    ensures opened { (call : Call) (last : Option Place) (finding : Bool)
        (why : ReportStop) → AuditStops call last finding why → (trail : List Opening)
        × ((whole : List Item) × ((others : List Item) × ((begun : List Place)
        × ((rest : List Place) × ((call.after.openings ≡ call.before.openings ++ trail)
        × ((audit call.further call.root (unread_of call.further call.root trail) ≡ whole ++ others)
        × ((map (λ i. i.place) (take 1 others) ≡ begun ++ rest)
        × (content_trail call.further call.root trail
        ≡ hashed_among call.further call.root (map (λ i. i.place) whole ++ begun))))))))) }
    ensures listed { (call : Call) (last : Option Place) (finding : Bool)
        (why : ReportStop) → AuditStops call last finding why → (listed : List Place)
        × ((rest : List Place) × ((call.after.listings ≡ call.before.listings ++ listed)
        × (looked_between call.root None None ≡ listed ++ rest))) }
    ensures read { (call : Call) (last : Option Place) (finding : Bool) (why : ReportStop)
        → AuditStops call last finding why → (trail : List Opening) × ((rest : List Place)
        × ((call.after.openings ≡ call.before.openings ++ trail) × ((call.after.failures
        ≡ call.before.failures
        + (length (unread_of call.further call.root trail) + failures_at (stop_place why)))
        × (read_between call.root None None ≡ heads_of call.root trail ++ rest)))) }
{}

/// A run that did not stop wrote the cut that its limits allow of the items above its cursor's
/// place, and counted that. It opened each hashed file of the cut once, in order. It listed no
/// directory twice and read no inventory twice, and nothing after the first item that it left.
pub fn a_run_takes_the_cut_of_its_limits()
    ensures lines { (further : Further) (root : StorageRoot) (s t : Store) (before written : List ℕ)
        (from last next : Option Place) (limits : Limits) (spent files : ℕ) (finding : Bool)
        → Runs (known_call further root s t before written) from last limits spent files finding
        next
        → (trail : List Opening) × ((t.openings ≡ s.openings ++ trail)
        × ((t.failures ≡ s.failures + length (unread_of further root trail))
        × ((written ≡ before
        ++ text (cut (after (audit further root (unread_of further root trail)) from) limits))
        × ((spent ≡ total_cost (cut (after (audit further root
        (unread_of further root trail)) from) limits))
        × ((files ≡ total_files (cut (after (audit further root
        (unread_of further root trail)) from) limits))
        × (finding ≡ found (cut (after (audit further root
        (unread_of further root trail)) from) limits))))))) }
    ensures opened { (call : Call) (from last next : Option Place) (limits : Limits)
        (spent files : ℕ) (finding : Bool) → Runs call from last limits spent files finding next
        → (trail : List Opening) × ((call.after.openings ≡ call.before.openings ++ trail)
        × (content_trail call.further call.root trail
        ≡ hashed_among call.further call.root (map (λ i. i.place) (cut (after
        (audit call.further call.root (unread_of call.further call.root trail)) from) limits)))) }
    ensures listed { (call : Call) (from last next : Option Place) (limits : Limits)
        (spent files : ℕ) (finding : Bool) → Runs call from last limits spent files finding next
        → (down : List Place) × ((rest : List Place) × ((call.after.listings ≡ call.before.listings
        ++ (down ++ looked_between call.root from next)) × ((way_of from ≡ down ++ rest)
        × (IsAscending place_cmp (down ++ looked_between call.root from next))))) }
    ensures read { (call : Call) (from last next : Option Place) (limits : Limits)
        (spent files : ℕ) (finding : Bool) → Runs call from last limits spent files finding next
        → (trail : List Opening) × ((held : List Place) × ((rest : List Place)
        × ((call.after.openings ≡ call.before.openings ++ trail) × ((heads_of call.root trail
        ≡ held ++ read_between call.root from next) × ((holder call.root from ≡ held ++ rest)
        × (IsAscending place_cmp (held ++ read_between call.root from next))))))) }
    ensures next { (call : Call) (from last next : Option Place) (limits : Limits)
        (spent files : ℕ) (finding : Bool) → Runs call from last limits spent files finding next
        → (trail : List Opening) × ((call.after.openings ≡ call.before.openings ++ trail)
        × ((left (after (audit call.further call.root
        (unread_of call.further call.root trail)) from) limits ≡ []
        → next ≡ None) × ((i : Item) (items : List Item)
        → left (after (audit call.further call.root
        (unread_of call.further call.root trail)) from) limits
        ≡ i ∷ items
        → next ≡ Some i.place))) }
    ensures last { (call : Call) (from last next : Option Place) (limits : Limits)
        (spent files : ℕ) (finding : Bool) → Runs call from last limits spent files finding next
        → (trail : List Opening) × ((call.after.openings ≡ call.before.openings ++ trail)
        × ((cut (after (audit call.further call.root
        (unread_of call.further call.root trail)) from) limits ≡ []
        → last ≡ from) × ((front : List Item) (i : Item)
        → cut (after (audit call.further call.root
        (unread_of call.further call.root trail)) from) limits
        ≡ front ++ i ∷ []
        → last ≡ Some i.place))) }
{}

/// A run that stopped wrote the first items of its cut whole and counted these, and wrote of the
/// next a proper beginning, which is empty unless the output failed. It opened the hashed files of
/// these. It listed no directory twice and read no inventory twice.
pub fn a_run_that_stops_took_the_first_of_its_cut()
    ensures lines { (further : Further) (root : StorageRoot) (s t : Store) (before written : List ℕ)
        (from last : Option Place) (limits : Limits) (spent files : ℕ) (finding : Bool)
        (why : ReportStop)
        → RunStops (known_call further root s t before written) from last limits spent files
        finding why
        → (trail : List Opening) × ((whole : List Item)
        × ((others : List Item) × ((gone : ℕ) × ((t.openings ≡ s.openings ++ trail)
        × ((cut (after (audit further root (unread_of further root trail)) from) limits
        ≡ whole ++ others)
        × ((written ≡ before ++ (text whole ++ take gone (text (take 1 others))))
        × ((why ≡ halt.Output → gone < length (text (take 1 others))) × ((why ≢ halt.Output
        → gone ≡ 0) × ((spent ≡ total_cost whole) × ((files ≡ total_files whole)
        × (finding ≡ found whole))))))))))) }
    ensures opened { (call : Call) (from last : Option Place) (limits : Limits) (spent files : ℕ)
        (finding : Bool) (why : ReportStop)
        → RunStops call from last limits spent files finding why → (trail : List Opening)
        × ((whole : List Item) × ((others : List Item) × ((begun : List Place)
        × ((rest : List Place) × ((call.after.openings ≡ call.before.openings ++ trail)
        × ((cut (after (audit call.further call.root
        (unread_of call.further call.root trail)) from) limits
        ≡ whole ++ others)
        × ((map (λ i. i.place) (take 1 others) ≡ begun ++ rest)
        × (content_trail call.further call.root trail
        ≡ hashed_among call.further call.root (map (λ i. i.place) whole ++ begun))))))))) }
    ensures listed { (call : Call) (from last : Option Place) (limits : Limits) (spent files : ℕ)
        (finding : Bool) (why : ReportStop) → RunStops call from last limits spent files finding why
        → (down : List Place) × ((below : List Place) × ((listed : List Place)
        × ((rest : List Place) × ((call.after.listings ≡ call.before.listings ++ (down ++ listed))
        × ((way_of from ≡ down ++ below) × ((looked_between call.root from None ≡ listed ++ rest)
        × (IsAscending place_cmp (down ++ listed)))))))) }
    ensures read { (call : Call) (from last : Option Place) (limits : Limits) (spent files : ℕ)
        (finding : Bool) (why : ReportStop) → RunStops call from last limits spent files finding why
        → (trail : List Opening) × ((held : List Place)
        × ((below : List Place) × ((heads : List Place) × ((rest : List Place)
        × ((call.after.openings ≡ call.before.openings ++ trail) × ((call.after.failures
        ≡ call.before.failures
        + (length (unread_of call.further call.root trail) + failures_at (stop_place why)))
        × ((heads_of call.root trail ≡ held ++ heads) × ((holder call.root from ≡ held ++ below)
        × ((read_between call.root from None ≡ heads ++ rest)
        × (IsAscending place_cmp (held ++ heads))))))))))) }
    ensures last { (call : Call) (from last : Option Place) (limits : Limits) (spent files : ℕ)
        (finding : Bool) (why : ReportStop) → RunStops call from last limits spent files finding why
        → (trail : List Opening) × ((whole : List Item)
        × ((others : List Item) × ((call.after.openings ≡ call.before.openings ++ trail)
        × ((cut (after (audit call.further call.root
        (unread_of call.further call.root trail)) from) limits
        ≡ whole ++ others)
        × ((spent ≡ total_cost whole) × ((whole ≡ [] → last ≡ from) × ((front : List Item)
        (i : Item) → whole ≡ front ++ i ∷ [] → last ≡ Some i.place))))))) }
{}

/// What the runs of a cycle did together, of a part; the whole is one.
#[tactic(auto, using(ocfl_scrub::proofs::ChainLaws::together))]
pub fn a_cycle_does_what_its_runs_do()
    ensures { (call : Call) (part : Part) (limits : List Limits) (ran : CycleEnd)
        → CycleOfRunsWithin call part limits ran
        → CyclesToWithin call part limits ran.cursor ran.found ran.end }
{}

/// A cycle that did not stop wrote what the runs of its limits take of the audit, one after the
/// other, and counted that. It opened each hashed file of these once, in order. It has ended
/// exactly if that is the whole audit, made one run for each cut, and read at most as many
/// inventories as there are, and one more for each run after the first.
pub fn a_cycle_takes_the_cuts_of_its_limits()
    ensures lines { (further : Further) (root : StorageRoot) (s t : Store)
        (before written : List ℕ) (last : Option Place)
        (limits : List Limits) (spent files : ℕ) (finding : Bool) (count : ℕ) (whole : Bool)
        → Cycles (known_call further root s t before written) last limits spent files finding count
        whole
        → (trail : List Opening) × ((t.openings ≡ s.openings ++ trail)
        × ((t.failures ≡ s.failures + length (unread_of further root trail))
        × ((written ≡ before
        ++ text (joined (runs (audit further root (unread_of further root trail)) limits)))
        × ((spent ≡ total_cost (joined (runs (audit further root
        (unread_of further root trail)) limits)))
        × ((files ≡ total_files (joined (runs (audit further root
        (unread_of further root trail)) limits)))
        × (finding ≡ found (joined (runs (audit further root
        (unread_of further root trail)) limits)))))))) }
    ensures opened { (call : Call) (last : Option Place) (limits : List Limits) (spent files : ℕ)
        (finding : Bool)
        (count : ℕ) (whole : Bool) → Cycles call last limits spent files finding count whole
        → (trail : List Opening) × ((call.after.openings ≡ call.before.openings ++ trail)
        × ((content_trail call.further call.root trail
        ≡ hashed_among call.further call.root (map (λ i. i.place) (joined (runs
        (audit call.further call.root (unread_of call.further call.root trail)) limits)))) ×
        (1 ≤ count
        → length (heads_of call.root trail) < length (inventories call.root) + count))) }
    ensures ended { (call : Call) (last : Option Place) (limits : List Limits) (spent files : ℕ)
        (finding : Bool)
        (count : ℕ) (whole : Bool) → Cycles call last limits spent files finding count whole
        → (trail : List Opening) × ((call.after.openings ≡ call.before.openings ++ trail)
        × ((count ≡ length (runs (audit call.further call.root
        (unread_of call.further call.root trail)) limits))
        × ((whole ≡ true
        → joined (runs (audit call.further call.root
        (unread_of call.further call.root trail)) limits)
        ≡ audit call.further call.root (unread_of call.further call.root trail))
        × (joined (runs (audit call.further call.root
        (unread_of call.further call.root trail)) limits)
        ≡ audit call.further call.root (unread_of call.further call.root trail) → whole ≡ true)))) }
    ensures few { (call : Call) (last : Option Place) (limits : List Limits)
        (spent files : ℕ) (finding : Bool) (count : ℕ) (whole : Bool)
        (b n : ℕ) → Cycles call last limits spent files finding count whole → 1 ≤ b → 1 ≤ n
        → All (IsAtLeast b n) limits → (trail : List Opening)
        × ((call.after.openings ≡ call.before.openings ++ trail)
        × ((count ≤ total_cost (audit call.further call.root
        (unread_of call.further call.root trail)) / b
        + total_files (audit call.further call.root
        (unread_of call.further call.root trail)) / n + 1)
        × (total_cost (audit call.further call.root
        (unread_of call.further call.root trail)) / b + total_files
        (audit call.further call.root
        (unread_of call.further call.root trail)) / n + 1 ≤ length limits
        → whole ≡ true))) }
    ensures by_sum { (call : Call) (last : Option Place) (limits : List Limits)
        (spent files : ℕ) (finding : Bool) (count : ℕ) (whole : Bool) (k : ℕ)
        → Cycles call last limits spent files finding count whole → 1 ≤ k → k ≤ length limits
        → (trail : List Opening) × ((call.after.openings ≡ call.before.openings ++ trail)
        × (FilesFit (audit call.further call.root (unread_of call.further call.root trail)) limits
        → total_cost (audit call.further call.root (unread_of call.further call.root trail))
        ≤ sum_of (take k (map (λ l. l.budget) limits)) → (whole ≡ true) × (count ≤ k))) }
    ensures last { (call : Call) (last : Option Place) (limits : List Limits)
        (spent files : ℕ) (finding : Bool) (count : ℕ) (whole : Bool)
        → Cycles call last limits spent files finding count whole
        → (trail : List Opening) × ((call.after.openings ≡ call.before.openings ++ trail)
        × ((joined (runs (audit call.further call.root
        (unread_of call.further call.root trail)) limits) ≡ []
        → last ≡ None)
        × ((front : List Item) (i : Item)
        → joined (runs (audit call.further call.root
        (unread_of call.further call.root trail)) limits)
        ≡ front ++ i ∷ []
        → last ≡ Some i.place))) }
{}

/// A cycle that stopped made at least one run and at most those of its limits. It wrote the first
/// items that these take whole, those of the runs before the last among them, and of the next a
/// proper beginning, which is empty unless the output failed.
pub fn a_cycle_that_stops_took_the_first_of_its_cuts()
    ensures lines { (further : Further) (root : StorageRoot) (s t : Store)
        (before written : List ℕ) (last : Option Place)
        (limits : List Limits) (spent files : ℕ) (finding : Bool) (count : ℕ) (why : ReportStop)
        → CycleStops (known_call further root s t before written) last limits spent files finding
        count why
        → (trail : List Opening) × ((whole : List Item)
        × ((others : List Item) × ((gone : ℕ) × ((t.openings ≡ s.openings ++ trail)
        × ((joined (take count (runs (audit further root (unread_of further root trail)) limits))
        ≡ whole ++ others)
        × ((written ≡ before ++ (text whole ++ take gone (text (take 1 others))))
        × ((why ≡ halt.Output → gone < length (text (take 1 others))) × ((why ≢ halt.Output
        → gone ≡ 0) × ((spent ≡ total_cost whole) × ((files ≡ total_files whole)
        × (finding ≡ found whole))))))))))) }
    ensures counted { (call : Call) (last : Option Place) (limits : List Limits) (spent files : ℕ)
        (finding : Bool) (count : ℕ) (why : ReportStop)
        → CycleStops call last limits spent files finding count why → (trail : List Opening)
        × ((whole : List Item) × ((rest : List Item)
        × ((call.after.openings ≡ call.before.openings ++ trail) × ((1 ≤ count)
        × ((count ≤ length (runs (audit call.further call.root
        (unread_of call.further call.root trail)) limits))
        × ((spent ≡ total_cost whole) × ((whole ≡ joined (take (count - 1) (runs
        (audit call.further call.root (unread_of call.further call.root trail)) limits)) ++ rest)
        × (length (heads_of call.root trail) < length (inventories call.root) + count)))))))) }
    ensures opened { (call : Call) (last : Option Place) (limits : List Limits) (spent files : ℕ)
        (finding : Bool) (count : ℕ) (why : ReportStop)
        → CycleStops call last limits spent files finding count why → (trail : List Opening)
        × ((whole : List Item)
        × ((others : List Item) × ((begun : List Place) × ((rest : List Place)
        × ((call.after.openings ≡ call.before.openings ++ trail) × ((call.after.failures
        ≡ call.before.failures
        + (length (unread_of call.further call.root trail) + failures_at (stop_place why))) ×
        ((joined
        (take count (runs (audit call.further call.root
        (unread_of call.further call.root trail)) limits))
        ≡ whole ++ others)
        × ((map (λ i. i.place) (take 1 others) ≡ begun ++ rest)
        × (content_trail call.further call.root trail
        ≡ hashed_among call.further call.root (map (λ i. i.place) whole ++ begun)))))))))) }
    ensures last { (call : Call) (last : Option Place) (limits : List Limits)
        (spent files : ℕ) (finding : Bool) (count : ℕ) (why : ReportStop)
        → CycleStops call last limits spent files finding count why → (trail : List Opening)
        × ((whole : List Item) × ((call.after.openings ≡ call.before.openings ++ trail)
        × ((spent ≡ total_cost whole) × ((whole ≡ [] → last ≡ None) × ((front : List Item)
        (i : Item) → whole ≡ front ++ i ∷ [] → last ≡ Some i.place))))) }
{}

/// How a check, an audit, a run and a cycle ended says which of these they did.
pub fn each_end_says_what_was_done()
    ensures check { (call : Call) (p : Place) (item finding : Bool)
        → CheckEnds call p item finding end.Ended → Checks call p item finding }
    ensures stopped_check { (call : Call) (p : Place) (item finding : Bool) (why : ReportStop)
        → CheckEnds call p item finding (end.Stopped why) → CheckStops call p why }
    ensures audit { (call : Call) (last : Option Place) (finding : Bool)
        → AuditEnds call last finding end.Ended → AuditsAll call last finding }
    ensures stopped_audit { (call : Call) (last : Option Place) (finding : Bool) (why : ReportStop)
        → AuditEnds call last finding (end.Stopped why) → AuditStops call last finding why }
    ensures ended_run { (call : Call) (from last : Option Place) (limits : Limits) (spent files : ℕ)
        (finding : Bool) → RunEnds call from last limits spent files finding run.Ended
        → Runs call from last limits spent files finding None }
    ensures spent_run { (call : Call) (from last : Option Place) (limits : Limits) (spent files : ℕ)
        (finding : Bool) → RunEnds call from last limits spent files finding run.Spent
        → (next : Place) × Runs call from last limits spent files finding (Some next) }
    ensures stopped_run { (call : Call) (from last : Option Place)
        (limits : Limits) (spent files : ℕ) (finding : Bool) (why : ReportStop)
        → RunEnds call from last limits spent files finding (run.Stopped why)
        → RunStops call from last limits spent files finding why }
    ensures no_run { (call : Call) (from last : Option Place) (limits : Limits) (spent files : ℕ)
        (finding : Bool) → RunEnds call from last limits spent files finding run.Worn → ⊥ }
    ensures ended_cycle { (call : Call) (last : Option Place) (limits : List Limits)
        (spent files : ℕ) (finding : Bool) (count : ℕ)
        → CycleEnds call last limits spent files finding count cycle.Ended
        → Cycles call last limits spent files finding count true }
    ensures spent_cycle { (call : Call) (last : Option Place) (limits : List Limits)
        (spent files : ℕ) (finding : Bool) (count : ℕ)
        → CycleEnds call last limits spent files finding count cycle.Spent
        → Cycles call last limits spent files finding count false }
    ensures stopped_cycle { (call : Call) (last : Option Place) (limits : List Limits)
        (spent files : ℕ) (finding : Bool) (count : ℕ) (why : ReportStop)
        → CycleEnds call last limits spent files finding count (cycle.Stopped why)
        → CycleStops call last limits spent files finding count why }
{}

/// A run goes on above its cursor's place, or begins at the first item, and at the next cycle if
/// the cursor had ended. It counts itself, adds what it spent and started, keeps what the cursor
/// checks, and leaves it after the last item that it took, or ended.
pub fn a_run_leaves_its_cursor_after_what_it_took()
    ensures begins { (call : Call) (c : Cursor) (limits : Limits) (ran : RunEnd) → c.state ≡ start
        → RunsFrom call c limits ran → (last : Option Place)
        × RunEnds call None last limits ran.spent ran.files ran.found ran.end }
    ensures begins_again { (call : Call) (c : Cursor) (limits : Limits) (ran : RunEnd)
        → c.state ≡ ended → RunsFrom call c limits ran → (last : Option Place)
        × RunEnds call None last limits ran.spent ran.files ran.found ran.end }
    ensures goes_on { (call : Call) (c : Cursor) (limits : Limits) (ran : RunEnd) (p : Place)
        → c.state ≡ behind p → RunsFrom call c limits ran → (last : Option Place)
        × RunEnds call (Some p) last limits ran.spent ran.files ran.found ran.end }
    ensures first { (call : Call) (c : Cursor) (limits : Limits) (ran : RunEnd)
        → c.state ≡ start → RunsFrom call c limits ran → (ran.cursor.cycle ≡ c.cycle)
        × ((ran.cursor.runs ≡ c.runs + 1) × ((ran.cursor.spent ≡ c.spent + ran.spent)
        × (ran.cursor.files ≡ c.files + ran.files))) }
    ensures further { (call : Call) (c : Cursor) (limits : Limits) (ran : RunEnd) (p : Place)
        → c.state ≡ behind p → RunsFrom call c limits ran → (ran.cursor.cycle ≡ c.cycle)
        × ((ran.cursor.runs ≡ c.runs + 1) × ((ran.cursor.spent ≡ c.spent + ran.spent)
        × (ran.cursor.files ≡ c.files + ran.files))) }
    ensures next { (call : Call) (c : Cursor) (limits : Limits) (ran : RunEnd) → c.state ≡ ended
        → RunsFrom call c limits ran → (ran.cursor.cycle ≡ c.cycle + 1) × ((ran.cursor.runs ≡ 1)
        × ((ran.cursor.spent ≡ ran.spent) × (ran.cursor.files ≡ ran.files))) }
    ensures audit { (call : Call) (c : Cursor) (limits : Limits) (ran : RunEnd)
        → RunsFrom call c limits ran → ran.cursor.further ≡ c.further }
    ensures ended { (call : Call) (c : Cursor) (limits : Limits) (ran : RunEnd)
        → RunsFrom call c limits ran → ran.end ≡ run.Ended → ran.cursor.state ≡ ended }
    ensures spent { (call : Call) (c : Cursor) (limits : Limits) (ran : RunEnd)
        → RunsFrom call c limits ran → ran.end ≡ run.Spent → (last : Option Place)
        × (RunEnds call (place_in c.state) last limits ran.spent ran.files ran.found ran.end
        × ((last ≡ None → ran.cursor.state ≡ start) × ((p : Place) → last ≡ Some p
        → ran.cursor.state ≡ behind p))) }
    ensures stopped { (call : Call) (c : Cursor) (limits : Limits) (ran : RunEnd) (why : ReportStop)
        → RunsFrom call c limits ran → ran.end ≡ run.Stopped why → (last : Option Place)
        × (RunEnds call (place_in c.state) last limits ran.spent ran.files ran.found ran.end
        × ((last ≡ None → ran.cursor.state ≡ start) × ((p : Place) → last ≡ Some p
        → ran.cursor.state ≡ behind p))) }
{}

/// A cycle's cursor is of the first cycle and counts its runs, and is of the audit that the cycle
/// was. It is ended, or after the last item that these took.
pub fn a_cycle_leaves_its_cursor_after_what_it_took()
    ensures cycle { (call : Call) (limits : List Limits) (c : Cursor) (finding : Bool)
        (how : CycleStatus) → CyclesTo call limits c finding how → (c.cycle ≡ 1)
        × ((last : Option Place) × CycleEnds call last limits c.spent c.files finding c.runs how) }
    ensures audit { (call : Call) (limits : List Limits) (c : Cursor) (finding : Bool)
        (how : CycleStatus) → CyclesTo call limits c finding how → c.further ≡ call.further }
    ensures ended { (call : Call) (limits : List Limits) (c : Cursor) (finding : Bool)
        → CyclesTo call limits c finding cycle.Ended → c.state ≡ ended }
    ensures spent { (call : Call) (limits : List Limits) (c : Cursor) (finding : Bool)
        → CyclesTo call limits c finding cycle.Spent → (last : Option Place)
        × (CycleEnds call last limits c.spent c.files finding c.runs cycle.Spent × ((last ≡ None
        → c.state ≡ start) × ((p : Place) → last ≡ Some p → c.state ≡ behind p))) }
    ensures stopped { (call : Call) (limits : List Limits) (c : Cursor) (finding : Bool)
        (why : ReportStop) → CyclesTo call limits c finding (cycle.Stopped why)
        → (last : Option Place)
        × (CycleEnds call last limits c.spent c.files finding c.runs (cycle.Stopped why)
        × ((last ≡ None → c.state ≡ start) × ((p : Place) → last ≡ Some p → c.state ≡ behind p))) }
{}

/// If nothing failed, a run wrote the cut of the audit of files that can all be read, and counted
/// that. It ended the cycle exactly if it left nothing. A cycle without failures made one run for
/// each cut.
pub fn a_run_without_failures_takes_the_audits_items()
    ensures ended { (further : Further) (root : StorageRoot) (s t : Store)
        (before written : List ℕ) (c : Cursor) (limits : Limits) (spent files : ℕ) (finding : Bool)
        → RunsCleanly (known_call further root s t before written) c limits spent files finding
        run.Ended
        → (left (after (audit further root []) (place_in c.state)) limits ≡ [])
        × ((written ≡ before ++ text (cut (after (audit further root [])
        (place_in c.state)) limits))
        × ((spent ≡ total_cost (cut (after (audit further root []) (place_in c.state)) limits))
        × ((files ≡ total_files (cut (after (audit further root []) (place_in c.state)) limits))
        × (finding ≡ found (cut (after (audit further root []) (place_in c.state)) limits))))) }
    ensures spent { (further : Further) (root : StorageRoot) (s t : Store)
        (before written : List ℕ) (c : Cursor) (limits : Limits) (spent files : ℕ) (finding : Bool)
        → RunsCleanly (known_call further root s t before written) c limits spent files finding
        run.Spent
        → (left (after (audit further root []) (place_in c.state)) limits ≢ [])
        × ((written ≡ before ++ text (cut (after (audit further root [])
        (place_in c.state)) limits))
        × ((spent ≡ total_cost (cut (after (audit further root []) (place_in c.state)) limits))
        × ((files ≡ total_files (cut (after (audit further root []) (place_in c.state)) limits))
        × (finding ≡ found (cut (after (audit further root []) (place_in c.state)) limits))))) }
    ensures counted { (call : Call)
        (limits : List Limits) (count : ℕ) → HeadlineOf call limits count cycle.Spent
        → count ≡ length (runs (audit call.further call.root []) limits) }
    ensures counted_whole { (call : Call) (limits : List Limits) (count : ℕ)
        → HeadlineOf call limits count cycle.Ended
        → count ≡ length (runs (audit call.further call.root []) limits) }
{}

/// Over a store that tells its tree a command audits, checks, runs or makes a cycle as these say,
/// and ends with the status and the text of what they answered. Or it did nothing, since memory ran
/// out first, no cursor was read, or the cursor is worn.
pub fn a_command_does_what_it_is_asked_for()
    ensures audit { (call : Call) (known : Option (Option (List ℕ)))
        (status : ℕ) (n : Note)
        (stored : Option (Vec ℕ Global)) → Performs call known
        (deed.Audit call.further) status n stored
        → (ran : AuditEnd) × (AuditEnds call ran.last ran.found ran.end
        × IsAuditNote ran.found ran.end status n) }
    ensures clean_audit { (known : Option (Option (List ℕ))) (further : Further)
        (root : StorageRoot) (s t : Store)
        (before written : List ℕ) (status : ℕ) (n : Note) (stored : Option (Vec ℕ Global))
        → Performs (known_call further root s t before written) known
        (deed.Audit further) status n stored
        → n ≡ note.Nothing → t.failures ≡ s.failures
        → (written ≡ before ++ text (audit further root []))
        × (status ≡ status_of (found (audit further root []))) }
    ensures check { (call : Call) (known : Option (Option (List ℕ)))
        (path : String Global)
        (p : Place) (status : ℕ) (n : Note) (stored : Option (Vec ℕ Global)) → IsPlace p
        → string_bytes path ≡ place_text p → Performs call known
        (deed.Check call.further path) status n stored
        → ((ran : CheckEnd) × (CheckEnds call p ran.item ran.found ran.end
        × IsCheckNote ran.item ran.found ran.end status n)) ⊎ ((status ≡ 3)
        × ((n ≡ note.OutOfMemory) × ((call.after ≡ call.before) × (call.new ≡ call.old)))) }
    ensures cycle { (call : Call) (known : Option (Option (List ℕ)))
        (limits : MadeLimits)
        (count : ℕ) (status : ℕ) (n : Note) (stored : Option (Vec ℕ Global))
        → Performs call known (deed.Cycle call.further limits count) status n stored
        → ((ran : CycleEnd)
        × (CycleOfRunsWithin call whole (map limits_of (replicate count limits)) ran
        × ((ran.runs ≡ ran.cursor.runs) × ((ran.spent ≡ ran.cursor.spent)
        × (IsCycleNote ran.runs ran.spent ran.found ran.end status n × (IsUnfailing call
        → HeadlineOf call (map limits_of (replicate count limits)) ran.runs ran.end)))))) ⊎ ((status
        ≡ 3) × ((n ≡ note.OutOfMemory) × ((call.after ≡ call.before) × (call.new ≡ call.old)))) }
    ensures run { (call : Call) (known : Option (Option (List ℕ)))
        (limits : MadeLimits)
        (status : ℕ) (n : Note) (stored : Vec ℕ Global)
        → Performs call known (deed.Run call.further limits) status n (Some stored) → (c : Cursor)
        × ((ran : RunEnd) × (BeginsWith call.further known c
        × (RunsFrom call c (limits_of limits) ran × ((IsUnfailing call
        → RunsCleanly call c (limits_of limits) ran.spent ran.files ran.found ran.end)
        × ((stored.items ≡ cursor_text ran.cursor)
        × IsRunNote ran.cursor ran.spent ran.found ran.end status n))))) }
    ensures show { (call : Call) (known : Option (Option (List ℕ))) (status : ℕ) (n : Note)
        (stored : Option (Vec ℕ Global)) → Performs call known deed.Show status n stored
        → call.after ≡ call.before }
{}

/// Unless the output failed, an audit reports what it wrote. If it took nothing, it found nothing,
/// and wrote nothing unless the output failed.
pub fn an_audit_reports_what_it_wrote()
    ensures lines { (old new : Option (List ℕ)) (ran : AuditEnd)
        → AuditsOnAnyStore (λ o. o) old new ran → ran.end ≢ end.Stopped halt.Output
        → WritesLines old new ran.found }
    ensures nothing { (old new : Option (List ℕ)) (ran : AuditEnd)
        → AuditsOnAnyStore (λ o. o) old new ran → ran.last ≡ None → (ran.found ≡ false)
        × (ran.end ≢ end.Stopped halt.Output → new ≡ old) }
{}

/// A run of a worn cursor is not made, and changes nothing. Any other leaves its cursor where it
/// ended, keeps its limits, and reports what it wrote, unless the output failed.
pub fn a_run_keeps_its_limits()
    ensures worn { (s t : Store) (old new : Option (List ℕ)) (c : Cursor)
        (limits : MadeLimits) (ran : RunEnd) → RunsOnAnyStore (λ o. o) s t old new c limits ran
        → (ran.end ≡ run.Worn) ↔ IsWorn c }
    ensures unmade { (s t : Store) (old new : Option (List ℕ)) (c : Cursor)
        (limits : MadeLimits) (ran : RunEnd) → RunsOnAnyStore (λ o. o) s t old new c limits ran
        → ran.end ≡ run.Worn → (ran.cursor ≡ c) × ((ran.spent ≡ 0) × ((ran.files ≡ 0)
        × ((ran.found ≡ false) × ((t ≡ s) × (new ≡ old))))) }
    ensures cursor { (s t : Store) (old new : Option (List ℕ)) (c : Cursor)
        (limits : MadeLimits) (ran : RunEnd) → RunsOnAnyStore (λ o. o) s t old new c limits ran
        → ran.end ≢ run.Worn → (last : Option Place)
        × (ran.cursor ≡ after_run (begun c) ran.spent ran.files (state_after ran.end last)) }
    ensures paid { (s t : Store) (old new : Option (List ℕ)) (c : Cursor)
        (limits : MadeLimits) (ran : RunEnd) → RunsOnAnyStore (λ o. o) s t old new c limits ran
        → (ran.spent ≤ limits.budget + 2 ^ 62) × ((costs : List ℕ)
        × (ArePaid (limits_of limits) 0 0 costs
        × ((ran.spent ≡ sum_of costs) × (ran.files ≡ length costs)))) }
    ensures lines { (s t : Store) (old new : Option (List ℕ)) (c : Cursor)
        (limits : MadeLimits) (ran : RunEnd) → RunsOnAnyStore (λ o. o) s t old new c limits ran
        → ran.end ≢ run.Stopped halt.Output → WritesLines old new ran.found }
{}

/// A cycle's cursor is of the first cycle and of its audit, and has its figures. It makes at most a
/// run for each of its limits, and at least one if there are any.
pub fn a_cycle_is_counted_by_its_cursor()
    ensures none { (further : Further) (s t : Store) (old new : Option (List ℕ)) (ran : CycleEnd)
        → CyclesOnAnyStore further (λ o. o) s t old new [] ran → (ran.cursor ≡ new_cursor further)
        × ((ran.end ≡ cycle.Spent) × ((ran.found ≡ false) × ((t ≡ s) × (new ≡ old)))) }
    ensures counted { (further : Further) (s t : Store) (old new : Option (List ℕ))
        (limits : List MadeLimits)
        (ran : CycleEnd) → CyclesOnAnyStore further (λ o. o) s t old new limits ran
        → (ran.runs ≤ length limits) × (1 ≤ length limits → 1 ≤ ran.runs) }
    ensures cursor { (further : Further) (s t : Store) (old new : Option (List ℕ))
        (limits : List MadeLimits)
        (ran : CycleEnd) → CyclesOnAnyStore further (λ o. o) s t old new limits ran
        → (ran.cursor.cycle ≡ 1) × ((ran.cursor.runs ≡ ran.runs)
        × ((ran.cursor.spent ≡ ran.spent) × (ran.cursor.files ≡ ran.files))) }
    ensures audit { (further : Further) (s t : Store) (old new : Option (List ℕ))
        (limits : List MadeLimits) (ran : CycleEnd)
        → CyclesOnAnyStore further (λ o. o) s t old new limits ran
        → ran.cursor.further ≡ further }
    ensures end { (further : Further) (s t : Store) (old new : Option (List ℕ))
        (limits : List MadeLimits)
        (ran : CycleEnd) → CyclesOnAnyStore further (λ o. o) s t old new limits ran
        → (ran.end ≡ cycle.Ended) ↔ (ran.cursor.state ≡ ended) }
    ensures lines { (further : Further) (s t : Store) (old new : Option (List ℕ))
        (limits : List MadeLimits)
        (ran : CycleEnd) → CyclesOnAnyStore further (λ o. o) s t old new limits ran
        → ran.end ≢ cycle.Stopped halt.Output → WritesLines old new ran.found }
{}

/// A check and an audit end with the status of what is said. If nothing is said, all lines went
/// out, and the status says whether one of them is a finding. Unless the output failed, no line was
/// cut short. If no cursor was read, that is said, and the status is 3 or 4.
pub fn a_report_has_its_status()
    ensures status { (old new : Option (List ℕ)) (status : ℕ) (n : Note)
        → ReportsOnAnyStore (λ o. o) old new status n → IsStatus status n }
    ensures lines { (old new : Option (List ℕ)) (status : ℕ) (n : Note)
        → ReportsOnAnyStore (λ o. o) old new status n → n ≡ note.Nothing
        → WritesWithStatus old new status }
    ensures uncut { (old new : Option (List ℕ)) (status : ℕ) (n : Note)
        → ReportsOnAnyStore (λ o. o) old new status n → n ≢ note.OutputFailed
        → WritesWhole old new }
    ensures unread { (status : ℕ) (n : Note) → EndsUnread status n
        → IsStatus status n × ((3 ≤ status) × IsUnreadSaid n) }
{}

/// A command ends with the status of what is said, with the lines and the cursor that belong to it,
/// and with no call if none is to be made.
pub fn an_answer_fits_its_command()
    ensures status { (s t : Store) (old new : Option (List ℕ)) (known : Option (Option Text))
        (d : Deed) (said : Performed) → AnswersOnAnyStore (λ o. o) s t old new known d said
        → IsStatus said.status said.note }
    ensures silent { (s t : Store) (old new : Option (List ℕ)) (known : Option (Option Text))
        (d : Deed) (said : Performed) → AnswersOnAnyStore (λ o. o) s t old new known d said
        → IsSilent said.note → (t ≡ s) × (new ≡ old) }
    ensures bad_path { (s t : Store) (old new : Option (List ℕ)) (known : Option (Option Text))
        (d : Deed) (said : Performed) → AnswersOnAnyStore (λ o. o) s t old new known d said
        → RefusesPath d said.status said.note × (HasBadPath d → (t ≡ s) × (new ≡ old)) }
    ensures show { (s t : Store) (old new : Option (List ℕ)) (known : Option (Option Text))
        (said : Performed) → AnswersOnAnyStore (λ o. o) s t old new known deed.Show said
        → (t ≡ s) × ((said.status ≡ 0) ↔ (said.note ≡ note.Nothing)) }
    ensures cursor { (s t : Store) (old new : Option (List ℕ)) (known : Option (Option Text))
        (d : Deed) (said : Performed) → AnswersOnAnyStore (λ o. o) s t old new known d said
        → UnshownSaid d known said.note × (IsKeptBy d said.note said.cursor
        × IsWithoutFile known d said.note) }
    ensures lines { (s t : Store) (old new : Option (List ℕ)) (known : Option (Option Text))
        (d : Deed) (said : Performed) → AnswersOnAnyStore (λ o. o) s t old new known d said
        → WritesBy known d said old new }
{}

/// Whatever a command is asked for, what goes out before a stop at a place is whole lines. So is
/// what goes out before memory runs out, unless a run hands no cursor back: then the output may
/// have failed before. A check writes nothing unless it ends with an item.
pub fn only_a_failed_output_cuts_a_line()
    ensures stopped { (s t : Store) (old new : Option (List ℕ)) (known : Option (Option Text))
        (d : Deed) (said : Performed) (p : Place)
        → AnswersOnAnyStore (λ o. o) s t old new known d said
        → said.note ≡ note.StoppedAt p → WritesWhole old new }
    ensures memory { (s t : Store) (old new : Option (List ℕ)) (known : Option (Option Text))
        (d : Deed) (said : Performed) → AnswersOnAnyStore (λ o. o) s t old new known d said
        → said.note ≡ note.OutOfMemory
        → ((further : Further) (limits : MadeLimits) → d ≢ deed.Run further limits)
        ⊎ IsSome said.cursor
        → WritesWhole old new }
    ensures check { (further : Further) (s t : Store) (old new : Option (List ℕ)) (known : Option
        (Option Text))
        (path : String Global) (said : Performed)
        → AnswersOnAnyStore (λ o. o) s t old new known (deed.Check further path) said
        → said.note ≢ note.Nothing → said.note ≢ note.OutputFailed → new ≡ old }
{}
