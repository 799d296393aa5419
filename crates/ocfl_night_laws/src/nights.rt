//! The laws of nights.
ghost use Rattle.std.specs.{Prelude.{◌≡◌, ◌≢◌, ◌⊎◌, ◌++◌, ℕ, [], Bool, Option, IsTrue, List, Some, flat_map, map, true}, List.{AllByRecursion}};
ghost use Rattle.ocfl_tree.specs.{Ascending.{IsAmong, IsAscending}, Name.{IsPlace}, Place.{Place, place_cmp}};
ghost use Rattle.ocfl_tree.specs.{StorageRoot.{StorageRoot}, Store.{Store}};
ghost use Rattle.ocfl_item.specs.Judging.{HasShortFiles};
ghost use Rattle.ocfl_report.specs.{Line.{Item}, Text.{text}, declared.further.Further.{Further}};
ghost use Rattle.ocfl_rules.specs.{Audit.{after, audit}, Parts.{Part, within}, Trail.{unread_of}};
ghost use Rattle.ocfl_cursor.specs.Cursor.{Cursor};
ghost use Rattle.ocfl_scrub.specs.{Joining.{unread_together}, Running.{place_in}};
ghost use Rattle.ocfl_state.specs.{Checkpoint.{Checkpoint}, Content.{Closed, Content, empty}};
ghost use Rattle.ocfl_state.specs.declared.checkpoint_parts.{Left.{Left}, Phase.TheVariants.{Open}};
ghost use Rattle.ocfl_night_laws.specs.Around.{AreNext, IsInBranch, around};
ghost use Rattle.ocfl_night.specs.Chain.{IsReportOf, LedToEnd, RootRun, joined};
ghost use Rattle.ocfl_night.specs.Runs.{AreMade, EndsBy, IsBegunNight, IsNight};
ghost use Rattle.ocfl_night.specs.{Beginning.{position}, Done.{nothing_done}};
ghost use Rattle.ocfl_terms.specs.Clock.{Event};
ghost use Rattle.ocfl_night_laws.specs.Times.{BeginsInTime};
ghost use Rattle.ocfl_terms.specs.{declared.plan.NightEnd.{NightEnd as ModelEnd}, declared.plan.Plan.{Plan as ModelPlan}};
ghost use Rattle.ocfl_night.specs.{Looks.{Counts, Rounds, look_between, of_any}};
ghost use Rattle.ocfl_night.specs.Again.{IsLeg, IsLittleAgain, Leg, took_by};
ghost use Rattle.ocfl_cursor.specs.declared.limits.Limits.{Limits as ModelLimits};
ghost use Rattle.ocfl_item.specs.declared.fault.Fault.{Fault as ModelFault};
ghost use Rattle.ocfl_night.specs.Ending.{IsRunKept, IsSlice, cycle_of};
ghost use Rattle.ocfl_terms.specs.declared.made.Made.{Made as ModelMade};
ghost use Rattle.ocfl_terms.specs.declared.made.SliceEnd.TheVariants as slice;
ghost use Rattle.ocfl_night_laws.specs.Readings.{AreOfOneCycle, Reading};
ghost use Rattle.ocfl_night.specs.Reading.{EndsInOrder, ReadsBeyond, content_since};
ghost use Rattle.ocfl_terms.specs.declared.plan.Halt.TheVariants as halt;
ghost use Rattle.ocfl_night.specs.{Site.{part_at}, Sound.{IsAt, IsSound}};
ghost use Rattle.ocfl_night_laws.specs.Nights.{AllTaken, AreNights, AreOver, AreWhole, AtAnyMoment, EachOther, EachWhole, HaveReadAll, IsAround, IsAuditBut, Night, rounds_of};

use ocfl_digest::Block;
use ocfl_night::{Site, night};
use ocfl_scrub::parts::runs_that_stop_join;
use ocfl_state::StateFolder;
use ocfl_terms::{Clock, NightEnd, Output, Plan};
use ocfl_tree::Tree;
use std::alloc::Global;

/// Whatever nights there were over a part, from an empty folder on, each ended, killed or crashed
/// at any moment: what a crash may have left is sound. The closed reports are those of the first
/// cycles, each once, and each that is called whole is what one whole chain of runs wrote.
///
/// Between two nights closed reports may have been taken away, but not that of a checkpoint's cycle
/// while the checkpoint says that it is to be closed.
pub fn nights_are_sound<S: StateFolder>()
    ensures sound { (further : Further) (part : Part) (nights : List (Night S))
        → AreNights S.StateFolder further part (λ c. c ≡ empty) nights
        → AtAnyMoment S.StateFolder (IsSound (rounds_of further part nights)) nights }
    ensures whole { (further : Further) (part : Part) (nights : List (Night S))
        → AreNights S.StateFolder further part (λ c. c ≡ empty) nights
        → AtAnyMoment S.StateFolder (λ c. AreWhole (rounds_of further part nights) c.closed)
        nights }
{}

/// Whatever such nights there were: what was said at any moment is what their outputs have
/// committed.
pub fn what_was_said_was_taken<S: StateFolder>()
    ensures { (further : Further) (part : Part) (nights : List (Night S))
        → AreNights S.StateFolder further part (λ c. c ≡ empty) nights
        → AllTaken S.StateFolder (of_any further part) [] nights }
{}

/// A report that is closed as whole, all of whose runs were over one storage root, is the audit of
/// the part that checks what the rounds do. In it just the files are called unreadable that could
/// not be read by the run that took them. It is exactly the audit if all could be read.
pub fn a_whole_report_is_the_audit()
    ensures unread { (root : StorageRoot) (rounds : Rounds) (d : Closed)
        (w : IsReportOf rounds [] d) → AllByRecursion (λ r. r.root ≡ root) w.led.runs
        → d.report ≡ text (within rounds.part (audit rounds.further root
        (unread_together rounds.further root (map (λ r. r.run) w.led.runs)))) }
    ensures exact { (root : StorageRoot) (rounds : Rounds) (d : Closed)
        (w : IsReportOf rounds [] d) → AllByRecursion (λ r. r.root ≡ root) w.led.runs
        → unread_together rounds.further root (map (λ r. r.run) w.led.runs) ≡ []
        → d.report ≡ text (within rounds.part (audit rounds.further root [])) }
{
    runs_that_stop_join();
}

/// Whatever nights there were over a part of one storage root, from an empty folder on, each ended,
/// killed or crashed at any moment: each closed report that is called whole is the audit of the
/// part, in which only files are called unreadable that one of the nights could not read. It is
/// exactly the audit if the nights could read each content file that they opened.
pub fn each_whole_report_is_the_audit<S: StateFolder>()
    ensures unread { (further : Further) (root : StorageRoot) (part : Part) (nights : List
        (Night S))
        → AreNights S.StateFolder further part (λ c. c ≡ empty) nights
        → AreOver root nights → AtAnyMoment S.StateFolder (λ c. EachWhole
        (IsAuditBut further root part (map (λ n. n.look) nights)) c.closed) nights }
    ensures exact { (further : Further) (root : StorageRoot) (part : Part) (nights : List (Night S))
        → AreNights S.StateFolder further part (λ c. c ≡ empty) nights
        → AreOver root nights → HaveReadAll nights
        → AtAnyMoment S.StateFolder (λ c. EachWhole
        (λ report. report ≡ text (within part (audit further root []))) c.closed) nights }
{
    runs_that_stop_join();
}

/// Whatever such nights there were, which could read each content file that they opened: a closed
/// report that is not called whole is exactly the audit of the part but for branches that were left
/// out, of which there is one at least. Nothing of it was lost.
pub fn each_other_report_is_the_audit_around_what_was_left_out<S: StateFolder>()
    ensures { (further : Further) (root : StorageRoot) (part : Part) (nights : List (Night S))
        → AreNights S.StateFolder further part (λ c. c ≡ empty) nights
        → AreOver root nights → HaveReadAll nights → AtAnyMoment S.StateFolder
        (λ c. EachOther (IsAround further root part) c.closed) nights }
{
    runs_that_stop_join();
}

/// No run of a night is begun but where the clock has answered that the end has not come.
pub fn runs_begin_before_the_end()
    ensures { (further : Further) (plan : ModelPlan) (tells : Bool) (c d : Content)
        (old new : List Event) (end : ModelEnd) → IsNight further plan tells c d old new end
        → BeginsInTime plan.end old new end.runs }
{}

/// A slice keeps what its run did if that ended the cycle, was ended by its limits, or stopped:
/// nothing is dropped unless the root was gone, another one, or could not be looked at after it.
pub fn a_slice_keeps_its_run()
    ensures ended { (k : Checkpoint) (limits : ModelLimits) (made : ModelMade)
        → IsSlice k limits made → made.end ≡ slice.Ended → IsRunKept k limits made }
    ensures spent { (k : Checkpoint) (limits : ModelLimits) (made : ModelMade)
        → IsSlice k limits made → made.end ≡ slice.Spent → IsRunKept k limits made }
    ensures stopped { (k : Checkpoint) (limits : ModelLimits) (made : ModelMade)
        (why : ModelFault) → IsSlice k limits made → made.end ≡ slice.Stopped why
        → IsRunKept k limits made }
{}

/// A night begins just where the last run of the one before it led, or if that one ended its cycle,
/// at the beginning of the next. Nothing is said of what comes after a night that was troubled.
pub fn the_next_night_goes_on()
    ensures { (further : Further) (plan next : ModelPlan) (c d e f : Content)
        (old new later last : List Event) (one two : ModelEnd)
        (first : IsBegunNight further plan true c d old new one)
        (second : IsBegunNight further next true e f later last two) → e.checkpoint ≡ d.checkpoint
        → AreMade plan old new nothing_done first.start
        (EndsBy (λ p. position second.start ≡ p) plan one.end first.done) }
{}

/// If no failure of a store was counted, each content file that was opened meanwhile was read.
pub fn where_nothing_failed_all_was_read()
    ensures { (further : Further) (root : StorageRoot) (s t : Store) → Counts s t
        → t.failures ≡ s.failures → (look_between further root s t).unread ≡ [] }
{}

/// Nights of one cycle, one after the other, each of which ended in order and without a failure of
/// the store: together they open each content file once, in order. So nothing is read twice.
pub fn nothing_is_read_twice()
    ensures { (readings : List Reading) → AreOfOneCycle readings
        → IsAscending place_cmp (flat_map (λ r. r.opened) readings) }
{}

/// A crash comes in one of a night's runs, or in what is done after it, and the next night is in
/// the same cycle. Of what the runs before it had taken, that night opens nothing. So what it opens
/// again is what this one run had opened, and those that stopped had begun with.
pub fn what_is_opened_again_is_one_runs<S: StateFolder>()
    ensures in_it { (root : StorageRoot) (part : Part) (cycle : ℕ) (taken : List Place)
        (leg : Leg S) → IsLeg root part S.StateFolder cycle taken leg
        → (c : Content) → S.left_since leg.new (S.moment leg.old) c
        → (k : Checkpoint) → IsAt k c → k.phase ≡ Open → cycle_of k ≡ cycle
        → (opened : List Place) → ReadsBeyond c opened
        → (p : Place) → IsAmong taken p → IsAmong opened p → ⊥ }
    ensures in_the_last { (root : StorageRoot) (part : Part) (cycle : ℕ) (old new : List Event)
        (s t : Store) (folder : S) (night : IsLittleAgain root part S.StateFolder
        cycle old new s t folder)
        → (c : Content) → S.left_since folder (S.moment night.left) c
        → (k : Checkpoint) → IsAt k c → k.phase ≡ Open → cycle_of k ≡ cycle
        → (opened : List Place) → ReadsBeyond c opened
        → (p : Place) → IsAmong (took_by night.legs) p → IsAmong opened p → ⊥ }
{}

/// Two nights, the second of which takes up what the first one left. If both stores are of one root
/// and nothing failed in them, then whatever a crash may leave in the second: each closed report
/// that is called whole is exactly the audit of the part.
pub fn two_nights<S: StateFolder, T: Tree, C: Clock, O: Output>(
    alloc: Global,
    folder: &mut S,
    first: &mut T,
    second: &mut T,
    site: &Site,
    plan: &Plan,
    clock: &mut C,
    block: &mut Block,
    out: &mut O,
) -> (NightEnd, NightEnd)
    ensures whole { IsTrue S.told → (root : StorageRoot) → HasShortFiles root
        → IsTrue T.told → (T.state first.old).tree ≡ root → (T.state second.old).tree ≡ root
        → ((c : Content) → S.may_leave folder.old c → c ≡ empty)
        → (T.state first.new).failures ≡ (T.state first.old).failures
        → (T.state second.new).failures ≡ (T.state second.old).failures
        → (c : Content) → S.may_leave folder.new c → EachWhole (λ report. report
        ≡ text (within (part_at site.now.ends) (audit site.now.further root []))) c.closed }

    // If both ended in order, and the first one did not end the cycle, they open no content file
    // twice.
    ensures read { IsTrue S.told → (root : StorageRoot) → HasShortFiles root
        → IsTrue T.told → (T.state first.old).tree ≡ root → (T.state second.old).tree ≡ root
        → ((c : Content) → S.may_leave folder.old c → c ≡ empty)
        → (T.state first.new).failures ≡ (T.state first.old).failures
        → (T.state second.new).failures ≡ (T.state second.old).failures
        → EndsInOrder result.0.end → ((cycle : ℕ) → result.0.end ≢ halt.CycleEnded cycle)
        → EndsInOrder result.1.end → IsAscending place_cmp
        (content_since site.now.further root (T.state first.old) (T.state first.new)
        ++ content_since site.now.further root (T.state second.old) (T.state second.new)) }
{
    each_whole_report_is_the_audit::<S>();
    where_nothing_failed_all_was_read();
    let one = night(alloc, folder, first, site, plan, clock, block, out);
    let two = night(alloc, folder, second, site, plan, clock, block, out);
    (one, two)
}

/// The report of a cycle that left branches out is exactly the audit of the part up to where the
/// first was left out, then what comes after that branch up to where the next was, and so on. All
/// runs were over one storage root, and could read each content file that they opened. Each item of
/// the part is in that, or in a branch that was left out.
pub fn what_is_left_out_is_missing_alone()
    ensures wrote { (further : Further) (root : StorageRoot) (part : Part) (first last : Cursor)
        (runs : List RootRun) (left : List Left) → LedToEnd further part first runs left last
        → AllByRecursion (λ r. r.root ≡ root) runs
        → AllByRecursion (λ r. unread_of further root r.run.opened ≡ []) runs
        → joined runs ≡ text (around part (place_in first.state) left (audit further root [])) }
    ensures missing { (further : Further) (root : StorageRoot) (part : Part)
        (from : Option Place) (left : List Left) → AreNext further root part left
        → (i : Item) → IsPlace i.place
        → IsAmong (after (within part (audit further root [])) from) i
        → IsAmong (around part from left (audit further root [])) i ⊎ IsInBranch left i.place }
{}
