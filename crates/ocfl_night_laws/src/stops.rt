//! When a night stops at a place, by its runs and by what the store told meanwhile.
ghost use Rattle.std.specs.Prelude.{◌≡◌, ◌≢◌, ◌+◌, ◌<◌, ◌≤◌, ◌↔◌, Bool, List, Some, false};
ghost use Rattle.ocfl_tree.specs.{Place.{Place}, Store.{Store}};
ghost use Rattle.ocfl_item.specs.declared.fault.Fault.TheVariants as fault;
ghost use Rattle.ocfl_report.specs.declared.further.Further.{Further};
ghost use Rattle.ocfl_state.specs.Content.{Content};
ghost use Rattle.ocfl_terms.specs.Clock.{Event};
ghost use Rattle.ocfl_night.specs.{Done.{Done}, Looks.{failed_at}};
ghost use Rattle.ocfl_night.specs.Halting.{AreFailed};
ghost use Rattle.ocfl_night_laws.specs.Halts.{HaltsAt, IsHaltedAt};
ghost use Rattle.ocfl_night.specs.Runs.{IsBegunNight, after_made};
ghost use Rattle.ocfl_terms.specs.{declared.plan.NightEnd.{NightEnd}, declared.plan.Plan.{Plan}};
ghost use Rattle.ocfl_terms.specs.{declared.made.Made.{Made}, declared.stop.Stop.{Stop}};
ghost use Rattle.ocfl_terms.specs.declared.plan.Halt.TheVariants as halt;
ghost use Rattle.ocfl_night.specs.declared.pause.Pause.TheVariants as pause;
ghost use Rattle.ocfl_terms.specs.declared.made.SliceEnd.TheVariants as slice;

/// A night that is not troubled stops at a place exactly if its last run halts it there: after that
/// run the root could not be looked at, or it stopped, and nothing helps.
///
/// Nothing helps if the night is to stop at faults, if 64 runs had stopped before, or if the run
/// before had stopped there too and no branch can be left out: 16 are, or none comes to an end.
pub fn a_night_stops_where_nothing_helps()
    ensures run { (strict : Bool) (d : Done) (made : Made) (p : Place)
        → ((after_made strict d made).pause ≡ Some (pause.Stopped (fault.Store p)))
        ↔ HaltsAt strict d made p }
    ensures night { (further : Further) (plan : Plan) (tells : Bool) (c d : Content)
        (old new : List Event) (end : NightEnd) (p : Place)
        (n : IsBegunNight further plan tells c d old new end)
        → ((why : Stop) → end.end ≢ halt.Troubled why)
        → (end.end ≡ halt.Stopped (fault.Store p))
        ↔ IsHaltedAt plan n.runs.done n.runs.checkpoint n.runs.last p }
{}

/// Where a night stops, the store has failed: once at least, and twice if it stopped there though
/// it may leave branches out, fewer than 64 runs had stopped before, and the root could be looked
/// at.
pub fn a_night_stops_where_the_store_failed()
    ensures once { (further : Further) (plan : Plan) (tells : Bool) (c d : Content)
        (old new : List Event) (end : NightEnd) (p : Place)
        (n : IsBegunNight further plan tells c d old new end) (s t : Store)
        → AreFailed old new s t → IsHaltedAt plan n.runs.done n.runs.checkpoint n.runs.last p
        → failed_at p s + 1 ≤ failed_at p t }
    ensures twice { (further : Further) (plan : Plan) (tells : Bool) (c d : Content)
        (old new : List Event) (end : NightEnd) (p : Place)
        (n : IsBegunNight further plan tells c d old new end) (s t : Store)
        → AreFailed old new s t
        → (h : IsHaltedAt plan n.runs.done n.runs.checkpoint n.runs.last p)
        → h.run.made.end ≡ slice.Stopped (fault.Store p)
        → plan.stop_at_faults ≡ false → n.runs.done.stops < 64
        → failed_at p s + 2 ≤ failed_at p t }
{}
