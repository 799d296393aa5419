//! One run: the items of a part above the cursor's place, as far as the limits allow.
ghost use Rattle.std.specs.Prelude.{◌≡◌, ◌≢◌, true, false, None, Some, IfErr, IfOk, MatchResult, option_map};
ghost use Rattle.ocfl_cursor.specs.{Cursor.{IsShortPlace}, Meter.{IsMeter, MayStart}};
ghost use Rattle.ocfl_cursor.specs.State.{state_of};
ghost use Rattle.ocfl_tree.specs.{Place.{Place as Spot}, Store.{IfTold}};
ghost use Rattle.ocfl_rules.specs.Parts.{whole};
ghost use Rattle.ocfl_scrub.specs.Call.{WhereTold};
ghost use Rattle.ocfl_report.specs.declared.further.Further.{Further as ModelFurther};
ghost use Rattle.ocfl_scrub.specs.Keeping.{HasOption, HasOther, IsReady, RunsOn, met_at};
ghost use Rattle.ocfl_scrub.specs.Passes.{IsPass, Meets, PassesOn, TakesNothing};
ghost use Rattle.ocfl_scrub.specs.Beginning.{Begins, IsShort};
ghost use Rattle.ocfl_scrub.specs.Running.{IsWorn, RunsFromWithin, RunsOnAnyStore, RunsOver, limits_of, place_in, state_after};
ghost use Rattle.ocfl_scrub.specs.Starting.{part_of};

use crate::kept::{KeptWalk, Met};
use crate::part::{Part, set_out};
use crate::stop::ReportStop;
use crate::taking::{either, take_item};
use ocfl_cursor::{Cursor, Limits, Meter, State};
use ocfl_digest::Block;
use ocfl_report::Further;
use ocfl_tree::laws::every_place_has_names;
use ocfl_tree::{Place, Tree};
use ocfl_walk::{Fault, Pending};
use std::alloc::Global;
use std::io::Write;

/// How a run ended.
#[derive(Drop)]
pub enum RunStatus {
    /// No item is left: the cycle has ended.
    Ended,
    /// The next item is a file that the limits do not allow to start.
    Spent,
    /// A call failed, and a run from the cursor goes on after the last item that went out whole.
    Stopped(ReportStop),
    /// No further run can be counted, and none was made.
    Worn,
}

/// What a run did.
#[derive(Drop)]
pub struct RunEnd {
    /// Where the next run begins.
    pub cursor: Cursor,
    /// What the items that went out whole cost.
    pub spent: u64,
    /// How many of them are files that were read.
    pub files: u64,
    /// Whether a line of one of them is a finding.
    pub found: bool,
    pub end: RunStatus,
}

/// Takes the items above the cursor's place, whether or not there is one at it, and starts a file
/// only while less than the budget is spent and fewer files than their limit are started. An item
/// that is no such file is taken in any case.
///
/// It checks what the cursor's audit checks, and the cursor keeps that. A cursor that has ended
/// begins the next cycle. The lines of an item go out as one piece before
/// the next item is looked at. A file that cannot be read is reported and stops nothing. After a
/// stop the cursor is after the last item whose lines went out whole, and without such an item
/// where the run began; what was spent, started and found is that of those items alone.
///
/// A cursor is worn if its runs, or after the end of a cycle its cycles, cannot be counted
/// further: then no call of the store is made, nothing is written, and the cursor is handed back.
pub fn run<T: Tree, W: Write>(
    alloc: Global,
    store: &mut T,
    cursor: Cursor,
    limits: Limits,
    block: &mut Block,
    out: &mut W,
) -> RunEnd
    ensures { RunsOver T.told T.state W.contents store.old store.new out.old out.new whole
        cursor limits result }
{
    let whole = Part::whole(alloc);
    run_part(alloc, store, &whole, cursor, limits, block, out)
}

/// Does for a part what [`run`] does for the whole. From a cursor that is new, has ended, or has a
/// place before the part, it begins with the part's first item. The cycle ends when no item of the
/// part is left, so a cursor with a place after the part ends it at once. A run that takes no item
/// and leaves some keeps the cursor's place.
///
/// Outside the part it lists and reads only what is on the way down to where it begins.
pub fn run_part<T: Tree, W: Write>(
    alloc: Global,
    store: &mut T,
    part: &Part,
    cursor: Cursor,
    limits: Limits,
    block: &mut Block,
    out: &mut W,
) -> RunEnd
    ensures { RunsOver T.told T.state W.contents store.old store.new out.old out.new
        (part_of part.now) cursor limits result }
{
    let mut kept = KeptWalk::none();
    run_on(alloc, store, part, &mut kept, cursor, limits, block, out)
}

/// Does what [`run_part`] does, and keeps the walk for the next run of the part.
///
/// If the limits ended the run before from whose cursor this one goes on, it goes on with that
/// run's walk: it lists no directory and reads no inventory on the way down to where it begins,
/// nor any that was listed or read before. After a run that ended, stopped or was not made no walk
/// is kept, and the next one begins a walk. It also begins one if the walk that was kept is of an
/// audit with the other option.
pub fn run_on<T: Tree, W: Write>(
    alloc: Global,
    store: &mut T,
    part: &Part,
    kept: &mut KeptWalk,
    cursor: Cursor,
    limits: Limits,
    block: &mut Block,
    out: &mut W,
) -> RunEnd
    ensures any_store { RunsOnAnyStore W.contents store.old store.new out.old out.new
        cursor limits result }
    ensures told { WhereTold cursor.further T.told T.state W.contents store.old store.new out.old
        out.new (λ call. result.end ≢ RunStatus.Worn
        → IsReady call.further call.root (part_of part.now) (place_in cursor.state) kept.old
        → RunsOn call (part_of part.now) (met_at kept.old) cursor (limits_of limits) result) }

    ensures root { WhereTold cursor.further T.told T.state W.contents store.old store.new out.old
        out.new (λ call.
        IsReady call.further call.root (part_of part.now) (place_in cursor.state) kept.old
        → call.after.tree ≡ call.root) }

    // Of an audit with the other option no walk is used.
    ensures other { WhereTold cursor.further T.told T.state W.contents store.old store.new out.old
        out.new (λ call. result.end ≢ RunStatus.Worn → HasOther call.further kept.old.met
        → RunsFromWithin call (part_of part.now) cursor (limits_of limits) result) }
    ensures other_ready { WhereTold cursor.further T.told T.state W.contents store.old store.new
        out.old out.new (λ call. HasOther call.further kept.old.met
        → IsReady call.further call.root (part_of part.now) (place_in result.cursor.state)
        kept.new) }

    // The next run may go on with what is kept, and the walk is kept exactly if limits ended it.
    ensures ready { WhereTold cursor.further T.told T.state W.contents store.old store.new out.old
        out.new (λ call.
        IsReady call.further call.root (part_of part.now) (place_in cursor.state) kept.old
        → IsReady call.further call.root (part_of part.now) (place_in result.cursor.state)
        kept.new) }
    ensures spent { result.end ≡ RunStatus.Spent → (p : Spot) × (met_at kept.new ≡ Some p) }
    ensures unspent { result.end ≢ RunStatus.Spent → kept.new.met ≡ None }
{
    let further = cursor.further();
    let met = used(kept.met.take(), further);
    let (start, from) = match begin(cursor) {
        Ok(begun) => begun,
        Err(worn) => {
            return RunEnd {
                cursor: worn,
                spent: 0,
                files: 0,
                found: false,
                end: RunStatus::Worn,
            };
        }
    };
    let Pass {
        last,
        spent,
        files,
        found,
        end,
        met,
    } = match meet(alloc, store, further, part, met, from.as_ref()) {
        Ok(Some(met)) => pass_on(alloc, store, part, met, from, limits, block, out),
        Ok(None) => no_pass(from, RunStatus::Ended),
        Err(why) => no_pass(from, RunStatus::Stopped(ReportStop::Fault(why))),
    };
    kept.met = met;
    let left = left_state(&end, last);
    match start.after_run(spent, files, left) {
        Some(cursor) => RunEnd {
            cursor,
            spent,
            files,
            found,
            end,
        },
        None => unreachable!(),
    }
}

// The cursor that a run begins with, its place taken out of it. A worn cursor is handed back.
fn begin(cursor: Cursor) -> Result<(Cursor, Option<Place>), Cursor>
    ensures worn { IfErr result (λ c. IsWorn cursor × (c ≡ cursor)) }
    ensures begins { IfOk result (λ b. Begins cursor b.0 b.1) }
{
    if matches!(cursor.state(), State::Ended) {
        return match cursor.next_cycle() {
            Some(next) => Ok((next, None)),
            None => Err(cursor),
        };
    }
    if cursor.runs() == u64::MAX {
        return Err(cursor);
    }
    let mut begun = cursor;
    match begun.take_state() {
        State::After(place) => Ok((begun, Some(place))),
        State::Start | State::Ended => Ok((begun, None)),
    }
}

// Where a run leaves the cursor: after the last item that was taken, unless none is left.
fn left_state(end: &RunStatus, last: Option<Place>) -> State
    requires short { IsShort last }
    ensures state { state_of result ≡ state_after end.now last }
    ensures short { IsShortPlace (state_of result) }
{
    if matches!(end, RunStatus::Ended) {
        return State::Ended;
    }
    match last {
        Some(place) => {
            every_place_has_names(&place);
            State::After(place)
        }
        None => State::Start,
    }
}

// What a pass over the items above a place did.
#[derive(Drop)]
struct Pass {
    last: Option<Place>,
    spent: u64,
    files: u64,
    found: bool,
    end: RunStatus,
    // The walk, and the item that the limits did not allow to start.
    met: Option<Met>,
}

// Of a walk that was kept, what a run with this option goes on with: none of an audit with the
// other.
fn used(kept: Option<Met>, further: Further) -> Option<Met>
    ensures same { HasOption further kept → result ≡ kept }
    ensures other { HasOther further kept → result ≡ None }
{
    match kept {
        Some(met) if met.walk.further() == further => Some(met),
        _ => None,
    }
}

// The first item above a place, and the walk that met it: the one that is kept, or one that begins
// there. `None` if no item is left.
fn meet<T: Tree>(
    alloc: Global,
    store: &mut T,
    further: Further,
    part: &Part,
    kept: Option<Met>,
    above: Option<&Place>,
) -> Result<Option<Met>, Fault>
    ensures { IfTold T.told (T.state store.old) (λ root. let from =
        option_map (λ p. p.now) above.entry in MatchResult result
        (λ met. Meets further root (part_of part.now) from kept met (T.state store.old)
        (T.state store.new))
        (λ why. (kept ≡ None) × TakesNothing further root (part_of part.now) from
        (RunStatus.Stopped (ReportStop.Fault why)) (T.state store.old) (T.state store.new))) }
{
    let walk = match kept {
        Some(met) => return Ok(Some(met)),
        None => set_out(alloc, store, further, part, above)?,
    };
    let (walk, next) = walk.next_within(store, &part.end)?;
    match next {
        Some(item) => Ok(Some(Met { walk, item })),
        None => Ok(None),
    }
}

// Takes the items of a part above a place, as far as the limits allow, by the walk that met the
// first of them.
fn pass_on<T: Tree, W: Write>(
    alloc: Global,
    store: &mut T,
    part: &Part,
    met: Met,
    from: Option<Place>,
    limits: Limits,
    block: &mut Block,
    out: &mut W,
) -> Pass
    requires short { IsShort from }
    ensures any_store { IsPass (W.contents out.old) (W.contents out.new) limits result }
    ensures told { (further : ModelFurther) → WhereTold further T.told T.state W.contents
        store.old store.new out.old out.new (λ call.
        PassesOn call (part_of part.now) met from (limits_of limits) result) }
{
    let mut walk = met.walk;
    let mut item = met.item;
    let mut meter = Meter::new(limits);
    let mut last = from;
    let mut found = false;
    let (end, met) = loop {
        let paid = pays(&meter, &item);
        if !paid {
            break (RunStatus::Spent, Some(Met { walk, item }));
        }
        match take_item(alloc, store, item, block, out) {
            Ok(taken) => {
                meter.charge(taken.cost);
                found = either(found, taken.found);
                last = Some(taken.place);
            }
            Err(why) => break (RunStatus::Stopped(why), None),
        }
        let (ahead, next) = match walk.next_within(store, &part.end) {
            Ok(step) => step,
            Err(why) => break (RunStatus::Stopped(ReportStop::Fault(why)), None),
        };
        walk = ahead;
        item = match next {
            Some(next) => next,
            None => break (RunStatus::Ended, None),
        };
    };
    pass_end(&meter, last, found, end, met)
}

// Whether an item is free, or the limits allow to start it.
fn pays(meter: &Meter, pending: &Pending) -> bool
    ensures paid { result ≡ true → pending.now.hashed ≡ true → MayStart meter.now }
    ensures unpaid { result ≡ false → (pending.now.hashed ≡ true) × (MayStart meter.now → ⊥) }
{
    if pending.hashed() {
        meter.may_start()
    } else {
        true
    }
}

// The end of a pass that met no item.
fn no_pass(last: Option<Place>, end: RunStatus) -> Pass
    ensures last { result.last ≡ last }
    ensures spent { result.spent ≡ 0 }
    ensures files { result.files ≡ 0 }
    ensures found { result.found ≡ false }
    ensures end { result.end ≡ end }
    ensures met { result.met ≡ None }
{
    Pass {
        last,
        spent: 0,
        files: 0,
        found: false,
        end,
        met: None,
    }
}

fn pass_end(
    meter: &Meter,
    last: Option<Place>,
    found: bool,
    end: RunStatus,
    met: Option<Met>,
) -> Pass
    ensures last { result.last ≡ last }
    ensures spent { result.spent ≡ meter.now.spent }
    ensures files { result.files ≡ meter.now.files }
    ensures found { result.found ≡ found }
    ensures end { result.end ≡ end }
    ensures met { result.met ≡ met }
    ensures bound { IsMeter meter.now }
{
    Pass {
        last,
        spent: meter.spent(),
        files: meter.files(),
        found,
        end,
        met,
    }
}
