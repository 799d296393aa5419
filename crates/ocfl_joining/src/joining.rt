//! Joining the closed reports of all parts.
ghost use Rattle.std.specs.Prelude.{◌≡◌, ◌⊎◌, ◌+◌, ◌++◌, Bool, List, [], false, length, true};
ghost use Rattle.std.specs.Prelude.{IsTrue, IfOk, IfErr, IsOkUnless, OnOk, OnErr};
ghost use Rattle.ocfl_tree.specs.Place.{Place as ModelPlace};
ghost use Rattle.ocfl_say.specs.Said.{Grows, HasFailed, HasSaid};
ghost use Rattle.ocfl_joining.specs.{Crash.{MayPut, Passes, Same}, Reports.{Put, SameReports, Seen}};
ghost use Rattle.ocfl_joining.specs.{Joined.{CanPut, IsJoined, IsWordSaid, MayJoin, MayLeaveJoined}};
ghost use Rattle.ocfl_joining.specs.Reports.{begun, with_put};
ghost use Rattle.ocfl_joining.specs.Missing.{are_right, hindering_of, left_of, missing_of};
ghost use Rattle.ocfl_joining.specs.Stops.{AreChanged, IsChangedRightly, IsMissingRightly};
ghost use Rattle.ocfl_joining.specs.Stops.{IsOfPart};
ghost use Rattle.ocfl_joining.specs.Stops.{is_missing, is_output, is_unsaid, unless};
ghost use Rattle.ocfl_joining.specs.declared.joining.JoinStop.TheVariants.{Changed, Memory};
ghost use Rattle.ocfl_joining.specs.Internal.Copying.{AreAllCopied};

use crate::copying::copy_part;
use crate::missing::{find_hindering, find_left, find_missing};
use crate::part::{ClosedPart, MissingPart};
use crate::reports::{PartReports, ReportTrouble};
use ocfl_say::Say;
use ocfl_separators::Separators;
use ocfl_tree::Place;
use std::alloc::{AllocError, Global};

/// The joined report that was put.
#[derive(Debug, Drop)]
pub struct Joined {
    /// Whether the report of each part is whole.
    pub whole: bool,
    /// All places that were left out, part by part.
    pub left: Vec<Place>,
}

/// Why the reports were not joined.
#[derive(Debug, Drop)]
pub enum JoinStop {
    /// These parts cannot be joined. No report was opened.
    Missing(Vec<MissingPart>),
    /// The reports of just these parts, by their numbers from 1, are not the ones that were closed,
    /// or cannot be those of their parts.
    Changed(Vec<usize>),
    /// The report of the part with this number could not be read, or what was read of it could not
    /// be taken into the joined report.
    Part {
        /// The number of the part, from 1.
        part: usize,
        /// Why.
        why: ReportTrouble,
    },
    /// The joined report was not begun, its word was not found, or it was not put.
    Output(ReportTrouble),
    /// The word on the joined report was not said. Nothing was put.
    Unsaid,
    /// Memory was refused.
    Memory,
}

impl From<AllocError> for JoinStop {
    ghost from_gives = { λ _ stop. stop ≡ Memory };

    fn from(_: AllocError) -> JoinStop {
        JoinStop::Memory
    }
}

/// Appends the number of a part, unless its report is right.
fn add_unless(right: bool, part: usize, changed: &mut Vec<usize>) -> Result<(), AllocError>
    ensures { OnOk result (changed.new.items ≡ changed.old.items ++ unless right part) }
{
    if !right {
        changed.push(part)?;
    }
    Ok(())
}

/// Stops at parts whose reports are not right, if there are some.
fn refuse_changed(changed: Vec<usize>) -> Result<(), JoinStop>
    ensures none { OnOk result (changed.items ≡ []) }
    ensures some { IfErr result (λ stop. stop ≡ Changed changed) }
    ensures changed { (separators : List ModelPlace) (s : Seen)
        → AreChanged separators s (length separators + 1) changed.items
        → IfErr result (IsChangedRightly separators s) }
{
    if changed.is_empty() {
        return Ok(());
    }
    Err(JoinStop::Changed(changed))
}

/// Copies the reports of all parts, one after the other. Each is read, also behind one that is not
/// right, so that all of these are named.
fn copy_all<R: PartReports>(
    alloc: Global,
    separators: &Separators,
    reports: &mut R,
) -> Result<(), JoinStop>
    ensures copied { IsTrue R.told → OnOk result
        (AreAllCopied separators.now (length separators.now + 1)
        (R.seen reports.old) (R.seen reports.new)) }
    ensures unput { IsTrue R.told → (R.seen reports.new).put ≡ (R.seen reports.old).put }
    ensures changed { IsTrue R.told → IfErr result
        (IsChangedRightly separators.now (R.seen reports.old)) }
    ensures named { IfErr result (λ stop. is_missing stop ≡ false) }
    ensures inside { IfErr result (λ stop. is_output stop ≡ false) }
    ensures part { IfErr result (IsOfPart separators.now) }
    ensures unsaid { IfErr result (λ stop. is_unsaid stop ≡ false) }
    ensures reports { IsTrue R.told → SameReports (R.seen reports.old) (R.seen reports.new) }
    ensures crash { IsTrue R.lasts
        → Passes R.may_leave R.moment R.left_since Same reports.old reports.new }
{
    let Some(count) = separators.len().checked_add(1) else {
        return Err(JoinStop::Memory);
    };
    let mut changed = Vec::new(alloc);
    for index in 0..count {
        let part = index + 1;
        match copy_part(alloc, separators, part, reports) {
            Ok(right) => add_unless(right, part, &mut changed)?,
            Err(why) => return Err(JoinStop::Part { part, why }),
        }
    }
    refuse_changed(changed)
}

/// Joins the closed reports of all parts that the separators make, in one cycle of this storage
/// root. `parts` has what is known of each of them, from the first on.
///
/// The joined report has the bytes of all of them in their order, each once, and is put once each
/// was found to be as it was closed, with lines of its part alone; else each part is named of whose
/// report that is not so. Each is opened once, and read and checked while it is copied. If the
/// report of a part is not whole, the joined one is put as one that is not whole, and the places
/// that parts left out are given. Before it is put, the word on it is said, if there is one. After
/// `Ok` a crash leaves it; at any moment one leaves all of it or none, and all of it only if its
/// word was said.
pub fn join<R: PartReports, S: Say>(
    alloc: Global,
    separators: &Separators,
    root: &[u8],
    cycle: u64,
    parts: &[Option<ClosedPart>],
    reports: &mut R,
    out: &mut S,
) -> Result<Joined, JoinStop>
    // Of any reports.
    ensures none_hinders { OnOk result
        (hindering_of separators.now root.now cycle parts.now ≡ []) }
    ensures whole { IfOk result (λ joined. joined.whole
        ≡ are_right (missing_of separators.now root.now cycle parts.now)) }
    ensures left { IfOk result (λ joined. joined.left.items ≡ left_of parts.now) }
    ensures missing { IfErr result (λ stop. IsMissingRightly
        (hindering_of separators.now root.now cycle parts.now) stop) }
    ensures unhindered { IfErr result (λ stop. is_output stop ≡ true
        → hindering_of separators.now root.now cycle parts.now ≡ []) }
    ensures unread { IfErr result (λ stop. is_missing stop ≡ true → reports.new ≡ reports.old) }
    ensures silent { IfErr result (λ stop. is_missing stop ≡ true
        → S.said out.new ≡ S.said out.old) }
    ensures part { IfErr result (IsOfPart separators.now) }
    ensures grew { Grows (S.said out.old) (S.said out.new) }
    ensures failed { IfErr result (λ stop. is_unsaid stop ≡ true
        → HasFailed (S.said out.old).failures (S.said out.new).failures) }

    // Of reports that are told.
    ensures durable { IsTrue R.told → OnOk result ((puts : List Put)
        → R.may_leave reports.new puts → puts ≡ (R.seen reports.new).put) }
    ensures joined { IsTrue R.told → IfOk result (λ joined. IsJoined separators.now joined.whole
        (R.seen reports.old) (R.seen reports.new) (S.said out.old) (S.said out.new)) }
    ensures changed { IsTrue R.told → IfErr result
        (IsChangedRightly separators.now (R.seen reports.old)) }
    ensures unput { IsTrue R.told → IfErr result (λ stop. is_output stop ≡ false
        → (R.seen reports.new).put ≡ (R.seen reports.old).put) }
    ensures may { IsTrue R.told → OnErr result (MayJoin separators.now
        (are_right (missing_of separators.now root.now cycle parts.now))
        (R.seen reports.old) (R.seen reports.new) (S.said out.old) (S.said out.new)) }
    ensures reports { IsTrue R.told → SameReports (R.seen reports.old) (R.seen reports.new) }

    // Of reports that tell what a crash leaves.
    ensures crash { IsTrue R.told → IsTrue R.lasts → Passes R.may_leave R.moment R.left_since
        (MayLeaveJoined separators.now
        (are_right (missing_of separators.now root.now cycle parts.now))
        (R.seen reports.old) (S.said out.old) (S.said out.new)) reports.old reports.new }
{
    let missing = find_missing(alloc, separators, root, cycle, parts)?;
    let hindering = find_hindering(alloc, missing.as_slice())?;
    if !hindering.is_empty() {
        return Err(JoinStop::Missing(hindering));
    }
    let left = find_left(alloc, parts)?;
    let whole = is_none(missing.as_slice());
    make_joined(alloc, separators, whole, reports, out)?;
    Ok(Joined { whole, left })
}

/// Whether nothing is wrong with any part.
fn is_none(missing: &[MissingPart]) -> bool
    ensures { result ≡ are_right missing.now }
{
    missing.is_empty()
}

/// Makes the joined report, says the word on it, and puts it.
fn make_joined<R: PartReports, S: Say>(
    alloc: Global,
    separators: &Separators,
    whole: bool,
    reports: &mut R,
    out: &mut S,
) -> Result<(), JoinStop>
    ensures durable { IsTrue R.told → OnOk result ((puts : List Put)
        → R.may_leave reports.new puts → puts ≡ (R.seen reports.new).put) }
    ensures joined { IsTrue R.told → OnOk result (IsJoined separators.now whole
        (R.seen reports.old) (R.seen reports.new) (S.said out.old) (S.said out.new)) }
    ensures changed { IsTrue R.told → IfErr result
        (IsChangedRightly separators.now (R.seen reports.old)) }
    ensures unput { IsTrue R.told → IfErr result (λ stop. is_output stop ≡ false
        → (R.seen reports.new).put ≡ (R.seen reports.old).put) }
    ensures may { IsTrue R.told → OnErr result (MayJoin separators.now whole
        (R.seen reports.old) (R.seen reports.new) (S.said out.old) (S.said out.new)) }
    ensures named { IfErr result (λ stop. is_missing stop ≡ false) }
    ensures part { IfErr result (IsOfPart separators.now) }
    ensures grew { Grows (S.said out.old) (S.said out.new) }
    ensures failed { IfErr result (λ stop. is_unsaid stop ≡ true
        → HasFailed (S.said out.old).failures (S.said out.new).failures) }
    ensures reports { IsTrue R.told → SameReports (R.seen reports.old) (R.seen reports.new) }
    ensures crash { IsTrue R.told → IsTrue R.lasts → Passes R.may_leave R.moment R.left_since
        (MayLeaveJoined separators.now whole (R.seen reports.old)
        (S.said out.old) (S.said out.new)) reports.old reports.new }
{
    copy_anew(alloc, separators, reports)?;
    if let Err(stop) = say_word(whole, reports, out) {
        return Err(stop);
    }
    put(whole, reports)
}

/// Begins the joined report, and copies the reports of all parts.
fn copy_anew<R: PartReports>(
    alloc: Global,
    separators: &Separators,
    reports: &mut R,
) -> Result<(), JoinStop>
    ensures copied { IsTrue R.told → OnOk result
        (AreAllCopied separators.now (length separators.now + 1)
        (begun (R.seen reports.old)) (R.seen reports.new)) }
    ensures changed { IsTrue R.told → IfErr result
        (IsChangedRightly separators.now (R.seen reports.old)) }
    ensures unput { IsTrue R.told → (R.seen reports.new).put ≡ (R.seen reports.old).put }
    ensures named { IfErr result (λ stop. is_missing stop ≡ false) }
    ensures part { IfErr result (IsOfPart separators.now) }
    ensures unsaid { IfErr result (λ stop. is_unsaid stop ≡ false) }
    ensures reports { IsTrue R.told → SameReports (R.seen reports.old) (R.seen reports.new) }
    ensures crash { IsTrue R.lasts
        → Passes R.may_leave R.moment R.left_since Same reports.old reports.new }
{
    if let Err(stop) = begin(reports) {
        return Err(stop);
    }
    copy_all(alloc, separators, reports)
}

/// Begins the joined report.
fn begin<R: PartReports>(reports: &mut R) -> Result<(), JoinStop>
    ensures begun { IsTrue R.told → OnOk result (R.seen reports.new ≡ begun (R.seen reports.old)) }
    ensures unput { IsTrue R.told → (R.seen reports.new).put ≡ (R.seen reports.old).put }
    ensures named { IfErr result (λ stop. is_missing stop ≡ false) }
    ensures unsaid { IfErr result (λ stop. is_unsaid stop ≡ false) }
    ensures other { (separators : List ModelPlace) (s : Seen)
        → IfErr result (IsChangedRightly separators s) }
    ensures part { (separators : List ModelPlace) → IfErr result (IsOfPart separators) }
    ensures reports { IsTrue R.told → SameReports (R.seen reports.old) (R.seen reports.new) }
    ensures crash { IsTrue R.lasts
        → Passes R.may_leave R.moment R.left_since Same reports.old reports.new }
{
    match reports.begin() {
        Ok(()) => Ok(()),
        Err(why) => Err(JoinStop::Output(why)),
    }
}

/// Says the word on the joined report that was made, if there is one.
fn say_word<R: PartReports, S: Say>(
    whole: bool,
    reports: &mut R,
    out: &mut S,
) -> Result<(), JoinStop>
    ensures said { IsTrue R.told → OnOk result
        (IsWordSaid ((R.seen reports.old).word whole (R.seen reports.old).made)
        (S.said out.old) (S.said out.new)) }
    ensures seen { IsTrue R.told → OnOk result (R.seen reports.new ≡ R.seen reports.old) }
    ensures grew { Grows (S.said out.old) (S.said out.new) }
    ensures failed { IfErr result (λ stop. is_unsaid stop ≡ true
        → HasFailed (S.said out.old).failures (S.said out.new).failures) }
    ensures unput { IsTrue R.told → (R.seen reports.new).put ≡ (R.seen reports.old).put }
    ensures named { IfErr result (λ stop. is_missing stop ≡ false) }
    ensures other { (separators : List ModelPlace) (s : Seen)
        → IfErr result (IsChangedRightly separators s) }
    ensures part { (separators : List ModelPlace) → IfErr result (IsOfPart separators) }
    ensures reports { IsTrue R.told → SameReports (R.seen reports.old) (R.seen reports.new) }
    ensures crash { IsTrue R.lasts
        → Passes R.may_leave R.moment R.left_since Same reports.old reports.new }
{
    match reports.find_word(whole) {
        Ok(Some(word)) => speak(out, word.as_slice()),
        Ok(None) => Ok(()),
        Err(why) => Err(JoinStop::Output(why)),
    }
}

/// Says a text, all of it, and commits it.
fn speak<S: Say>(out: &mut S, text: &[u8]) -> Result<(), JoinStop>
    ensures said { OnOk result (HasSaid text.now (S.said out.old) (S.said out.new)) }
    ensures grew { Grows (S.said out.old) (S.said out.new) }
    ensures failed { OnErr result (HasFailed (S.said out.old).failures (S.said out.new).failures) }
    ensures unsaid { IsOkUnless result JoinStop.Unsaid }
{
    match out.say(text) {
        Ok(()) => Ok(()),
        Err(_) => Err(JoinStop::Unsaid),
    }
}

/// Puts the joined report.
fn put<R: PartReports>(whole: bool, reports: &mut R) -> Result<(), JoinStop>
    ensures put { IsTrue R.told → OnOk result
        (R.seen reports.new ≡ with_put whole (R.seen reports.old)) }
    ensures may { IsTrue R.told → OnErr result (((R.seen reports.new).put
        ≡ (R.seen reports.old).put) ⊎ (R.seen reports.new ≡ with_put whole (R.seen reports.old))) }
    ensures durable { IsTrue R.told → OnOk result ((puts : List Put)
        → R.may_leave reports.new puts → puts ≡ (R.seen reports.new).put) }
    ensures why { IfErr result (λ stop. is_output stop ≡ true) }
    ensures named { IfErr result (λ stop. is_missing stop ≡ false) }
    ensures unsaid { IfErr result (λ stop. is_unsaid stop ≡ false) }
    ensures other { (separators : List ModelPlace) (s : Seen)
        → IfErr result (IsChangedRightly separators s) }
    ensures part { (separators : List ModelPlace) → IfErr result (IsOfPart separators) }
    ensures reports { IsTrue R.told → SameReports (R.seen reports.old) (R.seen reports.new) }
    ensures crash { IsTrue R.lasts → Passes R.may_leave R.moment R.left_since
        (MayPut (record { whole = whole; bytes = (R.seen reports.old).made }))
        reports.old reports.new }
{
    match reports.put(whole) {
        Ok(()) => Ok(()),
        Err(why) => Err(JoinStop::Output(why)),
    }
}
