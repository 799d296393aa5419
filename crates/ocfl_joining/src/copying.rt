//! Copying the report of a part, and checking it as it is read.
ghost use Rattle.std.specs.Prelude.{◌≡◌, ◌≢◌, ◌↔◌, ℕ, List, [], Option, false, true, IsTrue};
ghost use Rattle.std.specs.Prelude.{IfOk, OnOk, option_map};
ghost use Rattle.ocfl_separators.specs.Splits.{IsNotLess};
ghost use Rattle.ocfl_state.specs.Pieces.{Carries};
ghost use Rattle.ocfl_joining.specs.{Crash.{Passes, Same}, Reports.{SameReports}};
ghost use Rattle.ocfl_joining.specs.Joined.{IsAsClosed, IsBelow, IsFrom, IsReportIn, IsRight};
ghost use Rattle.ocfl_joining.specs.Internal.Copying.{AreCopied, CopiesLine, HasCopied};
ghost use Rattle.ocfl_joining.specs.Internal.Copying.{IsCopy, IsFit, IsFitLine, IsFitPlace};
ghost use Rattle.ocfl_joining.specs.declared.copying.PartStop.TheVariants.{Changed};
ghost use Rattle.ocfl_report.specs.Line.{Line as ModelLine};

use crate::reports::{KeptMark, PartReports, ReportTrouble};
use ocfl_report::{TextStop, read_line};
use ocfl_separators::Separators;
use ocfl_state::ReportDigests;
use ocfl_tree::Place;
use std::alloc::Global;

/// Why the report of a part was not copied.
#[derive(Clone, Copy, Debug, PartialEq, Eq)]
pub(crate) enum PartStop {
    /// It is not the one that was closed, or cannot be that of its part.
    Changed,
    /// It could not be read, or what was read could not be written.
    Failed,
    /// Memory was refused.
    Memory,
}

/// What a call over reports that was not done means for the part.
impl From<ReportTrouble> for PartStop {
    ghost from_gives = { λ _ stop. stop ≢ Changed };

    fn from(trouble: ReportTrouble) -> PartStop {
        match trouble {
            ReportTrouble::Failed => PartStop::Failed,
            ReportTrouble::Memory => PartStop::Memory,
        }
    }
}

/// What was copied of a report.
#[derive(Drop)]
pub(crate) struct Copied {
    /// The place of the last line.
    pub(crate) last: Option<Place>,
    /// How many bytes.
    pub(crate) count: u64,
    pub(crate) digests: ReportDigests,
}

/// Nothing yet.
fn nothing() -> Copied
    ensures { (from below : Option (List (List ℕ))) → HasCopied from below [] result }
{
    Copied {
        last: None,
        count: 0,
        digests: ReportDigests::new(),
    }
}

/// Whether a place is not less than where a part begins.
fn is_from(from: Option<&Place>, place: &Place) -> bool
    ensures { IsTrue result ↔ IsFrom (option_map (λ p. p.now) from.entry) place.now }
{
    match from {
        Some(from) => !place.cmp(from).is_lt(),
        None => true,
    }
}

/// Whether a place is less than where a part ends.
fn is_below(below: Option<&Place>, place: &Place) -> bool
    ensures { IsTrue result ↔ IsBelow (option_map (λ p. p.now) below.entry) place.now }
{
    match below {
        Some(below) => place.cmp(below).is_lt(),
        None => true,
    }
}

/// Whether a place is not less than the last one.
fn is_next(last: &Option<Place>, place: &Place) -> bool
    ensures { IsTrue result ↔ IsNotLess last.now place.now }
{
    match last {
        Some(last) => !last.cmp(place).is_gt(),
        None => true,
    }
}

/// Whether a line at a place may follow, in a part with these ends.
fn is_fit(from: Option<&Place>, below: Option<&Place>, last: &Option<Place>, place: &Place) -> bool
    ensures { IsTrue result ↔ IsFitPlace (option_map (λ p. p.now) from.entry)
        (option_map (λ p. p.now) below.entry) last.now place.now }
{
    if !is_next(last, place) {
        return false;
    }
    if !is_from(from, place) {
        return false;
    }
    is_below(below, place)
}

/// The place of the line that has this text, if it may follow in a part with these ends.
fn fit_line(
    alloc: Global,
    from: Option<&Place>,
    below: Option<&Place>,
    last: &Option<Place>,
    text: &[u8],
) -> Result<Place, PartStop>
    ensures fit { IfOk result (IsFit (option_map (λ p. p.now) from.entry)
        (option_map (λ p. p.now) below.entry) last.now text.now) }
    ensures bad { result ≡ Err PartStop.Changed → (line : ModelLine)
        → IsFitLine (option_map (λ p. p.now) from.entry) (option_map (λ p. p.now) below.entry)
        last.now text.now line → ⊥ }
{
    let line = match read_line(alloc, text) {
        Ok(line) => line,
        Err(TextStop::Bad) => return Err(PartStop::Changed),
        Err(TextStop::Memory) => return Err(PartStop::Memory),
    };
    if is_fit(from, below, last, &line.place) {
        Ok(line.place)
    } else {
        Err(PartStop::Changed)
    }
}

/// What was copied, with one more line that may follow in a part with these ends.
fn copy_text(
    alloc: Global,
    from: Option<&Place>,
    below: Option<&Place>,
    copied: Copied,
    text: &[u8],
) -> Result<Copied, PartStop>
    ensures copied { IfOk result (CopiesLine (option_map (λ p. p.now) from.entry)
        (option_map (λ p. p.now) below.entry) text.now copied) }
    ensures bad { result ≡ Err PartStop.Changed → (line : ModelLine)
        → IsFitLine (option_map (λ p. p.now) from.entry) (option_map (λ p. p.now) below.entry)
        copied.last text.now line → ⊥ }
{
    let place = fit_line(alloc, from, below, &copied.last, text)?;
    let Some(count) = copied.count.checked_add(text.len() as u64) else {
        return Err(PartStop::Failed);
    };
    let mut digests = copied.digests;
    digests.push(text);
    Ok(Copied {
        last: Some(place),
        count,
        digests,
    })
}

/// Copies all lines of the report that is open, which is of a part with these ends.
#[tactic(auto, using(crate::proofs::Passing::nothing_passes, crate::proofs::Passing::two_same, crate::proofs::Stays::same_reports, crate::proofs::Stays::reports_on))]
fn copy_lines<R: PartReports>(
    alloc: Global,
    from: Option<&Place>,
    below: Option<&Place>,
    reports: &mut R,
) -> Result<Copied, PartStop>
    ensures copied { IsTrue R.told → IfOk result (AreCopied (option_map (λ p. p.now) from.entry)
        (option_map (λ p. p.now) below.entry) (R.seen reports.old) (R.seen reports.new)) }
    ensures bad { IsTrue R.told → result ≡ Err PartStop.Changed
        → IsReportIn (option_map (λ p. p.now) from.entry) (option_map (λ p. p.now) below.entry)
        (R.seen reports.old).left → ⊥ }
    ensures unput { IsTrue R.told → (R.seen reports.new).put ≡ (R.seen reports.old).put }
    ensures reports { IsTrue R.told → SameReports (R.seen reports.old) (R.seen reports.new) }
    ensures crash { IsTrue R.lasts
        → Passes R.may_leave R.moment R.left_since Same reports.old reports.new }
{
    let mut text = Vec::new(alloc);
    let mut copied = nothing();
    for _ in 0..u64::MAX {
        if !reports.read_line(&mut text)? {
            return Ok(copied);
        }
        copied = copy_text(alloc, from, below, copied, text.as_slice())?;
        reports.give(text.as_slice())?;
    }
    Err(PartStop::Failed)
}

/// Whether what was copied is a report as it was closed, as far as that was kept.
fn is_as_closed(kept: KeptMark, copied: &Copied) -> bool
    ensures closed { IsTrue result → (report : List ℕ) → Carries copied.now.digests report
        → IsAsClosed kept report }
    ensures other { result ≡ false → (report : List ℕ) → Carries copied.now.digests report
        → IsAsClosed kept report → ⊥ }
{
    match kept {
        KeptMark::NotKept => true,
        KeptMark::Kept(mark) => copied.digests.summary() == mark,
        KeptMark::Damaged => false,
    }
}

/// Copies the report of the part with this number, if it is the one that was closed.
#[tactic(auto, using(crate::proofs::Passing::nothing_passes, crate::proofs::Passing::two_same, crate::proofs::Stays::same_reports, crate::proofs::Stays::reports_on))]
fn copy_as_closed<R: PartReports>(
    alloc: Global,
    separators: &Separators,
    number: usize,
    reports: &mut R,
) -> Result<(), PartStop>
    ensures right { IsTrue R.told → OnOk result
        (IsRight separators.now (R.seen reports.old) number) }
    ensures copied { IsTrue R.told → OnOk result
        (IsCopy number (R.seen reports.old) (R.seen reports.new)) }
    ensures bad { IsTrue R.told → result ≡ Err PartStop.Changed
        → IsRight separators.now (R.seen reports.old) number → ⊥ }
    ensures unput { IsTrue R.told → (R.seen reports.new).put ≡ (R.seen reports.old).put }
    ensures reports { IsTrue R.told → SameReports (R.seen reports.old) (R.seen reports.new) }
    ensures crash { IsTrue R.lasts
        → Passes R.may_leave R.moment R.left_since Same reports.old reports.new }
{
    let Some((from, below)) = separators.ends(number) else {
        return Err(PartStop::Failed);
    };
    let kept = reports.open(number)?;
    let copied = copy_lines(alloc, from, below, reports)?;
    if is_as_closed(kept, &copied) {
        Ok(())
    } else {
        Err(PartStop::Changed)
    }
}

/// Copies the report of the part with this number. Whether it is right: the one that was closed,
/// with the lines of a report that are all in the part.
pub(crate) fn copy_part<R: PartReports>(
    alloc: Global,
    separators: &Separators,
    number: usize,
    reports: &mut R,
) -> Result<bool, ReportTrouble>
    ensures right { IsTrue R.told → IfOk result (λ right.
        right ≡ true → IsRight separators.now (R.seen reports.old) number) }
    ensures copied { IsTrue R.told → IfOk result (λ right.
        right ≡ true → IsCopy number (R.seen reports.old) (R.seen reports.new)) }
    ensures changed { IsTrue R.told → IfOk result (λ right.
        right ≡ false → IsRight separators.now (R.seen reports.old) number → ⊥) }
    ensures unput { IsTrue R.told → (R.seen reports.new).put ≡ (R.seen reports.old).put }
    ensures reports { IsTrue R.told → SameReports (R.seen reports.old) (R.seen reports.new) }
    ensures crash { IsTrue R.lasts
        → Passes R.may_leave R.moment R.left_since Same reports.old reports.new }
{
    match copy_as_closed(alloc, separators, number, reports) {
        Ok(()) => Ok(true),
        Err(PartStop::Changed) => Ok(false),
        Err(PartStop::Failed) => Err(ReportTrouble::Failed),
        Err(PartStop::Memory) => Err(ReportTrouble::Memory),
    }
}
