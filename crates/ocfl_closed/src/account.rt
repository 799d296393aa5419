//! What was found of a closed cycle, and what is said of it.
ghost use Rattle.std.specs.Prelude.{◌≡◌, ◌||◌, List, None, false, true, IfOk, length, string_bytes};
ghost use Rattle.ocfl_report.specs.Line.{Line as ModelLine};
ghost use Rattle.ocfl_messages.specs.Tally.{IsTally};
ghost use Rattle.ocfl_words.specs.Counted.{AreCounted, Counted, shown_of};
ghost use Rattle.ocfl_closed.specs.Words.{AreCountsOf, AreIn, HasText, IsClosing, News, beside_of};
ghost use Rattle.ocfl_closed.specs.Words.{is_alone as is_alone_by};
ghost use Rattle.ocfl_closed.specs.Words.{gone_report_text, missing_text as missing_words, number_of};
ghost use Rattle.ocfl_closed.specs.Words.{replaced_report_text};
ghost use Rattle.ocfl_closed.specs.Words.{whole_missing_text as whole_missing_words, why_text};

use crate::words::SaidWith;
use ocfl_accounts::{ClosedCycle, Pair};
use ocfl_messages::{Closing, Counts, Gone, Shown, closing_text};
use ocfl_state::Checkpoint;
use ocfl_tree::Place;
use ocfl_words::{Changes, Findings};
use std::alloc::{AllocError, Global};

/// The paths of the files of a closed cycle.
pub struct Paths {
    /// That of its report.
    pub report: String,
    /// That of the report that it is compared with; empty without one.
    pub earlier: String,
    /// That of the list of what is gone.
    pub list: String,
}

/// Written by hand, so that to let it go is one call wherever that happens.
impl Drop for Paths {
    fn drop(self) {
        let Paths {
            report: _report,
            earlier: _earlier,
            list: _list,
        } = self;
    }
}

/// What the runs of a closed cycle made. All of it is 0 if that is not known.
#[derive(Clone, Copy, Debug, Default)]
pub struct CycleMade {
    /// How many lines its report had when it was closed.
    pub lines: u64,
    pub runs: u64,
    /// How many bytes of files they read, and how many files.
    pub bytes: u64,
    pub files: u64,
}

impl CycleMade {
    ghost use Rattle.ocfl_closed.specs.Words.{IsMade};

    /// By the checkpoint that closed the cycle, if there is one.
    pub(crate) fn by(kept: &Option<Checkpoint>) -> CycleMade
        ensures { IsMade result kept.now }
    {
        let Some(checkpoint) = kept else {
            return CycleMade {
                lines: 0,
                runs: 0,
                bytes: 0,
                files: 0,
            };
        };
        let cursor = &checkpoint.cursor;
        let (spent, files) = (cursor.spent(), cursor.files());
        CycleMade {
            lines: checkpoint.report.lines,
            runs: cursor.runs(),
            bytes: u64::try_from(spent.saturating_sub(files)).unwrap_or(u64::MAX),
            files: u64::try_from(files).unwrap_or(u64::MAX),
        }
    }
}

/// What was found of a closed cycle, in its parts.
pub struct Account {
    /// Why what is new or gone is not known, or not all of it. Empty if it is known.
    pub why: String,
    /// What the runs of the cycle made.
    pub made: CycleMade,
    pub changes: Changes,
    /// The first of what is gone.
    pub gone: Vec<Gone>,
    /// What the report has of findings that are new.
    pub findings: Findings,
    /// Objects that are back.
    pub back: Vec<Place>,
    /// How many objects must be there; 0 if they were not looked for.
    pub listed: u64,
    pub paths: Paths,
}

/// Written by hand, so that to let it go is one call wherever that happens.
impl Drop for Account {
    fn drop(self) {
        let Account {
            why: _why,
            made: _made,
            changes: _changes,
            gone: _gone,
            findings: _findings,
            back: _back,
            listed: _listed,
            paths: _paths,
        } = self;
    }
}

/// The number of a cycle; 0 of none.
fn cycle_of(cycle: &Option<ClosedCycle>) -> u64
    ensures { result ≡ number_of cycle.now }
{
    match cycle {
        Some(cycle) => cycle.cycle(),
        None => 0,
    }
}

/// The number of the cycle that one is compared with; 0 if it is compared with none.
pub fn compared(pair: &Pair) -> u64
    ensures { result ≡ number_of pair.now.before }
{
    cycle_of(&pair.before)
}

/// The number of the last whole cycle, if one is compared with that too; else 0.
pub fn compared_whole(pair: &Pair) -> u64
    ensures { result ≡ number_of pair.now.whole }
{
    cycle_of(&pair.whole)
}

/// What the report counts. That of a part is not said, and that of lost lines is not known.
fn counts_of(pair: &Pair, is_part: bool, findings: &Findings) -> Option<Counts>
    ensures none { (pair.now.closed.lost || is_part) ≡ true → result ≡ None }
    ensures counts { (ls : List ModelLine) → (pair.now.closed.lost || is_part) ≡ false
        → IsTally findings.now.tally ls → AreCountsOf result ls }
{
    if pair.closed.is_lost() || is_part {
        return None;
    }
    Some(findings.tally.counts())
}

/// How many places there are.
pub fn count_of(places: &[Place]) -> u64
    ensures { result ≡ length places.now }
{
    places.len() as u64
}

/// What a closing has of a closed cycle of which this was found.
fn closing_of<'a>(with: &SaidWith<'a>, pair: &Pair, account: &'a Account) -> Closing<'a>
    ensures { (w : Counted) (n : News) → AreCounted account.now.changes w
        → account.now.gone.items ≡ shown_of w → AreIn account.now.findings n
        → string_bytes account.now.why ≡ why_text with.entry.now.state.now pair.now
        → IsClosing (beside_of with.entry.now account.now.made.runs account.now.back.items)
        pair.now w n result }
{
    let changes = &account.changes;
    Closing {
        root: with.root,
        cycle: pair.closed.cycle(),
        before: compared(pair),
        counts: counts_of(pair, with.is_part, &account.findings),
        runs: account.made.runs,
        whole: pair.closed.is_whole(),
        report: account.paths.report.as_str(),
        earlier: account.paths.earlier.as_str(),
        list: account.paths.list.as_str(),
        uncompared: account.why.as_str(),
        appeared: &account.findings.gravest,
        appeared_count: changes.appeared_count,
        said: account.findings.said,
        repaired: changes.repaired.as_slice(),
        repaired_count: changes.repaired_count,
        back: account.back.as_slice(),
        back_count: count_of(&account.back),
        gone: account.gone.as_slice(),
        gone_count: changes.gone_count(),
        unlooked: changes.unlooked,
        moved: changes.moved,
    }
}

/// What is said of a closed cycle of which this was found.
pub(crate) fn text_of(
    alloc: Global,
    with: &SaidWith<'_>,
    pair: &Pair,
    account: &Account,
) -> Result<Vec<u8>, AllocError>
    ensures { (w : Counted) (n : News) → AreCounted account.now.changes w
        → account.now.gone.items ≡ shown_of w → AreIn account.now.findings n
        → string_bytes account.now.why ≡ why_text with.now.state.now pair.now
        → IfOk result (λ text. HasText
        (beside_of with.now account.now.made.runs account.now.back.items)
        pair.now w n text.items) }
{
    let closing = closing_of(with, pair, account);
    let text = closing_text(alloc, &closing)?;
    Ok(text)
}

/// Why a cycle was not compared with a report that is not there.
fn missing_text(alloc: Global, state: &str, missing: u64, before: u64) -> Result<String, AllocError>
    ensures { IfOk result (λ text. string_bytes text ≡ missing_words state.now missing before) }
{
    if before == 0 {
        return gone_text(alloc, state, missing);
    }
    replaced_text(alloc, state, missing, before)
}

fn gone_text(alloc: Global, state: &str, missing: u64) -> Result<String, AllocError>
    ensures { IfOk result (λ text. string_bytes text ≡ gone_report_text state.now missing) }
{
    let state = Shown(state);
    format!(in alloc;
        "the report of cycle {missing} is not in {state}/reports as it was closed: was it \
         compressed, moved or removed?"
    )
}

fn replaced_text(
    alloc: Global,
    state: &str,
    missing: u64,
    before: u64,
) -> Result<String, AllocError>
    ensures { IfOk result
        (λ text. string_bytes text ≡ replaced_report_text state.now missing before) }
{
    let state = Shown(state);
    format!(in alloc;
        "the report of cycle {missing} is not in {state}/reports as it was closed, so this is \
         since cycle {before}"
    )
}

/// Why a cycle was not compared with a whole report that is not there.
fn whole_missing_text(
    alloc: Global,
    state: &str,
    before: u64,
    missing: u64,
) -> Result<String, AllocError>
    ensures { IfOk result
        (λ text. string_bytes text ≡ whole_missing_words state.now before missing) }
{
    let state = Shown(state);
    format!(in alloc;
        "cycle {before} left places out, and the report of cycle {missing} is not in \
         {state}/reports as it was closed"
    )
}

/// Whether a cycle is compared with none, though there were others before it.
fn is_alone(pair: &Pair) -> bool
    ensures { result ≡ is_alone_by pair.now }
{
    compared(pair) == 0 && pair.closed.cycle() > 1
}

/// Why what is new or gone in a cycle is not known, or not all of it. Empty if it is.
pub(crate) fn why_not(alloc: Global, state: &str, pair: &Pair) -> Result<String, AllocError>
    ensures { IfOk result (λ text. string_bytes text ≡ why_text state.now pair.now) }
{
    if pair.closed.is_lost() {
        return String::from_str(alloc, "lines of this report were lost");
    }
    if let Some(missing) = pair.missing {
        return missing_text(alloc, state, missing, compared(pair));
    }
    if is_alone(pair) {
        return String::from_str(alloc, "lines of each report before it were lost");
    }
    if let Some(missing) = pair.whole_missing {
        return whole_missing_text(alloc, state, compared(pair), missing);
    }
    Ok(String::new(alloc))
}
