//! The end of a night: what is said of it, and its lines in the log.
ghost use Rattle.std.specs.Prelude.{◌≡◌, ◌++◌, ◌∷◌, [], IfOk, IsSome, MatchResult, OnOk, false};
ghost use Rattle.std.specs.Prelude.{if◌then◌else◌, is_some, map, max, string_bytes, true};
ghost use Rattle.std.specs.Option.{option_map, option_or};
ghost use Rattle.ocfl_files.specs.{Failing.{stopped_status}, Reasons.{words_on}};
ghost use Rattle.ocfl_kept.specs.Standing.{last_closed};
ghost use Rattle.ocfl_journal.specs.Ending.{EndsLogged, ended_row, ending_texts, failed_row};
ghost use Rattle.ocfl_journal.specs.Ending.{left_before, left_earlier_text, left_text, lost_text};
ghost use Rattle.ocfl_journal.specs.Ending.{said_of, text_if_any};

use crate::begun::is_of_root;
use crate::logging::{Account, NightLog, log_night};
use crate::noting::{Noting, Totals};
use ocfl_disk::{FsState, Reason};
use ocfl_files::failing::{Failure, say_failure, say_text};
use ocfl_files::reasons::{Reason as Why, find_in};
use ocfl_files::saying::STOPPED;
use ocfl_files::timing::seconds_now;
use ocfl_kept::names::About;
use ocfl_kept::state_dir::Folder;
use ocfl_messages::{NightRow, Shown};
use ocfl_report::DisplayPlace;
use ocfl_state::StateFolder;
use ocfl_tree::Place;
use std::alloc::{AllocError, Global};
use std::fs::File;
use std::rt::Files;
use std::time::Clock;

/// How a night ended.
#[derive(Clone, Copy)]
pub struct Ended<'e> {
    /// The cycle whose report it closed, 0 for none. `None` if it was refused.
    pub closed: Option<u64>,
    /// Whether its folder's log has it: the log of other nights is left as it is.
    pub is_logged: bool,
    /// How many runs it began.
    pub runs: u64,
    /// Whether some of the report was lost, or cannot be read.
    pub is_lost: bool,
    /// The branches that were left out in it.
    pub left: &'e [Place],
    pub totals: &'e Totals,
    /// What is said of its end, with its line feed. `None` if it ended well.
    pub said: Option<&'e str>,
}

/// The state folder of a night that has ended.
#[derive(Drop)]
pub struct EndedFolder<F: Drop> {
    pub folder: F,
    /// The cycle that was closed last before the night; 0 if none was.
    pub before: u64,
    /// Why a line of a run was not logged.
    lost: Option<Reason>,
}

/// What is said of a branch that was left out, and why it was, if that is known.
fn left_text(alloc: Global, branch: &Place, left: &[Why]) -> Result<String, AllocError>
    ensures { IfOk result
        (λ text. string_bytes text ≡ left_text branch.now (words_on left.now branch.now)) }
{
    match find_in(left, branch) {
        Some(why) => format!(in alloc; "left out: {}: {why}\n", DisplayPlace(branch)),
        None => format!(in alloc; "left out: {}\n", DisplayPlace(branch)),
    }
}

/// What is said of a branch that an earlier night left out of the cycle that is open.
fn left_earlier_text(alloc: Global, branch: &Place) -> Result<String, AllocError>
    ensures { IfOk result (λ text. string_bytes text ≡ left_earlier_text branch.now) }
{
    format!(in alloc; "left out earlier: {}\n", DisplayPlace(branch))
}

/// What is said of a report of which some was lost, or cannot be read.
fn lost_text(alloc: Global, state: &str, broken: u64) -> Result<String, AllocError>
    ensures { IfOk result (λ text. string_bytes text ≡ lost_text state.now broken) }
{
    let state = Shown(state);
    if broken > 0 {
        return format!(in alloc;
            "{broken} line(s) of the report in {state} cannot be read: what they found is not \
             known.\n"
        );
    }
    format!(in alloc;
        "The report in {state} does not have what the checkpoint says. It is not whole any more, \
         and will be closed as an incomplete one.\n"
    )
}

/// Puts which branches an earlier night left out.
fn put_left_earlier(
    alloc: Global,
    earlier: &[Place],
    texts: &mut Vec<String>,
) -> Result<(), AllocError>
    ensures { OnOk result (map string_bytes texts.new.items
        ≡ map string_bytes texts.old.items ++ map left_earlier_text earlier.now) }
{
    for branch in earlier {
        texts.push(left_earlier_text(alloc, branch)?)?;
    }
    Ok(())
}

/// Puts which branches were left out, and why.
fn put_left(
    alloc: Global,
    branches: &[Place],
    left: &[Why],
    texts: &mut Vec<String>,
) -> Result<(), AllocError>
    ensures { OnOk result (map string_bytes texts.new.items ≡ map string_bytes texts.old.items
        ++ map (λ b. left_text b (words_on left.now b)) branches.now) }
{
    for branch in branches {
        texts.push(left_text(alloc, branch, left)?)?;
    }
    Ok(())
}

/// Puts a text, if there is one.
fn put_if_any(alloc: Global, text: Option<&str>, texts: &mut Vec<String>) -> Result<(), AllocError>
    ensures { OnOk result (map string_bytes texts.new.items
        ≡ map string_bytes texts.old.items ++ text_if_any text.entry) }
{
    match text {
        Some(text) => {
            texts.push(String::from_str(alloc, text)?)?;
            Ok(())
        }
        None => Ok(()),
    }
}

/// Puts that some of a report was lost, if so.
fn put_lost(
    alloc: Global,
    state: &str,
    ended: Ended<'_>,
    texts: &mut Vec<String>,
) -> Result<(), AllocError>
    ensures { OnOk result (map string_bytes texts.new.items ≡ map string_bytes texts.old.items
        ++ (if ended.entry.is_lost
        then lost_text state.now ended.entry.totals.now.broken ∷ [] else [])) }
{
    if ended.is_lost {
        texts.push(lost_text(alloc, state, ended.totals.broken)?)?;
    }
    Ok(())
}

/// The branches that earlier nights left out and that are named at the end.
fn left_before<'a>(ended: Ended<'_>, earlier: &'a [Place]) -> &'a [Place]
    ensures { result.now ≡ left_before ended.entry earlier.now }
{
    if ended.closed.is_some() { earlier } else { &[] }
}

/// Puts what is said of how a night ended, in its order.
fn put_ending(
    alloc: Global,
    state: &str,
    ended: Ended<'_>,
    earlier: &[Place],
    left: &[Why],
    texts: &mut Vec<String>,
) -> Result<(), AllocError>
    ensures { OnOk result (map string_bytes texts.new.items ≡ map string_bytes texts.old.items
        ++ ending_texts state.now ended.entry earlier.now left.now) }
{
    put_if_any(alloc, ended.said, texts)?;
    put_left_earlier(alloc, left_before(ended, earlier), texts)?;
    put_left(alloc, ended.left, left, texts)?;
    put_lost(alloc, state, ended, texts)
}

/// Says how a night ended. Without memory for all of that, as much as there is memory for.
fn say_ending<R: Eprint>(
    rt: &R,
    alloc: Global,
    state: &str,
    ended: Ended<'_>,
    earlier: &[Place],
    left: &[Why],
) -> Result<(), AllocError> {
    let mut texts = Vec::new(alloc);
    let put = put_ending(alloc, state, ended, earlier, left, &mut texts);
    for text in &texts {
        say_text(rt, text.as_str());
    }
    put
}

/// Says why a night failed, if it did, and gives its status.
pub fn say_if_failed<R: Eprint>(rt: &R, end: Result<u8, Failure>) -> u8
    ensures { MatchResult end (λ status. result ≡ status) (λ failure. result
        ≡ (if is_some failure.text then failure.status else stopped_status)) }
{
    match end {
        Ok(status) => status,
        Err(failure) => say_failure(rt, &failure),
    }
}

/// Says how a night ended, and gives its state folder.
pub fn end_night<R, F, L>(
    rt: &R,
    alloc: Global,
    state: &str,
    noting: Noting<F, L>,
    ended: Ended<'_>,
) -> Result<EndedFolder<F>, AllocError>
where
    R: Eprint,
    F: Folder + StateFolder + Drop,
    L: NightLog + Drop,
    ensures folder { IfOk result (λ ended. ended.folder ≡ noting.folder.folder) }
    ensures before { IfOk result (λ ended. ended.before ≡ last_closed noting.begun.standing) }
    ensures lost { IfOk result (λ folder. folder.lost
        ≡ option_or noting.folder.observer.journal.lost ended.entry.totals.now.lost) }
{
    say_ending(rt, alloc, state, ended, &noting.begun.left, noting.left())?;
    let before = noting.begun.standing.last_closed();
    let lost = noting.lost().or(ended.totals.lost);
    Ok(EndedFolder {
        folder: noting.into_folder(),
        before,
        lost,
    })
}

/// The row of a night that has ended with this status.
fn ended_row<'a>(about: About<'a>, ended: Ended<'_>, status: u8, now: u64) -> NightRow<'a>
    ensures { result ≡ ended_row about.entry ended.entry status now }
{
    NightRow {
        time: now,
        night: about.began,
        status,
        runs: ended.runs,
        cost: ended.totals.cost,
        seconds: now.saturating_sub(about.began),
        findings: ended.totals.findings,
        left: ended.left.len() as u64,
        program: about.program,
    }
}

/// Appends to the log how a night ended whose status is this, and gives it; 3 at least if the log
/// could not be written. `now` is the time, in seconds since the epoch.
pub fn log_ended<R: Eprint, F: Folder + Drop>(
    rt: &R,
    alloc: Global,
    folder: &mut EndedFolder<F>,
    about: About<'_>,
    ended: Ended<'_>,
    status: u8,
    now: u64,
) -> u8
    ensures logged { ended.entry.is_logged ≡ true → EndsLogged
        (ended_row about.entry ended.entry status now) ended.entry.said
        (F.log folder.old.folder) (F.log folder.new.folder) result }
    ensures lost { ended.entry.is_logged ≡ true → IsSome folder.old.lost
        → result ≡ max status stopped_status }
    ensures unlogged { ended.entry.is_logged ≡ false → result ≡ status }
    ensures same { ended.entry.is_logged ≡ false → folder.new ≡ folder.old }
{
    if !ended.is_logged {
        return status;
    }
    let account = Account {
        row: ended_row(about, ended, status, now),
        said: ended.said,
    };
    let state = about.names.state;
    log_night(rt, alloc, &mut folder.folder, state, account, folder.lost)
}

/// The row of a night that failed before its folder was opened.
fn failed_row(began: u64, now: u64, program: &str) -> NightRow<'_>
    ensures { result ≡ failed_row began now program.entry }
{
    NightRow {
        time: now,
        night: began,
        status: STOPPED,
        runs: 0,
        cost: 0,
        seconds: now.saturating_sub(began),
        findings: 0,
        left: 0,
        program,
    }
}

/// What is logged of a night that failed before its folder was opened: nothing of one whose command
/// line could not be followed, or for which there was no memory.
fn said_of(failure: &Failure) -> Option<&str>
    ensures { option_map (λ s. s.now) result ≡ said_of failure.now }
{
    match &failure.text {
        Some(said) if failure.status == STOPPED => Some(said.as_str()),
        _ => None,
    }
}

/// Logs a night that failed before its folder was opened, if nights over this root were made in
/// that folder. What cannot be logged is left out: the failure itself is said. `program` is the
/// SHA-256 of the program, in hexadecimal digits; empty if it is not known.
pub fn log_unbegun<R>(rt: &R, state: &str, root: &str, began: u64, failure: &Failure, program: &str)
where
    R: Files<File = File> + AllocGlobal + Clock + Eprint,
{
    let Some(said) = said_of(failure) else {
        return;
    };
    if let Ok(mut folder) = FsState::open(rt, state, false) {
        if is_of_root(rt, &mut folder, root) {
            let account = Account {
                row: failed_row(began, seconds_now(rt), program),
                said: Some(said),
            };
            log_night(rt, rt.alloc(), &mut folder, state, account, None);
        }
    }
}
