//! A night over a storage root and its state folder.
ghost use Rattle.std.specs.Prelude.{◌≡◌};

mod clock;
mod speaking;

use crate::nights::clock::stop_file;
use crate::nights::speaking::Words;
use ocfl_arguments::NightAsked;
use ocfl_closing::closing::{SaidBy, tell_closings};
use ocfl_digest::Block;
use ocfl_endings::{RunLog, Runs};
use ocfl_files::failing::Failure;
use ocfl_files::reasons::{Reasons, words_on};
use ocfl_files::timing::seconds_now;
use ocfl_folder::FsTree;
use ocfl_given::given::{Found, Given, find_given, program_digest, text_of};
use ocfl_given::planning::{find_plan, last_cost};
use ocfl_journal::ending::{Ended, EndedFolder, end_night, log_ended, log_unbegun, say_if_failed};
use ocfl_journal::noting::{Beside, Noting, open_noting};
use ocfl_journal::{NightLog, SystemLog};
use ocfl_kept::room::Room;
use ocfl_kept::state_dir::Folder;
use ocfl_night::{Site, night};
use ocfl_plan::{Budgeted, Hearing, Telling};
use ocfl_state::StateFolder;
use ocfl_terminal::progress::{Clearing, Reasoned, Sight, Terminals, Watched, clear};
use ocfl_terminal::streams::take_streams;
use ocfl_terms::{NightEnd, Output, Plan};
use ocfl_tree::Tree;
use std::alloc::{AllocError, Global};
use std::cell::Cell;
use std::fs::File;
use std::io::{self, Printer, Write};
use std::rt::{Env, Files};
use std::time::Clock;

/// A night that is to be made.
struct Planned<'a> {
    given: Given<'a>,
    site: Site,
    plan: Plan,
}

/// Written by hand, so that to let it go is one call wherever that happens.
impl Drop for Planned<'_> {
    fn drop(self) {
        let Planned {
            given: _given,
            site: _site,
            plan: _plan,
        } = self;
    }
}

impl<'a> Planned<'a> {
    /// Of what a night is made with, and may do.
    fn of(found: Found<'a>, plan: Plan) -> Planned<'a>
        ensures site { result.site ≡ record {
          path = found.entry.place;
          ends = found.entry.ends;
          further = found.entry.given.asked.now.further;
        } }
        ensures plan { result.plan ≡ plan }
    {
        let Found { given, place, ends } = found;
        let site = Site {
            path: place,
            ends,
            further: given.asked.further,
        };
        Planned { given, site, plan }
    }
}

/// Whether progress is shown, and what the last cycle cost, if that is known.
#[derive(Clone, Copy)]
struct Shown {
    is_shown: bool,
    last_cost: Option<u128>,
}

/// Makes a night over a store, and shows progress.
fn night_over<R, S, T, C, O>(
    rt: &R,
    planned: &Planned<'_>,
    folder: &mut S,
    tree: &mut T,
    clock: &mut C,
    block: &mut Block,
    out: &mut O,
    reasons: &Cell<Reasons>,
    shown: Shown,
) -> NightEnd
where
    R: Sight,
    S: StateFolder,
    T: Tree + Reasoned,
    C: ocfl_terms::Clock,
    O: Output,
{
    let mut tree = Watched::over(rt, tree, shown.is_shown, reasons, shown.last_cost);
    night(
        rt.global(),
        folder,
        &mut tree,
        &planned.site,
        &planned.plan,
        clock,
        block,
        out,
    )
}

/// The words on the last call over the storage root that failed. None if there is no memory for
/// them.
fn why_of(alloc: Global, reasons: &Cell<Reasons>, error: Option<io::Error>) -> Option<String> {
    match error {
        Some(error) => words_on(alloc, reasons, error).ok(),
        None => None,
    }
}

/// Makes the runs of a night over an open folder, a store, a clock and an output.
fn runs_over<R, F, L, T, C, W>(
    rt: &R,
    planned: &Planned<'_>,
    noting: &mut Noting<F, L>,
    beside: Beside<'_, L>,
    tree: &mut T,
    clock: C,
    block: &mut Block,
    out: W,
    is_shown: bool,
) -> Runs
where
    R: Sight,
    F: Folder + StateFolder + Drop,
    L: NightLog + Drop,
    T: Tree + Reasoned,
    C: ocfl_terms::Clock + Drop,
    W: Write + Drop,
{
    let Beside {
        journal,
        speaker,
        spoken_by,
        reasons,
    } = beside;
    let began = planned.given.began;
    let mut clock = Hearing {
        clock,
        listener: RunLog::of(journal, began),
    };
    let words = Words {
        alloc: rt.global(),
        speaker,
        state: planned.given.names().state,
        spoken_by,
    };
    let mut out = Telling::over(words, out);
    let shown = Shown {
        is_shown,
        last_cost: last_cost(noting.began()),
    };
    let folder = &mut noting.folder;
    let end = night_over(
        rt, planned, folder, tree, &mut clock, block, &mut out, &reasons, shown,
    );
    Runs {
        end,
        why: why_of(rt.global(), &reasons, tree.reason_of_last()),
        totals: noting.totals_by(out.into_message().speaker, clock.listener.journal()),
    }
}

/// Makes the runs of a night over an open folder.
fn make_runs<R, F, L>(
    rt: &R,
    planned: &Planned<'_>,
    noting: &mut Noting<F, L>,
    log: L,
    shown_on: Terminals,
) -> Result<Runs, AllocError>
where
    R: Files<File = File> + Env + AllocGlobal + Clock + Print + Eprint,
    F: Folder + StateFolder + Drop,
    L: NightLog + Drop,
{
    let given = &planned.given;
    let mut block = Block::new(rt.alloc())?;
    let stop = stop_file(rt, given.asked.state.as_str())?;
    let mut tree = FsTree::entering(rt, given.root.as_str())?;
    // (made last, so that no other failure lets its many fields go)
    let beside = noting.beside(given.about(), log)?;
    Ok(runs_over(
        rt,
        planned,
        noting,
        beside,
        &mut tree,
        Budgeted::of(given.asked, stop),
        &mut block,
        output_on(rt, shown_on),
        shown_on.error,
    ))
}

/// Standard output, from which progress is removed if both go to one terminal.
fn output_on<'a, R>(rt: &'a R, shown_on: Terminals) -> Clearing<'a, R, Printer<'a, R>>
where
    R: Print + Eprint,
{
    Clearing {
        rt,
        is_shared: shown_on.output,
        out: io::writer(rt),
    }
}

/// Makes the runs of a night over an open folder, and gives what is said of how it ended.
fn run_night<R, F, L>(
    rt: &R,
    planned: &Planned<'_>,
    noting: &mut Noting<F, L>,
    log: L,
    shown_on: Terminals,
) -> Result<(Runs, Option<String>), AllocError>
where
    R: Files<File = File> + Env + AllocGlobal + Clock + Print + Eprint,
    F: Folder + StateFolder + Drop,
    L: NightLog + Drop,
{
    let runs = make_runs(rt, planned, noting, log, shown_on)?;
    if shown_on.error {
        clear(rt);
    }
    let said = runs.said(rt.alloc(), planned.given.names(), noting.reason())?;
    Ok((runs, said))
}

/// Says what the cycles found that were closed, and gives the status; 0 after a night that was
/// refused.
fn tell_closed<R, F>(rt: &R, given: &Given<'_>, folder: &mut EndedFolder<F>, ended: Ended<'_>) -> u8
where
    R: Room + Clock + Print + Eprint,
    F: Folder + Drop,
{
    let Some(closed) = ended.closed else {
        return 0;
    };
    let said_by = SaidBy {
        about: given.about(),
        expected: text_of(&given.asked.expected),
        said: &ended.totals.said,
        before: folder.before,
        closed,
    };
    tell_closings(rt, &mut folder.folder, said_by, &mut io::writer(rt))
}

/// Says and logs how a night ended, and what the cycles found that were closed. Gives its status.
fn close_night<R, F, L>(
    rt: &R,
    given: &Given<'_>,
    noting: Noting<F, L>,
    runs: &Runs,
    said: &Option<String>,
) -> Result<u8, AllocError>
where
    R: Room + Clock + Print + Eprint,
    F: Folder + StateFolder + Drop,
    L: NightLog + Drop,
{
    let ended = runs.ended(said);
    let state = given.asked.state.as_str();
    let mut folder = end_night(rt, rt.global(), state, noting, ended)?;
    let status = runs.status(tell_closed(rt, given, &mut folder, ended));
    let (alloc, now) = (rt.global(), seconds_now(rt));
    Ok(log_ended(rt, alloc, &mut folder, given.about(), ended, status, now))
}

/// Makes a night that is planned, and gives its status.
fn make_planned<R, F, L>(
    rt: &R,
    planned: &Planned<'_>,
    noting: Noting<F, L>,
    log: L,
    shown_on: Terminals,
) -> Result<u8, AllocError>
where
    R: Files<File = File> + Env + AllocGlobal + Clock + Print + Eprint,
    F: Folder + StateFolder + Drop,
    L: NightLog + Drop,
{
    let mut noting = noting;
    let (runs, said) = run_night(rt, planned, &mut noting, log, shown_on)?;
    close_night(rt, &planned.given, noting, &runs, &said)
}

/// Makes a night over an open folder, and gives its status. `log` is where its lines go.
fn make_opened<R, F, L>(
    rt: &R,
    found: Found<'_>,
    noting: Noting<F, L>,
    log: L,
    shown_on: Terminals,
) -> Result<u8, Failure>
where
    R: Files<File = File> + Env + AllocGlobal + Clock + Print + Eprint,
    F: Folder + StateFolder + Drop,
    L: NightLog + Drop,
{
    let plan = find_plan(rt, &found.given, noting.began())?;
    let planned = Planned::of(found, plan);
    Ok(make_planned(rt, &planned, noting, log, shown_on)?)
}

/// Makes a night, and gives its status. It alone knows the types of the folder and its log: what it
/// calls takes any with their traits, which costs far less to prove.
fn make_found<R>(rt: &R, found: Found<'_>, shown_on: Terminals) -> Result<u8, Failure>
where
    R: Files<File = File> + Env + AllocGlobal + Clock + Print + Eprint,
{
    let log = SystemLog::at(rt, found.given.asked.state.as_str())?;
    let noting = open_noting(rt, found.given.about(), found.given.asked.create)?;
    make_opened(rt, found, noting, log, shown_on)
}

/// The same of a night that is asked for.
fn make_asked<R>(rt: &R, asked: &NightAsked, shown_on: Terminals) -> Result<u8, Failure>
where
    R: Files<File = File> + Env + AllocGlobal + Clock + Print + Eprint,
{
    let _streams = take_streams(rt)?;
    let began = seconds_now(rt);
    match find_given(rt, asked, began) {
        Ok(found) => make_found(rt, found, shown_on),
        Err(failure) => {
            let program = program_digest(rt);
            let (state, root) = (asked.state.as_str(), asked.root.as_str());
            log_unbegun(rt, state, root, began, &failure, program.as_str());
            Err(failure)
        }
    }
}

/// Makes a night, and gives the exit status.
pub(crate) fn make_night<R>(rt: &R, asked: &NightAsked, terminals: Terminals) -> u8
where
    R: Files<File = File> + Env + AllocGlobal + Clock + Print + Eprint,
{
    let shown_on = Terminals {
        output: terminals.error && terminals.output,
        error: terminals.error,
    };
    say_if_failed(rt, make_asked(rt, asked, shown_on))
}
