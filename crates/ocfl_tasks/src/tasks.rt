//! Doing a deed over a folder: its store, its cursor's file, its progress.
ghost use Rattle.std.specs.Prelude.{◌≡◌, ◌⊎◌, ◌≤◌, IsNone, MatchOption, None, Ok, codes, false, string_bytes};
ghost use Rattle.ocfl_scrub.specs.Noting.{IsStatus};
ghost use Rattle.ocfl_tasks.specs.Calls.{words_on_path};
ghost use Rattle.ocfl_tasks.specs.Tasks.{is_long, shown_on};

use crate::calls::SystemCalls;
use crate::doing::{TaskEnd, perform_and_store, refuse_inside, say_end};
use crate::showing::show_file;
use ocfl_arguments::Task;
use ocfl_deed::Deed;
use ocfl_digest::Block;
use ocfl_files::files::lies_inside;
use ocfl_files::reasons::{Reasons, words_on};
use ocfl_folder::FsTree;
use ocfl_scope::Scope;
use ocfl_scrub::Note;
use ocfl_terminal::cursors::last_cost;
use ocfl_terminal::paths::why_no_place;
use ocfl_terminal::progress::{Clearing, Reasoned, Terminals, Watched, clear};
use ocfl_terminal::scope::{read_scope, say_no_scope};
use ocfl_tree::Tree;
use std::alloc::Global;
use std::cell::Cell;
use std::io;
use std::rt::{Env, Files};
use std::time::Clock;

/// Whether a deed reads more than a file or a place.
fn is_long(deed: &Deed) -> bool
    ensures { result ≡ is_long deed.now }
{
    match deed {
        Deed::Audit(_) | Deed::Run(_, _) | Deed::Cycle(_, _, _) => true,
        Deed::Check(_, _) | Deed::Show => false,
    }
}

/// Which terminals show progress and share it with the report: none if no progress is shown.
fn shown_on(task: &Task, terminals: Terminals) -> Terminals
    ensures { result ≡ shown_on task.now terminals }
{
    let is_long = is_long(&task.deed);
    let error = is_long && !task.quiet && terminals.error;
    let output = error && terminals.output;
    Terminals { output, error }
}

/// The folder that the command line names, and the current one if it names none.
fn root_of(task: &Task) -> &str
    ensures { MatchOption task.now.root (result.now ≡ codes ".")
        (λ root. result.now ≡ string_bytes root) }
{
    match &task.root {
        Some(root) => root.as_str(),
        None => ".",
    }
}

/// Why the path of a check names no place; nothing for another deed.
fn words_on_path(deed: &Deed) -> &'static str
    ensures { result.now ≡ words_on_path deed.now }
{
    match deed {
        Deed::Check(_, path) => why_no_place(path.as_str()),
        _ => "",
    }
}

/// The words on the last call over a folder that failed. `None` if none did, or if there is no
/// memory for them.
pub fn reason_of(alloc: Global, reasons: &Cell<Reasons>, error: Option<io::Error>) -> Option<String>
    ensures { IsNone error → IsNone result }
{
    match error {
        Some(error) => words_on(alloc, reasons, error).ok(),
        None => None,
    }
}

/// Does a task over a store, and shows progress.
fn do_over<R, T>(
    rt: &R,
    task: &Task,
    scope: &Scope,
    shown_on: Terminals,
    store: &mut T,
    reasons: &Cell<Reasons>,
    block: &mut Block,
) -> TaskEnd
where
    R: Files + AllocGlobal + Clock + Print + Eprint,
    T: Tree + Reasoned,
    ensures { IsStatus result.status result.note }
{
    let last_cost = if shown_on.error {
        last_cost(rt, task, scope)
    } else {
        None
    };
    let mut store = Watched::over(rt, store, shown_on.error, reasons, last_cost);
    let mut out = Clearing {
        rt,
        is_shared: shown_on.output,
        out: io::writer(rt),
    };
    let mut calls = SystemCalls { rt };
    perform_and_store(
        rt.alloc(),
        &mut calls,
        task,
        scope,
        &mut store,
        block,
        &mut out,
    )
}

/// Does a task over its folder. Gives what it ends with, and why the last call over the folder
/// failed that did.
fn do_over_folder<R>(
    rt: &R,
    task: &Task,
    scope: &Scope,
    shown_on: Terminals,
) -> (TaskEnd, Option<String>)
where
    R: Files + Env + AllocGlobal + Clock + Print + Eprint,
    ensures { IsStatus result.0.status result.0.note }
{
    let Ok(mut block) = Block::new(rt.alloc()) else {
        return (TaskEnd::stopped(Note::OutOfMemory), None);
    };
    let Ok(mut folder) = FsTree::entering(rt, root_of(task)) else {
        return (TaskEnd::stopped(Note::OutOfMemory), None);
    };
    let reasons = Cell::new(Reasons::new(rt.alloc()));
    let end = do_over(rt, task, scope, shown_on, &mut folder, &reasons, &mut block);
    (end, reason_of(rt.alloc(), &reasons, folder.reason()))
}

/// Does a task, reports on standard error, and gives the status.
#[tactic(auto, using(crate::proofs::Statuses::status_within))]
fn do_and_report<R>(rt: &R, task: &Task, scope: &Scope, shown_on: Terminals) -> u8
where
    R: Files + Env + AllocGlobal + Clock + Print + Eprint,
    ensures { result ≤ 4 }
{
    let (end, why) = do_over_folder(rt, task, scope, shown_on);
    if shown_on.error {
        clear(rt);
    }
    let mut calls = SystemCalls { rt };
    say_end(
        &mut calls,
        &task.deed,
        &end.note,
        why.as_deref(),
        words_on_path(&task.deed),
    );
    end.status
}

/// Whether the file of a cursor lies in the storage root, if a task has both.
fn cursor_lies_inside<R>(rt: &R, task: &Task) -> io::Result<bool>
where
    R: Files + AllocGlobal,
    ensures { (task.now.file ≡ None) ⊎ (task.now.root ≡ None) → result ≡ Ok false }
{
    match (&task.file, &task.root) {
        (Some(file), Some(root)) => lies_inside(rt, file.as_str(), root.as_str()),
        _ => Ok(false),
    }
}

/// Does what a task asks for, and gives the exit status.
#[tactic(auto, using(crate::proofs::Statuses::stop_within, crate::proofs::Statuses::inside_within))]
pub fn do_task<R>(rt: &R, task: &Task, terminals: Terminals) -> u8
where
    R: Files + Env + AllocGlobal + Clock + Print + Eprint,
    ensures { result ≤ 4 }
{
    if let (Deed::Show, Some(file)) = (&task.deed, &task.file) {
        return show_file(rt, file.as_str());
    }
    let mut calls = SystemCalls { rt };
    if let Some(status) = refuse_inside(&mut calls, cursor_lies_inside(rt, task)) {
        return status;
    }
    match read_scope(rt, &task.chosen) {
        Ok(scope) => do_and_report(rt, task, &scope, shown_on(task, terminals)),
        Err(stop) => say_no_scope(rt, &task.chosen, &stop),
    }
}
