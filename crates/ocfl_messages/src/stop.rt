//! Why a night stopped: the lines that say so.
ghost use Rattle.std.specs.Prelude.{◌≡◌, IfOk, Option, option_map, string_bytes};
ghost use Rattle.ocfl_messages.specs.Stop.{brackets_text, next_text, stop_text as text_of_stop, why_text};

use crate::night::whose;
use crate::shown::Shown;
use ocfl_report::DisplayPlace;
use ocfl_tree::Place;
use std::alloc::{AllocError, Global};

/// Why a night stopped.
#[derive(Clone, Copy)]
pub enum StopMessage<'a> {
    /// A place that could not be read, and that could not be left out.
    At(&'a Place),
    /// The output took no more.
    Output,
    /// The state folder failed.
    State,
    /// Memory was refused.
    Memory,
}

/// The system's words on a failed call, in brackets; nothing without them.
fn brackets(alloc: Global, words: Option<&str>) -> Result<String, AllocError>
    ensures { IfOk result
        (λ text. string_bytes text ≡ brackets_text (option_map (λ w. w.now) words.entry)) }
{
    match words {
        Some(words) => format!(in alloc; " ({})", Shown(words)),
        None => Ok(String::new(alloc)),
    }
}

/// What stopped the night.
fn why(alloc: Global, stop: StopMessage<'_>, state: &str) -> Result<String, AllocError>
    ensures { IfOk result (λ text. string_bytes text ≡ why_text stop.entry state.now) }
{
    match stop {
        StopMessage::At(place) => format!(in alloc; "stopped at {}", DisplayPlace(place)),
        StopMessage::Output => String::from_str(alloc, "output failed"),
        StopMessage::State => format!(in alloc; "{} failed", Shown(state)),
        StopMessage::Memory => String::from_str(alloc, "out of memory"),
    }
}

/// What a night says that stopped: over which root, or part of it, why, with the system's words on
/// the call that failed, and what the next night does.
pub fn stop_text(
    alloc: Global,
    stop: StopMessage<'_>,
    words: Option<&str>,
    part: Option<u64>,
    root: &str,
    state: &str,
) -> Result<String, AllocError>
    ensures { IfOk result (λ text. string_bytes text
        ≡ text_of_stop stop.entry (option_map (λ w. w.now) words.entry) part root.now state.now) }
{
    let whose = whose(alloc, part, root)?;
    let why = why(alloc, stop, state)?;
    let words = brackets(alloc, words)?;
    let next = next(stop);
    format!(in alloc; "The night of {whose} stopped: {why}{words}{next}")
}

/// What the next night does.
fn next(stop: StopMessage<'_>) -> &'static str
    ensures { result.now ≡ next_text stop.entry }
{
    match stop {
        StopMessage::At(_) => ". The next one tries that place again.\n",
        StopMessage::Output | StopMessage::State | StopMessage::Memory => {
            ". The next one continues from the checkpoint.\n"
        }
    }
}
