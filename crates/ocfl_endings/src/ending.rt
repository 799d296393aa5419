//! What is said of a night that has ended.

ghost use Rattle.std.specs.Prelude.{◌≡◌, IfOk, Some, option_map, string_bytes};
ghost use Rattle.ocfl_endings.specs.Ending.{bound_path, ending_line, line_of_fault, line_of_refusal, line_of_stop, message_of, message_on, stopped_line};

use ocfl_cursor::Refused;
use ocfl_item::Fault;
use ocfl_kept::names::Names;
use ocfl_messages::{RefusalMessage, StopMessage, refusal_text, stop_text};
use ocfl_state::FolderTrouble;
use ocfl_terms::{Halt, Refusal, Stop};
use std::alloc::{AllocError, Global};

/// The words on a checkpoint that a state folder does not take.
const TOO_LONG: &str = "checkpoint.new: more than 1 MiB";

/// What is said of a night that ended so; nothing if it ended well. `words` are the system's on
/// the last call on the state folder that failed, and `why` on the last over the storage root.
pub fn ending_text(
    alloc: Global,
    halt: &Halt,
    words: Option<&str>,
    why: Option<&str>,
    names: Names<'_>,
) -> Result<Option<String>, AllocError>
    ensures { IfOk result (λ text. option_map string_bytes text
        ≡ ending_line halt.now (option_map (λ w. w.now) words.entry)
        (option_map (λ w. w.now) why.entry) names.entry) }
{
    match halt {
        Halt::CycleEnded(_) | Halt::TimeUp | Halt::Spent | Halt::Asked => Ok(None),
        Halt::Refused(refusal) => Ok(Some(text_of_refusal(alloc, refusal, names)?)),
        Halt::RootChanged => Ok(Some(refusal_text(
            alloc,
            RefusalMessage::RootChanged,
            names.root,
            names.state,
        )?)),
        Halt::Stopped(fault) => Ok(Some(text_of_fault(alloc, fault, why, names)?)),
        Halt::Troubled(stop) => Ok(Some(text_of_trouble(alloc, stop, words, why, names)?)),
    }
}

/// The path of the storage root that a folder is bound to, if that is another one. Else empty.
fn bound_to(alloc: Global, refusal: &Refusal) -> Result<String, AllocError>
    ensures { IfOk result (λ text. string_bytes text ≡ bound_path refusal.now) }
{
    match refusal {
        Refusal::OtherRoot(place) => format!(in alloc; "/{}", place.path()),
        _ => Ok(String::new(alloc)),
    }
}

/// Why a checkpoint is refused. `None` if memory was.
fn message_on(refused: &Refused) -> Option<RefusalMessage<'static>>
    ensures { result ≡ message_on refused.now }
{
    match refused {
        Refused::NotA(_) => Some(RefusalMessage::NotCheckpoint),
        Refused::Version => Some(RefusalMessage::Version),
        Refused::Damaged => Some(RefusalMessage::Damaged),
        Refused::Malformed => Some(RefusalMessage::Malformed),
        Refused::Memory => None,
    }
}

/// Why a night is refused, of a folder that is bound to that root. `None` if memory was.
fn message_of<'a>(refusal: &Refusal, bound: &'a str) -> Option<RefusalMessage<'a>>
    ensures { result ≡ message_of refusal.now bound.entry }
{
    match refusal {
        Refusal::NoCheckpoint => Some(RefusalMessage::NoCheckpoint),
        Refusal::HasReports => Some(RefusalMessage::HasReports),
        Refusal::Unread(refused) => message_on(refused),
        Refusal::NoRoot => Some(RefusalMessage::NoRoot),
        Refusal::OtherRoot(_) => Some(RefusalMessage::OtherRoot(bound)),
        Refusal::OtherPart => Some(RefusalMessage::OtherPart),
        Refusal::OtherAudit(further) => Some(RefusalMessage::OtherAudit(*further)),
        Refusal::Older(cycle) => Some(RefusalMessage::Older { cycle: *cycle }),
        Refusal::OtherDeclaration => Some(RefusalMessage::OtherDeclaration),
        Refusal::NamesGone { gone, before } => Some(RefusalMessage::NamesGone {
            gone: *gone,
            before: *before,
        }),
    }
}

/// The line on a refusal.
fn text_of_refusal(alloc: Global, refusal: &Refusal, names: Names<'_>) -> Result<String, AllocError>
    ensures { IfOk result
        (λ text. Some (string_bytes text) ≡ line_of_refusal refusal.now names.entry) }
{
    let bound = bound_to(alloc, refusal)?;
    match message_of(refusal, bound.as_str()) {
        Some(why) => refusal_text(alloc, why, names.root, names.state),
        None => Err(AllocError),
    }
}

/// The line on a night whose run stopped.
fn text_of_fault(
    alloc: Global,
    fault: &Fault,
    why: Option<&str>,
    names: Names<'_>,
) -> Result<String, AllocError>
    ensures { IfOk result (λ text. string_bytes text
        ≡ line_of_fault fault.now (option_map (λ w. w.now) why.entry) names.entry) }
{
    match fault {
        Fault::Store(place) => text_of_stop(alloc, StopMessage::At(place), why, names),
        Fault::Memory => text_of_stop(alloc, StopMessage::Memory, None, names),
    }
}

/// The line on a night that stopped.
fn text_of_stop(
    alloc: Global,
    stop: StopMessage<'_>,
    words: Option<&str>,
    names: Names<'_>,
) -> Result<String, AllocError>
    ensures { IfOk result (λ text. string_bytes text
        ≡ stopped_line stop.entry (option_map (λ w. w.now) words.entry) names.entry) }
{
    stop_text(alloc, stop, words, names.part, names.root, names.state)
}

/// The line on a night whose folder or output failed.
fn text_of_trouble(
    alloc: Global,
    stop: &Stop,
    words: Option<&str>,
    why: Option<&str>,
    names: Names<'_>,
) -> Result<String, AllocError>
    ensures { IfOk result (λ text. string_bytes text
        ≡ line_of_stop stop.now (option_map (λ w. w.now) words.entry)
        (option_map (λ w. w.now) why.entry) names.entry) }
{
    match stop {
        Stop::Worn => refusal_text(alloc, RefusalMessage::Worn, names.root, names.state),
        Stop::Output => text_of_stop(alloc, StopMessage::Output, None, names),
        Stop::Unread(place) => text_of_stop(alloc, StopMessage::At(place), why, names),
        Stop::Folder(FolderTrouble::Memory) => {
            text_of_stop(alloc, StopMessage::Memory, None, names)
        }
        Stop::TooLong(_) => text_of_stop(alloc, StopMessage::State, Some(TOO_LONG), names),
        Stop::Folder(_) | Stop::Endless | Stop::Unsaid | Stop::Oversaid | Stop::Short => {
            text_of_stop(alloc, StopMessage::State, words, names)
        }
    }
}
