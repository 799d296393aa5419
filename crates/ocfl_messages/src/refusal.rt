//! Why a night did nothing: a sentence for each reason.
ghost use Rattle.std.specs.Prelude.{◌≡◌, ◌++◌, [], IfOk, string_bytes};
ghost use Rattle.ocfl_report.specs.Text.{escape};
ghost use Rattle.ocfl_messages.specs.Refusal.{refusal_text as text_of_refusal, reason_text, ending_text, names_gone_text, older_text, other_audit_text, other_declaration_text, other_part_text, other_root_text};

use crate::quoted::Quoted;
use crate::shown::Shown;
use ocfl_report::Further;
use std::alloc::{AllocError, Global};

/// Why a night did nothing.
#[derive(Clone, Copy)]
pub enum RefusalMessage<'a> {
    /// The state folder has no checkpoint.
    NoCheckpoint,
    /// It has no checkpoint, and has a report or closed reports.
    HasReports,
    /// The checkpoint's file is not a checkpoint.
    NotCheckpoint,
    /// It is of a version that is not known.
    Version,
    /// It does not have its digest.
    Damaged,
    /// It has its digest, and is not of the form.
    Malformed,
    /// The state folder is one of the scripts of before, with a cursor and a log of nights.
    OfScripts,
    /// The root does not declare itself a storage root.
    NoRoot,
    /// The state folder belongs to the storage root with this path.
    OtherRoot(&'a str),
    /// The root's declaration is not the one of before.
    OtherDeclaration,
    /// The state folder belongs to another part, or to the whole.
    OtherPart,
    /// Its nights check this beside what every audit checks, and this night does not, or the other
    /// way round.
    OtherAudit(Further),
    /// More than half of the names in the root's folder are gone.
    NamesGone {
        /// How many are gone.
        gone: u64,
        /// How many there were.
        before: u64,
    },
    /// A cycle is open in the checkpoint, or its lines are not moved yet, and it is closed already
    /// among the reports, or a later one is.
    Older {
        /// The number of the latest cycle that is closed.
        cycle: u64,
    },
    /// After a slice the root is gone, or another one.
    RootChanged,
    /// The number of the cycle can grow no more.
    Worn,
}

// What is said of a state folder.
const NO_CHECKPOINT: &str = " has no checkpoint: is its file system mounted? For a first night, \
give --create.";

const HAS_REPORTS: &str =
    " has reports of earlier nights, and no checkpoint. Put it back, or start \
over in another folder.";

const OF_SCRIPTS: &str =
    " is a folder of earlier scripts, with a cursor and a log of nights. Start \
over in another folder.";

// What is said of a root.
const NO_ROOT: &str = " does not declare itself a storage root: is its file system mounted?";

const ROOT_CHANGED: &str = " is not the storage root that the night began with: is its file system \
mounted?";

/// What is wrong, in words.
fn reason(
    alloc: Global,
    refusal: RefusalMessage<'_>,
    root: Shown<'_>,
    state: Shown<'_>,
) -> Result<String, AllocError>
    ensures { IfOk result (λ text. string_bytes text
        ≡ reason_text refusal.entry root.entry.0.now state.entry.0.now) }
{
    match refusal {
        RefusalMessage::NoCheckpoint => said_of(alloc, state, NO_CHECKPOINT),
        RefusalMessage::HasReports => said_of(alloc, state, HAS_REPORTS),
        RefusalMessage::NotCheckpoint => said_of(alloc, state, "/checkpoint is not a checkpoint."),
        RefusalMessage::Version => said_of(alloc, state, "/checkpoint is of another version."),
        RefusalMessage::Damaged => said_of(alloc, state, "/checkpoint is damaged."),
        RefusalMessage::Malformed => said_of(alloc, state, "/checkpoint is malformed."),
        RefusalMessage::OfScripts => said_of(alloc, state, OF_SCRIPTS),
        RefusalMessage::NoRoot => said_of(alloc, root, NO_ROOT),
        RefusalMessage::OtherRoot(bound) => other_root(alloc, bound, root, state),
        RefusalMessage::OtherDeclaration => other_declaration(alloc, root, state),
        RefusalMessage::OtherPart => other_part(alloc, root, state),
        RefusalMessage::OtherAudit(further) => said_of(alloc, state, other_audit(further)),
        RefusalMessage::NamesGone { gone, before } => names_gone(alloc, gone, before, root),
        RefusalMessage::Older { cycle } => older(alloc, cycle, state),
        RefusalMessage::RootChanged => said_of(alloc, root, ROOT_CHANGED),
        RefusalMessage::Worn => worn(alloc, state),
    }
}

/// A path, and what is said of it.
fn said_of(alloc: Global, path: Shown<'_>, words: &str) -> Result<String, AllocError>
    ensures { IfOk result (λ text. string_bytes text ≡ escape path.entry.0.now ++ words.now) }
{
    format!(in alloc; "{path}{words}")
}

/// Of a number that can grow no more.
fn worn(alloc: Global, state: Shown<'_>) -> Result<String, AllocError>
    ensures { IfOk result
        (λ text. string_bytes text ≡ reason_text RefusalMessage.Worn [] state.entry.0.now) }
{
    format!(in alloc; "The number of the cycle in {state} cannot grow any further.")
}

/// Of a folder that is another root's. The command can be pasted.
fn other_root(
    alloc: Global,
    bound: &str,
    root: Shown<'_>,
    state: Shown<'_>,
) -> Result<String, AllocError>
    ensures { IfOk result (λ text. string_bytes text
        ≡ other_root_text bound.now root.entry.0.now state.entry.0.now) }
{
    let (bound, folder) = (Shown(bound), Quoted(state.0));
    format!(in alloc;
        "{state} belongs to the storage root {bound}, and this one is {root}. A root at another \
         path needs a new state folder, whose first cycle is compared with nothing. To find what \
         was lost in the move, give --expected the list that ocfl-scrub-reports expected {folder} \
         writes."
    )
}

/// Of a root whose declaration is another one.
fn other_declaration(alloc: Global, root: Shown<'_>, state: Shown<'_>) -> Result<String, AllocError>
    ensures { IfOk result (λ text. string_bytes text
        ≡ other_declaration_text root.entry.0.now state.entry.0.now) }
{
    format!(in alloc;
        "{state}: the declaration of {root} is not the one of before. --force-root runs it anyway."
    )
}

/// Of a folder that is another part's.
fn other_part(alloc: Global, root: Shown<'_>, state: Shown<'_>) -> Result<String, AllocError>
    ensures { IfOk result (λ text. string_bytes text
        ≡ other_part_text root.entry.0.now state.entry.0.now) }
{
    format!(in alloc;
        "{state} belongs to another part of {root}, or to all of it. Other parts need new state \
         folders."
    )
}

/// Of a folder whose nights check this further.
fn other_audit(further: Further) -> &'static str
    ensures { result.now ≡ other_audit_text further }
{
    match further {
        Further::Nothing => ": the folder's nights are of an audit without --inventories.",
        Further::Inventories => ": the folder's nights are of an audit with --inventories.",
    }
}

/// Of a root that lost most of its names.
fn names_gone(alloc: Global, gone: u64, before: u64, root: Shown<'_>) -> Result<String, AllocError>
    ensures { IfOk result
        (λ text. string_bytes text ≡ names_gone_text gone before root.entry.0.now) }
{
    format!(in alloc;
        "{gone} of the {before} names in {root} are gone: is its file system mounted? --force-root \
         runs it anyway."
    )
}

/// Of a checkpoint that was put back and is older than the reports.
fn older(alloc: Global, cycle: u64, state: Shown<'_>) -> Result<String, AllocError>
    ensures { IfOk result
        (λ text. string_bytes text ≡ older_text cycle state.entry.0.now) }
{
    format!(in alloc;
        "{state}/checkpoint is older than {state}/reports, where cycle {cycle} is closed already. \
         Restore its newest copy. Without one, move {state}/report to another folder, and copy the \
         last checkpoint-N in {state}/reports to {state}/checkpoint."
    )
}

/// What became of the run.
fn ending(refusal: RefusalMessage<'_>) -> &'static str
    ensures { result.now ≡ ending_text refusal.entry }
{
    match refusal {
        RefusalMessage::RootChanged => " The run does not count; the next night makes it again.\n",
        RefusalMessage::NoCheckpoint
        | RefusalMessage::HasReports
        | RefusalMessage::NotCheckpoint
        | RefusalMessage::Version
        | RefusalMessage::Damaged
        | RefusalMessage::Malformed
        | RefusalMessage::OfScripts
        | RefusalMessage::NoRoot
        | RefusalMessage::OtherRoot(_)
        | RefusalMessage::OtherDeclaration
        | RefusalMessage::OtherPart
        | RefusalMessage::OtherAudit(_)
        | RefusalMessage::NamesGone { .. }
        | RefusalMessage::Older { .. }
        | RefusalMessage::Worn => " Nothing was run.\n",
    }
}

/// The line that says why a night did nothing, or nothing more: what is wrong, and what became of
/// the run.
pub fn refusal_text(
    alloc: Global,
    refusal: RefusalMessage<'_>,
    root: &str,
    state: &str,
) -> Result<String, AllocError>
    ensures { IfOk result
        (λ text. string_bytes text ≡ text_of_refusal refusal.entry root.now state.now) }
{
    let mut text = reason(alloc, refusal, Shown(root), Shown(state))?;
    text.push_str(ending(refusal))?;
    Ok(text)
}
