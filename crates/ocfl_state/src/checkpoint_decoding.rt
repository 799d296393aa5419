//! Reading a checkpoint from its text, and why other bytes are refused.
ghost use Rattle.std.specs.Prelude.{◌≡◌, Option, Err, IfOk, IfErr};
ghost use Rattle.ocfl_cursor.specs.{Cursor.{Cursor as ModelCursor}, Lines.{AreStoredLines}};
ghost use Rattle.ocfl_cursor.specs.declared.ends.PartEnds.{PartEnds as ModelEnds};
ghost use Rattle.ocfl_state.specs.Checkpoint.{Checkpoint as ModelCheckpoint, IsCheckpointText};
ghost use Rattle.ocfl_state.specs.CheckpointLines.{ArePartsOf, IsBodyOf, IsStanding, IsAccount};
ghost use Rattle.ocfl_state.specs.CheckpointRefusal.{RefusedRightly};

use crate::checkpoint::Checkpoint;
use crate::checkpoint_account::{Parts, split_body};
use crate::checkpoint_fields::read_path;
use crate::checkpoint_form::{FRONT, SHA256, VERSIONS};
use crate::checkpoint_left::read_all_left;
use crate::checkpoint_parts::RootIdentity;
use ocfl_cursor::{Cursor, PartEnds, Refused, TextKind, body_of, read_stored_lines};
use ocfl_report::{Further, TextStop};
use std::alloc::Global;

/// The checkpoint whose text the bytes are.
///
/// Bytes that are no checkpoint's text are refused for the first reason that applies. Memory is
/// asked for only once the bytes begin and end as a checkpoint.
pub fn decode_checkpoint(alloc: Global, text: &[u8]) -> Result<Checkpoint, Refused>
    ensures checkpoint { IfOk result (λ checkpoint. IsCheckpointText text.now checkpoint) }
    ensures refused { IfErr result (λ refused. RefusedRightly text.now refused) }
{
    let body = body_of(TextKind::Checkpoint, FRONT, VERSIONS, SHA256, text)?;
    Ok(read_body(alloc, body)?)
}

/// The checkpoint of which this is the text before its last line.
pub(crate) fn read_body(alloc: Global, body: &[u8]) -> Result<Checkpoint, TextStop>
    ensures checkpoint { IfOk result (λ checkpoint. IsBodyOf body.now checkpoint) }
    ensures bad { result ≡ Err TextStop.Bad → (c : ModelCheckpoint) → IsBodyOf body.now c → ⊥ }
{
    match split_body(body) {
        Some(parts) => read_parts(alloc, parts),
        None => Err(TextStop::Bad),
    }
}

/// The checkpoint with these parts.
fn read_parts(alloc: Global, parts: Parts<'_>) -> Result<Checkpoint, TextStop>
    requires standing { IsStanding parts.standing }
    requires account { IsAccount parts.account }
    ensures checkpoint { IfOk result (λ checkpoint. ArePartsOf parts.entry.further
        parts.entry.path.now parts.entry.standing parts.entry.account parts.entry.rest.now
        checkpoint) }
    ensures bad { result ≡ Err TextStop.Bad → (c : ModelCheckpoint)
        → ArePartsOf parts.entry.further parts.entry.path.now parts.entry.standing
        parts.entry.account parts.entry.rest.now c → ⊥ }
{
    let account = parts.account;
    if account.said > account.report.bytes {
        return Err(TextStop::Bad);
    }
    let path = read_path(alloc, parts.path)?;
    let (left, lines) = read_all_left(alloc, account.left, parts.rest)?;
    let (part, cursor) = read_cursor(alloc, parts.further, lines)?;
    let standing = parts.standing;
    let declared = standing.declared;
    Ok(Checkpoint {
        root: RootIdentity { path, declared },
        names: standing.names,
        phase: standing.phase,
        whole: standing.whole,
        report: account.report,
        said: account.said,
        left,
        part,
        cursor,
    })
}

/// The part, if they name one, and the cursor whose lines these are, if its audit checks this
/// further.
fn read_cursor(
    alloc: Global,
    further: Further,
    lines: &[u8],
) -> Result<(Option<PartEnds>, Cursor), TextStop>
    ensures lines { IfOk result (λ read. AreStoredLines read.0 lines.now read.1) }
    ensures further { IfOk result (λ read. read.1.further ≡ further) }
    ensures bad { result ≡ Err TextStop.Bad → (part : Option ModelEnds) (c : ModelCursor)
        → AreStoredLines part lines.now c → c.further ≡ further → ⊥ }
{
    let (part, cursor) = read_stored_lines(alloc, lines)?;
    if cursor.further() == further {
        Ok((part, cursor))
    } else {
        Err(TextStop::Bad)
    }
}
