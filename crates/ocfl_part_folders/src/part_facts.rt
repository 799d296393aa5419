//! What the state folders of parts say of their nights.
ghost use Rattle.std.specs.Prelude.{◌≡◌, IsTrue, IfErr, IfOk, length};
ghost use Rattle.ocfl_cursor.specs.declared.refused.Refused.{Refused as ModelRefused};
ghost use Rattle.ocfl_disk.specs.Disk.{Calm};
ghost use Rattle.ocfl_files.specs.Failing.{OrMemory, Says, stopped_status};
ghost use Rattle.ocfl_joining.specs.Facts.{AreFacts};
ghost use Rattle.ocfl_state.specs.Checkpoint.{Checkpoint as ModelCheckpoint, IsCheckpointText};
ghost use Rattle.ocfl_state.specs.CheckpointRefusal.{RefusedRightly};
ghost use Rattle.ocfl_part_folders.specs.Folder.{AreSaid, IsSaid};
ghost use Rattle.ocfl_part_folders.specs.Refusing.{no_checkpoint_text};

use crate::asking::part_of;
use crate::calls::PartCalls;
use ocfl_cursor::Refused;
use ocfl_files::failing::Failure;
use ocfl_joining::{Facts, read_facts};
use ocfl_messages::Shown;
use std::alloc::{AllocError, Global};

/// That a file is no checkpoint.
fn no_checkpoint(alloc: Global, path: &str, why: Refused) -> Result<Failure, AllocError>
    ensures { IfOk result (λ failure.
        Says stopped_status (no_checkpoint_text path.now why) failure) }
{
    Ok(Failure::stopped(format!(in alloc; "{}/checkpoint: {why}\n", Shown(path))?))
}

/// The same, unless memory was refused when it was read.
fn refused(alloc: Global, path: &str, why: Refused) -> Result<Failure, AllocError>
    ensures said { IfOk result (λ failure.
        Says stopped_status (no_checkpoint_text path.now why) failure) }
    ensures memory { why ≡ Refused.Memory → IfOk result (λ _. ⊥) }
{
    match why {
        Refused::Memory => Err(AllocError),
        why => no_checkpoint(alloc, path, why),
    }
}

/// What the bytes of a checkpoint say of its part.
fn facts_in(alloc: Global, path: &str, bytes: &[u8]) -> Result<Facts, Failure>
    ensures facts { IfOk result (λ facts. (c : ModelCheckpoint)
        × (IsCheckpointText bytes.now c × AreFacts c facts)) }
    ensures refused { IfErr result (OrMemory (λ failure. (why : ModelRefused)
        × (RefusedRightly bytes.now why
        × Says stopped_status (no_checkpoint_text path.now why) failure))) }
{
    match read_facts(alloc, bytes) {
        Ok(facts) => Ok(facts),
        Err(why) => Err(Failure::made(refused(alloc, path, why))),
    }
}

/// What the state folder of the part with a number says. `None` if there is no such folder yet.
fn find_facts<C: PartCalls>(calls: &mut C, number: usize) -> Result<Option<Facts>, Failure>
    ensures said { IsTrue C.told → IfOk result (λ facts.
        IsSaid ((C.folder calls.old).is_there number) ((C.folder calls.old).stored number) facts) }
    ensures folder { IsTrue C.told → C.folder calls.new ≡ C.folder calls.old }
    ensures calm { IsTrue C.told → Calm (C.disk calls.old) (C.disk calls.new) }
{
    let path = part_of(calls, number)?;
    if !calls.has(path.as_str())? {
        return Ok(None);
    }
    match calls.stored_in(path.as_str())? {
        Some(bytes) => Ok(Some(facts_in(calls.global(), path.as_str(), &bytes)?)),
        None => Ok(None),
    }
}

/// What the checkpoints of all parts say, of so many.
pub(crate) fn read_all<C: PartCalls>(
    calls: &mut C,
    count: usize,
) -> Result<Vec<Option<Facts>>, Failure>
    ensures said { IsTrue C.told
        → IfOk result (λ all. AreSaid (C.folder calls.old) count all.items) }
    ensures count { IfOk result (λ all. length all.items ≡ count) }
    ensures folder { IsTrue C.told → C.folder calls.new ≡ C.folder calls.old }
    ensures calm { IsTrue C.told → Calm (C.disk calls.old) (C.disk calls.new) }
{
    let mut all = Vec::new(calls.global());
    for index in 0..count {
        all.push(find_facts(calls, index + 1)?)?;
    }
    Ok(all)
}
