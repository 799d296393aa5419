//! The checkpoints of a state folder: reading one, and writing the next one beside it.
ghost use Rattle.std.specs.Prelude.{◌≡◌, ◌⊎◌, ◌≤◌, ◌+◌, IsTrue, IfOk, IfErr, IfSome, OnOk};
ghost use Rattle.std.specs.Prelude.{length, take};
ghost use Rattle.std.specs.Option.{option_map};
ghost use Rattle.ocfl_state.specs.Calls.{most_checkpoint, bytes_of, IsLong, HasLong};
ghost use Rattle.ocfl_state.specs.{Content.{with_checkpoint}, Crash.{IsPut}};
ghost use Rattle.ocfl_disk.specs.{Names.{content_of}, Disk.{HasFault, IsWrong, Calm}};
ghost use Rattle.ocfl_disk.specs.Internal.Contents.{Quiet, HasBeside, MayReplace, FollowsContent};

use crate::disk::Disk;
use crate::state_file::{Reason, StateFile, wrong};
use ocfl_state::MOST_CHECKPOINT;

/// Refuses bytes that are more than a checkpoint may have.
fn fit(file: StateFile, bytes: &[u8]) -> Result<(), Reason>
    ensures ok { OnOk result (length bytes.now ≤ most_checkpoint) }
    ensures err { IfErr result (λ reason. IsLong bytes.now × IsWrong reason) }
{
    if bytes.len() > MOST_CHECKPOINT {
        return Err(wrong(file, "more than 1 MiB"));
    }
    Ok(())
}

/// The bytes of a checkpoint's file. Of a longer file one byte more than they may be is read.
fn read_front<D: Disk>(disk: &mut D, there: StateFile) -> Result<Option<Vec<u8>>, Reason>
    ensures calm { IsTrue D.told → Calm (D.state disk.old) (D.state disk.new) }
    ensures value { IsTrue D.told → there ≡ StateFile.Checkpoint → IfOk result (λ found.
        option_map bytes_of found ≡ option_map (take (most_checkpoint + 1))
        (content_of (D.state disk.old).seen).checkpoint) }
    ensures cause { IsTrue D.told → IfErr result (HasFault (D.state disk.old) (D.state disk.new)) }
{
    match disk.open(there)? {
        Some(file) => Ok(Some(disk.read_front(there, file, MOST_CHECKPOINT as u64 + 1)?)),
        None => Ok(None),
    }
}

/// Refuses bytes that were found, if they are more than a checkpoint may have.
fn fit_found(file: StateFile, found: &Option<Vec<u8>>) -> Result<(), Reason>
    ensures ok { OnOk result (IfSome found.now (λ bytes. length bytes.items ≤ most_checkpoint)) }
    ensures err { IfErr result (λ reason. HasLong (option_map bytes_of found.now)
        × IsWrong reason) }
{
    match found {
        Some(bytes) => fit(file, bytes),
        None => Ok(()),
    }
}

/// The bytes of a checkpoint.
pub(crate) fn read_checkpoint<D: Disk>(
    disk: &mut D,
    there: StateFile,
) -> Result<Option<Vec<u8>>, Reason>
    ensures bound { IfOk result (λ found. IfSome found (λ bytes.
        length bytes.items ≤ most_checkpoint)) }
    ensures calm { IsTrue D.told → Calm (D.state disk.old) (D.state disk.new) }
    ensures value { IsTrue D.told → there ≡ StateFile.Checkpoint → IfOk result (λ found.
        option_map bytes_of found ≡ (content_of (D.state disk.old).seen).checkpoint) }
    ensures cause { IsTrue D.told → there ≡ StateFile.Checkpoint → IfErr result (λ reason.
        HasFault (D.state disk.old) (D.state disk.new) reason
        ⊎ (HasLong (content_of (D.state disk.old).seen).checkpoint × IsWrong reason)) }
{
    let found = read_front(disk, there)?;
    fit_found(there, &found)?;
    Ok(found)
}

/// Writes the next checkpoint beside the one that is there, and brings it to the disk.
fn write_beside<D: Disk>(disk: &mut D, bytes: &[u8]) -> Result<(), Reason>
    ensures fits { OnOk result (length bytes.now ≤ most_checkpoint) }
    ensures long { IsLong bytes.now → disk.new ≡ disk.old }
    ensures quiet { IsTrue D.told → Quiet (D.state disk.old) (D.state disk.new) }
    ensures written { IsTrue D.told → OnOk result (HasBeside bytes.now (D.state disk.new)) }
    ensures cause { IsTrue D.told → IfErr result (λ reason.
        HasFault (D.state disk.old) (D.state disk.new) reason
        ⊎ (IsLong bytes.now × IsWrong reason)) }
{
    fit(StateFile::NewCheckpoint, bytes)?;
    // What a killed process left.
    disk.remove_new()?;
    let mut file = disk.create(StateFile::NewCheckpoint)?;
    disk.append(StateFile::NewCheckpoint, &mut file, bytes)?;
    disk.sync(StateFile::NewCheckpoint, &file)
}

/// Replaces the checkpoint, and brings the new one to the disk.
pub(crate) fn replace_checkpoint<D: Disk>(disk: &mut D, bytes: &[u8]) -> Result<(), Reason>
    ensures fits { OnOk result (length bytes.now ≤ most_checkpoint) }
    ensures long { IsLong bytes.now → disk.new ≡ disk.old }
    ensures replaces { IsTrue D.told
        → MayReplace bytes.now (D.state disk.old) (D.state disk.new) }
    ensures put { IsTrue D.told → OnOk result (content_of (D.state disk.new).seen
        ≡ with_checkpoint bytes.now (content_of (D.state disk.old).seen)) }
    ensures durable { IsTrue D.told → OnOk result
        (FollowsContent (IsPut bytes.now) (D.state disk.old) (D.state disk.new)) }
    ensures cause { IsTrue D.told → IfErr result (λ reason.
        HasFault (D.state disk.old) (D.state disk.new) reason
        ⊎ (IsLong bytes.now × IsWrong reason)) }
{
    write_beside(disk, bytes)?;
    disk.rename_new()?;
    disk.sync_folder(StateFile::Folder)
}

/// Keeps the checkpoint beside the report that is closed with it, but not what is too long to be
/// one. The folder is not synced.
pub(crate) fn keep_checkpoint<D: Disk>(disk: &mut D, cycle: u64) -> Result<(), Reason>
    ensures quiet { IsTrue D.told → Quiet (D.state disk.old) (D.state disk.new) }
    ensures cause { IsTrue D.told → IfErr result (HasFault (D.state disk.old) (D.state disk.new)) }
{
    match read_front(disk, StateFile::Checkpoint)? {
        Some(bytes) if bytes.len() <= MOST_CHECKPOINT => keep_bytes(disk, cycle, &bytes),
        _ => Ok(()),
    }
}

/// Keeps the bytes of a checkpoint.
fn keep_bytes<D: Disk>(disk: &mut D, cycle: u64, bytes: &[u8]) -> Result<(), Reason>
    ensures quiet { IsTrue D.told → Quiet (D.state disk.old) (D.state disk.new) }
    ensures cause { IsTrue D.told → IfErr result (λ reason.
        HasFault (D.state disk.old) (D.state disk.new) reason
        ⊎ (IsLong bytes.now × IsWrong reason)) }
{
    write_beside(disk, bytes)?;
    disk.rename_kept(cycle)
}
