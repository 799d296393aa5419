//! Joining the closed reports of all parts of a storage root, of one cycle.
ghost use Rattle.std.specs.Prelude.{◌≡◌, ◌++◌, List, ℕ, Ok, Err, codes, length, string_bytes};
ghost use Rattle.std.specs.Prelude.{IfErr, IfOk, IfSome, IsErr, IsErrAnd, IsSomeAnd, IsTrue};
ghost use Rattle.std.specs.Prelude.{MatchResult, OnErr, option_map};
ghost use Rattle.ocfl_disk.specs.Disk.{Calm};
ghost use Rattle.ocfl_files.specs.Failing.{OrMemory, Says};
ghost use Rattle.ocfl_scope.specs.Stop.{stop_status};
ghost use Rattle.ocfl_separators.specs.{Parts.{IsPartsText}, Stop.{StopsRightly}};
ghost use Rattle.ocfl_part_folders.specs.Joining.{ComesTo, HasJoined, SaysUnread, status_by};

use crate::calls::{PartCalls, RoomCalls};
use crate::folder_disk::FolderDisk;
use crate::part_facts::read_all;
use ocfl_arguments::JoinAsked;
use ocfl_files::failing::{Failure, say_failure};
use ocfl_files::saying::say_out_of_memory;
use ocfl_join_disk::DiskCycles;
use ocfl_joining::{Facts, JoinEnd, join_cycles, last_of_all};
use ocfl_kept::room::Room;
use ocfl_say::{Say, Speaking};
use ocfl_scope::ScopeStop;
use ocfl_separators::{PartsStop, Separators, read_parts};
use std::alloc::{AllocError, Global};
use std::fs::File;
use std::io::{self, Read};
use std::rt::Files;

/// A line of the words on separators that were not read.
fn line_of(alloc: Global, stop: &ScopeStop) -> Result<String, AllocError>
    ensures { IfOk result (λ line. (words : List ℕ) × (string_bytes line ≡ words ++ codes "\n")) }
{
    let words = format!(in alloc; "{stop}")?;
    format!(in alloc; "{words}\n")
}

/// What is said of them.
fn refused(alloc: Global, stop: ScopeStop) -> Result<Failure, AllocError>
    ensures { IfOk result (λ failure. (words : List ℕ)
        × Says (stop_status stop) (words ++ codes "\n") failure) }
{
    let line = line_of(alloc, &stop)?;
    Ok(Failure {
        status: stop.status(),
        text: Some(line),
    })
}

/// The same, unless memory was refused when they were read.
fn unread(alloc: Global, stop: PartsStop) -> Result<Failure, AllocError>
    ensures said { IfOk result (SaysUnread stop) }
    ensures memory { stop ≡ PartsStop.Memory → IsErr result }
{
    match stop {
        PartsStop::Memory => Err(AllocError),
        stop => refused(alloc, ScopeStop::Parts(stop)),
    }
}

/// The separators that were read, or what is said of why they were not.
fn answer(alloc: Global, read: Result<Separators, PartsStop>) -> Result<Separators, Failure>
    ensures { MatchResult read (λ separators. result ≡ Ok separators)
        (λ stop. IsErrAnd result (OrMemory (SaysUnread stop))) }
{
    match read {
        Ok(separators) => Ok(separators),
        Err(stop) => Err(Failure::made(unread(alloc, stop))),
    }
}

/// Reads separators from a file, if it was opened.
fn read_from<F: Read + Drop>(alloc: Global, opened: io::Result<F>) -> Result<Separators, PartsStop>
    ensures separators { IfOk opened (λ file. IfOk result
        (λ separators. IfSome (F.remaining file) (λ bytes. IsPartsText bytes separators))) }
    ensures refused { IfOk opened (λ file. IfErr result
        (λ stop. IfSome (F.remaining file) (λ bytes. StopsRightly bytes stop))) }
    ensures unopened { IfErr opened (λ _. result ≡ Err PartsStop.Read) }
{
    match opened {
        Ok(mut opened) => read_parts(alloc, &mut opened),
        Err(_) => Err(PartsStop::Read),
    }
}

/// What came of a joining over calls. They are given back, and the output.
#[derive(Drop)]
pub struct Joining<C: Drop, S: Drop> {
    /// The calls; there are none only if those that were given do not tell their state.
    pub calls: Option<C>,
    /// The output.
    pub out: S,
    /// The exit status, and whether it was said of each cycle that stopped why it did; or why none
    /// was gone through.
    pub came: Result<JoinEnd, Failure>,
}

/// The calls and the output after cycles were gone through, and how that ended.
#[derive(Drop)]
struct Joined<C: Drop, S: Drop> {
    calls: Option<C>,
    out: S,
    end: JoinEnd,
}

/// The calls of folders that a joining gave back.
fn calls_of<C: PartCalls + Drop>(disk: Option<FolderDisk<'_, C>>) -> Option<C>
    ensures { result ≡ option_map (λ d. d.calls) disk.entry }
{
    match disk {
        Some(disk) => Some(disk.into_calls()),
        None => None,
    }
}

/// Joins each cycle that all parts have closed, whose checkpoints say these facts, and that is not
/// joined.
fn join_known<C: PartCalls + Drop, S: Say + Drop>(
    calls: C,
    separators: &Separators,
    facts: &[Option<Facts>],
    out: S,
) -> Joined<C, S>
    ensures { IsTrue C.told → ComesTo C.folder C.disk separators.now facts.now
        (C.folder calls) (C.disk calls).seen (S.said out) (length facts.now)
        result.calls (S.said result.out) result.end }
{
    let alloc = calls.global();
    let disk = FolderDisk::new(calls, facts);
    let mut cycles = DiskCycles::over(alloc, separators, facts, disk, out);
    let end = join_cycles(&mut cycles, facts.len(), last_of_all(facts));
    let (disk, out) = cycles.into_given();
    let calls = calls_of(disk);
    Joined { calls, out, end }
}

/// Reads what the checkpoints of all parts say, and joins each cycle that they have closed and that
/// is not joined, as `join_cycles` does. What is said of a joined report goes to `out`.
///
/// It fails if a checkpoint cannot be read or is not one, or if memory runs out before a cycle is
/// looked at. Nothing is changed then.
pub fn join_over<C: PartCalls + Drop, S: Say + Drop>(
    calls: C,
    separators: &Separators,
    out: S,
) -> Joining<C, S>
    ensures joined { IsTrue C.told → IfOk result.came (λ end. HasJoined C.folder C.disk
        separators.now calls (S.said out) result.calls (S.said result.out) end) }
    ensures silent { OnErr result.came (result.out ≡ out) }
    ensures failed { IsTrue C.told → OnErr result.came (IsSomeAnd result.calls (λ after.
        (C.folder after ≡ C.folder calls) × Calm (C.disk calls) (C.disk after))) }
{
    let mut calls = calls;
    match read_all(&mut calls, separators.len().saturating_add(1)) {
        Ok(facts) => {
            let Joined { calls, out, end } = join_known(calls, separators, &facts, out);
            Joining {
                calls,
                out,
                came: Ok(end),
            }
        }
        Err(failure) => Joining {
            calls: Some(calls),
            out,
            came: Err(failure),
        },
    }
}

/// Joins the parts that a command asks for, and gives what came of it.
fn join_all<R>(rt: &R, asked: &JoinAsked) -> Result<JoinEnd, Failure>
where
    R: Room + Print + Eprint,
{
    let opened = rt.open_file(asked.parts.as_str());
    let separators = answer(rt.global(), read_from(rt.global(), opened))?;
    let folder = asked.state.as_str();
    let _held = rt.hold_folder(folder)?;
    let mut writer = io::writer(rt);
    let out = Speaking { out: &mut writer };
    let Joining { came, .. } = join_over(RoomCalls::new(rt, folder), &separators, out);
    came
}

/// Says why a joining failed, or that memory ran out before all was said, and gives the exit
/// status.
fn end_with<R: Eprint>(rt: &R, came: Result<JoinEnd, Failure>) -> u8
    ensures { result ≡ status_by came }
{
    match came {
        Ok(end) => {
            if !end.said {
                say_out_of_memory(rt);
            }
            end.status
        }
        Err(failure) => say_failure(rt, &failure),
    }
}

/// Joins the reports of all parts of each cycle that all of them have closed, the oldest first, and
/// gives the exit status. Each part whose report of the last of these cannot be joined is named.
pub fn join_parts<R>(rt: &R, asked: &JoinAsked) -> u8
where
    R: Files<File = File> + AllocGlobal + Print + Eprint,
{
    end_with(rt, join_all(rt, asked))
}
