//! A state folder on a disk in memory: what its calls do, and what it holds after each that fails.
use crate::tests::common::Runtime;
use ocfl_disk::{Disk, FsState, Reason, StateFile};
use ocfl_mem_disk::MemDisk;
use ocfl_state::{FolderTrouble, StateFolder};
use std::alloc::Global;
use std::test::Fail;

/// More calls than a night makes of a disk.
const MANY: u64 = 200;

/// The steps of two nights: the first closes its cycle.
fn take_nights(folder: &mut FsState<MemDisk>) -> Result<(), FolderTrouble> {
    folder.put_checkpoint(b"first")?;
    folder.append(b"abc")?;
    folder.sync()?;
    folder.close(1, true)?;
    folder.append(b"de")?;
    folder.put_checkpoint(b"second")?;
    folder.cut(1)
}

/// A folder, and what the nights answered in it, with the call of this number failing, from 1.
fn folder_after(
    alloc: Global,
    failing: Option<u64>,
) -> (FsState<MemDisk>, Result<(), FolderTrouble>) {
    let mut disk = MemDisk::new(alloc);
    if let Some(number) = failing
        && number > 0
    {
        disk.fail_call(number);
    }
    let mut folder = FsState::over(disk);
    let answer = take_nights(&mut folder);
    (folder, answer)
}

fn is_checkpoint(found: Option<Vec<u8>>, want: &[u8]) -> bool {
    match found {
        Some(bytes) => bytes.as_slice() == want,
        None => false,
    }
}

#[test]
fn nights_are_taken_on_a_disk_in_memory(rt: HostRuntime) -> Result<(), Fail> {
    let (mut folder, answer) = folder_after(rt.alloc(), None);
    answer?;
    assert!(rt; is_checkpoint(folder.checkpoint()?, b"second"));
    assert_eq!(rt; folder.length()?, 1);
    let mut bytes = [0; 4];
    assert_eq!(rt; folder.read(0, &mut bytes)?, 1);
    assert_eq!(rt; bytes[0], b'd');
    assert!(rt; folder.has_closed(1)? && !folder.has_closed(2)?);
    assert_eq!(rt; folder.close(1, false), Err(FolderTrouble::Taken));
    Ok(())
}

/// What is held after a call has failed: the steps so far, and nothing of those after it.
fn expect_steps(
    rt: &impl Runtime,
    failing: u64,
    folder: &mut FsState<MemDisk>,
) -> Result<(), Fail> {
    let length = folder.length()?;
    if is_checkpoint(folder.checkpoint()?, b"second") {
        assert!(rt;
            folder.has_closed(1)? && (length == 2 || length == 1),
            "{failing}"
        );
    } else if folder.has_closed(1)? {
        assert!(rt; is_checkpoint(folder.checkpoint()?, b"first"), "{failing}");
        assert!(rt; length == 0 || length == 2, "{failing}");
    } else if is_checkpoint(folder.checkpoint()?, b"first") {
        assert!(rt; length == 0 || length == 3, "{failing}");
    } else {
        assert!(rt; folder.checkpoint()?.is_none() && length == 0, "{failing}");
    }
    Ok(())
}

#[test]
fn each_call_of_a_night_fails(rt: HostRuntime) -> Result<(), Fail> {
    let mut failed = 0;
    for failing in 1..MANY {
        let (mut folder, answer) = folder_after(rt.alloc(), Some(failing));
        if answer.is_err() {
            assert_eq!(rt; answer, Err(FolderTrouble::Failed), "{failing}");
            failed += 1;
            expect_steps(&rt, failing, &mut folder)?;
        }
    }
    assert!(rt; failed > 30 && failed < MANY - 1);
    Ok(())
}

/// What a call names that failed.
fn named<T: Drop>(answer: Result<T, Reason>) -> Option<StateFile> {
    match answer {
        Ok(_) => None,
        Err(reason) => Some(reason.file),
    }
}

/// What each of six calls names, if it fails, on a disk that allows them all.
fn answers(disk: &mut MemDisk) -> [Option<StateFile>; 6] {
    [
        named(disk.has_reports()),
        named(disk.has_closed(1, true)),
        named(disk.open(StateFile::Report)),
        named(disk.remove_new()),
        named(disk.rename_kept(2)),
        named(disk.sync_folder(StateFile::Folder)),
    ]
}

/// What these calls name if they fail.
const NAMED: [StateFile; 6] = [
    StateFile::Reports,
    StateFile::Reports,
    StateFile::Report,
    StateFile::NewCheckpoint,
    StateFile::Kept(2),
    StateFile::Folder,
];

// Fails if another call fails than the planned one, or one more, or if it names another file.
#[test]
fn the_planned_call_of_a_disk_fails_alone(rt: HostRuntime) -> Result<(), Fail> {
    for number in 1..=7 {
        let mut disk = MemDisk::new(rt.alloc());
        disk.fail_call(number);
        for (index, name) in answers(&mut disk).iter().enumerate() {
            let fails = index as u64 + 1 == number;
            let wanted = if fails { Some(NAMED[index]) } else { None };
            assert_eq!(rt; *name, wanted, "{number}, {index}");
        }
    }
    Ok(())
}

// Fails if the next checkpoint keeps its name when it is removed or kept, if what is there is made
// again, and if a report has no name, or two.
#[test]
fn names_are_made_and_lost_on_a_disk_in_memory(rt: HostRuntime) -> Result<(), Fail> {
    let mut disk = MemDisk::new(rt.alloc());
    let next = StateFile::NewCheckpoint;
    assert_eq!(rt; named(disk.create(next)), None);
    assert_eq!(rt; named(disk.create(next)), Some(next));
    assert_eq!(rt; named(disk.remove_new()), None);
    assert_eq!(rt; named(disk.create(next)), None);
    assert_eq!(rt; named(disk.rename_kept(1)), None);
    assert_eq!(rt; named(disk.create(next)), None);
    assert_eq!(rt; named(disk.create_reports()), Some(StateFile::Reports));
    match disk.create(StateFile::Report) {
        Ok(report) => match disk.count_names(&report) {
            Ok(count) => assert_eq!(rt; count, 1),
            Err(_) => assert!(rt; false),
        },
        Err(_) => assert!(rt; false),
    }
    Ok(())
}
