//! The state folder in memory: what its calls do and refuse, and what a crash leaves of it.
use crate::tests::common::Runtime;
use ocfl_state::{FolderTrouble, MOST_CHECKPOINT, MemState, StateFolder};
use std::alloc::Global;
use std::test::Fail;

mod disk;
mod finding;
mod mem_disk;
mod observed;
mod order;
mod pieces;

/// A checkpoint, a closed report of cycle 1 and an open report, all on the disk.
fn synced(alloc: Global) -> Result<MemState, Fail> {
    let mut folder = MemState::new(alloc);
    folder.append(b"first")?;
    folder.sync()?;
    folder.close(1, false)?;
    folder.put_checkpoint(b"mark")?;
    folder.append(b"abc")?;
    folder.sync()?;
    Ok(folder)
}

/// What a folder shows: its checkpoint, its report, and its closed reports, each with its cycle.
fn shown(alloc: Global, folder: &MemState) -> Result<String, Fail> {
    let mut text = String::new(alloc);
    text.push_str(text_of(folder.checkpoint_bytes().unwrap_or(b"none"))?)?;
    text.push_str("|")?;
    text.push_str(text_of(folder.report())?)?;
    for closed in folder.closed() {
        let report = text_of(closed.report.as_slice())?;
        let (cycle, whole) = (closed.cycle, closed.whole);
        text.push_str(format!(in alloc; "|{cycle} {whole} {report}")?.as_str())?;
    }
    Ok(text)
}

fn text_of(bytes: &[u8]) -> Result<&str, Fail> {
    match std::str::from_utf8(bytes) {
        Ok(text) => Ok(text),
        Err(_) => Err("not UTF-8".into()),
    }
}

fn expect(rt: &impl Runtime, row: &str, folder: &MemState, want: &str) -> Result<(), Fail> {
    let got = shown(rt.alloc(), folder)?;
    assert_eq!(rt; got.as_str(), want, "{row}");
    Ok(())
}

#[test]
fn calls_change_what_reads_show(rt: HostRuntime) -> Result<(), Fail> {
    let mut folder = MemState::new(rt.alloc());
    assert!(rt; folder.checkpoint()?.is_none() && folder.length()? == 0);
    expect(&rt, "new", &folder, "none|")?;
    folder.put_checkpoint(b"one")?;
    folder.append(b"abc")?;
    folder.append(b"de")?;
    expect(&rt, "appended", &folder, "one|abcde")?;
    folder.cut(9)?;
    expect(&rt, "cut after its end", &folder, "one|abcde")?;
    folder.cut(4)?;
    folder.put_checkpoint(b"two")?;
    expect(&rt, "cut", &folder, "two|abcd")?;
    folder.close(7, true)?;
    folder.append(b"x")?;
    expect(&rt, "closed", &folder, "two|x|7 true abcd")?;
    assert_eq!(rt; folder.close(7, false).err(), Some(FolderTrouble::Taken));
    expect(&rt, "taken", &folder, "two|x|7 true abcd")?;
    folder.close(8, false)?;
    expect(&rt, "closed again", &folder, "two||7 true abcd|8 false x")?;
    for (cycle, want) in [(6, false), (7, true), (8, true), (9, false)] {
        assert_eq!(rt; folder.has_closed(cycle)?, want, "{cycle}");
    }
    Ok(())
}

#[test]
fn a_longer_checkpoint_is_refused(rt: HostRuntime) -> Result<(), Fail> {
    let mut folder = synced(rt.alloc())?;
    let bytes = vec![in rt.alloc(); b'x'; MOST_CHECKPOINT + 1]?;
    let changes = folder.changes();
    assert_eq!(rt;
        folder.put_checkpoint(&bytes).err(),
        Some(FolderTrouble::Failed)
    );
    assert_eq!(rt; folder.changes(), changes);
    expect(&rt, "unchanged", &folder, "mark|abc|1 false first")?;
    folder.put_checkpoint(&bytes[..MOST_CHECKPOINT])?;
    let Some(found) = folder.checkpoint()? else {
        return Err("no checkpoint".into());
    };
    assert_eq!(rt; found.len(), MOST_CHECKPOINT);
    Ok(())
}

/// Reads of the report `abcde`: from where, room, and what is given.
const READS: [(u64, usize, &str); 6] = [
    (0, 8, "abcde"),
    (0, 2, "ab"),
    (3, 8, "de"),
    (5, 8, ""),
    (u64::MAX, 8, ""),
    (1, 0, ""),
];

#[test]
fn the_report_is_read_from_an_offset(rt: HostRuntime) -> Result<(), Fail> {
    let mut folder = MemState::new(rt.alloc());
    folder.append(b"abcde")?;
    assert_eq!(rt; folder.length()?, 5);
    for (start, room, want) in READS {
        let mut buffer = [0; 8];
        let count = folder.read(start, &mut buffer[..room])?;
        assert_eq!(rt; &buffer[..count], want.as_bytes(), "{start} {room}");
    }
    Ok(())
}

/// Crashes after the synced folder got `de` appended, or was cut to 1: how many of the bytes that
/// were not on the disk stay, whether as zeros, and what the folder shows then.
const CRASHES: [(&str, u64, usize, bool, &str); 6] = [
    (
        "nothing is lost",
        5,
        usize::MAX,
        false,
        "mark|abcde|1 false first",
    ),
    ("all of it", 5, 0, false, "mark|abc|1 false first"),
    ("a byte of it stays", 5, 1, false, "mark|abcd|1 false first"),
    (
        "zeros in its place",
        5,
        2,
        true,
        "mark|abc\0\0|1 false first",
    ),
    ("a cut", 1, usize::MAX, false, "mark|a|1 false first"),
    ("a cut, nothing stays", 1, 0, false, "mark|a|1 false first"),
];

#[test]
fn a_crash_loses_what_is_not_synced(rt: HostRuntime) -> Result<(), Fail> {
    for (row, most, left, zeroed, want) in CRASHES {
        let mut folder = synced(rt.alloc())?;
        folder.append(b"de")?;
        folder.cut(most)?;
        let Some(crashed) = folder.crashed(folder.changes(), left, zeroed)? else {
            return Err("no such moment".into());
        };
        expect(&rt, row, &crashed, want)?;
        folder.sync()?;
        let Some(kept) = folder.crashed(folder.changes(), 0, true)? else {
            return Err("no such moment".into());
        };
        let seen = shown(rt.alloc(), &folder)?;
        expect(&rt, row, &kept, seen.as_str())?;
    }
    Ok(())
}

/// What a crash after each of the changes of `synced` leaves, with all bytes that were not on
/// the disk lost.
const MOMENTS: [&str; 7] = [
    "none|",
    "none|",
    "none|first",
    "none||1 false first",
    "mark||1 false first",
    "mark||1 false first",
    "mark|abc|1 false first",
];

#[test]
fn a_crash_may_come_after_each_change(rt: HostRuntime) -> Result<(), Fail> {
    let folder = synced(rt.alloc())?;
    assert_eq!(rt; folder.changes(), MOMENTS.len() - 1);
    for (changes, want) in MOMENTS.iter().enumerate() {
        let Some(crashed) = folder.crashed(changes, 0, false)? else {
            return Err("no such moment".into());
        };
        expect(&rt, want, &crashed, want)?;
    }
    assert!(rt; folder.crashed(MOMENTS.len(), 0, false)?.is_none());
    Ok(())
}

#[test]
fn each_call_fails_once_and_does_nothing(rt: HostRuntime) -> Result<(), Fail> {
    for number in 1..10 {
        let mut folder = synced(rt.alloc())?;
        folder.fail_call(number);
        let mut buffer = [0; 4];
        let failed = [
            folder.checkpoint().err(),
            folder.length().err(),
            folder.read(0, &mut buffer).err(),
            folder.has_closed(1).err(),
            folder.append(b"").err(),
            folder.cut(3).err(),
            folder.sync().err(),
            folder.put_checkpoint(b"mark").err(),
            folder.close(1, true).err(),
        ];
        for (index, error) in failed.iter().enumerate() {
            let last = if index == 8 {
                Some(FolderTrouble::Taken)
            } else {
                None
            };
            let want = if index + 1 == number as usize {
                Some(FolderTrouble::Failed)
            } else {
                last
            };
            assert_eq!(rt; *error, want, "call {number}, {index}");
        }
        expect(&rt, "unchanged", &folder, "mark|abc|1 false first")?;
    }
    Ok(())
}
