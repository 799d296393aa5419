//! The state folder of the file system.
use crate::tests::common::Runtime;
use ocfl_disk::{FsLog, FsState, StateFile, StateStop, SystemDisk};
use ocfl_state::{FolderTrouble, StateFolder};
use std::io::Read;
use std::rt::Files;
use std::test::Fail;
use std::{fs, os};

type Folder = FsState<SystemDisk<HostRuntime>>;

/// Opens the state folder at a path.
fn open(rt: &HostRuntime, path: &str, create: bool) -> Result<Folder, Fail> {
    match FsState::open(rt.clone()?, path, create) {
        Ok(folder) => Ok(folder),
        Err(_) => Err("not opened".into()),
    }
}

/// An empty path for a state folder.
fn fresh(rt: &HostRuntime, path: &str) -> Result<(), Fail> {
    if fs::exists(rt, path)? {
        fs::remove_dir_all(rt, path)?;
    }
    Ok(())
}

fn expect_text<R: Runtime + Files>(rt: &R, path: &str, want: &str) -> Result<(), Fail> {
    let text = fs::read_to_string(rt, path)?;
    assert_eq!(rt; text.as_str(), want, "{path}");
    Ok(())
}

/// Of these cycles some are closed, with the checkpoint that there was then.
fn expect_closed(rt: &impl Runtime, folder: &mut Folder) -> Result<(), Fail> {
    for (cycle, closed, want) in [
        (6, false, None),
        (7, true, Some("two")),
        (8, true, Some("three")),
        (10, false, None),
    ] {
        assert_eq!(rt; folder.has_closed(cycle)?, closed, "{cycle}");
        let kept = folder.kept_checkpoint(cycle)?;
        assert_eq!(rt; kept.as_deref(), want.map(str::as_bytes), "{cycle}");
    }
    Ok(())
}

#[test]
fn calls_change_the_files(rt: HostRuntime) -> Result<(), Fail> {
    fresh(&rt, "calls")?;
    let mut folder = open(&rt, "calls", true)?;
    assert!(rt; folder.checkpoint()?.is_none() && folder.length()? == 0);
    let mut buffer = [0; 8];
    assert_eq!(rt; folder.read(0, &mut buffer)?, 0);
    folder.put_checkpoint(b"one")?;
    expect_text(&rt, "calls/checkpoint", "one")?;
    folder.append(b"abc")?;
    folder.append(b"de")?;
    folder.sync()?;
    expect_text(&rt, "calls/report", "abcde")?;
    assert_eq!(rt; folder.read(3, &mut buffer)?, 2);
    assert_eq!(rt; &buffer[..2], b"de".as_slice());
    assert_eq!(rt; folder.read(u64::MAX, &mut buffer)?, 0);
    folder.cut(9)?;
    assert_eq!(rt; folder.length()?, 5);
    folder.cut(4)?;
    folder.put_checkpoint(b"two")?;
    expect_text(&rt, "calls/checkpoint", "two")?;
    folder.close(7, true)?;
    expect_text(&rt, "calls/reports/cycle-000007", "abcd")?;
    expect_text(&rt, "calls/reports/checkpoint-000007", "two")?;
    folder.append(b"x")?;
    folder.put_checkpoint(b"three")?;
    assert_eq!(rt; folder.close(7, false).err(), Some(FolderTrouble::Taken));
    folder.close(8, false)?;
    expect_text(&rt, "calls/reports/incomplete-000008", "x")?;
    assert_eq!(rt; folder.close(8, true).err(), Some(FolderTrouble::Taken));
    folder.close(9, true)?;
    expect_text(&rt, "calls/reports/cycle-000009", "")?;
    expect_closed(&rt, &mut folder)?;
    assert!(rt; folder.reason().is_none());
    fs::remove_dir_all(&rt, "calls")?;
    Ok(())
}

#[test]
fn a_folder_is_held_and_taken_up(rt: HostRuntime) -> Result<(), Fail> {
    fresh(&rt, "held")?;
    let missing = FsState::open(rt.clone()?, "held", false);
    assert!(rt; matches!(missing, Err(StateStop::NoFolder)));
    fs::create_dir(&rt, "held")?;
    let empty = FsState::open(rt.clone()?, "held", false);
    assert!(rt; matches!(empty, Err(StateStop::NoCheckpoint)));
    assert!(rt; !fs::exists(&rt, "held/lock")?);
    let mut folder = open(&rt, "held", true)?;
    let second = FsState::open(rt.clone()?, "held", true);
    assert!(rt; matches!(second, Err(StateStop::Held)));
    folder.put_checkpoint(b"mark")?;
    folder.append(b"abc")?;
    drop(folder);
    let mut folder = open(&rt, "held", false)?;
    let Some(checkpoint) = folder.checkpoint()? else {
        return Err("no checkpoint".into());
    };
    assert_eq!(rt; checkpoint.as_slice(), b"mark".as_slice());
    folder.append(b"d")?;
    expect_text(&rt, "held/report", "abcd")?;
    drop(folder);
    fs::remove_file(&rt, "held/checkpoint")?;
    let used = FsState::open(rt.clone()?, "held", true);
    assert!(rt; matches!(used, Err(StateStop::Used(StateFile::Report))));
    fs::write(&rt, "held/cursor", "")?;
    let scripts = FsState::open(rt.clone()?, "held", true);
    assert!(rt; matches!(scripts, Err(StateStop::OfScripts(StateFile::ScriptsCursor))));
    fs::remove_dir_all(&rt, "held")?;
    Ok(())
}

#[test]
fn no_link_is_followed(rt: HostRuntime) -> Result<(), Fail> {
    for name in ["checkpoint", "report", "reports", "lock", "log"] {
        fresh(&rt, "linked")?;
        fs::create_dir(&rt, "linked")?;
        fs::write(&rt, "linked/elsewhere", "")?;
        let path = format!(in rt.alloc(); "linked/{name}")?;
        os::unix::fs::symlink(&rt, "elsewhere", path.as_str())?;
        let Err(StateStop::Failed(reason)) = FsState::open(rt.clone()?, "linked", true) else {
            return Err("opened".into());
        };
        let file = format!(in rt.alloc(); "{}", reason.file)?;
        assert_eq!(rt; file.as_str(), name);
        expect_text(&rt, "linked/elsewhere", "")?;
    }
    fresh(&rt, "linked")
}

#[test]
fn a_failed_call_keeps_its_reason(rt: HostRuntime) -> Result<(), Fail> {
    fresh(&rt, "reasons")?;
    let mut folder = open(&rt, "reasons", true)?;
    let large = vec![in rt.alloc(); b'x'; 1_048_577]?;
    assert_eq!(rt;
        folder.put_checkpoint(large.as_slice()).err(),
        Some(FolderTrouble::Failed)
    );
    assert!(rt; folder.checkpoint()?.is_none());
    folder.put_checkpoint(&large[..1_048_576])?;
    assert!(rt; folder.checkpoint()?.is_some());
    fs::write(&rt, "reasons/checkpoint", large.as_slice())?;
    assert_eq!(rt; folder.checkpoint().err(), Some(FolderTrouble::Failed));
    let Some(reason) = folder.reason() else {
        return Err("no reason".into());
    };
    assert_eq!(rt; reason.file, StateFile::Checkpoint);
    let why = format!(in rt.alloc(); "{}", reason.error)?;
    assert_eq!(rt; why.as_str(), "more than 1 MiB");
    fs::remove_dir_all(&rt, "reasons")?;
    assert_eq!(rt;
        folder.put_checkpoint(b"").err(),
        Some(FolderTrouble::Failed)
    );
    Ok(())
}

#[test]
fn other_files_are_read_and_written(rt: HostRuntime) -> Result<(), Fail> {
    fresh(&rt, "others")?;
    let mut folder = open(&rt, "others", true)?;
    folder.append_log(b"one\n")?;
    let log = FsLog::at(rt.clone()?, "others")?;
    log.append(b"two\n").map_err(|reason| reason.trouble())?;
    folder.append_log(b"three\n")?;
    expect_text(&rt, "others/log", "one\ntwo\nthree\n")?;
    assert!(rt; folder.open_closed(1)?.is_none());
    folder.append(b"abc")?;
    folder.close(1, false)?;
    let Some(mut closed) = folder.open_closed(1)? else {
        return Err("not closed".into());
    };
    let mut text = Vec::new(rt.alloc());
    closed.file.read_to_end(&mut text)?;
    assert!(rt; !closed.whole && text.as_slice() == b"abc".as_slice());
    assert!(rt; folder.open_closed_as(1, true)?.is_none());
    assert!(rt; folder.open_closed_as(1, false)?.is_some());
    fs::remove_dir_all(&rt, "others")?;
    Ok(())
}
