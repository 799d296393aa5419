//! Which calls a state folder makes of a disk, in which order, and what it does if one fails.
ghost use mathlib.Core.Bool.{false≢true};

use crate::tests::common::Runtime;
use ocfl_disk::{Disk, FsState, Reason, StateFile};
use ocfl_state::{FolderTrouble, StateFolder};
use std::alloc::Global;
use std::cell::Cell;
use std::io::{self, ErrorKind};
use std::rc::Rc;
use std::test::Fail;

/// An open file.
#[derive(Drop)]
struct Handle {
    _name: StateFile,
}

/// A disk that notes its calls, each with `;`, and fails at one. Its report is there once it was
/// made, until it is renamed.
#[derive(Drop)]
struct Recorder {
    alloc: Global,
    calls: Rc<Cell<String>>,
    count: u64,
    failing: u64,
    has_report: bool,
    has_reports: bool,
}

impl Recorder {
    fn new(alloc: Global, calls: Rc<Cell<String>>, failing: u64) -> Recorder {
        Recorder {
            alloc,
            calls,
            count: 0,
            failing,
            has_report: false,
            has_reports: false,
        }
    }

    fn call(&mut self, name: &str, file: StateFile) -> Result<(), Reason> {
        let calls = self.calls.replace(String::new(self.alloc));
        if let Ok(calls) = format!(in self.alloc; "{calls}{name} {file};") {
            self.calls.set(calls);
        }
        self.count += 1;
        if self.count == self.failing {
            let error = io::Error::from(ErrorKind::Other);
            return Err(Reason { file, error });
        }
        Ok(())
    }
}

impl Disk for Recorder {
    type File = Handle;

    ghost is_disk = { λ told disk. absurd (false≢true told) };

    fn has_reports(&mut self) -> Result<bool, Reason> {
        self.call("look", StateFile::Reports)?;
        Ok(self.has_reports)
    }

    fn has_closed(&mut self, cycle: u64, whole: bool) -> Result<bool, Reason> {
        let file = if whole {
            StateFile::Whole(cycle)
        } else {
            StateFile::Incomplete(cycle)
        };
        self.call("look", file)?;
        Ok(false)
    }

    fn open(&mut self, name: StateFile) -> Result<Option<Handle>, Reason> {
        self.call("open", name)?;
        if name == StateFile::Report && !self.has_report {
            return Ok(None);
        }
        Ok(Some(Handle { _name: name }))
    }

    fn count_names(&mut self, _report: &Handle) -> Result<u64, Reason> {
        Ok(1)
    }

    fn create(&mut self, name: StateFile) -> Result<Handle, Reason> {
        self.call("create", name)?;
        self.has_report |= name == StateFile::Report;
        Ok(Handle { _name: name })
    }

    fn length(&mut self, name: StateFile, _file: &Handle) -> Result<u64, Reason> {
        self.call("length", name)?;
        Ok(9)
    }

    fn read_front(
        &mut self,
        name: StateFile,
        _file: Handle,
        _most: u64,
    ) -> Result<Vec<u8>, Reason> {
        self.call("read", name)?;
        Ok(Vec::new(self.alloc))
    }

    fn read_at(
        &mut self,
        name: StateFile,
        _file: &Handle,
        _start: u64,
        _buffer: &mut [u8],
    ) -> Result<usize, Reason> {
        self.call("read", name)?;
        Ok(0)
    }

    fn append(&mut self, name: StateFile, _file: &mut Handle, _bytes: &[u8]) -> Result<(), Reason> {
        self.call("append", name)
    }

    fn cut(&mut self, _report: &Handle, _most: u64) -> Result<(), Reason> {
        self.call("cut", StateFile::Report)
    }

    fn sync(&mut self, name: StateFile, _file: &Handle) -> Result<(), Reason> {
        self.call("sync", name)
    }

    fn create_reports(&mut self) -> Result<(), Reason> {
        self.call("make", StateFile::Reports)?;
        self.has_reports = true;
        Ok(())
    }

    fn remove_new(&mut self) -> Result<(), Reason> {
        self.call("remove", StateFile::NewCheckpoint)
    }

    fn rename_new(&mut self) -> Result<(), Reason> {
        self.call("rename", StateFile::Checkpoint)
    }

    fn rename_kept(&mut self, cycle: u64) -> Result<(), Reason> {
        self.call("rename", StateFile::Kept(cycle))
    }

    /// It is made, even if it fails.
    fn rename_report(&mut self, cycle: u64, whole: bool) -> Result<(), Reason> {
        self.has_report = false;
        if whole {
            self.call("rename", StateFile::Whole(cycle))
        } else {
            self.call("rename", StateFile::Incomplete(cycle))
        }
    }

    fn sync_folder(&mut self, folder: StateFile) -> Result<(), Reason> {
        self.call("sync", folder)
    }
}

const BESIDE: &str = "remove checkpoint.new;create checkpoint.new;append checkpoint.new;\
                      sync checkpoint.new;";

/// What is asked of a state folder.
#[derive(Clone, Copy)]
enum Asked {
    Put,
    Append,
    Cut,
    Sync,
    Close,
}

fn ask(folder: &mut FsState<Recorder>, asked: Asked) -> Result<(), FolderTrouble> {
    match asked {
        Asked::Put => folder.put_checkpoint(b"mark"),
        Asked::Append => folder.append(b"abc"),
        Asked::Cut => folder.cut(4),
        Asked::Sync => folder.sync(),
        Asked::Close => folder.close(7, true),
    }
}

/// The calls that are made, of which the one of this number fails, and what is answered.
fn calls_of(
    alloc: Global,
    asked: &[Asked],
    failing: u64,
) -> Result<(String, Option<FolderTrouble>), Fail> {
    let calls = Rc::new(alloc, Cell::new(String::new(alloc)))?;
    let mut folder = FsState::over(Recorder::new(alloc, calls.clone()?, failing));
    let mut answer = None;
    for one in asked {
        if let Err(trouble) = ask(&mut folder, *one) {
            answer = Some(trouble);
        }
    }
    Ok((calls.replace(String::new(alloc)), answer))
}

fn expect_calls(
    rt: &impl Runtime,
    asked: &[Asked],
    failing: u64,
    want: &str,
    answer: Option<FolderTrouble>,
) -> Result<(), Fail> {
    let (calls, got) = calls_of(rt.alloc(), asked, failing)?;
    assert_eq!(rt; calls.as_str(), want, "{failing}");
    assert_eq!(rt; got, answer, "{failing}");
    Ok(())
}

#[test]
fn a_checkpoint_is_on_the_disk_before_its_name(rt: HostRuntime) -> Result<(), Fail> {
    let want = format!(in rt.alloc(); "{BESIDE}rename checkpoint;sync .;")?;
    expect_calls(&rt, &[Asked::Put], 0, want.as_str(), None)?;
    let mut ends = 0;
    for failing in 1..=6 {
        let rest = &want[ends..];
        ends += rest.find(';').unwrap_or(0) + 1;
        expect_calls(
            &rt,
            &[Asked::Put],
            failing,
            &want[..ends],
            Some(FolderTrouble::Failed),
        )?;
    }
    assert_eq!(rt; ends, want.len());
    Ok(())
}

#[test]
fn a_report_is_on_the_disk_before_it_is_closed(rt: HostRuntime) -> Result<(), Fail> {
    let want = format!(in rt.alloc();
        "open report;create report;append report;length report;cut report;\
         look reports;\
         sync report;look reports;make reports;sync .;open checkpoint;read checkpoint;{BESIDE}\
         rename reports/checkpoint-000007;rename reports/cycle-000007;\
         look reports;sync reports;sync .;open report;look reports;sync reports;sync .;"
    )?;
    let asked = [Asked::Append, Asked::Cut, Asked::Close, Asked::Sync];
    expect_calls(&rt, &asked, 0, want.as_str(), None)
}

#[test]
fn a_report_is_looked_for_after_a_closing_that_failed(rt: HostRuntime) -> Result<(), Fail> {
    let want = format!(in rt.alloc();
        "open report;create report;append report;\
         look reports;\
         sync report;look reports;make reports;sync .;open checkpoint;read checkpoint;{BESIDE}\
         rename reports/checkpoint-000007;rename reports/cycle-000007;\
         open report;create report;append report;"
    )?;
    let asked = [Asked::Append, Asked::Close, Asked::Append];
    expect_calls(&rt, &asked, 16, want.as_str(), Some(FolderTrouble::Failed))
}
