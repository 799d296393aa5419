//! A file system that fails where it is told to.
ghost use Rattle.std.specs.Prelude.{IsErr};

use crate::tests::common::store::place_of;
use ocfl_folder::FsTree;
use ocfl_tree::{Place, Tree, Trouble};
use std::alloc::{Allocator, Global};
use std::cell::Cell;
use std::fs::{Metadata, OpenFile, OpenOptions};
use std::io::{self, ErrorKind, Read, Seek, SeekFrom, Write};
use std::rc::Rc;
use std::rt::Files;
use std::test::Fail;

#[derive(Clone, Copy, PartialEq, Eq, Debug)]
enum Call {
    OpenDir,
    Name,
    /// The read of a listing that finds its end.
    End,
    OpenFile,
    Opened,
    Read,
    Metadata,
}

/// Which kind of call fails, with which error, and how often.
#[derive(Clone, Drop)]
struct Faults {
    call: Call,
    kind: ErrorKind,
    left: Rc<Cell<u32>>,
}

impl Faults {
    fn meet(&self, call: Call) -> io::Result<()> {
        let left = self.left.get();
        if self.call == call && left > 0 {
            self.left.set(left - 1);
            return Err(io::Error::from(self.kind));
        }
        Ok(())
    }
}

/// A folder that has these names, each ended by a NUL; `gone` is not there when it is looked at,
/// names that end in `dir` are directories, and `other` is a file that is another once it is open.
#[derive(Clone, Drop)]
struct Fake {
    alloc: Global,
    faults: Faults,
    names: &'static [u8],
    /// How many further names it has, of a number each.
    numbered: u64,
    /// How often the folder or a name was looked at.
    looks: Rc<Cell<u32>>,
}

impl Fake {
    /// One in which a kind of call fails a number of times.
    fn new(
        alloc: Global,
        names: &'static [u8],
        call: Call,
        kind: ErrorKind,
        often: u32,
    ) -> Result<Fake, Fail> {
        let left = Rc::new(alloc, Cell::new(often))?;
        Ok(Fake {
            alloc,
            faults: Faults { call, kind, left },
            names,
            numbered: 0,
            looks: Rc::new(alloc, Cell::new(0))?,
        })
    }
}

/// A directory that is being read: each read gives one name.
#[derive(Drop)]
struct FakeDir {
    alloc: Global,
    faults: Faults,
    names: &'static [u8],
    numbered: u64,
}

impl FakeDir {
    /// Gives the next number as a name.
    fn read_number(&mut self, buffer: &mut [u8]) -> io::Result<usize> {
        self.numbered -= 1;
        let name = format!(in self.alloc; "{}\0", self.numbered)?;
        let count = name.len();
        buffer[..count].copy_from_slice(name.as_bytes());
        Ok(count)
    }
}

#[derive(Drop)]
struct FakeFile {
    faults: Faults,
    left: u8,
    is_other: bool,
}

fn unsupported<T>() -> io::Result<T>
    ensures { IsErr result }
{
    Err(io::Error::from(ErrorKind::Unsupported))
}

impl Read for FakeDir {
    fn read(&mut self, buffer: &mut [u8]) -> io::Result<usize> {
        if self.numbered > 0 {
            return self.read_number(buffer);
        }
        let ends = self.names.is_empty();
        self.faults.meet(if ends { Call::End } else { Call::Name })?;
        let count = match self.names.iter().position(|byte| *byte == 0) {
            Some(end) => end + 1,
            None => self.names.len(),
        };
        if count > buffer.len() {
            return unsupported();
        }
        buffer[..count].copy_from_slice(&self.names[..count]);
        self.names = &self.names[count..];
        Ok(count)
    }
}

impl Read for FakeFile {
    fn read(&mut self, buffer: &mut [u8]) -> io::Result<usize> {
        if buffer.is_empty() || self.left == 0 {
            return Ok(0);
        }
        self.faults.meet(Call::Read)?;
        self.left -= 1;
        buffer[0] = b'x';
        Ok(1)
    }
}

impl Write for FakeFile {
    fn write(&mut self, _buffer: &[u8]) -> io::Result<usize> {
        unsupported()
    }

    fn flush(&mut self) -> io::Result<()> {
        unsupported()
    }
}

impl Seek for FakeFile {
    fn seek(&mut self, _to: SeekFrom) -> io::Result<u64> {
        unsupported()
    }
}

impl OpenFile for FakeFile {
    fn metadata(&self) -> io::Result<Metadata> {
        self.faults.meet(Call::Opened)?;
        if self.is_other {
            return Ok(Metadata::of_dir());
        }
        Ok(Metadata::of_file(3))
    }

    fn set_len(&self, _size: u64) -> io::Result<()> {
        unsupported()
    }

    fn sync_all(&self) -> io::Result<()> {
        unsupported()
    }

    fn sync_data(&self) -> io::Result<()> {
        unsupported()
    }
}

impl Alloc for Fake {
    type A = Global;

    fn alloc(&self) -> Global {
        self.alloc
    }
}

impl Files for Fake {
    type File = FakeFile;

    type Dir = FakeDir;

    fn open_file(&self, how: &OpenOptions, path: &str) -> io::Result<FakeFile> {
        how.check()?;
        self.faults.meet(Call::OpenFile)?;
        Ok(FakeFile {
            faults: self.faults.clone()?,
            left: 3,
            is_other: path.ends_with("other"),
        })
    }

    fn open_dir(&self, _path: &str) -> io::Result<FakeDir> {
        self.faults.meet(Call::OpenDir)?;
        Ok(FakeDir {
            alloc: self.alloc,
            faults: self.faults.clone()?,
            names: self.names,
            numbered: self.numbered,
        })
    }

    fn metadata(&self, _path: &str) -> io::Result<Metadata> {
        self.faults.meet(Call::Metadata)?;
        self.looks.set(self.looks.get().saturating_add(1));
        Ok(Metadata::of_dir())
    }

    fn symlink_metadata(&self, path: &str) -> io::Result<Metadata> {
        self.faults.meet(Call::Metadata)?;
        self.looks.set(self.looks.get().saturating_add(1));
        if path.ends_with("gone") {
            return Err(io::Error::from(ErrorKind::NotFound));
        }
        if path.ends_with("dir") {
            return Ok(Metadata::of_dir());
        }
        Ok(Metadata::of_file(3))
    }

    fn copy(&self, _from: &str, _to: &str) -> io::Result<u64> {
        unsupported()
    }

    fn rename(&self, _from: &str, _to: &str) -> io::Result<()> {
        unsupported()
    }

    fn remove_file(&self, _path: &str) -> io::Result<()> {
        unsupported()
    }

    fn create_dir(&self, _path: &str) -> io::Result<()> {
        unsupported()
    }

    fn remove_dir(&self, _path: &str) -> io::Result<()> {
        unsupported()
    }

    fn remove_dir_all<B: Allocator>(&self, _alloc: B, _path: &str) -> io::Result<()> {
        unsupported()
    }
}

/// What `list` answers.
fn listed<R: Files + AllocGlobal + Clone + Drop>(rt: R) -> Result<Result<usize, Trouble>, Fail> {
    let root = Place::root(rt.alloc());
    let mut store = FsTree::at(&rt, "top")?;
    let answer = store.list(&root);
    Ok(answer.map(|entries| entries.len()))
}

/// What reading the whole of a file of 3 bytes answers.
fn read<R: Files + AllocGlobal + Clone + Drop>(rt: R) -> Result<Result<usize, Trouble>, Fail> {
    let place = place_of(rt.alloc(), "f")?;
    let mut store = FsTree::at(&rt, "top")?;
    if let Err(trouble) = store.open(&place) {
        return Ok(Err(trouble));
    }
    let mut buffer = [0; 9];
    let mut sum = 0usize;
    for _ in 0..9 {
        match store.read(&mut buffer) {
            Ok(0) => break,
            Ok(count) => sum = sum.saturating_add(count),
            Err(trouble) => return Ok(Err(trouble)),
        }
    }
    Ok(Ok(sum))
}

#[test]
fn interrupted_calls_are_made_again(rt: HostRuntime) -> Result<(), Fail> {
    let alloc = rt.alloc();
    let names = b"a\0b\0";
    let kind = ErrorKind::Interrupted;
    for (often, answers) in [(5, true), (u32::MAX, false)] {
        let row = format!(in alloc; "interrupted {often} times")?;
        for call in [Call::Metadata, Call::OpenDir, Call::Name] {
            let want = if answers { Ok(2) } else { Err(Trouble::Device) };
            let answer = listed(Fake::new(alloc, names, call, kind, often)?)?;
            assert_eq!(rt; answer, want, "{call:?} {row}");
        }
        for call in [Call::Metadata, Call::OpenFile, Call::Opened, Call::Read] {
            let want = if answers { Ok(3) } else { Err(Trouble::Device) };
            let answer = read(Fake::new(alloc, names, call, kind, often)?)?;
            assert_eq!(rt; answer, want, "{call:?} {row}");
        }
    }
    Ok(())
}

#[test]
fn faults_of_the_system_are_told_apart(rt: HostRuntime) -> Result<(), Fail> {
    let alloc = rt.alloc();
    let names = b"a\0b\0";
    for (kind, want) in [
        (ErrorKind::NotFound, Trouble::Absent),
        (ErrorKind::OutOfMemory, Trouble::Memory),
        (ErrorKind::PermissionDenied, Trouble::Device),
        (ErrorKind::Other, Trouble::Device),
    ] {
        let answer = listed(Fake::new(alloc, names, Call::Metadata, kind, 1)?)?;
        assert_eq!(rt; answer, Err(want), "{kind:?} of a look");
        let answer = read(Fake::new(alloc, names, Call::OpenFile, kind, 1)?)?;
        assert_eq!(rt; answer, Err(want), "{kind:?} of an opening");
        let answer = read(Fake::new(alloc, names, Call::Read, kind, 1)?)?;
        assert_eq!(rt; answer, Err(Trouble::Device), "{kind:?} of a read");
        // A directory that it is in and a file that is open are there.
        let absent = want == Trouble::Absent;
        let want = if absent { Trouble::Device } else { want };
        let answer = listed(Fake::new(alloc, names, Call::OpenDir, kind, 1)?)?;
        assert_eq!(rt; answer, Err(want), "{kind:?} of a directory");
        let answer = read(Fake::new(alloc, names, Call::Opened, kind, 1)?)?;
        assert_eq!(rt; answer, Err(want), "{kind:?} of an open file");
    }
    Ok(())
}

// Seen to fail if a file that is another once it is open is reported as out of memory.
#[test]
fn a_file_that_is_another_once_it_is_open_is_the_devices(rt: HostRuntime) -> Result<(), Fail> {
    let files = Fake::new(rt.alloc(), b"other\0", Call::Name, ErrorKind::Other, 0)?;
    let mut store = FsTree::at(&files, "top")?;
    let opened = store.open(&place_of(rt.alloc(), "other")?);
    assert_eq!(rt; opened, Err(Trouble::Device));
    Ok(())
}

// Seen to fail if a listing's error is taken for its end.
#[test]
fn strange_listings_are_the_devices(rt: HostRuntime) -> Result<(), Fail> {
    let alloc = rt.alloc();
    let kind = ErrorKind::NotFound;
    let names = b"b\0.\0a\0..\0";
    assert_eq!(rt;
        listed(Fake::new(alloc, names, Call::Name, kind, 0)?)?,
        Ok(2)
    );
    for (row, names) in [
        ("a name twice", b"a\0b\0a\0".as_slice()),
        ("a name that is not UTF-8", b"a\0\xff\0".as_slice()),
        ("a name that is gone", b"a\0gone\0".as_slice()),
    ] {
        let answer = listed(Fake::new(alloc, names, Call::Name, kind, 0)?)?;
        assert_eq!(rt; answer, Err(Trouble::Device), "{row}");
    }
    let answer = listed(Fake::new(alloc, names, Call::Name, kind, 1)?)?;
    assert_eq!(rt; answer, Err(Trouble::Device));
    Ok(())
}

// Seen to fail if a listing's error is taken for its end.
#[test]
fn a_listing_that_fails_behind_its_names_is_no_listing(rt: HostRuntime) -> Result<(), Fail> {
    let alloc = rt.alloc();
    let names = b"a\0b\0";
    for (kind, often, want) in [
        (ErrorKind::NotFound, 0, Ok(2)),
        (ErrorKind::NotFound, 1, Err(Trouble::Device)),
        (ErrorKind::PermissionDenied, 1, Err(Trouble::Device)),
        (ErrorKind::Other, 1, Err(Trouble::Device)),
        (ErrorKind::OutOfMemory, 1, Err(Trouble::Memory)),
        (ErrorKind::Interrupted, 5, Ok(2)),
        (ErrorKind::Interrupted, u32::MAX, Err(Trouble::Device)),
    ] {
        let answer = listed(Fake::new(alloc, names, Call::End, kind, often)?)?;
        assert_eq!(rt; answer, want, "{kind:?}, {often} times");
    }
    Ok(())
}

// Seen to fail if a listing is given up after 1,003 reads of its folder.
#[test]
fn a_listing_of_many_reads_is_whole(rt: HostRuntime) -> Result<(), Fail> {
    for count in [1_002u64, 1_003, 3_000] {
        let mut files = Fake::new(rt.alloc(), b"", Call::Name, ErrorKind::Other, 0)?;
        files.numbered = count;
        assert_eq!(rt;
            listed(files)?,
            Ok(count as usize),
            "{count} names, one a read"
        );
    }
    Ok(())
}

/// Files that are opened one after the other, and how often each opening looks at something.
const OPENED: [(&str, u32); 8] = [
    ("dir/a-dir/f", 1),
    // Up, it looks where it is.
    ("dir/f", 2),
    // The folder itself is found by its own path.
    ("f", 2),
    // Down, it looks at each name, and where it is.
    ("dir/a-dir/g", 5),
    ("dir/dir/f", 4),
    ("dir/dir/g", 1),
    ("b-dir/f", 4),
    ("b-dir/g", 1),
];

#[test]
fn each_step_is_looked_at(rt: HostRuntime) -> Result<(), Fail> {
    let files = Fake::new(rt.alloc(), b"a\0dir\0", Call::Name, ErrorKind::Other, 0)?;
    let looks = files.looks.clone()?;
    let mut store = FsTree::at(&files, "top")?;
    // A listing looks at each of two entries.
    for (path, want) in [("", 3), ("dir", 4), ("dir/dir", 4), ("dir/a-dir", 5)] {
        looks.set(0);
        store.list(&place_of(rt.alloc(), path)?)?;
        assert_eq!(rt; looks.get(), want, "{path}");
    }
    for (path, want) in OPENED {
        looks.set(0);
        store.open(&place_of(rt.alloc(), path)?)?;
        assert_eq!(rt; looks.get(), want, "{path}");
    }
    Ok(())
}
