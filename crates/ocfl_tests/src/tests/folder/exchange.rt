//! Files that are exchanged between the look and the opening.
use crate::tests::common::store::place_of;
use ocfl_folder::FsTree;
use ocfl_tree::{Place, Tree, Trouble};
use std::alloc::{Allocator, Global};
use std::fs::{self, Metadata, OpenOptions};
use std::io;
use std::os::unix;
use std::rt::Files;
use std::test::Fail;

/// The system's files, where something else is moved to the path that is opened next.
#[derive(Clone, Drop)]
struct Exchanging {
    rt: HostRuntime,
    spare: &'static str,
}

impl Alloc for Exchanging {
    type A = Global;

    fn alloc(&self) -> Global {
        self.rt.alloc()
    }
}

impl Files for Exchanging {
    type File = <HostRuntime as Files>::File;

    type Dir = <HostRuntime as Files>::Dir;

    fn open_file(&self, how: &OpenOptions, path: &str) -> io::Result<Self::File> {
        if !self.spare.is_empty() {
            self.rt.remove_file(path)?;
            self.rt.rename(self.spare, path)?;
        }
        self.rt.open_file(how, path)
    }

    fn open_dir(&self, path: &str) -> io::Result<Self::Dir> {
        self.rt.open_dir(path)
    }

    fn metadata(&self, path: &str) -> io::Result<Metadata> {
        self.rt.metadata(path)
    }

    fn symlink_metadata(&self, path: &str) -> io::Result<Metadata> {
        self.rt.symlink_metadata(path)
    }

    fn copy(&self, from: &str, to: &str) -> io::Result<u64> {
        self.rt.copy(from, to)
    }

    fn rename(&self, from: &str, to: &str) -> io::Result<()> {
        self.rt.rename(from, to)
    }

    fn remove_file(&self, path: &str) -> io::Result<()> {
        self.rt.remove_file(path)
    }

    fn create_dir(&self, path: &str) -> io::Result<()> {
        self.rt.create_dir(path)
    }

    fn remove_dir(&self, path: &str) -> io::Result<()> {
        self.rt.remove_dir(path)
    }

    fn remove_dir_all<B: Allocator>(&self, alloc: B, path: &str) -> io::Result<()> {
        self.rt.remove_dir_all(alloc, path)
    }
}

/// What the file `f` of a folder gives, after a listing of the folder or without one.
fn read<R: Files + AllocGlobal + Clone + Drop>(
    rt: R,
    top: &str,
    is_listed: bool,
) -> Result<Result<usize, Trouble>, Fail> {
    let (root, place) = (Place::root(rt.alloc()), place_of(rt.alloc(), "f")?);
    let mut store = FsTree::at(&rt, top)?;
    if is_listed {
        store.list(&root)?;
    }
    if let Err(trouble) = store.open(&place) {
        return Ok(Err(trouble));
    }
    let mut buffer = [0; 9];
    Ok(store.read(&mut buffer))
}

/// What a file gives if this is moved to its path right before it is opened.
fn read_as(
    rt: &HostRuntime,
    spare: &'static str,
    is_listed: bool,
) -> Result<Result<usize, Trouble>, Fail> {
    if fs::exists(rt, "exchange")? {
        fs::remove_dir_all(rt, "exchange")?;
    }
    fs::create_dir(rt, "exchange")?;
    fs::create_dir(rt, "exchange/dir")?;
    for file in ["exchange/f", "exchange/other", "exchange/third"] {
        fs::write(rt, file, "same")?;
    }
    unix::fs::symlink(rt, "third", "exchange/link")?;
    let files = Exchanging {
        rt: rt.clone()?,
        spare,
    };
    let answer = read(files, "exchange", is_listed)?;
    fs::remove_dir_all(rt, "exchange")?;
    Ok(answer)
}

#[test]
fn an_exchanged_file_is_the_devices(rt: HostRuntime) -> Result<(), Fail> {
    for (when, is_listed) in [("not listed", false), ("listed", true)] {
        assert_eq!(rt; read_as(&rt, "", is_listed)?, Ok(4), "{when}");
        for (row, spare) in [
            ("another file", "exchange/other"),
            ("a link", "exchange/link"),
            ("a directory", "exchange/dir"),
        ] {
            let answer = read_as(&rt, spare, is_listed)?;
            assert_eq!(rt; answer, Err(Trouble::Device), "{row}, {when}");
        }
        // It was looked at, and then went away.
        let answer = read_as(&rt, "exchange/missing", is_listed)?;
        assert_eq!(rt; answer, Err(Trouble::Absent), "{when}");
    }
    Ok(())
}
