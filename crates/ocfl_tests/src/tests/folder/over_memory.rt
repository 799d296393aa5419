//! A folder over the calls of the system in memory, against the tree itself.
use crate::tests::common::roots::{ROOTS, built, right_object};
use crate::tests::common::store::place_of;
use ocfl_digest::Block;
use ocfl_folder::{Answer, FsTree, ReadAnswer};
use ocfl_memory::{MemSystem, MemTree, MemWatch, Point, Watch, folder_over};
use ocfl_report::Further;
use ocfl_scrub::audited;
use ocfl_tree::{Opening, Place, Tree, Trouble};
use std::alloc::{AllocError, Global};
use std::io::ErrorKind;
use std::process::Abort;
use std::test::Fail;

/// The status and the note of an audit of a store, and its report.
fn audit<T: Tree>(alloc: Global, store: &mut T) -> Result<(u8, String, Vec<u8>), Fail> {
    let mut report = Vec::new(alloc);
    let (status, note) = audited(
        alloc,
        store,
        Further::Nothing,
        &mut Block::new(alloc)?,
        &mut report,
    );
    Ok((status, format!(in alloc; "{note}")?, report))
}

/// A line for each opening and listing.
fn told(alloc: Global, openings: &[Opening], listings: &[Place]) -> Result<String, Fail> {
    let mut text = String::new(alloc);
    for opening in openings {
        let line = format!(in alloc;
            "{} {} {};",
            opening.place.path(),
            opening.given,
            opening.failed
        )?;
        text.push_str(line.as_str())?;
    }
    for place in listings {
        text.push_str(place.path())?;
        text.push(';')?;
    }
    Ok(text)
}

#[test]
fn a_folder_over_memory_gives_what_the_memory_gives(rt: HostRuntime) -> Result<(), Fail> {
    let alloc = rt.alloc();
    for root in &ROOTS {
        let mut memory = built(alloc, root)?;
        let mut store = folder_over(alloc, built(alloc, root)?, 0);
        let (want, got) = (audit(alloc, &mut memory)?, audit(alloc, &mut store)?);
        assert!(rt;
            want.0 == got.0 && want.1 == got.1 && want.2 == got.2,
            "{}",
            root.0
        );
        // The record of the calls is the same.
        let noted = store.system().watch();
        let told_there = told(alloc, memory.openings(), memory.listings())?;
        let told_here = told(alloc, noted.openings(), noted.listings())?;
        assert_eq!(rt; told_here.as_str(), told_there.as_str(), "{}", root.0);
        assert!(rt; noted.failed_listings().is_empty(), "{}", root.0);
        assert_eq!(rt; noted.failures(), 0, "{}", root.0);
        assert_eq!(rt; noted.largest_read(), memory.largest_read(), "{}", root.0);
    }
    Ok(())
}

/// The tree in memory, in which fails what failed in the folder: one opening or listing.
fn failing_so<R: AllocGlobal + Abort>(
    rt: &R,
    row: &str,
    noted: &MemWatch,
) -> Result<MemTree, Fail> {
    let mut memory = right_object(rt.alloc())?;
    for place in noted.failed_listings() {
        memory.fail_at(place, Point::List)?;
    }
    for opening in noted.openings() {
        if opening.failed {
            memory.fail_at(&opening.place, Point::Open)?;
        }
    }
    assert_eq!(rt; noted.failures(), 1, "{row}");
    Ok(memory)
}

#[test]
fn each_call_over_memory_that_fails_is_told(rt: HostRuntime) -> Result<(), Fail> {
    let alloc = rt.alloc();
    let whole = audit(alloc, &mut right_object(alloc)?)?;
    let mut store = folder_over(alloc, right_object(alloc)?, 0);
    audit(alloc, &mut store)?;
    let calls = store.system().watch().calls();
    assert!(rt; calls > 20, "{calls} calls");
    for when in 1..=calls {
        let row = format!(in alloc; "call {when} of {calls} fails")?;
        let mut store = folder_over(alloc, right_object(alloc)?, when);
        let got = audit(alloc, &mut store)?;
        let mut memory = failing_so(&rt, row.as_str(), store.system().watch())?;
        let want = audit(alloc, &mut memory)?;
        assert!(rt;
            want.0 == got.0 && want.1 == got.1 && want.2 == got.2,
            "{row}"
        );
        assert!(rt; got.2 != whole.2, "{row}: nothing is told of it");
        // The folder goes on.
        let again = audit(alloc, &mut store)?;
        assert!(rt; again.0 == whole.0 && again.2 == whole.2, "{row}, again");
    }
    Ok(())
}

#[test]
fn what_cannot_be_counted_is_not_noted(rt: HostRuntime) -> Result<(), Fail> {
    let alloc = rt.alloc();
    let mut watch = MemWatch::new(alloc, 0);
    assert!(rt; watch.note_read(9, ReadAnswer::Failed).is_err(), "no file");
    watch.note(&Place::root(alloc), Answer::NotListed)?;
    watch.note(&place_of(alloc, "a")?, Answer::Opened)?;
    watch.note_read(7, ReadAnswer::Gave(usize::MAX))?;
    assert!(rt;
        watch.note_read(8, ReadAnswer::Gave(1)).is_err(),
        "too many bytes"
    );
    watch.note_read(5, ReadAnswer::Failed)?;
    assert!(rt;
        watch.note_read(8, ReadAnswer::Failed).is_err(),
        "it failed before"
    );
    let noted = told(alloc, watch.openings(), watch.failed_listings())?;
    assert_eq!(rt; noted.as_str(), "a 18446744073709551615 true;;");
    assert_eq!(rt; (watch.failures(), watch.largest_read()), (2, 7));
    Ok(())
}

/// Refuses the notes of reads, or those of all else.
#[derive(Drop)]
struct Refusing {
    reads: bool,
}

impl Refusing {
    fn refuses(&self, read: bool) -> Result<(), AllocError> {
        if read == self.reads {
            return Err(AllocError);
        }
        Ok(())
    }
}

impl Watch for Refusing {
    ghost use Rattle.ocfl_tree.specs.Store.{empty_store};

    ghost noted = { λ _. empty_store };

    fn strikes(&self) -> bool {
        false
    }

    fn note(&mut self, _place: &Place, _answer: Answer) -> Result<(), AllocError> {
        self.refuses(false)
    }

    fn note_read(&mut self, _room: usize, _answer: ReadAnswer) -> Result<(), AllocError> {
        self.refuses(true)
    }
}

#[test]
fn a_note_that_is_refused_is_told(rt: HostRuntime) -> Result<(), Fail> {
    let alloc = rt.alloc();
    let place = place_of(alloc, "o/v1/content/f")?;
    for reads in [false, true] {
        let system = MemSystem::over(right_object(alloc)?, Refusing { reads });
        let mut store = FsTree::over(alloc, system);
        let listed = store.list(&Place::root(alloc)).err();
        let opened = store.open(&place).err();
        let read = store.read(&mut [0; 4]).err();
        let (want, then) = if reads {
            (None, Trouble::Device)
        } else {
            (Some(Trouble::Memory), Trouble::Absent)
        };
        assert_eq!(rt;
            (listed, opened, read),
            (want, want, Some(then)),
            "reads: {reads}"
        );
        let reason = store.reason().map(|error| error.kind());
        assert_eq!(rt; reason, Some(ErrorKind::OutOfMemory), "reads: {reads}");
    }
    Ok(())
}
