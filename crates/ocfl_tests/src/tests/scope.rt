//! Scopes: the branch of a path, and the part with a number of those that a file cuts.
use crate::tests::common::cursors::ends_of;
use crate::tests::common::expect_shown;
use crate::tests::common::input::{Slow, Then, expect_failures};
use crate::tests::common::store::place_of;
use ocfl_scope::{Scope, ScopeStop, find_branch, find_part};
use ocfl_separators::PartsStop;
use std::alloc::Global;
use std::test::Fail;

/// The separators' text that most rows use.
const THREE_PARTS: &[u8] = b"a\nb/c\n";

/// The part with this number of those that the text cuts.
fn part_of(alloc: Global, text: &[u8], number: usize) -> Result<Scope, ScopeStop> {
    let mut reader = text;
    find_part(alloc, &mut reader, number)
}

/// What is said if that part is not found, and the status.
fn stop_of(alloc: Global, text: &[u8], number: usize) -> Result<Option<(String, u8)>, Fail> {
    match part_of(alloc, text, number) {
        Ok(_) => Ok(None),
        Err(why) => Ok(Some((format!(in alloc; "{why}")?, why.status()))),
    }
}

#[test]
fn parts_are_found_by_their_numbers(rt: HostRuntime) -> Result<(), Fail> {
    let alloc = rt.alloc();
    for (row, text, number, from, below) in [
        ("first", THREE_PARTS, 1, "-", "a"),
        ("second", THREE_PARTS, 2, "a", "b/c"),
        ("last", THREE_PARTS, 3, "b/c", "-"),
        ("the only one", b"", 1, "-", "-"),
        ("before the root", b".\n", 1, "-", "."),
        ("from the root on", b".\n", 2, ".", "-"),
    ] {
        let Ok(Scope::Part(ends)) = part_of(alloc, text, number) else {
            return Err(Fail::from("no part"));
        };
        let wanted = ends_of(alloc, from, below)?;
        assert!(rt; ends.from == wanted.from, "{row}");
        assert!(rt; ends.below == wanted.below, "{row}");
    }
    Ok(())
}

#[test]
fn branches_are_found_by_their_paths(rt: HostRuntime) -> Result<(), Fail> {
    let alloc = rt.alloc();
    for (path, place) in [(".", "."), ("o", "o"), ("o/v1", "o/v1"), ("%C3%A9", "é")] {
        let Ok(Scope::Branch(found)) = find_branch(alloc, path) else {
            return Err(Fail::from("no branch"));
        };
        assert!(rt; found == place_of(alloc, place)?, "{path}");
    }
    for path in ["", "/", "o/", "/o", "o//v1", "./o", "%c3%a9", "%6F"] {
        let Err(why) = find_branch(alloc, path) else {
            return Err(Fail::from("a branch"));
        };
        expect_shown(&rt, path, &why, "bad path")?;
        assert_eq!(rt; why.status(), 2, "{path}");
    }
    Ok(())
}

#[test]
fn parts_that_are_not_there_are_refused(rt: HostRuntime) -> Result<(), Fail> {
    for (row, text, number, wanted) in [
        ("no number", THREE_PARTS, 0, "no such part"),
        ("one too many", THREE_PARTS, 4, "no such part"),
        ("far too many", THREE_PARTS, usize::MAX, "no such part"),
        ("two of the whole", b"", 2, "no such part"),
        ("bad line first", b"a\na\n", 9, "bad parts: line 2"),
        ("no line feed", b"a", 1, "bad parts: line 1"),
    ] {
        let Some((said, status)) = stop_of(rt.alloc(), text, number)? else {
            return Err(Fail::from("a part"));
        };
        assert_eq!(rt; said.as_str(), wanted, "{row}");
        assert_eq!(rt; status, 2, "{row}");
    }
    Ok(())
}

#[test]
fn a_long_text_of_separators_is_refused(rt: HostRuntime) -> Result<(), Fail> {
    let mut reader = Slow {
        left: THREE_PARTS,
        then: Then::GoesOn,
    };
    let Err(why) = find_part(rt.alloc(), &mut reader, 1) else {
        return Err(Fail::from("a part"));
    };
    expect_shown(&rt, "zeros", &why, "bad parts: too long")?;
    assert_eq!(rt; why.status(), 2);
    Ok(())
}

#[test]
fn separators_that_cannot_be_read_stop(rt: HostRuntime) -> Result<(), Fail> {
    // A part that is not there does not come before the failure.
    let given = [
        ("two places", THREE_PARTS),
        ("places out of order", b"b\na\n"),
        ("nothing", b""),
    ];
    let stops = ((PartsStop::Read, 3), (PartsStop::Memory, 3));
    expect_failures(&rt, &given, stops, |mut reader| {
        match find_part(rt.alloc(), &mut reader, 9) {
            Err(ScopeStop::Parts(why)) => Ok(Some((why, ScopeStop::Parts(why).status()))),
            _ => Ok(None),
        }
    })
}

#[test]
fn stops_of_scopes_have_texts(rt: HostRuntime) -> Result<(), Fail> {
    let read = ScopeStop::Parts(PartsStop::Read);
    expect_shown(&rt, "read", &read, "parts file failed")?;
    let memory = ScopeStop::Parts(PartsStop::Memory);
    expect_shown(&rt, "memory of the reader", &memory, "out of memory")?;
    expect_shown(&rt, "memory", &ScopeStop::Memory, "out of memory")?;
    assert_eq!(rt; ScopeStop::Memory.status(), 3);
    Ok(())
}
