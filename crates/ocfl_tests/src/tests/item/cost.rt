//! What judging the items of a walk costs, and stores that answer oddly.
//!
//! Seen to fail if an `Absent` is taken for a file that is not there: inventory, sidecar,
//! directory, content.
use crate::tests::common::object::{FILE, INVENTORY};
use crate::tests::common::odd_store::{Odd, Oddity};
use crate::tests::common::roots::{first_fails, long_file_fails, right_object};
use crate::tests::common::store::{place_of, times_opened};
use crate::tests::walk::{expect_item, expect_row, failed_place};
use ocfl_memory::Point;
use ocfl_report::Further;
use ocfl_walk::{Fault, Walk};
use std::alloc::Global;
use std::test::Fail;

#[test]
fn file_that_cannot_be_read_on_costs_what_it_gave(rt: HostRuntime) -> Result<(), Fail> {
    let text = "ok|.|-\nok|o|-\nS08|o/v1/content/a|-\nok|o/v1/content/b|0\nok|o/v1/content/c|3\n";
    for (row, by_bytes, cost) in [("a byte a read", true, 8), ("one read", false, 9)] {
        let mut store = first_fails(rt.alloc(), by_bytes)?;
        expect_row(&rt, row, &mut store, text, cost)?;
    }
    Ok(())
}

#[test]
fn long_file_that_fails_at_its_end_and_at_its_open(rt: HostRuntime) -> Result<(), Fail> {
    let text = "ok|.|-\nok|o|-\nS08|o/v1/content/f|-\nok|o/v1/content/g|3\n";
    // One more than the bytes of `f` that were read, and 4 for `g`.
    for (row, point, cost) in [
        ("the last byte", Point::Read(65_536), 65_541),
        ("the opening", Point::Open, 5),
    ] {
        let mut store = long_file_fails(rt.alloc(), point)?;
        expect_row(&rt, row, &mut store, text, cost)?;
        for file in [FILE, "o/v1/content/g"] {
            assert_eq!(rt; times_opened(rt.alloc(), &store, file)?, 1, "{row}: {file}");
        }
        assert!(rt; store.largest_read() <= 65_536, "{row}");
    }
    Ok(())
}

/// The root of a right object, which lists this file and does not find it.
fn right_object_without(alloc: Global, hidden: &str) -> Result<Odd, Fail> {
    Ok(Odd {
        inner: right_object(alloc)?,
        oddity: Oddity::Hides(place_of(alloc, hidden)?),
    })
}

#[test]
fn content_file_that_is_listed_and_not_found(rt: HostRuntime) -> Result<(), Fail> {
    let mut store = right_object_without(rt.alloc(), FILE)?;
    let row = "a file that is not found";
    expect_item(&rt, row, &mut store, FILE, "S08|o/v1/content/f|-\n", 1)
}

#[test]
fn inventory_that_is_listed_and_not_found(rt: HostRuntime) -> Result<(), Fail> {
    let alloc = rt.alloc();
    let inventory = place_of(alloc, INVENTORY)?;
    let mut store = right_object_without(alloc, INVENTORY)?;
    assert!(rt; failed_place(alloc, &mut store, FILE)? == inventory);
    let place = place_of(alloc, FILE)?;
    let started = Walk::start(alloc, &mut store, Further::Nothing, Some(&place));
    assert!(rt; matches!(started, Err(Fault::Store(failed)) if failed == inventory));
    Ok(())
}
