//! Audits of whole storage roots.
use super::expected::{HEADS, expect_audit};
use crate::tests::common::object::FILE;
use crate::tests::common::roots::{
    ROOTS, built, first_fails, long_file_fails, long_object, nested, under_four_algorithms,
    unread_in_fixity_alone,
};
use crate::tests::common::store::{expect_listed, times_opened};
use ocfl_memory::Point;
use std::test::Fail;

#[test]
fn audits_of_roots(rt: HostRuntime) -> Result<(), Fail> {
    for root in &ROOTS {
        let (row, _, _, report, (_, status)) = root;
        expect_audit(&rt, row, &mut built(rt.alloc(), root)?, report, *status, "")?;
    }
    Ok(())
}

#[test]
fn right_object_and_its_listings(rt: HostRuntime) -> Result<(), Fail> {
    for digest in ["ABC_SHA512", "ABC_LONG_CAPITALS"] {
        let mut store = long_object(rt.alloc(), digest)?;
        let text = "ok|.|-\nok|o|-\nok|o/v1/content/f|3\n";
        expect_audit(&rt, digest, &mut store, text, 0, "")?;
        expect_listed(&rt, digest, &store, ";o;o/v1;o/v1/content;")?;
        assert_eq!(rt; store.listings().len(), 4, "{digest}");
    }
    Ok(())
}

#[test]
fn one_opening_for_four_algorithms(rt: HostRuntime) -> Result<(), Fail> {
    let mut store = under_four_algorithms(rt.alloc())?;
    let text = "ok|.|-\nok|o|-\nok|o/v1/content/f|0\n";
    expect_audit(&rt, "four algorithms", &mut store, text, 0, "")?;
    assert_eq!(rt; times_opened(rt.alloc(), &store, FILE)?, 1);
    Ok(())
}

#[test]
fn directories_of_127_names_and_of_128(rt: HostRuntime) -> Result<(), Fail> {
    for (count, code) in [(127usize, "E073"), (128, "S05")] {
        let (mut store, path) = nested(rt.alloc(), count)?;
        let text = format!(in rt.alloc(); "ok|.|-\n{code}|{path}|-\n")?;
        let row = format!(in rt.alloc(); "{count} names")?;
        expect_audit(&rt, row.as_str(), &mut store, text.as_str(), 1, "")?;
    }
    Ok(())
}

// ---- content that cannot be read

#[test]
fn read_that_fails_stops_nothing(rt: HostRuntime) -> Result<(), Fail> {
    let text = "ok|.|-\nok|o|-\nS08|o/v1/content/a|-\nok|o/v1/content/b|0\nok|o/v1/content/c|3\n";
    for step in [1usize, 4096] {
        let mut store = first_fails(rt.alloc(), false)?;
        store.step(step);
        let row = format!(in rt.alloc(); "{step} bytes a read")?;
        expect_audit(&rt, row.as_str(), &mut store, text, 1, "")?;
        assert_eq!(rt; store.failures(), 1, "{row}");
        assert_eq!(rt; store.openings().len(), 7, "{row}");
    }
    Ok(())
}

#[test]
fn an_audit_of_a_long_file_that_fails(rt: HostRuntime) -> Result<(), Fail> {
    let text = "ok|.|-\nok|o|-\nS08|o/v1/content/f|-\nok|o/v1/content/g|3\n";
    for (row, point) in [
        ("the last byte", Point::Read(65_536)),
        ("the opening", Point::Open),
    ] {
        let mut store = long_file_fails(rt.alloc(), point)?;
        expect_audit(&rt, row, &mut store, text, 1, "")?;
        for file in [FILE, "o/v1/content/g"] {
            assert_eq!(rt; times_opened(rt.alloc(), &store, file)?, 1, "{row}: {file}");
        }
    }
    Ok(())
}

#[test]
fn file_named_in_fixity_alone_that_cannot_be_opened(rt: HostRuntime) -> Result<(), Fail> {
    let text = format!(in rt.alloc(); "{HEADS}E023|o/v1/content/f|-\nS08|o/v1/content/f|-\n")?;
    expect_audit(
        &rt,
        "fixity alone",
        &mut unread_in_fixity_alone(rt.alloc())?,
        text.as_str(),
        1,
        "",
    )
}
