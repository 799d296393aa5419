//! Cursors that a reader gives: those of a part, and what is shown of any.
use super::NOT_CURSOR;
use crate::tests::common::Runtime;
use crate::tests::common::cursors::{
    BODY, CHECKING_BODY, CHECKING_LINES, LINES, OLD_LINES, checking_text, cut, ends_of, old_text,
    sealed, whole_text,
};
use crate::tests::common::input::{Slow, Then, expect_failures};
use ocfl_cursor::{
    Cursor, CursorStop, PartCursorStop, PartRefused, Refused, ShowStop, encode_part, part_lines,
    read_part_cursor, read_shown, read_stored_lines, stored_lines,
};
use ocfl_report::{Further, TextStop};
use std::test::Fail;

/// The text of a cursor of the part from `o/v1/content/b` on, before its digest line.
const PART: &str = "ocfl-scrub part cursor 1\nfrom o/v1/content/b\nbelow end\n\
    cycle 3\nruns 2\nspent 9\nfiles 3\nafter o/v1/content/c\n";

/// Its lines.
const PART_LINES: &str = "from o/v1/content/b\nbelow end\n\
    cycle 3\nruns 2\nspent 9\nfiles 3\nafter o/v1/content/c\n";

/// The lines of an audit's cursor of the same part, if it checks the inventories of versions.
const CHECKING_PART_LINES: &str = "from o/v1/content/b\nbelow end\nchecks inventories\n\
    cycle 3\nruns 2\nspent 9\nfiles 3\nafter o/v1/content/c\n";

/// Reading these bytes as the cursor of the part of these ends stops so.
fn expect_stop(
    rt: &impl Runtime,
    row: &str,
    left: &[u8],
    then: Then,
    (from, below): (&str, &str),
    wanted: Option<PartCursorStop>,
) -> Result<(), Fail> {
    let ends = ends_of(rt.alloc(), from, below)?;
    let stop = read_part_cursor(rt.alloc(), &mut Slow { left, then }, &ends).err();
    assert_eq!(rt; stop, wanted, "{row}");
    Ok(())
}

/// Showing these bytes stops so.
fn expect_unshown(rt: &impl Runtime, row: &str, left: &[u8], then: Then, wanted: ShowStop) {
    let stop = read_shown(rt.alloc(), &mut Slow { left, then }).err();
    assert_eq!(rt; stop, Some(wanted), "{row}");
}

#[test]
fn cursors_of_parts_are_read_from_readers(rt: HostRuntime) -> Result<(), Fail> {
    let alloc = rt.alloc();
    let text = sealed(alloc, PART)?;
    let b = "o/v1/content/b";
    let ends = ends_of(alloc, b, "-")?;
    let mut slice = text.as_slice();
    let cursor = read_part_cursor(alloc, &mut slice, &ends)
        .ok()
        .ok_or("a cursor")?;
    assert_eq!(rt; encode_part(alloc, &ends, &cursor)?, text);
    let then = Then::Ends;
    expect_stop(&rt, "its own part", &text, then, (b, "-"), None)?;
    let other = PartCursorStop::Refused(PartRefused::OtherPart);
    for (row, ends) in [
        ("the part before it", ("-", b)),
        ("the part that begins later", ("o/v1/content/c", "-")),
        ("a part that ends sooner", (b, "o/v1/content/c")),
        ("the part without ends", ("-", "-")),
    ] {
        expect_stop(&rt, row, &text, then, ends, Some(other))?;
    }
    Ok(())
}

#[test]
fn other_bytes_are_refused_to_a_part(rt: HostRuntime) -> Result<(), Fail> {
    let alloc = rt.alloc();
    let text = sealed(alloc, PART)?;
    let whole = whole_text(alloc)?;
    let malformed = sealed(alloc, "ocfl-scrub part cursor 1\n")?;
    let short = &text[..text.len() - 1];
    let memory = PartCursorStop::Refused(PartRefused::Text(Refused::Memory));
    let stops = (PartCursorStop::Read, memory);
    // For its own part and for another one.
    for ends in [("o/v1/content/b", "-"), ("-", "o/v1/content/b")] {
        for (row, bytes, wanted) in [
            ("no byte", b"".as_slice(), PartRefused::Text(NOT_CURSOR)),
            (
                "a cursor of the whole",
                &whole,
                PartRefused::Text(NOT_CURSOR),
            ),
            (
                "without its last byte",
                short,
                PartRefused::Text(Refused::Damaged),
            ),
            (
                "no lines",
                &malformed,
                PartRefused::Text(Refused::Malformed),
            ),
        ] {
            let refused = Some(PartCursorStop::Refused(wanted));
            expect_stop(&rt, row, bytes, Then::Ends, ends, refused)?;
        }
        let part = ends_of(alloc, ends.0, ends.1)?;
        let given = [("a reader that fails", text.as_slice())];
        expect_failures(&rt, &given, stops, |mut reader| {
            Ok(read_part_cursor(alloc, &mut reader, &part).err())
        })?;
    }
    Ok(())
}

#[test]
fn bytes_without_end_are_no_cursor(rt: HostRuntime) -> Result<(), Fail> {
    let refused = PartCursorStop::Refused(PartRefused::Text(NOT_CURSOR));
    let unshown = ShowStop::Whole(CursorStop::Refused(NOT_CURSOR));
    for (row, text) in [("a part's cursor", PART), ("a whole root's", BODY)] {
        let (left, then) = (text.as_bytes(), Then::GoesOn);
        expect_stop(&rt, row, left, then, ("-", "-"), Some(refused))?;
        expect_unshown(&rt, row, left, then, unshown);
    }
    Ok(())
}

#[test]
fn stored_cursors_are_shown(rt: HostRuntime) -> Result<(), Fail> {
    let alloc = rt.alloc();
    let checking_part = format!(in alloc; "ocfl-scrub part cursor 2\n{CHECKING_PART_LINES}")?;
    for (row, text, lines) in [
        ("version 3", checking_text(alloc)?, CHECKING_LINES),
        (
            "version 2 of a part",
            sealed(alloc, checking_part.as_str())?,
            CHECKING_PART_LINES,
        ),
        ("version 2", whole_text(alloc)?, LINES),
        ("version 1", old_text(alloc)?, OLD_LINES),
        ("a part", sealed(alloc, PART)?, PART_LINES),
    ] {
        let shown = read_shown(alloc, &mut text.as_slice());
        let shown = shown.ok().ok_or("lines")?;
        assert_eq!(rt; shown.as_slice(), lines.as_bytes(), "{row}");
    }
    let ends = ends_of(alloc, "start", "end")?;
    let lines = part_lines(alloc, &ends, &Cursor::new(Further::Nothing))?;
    let wanted = "from ./start\nbelow ./end\ncycle 1\nruns 0\nspent 0\nfiles 0\nstart\n";
    assert_eq!(rt; lines.as_slice(), wanted.as_bytes());
    let body = format!(in alloc; "ocfl-scrub part cursor 1\n{wanted}")?;
    let text = sealed(alloc, body.as_str())?;
    let shown = read_shown(alloc, &mut text.as_slice());
    assert_eq!(rt; shown.ok().ok_or("lines")?, lines);
    Ok(())
}

#[test]
fn nothing_is_shown_of_other_bytes(rt: HostRuntime) -> Result<(), Fail> {
    let alloc = rt.alloc();
    let of_whole = |refused| ShowStop::Whole(CursorStop::Refused(refused));
    for (row, text, wanted) in [
        ("no byte", Vec::new(alloc), of_whole(NOT_CURSOR)),
        (
            "version 3 of a part's cursor",
            sealed(alloc, "ocfl-scrub part cursor 3\n")?,
            of_whole(NOT_CURSOR),
        ),
        (
            "version 4",
            sealed(alloc, "ocfl-scrub cursor 4\n")?,
            of_whole(Refused::Version),
        ),
        (
            "a whole root's, cut",
            cut(whole_text(alloc)?),
            of_whole(Refused::Damaged),
        ),
        (
            "a part's without its last byte",
            cut(sealed(alloc, PART)?),
            ShowStop::Part(Refused::Damaged),
        ),
        (
            "a part without lines",
            sealed(alloc, "ocfl-scrub part cursor 1\n")?,
            ShowStop::Part(Refused::Malformed),
        ),
        (
            "version 2 of a part without lines",
            sealed(alloc, "ocfl-scrub part cursor 2\n")?,
            ShowStop::Part(Refused::Malformed),
        ),
    ] {
        expect_unshown(&rt, row, &text, Then::Ends, wanted);
    }
    Ok(())
}

#[test]
fn nothing_is_shown_by_a_reader_that_fails(rt: HostRuntime) -> Result<(), Fail> {
    let alloc = rt.alloc();
    let text = sealed(alloc, PART)?;
    let given = [("a reader that fails", text.as_slice())];
    let memory = ShowStop::Whole(CursorStop::Refused(Refused::Memory));
    let stops = (ShowStop::Whole(CursorStop::Read), memory);
    expect_failures(&rt, &given, stops, |mut reader| {
        Ok(read_shown(alloc, &mut reader).err())
    })
}

#[test]
fn lines_of_cursors_are_read_by_themselves(rt: HostRuntime) -> Result<(), Fail> {
    let alloc = rt.alloc();
    for (row, lines, of_a_part, further) in [
        ("of the whole root", LINES, false, Further::Nothing),
        ("of a part", PART_LINES, true, Further::Nothing),
        ("of version 3", CHECKING_LINES, false, Further::Inventories),
        (
            "of version 2 of a part",
            CHECKING_PART_LINES,
            true,
            Further::Inventories,
        ),
    ] {
        let (part, cursor) = read_stored_lines(alloc, lines.as_bytes())?;
        assert_eq!(rt; part.is_some(), of_a_part, "{row}");
        assert_eq!(rt; (cursor.cycle(), cursor.files()), (3, 3), "{row}");
        assert_eq!(rt; cursor.further(), further, "{row}");
        let written = stored_lines(alloc, &part, &cursor)?;
        assert_eq!(rt; written.as_slice(), lines.as_bytes(), "{row}");
    }
    Ok(())
}

#[test]
fn other_lines_than_those_of_a_cursor_are_bad(rt: HostRuntime) -> Result<(), Fail> {
    let alloc = rt.alloc();
    for (row, lines) in [
        ("no lines", ""),
        (
            "the lines of version 1",
            "cycle 3\nruns 2\nspent 9\nstart\n",
        ),
        ("a first line too", BODY),
        ("a first line of version 3 too", CHECKING_BODY),
        (
            "the inventories twice",
            "checks inventories\nchecks inventories\n\
             cycle 1\nruns 0\nspent 0\nfiles 0\nstart\n",
        ),
        (
            "the inventories before the ends",
            "checks inventories\nfrom start\nbelow end\n\
             cycle 1\nruns 0\nspent 0\nfiles 0\nstart\n",
        ),
        (
            "one end",
            "from start\ncycle 1\nruns 0\nspent 0\nfiles 0\nstart\n",
        ),
        (
            "an end that is no place",
            "from /\nbelow end\ncycle 1\nruns 0\nspent 0\nfiles 0\nstart\n",
        ),
    ] {
        let refused = read_stored_lines(alloc, lines.as_bytes()).err();
        assert_eq!(rt; refused, Some(TextStop::Bad), "{row}");
    }
    Ok(())
}
