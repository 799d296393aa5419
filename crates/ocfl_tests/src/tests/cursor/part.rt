//! Cursors of one part of a storage root, and why their texts are refused.
use super::{NOT_CURSOR, expect_reasons, long_place, refusal_of};
use crate::tests::common::cursors::{
    CHECKING_LINES, LINES, checking_text, ends_of, old_text, sealed, whole_text,
};
use crate::tests::common::store::place_of;
use crate::tests::common::{Runtime, expect_shown};
use ocfl_cursor::{
    Cursor, PartEnds, PartRefused, Refused, State, decode_part, encode_part, every_part_has_ends,
    is_same_part, part_reads_back, read_part_cursor,
};
use ocfl_report::Further;
use std::alloc::Global;
use std::test::Fail;

/// Parts, what a text says of their ends and of a new cursor, and its SHA-256 by `sha256sum`.
const PARTS: [(&str, &str, &str, &str, &str); 4] = [
    (
        "the whole root",
        "-",
        "-",
        "from start\nbelow end\n",
        "637f98a64e760981827120f91926983966afc3834df3e73f5dfa31eafd76a5f3",
    ),
    (
        "from the place `start` to the place `end`",
        "start",
        "end",
        "from ./start\nbelow ./end\n",
        "136b94e71c8744d75552940e9b26cbfef01e3ca40551db26fb735f25b18db4b9",
    ),
    (
        "from the place `end` to the place `start`",
        "end",
        "start",
        "from end\nbelow start\n",
        "ed207ca83d27c316e62fcf2a8c5b94442f115363c101370183b21eddae9bd774",
    ),
    (
        "some files of an object",
        "o/v1/content/b",
        "o/v1/content/d",
        "from o/v1/content/b\nbelow o/v1/content/d\n",
        "1427c9cb2706324f906fc85812863157f7ca47b718120c61176fcd28b5a42c97",
    ),
];

/// Lines of the ends of no part.
const NO_ENDS: [(&str, &str); 16] = [
    ("no end", ""),
    ("no line `below`", "from b\n"),
    ("below before from", "below d\nfrom b\n"),
    ("both in one line", "from b below d\n"),
    ("no blank and no place", "from\nbelow d\n"),
    ("no place", "from \nbelow d\n"),
    ("a mark that is not needed", "from ./b\nbelow d\n"),
    (
        "a mark before a word of the other line",
        "from ./end\nbelow d\n",
    ),
    ("a mark before another word", "from b\nbelow ./start\n"),
    ("two slashes after the mark", "from .//start\nbelow d\n"),
    ("an escape that is not needed", "from %73tart\nbelow d\n"),
    ("a slash at the end", "from b/\nbelow d\n"),
    ("a slash alone", "from /\nbelow d\n"),
    ("a word in place of a line", "start\nbelow d\n"),
    ("the other word in place of a line", "from b\nend\n"),
    ("an empty line at the end", "from b\nbelow d\n\n"),
];

/// Lines of version 1, and of no cursor.
const NO_LINES: [(&str, &str); 7] = [
    ("no line", ""),
    (
        "no files",
        "cycle 3\nruns 2\nspent 9\nafter o/v1/content/c\n",
    ),
    ("cycle 0", "cycle 0\nruns 2\nspent 9\nfiles 3\nstart\n"),
    ("no state", "cycle 3\nruns 2\nspent 9\nfiles 3\n"),
    (
        "no line feed at the end",
        "cycle 3\nruns 2\nspent 9\nfiles 3\nstart",
    ),
    (
        "a cycle with a leading zero",
        "cycle 03\nruns 2\nspent 9\nfiles 3\nstart\n",
    ),
    (
        "more files than their cost",
        "cycle 3\nruns 2\nspent 9\nfiles 10\nstart\n",
    ),
];

#[test]
fn parts_are_named(rt: HostRuntime) -> Result<(), Fail> {
    let alloc = rt.alloc();
    for (row, from, below, named, digest) in PARTS {
        let ends = ends_of(alloc, from, below)?;
        every_part_has_ends(&ends);
        let text = encode_part(alloc, &ends, &Cursor::new(Further::Nothing))?;
        let wanted = format!(in alloc;
            "ocfl-scrub part cursor 1\n{named}cycle 1\nruns 0\nspent 0\nfiles 0\nstart\ndigest {digest}\n"
        )?;
        assert_eq!(rt; text.as_slice(), wanted.as_bytes(), "{row}");
        let read = decode_part(alloc, &text, &ends)?;
        assert_eq!(rt; read.state(), &State::Start, "{row}");
        // No other part takes it.
        for (other, from, below, ..) in PARTS {
            let others = ends_of(alloc, from, below)?;
            assert_eq!(rt;
                is_same_part(&ends, &others),
                other == row,
                "{row} is {other}"
            );
            let wanted = if other == row {
                None
            } else {
                Some(PartRefused::OtherPart)
            };
            let refused = decode_part(alloc, &text, &others).err();
            assert_eq!(rt; refused, wanted, "{row}, read as {other}");
        }
        let refused = refusal_of(alloc, &text);
        assert_eq!(rt; refused, Some(NOT_CURSOR), "{row}");
    }
    Ok(())
}

#[test]
fn cursors_of_parts_are_read_back(rt: HostRuntime) -> Result<(), Fail> {
    let alloc = rt.alloc();
    let b = "o/v1/content/b";
    for (row, from, below) in [
        ("up to a file", "-", b),
        ("from a file on", b, "-"),
        ("from the root up to a place", ".", "é/start"),
        ("from a place like the word", "start/a", "./end"),
        ("from a file up to itself", b, b),
    ] {
        let below = below.strip_prefix("./").unwrap_or(below);
        let ends = ends_of(alloc, from, below)?;
        let place = place_of(alloc, "o/v1/content/c")?;
        for (further, state) in [
            (Further::Nothing, State::Start),
            (Further::Inventories, State::After(place)),
            (Further::Inventories, State::Ended),
        ] {
            let cursor = Cursor::from_parts(3, 2, 9, 3, further, state).ok_or("a cursor")?;
            let read = part_reads_back(alloc, &ends, &cursor)?;
            assert_eq!(rt; read.further(), further, "{row}");
            assert_eq!(rt; (read.cycle(), read.runs()), (3, 2), "{row}");
            assert_eq!(rt; (read.spent(), read.files()), (9, 3), "{row}");
            assert_eq!(rt; read.state(), cursor.state(), "{row}");
        }
    }
    // Places of more than 255 names may be ends.
    let ends = PartEnds {
        from: Some(long_place(alloc, 300)?),
        below: None,
    };
    let read = part_reads_back(alloc, &ends, &Cursor::new(Further::Nothing))?;
    assert_eq!(rt; read.cycle(), 1);
    Ok(())
}

/// The texts of cursors of parts whose audits check the inventories of versions, and their SHA-256
/// by `sha256sum`.
const CHECKING: [(&str, &str, &str, &str); 2] = [
    (
        "b",
        "d",
        "ocfl-scrub part cursor 2\nfrom b\nbelow d\nchecks inventories\n\
         cycle 3\nruns 2\nspent 9\nfiles 3\nafter o/v1/content/c\n",
        "a46393aac913af79c2b348d6c9c2ec1e17e31b16e65cf1c4276e26846e90d829",
    ),
    (
        "-",
        "-",
        "ocfl-scrub part cursor 2\nfrom start\nbelow end\nchecks inventories\n\
         cycle 1\nruns 0\nspent 0\nfiles 0\nstart\n",
        "5aa4abbd03150a0de0f2ba0a9a8058a2bbdc5382715a5f8143d1ddf6d1445483",
    ),
];

#[test]
fn parts_tell_what_is_checked(rt: HostRuntime) -> Result<(), Fail> {
    let alloc = rt.alloc();
    for (from, below, body, digest) in CHECKING {
        let ends = ends_of(alloc, from, below)?;
        let text = format!(in alloc; "{body}digest {digest}\n")?;
        let cursor = decode_part(alloc, text.as_bytes(), &ends)?;
        assert_eq!(rt; cursor.further(), Further::Inventories, "{from}");
        let written = encode_part(alloc, &ends, &cursor)?;
        assert_eq!(rt; written.as_slice(), text.as_bytes(), "{from}");
        let refused = refusal_of(alloc, text.as_bytes());
        assert_eq!(rt; refused, Some(NOT_CURSOR), "{from}");
        // Damage is told in this version too.
        let cut = &text.as_bytes()[..text.len() - 1];
        let damaged = Some(PartRefused::Text(Refused::Damaged));
        assert_eq!(rt; decode_part(alloc, cut, &ends).err(), damaged, "{from}");
    }
    Ok(())
}

#[test]
fn lines_of_a_part_fit_its_version(rt: HostRuntime) -> Result<(), Fail> {
    let alloc = rt.alloc();
    for (version, lines, wanted) in [
        (1, LINES, None),
        (2, CHECKING_LINES, None),
        (1, CHECKING_LINES, Some(Refused::Malformed)),
        (2, LINES, Some(Refused::Malformed)),
        (3, CHECKING_LINES, Some(NOT_CURSOR)),
    ] {
        let body = format!(in alloc; "ocfl-scrub part cursor {version}\nfrom b\nbelow d\n{lines}")?;
        let refused = part_refusal(alloc, body.as_str())?;
        assert_eq!(rt; refused, wanted.map(PartRefused::Text), "{body}");
    }
    // The line stands after those of the ends.
    let before = "ocfl-scrub part cursor 2\nchecks inventories\nfrom b\nbelow d\n";
    let body = format!(in alloc; "{before}{LINES}")?;
    let malformed = Some(PartRefused::Text(Refused::Malformed));
    assert_eq!(rt; part_refusal(alloc, body.as_str())?, malformed);
    Ok(())
}

// Seen to fail if memory is refused for a part's cursor of more than 262,144 bytes, or with an end
// of more than 1,024.
#[test]
fn cursors_of_parts_may_be_long(rt: HostRuntime) -> Result<(), Fail> {
    let alloc = rt.alloc();
    // Each byte of a name is escaped: a place of 255 names has 195,585 bytes of text.
    for (row, names, least) in [
        ("ends of 4,600 bytes", 6usize, 9_000usize),
        ("longer than a cursor of the whole may be", 255, 580_000),
        ("of more names than a cursor's place", 1_000, 1_500_000),
    ] {
        let ends = PartEnds {
            from: Some(long_place(alloc, names)?),
            below: Some(long_place(alloc, names + 1)?),
        };
        let place = long_place(alloc, names.min(255))?;
        let state = State::After(place);
        let cursor = Cursor::from_parts(3, 2, 9, 3, Further::Nothing, state).ok_or("a cursor")?;
        let text = encode_part(alloc, &ends, &cursor)?;
        assert!(rt; text.len() > least, "{row}");
        let mut reader = text.as_slice();
        let read = read_part_cursor(alloc, &mut reader, &ends)
            .ok()
            .ok_or("read from a reader")?;
        assert_eq!(rt; read.state(), cursor.state(), "{row}");
        let read = part_reads_back(alloc, &ends, &cursor)?;
        assert_eq!(rt; read.spent(), 9, "{row}");
    }
    Ok(())
}

/// Why the sealed text is refused to the part of `b` and `d`.
fn part_refusal(alloc: Global, body: &str) -> Result<Option<PartRefused>, Fail> {
    let ends = ends_of(alloc, "b", "d")?;
    let text = sealed(alloc, body)?;
    Ok(decode_part(alloc, &text, &ends).err())
}

/// The first line of a part's cursor.
const FIRST: &str = "ocfl-scrub part cursor 1\n";

/// The text of a cursor of the part of `b` and `d`, before its digest line.
fn right_body(alloc: Global) -> Result<String, Fail> {
    Ok(format!(in alloc; "{FIRST}from b\nbelow d\n{LINES}")?)
}

/// What is in place of the first line.
const NO_FIRST_LINES: [(&str, &str); 7] = [
    ("no first line", ""),
    ("no line feed", "ocfl-scrub part cursor 1"),
    ("a blank after the version", "ocfl-scrub part cursor 1 \n"),
    ("version 3", "ocfl-scrub part cursor 3\n"),
    ("no version", "ocfl-scrub part cursor\n"),
    ("the first line of a whole root", "ocfl-scrub cursor 2\n"),
    ("ends come first", "from b\n"),
];

/// The bytes are refused to a part.
fn expect_refused(
    rt: &impl Runtime,
    row: &str,
    (bytes, ends): (&[u8], &PartEnds),
    wanted: PartRefused,
) {
    let refused = decode_part(rt.alloc(), bytes, ends).err();
    assert_eq!(rt; refused, Some(wanted), "{row}");
}

#[test]
fn other_texts_are_no_part(rt: HostRuntime) -> Result<(), Fail> {
    let alloc = rt.alloc();
    assert_eq!(rt; part_refusal(alloc, right_body(alloc)?.as_str())?, None);
    let ends = ends_of(alloc, "b", "d")?;
    // The first line comes first, and then the seal.
    for (row, front) in NO_FIRST_LINES {
        expect_refused(
            &rt,
            row,
            (front.as_bytes(), &ends),
            PartRefused::Text(NOT_CURSOR),
        );
        let body = format!(in alloc; "{front}from b\nbelow d\n{LINES}")?;
        let text = sealed(alloc, body.as_str())?;
        let row = format!(in alloc; "{row}, sealed")?;
        expect_refused(
            &rt,
            row.as_str(),
            (&text, &ends),
            PartRefused::Text(NOT_CURSOR),
        );
    }
    Ok(())
}

#[test]
fn damaged_parts_are_refused(rt: HostRuntime) -> Result<(), Fail> {
    let alloc = rt.alloc();
    let ends = ends_of(alloc, "b", "d")?;
    let other = ends_of(alloc, "b", "e")?;
    let text = sealed(alloc, right_body(alloc)?.as_str())?;
    for (row, end) in [
        ("after the first line", FIRST.len()),
        ("within the ends", FIRST.len() + 7),
        ("before the digest line", text.len() - 72),
        ("without the last byte", text.len() - 1),
    ] {
        expect_refused(
            &rt,
            row,
            (&text[..end], &ends),
            PartRefused::Text(Refused::Damaged),
        );
    }
    let mut changed = text;
    changed[FIRST.len() + 5] = b'c';
    // Damage is told before another part.
    for (row, ends) in [("its own part", &ends), ("another part", &other)] {
        expect_refused(
            &rt,
            row,
            (&changed, ends),
            PartRefused::Text(Refused::Damaged),
        );
    }
    Ok(())
}

/// The sealed text of a part with these lines is malformed.
fn expect_malformed(rt: &impl Runtime, row: &str, ends: &str, lines: &str) -> Result<(), Fail> {
    let body = format!(in rt.alloc(); "{FIRST}{ends}{lines}")?;
    let refused = part_refusal(rt.alloc(), body.as_str())?;
    assert_eq!(rt;
        refused,
        Some(PartRefused::Text(Refused::Malformed)),
        "{row}"
    );
    Ok(())
}

#[test]
fn malformed_parts_are_refused(rt: HostRuntime) -> Result<(), Fail> {
    for (row, ends) in NO_ENDS {
        expect_malformed(&rt, row, ends, LINES)?;
    }
    for (row, lines) in NO_LINES {
        for (part, ends) in [
            ("of its part", "from b\nbelow d\n"),
            ("of the whole root", "from start\nbelow end\n"),
        ] {
            let row = format!(in rt.alloc(); "{row}, {part}")?;
            expect_malformed(&rt, row.as_str(), ends, lines)?;
        }
    }
    Ok(())
}

#[test]
fn refused_parts_have_their_texts(rt: HostRuntime) -> Result<(), Fail> {
    expect_reasons(
        &rt,
        &[
            PartRefused::Text(NOT_CURSOR),
            PartRefused::Text(Refused::Damaged),
            PartRefused::Text(Refused::Malformed),
            PartRefused::Text(Refused::Memory),
        ],
    )?;
    expect_shown(&rt, "another part", &PartRefused::OtherPart, "another part")
}

#[test]
fn whole_roots_are_no_parts(rt: HostRuntime) -> Result<(), Fail> {
    let alloc = rt.alloc();
    let ends = ends_of(alloc, "-", "-")?;
    for (version, text) in [
        ("version 3", checking_text(alloc)?),
        ("version 2", whole_text(alloc)?),
        ("version 1", old_text(alloc)?),
    ] {
        let refused = decode_part(alloc, &text, &ends).err();
        assert_eq!(rt; refused, Some(PartRefused::Text(NOT_CURSOR)), "{version}");
    }
    Ok(())
}
