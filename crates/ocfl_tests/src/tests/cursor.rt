//! Cursors and their text, refusals, limits and meters.
use crate::tests::common::cursors::{
    BODY, CHECKING_BODY, CHECKING_LINES, DIGEST, LINES, OLD_BODY, OLD_DIGEST, OLD_LINES,
    checking_text, old_text, sealed, whole_text,
};
use crate::tests::common::input::{Slow, Then, expect_failures};
use crate::tests::common::store::place_of;
use crate::tests::common::{Runtime, expect_shown};
use ocfl_cursor::{
    Budget, Cursor, CursorStop, FileLimit, Limits, Meter, Refused, State, TextKind, cursor_lines,
    cursor_reads_back, decode, encode, read_cursor,
};
use ocfl_report::{DisplayPlace, Further};
use ocfl_tree::{Name, Place};
use std::alloc::Global;
use std::fmt::Display;
use std::io::ErrorKind;
use std::test::Fail;

mod part;
mod seals;
mod stored;

/// Why bytes that do not begin as a cursor are refused.
const NOT_CURSOR: Refused = Refused::NotA(TextKind::Cursor);

/// A place of `count` names, each 255 bytes 0x01.
fn long_place(alloc: Global, count: usize) -> Result<Place, Fail> {
    let name = String::from_utf8(vec![in alloc; 1u8; 255]?)?;
    let mut place = Place::root(alloc);
    for _ in 0..count {
        place.push(Name::new(alloc, name.as_str())?)?;
    }
    Ok(place)
}

fn cursor_behind(further: Further, place: Place) -> Result<Cursor, Fail> {
    let state = State::After(place);
    let cursor = Cursor::from_parts(1, 1, 0, 0, further, state);
    Ok(cursor.ok_or("a place of at most 255 names")?)
}

/// The sealed text of a cursor that begins so and is after this place.
fn text_behind(alloc: Global, front: &str, place: &Place) -> Result<Vec<u8>, Fail> {
    let body = format!(in alloc; "{front}after {}\n", DisplayPlace(place))?;
    sealed(alloc, body.as_str())
}

fn refusal_of(alloc: Global, text: &[u8]) -> Option<Refused> {
    decode(alloc, text).err()
}

#[test]
fn texts_have_their_lengths(rt: HostRuntime) -> Result<(), Fail> {
    let alloc = rt.alloc();
    for (further, new, behind_the_root, longest) in [
        (Further::Nothing, 129, 131, 195_459),
        (Further::Inventories, 148, 150, 195_478),
    ] {
        assert_eq!(rt; encode(alloc, &Cursor::new(further))?.len(), new);
        let root = cursor_behind(further, Place::root(alloc))?;
        assert_eq!(rt; encode(alloc, &root)?.len(), behind_the_root);
        let long = cursor_behind(further, long_place(alloc, 255)?)?;
        let text = encode(alloc, &long)?;
        assert_eq!(rt; text.len(), longest);
        let read = decode(alloc, &text)?;
        assert_eq!(rt; read.further(), further);
        assert_eq!(rt; read.state(), &State::After(long_place(alloc, 255)?));
    }
    Ok(())
}

// Seen to fail if `encode` is always out of memory.
#[test]
fn writes_seven_lines(rt: HostRuntime) -> Result<(), Fail> {
    let alloc = rt.alloc();
    let state = State::After(place_of(alloc, "o/v1/content/c")?);
    let cursor = Cursor::from_parts(3, 2, 9, 3, Further::Nothing, state).ok_or("a cursor")?;
    let text = encode(alloc, &cursor)?;
    assert_eq!(rt; text.len(), 144);
    assert_eq!(rt; text, whole_text(alloc)?);
    assert_eq!(rt; cursor_lines(alloc, &cursor)?.as_slice(), LINES.as_bytes());
    Ok(())
}

#[test]
fn writes_eight_lines_of_inventories(rt: HostRuntime) -> Result<(), Fail> {
    let alloc = rt.alloc();
    let text = checking_text(alloc)?;
    let cursor = decode(alloc, &text)?;
    assert_eq!(rt; cursor.further(), Further::Inventories);
    assert_eq!(rt; (cursor.cycle(), cursor.runs()), (3, 2));
    assert_eq!(rt; (cursor.spent(), cursor.files()), (9, 3));
    let place = place_of(alloc, "o/v1/content/c")?;
    assert_eq!(rt; cursor.state(), &State::After(place));
    assert_eq!(rt; encode(alloc, &cursor)?, text);
    let lines = cursor_lines(alloc, &cursor)?;
    assert_eq!(rt; lines.as_slice(), CHECKING_LINES.as_bytes());
    Ok(())
}

#[test]
fn reads_what_is_written(rt: HostRuntime) -> Result<(), Fail> {
    let alloc = rt.alloc();
    let cursor = decode(alloc, &whole_text(alloc)?)?;
    assert_eq!(rt; (cursor.cycle(), cursor.runs()), (3, 2));
    assert_eq!(rt; (cursor.spent(), cursor.files()), (9, 3));
    assert_eq!(rt; cursor.further(), Further::Nothing);
    let place = place_of(alloc, "o/v1/content/c")?;
    assert_eq!(rt; cursor.into_state(), State::After(place));
    for (row, further, state) in [
        ("at the start", Further::Nothing, State::Start),
        (
            "after the root",
            Further::Inventories,
            State::After(Place::root(alloc)),
        ),
        ("at the end", Further::Nothing, State::Ended),
    ] {
        let cursor = Cursor::from_parts(u64::MAX, u64::MAX, 7, 7, further, state);
        let cursor = cursor.ok_or("a cursor")?;
        let read = cursor_reads_back(alloc, &cursor)?;
        assert_eq!(rt; read.further(), further, "{row}");
        assert_eq!(rt; (read.cycle(), read.runs()), (u64::MAX, u64::MAX), "{row}");
        assert_eq!(rt; (read.spent(), read.files()), (7, 7), "{row}");
        assert_eq!(rt; read.state(), cursor.state(), "{row}");
    }
    Ok(())
}

#[test]
fn reads_version_one(rt: HostRuntime) -> Result<(), Fail> {
    let alloc = rt.alloc();
    let text = old_text(alloc)?;
    assert_eq!(rt; text.len(), 136);
    let cursor = decode(alloc, &text)?;
    assert_eq!(rt; (cursor.cycle(), cursor.runs()), (3, 2));
    assert_eq!(rt; (cursor.spent(), cursor.files()), (9, 0));
    assert_eq!(rt; cursor.further(), Further::Nothing);
    let shown = cursor_lines(alloc, &cursor)?;
    assert_eq!(rt; shown.as_slice(), OLD_LINES.as_bytes());
    let place = place_of(alloc, "o/v1/content/c")?;
    assert_eq!(rt; cursor.into_state(), State::After(place));
    // As another version, it is not what its digest line seals.
    let body = OLD_BODY.replace(alloc, "cursor 1", "cursor 2")?;
    let changed = format!(in alloc; "{body}digest {OLD_DIGEST}\n")?;
    assert_eq!(rt;
        refusal_of(alloc, changed.as_bytes()),
        Some(Refused::Damaged)
    );
    Ok(())
}

/// The longest text of version 1 has 195,451 bytes.
#[test]
fn reads_a_long_text_of_version_one(rt: HostRuntime) -> Result<(), Fail> {
    let alloc = rt.alloc();
    let place = long_place(alloc, 255)?;
    let front = "ocfl-scrub cursor 1\ncycle 1\nruns 1\nspent 0\n";
    let text = text_behind(alloc, front, &place)?;
    assert_eq!(rt; text.len(), 195_451);
    assert_eq!(rt; decode(alloc, &text)?.into_state(), State::After(place));
    Ok(())
}

/// The text is refused so if it is cut before this byte, and if this byte is changed.
fn expect_damaged_at(
    rt: &impl Runtime,
    version: &str,
    whole: &[u8],
    place: usize,
) -> Result<(), Fail> {
    let (cut, changed) = match place {
        0..18 => (NOT_CURSOR, NOT_CURSOR),
        18 => (Refused::Version, Refused::Version),
        // The line feed ends the version.
        19 => (Refused::Damaged, Refused::Version),
        _ => (Refused::Damaged, Refused::Damaged),
    };
    let got = refusal_of(rt.alloc(), &whole[..place]);
    assert_eq!(rt; got, Some(cut), "{version}, cut to {place} bytes");
    let mut other = whole.to_vec(rt.alloc())?;
    // So that no version is made another one that is read.
    *other.get_mut(place).ok_or("a byte of the text")? ^= 4;
    let got = refusal_of(rt.alloc(), &other);
    assert_eq!(rt; got, Some(changed), "{version}, byte {place} changed");
    Ok(())
}

#[test]
fn refuses_texts_that_are_cut_or_changed(rt: HostRuntime) -> Result<(), Fail> {
    for (version, whole) in [
        ("version 3", checking_text(rt.alloc())?),
        ("version 2", whole_text(rt.alloc())?),
        ("version 1", old_text(rt.alloc())?),
    ] {
        for place in 0..whole.len() {
            expect_damaged_at(&rt, version, whole.as_slice(), place)?;
        }
    }
    Ok(())
}

/// What the body of a text is refused for, if this is put for that in it.
fn refusal_with(alloc: Global, body: &str, from: &str, to: &str) -> Result<Option<Refused>, Fail> {
    let body = body.replace(alloc, from, to)?;
    Ok(refusal_of(alloc, &sealed(alloc, body.as_str())?))
}

#[test]
fn refuses_other_texts(rt: HostRuntime) -> Result<(), Fail> {
    let alloc = rt.alloc();
    let fourth = refusal_with(alloc, BODY, "cursor 2", "cursor 4")?;
    assert_eq!(rt; fourth, Some(Refused::Version));
    // A carriage return in the first line is part of the version.
    let returns = refusal_with(alloc, BODY, "\n", "\r\n")?;
    assert_eq!(rt; returns, Some(Refused::Version));
    let capitals = format!(in alloc; "{BODY}digest {}\n", DIGEST.to_ascii_uppercase(alloc)?)?;
    assert_eq!(rt;
        refusal_of(alloc, capitals.as_bytes()),
        Some(Refused::Damaged)
    );
    let mut long = whole_text(alloc)?;
    long.resize(262_145, b'\n')?;
    assert_eq!(rt; refusal_of(alloc, &long), Some(NOT_CURSOR));
    long.truncate(262_144);
    assert_eq!(rt; refusal_of(alloc, &long), Some(Refused::Damaged));
    Ok(())
}

/// What is put in place of a text, each with a name.
type Changes = (&'static str, &'static [(&'static str, &'static str)]);

/// What is put for what in the body of each version, so that no cursor has it.
const CHANGES: [Changes; 7] = [
    (
        "cycle 3\n",
        &[
            ("a cycle with a leading zero", "cycle 03\n"),
            ("cycle 0", "cycle 0\n"),
            ("a cycle above 64 bits", "cycle 18446744073709551616\n"),
            ("a cycle without a number", "cycle \n"),
            ("two blanks before the cycle", "cycle  3\n"),
            ("a blank after the cycle", "cycle 3 \n"),
            ("no cycle", ""),
        ],
    ),
    (
        "cycle 3\nruns 2\n",
        &[("runs before the cycle", "runs 2\ncycle 3\n")],
    ),
    (
        "runs 2\n",
        &[
            ("runs with two zeros", "runs 00\n"),
            ("no runs", ""),
            ("runs above 64 bits", "runs 18446744073709551616\n"),
        ],
    ),
    (
        "spent 9\n",
        &[
            ("a cost with a sign", "spent +1\n"),
            (
                "a cost above 128 bits",
                "spent 340282366920938463463374607431768211456\n",
            ),
            ("two costs", "spent 9\nspent 9\n"),
            ("no cost", ""),
        ],
    ),
    (
        "after o/v1/content/c\n",
        &[
            ("no state", ""),
            ("no blank and no place", "after\n"),
            ("no place", "after \n"),
            ("a place that ends in a slash", "after a/\n"),
            ("an escape that is not needed", "after %61\n"),
            ("another state", "started\n"),
            ("an empty line at the end", "after o/v1/content/c\n\n"),
            ("two states", "after o/v1/content/c\nended\n"),
        ],
    ),
    (
        "/content/c\n",
        &[
            ("no line feed at the end", "/content/c"),
            ("a carriage return after the place", "/content/c\r\n"),
        ],
    ),
    (
        "cycle 3\nruns 2\nspent 9\n",
        &[(
            "carriage returns after the counts",
            "cycle 3\r\nruns 2\r\nspent 9\r\n",
        )],
    ),
];

/// What is put for the line of the files, so that no cursor has it.
const FILES_CHANGES: [Changes; 3] = [
    (
        "files 3\n",
        &[
            ("no files", ""),
            ("more files than their cost", "files 10\n"),
            ("files with a leading zero", "files 03\n"),
            ("files without a number", "files \n"),
            ("two lines of files", "files 3\nfiles 3\n"),
            (
                "files above 128 bits",
                "files 340282366920938463463374607431768211456\n",
            ),
        ],
    ),
    (
        "spent 9\nfiles 3\n",
        &[("files before the cost", "files 3\nspent 9\n")],
    ),
    ("cursor 2\n", &[("files in version 1", "cursor 1\n")]),
];

/// What is put for the line of the inventories, or for the first line, so that no cursor has it.
const CHECKING_CHANGES: [Changes; 3] = [
    (
        "checks inventories\n",
        &[
            ("no line of the inventories", ""),
            ("two of them", "checks inventories\nchecks inventories\n"),
            ("checks of something else", "checks versions\n"),
            ("checks of nothing", "checks \n"),
            ("a blank after the inventories", "checks inventories \n"),
        ],
    ),
    (
        "checks inventories\ncycle 3\n",
        &[(
            "the inventories after the cycle",
            "cycle 3\nchecks inventories\n",
        )],
    ),
    (
        "cursor 3\n",
        &[
            ("inventories in version 2", "cursor 2\n"),
            ("inventories in version 1", "cursor 1\n"),
        ],
    ),
];

/// Each of these changes makes a body that no cursor has.
fn expect_malformed(
    rt: &impl Runtime,
    version: &str,
    body: &str,
    tables: &[Changes],
) -> Result<(), Fail> {
    for (from, changes) in tables {
        for (row, to) in *changes {
            let refused = refusal_with(rt.alloc(), body, from, to)?;
            assert_eq!(rt; refused, Some(Refused::Malformed), "{row}, {version}");
        }
    }
    Ok(())
}

#[test]
fn refuses_forms_of_no_cursor(rt: HostRuntime) -> Result<(), Fail> {
    expect_malformed(&rt, "version 2", BODY, &CHANGES)?;
    expect_malformed(&rt, "version 1", OLD_BODY, &CHANGES)?;
    expect_malformed(&rt, "version 3", CHECKING_BODY, &CHANGES)?;
    expect_malformed(&rt, "version 2", BODY, &FILES_CHANGES)?;
    expect_malformed(&rt, "version 3", CHECKING_BODY, &CHECKING_CHANGES)?;
    // A text of version 3 has the line of the inventories.
    let third = refusal_with(rt.alloc(), BODY, "cursor 2", "cursor 3")?;
    assert_eq!(rt; third, Some(Refused::Malformed));
    // A text of version 1 has no such line, even of no files.
    let none = refusal_with(rt.alloc(), OLD_BODY, "spent 9\n", "spent 9\nfiles 0\n")?;
    assert_eq!(rt; none, Some(Refused::Malformed));
    let all = BODY.replace(rt.alloc(), "files 3\n", "files 9\n")?;
    let cursor = decode(rt.alloc(), &sealed(rt.alloc(), all.as_str())?)?;
    assert_eq!(rt; cursor.files(), 9);
    Ok(())
}

#[test]
fn keeps_the_limits_of_a_cursor(rt: HostRuntime) -> Result<(), Fail> {
    let alloc = rt.alloc();
    for (spent, fits) in [
        ("9223372036854775808", true),
        ("9223372036854775809", false),
    ] {
        let counts = format!(in alloc; "runs 1\nspent {spent}\n")?;
        for (version, whole) in [
            ("version 3", CHECKING_BODY),
            ("version 2", BODY),
            ("version 1", OLD_BODY),
        ] {
            let body = whole.replace(alloc, "runs 2\nspent 9\n", counts.as_str())?;
            let read = decode(alloc, &sealed(alloc, body.as_str())?);
            assert_eq!(rt; read.is_ok(), fits, "spent {spent}, {version}");
            assert_eq!(rt;
                read.err(),
                (!fits).then_some(Refused::Malformed),
                "spent {spent}, {version}"
            );
        }
    }
    let front = "ocfl-scrub cursor 2\ncycle 1\nruns 1\nspent 0\nfiles 0\n";
    let text = text_behind(alloc, front, &long_place(alloc, 256)?)?;
    assert_eq!(rt; refusal_of(alloc, &text), Some(Refused::Malformed));
    for further in [Further::Nothing, Further::Inventories] {
        assert!(rt; Cursor::from_parts(0, 0, 0, 0, further, State::Start).is_none());
        assert!(rt; Cursor::from_parts(1, 0, 1, 0, further, State::Start).is_none());
        assert!(rt; Cursor::from_parts(1, 2, 1 << 64, 0, further, State::Ended).is_some());
        assert!(rt; Cursor::from_parts(1, 2, (1 << 64) + 1, 0, further, State::Ended).is_none());
        assert!(rt; Cursor::from_parts(1, 2, 9, 9, further, State::Ended).is_some());
        assert!(rt; Cursor::from_parts(1, 2, 9, 10, further, State::Ended).is_none());
        let too_deep = State::After(long_place(alloc, 256)?);
        assert!(rt; Cursor::from_parts(1, 0, 0, 0, further, too_deep).is_none());
    }
    Ok(())
}

#[test]
fn moves_on(rt: HostRuntime) -> Result<(), Fail> {
    let behind = State::After(place_of(rt.alloc(), "a")?);
    let new = Cursor::new(Further::Inventories);
    let one = new.after_run(5, 2, behind).ok_or("a run")?;
    let two = one.after_run(4, 1, State::Ended).ok_or("a second run")?;
    assert_eq!(rt; (two.cycle(), two.runs()), (1, 2));
    assert_eq!(rt; (two.spent(), two.files()), (9, 3));
    assert_eq!(rt; two.state(), &State::Ended);
    assert_eq!(rt; two.further(), Further::Inventories);
    let mut taken = one;
    let behind = State::After(place_of(rt.alloc(), "a")?);
    assert_eq!(rt; taken.take_state(), behind);
    assert_eq!(rt; taken.state(), &State::Start);
    assert_eq!(rt; (taken.runs(), taken.spent(), taken.files()), (1, 5, 2));
    assert_eq!(rt; taken.further(), Further::Inventories);
    let next = two.next_cycle().ok_or("a second cycle")?;
    assert_eq!(rt; (next.cycle(), next.runs()), (2, 0));
    assert_eq!(rt; (next.spent(), next.files()), (0, 0));
    assert_eq!(rt; next.state(), &State::Start);
    assert_eq!(rt; next.further(), Further::Inventories);
    let last = Cursor::from_parts(u64::MAX, u64::MAX, 0, 0, Further::Nothing, State::Ended);
    let last = last.ok_or("the last cursor")?;
    assert!(rt; last.next_cycle().is_none());
    assert!(rt; last.after_run(0, 0, State::Start).is_none());
    let too_much = (1 << 63) + 1;
    assert!(rt; new.after_run(too_much, 1, State::Start).is_none());
    assert!(rt; new.after_run(4, 5, State::Start).is_none());
    Ok(())
}

/// The reasons that refusals of the whole and of a part have in common, and their texts.
fn expect_reasons(rt: &impl Runtime, reasons: &[impl Display; 4]) -> Result<(), Fail> {
    let texts = ["not a cursor", "damaged", "malformed", "out of memory"];
    for (reason, text) in reasons.iter().zip(texts) {
        expect_shown(rt, text, reason, text)?;
    }
    Ok(())
}

#[test]
fn reasons_have_their_texts(rt: HostRuntime) -> Result<(), Fail> {
    expect_reasons(
        &rt,
        &[
            NOT_CURSOR,
            Refused::Damaged,
            Refused::Malformed,
            Refused::Memory,
        ],
    )?;
    expect_shown(&rt, "version", &Refused::Version, "version")
}

/// A meter of this budget, for a run that may start `files` files.
fn meter_of(budget: u64, files: u64) -> Result<Meter, Fail> {
    let budget = Budget::new(budget).ok_or("a budget")?;
    let files = FileLimit::new(files).ok_or("a limit on files")?;
    Ok(Meter::new(Limits { budget, files }))
}

#[test]
fn limits_have_their_ranges(rt: HostRuntime) {
    for (number, is_limit) in [
        (0, false),
        (1, true),
        (4_611_686_018_427_387_904, true),
        (4_611_686_018_427_387_905, false),
    ] {
        assert_eq!(rt; Budget::new(number).is_some(), is_limit, "{number}");
        assert_eq!(rt; FileLimit::new(number).is_some(), is_limit, "{number}");
    }
}

#[test]
fn meters_a_run(rt: HostRuntime) -> Result<(), Fail> {
    let mut meter = meter_of(4_611_686_018_427_387_904, 3)?;
    assert_eq!(rt; (meter.spent(), meter.files()), (0, 0));
    assert!(rt; meter.may_start());
    meter.charge(4_611_686_018_427_387_903);
    assert!(rt; meter.may_start());
    meter.charge(4_611_686_018_427_387_905);
    assert_eq!(rt; (meter.spent(), meter.files()), (1 << 63, 2));
    assert!(rt; !meter.may_start());
    meter.charge(0);
    assert_eq!(rt; (meter.spent(), meter.files()), (1 << 63, 2));
    let mut least = meter_of(1, 4_611_686_018_427_387_904)?;
    assert!(rt; least.may_start());
    least.charge(1);
    assert!(rt; !least.may_start());
    Ok(())
}

#[test]
fn meters_the_files_of_a_run(rt: HostRuntime) -> Result<(), Fail> {
    let mut meter = meter_of(9, 2)?;
    // What costs nothing is no file.
    meter.charge(0);
    assert!(rt; meter.may_start());
    meter.charge(4);
    meter.charge(0);
    assert!(rt; meter.may_start());
    meter.charge(1);
    meter.charge(0);
    assert_eq!(rt; (meter.spent(), meter.files()), (5, 2));
    assert!(rt; !meter.may_start());
    let mut one = meter_of(9, 1)?;
    assert!(rt; one.may_start());
    one.charge(4);
    assert!(rt; !one.may_start());
    Ok(())
}

/// What reading stops with, for a reader of these bytes.
fn stop_of(alloc: Global, left: &[u8], then: Then) -> Option<CursorStop> {
    read_cursor(alloc, &mut Slow { left, then }).err()
}

#[test]
fn reads_from_readers(rt: HostRuntime) -> Result<(), Fail> {
    let alloc = rt.alloc();
    let whole = whole_text(alloc)?;
    assert_eq!(rt; stop_of(alloc, &whole, Then::Ends), None);
    let mut slice = whole.as_slice();
    let cursor = read_cursor(alloc, &mut slice).ok().ok_or("a cursor")?;
    assert_eq!(rt; encode(alloc, &cursor)?, whole);
    let not_cursor = Some(CursorStop::Refused(NOT_CURSOR));
    assert_eq!(rt; stop_of(alloc, b"", Then::Ends), not_cursor);
    let damaged = Some(CursorStop::Refused(Refused::Damaged));
    let short = &whole[..whole.len() - 1];
    assert_eq!(rt; stop_of(alloc, short, Then::Ends), damaged);
    let mut long = whole_text(alloc)?;
    long.resize(262_144, b'\n')?;
    assert_eq!(rt; stop_of(alloc, &long, Then::Ends), damaged);
    // From one byte more on the reader is not asked for its end.
    long.push(b'\n')?;
    let failing = Then::Fails(ErrorKind::PermissionDenied);
    assert_eq!(rt; stop_of(alloc, &long, failing), not_cursor);
    let given = [("a reader that fails", whole.as_slice())];
    let stops = (CursorStop::Read, CursorStop::Refused(Refused::Memory));
    expect_failures(&rt, &given, stops, |mut reader| {
        Ok(read_cursor(alloc, &mut reader).err())
    })
}
