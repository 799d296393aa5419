//! Checkpoints and their text, and why other bytes are refused.
use crate::tests::common::cursors::{LINES as CURSOR_LINES, ends_of, whole_text as cursor_text};
use crate::tests::common::store::place_of;
use crate::tests::common::{Runtime, expect_shown};
use ocfl_cursor::{Cursor, CursorStop, Refused, ShowStop, State, TextKind};
use ocfl_joining::{
    CycleEnd, FoundReport, KeptMark, RunCount, add_runs, facts_of, facts_with, is_emptied,
    join_status, known_part, last_of_all, mark_of, mark_with, read_facts,
};
use ocfl_report::Further;
use ocfl_state::{
    Checkpoint, Left, NotShown, Phase, ReportMark, RootIdentity, TopNames, checkpoint_lines,
    checkpoint_reads_back, decode_checkpoint, encode_checkpoint, every_checkpoint_fits,
    read_stored, show_stored,
};
use sha2::{Digest, Sha256};
use std::alloc::Global;
use std::test::Fail;

/// The first line of a checkpoint.
const FIRST: &str = "ocfl-scrub checkpoint 1\n";

/// The other lines of a checkpoint after its first slice, but the last.
const LINES: &str = "root /srv/ocfl
declared 1111111111111111111111111111111111111111111111111111111111111111
names 3 abababababababababababababababababababababababababababababababab
phase open
whole yes
report 120 3
pieces 0000000000000000000000000000000000000000000000000000000000000000
tail e3e3e3e3e3e3e3e3e3e3e3e3e3e3e3e3e3e3e3e3e3e3e3e3e3e3e3e3e3e3e3e3
told 60
left 0
cycle 1
runs 1
spent 4
files 1
after o/v1/content/a
";

/// The SHA-256 of all these lines, by `sha256sum`.
const DIGEST: &str = "cbb44e94eb3662aba258c26594e167a4cb4760b9ca98538285f7ed6ebb391159";

/// The first line of a checkpoint of an audit that checks the inventories of versions.
const CHECKING_FIRST: &str = "ocfl-scrub checkpoint 2\n";

/// What such a checkpoint has before the line of the cycle.
const CHECKS: &str = "checks inventories\n";

/// The SHA-256 of that first line and the lines above with this one, by `sha256sum`.
const CHECKING_DIGEST: &str = "0fd7a1ba6c31f107122d13ad900441ff5b89e79d7a201f412ad9add41faa7f1f";

/// The same of the part from `b` to `d`.
const CHECKING_PART_DIGEST: &str =
    "ce69f9dee26d97515978803634a51d4f166937e4dcd70cb87b275522b3941f92";

/// The lines of a part's checkpoint that is closing, after two branches were left out.
const PART_LINES: &str = "root /mnt/r%C3%A9 %25/ocfl
declared abababababababababababababababababababababababababababababababab
names 18446744073709551615 1111111111111111111111111111111111111111111111111111111111111111
phase closing
whole no
report 18446744073709551615 7
pieces e3e3e3e3e3e3e3e3e3e3e3e3e3e3e3e3e3e3e3e3e3e3e3e3e3e3e3e3e3e3e3e3
tail 0000000000000000000000000000000000000000000000000000000000000000
told 18446744073709551615
left 2
left .
start
left o/a%0Ab
after start
from ./start
below z
cycle 7
runs 2
spent 9
files 3
ended
";

/// The SHA-256 of the first line and these, by `sha256sum`.
const PART_DIGEST: &str = "94cef0980813f810797b1826333cf15479200e84339b723bc7cfdd8c97c0ec3b";

/// A line of the first checkpoint, or a part of one, and what makes the text malformed in its
/// place.
const MALFORMED: [(&str, &str); 26] = [
    ("root /srv/ocfl", "root srv/ocfl"),
    ("root /srv/ocfl", "root /."),
    ("root /srv/ocfl", "root /srv//ocfl"),
    ("root /srv/ocfl", "root /srv/ocfl/"),
    ("root /srv/ocfl", "root "),
    ("root /srv/ocfl\n", ""),
    ("declared 1", "declared "),
    ("declared 1", "declared g"),
    ("names 3 a", "names 3 A"),
    ("names 3 ", "names 03 "),
    ("names 3 ", "names 18446744073709551616 "),
    ("names 3 ", "names 3"),
    ("phase open", "phase closed"),
    ("phase open", "phase open "),
    ("whole yes", "whole maybe"),
    ("report 120 3", "report 120"),
    ("report 120 3", "report 120  3"),
    ("report 120 3", "report 3 120"),
    ("told 60", "told 121"),
    ("told 60", "told -1"),
    ("left 0", "left 1"),
    ("left 0\n", "left 0\nleft o\nstart\n"),
    ("left 0\n", "left 1\nleft o\n"),
    ("left 0\n", "left 1\nleft o\nended\n"),
    ("cycle 1", "cycle 0"),
    ("after o/v1/content/a\n", "after o/v1/content/a\n\n"),
];

/// The checkpoint after a first slice.
fn checkpoint(alloc: Global) -> Result<Checkpoint, Fail> {
    checkpoint_of(alloc, Further::Nothing)
}

/// The same of an audit that checks this further.
fn checkpoint_of(alloc: Global, further: Further) -> Result<Checkpoint, Fail> {
    let place = place_of(alloc, "o/v1/content/a")?;
    Ok(Checkpoint {
        root: RootIdentity {
            path: place_of(alloc, "srv/ocfl")?,
            declared: [0x11; 32],
        },
        names: TopNames {
            count: 3,
            digest: [0xAB; 32],
        },
        phase: Phase::Open,
        whole: true,
        report: ReportMark {
            bytes: 120,
            lines: 3,
            pieces: [0; 32],
            tail: [0xE3; 32],
        },
        said: 60,
        left: Vec::new(alloc),
        part: None,
        cursor: Cursor::from_parts(1, 1, 4, 1, further, State::After(place)).ok_or("a cursor")?,
    })
}

/// The checkpoint of a part that is closing.
fn part_checkpoint(alloc: Global) -> Result<Checkpoint, Fail> {
    let mut left = Vec::new(alloc);
    left.push(Left {
        place: place_of(alloc, ".")?,
        after: None,
    })?;
    left.push(Left {
        place: place_of(alloc, "o/a\nb")?,
        after: Some(place_of(alloc, "start")?),
    })?;
    Ok(Checkpoint {
        root: RootIdentity {
            path: place_of(alloc, "mnt/ré %/ocfl")?,
            declared: [0xAB; 32],
        },
        names: TopNames {
            count: u64::MAX,
            digest: [0x11; 32],
        },
        phase: Phase::Closing,
        whole: false,
        report: ReportMark {
            bytes: u64::MAX,
            lines: 7,
            pieces: [0xE3; 32],
            tail: [0; 32],
        },
        said: u64::MAX,
        left,
        part: Some(ends_of(alloc, "start", "z")?),
        cursor: Cursor::from_parts(7, 2, 9, 3, Further::Nothing, State::Ended).ok_or("a cursor")?,
    })
}

/// The text with its right last line.
fn sealed(alloc: Global, body: &str) -> Result<Vec<u8>, Fail> {
    let digest = hex::encode(alloc, Sha256::digest(body.as_bytes()))?;
    Ok(format!(in alloc; "{body}sha256 {digest}\n")?.into_bytes())
}

/// The whole text of the first checkpoint.
fn whole_text(alloc: Global) -> Result<Vec<u8>, Fail> {
    Ok(format!(in alloc; "{FIRST}{LINES}sha256 {DIGEST}\n")?.into_bytes())
}

/// Why the bytes are refused as a checkpoint.
fn refusal_of(alloc: Global, text: &[u8]) -> Option<Refused> {
    decode_checkpoint(alloc, text).err()
}

/// Why the sealed text is refused.
fn sealed_refusal(alloc: Global, body: &str) -> Result<Option<Refused>, Fail> {
    let text = sealed(alloc, body)?;
    Ok(refusal_of(alloc, &text))
}

fn expect_text(
    rt: &impl Runtime,
    checkpoint: &Checkpoint,
    (first, lines, digest): (&str, &str, &str),
) -> Result<(), Fail> {
    let alloc = rt.alloc();
    let wanted = format!(in alloc; "{first}{lines}sha256 {digest}\n")?;
    let text = encode_checkpoint(alloc, checkpoint)?;
    assert_eq!(rt; text.as_slice(), wanted.as_bytes(), "{digest}");
    let shown = checkpoint_lines(alloc, checkpoint)?;
    assert_eq!(rt; shown.as_slice(), lines.as_bytes(), "{digest}, shown");
    let read = decode_checkpoint(alloc, &text)?;
    let again = encode_checkpoint(alloc, &read)?;
    assert_eq!(rt; again.as_slice(), wanted.as_bytes(), "{digest}, again");
    every_checkpoint_fits(&read);
    let back = checkpoint_reads_back(alloc, &read)?;
    let again = encode_checkpoint(alloc, &back)?;
    assert_eq!(rt; again.as_slice(), wanted.as_bytes(), "{digest}, back");
    Ok(())
}

#[test]
fn checkpoints_have_these_texts(rt: HostRuntime) -> Result<(), Fail> {
    let alloc = rt.alloc();
    expect_text(&rt, &checkpoint(alloc)?, (FIRST, LINES, DIGEST))?;
    let texts = (FIRST, PART_LINES, PART_DIGEST);
    expect_text(&rt, &part_checkpoint(alloc)?, texts)?;
    Ok(())
}

/// The lines of the first checkpoint with these before the line of the cycle.
fn lines_with(alloc: Global, added: &str) -> Result<String, Fail> {
    let (before, after) = LINES.split_once("cycle").ok_or("the line is there")?;
    Ok(format!(in alloc; "{before}{added}cycle{after}")?)
}

#[test]
fn checkpoints_tell_what_is_checked(rt: HostRuntime) -> Result<(), Fail> {
    let alloc = rt.alloc();
    let mut checking = checkpoint_of(alloc, Further::Inventories)?;
    let lines = lines_with(alloc, CHECKS)?;
    let texts = (CHECKING_FIRST, lines.as_str(), CHECKING_DIGEST);
    expect_text(&rt, &checking, texts)?;
    checking.part = Some(ends_of(alloc, "b", "d")?);
    let lines = lines_with(alloc, "from b\nbelow d\nchecks inventories\n")?;
    let texts = (CHECKING_FIRST, lines.as_str(), CHECKING_PART_DIGEST);
    expect_text(&rt, &checking, texts)?;
    let text = encode_checkpoint(alloc, &checking)?;
    let read = decode_checkpoint(alloc, &text)?;
    assert_eq!(rt; read.cursor.further(), Further::Inventories);
    let shown = show_stored(alloc, &text).ok().ok_or("shown")?;
    assert_eq!(rt; shown.as_slice(), lines.as_bytes());
    Ok(())
}

#[test]
fn lines_of_a_checkpoint_fit_its_version(rt: HostRuntime) -> Result<(), Fail> {
    let alloc = rt.alloc();
    for (first, added, wanted) in [
        (FIRST, "", None),
        (CHECKING_FIRST, CHECKS, None),
        (FIRST, CHECKS, Some(Refused::Malformed)),
        (CHECKING_FIRST, "", Some(Refused::Malformed)),
        (
            CHECKING_FIRST,
            "checks versions\n",
            Some(Refused::Malformed),
        ),
        (
            CHECKING_FIRST,
            "checks inventories\nfrom b\nbelow d\n",
            Some(Refused::Malformed),
        ),
    ] {
        let body = format!(in alloc; "{first}{}", lines_with(alloc, added)?)?;
        let refused = sealed_refusal(alloc, body.as_str())?;
        assert_eq!(rt; refused, wanted, "{first}{added}");
    }
    Ok(())
}

#[test]
fn each_part_of_a_checkpoint_is_read(rt: HostRuntime) -> Result<(), Fail> {
    let alloc = rt.alloc();
    let text = format!(in alloc; "{FIRST}{PART_LINES}sha256 {PART_DIGEST}\n")?;
    let read = decode_checkpoint(alloc, text.as_bytes())?;
    assert_eq!(rt; read.root.path.path(), "mnt/ré %/ocfl");
    assert_eq!(rt; read.root.declared, [0xAB; 32]);
    assert_eq!(rt;
        (read.names.count, read.names.digest),
        (u64::MAX, [0x11; 32])
    );
    assert_eq!(rt; (read.phase, read.whole), (Phase::Closing, false));
    assert_eq!(rt; (read.report.bytes, read.report.lines), (u64::MAX, 7));
    assert_eq!(rt;
        (read.report.pieces, read.report.tail),
        ([0xE3; 32], [0; 32])
    );
    assert_eq!(rt; read.said, u64::MAX);
    assert_eq!(rt; read.left.len(), 2);
    assert_eq!(rt;
        (read.left[0].place.depth(), read.left[0].after.is_none()),
        (0, true)
    );
    assert_eq!(rt; read.left[1].place.path(), "o/a\nb");
    let after = read.left[1].after.as_ref().ok_or("after a place")?;
    assert_eq!(rt; after.path(), "start");
    let part = read.part.as_ref().ok_or("a part")?;
    let from = part.from.as_ref().ok_or("a first place")?;
    assert_eq!(rt; from.path(), "start");
    assert_eq!(rt; (read.cursor.cycle(), read.cursor.runs()), (7, 2));
    assert_eq!(rt; read.cursor.state(), &State::Ended);
    Ok(())
}

/// Why bytes that do not begin as a checkpoint are refused.
const NOT_CHECKPOINT: Refused = Refused::NotA(TextKind::Checkpoint);

/// Bytes that are the text of no checkpoint, and why.
const OTHER_BYTES: [(&str, &str, Refused); 10] = [
    ("no bytes", "", NOT_CHECKPOINT),
    ("the name of the tool", "ocfl-scrub ", NOT_CHECKPOINT),
    ("a cursor", "ocfl-scrub cursor 2\n", NOT_CHECKPOINT),
    ("no version", "ocfl-scrub checkpoint \n", Refused::Version),
    ("version 3", "ocfl-scrub checkpoint 3\n", Refused::Version),
    ("version 01", "ocfl-scrub checkpoint 01\n", Refused::Version),
    ("version 10", "ocfl-scrub checkpoint 10\n", Refused::Version),
    (
        "a blank after it",
        "ocfl-scrub checkpoint 1 \n",
        Refused::Version,
    ),
    ("the first line alone", FIRST, Refused::Damaged),
    ("no line feed", "ocfl-scrub checkpoint 1", Refused::Damaged),
];

#[test]
fn other_bytes_are_no_checkpoint(rt: HostRuntime) -> Result<(), Fail> {
    let alloc = rt.alloc();
    for (row, bytes, wanted) in OTHER_BYTES {
        let refused = refusal_of(alloc, bytes.as_bytes());
        assert_eq!(rt; refused, Some(wanted), "{row}");
    }
    let body = format!(in alloc; "ocfl-scrub checkpoint 3\n{LINES}")?;
    let refused = sealed_refusal(alloc, body.as_str())?;
    assert_eq!(rt; refused, Some(Refused::Version), "version 3, sealed");
    Ok(())
}

#[test]
fn damaged_checkpoints_are_refused(rt: HostRuntime) -> Result<(), Fail> {
    let alloc = rt.alloc();
    let text = whole_text(alloc)?;
    // Each byte made another one, and each cut.
    for index in 0..text.len() {
        let wanted = if index < 22 {
            NOT_CHECKPOINT
        } else if index < 24 {
            Refused::Version
        } else {
            Refused::Damaged
        };
        let mut changed = text.to_vec(alloc)?;
        changed[index] = if text[index] == b'0' { b'1' } else { b'0' };
        assert_eq!(rt; refusal_of(alloc, &changed), Some(wanted), "{index}");
        if index >= 24 {
            let cut = refusal_of(alloc, &text[..index]);
            assert_eq!(rt; cut, Some(Refused::Damaged), "cut to {index}");
        }
    }
    let body = format!(in alloc; "{FIRST}{LINES}")?;
    for (row, last) in [
        (
            "the line of a cursor",
            format!(in alloc; "digest {DIGEST}\n")?,
        ),
        (
            "capitals",
            format!(in alloc; "sha256 {}\n", DIGEST.to_ascii_uppercase(alloc)?)?,
        ),
        ("a byte after it", format!(in alloc; "sha256 {DIGEST}\n\n")?),
    ] {
        let text = format!(in alloc; "{body}{last}")?;
        let refused = refusal_of(alloc, text.as_bytes());
        assert_eq!(rt; refused, Some(Refused::Damaged), "{row}");
    }
    Ok(())
}

#[test]
fn other_lines_are_malformed(rt: HostRuntime) -> Result<(), Fail> {
    let alloc = rt.alloc();
    let body = format!(in alloc; "{FIRST}{LINES}")?;
    assert_eq!(rt; sealed_refusal(alloc, body.as_str())?, None);
    for (line, other) in MALFORMED {
        let (before, after) = body.as_str().split_once(line).ok_or("the line is there")?;
        let changed = format!(in alloc; "{before}{other}{after}")?;
        let refused = sealed_refusal(alloc, changed.as_str())?;
        assert_eq!(rt; refused, Some(Refused::Malformed), "{other}");
    }
    // One of the branches that were left out.
    let left = format!(in alloc;
        "{FIRST}{}",
        LINES.replace(alloc, "left 0\n", "left 1\nleft o\nstart\n")?
    )?;
    assert_eq!(rt; sealed_refusal(alloc, left.as_str())?, None, "a branch");
    Ok(())
}

#[test]
fn checkpoints_and_cursors_are_shown(rt: HostRuntime) -> Result<(), Fail> {
    let alloc = rt.alloc();
    let text = whole_text(alloc)?;
    let shown = show_stored(alloc, &text).ok().ok_or("shown")?;
    assert_eq!(rt; shown.as_slice(), LINES.as_bytes());
    let shown = read_stored(alloc, &mut text.as_slice())
        .ok()
        .ok_or("shown")?;
    assert_eq!(rt; shown.as_slice(), LINES.as_bytes());
    let cursor = cursor_text(alloc)?;
    let shown = show_stored(alloc, &cursor).ok().ok_or("a cursor")?;
    assert_eq!(rt; shown.as_slice(), CURSOR_LINES.as_bytes());
    let damaged = NotShown::Checkpoint(Refused::Damaged);
    let cut = show_stored(alloc, &text[..text.len() - 1]).err();
    assert_eq!(rt; cut, Some(damaged), "a checkpoint that is cut");
    let refused = NotShown::Cursor(ShowStop::Whole(CursorStop::Refused(Refused::Damaged)));
    let cut = show_stored(alloc, &cursor[..cursor.len() - 1]).err();
    assert_eq!(rt; cut, Some(refused), "a cursor that is cut");
    let refused = NotShown::Cursor(ShowStop::Whole(CursorStop::Refused(Refused::NotA(
        TextKind::Cursor,
    ))));
    assert_eq!(rt; show_stored(alloc, b"{}").err(), Some(refused), "neither");
    Ok(())
}

#[test]
fn no_checkpoint_has_its_text(rt: HostRuntime) -> Result<(), Fail> {
    expect_shown(&rt, "no checkpoint", &NOT_CHECKPOINT, "not a checkpoint")
}

/// A checkpoint whose cycle has ended and is closed.
fn closed_checkpoint(alloc: Global) -> Result<Checkpoint, Fail> {
    let mut checkpoint = part_checkpoint(alloc)?;
    checkpoint.phase = Phase::Open;
    Ok(checkpoint)
}

#[test]
fn checkpoints_say_what_parts_have_closed(rt: HostRuntime) -> Result<(), Fail> {
    let alloc = rt.alloc();
    let mut all = Vec::new(alloc);
    for (checkpoint, last, has_lines) in [
        (checkpoint(alloc)?, 0, false),
        (part_checkpoint(alloc)?, 6, false),
        (closed_checkpoint(alloc)?, 7, true),
    ] {
        let facts = facts_of(alloc, &checkpoint)?;
        assert_eq!(rt; facts.last, last);
        assert_eq!(rt; facts.has_lines, has_lines);
        assert_eq!(rt; is_emptied(&facts, last, 0), has_lines);
        assert!(rt; !is_emptied(&facts, last, 1) && !is_emptied(&facts, last + 1, 0));
        all.push(Some(facts))?;
    }
    assert_eq!(rt; last_of_all(&all[1..]), 6);
    assert_eq!(rt; last_of_all(&all), 0);
    assert_eq!(rt; facts_with(&all, 3).map(|facts| facts.last), Some(7));
    assert!(rt; facts_with(&all, 4).is_none());
    // The report of the third part had lines in cycle 7.
    for (number, cycle, bytes, mark) in [
        (3, 7, 0, KeptMark::Damaged),
        (3, 7, 1, KeptMark::NotKept),
        (3, 6, 0, KeptMark::NotKept),
        (2, 7, 0, KeptMark::NotKept),
        (4, 7, 0, KeptMark::NotKept),
    ] {
        assert_eq!(rt;
            mark_with(&all, number, cycle, bytes, &None),
            mark,
            "{number}"
        );
    }
    assert_eq!(rt; last_of_all(&[]), u64::MAX);
    assert_eq!(rt; last_of_all(&[None]), 0);
    Ok(())
}

#[test]
fn facts_are_read_of_a_checkpoint(rt: HostRuntime) -> Result<(), Fail> {
    let alloc = rt.alloc();
    let text = encode_checkpoint(alloc, &closed_checkpoint(alloc)?)?;
    match read_facts(alloc, text.as_slice()) {
        Ok(facts) => assert!(rt; facts.last == 7 && facts.has_lines),
        Err(_) => return Err(Fail::new("no checkpoint")),
    }
    assert_eq!(rt;
        read_facts(alloc, &text[1..]).err(),
        Some(Refused::NotA(TextKind::Checkpoint))
    );
    Ok(())
}

#[test]
fn a_part_is_known_by_what_was_kept(rt: HostRuntime) -> Result<(), Fail> {
    let alloc = rt.alloc();
    let facts = facts_of(alloc, &closed_checkpoint(alloc)?)?;
    let found = found_with(false, Some(Some(part_checkpoint(alloc)?)));
    let part = known_part(alloc, &facts, 7, true, &found)?;
    assert!(rt;
        part.root
            .as_slice()
            .starts_with("mnt/ré %/ocfl\n".as_bytes())
    );
    assert_eq!(rt; part.root.len(), 14 + 1 + 32);
    assert!(rt; part.cycle == 7 && part.has_said && !part.whole);
    assert_eq!(rt; part.further, Further::Nothing);
    assert_eq!(rt; part.names, Some(u64::MAX));
    assert_eq!(rt; part.left.len(), 2);
    let checking = facts_of(alloc, &checkpoint_of(alloc, Further::Inventories)?)?;
    let part = known_part(alloc, &checking, 7, true, &found)?;
    assert_eq!(rt; part.further, Further::Inventories);
    for kept in [None, Some(None)] {
        let found = found_with(true, kept);
        let part = known_part(alloc, &facts, 7, true, &found)?;
        assert!(rt; part.names.is_none() && part.left.is_empty() && part.whole);
        assert!(rt; add_runs(Some(5), &found.kept).is_none());
    }
    Ok(())
}

#[test]
fn runs_and_marks_are_known_by_what_was_kept(rt: HostRuntime) -> Result<(), Fail> {
    let alloc = rt.alloc();
    let found = found_with(false, Some(Some(part_checkpoint(alloc)?)));
    let kept = &found.kept;
    assert_eq!(rt; add_runs(Some(5), kept), Some(7));
    assert_eq!(rt; add_runs(Some(u64::MAX), kept), Some(u64::MAX));
    assert_eq!(rt; add_runs(None, kept), None);
    // 2 runs of each of two parts, of one cycle; of one of which nothing was kept they are not
    // known.
    let one = RunCount::new().with(3, kept);
    assert_eq!(rt; (RunCount::new().known(), one.known()), (0, 2));
    assert_eq!(rt;
        (one.with(3, kept).known(), one.with(4, kept).known()),
        (4, 2)
    );
    assert_eq!(rt; one.with(3, &None).known(), 0);
    assert_eq!(rt; mark_of(true, kept), KeptMark::Damaged);
    assert!(rt; matches!(mark_of(false, kept), KeptMark::Kept(mark) if mark.lines == 7));
    assert_eq!(rt; mark_of(false, &Some(None)), KeptMark::Damaged);
    assert_eq!(rt; mark_of(false, &None), KeptMark::NotKept);
    Ok(())
}

/// A closed report, and what was kept at its closing.
fn found_with(whole: bool, kept: Option<Option<Checkpoint>>) -> FoundReport {
    FoundReport { whole, kept }
}

/// How a joining ended, and its status.
const STATUSES: [(CycleEnd, u8); 4] = [
    (CycleEnd::IsJoined { whole: true }, 0),
    (CycleEnd::IsJoined { whole: false }, 3),
    (CycleEnd::IsHindered { named: true }, 3),
    (CycleEnd::IsHindered { named: false }, 0),
];

#[test]
fn a_joining_has_a_status(rt: HostRuntime) {
    for (end, status) in STATUSES {
        assert_eq!(rt; join_status(end), status);
    }
}
