//! The digests of reports by whole pieces. The expected values are those of Python's `hashlib`.
use crate::tests::common::Runtime;
use ocfl_state::{
    MemState, PIECE_LEN, ReportCheck, ReportDigests, ReportMark, StateFolder, digests_of_report,
    is_report_of, resume_digests,
};
use std::alloc::Global;
use std::test::Fail;

const ZEROS: &str = "0000000000000000000000000000000000000000000000000000000000000000";

/// The SHA-256 of no bytes.
const EMPTY: &str = "e3b0c44298fc1c149afbf4c8996fb92427ae41e4649b934ca495991b7852b855";

/// Short reports, their lines, and the digest of their tail.
const SHORT: [(&str, u64, &str); 3] = [
    ("", 0, EMPTY),
    (
        "ok|a|1\nE092|b|2\n",
        2,
        "9df9c4b42273870fa43fe6bcf0e477d13ba5c1fff9aeda93f2df6465dba21e9c",
    ),
    (
        "abc",
        0,
        "ba7816bf8f01cfea414140de5dae2223b00361a396177a9cb410ff61f20015ad",
    ),
];

/// The chain after a piece of 262,144 lines `0123456789abcde`.
const ONE_PIECE: &str = "8bd86327c20b61939809a8fd0aa6b5a194f0fe3beae0af352aa6600b16e4edd3";

/// The digest of the line `E092`.
const LAST_LINE: &str = "6d9880d2040ce6575fe85acbe7978ce7777668dec8d70ab1035bcd684e1dea3f";

/// The summary with these lines and digests.
fn expect(
    rt: &impl Runtime,
    row: &str,
    found: ReportMark,
    counts: (u64, u64),
    digests: (&str, &str),
) -> Result<(), Fail> {
    let pieces = hex::encode(rt.alloc(), found.pieces)?;
    let tail = hex::encode(rt.alloc(), found.tail)?;
    assert_eq!(rt; (found.bytes, found.lines), counts, "{row}");
    assert_eq!(rt; (pieces.as_str(), tail.as_str()), digests, "{row}");
    Ok(())
}

#[test]
fn short_reports_have_no_pieces(rt: HostRuntime) -> Result<(), Fail> {
    for (text, lines, tail) in SHORT {
        for middle in 0..=text.len() {
            let mut digests = ReportDigests::new();
            digests.push(&text.as_bytes()[..middle]);
            digests.push(&text.as_bytes()[middle..]);
            let counts = (text.len() as u64, lines);
            expect(&rt, text, digests.summary(), counts, (ZEROS, tail))?;
            assert!(rt; digests.pieces() == digests.summary().pieces, "{text}");
            assert!(rt; digests.tail() == digests.summary().tail, "{text}");
        }
    }
    Ok(())
}

/// A report of one whole piece and the line `E092`.
fn long_text(alloc: Global) -> Result<Vec<u8>, Fail> {
    let line = b"0123456789abcde\n";
    let mut text = Vec::with_capacity(alloc, PIECE_LEN + 5)?;
    for _ in 0..PIECE_LEN / line.len() {
        text.extend_from_slice(line)?;
    }
    text.extend_from_slice(b"E092\n")?;
    Ok(text)
}

/// A state folder with that report.
fn long(alloc: Global) -> Result<MemState, Fail> {
    let text = long_text(alloc)?;
    let mut folder = MemState::new(alloc);
    folder.append(text.as_slice())?;
    Ok(folder)
}

#[test]
fn a_long_report_is_compared_and_carried_on(rt: HostRuntime) -> Result<(), Fail> {
    let mut folder = long(rt.alloc())?;
    let length = PIECE_LEN as u64 + 5;
    let summary = digests_of_report(&mut folder)?.summary();
    let digests = (ONE_PIECE, LAST_LINE);
    expect(&rt, "whole", summary, (length, 262_145), digests)?;
    let Some(resumed) = resume_digests(&mut folder, &summary)? else {
        return Err("not resumed".into());
    };
    assert!(rt; resumed.summary() == summary);
    folder.append(b"more\n")?;
    assert!(rt; resume_digests(&mut folder, &summary)?.is_some(), "longer");
    folder.cut(length - 1)?;
    assert!(rt; resume_digests(&mut folder, &summary)?.is_none(), "cut");
    folder.append(b"x")?;
    assert!(rt; resume_digests(&mut folder, &summary)?.is_none(), "changed");
    Ok(())
}

/// Marks that differ from this one at one point each.
fn others_than(summary: ReportMark) -> [ReportMark; 4] {
    [
        ReportMark {
            bytes: summary.bytes + 1,
            ..summary
        },
        ReportMark {
            lines: summary.lines + 1,
            ..summary
        },
        ReportMark {
            pieces: [1; 32],
            ..summary
        },
        ReportMark {
            tail: [1; 32],
            ..summary
        },
    ]
}

#[test]
fn a_report_has_one_summary(rt: HostRuntime) -> Result<(), Fail> {
    let mut folder = MemState::new(rt.alloc());
    folder.append(b"ok|a|1\n")?;
    let summary = digests_of_report(&mut folder)?.summary();
    assert!(rt; is_report_of(&mut folder, &summary)?);
    let others = others_than(summary);
    for (index, other) in others.iter().enumerate() {
        assert!(rt; !is_report_of(&mut folder, other)?, "{index}");
    }
    folder.append(b"x")?;
    assert!(rt; !is_report_of(&mut folder, &summary)?, "longer");
    Ok(())
}

/// Whether a report has a mark, if its bytes come in two pieces.
fn has_mark(mark: &ReportMark, first: &[u8], rest: &[u8]) -> bool {
    let mut check = ReportCheck::new(mark);
    check.push(first);
    check.push(rest);
    check.is_met()
}

#[test]
fn a_report_is_compared_with_a_mark_while_it_comes(rt: HostRuntime) -> Result<(), Fail> {
    for (text, lines, tail) in SHORT {
        let mut mark = ReportDigests::new().summary();
        (mark.bytes, mark.lines) = (text.len() as u64, lines);
        hex::decode_to_slice(tail, &mut mark.tail)?;
        for middle in 0..=text.len() {
            let (first, rest) = text.as_bytes().split_at(middle);
            assert!(rt; has_mark(&mark, first, rest), "{text}");
            for other in others_than(mark) {
                assert!(rt; !has_mark(&other, first, rest), "{text}");
            }
            assert!(rt; !has_mark(&mark, text.as_bytes(), b"x"), "{text}");
        }
    }
    Ok(())
}

#[test]
fn a_long_report_is_compared_with_a_mark(rt: HostRuntime) -> Result<(), Fail> {
    let mut mark = ReportDigests::new().summary();
    (mark.bytes, mark.lines) = (PIECE_LEN as u64 + 5, 262_145);
    hex::decode_to_slice(ONE_PIECE, &mut mark.pieces)?;
    hex::decode_to_slice(LAST_LINE, &mut mark.tail)?;
    let text = long_text(rt.alloc())?;
    for middle in [0, 1, PIECE_LEN - 1, PIECE_LEN, PIECE_LEN + 1, text.len()] {
        let (first, rest) = text.split_at(middle);
        assert!(rt; has_mark(&mark, first, rest), "{middle}");
    }
    assert!(rt;
        !has_mark(&mark, &text[..PIECE_LEN], b"E093\n"),
        "another tail"
    );
    assert!(rt; !has_mark(&mark, &text[1..], b"\n"), "another piece");
    assert!(rt; !has_mark(&mark, &text[..PIECE_LEN], b""), "shorter");
    assert!(rt; !has_mark(&mark, &text, b"\n"), "longer");
    Ok(())
}
