//! Codes, the text of places and lines, and output that stops.
use crate::tests::common::Runtime;
use crate::tests::common::input::{Slow, Then, failures};
use crate::tests::common::store::place_of;
use ocfl_report::laws::line_reads_back;
use ocfl_report::{
    Code, InputStop, Line, OutStop, TextStop, put_place, read_decimal, read_limited, read_line,
    read_next_line, read_place, split_once, write_all_of,
};
use ocfl_tree::Place;
use std::alloc::Global;
use std::io::{self, BufReader, ErrorKind, Write};
use std::test::Fail;

/// What a call of `write` does.
#[derive(Clone, Copy)]
enum Answer {
    /// Takes up to this number of bytes.
    Takes(usize),
    Fails(ErrorKind),
}

/// A writer that keeps what it takes. It answers each call by the next of its answers, and by the
/// last from then on.
#[derive(Drop)]
struct Scripted<'a> {
    answers: &'a [Answer],
    calls: usize,
    taken: Vec<u8>,
}

impl<'a> Scripted<'a> {
    fn new(alloc: Global, answers: &'a [Answer]) -> Scripted<'a> {
        Scripted {
            answers,
            calls: 0,
            taken: Vec::new(alloc),
        }
    }
}

impl Write for Scripted<'_> {
    fn write(&mut self, buf: &[u8]) -> io::Result<usize> {
        let answer = self.answers.get(self.calls).or(self.answers.last());
        self.calls = self.calls.saturating_add(1);
        match answer {
            Some(Answer::Takes(count)) => {
                let count = buf.len().min(*count);
                self.taken.extend_from_slice(&buf[..count])?;
                Ok(count)
            }
            Some(Answer::Fails(kind)) => Err(io::Error::from(*kind)),
            None => Ok(0),
        }
    }

    fn flush(&mut self) -> io::Result<()> {
        Ok(())
    }
}

const INTERRUPTED: Answer = Answer::Fails(ErrorKind::Interrupted);

const FULL: Answer = Answer::Fails(ErrorKind::StorageFull);

/// The codes, each as a report's line begins with it.
const CODES: [&str; 39] = [
    "ok", "E001", "E003", "E007", "E015", "E017", "E018", "E023", "E024", "E025", "E033", "E036",
    "E041", "E058", "E060", "E061", "E063", "E064", "E069", "E072", "E073", "E076", "E080", "E092",
    "E093", "E096", "E097", "E099", "E100", "E101", "S01", "S02", "S03", "S04", "S05", "S06",
    "S07", "S08", "S09",
];

/// The code that a report's line has which begins so.
fn code_of(alloc: Global, text: &str) -> Result<Code, Fail> {
    let line = format!(in alloc; "{text}\t.\t-\n")?;
    Ok(read_line(alloc, line.as_bytes())?.code)
}

fn line_text(alloc: Global, code: Code, path: &str, detail: &str) -> Result<Vec<u8>, Fail> {
    let line = Line {
        code,
        place: place_of(alloc, path)?,
        detail: String::from_str(alloc, detail)?,
    };
    let mut text = Vec::new(alloc);
    line.put(&mut text)?;
    Ok(text)
}

fn is_text_of(rt: &impl Runtime, row: &str, text: &str, path: &str) -> Result<(), Fail> {
    let alloc = rt.alloc();
    let place = place_of(alloc, path)?;
    assert_eq!(rt; read_place(alloc, text.as_bytes())?, place, "reading {row}");
    let mut written = Vec::new(alloc);
    put_place(&place, &mut written)?;
    assert_eq!(rt; written.as_slice(), text.as_bytes(), "writing {row}");
    assert_eq!(rt;
        ocfl_report::laws::place_reads_back(alloc, &place)?,
        place,
        "both for {row}"
    );
    Ok(())
}

#[test]
fn places_are_read(rt: HostRuntime) -> Result<(), Fail> {
    let alloc = rt.alloc();
    let longest = "\u{1}".repeat(alloc, 255)?;
    let escaped = "%01".repeat(alloc, 255)?;
    for (row, text, path) in [
        ("the root", ".", ""),
        ("an escaped percent sign", "a%25/b", "a%/b"),
        ("a dash and a blank", "a/b-c/d e", "a/b-c/d e"),
        ("three dots", "...", "..."),
        (
            "letters that are escaped",
            "%C3%A9%09%25 %7F",
            "é\t% \u{7F}",
        ),
        ("the longest name", escaped.as_str(), longest.as_str()),
    ] {
        is_text_of(&rt, row, text, path)?;
    }
    Ok(())
}

#[test]
fn other_texts_are_bad(rt: HostRuntime) -> Result<(), Fail> {
    let alloc = rt.alloc();
    let cases = [
        "", "..", "a//b", "/a", "a/", "./a", "a/.", "a/../b", "%41", "%2F", "%00", "%c3%a9", "%C3",
        "%", "%2", "é", "a\tb", "%0a", "%2e", "\u{7F}",
    ];
    for text in cases {
        assert_eq!(rt;
            read_place(alloc, text.as_bytes()).err(),
            Some(TextStop::Bad),
            "{text}"
        );
    }
    let too_long = "a".repeat(alloc, 256)?;
    assert_eq!(rt;
        read_place(alloc, too_long.as_bytes()).err(),
        Some(TextStop::Bad)
    );
    Ok(())
}

#[test]
fn lines_are_escaped(rt: HostRuntime) -> Result<(), Fail> {
    for (row, code, path, detail, want) in [
        (
            "an escaped place",
            Code::E023,
            "o/v1/content/é\t% ",
            "-",
            "E023\to/v1/content/%C3%A9%09%25 \t-\n",
        ),
        (
            "an escaped detail",
            Code::E099,
            "o",
            "a\tb\nc\u{7F}é% d/",
            "E099\to\ta%09b%0Ac%7F%C3%A9%25 d/\n",
        ),
        ("the root", Code::Clean, "", "-", "ok\t.\t-\n"),
    ] {
        let text = line_text(rt.alloc(), code, path, detail)?;
        assert_eq!(rt; text.as_slice(), want.as_bytes(), "{row}");
    }
    Ok(())
}

#[test]
fn a_line_goes_behind_what_is_there(rt: HostRuntime) -> Result<(), Fail> {
    let alloc = rt.alloc();
    let line = Line {
        code: Code::S07,
        place: place_of(alloc, "o")?,
        detail: String::from_str(alloc, "blake2b-512")?,
    };
    ocfl_report::laws::every_line_fits(&line);
    let mut text = Vec::from_slice(alloc, b"ok\t.\t-\n")?;
    line.put(&mut text)?;
    line.put(&mut text)?;
    let wanted = b"ok\t.\t-\nS07\to\tblake2b-512\nS07\to\tblake2b-512\n";
    assert_eq!(rt; text.as_slice(), wanted.as_slice());
    Ok(())
}

#[test]
fn codes_are_named_and_found(rt: HostRuntime) -> Result<(), Fail> {
    let alloc = rt.alloc();
    for text in CODES {
        let code = code_of(alloc, text)?;
        assert_eq!(rt; code.text(), text, "{text}");
        // The name of each code but the first is its text.
        let name = format!(in alloc; "{code:?}")?;
        let wanted = if text == "ok" { "Clean" } else { text };
        assert_eq!(rt; name.as_str(), wanted, "{text}");
        let line = Line {
            code,
            place: Place::root(alloc),
            detail: String::new(alloc),
        };
        let is_note = text == "ok" || text == "S07" || text == "S09";
        assert_eq!(rt; line.is_finding(), !is_note, "{text}");
    }
    Ok(())
}

#[test]
fn lines_are_read(rt: HostRuntime) -> Result<(), Fail> {
    let alloc = rt.alloc();
    for (row, text, code, path, detail) in [
        ("the root", "ok\t.\t-\n", Code::Clean, "", "-"),
        (
            "a content file",
            "ok\to/v1/content/a\t4\n",
            Code::Clean,
            "o/v1/content/a",
            "4",
        ),
        (
            "an escaped place",
            "E023\to/v1/content/%C3%A9%09%25 \t-\n",
            Code::E023,
            "o/v1/content/é\t% ",
            "-",
        ),
        (
            "an escaped detail",
            "E099\to\ta%09b%0Ac%7F%C3%A9%25 d/\n",
            Code::E099,
            "o",
            "a\tb\nc\u{7F}é% d/",
        ),
        ("an empty detail", "E017\to\t\n", Code::E017, "o", ""),
    ] {
        let line = read_line(alloc, text.as_bytes())?;
        assert_eq!(rt; line.code, code, "{row}");
        assert_eq!(rt; line.place, place_of(alloc, path)?, "{row}");
        assert_eq!(rt; line.detail.as_str(), detail, "{row}");
    }
    Ok(())
}

// Seen to fail if memory is refused for a detail of more than 1,024 bytes, in writing or in reading
// a line.
#[test]
fn long_details_are_read_back(rt: HostRuntime) -> Result<(), Fail> {
    let alloc = rt.alloc();
    for size in [1_024usize, 1_025, 70_000] {
        let detail = "d".repeat(alloc, size)?;
        let text = line_text(alloc, Code::E099, "o", detail.as_str())?;
        let wanted = format!(in alloc; "E099\to\t{detail}\n")?;
        assert!(rt; text.as_slice() == wanted.as_bytes(), "{size}");
        let line = read_line(alloc, &text)?;
        assert!(rt; line.detail.as_str() == detail.as_str(), "{size}");
    }
    Ok(())
}

#[test]
fn each_code_is_read_back(rt: HostRuntime) -> Result<(), Fail> {
    let alloc = rt.alloc();
    for text in CODES {
        let line = Line {
            code: code_of(alloc, text)?,
            place: place_of(alloc, "o/é")?,
            detail: String::from_str(alloc, "é d")?,
        };
        let read = line_reads_back(alloc, &line)?;
        assert_eq!(rt; read.code, line.code, "{text}");
        assert_eq!(rt; read.place, line.place, "{text}");
        assert_eq!(rt; read.detail.as_str(), "é d", "{text}");
    }
    Ok(())
}

/// Bytes that are the text of no line.
const NO_LINES: [(&str, &str); 37] = [
    // No line feed, or more than one.
    ("no byte", ""),
    ("a line feed alone", "\n"),
    ("no line feed", "ok\t.\t-"),
    ("two line feeds", "ok\t.\t-\n\n"),
    ("two lines", "ok\t.\t-\nok\to\t-\n"),
    ("a carriage return", "ok\t.\t-\r\n"),
    // Fewer tabs than two, or more.
    ("a code alone", "ok\n"),
    ("one tab", "ok\t.\n"),
    ("three tabs", "ok\t.\t-\t\n"),
    ("two tabs before the place", "ok\t\t.\t-\n"),
    ("a tab before the code", "\tok\t.\t-\n"),
    // Other codes.
    ("no code", "\t.\t-\n"),
    ("a code in capitals", "OK\t.\t-\n"),
    ("a blank after the code", "ok \t.\t-\n"),
    ("a code in small letters", "e023\to\t-\n"),
    ("a code of three letters", "E02\to\t-\n"),
    ("a code of five letters", "E0233\to\t-\n"),
    ("another code of OCFL", "E002\to\t-\n"),
    ("another code of this project", "S10\to\t-\n"),
    // No place.
    ("no place", "ok\t\t-\n"),
    ("a slash", "ok\t/\t-\n"),
    ("a slash at the end", "ok\ta/\t-\n"),
    ("two slashes", "ok\ta//b\t-\n"),
    ("a name of two dots", "ok\t..\t-\n"),
    ("an escaped dot", "ok\t%2E\t-\n"),
    ("a letter beyond ASCII in the place", "ok\té\t-\n"),
    // Small digits, escapes of what stays as it is, broken escapes, bytes that are not UTF-8.
    ("small digits in the place", "ok\t%c3%a9\t-\n"),
    ("small digits in the detail", "E018\to\t%c3%a9\n"),
    ("a capital and a small digit", "E018\to\t%C3%a9\n"),
    ("an escaped dot in the detail", "E018\to\t%2E\n"),
    ("an escaped letter", "E018\to\t%41\n"),
    ("an escaped blank", "E018\to\t%20\n"),
    ("a percent sign alone", "E018\to\t%\n"),
    ("one digit", "E018\to\t%4\n"),
    ("a letter beyond ASCII in the detail", "E018\to\té\n"),
    ("half a letter", "E018\to\t%C3\n"),
    ("a byte that is not UTF-8", "E018\to\t%FF\n"),
];

#[test]
fn other_lines_are_bad(rt: HostRuntime) {
    for (row, text) in NO_LINES {
        let read = read_line(rt.alloc(), text.as_bytes()).err();
        assert_eq!(rt; read, Some(TextStop::Bad), "{row}");
    }
}

/// Texts with the numbers that they are read as.
const DECIMALS: [(&str, Option<u128>); 13] = [
    ("0", Some(0)),
    ("7", Some(7)),
    ("10", Some(10)),
    ("340282366920938463463374607431768211455", Some(u128::MAX)),
    ("340282366920938463463374607431768211456", None),
    ("1000000000000000000000000000000000000000", None),
    ("", None),
    ("00", None),
    ("01", None),
    ("+1", None),
    ("-1", None),
    ("1 ", None),
    ("1a", None),
];

#[test]
fn decimals_are_read(rt: HostRuntime) {
    for (text, wanted) in DECIMALS {
        assert_eq!(rt; read_decimal(text.as_bytes()), wanted, "{text}");
    }
    assert_eq!(rt; read_decimal(b"1\xff"), None);
}

#[test]
fn texts_are_split_at_the_first(rt: HostRuntime) {
    for (text, front, rest) in [("a b c", "a", "b c"), (" a", "", "a"), ("a ", "a", "")] {
        let parts = Some((front.as_bytes(), rest.as_bytes()));
        assert_eq!(rt; split_once(text.as_bytes(), b' '), parts, "{text}");
    }
    assert_eq!(rt; split_once(b"ab", b' '), None);
    assert_eq!(rt; split_once(b"", b' '), None);
}

// Seen to fail if output always fails.
#[test]
fn all_bytes_are_written(rt: HostRuntime) -> Result<(), Fail> {
    let alloc = rt.alloc();
    let text = b"abcdefgh";
    let scripts: [(&str, &[Answer]); 4] = [
        ("all bytes at once", &[Answer::Takes(8)]),
        ("a byte a call", &[Answer::Takes(1)]),
        (
            "interrupted in the middle",
            &[
                Answer::Takes(3),
                INTERRUPTED,
                INTERRUPTED,
                Answer::Takes(100),
            ],
        ),
        (
            "interrupted at the start",
            &[INTERRUPTED, Answer::Takes(5), INTERRUPTED, Answer::Takes(2)],
        ),
    ];
    for (row, answers) in scripts {
        let mut out = Scripted::new(alloc, answers);
        assert_eq!(rt; write_all_of(&mut out, text), Ok(()), "{row}");
        assert_eq!(rt; out.taken.as_slice(), text.as_slice(), "{row}");
    }
    let mut out = Scripted::new(alloc, &[FULL]);
    assert_eq!(rt; write_all_of(&mut out, b""), Ok(()));
    assert_eq!(rt; out.calls, 0);
    let mut out = Vec::from_slice(alloc, b"abc")?;
    assert_eq!(rt; write_all_of(&mut out, text), Ok(()));
    assert_eq!(rt; out.as_slice(), b"abcabcdefgh".as_slice());
    Ok(())
}

#[test]
fn output_stops(rt: HostRuntime) -> Result<(), Fail> {
    let alloc = rt.alloc();
    let cases: [(&str, &[Answer], usize, usize); 5] = [
        (
            "full after six bytes",
            &[Answer::Takes(3), Answer::Takes(3), FULL],
            6,
            3,
        ),
        ("no byte is taken", &[Answer::Takes(0)], 0, 1),
        ("full at once", &[FULL], 0, 1),
        (
            "no byte is taken after seven",
            &[Answer::Takes(7), Answer::Takes(0)],
            7,
            2,
        ),
        // After many interruptions in a row the output counts as stopped.
        (
            "interrupted without end",
            &[Answer::Takes(2), INTERRUPTED],
            2,
            1_001,
        ),
    ];
    for (row, answers, gone, calls) in cases {
        let mut out = Scripted::new(alloc, answers);
        let answer = write_all_of(&mut out, b"abcdefgh");
        assert_eq!(rt; answer, Err(OutStop { gone }), "{row}");
        assert_eq!(rt; out.taken.as_slice(), &b"abcdefgh"[..gone], "{row}");
        assert_eq!(rt; out.calls, calls, "{row}");
    }
    Ok(())
}

#[test]
fn first_bytes_are_read(rt: HostRuntime) -> Result<(), Fail> {
    let alloc = rt.alloc();
    let left = b"abcdefgh".as_slice();
    for (limit, wanted) in [(0, ""), (7, "abcdefg"), (8, "abcdefgh"), (9, "abcdefgh")] {
        let mut reader = Slow {
            left,
            then: Then::Ends,
        };
        let bytes = read_limited(alloc, &mut reader, limit).ok().ok_or("bytes")?;
        assert_eq!(rt; bytes.as_slice(), wanted.as_bytes(), "{limit}");
    }
    let mut endless = Slow {
        left,
        then: Then::GoesOn,
    };
    let bytes = read_limited(alloc, &mut endless, 9).ok().ok_or("bytes")?;
    assert_eq!(rt; bytes.as_slice(), b"abcdefgh\0".as_slice());
    Ok(())
}

#[test]
fn lines_are_read_one_by_one(rt: HostRuntime) -> Result<(), Fail> {
    let alloc = rt.alloc();
    let left = b"a\n\nbcdef\r\nend".as_slice();
    let slow = Slow {
        left,
        then: Then::Ends,
    };
    let mut reader = BufReader::new(alloc, slow)?;
    let mut text = Vec::from_slice(alloc, b"what was read before")?;
    for wanted in ["a\n", "\n", "bcdef\r\n", "end"] {
        assert_eq!(rt;
            read_next_line(&mut reader, &mut text),
            Ok(true),
            "{wanted:?}"
        );
        assert_eq!(rt; text.as_slice(), wanted.as_bytes(), "{wanted:?}");
    }
    assert_eq!(rt; read_next_line(&mut reader, &mut text), Ok(false));
    assert!(rt; text.is_empty());
    Ok(())
}

#[test]
fn failed_readers_are_told(rt: HostRuntime) -> Result<(), Fail> {
    let alloc = rt.alloc();
    for (row, kind, wanted) in failures(InputStop::Failed, InputStop::Memory) {
        let then = Then::Fails(kind);
        let left = b"ab".as_slice();
        let read = read_limited(alloc, &mut Slow { left, then }, 9);
        assert_eq!(rt; read.err(), Some(wanted), "{row}");
        let mut reader = BufReader::new(alloc, Slow { left, then })?;
        let mut text = Vec::new(alloc);
        assert_eq!(rt;
            read_next_line(&mut reader, &mut text),
            Err(wanted),
            "{row}"
        );
        assert_eq!(rt; text.as_slice(), left, "{row}");
    }
    Ok(())
}
