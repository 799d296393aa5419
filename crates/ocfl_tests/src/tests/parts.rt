//! Separators and their text, and readers that fail.
use crate::tests::common::expect_shown;
use crate::tests::common::input::expect_failures;
use crate::tests::common::store::place_of;
use ocfl_separators::{PartsStop, PushStop, Separators, SplitStop, put_parts, read_parts};
use std::alloc::Global;
use std::test::Fail;

mod splitting;

/// The text of separators.
pub(crate) fn text_of(alloc: Global, separators: &Separators) -> Result<String, Fail> {
    let mut text = Vec::new(alloc);
    put_parts(separators, &mut text)?;
    Ok(String::from_utf8(text)?)
}

fn stop_of(alloc: Global, bytes: &[u8]) -> Option<PartsStop> {
    let mut reader = bytes;
    read_parts(alloc, &mut reader).err()
}

#[test]
fn separators_are_read(rt: HostRuntime) -> Result<(), Fail> {
    let alloc = rt.alloc();
    for (text, count) in [
        ("", 0usize),
        (".\n", 1),
        ("a\n", 1),
        (".\na\na/b\na-b\nb\n", 5),
        ("o\no%01\n", 2),
        ("%C3%A9\n", 1),
        ("o/v1/content/a\no/v1/content/b\n", 2),
    ] {
        let mut reader = text.as_bytes();
        let separators = read_parts(alloc, &mut reader)?;
        assert_eq!(rt; separators.len(), count, "{text}");
        assert_eq!(rt; separators.is_empty(), count == 0, "{text}");
        assert_eq!(rt; text_of(alloc, &separators)?.as_str(), text, "{text}");
    }
    let mut reader = b"a\nb/c\n".as_slice();
    let separators = read_parts(alloc, &mut reader)?;
    assert_eq!(rt; separators.places()[0], place_of(alloc, "a")?);
    assert_eq!(rt; separators.places()[1], place_of(alloc, "b/c")?);
    Ok(())
}

/// The number of the line that is bad, in each of these texts.
const BAD_LINES: [(usize, &[&str]); 4] = [
    (1, &["a", "/a\n", "\n", "%c3%a9\n"]),
    (
        2,
        &[
            "b\na\n",
            "a\na\n",
            "a\n\nb\n",
            "a-b\na/b\n",
            "a/b\na\n",
            "a\n.\n",
            "a\nb\r\nc\n",
            "a\n%62\n",
            "b\na\n/\n",
        ],
    ),
    (3, &["a\nb\nc"]),
    (4, &["a\nb\nc\na/\n"]),
];

#[test]
fn bad_lines_are_counted(rt: HostRuntime) -> Result<(), Fail> {
    for (line, texts) in BAD_LINES {
        for text in texts {
            let stop = stop_of(rt.alloc(), text.as_bytes());
            assert_eq!(rt; stop, Some(PartsStop::Line(line)), "{text}");
        }
    }
    Ok(())
}

/// `count` lines, the first and least of which is `A000000`, and then these bytes.
fn many_lines(alloc: Global, count: usize, last: &[u8]) -> Result<Vec<u8>, Fail> {
    let mut text = Vec::new(alloc);
    for number in 0..count {
        text.extend_from_slice(format!(in alloc; "A{number:06}\n")?.as_bytes())?;
    }
    text.extend_from_slice(last)?;
    Ok(text)
}

#[test]
fn long_texts_are_refused(rt: HostRuntime) -> Result<(), Fail> {
    let alloc = rt.alloc();
    let most = many_lines(alloc, 100_000, b"")?;
    let mut reader = most.as_slice();
    assert_eq!(rt; read_parts(alloc, &mut reader)?.len(), 100_000);
    // One line more is too long, whatever is there; a bad line before it comes first.
    for (row, last) in [
        ("a further place", b"B\n".as_slice()),
        ("no line", b"/"),
        ("the first place again", b"A000000\n"),
    ] {
        let more = many_lines(alloc, 100_000, last)?;
        assert_eq!(rt; stop_of(alloc, &more), Some(PartsStop::Long), "{row}");
        let bad = many_lines(alloc, 99_999, last)?;
        let wanted = if last == b"B\n".as_slice() {
            None
        } else {
            Some(PartsStop::Line(100_000))
        };
        assert_eq!(rt; stop_of(alloc, &bad), wanted, "{row}, one line less");
    }
    // Too many bytes come before any line.
    let mut bytes = Vec::from_slice(alloc, b"b\na\n")?;
    bytes.resize(16_777_216, b'c')?;
    assert_eq!(rt; stop_of(alloc, &bytes), Some(PartsStop::Line(2)));
    bytes.push(b'c')?;
    assert_eq!(rt; stop_of(alloc, &bytes), Some(PartsStop::Long));
    Ok(())
}

#[test]
fn separators_ascend(rt: HostRuntime) -> Result<(), Fail> {
    let alloc = rt.alloc();
    let mut separators = Separators::new(alloc);
    separators.push(place_of(alloc, "a/b")?)?;
    for path in ["", "a", "a/b", "a/a"] {
        let refused = separators.push(place_of(alloc, path)?).err();
        assert_eq!(rt; refused, Some(PushStop::NotAbove), "{path}");
    }
    separators.push(place_of(alloc, "a/b/c")?)?;
    separators.push(place_of(alloc, "a-b")?)?;
    let mut text = Vec::from_slice(alloc, b"-")?;
    put_parts(&separators, &mut text)?;
    assert_eq!(rt; text.as_slice(), b"-a/b\na/b/c\na-b\n".as_slice());
    Ok(())
}

#[test]
fn parts_have_ends(rt: HostRuntime) -> Result<(), Fail> {
    let alloc = rt.alloc();
    let (a, b) = (place_of(alloc, "a")?, place_of(alloc, "b")?);
    let mut separators = Separators::new(alloc);
    assert!(rt; separators.ends(1) == Some((None, None)) && separators.ends(2).is_none());
    separators.push(a.try_clone()?)?;
    separators.push(b.try_clone()?)?;
    for (name, number, wanted) in [
        ("first", 1, Some((None, Some(&a)))),
        ("second", 2, Some((Some(&a), Some(&b)))),
        ("last", 3, Some((Some(&b), None))),
        ("none", 0, None),
        ("one too many", 4, None),
        ("far too many", usize::MAX, None),
    ] {
        assert!(rt; separators.ends(number) == wanted, "{name}");
    }
    Ok(())
}

#[test]
fn stops_have_texts(rt: HostRuntime) -> Result<(), Fail> {
    let line = PartsStop::Line(2);
    expect_shown(&rt, "line", &line, "bad parts: line 2")?;
    expect_shown(&rt, "long", &PartsStop::Long, "bad parts: too long")?;
    expect_shown(&rt, "read", &PartsStop::Read, "parts file failed")?;
    expect_shown(&rt, "memory", &PartsStop::Memory, "out of memory")?;
    let line = SplitStop::Line(2);
    expect_shown(&rt, "line", &line, "bad report: line 2")?;
    expect_shown(&rt, "many", &SplitStop::Many, "too many parts")?;
    expect_shown(&rt, "read", &SplitStop::Read, "report failed")?;
    expect_shown(&rt, "memory", &SplitStop::Memory, "out of memory")
}

#[test]
fn readers_that_fail_are_told(rt: HostRuntime) -> Result<(), Fail> {
    // Bad lines do not come before the failure: all bytes are read first.
    let given = [
        ("two places", b"a\nb\n".as_slice()),
        ("places out of order", b"b\na\n"),
        ("nothing", b""),
    ];
    let stops = (PartsStop::Read, PartsStop::Memory);
    expect_failures(&rt, &given, stops, |mut reader| {
        Ok(read_parts(rt.alloc(), &mut reader).err())
    })
}
