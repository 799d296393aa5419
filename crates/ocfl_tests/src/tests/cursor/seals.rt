//! Stored texts of any kind: what they begin with, and the last line that seals the others.
use ocfl_cursor::{Refused, TextKind, after_prefix, body_of, first_line, sealed_body, sealed_text};
use std::test::Fail;

/// The line that seals `first` and `a 1`, each with its line feed, by `sha256sum`.
const SEALED: &str = "first\na 1\n\
    seal = 1f1939fc731a9d37a2fb529e08b06a0fed06bc4f6fb3de88b4dee5f48e6b7477\n";

#[test]
fn last_lines_seal_texts(rt: HostRuntime) -> Result<(), Fail> {
    let alloc = rt.alloc();
    let front = *b"seal = ";
    let text = sealed_text(alloc, front, b"first\n", b"a 1\n")?;
    assert_eq!(rt; text.as_slice(), SEALED.as_bytes());
    let body: &[u8] = b"first\na 1\n";
    assert_eq!(rt; sealed_body(front, text.as_slice()), Some(body));
    assert_eq!(rt;
        sealed_body(*b"digest ", text.as_slice()),
        None,
        "another front"
    );
    assert_eq!(rt; sealed_body(front, &text[1..]), None, "less before it");
    assert_eq!(rt; sealed_body(front, b"seal = \n"), None, "a short text");
    Ok(())
}

#[test]
fn texts_are_refused_for_the_first_reason(rt: HostRuntime) -> Result<(), Fail> {
    let alloc = rt.alloc();
    let seal = *b"seal = ";
    let not_a = Refused::NotA(TextKind::Checkpoint);
    for (first_line, wanted) in [
        ("text 3\n", None),
        ("text 7\n", None),
        ("Text 3\n", Some(not_a)),
        ("text 4\n", Some(Refused::Version)),
        ("text 33\n", Some(Refused::Version)),
        ("text \n", Some(Refused::Version)),
    ] {
        let body = first_line.as_bytes();
        let text = sealed_text(alloc, seal, body, b"")?;
        let read = body_of(TextKind::Checkpoint, b"text ", b"37", seal, &text);
        assert_eq!(rt; read, wanted.map_or(Ok(body), Err), "{first_line}");
        let read = body_of(TextKind::Checkpoint, b"text ", b"37", seal, body);
        assert_eq!(rt;
            read.err(),
            wanted.or(Some(Refused::Damaged)),
            "{first_line}, unsealed"
        );
    }
    Ok(())
}

#[test]
fn texts_have_prefixes_and_first_lines(rt: HostRuntime) {
    let rest: &[u8] = b" 7\n";
    assert_eq!(rt; after_prefix(b"cycle", b"cycle 7\n"), Some(rest));
    assert_eq!(rt; after_prefix(b"cycles", b"cycle 7\n"), None);
    for (text, line) in [
        (b"one\ntwo\n".as_slice(), b"one".as_slice()),
        (b"one", b"one"),
        (b"\ntwo", b""),
        (b"", b""),
    ] {
        assert_eq!(rt; first_line(text), line);
    }
}
