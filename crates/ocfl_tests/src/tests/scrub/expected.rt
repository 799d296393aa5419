//! What checks and audits of storage roots are to do. Texts have a bar for each tab and may name
//! digests.
use crate::tests::common::Runtime;
use crate::tests::common::digests::lines_of;
use crate::tests::common::object::FILE;
use ocfl_digest::Block;
use ocfl_memory::MemTree;
use ocfl_report::Further;
use ocfl_scrub::{Note, audited, checked};
use ocfl_tree::Tree;
use std::test::Fail;

/// The line of the content file `f`, which is right.
pub(crate) const FILE_IS_OK: &str = "ok|o/v1/content/f|3\n";

/// The items of the root and of the object, both right.
pub(crate) const HEADS: &str = "ok|.|-\nok|o|-\n";

/// What was written is this text, and the status and the note are these.
pub(crate) fn expect_said(
    rt: &impl Runtime,
    out: Vec<u8>,
    got: (u8, Note),
    want: (&str, u8, &str),
    what: &str,
) -> Result<(), Fail> {
    let (text, status, note) = want;
    let wrote = String::from_utf8(out)?;
    assert_eq!(rt;
        wrote.as_str(),
        lines_of(rt.alloc(), text)?.as_str(),
        "{what}"
    );
    assert_eq!(rt; got.0, status, "{what}: {text}");
    let said = format!(in rt.alloc(); "{}", got.1)?;
    assert_eq!(rt; said.as_str(), note, "{what}: {text}");
    Ok(())
}

/// Checking the path writes this text, and ends with this status and this note.
pub(crate) fn expect<T: Tree>(
    rt: &impl Runtime,
    row: &str,
    store: &mut T,
    path: &str,
    text: &str,
    status: u8,
    note: &str,
) -> Result<(), Fail> {
    let mut out = Vec::new(rt.alloc());
    let got = checked(
        rt.alloc(),
        store,
        Further::Nothing,
        path,
        &mut Block::new(rt.alloc())?,
        &mut out,
    );
    let what = format!(in rt.alloc(); "{row}, checking {path}")?;
    expect_said(rt, out, got, (text, status, note), what.as_str())
}

/// An audit of the storage root writes this text, and ends with this status and this note.
pub(crate) fn expect_audit<T: Tree>(
    rt: &impl Runtime,
    row: &str,
    store: &mut T,
    text: &str,
    status: u8,
    note: &str,
) -> Result<(), Fail> {
    let (mut block, mut out) = (Block::new(rt.alloc())?, Vec::new(rt.alloc()));
    let got = audited(rt.alloc(), store, Further::Nothing, &mut block, &mut out);
    expect_said(rt, out, got, (text, status, note), row)
}

/// The head of the object has these lines; all but a clean one's are findings.
pub(crate) fn finds(
    rt: &impl Runtime,
    row: &str,
    store: &mut MemTree,
    lines: &str,
) -> Result<(), Fail> {
    let status = u8::from(lines != "ok|o|-\n");
    expect(rt, row, store, "o", lines, status, "")
}

/// The content after a head that does not stop is right.
pub(crate) const GOES_ON: Option<&str> = Some(FILE_IS_OK);

/// The content after a head that stops is not checked.
pub(crate) const STOPS: Option<&str> = Some("");

/// The head of the object has these lines, and checking its content writes this where it is asked;
/// there is no item for no text.
pub(crate) fn expect_head(
    rt: &impl Runtime,
    row: &str,
    store: &mut MemTree,
    lines: &str,
    content: Option<&str>,
) -> Result<(), Fail> {
    finds(rt, row, store, lines)?;
    let Some(text) = content else {
        return Ok(());
    };
    let note = if text.is_empty() { "no item" } else { "" };
    expect(rt, row, store, FILE, text, 0, note)
}
