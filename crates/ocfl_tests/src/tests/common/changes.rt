//! Changes between two reports as text.
use ocfl_compare::{Change, ChangeAt};
use ocfl_report::put_place;
use std::alloc::Global;
use std::test::Fail;

/// A line for each change: its word, which of a finding is its code, a tab, and its place.
pub fn changes_text(alloc: Global, changes: &[ChangeAt]) -> Result<String, Fail> {
    let mut text = Vec::new(alloc);
    for at in changes {
        match at.change {
            Change::Gone => text.extend_from_slice(b"object")?,
            Change::Undeclared => text.extend_from_slice(b"undeclared")?,
            Change::FileGone => text.extend_from_slice(b"file")?,
            Change::Unlooked => text.extend_from_slice(b"unlooked")?,
            Change::Missing => text.extend_from_slice(b"expected")?,
            Change::Rewritten => text.extend_from_slice(b"changed")?,
            Change::WentBack => text.extend_from_slice(b"older")?,
            Change::NewVersion => text.extend_from_slice(b"newer")?,
            Change::Found(code) => text.extend_from_slice(code.text().as_bytes())?,
            Change::Repaired(code) => {
                text.extend_from_slice(b"repaired ")?;
                text.extend_from_slice(code.text().as_bytes())?;
            }
        }
        text.push(b'\t')?;
        put_place(&at.place, &mut text)?;
        text.push(b'\n')?;
    }
    Ok(String::from_utf8(text)?)
}
