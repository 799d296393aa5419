//! A report line, and its text.

use crate::code::Code;
use crate::escaped::put_escaped;
use crate::path::put_text;
use ocfl_tree::Place;
use std::alloc::AllocError;

/// A line of the report.
#[derive(Debug, Drop)]
pub struct Line {
    /// What the line says.
    pub code: Code,
    /// Of which place it says it.
    pub place: Place,
    /// What else it says, not yet escaped: `-` if the code says all.
    pub detail: String,
}

impl Line {
    ghost use Rattle.std.specs.Prelude.{◌≡◌, ◌+◌, ◌<◌, ◌++◌, length, vec_len, vec_capacity, OnOk, OnErr};
    ghost use Rattle.std.specs.Io.{StartsWith};
    ghost use Rattle.ocfl_report.specs.{Line.{line_of, is_finding_code}, Text.{line_text}};

    /// Appends the line as a report has it: code, place and detail with tabs between them, and a
    /// line feed. The place is written as by [`put_place`](crate::put_place), and the detail is
    /// escaped whole by the same rule: spaces and slashes in it stay as they are.
    ///
    /// The only error is running out of memory, which happens only if `out` has too little room.
    /// Then `out` is as it was.
    pub fn put(&self, out: &mut Vec<u8>) -> Result<(), AllocError>
        ensures ok { OnOk result (out.new.items ≡ out.old.items ++ line_text (line_of self.now)) }
        ensures err { OnErr result (out.new.items ≡ out.old.items) }
        ensures full { OnErr result
            (vec_capacity out.old < vec_len out.old + length (line_text (line_of self.now))) }
    {
        let start = out.len();
        let put = self.put_fields(out);
        if put.is_err() {
            out.truncate(start);
        }
        put
    }

    // If memory is refused a beginning of the line is left after what was there.
    fn put_fields(&self, out: &mut Vec<u8>) -> Result<(), AllocError>
        ensures ok { OnOk result (out.new.items ≡ out.old.items ++ line_text (line_of self.now)) }
        ensures begins { StartsWith out.new.items out.old.items }
        ensures full { OnErr result
            (vec_capacity out.old < vec_len out.old + length (line_text (line_of self.now))) }
    {
        out.extend_from_slice(self.code.text().as_bytes())?;
        out.push(b'\t')?;
        put_text(&self.place, out)?;
        out.push(b'\t')?;
        put_escaped(self.detail.as_bytes(), out)?;
        out.push(b'\n')?;
        Ok(())
    }

    /// Whether the line is a finding: every code is one but `ok` and the notes, on an algorithm
    /// that is not computed and on what a root inventory is.
    pub fn is_finding(&self) -> bool
        ensures { result ≡ is_finding_code self.now.code }
    {
        !matches!(self.code, Code::Clean | Code::S07 | Code::S09)
    }
}
