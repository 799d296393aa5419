//! What the lines of one place say together.
ghost use Rattle.std.specs.Prelude.{◌≡◌, ◌||◌, List, [], ◌∷◌, ◌++◌, None, IfOk, OnOk, option_map, string_bytes};
ghost use Rattle.ocfl_report.specs.Line.{Line as ModelLine, line_of};
ghost use Rattle.ocfl_compare.specs.Changes.{has_code as has_that_code, stops, with_code};
ghost use Rattle.ocfl_compare.specs.{Internal.Summing.{Summarizes}, Versions.{with_note}};

use crate::versions::is_note;
use ocfl_codes::{is_hiding, is_of_file, is_of_object};
use ocfl_report::{Code, Line};
use ocfl_tree::is_text;
use std::alloc::{AllocError, Global};

/// What the lines of one place say together.
#[derive(Drop)]
pub(crate) struct Summary {
    /// There is no line.
    pub(crate) absent: bool,
    /// There is a line of an object.
    pub(crate) object: bool,
    /// There is a line of an object at which its head stops.
    pub(crate) stopped: bool,
    /// There is a line of a content file.
    pub(crate) file: bool,
    /// There is a line behind which other findings may not be looked for.
    pub(crate) hidden: bool,
    /// The codes of findings, each once.
    pub(crate) findings: Vec<Code>,
    /// What the root inventory is, if a line notes that.
    pub(crate) note: Option<String>,
}

/// The summary of no lines.
pub(crate) fn nothing(alloc: Global) -> Summary
    ensures { Summarizes result [] }
{
    Summary {
        absent: true,
        object: false,
        stopped: false,
        file: false,
        hidden: false,
        findings: Vec::new(alloc),
        note: None,
    }
}

/// The summary of the lines with one more.
pub(crate) fn with_line(summary: Summary, line: &Line) -> Result<Summary, AllocError>
    ensures { IfOk result (λ after. (own : List ModelLine) → Summarizes summary own
        → Summarizes after (own ++ line_of line.now ∷ [])) }
{
    let Summary {
        absent: _,
        object,
        stopped,
        file,
        hidden,
        mut findings,
        note,
    } = summary;
    add_code(line, &mut findings)?;
    let note = note_with(note, line)?;
    Ok(Summary {
        absent: false,
        object: either(object, is_of_object(line)),
        stopped: either(stopped, is_stop(line)),
        file: either(file, is_of_file(line)),
        hidden: either(hidden, is_hiding(line.code)),
        findings,
        note,
    })
}

/// What a root inventory is, by the first line that notes it, with one more line.
fn note_with(note: Option<String>, line: &Line) -> Result<Option<String>, AllocError>
    ensures { IfOk result (λ after. option_map string_bytes after
        ≡ with_note (option_map string_bytes note) (line_of line.now)) }
{
    match note {
        Some(note) => Ok(Some(note)),
        None => first_note(line),
    }
}

/// What a root inventory is, by this line alone.
fn first_note(line: &Line) -> Result<Option<String>, AllocError>
    ensures { IfOk result (λ note. option_map string_bytes note
        ≡ with_note None (line_of line.now)) }
{
    if !is_note(line.code) {
        return Ok(None);
    }
    Ok(Some(line.detail.clone()?))
}

/// Whether the head of an object stops at this line.
fn is_stop(line: &Line) -> bool
    ensures { result ≡ stops (line_of line.now) }
{
    is_of_object(line) && is_hiding(line.code)
}

fn either(one: bool, other: bool) -> bool
    ensures { result ≡ one || other }
{
    if one { true } else { other }
}

/// Appends the code of a finding that is not among them.
fn add_code(line: &Line, findings: &mut Vec<Code>) -> Result<(), AllocError>
    ensures { OnOk result (findings.new.items ≡ with_code findings.old.items line.now.code) }
{
    if !line.is_finding() || has_code(findings.as_slice(), line.code) {
        return Ok(());
    }
    findings.push(line.code)?;
    Ok(())
}

/// Whether the code is among them.
pub(crate) fn has_code(codes: &[Code], code: Code) -> bool
    ensures { result ≡ has_that_code codes.now code }
{
    codes.iter().any(|other| is_text(code.text(), other.text()))
}
