//! The table of codes as text.
ghost use Rattle.std.specs.Prelude.{◌≡◌, ◌++◌, ◌∷◌, [], IfOk, OnOk};
ghost use Rattle.ocfl_codes.specs.Table.{every_code, head_text, kind_text as text_of_kind, row_text, rows_text, table_text, weight_text as text_of_weight};

use crate::kind::{Kind, kind_of};
use crate::weight::{Weight, weigh};
use crate::words::{first_step, meaning};
use ocfl_report::Code;
use std::alloc::{AllocError, Global};

/// The lines before the rows.
const HEAD: &str = "\
# What the codes of report lines mean: code, weight, what its lines are about, what it means, what
# to do first. The weights:
# 1  bytes are not those that were taken in, or nobody can say whether they are
# 2  an object, or the root, that the audit did not look into, or whose inventory has changed
# 3  what an inventory, a sidecar or a declaration says or lacks; a file that nothing vouches for
# 4  a file or folder in the wrong place
# -  no finding
";

/// The codes in the order of the rows.
const ROWS: &[Code] = &[
    Code::Clean,
    Code::E001,
    Code::E003,
    Code::E007,
    Code::E015,
    Code::E017,
    Code::E018,
    Code::E023,
    Code::E024,
    Code::E025,
    Code::E033,
    Code::E036,
    Code::E041,
    Code::E058,
    Code::E060,
    Code::E061,
    Code::E063,
    Code::E064,
    Code::E069,
    Code::E072,
    Code::E073,
    Code::E076,
    Code::E080,
    Code::E092,
    Code::E093,
    Code::E096,
    Code::E097,
    Code::E099,
    Code::E100,
    Code::E101,
    Code::S01,
    Code::S02,
    Code::S03,
    Code::S04,
    Code::S05,
    Code::S06,
    Code::S07,
    Code::S08,
    Code::S09,
];

fn head() -> &'static str
    ensures { result.now ≡ head_text }
{
    HEAD
}

/// All codes, in the order of the rows.
pub(crate) fn all_codes() -> &'static [Code]
    ensures { result.now ≡ every_code }
{
    ROWS
}

/// A weight, or none, as its number.
fn weight_text(weight: Option<Weight>) -> &'static str
    ensures { result.now ≡ text_of_weight weight }
{
    match weight {
        Some(Weight::Bytes) => "1",
        Some(Weight::Object) => "2",
        Some(Weight::Record) => "3",
        Some(Weight::Position) => "4",
        None => "-",
    }
}

/// What lines are about, in words.
pub(crate) fn kind_text(kind: Kind) -> &'static str
    ensures { result.now ≡ text_of_kind kind }
{
    match kind {
        Kind::Object => "object",
        Kind::File => "file",
        Kind::Place => "place",
        Kind::ObjectOrFile => "object or file",
    }
}

/// Appends a field and the tab after it.
fn put_field(field: &str, text: &mut Vec<u8>) -> Result<(), AllocError>
    ensures { OnOk result (text.new.items ≡ text.old.items ++ field.now ++ 9 ∷ []) }
{
    text.extend_from_slice(field.as_bytes())?;
    text.push(b'\t')?;
    Ok(())
}

/// Appends the row of a code.
fn put_row(code: Code, text: &mut Vec<u8>) -> Result<(), AllocError>
    ensures { OnOk result (text.new.items ≡ text.old.items ++ row_text code) }
{
    put_field(code.text(), text)?;
    put_field(weight_text(weigh(code)), text)?;
    put_field(kind_text(kind_of(code)), text)?;
    put_field(meaning(code), text)?;
    text.extend_from_slice(first_step(code).as_bytes())?;
    text.push(b'\n')?;
    Ok(())
}

/// Appends the rows of these codes.
fn put_rows(codes: &[Code], text: &mut Vec<u8>) -> Result<(), AllocError>
    ensures { OnOk result (text.new.items ≡ text.old.items ++ rows_text codes.now) }
{
    for &code in codes {
        put_row(code, text)?;
    }
    Ok(())
}

/// The table of codes: lines that begin with `#`, which say what the columns and weights are, and
/// a line for each code, with tabs between its code, its weight (`1` to `4`, or `-` of no finding),
/// what its lines are about (`object`, `file`, `place`, or `object or file`), what it means, and
/// what to do first. An `AllocError` if memory is refused.
pub fn codes_text(alloc: Global) -> Result<Vec<u8>, AllocError>
    ensures { IfOk result (λ text. text.items ≡ table_text) }
{
    let mut text = Vec::new(alloc);
    text.extend_from_slice(head().as_bytes())?;
    put_rows(all_codes(), &mut text)?;
    Ok(text)
}
