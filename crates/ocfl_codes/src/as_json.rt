//! The table of codes as JSON (RFC 8259).
ghost use Rattle.std.specs.Prelude.{◌≡◌, ◌≤◌, false, IfOk, string_bytes};
ghost use Rattle.serde_json.specs.Data.{Data, array, depth};
ghost use Rattle.serde_json.specs.{View.{items_of, view}, Written.{has_float}};
ghost use Rattle.ocfl_report.specs.Line.{is_finding_code};
ghost use Rattle.ocfl_codes.specs.Json.{IsJsonLine, row_data, rows_data, table_data, weight_data};

use crate::kind::kind_of;
use crate::table::{all_codes, kind_text};
use crate::weight::{Weight, weigh};
use crate::words::{first_step, meaning};
use ocfl_report::Code;
use serde_json::{Map, Value, put};
use std::alloc::{AllocError, Global};

/// Whether lines of the code are findings.
#[tactic(auto, using(crate::proofs::Weights::weighed))]
fn is_finding(code: Code) -> bool
    ensures { result ≡ is_finding_code code }
{
    weigh(code).is_some()
}

/// A weight as its number; null without one.
fn weight_value(weight: Option<Weight>) -> Value
    ensures { view result ≡ weight_data weight }
{
    match weight {
        Some(Weight::Bytes) => Value::from(1_u64),
        Some(Weight::Object) => Value::from(2_u64),
        Some(Weight::Record) => Value::from(3_u64),
        Some(Weight::Position) => Value::from(4_u64),
        None => Value::Null,
    }
}

/// The object of a code.
fn row_value(alloc: Global, code: Code) -> Result<Value, AllocError>
    ensures { IfOk result (λ v. view v ≡ row_data code) }
{
    let mut map = Map::new(alloc);
    put(
        &mut map,
        alloc,
        "code",
        Value::try_from_str(alloc, code.text())?,
    )?;
    put(&mut map, alloc, "finding", Value::from(is_finding(code)))?;
    put(
        &mut map,
        alloc,
        "first",
        Value::try_from_str(alloc, first_step(code))?,
    )?;
    put(
        &mut map,
        alloc,
        "kind",
        Value::try_from_str(alloc, kind_text(kind_of(code)))?,
    )?;
    put(
        &mut map,
        alloc,
        "means",
        Value::try_from_str(alloc, meaning(code))?,
    )?;
    put(&mut map, alloc, "weight", weight_value(weigh(code)))?;
    Ok(Value::Object(map))
}

/// The objects of these codes.
fn rows_value(alloc: Global, codes: &[Code]) -> Result<Value, AllocError>
    ensures { IfOk result (λ v. view v ≡ array (items_of (rows_data codes.now))) }
{
    let mut rows = Vec::new(alloc);
    for &code in codes {
        rows.push(row_value(alloc, code)?)?;
    }
    Ok(Value::Array(rows))
}

/// The text of a value without floats, and a line feed.
fn line_of(alloc: Global, value: &Value) -> Result<String, AllocError>
    ensures { IfOk result (λ line. (d : Data) → view value.now ≡ d → has_float d ≡ false
        → depth d ≤ 127 → IsJsonLine (string_bytes line) d) }
{
    let mut line = value.to_string(alloc)?;
    line.push('\n')?;
    Ok(line)
}

/// The table of codes as JSON, in one line: an array with an object for each code. Its members are
/// `code`, `finding` (whether its lines are findings), `first` (what to do first), `kind` (what its
/// lines are about), `means` and `weight` (1 to 4, or null of no finding). An `AllocError` if
/// memory is refused.
pub fn codes_json(alloc: Global) -> Result<String, AllocError>
    ensures { IfOk result (λ line. IsJsonLine (string_bytes line) table_data) }
{
    let value = rows_value(alloc, all_codes())?;
    line_of(alloc, &value)
}
