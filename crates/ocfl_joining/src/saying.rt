//! What is said of parts that keep a cycle from being joined, of what parts left out, and of a
//! joining that stopped.
ghost use Rattle.std.specs.Prelude.{◌≡◌, ◌++◌, [], IfOk, IsOkAnd, OnOk, Some, flat_map};
ghost use Rattle.std.specs.Prelude.{codes, decimal, option_map, string_bytes};
ghost use Rattle.ocfl_joining.specs.Missing.{names_of};
ghost use Rattle.ocfl_joining.specs.Saying.{after_colon, audit_text, changed_line, failed_line};
ghost use Rattle.ocfl_joining.specs.Saying.{few_text, lacking_text, left_line, left_lines};
ghost use Rattle.ocfl_joining.specs.Saying.{left_text, missing_line, missing_text};
ghost use Rattle.ocfl_joining.specs.Saying.{other_audit_text, part_line, partial_line};
ghost use Rattle.ocfl_joining.specs.Saying.{reason_text, stop_text, undone_line, words_of};

use crate::failing::FailedCall;
use crate::joining::JoinStop;
use crate::missing::{find_most_names, part_with};
use crate::part::{ClosedPart, MissingPart, PartFault};
use crate::reports::ReportTrouble;
use ocfl_report::{DisplayPlace, Further};
use ocfl_tree::Place;
use std::alloc::{AllocError, Global};

/// A line about the part with a number.
fn line_about(alloc: Global, number: usize, words: &str) -> Result<String, AllocError>
    ensures { IfOk result (λ text. string_bytes text ≡ part_line number words.now) }
{
    format!(in alloc; "ocfl-scrub: part {number}: {words}\n")
}

/// How many names a part saw in the storage root; 0 if that is not known.
fn names_in(part: &ClosedPart) -> u64
    ensures { result ≡ names_of (Some part.now) }
{
    part.names.unwrap_or(0)
}

/// That a part saw few names, of which one of the parts saw so many.
fn few_of(alloc: Global, cycle: u64, most: u64, part: &ClosedPart) -> Result<String, AllocError>
    ensures { IfOk result (λ text. string_bytes text ≡ few_text cycle most (Some part.now)) }
{
    let names = names_in(part);
    format!(in alloc;
        "the storage root had {names} names when its cycle {cycle} began, and {most} when that of \
         another part did"
    )
}

/// The same of a part of which this is known.
fn few(
    alloc: Global,
    cycle: u64,
    most: u64,
    part: Option<&ClosedPart>,
) -> Result<String, AllocError>
    ensures { IfOk result (λ text. string_bytes text
        ≡ few_text cycle most (option_map (λ p. p.now) part.entry)) }
{
    let fault = PartFault::FewNames;
    match part {
        Some(part) => few_of(alloc, cycle, most, part),
        None => format!(in alloc; "{fault}"),
    }
}

/// What an audit checks further that does not check the same as that of another part.
fn words_of_audit(further: Further) -> &'static str
    ensures { result.now ≡ audit_text further }
{
    match further {
        Further::Nothing =>
            "its nights are of an audit without --inventories, and those of another part of one \
             with it",
        Further::Inventories =>
            "its nights are of an audit with --inventories, and those of another part of one \
             without it",
    }
}

/// That a part does not check the same as another one, of which this is known.
fn other_audit(alloc: Global, part: Option<&ClosedPart>) -> Result<String, AllocError>
    ensures { IfOk result (λ text. string_bytes text
        ≡ other_audit_text (option_map (λ p. p.now) part.entry)) }
{
    let fault = PartFault::OtherAudit;
    match part {
        Some(part) => String::from_str(alloc, words_of_audit(part.further)),
        None => format!(in alloc; "{fault}"),
    }
}

/// Why a part keeps a cycle from being joined, of which this is known.
fn reason(
    alloc: Global,
    cycle: u64,
    most: u64,
    part: Option<&ClosedPart>,
    fault: PartFault,
) -> Result<String, AllocError>
    ensures { IfOk result (λ text. string_bytes text
        ≡ reason_text cycle most (option_map (λ p. p.now) part.entry) fault) }
{
    match fault {
        PartFault::ClosingUnsaid => {
            format!(in alloc; "its closing of cycle {cycle} was not said yet")
        }
        PartFault::FewNames => few(alloc, cycle, most, part),
        PartFault::OtherAudit => other_audit(alloc, part),
        PartFault::NoPart
        | PartFault::NotClosed
        | PartFault::OtherRoot
        | PartFault::OtherPart
        | PartFault::OtherCycle
        | PartFault::Incomplete => format!(in alloc; "{fault}"),
    }
}

/// The line about a part that keeps a cycle from being joined.
fn missing_one(
    alloc: Global,
    cycle: u64,
    parts: &[Option<ClosedPart>],
    one: &MissingPart,
) -> Result<String, AllocError>
    ensures { IfOk result (λ text. string_bytes text ≡ missing_line cycle parts.now one.now) }
{
    let part = part_with(parts, one.part);
    let words = reason(alloc, cycle, find_most_names(parts), part, one.fault)?;
    line_about(alloc, one.part, words.as_str())
}

/// Appends a text, once it is made.
fn add(made: Result<String, AllocError>, text: &mut String) -> Result<(), AllocError>
    ensures { OnOk result
        (IsOkAnd made (λ s. string_bytes text.new ≡ string_bytes text.old ++ string_bytes s)) }
{
    text.push_str(made?.as_str())
}

/// What is said of parts that keep a cycle from being joined: a line for each, which says why. Of
/// all parts this is known.
///
/// The only error is running out of memory.
pub fn say_missing(
    alloc: Global,
    cycle: u64,
    parts: &[Option<ClosedPart>],
    missing: &[MissingPart],
) -> Result<String, AllocError>
    ensures { IfOk result (λ text. string_bytes text ≡ missing_text cycle parts.now missing.now) }
{
    let mut text = String::new(alloc);
    for one in missing {
        add(missing_one(alloc, cycle, parts, one), &mut text)?;
    }
    Ok(text)
}

/// The line about a place that a part left out.
fn left_one(alloc: Global, number: usize, place: &Place) -> Result<String, AllocError>
    ensures { IfOk result (λ text. string_bytes text ≡ left_line number place.now) }
{
    let (fault, place) = (PartFault::Incomplete, DisplayPlace(place));
    let words = format!(in alloc; "{fault}: left out: {place}")?;
    line_about(alloc, number, words.as_str())
}

/// That the report of a part is not whole, of which no place is known that was left out.
fn left_none(alloc: Global, number: usize) -> Result<String, AllocError>
    ensures { IfOk result (λ text. string_bytes text ≡ left_lines number []) }
{
    let fault = PartFault::Incomplete;
    let words = format!(in alloc; "{fault}")?;
    line_about(alloc, number, words.as_str())
}

/// Appends a line for each place that a part left out.
fn add_place_lines(
    alloc: Global,
    number: usize,
    places: &[Place],
    text: &mut String,
) -> Result<(), AllocError>
    ensures { OnOk result (string_bytes text.new
        ≡ string_bytes text.old ++ flat_map (left_line number) places.now) }
{
    for place in places {
        add(left_one(alloc, number, place), text)?;
    }
    Ok(())
}

/// The same, or a line that says that none is known.
fn add_lines(
    alloc: Global,
    number: usize,
    places: &[Place],
    text: &mut String,
) -> Result<(), AllocError>
    ensures { OnOk result
        (string_bytes text.new ≡ string_bytes text.old ++ left_lines number places.now) }
{
    if places.is_empty() {
        return add(left_none(alloc, number), text);
    }
    add_place_lines(alloc, number, places, text)
}

/// Appends what a part left out.
fn add_part_lines(
    alloc: Global,
    number: usize,
    part: Option<&ClosedPart>,
    text: &mut String,
) -> Result<(), AllocError>
    ensures { OnOk result (string_bytes text.new
        ≡ string_bytes text.old ++ left_text number (option_map (λ p. p.now) part.entry)) }
{
    match part {
        Some(part) if !part.whole => add_lines(alloc, number, part.left.as_slice(), text),
        _ => Ok(()),
    }
}

/// The line about the joined report itself, whose path is shown so.
fn last_line(alloc: Global, cycle: u64, path: &str) -> Result<String, AllocError>
    ensures { IfOk result (λ text. string_bytes text ≡ partial_line cycle path.now) }
{
    format!(in alloc;
        "ocfl-scrub: the joined report of cycle {cycle} lacks what these parts left out: {path}\n"
    )
}

/// What is said of a joined report that is not whole, whose path is shown so: a line for each place
/// that a part left out, or one for a part of which none is known, and one for the joined report.
///
/// The only error is running out of memory.
pub fn say_lacking(
    alloc: Global,
    cycle: u64,
    parts: &[Option<ClosedPart>],
    path: &str,
) -> Result<String, AllocError>
    ensures { IfOk result (λ text. string_bytes text ≡ lacking_text cycle parts.now path.now) }
{
    let mut text = String::new(alloc);
    for index in 0..parts.len() {
        add_part_lines(alloc, index + 1, part_with(parts, index + 1), &mut text)?;
    }
    add(last_line(alloc, cycle, path), &mut text)?;
    Ok(text)
}

/// The line about a part whose report of a cycle was changed.
fn changed_one(alloc: Global, cycle: u64, number: usize) -> Result<String, AllocError>
    ensures { IfOk result (λ text. string_bytes text ≡ changed_line cycle number) }
{
    let words = format!(in alloc; "its report of cycle {cycle} was changed")?;
    line_about(alloc, number, words.as_str())
}

/// The lines about parts whose reports of a cycle were changed.
fn say_changed(alloc: Global, cycle: u64, found: &[usize]) -> Result<String, AllocError>
    ensures { IfOk result (λ text. string_bytes text ≡ flat_map (changed_line cycle) found.now) }
{
    let mut text = String::new(alloc);
    for part in found {
        add(changed_one(alloc, cycle, *part), &mut text)?;
    }
    Ok(text)
}

/// The system's words behind a colon, if they are known.
fn words_after(alloc: Global, call: &Option<FailedCall>) -> Result<String, AllocError>
    ensures { IfOk result (λ text. string_bytes text ≡ after_colon (words_of call.now)) }
{
    match call {
        Some(call) => format!(in alloc; ": {}", call.text),
        None => Ok(String::new(alloc)),
    }
}

/// What is said of a part at whose report of a cycle a call failed.
fn unjoined(alloc: Global, cycle: u64, call: &Option<FailedCall>) -> Result<String, AllocError>
    ensures { IfOk result (λ text. string_bytes text ≡ codes "its report of cycle "
        ++ decimal cycle ++ codes " could not be joined" ++ after_colon (words_of call.now)) }
{
    let words = words_after(alloc, call)?;
    format!(in alloc; "its report of cycle {cycle} could not be joined{words}")
}

/// The line about a part at whose report of a cycle a call failed, or memory was refused.
fn failed_one(
    alloc: Global,
    cycle: u64,
    number: usize,
    why: ReportTrouble,
    call: &Option<FailedCall>,
) -> Result<String, AllocError>
    ensures { IfOk result (λ text. string_bytes text
        ≡ failed_line cycle number why (words_of call.now)) }
{
    match why {
        ReportTrouble::Failed => {
            let words = unjoined(alloc, cycle, call)?;
            line_about(alloc, number, words.as_str())
        }
        ReportTrouble::Memory => line_about(alloc, number, "out of memory"),
    }
}

/// That the joining of a cycle failed.
fn undone(alloc: Global, cycle: u64, call: &Option<FailedCall>) -> Result<String, AllocError>
    ensures { IfOk result (λ text. string_bytes text
        ≡ undone_line cycle ReportTrouble.Failed (words_of call.now)) }
{
    let words = words_after(alloc, call)?;
    format!(in alloc; "ocfl-scrub: the joining of cycle {cycle} failed{words}\n")
}

/// The same, or that memory was refused.
fn undone_one(
    alloc: Global,
    cycle: u64,
    why: ReportTrouble,
    call: &Option<FailedCall>,
) -> Result<String, AllocError>
    ensures { IfOk result (λ text. string_bytes text
        ≡ undone_line cycle why (words_of call.now)) }
{
    match why {
        ReportTrouble::Failed => undone(alloc, cycle, call),
        ReportTrouble::Memory => format!(in alloc; "ocfl-scrub: out of memory\n"),
    }
}

/// Why the joining of a cycle stopped: a line for each part whose report was changed, or one for
/// the part, or for the cycle, at which a call failed, with what the system said of that call.
///
/// The only error is running out of memory.
pub fn say_stop(
    alloc: Global,
    cycle: u64,
    stop: &JoinStop,
    call: &Option<FailedCall>,
) -> Result<String, AllocError>
    ensures { IfOk result (λ text. string_bytes text
        ≡ stop_text cycle stop.now (words_of call.now)) }
{
    match stop {
        JoinStop::Missing(_) => Ok(String::new(alloc)),
        JoinStop::Changed(found) => say_changed(alloc, cycle, found.as_slice()),
        JoinStop::Part { part, why } => failed_one(alloc, cycle, *part, *why, call),
        JoinStop::Output(why) => undone_one(alloc, cycle, *why, call),
        JoinStop::Unsaid => format!(in alloc; "ocfl-scrub: output failed\n"),
        JoinStop::Memory => format!(in alloc; "ocfl-scrub: out of memory\n"),
    }
}
