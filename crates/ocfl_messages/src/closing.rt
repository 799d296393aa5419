//! What is said of a cycle that was closed: how much of it is right, what is gone, new, repaired
//! and back since the last whole report, and what was left out.
ghost use Rattle.std.specs.Prelude.{◌≡◌, ◌≢◌, ◌-◌, ◌++◌, ◌∷◌, ◌^◌, ◌<◌, List, [], Some, codes};
ghost use Rattle.std.specs.Prelude.{decimal, length, map, take, IfOk, OnOk, string_bytes};
ghost use Rattle.ocfl_report.specs.Line.{line_of};
ghost use Rattle.ocfl_messages.specs.{Finding.{Finding as ModelFinding, finding_of}, Gravest.{IsOf, by_weight}};
ghost use Rattle.ocfl_messages.specs.Closing.{closing_text as text_of_closing, above_text, alone_text, back_head, back_line, back_lines, back_text, changed_text, counted_text, counts_text, ended_text, gone_lines, gone_line, not_shown, new_head, repaired_head, gone_head, gone_text, is_unmoved as is_unmoved_by, kind_text, lead_of, moved_text, new_text, repaired_line, repaired_lines, repaired_text, not_known_text, not_whole_text, run_count_text, since_text, some_above_text, some_gone_text, some_moved_text, some_new_text, some_run_count_text, some_unlooked_text, summary_text, uncompared_text, unlooked_text, unsaid_text};
ghost use Rattle.ocfl_messages.specs.Closing.{changed_command as command_of_changes};
ghost use Rattle.ocfl_messages.specs.Closing.{list_command as command_of_list, new_room as room_of_new};
ghost use Rattle.ocfl_messages.specs.Night.{more_text};

use crate::appending::put_made;
use crate::command::{over, path_of};
use crate::finding::Finding;
use crate::gravest::Gravest;
use crate::many::{are, many, size};
use crate::night::{more, put_some};
use crate::room::{back_room, gone_room, most, new_room, repaired_room, unsaid};
use crate::shown::Shown;
use crate::tally::Counts;
use crate::wording::put_said;
use ocfl_report::Line;
use ocfl_tree::Place;
use std::alloc::{AllocError, Global};

/// How many of what is gone, repaired or back a closing shows at most, or more.
pub const SHOWN: usize = 20;

/// What is gone.
#[derive(Clone, Copy)]
pub enum GoneKind {
    /// An object of the last whole report.
    Object,
    /// An object of it whose declaration is lost: its files lie there, and are no longer looked at.
    Undeclared,
    /// A content file of it.
    File,
    /// An object of the list of those that are expected.
    Expected,
}

/// An object or a file without a line.
#[derive(Drop)]
pub struct Gone {
    /// What it is.
    pub kind: GoneKind,
    /// Its place.
    pub place: Place,
}

/// How many objects have another root inventory than before.
#[derive(Clone, Copy)]
pub struct Moved {
    /// Of the same version.
    pub rewritten: u64,
    /// Of an older version.
    pub went_back: u64,
    /// Of a newer version.
    pub newer: u64,
}

/// What a closed cycle found. Each slice has the first of what it is of, [`SHOWN`] or more if there
/// are as many, in the order of places; beside it is how many there are of all. In that of what is
/// gone, objects come before files: its caller puts them so.
#[derive(Clone, Copy)]
pub struct Closing<'a> {
    /// The path of the storage root.
    pub root: &'a str,
    /// The number of the cycle.
    pub cycle: u64,
    /// The number of the cycle that it was compared with; 0 if it was not compared.
    pub before: u64,
    /// Why nothing was compared. Empty if it was, or if there is no cycle before it.
    pub uncompared: &'a str,
    /// What the report counts, if that is to be said.
    pub counts: Option<Counts>,
    /// How many runs the cycle had; 0 if that is not known.
    pub runs: u64,
    /// Whether the cycle's report is whole.
    pub whole: bool,
    /// The path of the cycle's report.
    pub report: &'a str,
    /// The path of the last whole report before it.
    pub earlier: &'a str,
    /// The path of the list of what is gone.
    pub list: &'a str,
    /// Findings that the last whole report does not have, without those that the message of this
    /// night has already.
    pub appeared: &'a Gravest,
    /// How many there are, with those.
    pub appeared_count: u64,
    /// How many of them the message of this night has already.
    pub said: u64,
    /// Findings of the last whole report whose places have no such finding any more.
    pub repaired: &'a [Line],
    /// How many there are.
    pub repaired_count: u64,
    /// Objects that an earlier list called gone or undeclared, and that have a line of an object
    /// again.
    pub back: &'a [Place],
    /// How many there are.
    pub back_count: u64,
    /// What has no line any more.
    pub gone: &'a [Gone],
    /// How many there are.
    pub gone_count: u64,
    /// How many files are not looked at any more: their object is gone, or its head stops now.
    pub unlooked: u64,
    /// How many objects have another root inventory than the last whole report notes.
    pub moved: Moved,
}

fn not_whole(alloc: Global, cycle: u64, report: &str) -> Result<String, AllocError>
    ensures { IfOk result (λ text. string_bytes text ≡ not_whole_text cycle report.now) }
{
    let report = Shown(report);
    format!(in alloc; "Cycle {cycle} ended, but its report is incomplete: {report}\n")
}

/// What a report counts.
pub(crate) fn counted(alloc: Global, counts: Counts) -> Result<String, AllocError>
    ensures { IfOk result (λ text. string_bytes text ≡ counts_text counts) }
{
    let files = many(alloc, counts.files, "file", "files")?;
    let objects = many(alloc, counts.objects, "object", "objects")?;
    let bytes = size(alloc, counts.bytes)?;
    let right = counts.right;
    format!(in alloc; "{right} of {files} right, {objects}, {bytes}")
}

/// How many runs a cycle had; nothing if that is not known.
pub(crate) fn had(alloc: Global, runs: u64) -> Result<String, AllocError>
    ensures { IfOk result (λ text. string_bytes text ≡ run_count_text runs) }
{
    if runs == 0 {
        return Ok(String::new(alloc));
    }
    had_some(alloc, runs)
}

fn had_some(alloc: Global, runs: u64) -> Result<String, AllocError>
    ensures { IfOk result (λ text. string_bytes text ≡ some_run_count_text runs) }
{
    let runs = many(alloc, runs, "run", "runs")?;
    format!(in alloc; ", {runs}")
}

/// How much is new.
fn some_new(alloc: Global, count: u64) -> Result<String, AllocError>
    ensures { IfOk result (λ text. string_bytes text ≡ some_new_text count) }
{
    if count == 0 {
        return String::from_str(alloc, "Nothing new");
    }
    many(alloc, count, "new finding", "new findings")
}

/// How much is gone.
fn some_gone(alloc: Global, count: u64) -> Result<String, AllocError>
    ensures { IfOk result (λ text. string_bytes text ≡ some_gone_text count) }
{
    if count == 0 {
        return String::from_str(alloc, "nothing gone");
    }
    many(
        alloc,
        count,
        "object or file gone",
        "objects and files gone",
    )
}

/// What is new and gone since a cycle before.
fn since(alloc: Global, appeared: u64, gone: u64, before: u64) -> Result<String, AllocError>
    ensures { IfOk result (λ text. string_bytes text ≡ since_text appeared gone before) }
{
    let appeared = some_new(alloc, appeared)?;
    let gone = some_gone(alloc, gone)?;
    format!(in alloc; "{appeared}, {gone} since cycle {before}")
}

/// What is said of a cycle that was compared with none.
fn alone(why: &str) -> &'static str
    ensures { result.now ≡ alone_text why.now }
{
    if why.is_empty() {
        return "Nothing to compare with";
    }
    "Not compared"
}

/// How much changed since the cycle that it was compared with.
fn changed(alloc: Global, closing: &Closing<'_>) -> Result<String, AllocError>
    ensures { IfOk result (λ text. string_bytes text ≡ changed_text closing.now) }
{
    if closing.before == 0 {
        return String::from_str(alloc, alone(closing.uncompared));
    }
    since(
        alloc,
        closing.appeared_count,
        closing.gone_count,
        closing.before,
    )
}

/// What a cycle counts, and how much changed.
fn summary(alloc: Global, closing: &Closing<'_>, counts: Counts) -> Result<String, AllocError>
    ensures { IfOk result (λ text. string_bytes text ≡ summary_text closing.now counts) }
{
    let counted = counted(alloc, counts)?;
    let runs = had(alloc, closing.runs)?;
    let changed = changed(alloc, closing)?;
    format!(in alloc; "{counted}{runs}.\n{changed}.\n")
}

/// The line that it is in.
pub(crate) fn lead(
    alloc: Global,
    cycle: u64,
    whole: bool,
    report: &str,
) -> Result<String, AllocError>
    ensures { IfOk result (λ text. string_bytes text ≡ lead_of cycle whole report.now) }
{
    if whole {
        return whole_lead(alloc, cycle);
    }
    let said = not_whole(alloc, cycle, report)?;
    format!(in alloc; "{said}In it: ")
}

fn whole_lead(alloc: Global, cycle: u64) -> Result<String, AllocError>
    ensures { IfOk result
        (λ text. string_bytes text ≡ codes "Cycle " ++ decimal cycle ++ codes " ended: ") }
{
    format!(in alloc; "Cycle {cycle} ended: ")
}

/// The word at the end of a cycle.
fn ended(alloc: Global, closing: &Closing<'_>, counts: Option<Counts>) -> Result<String, AllocError>
    ensures { IfOk result (λ text. string_bytes text ≡ counted_text closing.now counts) }
{
    match counts {
        Some(counts) => ended_with(alloc, closing, counts),
        None if closing.whole => Ok(String::new(alloc)),
        None => not_whole(alloc, closing.cycle, closing.report),
    }
}

fn ended_with(alloc: Global, closing: &Closing<'_>, counts: Counts) -> Result<String, AllocError>
    ensures { IfOk result (λ text. string_bytes text ≡ counted_text closing.now (Some counts)) }
{
    let lead = lead(alloc, closing.cycle, closing.whole, closing.report)?;
    let summary = summary(alloc, closing, counts)?;
    format!(in alloc; "{lead}{summary}")
}

/// That nothing was compared, and why.
fn uncompared(alloc: Global, why: &str) -> Result<String, AllocError>
    ensures { IfOk result (λ text. string_bytes text ≡ uncompared_text why.now) }
{
    if why.is_empty() {
        return Ok(String::new(alloc));
    }
    not_known(alloc, why)
}

fn not_known(alloc: Global, why: &str) -> Result<String, AllocError>
    ensures { IfOk result (λ text. string_bytes text ≡ not_known_text why.now) }
{
    let why = Shown(why);
    format!(in alloc; "What is new or gone since the last report is not known: {why}\n")
}

/// Appends a finding that is repaired.
fn put_repaired_line(alloc: Global, line: &Line, text: &mut Vec<u8>) -> Result<(), AllocError>
    ensures { OnOk result (text.new.items ≡ text.old.items ++ repaired_line (line_of line.now)) }
{
    let path = path_of(alloc, &line.place)?;
    put_said(alloc, path.as_str(), line, text)
}

/// Appends these findings.
fn put_repaired_lines(alloc: Global, lines: &[Line], text: &mut Vec<u8>) -> Result<(), AllocError>
    ensures { OnOk result (text.new.items
        ≡ text.old.items ++ repaired_lines (map line_of lines.now)) }
{
    for line in lines {
        put_repaired_line(alloc, line, text)?;
    }
    Ok(())
}

/// Appends how many of `count` are not shown in so much room, of which `listed` are in the list.
fn put_more(
    alloc: Global,
    command: &str,
    file: &str,
    room: usize,
    count: u64,
    listed: usize,
    text: &mut Vec<u8>,
) -> Result<(), AllocError>
    ensures { OnOk result (text.new.items ≡ text.old.items
        ++ more_text command.now file.now (not_shown room count listed)) }
{
    let left = count.saturating_sub(listed.min(most(room, count)) as u64);
    put_made(more(alloc, command, file, u128::from(left)), text)
}

fn kind_of(kind: GoneKind) -> &'static str
    ensures { result.now ≡ kind_text kind }
{
    match kind {
        GoneKind::Object => "object",
        GoneKind::Undeclared => "undeclared",
        GoneKind::File => "file",
        GoneKind::Expected => "expected",
    }
}

/// Appends the line of what is of a kind and at a path.
fn put_at(kind: &str, path: &str, text: &mut Vec<u8>) -> Result<(), AllocError>
    ensures { OnOk result (text.new.items ≡ text.old.items ++ kind.now ++ 9 ∷ path.now ++ 10 ∷ []) }
{
    text.extend_from_slice(kind.as_bytes())?;
    text.extend_from_slice(b"\t")?;
    text.extend_from_slice(path.as_bytes())?;
    text.extend_from_slice(b"\n")
}

/// Appends the line of what is gone.
fn put_gone(alloc: Global, gone: &Gone, text: &mut Vec<u8>) -> Result<(), AllocError>
    ensures { OnOk result (text.new.items ≡ text.old.items ++ gone_line gone.now) }
{
    let path = path_of(alloc, &gone.place)?;
    put_at(kind_of(gone.kind), path.as_str(), text)
}

/// Appends the lines of the first of what is gone, up to so many.
fn put_gone_lines(
    alloc: Global,
    gone: &[Gone],
    most: usize,
    text: &mut Vec<u8>,
) -> Result<(), AllocError>
    ensures { OnOk result
        (text.new.items ≡ text.old.items ++ gone_lines (take most gone.now)) }
{
    put_all_lines(alloc, &gone[..most.min(gone.len())], text)
}

/// Appends their lines.
fn put_all_lines(alloc: Global, gone: &[Gone], text: &mut Vec<u8>) -> Result<(), AllocError>
    ensures { OnOk result (text.new.items ≡ text.old.items ++ gone_lines gone.now) }
{
    for one in gone {
        put_gone(alloc, one, text)?;
    }
    Ok(())
}

/// Appends what is gone, and how much more. There is some.
fn put_some_gone(alloc: Global, closing: &Closing<'_>, text: &mut Vec<u8>) -> Result<(), AllocError>
    requires { closing.now.gone_count ≢ 0 }
    ensures { OnOk result (text.new.items ≡ text.old.items ++ gone_text closing.now) }
{
    let (count, room) = (closing.gone_count, gone_room(closing));
    put_made(gone_head_of(alloc, count, closing.cycle), text)?;
    put_gone_lines(alloc, closing.gone, most(room, count), text)?;
    let listed = closing.gone.len();
    put_more(
        alloc,
        list_command(),
        closing.list,
        room,
        count,
        listed,
        text,
    )
}

/// Appends the line of an object that is back.
fn put_back(alloc: Global, place: &Place, text: &mut Vec<u8>) -> Result<(), AllocError>
    ensures { OnOk result (text.new.items ≡ text.old.items ++ back_line place.now) }
{
    let path = path_of(alloc, place)?;
    put_at("object", path.as_str(), text)
}

/// Appends the lines of the first of those that are back, up to so many.
fn put_back_lines(
    alloc: Global,
    back: &[Place],
    most: usize,
    text: &mut Vec<u8>,
) -> Result<(), AllocError>
    ensures { OnOk result
        (text.new.items ≡ text.old.items ++ back_lines (take most back.now)) }
{
    put_all_back_lines(alloc, &back[..most.min(back.len())], text)
}

/// Appends their lines.
fn put_all_back_lines(alloc: Global, back: &[Place], text: &mut Vec<u8>) -> Result<(), AllocError>
    ensures { OnOk result (text.new.items ≡ text.old.items ++ back_lines back.now) }
{
    for place in back {
        put_back(alloc, place, text)?;
    }
    Ok(())
}

/// Appends which objects are back, and how many more. There are some.
fn put_some_back(alloc: Global, closing: &Closing<'_>, text: &mut Vec<u8>) -> Result<(), AllocError>
    requires { closing.now.back_count ≢ 0 }
    ensures { OnOk result (text.new.items ≡ text.old.items ++ back_text closing.now) }
{
    let (count, room) = (closing.back_count, back_room(closing));
    put_made(back_head_of(alloc, count, closing.cycle), text)?;
    put_back_lines(alloc, closing.back, most(room, count), text)?;
    let (command, listed) = (changed_command(alloc, closing)?, closing.back.len());
    put_more(
        alloc,
        command.as_str(),
        closing.report,
        room,
        count,
        listed,
        text,
    )
}

/// Appends which objects are back; nothing of none.
fn put_all_back(alloc: Global, closing: &Closing<'_>, text: &mut Vec<u8>) -> Result<(), AllocError>
    ensures { OnOk result (text.new.items ≡ text.old.items ++ back_text closing.now) }
{
    if closing.back_count == 0 {
        return Ok(());
    }
    put_some_back(alloc, closing, text)
}

/// The line before the objects that are back.
fn back_head_of(alloc: Global, count: u64, cycle: u64) -> Result<String, AllocError>
    ensures { IfOk result (λ text. string_bytes text ≡ back_head count cycle) }
{
    let objects = many(alloc, count, "object", "objects")?;
    let are = are(count);
    format!(in alloc; "{objects}{are} back in cycle {cycle}:\n")
}

/// How many of the new findings the message of this night has already; nothing of none.
fn above(alloc: Global, said: u64) -> Result<String, AllocError>
    ensures { IfOk result (λ text. string_bytes text ≡ above_text said) }
{
    if said == 0 {
        return Ok(String::new(alloc));
    }
    some_above(alloc, said)
}

fn some_above(alloc: Global, said: u64) -> Result<String, AllocError>
    ensures { IfOk result (λ text. string_bytes text ≡ some_above_text said) }
{
    format!(in alloc; ", {said} of them above")
}

/// The line before the findings that are new, without its end.
fn new_head_of(alloc: Global, closing: &Closing<'_>) -> Result<String, AllocError>
    ensures { IfOk result (λ text. string_bytes text ≡ new_head closing.now) }
{
    let above = above(alloc, closing.said)?;
    let (cycle, before) = (closing.cycle, closing.before);
    let findings = many(alloc, closing.appeared_count, "finding", "findings")?;
    let are = are(closing.appeared_count);
    format!(in alloc; "{findings} of cycle {cycle}{are} new since cycle {before}{above}")
}

/// Appends what is new.
fn put_new(alloc: Global, closing: &Closing<'_>, text: &mut Vec<u8>) -> Result<(), AllocError>
    ensures { OnOk result ((fs : List ModelFinding) → IsOf closing.now.appeared.now fs
        → length (by_weight fs) < 2 ^ 64
        → text.new.items ≡ text.old.items ++ new_text closing.now fs) }
{
    if closing.appeared_count == 0 {
        return Ok(());
    }
    let kept = closing.appeared.shown(alloc)?;
    put_made(new_head_of(alloc, closing), text)?;
    put_unsaid(alloc, closing, kept.as_slice(), text)
}

/// Appends the end of that line and the most serious of the findings that were not said, of which
/// these are kept, and how many more there are.
fn put_unsaid(
    alloc: Global,
    closing: &Closing<'_>,
    kept: &[Finding],
    text: &mut Vec<u8>,
) -> Result<(), AllocError>
    ensures { OnOk result (text.new.items ≡ text.old.items ++ unsaid_text (room_of_new closing.now)
        (closing.now.appeared_count - closing.now.said) (map finding_of kept.now)
        closing.now.root.now closing.now.report.now) }
{
    let count = unsaid(closing);
    if count == 0 {
        text.extend_from_slice(b".\n")?;
        return Ok(());
    }
    text.extend_from_slice(b":\n")?;
    let (root, report, room) = (closing.root, closing.report, new_room(closing));
    put_some(
        alloc,
        root,
        room.saturating_sub(2),
        report,
        u128::from(count),
        kept,
        text,
    )
}

/// The line before those that are repaired.
fn repaired_head_of(
    alloc: Global,
    count: u64,
    cycle: u64,
    before: u64,
) -> Result<String, AllocError>
    ensures { IfOk result (λ text. string_bytes text ≡ repaired_head count cycle before) }
{
    let findings = many(alloc, count, "finding", "findings")?;
    let are = are(count);
    format!(in alloc; "{findings} of cycle {before}{are} repaired in cycle {cycle}:\n")
}

/// The line before what is gone.
fn gone_head_of(alloc: Global, count: u64, cycle: u64) -> Result<String, AllocError>
    ensures { IfOk result (λ text. string_bytes text ≡ gone_head count cycle) }
{
    let lost = many(alloc, count, "object or file", "objects and files")?;
    let are = are(count);
    format!(in alloc; "{lost}{are} gone or missing in cycle {cycle}:\n")
}

/// Appends the lines of the first of what is repaired, up to so many.
fn put_most_repaired(
    alloc: Global,
    repaired: &[Line],
    most: usize,
    text: &mut Vec<u8>,
) -> Result<(), AllocError>
    ensures { OnOk result (text.new.items
        ≡ text.old.items ++ repaired_lines (map line_of (take most repaired.now))) }
{
    put_repaired_lines(alloc, &repaired[..most.min(repaired.len())], text)
}

/// The command that shows what changed between the reports, without the second one.
fn changed_command(alloc: Global, closing: &Closing<'_>) -> Result<String, AllocError>
    ensures { IfOk result (λ text. string_bytes text ≡ command_of_changes closing.now) }
{
    over(alloc, "ocfl-scrub-reports changed", closing.earlier)
}

/// The command that shows what is gone.
fn list_command() -> &'static str
    ensures { result.now ≡ command_of_list }
{
    "cat"
}

/// Appends what is repaired, and how much more. There is some.
fn put_some_repaired(
    alloc: Global,
    closing: &Closing<'_>,
    text: &mut Vec<u8>,
) -> Result<(), AllocError>
    requires { closing.now.repaired_count ≢ 0 }
    ensures { OnOk result (text.new.items ≡ text.old.items ++ repaired_text closing.now) }
{
    let (count, room) = (closing.repaired_count, repaired_room(closing));
    put_made(
        repaired_head_of(alloc, count, closing.cycle, closing.before),
        text,
    )?;
    put_most_repaired(alloc, closing.repaired, most(room, count), text)?;
    let (command, listed) = (changed_command(alloc, closing)?, closing.repaired.len());
    put_more(
        alloc,
        command.as_str(),
        closing.report,
        room,
        count,
        listed,
        text,
    )
}

/// Appends what is repaired; nothing of none.
fn put_repaired(alloc: Global, closing: &Closing<'_>, text: &mut Vec<u8>) -> Result<(), AllocError>
    ensures { OnOk result (text.new.items ≡ text.old.items ++ repaired_text closing.now) }
{
    if closing.repaired_count == 0 {
        return Ok(());
    }
    put_some_repaired(alloc, closing, text)
}

/// How many files are not looked at any more; nothing of none.
fn unlooked(alloc: Global, count: u64) -> Result<String, AllocError>
    ensures { IfOk result (λ text. string_bytes text ≡ unlooked_text count) }
{
    if count == 0 {
        return Ok(String::new(alloc));
    }
    some_unlooked(alloc, count)
}

fn some_unlooked(alloc: Global, count: u64) -> Result<String, AllocError>
    ensures { IfOk result (λ text. string_bytes text ≡ some_unlooked_text count) }
{
    let files = many(alloc, count, "file", "files")?;
    let are = are(count);
    format!(in alloc;
        "{files} of objects that are gone, or whose inventory cannot be used,{are} not looked at \
         any more.\n"
    )
}

/// Whether no root inventory is another one.
fn is_unmoved(moved: Moved) -> bool
    ensures { result ≡ is_unmoved_by moved }
{
    moved.rewritten == 0 && moved.went_back == 0 && moved.newer == 0
}

/// How many root inventories are others; nothing of none.
fn root_inventories(alloc: Global, moved: Moved, list: &str) -> Result<String, AllocError>
    ensures { IfOk result (λ text. string_bytes text ≡ moved_text moved list.now) }
{
    if is_unmoved(moved) {
        return Ok(String::new(alloc));
    }
    some_root_inventories(alloc, moved, list)
}

fn some_root_inventories(alloc: Global, moved: Moved, list: &str) -> Result<String, AllocError>
    ensures { IfOk result (λ text. string_bytes text ≡ some_moved_text moved list.now) }
{
    let (rewritten, went_back, newer) = (moved.rewritten, moved.went_back, moved.newer);
    let listed = over(alloc, list_command(), list)?;
    format!(in alloc;
        "Root inventories: {rewritten} changed without a new version, {went_back} went back, \
         {newer} of a new version: {listed}\n"
    )
}

/// Appends what changed: what is new, repaired and back.
fn put_changes(alloc: Global, closing: &Closing<'_>, text: &mut Vec<u8>) -> Result<(), AllocError>
    ensures { OnOk result ((fs : List ModelFinding) → IsOf closing.now.appeared.now fs
        → length (by_weight fs) < 2 ^ 64 → text.new.items ≡ text.old.items
        ++ new_text closing.now fs ++ repaired_text closing.now ++ back_text closing.now) }
{
    put_new(alloc, closing, text)?;
    put_repaired(alloc, closing, text)?;
    put_all_back(alloc, closing, text)
}

/// What is said of a closed cycle, in at most 13 lines, and one more if a root inventory is another
/// one, in this order:
///
/// - if what the report counts is known, the word at its end: how many files are right of how many,
///   how many objects and bytes, and, if that is known, in how many runs; then how much is new and
///   gone since the cycle that it was compared with, or that its report is incomplete;
/// - if nothing was compared, that, and why;
/// - what is gone, how many files are not looked at any more, how many root inventories are others,
///   if any is, and what is new, repaired and back. Of each section there is a line with their
///   number, and the first of them while there is room, what comes first in that order before the
///   rest; then how many more there are, and the command that lists them.
///
/// Of what is new the most serious findings come first, by object as in
/// [`night_text`](crate::night_text), and those that the message of this night has already are only
/// counted.
pub fn closing_text(alloc: Global, closing: &Closing<'_>) -> Result<Vec<u8>, AllocError>
    // Whichever findings were taken, of fewer than 2^64.
    ensures { IfOk result (λ text. (fs : List ModelFinding) → IsOf closing.now.appeared.now fs
        → length (by_weight fs) < 2 ^ 64 → text.items ≡ text_of_closing closing.now fs) }
{
    let mut text = Vec::new(alloc);
    put_closing(alloc, closing, &mut text)?;
    Ok(text)
}

/// The same, in an empty text.
fn put_closing(alloc: Global, closing: &Closing<'_>, text: &mut Vec<u8>) -> Result<(), AllocError>
    requires { text.now.items ≡ [] }
    ensures { OnOk result ((fs : List ModelFinding) → IsOf closing.now.appeared.now fs
        → length (by_weight fs) < 2 ^ 64 → text.new.items ≡ text_of_closing closing.now fs) }
{
    put_made(ended(alloc, closing, closing.counts), text)?;
    put_made(uncompared(alloc, closing.uncompared), text)?;
    put_gone_section(alloc, closing, text)?;
    put_made(unlooked(alloc, closing.unlooked), text)?;
    put_made(root_inventories(alloc, closing.moved, closing.list), text)?;
    put_changes(alloc, closing, text)
}

/// Appends what is gone; nothing of none.
fn put_gone_section(
    alloc: Global,
    closing: &Closing<'_>,
    text: &mut Vec<u8>,
) -> Result<(), AllocError>
    ensures { OnOk result (text.new.items ≡ text.old.items ++ gone_text closing.now) }
{
    if closing.gone_count == 0 {
        return Ok(());
    }
    put_some_gone(alloc, closing, text)
}
