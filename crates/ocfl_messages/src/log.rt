//! The lines of the log: a JSON object each (RFC 8259), for people and programs that read it. A
//! night itself reads none of them.
//!
//! Each has a member `row`, which says what it is of, and times in seconds since 1970. Paths,
//! places and the system's words are escaped as in reports, so a line has printable ASCII alone.
ghost use Rattle.std.specs.Prelude.{◌≡◌, ◌≤◌, false, IfOk, OnOk, string_bytes};
ghost use Rattle.serde_json.specs.Data.{Data, depth, no_members, object};
ghost use Rattle.serde_json.specs.{View.{members_view, view}, Written.{has_float}};
ghost use Rattle.ocfl_messages.specs.Log.{IsJsonLine, stands_text, first_text, row_data, row_with, other_text, began_with, slice_with, left_with, closing_with, refusal_with, night_with};
ghost use Rattle.ocfl_messages.specs.Internal.Members.{with_member, with_members};

use crate::log::Member::{Count, Flag, Words};
use crate::shown::Shown;
use ocfl_report::DisplayPlace;
use ocfl_tree::Place;
use serde_json::{Map, Value, put};
use std::alloc::{AllocError, Global};

/// Where a cursor stands.
#[derive(Clone, Copy)]
pub enum Stands<'a> {
    /// At the start of its cycle.
    Start,
    /// After the items of this place.
    After(&'a Place),
    /// At the end of its cycle.
    Ended,
}

/// The beginning of a night: it has taken up what the last one left.
#[derive(Clone, Copy)]
pub struct BeganRow<'a> {
    /// When it had taken that up.
    pub time: u64,
    /// When it began.
    pub night: u64,
    /// The number of the cycle that it goes on with.
    pub cycle: u64,
    /// Where the cursor stands in that cycle.
    pub stands: Stands<'a>,
    /// How many lines the cycle's report has.
    pub lines: u64,
    /// How many bytes it has.
    pub bytes: u64,
    /// The path of the storage root.
    pub root: &'a str,
    /// The number of the part that is read; 0 if the whole root is.
    pub part: u64,
    /// The SHA-256 of the program that makes it, in hexadecimal digits. Empty if it is not known.
    pub program: &'a str,
}

/// A slice: one run of a night.
#[derive(Clone, Copy)]
pub struct SliceRow<'a> {
    /// When it began.
    pub time: u64,
    /// When its night began.
    pub night: u64,
    /// The number of its cycle.
    pub cycle: u64,
    /// Its number in the cycle.
    pub run: u64,
    /// The status with which it ended.
    pub status: u8,
    /// What it read, in bytes and 1 for each file.
    pub cost: u64,
    /// What the cycle has read so far.
    pub spent: u64,
    /// How many files the cycle has read so far.
    pub files: u64,
    /// How many lines the cycle's report then has.
    pub lines: u64,
    /// How many bytes it then has.
    pub bytes: u64,
    /// How long it took.
    pub seconds: u64,
    /// Where the cursor then stands.
    pub stands: Stands<'a>,
}

/// A place that is left out of a cycle.
#[derive(Clone, Copy)]
pub struct LeftRow<'a> {
    /// When it was left out.
    pub time: u64,
    /// When the night that left it out began.
    pub night: u64,
    /// The number of the cycle.
    pub cycle: u64,
    /// The place. All that lies below it is left out too.
    pub place: &'a Place,
    /// Why: the system's words on what failed there. Empty if they are not known.
    pub why: &'a str,
}

/// The closing of a cycle.
#[derive(Clone, Copy)]
pub struct ClosingRow<'a> {
    /// When the cycle was closed.
    pub time: u64,
    /// When the night that closed it began.
    pub night: u64,
    /// The number of the cycle.
    pub cycle: u64,
    /// The path of its report.
    pub report: &'a str,
    /// Whether the report is whole.
    pub whole: bool,
    /// How many findings it has.
    pub findings: u64,
    /// How many lines it has. 0, as the three numbers that follow, if the checkpoint that closed
    /// the cycle is not there.
    pub lines: u64,
    /// How many runs the cycle had.
    pub runs: u64,
    /// How many bytes of files they read.
    pub read_bytes: u64,
    /// How many files they read.
    pub read_files: u64,
    /// The number of the cycle whose report it was compared with; 0 if it was compared with none.
    pub compared: u64,
    /// The number of the last whole cycle, with whose report it was compared where that one alone
    /// had left places out; 0 if it was not.
    pub compared_whole: u64,
    /// Why it was not compared. Empty if it was compared, and for the first cycle.
    pub why: &'a str,
    /// How many of its findings the report before did not have, without those that are known.
    pub appeared: u64,
    /// How many of its findings the report before did not have, of those that are known.
    pub known: u64,
    /// How many findings of that report are right now.
    pub repaired: u64,
    /// How many objects have a line again that an earlier list called gone or undeclared.
    pub back: u64,
    /// How many objects and files of that report have no line any more, and how many objects of the
    /// list have none: the sum of the three numbers that follow.
    pub gone: u64,
    /// How many objects of the report before have no line any more.
    pub objects: u64,
    /// How many files of it have none, of objects that are looked at.
    pub files: u64,
    /// How many files of it are not looked at any more, and count with their object: it is gone, or
    /// its head stops now.
    pub unlooked: u64,
    /// How many objects of the list of those that are expected have no line.
    pub expected: u64,
    /// How many objects the list has.
    pub listed: u64,
    /// The SHA-256 of the list's bytes, in hexadecimal digits. Empty if no list was searched for.
    pub list: &'a str,
    /// How many places were left out.
    pub left: u64,
}

/// Why a night did nothing, or stopped.
#[derive(Clone, Copy)]
pub struct RefusalRow<'a> {
    /// When it was refused.
    pub time: u64,
    /// When its night began.
    pub night: u64,
    /// The status with which the night ends.
    pub status: u8,
    /// What is said of it.
    pub said: &'a str,
}

/// The end of a night.
#[derive(Clone, Copy)]
pub struct NightRow<'a> {
    /// When it ended.
    pub time: u64,
    /// When it began.
    pub night: u64,
    /// The status with which it ends.
    pub status: u8,
    /// How many slices it made.
    pub runs: u64,
    /// What they read together.
    pub cost: u64,
    /// How long the night was.
    pub seconds: u64,
    /// How many findings it said.
    pub findings: u64,
    /// How many branches it left out.
    pub left: u64,
    /// The SHA-256 of the program that made it, in hexadecimal digits. Empty if it is not known.
    pub program: &'a str,
}

/// A row of the log.
#[derive(Clone, Copy)]
pub enum LogRow<'a> {
    /// The beginning of a night.
    Began(BeganRow<'a>),
    /// A run of a night.
    Slice(SliceRow<'a>),
    /// A place that is left out.
    Left(LeftRow<'a>),
    /// The closing of a cycle.
    Closing(ClosingRow<'a>),
    /// Why a night did nothing, or stopped.
    Refusal(RefusalRow<'a>),
    /// The end of a night.
    Night(NightRow<'a>),
}

/// Where a cursor stands, as its text says it.
fn stands_words(alloc: Global, stands: Stands<'_>) -> Result<String, AllocError>
    ensures { IfOk result (λ text. string_bytes text ≡ stands_text stands.entry) }
{
    match stands {
        Stands::Start => String::from_str(alloc, "start"),
        Stands::After(place) => format!(in alloc; "after {}", DisplayPlace(place)),
        Stands::Ended => String::from_str(alloc, "ended"),
    }
}

/// The text of a row, with places, paths and words escaped as in reports.
fn row_words(alloc: Global, row: &LogRow<'_>) -> Result<String, AllocError>
    ensures { IfOk result (λ text. string_bytes text ≡ first_text row.now) }
{
    match row {
        LogRow::Began(began) => stands_words(alloc, began.stands),
        LogRow::Slice(slice) => stands_words(alloc, slice.stands),
        LogRow::Left(left) => format!(in alloc; "{}", DisplayPlace(left.place)),
        LogRow::Closing(closing) => format!(in alloc; "{}", Shown(closing.report)),
        LogRow::Refusal(refusal) => format!(in alloc; "{}", Shown(refusal.said)),
        LogRow::Night(night) => String::from_str(alloc, night.program),
    }
}

/// The other text of a row: the path of the storage root, or the reason that it gives, escaped as
/// in reports.
fn row_other(alloc: Global, row: &LogRow<'_>) -> Result<String, AllocError>
    ensures { IfOk result (λ text. string_bytes text ≡ other_text row.now) }
{
    match row {
        LogRow::Began(began) => format!(in alloc; "{}", Shown(began.root)),
        LogRow::Left(left) => format!(in alloc; "{}", Shown(left.why)),
        LogRow::Closing(closing) => format!(in alloc; "{}", Shown(closing.why)),
        LogRow::Slice(_) | LogRow::Refusal(_) | LogRow::Night(_) => Ok(String::new(alloc)),
    }
}

/// A member of a row: its name and its value.
#[derive(Clone, Copy)]
enum Member<'a> {
    /// A number.
    Count(&'a str, u64),
    /// A text.
    Words(&'a str, &'a str),
    /// A flag.
    Flag(&'a str, bool),
}

/// Puts a member among those of an object.
fn put_member(
    alloc: Global,
    member: Member<'_>,
    map: &mut Map<String, Value>,
) -> Result<(), AllocError>
    ensures { OnOk result (members_view map.new.entries
        ≡ with_member member.entry (members_view map.old.entries)) }
{
    match member {
        Count(name, count) => put(map, alloc, name, Value::from(count)),
        Words(name, text) => put(map, alloc, name, Value::try_from_str(alloc, text)?),
        Flag(name, flag) => put(map, alloc, name, Value::from(flag)),
    }
}

/// The object with these members.
fn object_of(alloc: Global, members: &[Member<'_>]) -> Result<Value, AllocError>
    ensures { IfOk result (λ v. view v ≡ object (with_members members.now no_members)) }
{
    let mut map = Map::new(alloc);
    for &member in members {
        put_member(alloc, member, &mut map)?;
    }
    Ok(Value::Object(map))
}

/// What the line of a night that begins says.
fn began_value<'a>(
    alloc: Global,
    row: &BeganRow<'a>,
    stands: &'a str,
    root: &'a str,
) -> Result<Value, AllocError>
    ensures { IfOk result (λ v. view v ≡ began_with row.now stands.now root.now) }
{
    object_of(
        alloc,
        &[
            Count("bytes", row.bytes),
            Count("cycle", row.cycle),
            Count("lines", row.lines),
            Count("night", row.night),
            Count("part", row.part),
            Words("program", row.program),
            Words("root", root),
            Words("row", "began"),
            Words("stands", stands),
            Count("time", row.time),
        ],
    )
}

/// What the line of a slice says.
fn slice_value(alloc: Global, row: &SliceRow<'_>, stands: &str) -> Result<Value, AllocError>
    ensures { IfOk result (λ v. view v ≡ slice_with row.now stands.now) }
{
    object_of(
        alloc,
        &[
            Count("bytes", row.bytes),
            Count("cost", row.cost),
            Count("cycle", row.cycle),
            Count("files", row.files),
            Count("lines", row.lines),
            Count("night", row.night),
            Words("row", "slice"),
            Count("run", row.run),
            Count("seconds", row.seconds),
            Count("spent", row.spent),
            Words("stands", stands),
            Count("status", u64::from(row.status)),
            Count("time", row.time),
        ],
    )
}

/// What the line of a place that is left out says.
fn left_value<'a>(
    alloc: Global,
    row: &LeftRow<'_>,
    place: &'a str,
    why: &'a str,
) -> Result<Value, AllocError>
    ensures { IfOk result (λ v. view v ≡ left_with row.now place.now why.now) }
{
    object_of(
        alloc,
        &[
            Count("cycle", row.cycle),
            Count("night", row.night),
            Words("place", place),
            Words("row", "left"),
            Count("time", row.time),
            Words("why", why),
        ],
    )
}

/// What the line of a closing says.
fn closing_value<'a>(
    alloc: Global,
    row: &ClosingRow<'a>,
    report: &'a str,
    why: &'a str,
) -> Result<Value, AllocError>
    ensures { IfOk result (λ v. view v ≡ closing_with row.now report.now why.now) }
{
    object_of(
        alloc,
        &[
            Count("back", row.back),
            Count("compared", row.compared),
            Count("compared_whole", row.compared_whole),
            Count("cycle", row.cycle),
            Count("expected", row.expected),
            Count("files", row.files),
            Count("findings", row.findings),
            Count("gone", row.gone),
            Count("known", row.known),
            Count("left", row.left),
            Count("lines", row.lines),
            Words("list", row.list),
            Count("listed", row.listed),
            Count("new", row.appeared),
            Count("night", row.night),
            Count("objects", row.objects),
            Count("read_bytes", row.read_bytes),
            Count("read_files", row.read_files),
            Count("repaired", row.repaired),
            Words("report", report),
            Words("row", "closing"),
            Count("runs", row.runs),
            Count("time", row.time),
            Count("unlooked", row.unlooked),
            Flag("whole", row.whole),
            Words("why", why),
        ],
    )
}

/// What the line of a refusal says.
fn refusal_value(alloc: Global, row: &RefusalRow<'_>, said: &str) -> Result<Value, AllocError>
    ensures { IfOk result (λ v. view v ≡ refusal_with row.now said.now) }
{
    object_of(
        alloc,
        &[
            Count("night", row.night),
            Words("row", "refusal"),
            Words("said", said),
            Count("status", u64::from(row.status)),
            Count("time", row.time),
        ],
    )
}

/// What the line of a night says.
fn night_value(alloc: Global, row: &NightRow<'_>, program: &str) -> Result<Value, AllocError>
    ensures { IfOk result (λ v. view v ≡ night_with row.now program.now) }
{
    object_of(
        alloc,
        &[
            Count("cost", row.cost),
            Count("findings", row.findings),
            Count("left", row.left),
            Count("night", row.night),
            Words("program", program),
            Words("row", "night"),
            Count("runs", row.runs),
            Count("seconds", row.seconds),
            Count("status", u64::from(row.status)),
            Count("time", row.time),
        ],
    )
}

/// What the line of a row says, with its two texts.
fn row_value(alloc: Global, row: &LogRow<'_>, words: &str, other: &str) -> Result<Value, AllocError>
    ensures { IfOk result (λ v. view v ≡ row_with row.now words.now other.now) }
{
    match row {
        LogRow::Began(began) => began_value(alloc, began, words, other),
        LogRow::Slice(slice) => slice_value(alloc, slice, words),
        LogRow::Left(left) => left_value(alloc, left, words, other),
        LogRow::Closing(closing) => closing_value(alloc, closing, words, other),
        LogRow::Refusal(refusal) => refusal_value(alloc, refusal, words),
        LogRow::Night(night) => night_value(alloc, night, words),
    }
}

/// The text of a value without floats, and a line feed.
fn line_of(alloc: Global, value: &Value) -> Result<String, AllocError>
    ensures { IfOk result (λ line. (d : Data) → view value.now ≡ d → has_float d ≡ false
        → depth d ≤ 127 → IsJsonLine (string_bytes line) d) }
{
    let mut line = value.to_string(alloc)?;
    line.push('\n')?;
    Ok(line)
}

/// The line of a row, with a line feed; an `AllocError` if memory is refused.
pub fn log_line(alloc: Global, row: &LogRow<'_>) -> Result<String, AllocError>
    ensures { IfOk result (λ line. IsJsonLine (string_bytes line) (row_data row.now)) }
{
    let words = row_words(alloc, row)?;
    let other = row_other(alloc, row)?;
    let value = row_value(alloc, row, words.as_str(), other.as_str())?;
    line_of(alloc, &value)
}
