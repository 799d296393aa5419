//! The message after a night: the findings that were not said before.
ghost use Rattle.std.specs.Prelude.{◌≡◌, ◌-◌, ◌++◌, ◌^◌, ◌<◌, List, [], length, map, OnOk, IfOk, string_bytes};
ghost use Rattle.ocfl_messages.specs.{Finding.{Finding as ModelFinding, finding_of}, Gravest.{IsOf, by_weight}};
ghost use Rattle.ocfl_messages.specs.Grouped.{led_by};
ghost use Rattle.ocfl_messages.specs.Night.{whose_text, runs_text, tonight_text, hint_text, more_text, between_text, some_more_text, some_text, part_text, findings_command as command_of_findings, findings_text, night_text as text_of_night, shown_findings};

use crate::appending::put_made;
use crate::command::over;
use crate::finding::Finding;
use crate::gravest::Gravest;
use crate::grouped::{leads_of, led, put_groups, shown_leads};
use crate::many::many_wide;
use crate::shown::Shown;
use std::alloc::{AllocError, Global};

/// How many lines of a message are of groups.
const ROOM: usize = 24;

/// What a message says of its night.
#[derive(Clone, Copy)]
pub struct Night<'a> {
    /// The path of the storage root.
    pub root: &'a str,
    /// Which part of it was audited; `None` if all of it was.
    pub part: Option<u64>,
    /// The number of the cycle.
    pub cycle: u64,
    /// The number of the first run whose findings are said.
    pub first: u64,
    /// The number of the last one.
    pub last: u64,
    /// The path of the file that has all the findings.
    pub report: &'a str,
}

/// A storage root by its path, or a part of it.
pub(crate) fn whose(alloc: Global, part: Option<u64>, root: &str) -> Result<String, AllocError>
    ensures { IfOk result (λ text. string_bytes text ≡ whose_text part root.now) }
{
    match part {
        None => format!(in alloc; "{}", Shown(root)),
        Some(part) => part_of(alloc, part, root),
    }
}

/// A part of a storage root.
fn part_of(alloc: Global, part: u64, root: &str) -> Result<String, AllocError>
    ensures { IfOk result (λ text. string_bytes text ≡ part_text part root.now) }
{
    format!(in alloc; "part {part} of {}", Shown(root))
}

/// The runs of a night, by their numbers.
fn runs(alloc: Global, first: u64, last: u64) -> Result<String, AllocError>
    ensures { IfOk result (λ text. string_bytes text ≡ runs_text first last) }
{
    if first == last {
        return format!(in alloc; "run {first}");
    }
    runs_between(alloc, first, last)
}

/// Runs from one on, up to another.
fn runs_between(alloc: Global, first: u64, last: u64) -> Result<String, AllocError>
    ensures { IfOk result (λ text. string_bytes text ≡ between_text first last) }
{
    format!(in alloc; "runs {first} to {last}")
}

/// The line before the findings.
fn head(alloc: Global, night: &Night<'_>, count: u128) -> Result<String, AllocError>
    ensures { IfOk result (λ text. string_bytes text ≡ tonight_text night.now count) }
{
    let whose = whose(alloc, night.part, night.root)?;
    let runs = runs(alloc, night.first, night.last)?;
    let found = many_wide(alloc, count, "finding", "findings")?;
    let cycle = night.cycle;
    format!(in alloc; "{found} tonight in {whose}, cycle {cycle}, {runs}:\n")
}

/// How many are not shown, and the command that lists all of them; nothing of none.
pub(crate) fn more(
    alloc: Global,
    command: &str,
    file: &str,
    left: u128,
) -> Result<String, AllocError>
    ensures { IfOk result (λ text. string_bytes text ≡ more_text command.now file.now left) }
{
    if left == 0 {
        return Ok(String::new(alloc));
    }
    some_more(alloc, command, file, left)
}

fn some_more(alloc: Global, command: &str, file: &str, left: u128) -> Result<String, AllocError>
    ensures { IfOk result (λ text. string_bytes text ≡ some_more_text command.now file.now left) }
{
    let over = over(alloc, command, file)?;
    format!(in alloc; "{left} not shown here: {over}\n")
}

/// The command that shows the findings of a report.
fn findings_command() -> &'static str
    ensures { result.now ≡ command_of_findings }
{
    "ocfl-scrub-reports findings"
}

/// Appends how many of `count` findings are not among those of these groups.
fn put_unshown(
    alloc: Global,
    report: &str,
    count: u128,
    leads: &[Finding],
    kept: &[Finding],
    text: &mut Vec<u8>,
) -> Result<(), AllocError>
    ensures { OnOk result (text.new.items ≡ text.old.items ++ more_text command_of_findings
        report.now (count - length (led_by (map finding_of leads.now) (map finding_of kept.now)))) }
{
    let shown = led(alloc, leads, kept)?;
    let left = count.saturating_sub(shown.len() as u128);
    put_made(more(alloc, findings_command(), report, left), text)
}

/// Appends these findings by object, in so many lines, and how many more of `count` a report has.
pub(crate) fn put_some(
    alloc: Global,
    root: &str,
    room: usize,
    report: &str,
    count: u128,
    kept: &[Finding],
    text: &mut Vec<u8>,
) -> Result<(), AllocError>
    ensures { OnOk result (text.new.items ≡ text.old.items
        ++ some_text root.now room report.now count (map finding_of kept.now)) }
{
    let leads = shown_leads(alloc, kept, room)?;
    put_groups(alloc, root, kept, room, leads.as_slice(), text)?;
    put_unshown(alloc, report, count, leads.as_slice(), kept, text)
}

/// Where it stands what to do about the code of each group, if there are several.
fn hint(alloc: Global, kept: &[Finding]) -> Result<&'static str, AllocError>
    ensures { IfOk result (λ text. text.now ≡ hint_text (map finding_of kept.now)) }
{
    if leads_of(alloc, kept)?.len() > 1 {
        return Ok("What to do first about a code: ocfl-scrub codes\n");
    }
    Ok("")
}

/// The message of a night, of at most 27 lines: how many findings there are, the most serious of
/// them, how many more there are and the command that lists them, and where it stands what to do
/// about each code. Findings of an object come together. Its group has a line with its path; each
/// finding in words, with its code and its path below the object, at most three of a code and the
/// number of the rest; what to do first, unless a group before it says so; and a command to paste
/// that looks at it again. Where that would leave no line for each of the groups behind it, a group
/// has one line: its first finding, and how many more it has. What is in no object that is known
/// comes together by its code. Nothing if there is no finding. The commands are left out if the
/// path of the storage root has a control character.
pub fn night_text(alloc: Global, night: &Night<'_>, found: &Gravest) -> Result<Vec<u8>, AllocError>
    // Whichever findings were taken, of fewer than 2^64.
    ensures { IfOk result (λ text. (fs : List ModelFinding) → IsOf found.now fs
        → length (by_weight fs) < 2 ^ 64 → text.items ≡ text_of_night night.now fs) }
{
    let count = found.count();
    let mut text = Vec::new(alloc);
    if count == 0 {
        return Ok(text);
    }
    let kept = found.shown(alloc)?;
    put_findings(alloc, night, count, kept.as_slice(), &mut text)?;
    Ok(text)
}

/// The same in an empty text, of as many findings.
fn put_findings(
    alloc: Global,
    night: &Night<'_>,
    count: u128,
    kept: &[Finding],
    text: &mut Vec<u8>,
) -> Result<(), AllocError>
    requires { text.now.items ≡ [] }
    ensures { OnOk result
        (text.new.items ≡ findings_text night.now count (map finding_of kept.now)) }
{
    put_made(head(alloc, night, count), text)?;
    put_some(alloc, night.root, ROOM, night.report, count, kept, text)?;
    text.extend_from_slice(hint(alloc, kept)?.as_bytes())
}

/// The findings of the groups that the message of a night shows, of those that were kept.
pub fn find_shown(alloc: Global, found: &Gravest) -> Result<Vec<Finding>, AllocError>
    ensures { IfOk result (λ shown. (fs : List ModelFinding) → IsOf found.now fs
        → map finding_of shown.items ≡ shown_findings fs) }
{
    let kept = found.shown(alloc)?;
    let leads = shown_leads(alloc, kept.as_slice(), ROOM)?;
    led(alloc, leads.as_slice(), kept.as_slice())
}
