//! Findings by the objects that they are in.
ghost use Rattle.std.specs.Prelude.{◌≡◌, ◌-◌, ◌++◌, ◌∷◌, [], Some, None, IfOk, OnOk, codes, decimal, map, option_map, string_bytes};
ghost use Rattle.std.specs.List.{list_any};
ghost use Rattle.ocfl_report.specs.{Line.{line_of}, Text.{code_text}};
ghost use Rattle.ocfl_messages.specs.Command.{path_text};
ghost use Rattle.ocfl_messages.specs.Finding.{finding_of};
ghost use Rattle.ocfl_messages.specs.Grouped.{below_text, brief_body, brief_finding, brief_head, brief_respelt, brief_text, count_like as count_alike, count_with as count_of_one, each_text, extent_text, files_text, finding_text, first_with as first_of_one, fit_text, folded_text, group_text, group_head, inner_text, is_like as are_alike, is_same as are_same, is_same_step as are_same_step, is_with as are_of_one, lead_with, leads_of as first_ones, led_by, line_count, member_text, more_respelt_text, one_step_text, others_text, respelt_member_text, respelt_said, respelt_text, respelt_words, says_step as group_says_step, shown_group as text_of_group, shown_leads as ones_shown, shown_text, some_files_text, some_respelt_text, step_of, sorted as sorted_findings, sorted_of, step_text};

use crate::appending::put_made;
use crate::command::{again, path_of};
use crate::finding::{FileCounts, Finding};
use crate::known::{is_code, is_place};
use crate::many::many;
use crate::respelt::{find_alone, find_kept, find_respelt};
use crate::wording::{put_path_part, put_said, put_words};
use ocfl_codes::{first_step_at, meaning_at};
use ocfl_report::{Code, Line};
use ocfl_tree::{Place, is_text};
use std::alloc::{AllocError, Global};

/// How many findings of an object are shown that have the same code.
const ALIKE: usize = 3;

/// Whether the objects are one, or neither is known and the codes are one.
fn is_same(object: &Option<Place>, other: &Option<Place>, codes_are_one: bool) -> bool
    ensures { result ≡ are_same object.now other.now codes_are_one }
{
    match (object, other) {
        (Some(object), Some(other)) => is_place(object, other),
        (None, None) => codes_are_one,
        _ => false,
    }
}

/// Whether the findings are of one group.
pub(crate) fn is_with(one: &Finding, other: &Finding) -> bool
    ensures { result ≡ are_of_one (finding_of one.now) (finding_of other.now) }
{
    is_same(
        &one.object,
        &other.object,
        is_code(one.line.code, other.line.code),
    )
}

/// Whether they are of one group and of one code.
fn is_like(one: &Finding, other: &Finding) -> bool
    ensures { result ≡ are_alike (finding_of one.now) (finding_of other.now) }
{
    is_with(one, other) && is_code(one.line.code, other.line.code)
}

/// How many findings are like one.
fn count_like(one: &Finding, findings: &[Finding]) -> usize
    ensures { result ≡ count_alike (finding_of one.now) (map finding_of findings.now) }
{
    let mut count = 0;
    for finding in findings {
        if is_like(one, finding) {
            count += 1;
        }
    }
    count
}

/// A path below an object; empty at the object itself.
fn inner(alloc: Global, place: &Place) -> Result<String, AllocError>
    ensures { IfOk result (λ text. string_bytes text ≡ inner_text place.now) }
{
    if place.depth() == 0 {
        return Ok(String::new(alloc));
    }
    path_of(alloc, place)
}

/// The path of a finding below its object; its whole path without one.
fn below(alloc: Global, object: &Option<Place>, place: &Place) -> Result<String, AllocError>
    ensures { IfOk result (λ text. string_bytes text ≡ below_text object.now place.now) }
{
    match object {
        Some(object) => inner(alloc, &place.behind(object.depth())?),
        None => path_of(alloc, place),
    }
}

/// Appends a finding.
fn put_finding(alloc: Global, finding: &Finding, text: &mut Vec<u8>) -> Result<(), AllocError>
    ensures { OnOk result (text.new.items
        ≡ text.old.items ++ finding_text (finding_of finding.now)) }
{
    let path = below(alloc, &finding.object, &finding.line.place)?;
    put_said(alloc, path.as_str(), &finding.line, text)
}

/// How many more there are of the code of a line.
fn folded(alloc: Global, count: usize, line: &Line) -> Result<String, AllocError>
    ensures { IfOk result (λ text. string_bytes text ≡ folded_text count (line_of line.now)) }
{
    let (meaning, code) = (meaning_at(line.code, &line.place), line.code.text());
    format!(in alloc; "\tand {count} more: {meaning} ({code})\n")
}

/// Appends a finding that has so many like it before it, unless it is counted with one of those.
fn put_shown(
    alloc: Global,
    before: usize,
    all: &[Finding],
    finding: &Finding,
    text: &mut Vec<u8>,
) -> Result<(), AllocError>
    ensures { OnOk result (text.new.items ≡ text.old.items
        ++ shown_text before (map finding_of all.now) (finding_of finding.now)) }
{
    if before < ALIKE {
        return put_finding(alloc, finding, text);
    }
    if before == ALIKE {
        let count = count_like(finding, all).saturating_sub(ALIKE);
        return put_made(folded(alloc, count, &finding.line), text);
    }
    Ok(())
}

/// Appends a finding, if it is of the group of another one.
fn put_member(
    alloc: Global,
    first: &Finding,
    all: &[Finding],
    seen: &[Finding],
    finding: &Finding,
    text: &mut Vec<u8>,
) -> Result<(), AllocError>
    ensures { OnOk result (text.new.items ≡ text.old.items
        ++ member_text (finding_of first.now) (map finding_of all.now) (map finding_of seen.now)
        (finding_of finding.now)) }
{
    if !is_with(first, finding) {
        return Ok(());
    }
    put_shown(alloc, count_like(finding, seen), all, finding, text)
}

/// Findings, and what is shown of them one by one.
#[derive(Clone, Copy)]
struct Sorted<'a> {
    /// All of them, without what the fixity block says of the missing files of pairs.
    all: &'a [Finding],
    /// Those that are in no pair.
    alone: &'a [Finding],
    /// Of each pair the finding of the file that is missing.
    respelt: &'a [Finding],
}

/// Appends the findings of the group of one.
fn put_members(
    alloc: Global,
    first: &Finding,
    all: &[Finding],
    text: &mut Vec<u8>,
) -> Result<(), AllocError>
    ensures { OnOk result (text.new.items ≡ text.old.items
        ++ each_text (member_text (finding_of first.now) (map finding_of all.now)) []
        (map finding_of all.now)) }
{
    for index in 0..all.len() {
        put_member(alloc, first, all, &all[..index], &all[index], text)?;
    }
    Ok(())
}

/// Whether these are all files of an object.
fn extent(is_whole: bool) -> &'static str
    ensures { result.now ≡ extent_text is_whole }
{
    if is_whole {
        " right"
    } else {
        " right of those read tonight"
    }
}

fn some_files(alloc: Global, counts: FileCounts) -> Result<String, AllocError>
    ensures { IfOk result (λ text. string_bytes text ≡ some_files_text counts) }
{
    let files = many(alloc, counts.files, "file", "files")?;
    let right = counts.right;
    let extent = extent(counts.is_whole);
    format!(in alloc; ", {right} of {files}{extent}")
}

/// How many files of an object are right; nothing if none was counted.
fn files_of(alloc: Global, files: Option<FileCounts>) -> Result<String, AllocError>
    ensures { IfOk result (λ text. string_bytes text ≡ files_text files) }
{
    match files {
        Some(counts) if counts.files != 0 => some_files(alloc, counts),
        _ => Ok(String::new(alloc)),
    }
}

/// What is said of a file that is there under another spelling of its name.
fn respelt() -> &'static str
    ensures { result.now ≡ respelt_words }
{
    "here under another spelling of its name (E092, E023)"
}

/// Appends the path of such a file, and what is said of it.
fn put_respelt_said(alloc: Global, finding: &Finding, text: &mut Vec<u8>) -> Result<(), AllocError>
    ensures { OnOk result (text.new.items
        ≡ text.old.items ++ respelt_said (finding_of finding.now)) }
{
    let path = below(alloc, &finding.object, &finding.line.place)?;
    put_path_part(path.as_str(), text)?;
    text.extend_from_slice(respelt().as_bytes())
}

/// Appends such a file.
fn put_respelt(alloc: Global, finding: &Finding, text: &mut Vec<u8>) -> Result<(), AllocError>
    ensures { OnOk result (text.new.items
        ≡ text.old.items ++ respelt_text (finding_of finding.now)) }
{
    text.extend_from_slice(b"\t")?;
    put_respelt_said(alloc, finding, text)?;
    text.extend_from_slice(b"\n")
}

/// How many more of them there are.
fn more_respelt(alloc: Global, count: usize) -> Result<String, AllocError>
    ensures { IfOk result (λ text. string_bytes text ≡ more_respelt_text count) }
{
    let respelt = respelt();
    format!(in alloc; "\tand {count} more: {respelt}\n")
}

/// Appends such a file that has so many of its group before it, unless it is counted with one of
/// those.
fn put_some_respelt(
    alloc: Global,
    seen: usize,
    all: &[Finding],
    finding: &Finding,
    text: &mut Vec<u8>,
) -> Result<(), AllocError>
    ensures { OnOk result (text.new.items ≡ text.old.items
        ++ some_respelt_text seen (map finding_of all.now) (finding_of finding.now)) }
{
    if seen < ALIKE {
        return put_respelt(alloc, finding, text);
    }
    if seen == ALIKE {
        let count = count_with(finding, all).saturating_sub(ALIKE);
        return put_made(more_respelt(alloc, count), text);
    }
    Ok(())
}

/// Appends such a file, if it is of the group of another finding.
fn put_respelt_member(
    alloc: Global,
    first: &Finding,
    all: &[Finding],
    seen: &[Finding],
    finding: &Finding,
    text: &mut Vec<u8>,
) -> Result<(), AllocError>
    ensures { OnOk result (text.new.items ≡ text.old.items
        ++ respelt_member_text (finding_of first.now) (map finding_of all.now)
        (map finding_of seen.now) (finding_of finding.now)) }
{
    if !is_with(first, finding) {
        return Ok(());
    }
    put_some_respelt(alloc, count_with(finding, seen), all, finding, text)
}

/// Appends those of the group of a finding.
fn put_respelt_members(
    alloc: Global,
    first: &Finding,
    all: &[Finding],
    text: &mut Vec<u8>,
) -> Result<(), AllocError>
    ensures { OnOk result (text.new.items ≡ text.old.items
        ++ each_text (respelt_member_text (finding_of first.now) (map finding_of all.now)) []
        (map finding_of all.now)) }
{
    for index in 0..all.len() {
        put_respelt_member(alloc, first, all, &all[..index], &all[index], text)?;
    }
    Ok(())
}

/// The line before the findings of a group.
fn head(
    alloc: Global,
    object: &Option<Place>,
    files: Option<FileCounts>,
    code: Code,
) -> Result<String, AllocError>
    ensures { IfOk result (λ text. string_bytes text ≡ group_head object.now files code) }
{
    match object {
        Some(object) => object_head(alloc, object, files),
        None => other_head(alloc, code),
    }
}

fn object_head(
    alloc: Global,
    object: &Place,
    files: Option<FileCounts>,
) -> Result<String, AllocError>
    ensures { IfOk result (λ text. string_bytes text
        ≡ codes "Object " ++ path_text object.now ++ files_text files ++ codes ":\n") }
{
    let path = path_of(alloc, object)?;
    let files = files_of(alloc, files)?;
    format!(in alloc; "Object {path}{files}:\n")
}

fn other_head(alloc: Global, code: Code) -> Result<String, AllocError>
    ensures { IfOk result (λ text. string_bytes text
        ≡ codes "Elsewhere, " ++ code_text code ++ codes ":\n") }
{
    let code = code.text();
    format!(in alloc; "Elsewhere, {code}:\n")
}

/// What to do first about a finding.
fn first_step_of(finding: &Finding) -> &'static str
    ensures { result.now ≡ step_of (finding_of finding.now) }
{
    first_step_at(finding.line.code, &finding.line.place)
}

/// Whether the same is to be done first about two findings.
fn is_same_step(one: &Finding, other: &Finding) -> bool
    ensures { result ≡ are_same_step (finding_of one.now) (finding_of other.now) }
{
    is_text(first_step_of(one), first_step_of(other))
}

/// The first of some findings that is of the group of another one.
fn first_with<'a>(one: &Finding, findings: &'a [Finding]) -> Option<&'a Finding>
    ensures { option_map (λ f. finding_of f.now) result
        ≡ first_of_one (finding_of one.now) (map finding_of findings.now) }
{
    for finding in findings {
        if is_with(one, finding) {
            return Some(finding);
        }
    }
    None
}

/// Whether the group of a finding says what another one says to do first.
fn says_step(alone: &[Finding], one: &Finding, lead: &Finding) -> bool
    ensures { result ≡ group_says_step (map finding_of alone.now) (finding_of one.now)
        (finding_of lead.now) }
{
    match first_with(lead, alone) {
        Some(first) => is_same_step(one, first),
        None => false,
    }
}

/// Whether the group of one of some findings has said what to do first about another one.
fn any_step(alone: &[Finding], one: &Finding, before: &[Finding]) -> bool
    ensures { result ≡ list_any (λ g. group_says_step (map finding_of alone.now)
        (finding_of one.now) (finding_of g)) before.now }
{
    for lead in before {
        if says_step(alone, one, lead) {
            return true;
        }
    }
    false
}

/// Appends what to do first about a finding, unless one of the groups before has said so.
fn put_one_step(
    alloc: Global,
    alone: &[Finding],
    before: &[Finding],
    finding: &Finding,
    text: &mut Vec<u8>,
) -> Result<(), AllocError>
    ensures { OnOk result (text.new.items ≡ text.old.items ++ one_step_text
        (map finding_of alone.now) (map finding_of before.now) (finding_of finding.now)) }
{
    if any_step(alone, finding, before) {
        return Ok(());
    }
    put_made(step(alloc, finding), text)
}

/// Appends what to do first about the first finding of a group that is in no pair.
fn put_step(
    alloc: Global,
    alone: &[Finding],
    before: &[Finding],
    first: Option<&Finding>,
    text: &mut Vec<u8>,
) -> Result<(), AllocError>
    ensures { OnOk result (text.new.items ≡ text.old.items ++ step_text (map finding_of alone.now)
        (map finding_of before.now) (option_map (λ f. finding_of f.now) first.entry)) }
{
    match first {
        Some(first) => put_one_step(alloc, alone, before, first, text),
        None => Ok(()),
    }
}

/// The line of what to do first about a finding.
fn step(alloc: Global, finding: &Finding) -> Result<String, AllocError>
    ensures { IfOk result (λ text. string_bytes text
        ≡ codes "\tTo do: " ++ step_of (finding_of finding.now) ++ codes "\n") }
{
    let first = first_step_of(finding);
    format!(in alloc; "\tTo do: {first}\n")
}

/// Appends the group of a finding, behind groups of others.
fn put_group(
    alloc: Global,
    root: &str,
    sorted: &Sorted<'_>,
    before: &[Finding],
    finding: &Finding,
    text: &mut Vec<u8>,
) -> Result<(), AllocError>
    ensures { OnOk result (text.new.items ≡ text.old.items ++ group_text root.now
        (sorted_of sorted.now) (map finding_of before.now) (finding_of finding.now)) }
{
    let (files, code) = (finding.files, finding.line.code);
    put_made(head(alloc, &finding.object, files, code), text)?;
    put_members(alloc, finding, sorted.alone, text)?;
    put_respelt_members(alloc, finding, sorted.respelt, text)?;
    let first = first_with(finding, sorted.alone);
    put_step(alloc, sorted.alone, before, first, text)?;
    put_made(again(alloc, root, &finding.line.place), text)
}

/// How many findings are of the group of one.
fn count_with(one: &Finding, findings: &[Finding]) -> usize
    ensures { result ≡ count_of_one (finding_of one.now) (map finding_of findings.now) }
{
    let mut count = 0;
    for finding in findings {
        if is_with(one, finding) {
            count += 1;
        }
    }
    count
}

/// How many more findings a group has.
fn others(alloc: Global, count: usize) -> Result<String, AllocError>
    ensures { IfOk result (λ text. string_bytes text ≡ others_text count) }
{
    if count == 0 {
        return Ok(String::new(alloc));
    }
    some_others(alloc, count)
}

fn some_others(alloc: Global, count: usize) -> Result<String, AllocError>
    ensures { IfOk result
        (λ text. string_bytes text ≡ codes ", and " ++ decimal count ++ codes " more") }
{
    format!(in alloc; ", and {count} more")
}

/// How the one line of a group begins.
fn brief_head_of(alloc: Global, object: &Option<Place>) -> Result<String, AllocError>
    ensures { IfOk result (λ text. string_bytes text ≡ brief_head object.now) }
{
    match object {
        Some(object) => brief_object(alloc, object),
        None => String::from_str(alloc, "Elsewhere: "),
    }
}

fn brief_object(alloc: Global, object: &Place) -> Result<String, AllocError>
    ensures { IfOk result (λ text. string_bytes text ≡ brief_head (Some object.now)) }
{
    let path = path_of(alloc, object)?;
    format!(in alloc; "Object {path}: ")
}

/// Appends a finding of so many of a group.
fn put_brief_finding(
    alloc: Global,
    count: usize,
    finding: &Finding,
    text: &mut Vec<u8>,
) -> Result<(), AllocError>
    ensures { OnOk result (text.new.items ≡ text.old.items
        ++ brief_finding count (finding_of finding.now)) }
{
    let path = below(alloc, &finding.object, &finding.line.place)?;
    put_path_part(path.as_str(), text)?;
    put_words(&finding.line, text)?;
    put_made(others(alloc, count.saturating_sub(1)), text)
}

/// Appends a file under another spelling, which is two findings of so many.
fn put_brief_respelt(
    alloc: Global,
    count: usize,
    finding: &Finding,
    text: &mut Vec<u8>,
) -> Result<(), AllocError>
    ensures { OnOk result (text.new.items ≡ text.old.items
        ++ brief_respelt count (finding_of finding.now)) }
{
    put_respelt_said(alloc, finding, text)?;
    put_made(others(alloc, count.saturating_sub(2)), text)
}

/// Appends the first finding of a group that is in no pair, or without one its first pair.
fn put_brief_body(
    alloc: Global,
    count: usize,
    lead: &Finding,
    first: Option<&Finding>,
    text: &mut Vec<u8>,
) -> Result<(), AllocError>
    ensures { OnOk result (text.new.items ≡ text.old.items ++ brief_body count
        (finding_of lead.now) (option_map (λ f. finding_of f.now) first.entry)) }
{
    match first {
        Some(first) => put_brief_finding(alloc, count, first, text),
        None => put_brief_respelt(alloc, count, lead, text),
    }
}

/// Appends the group of a finding in one line.
fn put_brief(
    alloc: Global,
    sorted: &Sorted<'_>,
    finding: &Finding,
    text: &mut Vec<u8>,
) -> Result<(), AllocError>
    ensures { OnOk result (text.new.items ≡ text.old.items
        ++ brief_text (sorted_of sorted.now) (finding_of finding.now)) }
{
    let count = count_with(finding, sorted.all);
    put_made(brief_head_of(alloc, &finding.object), text)?;
    put_brief_body(
        alloc,
        count,
        finding,
        first_with(finding, sorted.alone),
        text,
    )?;
    text.push(b'\n')?;
    Ok(())
}

/// How many lines a text has.
fn count_lines(text: &[u8]) -> usize
    ensures { result ≡ line_count text.now }
{
    let mut count = 0;
    for byte in text {
        if *byte == b'\n' {
            count += 1;
        }
    }
    count
}

/// The group of a finding, behind groups of others: whole if that leaves a line of so many for each
/// of the groups behind it, and else in one line.
fn shown_group(
    alloc: Global,
    root: &str,
    sorted: &Sorted<'_>,
    room: usize,
    behind: usize,
    before: &[Finding],
    finding: &Finding,
) -> Result<Vec<u8>, AllocError>
    ensures { IfOk result (λ text. text.items ≡ text_of_group root.now (sorted_of sorted.now)
        room behind (map finding_of before.now) (finding_of finding.now)) }
{
    let mut whole = Vec::new(alloc);
    put_group(alloc, root, sorted, before, finding, &mut whole)?;
    if count_lines(whole.as_slice()) <= room.saturating_sub(behind) {
        return Ok(whole);
    }
    let mut brief = Vec::new(alloc);
    put_brief(alloc, sorted, finding, &mut brief)?;
    Ok(brief)
}

/// Whether one of some findings is of the group of another one.
fn any_with(one: &Finding, leads: &[Finding]) -> bool
    ensures { result ≡ list_any (λ g. are_of_one (finding_of one.now) (finding_of g)) leads.now }
{
    for lead in leads {
        if is_with(one, lead) {
            return true;
        }
    }
    false
}

/// Takes a finding as the first of its group, unless there is one.
fn add_lead(finding: &Finding, leads: &mut Vec<Finding>) -> Result<(), AllocError>
    ensures { OnOk result (map finding_of leads.new.items
        ≡ lead_with (map finding_of leads.old.items) (finding_of finding.now)) }
{
    if any_with(finding, leads.as_slice()) {
        return Ok(());
    }
    leads.push(finding.try_clone()?)?;
    Ok(())
}

/// The first finding of each group.
pub(crate) fn leads_of(alloc: Global, all: &[Finding]) -> Result<Vec<Finding>, AllocError>
    ensures { IfOk result
        (λ leads. map finding_of leads.items ≡ first_ones (map finding_of all.now)) }
{
    let mut leads = Vec::new(alloc);
    for finding in all {
        add_lead(finding, &mut leads)?;
    }
    Ok(leads)
}

/// The first findings of the groups that are shown in so many lines.
pub(crate) fn shown_leads(
    alloc: Global,
    all: &[Finding],
    room: usize,
) -> Result<Vec<Finding>, AllocError>
    ensures { IfOk result
        (λ leads. map finding_of leads.items ≡ ones_shown room (map finding_of all.now)) }
{
    let mut leads = leads_of(alloc, all)?;
    leads.truncate(room);
    Ok(leads)
}

/// Takes a finding that is of one of some groups.
fn add_led(leads: &[Finding], finding: &Finding, led: &mut Vec<Finding>) -> Result<(), AllocError>
    ensures { OnOk result (map finding_of led.new.items ≡ map finding_of led.old.items
        ++ led_by (map finding_of leads.now) (finding_of finding.now ∷ [])) }
{
    if any_with(finding, leads) {
        led.push(finding.try_clone()?)?;
    }
    Ok(())
}

/// The findings that are of one of some groups.
pub(crate) fn led(
    alloc: Global,
    leads: &[Finding],
    all: &[Finding],
) -> Result<Vec<Finding>, AllocError>
    ensures { IfOk result (λ led. map finding_of led.items
        ≡ led_by (map finding_of leads.now) (map finding_of all.now)) }
{
    let mut led = Vec::new(alloc);
    for finding in all {
        add_led(leads, finding, &mut led)?;
    }
    Ok(led)
}

/// Appends a group, and gives how many lines are left.
fn put_fitting(
    alloc: Global,
    root: &str,
    sorted: &Sorted<'_>,
    room: usize,
    behind: usize,
    before: &[Finding],
    finding: &Finding,
    text: &mut Vec<u8>,
) -> Result<usize, AllocError>
    ensures text { OnOk result (text.new.items ≡ text.old.items ++ text_of_group root.now
        (sorted_of sorted.now) room behind (map finding_of before.now) (finding_of finding.now)) }
    ensures room { IfOk result (λ left. left ≡ room - line_count (text_of_group root.now
        (sorted_of sorted.now) room behind (map finding_of before.now) (finding_of finding.now))) }
{
    let group = shown_group(alloc, root, sorted, room, behind, before, finding)?;
    text.extend_from_slice(group.as_slice())?;
    Ok(room.saturating_sub(count_lines(group.as_slice())))
}

/// Appends the groups of these findings, in so many lines.
fn put_all_groups(
    alloc: Global,
    root: &str,
    sorted: &Sorted<'_>,
    room: usize,
    leads: &[Finding],
    text: &mut Vec<u8>,
) -> Result<(), AllocError>
    ensures { OnOk result (text.new.items ≡ text.old.items ++ fit_text root.now
        (sorted_of sorted.now) room [] (map finding_of leads.now)) }
{
    let mut left = room;
    for index in 0..leads.len() {
        let (before, behind) = (&leads[..index], leads.len() - index - 1);
        left = put_fitting(
            alloc,
            root,
            sorted,
            left,
            behind,
            before,
            &leads[index],
            text,
        )?;
    }
    Ok(())
}

/// Appends the groups that these findings lead, in so many lines.
pub(crate) fn put_groups(
    alloc: Global,
    root: &str,
    all: &[Finding],
    room: usize,
    leads: &[Finding],
    text: &mut Vec<u8>,
) -> Result<(), AllocError>
    ensures { OnOk result (text.new.items ≡ text.old.items ++ fit_text root.now
        (sorted_findings (map finding_of all.now)) room [] (map finding_of leads.now)) }
{
    let respelt = find_respelt(alloc, all)?;
    let kept = find_kept(alloc, respelt.as_slice(), all)?;
    let alone = find_alone(alloc, kept.as_slice())?;
    let sorted = Sorted {
        all: kept.as_slice(),
        alone: alone.as_slice(),
        respelt: respelt.as_slice(),
    };
    put_all_groups(alloc, root, &sorted, room, leads, text)
}
