//! The messages of a night: the bytes of its report come in, and the text about what was found goes
//! out, which is said once an output has it.
ghost use Rattle.std.specs.Prelude.{◌≡◌, ◌<◌, ◌^◌, ◌++◌, ℕ, List, OnOk, IfOk, MatchResult, length, map, take};
ghost use Rattle.ocfl_report.specs.Line.{line_of};
ghost use Rattle.ocfl_messages.specs.Finding.{Finding as ModelFinding, finding_of};
ghost use Rattle.ocfl_messages.specs.Gravest.{IsOf, by_weight};
ghost use Rattle.ocfl_speaking.specs.Speaking.{first_run, is_over, last_run, line_with, lines_of, night_of, report_of, with_reason};

use crate::sifting::Sifting;
use ocfl_disk::StateFile;
use ocfl_files::reasons::Reasons;
use ocfl_kept::names::Names;
use ocfl_kept::stand::Standing;
use ocfl_messages::{Finding, Gravest, Heads, Known, Night, find_shown, night_text};
use ocfl_report::{Code, Line};
use std::alloc::{AllocError, Global};

/// What makes the messages of a night. After a failure, which is that memory ran out, each call
/// fails.
pub struct Speaker<'n> {
    alloc: Global,
    names: Names<'n>,
    known: &'n Known,
    /// Where the nights stood when all was said that there was to say.
    said_to: Standing,
    /// What was found since.
    sifting: Sifting,
    has_failed: bool,
    /// How many findings the messages have, and how many those that went out.
    findings: u64,
    gone: u64,
    /// The lines that were said.
    said: Vec<Line>,
}

/// Written by hand, so that to let it go is one call wherever that happens.
impl Drop for Speaker<'_> {
    fn drop(self) {
        let Speaker {
            alloc: _alloc,
            names: _names,
            known: _known,
            said_to: _said_to,
            sifting: _sifting,
            has_failed: _has_failed,
            findings: _findings,
            gone: _gone,
            said: _said,
        } = self;
    }
}

impl<'n> Speaker<'n> {
    ghost use Rattle.std.specs.Prelude.{◌≡◌, ◌==◌, OnOk, OnErr, IfOk, [], if◌then◌else◌, true};
    ghost use Rattle.ocfl_speaking.specs.Sifting.{Given, first_given, given_on};
    ghost use Rattle.ocfl_speaking.specs.Speaking.{IsGiven, IsSaid};

    /// What it says is of the runs after where the nights stand, whose first line may be in the
    /// object of `heads`.
    pub fn new(
        alloc: Global,
        names: Names<'n>,
        known: &'n Known,
        said_to: Standing,
        heads: Heads,
    ) -> Speaker<'n>
        ensures given { IsGiven result (first_given heads.last) }
        ensures names { result.names ≡ names.entry }
        ensures known { result.known ≡ known.entry }
        ensures said_to { result.said_to ≡ said_to }
        ensures findings { result.findings ≡ 0 }
        ensures gone { result.gone ≡ 0 }
        ensures said { result.said.items ≡ [] }
    {
        Speaker {
            alloc,
            names,
            known,
            said_to,
            sifting: Sifting::new(alloc, heads),
            has_failed: false,
            findings: 0,
            gone: 0,
            said: Vec::new(alloc),
        }
    }

    /// How many findings the messages have that went out.
    pub fn findings(&self) -> u64
        ensures { result ≡ self.now.gone }
    {
        self.gone
    }

    /// How many lines were no report lines.
    pub fn broken(&self) -> u64
        ensures { result ≡ self.now.sifting.broken }
    {
        self.sifting.broken()
    }

    /// Takes bytes of the report, which may begin and end within a line.
    pub fn take(&mut self, bytes: &[u8]) -> Result<(), AllocError>
        ensures given { OnOk result ((g : Given) → IsGiven self.old g
            → IsGiven self.new (given_on g bytes.now)) }
        ensures same { self.new ≡ record self.old
            { sifting = self.new.sifting; has_failed = self.new.has_failed } }
        ensures failed { OnErr result (self.new.has_failed ≡ true) }
    {
        if self.has_failed {
            return Err(AllocError);
        }
        let taken = self.sifting.take(self.alloc, self.known, bytes);
        self.has_failed = taken.is_err();
        taken
    }

    /// The text about what was found since the message before, where the nights stand now.
    /// `reasons` has why places could not be read, and `report` is the path of the report.
    pub fn message(
        &mut self,
        now: Standing,
        reasons: &Reasons,
        report: &str,
    ) -> Result<Vec<u8>, AllocError>
        ensures said { IfOk result (λ text. (g : Given) → IsGiven self.old g
            → IsSaid self.old self.new g now reasons.now report.entry text.items) }
        ensures failed { OnErr result (self.new.has_failed ≡ true) }
    {
        if self.has_failed {
            return Err(AllocError);
        }
        match self.say(now, reasons, report) {
            Ok(text) => Ok(text),
            Err(error) => {
                self.has_failed = true;
                Err(error)
            }
        }
    }

    /// The message, where nothing has failed.
    fn say(&mut self, now: Standing, reasons: &Reasons, report: &str) -> Result<Vec<u8>, AllocError>
        ensures { IfOk result (λ text. (g : Given) → IsGiven self.old g
            → IsSaid self.old self.new g now reasons.now report.entry text.items) }
    {
        let mut found = self.sifting.end(self.alloc, is_over(self.names.part, now))?;
        let shown = find_shown(self.alloc, &found);
        put_reasons(self.alloc, reasons, &mut found)?;
        let night = night_of(self.names, self.said_to, now, report);
        let text = night_text(self.alloc, &night, &found)?;
        self.findings = self.findings.saturating_add(count_of(&found));
        self.said_to = now;
        let _ = keep_shown(shown, &mut self.said);
        Ok(text)
    }

    /// Hears that the message went out.
    pub fn end(&mut self)
        ensures { self.new ≡ record self.old { gone = self.old.findings } }
    {
        self.gone = self.findings;
    }

    /// The lines that were said: of each message those of the findings that it shows. None if one
    /// of them did not go out that has findings.
    pub fn into_said(self) -> Vec<Line>
        ensures { result.items ≡ (if self.entry.findings == self.entry.gone
            then self.entry.said.items else []) }
    {
        let Speaker {
            alloc,
            names: _names,
            known: _known,
            said_to: _said_to,
            sifting: _sifting,
            has_failed: _has_failed,
            findings,
            gone,
            said,
        } = self;
        if findings == gone {
            said
        } else {
            Vec::new(alloc)
        }
    }
}

/// How many findings there were, at most 2^64 - 1.
fn count_of(found: &Gravest) -> u64
    ensures { (fs : List ModelFinding) → IsOf found.now fs → length (by_weight fs) < 2 ^ 64
        → result ≡ length (by_weight fs) }
{
    u64::try_from(found.count()).unwrap_or(u64::MAX)
}

/// Appends the lines of the findings that a message shows. If memory runs out only the first of
/// them are kept.
fn keep_shown(
    shown: Result<Vec<Finding>, AllocError>,
    said: &mut Vec<Line>,
) -> Result<(), AllocError>
    ensures all { IfOk shown (λ findings. OnOk result (map line_of said.new.items
        ≡ map line_of said.old.items ++ lines_of findings.items)) }
    ensures first { MatchResult shown (λ findings. (n : ℕ) × (map line_of said.new.items
        ≡ map line_of said.old.items ++ lines_of (take n findings.items)))
        (λ _. map line_of said.new.items ≡ map line_of said.old.items) }
{
    put_lines(&shown?, said)
}

/// Appends the lines of findings. If memory runs out only the first of them.
fn put_lines(findings: &[Finding], said: &mut Vec<Line>) -> Result<(), AllocError>
    ensures all { OnOk result (map line_of said.new.items
        ≡ map line_of said.old.items ++ lines_of findings.now) }
    ensures first { (n : ℕ) × (map line_of said.new.items
        ≡ map line_of said.old.items ++ lines_of (take n findings.now)) }
{
    for finding in findings {
        said.push(line_in(finding)?)?;
    }
    Ok(())
}

/// The line of a finding.
fn line_in(finding: &Finding) -> Result<Line, AllocError>
    ensures { IfOk result (λ line. line_of line ≡ (finding_of finding.now).line) }
{
    let Finding {
        line,
        object: _object,
        files: _files,
    } = finding.try_clone()?;
    Ok(line)
}

/// The number of the last run whose findings are said.
fn last_run(now: Standing) -> u64
    ensures { result ≡ last_run now }
{
    now.runs.max(1)
}

/// The number of the first run whose findings are said. What earlier nights left unsaid may be of
/// any run.
fn first_run(said_to: Standing, now: Standing) -> u64
    ensures { result ≡ first_run said_to now }
{
    let before = said_to.runs_before(now);
    if before < last_run(now) {
        before + 1
    } else {
        1
    }
}

/// The file that will have the report once the night is over.
pub fn report_of(now: Standing) -> StateFile
    ensures { result ≡ report_of now }
{
    if !now.has_ended || now.is_closed {
        return StateFile::Report;
    }
    if now.is_whole {
        StateFile::Whole(now.cycle)
    } else {
        StateFile::Incomplete(now.cycle)
    }
}

/// Whether no more lines come of any object: a part may end within one.
fn is_over(part: Option<u64>, now: Standing) -> bool
    ensures { result ≡ is_over part now }
{
    part.is_none() && now.has_ended
}

/// What a message says of its night, once all was said up to where the nights stood there.
fn night_of<'a>(names: Names<'a>, said_to: Standing, now: Standing, report: &'a str) -> Night<'a>
    ensures { result ≡ night_of names.entry said_to now report.entry }
{
    Night {
        root: names.root,
        part: names.part,
        cycle: now.cycle,
        first: first_run(said_to, now),
        last: last_run(now),
        report,
    }
}

/// Puts why its place could not be read into a line that says no more than that.
fn put_reason(alloc: Global, reasons: &Reasons, line: &mut Line) -> Result<(), AllocError>
    ensures { OnOk result (line_of line.new ≡ line_with reasons.now (line_of line.old)) }
{
    if matches!(line.code, Code::S08) {
        if let Some(words) = reasons.find(&line.place) {
            line.detail = String::from_str(alloc, words)?;
        }
    }
    Ok(())
}

/// Puts why their places could not be read into findings.
fn put_reasons_of(
    alloc: Global,
    reasons: &Reasons,
    findings: &mut Vec<Finding>,
) -> Result<(), AllocError>
    ensures { OnOk result (map finding_of findings.new.items
        ≡ map (with_reason reasons.now) (map finding_of findings.old.items)) }
{
    for index in 0..findings.len() {
        put_reason(alloc, reasons, &mut findings[index].line)?;
    }
    Ok(())
}

/// Puts why places could not be read into what a message says of them.
fn put_reasons(alloc: Global, reasons: &Reasons, found: &mut Gravest) -> Result<(), AllocError>
    ensures { OnOk result ((fs : List ModelFinding) → IsOf found.old fs
        → IsOf found.new (map (with_reason reasons.now) fs)) }
{
    put_reasons_of(alloc, reasons, &mut found.bytes.first)?;
    put_reasons_of(alloc, reasons, &mut found.objects.first)?;
    put_reasons_of(alloc, reasons, &mut found.records.first)?;
    put_reasons_of(alloc, reasons, &mut found.positions.first)
}
