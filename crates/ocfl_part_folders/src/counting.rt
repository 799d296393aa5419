//! What a joined report counts.
ghost use Rattle.std.specs.Prelude.{◌≡◌, ◌++◌, List, Option, IfOk, IfSome, OnOk};
ghost use Rattle.std.specs.Option.{option_map, option_to_list};
ghost use Rattle.ocfl_report.specs.Line.{Line as ModelLine, line_of as line_from};
ghost use Rattle.ocfl_messages.specs.Tally.{IsTally};
ghost use Rattle.ocfl_part_folders.specs.Counting.{CountsAs, HasCounts};

use ocfl_join_disk::next_line;
use ocfl_messages::{Counts, Tally};
use ocfl_report::{Line, TextStop, read_line};
use ocfl_words::error_of;
use std::alloc::Global;
use std::io::{self, BufRead, ErrorKind};

/// A line of a report. `None` if it begins as one that finds nothing, and is not one.
fn line_of(alloc: Global, text: &[u8]) -> io::Result<Option<Line>>
    ensures { IfOk result (λ line. CountsAs text.now (option_map line_from line)) }
{
    match read_line(alloc, text) {
        Ok(line) => Ok(Some(line)),
        Err(TextStop::Bad) if text.starts_with(b"ok\t") => Ok(None),
        Err(stop) => Err(error_of(stop)),
    }
}

/// Counts a line, if it is one.
fn count_line(tally: &mut Tally, line: &Option<Line>) -> io::Result<()>
    ensures { OnOk result ((ls : List ModelLine) → IsTally tally.old ls
        → IsTally tally.new (ls ++ option_to_list (option_map line_from line.now))) }
{
    if let Some(line) = line {
        tally.add(line)?;
    }
    Ok(())
}

/// Counts the next line of a report.
fn count_text(alloc: Global, tally: &mut Tally, text: &[u8]) -> io::Result<()>
    ensures { OnOk result ((line : Option ModelLine) × (CountsAs text.now line
        × ((ls : List ModelLine) → IsTally tally.old ls
        → IsTally tally.new (ls ++ option_to_list line)))) }
{
    let line = line_of(alloc, text)?;
    count_line(tally, &line)
}

/// What a report counts, which is read to its end.
pub(crate) fn counts_of<B: BufRead>(alloc: Global, report: &mut B) -> io::Result<Counts>
    ensures { IfOk result (λ counts.
        IfSome (B.remaining report.old) (λ bytes. HasCounts bytes counts)) }
{
    let mut tally = Tally::new();
    let mut text = Vec::new(alloc);
    for _ in 0..u64::MAX {
        let more = next_line(report, &mut text)?;
        if more {
            count_text(alloc, &mut tally, text.as_slice())?;
        } else {
            return Ok(tally.counts());
        }
    }
    Err(io::Error::from(ErrorKind::InvalidData))
}
