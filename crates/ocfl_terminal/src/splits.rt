//! Splitting a storage root: the text of the separators goes to standard output.
ghost use Rattle.std.specs.Prelude.{◌≡◌, ◌<◌, ◌≤◌, Err, MatchResult, OnOk, length};
ghost use Rattle.std.specs.Io.KnownBytes.{Appends};
ghost use Rattle.ocfl_separators.specs.{Parts.{max_bytes}, Separators.{parts_text}};
ghost use Rattle.ocfl_terminal.specs.Status.{report_status, unread_by, unsplit_status};

use ocfl_arguments::Split;
use ocfl_files::heard::Heard;
use ocfl_files::saying::{STOPPED, USAGE, say};
use ocfl_folder::FsTree;
use ocfl_item::Fault;
use ocfl_report::{DisplayPlace, write_all_of};
use ocfl_separators::{MAX_BYTES, Separators, SplitStop, put_parts, split_by};
use ocfl_split::split;
use ocfl_tree::Place;
use std::alloc::Global;
use std::fs::File;
use std::io::{self, BufReader, Write};
use std::rt::{Env, Files};

/// Why no separators are made.
#[derive(Drop)]
enum NotSplit {
    /// The store did not answer at this place, and why if that is known.
    Store(Place, Option<io::Error>),
    /// The report was not split.
    Report(SplitStop),
    /// The report could not be read.
    Unread(io::Error),
    /// The separators' text would be longer than is read again.
    TooLong,
    Output,
    Memory,
}

/// Says that a report was not split, and gives the status.
fn say_bad_report<R: Eprint>(rt: &R, stop: &SplitStop) -> u8
    ensures { result ≡ report_status stop.now }
{
    let _ = eprintln!(rt; "ocfl-scrub: {stop}");
    match stop {
        SplitStop::Line(_) | SplitStop::Many => USAGE,
        SplitStop::Read | SplitStop::Memory => STOPPED,
    }
}

/// Says where a store did not answer, and why if that is known.
fn say_stopped_at<R: Eprint>(rt: &R, place: &Place, why: &Option<io::Error>) {
    let place = DisplayPlace(place);
    let _ = eprintln!(rt; "ocfl-scrub: stopped at {place}");
    if let Some(why) = why {
        let _ = eprintln!(rt; "ocfl-scrub: {place}: {why}");
    }
}

/// Says why no separators are made, and gives the status.
fn say_unsplit<R: Eprint>(rt: &R, why: &NotSplit) -> u8
    ensures { result ≡ unsplit_status why.now }
{
    match why {
        NotSplit::Store(place, why) => say_stopped_at(rt, place, why),
        NotSplit::Report(stop) => return say_bad_report(rt, stop),
        NotSplit::Unread(error) => {
            let _ = eprintln!(rt; "ocfl-scrub: report failed: {error}");
        }
        NotSplit::TooLong => {
            say(rt, "too many parts");
            return USAGE;
        }
        NotSplit::Output => say(rt, "output failed"),
        NotSplit::Memory => say(rt, "out of memory"),
    }
    STOPPED
}

/// Makes the separators that are asked for.
fn make_separators<R>(rt: &R, asked: &Split) -> Result<Separators, NotSplit>
where
    R: Files + Env + AllocGlobal,
{
    match asked {
        Split::Listing { count, root } => split_by_listing(rt, *count, root.as_str()),
        Split::Report { budget, report } => { split_by_report(rt, *budget, report.as_str()) }
    }
}

/// The separators by what is listed of a folder.
fn split_by_listing<R>(rt: &R, count: usize, root: &str) -> Result<Separators, NotSplit>
where
    R: Files + Env + AllocGlobal,
{
    let Ok(mut store) = FsTree::entering(rt, root) else {
        return Err(NotSplit::Memory);
    };
    match split(rt.alloc(), &mut store, count) {
        Ok(separators) => Ok(separators),
        Err(Fault::Store(place)) => Err(NotSplit::Store(place, store.reason())),
        Err(Fault::Memory) => Err(NotSplit::Memory),
    }
}

/// The separators by the costs in a file of a report.
fn split_by_report<R>(rt: &R, budget: u64, file: &str) -> Result<Separators, NotSplit>
where
    R: Files + AllocGlobal,
{
    let opened = match File::open(rt, file) {
        Ok(opened) => opened,
        Err(error) => return Err(unread(SplitStop::Read, Some(error))),
    };
    let Ok(mut report) = BufReader::new(rt.alloc(), Heard::new(opened)) else {
        return Err(NotSplit::Report(SplitStop::Memory));
    };
    match split_by(rt.alloc(), &mut report, budget) {
        Ok(separators) => Ok(separators),
        Err(stop) => Err(unread(stop, report.get_ref().error())),
    }
}

/// Why a report was not split, with the system's words if it could not be read.
fn unread(stop: SplitStop, error: Option<io::Error>) -> NotSplit
    ensures { result ≡ unread_by stop error }
{
    let SplitStop::Read = stop else {
        return NotSplit::Report(stop);
    };
    let Some(error) = error else {
        return NotSplit::Report(stop);
    };
    match error.kind() {
        io::ErrorKind::OutOfMemory => NotSplit::Report(SplitStop::Memory),
        _ => NotSplit::Unread(error),
    }
}

/// Writes the text of separators. Refuses a text that could not be read again.
fn write_separators<W: Write>(
    alloc: Global,
    separators: &Separators,
    out: &mut W,
) -> Result<(), NotSplit>
    ensures written { OnOk result
        (Appends (W.contents out.old) (W.contents out.new) (parts_text separators.now)) }
    ensures fits { OnOk result (length (parts_text separators.now) ≤ max_bytes) }
    ensures long { result ≡ Err NotSplit.TooLong → max_bytes < length (parts_text separators.now) }
{
    let mut text = Vec::new(alloc);
    if put_parts(separators, &mut text).is_err() {
        return Err(NotSplit::Memory);
    }
    if text.len() > MAX_BYTES {
        return Err(NotSplit::TooLong);
    }
    match write_all_of(out, &text) {
        Ok(()) => Ok(()),
        Err(_) => Err(NotSplit::Output),
    }
}

/// Says why no separators were written, if they were not, and gives the exit status.
fn end_split<R: Eprint>(rt: &R, written: &Result<(), NotSplit>) -> u8
    ensures { MatchResult written.now (λ _. result ≡ 0) (λ why. result ≡ unsplit_status why) }
{
    match written {
        Ok(()) => 0,
        Err(why) => say_unsplit(rt, why),
    }
}

/// Splits a storage root, and gives the exit status.
pub fn split_root<R>(rt: &R, asked: &Split) -> u8
where
    R: Files + Env + AllocGlobal + Print + Eprint,
{
    let written = match make_separators(rt, asked) {
        Ok(separators) => write_separators(rt.alloc(), &separators, &mut io::writer(rt)),
        Err(stop) => Err(stop),
    };
    end_split(rt, &written)
}
