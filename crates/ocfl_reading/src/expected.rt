//! The list of the objects that must be there.
ghost use Rattle.std.specs.Prelude.{◌≡◌, ◌≢◌, ◌-◌, ◌^◌, ◌⊎◌, [], IfErr, IfOk, IfSome, IsErr};
ghost use Rattle.std.specs.Prelude.{IsNone, IsOk, List, MatchResult, Ok, OnOk, ℕ, false, length};
ghost use Rattle.std.specs.Prelude.{min, string_bytes, true};
ghost use Rattle.std.specs.Io.{BufRead.{take_through}, Buffered.{reader_inner}};
ghost use Rattle.std.specs.Io.KnownBytes.{Consumes, IsAtEnd};
ghost use Rattle.ocfl_tree.specs.Place.{Place as ModelPlace, Text};
ghost use Rattle.ocfl_compare.specs.Listed.{IsBadListLine, IsList};
ghost use Rattle.ocfl_joining.specs.Within.{places_within};
ghost use Rattle.ocfl_files.specs.Failing.{OrMemory, Says, file_line, out_of_memory};
ghost use Rattle.ocfl_files.specs.Failing.{stopped_status};
ghost use Rattle.ocfl_files.specs.Hearing.{HasHeard};
ghost use Rattle.ocfl_reading.specs.Using.{IsWhy, RefusesOn, StopsFor, missing_unknown};

use crate::refusing::{refused, words_on};
use ocfl_compare::{ListStop, read_list};
use ocfl_cursor::PartEnds;
use ocfl_files::failing::Failure;
use ocfl_files::heard::{Heard, HeardReader};
use ocfl_joining::find_within;
use ocfl_report::{InputStop, read_next_line};
use ocfl_tree::Place;
use std::alloc::{AllocError, Global};
use std::fs::File;
use std::io::{self, BufRead, BufReader, Read};
use std::rt::Files;

/// How many lines a list of objects may have.
const MOST_LINES: u64 = 10_000_000;

/// The objects that must be there.
#[derive(Drop)]
pub struct Listed {
    pub places: Vec<Place>,
    /// The SHA-256 of the list's bytes, in hexadecimal digits.
    pub digits: String,
}

impl Listed {
    /// Those that are in the part with these ends.
    pub fn within(self, alloc: Global, ends: &PartEnds) -> Result<Listed, AllocError>
        ensures places { IfOk result (λ listed. listed.places.items
            ≡ places_within ends.now.from ends.now.below self.places.items) }
        ensures digits { IfOk result (λ listed. listed.digits ≡ self.digits) }
    {
        let Listed { places, digits } = self;
        let places = find_within(alloc, &ends.from, &ends.below, &places)?;
        Ok(Listed { places, digits })
    }
}

/// The words on a list of which the objects are not known: the reader's if it failed.
fn why_stopped(
    alloc: Global,
    stop: ListStop,
    error: Option<io::Error>,
) -> Result<String, AllocError>
    ensures { stop ≡ ListStop.Memory → IsErr result }
{
    match (stop, error) {
        (ListStop::Memory, _) => Err(AllocError),
        (ListStop::Failed, Some(error)) => format!(in alloc; "{error}"),
        (ListStop::Line(_), _) => format!(in alloc;
            "{stop}: it is no path of an object below the storage root as reports write it"
        ),
        _ => format!(in alloc; "{stop}"),
    }
}

/// Why the objects that must be there are not known.
fn why_unlisted(
    alloc: Global,
    file: &str,
    stop: ListStop,
    error: Option<io::Error>,
) -> Result<String, AllocError>
    ensures said { IfOk result (λ why. IsWhy file.now (string_bytes why)) }
    ensures memory { stop ≡ ListStop.Memory → IsErr result }
{
    let words = why_stopped(alloc, stop, error)?;
    words_on(alloc, file, words.as_str())
}

/// A reader of a list that was opened. Fails with what is to be said, or with no memory for it.
fn reader_of<F>(
    alloc: Global,
    file: &str,
    opened: io::Result<F>,
) -> Result<HeardReader<F>, Result<String, AllocError>>
where
    F: Read + Drop,
    ensures file { IfOk result (λ reader. opened ≡ Ok (reader_inner reader.reader).file) }
    ensures heard { IfOk result (λ reader. HasHeard (reader_inner reader.reader) []) }
    ensures failed { IsErr opened → IsErr result }
    ensures said { IfErr result (λ why. IfOk why (λ why. IsWhy file.now (string_bytes why))) }
{
    match opened {
        Ok(opened) => match HeardReader::new(alloc, opened) {
            Ok(reader) => Ok(reader),
            Err(error) => Err(Err(error)),
        },
        Err(error) => Err(why_unlisted(alloc, file, ListStop::Failed, Some(error))),
    }
}

/// Takes the next line of a list with its line feed, or whatever is left, in place of what `text`
/// had. Gives false at its end.
fn take_line<B: BufRead>(list: &mut B, text: &mut Vec<u8>) -> Result<bool, ListStop>
    ensures line { OnOk result (IfSome (B.remaining list.old)
        (λ bytes. text.new.items ≡ take_through 10 bytes)) }
    ensures rest { Consumes (B.remaining list.old) (B.remaining list.new) text.new.items }
    ensures more { IfOk result (λ more. more ≡ true → text.new.items ≢ []) }
    ensures end { IfOk result (λ more. more ≡ false → IsAtEnd (B.remaining list.old)) }
    ensures stop { IfErr result (λ stop.
        (stop ≡ ListStop.Memory) ⊎ (stop ≡ ListStop.Failed)) }
{
    match read_next_line(list, text) {
        Ok(is_line) => Ok(is_line),
        Err(InputStop::Memory) => Err(ListStop::Memory),
        Err(InputStop::Failed) => Err(ListStop::Failed),
    }
}

/// How many paths are in the line of a list with a number.
fn count_in(alloc: Global, text: &[u8], number: u64) -> Result<usize, ListStop>
    ensures ok { IfOk result (λ count. (places : List ModelPlace)
        × (IsList text.now places × (count ≡ length places))) }
    ensures bad { IfErr result (λ stop. (n : ℕ) → stop ≡ ListStop.Line n
        → (n ≡ number) × ((m : ℕ) × IsBadListLine text.now m)) }
{
    let mut text = text;
    match read_list(alloc, &mut text) {
        Ok(places) => Ok(places.len()),
        Err(ListStop::Line(_)) => Err(ListStop::Line(number)),
        Err(stop) => Err(stop),
    }
}

/// How many paths a list has, of which it holds one line at a time.
fn count_paths<B: BufRead>(alloc: Global, list: &mut B) -> Result<usize, ListStop>
    ensures { IfOk result (λ count. IfSome (B.remaining list.old) (λ bytes.
        (places : List ModelPlace) × (IsList bytes places
        × (count ≡ min (length places) (2 ^ 64 - 1))))) }
{
    let mut text = Vec::new(alloc);
    let mut count: usize = 0;
    for number in 1..MOST_LINES + 2 {
        if !take_line(list, &mut text)? {
            return Ok(count);
        }
        count = count.saturating_add(count_in(alloc, text.as_slice(), number)?);
    }
    Err(ListStop::Long)
}

/// Refuses a list that cannot be read, or that names no object, so that this is not found out at
/// the end of a cycle.
pub fn refuse_unfit<R>(rt: &R, file: Option<&str>) -> Result<(), Failure>
where
    R: Files + AllocGlobal,
    ensures none { IsNone file.entry → IsOk result }
    ensures refused { IfSome file.entry (λ file. IfErr result (OrMemory (RefusesOn file.now))) }
{
    match file {
        Some(file) => refuse_opened(rt.alloc(), file, File::open(rt, file)),
        None => Ok(()),
    }
}

/// Refuses a list that was opened and cannot be read, or that names no object.
fn refuse_opened<F>(alloc: Global, file: &str, opened: io::Result<F>) -> Result<(), Failure>
where
    F: Read + Drop,
    ensures failed { IsErr opened → IsErr result }
    ensures refused { IfErr result (OrMemory (RefusesOn file.now)) }
{
    match reader_of(alloc, file, opened) {
        Ok(mut list) => refuse_read(alloc, file, &mut list),
        Err(why) => Err(refused(line_of(why))),
    }
}

/// Refuses a list that cannot be read, or that names no object.
fn refuse_read<F>(alloc: Global, file: &str, list: &mut HeardReader<F>) -> Result<(), Failure>
where
    F: Read + Drop,
    ensures fit { OnOk result (IfSome
        (⟦<BufReader<Heard<F>> as Read>⟧.remaining list.old.reader) (λ bytes.
        (places : List ModelPlace) × (IsList bytes places × (places ≢ [])))) }
    ensures refused { IfErr result (OrMemory (RefusesOn file.now)) }
{
    match find_unfit(alloc, file, list) {
        Some(why) => Err(refused(line_of(why))),
        None => Ok(()),
    }
}

/// The line that says why a list cannot be used.
fn line_of(why: Result<String, AllocError>) -> Result<String, AllocError>
    ensures { (file : Text) → IfOk why (λ why. IsWhy file (string_bytes why))
        → IfOk result (λ line. (words : Text) × (string_bytes line ≡ file_line file words)) }
{
    let mut line = why?;
    line.push('\n')?;
    Ok(line)
}

/// Why a list cannot be read, or that it names no object. `None` if it can be used.
fn find_unfit<F>(
    alloc: Global,
    file: &str,
    list: &mut HeardReader<F>,
) -> Option<Result<String, AllocError>>
where
    F: Read + Drop,
    ensures fit { IsNone result → IfSome
        (⟦<BufReader<Heard<F>> as Read>⟧.remaining list.old.reader) (λ bytes.
        (places : List ModelPlace) × (IsList bytes places × (places ≢ []))) }
    ensures said { IfSome result (λ why. IfOk why (λ why. IsWhy file.now (string_bytes why))) }
{
    match count_paths(alloc, &mut list.reader) {
        Ok(0) => Some(words_on(alloc, file, "it names no object")),
        Ok(_) => None,
        Err(stop) => Some(why_unlisted(alloc, file, stop, list.error())),
    }
}

/// The objects that a file lists, if it could be opened.
pub fn read_expected(alloc: Global, file: &str, opened: io::Result<File>) -> Result<Listed, Failure>
    ensures failed { IsErr opened → IsErr result }
    ensures said { IfErr result (OrMemory (StopsFor file.now)) }
{
    match reader_of(alloc, file, opened) {
        Ok(list) => listed_in(alloc, file, list),
        Err(why) => Err(unlisted(alloc, why)),
    }
}

/// The objects that an opened file lists.
fn listed_in<F>(alloc: Global, file: &str, list: HeardReader<F>) -> Result<Listed, Failure>
where
    F: Read + Drop,
    ensures list { IfOk result (λ listed. IfSome
        (⟦<BufReader<Heard<F>> as Read>⟧.remaining list.reader)
        (λ bytes. IsList bytes listed.places.items)) }
    ensures said { IfErr result (OrMemory (StopsFor file.now)) }
{
    let mut list = list;
    match read_list(alloc, &mut list.reader) {
        Ok(places) => Ok(Listed {
            places,
            digits: list.into_digits(alloc)?,
        }),
        Err(stop) => Err(unlisted(alloc, why_unlisted(alloc, file, stop, list.error()))),
    }
}

/// Why the objects that must be there are not known, or that there was no memory to say why.
fn unlisted(alloc: Global, why: Result<String, AllocError>) -> Failure
    ensures { MatchResult why
        (λ why. OrMemory (Says stopped_status (missing_unknown (string_bytes why))) result)
        (λ _. result ≡ out_of_memory) }
{
    match why {
        Ok(why) => Failure::saying(format!(in alloc;
            "{why}: which of its objects are missing is not known\n"
        )),
        Err(error) => Failure::from(error),
    }
}
