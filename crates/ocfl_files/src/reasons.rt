//! Why places of a storage root could not be read, in words.

ghost use Rattle.std.specs.Prelude.{◌≡◌, [], IfSome, None, Some, string_bytes};
ghost use Rattle.std.specs.Option.{option_map};
ghost use Rattle.ocfl_files.specs.Reasons.{IsCopy, Keeps, fuller, words_on};

use ocfl_tree::Place;
use std::alloc::{AllocError, Global};
use std::cell::Cell;
use std::io;

/// Of how many places the reason is kept at most.
const MOST: usize = 1_000;

/// A place, and why it could not be read.
#[derive(Drop)]
pub struct Reason {
    pub place: Place,
    pub words: String,
}

/// Why the places could not be read that were met last: those of up to 1,000 places.
#[derive(Drop)]
pub struct Reasons {
    kept: Vec<Reason>,
    /// That of the last call that failed.
    last: Option<String>,
}

/// A copy of some words. `None` if there are none, or no memory for them.
fn copy_of(alloc: Global, words: &Option<String>) -> Option<String>
    ensures { IsCopy (option_map string_bytes words.now) (option_map string_bytes result) }
{
    match words {
        Some(words) => String::from_str(alloc, words.as_str()).ok(),
        None => None,
    }
}

/// Why a place could not be read. `None` if there are no words, or no memory for them.
fn reason_of(alloc: Global, place: &Place, words: &Option<String>) -> Option<Reason>
    ensures place { IfSome result (λ reason. reason.place ≡ place.now) }
    ensures words { IfSome result (λ reason.
        option_map string_bytes words.now ≡ Some (string_bytes reason.words)) }
{
    let words = copy_of(alloc, words)?;
    match place.try_clone() {
        Ok(place) => Some(Reason { place, words }),
        Err(_) => None,
    }
}

impl Reasons {
    /// None.
    pub fn new(alloc: Global) -> Reasons
        ensures kept { result.kept.items ≡ [] }
        ensures last { result.last ≡ None }
    {
        Reasons {
            kept: Vec::new(alloc),
            last: None,
        }
    }

    /// Keeps why a place could not be read, if nothing is kept on it. What there is no memory for
    /// is not kept.
    fn keep_first(&mut self, alloc: Global, place: &Place, words: &Option<String>)
        ensures kept { Keeps place.now (option_map string_bytes words.now) self.old.kept.items
            self.new.kept.items }
        ensures last { self.new.last ≡ self.old.last }
    {
        if self.kept.len() >= MOST || self.find(place).is_some() {
            return;
        }
        if let Some(reason) = reason_of(alloc, place, words) {
            let _ = self.kept.push(reason);
        }
    }

    /// The same, and that this call failed last.
    fn keep(&mut self, alloc: Global, place: &Place, words: Option<String>)
        ensures kept { Keeps place.now (option_map string_bytes words) self.old.kept.items
            self.new.kept.items }
        ensures last { self.new.last ≡ words }
    {
        self.keep_first(alloc, place, &words);
        self.last = words;
    }

    /// All that is kept, but for why the last call failed, and what stays: that alone.
    fn split(self, alloc: Global) -> (Reasons, Reasons)
        ensures kept { result.0.kept ≡ self.kept }
        ensures no_last { result.0.last ≡ None }
        ensures none { result.1.kept.items ≡ [] }
        ensures last { result.1.last ≡ self.last }
    {
        let Reasons { kept, last } = self;
        let stays = Reasons {
            kept: Vec::new(alloc),
            last,
        };
        (Reasons { kept, last: None }, stays)
    }

    /// Why a place could not be read, if that is kept.
    pub fn find(&self, place: &Place) -> Option<&str>
        ensures { option_map (λ w. w.now) result ≡ words_on self.now.kept.items place.now }
    {
        find_in(&self.kept, place)
    }
}

/// The words that were kept first on a place.
pub fn find_in<'r>(kept: &'r [Reason], place: &Place) -> Option<&'r str>
    ensures { option_map (λ w. w.now) result ≡ words_on kept.now place.now }
{
    for reason in kept {
        if reason.place.cmp(place).is_eq() {
            return Some(reason.words.as_str());
        }
    }
    None
}

/// Keeps in a cell why a place could not be read; no words if there was no memory for them.
pub fn keep_reason(alloc: Global, cell: &Cell<Reasons>, place: &Place, words: Option<String>) {
    let mut reasons = cell.replace(Reasons::new(alloc));
    reasons.keep(alloc, place, words);
    cell.set(reasons);
}

/// Why the last call failed that did.
pub fn last_reason(alloc: Global, cell: &Cell<Reasons>) -> Option<String> {
    let reasons = cell.replace(Reasons::new(alloc));
    let last = copy_of(alloc, &reasons.last);
    cell.set(reasons);
    last
}

/// The words on a call that failed, or those of the last one that did if they begin with them.
fn fuller(last: Option<String>, words: String) -> String
    ensures { string_bytes result
        ≡ fuller (option_map string_bytes last) (string_bytes words) }
{
    match last {
        Some(last) if last.as_bytes().starts_with(words.as_bytes()) => last,
        _ => words,
    }
}

/// Why a call failed, with all that is kept of it if it is the last one that failed.
pub fn words_on(
    alloc: Global,
    cell: &Cell<Reasons>,
    error: io::Error,
) -> Result<String, AllocError> {
    let words = format!(in alloc; "{error}")?;
    Ok(fuller(last_reason(alloc, cell), words))
}

/// Takes all that is kept, but for why the last call failed.
pub fn take_reasons(alloc: Global, cell: &Cell<Reasons>) -> Reasons {
    let (reasons, stays) = cell.replace(Reasons::new(alloc)).split(alloc);
    cell.set(stays);
    reasons
}
