//! Paths of items as users write them: as reports do, or by the names themselves.
ghost use Rattle.std.specs.Prelude.{◌≡◌, IfOk, MatchOption, OnOk, find, option_map, string_bytes};
ghost use Rattle.ocfl_tree.specs.Path.{elements, names_of};
ghost use Rattle.ocfl_inventory.specs.ListedPath.{is_empty_or_dots};
ghost use Rattle.ocfl_report.specs.Text.{place_text};
ghost use Rattle.ocfl_terminal.specs.Paths.{IsAsReports, IsByNames, IsRespelt, Stays, begins_or_ends_with_slash};
ghost use Rattle.ocfl_terminal.specs.Paths.{name_fault_text, no_place_text};

use ocfl_report::{DisplayPlace, TextStop, read_place};
use ocfl_tree::{Place, is_text};
use std::alloc::{AllocError, Global};

/// Makes a word the text of a path as reports write it. A word that reads so stays as it is;
/// another is the path by its names; one that is the path of no place stays as it is.
pub(crate) fn write_as_reports(alloc: Global, word: &mut String) -> Result<(), AllocError>
    ensures { OnOk result (IsAsReports (string_bytes word.old) (string_bytes word.new)) }
{
    match respell(alloc, word.as_str())? {
        Some(text) => *word = text,
        None => {}
    }
    Ok(())
}

/// A word as reports write the path that it is by its names. `None` if the word stays as it is.
#[tactic(auto, using(crate::proofs::Respelling::stays_reported))]
fn respell(alloc: Global, word: &str) -> Result<Option<String>, AllocError>
    ensures { IfOk result
        (λ o. MatchOption o (Stays word.now) (λ text. IsRespelt word.now (string_bytes text))) }
{
    match read_place(alloc, word.as_bytes()) {
        Ok(_) => Ok(None),
        Err(TextStop::Memory) => Err(AllocError),
        Err(TextStop::Bad) => text_by_names(alloc, word),
    }
}

/// The text of the place below the root with this path. `None` if no place there has it.
fn text_by_names(alloc: Global, word: &str) -> Result<Option<String>, AllocError>
    ensures { IfOk result (λ o. MatchOption o (IsByNames word.now → ⊥)
        (λ text. IsByNames word.now × (string_bytes text ≡ place_text (names_of word.now)))) }
{
    let Some(place) = Place::from_path(String::from_str(alloc, word)?) else {
        return Ok(None);
    };
    if place.depth() == 0 {
        return Ok(None);
    }
    Ok(Some(format!(in alloc; "{}", DisplayPlace(&place))?))
}

/// Whether a name is empty, `.` or `..`.
fn is_empty_or_dots(name: &str) -> bool
    ensures { result ≡ is_empty_or_dots name.now }
{
    is_text(name, "") || is_text(name, ".") || is_text(name, "..")
}

/// The first name of a path that is empty, `.` or `..`.
fn find_fault(path: &str) -> Option<&str>
    ensures { option_map (λ name. name.now) result ≡ find is_empty_or_dots (elements path.now) }
{
    path.split('/').find(|name| is_empty_or_dots(name))
}

/// Whether a path begins or ends with a slash.
fn is_slashed(path: &str) -> bool
    ensures { result ≡ begins_or_ends_with_slash path.now }
{
    path.starts_with('/') || path.ends_with('/')
}

/// Why a path names no place, by the first of its names that is empty, `.` or `..`.
fn why_by_name(fault: Option<&str>) -> &'static str
    ensures { result.now ≡ name_fault_text (option_map (λ name. name.now) fault.entry) }
{
    match fault {
        Some("") => "the path has an empty name between two slashes",
        Some(_) => "no name in the path may be '.' or '..'",
        None => "the path has a name that no file can have",
    }
}

/// Why a path names no place.
pub fn why_no_place(path: &str) -> &'static str
    ensures { result.now ≡ no_place_text path.now }
{
    if path.is_empty() {
        return "the path is empty: the storage root itself is '.'";
    }
    if is_slashed(path) {
        return "give the path below the storage root, without a slash at its beginning or end";
    }
    why_by_name(find_fault(path))
}
