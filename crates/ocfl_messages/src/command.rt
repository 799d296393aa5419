//! A command to paste that looks at a place again.
ghost use Rattle.std.specs.Prelude.{◌≡◌, ◌++◌, ◌==◌, IfOk, codes, string_bytes};
ghost use Rattle.std.specs.List.{list_any};
ghost use Rattle.ocfl_messages.specs.{Command.{again_text, check_text, dashes_text, is_plain as is_plain_text, over_text, path_text}, Quoted.{quoted}};

use crate::quoted::{Quoted, has_control};
use crate::shown::Shown;
use ocfl_report::DisplayPlace;
use ocfl_tree::Place;
use std::alloc::{AllocError, Global};

/// The line that says how to look at a place again. Empty if no command can be pasted.
pub(crate) fn again(alloc: Global, root: &str, place: &Place) -> Result<String, AllocError>
    ensures { IfOk result (λ text. string_bytes text ≡ again_text root.now place.now) }
{
    if has_control(root) {
        return Ok(String::new(alloc));
    }
    let path = path_of(alloc, place)?;
    again_at(alloc, root, path.as_str())
}

fn again_at(alloc: Global, root: &str, path: &str) -> Result<String, AllocError>
    ensures { IfOk result (λ text. string_bytes text
        ≡ codes "\tTo look again: " ++ check_text root.now path.now ++ codes "\n") }
{
    let check = check(alloc, root, path)?;
    format!(in alloc; "\tTo look again: {check}\n")
}

/// A command over a file. The path alone, escaped, if it has a control character.
pub(crate) fn over(alloc: Global, command: &str, file: &str) -> Result<String, AllocError>
    ensures { IfOk result (λ text. string_bytes text ≡ over_text command.now file.now) }
{
    if has_control(file) {
        return format!(in alloc; "{}", Shown(file));
    }
    over_plain(alloc, command, file)
}

fn over_plain(alloc: Global, command: &str, file: &str) -> Result<String, AllocError>
    ensures { IfOk result
        (λ text. string_bytes text ≡ command.now ++ codes " " ++ quoted file.now) }
{
    let file = Quoted(file);
    format!(in alloc; "{command} {file}")
}

/// The command that looks at this path of a storage root.
fn check(alloc: Global, root: &str, path: &str) -> Result<String, AllocError>
    ensures { IfOk result (λ text. string_bytes text ≡ check_text root.now path.now) }
{
    let dashes = dashes(path);
    let (root, path) = (Quoted(root), Quoted(path));
    format!(in alloc; "ocfl-scrub check {dashes}{root} {path}")
}

/// What keeps a path from being read as an option.
fn dashes(path: &str) -> &'static str
    ensures { result.now ≡ dashes_text path.now }
{
    match path.as_bytes().first() {
        Some(b'-') => "-- ",
        _ => "",
    }
}

/// The path of a place as `ocfl-scrub check` takes it: as it is if that is plain, else as reports
/// write it.
pub(crate) fn path_of(alloc: Global, place: &Place) -> Result<String, AllocError>
    ensures { IfOk result (λ text. string_bytes text ≡ path_text place.now) }
{
    let path = place.path();
    if is_plain(path) {
        return String::from_str(alloc, path);
    }
    format!(in alloc; "{}", DisplayPlace(place))
}

/// Whether a terminal shows a path as it is, and it is no path of a report of another place.
fn is_plain(path: &str) -> bool
    ensures { result ≡ is_plain_text path.now }
{
    !path.is_empty() && !has_control(path) && !has_percent(path)
}

fn has_percent(path: &str) -> bool
    ensures { result ≡ list_any (λ c. c == 37) path.now }
{
    path.as_bytes().contains(&b'%')
}
