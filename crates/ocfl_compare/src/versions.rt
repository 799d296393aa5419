//! What became of an object's root inventory, by what two reports note that it is.
ghost use Rattle.std.specs.Prelude.{◌≡◌, ◌∷◌, [], Option, Some, None, if◌then◌else◌};
ghost use Rattle.ocfl_tree.specs.Place.{text_eq};
ghost use Rattle.ocfl_compare.specs.Versions.{after_space as text_after_space, head_of as head_of_note};
ghost use Rattle.ocfl_compare.specs.Versions.{is_note as is_note_code, moved as moved_between};
ghost use Rattle.ocfl_compare.specs.Versions.{number_of as number_of_version, version_of as version_of_note};

use crate::change::Change;
use ocfl_codes::is_version_name;
use ocfl_report::Code;

/// Whether lines of the code note what a root inventory is.
pub(crate) fn is_note(code: Code) -> bool
    ensures { result ≡ is_note_code code }
{
    matches!(code, Code::S09)
}

/// What follows the first space of a text; nothing without one.
fn after_space(text: &str) -> &str
    ensures { result.now ≡ text_after_space text.now }
{
    match text.split_once(' ') {
        Some((_, rest)) => rest,
        None => "",
    }
}

/// The version that a note names as the newest: empty if it names none.
fn head_of(note: &str) -> &str
    ensures { result.now ≡ head_of_note note.now }
{
    after_space(after_space(note))
}

/// The number in the name of a version. `None` of another text, and of a number of more than 64
/// bits.
fn number_of(version: &str) -> Option<u64>
    ensures { result ≡ number_of_version version.now }
{
    if !is_version_name(version) {
        return None;
    }
    match version.strip_prefix('v') {
        Some(digits) => digits.parse().ok(),
        None => None,
    }
}

/// The number of the version that a note names as the newest.
fn version_of(note: &str) -> Option<u64>
    ensures { result ≡ version_of_note note.now }
{
    number_of(head_of(note))
}

/// What became of an inventory that is another one, by the numbers of its versions.
fn moved_by(before: Option<u64>, now: Option<u64>) -> Change
    ensures { result ≡ moved_between before now }
{
    let (Some(before), Some(now)) = (before, now) else {
        return Change::Rewritten;
    };
    if before < now {
        Change::NewVersion
    } else if now < before {
        Change::WentBack
    } else {
        Change::Rewritten
    }
}

/// The same, by what was noted of it.
pub(crate) fn moved(before: &str, now: &str) -> Change
    ensures { result ≡ moved_between (version_of_note before.now) (version_of_note now.now) }
{
    moved_by(version_of(before), version_of(now))
}
