//! The line of what a directory declares, if that is not one declaration of a known version; and
//! whether a declaration has the bytes that it must have.
ghost use Rattle.std.specs.Prelude.{◌≡◌, ◌≤◌, ◌++◌, ◌∷◌, [], false, length, IfOk, OnOk};
ghost use Rattle.ocfl_tree.specs.Place.{Place as ModelPlace, Text, text_eq};
ghost use Rattle.ocfl_tree.specs.StorageRoot.{StorageRoot};
ghost use Rattle.ocfl_inventory.specs.Note.{note};
ghost use Rattle.ocfl_inventory.specs.Declaration.{after_prefix};
ghost use Rattle.ocfl_inventory.specs.Declaration.{declaration_name as name_of_declaration, prefix};
ghost use Rattle.ocfl_inventory.specs.{Entries.{meaning, PointsAtOne}, Sidecar.{side_limit}};
ghost use Rattle.ocfl_digest.specs.Bounded.{IsBoundedTo};
ghost use Rattle.ocfl_rules.specs.{Zone.{is_known}, Head.{is_exact_declaration}};
ghost use Rattle.ocfl_item.specs.Internal.HeadFiles.{IsFileAt};
ghost use Rattle.ocfl_item.specs.Internal.HeadLines.{declared_notes};
ghost use Rattle.ocfl_item.specs.Internal.Lines.{Adds, HasLines};

use crate::folder::Folder;
use crate::lines::PlaceLines;
use ocfl_digest::Bounded;
use ocfl_inventory::{Declared, Level, Version, declaration_bytes, version_in_name};
use ocfl_report::Code;
use ocfl_tree::{Entry, is_bytes};
use std::alloc::AllocError;

/// Whether these few bytes are all that a file has.
fn is_file(bytes: &[u8], file: &Bounded) -> bool
    ensures { (text : Text) → IsBoundedTo side_limit text file.now
        → length bytes.now ≤ side_limit
        → result ≡ text_eq text bytes.now }
{
    match file {
        Bounded::Whole(whole) => is_bytes(whole, bytes),
        Bounded::Over => false,
    }
}

/// Whether the file of a declaration has just the bytes of that version's.
pub(crate) fn is_exact(level: Level, version: Version, declaration: &Option<Bounded>) -> bool
    ensures { (root : StorageRoot) (d : ModelPlace) → IsFileAt root
        (d ++ name_of_declaration level version ∷ []) side_limit declaration.now
        → result ≡ is_exact_declaration root d level version }
{
    match declaration {
        Some(file) => is_file(declaration_bytes(level, version), file),
        None => false,
    }
}

/// Appends the line of a version that is not known.
fn add_unknown(lines: &mut PlaceLines, level: Level, declaration: &str) -> Result<(), AllocError>
    ensures place { OnOk result (lines.new.place ≡ lines.old.place) }
    ensures lines { (rest : Text) → declaration.now ≡ prefix level ++ rest
        → OnOk result (Adds lines.old lines.new
        (note Code.S01 (after_prefix level declaration.now) ∷ [])) }
{
    match version_in_name(level, declaration) {
        Some(version) => {
            let detail = String::from_str(lines.alloc(), version)?;
            lines.add(Code::S01, detail)
        }
        None => Ok(()),
    }
}

/// Appends the line of a storage root or of an object that declares nothing, several versions, or
/// one that is not known.
fn add_stop(
    lines: &mut PlaceLines,
    level: Level,
    entries: &[Entry],
    declared: Declared,
) -> Result<(), AllocError>
    ensures place { OnOk result (lines.new.place ≡ lines.old.place) }
    ensures lines { (root : StorageRoot) (o : ModelPlace)
        → is_known (meaning level entries.now declared) ≡ false
        → PointsAtOne level entries.now declared
        → OnOk result (Adds lines.old lines.new
        (declared_notes root o level (meaning level entries.now declared))) }
{
    match declared {
        Declared::None => match level {
            Level::Root => lines.add_plain(Code::E069),
            Level::Object => Ok(()),
        },
        Declared::Several => match level {
            Level::Root => lines.add_plain(Code::E076),
            Level::Object => lines.add_plain(Code::E003),
        },
        Declared::Unknown(index) => match entries.get(index) {
            Some(entry) => add_unknown(lines, level, entry.name.as_str()),
            None => Ok(()),
        },
        Declared::One(_) => Ok(()),
    }
}

/// The lines of a storage root or of an object that declares nothing, several versions, or one that
/// is not known.
pub(crate) fn stopped_lines(
    folder: &Folder,
    level: Level,
    declared: Declared,
) -> Result<PlaceLines, AllocError>
    ensures place { IfOk result (λ lines. lines.place ≡ folder.now.place) }
    ensures lines { (root : StorageRoot)
        → is_known (meaning level folder.now.entries.items declared) ≡ false
        → PointsAtOne level folder.now.entries.items declared
        → IfOk result (λ lines. HasLines lines
        (declared_notes root folder.now.place level
        (meaning level folder.now.entries.items declared))) }
{
    let mut lines = PlaceLines::new(folder.alloc(), folder.place.try_clone()?);
    add_stop(&mut lines, level, &folder.entries, declared)?;
    Ok(lines)
}
