//! The lines of a file that is hashed, or could not be read.
ghost use Rattle.std.specs.Prelude.{◌≡◌, ◌++◌, ◌∷◌, [], IfOk, List, OnOk, Some, length, map};
ghost use Rattle.hex.specs.Hex.{encode_lower};
ghost use Rattle.ocfl_tree.specs.Place.{Text};
ghost use Rattle.ocfl_inventory.specs.{Note.{Note, plain}, Remark.{remark_view}};
ghost use Rattle.ocfl_inventory.specs.TripleView.{named_view};
ghost use Rattle.ocfl_digest.specs.{Digest.{digest_bytes_of}, Digests.{digest_in}};
ghost use Rattle.ocfl_rules.specs.Inventories.{unexpected_notes};
ghost use Rattle.ocfl_rules.specs.Lines.{is_in_manifest as is_named_in_manifest, or_bytes};
ghost use Rattle.ocfl_rules.specs.Lines.{unnamed_notes};
ghost use Rattle.ocfl_item.specs.Internal.FileLines.{HasDigests, unexpected_by};
ghost use Rattle.ocfl_item.specs.{Internal.Lines.{Adds, HasLines}, Pending.{expected_view}};

use crate::digits::{hex_of, is_hex_of};
use crate::expected::Expected;
use crate::lines::PlaceLines;
use ocfl_digest::Digests;
use ocfl_inventory::Named;
use ocfl_report::Code;
use std::alloc::AllocError;

fn is_in_manifest(named: &[Named]) -> bool
    ensures { result ≡ is_named_in_manifest (map named_view named.now) }
{
    for entry in named {
        if !entry.fixity {
            return true;
        }
    }
    false
}

/// Appends the line of a content file that the manifest does not name.
pub(crate) fn add_unnamed(lines: &mut PlaceLines, named: &[Named]) -> Result<(), AllocError>
    ensures { OnOk result (Adds lines.old lines.new
        (unnamed_notes (map named_view named.now))) }
{
    if is_in_manifest(named) {
        return Ok(());
    }
    lines.add_plain(Code::E023)
}

/// Appends the line of an expected digest, unless it is the one that was found.
fn add_unless_found(
    lines: &mut PlaceLines,
    expected: &Expected,
    found: &[u8],
) -> Result<(), AllocError>
    ensures { OnOk result (Adds lines.old lines.new
        (unexpected_by (encode_lower found.now) (expected_view expected.now))) }
{
    if is_hex_of(&expected.digest, found) {
        return Ok(());
    }
    let found = hex_of(lines.alloc(), found)?;
    lines.add_mismatch(expected.code, expected.algorithm, &expected.digest, &found)
}

/// Appends the line of an expected digest, unless it is the file's.
fn add_unexpected(
    lines: &mut PlaceLines,
    expected: &Expected,
    digests: &Digests,
) -> Result<(), AllocError>
    ensures place { OnOk result (lines.new.place ≡ lines.old.place) }
    ensures lines { (bytes : Text) → digest_in digests.now expected.now.algorithm
        ≡ Some (digest_bytes_of expected.now.algorithm bytes)
        → OnOk result (Adds lines.old lines.new
        (unexpected_notes bytes (expected_view expected.now ∷ []))) }
{
    match digests.get(expected.algorithm) {
        Some(found) => add_unless_found(lines, expected, found),
        None => Ok(()),
    }
}

/// Appends a line for each expected digest that is not the file's.
fn add_each_unexpected(
    lines: &mut PlaceLines,
    expected: &[Expected],
    digests: &Digests,
) -> Result<(), AllocError>
    ensures place { OnOk result (lines.new.place ≡ lines.old.place) }
    ensures lines { (bytes : Text)
        → HasDigests (map (λ e. e.algorithm) expected.now) bytes digests.now
        → OnOk result (Adds lines.old lines.new
        (unexpected_notes bytes (map expected_view expected.now))) }
{
    for entry in expected {
        add_unexpected(lines, entry, digests)?;
    }
    Ok(())
}

/// Appends the line of a clean file of `count` bytes, if there is no line.
fn add_clean_file(lines: &mut PlaceLines, count: u64) -> Result<(), AllocError>
    ensures place { OnOk result (lines.new.place ≡ lines.old.place) }
    ensures lines { (bytes : Text) (ns : List Note) → count ≡ length bytes → HasLines lines.old ns
        → OnOk result (HasLines lines.new (or_bytes bytes ns)) }
{
    if !lines.remarks.is_empty() {
        return Ok(());
    }
    let detail = count.to_string(lines.alloc())?;
    lines.add(Code::Clean, detail)
}

/// The lines of a file that was read to its end, behind those that do not depend on what it holds:
/// of its digests, and of how many bytes it has.
pub(crate) fn hashed_lines(
    known: PlaceLines,
    expected: &[Expected],
    digests: &Digests,
    count: u64,
) -> Result<PlaceLines, AllocError>
    ensures place { IfOk result (λ lines. lines.place ≡ known.place) }
    ensures lines { (bytes : Text)
        → HasDigests (map (λ e. e.algorithm) expected.now) bytes digests.now
        → count ≡ length bytes
        → IfOk result (λ lines. HasLines lines (or_bytes bytes
        (map remark_view known.remarks.items
        ++ unexpected_notes bytes (map expected_view expected.now)))) }
{
    let mut lines = known;
    add_each_unexpected(&mut lines, expected, digests)?;
    add_clean_file(&mut lines, count)?;
    Ok(lines)
}

/// The lines of a file that could not be read, behind those that do not depend on what it holds.
pub(crate) fn unread_lines(known: PlaceLines) -> Result<PlaceLines, AllocError>
    ensures place { IfOk result (λ lines. lines.place ≡ known.place) }
    ensures lines { IfOk result (λ lines. HasLines lines
        (map remark_view known.remarks.items ++ plain Code.S08 ∷ [])) }
{
    let mut lines = known;
    lines.add_plain(Code::S08)?;
    Ok(lines)
}
