//! What is met in a content directory, by the digests that name it.
ghost use Rattle.std.specs.Prelude.{◌≡◌, ◌++◌, IfOk, IfSome, OnOk, Some, map, true};
ghost use Rattle.ocfl_tree.specs.{Ascending.{IsAscending}, Place.{Place as ModelPlace}};
ghost use Rattle.ocfl_tree.specs.StorageRoot.{StorageRoot};
ghost use Rattle.ocfl_report.specs.declared.further.Further.{Further};
ghost use Rattle.ocfl_inventory.specs.Table.{Table, named as digests_of, named_cmp};
ghost use Rattle.ocfl_inventory.specs.{Remark.{remark_view}, TripleView.{named_view}};
ghost use Rattle.ocfl_rules.specs.Lines.{missing_notes, unnamed_notes};
ghost use Rattle.ocfl_item.specs.Internal.Content.{IsSight, content_at, is_read, sight_notes};
ghost use Rattle.ocfl_item.specs.{Meeting.{IsItemAt}, Internal.Lines.{Adds, HasLines}};
ghost use Rattle.ocfl_item.specs.{Internal.FileLines.{expected_by_name}, Pending.{expected_view}};

use crate::expected::expected_of_named;
use crate::file_lines::add_unnamed;
use crate::lines::PlaceLines;
use crate::missing::add_missing;
use crate::pending::Pending;
use crate::sight::Sight;
use ocfl_inventory::Named;
use ocfl_report::Code;
use ocfl_tree::Place;
use std::alloc::{AllocError, Global};

/// Appends the line for what is seen, if it has one.
fn add_sight(lines: &mut PlaceLines, sight: Sight) -> Result<(), AllocError>
    ensures { OnOk result (Adds lines.old lines.new (sight_notes sight)) }
{
    match sight {
        Sight::Nothing | Sight::Dir => Ok(()),
        Sight::File => lines.add_plain(Code::E023),
        Sight::EmptyDir => lines.add_plain(Code::E024),
        Sight::DeepDir => lines.add_plain(Code::S05),
        Sight::Other => lines.add_plain(Code::S04),
    }
}

/// The lines of a content place whose file is not hashed.
fn known_lines(
    alloc: Global,
    place: Place,
    named: &[Named],
    sight: Sight,
) -> Result<PlaceLines, AllocError>
    ensures place { IfOk result (λ lines. lines.place ≡ place) }
    ensures lines { IsAscending named_cmp (map named_view named.now)
        → IfOk result (λ lines. HasLines lines
        (sight_notes sight ++ missing_notes (map named_view named.now))) }
{
    let mut lines = PlaceLines::new(alloc, place);
    add_sight(&mut lines, sight)?;
    add_missing(&mut lines, named)?;
    Ok(lines)
}

/// Whether a file is seen that some digest is named for: only then is it hashed.
fn is_hashed(named: &[Named], sight: Sight) -> bool
    ensures { result ≡ is_read sight (map named_view named.now) }
{
    match sight {
        Sight::File => !named.is_empty(),
        _ => false,
    }
}

/// The item of a file that is hashed.
fn hashed_item(alloc: Global, place: Place, named: Vec<Named>) -> Result<Pending, AllocError>
    ensures place { IfOk result (λ item. item.place ≡ place) }
    ensures hashed { IfOk result (λ item. item.hashed ≡ true) }
    ensures remarks { IfOk result (λ item. map remark_view item.remarks.items
        ≡ unnamed_notes (map named_view named.items)) }
    ensures expected { IfOk result (λ item. map expected_view item.expected.items
        ≡ map (λ n. expected_by_name (named_view n)) named.items) }
{
    let mut lines = PlaceLines::new(alloc, place);
    add_unnamed(&mut lines, &named)?;
    let expected = expected_of_named(alloc, named)?;
    Ok(Pending::of_file(lines, expected))
}

/// The item at a content place, from the digests that the object's table names for it and from what
/// is seen there; none if the place has no lines.
pub(crate) fn content_item(
    alloc: Global,
    place: Place,
    named: Vec<Named>,
    sight: Sight,
) -> Result<Option<Pending>, AllocError>
    ensures place { IfOk result (λ item. IfSome item (λ pending. pending.place ≡ place)) }
    ensures told { (further : Further) (root : StorageRoot) (t : Table) (q : ModelPlace)
        → content_at root place ≡ Some (t, q)
        → map named_view named.items ≡ digests_of t q → IsSight root place sight
        → IfOk result (λ item. IsItemAt further root place item) }
{
    if is_hashed(&named, sight) {
        return Ok(Some(hashed_item(alloc, place, named)?));
    }
    let known = known_lines(alloc, place, &named, sight)?;
    if known.remarks.is_empty() {
        return Ok(None);
    }
    Ok(Some(Pending::of_lines(known)))
}

/// The same of a place that is kept: it is copied for its item.
pub(crate) fn content_item_at(
    alloc: Global,
    place: &Place,
    named: Vec<Named>,
    sight: Sight,
) -> Result<Option<Pending>, AllocError>
    ensures place { IfOk result (λ item. IfSome item (λ pending. pending.place ≡ place.now)) }
    ensures told { (further : Further) (root : StorageRoot) (t : Table) (q : ModelPlace)
        → content_at root place.now ≡ Some (t, q)
        → map named_view named.items ≡ digests_of t q → IsSight root place.now sight
        → IfOk result (λ item. IsItemAt further root place.now item) }
{
    content_item(alloc, place.try_clone()?, named, sight)
}
