//! The table of an inventory: the digests that it names for the paths of its object.
ghost use Rattle.std.specs.Prelude.{◌≡◌, [], ◌≤◌, ◌<◌, ◌^◌, IfOk, IfSome, Some, None, map, option_map, ◌++◌, ◌∷◌, OnOk, true, false, length, slice_get, string_bytes};
ghost use Rattle.std.specs.{Ordering.{is_lt}, Result.{result_ok}};
ghost use Rattle.std.specs.List.Sorted.{IsPartitionPoint, IsSorted};
ghost use Rattle.serde_json.specs.View.{members_view};
ghost use Rattle.ocfl_tree.specs.{Place.{place_cmp}, Ascending.{IsAscending, ascending}};
ghost use Rattle.ocfl_report.specs.Line.{line_of};
ghost use Rattle.ocfl_inventory.specs.Note.{lines_at};
ghost use Rattle.ocfl_inventory.specs.Reading.{algorithm_in, algorithm_of, behind_algorithm, head_in, head_of, inventory_in};
ghost use Rattle.ocfl_inventory.specs.Notes.{inventory_notes, notes_of, reading_notes};
ghost use Rattle.ocfl_inventory.specs.{Internal.Parts.{inventory_view}, Remark.{remark_view}};
ghost use Rattle.ocfl_inventory.specs.Table.{IsFit, triple_cmp, table_from, table_from_reading, table_of, named as named_in};
ghost use Rattle.ocfl_inventory.specs.{NextPath.{next_path}, TripleView.{named_view, named_among}};
ghost use Rattle.ocfl_inventory.specs.Internal.ReadInventory.{IsReading, SaysAlone, note_line};

use crate::gather::gather;
use crate::inventory::Inventory;
use crate::notes::{add_others, repeated_lines};
use crate::reading::{head_text, object, read_algorithm, read_behind_algorithm};
use crate::remark::{InventoryStop, Remark};
use crate::triple::{Named, Triple};
use ocfl_digest::Algorithm;
use ocfl_report::Line;
use ocfl_tree::Place;
use serde_json::{Map, Value};
use std::alloc::{AllocError, Global};
use std::marker::Model;

/// What an inventory says of the paths of its object, from the object's root down: for each, the
/// digests that the manifest and the fixity block name.
#[derive(Debug, Drop)]
pub struct Table {
    algorithm: Algorithm,
    content: String,
    triples: Vec<Triple>,
}

impl Model for Table {
    ghost use Rattle.std.specs.Prelude.{string_bytes};
    ghost use Rattle.ocfl_tree.specs.Ascending.{IsAscending};
    ghost use Rattle.ocfl_inventory.specs.Table.{Table as TableModel, triple_cmp};

    ghost Value = { TableModel };

    ghost view = { λ a. record {
      algorithm = a.algorithm;
      content = string_bytes a.content;
      triples = a.triples.items;
    } };

    ghost invariant = { λ a. IsAscending triple_cmp a.triples.items };
}

/// Where the paths that are not below a place begin.
fn first_from(triples: &[Triple], place: &Place) -> usize
    requires { IsAscending triple_cmp triples.now }
    ensures found { IsPartitionPoint (λ t. is_lt (place_cmp t.path place.now) ≡ true)
        (λ t. is_lt (place_cmp t.path place.now) ≡ false) triples.now result }
    ensures bound { result ≤ length triples.now }
{
    triples.partition_point(|triple| triple.path().cmp(place).is_lt())
}

/// Where the paths above a place begin.
fn first_above(triples: &[Triple], place: &Place) -> usize
    requires { IsAscending triple_cmp triples.now }
    ensures found { IsPartitionPoint (λ t. is_lt (place_cmp place.now t.path) ≡ false)
        (λ t. is_lt (place_cmp place.now t.path) ≡ true) triples.now result }
    ensures bound { result ≤ length triples.now }
{
    triples.partition_point(|triple| !place.cmp(triple.path()).is_lt())
}

/// Where the paths above a place begin, looked for from where its own begin: those are few.
fn first_above_from(triples: &[Triple], place: &Place, first: usize) -> usize
    requires ascending { IsAscending triple_cmp triples.now }
    requires found { IsPartitionPoint (λ t. is_lt (place_cmp t.path place.now) ≡ true)
        (λ t. is_lt (place_cmp t.path place.now) ≡ false) triples.now first }
    requires bound { first ≤ length triples.now }
    ensures found { IsPartitionPoint (λ t. is_lt (place_cmp place.now t.path) ≡ false)
        (λ t. is_lt (place_cmp place.now t.path) ≡ true) triples.now result }
    ensures bound { result ≤ length triples.now }
{
    for index in first..triples.len() {
        if place.cmp(triples[index].path()).is_lt() {
            return index;
        }
    }
    triples.len()
}

/// Those of the triples that are a place's.
fn triples_at<'t>(triples: &'t [Triple], place: &Place) -> &'t [Triple]
    requires { IsAscending triple_cmp triples.now }
    ensures { map (λ t. t.named) result.now ≡ named_among triples.now place.now }
{
    let first = first_from(triples, place);
    let (front, _) = triples.split_at(first_above_from(triples, place, first));
    let (_, found) = front.split_at(first);
    found
}

fn path_at(triples: &[Triple], index: usize) -> Option<&Place>
    ensures { option_map (λ p. p.now) result ≡ option_map (λ t. t.path)
        (slice_get triples.now index) }
{
    let triple = triples.get(index)?;
    Some(triple.path())
}

/// Appends a copy of a digest.
fn add_copy(named: &Named, found: &mut Vec<Named>) -> Result<(), AllocError>
    ensures { OnOk result (map named_view found.new.items
        ≡ map named_view found.old.items ++ named_view named.now ∷ []) }
{
    found.push(named.try_clone()?)?;
    Ok(())
}

/// Copies of the digests of triples, in order.
fn clone_named(alloc: Global, triples: &[Triple]) -> Result<Vec<Named>, AllocError>
    ensures { IfOk result (λ v. map named_view v.items ≡ map (λ t. t.named) triples.now) }
{
    let mut found = Vec::with_capacity(alloc, triples.len())?;
    for triple in triples {
        add_copy(triple.named(), &mut found)?;
    }
    Ok(found)
}

/// The table of sorted triples, which may occur more than once.
fn make_table(algorithm: Algorithm, content: String, mut triples: Vec<Triple>) -> Table
    requires { IsSorted triple_cmp triples.items }
    ensures few { length result.triples < 2 ^ 64 }
    ensures is { result ≡ record {
      algorithm = algorithm;
      content = string_bytes content;
      triples = ascending triple_cmp triples.items;
    } }
{
    triples.dedup();
    Table {
        algorithm,
        content,
        triples,
    }
}

/// The lines and the table of an inventory that does not stop.
fn finish(alloc: Global, inventory: Inventory) -> Result<(Vec<Remark>, Table), AllocError>
    ensures lines { IfOk result (λ r. map remark_view r.0.items
        ≡ inventory_notes (inventory_view inventory)) }
    ensures table { IfOk result (λ r. r.1 ≡ table_from (inventory_view inventory)) }
    ensures few { IfOk result (λ r. length r.1.triples < 2 ^ 64) }
{
    let Inventory {
        algorithm,
        content,
        manifest,
        fixity,
        unsupported,
    } = inventory;
    let mut remarks = repeated_lines(alloc, &manifest, &fixity)?;
    let (triples, mut listed) = gather(alloc, content.as_str(), algorithm, manifest, fixity)?;
    add_others(
        alloc,
        content.as_str(),
        &mut listed,
        &unsupported,
        &mut remarks,
    )?;
    Ok((remarks, make_table(algorithm, content, triples)))
}

/// The lines and the table of the members of an inventory of an algorithm, or what stops it.
fn read_members(
    alloc: Global,
    members: Map<String, Value>,
    algorithm: Algorithm,
) -> Result<(Vec<Remark>, Table), InventoryStop>
    ensures reading { IsReading result (behind_algorithm (members_view members.entries) algorithm) }
    ensures few { IfOk result (λ r. length r.1.triples < 2 ^ 64) }
{
    let inventory = read_behind_algorithm(alloc, members, algorithm)?;
    Ok(finish(alloc, inventory)?)
}

/// The line of a remark about the whole object.
fn to_line(alloc: Global, remark: Remark) -> Line
    ensures { line_of result ≡ note_line (remark_view remark) }
{
    Line {
        code: remark.code,
        place: Place::root(alloc),
        detail: remark.detail,
    }
}

fn to_lines(alloc: Global, remarks: Vec<Remark>) -> Result<Vec<Line>, AllocError>
    ensures { IfOk result (λ v. map line_of v.items ≡ lines_at [] (map remark_view remarks.items)) }
{
    let mut lines = Vec::with_capacity(alloc, remarks.len())?;
    for remark in remarks {
        lines.push(to_line(alloc, remark))?;
    }
    Ok(lines)
}

/// What one parse of the bytes of an `inventory.json` gives.
#[derive(Drop)]
pub struct InventoryReading {
    /// The digest algorithm that it names, `sha256` or `sha512`, if it names one of these.
    pub algorithm: Option<Algorithm>,
    /// The version that it names as the newest, if that is a text.
    pub head: Option<String>,
    /// What the lines about it say.
    pub remarks: Vec<Remark>,
    /// Its table, if nothing stops.
    pub table: Option<Table>,
}

/// An inventory that stops: what its line says is all.
fn stopped(
    alloc: Global,
    algorithm: Option<Algorithm>,
    head: Option<String>,
    stop: InventoryStop,
) -> Result<InventoryReading, AllocError>
    ensures algorithm { IfOk result (λ r. r.algorithm ≡ algorithm) }
    ensures head { IfOk result (λ r. r.head ≡ head) }
    ensures remarks { IfOk result (λ r. SaysAlone stop (map remark_view r.remarks.items)) }
    ensures table { IfOk result (λ r. r.table ≡ None) }
{
    match stop {
        InventoryStop::Memory => Err(AllocError),
        InventoryStop::Because(remark) => {
            let mut remarks = Vec::new(alloc);
            remarks.push(remark)?;
            Ok(InventoryReading {
                algorithm,
                head,
                remarks,
                table: None,
            })
        }
    }
}

/// What the members of an inventory of an algorithm say, beside the head that they name.
fn reading_behind_algorithm(
    alloc: Global,
    members: Map<String, Value>,
    algorithm: Algorithm,
    head: Option<String>,
) -> Result<InventoryReading, AllocError>
    ensures algorithm { IfOk result (λ r. r.algorithm ≡ Some algorithm) }
    ensures head { IfOk result (λ r. r.head ≡ head) }
    ensures remarks { IfOk result (λ r. map remark_view r.remarks.items
        ≡ reading_notes (behind_algorithm (members_view members.entries) algorithm)) }
    ensures table { IfOk result (λ r. r.table
        ≡ table_from_reading (behind_algorithm (members_view members.entries) algorithm)) }
    ensures fit { IfOk result (λ r. IfSome r.table (λ t. IsFit t)) }
{
    match read_members(alloc, members, algorithm) {
        Ok((remarks, table)) => Ok(InventoryReading {
            algorithm: Some(algorithm),
            head,
            remarks,
            table: Some(table),
        }),
        Err(stop) => stopped(alloc, Some(algorithm), head, stop),
    }
}

/// What the members of an inventory say: algorithm, head, remarks and table.
fn reading_of_members(
    alloc: Global,
    members: Map<String, Value>,
) -> Result<InventoryReading, AllocError>
    ensures algorithm { IfOk result (λ r. r.algorithm
        ≡ result_ok (algorithm_in (members_view members.entries))) }
    ensures head { IfOk result (λ r. option_map string_bytes r.head
        ≡ head_in (members_view members.entries)) }
    ensures remarks { IfOk result (λ r. map remark_view r.remarks.items
        ≡ reading_notes (inventory_in (members_view members.entries))) }
    ensures table { IfOk result (λ r. r.table
        ≡ table_from_reading (inventory_in (members_view members.entries))) }
    ensures fit { IfOk result (λ r. IfSome r.table (λ t. IsFit t)) }
{
    let head = head_text(alloc, &members)?;
    match read_algorithm(alloc, &members) {
        Ok(algorithm) => reading_behind_algorithm(alloc, members, algorithm, head),
        Err(stop) => stopped(alloc, None, head, stop),
    }
}

/// Reads the bytes of an `inventory.json` by one parse (OCFL 1.1, 3.5 Inventory; RFC 8259).
///
/// The remarks are what the lines about the inventory say, but for those on its sidecars: a caller
/// puts the object's place in. The first of these faults is the only line, and there is no table:
/// bytes that are no JSON object in UTF-8, or that nest too deep (E033); `digestAlgorithm` missing
/// (E036), no text (S03), or neither `sha256` nor `sha512` (E025); `contentDirectory` no text or
/// empty (S03), with a slash (E017), or `.` or `..` (E018); `manifest` missing (E041) or of a wrong
/// form (S03); `fixity` of a wrong form (S03). Else there is a table, and the lines are, in this
/// order: digests that several keys have (E096, E097), bad paths (E100, E099, S06), paths that
/// conflict (E101), and algorithms of fixity that are not computed (S07). The algorithm is that of
/// `algorithm_of`, and the head is that of `head_of`, even if another key stops. The error is
/// running out of memory.
pub fn read_inventory(alloc: Global, bytes: &[u8]) -> Result<InventoryReading, AllocError>
    ensures algorithm { IfOk result (λ r. r.algorithm ≡ result_ok (algorithm_of bytes.now)) }
    ensures head { IfOk result (λ r. option_map string_bytes r.head ≡ head_of bytes.now) }
    ensures remarks { IfOk result (λ r. map remark_view r.remarks.items ≡ notes_of bytes.now) }
    ensures table { IfOk result (λ r. r.table ≡ table_of bytes.now) }
    ensures fit { IfOk result (λ r. IfSome r.table (λ t. IsFit t)) }
{
    match object(alloc, bytes) {
        Ok(members) => reading_of_members(alloc, members),
        Err(why) => stopped(alloc, None, None, why),
    }
}

impl Table {
    /// Reads the bytes of an `inventory.json`: its table, and the lines that `read_inventory`
    /// remarks, with the root as their place. On any bytes the table's paths have at most 128
    /// names, and ascend. The error is running out of memory.
    pub fn read(alloc: Global, bytes: &[u8]) -> Result<(Vec<Line>, Option<Table>), AllocError>
        ensures lines { IfOk result (λ r. map line_of r.0.items
            ≡ lines_at [] (notes_of bytes.now)) }
        ensures table { IfOk result (λ r. r.1 ≡ table_of bytes.now) }
        ensures fit { IfOk result (λ r. IfSome r.1 (λ t. IsFit t)) }
    {
        let read = read_inventory(alloc, bytes)?;
        Ok((to_lines(alloc, read.remarks)?, read.table))
    }

    /// The inventory's digest algorithm, `sha256` or `sha512`.
    pub fn algorithm(&self) -> Algorithm
        ensures { result ≡ self.now.algorithm }
    {
        self.algorithm
    }

    /// The name of the content directory (OCFL 1.1, 3.3.1 Content Directory), `content` if the
    /// inventory names none.
    pub fn content_directory(&self) -> &str
        ensures { result.now ≡ self.now.content }
    {
        self.content.as_str()
    }

    /// The digests that are named for a path of the object, from the object's root down: those of
    /// the manifest before those of fixity, then by the algorithm's name, then by the digest's
    /// text, each once; none for a path that is not named. The error is running out of memory.
    pub fn named(&self, alloc: Global, place: &Place) -> Result<Vec<Named>, AllocError>
        ensures { IfOk result (λ v. map named_view v.items ≡ named_in self.now place.now) }
    {
        clone_named(alloc, triples_at(&self.triples, place))
    }

    /// The least path above the given one, or the least of all for none; `None` if there is no
    /// such path. Takes no memory.
    pub fn next_after(&self, after: Option<&Place>) -> Option<&Place>
        ensures path { option_map (λ p. p.now) result
            ≡ next_path self.now (option_map (λ p. p.now) after.entry) }
        ensures ascending { IsAscending triple_cmp self.now.triples }
    {
        match after {
            Some(place) => path_at(&self.triples, first_above(&self.triples, place)),
            None => path_at(&self.triples, 0),
        }
    }
}
