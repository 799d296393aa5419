//! The lines of an object's head, from files that were read before.
ghost use Rattle.std.specs.Prelude.{◌≡◌, ◌++◌, ◌∷◌, [], List, true, false, not, is_some, map};
ghost use Rattle.std.specs.Prelude.{option_map, Some, IfSome, IfOk, OnOk};
ghost use Rattle.hex.specs.Hex.{encode_lower};
ghost use Rattle.ocfl_tree.specs.Place.{Place as ModelPlace, Text, text_eq};
ghost use Rattle.ocfl_tree.specs.StorageRoot.{StorageRoot};
ghost use Rattle.ocfl_inventory.specs.Note.{Note, plain};
ghost use Rattle.ocfl_inventory.specs.Declaration.{declaration_name as name_of_declaration};
ghost use Rattle.ocfl_inventory.specs.Reading.{algorithm_of as algorithm_in};
ghost use Rattle.ocfl_inventory.specs.Remark.{remark_view};
ghost use Rattle.ocfl_inventory.specs.Sidecar.{side_limit, sidecar_digits, sidecar_of, sum_view};
ghost use Rattle.ocfl_inventory.specs.Table.{IsFit, table_of};
ghost use Rattle.ocfl_digest.specs.{Bounded.{IsBoundedTo}, Digest.{digest_bytes_of}};
ghost use Rattle.ocfl_digest.specs.{Digests.{digest_in}, Wanted.{wants}};
ghost use Rattle.ocfl_digest.specs.declared.algorithm.Algorithm.TheVariants.{Sha256, Sha512};
ghost use Rattle.ocfl_inventory.specs.declared.declaration.Level.TheVariants as level;
ghost use Rattle.ocfl_rules.specs.Head.{digest_of, is_exact_declaration, on, or_clean};
ghost use Rattle.ocfl_rules.specs.Head.{sidecar_name, sidecar_at, mismatch, sidecar_notes};
ghost use Rattle.ocfl_rules.specs.Head.{are_sidecars_missing, sidecars_notes, inventory_part};
ghost use Rattle.ocfl_item.specs.Internal.HeadFiles.{IsFileAt};
ghost use Rattle.ocfl_item.specs.Internal.HeadLines.{AreSidecars, HasDigestFor, is_other_there};
ghost use Rattle.ocfl_item.specs.Internal.HeadLines.{named_notes};
ghost use Rattle.ocfl_item.specs.{Internal.Lines.{Adds, HasLines}, Root.{root_by, root_view}};

use crate::declarations::is_exact;
use crate::digits::hex_of;
use crate::lines::PlaceLines;
use crate::root::{RootInventory, root_of};
use ocfl_digest::{Algorithm, Bounded, Digests, Wanted, hash_bytes};
use ocfl_inventory::{Level, Remark, Sum, Table, Version, read_inventory, sidecar};
use ocfl_report::{Code, Further};
use ocfl_tree::is_bytes;
use std::alloc::AllocError;

/// What was read of the sidecars of an inventory, if they are there.
#[derive(Drop)]
pub(crate) struct Sidecars {
    /// That of `sha256`.
    pub(crate) short: Option<Bounded>,
    /// That of `sha512`.
    pub(crate) long: Option<Bounded>,
}

/// Appends the line of a declaration whose bytes are not exact (OCFL 1.1, 3.2 Object Conformance
/// Declaration).
pub(crate) fn add_declaration(
    lines: &mut PlaceLines,
    version: Version,
    declaration: &Option<Bounded>,
) -> Result<(), AllocError>
    ensures place { OnOk result (lines.new.place ≡ lines.old.place) }
    ensures lines { (root : StorageRoot) (o : ModelPlace) → IsFileAt root
        (o ++ name_of_declaration level.Object version ∷ []) side_limit declaration.now
        → OnOk result (Adds lines.old lines.new
        (on (not (is_exact_declaration root o level.Object version))
        (plain Code.E007))) }
{
    if is_exact(Level::Object, version, declaration) {
        return Ok(());
    }
    lines.add_plain(Code::E007)
}

/// Appends the line of a sidecar whose digest is not the one that was found.
fn add_unless_found(
    lines: &mut PlaceLines,
    algorithm: Algorithm,
    wanted: &[u8],
    found: &[u8],
) -> Result<(), AllocError>
    ensures { OnOk result (Adds lines.old lines.new
        (on (not (text_eq wanted.now found.now))
        (mismatch Code.E060 algorithm (encode_lower wanted.now) (encode_lower found.now)))) }
{
    if is_bytes(wanted, found) {
        return Ok(());
    }
    let wanted = hex_of(lines.alloc(), wanted)?;
    let found = hex_of(lines.alloc(), found)?;
    lines.add_mismatch(Code::E060, algorithm, &wanted, &found)
}

/// Appends the line of a sidecar whose digest is not that of the inventory.
fn add_unless_equal(
    lines: &mut PlaceLines,
    digests: &Digests,
    algorithm: Algorithm,
    sum: &Sum,
) -> Result<(), AllocError>
    ensures place { OnOk result (lines.new.place ≡ lines.old.place) }
    ensures lines { (inventory : Text) → digest_in digests.now algorithm
        ≡ Some (digest_bytes_of algorithm inventory)
        → OnOk result (Adds lines.old lines.new
        (on (not (text_eq (sum_view sum.now) (digest_bytes_of algorithm inventory)))
        (mismatch Code.E060 algorithm (encode_lower (sum_view sum.now))
        (digest_of algorithm inventory)))) }
{
    match digests.get(algorithm) {
        Some(found) => add_unless_found(lines, algorithm, sum.bytes(), found),
        None => Ok(()),
    }
}

/// The digest that a sidecar names, if it is of the form.
pub(crate) fn sum_of(algorithm: Algorithm, file: &Bounded) -> Option<Sum>
    ensures { (text : Text) → IsBoundedTo side_limit text file.now
        → option_map sum_view result ≡ sidecar_of algorithm text }
{
    match file {
        Bounded::Whole(bytes) => sidecar(bytes, algorithm),
        Bounded::Over => None,
    }
}

/// Appends the line of a sidecar: it is not of the form, or does not have the digest of the
/// inventory.
fn add_sidecar(
    lines: &mut PlaceLines,
    digests: &Digests,
    algorithm: Algorithm,
    file: &Option<Bounded>,
) -> Result<(), AllocError>
    ensures place { OnOk result (lines.new.place ≡ lines.old.place) }
    ensures lines { (root : StorageRoot) (o : ModelPlace) (inventory : Text)
        → IsFileAt root (o ++ sidecar_name algorithm ∷ []) side_limit file.now
        → HasDigestFor file.now algorithm inventory digests.now
        → OnOk result (Adds lines.old lines.new
        (sidecar_notes algorithm inventory (sidecar_at root o algorithm))) }
{
    let Some(file) = file else {
        return Ok(());
    };
    match sum_of(algorithm, file) {
        Some(sum) => add_unless_equal(lines, digests, algorithm, &sum),
        None => {
            let detail = String::from_str(lines.alloc(), algorithm.name())?;
            lines.add(Code::E061, detail)
        }
    }
}

/// Appends the line of an inventory without sidecars.
pub(crate) fn add_unless_any(lines: &mut PlaceLines, sidecars: &Sidecars) -> Result<(), AllocError>
    ensures place { OnOk result (lines.new.place ≡ lines.old.place) }
    ensures lines { (root : StorageRoot) (o : ModelPlace) → AreSidecars root o sidecars.now
        → OnOk result (Adds lines.old lines.new
        (on (are_sidecars_missing root o) (plain Code.E058))) }
{
    if sidecars.short.is_some() || sidecars.long.is_some() {
        return Ok(());
    }
    lines.add_plain(Code::E058)
}

/// The algorithms of the sidecars that are there.
fn wanted_by(sidecars: &Sidecars) -> Wanted
    ensures short { is_some sidecars.now.short ≡ true → wants result Sha256 ≡ true }
    ensures long { is_some sidecars.now.long ≡ true → wants result Sha512 ≡ true }
{
    let mut wanted = Wanted::none();
    if sidecars.short.is_some() {
        wanted = wanted.with(Algorithm::Sha256);
    }
    if sidecars.long.is_some() {
        wanted = wanted.with(Algorithm::Sha512);
    }
    wanted
}

/// Appends the lines of the sidecars: neither is there, or what is wrong with those that are. One
/// pass over the inventory gives the digests for both.
fn add_sidecars(
    lines: &mut PlaceLines,
    inventory: &[u8],
    sidecars: &Sidecars,
) -> Result<(), AllocError>
    ensures place { OnOk result (lines.new.place ≡ lines.old.place) }
    ensures lines { (root : StorageRoot) (o : ModelPlace) → AreSidecars root o sidecars.now
        → OnOk result (Adds lines.old lines.new
        (sidecars_notes root o inventory.now)) }
{
    add_unless_any(lines, sidecars)?;
    let digests = hash_bytes(inventory, wanted_by(sidecars));
    add_sidecar(lines, &digests, Algorithm::Sha256, &sidecars.short)?;
    add_sidecar(lines, &digests, Algorithm::Sha512, &sidecars.long)
}

/// Whether the sidecar of an inventory's algorithm is missing while the other is there.
fn has_other(algorithm: Algorithm, sidecars: &Sidecars) -> bool
    ensures { (root : StorageRoot) (o : ModelPlace) → AreSidecars root o sidecars.now
        → is_some (sidecar_digits algorithm) ≡ true
        → result ≡ is_other_there root o algorithm }
{
    match algorithm {
        Algorithm::Sha256 => sidecars.short.is_none() && sidecars.long.is_some(),
        Algorithm::Sha512 => sidecars.long.is_none() && sidecars.short.is_some(),
        Algorithm::Md5 | Algorithm::Sha1 | Algorithm::Sha512_256 => false,
    }
}

/// Appends the line of a sidecar that is missing while the other is there, if an algorithm is
/// named.
fn add_missing_sidecar(
    lines: &mut PlaceLines,
    algorithm: Option<Algorithm>,
    sidecars: &Sidecars,
) -> Result<(), AllocError>
    ensures place { OnOk result (lines.new.place ≡ lines.old.place) }
    ensures lines { (root : StorageRoot) (o : ModelPlace) → AreSidecars root o sidecars.now
        → IfSome algorithm (λ a. is_some (sidecar_digits a) ≡ true)
        → OnOk result (Adds lines.old lines.new
        (named_notes root o algorithm)) }
{
    let Some(algorithm) = algorithm else {
        return Ok(());
    };
    if !has_other(algorithm, sidecars) {
        return Ok(());
    }
    let detail = String::from_str(lines.alloc(), algorithm.name())?;
    lines.add(Code::E058, detail)
}

/// Appends the lines of what is remarked of a place.
fn add_remarks(lines: &mut PlaceLines, remarks: Vec<Remark>) -> Result<(), AllocError>
    ensures { OnOk result (Adds lines.old lines.new
        (map remark_view remarks.items)) }
{
    for remark in remarks {
        lines.add(remark.code, remark.detail)?;
    }
    Ok(())
}

/// Appends the lines of what an inventory says, after that of the sidecar of its algorithm, and
/// gives its table, and what it is if that is asked for.
fn add_read(
    lines: &mut PlaceLines,
    further: Further,
    inventory: &[u8],
    sidecars: &Sidecars,
) -> Result<(Option<Table>, Option<RootInventory>), AllocError>
    ensures place { OnOk result (lines.new.place ≡ lines.old.place) }
    ensures lines { (root : StorageRoot) (o : ModelPlace) → AreSidecars root o sidecars.now
        → OnOk result (Adds lines.old lines.new
        (inventory_part root o inventory.now (algorithm_in inventory.now))) }
    ensures table { IfOk result (λ read. read.0 ≡ table_of inventory.now) }
    ensures root { IfOk result (λ read. option_map root_view read.1
        ≡ root_by further inventory.now (table_of inventory.now)) }
    ensures fit { IfOk result (λ read. IfSome read.0 (λ t. IsFit t)) }
{
    let read = read_inventory(lines.alloc(), inventory)?;
    add_missing_sidecar(lines, read.algorithm, sidecars)?;
    add_remarks(lines, read.remarks)?;
    let head = read.head;
    let root = root_of(lines.alloc(), further, inventory, &read.table, head)?;
    Ok((read.table, root))
}

/// Appends the lines of an object's inventory, and of its sidecars (OCFL 1.1, 3.5 Inventory and 3.6
/// Inventory Digest), and gives its table, and what it is if that is asked for. The bytes are all
/// that the inventory has.
pub(crate) fn add_inventory(
    lines: &mut PlaceLines,
    further: Further,
    bytes: &[u8],
    sidecars: &Sidecars,
) -> Result<(Option<Table>, Option<RootInventory>), AllocError>
    ensures table { IfOk result (λ read. read.0 ≡ table_of bytes.now) }
    ensures root { IfOk result (λ read. option_map root_view read.1
        ≡ root_by further bytes.now (table_of bytes.now)) }
    ensures fit { IfOk result (λ read. IfSome read.0 (λ t. IsFit t)) }
    ensures place { OnOk result (lines.new.place ≡ lines.old.place) }
    ensures lines { (root : StorageRoot) (o : ModelPlace) → AreSidecars root o sidecars.now
        → OnOk result (Adds lines.old lines.new
        (sidecars_notes root o bytes.now
        ++ inventory_part root o bytes.now (algorithm_in bytes.now))) }
{
    add_sidecars(lines, bytes, sidecars)?;
    add_read(lines, further, bytes, sidecars)
}

/// Appends the line of a clean head, if there is no line.
pub(crate) fn add_clean(lines: &mut PlaceLines) -> Result<(), AllocError>
    ensures place { OnOk result (lines.new.place ≡ lines.old.place) }
    ensures lines { (ns : List Note) → HasLines lines.old ns
        → OnOk result (HasLines lines.new (or_clean ns)) }
{
    if !lines.remarks.is_empty() {
        return Ok(());
    }
    lines.add_plain(Code::Clean)
}
