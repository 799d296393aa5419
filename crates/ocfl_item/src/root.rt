//! What an object's root inventory is, where further inventories are checked.
ghost use Rattle.std.specs.Prelude.{◌≡◌, ◌∷◌, [], IfOk, OnOk, option_map, string_bytes};
ghost use Rattle.ocfl_inventory.specs.Reading.{head_of};
ghost use Rattle.ocfl_rules.specs.{Head.{digest_of}, Inventories.{is_now_note, root_inventory_of}};
ghost use Rattle.ocfl_item.specs.Root.{root_by, root_notes_if, root_view};
ghost use Rattle.ocfl_item.specs.Internal.Lines.{Adds};

use crate::digits::hex_of;
use crate::lines::PlaceLines;
use ocfl_digest::{Algorithm, Wanted, hash_bytes};
use ocfl_inventory::Table;
use ocfl_report::{Code, Further};
use std::alloc::{AllocError, Global};

/// What an object's root inventory is.
#[derive(Debug, Drop)]
pub struct RootInventory {
    /// The algorithm that it names.
    pub algorithm: Algorithm,
    /// Its digest by that, in hexadecimal digits.
    pub digest: String,
    /// The version that it names as the newest, if that is a text.
    pub head: Option<String>,
}

/// The digest of some bytes, in hexadecimal digits.
fn hex_digest(alloc: Global, bytes: &[u8], algorithm: Algorithm) -> Result<String, AllocError>
    ensures { IfOk result (λ digest. string_bytes digest ≡ digest_of algorithm bytes.now) }
{
    let digests = hash_bytes(bytes, Wanted::none().with(algorithm));
    match digests.get(algorithm) {
        Some(found) => hex_of(alloc, found),
        None => Ok(String::new(alloc)),
    }
}

/// What the root inventory is by its bytes, its table and what it names as the newest version.
fn root_by_table(
    alloc: Global,
    bytes: &[u8],
    table: &Table,
    head: Option<String>,
) -> Result<RootInventory, AllocError>
    ensures { option_map string_bytes head ≡ head_of bytes.now
        → IfOk result (λ root. root_view root ≡ root_inventory_of bytes.now table.now) }
{
    let algorithm = table.algorithm();
    let digest = hex_digest(alloc, bytes, algorithm)?;
    Ok(RootInventory {
        algorithm,
        digest,
        head,
    })
}

/// What the root inventory is by its bytes, if that is asked for and it has a table.
pub(crate) fn root_of(
    alloc: Global,
    further: Further,
    bytes: &[u8],
    table: &Option<Table>,
    head: Option<String>,
) -> Result<Option<RootInventory>, AllocError>
    ensures { option_map string_bytes head ≡ head_of bytes.now
        → IfOk result (λ root. option_map root_view root
        ≡ root_by further bytes.now table.now) }
{
    match (further, table) {
        (Further::Inventories, Some(table)) => {
            let root = root_by_table(alloc, bytes, table, head)?;
            Ok(Some(root))
        }
        (Further::Nothing, _) | (Further::Inventories, None) => Ok(None),
    }
}

/// Appends the note on what a root inventory is.
fn add_note(lines: &mut PlaceLines, root: &RootInventory) -> Result<(), AllocError>
    ensures { OnOk result (Adds lines.old lines.new (is_now_note (root_view root.now) ∷ [])) }
{
    let alloc = lines.alloc();
    let detail = match &root.head {
        Some(head) => format!(in alloc; "{} {} {}", root.algorithm.name(), root.digest, head)?,
        None => format!(in alloc; "{} {}", root.algorithm.name(), root.digest)?,
    };
    lines.add(Code::S09, detail)
}

/// Appends the note on what the root inventory is, if that is asked for and known.
pub(crate) fn add_root_note(
    lines: &mut PlaceLines,
    further: Further,
    root: &Option<RootInventory>,
) -> Result<(), AllocError>
    ensures { OnOk result (Adds lines.old lines.new
        (root_notes_if further (option_map root_view root.now))) }
{
    match (further, root) {
        (Further::Inventories, Some(root)) => add_note(lines, root),
        (Further::Nothing, _) | (Further::Inventories, None) => Ok(()),
    }
}
