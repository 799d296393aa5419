//! The keys of an inventory, each of which may stop.
ghost use Rattle.std.specs.Prelude.{◌≡◌, false, map, IfOk, Some, None, option_map, string_bytes, [], ◌∷◌, filter, not, is_some, if◌then◌else◌, codes};
ghost use Rattle.std.specs.Result.{result_ok};
ghost use Rattle.serde_json.specs.{View.{view, members_view}, Find.{get_member}};
ghost use Rattle.ocfl_tree.specs.Place.{text_eq};
ghost use Rattle.ocfl_inventory.specs.Note.{note};
ghost use Rattle.ocfl_inventory.specs.Reading.{object_of, digest_algorithm, algorithm_in, head_in, content_named, content_from, fixity_from, behind_algorithm, blocks_for, keys_of, unsupported_in, algorithm_of as algorithm_stated, manifest_from};
ghost use Rattle.ocfl_inventory.specs.Internal.Parts.{Gives, Says, value_for, block_view, fixity_view, supported_view, with_block, inventory_view};
ghost use Rattle.ocfl_digest.specs.Algorithm.{algorithm_name, algorithm_named, supported as all_supported};

use crate::block::{block, member, members, take_member};
use crate::inventory::{Inventory, Listing, Supported};
use crate::remark::{InventoryStop, Remark};
use crate::texts::{add_text, has_byte, put_in_order};
use ocfl_digest::Algorithm;
use ocfl_report::Code;
use serde_json::{Map, Value};
use std::alloc::{AllocError, Global};

fn stop(alloc: Global, code: Code, detail: &str) -> InventoryStop
    ensures { Says result (note code detail.now) }
{
    match String::from_str(alloc, detail) {
        Ok(detail) => InventoryStop::Because(Remark { code, detail }),
        Err(_) => InventoryStop::Memory,
    }
}

pub(crate) fn object(alloc: Global, bytes: &[u8]) -> Result<Map<String, Value>, InventoryStop>
    ensures { Gives (λ m. members_view m.entries) result (object_of bytes.now) }
{
    match Value::from_slice(alloc, bytes) {
        Ok(Value::Object(map)) => Ok(map),
        Ok(_) => Err(stop(alloc, Code::E033, "-")),
        Err(error) => {
            if error.is_memory() {
                Err(InventoryStop::Memory)
            } else {
                Err(stop(alloc, Code::E033, "-"))
            }
        }
    }
}

fn named_algorithm(alloc: Global, text: &str) -> Result<Algorithm, InventoryStop>
    ensures { Gives (λ a. a) result (digest_algorithm text.now) }
{
    if text == "sha512" {
        Ok(Algorithm::Sha512)
    } else if text == "sha256" {
        Ok(Algorithm::Sha256)
    } else {
        Err(stop(alloc, Code::E025, text))
    }
}

/// Reads the digest algorithm that the members of an inventory name.
pub(crate) fn read_algorithm(
    alloc: Global,
    map: &Map<String, Value>,
) -> Result<Algorithm, InventoryStop>
    ensures { Gives (λ a. a) result (algorithm_in (members_view map.now.entries)) }
{
    let Some(value) = member(map, "digestAlgorithm") else {
        return Err(stop(alloc, Code::E036, "digestAlgorithm"));
    };
    let Some(text) = value.as_str() else {
        return Err(stop(alloc, Code::S03, "digestAlgorithm"));
    };
    named_algorithm(alloc, text)
}

/// A copy of the version that the members of an inventory name as the newest, if that is a text.
pub(crate) fn head_text(
    alloc: Global,
    map: &Map<String, Value>,
) -> Result<Option<String>, AllocError>
    ensures { IfOk result (λ head. option_map string_bytes head
        ≡ head_in (members_view map.now.entries)) }
{
    let Some(value) = member(map, "head") else {
        return Ok(None);
    };
    let Some(text) = value.as_str() else {
        return Ok(None);
    };
    Ok(Some(String::from_str(alloc, text)?))
}

fn content_text<'v>(alloc: Global, text: &'v str) -> Result<&'v str, InventoryStop>
    ensures { Gives (λ t. t.now) result (content_named text.now) }
{
    if text.is_empty() {
        return Err(stop(alloc, Code::S03, "contentDirectory"));
    }
    if has_byte(text.as_bytes(), b'/') {
        return Err(stop(alloc, Code::E017, text));
    }
    if text == "." || text == ".." {
        return Err(stop(alloc, Code::E018, text));
    }
    Ok(text)
}

fn content_in<'v>(alloc: Global, map: &'v Map<String, Value>) -> Result<&'v str, InventoryStop>
    ensures { Gives (λ t. t.now) result
        (content_from (get_member (codes "contentDirectory") (members_view map.now.entries))) }
{
    let Some(value) = member(map, "contentDirectory") else {
        return Ok("content");
    };
    let Some(text) = value.as_str() else {
        return Err(stop(alloc, Code::S03, "contentDirectory"));
    };
    content_text(alloc, text)
}

fn content(alloc: Global, map: &Map<String, Value>) -> Result<String, InventoryStop>
    ensures { Gives string_bytes result
        (content_from (get_member (codes "contentDirectory") (members_view map.now.entries))) }
{
    let text = content_in(alloc, map)?;
    Ok(String::from_str(alloc, text)?)
}

fn manifest(alloc: Global, value: Option<Value>) -> Result<Vec<Listing>, InventoryStop>
    ensures { Gives (λ b. block_view b.items) result (manifest_from (option_map view value)) }
{
    let Some(value) = value else {
        return Err(stop(alloc, Code::E041, "manifest"));
    };
    let Some(listings) = block(alloc, value)? else {
        return Err(stop(alloc, Code::S03, "manifest"));
    };
    Ok(listings)
}

fn fixity(alloc: Global, value: Option<Value>) -> Result<Option<Map<String, Value>>, InventoryStop>
    ensures { Gives fixity_view result (fixity_from (option_map view value)) }
{
    let Some(value) = value else {
        return Ok(None);
    };
    let Some(members) = members(value) else {
        return Err(stop(alloc, Code::S03, "fixity"));
    };
    Ok(Some(members))
}

/// Appends the block of one algorithm, and answers whether it is of the form.
fn take_block(
    alloc: Global,
    value: Option<Value>,
    algorithm: Algorithm,
    found: &mut Vec<Supported>,
) -> Result<bool, AllocError>
    ensures { IfOk result (λ b. with_block (supported_view found.old.items)
        (option_map view value) algorithm
        ≡ (if b then Some (supported_view found.new.items) else None)) }
{
    let Some(value) = value else {
        return Ok(true);
    };
    let Some(block) = block(alloc, value)? else {
        return Ok(false);
    };
    found.push(Supported { algorithm, block })?;
    Ok(true)
}

/// Takes the value of an algorithm's member out of a fixity block.
fn take_for(map: &mut Map<String, Value>, algorithm: Algorithm) -> Option<Value>
    ensures value { option_map view result ≡ value_for algorithm (members_view map.old.entries) }
    ensures others { (a : Algorithm) → text_eq (algorithm_name a) (algorithm_name algorithm) ≡ false
        → value_for a (members_view map.new.entries) ≡ value_for a (members_view map.old.entries) }
{
    take_member(map, algorithm.name())
}

/// The blocks of the supported algorithms, in the algorithms' order. `None` if one is not of the
/// form.
fn supported_blocks(
    alloc: Global,
    mut map: Map<String, Value>,
) -> Result<Option<Vec<Supported>>, AllocError>
    ensures { IfOk result (λ o. option_map (λ v. supported_view v.items) o
        ≡ blocks_for (members_view map.entries) all_supported) }
{
    let mut found = Vec::new(alloc);
    for algorithm in Algorithm::ALL {
        let value = take_for(&mut map, algorithm);
        if !take_block(alloc, value, algorithm, &mut found)? {
            return Ok(None);
        }
    }
    Ok(Some(found))
}

/// The keys that name no supported algorithm, in the order of the members.
fn unsupported_keys(alloc: Global, members: &Map<String, Value>) -> Result<Vec<String>, AllocError>
    ensures { IfOk result (λ v. map string_bytes v.items
        ≡ filter (λ k. not (is_some (algorithm_named k)))
        (keys_of (members_view members.now.entries))) }
{
    let mut found = Vec::new(alloc);
    for (key, _) in members.iter() {
        if Algorithm::named(key.as_str()).is_none() {
            add_text(alloc, key.as_str(), &mut found)?;
        }
    }
    Ok(found)
}

/// The keys that name no supported algorithm, ascending by bytes.
fn unsupported(alloc: Global, members: &Map<String, Value>) -> Result<Vec<String>, AllocError>
    ensures { IfOk result (λ v. map string_bytes v.items
        ≡ unsupported_in (members_view members.now.entries)) }
{
    let mut keys = unsupported_keys(alloc, members)?;
    put_in_order(&mut keys);
    Ok(keys)
}

/// Takes the manifest out of the members of an inventory, which leaves the fixity block.
fn take_manifest(map: &mut Map<String, Value>) -> Option<Value>
    ensures value { option_map view result ≡ get_member (codes "manifest")
        (members_view map.old.entries) }
    ensures fixity { get_member (codes "fixity") (members_view map.new.entries)
        ≡ get_member (codes "fixity") (members_view map.old.entries) }
{
    take_member(map, "manifest")
}

/// Reads what an inventory of an algorithm holds.
pub(crate) fn read_behind_algorithm(
    alloc: Global,
    mut map: Map<String, Value>,
    algorithm: Algorithm,
) -> Result<Inventory, InventoryStop>
    ensures { Gives inventory_view result (behind_algorithm (members_view map.entries) algorithm) }
{
    let content = content(alloc, &map)?;
    let manifest = manifest(alloc, take_manifest(&mut map))?;
    let fixity = fixity(alloc, take_member(&mut map, "fixity"))?;
    let Some(members) = fixity else {
        return Ok(Inventory {
            algorithm,
            content,
            manifest,
            fixity: Vec::new(alloc),
            unsupported: Vec::new(alloc),
        });
    };
    let unsupported = unsupported(alloc, &members)?;
    let Some(fixity) = supported_blocks(alloc, members)? else {
        return Err(stop(alloc, Code::S03, "fixity"));
    };
    Ok(Inventory {
        algorithm,
        content,
        manifest,
        fixity,
        unsupported,
    })
}

/// The digest algorithm that the members of an inventory name, if they name one of an inventory.
fn stated_algorithm(
    alloc: Global,
    map: &Map<String, Value>,
) -> Result<Option<Algorithm>, AllocError>
    ensures { IfOk result (λ a. a ≡ result_ok (algorithm_in (members_view map.now.entries))) }
{
    match read_algorithm(alloc, map) {
        Ok(algorithm) => Ok(Some(algorithm)),
        Err(InventoryStop::Memory) => Err(AllocError),
        Err(InventoryStop::Because(_)) => Ok(None),
    }
}

/// The digest algorithm that the bytes of an inventory name (OCFL 1.1, 3.5.1 Basic Structure).
///
/// The bytes are those of an `inventory.json`. `None` is answered if they are no JSON object in
/// UTF-8 (RFC 8259), and if `digestAlgorithm` is missing, is no text, or is neither `sha256` nor
/// `sha512`. The error is running out of memory.
pub fn algorithm_of(alloc: Global, bytes: &[u8]) -> Result<Option<Algorithm>, AllocError>
    ensures { IfOk result (λ a. a ≡ result_ok (algorithm_stated bytes.now)) }
{
    match object(alloc, bytes) {
        Ok(map) => stated_algorithm(alloc, &map),
        Err(InventoryStop::Memory) => Err(AllocError),
        Err(InventoryStop::Because(_)) => Ok(None),
    }
}
