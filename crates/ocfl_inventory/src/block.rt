//! The blocks of an inventory, taken out of a JSON value.
ghost use Rattle.std.specs.Prelude.{◌≡◌, false, option_map, option_and_then, is_some, IfOk};
ghost use Rattle.std.specs.List.{list_all};
ghost use Rattle.serde_json.specs.View.{view, items_view, members_view};
ghost use Rattle.serde_json.specs.Find.{get_member, as_array, as_object, as_str};
ghost use Rattle.ocfl_tree.specs.Place.{Text, text_eq};
ghost use Rattle.ocfl_inventory.specs.Internal.Parts.{block_view, texts_among};
ghost use Rattle.ocfl_inventory.specs.Reading.{texts_of, lists_of, block_of};

use crate::inventory::Listing;
use serde_json::{Map, Value};
use std::alloc::{AllocError, Global};

pub(crate) fn member<'v>(map: &'v Map<String, Value>, name: &str) -> Option<&'v Value>
    ensures { option_map (λ x. view x.now) result
        ≡ get_member name.now (members_view map.now.entries) }
{
    map.get(name)
}

/// Whether all values are texts.
fn are_texts(values: &[Value]) -> bool
    ensures { result ≡ list_all (λ v. is_some (as_str (view v))) values.now }
{
    values.iter().all(|value| value.is_string())
}

/// Takes a member out of a map, which leaves the others as they are.
pub(crate) fn take_member(map: &mut Map<String, Value>, name: &str) -> Option<Value>
    ensures value { option_map view result ≡ get_member name.now (members_view map.old.entries) }
    ensures others { (q : Text) → text_eq q name.now ≡ false
        → get_member q (members_view map.new.entries)
        ≡ get_member q (members_view map.old.entries) }
{
    map.remove(name)
}

/// The values of an array.
fn array(value: Value) -> Option<Vec<Value>>
    ensures { option_map (λ vs. items_view vs.items) result ≡ as_array (view value) }
{
    match value {
        Value::Array(values) => Some(values),
        _ => None,
    }
}

/// The members of an object.
pub(crate) fn members(value: Value) -> Option<Map<String, Value>>
    ensures { option_map (λ m. members_view m.entries) result ≡ as_object (view value) }
{
    match value {
        Value::Object(map) => Some(map),
        _ => None,
    }
}

/// The values of an array of texts.
fn texts_in(value: Value) -> Option<Vec<Value>>
    ensures { option_map (λ vs. texts_among vs.items) result
        ≡ option_and_then texts_of (as_array (view value)) }
{
    let values = array(value)?;
    if are_texts(&values) {
        Some(values)
    } else {
        None
    }
}

fn lists(alloc: Global, map: Map<String, Value>) -> Result<Option<Vec<Listing>>, AllocError>
    ensures { IfOk result (λ o. option_map (λ v. block_view v.items) o
        ≡ lists_of (members_view map.entries)) }
{
    let mut block = Vec::with_capacity(alloc, map.len())?;
    for (key, value) in map {
        let Some(values) = texts_in(value) else {
            return Ok(None);
        };
        block.push(Listing { key, values })?;
    }
    Ok(Some(block))
}

pub(crate) fn block(alloc: Global, value: Value) -> Result<Option<Vec<Listing>>, AllocError>
    ensures { IfOk result (λ o. option_map (λ v. block_view v.items) o ≡ block_of (view value)) }
{
    match members(value) {
        Some(map) => lists(alloc, map),
        None => Ok(None),
    }
}
