//! The lines of an inventory that does not stop.
ghost use Rattle.std.specs.Prelude.{◌≡◌, ◌++◌, ◌∷◌, [], map, filter_map, flat_map, IfOk, OnOk, string_bytes};
ghost use Rattle.std.specs.List.{cons_option};
ghost use Rattle.ocfl_tree.specs.Path.{slashed};
ghost use Rattle.ocfl_inventory.specs.Note.{note};
ghost use Rattle.ocfl_inventory.specs.Notes.{fault_note, fault_notes, folded_keys, repeated_digests, repeated_notes};
ghost use Rattle.ocfl_inventory.specs.Internal.Parts.{block_view, supported_view};
ghost use Rattle.ocfl_inventory.specs.Remark.{remark_view};
ghost use Rattle.ocfl_inventory.specs.Internal.ListsOf.{all_repeated, repeated_note, other_notes};
ghost use Rattle.ocfl_digest.specs.Algorithm.{algorithm_name};

use crate::gather::Listed;
use crate::inventory::{Listing, Supported};
use crate::keys::{Key, repeated};
use crate::paths::fault;
use crate::remark::Remark;
use crate::texts::put_in_order;
use ocfl_digest::Algorithm;
use ocfl_report::Code;
use ocfl_tree::Place;
use std::alloc::{AllocError, Global};

/// Appends a line with this detail.
fn add_owned(code: Code, detail: String, out: &mut Vec<Remark>) -> Result<(), AllocError>
    ensures { OnOk result (map remark_view out.new.items
        ≡ map remark_view out.old.items ++ note code (string_bytes detail) ∷ []) }
{
    Ok(out.push(Remark { code, detail })?)
}

/// Appends a line.
fn add(alloc: Global, code: Code, detail: &str, out: &mut Vec<Remark>) -> Result<(), AllocError>
    ensures { OnOk result (map remark_view out.new.items
        ≡ map remark_view out.old.items ++ note code detail.now ∷ []) }
{
    add_owned(code, String::from_str(alloc, detail)?, out)
}

/// Appends the line of a bad path.
fn add_fault(
    alloc: Global,
    content: &str,
    text: &str,
    out: &mut Vec<Remark>,
) -> Result<(), AllocError>
    ensures { OnOk result (map remark_view out.new.items ≡ map remark_view out.old.items
        ++ cons_option (fault_note content.now text.now) []) }
{
    match fault(content, text) {
        Some(code) => add(alloc, code, text, out),
        None => Ok(()),
    }
}

/// Appends the lines of the bad paths among the texts, in the order of these.
fn add_each_fault(
    alloc: Global,
    content: &str,
    texts: &[String],
    out: &mut Vec<Remark>,
) -> Result<(), AllocError>
    ensures { OnOk result (map remark_view out.new.items ≡ map remark_view out.old.items
        ++ filter_map (fault_note content.now) (map string_bytes texts.now)) }
{
    for text in texts {
        add_fault(alloc, content, text.as_str(), out)?;
    }
    Ok(())
}

/// Puts the texts in order, each once, and appends the lines of the bad paths among them.
fn add_faults(
    alloc: Global,
    content: &str,
    texts: &mut Vec<String>,
    out: &mut Vec<Remark>,
) -> Result<(), AllocError>
    ensures { OnOk result (map remark_view out.new.items ≡ map remark_view out.old.items
        ++ fault_notes content.now (map string_bytes texts.old.items)) }
{
    put_in_order(texts);
    add_each_fault(alloc, content, texts, out)
}

/// Appends the lines of the paths that conflict.
fn add_conflicts(alloc: Global, places: &[Place], out: &mut Vec<Remark>) -> Result<(), AllocError>
    ensures { OnOk result (map remark_view out.new.items ≡ map remark_view out.old.items
        ++ map (λ p. note Code.E101 (slashed p)) places.now) }
{
    for place in places {
        add(alloc, Code::E101, place.path(), out)?;
    }
    Ok(())
}

/// Appends the lines of the algorithms of fixity that are not computed.
fn add_unsupported(alloc: Global, keys: &[String], out: &mut Vec<Remark>) -> Result<(), AllocError>
    ensures { OnOk result (map remark_view out.new.items ≡ map remark_view out.old.items
        ++ map (note Code.S07) (map string_bytes keys.now)) }
{
    for key in keys {
        add(alloc, Code::S07, key.as_str(), out)?;
    }
    Ok(())
}

/// The keys of a block.
fn keys<'t>(alloc: Global, block: &'t [Listing]) -> Result<Vec<Key<'t>>, AllocError>
    ensures { IfOk result (λ v. v.items ≡ folded_keys (block_view block.now)) }
{
    let mut found = Vec::with_capacity(alloc, block.len())?;
    for listing in block {
        found.push(Key::new(listing.key.as_str()))?;
    }
    Ok(found)
}

/// The keys that occur twice or more in a block, once, in order.
fn repeated_keys<'t>(alloc: Global, block: &'t [Listing]) -> Result<Vec<Key<'t>>, AllocError>
    ensures { IfOk result (λ v. v.items ≡ repeated_digests (block_view block.now)) }
{
    repeated(alloc, keys(alloc, block)?)
}

/// The detail of a digest that is repeated in an algorithm's block.
fn beside(alloc: Global, algorithm: Algorithm, key: &Key) -> Result<String, AllocError>
    ensures { IfOk result (λ s. string_bytes s ≡ algorithm_name algorithm ++ 32 ∷ key.now) }
{
    let name = algorithm.name();
    let digest = key.folded(alloc)?;
    format!(in alloc; "{name} {digest}")
}

/// Appends the line of a digest that is repeated in the manifest, or in an algorithm's block.
fn add_key(
    alloc: Global,
    algorithm: Option<Algorithm>,
    key: &Key,
    out: &mut Vec<Remark>,
) -> Result<(), AllocError>
    ensures { OnOk result (map remark_view out.new.items
        ≡ map remark_view out.old.items ++ repeated_note algorithm key.now ∷ []) }
{
    match algorithm {
        None => add_owned(Code::E096, key.folded(alloc)?, out),
        Some(algorithm) => add_owned(Code::E097, beside(alloc, algorithm, key)?, out),
    }
}

/// Appends the lines of the digests that are repeated in the manifest, or in an algorithm's block.
fn add_repeated(
    alloc: Global,
    algorithm: Option<Algorithm>,
    block: &[Listing],
    out: &mut Vec<Remark>,
) -> Result<(), AllocError>
    ensures { OnOk result (map remark_view out.new.items ≡ map remark_view out.old.items
        ++ map (repeated_note algorithm) (repeated_digests (block_view block.now))) }
{
    for key in &repeated_keys(alloc, block)? {
        add_key(alloc, algorithm, key, out)?;
    }
    Ok(())
}

fn add_repeated_fixity(
    alloc: Global,
    fixity: &[Supported],
    out: &mut Vec<Remark>,
) -> Result<(), AllocError>
    ensures { OnOk result (map remark_view out.new.items
        ≡ map remark_view out.old.items ++ flat_map repeated_notes (supported_view fixity.now)) }
{
    for supported in fixity {
        add_repeated(alloc, Some(supported.algorithm), &supported.block, out)?;
    }
    Ok(())
}

/// The lines of the digests that several keys of an inventory have.
pub(crate) fn repeated_lines(
    alloc: Global,
    manifest: &[Listing],
    fixity: &[Supported],
) -> Result<Vec<Remark>, AllocError>
    ensures { IfOk result (λ v. map remark_view v.items
        ≡ all_repeated (block_view manifest.now) (supported_view fixity.now)) }
{
    let mut lines = Vec::new(alloc);
    add_repeated(alloc, None, manifest, &mut lines)?;
    add_repeated_fixity(alloc, fixity, &mut lines)?;
    Ok(lines)
}

/// Appends the other lines of an inventory that does not stop, from what it lists.
pub(crate) fn add_others(
    alloc: Global,
    content: &str,
    lists: &mut Listed,
    unsupported: &[String],
    lines: &mut Vec<Remark>,
) -> Result<(), AllocError>
    ensures { OnOk result (map remark_view lines.new.items
        ≡ map remark_view lines.old.items ++ other_notes content.now lists.old
        (map string_bytes unsupported.now)) }
{
    add_faults(alloc, content, &mut lists.manifest_bad, lines)?;
    add_faults(alloc, content, &mut lists.fixity_bad, lines)?;
    add_conflicts(alloc, &lists.conflicting, lines)?;
    add_unsupported(alloc, unsupported, lines)
}
