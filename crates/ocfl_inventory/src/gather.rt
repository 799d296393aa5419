//! The listed paths of an inventory, kept ones apart from bad ones.
ghost use Rattle.std.specs.Prelude.{◌≡◌, ◌++◌, ◌∷◌, [], OnOk, map, flat_map, true, false, string_bytes, IfOk, IsPermutation};
ghost use Rattle.std.specs.List.Sorted.{IsSorted};
ghost use Rattle.ocfl_inventory.specs.Table.{triples_of, triple_cmp};
ghost use Rattle.ocfl_inventory.specs.Internal.Parts.{block_view, listing_view, supported_view, text_in, texts_among};
ghost use Rattle.ocfl_inventory.specs.Internal.ListsOf.{all_triples, AreListed};
ghost use Rattle.ocfl_inventory.specs.{DigestText.{folded}, TripleView.{named_view}};
ghost use Rattle.ocfl_inventory.specs.Internal.Gathered.{Gathers, kept_from, bad_from, key_triples, bad_texts};

use crate::conflicts::conflicts;
use crate::inventory::{Listing, Supported};
use crate::paths::kept_place;
use crate::sorting::sort;
use crate::triple::{Named, Triple};
use ocfl_digest::Algorithm;
use ocfl_tree::Place;
use serde_json::Value;
use std::alloc::{AllocError, Global};

/// What the listed paths are gathered for.
#[derive(Clone, Copy)]
pub(crate) struct Source<'t> {
    pub(crate) content: &'t str,
    pub(crate) fixity: bool,
    pub(crate) algorithm: Algorithm,
}

/// The paths that are kept, with their digests, and the texts of the others.
#[derive(Drop)]
pub(crate) struct Gathered {
    pub(crate) triples: Vec<Triple>,
    pub(crate) bad: Vec<String>,
}

/// The texts of an inventory's listed paths that have lines.
#[derive(Drop)]
pub(crate) struct Listed {
    /// The bad path texts of the manifest.
    pub(crate) manifest_bad: Vec<String>,
    /// The bad path texts of the fixity block.
    pub(crate) fixity_bad: Vec<String>,
    /// The conflicting paths of the manifest, in order, each once.
    pub(crate) conflicting: Vec<Place>,
}

impl Source<'_> {
    /// The digest with this text.
    fn name(&self, digest: String) -> Named
        ensures { named_view result ≡ record {
          fixity = self.now.fixity;
          algorithm = self.now.algorithm;
          digest = string_bytes digest;
        } }
    {
        Named {
            fixity: self.fixity,
            algorithm: self.algorithm,
            digest,
        }
    }
}

/// The text with small letters.
fn small(mut text: String) -> String
    ensures { string_bytes result ≡ folded (string_bytes text) }
{
    text.make_ascii_lowercase();
    text
}

/// Appends the path that a value lists, with its digest, or its text if it is bad.
fn gather_value(
    alloc: Global,
    source: &Source,
    digest: String,
    value: Value,
    found: &mut Gathered,
) -> Result<(), AllocError>
    ensures { OnOk result (Gathers found.old found.new
        (kept_from source.now (string_bytes digest) (text_in value))
        (bad_from source.now (text_in value))) }
{
    let Value::String(text) = value else {
        return Ok(());
    };
    match kept_place(alloc, source.content, text.as_str())? {
        Some(path) => found.triples.push(Triple::new(path, source.name(digest)))?,
        None => found.bad.push(text)?,
    }
    Ok(())
}

fn gather_values(
    alloc: Global,
    source: &Source,
    digest: &String,
    values: Vec<Value>,
    found: &mut Gathered,
) -> Result<(), AllocError>
    ensures { OnOk result (Gathers found.old found.new
        (kept_from source.now (string_bytes digest.now) (texts_among values.items))
        (bad_from source.now (texts_among values.items))) }
{
    for value in values {
        gather_value(alloc, source, digest.clone()?, value, found)?;
    }
    Ok(())
}

/// Gathers what one key lists. The last value takes the key's text, and those before it copies.
fn gather_listing(
    alloc: Global,
    source: &Source,
    listing: Listing,
    found: &mut Gathered,
) -> Result<(), AllocError>
    ensures { let listed = listing_view listing in OnOk result (Gathers found.old found.new
        (key_triples source.now.fixity source.now.content.now source.now.algorithm listed)
        (bad_from source.now listed.1)) }
{
    let Listing { key, mut values } = listing;
    let digest = small(key);
    let Some(last) = values.pop() else {
        return Ok(());
    };
    gather_values(alloc, source, &digest, values, found)?;
    gather_value(alloc, source, digest, last, found)
}

/// Gathers what a block lists.
fn gather_block(
    alloc: Global,
    source: &Source,
    block: Vec<Listing>,
    found: &mut Gathered,
) -> Result<(), AllocError>
    ensures { let listed = block_view block.items in OnOk result (Gathers found.old found.new
        (triples_of source.now.fixity source.now.content.now source.now.algorithm listed)
        (bad_texts source.now.content.now listed)) }
{
    for listing in block {
        gather_listing(alloc, source, listing, found)?;
    }
    Ok(())
}

/// Gathers what the supported algorithms of a fixity block list.
fn gather_fixity(
    alloc: Global,
    content: &str,
    fixity: Vec<Supported>,
    found: &mut Gathered,
) -> Result<(), AllocError>
    ensures { OnOk result (Gathers found.old found.new
        (flat_map (λ e. triples_of true content.now e.0 e.1) (supported_view fixity.items))
        (flat_map (λ e. bad_texts content.now e.1) (supported_view fixity.items))) }
{
    for supported in fixity {
        let source = Source {
            content,
            fixity: true,
            algorithm: supported.algorithm,
        };
        gather_block(alloc, &source, supported.block, found)?;
    }
    Ok(())
}

/// Gathers what the manifest lists, and sorts what is kept.
fn gather_manifest(
    alloc: Global,
    content: &str,
    algorithm: Algorithm,
    manifest: Vec<Listing>,
) -> Result<Gathered, AllocError>
    ensures triples { IfOk result (λ g. IsPermutation
        (triples_of false content.now algorithm (block_view manifest.items)) g.triples.items) }
    ensures sorted { IfOk result (λ g. IsSorted triple_cmp g.triples.items) }
    ensures bad { IfOk result (λ g. map string_bytes g.bad.items
        ≡ bad_texts content.now (block_view manifest.items)) }
{
    let source = Source {
        content,
        fixity: false,
        algorithm,
    };
    let mut found = Gathered {
        triples: Vec::with_capacity(alloc, manifest.len())?,
        bad: Vec::new(alloc),
    };
    gather_block(alloc, &source, manifest, &mut found)?;
    sort(&mut found.triples)?;
    Ok(found)
}

/// Gathers what the fixity block lists beside sorted triples, and sorts all that is kept.
fn gather_beside(
    alloc: Global,
    content: &str,
    fixity: Vec<Supported>,
    triples: Vec<Triple>,
) -> Result<Gathered, AllocError>
    requires { IsSorted triple_cmp triples.items }
    ensures triples { IfOk result (λ g. IsPermutation
        (triples.items ++ flat_map (λ e. triples_of true content.now e.0 e.1)
        (supported_view fixity.items)) g.triples.items) }
    ensures sorted { IfOk result (λ g. IsSorted triple_cmp g.triples.items) }
    ensures bad { IfOk result (λ g. map string_bytes g.bad.items
        ≡ flat_map (λ e. bad_texts content.now e.1) (supported_view fixity.items)) }
{
    let mut found = Gathered {
        triples,
        bad: Vec::new(alloc),
    };
    if fixity.is_empty() {
        return Ok(found);
    }
    gather_fixity(alloc, content, fixity, &mut found)?;
    sort(&mut found.triples)?;
    Ok(found)
}

/// Gathers what an inventory lists: its kept paths with their digests, sorted and as often as they
/// are listed, and the texts that have lines.
pub(crate) fn gather(
    alloc: Global,
    content: &str,
    algorithm: Algorithm,
    manifest: Vec<Listing>,
    fixity: Vec<Supported>,
) -> Result<(Vec<Triple>, Listed), AllocError>
    ensures triples { IfOk result (λ r. IsPermutation
        (all_triples content.now algorithm (block_view manifest.items)
        (supported_view fixity.items)) r.0.items) }
    ensures sorted { IfOk result (λ r. IsSorted triple_cmp r.0.items) }
    ensures listed { IfOk result (λ r. AreListed content.now (block_view manifest.items)
        (supported_view fixity.items) r.1) }
{
    let manifest = gather_manifest(alloc, content, algorithm, manifest)?;
    let conflicting = conflicts(alloc, &manifest.triples)?;
    let found = gather_beside(alloc, content, fixity, manifest.triples)?;
    let listed = Listed {
        manifest_bad: manifest.bad,
        fixity_bad: found.bad,
        conflicting,
    };
    Ok((found.triples, listed))
}
