//! Texts: what is in them, and their order.
ghost use Rattle.std.specs.{Prelude.{◌≡◌, ◌==◌, ◌++◌, ◌∷◌, [], map, string_bytes, OnOk}, List.{list_any}};
ghost use Rattle.ocfl_tree.specs.{Place.{text_cmp}, Ascending.{ascending}};

use std::alloc::{AllocError, Global};

pub(crate) fn has_byte(bytes: &[u8], byte: u8) -> bool
    ensures { result ≡ list_any (λ b. b == byte) bytes.now }
{
    bytes.contains(&byte)
}

/// Puts the texts in order, each once.
pub(crate) fn put_in_order(texts: &mut Vec<String>)
    ensures { map string_bytes texts.new.items
        ≡ ascending text_cmp (map string_bytes texts.old.items) }
{
    texts.sort_unstable();
    texts.dedup();
}

/// Appends a copy of a text.
pub(crate) fn add_text(alloc: Global, text: &str, texts: &mut Vec<String>) -> Result<(), AllocError>
    ensures { OnOk result (map string_bytes texts.new.items
        ≡ map string_bytes texts.old.items ++ text.now ∷ []) }
{
    let copy = String::from_str(alloc, text)?;
    Ok(texts.push(copy)?)
}
