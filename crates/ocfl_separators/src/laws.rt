//! The laws of separators and their text.
ghost use Rattle.std.specs.Prelude.{◌≡◌, ◌≢◌, ◌⊎◌, List, ℕ, ◌<◌, length, IfOk};
ghost use Rattle.ocfl_tree.specs.Place.{Place as ModelPlace, Text};
ghost use Rattle.ocfl_separators.specs.Separators.{AreSeparators, parts_text};
ghost use Rattle.ocfl_separators.specs.Parts.{max_bytes, IsPartsText, IsBadLine, HasMoreLines};

use crate::reading::{PartsStop, read_parts};
use crate::separators::Separators;
use crate::writing::put_parts;
use std::alloc::Global;

/// The text of separators determines them.
#[tactic(auto, using(crate::proofs::PartsTexts::parts_text_determines))]
pub fn text_determines_the_separators()
    ensures { (ps qs : List ModelPlace) → AreSeparators ps → AreSeparators qs
        → parts_text ps ≡ parts_text qs → ps ≡ qs }
{}

/// No text of separators is refused: it has no bad line, and is not too long.
#[tactic(auto, using(crate::proofs::PartsTexts::not_bad, crate::proofs::PartsTexts::not_long))]
pub fn no_separators_are_refused()
    ensures line { (b : Text) (n : ℕ) (ps : List ModelPlace)
        → IsPartsText b ps → IsBadLine b n → ⊥ }
    ensures long { (b : Text) (ps : List ModelPlace)
        → IsPartsText b ps → (max_bytes < length b) ⊎ HasMoreLines b → ⊥ }
{}

/// Bytes that are refused have a bad line or are too long, and never both.
pub fn refused_separators_have_one_fault()
    ensures { (b : Text) (n : ℕ) → IsBadLine b n
        → (max_bytes < length b) ⊎ HasMoreLines b → ⊥ }
{}

/// What is written of separators is read as those, unless memory runs out or the text is too long.
pub fn parts_read_back(alloc: Global, separators: &Separators) -> Result<Separators, PartsStop>
    ensures same { IfOk result (λ read. read ≡ separators.now) }
    ensures no_bad_line { (n : ℕ) → result ≢ Err (PartsStop.Line n) }
{
    let _ = separators.places();
    let mut text = Vec::new(alloc);
    match put_parts(separators, &mut text) {
        Ok(()) => {
            let mut reader = text.as_slice();
            read_parts(alloc, &mut reader)
        }
        Err(_) => Err(PartsStop::Memory),
    }
}
