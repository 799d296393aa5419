//! A name: one step on the way to a place.
ghost use Rattle.std.specs.Prelude.{◌≡◌, ◌≢◌, ◌↔◌, ℕ, List, All, IsTrue, IfOk, OnOk, Some, nat_eq, string_bytes, refl};
ghost use Rattle.std.specs.Cmp.{partial_equiv_from_equiv};
ghost use Rattle.std.specs.Cmp.Lexicographic.{pointwise, slice_cmp, nat_list_eq_equiv, nat_list_cmp_total, texts_po, texts_ties};
ghost use Rattle.std.specs.Ordering.{nat_cmp};
ghost use Rattle.ocfl_tree.specs.Name.{HasNameBytes, IsName};

use std::alloc::{AllocError, Global};
use std::cmp::Ordering;
use std::marker::Model;

/// The name of an entry of a directory: text of 1 to 255 bytes without `/` and NUL that is neither
/// `.` nor `..`. Its value in clauses: its bytes.
#[derive(Debug, Drop)]
pub struct Name {
    text: String,
}

impl Model for Name {
    ghost Value = { List ℕ };

    ghost view = { λ a. string_bytes a.text };

    ghost invariant = { λ a. IsName (string_bytes a.text) };
}

/// Why a text is not made a name: it is not a name, or memory was refused.
#[derive(Clone, Copy, Debug, PartialEq, Eq)]
pub enum NameStop {
    Bad,
    Memory,
}

/// Whether no byte is a slash or NUL.
fn are_plain(bytes: &[u8]) -> bool
    ensures { IsTrue result ↔ All (λ b. (b ≢ 47) × (b ≢ 0)) bytes.now }
{
    bytes.iter().all(|&b| b != b'/' && b != 0)
}

fn has_name_bytes(text: &str) -> bool
    ensures { IsTrue result ↔ HasNameBytes text.now }
{
    let bytes = text.as_bytes();
    !bytes.is_empty() && bytes.len() <= 255 && are_plain(bytes) && text != "." && text != ".."
}

impl Name {
    /// The name of this text. `Bad` exactly if the text is no name.
    pub fn new(alloc: Global, text: &str) -> Result<Name, NameStop>
        ensures named { IfOk result (λ name. name ≡ text.now) }
        ensures ok { OnOk result (IsName text.now) }
        ensures bad { (result ≡ Err NameStop.Bad) ↔ (IsName text.now → ⊥) }
    {
        if !has_name_bytes(text) {
            return Err(NameStop::Bad);
        }
        match String::from_str(alloc, text) {
            Ok(text) => Ok(Name { text }),
            Err(_) => Err(NameStop::Memory),
        }
    }

    /// The name of a text that is one. The only error is running out of memory.
    pub(crate) fn of(alloc: Global, text: &str) -> Result<Name, AllocError>
        requires { IsName text.now }
        ensures { IfOk result (λ name. name ≡ text.now) }
    {
        Ok(Name {
            text: String::from_str(alloc, text)?,
        })
    }

    /// The text of the name.
    pub fn as_str(&self) -> &str
        ensures value { result.now ≡ self.now }
        ensures name { IsName self.now }
    {
        self.text.as_str()
    }

    /// A copy of the name. The only error is running out of memory.
    pub fn try_clone(&self) -> Result<Name, AllocError>
        ensures { IfOk result (λ name. name ≡ self.now) }
    {
        Ok(Name {
            text: self.text.clone()?,
        })
    }
}

impl PartialEq for Name {
    ghost eq = { pointwise nat_eq };

    ghost laws = { partial_equiv_from_equiv nat_list_eq_equiv };

    fn eq(&self, other: &Name) -> bool {
        self.text == other.text
    }
}

impl Eq for Name {
    ghost laws = { nat_list_eq_equiv };
}

impl PartialOrd for Name {
    ghost partial_cmp = { λ x y. Some (slice_cmp nat_cmp x y) };

    ghost laws = { texts_po };

    fn partial_cmp(&self, other: &Name) -> Option<Ordering> {
        Some(self.cmp(other))
    }
}

/// By bytes.
impl Ord for Name {
    ghost cmp = { slice_cmp nat_cmp };

    ghost total = { nat_list_cmp_total };

    ghost matches_partial_cmp = { λ x y. refl };

    ghost matches_eq = { texts_ties };

    fn cmp(&self, other: &Name) -> Ordering {
        self.text.cmp(&other.text)
    }
}
