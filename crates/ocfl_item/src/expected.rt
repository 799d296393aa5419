//! The digests that are expected of a file.
ghost use Rattle.std.specs.Prelude.{◌≡◌, IfOk, OnOk, map, ◌++◌, ◌∷◌, []};
ghost use Rattle.ocfl_inventory.specs.TripleView.{named_view};
ghost use Rattle.ocfl_item.specs.Pending.{expected_view};
ghost use Rattle.ocfl_item.specs.Internal.FileLines.{expected_by_name};

use crate::lines::code_of;
use ocfl_digest::Algorithm;
use ocfl_inventory::Named;
use ocfl_report::Code;
use std::alloc::{AllocError, Global};

/// A digest that is expected of a file, and the code of the line if the file has another one.
#[derive(Debug, Drop)]
pub(crate) struct Expected {
    pub(crate) code: Code,
    pub(crate) algorithm: Algorithm,
    pub(crate) digest: String,
}

impl Expected {
    /// A digest that an inventory names.
    fn of_named(named: Named) -> Expected
        ensures { expected_view result ≡ expected_by_name (named_view named) }
    {
        let code = code_of(&named);
        Expected {
            code,
            algorithm: named.algorithm,
            digest: named.digest,
        }
    }
}

/// Appends the digest that an inventory names.
fn add_named(expected: &mut Vec<Expected>, named: Named) -> Result<(), AllocError>
    ensures { OnOk result (map expected_view expected.new.items
        ≡ map expected_view expected.old.items ++ expected_by_name (named_view named) ∷ []) }
{
    expected.push(Expected::of_named(named))?;
    Ok(())
}

/// The digests that an inventory names for a file, as they are expected of it.
pub(crate) fn expected_of_named(
    alloc: Global,
    named: Vec<Named>,
) -> Result<Vec<Expected>, AllocError>
    ensures { IfOk result (λ expected. map expected_view expected.items
        ≡ map (λ n. expected_by_name (named_view n)) named.items) }
{
    let mut expected = Vec::with_capacity(alloc, named.len())?;
    for entry in named {
        add_named(&mut expected, entry)?;
    }
    Ok(expected)
}
