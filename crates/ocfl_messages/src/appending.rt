//! Texts that are appended once they are made.
ghost use Rattle.std.specs.Prelude.{◌≡◌, ◌++◌, OnOk, IsOkAnd, string_bytes};

use std::alloc::AllocError;

/// Appends a text, once it is made.
pub(crate) fn put_made(
    made: Result<String, AllocError>,
    text: &mut Vec<u8>,
) -> Result<(), AllocError>
    ensures { OnOk result
        (IsOkAnd made (λ s. text.new.items ≡ text.old.items ++ string_bytes s)) }
{
    text.extend_from_slice(made?.as_bytes())
}
