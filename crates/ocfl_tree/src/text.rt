//! Texts compared.
ghost use Rattle.std.specs.Prelude.{◌≡◌};
ghost use Rattle.ocfl_tree.specs.Place.{text_eq};

/// Whether two runs of bytes are the same.
pub fn is_bytes(bytes: &[u8], other: &[u8]) -> bool
    ensures { result ≡ text_eq bytes.now other.now }
{
    bytes == other
}

/// Whether two texts are the same.
pub fn is_text(text: &str, other: &str) -> bool
    ensures { result ≡ text_eq text.now other.now }
{
    text == other
}
