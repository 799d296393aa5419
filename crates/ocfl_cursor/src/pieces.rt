//! Taking stored texts apart: prefixes and lines.
ghost use Rattle.std.specs.Prelude.{◌≡◌, ◌≢◌, List, ℕ, [], ◌∷◌, ◌++◌, ◌==◌, count_by, IfSome, IsNone};
ghost use Rattle.ocfl_cursor.specs.Sealed.{first_line as first_line_of};

use ocfl_report::split_once;

/// What follows this beginning of the text. `None` if the text does not begin so.
pub fn after_prefix<'a>(prefix: &[u8], text: &'a [u8]) -> Option<&'a [u8]>
    ensures found { IfSome result (λ rest. text.now ≡ prefix.now ++ rest.now) }
    ensures missing { IsNone result → (rest : List ℕ) → text.now ≢ prefix.now ++ rest }
{
    text.strip_prefix(prefix)
}

/// The text up to the first line feed, or all of it if it has none.
pub fn first_line(text: &[u8]) -> &[u8]
    ensures { result.now ≡ first_line_of text.now }
{
    match split_once(text, b'\n') {
        Some((line, _)) => line,
        None => text,
    }
}

/// What stands before the line feed that ends the text. `None` if none does.
pub(crate) fn before_line_feed(text: &[u8]) -> Option<&[u8]>
    ensures found { IfSome result (λ line. text.now ≡ line.now ++ 10 ∷ []) }
    ensures missing { IsNone result → (line : List ℕ) → text.now ≢ line ++ 10 ∷ [] }
{
    text.strip_suffix(b"\n")
}

/// How many slashes the text has.
pub(crate) fn count_slashes(text: &[u8]) -> usize
    ensures { result ≡ count_by (λ b. b == 47) text.now }
{
    text.iter().filter(|&&b| b == b'/').count()
}
