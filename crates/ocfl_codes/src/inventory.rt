//! Which inventory a line is of.
ghost use Rattle.std.specs.Prelude.{◌≡◌, reverse};
ghost use Rattle.std.specs.{Char.{is_ascii_digit}, List.{list_all}, Str.{all_ascii_digits}};
ghost use Rattle.ocfl_tree.specs.Path.{names_of};
ghost use Rattle.ocfl_codes.specs.Inventories.{is_by_sidecar as is_code_by_sidecar};
ghost use Rattle.ocfl_codes.specs.Inventories.{is_version_inventory as is_inventory_place};
ghost use Rattle.ocfl_codes.specs.Inventories.{is_version_name as is_version_text};
ghost use Rattle.ocfl_codes.specs.Inventories.{leads_to_version};

use ocfl_report::Code;
use ocfl_tree::{Place, is_text};

/// Whether the lines of a code are of an inventory, by its sidecars.
pub(crate) fn is_by_sidecar(code: Code) -> bool
    ensures { result ≡ is_code_by_sidecar code }
{
    matches!(code, Code::E058 | Code::E060 | Code::E061)
}

fn all_digits(bytes: &[u8]) -> bool
    ensures { result ≡ list_all is_ascii_digit bytes.now }
{
    bytes.iter().all(|byte| byte.is_ascii_digit())
}

fn are_digits(bytes: &[u8]) -> bool
    ensures { result ≡ all_ascii_digits bytes.now }
{
    all_digits(bytes)
}

/// Whether a name is that of a version directory: `v` and then ASCII digits, at least one (OCFL
/// 1.1, 3.3 Version Directories).
pub fn is_version_name(name: &str) -> bool
    ensures { result ≡ is_version_text name.now }
{
    match name.as_bytes() {
        [b'v', digits @ ..] => !digits.is_empty() && are_digits(digits),
        _ => false,
    }
}

/// Whether a path has a name above its last one, and that is a version directory's.
fn is_version_path(path: &str) -> bool
    ensures { result ≡ leads_to_version (reverse (names_of path.now)) }
{
    match path.rsplit_once('/') {
        Some((_, name)) => is_version_name(name),
        None => false,
    }
}

/// Whether a place is that of an inventory in a version directory, as `object/v1/inventory.json`:
/// it has three names or more, of which the last is `inventory.json`, and the one before it is `v`
/// and digits. An object at such a place is mistaken for an inventory.
pub fn is_version_inventory(place: &Place) -> bool
    ensures { result ≡ is_inventory_place place.now }
{
    match place.split_last() {
        Some((path, name)) => is_text(name, "inventory.json") && is_version_path(path),
        None => false,
    }
}
