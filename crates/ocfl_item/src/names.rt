//! The names of an object's inventory and of its sidecars.
ghost use Rattle.std.specs.Prelude.{◌≡◌, ◌||◌};
ghost use Rattle.ocfl_tree.specs.Place.{text_eq};
ghost use Rattle.ocfl_digest.specs.declared.algorithm.Algorithm.TheVariants.{Sha256, Sha512};
ghost use Rattle.ocfl_rules.specs.Head.{sidecar_name as sidecar_name_of};

use ocfl_digest::Algorithm;
use ocfl_tree::is_text;

pub(crate) const INVENTORY_NAME: &str = "inventory.json";

/// The name that the sidecar of an algorithm has (OCFL 1.1, 3.6 Inventory Digest). Only those of
/// `sha256` and `sha512` are looked for.
pub(crate) fn sidecar_name(algorithm: Algorithm) -> &'static str
    ensures { result.now ≡ sidecar_name_of algorithm }
{
    match algorithm {
        Algorithm::Md5 => "inventory.json.md5",
        Algorithm::Sha1 => "inventory.json.sha1",
        Algorithm::Sha256 => "inventory.json.sha256",
        Algorithm::Sha512 => "inventory.json.sha512",
        Algorithm::Sha512_256 => "inventory.json.sha512/256",
    }
}

/// Whether a name is that of a sidecar.
pub(crate) fn is_sidecar_name(name: &str) -> bool
    ensures { result ≡ (text_eq name.now (sidecar_name_of Sha256)
        || text_eq name.now (sidecar_name_of Sha512)) }
{
    is_text(name, sidecar_name(Algorithm::Sha256)) || is_text(name, sidecar_name(Algorithm::Sha512))
}
