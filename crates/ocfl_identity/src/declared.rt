//! The digest of what declares a storage root.
ghost use Rattle.std.specs.Prelude.{◌≡◌, ◌≢◌, ◌++◌, ◌∷◌, [], IsTrue, IfOk, IfErr, List, ℕ};
ghost use Rattle.std.specs.Prelude.{string_bytes};
ghost use Rattle.std.specs.Option.{option_map};
ghost use Rattle.sha2.specs.Hashers.{Holds256};
ghost use Rattle.hex.specs.Hex.{encode_lower};
ghost use Rattle.ocfl_tree.specs.{Place.{Place as ModelPlace}, Store.{Did, IfTold}};
ghost use Rattle.ocfl_tree.specs.StorageRoot.{file_at};
ghost use Rattle.ocfl_digest.specs.Digests.{digest_in};
ghost use Rattle.ocfl_digest.specs.declared.algorithm.Algorithm.TheVariants.{Sha256 as OfSha256};
ghost use Rattle.ocfl_identity.specs.Identity.{IsUnread, OpensFirst, declared_by, digits_of, openings_of};
ghost use Rattle.ocfl_identity.specs.Identity.{sum_line};

use crate::identity::NoIdentity;
use ocfl_digest::{Algorithm, Block, Cause, Digests, Wanted, hash_open};
use ocfl_tree::{Name, Place, Tree};
use sha2::{Digest, Sha256};
use std::alloc::{AllocError, Global};

/// The digest under `sha256` in hexadecimal digits, if it was wanted.
fn sha256_digits(alloc: Global, digests: &Digests) -> Result<Option<String>, AllocError>
    ensures { IfOk result (λ found. option_map string_bytes found
        ≡ option_map encode_lower (digest_in digests.now OfSha256)) }
{
    match digests.get(Algorithm::Sha256) {
        Some(digest) => Ok(Some(hex::encode(alloc, digest)?)),
        None => Ok(None),
    }
}

/// The SHA-256 of the file with a name in the top folder, in hexadecimal digits. `None` if no file
/// has that name.
fn sum_of_file<T: Tree>(
    alloc: Global,
    store: &mut T,
    name: &Name,
    block: &mut Block,
) -> Result<Option<String>, NoIdentity>
    ensures only { IfErr result (λ why. why ≢ NoIdentity.Undeclared) }
    ensures keeps { IsTrue T.told → (T.state store.new).tree ≡ (T.state store.old).tree }
    ensures unlisted { IsTrue T.told
        → (T.state store.new).listings ≡ (T.state store.old).listings }
    ensures told { IfTold T.told (T.state store.old) (λ root. IfOk result
        (λ found. option_map string_bytes found ≡ digits_of (file_at root (name.now ∷ [])))) }
    ensures opened { IfTold T.told (T.state store.old) (λ root. IfOk result (λ _.
        Did (T.state store.old) (T.state store.new) (openings_of root (name.now ∷ [])) [] 0)) }
    ensures unread { IfTold T.told (T.state store.old) (λ root. IfErr result (λ why.
        (p : ModelPlace) → why ≡ NoIdentity.Unread p
        → IsUnread root (T.state store.old) (T.state store.new)
        (name.now ∷ []) [] p)) }
    ensures refused { IfTold T.told (T.state store.old) (λ root. IfErr result (λ why.
        why ≡ NoIdentity.Memory → OpensFirst (T.state store.old) (T.state store.new)
        (openings_of root (name.now ∷ [])) [])) }
{
    let place = Place::root(alloc).child(name)?;
    let wanted = Wanted::none().with(Algorithm::Sha256);
    match hash_open(store, &place, wanted, block) {
        Ok((digests, _)) => Ok(sha256_digits(alloc, &digests)?),
        Err(stop) => match stop.cause {
            Cause::Absent => Ok(None),
            Cause::Memory => Err(NoIdentity::Memory),
            Cause::Device | Cause::TooLong => Err(NoIdentity::Unread(place)),
        },
    }
}

/// Adds the line of a file to what a hasher holds.
fn add_line(hasher: &mut Sha256, digits: &str, name: &str)
    ensures { (m : List ℕ) → Holds256 hasher.old m
        → Holds256 hasher.new (m ++ sum_line digits.now name.now) }
{
    hasher.update(digits.as_bytes());
    hasher.update(b"  ");
    hasher.update(name.as_bytes());
    hasher.update(b"\n");
}

/// The SHA-256 of the lines of the files with these names in the top folder. `None` if one of the
/// files is not there.
pub(crate) fn hash_declarations<T: Tree>(
    alloc: Global,
    store: &mut T,
    names: &[Name],
    block: &mut Block,
) -> Result<Option<[u8; 32]>, NoIdentity>
    ensures only { IfErr result (λ why. why ≢ NoIdentity.Undeclared) }
    ensures keeps { IsTrue T.told → (T.state store.new).tree ≡ (T.state store.old).tree }
    ensures unlisted { IsTrue T.told
        → (T.state store.new).listings ≡ (T.state store.old).listings }
    ensures told { IfTold T.told (T.state store.old) (λ root. IfOk result
        (λ found. found ≡ declared_by root names.now)) }
    ensures opened { IfTold T.told (T.state store.old) (λ root. IfOk result (λ _.
        Did (T.state store.old) (T.state store.new) (openings_of root names.now) [] 0)) }
    ensures unread { IfTold T.told (T.state store.old) (λ root. IfErr result (λ why.
        (p : ModelPlace) → why ≡ NoIdentity.Unread p
        → IsUnread root (T.state store.old) (T.state store.new) names.now [] p)) }
    ensures refused { IfTold T.told (T.state store.old) (λ root. IfErr result (λ why.
        why ≡ NoIdentity.Memory → OpensFirst (T.state store.old) (T.state store.new)
        (openings_of root names.now) [])) }
{
    let mut hasher = Sha256::new();
    for name in names {
        let Some(digits) = sum_of_file(alloc, store, name, block)? else {
            return Ok(None);
        };
        add_line(&mut hasher, digits.as_str(), name.as_str());
    }
    Ok(Some(hasher.finalize()))
}
