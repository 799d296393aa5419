//! The identity of a storage root.
ghost use Rattle.std.specs.Prelude.{◌≡◌, ◌≢◌, ◌↔◌, ◌⊎◌, ◌∷◌, [], IsTrue, IfOk, IfErr, Some, Err};
ghost use Rattle.ocfl_tree.specs.{Place.{Place as ModelPlace}, Listing.{entries_in}};
ghost use Rattle.ocfl_tree.specs.Store.{Did, IfTold};
ghost use Rattle.ocfl_identity.specs.declared.identity.NoIdentity.TheVariants.{Memory};
ghost use Rattle.ocfl_identity.specs.Identity.{IsIdentityOf, IsUnread, OpensFirst, declarations_among};
ghost use Rattle.ocfl_identity.specs.Identity.{declared_by, openings_of};

use crate::declared::hash_declarations;
use crate::gathered::{declarations, hash_names, sort};
use ocfl_digest::Block;
use ocfl_tree::{Entry, Name, Place, Tree, Trouble};
use std::alloc::{AllocError, Global};

/// What tells one storage root from another.
#[derive(Debug, Drop)]
pub struct Identity {
    /// The names of the files in the top folder that declare a storage root, in order.
    pub declarations: Vec<Name>,
    /// The SHA-256 of what `sha256sum` prints for these files.
    pub declared: [u8; 32],
    /// How many entries the top folder has.
    pub count: u64,
    /// The SHA-256 of their names in order, each followed by a zero.
    pub names: [u8; 32],
}

/// Why the identity of a storage root is not known.
#[derive(Debug, Drop)]
pub enum NoIdentity {
    /// The top folder has no declaration of a storage root.
    Undeclared,
    /// The directory or the file at this place could not be read.
    Unread(Place),
    /// Memory was refused.
    Memory,
}

impl From<AllocError> for NoIdentity {
    ghost from_gives = { λ _ e. e ≡ Memory };

    fn from(_error: AllocError) -> NoIdentity {
        NoIdentity::Memory
    }
}

/// Looks at a storage root: lists its top folder, and reads its declarations.
///
/// `Undeclared` if the top folder has no declaration of a storage root, and `Unread` if it cannot
/// be listed, or a declaration cannot be read.
pub fn look_at_root<T: Tree>(
    alloc: Global,
    store: &mut T,
    block: &mut Block,
) -> Result<Identity, NoIdentity>
    ensures keeps { IsTrue T.told → (T.state store.new).tree ≡ (T.state store.old).tree }
    ensures told { IfTold T.told (T.state store.old) (λ root. IfOk result (IsIdentityOf root)) }
    ensures declares { IfOk result (λ identity. identity.declarations.items ≢ []) }
    ensures undeclared { IfTold T.told (T.state store.old) (λ root.
        result ≡ Err NoIdentity.Undeclared → declarations_among (entries_in root []) ≡ []) }
    // Of a folder without a declaration no file is opened.
    ensures unopened { IsTrue T.told → result ≡ Err NoIdentity.Undeclared
        → Did (T.state store.old) (T.state store.new) [] ([] ∷ []) 0 }
    // The top folder is listed once, and each declaration is opened once.
    ensures opened { IfTold T.told (T.state store.old) (λ root. IfOk result (λ identity.
        Did (T.state store.old) (T.state store.new)
        (openings_of root identity.declarations.items) ([] ∷ []) 0)) }
    ensures unread { IfTold T.told (T.state store.old) (λ root. IfErr result (λ why.
        (p : ModelPlace) → why ≡ NoIdentity.Unread p
        → IsUnread root (T.state store.old) (T.state store.new)
        (declarations_among (entries_in root [])) ([] ∷ []) p)) }
    // Where memory was refused, nothing was asked, or the top folder was listed and the first of
    // its declarations were opened, each once.
    ensures refused { IfTold T.told (T.state store.old) (λ root. IfErr result (λ why.
        why ≡ NoIdentity.Memory → Did (T.state store.old) (T.state store.new) [] [] 0
        ⊎ OpensFirst (T.state store.old) (T.state store.new)
        (openings_of root (declarations_among (entries_in root []))) ([] ∷ []))) }
{
    let top = Place::root(alloc);
    let mut entries = match store.list(&top) {
        Ok(entries) => entries,
        Err(Trouble::Memory) => return Err(NoIdentity::Memory),
        Err(Trouble::Device | Trouble::Absent) => return Err(NoIdentity::Unread(top)),
    };
    sort(&mut entries);
    identify(alloc, store, &entries, block)
}

/// The identity of a storage root whose top folder has these entries.
fn identify<T: Tree>(
    alloc: Global,
    store: &mut T,
    entries: &[Entry],
    block: &mut Block,
) -> Result<Identity, NoIdentity>
    ensures keeps { IsTrue T.told → (T.state store.new).tree ≡ (T.state store.old).tree }
    ensures told { IfTold T.told (T.state store.old) (λ root. entries.now ≡ entries_in root []
        → IfOk result (IsIdentityOf root)) }
    ensures declares { IfOk result (λ identity. identity.declarations.items ≢ []) }
    ensures undeclared { result ≡ Err NoIdentity.Undeclared → declarations_among entries.now ≡ [] }
    ensures unasked { result ≡ Err NoIdentity.Undeclared
        → T.state store.new ≡ T.state store.old }
    ensures opened { IfTold T.told (T.state store.old) (λ root. IfOk result (λ identity.
        Did (T.state store.old) (T.state store.new)
        (openings_of root identity.declarations.items) [] 0)) }
    ensures unread { IfTold T.told (T.state store.old) (λ root. entries.now ≡ entries_in root []
        → IfErr result (λ why. (p : ModelPlace) → why ≡ NoIdentity.Unread p
        → IsUnread root (T.state store.old) (T.state store.new)
        (declarations_among entries.now) [] p)) }
    ensures refused { IfTold T.told (T.state store.old) (λ root. IfErr result (λ why.
        why ≡ NoIdentity.Memory → OpensFirst (T.state store.old) (T.state store.new)
        (openings_of root (declarations_among entries.now)) [])) }
{
    let declarations = declarations(alloc, entries)?;
    if declarations.is_empty() {
        return Err(NoIdentity::Undeclared);
    }
    match hash_declarations(alloc, store, &declarations, block)? {
        Some(declared) => Ok(Identity {
            declarations,
            declared,
            count: entries.len() as u64,
            names: hash_names(entries),
        }),
        None => Err(NoIdentity::Unread(Place::root(alloc))),
    }
}

/// Whether the files that declared a storage root are there and are the same. Lists nothing.
pub fn is_still_declared<T: Tree>(
    alloc: Global,
    store: &mut T,
    identity: &Identity,
    block: &mut Block,
) -> Result<bool, NoIdentity>
    ensures keeps { IsTrue T.told → (T.state store.new).tree ≡ (T.state store.old).tree }
    ensures unlisted { IsTrue T.told
        → (T.state store.new).listings ≡ (T.state store.old).listings }
    ensures told { IfTold T.told (T.state store.old) (λ root. IfOk result (λ same. IsTrue same
        ↔ (declared_by root identity.now.declarations.items ≡ Some identity.now.declared))) }
    ensures only { IfErr result (λ why. why ≢ NoIdentity.Undeclared) }
    // Each declaration is opened once, up to the first that is gone.
    ensures opened { IfTold T.told (T.state store.old) (λ root. IfOk result (λ _.
        Did (T.state store.old) (T.state store.new)
        (openings_of root identity.now.declarations.items) [] 0)) }
    ensures unread { IfTold T.told (T.state store.old) (λ root. IfErr result (λ why.
        (p : ModelPlace) → why ≡ NoIdentity.Unread p
        → IsUnread root (T.state store.old) (T.state store.new)
        identity.now.declarations.items [] p)) }
    // Where memory was refused, the first of them were opened, each once.
    ensures refused { IfTold T.told (T.state store.old) (λ root. IfErr result (λ why.
        why ≡ NoIdentity.Memory → OpensFirst (T.state store.old) (T.state store.new)
        (openings_of root identity.now.declarations.items) [])) }
{
    match hash_declarations(alloc, store, &identity.declarations, block)? {
        Some(declared) => Ok(declared == identity.declared),
        None => Ok(false),
    }
}
