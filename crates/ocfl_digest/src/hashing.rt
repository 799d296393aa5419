//! Hashing a file of a store by one opening.
ghost use Rattle.std.specs.Prelude.{◌≡◌, ◌<◌, ◌≤◌, ◌^◌, ◌↔◌, IsTrue, IfOk, IfErr, MatchResult};
ghost use Rattle.ocfl_tree.specs.{StorageRoot.{StorageRoot}, Store.{IfTold}};
ghost use Rattle.ocfl_digest.specs.{Digests.{AreDigestsOfSome}, Hashing.{HashesFile, StopsHashing}};

use crate::block::{BLOCK_LEN, Block};
use crate::digests::Digests;
use crate::hashers::Hashers;
use crate::pieces::hash_piece;
use crate::stop::{Cause, ReadStop};
use crate::wanted::Wanted;
use ocfl_tree::{Place, Tree};

/// The length from which on a file is too long to be hashed, in bytes: 2^62.
const TOO_LONG: u64 = 1 << 62;

/// The digests of the file at a place under each wanted algorithm, and its length in bytes, by one
/// opening (RFC 1321, section 3; FIPS 180-4, sections 6.1, 6.2, 6.4 and 6.7).
///
/// It reads into the lent block, and takes no memory. Each read asks for 65,536 bytes, or for what
/// is missing to 2^62 bytes if that is less.
///
/// A stop says how many bytes the file gave before. `Device` if the device failed, `Absent`
/// if no file is there, `Memory` if the store was refused memory to open the file, and
/// `TooLong` once the file gave 2^62 bytes, even if it ends there. After every answer no file is
/// open.
pub fn hash_open<T: Tree>(
    store: &mut T,
    place: &Place,
    wanted: Wanted,
    block: &mut Block,
) -> Result<(Digests, u64), ReadStop>
    // Of every store.
    ensures digests { IfOk result (λ hashed. AreDigestsOfSome wanted hashed.0 hashed.1) }
    ensures short { IfOk result (λ hashed. hashed.1 < 2 ^ 62) }
    ensures given { IfErr result (λ stop. stop.bytes ≤ 2 ^ 62) }
    ensures too_long { IfErr result (λ stop. (stop.cause ≡ Cause.TooLong) ↔ (stop.bytes ≡ 2 ^ 62)) }
    ensures memory { IfErr result (λ stop. stop.cause ≡ Cause.Memory → stop.bytes ≡ 0) }

    // Of a store that tells its tree.
    ensures hashes { IfTold T.told (T.state store.old) (λ root.
        MatchResult result
        (λ hashed. HashesFile root (T.state store.old)
        (T.state store.new) place.now wanted hashed.0 hashed.1)
        (λ stop. StopsHashing root (T.state store.old)
        (T.state store.new) place.now stop.bytes stop.cause)) }
{
    if let Err(trouble) = store.open(place) {
        return Err(ReadStop::after(0, trouble));
    }
    let mut hashers = Hashers::new(wanted);
    let mut given = 0;
    while given < TOO_LONG {
        let room = (TOO_LONG - given).min(BLOCK_LEN as u64) as usize;
        let count = match hash_piece(store, &mut hashers, &mut block.bytes, room) {
            Ok(count) => count as u64,
            Err(trouble) => return Err(ReadStop::after(given, trouble)),
        };
        if count == 0 {
            store.close();
            return Ok((hashers.end(), given));
        }
        given += count;
    }
    store.close();
    Err(ReadStop {
        bytes: given,
        cause: Cause::TooLong,
    })
}
