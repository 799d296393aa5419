//! Reading a whole file within a limit of bytes.
ghost use Rattle.std.specs.Prelude.{◌≡◌, IsTrue, IfOk, MatchResult};
ghost use Rattle.ocfl_tree.specs.{StorageRoot.{StorageRoot}, Store.{IfTold}};
ghost use Rattle.ocfl_digest.specs.Bounded.{IsWithin, ReadsBounded, StopsReading};

use crate::pieces::read_piece;
use ocfl_tree::{Place, Tree, Trouble};
use std::alloc::Global;

/// What a file holds, if that is no more than a limit.
#[derive(Debug, Drop, PartialEq, Eq)]
pub enum Bounded {
    /// All of its bytes.
    Whole(Vec<u8>),
    /// The file has more bytes than the limit.
    Over,
}

/// The bytes of the file at a place, if they are at most `limit`, by one opening.
///
/// `Over` is answered exactly if the file has more. Each read asks for 4,096 bytes, or for one
/// more than the limit leaves if that is less: no more than `limit + 1` bytes are read.
///
/// `Device` if the device failed, `Absent` if no file is there, `Memory` if memory was
/// refused to the store or to the vector. After every answer no file is open.
pub fn read_bounded<T: Tree>(
    alloc: Global,
    store: &mut T,
    place: &Place,
    limit: usize,
) -> Result<Bounded, Trouble>
    // Of every store.
    ensures within { IfOk result (IsWithin limit) }

    // Of a store that tells its tree.
    ensures reads { IfTold T.told (T.state store.old) (λ root.
        MatchResult result
        (ReadsBounded root (T.state store.old) (T.state store.new) place.now limit)
        (StopsReading root (T.state store.old) (T.state store.new) place.now limit)) }
{
    store.open(place)?;
    let mut bytes = Vec::new(alloc);
    let mut buffer = [0; 4096];
    loop {
        let left = limit - bytes.len();
        // One byte past the limit shows that the file is longer.
        let count = read_piece(store, &mut buffer, left.min(4095) + 1)?;
        if count == 0 {
            store.close();
            return Ok(Bounded::Whole(bytes));
        }
        if left < count {
            store.close();
            return Ok(Bounded::Over);
        }
        if bytes.extend_from_slice(&buffer[..count]).is_err() {
            store.close();
            return Err(Trouble::Memory);
        }
    }
}
