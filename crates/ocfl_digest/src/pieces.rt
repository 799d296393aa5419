//! The pieces in which a file is read and hashed.
ghost use Rattle.std.specs.Prelude.{◌≡◌, ◌≢◌, ◌≤◌, IsTrue, IfOk, IfErr, MatchResult, Err, take, max};
ghost use Rattle.ocfl_tree.specs.Calls.{Reads, ReadFails};
ghost use Rattle.ocfl_digest.specs.Internal.Pieces.{FeedsPiece};

use crate::block::BLOCK_LEN;
use crate::hashers::Hashers;
use ocfl_tree::{Tree, Trouble};

/// Reads the next bytes of the open file into the front of the buffer, at most `room` of them, and
/// gives how many.
pub(crate) fn read_piece<T: Tree, const N: usize>(
    store: &mut T,
    buffer: &mut [u8; N],
    room: usize,
) -> Result<usize, Trouble>
    requires { room ≤ N }
    ensures bound { IfOk result (λ count. count ≤ room) }
    ensures no_memory { result ≢ Err Trouble.Memory }
    ensures largest { IsTrue T.told → (T.state store.new).largest
        ≡ max (T.state store.old).largest room }
    ensures reads { IsTrue T.told → MatchResult result
        (λ count. Reads (T.state store.old) (T.state store.new) (take count buffer.new) room)
        (ReadFails (T.state store.old) (T.state store.new)) }
{
    store.read(&mut buffer[..room])
}

/// Reads the next bytes of the open file into the front of the block, at most `room` of them, and
/// feeds them to the hashers. Gives how many they are.
pub(crate) fn hash_piece<T: Tree>(
    store: &mut T,
    hashers: &mut Hashers,
    block: &mut [u8; BLOCK_LEN],
    room: usize,
) -> Result<usize, Trouble>
    requires { room ≤ 65536 }
    ensures bound { IfOk result (λ count. count ≤ room) }
    ensures no_memory { result ≢ Err Trouble.Memory }
    ensures largest { IsTrue T.told → (T.state store.new).largest
        ≡ max (T.state store.old).largest room }
    ensures fed { IfOk result (FeedsPiece T.told (T.state store.old)
        (T.state store.new) hashers.old hashers.new room) }
    ensures fails { IsTrue T.told → IfErr result
        (ReadFails (T.state store.old) (T.state store.new)) }
{
    let count = read_piece(store, block, room)?;
    hashers.feed(&block[..count]);
    Ok(count)
}
