//! The block that a caller lends to each reading of a file.

use std::alloc::{AllocError, Global};

/// The length of a block in bytes. It is a multiple of the block sizes of all algorithms, 64 and
/// 128.
pub(crate) const BLOCK_LEN: usize = 65_536;

/// Room for 65,536 bytes on the heap, which is lent to calls that read.
#[derive(Drop)]
pub struct Block {
    pub(crate) bytes: Box<[u8; BLOCK_LEN]>,
}

impl Block {
    /// A new block. The only refusal is that of memory.
    pub fn new(alloc: Global) -> Result<Block, AllocError> {
        let bytes = Box::new(alloc, [0; BLOCK_LEN])?;
        Ok(Block { bytes })
    }
}
