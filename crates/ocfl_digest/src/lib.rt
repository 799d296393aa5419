//! Digest algorithms, and what the digests of a file are.
//!
//! # Example
//!
//! ```
//! use ocfl_digest::{Algorithm, Wanted, hash_bytes};
//! use std::test::Fail;
//!
//! fn only_wanted_digests_are_computed(rt: HostRuntime) -> Result<(), Fail> {
//!     let wanted = Wanted::none().with(Algorithm::Md5).with(Algorithm::Sha512);
//!     let digests = hash_bytes(b"abc", wanted);
//!     let md5 = digests.get(Algorithm::Md5);
//!     assert!(rt; md5 == Some(b"\x90\x01\x50\x98\x3c\xd2\x4f\xb0\xd6\x96\x3f\x7d\x28\xe1\x7f\x72"));
//!     assert!(rt; digests.get(Algorithm::Sha256).is_none());
//!     Ok(())
//! }
//! ```
//!
//! # What is proved
//!
//! - `hash_open` reads a file once to its end through a lent block of 65,536 bytes. It feeds each
//!   piece, as it is in the block, to the hashers that are wanted. It is given no allocator.
//! - Over a store that tells its tree the digests and the length are those of the whole file, and
//!   the trail is that one opening. A stop says why it stopped and after how many bytes. No file
//!   stays open, and no read asks for more than a block.
//! - Over any store it returns after at most 2^62 bytes.
//! - `read_bounded` gives all bytes of a file of at most `limit` bytes. It answers `Over` exactly
//!   for longer files, of which it reads `limit + 1`.
#![tactic(auto)]

mod algorithm;
mod block;
mod bounded;
mod digests;
mod hashers;
mod hashing;
mod laws;
mod pieces;
mod stop;
mod wanted;

pub use algorithm::Algorithm;
pub use block::Block;
pub use bounded::{Bounded, read_bounded};
pub use digests::Digests;
pub use hashers::hash_bytes;
pub use hashing::hash_open;
pub use stop::{Cause, ReadStop};
pub use wanted::Wanted;
