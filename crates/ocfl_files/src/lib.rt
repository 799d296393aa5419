//! Files that stand beside the storage root, why a command failed, and what standard error says.
//!
//! # What is proved
//!
//! - Each failure has its status: 2 for a command line that cannot be followed, else 3. A call on a
//!   file that failed is said in a line on that file; of the system's words nothing is known.
//! - What the system answers is taken for what it says: a path that cannot be resolved leads
//!   nowhere, no file is read where none is there, and where memory was refused that is the reason.
//! - A reader that hashes what passes has the SHA-256 of the bytes that were read through it.
//! - Of up to 1,000 places the reason that was met first is kept, and the last one of all.
#![tactic(auto)]

pub mod failing;
pub mod files;
pub mod heard;
pub mod making;
pub mod reasons;
pub mod saying;
pub mod timing;
