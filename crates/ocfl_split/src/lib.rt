//! Splitting a storage root into parts by listing it alone, at directories of one level of the
//! storage hierarchy, at equal distances.
//!
//! # What is proved
//!
//! - Over a store that tells its tree, `split` answers exactly the separators that the definition
//!   computes: directories of one level of the storage hierarchy, at equal distances.
//! - It lists exactly the directories that the definition names, each once and in order. It opens
//!   no file, and no failure is counted.
//! - After a fault it listed the first of these directories. A fault of the store names the last of
//!   them, which alone failed.
//! - On every store the separators ascend strictly, and for N parts there are at most N - 1.
#![tactic(auto)]

mod cutting;
mod descent;
mod directories;
pub mod laws;

pub use cutting::split;
