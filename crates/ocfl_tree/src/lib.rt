//! Names and places in an OCFL storage root and their order, what a storage root holds, and what a
//! store reports of each call.
//!
//! # Example
//!
//! ```
//! use ocfl_tree::{Name, Place};
//! use std::test::Fail;
//!
//! fn a_directory_comes_before_what_is_in_it(rt: HostRuntime) -> Result<(), Fail> {
//!     let mut object = Place::root(rt.alloc());
//!     object.push(Name::new(rt.alloc(), "object")?)?;
//!     let version = object.child(&Name::new(rt.alloc(), "v1")?)?;
//!     assert_eq!(rt; version.path(), "object/v1");
//!     assert!(rt; object < version && version.starts_with(&object));
//!     Ok(())
//! }
//! ```
//!
//! # What is proved
//!
//! - For a store that tells its tree, the trait `Tree` says what each call does. It says so of the
//!   tree, the open file, the openings, the listings, which of both failed, the count of failures
//!   and the largest read.
//! - Any store lists each name once and at most 1,000,000 names, and never delivers more than the
//!   buffer holds.
//! - After any call that fails no file is open.
//! - A text is refused exactly if it is not a name, and a path exactly if one of its elements is
//!   not a name. Places compare by the bytes of their names, a beginning first.
#![tactic(auto)]

pub mod laws;
mod name;
mod order;
mod path;
mod place;
mod store;
mod text;
mod tree;

pub use name::{Name, NameStop};
pub use order::cmp_elements;
pub use place::Place;
pub use store::{Entry, Kind, MAX_ENTRIES, Opening, Trouble};
pub use text::{is_bytes, is_text};
pub use tree::Tree;
