//! What declarations, sidecars and inventories say, and the tables of inventories.
//!
//! # Example
//!
//! ```
//! use ocfl_digest::Algorithm;
//! use ocfl_inventory::read_inventory;
//! use ocfl_tree::Place;
//! use std::test::Fail;
//!
//! fn an_inventory_names_a_digest(rt: HostRuntime) -> Result<(), Fail> {
//!     let bytes = br#"{"digestAlgorithm":"sha512","manifest":{"Ab01":["v1/content/f"]}}"#;
//!     let reading = read_inventory(rt.alloc(), bytes)?;
//!     assert!(rt; reading.algorithm == Some(Algorithm::Sha512) && reading.remarks.is_empty());
//!     let path = String::from_str(rt.alloc(), "v1/content/f")?;
//!     let (Some(table), Some(place)) = (reading.table, Place::from_path(path)) else {
//!         return Err(Fail::new("no table"));
//!     };
//!     let named = table.named(rt.alloc(), &place)?;
//!     assert!(rt; named.len() == 1 && !named[0].fixity);
//!     assert_eq!(rt; named[0].digest.as_str(), "ab01");
//!     Ok(())
//! }
//! ```
//!
//! # What is proved
//!
//! For all bytes and entries the answer is the one that the definitions give:
//!
//! - which version a directory declares, in whatever order its entries come (`declaration`);
//! - the digest of a sidecar, exactly if its text is of the grammar (`sidecar`);
//! - the lines about an inventory, in their order, and its table (`Table::read`);
//! - the digests of each path (`named`) and the next path (`next_after`), both found by binary
//!   search.
#![tactic(auto)]

mod block;
mod conflicts;
pub mod declaration;
mod gather;
mod inventory;
mod keys;
pub mod laws;
mod notes;
mod paths;
mod ranks;
mod reading;
mod remark;
mod sidecar_text;
mod sorting;
mod table;
mod texts;
mod triple;

pub use declaration::{
    Declared, Level, Version, declaration_bytes, declaration_name, is_declaration_name,
    version_in_name,
};
pub use paths::is_version_name;
pub use reading::algorithm_of;
pub use remark::Remark;
pub use sidecar_text::{SIDE_LIMIT, Sum, sidecar};
pub use table::{InventoryReading, Table, read_inventory};
pub use triple::Named;
