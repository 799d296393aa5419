//! What is met at one place of a storage root: its item, with the lines of an object's head, of a
//! content place or of another entry; its listing; and what judging an item gives.
//!
//! # What is proved
//!
//! - Meeting a place gives its item, its listing if it is entered, and its table if it is an object
//!   whose head does not stop. For it only this directory is listed, only this object's inventory
//!   read, and no file opened but right in this directory (`visit_base`, `visit_entry`; `Meets`).
//! - If the inventories of version directories are checked, meeting one gives its item, and opens
//!   its sidecars alone (`OpensBeside` of `Meets`). They are looked up among the entries behind it.
//! - If nothing is seen at a place, it has an item only if the table has its path (`visit_path`).
//!   `table_of_object` opens the inventory alone.
//! - `judge` gives the lines and the cost of that item. Its file is opened once, if some digest is
//!   expected of it. If it cannot be read to its end, its line says so.
#![tactic(auto)]

mod base;
mod content;
mod declarations;
mod digits;
mod expected;
mod fault;
mod file_lines;
mod folder;
mod head_lines;
mod inventory;
mod judging;
pub mod laws;
mod lines;
mod meeting;
mod missing;
mod names;
mod object;
mod pending;
mod role;
mod root;
mod sight;
mod visit;

pub use base::visit_base;
pub use fault::Fault;
pub use folder::{Folder, Head, can_enter, head_of, is_extensions, list};
pub use judging::judge;
pub use lines::{Piece, PlaceLines};
pub use meeting::{Around, visit_entry, visit_path};
pub use object::table_of_object;
pub use pending::Pending;
pub use root::RootInventory;
pub use visit::Visit;
