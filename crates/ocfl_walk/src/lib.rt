//! The walk over a storage root: its items in order, and the item at one place.
//!
//! # What is proved
//!
//! - `Walk::next` gives the first place above the last one that has lines, with the digests or
//!   lines of that place (`Gives`). It gives no place exactly if none is left, then and at each
//!   further call.
//! - Between the two places it lists exactly the directories there that an audit looks into, in
//!   order, each once. It reads exactly the inventories of the objects between them. It opens no
//!   content file, and nothing fails (`Walks`).
//! - That holds of each audit, with the inventories of version directories (`Further`) and without
//!   them. With them it also opens sidecars beside such inventories.
//! - A fault of the store names the place of the call that failed: the last opening, of metadata,
//!   or the last listing, which alone of listings failed. That is never a hashed file's place. No
//!   directory above the next item's place was listed then, and no inventory of an object there was
//!   read (`WalkFails`).
//! - On every store places ascend and have at most 255 names, and a size falls, so a walk ends.
//!   A fault ends it: the call took the walk, and gives none back.
//! - `Walk::start` without a place makes no call and always answers.
//! - With a place it lists the first directories on the way there: the storage root, and all that
//!   are entered (`all_listed` of `GoesDown`). It opens at most the inventory of the object that
//!   holds the place, and only if the object's head gets as far as its inventory (`GoesDown`). The
//!   walk goes on after that place.
//! - `Walk::start_at` goes down to the directory of its place in the same way. The walk then gives
//!   the items at that place and above it: it stands after the last place below it that may have
//!   lines (`place_before`).
//! - `Walk::next_within` is `Walk::next` up to an end (`End`). It lists no directory past the end
//!   and reads no inventory of an object there. If it gives no place, none is left before the end
//!   (`GivesOut`).
//! - None of these functions has a `requires`. The order that a walk keeps (`is_orderly`) is a
//!   ghost field of it, absent at run time.
//! - By that order each listing is of a directory on the way to the last place, and the table is
//!   that of an object on that way. So neither is kept longer than it is needed.
//! - `item_at` finds what is known of any place. It lists directories on the way to it, each once,
//!   and of files it reads metadata alone, each once.
//! - At an object it opens no file twice. What it needs of the declaration, the inventory and the
//!   sidecars is said of private functions alone (`OpensJust`).
#![tactic(auto)]

mod end;
mod entry;
mod find;
mod item;
pub mod laws;
mod listing;
mod stand;
mod walk;

pub use end::End;
pub use item::item_at;
pub use ocfl_item::{Fault, Pending, judge};
pub use walk::Walk;
