//! What reports say of one another: what is gone since the report before, what is found newly and
//! what is repaired; and which objects of a list have no line.
//!
//! # What is proved
//!
//! - `compare` writes exactly the changes between the two reports that its readers have
//!   (`IsCompared`): objects with a line of them there and none here, content files whose place has
//!   no line any more, findings whose code was not at the place, and findings whose code is there
//!   no more, at places that were looked at; and objects whose root inventory both note, and
//!   differently. Otherwise it names the first bad line, and of which report. Its taker sees each
//!   line of both reports once, in order, before the changes of its place (`all_seen`).
//! - `find_expected` writes exactly which objects of a list have no line of an object in a report
//!   (`IsSearched`), in the order of places, each once. `read_list` reads such a list from its
//!   text, or names the first bad line.
#![tactic(auto)]

mod change;
mod comparing;
mod expecting;
mod gone;
pub mod laws;
mod listing;
mod question;
mod reading;
mod saying;
mod side;
mod stop;
mod summary;
mod taking;
mod versions;

pub use change::{Change, ChangeAt};
pub use comparing::compare;
pub use expecting::find_expected;
pub use gone::GoneList;
pub use listing::{ListStop, read_list};
pub use side::Side;
pub use stop::CompareStop;
pub use taking::{TakeChange, TakeStop};
