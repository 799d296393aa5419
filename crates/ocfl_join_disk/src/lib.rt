//! Joining the closed reports of parts on a disk, over the calls of the system that it makes.
//!
//! # What is proved
//!
//! Of a disk that tells, as the trait [`JoinDisk`] says:
//!
//! - [`MakingReports`] are closed reports of parts as `ocfl_joining` asks for them (`PartReports`),
//!   and so `join` over them puts what its clauses say. The joined report gets its name only once
//!   its bytes are on the disk, and is there after a power cut once `put` answered `Ok`.
//! - [`ComparedReports`] are so too, over a joined report that was made before: it is found to be
//!   the joined one exactly if `put` answers `Ok`, and nothing is made.
//! - [`DiskCycles`] are the cycles of parts as `ocfl_joining` asks for them (`PartCycles`), and so
//!   `join_cycles` over them joins the cycles that its clauses say, each by `join`, and says what
//!   they say. What is looked for of a cycle is put together here of what single calls show.
#![tactic(auto)]

mod coming;
mod comparing;
mod cycles;
mod disk;
mod looking;
mod making;
mod parts;

pub use comparing::ComparedReports;
pub use cycles::DiskCycles;
pub use disk::{JoinDisk, OpenPart};
pub use making::MakingReports;
pub use parts::next_line;
