//! The command line of the program `ocfl-scrub`: what its words ask for.
//!
//! # What is proved
//!
//! If `asked` answers, `clap` finds no fault in the words, and the subcommand, its texts and its
//! numbers are those that `clap` defines for them. The sizes of `--budget`, `--files` and `--slice`
//! are read by a definition of its own: digits alone, or with a unit after them. So is the time of
//! `--until`: two digits, a colon and two digits, 00:00 to 23:59. Which options go together is
//! defined here too: `--parts` with `--part` and without `--under`, the two forms of `split`, and
//! at most one of `--hours`, `--until` and `--end`. `--inventories` goes with all of them: a deed
//! or a night checks the inventories of version directories exactly if it is given. `asked` answers
//! a usage fault exactly if `clap` finds one of that kind, or if the words ask for nothing.
#![tactic(auto)]

mod asking;
mod budget;
mod choosing;
mod command;
mod complaint;
mod ending;
mod night;
mod nights;
mod reading;
mod splitting;
mod stop;
mod task;
mod time_of_day;
mod values;

pub use asking::asked;
pub use night::{JoinAsked, NightAsked, NightBounds, Until};
pub use stop::CommandStop;
pub use task::{Asked, Chosen, Split, Task};
