//! What a night says of its report: its bytes come in, and the message about what was found goes
//! out.
#![tactic(auto)]

mod heads;
mod laws;
mod sifting;
mod speaking;

pub use heads::heads_before;
pub use laws::lines_that_are_passed_are_right;
pub use sifting::Sifting;
pub use speaking::{Speaker, report_of};
