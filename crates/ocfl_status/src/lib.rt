//! The exit status of what lacks something, or finds something: of a night, a closing and a
//! joining.
#![tactic(auto)]

mod status;

pub use status::status_of;
