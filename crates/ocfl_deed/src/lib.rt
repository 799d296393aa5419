//! The deeds of the program, whoever asks for them: no code.
#![tactic(auto)]

mod deed;

pub use deed::Deed;
