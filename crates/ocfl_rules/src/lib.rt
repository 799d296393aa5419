//! What an audit of a storage root, a cut of it and a run are: zones, what is seen, the lines of
//! each place, the audit, what openings show, cuts of two limits, runs, and parts. It has their
//! laws and worked cases, and no function that runs.
#![tactic(auto)]

pub mod inventories;
pub mod laws;
