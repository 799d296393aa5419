//! Tests of the other crates by their public calls, in a module for each crate: no code. In
//! `common` is what they share: storage roots in memory with their reports, inventories that stop,
//! texts of cursors, digests by name, and stores, readers and writers that fail.
#![tactic(auto)]

#[cfg(test)]
mod tests;
