//! An example of each crate that others may call. The head of its `src/lib.rt` shows the same text.
mod of_digest;
mod of_inventory;
mod of_report;
mod of_scrub;
mod of_tree;
