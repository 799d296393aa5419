//! What an inventory that does not stop holds.

use ocfl_digest::Algorithm;
use serde_json::Value;

/// A key of a block, with the values that it lists, which are texts.
#[derive(Drop)]
pub(crate) struct Listing {
    pub(crate) key: String,
    pub(crate) values: Vec<Value>,
}

/// The block of one algorithm.
#[derive(Drop)]
pub struct Supported {
    pub algorithm: Algorithm,
    pub block: Vec<Listing>,
}

/// An inventory that does not stop.
#[derive(Drop)]
pub struct Inventory {
    pub algorithm: Algorithm,
    pub content: String,
    pub manifest: Vec<Listing>,
    pub fixity: Vec<Supported>,
    pub unsupported: Vec<String>,
}
