//! What the tests share: places, digests, cursors, storage roots in memory, and what fails oddly.
use std::fmt::Display;
use std::process::Abort;
use std::test::Fail;

pub mod changes;
pub mod closed_reports;
pub mod cursors;
pub mod digests;
mod fixtures;
pub mod input;
pub mod inventories;
pub mod object;
pub mod odd_store;
pub mod output;
pub mod roots;
pub mod store;

/// What a helper needs of the runtime: it stops at a failed assertion, and has memory.
pub trait Runtime: Abort + AllocGlobal {}

impl<R: Abort + AllocGlobal> Runtime for R {}

/// The value is shown as this text.
pub fn expect_shown(
    rt: &impl Runtime,
    row: &str,
    value: &impl Display,
    text: &str,
) -> Result<(), Fail> {
    let shown = format!(in rt.alloc(); "{value}")?;
    assert_eq!(rt; shown.as_str(), text, "{row}");
    Ok(())
}
