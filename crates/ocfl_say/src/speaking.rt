//! An output over a writer.

use crate::say::{NotSaid, Say};
use ocfl_report::write_all_of;
use std::io::Write;

/// An output over a writer, which commits by flushing it.
#[derive(Drop)]
pub struct Speaking<'w, W: Write> {
    pub out: &'w mut W,
}

impl<W: Write> Say for Speaking<'_, W> {
    fn say(&mut self, text: &[u8]) -> Result<(), NotSaid> {
        if write_all_of(self.out, text).is_ok() && self.out.flush().is_ok() {
            return Ok(());
        }
        Err(NotSaid)
    }
}
