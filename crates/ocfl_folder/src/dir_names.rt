//! The names of a directory of the system, one by one.
ghost use Rattle.std.specs.Prelude.{◌≤◌, ◌<◌, length, IfOk, IsTrue};

use std::alloc::{AllocError, Global};
use std::io::{self, ErrorKind, Read};

/// How many bytes of names a directory is asked for at once.
const NAMES_LEN: usize = 8192;

/// How many names in a row are left out at most: `.` and `..` occur once each.
const MOST_SKIPPED: u64 = 1000;

/// An open directory, and names that were read from it, each ended by NUL.
#[derive(Drop)]
pub struct DirNames<D: Drop> {
    dir: D,
    buffer: Vec<u8>,
    /// Where the next name begins, and where the names end.
    start: usize,
    end: usize,
    ghost within: { end ≤ length buffer.items },
}

/// Whether these bytes are the name of an entry: neither the directory itself nor the one above.
fn is_entry(name: &[u8]) -> bool {
    !name.is_empty() && name != b".".as_slice() && name != b"..".as_slice()
}

/// The bytes before the first NUL, or all.
fn first_name(names: &[u8]) -> &[u8] {
    match names.iter().position(|byte| *byte == 0) {
        Some(end) => &names[..end],
        None => names,
    }
}

impl<D: Read + Drop> DirNames<D> {
    pub(crate) fn new(alloc: Global, dir: D) -> Result<DirNames<D>, AllocError> {
        let mut buffer = Vec::new(alloc);
        if buffer.resize(NAMES_LEN, 0).is_err() {
            return Err(AllocError);
        }
        Ok(DirNames {
            dir,
            buffer,
            start: 0,
            end: 0,
        })
    }

    /// Reads further names, and reports whether there were any.
    fn refill(&mut self) -> io::Result<bool>
        ensures { IfOk result (λ more. IsTrue more → self.new.start < self.new.end) }
    {
        let count = self.dir.read(self.buffer.as_mut_slice())?;
        self.start = 0;
        self.end = count;
        Ok(count > 0)
    }

    /// Puts the next name in place of what the other holds. `false` if none is left.
    pub(crate) fn next(&mut self, name: &mut Vec<u8>) -> io::Result<bool> {
        for _ in 0..MOST_SKIPPED {
            if self.start >= self.end && !self.refill()? {
                return Ok(false);
            }
            let next = first_name(&self.buffer[self.start..self.end]);
            self.start += next.len() + 1;
            if is_entry(next) {
                name.clear();
                name.extend_from_slice(next)?;
                return Ok(true);
            }
        }
        Err(io::Error::from(ErrorKind::InvalidData))
    }
}
