//! Readers that give a few bytes a call, and how they fail.
use crate::tests::common::Runtime;
use std::fmt::Debug;
use std::io::{self, ErrorKind, Read};
use std::test::Fail;

/// What a reader does once it has given its bytes.
#[derive(Clone, Copy)]
pub enum Then {
    Ends,
    Fails(ErrorKind),
    /// It gives zeros without end.
    GoesOn,
}

/// A reader of these bytes, at most three a call.
#[derive(Drop)]
pub struct Slow<'a> {
    pub left: &'a [u8],
    pub then: Then,
}

impl Slow<'_> {
    /// A call when no byte is left.
    fn read_behind(&self, buf: &mut [u8]) -> io::Result<usize> {
        match self.then {
            Then::Ends => Ok(0),
            Then::Fails(kind) => Err(io::Error::from(kind)),
            Then::GoesOn => {
                buf.fill(0);
                Ok(buf.len())
            }
        }
    }
}

impl Read for Slow<'_> {
    fn read(&mut self, buf: &mut [u8]) -> io::Result<usize> {
        if self.left.is_empty() {
            return self.read_behind(buf);
        }
        let count = self.left.len().min(buf.len()).min(3);
        let (given, left) = self.left.split_at(count);
        buf[..count].copy_from_slice(given);
        self.left = left;
        Ok(count)
    }
}

/// How a reader fails, each with a name and what is told of it.
pub fn failures<T>(denied: T, memory: T) -> [(&'static str, ErrorKind, T); 2] {
    [
        ("no permission", ErrorKind::PermissionDenied, denied),
        ("no memory", ErrorKind::OutOfMemory, memory),
    ]
}

/// Whatever a reader gave before it failed, each after a name, what is told of it is one of these.
pub fn expect_failures<T: Copy + Debug + PartialEq>(
    rt: &impl Runtime,
    given: &[(&str, &[u8])],
    (denied, memory): (T, T),
    told_of: impl Fn(Slow<'_>) -> Result<Option<T>, Fail>,
) -> Result<(), Fail> {
    for (row, kind, wanted) in failures(denied, memory) {
        for (name, left) in given {
            let then = Then::Fails(kind);
            let told = told_of(Slow { left, then })?;
            assert_eq!(rt; told, Some(wanted), "{name}, {row}");
        }
    }
    Ok(())
}
