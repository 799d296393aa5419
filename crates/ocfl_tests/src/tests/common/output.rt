//! Writers that fail, and one that counts its calls.
use std::alloc::Global;
use std::io::{self, ErrorKind, Write};

/// Keeps `room` bytes in all, and then fails.
#[derive(Drop)]
pub struct Narrow {
    room: usize,
    pub kept: Vec<u8>,
}

impl Narrow {
    pub fn new(alloc: Global, room: usize) -> Narrow {
        let kept = Vec::new(alloc);
        Narrow { room, kept }
    }
}

impl Write for Narrow {
    fn write(&mut self, buffer: &[u8]) -> io::Result<usize> {
        let count = buffer.len().min(self.room);
        if count == 0 {
            return Err(io::Error::from(ErrorKind::Other));
        }
        self.kept.extend_from_slice(&buffer[..count])?;
        self.room -= count;
        Ok(count)
    }

    fn flush(&mut self) -> io::Result<()> {
        Ok(())
    }
}

/// Keeps all bytes, and counts the calls that brought some.
#[derive(Drop)]
pub struct Counting {
    pub calls: usize,
    pub kept: Vec<u8>,
}

impl Counting {
    pub fn new(alloc: Global) -> Counting {
        let kept = Vec::new(alloc);
        Counting { calls: 0, kept }
    }
}

impl Write for Counting {
    fn write(&mut self, buffer: &[u8]) -> io::Result<usize> {
        self.calls = self.calls.saturating_add(1);
        self.kept.extend_from_slice(buffer)?;
        Ok(buffer.len())
    }

    fn flush(&mut self) -> io::Result<()> {
        Ok(())
    }
}

/// Keeps bytes back until it is flushed. The first flush fails, and they are lost.
#[derive(Drop)]
pub struct Losing {
    fails: bool,
    back: Vec<u8>,
    pub out: Vec<u8>,
}

impl Losing {
    pub fn new(alloc: Global) -> Losing {
        Losing {
            fails: true,
            back: Vec::new(alloc),
            out: Vec::new(alloc),
        }
    }
}

impl Write for Losing {
    fn write(&mut self, buffer: &[u8]) -> io::Result<usize> {
        self.back.extend_from_slice(buffer)?;
        Ok(buffer.len())
    }

    fn flush(&mut self) -> io::Result<()> {
        if !self.fails {
            self.out.extend_from_slice(&self.back)?;
        }
        self.back.clear();
        if self.fails {
            self.fails = false;
            return Err(io::Error::from(ErrorKind::Other));
        }
        Ok(())
    }
}
