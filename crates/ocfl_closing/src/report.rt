//! A closed report that was opened by its name.
ghost use Rattle.std.specs.Prelude.{IsTrue};

use ocfl_closed::OpenReport;
use std::io;

/// An open closed report, with the cycle that it is of, and whether it has the name of a whole one.
#[derive(Drop)]
pub struct NamedReport<R: OpenReport + Drop> {
    pub report: R,
    pub cycle: u64,
    pub whole: bool,
}

impl<R: OpenReport + Drop> OpenReport for NamedReport<R> {
    ghost told = { R.told };

    ghost bytes = { λ named. R.bytes named.report };

    ghost short = { λ told named. R.short told named.report };

    fn read_at(&self, start: u64, buffer: &mut [u8]) -> io::Result<usize> {
        self.report.read_at(start, buffer)
    }
}
