//! Reading a closed report from its start to its end, and checking its bytes meanwhile.
ghost use Rattle.std.specs.Prelude.{◌≡◌, ◌+◌, ◌++◌, ◌<◌, ◌≤◌, ◌^◌, [], true, IsTrue, IfOk, OnOk};
ghost use Rattle.std.specs.Prelude.{length, take, drop};
ghost use Rattle.std.specs.Io.{KnownBytes.{ReadConsumes}, ReadsAtMost};
ghost use Rattle.ocfl_state.specs.Calls.{IsReadOf};
ghost use Rattle.ocfl_closed.specs.Internal.Checked.{HasTaken, HasTakenTo, if_told, is_met_by};
ghost use Rattle.ocfl_closed.specs.Internal.Checked.{left_of};

use crate::check::ClosedCheck;
use crate::disk::OpenReport;
use std::io::{self, ErrorKind, Read};

/// A reader of a closed report. At the end of one that is not as it was closed it fails.
pub(crate) struct ReportReader<F: OpenReport + Drop> {
    file: F,
    /// How many bytes were read.
    start: u64,
    check: ClosedCheck,
    /// Whether it was read to its end, and is not as it was closed.
    changed: bool,
    error: Option<io::Error>,
    ghost taken: { ∥ HasTakenTo F.told check start (F.bytes file) ∥₁ },
}

/// Written by hand, so that to let it go is one call wherever that happens.
impl<F: OpenReport + Drop> Drop for ReportReader<F> {
    fn drop(self) {
        let ReportReader {
            file: _file,
            start: _start,
            check: _check,
            changed: _changed,
            error: _error,
        } = self;
    }
}

impl<F: OpenReport + Drop> ReportReader<F> {
    /// Before the first read.
    pub(crate) fn new(file: F, check: ClosedCheck) -> ReportReader<F>
        requires { HasTaken check [] }
        ensures file { result.file ≡ file }
        ensures start { result.start ≡ 0 }
        ensures check { result.check ≡ check }
    {
        ReportReader {
            file,
            start: 0,
            check,
            changed: false,
            error: None,
        }
    }

    /// Why the last read failed that did.
    pub(crate) fn error(&self) -> Option<io::Error>
        ensures { result ≡ self.now.error }
    {
        self.error
    }

    /// Whether it was read to its end, and is not as it was closed.
    pub(crate) fn is_changed(&self) -> bool
        ensures { result ≡ self.now.changed }
    {
        self.changed
    }

    /// Takes the next bytes.
    fn take(&mut self, bytes: &[u8])
        requires next { IsTrue F.told
            → bytes.now ≡ take (length bytes.now) (drop self.old.start (F.bytes self.old.file)) }
        ensures bytes { IsTrue F.told → left_of self.old.check self.old.start (F.bytes self.old.file)
            ≡ bytes.now ++ left_of self.new.check self.new.start (F.bytes self.new.file) }
        ensures file { self.new.file ≡ self.old.file }
    {
        self.check.push(bytes);
        self.start = sum_of(self.start, bytes.len() as u64);
    }

    /// Ends reading with no more bytes, for which there was this room. Fails where there are no
    /// more, and the report is not as it was closed.
    fn end(&mut self, room: usize) -> io::Result<usize>
        ensures none { IfOk result (λ count. count ≡ 0) }
        ensures met { IsTrue F.told → 0 < room
            → length (F.bytes self.old.file) ≤ self.old.start
            → OnOk result (is_met_by self.old.check (F.bytes self.old.file) ≡ true) }
        ensures file { self.new.file ≡ self.old.file }
        ensures start { self.new.start ≡ self.old.start }
        ensures check { self.new.check ≡ self.old.check }
    {
        if room == 0 {
            return Ok(0);
        }
        if self.check.is_met() {
            return Ok(0);
        }
        self.changed = true;
        Err(io::Error::from(ErrorKind::InvalidData))
    }

    /// Takes what a read put into the front of a buffer. Nothing is the end.
    fn accept(&mut self, buffer: &[u8], count: usize) -> io::Result<usize>
        requires within { count ≤ length buffer.now }
        requires read { IsTrue F.told → IsReadOf (F.bytes self.old.file) self.old.start
            (take count buffer.now) (length buffer.now) }
        ensures bound { ReadsAtMost result buffer.now }
        ensures bytes { ReadConsumes
            (if_told F.told (left_of self.old.check self.old.start (F.bytes self.old.file)))
            (if_told F.told (left_of self.new.check self.new.start (F.bytes self.new.file)))
            result buffer.now }
    {
        if count == 0 {
            return self.end(buffer.len());
        }
        self.take(&buffer[..count]);
        Ok(count)
    }
}

/// The sum, as far as it is a number.
fn sum_of(start: u64, count: u64) -> u64
    ensures none { count ≡ 0 → result ≡ start }
    ensures sum { start + count < 2 ^ 64 → result ≡ start + count }
{
    start.saturating_add(count)
}

impl<F: OpenReport + Drop> Read for ReportReader<F> {
    ghost remaining = { λ r. if_told F.told (left_of r.check r.start (F.bytes r.file)) };

    fn read(&mut self, buffer: &mut [u8]) -> io::Result<usize> {
        match self.file.read_at(self.start, buffer) {
            Ok(count) => self.accept(buffer, count),
            Err(error) => {
                self.error = Some(error);
                Err(error)
            }
        }
    }
}
