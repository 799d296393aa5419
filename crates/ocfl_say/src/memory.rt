//! An output in memory, which can be made to fail.
ghost use Rattle.std.specs.Prelude.{◌≡◌, ◌<◌, ◌≤◌, [], Some, IfSome, length};
ghost use Rattle.ocfl_say.specs.{Memory.{said_so}, Said.{HasFailed}};

use crate::say::{NotSaid, Say};
use std::alloc::Global;

/// An output in memory, which commits all that it takes.
#[derive(Debug)]
pub struct MemOutput {
    text: Vec<u8>,
    failures: u64,
    call: Option<u64>,
    taken: usize,
}

/// Written by hand, so that to let it go is one call wherever that happens.
impl Drop for MemOutput {
    fn drop(self) {
        let MemOutput {
            text: _text,
            failures: _failures,
            call: _call,
            taken: _taken,
        } = self;
    }
}

impl MemOutput {
    /// Without a text.
    pub fn new(alloc: Global) -> MemOutput
        ensures { ⟦<MemOutput as Say>⟧.said result ≡ said_so [] 0 }
    {
        MemOutput {
            text: Vec::new(alloc),
            failures: 0,
            call: None,
            taken: 0,
        }
    }

    /// Of the following texts the one of this number, counted from 1, is not said, but for its
    /// first bytes, at most so many. A later plan takes the place of this one.
    pub fn fail_call(&mut self, number: u64, taken: usize)
        requires { 0 < number }
        ensures { ⟦<MemOutput as Say>⟧.said self.new ≡ ⟦<MemOutput as Say>⟧.said self.old }
    {
        self.call = Some(number);
        self.taken = taken;
    }

    /// All that it has taken.
    pub fn text(&self) -> &[u8]
        ensures { Some result.now ≡ (⟦<MemOutput as Say>⟧.said self.now).committed }
    {
        self.text.as_slice()
    }

    /// How many bytes of the next text are taken, if it is not said.
    fn taken_of(&mut self, text: &[u8]) -> Option<usize>
        ensures text { self.new.text ≡ self.old.text }
        ensures failures { self.new.failures ≡ self.old.failures }
        ensures some { IfSome result (λ taken. taken ≤ length text.now) }
    {
        let number = self.call?;
        if number > 1 {
            self.call = Some(number - 1);
            return None;
        }
        self.call = None;
        Some(self.taken.min(text.len()))
    }

    /// Counts a failure.
    fn fail(&mut self) -> NotSaid
        ensures text { self.new.text ≡ self.old.text }
        ensures failed { HasFailed (Some self.old.failures) (Some self.new.failures) }
    {
        self.failures = self.failures.saturating_add(1);
        NotSaid
    }
}

impl Say for MemOutput {
    ghost said = { λ output. said_so output.text.items output.failures };

    fn say(&mut self, text: &[u8]) -> Result<(), NotSaid> {
        if let Some(taken) = self.taken_of(text) {
            let _ = self.text.extend_from_slice(&text[..taken]);
            return Err(self.fail());
        }
        match self.text.extend_from_slice(text) {
            Ok(()) => Ok(()),
            Err(_) => Err(self.fail()),
        }
    }
}
