//! What a night says of its report.
ghost use Rattle.std.specs.Prelude.{None, IfOk, OnOk};
ghost use Rattle.ocfl_speaking.specs.Sifting.{Given, given_on};
ghost use Rattle.ocfl_speaking.specs.Speaking.{IsGiven, IsMessage, IsSpoken};

use ocfl_files::reasons::take_reasons;
use ocfl_journal::noting::SpokenBy;
use ocfl_plan::Message;
use ocfl_speaking::{Speaker, report_of};
use ocfl_terms::OutputFailed;
use std::alloc::{AllocError, Global};

/// What makes the messages of a night.
#[derive(Drop)]
pub(crate) struct Words<'n> {
    pub(crate) alloc: Global,
    pub(crate) speaker: Speaker<'n>,
    /// The path of the state folder.
    pub(crate) state: &'n str,
    pub(crate) spoken_by: SpokenBy,
}

impl Words<'_> {
    /// Gives its speaker bytes, which may begin and end within a line.
    fn hear(&mut self, bytes: &[u8]) -> Result<(), AllocError>
        ensures { OnOk result ((g : Given) → IsGiven self.old.speaker g
            → IsGiven self.new.speaker (given_on g bytes.now)) }
    {
        self.speaker.take(bytes)
    }

    /// The message on what its speaker was given.
    fn speak(&mut self) -> Result<Vec<u8>, AllocError>
        ensures spoken { IfOk result (λ text.
            IsSpoken self.old.speaker self.new.speaker text.items) }
        ensures message { IfOk result (λ text. IsMessage self.old.speaker text.items) }
    {
        let now = self.spoken_by.now.get();
        let reasons = take_reasons(self.alloc, &self.spoken_by.reasons);
        let report = format!(in self.alloc; "{}/{}", self.state, report_of(now))?;
        self.speaker.message(now, &reasons, report.as_str())
    }
}

/// What it was given is not told. A message is one on what its speaker was given.
impl Message for Words<'_> {
    ghost given = { λ _. None };

    ghost said = { λ _. None };

    ghost words = { λ w text. IsMessage w.speaker text };

    fn take(&mut self, bytes: &[u8]) -> Result<(), OutputFailed> {
        self.hear(bytes).or(Err(OutputFailed))
    }

    fn message(&mut self) -> Result<Vec<u8>, OutputFailed> {
        match self.speak() {
            Ok(text) => Ok(text),
            Err(_) => Err(OutputFailed),
        }
    }

    fn end(&mut self) {
        self.speaker.end();
    }
}
