//! What a night says goes out by an output.
ghost use Rattle.std.specs.Prelude.{◌≡◌, OnOk};
ghost use Rattle.std.specs.Io.KnownBytes.{Appends, Keeps};
ghost use Rattle.ocfl_terms.specs.Output.{CountsFailure, Grew, HasFailed, Said, said_by};

use ocfl_report::write_all_of;
use std::io::Write;

/// An output failed: what it was given and has not committed may be lost.
#[derive(Clone, Copy, Debug, PartialEq, Eq)]
pub struct OutputFailed;

/// An output, which keeps what it is given and may lose it until it has committed it.
pub trait Output {
    /// What it was given, and what of that it has committed, as far as these are known; and how
    /// often it has failed.
    ghost said: { Self → Said };

    /// Gives it a text, of which it commits nothing yet. If it fails, it may keep any text.
    fn give(&mut self, text: &[u8]) -> Result<(), OutputFailed>
        ensures given { OnOk result
            (Appends (said self.old).given (said self.new).given text.now) }
        ensures grew { Grew (said self.old).given (said self.new).given }
        ensures kept { Keeps (said self.old).committed (said self.new).committed }
        ensures failed { CountsFailure (said self.old).failures (said self.new).failures result };

    /// Commits all that it was given. If it fails, it may commit any of it.
    fn commit(&mut self) -> Result<(), OutputFailed>
        ensures all { OnOk result ((said self.new).committed ≡ (said self.new).given) }
        ensures given { Keeps (said self.old).given (said self.new).given }
        ensures grew { Grew (said self.old).committed (said self.new).committed }
        ensures failed { CountsFailure (said self.old).failures (said self.new).failures result };
}

/// How often a call has failed, after one that did.
fn failed_again(failures: u64) -> u64
    ensures { HasFailed failures result }
{
    failures.saturating_add(1)
}

/// An output over a writer, which commits by flushing it.
///
/// What the writer took before the last flush that went well is committed. That a flush does what
/// it says is the writer's part, of which no clause speaks.
#[derive(Drop)]
pub struct Flushing<W: Write + Drop> {
    out: W,
    /// How many bytes the writer took since then.
    unflushed: u64,
    /// How often a call has failed, at most 2^64 - 1.
    failures: u64,
}

impl<W: Write + Drop> Flushing<W> {
    /// What the writer took so far is taken as committed.
    pub fn over(out: W) -> Flushing<W>
        ensures { ⟦<Flushing<W> as Output>⟧.said result ≡ said_by (W.contents out) 0 0 }
    {
        Flushing {
            out,
            unflushed: 0,
            failures: 0,
        }
    }

    /// How often a call has failed, at most 2^64 - 1.
    pub fn failures(&self) -> u64
        ensures { result ≡ (⟦<Flushing<W> as Output>⟧.said self.now).failures }
    {
        self.failures
    }
}

impl<W: Write + Drop> Output for Flushing<W> {
    ghost said = { λ output. said_by (W.contents output.out) output.unflushed output.failures };

    /// Fails too if 2^64 bytes or more would be unflushed.
    #[tactic(auto, using(crate::proofs::Flushed::grew_by, crate::proofs::Flushed::kept_all, crate::proofs::Flushed::kept_on, crate::proofs::Flushed::kept_short, crate::proofs::Flushed::grew_none))]
    fn give(&mut self, text: &[u8]) -> Result<(), OutputFailed> {
        let Some(unflushed) = self.unflushed.checked_add(text.len() as u64) else {
            self.failures = failed_again(self.failures);
            return Err(OutputFailed);
        };
        match write_all_of(&mut self.out, text) {
            Ok(()) => {
                self.unflushed = unflushed;
                Ok(())
            }
            Err(stop) => {
                self.unflushed += stop.gone as u64;
                self.failures = failed_again(self.failures);
                Err(OutputFailed)
            }
        }
    }

    #[tactic(auto, using(crate::proofs::Flushed::all_flushed, crate::proofs::Flushed::flushed_grew, crate::proofs::Flushed::unflushed_grew))]
    fn commit(&mut self) -> Result<(), OutputFailed> {
        match self.out.flush() {
            Ok(()) => {
                self.unflushed = 0;
                Ok(())
            }
            Err(_) => {
                self.failures = failed_again(self.failures);
                Err(OutputFailed)
            }
        }
    }
}
