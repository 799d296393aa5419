//! An output of a night, which says a message of all that it was given.
ghost use Rattle.std.specs.Prelude.{◌≡◌, IfOk, OnOk, Option};
ghost use Rattle.std.specs.Io.KnownBytes.{Appends, Keeps};
ghost use Rattle.ocfl_tree.specs.Place.{Text};
ghost use Rattle.ocfl_terms.specs.Output.{CountsFailure, Grew, HasFailed};
ghost use Rattle.ocfl_plan.specs.Telling.{Went};

use ocfl_report::write_all_of;
use ocfl_terms::{Output, OutputFailed};
use std::io::Write;

/// What makes a message of the bytes of a report that it is given.
pub trait Message {
    /// All that it was given, and all of that that was said, as far as these are known.
    ghost given: { Self → Option Text };

    ghost said: { Self → Option Text };

    /// Whether a text is its message on what was not said yet.
    ghost words: { Self → Text → Type 0 };

    /// Gives it bytes, which may begin and end within a line. If it fails, it may keep any.
    fn take(&mut self, bytes: &[u8]) -> Result<(), OutputFailed>
        ensures given { OnOk result (Appends (given self.old) (given self.new) bytes.now) }
        ensures grew { Grew (given self.old) (given self.new) }
        ensures said { Keeps (said self.old) (said self.new) };

    /// Its message on what was not said yet.
    fn message(&mut self) -> Result<Vec<u8>, OutputFailed>
        ensures words { IfOk result (λ text. words self.old text.items) }
        ensures given { Keeps (given self.old) (given self.new) }
        ensures said { Keeps (said self.old) (said self.new) };

    /// Hears that the message went out: all that it was given is said.
    fn end(&mut self)
        ensures all { said self.new ≡ given self.new }
        ensures given { Keeps (given self.old) (given self.new) }
        ensures grew { Grew (said self.old) (said self.new) };
}

/// How often a call has failed, after one that did.
fn failed_again(failures: u64) -> u64
    ensures { HasFailed failures result }
{
    failures.saturating_add(1)
}

/// An output that says the message of what it is given, and has committed that once the whole
/// message went to the writer, which was flushed then.
#[derive(Drop)]
pub struct Telling<M: Message + Drop, W: Write + Drop> {
    message: M,
    out: W,
    /// How often a call has failed, at most 2^64 - 1.
    failures: u64,
}

impl<M: Message + Drop, W: Write + Drop> Telling<M, W> {
    /// An output to a writer.
    pub fn over(message: M, out: W) -> Telling<M, W>
        ensures message { result.message ≡ message }
        ensures out { result.out ≡ out }
        ensures failures { result.failures ≡ 0 }
    {
        Telling {
            message,
            out,
            failures: 0,
        }
    }

    /// What makes the messages.
    pub fn into_message(self) -> M
        ensures { result ≡ self.message }
    {
        let Telling {
            message,
            out: _out,
            failures: _failures,
        } = self;
        message
    }

    /// Says the message.
    fn say(&mut self) -> Result<(), OutputFailed>
        ensures went { OnOk result (Went (M.words self.old.message)
            (W.contents self.old.out) (W.contents self.new.out)) }
        ensures all { OnOk result (M.said self.new.message ≡ M.given self.new.message) }
        ensures given { Keeps (M.given self.old.message) (M.given self.new.message) }
        ensures grew { Grew (M.said self.old.message) (M.said self.new.message) }
        ensures failures { self.new.failures ≡ self.old.failures }
    {
        let text = self.message.message()?;
        if write_all_of(&mut self.out, &text).is_err() || self.out.flush().is_err() {
            return Err(OutputFailed);
        }
        self.message.end();
        Ok(())
    }
}

impl<M: Message + Drop, W: Write + Drop> Output for Telling<M, W> {
    ghost said = { λ t. record {
      given = M.given t.message;
      committed = M.said t.message;
      failures = t.failures;
    } };

    fn give(&mut self, text: &[u8]) -> Result<(), OutputFailed> {
        match self.message.take(text) {
            Ok(()) => Ok(()),
            Err(failed) => {
                self.failures = failed_again(self.failures);
                Err(failed)
            }
        }
    }

    /// Its message goes to the writer, which is flushed.
    fn commit(&mut self) -> Result<(), OutputFailed>
        ensures all { OnOk result (M.said self.new.message ≡ M.given self.new.message) }
        ensures given { Keeps (M.given self.old.message) (M.given self.new.message) }
        ensures grew { Grew (M.said self.old.message) (M.said self.new.message) }
        ensures failed { CountsFailure self.old.failures self.new.failures result }
        ensures went { OnOk result (Went (M.words self.old.message)
            (W.contents self.old.out) (W.contents self.new.out)) }
    {
        match self.say() {
            Ok(()) => Ok(()),
            Err(failed) => {
                self.failures = failed_again(self.failures);
                Err(failed)
            }
        }
    }
}
