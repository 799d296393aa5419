//! An output on which whole texts are said.
ghost use Rattle.std.specs.Prelude.{OnErr, OnOk};
ghost use Rattle.ocfl_say.specs.Said.{Grows, HasFailed, HasSaid, Said, unknown};

/// A text was not said, or not all of it.
#[derive(Clone, Copy, Debug, PartialEq, Eq)]
pub struct NotSaid;

/// An output that says a text and commits it.
pub trait Say {
    /// What it was given, what of that it has committed, and how often it has failed, as far as
    /// these are known.
    ghost said: { Self → Said } = { λ _. unknown };

    /// Says a text, all of it, and commits it. If it fails, any of it may be committed.
    fn say(&mut self, text: &[u8]) -> Result<(), NotSaid>
        ensures said { OnOk result (HasSaid text.now (said self.old) (said self.new)) }
        ensures grew { Grows (said self.old) (said self.new) }
        ensures failed { OnErr result (HasFailed (said self.old).failures (said self.new).failures) };
}
