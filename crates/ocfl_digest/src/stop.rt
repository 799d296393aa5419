//! Why a reading stopped, and after how many bytes.
ghost use Rattle.std.specs.Prelude.{◌≡◌};
ghost use Rattle.ocfl_digest.specs.Stop.{cause_of};

use ocfl_tree::Trouble;

/// Why the reading of a file stopped.
#[derive(Clone, Copy, Debug, PartialEq, Eq)]
pub enum Cause {
    /// The device failed.
    Device,
    /// No file is there.
    Absent,
    /// The store was refused memory.
    Memory,
    /// The file has 2^62 bytes or more.
    TooLong,
}

impl From<Trouble> for Cause {
    ghost from_gives = { λ trouble cause. cause ≡ cause_of trouble };

    fn from(trouble: Trouble) -> Cause {
        match trouble {
            Trouble::Device => Cause::Device,
            Trouble::Absent => Cause::Absent,
            Trouble::Memory => Cause::Memory,
        }
    }
}

/// Where and why the reading of a file stopped.
#[derive(Clone, Copy, Debug, PartialEq, Eq)]
pub struct ReadStop {
    /// How many bytes the file gave before.
    pub bytes: u64,
    pub cause: Cause,
}

impl ReadStop {
    /// A stop by a trouble of the store, after this number of bytes.
    pub(crate) fn after(bytes: u64, trouble: Trouble) -> ReadStop
        ensures { result ≡ record { bytes = bytes; cause = cause_of trouble } }
    {
        ReadStop {
            bytes,
            cause: Cause::from(trouble),
        }
    }
}
