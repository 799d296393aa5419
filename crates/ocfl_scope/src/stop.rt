//! Why no scope is found, and the status that goes with it.
ghost use Rattle.std.specs.Prelude.{◌≡◌};
ghost use Rattle.ocfl_scope.specs.Stop.{stop_status};

use ocfl_separators::PartsStop;
use thiserror::Error;

/// Why no scope is found. Its `Display` is what is said of it.
#[derive(Debug, Drop, Error)]
pub enum ScopeStop {
    /// The path of a branch is not that of a place.
    #[error("bad path")]
    BadPath,
    /// The separators make fewer parts, or the number is 0.
    #[error("no such part")]
    NoSuchPart,
    /// The separators were not read.
    #[error("{0}")]
    Parts(PartsStop),
    /// Memory was refused.
    #[error("out of memory")]
    Memory,
}

impl ScopeStop {
    /// The exit status: 2 for a wrong path, number or text of separators, and 3 if the reader
    /// failed or memory was refused.
    pub fn status(&self) -> u8
        ensures { result ≡ stop_status self.now }
    {
        match self {
            ScopeStop::BadPath | ScopeStop::NoSuchPart => 2,
            ScopeStop::Parts(PartsStop::Line(_) | PartsStop::Long) => 2,
            ScopeStop::Parts(PartsStop::Read | PartsStop::Memory) => 3,
            ScopeStop::Memory => 3,
        }
    }
}
