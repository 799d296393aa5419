//! Why a command line asks for nothing.

use clap::error::ErrorKind;
use std::alloc::AllocError;

/// Why a command line asks for nothing.
#[derive(Debug, Drop)]
pub enum CommandStop {
    /// It is not understood, or it asks for help or the version: the text for the user.
    Usage(clap::Error),
    /// Memory was refused.
    Memory,
}

impl From<AllocError> for CommandStop {
    ghost use Rattle.std.specs.Prelude.{◌≡◌};
    ghost use Rattle.ocfl_arguments.specs.declared.stop.CommandStop.TheVariants.{Memory};

    ghost from_gives = { λ _ stop. stop ≡ Memory };

    fn from(_error: AllocError) -> CommandStop {
        CommandStop::Memory
    }
}

impl From<clap::Error> for CommandStop {
    ghost use Rattle.ocfl_arguments.specs.Stop.{IsStopOf};

    ghost from_gives = { λ error stop. IsStopOf error stop };

    fn from(error: clap::Error) -> CommandStop {
        match error.kind() {
            ErrorKind::OutOfMemory => CommandStop::Memory,
            _ => CommandStop::Usage(error),
        }
    }
}
