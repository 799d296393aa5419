//! How a night that cannot be made is refused.
ghost use Rattle.std.specs.Prelude.{◌≡◌};
ghost use Rattle.ocfl_given.specs.Refusing.{IsRefusal};

use ocfl_files::failing::Failure;
use ocfl_files::saying::{STOPPED, USAGE};
use std::alloc::AllocError;

/// That a command line cannot be followed, with this text, for which there may have been no memory.
pub(crate) fn refusal_of(text: Result<String, AllocError>) -> Failure
    ensures { IsRefusal text result }
{
    match text {
        Ok(text) => Failure {
            status: USAGE,
            text: Some(text),
        },
        Err(_) => no_memory(),
    }
}

/// That memory was refused.
pub(crate) fn no_memory() -> Failure
    ensures { result ≡ record { status = 3; text = None } }
{
    Failure {
        status: STOPPED,
        text: None,
    }
}
