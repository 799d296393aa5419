//! Why one try of a call gave nothing.
ghost use Rattle.std.specs.Prelude.{◌≡◌, ◌≢◌, ◌↔◌, ◌∷◌, [], Ok, Err, MatchOption, MatchResult};
ghost use Rattle.std.specs.IoError.{error_kind};
ghost use Rattle.ocfl_tree.specs.declared.store.Trouble.TheVariants.{Memory};
ghost use Rattle.ocfl_folder.specs.Internal.Absence.{IsAbsent};

use crate::failure::Failure;
use ocfl_tree::{NameStop, Trouble};
use std::alloc::{AllocError, AllocFailed};
use std::io::{self, ErrorKind};

/// Why one try of a call gave nothing.
#[derive(Clone, Copy)]
pub(crate) enum TryFault {
    Interrupted,
    Failed(Failure),
}

impl From<AllocError> for TryFault {
    ghost from_gives = { λ _ fault. IsAbsent fault → ⊥ };

    fn from(_error: AllocError) -> TryFault {
        TryFault::Failed(out_of_memory())
    }
}

impl<T: Drop> From<AllocFailed<T>> for TryFault {
    ghost from_gives = { λ _ fault. IsAbsent fault → ⊥ };

    fn from(_error: AllocFailed<T>) -> TryFault {
        TryFault::Failed(out_of_memory())
    }
}

impl From<AllocError> for Failure {
    ghost from_gives = { λ _ failure. failure.trouble ≡ Memory };

    fn from(_error: AllocError) -> Failure {
        out_of_memory()
    }
}

/// An invalid name is reported as a failure of the device.
impl From<NameStop> for TryFault {
    ghost from_gives = { λ _ fault. IsAbsent fault → ⊥ };

    fn from(stop: NameStop) -> TryFault {
        match stop {
            NameStop::Bad => wrong("it holds an invalid name"),
            NameStop::Memory => TryFault::Failed(out_of_memory()),
        }
    }
}

/// What one try of a call gave. `None` if it was interrupted, and may be tried again.
pub(crate) fn unless_interrupted<T: Drop>(tried: Result<T, TryFault>) -> Result<Option<T>, Failure>
    ensures { MatchResult result
        (λ given. MatchOption given (tried ≡ Err TryFault.Interrupted)
        (λ value. tried ≡ Ok value))
        (λ failure. tried ≡ Err (TryFault.Failed failure)) }
{
    match tried {
        Ok(value) => Ok(Some(value)),
        Err(TryFault::Interrupted) => Ok(None),
        Err(TryFault::Failed(failure)) => Err(failure),
    }
}

/// That memory was refused.
pub(crate) fn out_of_memory() -> Failure
    ensures { result.trouble ≡ Trouble.Memory }
{
    Failure {
        trouble: Trouble::Memory,
        error: io::Error::from(ErrorKind::OutOfMemory),
    }
}

/// That the device failed, though no call of the system did. The words say what is wrong.
pub(crate) fn wrong(words: &str) -> TryFault
    ensures { IsAbsent result → ⊥ }
{
    TryFault::Failed(Failure {
        trouble: Trouble::Device,
        error: io::Error::new(ErrorKind::InvalidData, words),
    })
}

/// That a call was interrupted too often.
pub(crate) fn too_often() -> Failure
    ensures { result.trouble ≡ Trouble.Device }
{
    Failure {
        trouble: Trouble::Device,
        error: io::Error::from(ErrorKind::Interrupted),
    }
}

/// The fault of an error.
pub(crate) fn fault_of(error: io::Error) -> TryFault
    ensures interrupted { (result ≡ TryFault.Interrupted)
        ↔ (error_kind error ≡ ErrorKind.Interrupted) }
    ensures absent { IsAbsent result ↔ (error_kind error ≡ ErrorKind.NotFound) }
{
    let trouble = match error.kind() {
        ErrorKind::Interrupted => return TryFault::Interrupted,
        ErrorKind::NotFound => Trouble::Absent,
        ErrorKind::OutOfMemory => Trouble::Memory,
        _ => Trouble::Device,
    };
    TryFault::Failed(Failure { trouble, error })
}

/// The fault of an error at what was seen, or is open: that it is not there is the device's.
pub(crate) fn entry_fault_of(error: io::Error) -> TryFault
    ensures interrupted { (result ≡ TryFault.Interrupted)
        ↔ (error_kind error ≡ ErrorKind.Interrupted) }
    ensures present { IsAbsent result → ⊥ }
{
    match fault_of(error) {
        TryFault::Failed(
            Failure {
                trouble: Trouble::Absent,
                ..
            },
        ) => TryFault::Failed(Failure {
            trouble: Trouble::Device,
            error,
        }),
        fault => fault,
    }
}
