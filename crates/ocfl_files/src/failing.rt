//! Why a step of a night failed.
ghost use Rattle.std.specs.Prelude.{◌≡◌, MatchResult, Some, if◌then◌else◌, is_some};
ghost use Rattle.ocfl_files.specs.Failing.{out_of_memory, stopped_status, usage_status};

use crate::saying::{STOPPED, USAGE, say_out_of_memory};
use std::alloc::{AllocError, AllocFailed};

/// Why a step of a night failed: what is said of it, and the exit status.
#[derive(Drop)]
pub struct Failure {
    pub status: u8,
    /// What is said, with its line feed. `None` if memory was refused.
    pub text: Option<String>,
}

impl Failure {
    fn of(status: u8, text: String) -> Failure
        ensures { result ≡ record { status = status; text = Some text } }
    {
        Failure {
            status,
            text: Some(text),
        }
    }

    /// A command line that cannot be followed.
    pub fn usage(text: String) -> Failure
        ensures { result ≡ record { status = usage_status; text = Some text } }
    {
        Failure::of(USAGE, text)
    }

    /// Something else that failed.
    pub fn stopped(text: String) -> Failure
        ensures { result ≡ record { status = stopped_status; text = Some text } }
    {
        Failure::of(STOPPED, text)
    }

    /// The same, or that there was no memory for the text.
    pub fn saying(text: Result<String, AllocError>) -> Failure
        ensures { MatchResult text
            (λ text. result ≡ record { status = stopped_status; text = Some text })
            (λ _. result ≡ out_of_memory) }
    {
        match text {
            Ok(text) => Failure::stopped(text),
            Err(error) => Failure::from(error),
        }
    }

    /// This one, or that there was no memory for it.
    pub fn made(failure: Result<Failure, AllocError>) -> Failure
        ensures { MatchResult failure (λ failure. result ≡ failure) (λ _. result ≡ out_of_memory) }
    {
        match failure {
            Ok(failure) => failure,
            Err(error) => Failure::from(error),
        }
    }
}

impl From<AllocError> for Failure {
    ghost from_gives = { λ _ failure. failure ≡ out_of_memory };

    fn from(_error: AllocError) -> Failure {
        Failure {
            status: STOPPED,
            text: None,
        }
    }
}

impl<T: Drop> From<AllocFailed<T>> for Failure {
    ghost from_gives = { λ _ failure. failure ≡ out_of_memory };

    fn from(_failed: AllocFailed<T>) -> Failure {
        Failure {
            status: STOPPED,
            text: None,
        }
    }
}

/// Says a text that has its line feed on standard error. A standard error that cannot be written
/// changes nothing.
pub fn say_text<R: Eprint>(rt: &R, text: &str) {
    let _ = eprint!(rt; "ocfl-scrub: {text}");
}

/// Says why a step failed, and gives the status: 3 if memory was refused.
pub fn say_failure<R: Eprint>(rt: &R, failure: &Failure) -> u8
    ensures { result ≡ (if is_some failure.now.text then failure.now.status else stopped_status) }
{
    match &failure.text {
        Some(text) => {
            say_text(rt, text.as_str());
            failure.status
        }
        None => say_out_of_memory(rt),
    }
}
