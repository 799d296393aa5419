//! What was said to have failed.
ghost use Rattle.std.specs.Prelude.{◌≡◌, IfOk, string_bytes};
ghost use Rattle.std.specs.Option.{option_map};

use ocfl_files::failing::Failure;
use std::alloc::{AllocError, Global};
use std::marker::Model;

/// A failure that was said: its text, or none if memory was refused.
#[derive(Debug, Drop)]
pub struct MemNote {
    text: Option<Vec<u8>>,
}

impl Model for MemNote {
    ghost use Rattle.std.specs.Prelude.{Option, option_map};
    ghost use Rattle.ocfl_tree.specs.Place.{Text};

    ghost Value = { Option Text };

    ghost view = { λ a. option_map (λ text. text.items) a.text };
}

impl MemNote {
    /// That of a failure.
    pub(crate) fn of(alloc: Global, failure: &Failure) -> Result<MemNote, AllocError>
        ensures { IfOk result (λ note. note ≡ option_map string_bytes failure.now.text) }
    {
        match &failure.text {
            Some(text) => Ok(MemNote {
                text: Some(text.as_bytes().to_vec(alloc)?),
            }),
            None => Ok(MemNote { text: None }),
        }
    }

    /// Its text.
    pub fn text(&self) -> Option<&[u8]>
        ensures { option_map (λ text. text.now) result ≡ self.now }
    {
        match &self.text {
            Some(text) => Some(text.as_slice()),
            None => None,
        }
    }
}
