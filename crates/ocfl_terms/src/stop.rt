//! Why a night ended early.
ghost use Rattle.std.specs.Prelude.{◌≡◌};
ghost use Rattle.ocfl_state.specs.declared.folder.FolderTrouble.TheVariants.{Memory};
ghost use Rattle.ocfl_terms.specs.declared.stop.Stop.TheVariants.{Folder, Output};

use crate::output::OutputFailed;
use ocfl_state::FolderTrouble;
use ocfl_tree::Place;
use std::alloc::AllocError;

/// Why a night ended early.
#[derive(Drop)]
pub enum Stop {
    /// A call of the state folder failed, or memory was refused.
    Folder(FolderTrouble),
    /// This is the text of a checkpoint that was to be put, and is longer than 1 MiB.
    TooLong(Vec<u8>),
    /// The root's top folder, or a declaration in it, could not be read: the place that failed.
    Unread(Place),
    /// No further run can be counted.
    Worn,
    /// The checkpoint leaves out a branch that has no end.
    Endless,
    /// Some of the report was not said.
    Unsaid,
    /// The checkpoint counts more as said than the report has.
    Oversaid,
    /// The report ended before what was to be said of it.
    Short,
    /// The output did not commit what was said.
    Output,
}

impl From<FolderTrouble> for Stop {
    ghost from_gives = { λ why e. e ≡ Folder why };

    fn from(trouble: FolderTrouble) -> Stop {
        Stop::Folder(trouble)
    }
}

impl From<OutputFailed> for Stop {
    ghost from_gives = { λ _ e. e ≡ Output };

    fn from(_failure: OutputFailed) -> Stop {
        Stop::Output
    }
}

impl From<AllocError> for Stop {
    ghost from_gives = { λ _ e. e ≡ Folder Memory };

    fn from(_error: AllocError) -> Stop {
        Stop::Folder(FolderTrouble::Memory)
    }
}
