//! Why a night was not begun.
ghost use Rattle.std.specs.Prelude.{◌≡◌};
ghost use Rattle.ocfl_state.specs.declared.folder.FolderTrouble.TheVariants.{Memory};
ghost use Rattle.ocfl_night.specs.declared.not_opened.NotOpened.TheVariants.{Troubled};
ghost use Rattle.ocfl_terms.specs.declared.stop.Stop.TheVariants.{Folder};

use ocfl_state::FolderTrouble;
use ocfl_terms::{Refusal, Stop};
use std::alloc::AllocError;

/// Why a night was not begun: it was refused, or something failed.
#[derive(Drop)]
pub enum NotOpened {
    /// Nothing in the folder was changed.
    Refused(Refusal),
    /// Something failed.
    Troubled(Stop),
}

impl From<Stop> for NotOpened {
    ghost from_gives = { λ why e. e ≡ Troubled why };

    fn from(why: Stop) -> NotOpened {
        NotOpened::Troubled(why)
    }
}

impl From<FolderTrouble> for NotOpened {
    ghost from_gives = { λ why e. e ≡ Troubled (Folder why) };

    fn from(trouble: FolderTrouble) -> NotOpened {
        NotOpened::Troubled(Stop::Folder(trouble))
    }
}

impl From<AllocError> for NotOpened {
    ghost from_gives = { λ _ e. e ≡ Troubled (Folder Memory) };

    fn from(_error: AllocError) -> NotOpened {
        NotOpened::Troubled(Stop::Folder(FolderTrouble::Memory))
    }
}
