//! Why a text was not read.
ghost use Rattle.std.specs.Prelude.{◌≡◌};
ghost use Rattle.ocfl_report.specs.declared.stop.TextStop.TheVariants.{Memory};

use std::alloc::AllocError;

/// Why bytes were not read as a place, or as a line.
#[derive(Clone, Copy, Debug, PartialEq, Eq)]
pub enum TextStop {
    /// No place, or no line, has this text.
    Bad,
    /// Memory was refused.
    Memory,
}

impl From<AllocError> for TextStop {
    ghost from_gives = { λ _ stop. stop ≡ Memory };

    fn from(_: AllocError) -> TextStop {
        TextStop::Memory
    }
}
