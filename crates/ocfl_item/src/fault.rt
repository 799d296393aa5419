//! Why a call above the store failed.
ghost use Rattle.std.specs.Prelude.{◌≡◌};
ghost use Rattle.ocfl_item.specs.declared.fault.Fault.TheVariants.{Memory};

use ocfl_tree::Place;
use std::alloc::AllocError;

/// Why a call stops.
#[derive(Debug, Drop)]
pub enum Fault {
    /// The store did not answer at this place.
    Store(Place),
    /// Memory was refused.
    Memory,
}

impl From<AllocError> for Fault {
    ghost from_gives = { λ _ e. e ≡ Memory };

    fn from(_error: AllocError) -> Fault {
        Fault::Memory
    }
}
