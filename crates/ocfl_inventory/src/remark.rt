//! A line without its place, and why a reading stopped.
ghost use Rattle.std.specs.Prelude.{◌≡◌};
ghost use Rattle.ocfl_inventory.specs.declared.remark.InventoryStop.TheVariants.{Memory};

use ocfl_report::Code;
use std::alloc::AllocError;

/// What a line says beside its place: its code and its detail.
#[derive(Debug, Drop)]
pub struct Remark {
    pub code: Code,
    pub detail: String,
}

/// Why a reading stopped: memory ran out, or what its only line says.
#[derive(Drop)]
pub enum InventoryStop {
    Memory,
    Because(Remark),
}

impl From<AllocError> for InventoryStop {
    ghost from_gives = { λ _ e. e ≡ Memory };

    fn from(_e: AllocError) -> InventoryStop {
        InventoryStop::Memory
    }
}
