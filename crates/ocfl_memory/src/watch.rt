//! What watches the calls of a system in memory.
ghost use Rattle.std.specs.Prelude.{◌≡◌, IsOk, OnOk, OnErr};
ghost use Rattle.ocfl_tree.specs.Store.{Store};
ghost use Rattle.ocfl_folder.specs.Noted.{with_answer, with_read, with_room, IsKeepable};

use ocfl_folder::{Answer, ReadAnswer};
use ocfl_tree::Place;
use std::alloc::AllocError;

/// Keeps what became of the calls of a system in memory, and makes its calls fail.
pub trait Watch {
    /// What was noted, as a store tells it. Its tree says nothing.
    ghost noted: { Self → Store };

    /// Whether the next call of the system fails. Notes are no calls.
    fn strikes(&self) -> bool;

    /// Keeps what became of a listing or of an opening at a place. The error is that memory was
    /// refused.
    fn note(&mut self, place: &Place, answer: Answer) -> Result<(), AllocError>
        ensures ok { OnOk result (noted self.new ≡ with_answer answer place.now (noted self.old)) }
        ensures err { OnErr result (noted self.new ≡ noted self.old) };

    /// Keeps what became of a read into a buffer with this room. The error is that memory was
    /// refused, or that the bytes cannot be counted any more.
    fn note_read(&mut self, room: usize, answer: ReadAnswer) -> Result<(), AllocError>
        ensures ok { OnOk result (noted self.new
            ≡ with_read answer (with_room room (noted self.old))) }
        ensures err { OnErr result (noted self.new ≡ noted self.old) }
        ensures kept { IsKeepable answer (noted self.old).openings → IsOk result };
}
