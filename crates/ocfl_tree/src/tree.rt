//! The interface of a store.
ghost use Rattle.std.specs.Prelude.{◌≡◌, ◌≢◌, ◌≤◌, Bool, IsTrue, IfOk, MatchResult, length, take, max, Err};
ghost use Rattle.ocfl_tree.specs.{Store.{Store}, Listing.{IsOrdinary}};
ghost use Rattle.ocfl_tree.specs.Calls.{Lists, ListFails, Opens, OpenFails, Reads, ReadFails, Closes};

use crate::place::Place;
use crate::store::{Entry, Trouble};

/// Files and directories below a storage root (OCFL 1.1, section 4), which are listed and read. At
/// most one file is open.
pub trait Tree {
    /// Whether the store tells its tree. Of one that does not, `state` says nothing.
    ghost told: { Bool };

    ghost state: { Self → Store };

    /// The entries of the directory at a place, each once, in any order, and at most 1,000,000.
    ///
    /// `Device` if the device failed, `Absent` if no directory is there, `Memory` if
    /// memory was refused. After any of them no file is open.
    fn list(&mut self, place: &Place) -> Result<Vec<Entry>, Trouble>
        ensures ordinary { IfOk result (λ entries. IsOrdinary entries.items) }
        ensures lists { IsTrue told → MatchResult result
            (λ entries. Lists (state self.old) (state self.new) place.now entries.items)
            (ListFails (state self.old) (state self.new) place.now) };

    /// Opens the file at a place, and closes the one before.
    ///
    /// `Device` if the device failed, `Absent` if no file is there, `Memory` if memory was
    /// refused. After any of them no file is open.
    fn open(&mut self, place: &Place) -> Result<(), Trouble>
        ensures { IsTrue told → MatchResult result
            (λ _. Opens (state self.old) (state self.new) place.now)
            (OpenFails (state self.old) (state self.new) place.now) };

    /// Reads the next bytes of the open file into the front of the buffer, and gives how many.
    /// For a buffer that is not empty, 0 is the end of the file.
    ///
    /// `Device` if the device failed, and `Absent` if no file is open. After any of them no
    /// file is open.
    fn read(&mut self, buffer: &mut [u8]) -> Result<usize, Trouble>
        ensures bound { IfOk result (λ count. count ≤ length buffer.new) }
        ensures no_memory { result ≢ Err Trouble.Memory }
        ensures largest { IsTrue told → (state self.new).largest
            ≡ max (state self.old).largest (length buffer.new) }
        ensures reads { IsTrue told → MatchResult result
            (λ count. Reads (state self.old) (state self.new) (take count buffer.new)
            (length buffer.new))
            (ReadFails (state self.old) (state self.new)) };

    fn close(&mut self)
        ensures { IsTrue told → Closes (state self.old) (state self.new) };
}
