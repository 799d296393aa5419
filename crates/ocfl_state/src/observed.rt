//! A state folder whose checkpoints something else hears of.
ghost use Rattle.std.specs.Prelude.{Bool};

use crate::folder::{FolderTrouble, StateFolder};

/// What hears of the checkpoints that are put in a folder.
pub trait Observer {
    /// A checkpoint of these bytes was put, and is on the disk.
    fn note(&mut self, bytes: &[u8]);
}

/// A state folder, and what hears of each checkpoint after it was put there.
#[derive(Drop)]
pub struct Observed<S: Drop, O: Drop> {
    pub folder: S,
    pub observer: O,
}

/// Does what the folder does, with the same contract.
impl<S: StateFolder + Drop, O: Observer + Drop> StateFolder for Observed<S, O> {
    ghost told = { S.told };

    ghost seen = { λ o. S.seen o.folder };

    ghost may_leave = { λ o. S.may_leave o.folder };

    ghost moment = { λ o. S.moment o.folder };

    ghost left_since = { λ o. S.left_since o.folder };

    ghost faults = { λ o. S.faults o.folder };

    ghost stays = { λ told o. S.stays told o.folder };

    ghost counts_now = { λ told o t c le now. S.counts_now told o.folder t c le now };

    ghost only_now = { λ told o c left. S.only_now told o.folder c left };

    fn checkpoint(&mut self) -> Result<Option<Vec<u8>>, FolderTrouble> {
        self.folder.checkpoint()
    }

    fn put_checkpoint(&mut self, bytes: &[u8]) -> Result<(), FolderTrouble> {
        self.folder.put_checkpoint(bytes)?;
        self.observer.note(bytes);
        Ok(())
    }

    fn length(&mut self) -> Result<u64, FolderTrouble> {
        self.folder.length()
    }

    fn read(&mut self, start: u64, buffer: &mut [u8]) -> Result<usize, FolderTrouble> {
        self.folder.read(start, buffer)
    }

    fn append(&mut self, bytes: &[u8]) -> Result<(), FolderTrouble> {
        self.folder.append(bytes)
    }

    fn cut(&mut self, most: u64) -> Result<(), FolderTrouble> {
        self.folder.cut(most)
    }

    fn sync(&mut self) -> Result<(), FolderTrouble> {
        self.folder.sync()
    }

    fn has_closed(&mut self, cycle: u64) -> Result<bool, FolderTrouble> {
        self.folder.has_closed(cycle)
    }

    fn close(&mut self, cycle: u64, whole: bool) -> Result<(), FolderTrouble> {
        self.folder.close(cycle, whole)
    }
}
