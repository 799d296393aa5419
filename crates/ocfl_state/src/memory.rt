//! A state folder in memory, which loses what a power cut may take, and can be made to fail.
ghost use Rattle.std.specs.Prelude.{◌≡◌, ◌⊎◌, ◌<◌, ◌+◌, true, None, Some, IfOk, OnOk, OnErr, MatchOption, IsOkUnless, length};
ghost use Rattle.std.specs.Option.{option_map};
ghost use Rattle.std.proofs.Common.{inl};
ghost use Rattle.ocfl_state.specs.Content.{empty};
ghost use Rattle.ocfl_state.specs.Memory.{fresh, then_keeps, images, images_since, stays, only_now, IsCrashed, kept_after};

use crate::folder::{FolderTrouble, MOST_CHECKPOINT, StateFolder};
use crate::held::{
    ClosedReport, Held, append_held, close_held, copy_checkpoint, cut_held, give_from, has_long,
    image_of, is_among, put_held, sync_held,
};
use std::alloc::{AllocError, Global};
use std::marker::Model;
use std::mem;

/// A state folder in memory. It keeps each content that it had, so that the folders which a crash
/// at any moment may leave can be made of it.
#[derive(Debug, Drop)]
pub struct MemState {
    alloc: Global,
    held: Held,
    past: Vec<Held>,
    call: Option<u64>,
    failures: u64,
}

impl Model for MemState {
    ghost use Rattle.ocfl_state.specs.Memory.{History};

    ghost Value = { History };

    ghost view = { λ a. record {
      now = a.held;
      past = a.past.items;
      call = a.call;
      failures = a.failures;
    } };
}

impl MemState {
    /// An empty folder.
    pub fn new(alloc: Global) -> MemState
        ensures { result ≡ fresh empty }
    {
        MemState {
            alloc,
            held: Held {
                checkpoint: None,
                report: Vec::new(alloc),
                closed: Vec::new(alloc),
                synced: 0,
                most: 0,
            },
            past: Vec::new(alloc),
            call: None,
            failures: 0,
        }
    }

    /// Of the following calls the one of this number, counted from 1, answers `Failed` and does
    /// nothing. A later plan takes the place of this one.
    pub fn fail_call(&mut self, number: u64)
        requires { 0 < number }
        ensures { self.new ≡ record self.old { call = Some number } }
    {
        self.call = Some(number);
    }

    /// The checkpoint's bytes, if there is one.
    pub fn checkpoint_bytes(&self) -> Option<&[u8]>
        ensures { option_map (λ bytes. bytes.now) result ≡ self.now.now.content.checkpoint }
    {
        match &self.held.checkpoint {
            None => None,
            Some(bytes) => Some(bytes.as_slice()),
        }
    }

    /// The bytes of the open cycle's report.
    pub fn report(&self) -> &[u8]
        ensures { result.now ≡ self.now.now.content.report }
    {
        self.held.report.as_slice()
    }

    /// The closed reports, oldest first.
    pub fn closed(&self) -> &[ClosedReport]
        ensures { result.now ≡ self.now.now.content.closed }
    {
        self.held.closed.as_slice()
    }

    /// How many changes there were.
    pub fn changes(&self) -> usize
        ensures { result ≡ length self.now.past }
    {
        self.past.len()
    }

    /// What was kept after this number of changes.
    #[tactic(auto, using(crate::proofs::Histories::kept_last, crate::proofs::Histories::kept_earlier))]
    fn held_after(&self, changes: usize) -> Option<&Held>
        ensures { option_map (λ held. held.now) result ≡ kept_after self.now changes }
    {
        if changes == self.changes() {
            return Some(&self.held);
        }
        self.past.get(changes)
    }

    /// The folder that a crash leaves if it comes after `changes` changes. Of the report's
    /// bytes that were not on the disk at most `left` stay, all zeros if `zeroed`. `None` if there
    /// were fewer changes.
    #[tactic(auto, using(crate::proofs::Images::torn_is_image))]
    pub fn crashed(
        &self,
        changes: usize,
        left: usize,
        zeroed: bool,
    ) -> Result<Option<MemState>, AllocError>
        ensures { IfOk result (λ found. MatchOption found
            (kept_after self.now changes ≡ None)
            (λ folder. IsCrashed self.now changes left zeroed folder)) }
    {
        let Some(held) = self.held_after(changes) else {
            return Ok(None);
        };
        Ok(Some(MemState {
            alloc: self.alloc,
            held: image_of(self.alloc, held, left, zeroed)?,
            past: Vec::new(self.alloc),
            call: None,
            failures: 0,
        }))
    }

    /// Keeps the next content, and what was kept as past. The only refusal is `Memory`, and then
    /// nothing is changed.
    fn keep(&mut self, next: Held) -> Result<(), FolderTrouble>
        ensures ok { OnOk result (self.new ≡ then_keeps next self.old) }
        ensures err { OnErr result (self.new ≡ self.old) }
        ensures either { (self.new ≡ then_keeps next self.old) ⊎ (self.new ≡ self.old) }
        ensures only_memory { IsOkUnless result FolderTrouble.Memory }
    {
        let before = mem::replace(&mut self.held, next);
        match self.past.push(before) {
            Ok(()) => Ok(()),
            Err(failed) => {
                self.held = failed.value;
                Err(FolderTrouble::Memory)
            }
        }
    }

    /// Counts a call. `Failed` if it is the one that is made to fail.
    fn begin_call(&mut self) -> Result<(), FolderTrouble>
        ensures now { self.new.now ≡ self.old.now }
        ensures past { self.new.past ≡ self.old.past }
        ensures ok { OnOk result (self.new.failures ≡ self.old.failures) }
        ensures err { OnErr result (self.new.failures ≡ self.old.failures + 1) }
        ensures only_failed { IsOkUnless result FolderTrouble.Failed }
    {
        let due = self.call == Some(1);
        self.call = match self.call {
            Some(count) if count > 1 => Some(count - 1),
            _ => None,
        };
        if due && self.failures < u64::MAX {
            self.failures += 1;
            return Err(FolderTrouble::Failed);
        }
        Ok(())
    }
}

impl StateFolder for MemState {
    ghost told = { true };

    ghost seen = { λ h. h.now.content };

    ghost may_leave = { images };

    ghost moment = { λ h. length h.past };

    ghost left_since = { images_since };

    ghost faults = { λ h. h.failures };

    ghost stays = { λ told h. stays h };

    ghost counts_now = { λ told h t c le now. inl now };

    ghost only_now = { λ told h c left. only_now h c left };

    fn checkpoint(&mut self) -> Result<Option<Vec<u8>>, FolderTrouble> {
        self.begin_call()?;
        if has_long(&self.held.checkpoint) {
            return Err(FolderTrouble::Failed);
        }
        Ok(copy_checkpoint(self.alloc, &self.held.checkpoint)?)
    }

    fn put_checkpoint(&mut self, bytes: &[u8]) -> Result<(), FolderTrouble> {
        self.begin_call()?;
        if bytes.len() > MOST_CHECKPOINT {
            return Err(FolderTrouble::Failed);
        }
        let next = put_held(self.alloc, &self.held, bytes)?;
        self.keep(next)
    }

    fn length(&mut self) -> Result<u64, FolderTrouble> {
        self.begin_call()?;
        Ok(self.held.report.len() as u64)
    }

    fn read(&mut self, start: u64, buffer: &mut [u8]) -> Result<usize, FolderTrouble> {
        self.begin_call()?;
        Ok(give_from(&self.held.report, start, buffer))
    }

    fn append(&mut self, bytes: &[u8]) -> Result<(), FolderTrouble> {
        self.begin_call()?;
        let next = append_held(self.alloc, &self.held, bytes)?;
        self.keep(next)
    }

    fn cut(&mut self, most: u64) -> Result<(), FolderTrouble> {
        self.begin_call()?;
        let next = cut_held(self.alloc, &self.held, most)?;
        self.keep(next)
    }

    fn sync(&mut self) -> Result<(), FolderTrouble> {
        self.begin_call()?;
        let next = sync_held(self.alloc, &self.held)?;
        self.keep(next)
    }

    fn has_closed(&mut self, cycle: u64) -> Result<bool, FolderTrouble> {
        self.begin_call()?;
        Ok(is_among(&self.held.closed, cycle))
    }

    fn close(&mut self, cycle: u64, whole: bool) -> Result<(), FolderTrouble> {
        self.begin_call()?;
        if is_among(&self.held.closed, cycle) {
            return Err(FolderTrouble::Taken);
        }
        let next = close_held(self.alloc, &self.held, cycle, whole)?;
        self.keep(next)
    }
}
