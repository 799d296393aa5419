//! The watch of a system in memory that keeps what is noted.
ghost use Rattle.std.specs.Prelude.{◌≡◌};
ghost use Rattle.ocfl_tree.specs.Store.{empty_store};

use crate::openings::{add_failure, add_given, note_failed_listing, note_listing, note_opening};
use crate::watch::Watch;
use ocfl_folder::{Answer, ReadAnswer};
use ocfl_tree::{Opening, Place};
use std::alloc::{AllocError, Global};
use std::cell::Cell;
use std::marker::Model;

/// Keeps what a folder notes, and makes one call of its system fail. Its value in clauses: what was
/// noted, with an empty tree.
///
/// A note is refused if memory is. So is that of a read, if its opening gave 2^64 bytes by it; or
/// if the device failed in it and no opening is there, or it failed in the last one before.
#[derive(Drop)]
pub struct MemWatch {
    openings: Vec<Opening>,
    listings: Vec<Place>,
    unlisted: Vec<Place>,
    largest: usize,
    calls: Cell<u64>,
    when: u64,
}

impl Model for MemWatch {
    ghost use Rattle.ocfl_tree.specs.Store.{Store};
    ghost use Rattle.ocfl_memory.specs.MemWatch.{watched};

    ghost Value = { Store };

    ghost view = { λ a. watched a.openings.items a.listings.items a.unlisted.items a.largest };
}

impl MemWatch {
    /// A watch that has noted nothing. It makes the call of this number fail, counted from 1.
    pub fn new(alloc: Global, when: u64) -> MemWatch
        ensures { result ≡ empty_store }
    {
        MemWatch {
            openings: Vec::new(alloc),
            listings: Vec::new(alloc),
            unlisted: Vec::new(alloc),
            largest: 0,
            calls: Cell::new(0),
            when,
        }
    }

    /// Each opening of a file that was noted, oldest first.
    pub fn openings(&self) -> &[Opening]
        ensures { result.now ≡ self.now.openings }
    {
        self.openings.as_slice()
    }

    /// The place of each listing that was noted, oldest first.
    pub fn listings(&self) -> &[Place]
        ensures { result.now ≡ self.now.listings }
    {
        self.listings.as_slice()
    }

    /// The place of each of them in which the device failed, oldest first.
    pub fn failed_listings(&self) -> &[Place]
        ensures { result.now ≡ self.now.failed_listings }
    {
        self.unlisted.as_slice()
    }

    /// How often the device failed.
    pub fn failures(&self) -> u64
        ensures { result ≡ self.now.failures }
    {
        let mut failures = self.unlisted.len() as u64;
        for opening in &self.openings {
            if opening.failed {
                failures += 1;
            }
        }
        failures
    }

    /// The length of the largest buffer that a read was given, in bytes.
    pub fn largest_read(&self) -> usize
        ensures { result ≡ self.now.largest }
    {
        self.largest
    }

    /// How many calls the system was asked for.
    pub fn calls(&self) -> u64 {
        self.calls.get()
    }
}

impl Watch for MemWatch {
    ghost noted = { λ watch. watch };

    fn strikes(&self) -> bool {
        let calls = self.calls.get().saturating_add(1);
        self.calls.set(calls);
        calls == self.when
    }

    #[tactic(auto, using(crate::proofs::Watches::listed, crate::proofs::Watches::unlisted, crate::proofs::Watches::opened, crate::proofs::Watches::unopened))]
    fn note(&mut self, place: &Place, answer: Answer) -> Result<(), AllocError> {
        match answer {
            Answer::Listed => note_listing(&mut self.listings, place),
            Answer::NotListed => note_failed_listing(&mut self.listings, &mut self.unlisted, place),
            Answer::Opened => note_opening(&mut self.openings, place, false),
            Answer::NotOpened => note_opening(&mut self.openings, place, true),
        }
    }

    #[tactic(auto, using(crate::proofs::Watches::gave, crate::proofs::Watches::failed))]
    fn note_read(&mut self, room: usize, answer: ReadAnswer) -> Result<(), AllocError> {
        match answer {
            ReadAnswer::Gave(count) => add_given(&mut self.openings, count)?,
            ReadAnswer::Failed => add_failure(&mut self.openings)?,
            ReadAnswer::NoFile => {}
        }
        self.largest = self.largest.max(room);
        Ok(())
    }
}
