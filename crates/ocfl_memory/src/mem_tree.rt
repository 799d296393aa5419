//! A storage root in memory, which tells what was done to it and can be made to fail.
ghost use Rattle.std.specs.Prelude.{ℕ, List, None, Some, IfSome, ◌≡◌, ◌≢◌, ◌↔◌, ◌<◌, ◌≤◌, ◌+◌, ◌^◌, [], true, IsTrue, ◌&&◌, nat_lt, IfOk, IfErr, OnOk, OnErr, IsOk, IsOkUnless, MatchOption, MatchResult, Err, length, take, max, is_some, IsSome, if◌then◌else◌};
ghost use Rattle.ocfl_tree.specs.{StorageRoot.{file, dir, other, at}, Listing.{IsOrdinary, IsListing, kind_of}};
ghost use Rattle.std.specs.Option.{option_map};
ghost use Rattle.ocfl_tree.specs.Calls.{Lists, ListFails, Opens, OpenFails, Reads, ReadFails, Closes};
ghost use Rattle.ocfl_memory.specs.Faults.{after_call};
ghost use Rattle.ocfl_memory.specs.MemTree.{nothing_held, with_step, with_call, with_point, fails, read_fails, given_of, put_refusal, Puts, PutAnswer, FailsWhereStruck, Removes};

use crate::build::BuildStop;
use crate::nodes::{self, Node, Stored};
use crate::openings::{note_failed_listing, note_failure, note_given, note_opening, strikes_read};
use crate::plan::{Plan, Point};
use ocfl_folder::Seen;
use ocfl_tree::{Entry, Opening, Place, Tree, Trouble};
use std::alloc::{AllocError, Global};
use std::marker::Model;

/// The open file: the index of its place, and how many bytes of it were read.
#[derive(Clone, Copy, Debug)]
struct OpenFile {
    index: usize,
    offset: usize,
}

/// A tree in memory, whose calls can be made to fail.
#[derive(Debug, Drop)]
pub struct MemTree {
    nodes: Vec<(Place, Stored)>,
    open: Option<OpenFile>,
    openings: Vec<Opening>,
    listings: Vec<Place>,
    failed_listings: Vec<Place>,
    failures: u64,
    largest: usize,
    plan: Plan,
}

impl Model for MemTree {
    ghost use Rattle.ocfl_memory.specs.MemTree.{Held};

    ghost Value = { Held };

    ghost use Rattle.ocfl_memory.specs.Internal.Kept.{seen, IsKept};

    ghost view = { λ a. seen a.nodes.items a.open a.openings.items a.listings.items
        a.failed_listings.items a.failures a.largest a.plan };

    ghost invariant = { λ a. IsKept a.nodes.items a.openings.items a.open };
}

/// Whether a call fails that is made to: the count of failures has a limit.
fn can_fail(struck: bool, failures: u64) -> bool
    ensures { result ≡ (nat_lt (failures + 1) (2 ^ 64) && struck) }
{
    failures < u64::MAX && struck
}

/// Counts a failure of the device.
fn device_failed(failures: &mut u64) -> Trouble
    requires { failures.old + 1 < 2 ^ 64 }
    ensures trouble { result ≡ Trouble.Device }
    ensures counted { failures.new ≡ failures.old + 1 }
{
    *failures += 1;
    Trouble::Device
}

impl MemTree {
    /// A tree with nothing but its root.
    pub fn new(alloc: Global) -> MemTree
        ensures { result ≡ nothing_held }
    {
        MemTree {
            nodes: Vec::new(alloc),
            open: None,
            openings: Vec::new(alloc),
            listings: Vec::new(alloc),
            failed_listings: Vec::new(alloc),
            failures: 0,
            largest: 0,
            plan: Plan::new(alloc),
        }
    }

    fn put(&mut self, place: &Place, stored: Stored) -> Result<(), BuildStop>
        ensures ok { OnOk result (Puts self.old.store self.new.store place.now stored) }
        ensures faults { self.new.faults ≡ self.old.faults }
        ensures err { OnErr result (self.new ≡ self.old) }
        ensures refused { MatchOption (put_refusal self.old.store.tree place.now)
            (IsOkUnless result BuildStop.Memory) (λ stop. result ≡ Err stop) }
    {
        nodes::put(&mut self.nodes, place, stored)?;
        self.open = None;
        Ok(())
    }

    /// Puts a file of these bytes at a place, and closes the open file.
    pub fn put_file(&mut self, place: &Place, bytes: Vec<u8>) -> Result<(), BuildStop>
        ensures { PutAnswer self.old self.new place.now (file bytes.items) result }
    {
        self.put(place, Stored::new(Node::File(bytes)))
    }

    /// Puts an empty directory at a place, and closes the open file.
    pub fn put_dir(&mut self, place: &Place) -> Result<(), BuildStop>
        ensures { PutAnswer self.old self.new place.now dir result }
    {
        self.put(place, Stored::new(Node::Dir))
    }

    /// Puts at a place what is neither a file nor a directory, as a link, and closes the open file.
    pub fn put_other(&mut self, place: &Place) -> Result<(), BuildStop>
        ensures { PutAnswer self.old self.new place.now other result }
    {
        self.put(place, Stored::new(Node::Other))
    }

    /// Takes a place away with all below it, and closes the open file.
    /// The only refusal is `Absent`, if nothing is there, and for the root.
    pub fn remove(&mut self, place: &Place) -> Result<(), BuildStop>
        ensures ok { OnOk result (Removes self.old.store self.new.store place.now) }
        ensures faults { self.new.faults ≡ self.old.faults }
        ensures err { OnErr result (self.new ≡ self.old) }
        ensures removed { IsOk result ↔ ((place.now ≢ [])
            × IsSome (at self.old.store.tree place.now)) }
        ensures only_absent { IfErr result (λ stop. stop ≡ BuildStop.Absent) }
    {
        if place.path().is_empty() || !nodes::stands(&self.nodes, place) {
            return Err(BuildStop::Absent);
        }
        nodes::remove(&mut self.nodes, place);
        self.open = None;
        Ok(())
    }

    /// From now on a read gives at most this many bytes.
    pub fn step(&mut self, count: usize)
        requires { 0 < count }
        ensures { self.new ≡ with_step count self.old }
    {
        self.plan.set_step(count);
    }

    /// Of the following calls of `list`, `open` and `read`, the one of this number, counted from 1,
    /// answers `Device`. A read without an open file is not counted. A later plan takes the place
    /// of this one.
    pub fn fail_call(&mut self, number: u64)
        requires { 0 < number }
        ensures { self.new ≡ with_call number self.old }
    {
        self.plan.set_call(number);
    }

    /// Each call of this kind at the place answers `Device`; of reads, those at the offset or
    /// later, in bytes. The only refusal is `Memory`.
    pub fn fail_at(&mut self, place: &Place, point: Point) -> Result<(), BuildStop>
        ensures ok { OnOk result (self.new ≡ with_point place.now point self.old) }
        ensures err { OnErr result (self.new ≡ self.old) }
        ensures only_memory { IsOkUnless result BuildStop.Memory }
    {
        match self.plan.add(place, point) {
            Ok(()) => Ok(()),
            Err(_) => Err(BuildStop::Memory),
        }
    }

    /// Where it has its memory from.
    pub(crate) fn alloc(&self) -> Global {
        *self.nodes.allocator()
    }

    /// What a look at a place sees there, and nothing if nothing is there.
    pub(crate) fn seen_at(&self, place: &Place) -> Option<Seen>
        ensures { MatchOption result (at self.now.store.tree place.now ≡ None)
            (λ seen. option_map kind_of (at self.now.store.tree place.now) ≡ Some seen.kind) }
    {
        nodes::seen(&self.nodes, place)
    }

    /// The bytes of the file at a place, and of anything else none.
    pub(crate) fn bytes_at(&self, place: &Place) -> &[u8]
        ensures { (bytes : List ℕ) → at self.now.store.tree place.now ≡ Some (file bytes)
            → result.now ≡ bytes }
    {
        nodes::bytes(&self.nodes, place)
    }

    /// The entries of the directory at a place, and nothing if none is there.
    pub(crate) fn entries_at(&self, place: &Place) -> Result<Option<Vec<Entry>>, AllocError>
        ensures { IfOk result (λ found. IfSome found (λ entries.
            IsListing self.now.store.tree place.now entries.items)) }
    {
        if !nodes::is_dir(&self.nodes, place.path()) {
            return Ok(None);
        }
        let alloc = *self.nodes.allocator();
        Ok(Some(nodes::entries(alloc, &self.nodes, place.path())?))
    }

    /// Each opening of a file since `new`, oldest first.
    pub fn openings(&self) -> &[Opening]
        ensures { result.now ≡ self.now.store.openings }
    {
        self.openings.as_slice()
    }

    /// The place of each listing since `new`, oldest first.
    pub fn listings(&self) -> &[Place]
        ensures { result.now ≡ self.now.store.listings }
    {
        self.listings.as_slice()
    }

    /// How many calls answered `Device` since `new`.
    pub fn failures(&self) -> u64
        ensures { result ≡ self.now.store.failures }
    {
        self.failures
    }

    /// The length of the largest buffer that a read was given since `new`, in bytes.
    pub fn largest_read(&self) -> usize
        ensures { result ≡ self.now.store.largest }
    {
        self.largest
    }
}

impl Tree for MemTree {
    ghost told = { true };

    ghost state = { λ held. held.store };

    fn list(&mut self, place: &Place) -> Result<Vec<Entry>, Trouble>
        ensures ordinary { IfOk result (λ entries. IsOrdinary entries.items) }
        ensures lists { MatchResult result
            (λ entries. Lists self.old.store self.new.store place.now entries.items)
            (ListFails self.old.store self.new.store place.now) }

        // Which calls are made to fail.
        ensures after { self.new.faults ≡ after_call self.old.faults }
        ensures device { result ≡ Err Trouble.Device
            → IsTrue (fails self.old place.now Point.List) }
        ensures struck { FailsWhereStruck (fails self.old place.now Point.List) result }
    {
        let struck = self.plan.strikes(place, Point::List);
        if can_fail(struck, self.failures) {
            self.open = None; // after trouble no file is open
            note_failed_listing(&mut self.listings, &mut self.failed_listings, place)?;
            return Err(device_failed(&mut self.failures));
        }
        match nodes::list(
            *self.nodes.allocator(),
            &self.nodes,
            &mut self.listings,
            place,
        ) {
            Ok(entries) => Ok(entries),
            Err(trouble) => {
                self.open = None;
                Err(trouble)
            }
        }
    }

    fn open(&mut self, place: &Place) -> Result<(), Trouble>
        ensures opens { MatchResult result
            (λ _. Opens self.old.store self.new.store place.now)
            (OpenFails self.old.store self.new.store place.now) }

        // Which calls are made to fail.
        ensures after { self.new.faults ≡ after_call self.old.faults }
        ensures device { result ≡ Err Trouble.Device
            → IsTrue (fails self.old place.now Point.Open) }
        ensures struck { FailsWhereStruck (fails self.old place.now Point.Open) result }
    {
        self.open = None; // also where nothing is opened
        let struck = self.plan.strikes(place, Point::Open);
        if can_fail(struck, self.failures) {
            note_opening(&mut self.openings, place, true)?;
            return Err(device_failed(&mut self.failures));
        }
        let Some(index) = nodes::file_index(&self.nodes, place) else {
            return Err(Trouble::Absent);
        };
        note_opening(&mut self.openings, place, false)?;
        self.open = Some(OpenFile { index, offset: 0 });
        Ok(())
    }

    fn read(&mut self, buffer: &mut [u8]) -> Result<usize, Trouble>
        ensures bound { IfOk result (λ count. count ≤ length buffer.new) }
        ensures no_memory { result ≢ Err Trouble.Memory }
        ensures largest { self.new.store.largest ≡ max self.old.store.largest (length buffer.new) }
        ensures reads { MatchResult result
            (λ count. Reads self.old.store self.new.store (take count buffer.new)
            (length buffer.new))
            (ReadFails self.old.store self.new.store) }

        // How much is given, and which calls are made to fail.
        ensures count { IfOk result (λ count. count
            ≡ given_of self.old.faults.step self.old.store.rest (length buffer.new)) }
        ensures after { self.new.faults ≡ (if is_some self.old.store.rest then after_call
            self.old.faults else self.old.faults) }
        ensures device { (result ≡ Err Trouble.Device)
            ↔ (IsSome self.old.store.rest × IsTrue (read_fails self.old)) }
    {
        self.largest = self.largest.max(buffer.len());
        let Some(open) = self.open else {
            return Err(Trouble::Absent);
        };
        let struck = strikes_read(&mut self.plan, &self.openings);
        if can_fail(struck, self.failures) {
            self.open = None;
            note_failure(&mut self.openings);
            return Err(device_failed(&mut self.failures));
        }
        let left = &self.nodes[open.index].1.bytes()[open.offset..];
        let count = self.plan.within_step(left.len().min(buffer.len()));
        nodes::give(left, count, buffer);
        note_given(&mut self.openings, count);
        self.open = Some(OpenFile {
            index: open.index,
            offset: open.offset + count,
        });
        Ok(count)
    }

    fn close(&mut self)
        ensures closes { Closes self.old.store self.new.store }
        ensures faults { self.new.faults ≡ self.old.faults }
    {
        self.open = None;
    }
}
