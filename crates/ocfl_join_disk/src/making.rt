//! A joined report that is made on a disk.
ghost use Rattle.std.specs.Prelude.{◌≡◌, ◌⊎◌, ◌++◌, [], None, Some, IsTrue, OnOk, OnErr, ℕ};
ghost use Rattle.std.specs.Option.{option_map};
ghost use Rattle.ocfl_disk.specs.Disk.{Calm};
ghost use Rattle.ocfl_joining.specs.Crash.{MayPut, Same};
ghost use Rattle.ocfl_join_disk.specs.Shown.{AreDurable, HadLeft, MayLeave, joined_in, left_in};
ghost use Rattle.ocfl_join_disk.specs.Shown.{left_now, made_of, only_left, others_in};
ghost use Rattle.ocfl_join_disk.specs.Shown.{seen_making, was_left};
ghost use Rattle.ocfl_join_disk.specs.Internal.Making.{IsNamed, PutsPass, put_made};

use crate::disk::JoinDisk;
use crate::parts::Parts;
use ocfl_joining::{KeptMark, PartReports, ReportTrouble};
use std::alloc::Global;

/// How many bytes are written at once, or a few more.
const WRITTEN_LEN: usize = 65_536;

/// The closed reports of parts in a cycle, and the joined one that is made of them. It tells what
/// it shows if its disk does.
///
/// The joined report is written beside its place. It gets its name only once its bytes are on the
/// disk, and then its folder is synced: a power cut leaves all of it, or none.
#[derive(Drop)]
pub struct MakingReports<D: JoinDisk + Drop> {
    parts: Parts<D>,
    cycle: u64,
    /// The file that is made, once it was begun.
    made: Option<D::Made>,
    /// What is not written to it yet.
    buffer: Vec<u8>,
    ghost made_is: { IsTrue D.told → (file : D.Made) → made ≡ Some file
        → (D.state parts.disk).seen.names.report ≡ Some (D.number file) },
}

impl<D: JoinDisk + Drop> MakingReports<D> {
    /// Those of a cycle on a disk, of which none is open. The joined report is not begun.
    pub fn over(alloc: Global, disk: D, cycle: u64) -> MakingReports<D>
        ensures disk { result.parts.disk ≡ disk }
        ensures cycle { result.cycle ≡ cycle }
        ensures made { result.made ≡ None }
        ensures buffer { result.buffer.items ≡ [] }
    {
        MakingReports {
            parts: Parts::on(disk),
            cycle,
            made: None,
            buffer: Vec::new(alloc),
        }
    }

    /// The disk.
    pub fn into_disk(self) -> D
        ensures { result ≡ self.parts.disk }
    {
        let MakingReports { parts, .. } = self;
        parts.into_disk()
    }

    /// Makes the file, which is empty.
    #[tactic(auto, using(crate::proofs::Putting::calm_puts, crate::proofs::Putting::puts_none, crate::proofs::Beside::others_calm))]
    fn create(&mut self) -> Result<(), ReportTrouble>
        ensures put { IsTrue D.told
            → joined_in self.old.cycle (D.state self.new.parts.disk).seen
            ≡ joined_in self.old.cycle (D.state self.old.parts.disk).seen }
        ensures others { IsTrue D.told
            → others_in self.old.cycle (D.state self.new.parts.disk).seen
            ≡ others_in self.old.cycle (D.state self.old.parts.disk).seen }
        ensures empty { IsTrue D.told → OnOk result (made_of
            (D.state self.new.parts.disk).seen.bytes (option_map D.number self.new.made) ≡ []) }
        ensures crash { IsTrue D.told → PutsPass self.old.cycle Same
            (D.state self.old.parts.disk) (D.state self.new.parts.disk) }
        ensures parts { IsTrue D.told → D.parts self.new.parts.disk ≡ D.parts self.old.parts.disk }
        ensures report { self.new.parts.report ≡ self.old.parts.report }
        ensures buffer { self.new.buffer ≡ self.old.buffer }
        ensures cycle { self.new.cycle ≡ self.old.cycle }
    {
        if self.made.is_some() {
            return Err(ReportTrouble::Failed);
        }
        self.made = Some(self.parts.disk.create(self.cycle)?);
        Ok(())
    }

    /// Writes what is not written yet.
    #[tactic(auto, using(crate::proofs::Putting::puts_none))]
    fn flush(&mut self) -> Result<(), ReportTrouble>
        ensures put { IsTrue D.told
            → joined_in self.old.cycle (D.state self.new.parts.disk).seen
            ≡ joined_in self.old.cycle (D.state self.old.parts.disk).seen }
        ensures others { IsTrue D.told
            → others_in self.old.cycle (D.state self.new.parts.disk).seen
            ≡ others_in self.old.cycle (D.state self.old.parts.disk).seen }
        ensures made { IsTrue D.told → OnOk result
            (made_of (D.state self.new.parts.disk).seen.bytes (option_map D.number self.new.made)
            ≡ made_of (D.state self.old.parts.disk).seen.bytes (option_map D.number self.old.made)
            ++ self.old.buffer.items) }
        ensures empty { OnOk result (self.new.buffer.items ≡ []) }
        ensures there { IsTrue D.told → OnOk result ((file : D.Made) × ((self.new.made ≡ Some file)
            × ((D.state self.new.parts.disk).seen.names.report ≡ Some (D.number file)))) }
        ensures crash { IsTrue D.told → PutsPass self.old.cycle Same
            (D.state self.old.parts.disk) (D.state self.new.parts.disk) }
        ensures parts { IsTrue D.told → D.parts self.new.parts.disk ≡ D.parts self.old.parts.disk }
        ensures report { self.new.parts.report ≡ self.old.parts.report }
        ensures cycle { self.new.cycle ≡ self.old.cycle }
    {
        let Some(file) = &mut self.made else {
            return Err(ReportTrouble::Failed);
        };
        self.parts
            .disk
            .append(self.cycle, file, self.buffer.as_slice())?;
        self.buffer.clear();
        Ok(())
    }

    /// Brings the bytes of the file to the disk.
    fn sync_made(&mut self) -> Result<(), ReportTrouble>
        ensures calm { IsTrue D.told → Calm (D.state self.old.parts.disk)
            (D.state self.new.parts.disk) }
        ensures synced { IsTrue D.told → OnOk result ((file : ℕ)
            → (D.state self.new.parts.disk).seen.names.report ≡ Some file
            → IsTrue ((D.state self.new.parts.disk).is_synced file)) }
        ensures there { IsTrue D.told → OnOk result ((file : D.Made) × ((self.old.made ≡ Some file)
            × ((D.state self.new.parts.disk).seen.names.report ≡ Some (D.number file)))) }
        ensures made { self.new.made ≡ self.old.made }
        ensures buffer { self.new.buffer ≡ self.old.buffer }
        ensures parts { IsTrue D.told → D.parts self.new.parts.disk ≡ D.parts self.old.parts.disk }
        ensures report { self.new.parts.report ≡ self.old.parts.report }
        ensures cycle { self.new.cycle ≡ self.old.cycle }
    {
        match &self.made {
            Some(file) => self.parts.disk.sync(self.cycle, file),
            None => Err(ReportTrouble::Failed),
        }
    }

    /// Gives the file, whose bytes are on the disk, the name of the joined report, and brings that
    /// to the disk.
    fn name_made(&mut self, whole: bool) -> Result<(), ReportTrouble>
        ensures put { IsTrue D.told → OnOk result (IsNamed self.old.cycle whole
            (D.state self.old.parts.disk).seen (option_map D.number self.old.made)
            (D.state self.new.parts.disk).seen) }
        ensures may { IsTrue D.told → OnErr result (
            (joined_in self.old.cycle (D.state self.new.parts.disk).seen
            ≡ joined_in self.old.cycle (D.state self.old.parts.disk).seen)
            ⊎ (IsNamed self.old.cycle whole (D.state self.old.parts.disk).seen
            (option_map D.number self.old.made) (D.state self.new.parts.disk).seen
            × (self.new.made ≡ None))) }
        ensures others { IsTrue D.told
            → others_in self.old.cycle (D.state self.new.parts.disk).seen
            ≡ others_in self.old.cycle (D.state self.old.parts.disk).seen }
        ensures none { OnOk result (self.new.made ≡ None) }
        ensures durable { IsTrue D.told → OnOk result
            (AreDurable self.old.cycle (D.state self.new.parts.disk)) }
        ensures crash { IsTrue D.told → PutsPass self.old.cycle
            (MayPut (put_made whole (D.state self.old.parts.disk).seen.bytes
            (option_map D.number self.old.made)))
            (D.state self.old.parts.disk) (D.state self.new.parts.disk) }
        ensures buffer { self.new.buffer ≡ self.old.buffer }
        ensures parts { IsTrue D.told → D.parts self.new.parts.disk ≡ D.parts self.old.parts.disk }
        ensures report { self.new.parts.report ≡ self.old.parts.report }
        ensures cycle { self.new.cycle ≡ self.old.cycle }
    {
        self.sync_made()?;
        if self.parts.disk.has_joined(self.cycle, whole)? {
            return Err(ReportTrouble::Failed);
        }
        self.made = None;
        self.parts.disk.rename(self.cycle, whole)?;
        self.parts.sync_names()
    }
}

impl<D: JoinDisk + Drop> PartReports for MakingReports<D> {
    ghost told = { D.told };

    ghost seen = { λ s. seen_making s.cycle (D.parts s.parts.disk)
        (left_in D.Report.remaining s.parts.report) (D.state s.parts.disk).seen
        (option_map D.number s.made) s.buffer.items };

    ghost lasts = { D.told };

    ghost may_leave = { λ s. MayLeave (D.state s.parts.disk) (joined_in s.cycle) };

    ghost moment = { λ s. (D.state s.parts.disk).moment };

    ghost left_since = { λ s. HadLeft (D.state s.parts.disk) (joined_in s.cycle) };

    ghost stays = { λ told s. left_now (D.is_disk told s.parts.disk) s.cycle };

    ghost counts_now = { λ told s. was_left (D.is_disk told s.parts.disk) s.cycle };

    ghost only_now = { λ told s. only_left (D.is_disk told s.parts.disk) s.cycle };

    fn begin(&mut self) -> Result<(), ReportTrouble> {
        self.buffer.clear();
        self.create()
    }

    fn open(&mut self, number: usize) -> Result<KeptMark, ReportTrouble> {
        self.parts.open(self.cycle, number)
    }

    fn read_line(&mut self, text: &mut Vec<u8>) -> Result<bool, ReportTrouble> {
        self.parts.read_line(self.cycle, text)
    }

    fn give(&mut self, bytes: &[u8]) -> Result<(), ReportTrouble> {
        self.buffer.extend_from_slice(bytes)?;
        if self.buffer.len() < WRITTEN_LEN {
            return Ok(());
        }
        self.flush()
    }

    fn find_word(&mut self, whole: bool) -> Result<Option<Vec<u8>>, ReportTrouble> {
        self.flush()?;
        let word = self.parts.disk.find_word(self.cycle, whole)?;
        Ok(Some(word))
    }

    fn put(&mut self, whole: bool) -> Result<(), ReportTrouble> {
        self.flush()?;
        self.name_made(whole)
    }
}
