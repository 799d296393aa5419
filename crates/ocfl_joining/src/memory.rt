//! Closed reports of parts in memory, and the joined ones that were made of them.
ghost use Rattle.std.specs.Prelude.{◌≡◌, [], length, true, refl, IfOk, IfSome};
ghost use Rattle.ocfl_joining.specs.Memory.{bytes_of, kept_of, leaves_now, nothing_put, seen_in};
ghost use Rattle.ocfl_joining.specs.Memory.{is_left_now, is_left_only, word_of};
ghost use Rattle.ocfl_joining.specs.Memory.{left_since as was_left_since};

use crate::reports::{KeptMark, PartReports, ReportTrouble};
use ocfl_report::read_next_line;
use std::alloc::{AllocError, Global};

/// The closed report of a part, and with what it was closed.
#[derive(Debug, Drop)]
pub struct MemoryReport {
    pub bytes: Vec<u8>,
    pub kept: KeptMark,
}

/// A joined report that was put.
#[derive(Debug, Drop)]
pub struct MemoryJoined {
    pub whole: bool,
    pub bytes: Vec<u8>,
}

/// The closed reports of parts in memory, in their order, and the joined ones that were made of
/// them.
#[derive(Debug)]
pub struct MemoryReports {
    alloc: Global,
    parts: Vec<MemoryReport>,
    opened: Vec<usize>,
    left: Vec<u8>,
    made: Vec<u8>,
    put: Vec<MemoryJoined>,
}

/// Written by hand, so that to let it go is one call wherever that happens.
impl Drop for MemoryReports {
    fn drop(self) {
        let MemoryReports {
            alloc: _alloc,
            parts: _parts,
            opened: _opened,
            left: _left,
            made: _made,
            put: _put,
        } = self;
    }
}

impl MemoryReports {
    /// These closed reports, of which none was opened.
    pub fn new(alloc: Global, parts: Vec<MemoryReport>) -> MemoryReports
        ensures { seen_in result ≡ nothing_put parts.items }
    {
        MemoryReports {
            alloc,
            parts,
            opened: Vec::new(alloc),
            left: Vec::new(alloc),
            made: Vec::new(alloc),
            put: Vec::new(alloc),
        }
    }

    /// The joined reports that were put.
    pub fn joined(&self) -> &[MemoryJoined]
        ensures { result.now ≡ self.now.put.items }
    {
        self.put.as_slice()
    }

    /// Which reports were opened, by the numbers of their parts.
    pub fn opened(&self) -> &[usize]
        ensures { result.now ≡ self.now.opened.items }
    {
        self.opened.as_slice()
    }
}

/// The report of the part with a number.
fn part_with(parts: &[MemoryReport], number: usize) -> Option<&MemoryReport>
    ensures { IfSome result (λ part. (part.now.bytes.items ≡ bytes_of parts.now number)
        × (part.now.kept ≡ kept_of parts.now number)) }
{
    parts.get(number.checked_sub(1)?)
}

/// The word on a joined report of so many bytes.
fn word_for(alloc: Global, bytes: &[u8]) -> Result<Vec<u8>, AllocError>
    ensures { IfOk result (λ word. word.items ≡ word_of bytes.now) }
{
    let mut word = Vec::new(alloc);
    word.push((bytes.len() % 256) as u8)?;
    Ok(word)
}

impl PartReports for MemoryReports {
    ghost told = { true };

    ghost seen = { seen_in };

    ghost lasts = { true };

    ghost may_leave = { leaves_now };

    ghost moment = { λ reports. length (seen_in reports).put };

    ghost left_since = { was_left_since };

    ghost stays = { λ lasts reports. refl };

    ghost counts_now = { λ lasts reports t puts le now. is_left_now reports t puts le now };

    ghost only_now = { λ lasts reports puts left. is_left_only reports puts left };

    fn begin(&mut self) -> Result<(), ReportTrouble> {
        self.made.clear();
        Ok(())
    }

    fn open(&mut self, number: usize) -> Result<KeptMark, ReportTrouble> {
        let Some(part) = part_with(self.parts.as_slice(), number) else {
            return Err(ReportTrouble::Failed);
        };
        let left = part.bytes.to_vec(self.alloc)?;
        let kept = part.kept;
        if self.opened.push(number).is_err() {
            return Err(ReportTrouble::Memory);
        }
        self.left = left;
        Ok(kept)
    }

    fn read_line(&mut self, text: &mut Vec<u8>) -> Result<bool, ReportTrouble> {
        let mut rest = self.left.as_slice();
        let Ok(more) = read_next_line(&mut rest, text) else {
            return Err(ReportTrouble::Memory);
        };
        self.left = rest.to_vec(self.alloc)?;
        Ok(more)
    }

    fn give(&mut self, bytes: &[u8]) -> Result<(), ReportTrouble> {
        self.made.extend_from_slice(bytes)?;
        Ok(())
    }

    fn find_word(&mut self, _whole: bool) -> Result<Option<Vec<u8>>, ReportTrouble> {
        let word = word_for(self.alloc, self.made.as_slice())?;
        Ok(Some(word))
    }

    fn put(&mut self, whole: bool) -> Result<(), ReportTrouble> {
        let bytes = self.made.to_vec(self.alloc)?;
        if self.put.push(MemoryJoined { whole, bytes }).is_err() {
            return Err(ReportTrouble::Memory);
        }
        self.made = Vec::new(self.alloc);
        Ok(())
    }
}
