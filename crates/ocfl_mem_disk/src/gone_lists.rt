//! Lists of what is gone, by their paths and the log of the calls on them.
ghost use Rattle.std.specs.Prelude.{◌≡◌, IsTrue, MatchResult, OnOk, [], option_map};
ghost use Rattle.ocfl_closed.specs.{Cut.{AreNamed, Calm, Names, Still}, Files.{Files}};
ghost use Rattle.ocfl_mem_disk.specs.Closings.{closed_after, gone_digits as gone_digits_of};
ghost use Rattle.ocfl_mem_disk.specs.Closings.{list_from};

use crate::joined_path::behind;
use crate::mem_list_call::MemListCall;
use std::alloc::AllocError;

/// What is behind the front of the path of a list of what is gone in a state folder, if the path
/// has that front.
pub(crate) fn gone_digits<'a>(state: &str, path: &'a str) -> Option<&'a [u8]>
    ensures { option_map (λ digits. digits.now) result ≡ gone_digits_of state.now path.now }
{
    behind(
        b"/reports/gone-",
        behind(state.as_bytes(), path.as_bytes())?,
    )
}

/// The list of a cycle after these calls, of which this one was there before them, if one was.
pub(crate) fn list_after<'a>(
    log: &'a [MemListCall],
    cycle: u64,
    start: Option<&'a [u8]>,
) -> Option<&'a [u8]>
    ensures { option_map (λ list. list.now) result
        ≡ list_from cycle [] (option_map (λ list. list.now) start.entry) log.now }
{
    let mut beside: &[u8] = &[];
    let mut found = start;
    for call in log {
        match call {
            MemListCall::Write(bytes) => beside = bytes.as_slice(),
            MemListCall::Put(number) if *number == cycle => found = Some(beside),
            _ => {}
        }
    }
    found
}

/// The list that was made last has these bytes.
pub(crate) fn write(log: &mut Vec<MemListCall>, bytes: Vec<u8>) -> Result<(), AllocError>
    ensures calm { (files : Files)
        → Calm (closed_after files log.old.items) (closed_after files log.new.items) }
    ensures beside { (files : Files)
        → OnOk result ((closed_after files log.new.items).beside ≡ bytes.items) }
{
    log.push(MemListCall::Write(bytes))?;
    Ok(())
}

/// Its bytes are brought to the disk.
pub(crate) fn sync(log: &mut Vec<MemListCall>) -> Result<(), AllocError>
    ensures still { (files : Files)
        → Still (closed_after files log.old.items) (closed_after files log.new.items) }
    ensures synced { (files : Files)
        → OnOk result (IsTrue (closed_after files log.new.items).is_synced) }
{
    log.push(MemListCall::Sync)?;
    Ok(())
}

/// It becomes the list of a cycle.
pub(crate) fn put(log: &mut Vec<MemListCall>, cycle: u64) -> Result<(), AllocError>
    ensures { (files : Files) → MatchResult result
        (λ _. Names cycle (closed_after files log.old.items) (closed_after files log.new.items))
        (λ _. Calm (closed_after files log.old.items) (closed_after files log.new.items)) }
{
    log.push(MemListCall::Put(cycle))?;
    Ok(())
}

/// The names of lists are brought to the disk.
pub(crate) fn sync_names(log: &mut Vec<MemListCall>) -> Result<(), AllocError>
    ensures calm { (files : Files)
        → Calm (closed_after files log.old.items) (closed_after files log.new.items) }
    ensures named { (files : Files)
        → OnOk result (AreNamed (closed_after files log.new.items)) }
{
    log.push(MemListCall::SyncFolder)?;
    Ok(())
}
