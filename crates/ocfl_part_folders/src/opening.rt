//! The closed report of a part, opened to be joined.
ghost use Rattle.std.specs.Prelude.{◌≡◌, IsTrue, IfOk, OnOk, Some, length};
ghost use Rattle.ocfl_disk.specs.Disk.{Calm};
ghost use Rattle.ocfl_join_disk.specs.Shown.{or_nothing};
ghost use Rattle.ocfl_joining.specs.Facts.{mark_at};
ghost use Rattle.ocfl_part_folders.specs.Folder.{text_of, with_opened, with_part};

use crate::asking::part_of;
use crate::calls::{ClosedFile, PartCalls};
use crate::failing::gone;
use ocfl_files::failing::Failure;
use ocfl_join_disk::OpenPart;
use ocfl_joining::{Facts, mark_with};

/// Opens the closed report of a part, of whose checkpoint these are the facts.
pub(crate) fn open_part<C: PartCalls>(
    calls: &mut C,
    facts: &[Option<Facts>],
    cycle: u64,
    number: usize,
) -> Result<OpenPart<C::Report>, Failure>
    ensures bytes { IsTrue C.told → IfOk result (λ found. C.Report.remaining found.report
        ≡ Some (or_nothing (text_of (C.folder calls.old) cycle number))) }
    ensures mark { IsTrue C.told → IfOk result (λ found. found.mark ≡ mark_at facts.now number
        cycle (length (or_nothing (text_of (C.folder calls.old) cycle number)))
        ((C.folder calls.old).kept cycle number)) }
    ensures opened { IsTrue C.told
        → OnOk result (C.folder calls.new ≡ with_part number (C.folder calls.old)) }
    ensures folder { IsTrue C.told → C.folder calls.new
        ≡ with_opened (C.folder calls.new).opened (C.folder calls.old) }
    ensures calm { IsTrue C.told → Calm (C.disk calls.old) (C.disk calls.new) }
{
    let path = part_of(calls, number)?;
    let Some(closed) = calls.open_closed(path.as_str(), cycle)? else {
        return Err(gone(calls.global()));
    };
    let ClosedFile {
        report,
        bytes,
        kept,
    } = closed;
    let mark = mark_with(facts, number, cycle, bytes, &kept);
    Ok(OpenPart { report, mark })
}
