//! The list of known findings.
ghost use Rattle.std.specs.Prelude.{◌≡◌, [], IfErr, IfOk, IfSome, IsNone, IsOk};
ghost use Rattle.ocfl_messages.specs.List.{ListsEntries};
ghost use Rattle.ocfl_files.specs.Failing.{OrMemory};
ghost use Rattle.ocfl_reading.specs.Using.{RefusesOn};

use crate::refusing::unread;
use ocfl_files::failing::Failure;
use ocfl_messages::{Known, KnownStop, read_known};
use std::alloc::{AllocError, Global};
use std::fs::File;
use std::io::Read;
use std::rt::Files;

/// The known findings that an opened file lists.
fn known_in<F: Read>(alloc: Global, file: &str, opened: &mut F) -> Result<Known, Failure>
    ensures known { IfOk result (λ known. IfSome (F.remaining opened.old)
        (λ bytes. ListsEntries bytes known)) }
    ensures refused { IfErr result (OrMemory (RefusesOn file.now)) }
{
    match read_known(alloc, opened) {
        Ok(known) => Ok(known),
        Err(KnownStop::Memory) => Err(Failure::from(AllocError)),
        Err(stop) => Err(unread(alloc, file, &stop)),
    }
}

/// The known findings that a file lists, and none without a file.
pub fn find_known<R>(rt: &R, file: Option<&str>) -> Result<Known, Failure>
where
    R: Files + AllocGlobal,
    ensures none { IsNone file.entry → IsOk result }
    ensures empty { IsNone file.entry → IfOk result (λ known. known ≡ []) }
    ensures refused { IfSome file.entry (λ file. IfErr result (OrMemory (RefusesOn file.now))) }
{
    let alloc = rt.alloc();
    let Some(file) = file else {
        return Ok(Known::new(alloc));
    };
    match File::open(rt, file) {
        Ok(mut opened) => known_in(alloc, file, &mut opened),
        Err(error) => Err(unread(alloc, file, &error)),
    }
}
