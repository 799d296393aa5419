//! Finding the scope that is chosen: the branch of a path, or the part with a number.
ghost use Rattle.std.specs.Prelude.{◌≡◌, IfErr, IfOk, option_map};
ghost use Rattle.ocfl_scope.specs.Finding.{BranchStops, IsBranchScope, IsPartScope, PartStops};
ghost use Rattle.ocfl_scope.specs.Numbered.{part_between, part_numbered};

use crate::scope::Scope;
use crate::stop::ScopeStop;
use ocfl_cursor::PartEnds;
use ocfl_report::{TextStop, read_place};
use ocfl_separators::{Separators, read_parts};
use ocfl_tree::Place;
use std::alloc::{AllocError, Global};
use std::io::Read;

/// The branch of the place with this path, written as in report lines. A path that is not that of
/// a place is `ScopeStop::BadPath`. The only other error is `ScopeStop::Memory`.
pub fn find_branch(alloc: Global, path: &str) -> Result<Scope, ScopeStop>
    ensures branch { IfOk result (IsBranchScope path.now) }
    ensures refused { IfErr result (BranchStops path.now) }
{
    match read_place(alloc, path.as_bytes()) {
        Ok(place) => Ok(Scope::Branch(place)),
        Err(TextStop::Bad) => Err(ScopeStop::BadPath),
        Err(TextStop::Memory) => Err(ScopeStop::Memory),
    }
}

/// The part with this number, from 1, of those that separators make. Their text is all the bytes of
/// the reader, which are read as `read_parts` does.
///
/// Bytes that are not such a text, and a reader that failed, are `ScopeStop::Parts`. If the
/// separators make fewer parts, or the number is 0, it is `ScopeStop::NoSuchPart`. If memory is
/// refused, it is `ScopeStop::Parts` while they are read, and then `ScopeStop::Memory`.
pub fn find_part<R: Read>(alloc: Global, reader: &mut R, number: usize) -> Result<Scope, ScopeStop>
    ensures part { IfOk result (IsPartScope (R.remaining reader.old) number) }
    ensures refused { IfErr result (PartStops (R.remaining reader.old) number) }
{
    let separators = match read_parts(alloc, reader) {
        Ok(separators) => separators,
        Err(why) => return Err(ScopeStop::Parts(why)),
    };
    match copy_ends(&separators, number) {
        Ok(Some(ends)) => Ok(Scope::Part(ends)),
        Ok(None) => Err(ScopeStop::NoSuchPart),
        Err(AllocError) => Err(ScopeStop::Memory),
    }
}

/// The ends of the part with this number, from 1. `None` if there are fewer parts.
fn copy_ends(separators: &Separators, number: usize) -> Result<Option<PartEnds>, AllocError>
    ensures { IfOk result (λ found.
        option_map part_between found ≡ part_numbered separators.now number) }
{
    let Some((from, below)) = separators.ends(number) else {
        return Ok(None);
    };
    let from = copy_place(from)?;
    let below = copy_place(below)?;
    Ok(Some(PartEnds { from, below }))
}

/// A copy of the place, if there is one.
fn copy_place(place: Option<&Place>) -> Result<Option<Place>, AllocError>
    ensures { IfOk result (λ again. again ≡ option_map (λ p. p.now) place.entry) }
{
    match place {
        Some(place) => Ok(Some(place.try_clone()?)),
        None => Ok(None),
    }
}
