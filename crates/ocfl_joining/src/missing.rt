//! Which parts cannot be joined, and why.
ghost use Rattle.std.specs.Prelude.{◌≡◌, ◌+◌, ◌++◌, IfOk, OnOk, filter, is_some, option_map};
ghost use Rattle.std.specs.List.{find};
ghost use Rattle.ocfl_joining.specs.Missing.{check_same, closed_fault, fault_of, further_of};
ghost use Rattle.ocfl_joining.specs.Missing.{has_ends, hinders, is_few};
ghost use Rattle.ocfl_joining.specs.Missing.{left_by, left_of, missing_of, most_names, named};
ghost use Rattle.ocfl_joining.specs.Missing.{names_of, part_at, root_of, same_end};

use crate::part::{ClosedPart, MissingPart, PartFault};
use ocfl_report::Further;
use ocfl_separators::Separators;
use ocfl_tree::{Place, is_bytes};
use std::alloc::{AllocError, Global};

/// What is wrong with the part with this number, from 1, beside the others of this cycle of this
/// storage root, whose audits check this further, and of which one saw `most` names in it. None if
/// nothing is.
fn find_fault(
    separators: &Separators,
    root: &[u8],
    further: Further,
    cycle: u64,
    most: u64,
    number: usize,
    part: Option<&ClosedPart>,
) -> Option<PartFault>
    ensures { result ≡ fault_of separators.now root.now further cycle most number
        (option_map (λ p. p.now) part.entry) }
{
    let Some((from, below)) = separators.ends(number) else {
        return Some(PartFault::NoPart);
    };
    match part {
        Some(part) => find_closed_fault(root, further, cycle, most, from, below, part),
        None => Some(PartFault::NotClosed),
    }
}

fn find_closed_fault(
    root: &[u8],
    further: Further,
    cycle: u64,
    most: u64,
    from: Option<&Place>,
    below: Option<&Place>,
    part: &ClosedPart,
) -> Option<PartFault>
    ensures { result ≡ closed_fault root.now further cycle most
        (option_map (λ p. p.now) from.entry) (option_map (λ p. p.now) below.entry) part.now }
{
    if !is_bytes(part.root.as_slice(), root) {
        return Some(PartFault::OtherRoot);
    }
    if !is_part_of(part, from, below) {
        return Some(PartFault::OtherPart);
    }
    if !check_same(part.further, further) {
        return Some(PartFault::OtherAudit);
    }
    if part.cycle != cycle {
        return Some(PartFault::OtherCycle);
    }
    if !part.has_said {
        return Some(PartFault::ClosingUnsaid);
    }
    if saw_few(most, part.names) {
        return Some(PartFault::FewNames);
    }
    if part.whole {
        None
    } else {
        Some(PartFault::Incomplete)
    }
}

/// Whether a part has these ends.
fn is_part_of(part: &ClosedPart, from: Option<&Place>, below: Option<&Place>) -> bool
    ensures { result ≡ has_ends part.now (option_map (λ p. p.now) from.entry)
        (option_map (λ p. p.now) below.entry) }
{
    is_end(&part.from, from) && is_end(&part.below, below)
}

fn is_end(place: &Option<Place>, end: Option<&Place>) -> bool
    ensures { result ≡ same_end place.now (option_map (λ p. p.now) end.entry) }
{
    match (place, end) {
        (Some(place), Some(end)) => place.cmp(end).is_eq(),
        (None, None) => true,
        _ => false,
    }
}

/// Whether two audits check the same.
fn check_same(one: Further, other: Further) -> bool
    ensures { result ≡ check_same one other }
{
    one == other
}

/// Whether a number of names is less than half of the most.
fn saw_few(most: u64, names: Option<u64>) -> bool
    ensures { result ≡ is_few most names }
{
    match names {
        Some(names) => names < most.saturating_sub(names),
        None => false,
    }
}

/// How many names a part saw in the storage root; 0 if that is not known.
fn known_names(part: &Option<ClosedPart>) -> u64
    ensures { result ≡ names_of part.now }
{
    match part {
        Some(part) => part.names.unwrap_or(0),
        None => 0,
    }
}

/// The most names that one of the parts saw in the storage root; 0 if no number is known.
pub fn find_most_names(parts: &[Option<ClosedPart>]) -> u64
    ensures { result ≡ most_names parts.now }
{
    let mut most = 0;
    for part in parts {
        most = known_names(part).max(most);
    }
    most
}

/// The first part that is known.
fn first_known(parts: &[Option<ClosedPart>]) -> Option<&Option<ClosedPart>>
    ensures { option_map (λ p. p.now) result ≡ find (λ part. is_some part) parts.now }
{
    parts.iter().find(|part| part.is_some())
}

/// Which storage root the first part is of that is known; no bytes if none is.
pub fn find_root(parts: &[Option<ClosedPart>]) -> &[u8]
    ensures { result.now ≡ root_of parts.now }
{
    match first_known(parts) {
        Some(Some(part)) => part.root.as_slice(),
        _ => &[],
    }
}

/// What the audit of the first part that is known checks further; nothing if none is known.
fn find_further(parts: &[Option<ClosedPart>]) -> Further
    ensures { result ≡ further_of parts.now }
{
    match first_known(parts) {
        Some(Some(part)) => part.further,
        _ => Further::Nothing,
    }
}

/// Names each part of a storage root with whose report something is wrong, in their order, and
/// what. None is named exactly if all can be joined and are whole. `parts` has what is known of
/// each part.
///
/// The only error is running out of memory.
pub fn find_missing(
    alloc: Global,
    separators: &Separators,
    root: &[u8],
    cycle: u64,
    parts: &[Option<ClosedPart>],
) -> Result<Vec<MissingPart>, AllocError>
    ensures { IfOk result (λ missing. missing.items
        ≡ missing_of separators.now root.now cycle parts.now) }
{
    let mut missing = Vec::new(alloc);
    let further = find_further(parts);
    let most = find_most_names(parts);
    let Some(all) = separators.len().checked_add(1) else {
        return Err(AllocError);
    };
    let count = parts.len().max(all);
    for index in 0..count {
        let part = part_with(parts, index + 1);
        let fault = find_fault(separators, root, further, cycle, most, index + 1, part);
        add_missing(index + 1, fault, &mut missing)?;
    }
    Ok(missing)
}

/// Appends a part, if it has a fault.
fn add_missing(
    number: usize,
    fault: Option<PartFault>,
    missing: &mut Vec<MissingPart>,
) -> Result<(), AllocError>
    ensures { OnOk result (missing.new.items ≡ missing.old.items ++ named number fault) }
{
    if let Some(fault) = fault {
        missing.push(MissingPart {
            part: number,
            fault,
        })?;
    }
    Ok(())
}

/// What is known of the part with a number, from 1.
pub(crate) fn part_with(parts: &[Option<ClosedPart>], number: usize) -> Option<&ClosedPart>
    ensures { option_map (λ p. p.now) result ≡ part_at parts.now number }
{
    match parts.get(number.saturating_sub(1)) {
        Some(Some(part)) => Some(part),
        _ => None,
    }
}

/// Whether a fault keeps the parts from being joined: a report that is not whole is joined too.
fn is_hindering(fault: PartFault) -> bool
    ensures { result ≡ hinders fault }
{
    fault != PartFault::Incomplete
}

/// Those of the parts that keep all of them from being joined.
pub(crate) fn find_hindering(
    alloc: Global,
    missing: &[MissingPart],
) -> Result<Vec<MissingPart>, AllocError>
    ensures { IfOk result (λ found. found.items ≡ filter (λ m. hinders m.fault) missing.now) }
{
    let mut found = Vec::new(alloc);
    for one in missing {
        if is_hindering(one.fault) {
            found.push(*one)?;
        }
    }
    Ok(found)
}

/// All places that were left out, part by part.
pub(crate) fn find_left(
    alloc: Global,
    parts: &[Option<ClosedPart>],
) -> Result<Vec<Place>, AllocError>
    ensures { IfOk result (λ left. left.items ≡ left_of parts.now) }
{
    let mut left = Vec::new(alloc);
    for part in parts {
        add_left(part, &mut left)?;
    }
    Ok(left)
}

/// Appends the places that a part left out.
fn add_left(part: &Option<ClosedPart>, left: &mut Vec<Place>) -> Result<(), AllocError>
    ensures { OnOk result (left.new.items ≡ left.old.items ++ left_by part.now) }
{
    match part {
        Some(part) => add_places(part.left.as_slice(), left),
        None => Ok(()),
    }
}

/// Appends places.
fn add_places(places: &[Place], all: &mut Vec<Place>) -> Result<(), AllocError>
    ensures { OnOk result (all.new.items ≡ all.old.items ++ places.now) }
{
    for place in places {
        all.push(place.try_clone()?)?;
    }
    Ok(())
}
