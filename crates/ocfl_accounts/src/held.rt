//! What closed reports in memory hold, and what is found in them.
ghost use Rattle.std.specs.Prelude.{◌≡◌, ◌++◌, ◌==◌, IfOk, List, OnOk, Option, Some, filter};
ghost use Rattle.std.specs.Option.{option_map};
ghost use Rattle.ocfl_tree.specs.Place.{Place as ModelPlace};
ghost use Rattle.std.specs.List.{list_any};
ghost use Rattle.ocfl_compare.specs.Changes.{is_left as is_left_out};
ghost use Rattle.ocfl_accounts.specs.{Changes.{AreChanges, AreFound, IsMissing, IsSince, IsSinceWhole}};
ghost use Rattle.ocfl_accounts.specs.Memory.{bytes_or_none, held_of, is_grave as is_grave_of, kept_by, report_in};
ghost use Rattle.ocfl_accounts.specs.{Kept.{Account, is_some, no_lists, with_lists}, Sights.{IsSight}, Memory.{sight_in}};
ghost use Rattle.ocfl_compare.specs.Gone.{gone_row, gone_text};

use crate::closed::{ClosedCycle, Look};
use crate::pair::{Pair, is_left};
use ocfl_compare::{Change, ChangeAt, CompareStop, GoneList, TakeChange, compare, find_expected};
use ocfl_tree::Place;
use std::alloc::{AllocError, Global};
use std::marker::Model;
use std::mem;

/// A closed cycle in memory.
#[derive(Debug, Drop)]
pub struct MemCycle {
    pub closed: ClosedCycle,
    /// The bytes of its report; `None` if that is not there.
    pub report: Option<Vec<u8>>,
}

impl Model for MemCycle {
    ghost use Rattle.std.specs.Option.{option_map};
    ghost use Rattle.ocfl_accounts.specs.Memory.{Held};

    ghost Value = { Held };

    ghost view = { λ a. record {
      closed = a.closed;
      report = option_map (λ bytes. bytes.items) a.report;
    } };
}

/// The account of a closed cycle in memory.
#[derive(Debug, Drop)]
pub struct MemAccount {
    pub cycle: u64,
    /// The list of what is gone.
    pub list: Vec<u8>,
}

impl Model for MemAccount {
    ghost use Rattle.ocfl_accounts.specs.Kept.{Account};

    ghost Value = { Account };

    ghost view = { λ a. record { cycle = a.cycle; list = a.list.items } };
}

/// The cycle of a number, if it is among these.
pub(crate) fn cycle_in(cycles: &[MemCycle], cycle: u64) -> Option<&MemCycle>
    ensures { option_map (λ one. one.now) result ≡ held_of cycles.now cycle }
{
    cycles.iter().find(|one| one.closed.cycle() == cycle)
}

/// The same places.
fn copy_places(alloc: Global, places: &[Place]) -> Result<Vec<Place>, AllocError>
    ensures { IfOk result (λ copy. copy.items ≡ places.now) }
{
    let mut copy = Vec::new(alloc);
    for place in places {
        copy.push(place.try_clone()?)?;
    }
    Ok(copy)
}

/// These places, and then others.
fn copy_both(alloc: Global, places: &[Place], more: &[Place]) -> Result<Vec<Place>, AllocError>
    ensures { IfOk result (λ copy. copy.items ≡ places.now ++ more.now) }
{
    let mut copy = copy_places(alloc, places)?;
    let mut others = copy_places(alloc, more)?;
    copy.append(&mut others)?;
    Ok(copy)
}

/// The same cycle.
fn copy_closed(alloc: Global, closed: &ClosedCycle) -> Result<ClosedCycle, AllocError>
    ensures { IfOk result (λ copy. copy ≡ closed.now) }
{
    let left = copy_places(alloc, closed.left())?;
    Ok(ClosedCycle::new(closed.cycle(), closed.is_whole(), closed.is_lost(), left))
}

/// What is there of a cycle.
fn look_at(alloc: Global, one: &MemCycle) -> Result<Look, AllocError>
    ensures { IfOk result (λ look. IsSight one.now.closed.cycle (sight_in (Some one.now)) look) }
{
    if one.report.is_none() {
        return Ok(Look::Away {
            whole: one.closed.is_whole(),
            lost: one.closed.is_lost(),
        });
    }
    Ok(Look::There(copy_closed(alloc, &one.closed)?))
}

/// What is there of the cycle of a number.
#[tactic(auto, using(crate::proofs::Memories::look_found))]
pub(crate) fn look_in(alloc: Global, cycles: &[MemCycle], cycle: u64) -> Result<Look, AllocError>
    ensures { IfOk result (λ look. IsSight cycle (sight_in (held_of cycles.now cycle)) look) }
{
    match cycle_in(cycles, cycle) {
        Some(one) => look_at(alloc, one),
        None => Ok(Look::Away {
            whole: true,
            lost: false,
        }),
    }
}

/// Whether the account of a cycle is among these.
pub(crate) fn is_put(accounts: &[MemAccount], cycle: u64) -> bool
    ensures { result ≡ is_some (with_lists accounts.now no_lists cycle) }
{
    has_cycle(accounts, cycle)
}

fn has_cycle(accounts: &[MemAccount], cycle: u64) -> bool
    ensures { result ≡ list_any (λ account. account.cycle == cycle) accounts.now }
{
    accounts.iter().any(|account| account.cycle == cycle)
}

/// The bytes of the report of a cycle; none if it is not there.
fn report_of(cycles: &[MemCycle], cycle: u64) -> &[u8]
    ensures { result.now ≡ report_in (held_of cycles.now cycle) }
{
    match cycle_in(cycles, cycle) {
        Some(one) => bytes_of(&one.report),
        None => &[],
    }
}

fn bytes_of(report: &Option<Vec<u8>>) -> &[u8]
    ensures { result.now ≡ bytes_or_none (option_map (λ bytes. bytes.items) report.now) }
{
    match report {
        Some(bytes) => bytes.as_slice(),
        None => &[],
    }
}

/// What changed in a cycle since the one before, outside of what either left out.
fn find_since(
    alloc: Global,
    cycles: &[MemCycle],
    now: &ClosedCycle,
    before: &Option<ClosedCycle>,
) -> Result<Vec<ChangeAt>, CompareStop>
    ensures { (listed : Option (List ModelPlace)) (accounts : List Account)
        → IfOk result (λ changes.
        IsSince (kept_by cycles.now listed accounts) now.now before.now changes.items) }
{
    let mut changes = Vec::new(alloc);
    let Some(before) = before else {
        return Ok(changes);
    };
    let Ok(left) = copy_both(alloc, now.left(), before.left()) else {
        return Err(CompareStop::Memory);
    };
    let mut earlier = report_of(cycles, before.cycle());
    let mut report = report_of(cycles, now.cycle());
    compare(alloc, &mut earlier, &mut report, &left, &mut changes)?;
    Ok(changes)
}

/// Those of the changes whose place is one of these, or below one.
fn changes_within(
    alloc: Global,
    changes: &[ChangeAt],
    places: &[Place],
) -> Result<Vec<ChangeAt>, AllocError>
    ensures { IfOk result (λ within. within.items
        ≡ filter (λ c. is_left_out places.now c.place) changes.now) }
{
    let mut within = Vec::new(alloc);
    for at in changes {
        if is_left(places, &at.place) {
            within.push(ChangeAt {
                place: at.place.try_clone()?,
                change: at.change,
            })?;
        }
    }
    Ok(within)
}

/// What changed in a cycle since the last whole one, in the places that the one before alone left
/// out.
fn find_since_whole(
    alloc: Global,
    cycles: &[MemCycle],
    now: &ClosedCycle,
    again: &[Place],
    whole: &Option<ClosedCycle>,
) -> Result<Vec<ChangeAt>, CompareStop>
    ensures { (listed : Option (List ModelPlace)) (accounts : List Account)
        → IfOk result (λ changes. IsSinceWhole (kept_by cycles.now listed accounts)
        now.now again.now whole.now changes.items) }
{
    let mut changes = Vec::new(alloc);
    let Some(whole) = whole else {
        return Ok(changes);
    };
    let mut earlier = report_of(cycles, whole.cycle());
    let mut report = report_of(cycles, now.cycle());
    compare(alloc, &mut earlier, &mut report, now.left(), &mut changes)?;
    match changes_within(alloc, &changes, again) {
        Ok(within) => Ok(within),
        Err(_) => Err(CompareStop::Memory),
    }
}

/// Which of the listed objects are missing.
fn find_missing(
    alloc: Global,
    cycles: &[MemCycle],
    now: &ClosedCycle,
    listed: &Option<Vec<Place>>,
) -> Result<Vec<ChangeAt>, CompareStop>
    ensures { (accounts : List Account) → IfOk result (λ changes. IsMissing (kept_by cycles.now
        (option_map (λ places. places.items) listed.now) accounts) now.now
        (option_map (λ places. places.items) listed.now) changes.items) }
{
    let mut changes = Vec::new(alloc);
    let Some(listed) = listed else {
        return Ok(changes);
    };
    let Ok(mut listed) = copy_places(alloc, listed) else {
        return Err(CompareStop::Memory);
    };
    let mut report = report_of(cycles, now.cycle());
    find_expected(alloc, &mut listed, &mut report, now.left(), &mut changes)?;
    Ok(changes)
}

/// What is found of a cycle that lost no lines.
fn find_all(
    alloc: Global,
    cycles: &[MemCycle],
    listed: &Option<Vec<Place>>,
    pair: &Pair,
) -> Result<Vec<ChangeAt>, CompareStop>
    ensures { (accounts : List Account) → IfOk result (λ changes. AreFound (kept_by cycles.now
        (option_map (λ places. places.items) listed.now) accounts) pair.now changes.items) }
{
    let mut changes = find_since(alloc, cycles, &pair.closed, &pair.before)?;
    let mut again = find_since_whole(alloc, cycles, &pair.closed, &pair.again, &pair.whole)?;
    let mut missing = find_missing(alloc, cycles, &pair.closed, listed)?;
    append_all(&mut again, &mut missing)?;
    append_all(&mut changes, &mut again)?;
    Ok(changes)
}

/// Appends more changes.
fn append_all(changes: &mut Vec<ChangeAt>, more: &mut Vec<ChangeAt>) -> Result<(), CompareStop>
    ensures { OnOk result (changes.new.items ≡ changes.old.items ++ more.old.items) }
{
    match changes.append(more) {
        Ok(()) => Ok(()),
        Err(_) => Err(CompareStop::Memory),
    }
}

/// What is found of a cycle.
#[tactic(auto, using(crate::proofs::Memories::found_or_lost))]
pub(crate) fn find_in(
    alloc: Global,
    cycles: &[MemCycle],
    listed: &Option<Vec<Place>>,
    pair: &Pair,
) -> Result<Vec<ChangeAt>, CompareStop>
    ensures { (accounts : List Account) → IfOk result (λ changes. AreChanges (kept_by cycles.now
        (option_map (λ places. places.items) listed.now) accounts) pair.now changes.items) }
{
    if pair.closed.is_lost() {
        return Ok(Vec::new(alloc));
    }
    find_all(alloc, cycles, listed, pair)
}

/// Whether something is new or gone among these.
pub(crate) fn is_grave(changes: &[ChangeAt]) -> bool
    ensures { result ≡ list_any is_grave_of changes.now }
{
    changes.iter().any(is_news)
}

fn is_news(change: &ChangeAt) -> bool
    ensures { result ≡ is_grave_of change.now }
{
    !matches!(
        change.change,
        Change::Unlooked | Change::Repaired(_) | Change::NewVersion
    )
}

/// The list of what is gone by these changes.
pub(crate) fn list_of(alloc: Global, changes: &[ChangeAt]) -> Result<Vec<u8>, AllocError>
    ensures { IfOk result (λ list. list.items ≡ gone_text changes.now) }
{
    let mut list = GoneList::new(alloc, Vec::new(alloc));
    for at in changes {
        take_row(&mut list, at)?;
    }
    Ok(mem::replace(&mut list.out, Vec::new(alloc)))
}

/// Appends the row of a change, if it has one.
fn take_row(list: &mut GoneList<Vec<u8>>, at: &ChangeAt) -> Result<(), AllocError>
    ensures { OnOk result (list.new.out.items ≡ list.old.out.items ++ gone_row at.now) }
{
    match list.take(&at.place, at.change) {
        Ok(()) => Ok(()),
        Err(_) => Err(AllocError),
    }
}
