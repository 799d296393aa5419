//! What was found of a closed cycle, by the changes that were taken.
ghost use Rattle.std.specs.Prelude.{◌≡◌, IsTrue, IfOk, OnOk, string_bytes};
ghost use Rattle.ocfl_accounts.specs.Causes.{HasCause};
ghost use Rattle.ocfl_words.specs.Counted.{AreCounted, Counted, joined, shown_of};
ghost use Rattle.ocfl_closed.specs.{Back.{AreBack}, Cut.{Still}, Files.{kept_of}};
ghost use Rattle.ocfl_closed.specs.Words.{AreIn, AreNewsOf, IsMade, News, why_text};

use crate::account::{Account, CycleMade, why_not};
use crate::back::find_back;
use crate::disk::ClosedDisk;
use crate::looking::read_kept;
use crate::words::{SaidWith, Words, part_of};
use ocfl_accounts::{ClosingStop, Pair};
use ocfl_tree::Place;
use ocfl_words::Part;
use std::alloc::{AllocError, Global};

/// All that was found of a closed cycle by these words. Of one whose report lost lines no object is
/// looked for.
pub(crate) fn account_of<D: ClosedDisk>(
    alloc: Global,
    disk: &mut D,
    with: &SaidWith<'_>,
    pair: &Pair,
    words: Words<'_>,
) -> Result<Account, ClosingStop>
    ensures changes { (v w x : Counted) → AreCounted words.entry.since.changes v
        → AreCounted words.entry.noting.changes w → AreCounted words.entry.whole.changes x
        → IfOk result (λ a. AreCounted a.changes (joined (joined v w) x)) }
    ensures found { (n : News) → AreNewsOf words.entry.since.found words.entry.whole.found n
        → IfOk result (λ a. AreIn a.findings n) }
    ensures gone { IfOk result (λ a. (w : Counted) → AreCounted a.changes w
        → a.gone.items ≡ shown_of w) }
    ensures why { IfOk result (λ a. string_bytes a.why ≡ why_text with.now.state.now pair.now) }
    ensures made { IsTrue D.told → IfOk result (λ a.
        IsMade a.made ((D.state disk.old).files.checkpoint pair.now.closed.cycle)) }
    ensures back { IsTrue D.told → IfOk result (λ a.
        AreBack (kept_of (D.state disk.old).files) pair.now a.back.items) }
    ensures still { IsTrue D.told → Still (D.state disk.old) (D.state disk.new) }
    ensures cause { IsTrue D.told → HasCause (D.faults disk.old) (D.faults disk.new) result }
{
    let kept = read_kept(alloc, disk, pair.closed.cycle())?;
    let paths = disk.find_paths(pair)?;
    let Ok(why) = why_not(alloc, with.state, pair) else {
        return Err(ClosingStop::Memory);
    };
    let Words {
        mut noting,
        since,
        whole,
        listed,
    } = words;
    let last = part_of(&mut noting)?;
    let Ok(Part { changes, found }) = join_parts(since, last, whole) else {
        return Err(ClosingStop::Memory);
    };
    let Ok(gone) = changes.gone(alloc) else {
        return Err(ClosingStop::Memory);
    };
    let back = find_returned(alloc, disk, pair)?;
    Ok(Account {
        why,
        made: CycleMade::by(&kept),
        changes,
        gone,
        findings: found,
        back,
        listed,
        paths,
    })
}

/// All changes of three comparisons of one report, and what is found of it in those with others.
fn join_parts(since: Part, listed: Part, whole: Part) -> Result<Part, AllocError>
    ensures changes { (v w x : Counted) → AreCounted since.changes v → AreCounted listed.changes w
        → AreCounted whole.changes x
        → IfOk result (λ all. AreCounted all.changes (joined (joined v w) x)) }
    ensures found { (n : News) → AreNewsOf since.found whole.found n
        → IfOk result (λ all. AreIn all.found n) }
{
    let Part {
        mut changes,
        mut found,
    } = since;
    let Part {
        changes: mut missing,
        ..
    } = listed;
    let Part {
        changes: mut again,
        found: mut more,
    } = whole;
    changes.join(&mut missing)?;
    changes.join(&mut again)?;
    found.join(&mut more)?;
    Ok(Part { changes, found })
}

/// The objects that are back; none of a cycle whose report lost lines.
fn find_returned<D: ClosedDisk>(
    alloc: Global,
    disk: &mut D,
    pair: &Pair,
) -> Result<Vec<Place>, ClosingStop>
    ensures back { IsTrue D.told → IfOk result (λ back.
        AreBack (kept_of (D.state disk.old).files) pair.now back.items) }
    ensures still { IsTrue D.told → Still (D.state disk.old) (D.state disk.new) }
    ensures cause { IsTrue D.told → HasCause (D.faults disk.old) (D.faults disk.new) result }
{
    if pair.closed.is_lost() {
        return Ok(Vec::new(alloc));
    }
    find_back(alloc, disk, pair)
}
