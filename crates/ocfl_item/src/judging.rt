//! Judging an item: its lines and its cost.
ghost use Rattle.std.specs.Prelude.{◌≡◌, ◌≢◌, ◌≤◌, ◌<◌, ◌+◌, ◌^◌, ◌++◌, ◌∷◌, [], IfErr, IfOk};
ghost use Rattle.std.specs.Prelude.{IsTrue, MatchResult, None, false, length, map, max, true};
ghost use Rattle.ocfl_tree.specs.{Place.{Text}, Store.{IfTold}};
ghost use Rattle.ocfl_report.specs.declared.further.Further.{Further};
ghost use Rattle.ocfl_inventory.specs.{Note.{plain}, Remark.{remark_view}};
ghost use Rattle.ocfl_rules.specs.{Inventories.{unexpected_notes}, Lines.{or_bytes}};
ghost use Rattle.ocfl_item.specs.Internal.FileLines.{HasDigests, given_in};
ghost use Rattle.ocfl_item.specs.Internal.Lines.{HasLines};
ghost use Rattle.ocfl_item.specs.Judging.{CostFits, HasShortFiles, JudgeFails, Judges};
ghost use Rattle.ocfl_item.specs.{Pending.{IsPending, expected_view}, PlaceLines.{lines_of}};

use crate::file_lines::{hashed_lines, unread_lines};
use crate::lines::PlaceLines;
use crate::pending::Pending;
use ocfl_digest::{Block, Cause, Digests, ReadStop, hash_open};
use ocfl_report::Code;
use ocfl_tree::Tree;
use std::alloc::AllocError;

/// The lines of an item whose file was read, and its cost, by what came of that.
fn judged(
    pending: Pending,
    read: Result<(Digests, u64), ReadStop>,
) -> Result<(PlaceLines, u64), AllocError>
    requires short { IfOk read (λ hashed. hashed.1 < 2 ^ 62) }
    requires given { IfErr read (λ stop. stop.bytes ≤ 2 ^ 62) }
    ensures place { IfOk result (λ judged. judged.0.place ≡ pending.place) }
    ensures cost { IfOk result (λ judged. judged.1 ≡ given_in read + 1) }
    ensures refused { IfErr read (λ stop. stop.cause ≡ Cause.Memory → IfOk result (λ _. ⊥)) }
    ensures whole { IfOk read (λ hashed. (bytes : Text)
        → HasDigests (map (λ e. e.algorithm) pending.expected.items) bytes hashed.0
        → hashed.1 ≡ length bytes
        → IfOk result (λ judged. HasLines judged.0 (or_bytes bytes
        (map remark_view pending.remarks.items
        ++ unexpected_notes bytes (map expected_view pending.expected.items))))) }
    ensures part { IfErr read (λ stop. stop.cause ≢ Cause.Memory
        → IfOk result (λ judged. HasLines judged.0
        (map remark_view pending.remarks.items ++ plain Code.S08 ∷ []))) }
{
    let Pending {
        place,
        remarks,
        expected,
        ..
    } = pending;
    let known = PlaceLines { place, remarks };
    match read {
        Ok((digests, count)) => {
            let lines = hashed_lines(known, &expected, &digests, count)?;
            Ok((lines, count + 1))
        }
        Err(stop) if stop.cause == Cause::Memory => Err(AllocError),
        Err(stop) => {
            let lines = unread_lines(known)?;
            Ok((lines, stop.bytes + 1))
        }
    }
}

/// The lines of an item, and its cost. An item is judged once, so it is handed over.
///
/// A hashed file is opened once, read to its end, and costs one more than the bytes that it gave;
/// if it cannot be read on, a line says so. Every other item costs 0, and the store is not
/// asked. `AllocError` if memory was refused.
pub fn judge<T: Tree>(
    store: &mut T,
    pending: Pending,
    block: &mut Block,
) -> Result<(PlaceLines, u64), AllocError>
    // Of every store.
    ensures place { IfOk result (λ judged. judged.0.place ≡ pending.place) }
    ensures cost { IfOk result (λ judged. CostFits pending.hashed judged.1) }
    ensures unasked { pending.hashed ≡ false → store.new ≡ store.old }

    // Of a store that tells its tree.
    ensures closed { IsTrue T.told → pending.hashed ≡ true → (T.state store.new).rest ≡ None }
    ensures largest { IsTrue T.told → (T.state store.new).largest
        ≤ max (T.state store.old).largest 65536 }
    ensures told { IfTold T.told (T.state store.old) (λ root.
        (further : Further) → HasShortFiles root → IsPending further root pending
        → MatchResult result
        (λ judged. Judges further root (T.state store.old)
        (T.state store.new) pending.place (lines_of judged.0) judged.1)
        (λ _. JudgeFails further root (T.state store.old) (T.state store.new) pending.place)) }
{
    if !pending.hashed {
        let Pending { place, remarks, .. } = pending;
        return Ok((PlaceLines { place, remarks }, 0));
    }
    let read = hash_open(store, &pending.place, pending.wanted(), block);
    judged(pending, read)
}
