//! The laws of a cursor's text: it determines the cursor, and it reads back. The laws of a meter.
ghost use Rattle.std.specs.Prelude.{◌≡◌, ◌⊎◌, ◌+◌, ◌^◌, ◌<◌, ◌≤◌, List, ℕ, length, IfOk, IfErr};
ghost use Rattle.ocfl_cursor.specs.Cursor.{Cursor as ModelCursor, State as ModelState, IsCursor, IsShortPlace};
ghost use Rattle.ocfl_cursor.specs.Meter.{Meter as ModelMeter, IsMeter, MayStart};
ghost use Rattle.ocfl_cursor.specs.{Moves.{after_run}, Part.{IsPartText}};
ghost use Rattle.ocfl_cursor.specs.PartRefusal.{PartRefusedRightly};
ghost use Rattle.ocfl_cursor.specs.Refusal.{IsTextOf, RefusedRightly};
ghost use Rattle.ocfl_cursor.specs.Shown.{AreShown, IsOfNoBytes, UnshownRightly};
ghost use Rattle.ocfl_cursor.specs.Stop.{PartStopsRightly, max_part_text};
ghost use Rattle.ocfl_cursor.specs.declared.ends.PartEnds.{PartEnds as ModelEnds};
ghost use Rattle.ocfl_cursor.specs.declared.showing.ShowStop.{ShowStop as ModelShowStop};
ghost use Rattle.ocfl_cursor.specs.declared.refused.PartRefused.{PartRefused as ModelRefused};
ghost use Rattle.ocfl_cursor.specs.declared.refused.TextKind.TheVariants as kind;
ghost use Rattle.ocfl_cursor.specs.declared.part_reading.PartCursorStop as part_stop;

use crate::cursor::Cursor;
use crate::decoding::decode;
use crate::encoding::encode;
use crate::ends::PartEnds;
use crate::part_decoding::decode_part;
use crate::part_encoding::encode_part;
use crate::part_reading::PartCursorStop;
use crate::refused::{PartRefused, Refused};
use std::alloc::Global;

/// A text determines the cursor whose text it is, in each version.
pub fn text_determines_the_cursor()
    ensures { (b : List ℕ) (c d : ModelCursor) → IsTextOf b c → IsTextOf b d → c ≡ d }
{}

/// What is written of a cursor is read as that cursor, unless memory runs out.
pub fn cursor_reads_back(alloc: Global, cursor: &Cursor) -> Result<Cursor, Refused>
    ensures same { IfOk result (λ read. read ≡ cursor.now) }
    ensures not_refused { IfErr result (λ refused. refused ≡ Refused.Memory) }
{
    let text = encode(alloc, cursor)?;
    decode(alloc, &text)
}

/// A text determines the part and the cursor whose text it is.
pub fn text_determines_the_part()
    ensures { (b : List ℕ) (e f : ModelEnds) (c d : ModelCursor)
        → IsPartText e b c → IsPartText f b d → (e ≡ f) × (c ≡ d) }
{}

/// The text of a part's cursor is refused to that part for want of memory alone.
pub fn no_part_is_refused()
    ensures { (b : List ℕ) (e : ModelEnds) (c : ModelCursor) → IsPartText e b c
        → (r : ModelRefused) → PartRefusedRightly e b r → r ≡ PartRefused.Text Refused.Memory }
{}

/// The reader of a whole root's cursor refuses a part's cursor, and the reader of a part's cursor
/// refuses that of a whole root, each as no cursor.
#[tactic(auto, using(crate::proofs::PartRefusals::part_is_no_whole, crate::proofs::PartRefusals::whole_is_no_part))]
pub fn parts_and_whole_are_apart()
    ensures part { (b : List ℕ) (e : ModelEnds) (c : ModelCursor) → IsPartText e b c
        → RefusedRightly b (Refused.NotA kind.Cursor) }
    ensures whole { (b : List ℕ) (e : ModelEnds) (c : ModelCursor) → IsTextOf b c
        → PartRefusedRightly e b (PartRefused.Text (Refused.NotA kind.Cursor)) }
{}

/// A reader's bytes that are the text of a part's cursor are refused to that part for want of
/// memory alone, unless they are more than are read.
pub fn no_stored_part_is_refused()
    ensures { (b : List ℕ) (e : ModelEnds) (c : ModelCursor) → IsPartText e b c
        → length b ≤ max_part_text → (why : part_stop.PartCursorStop) → PartStopsRightly e b why
        → (why ≡ PartCursorStop.Read)
        ⊎ (why ≡ PartCursorStop.Refused (PartRefused.Text Refused.Memory)) }
{}

/// A text determines what is shown of it. If lines can be shown of it, only a failing reader or
/// refused memory prevents that.
pub fn text_determines_what_is_shown()
    ensures lines { (b l m : List ℕ) → AreShown b l → AreShown b m → l ≡ m }
    ensures not_refused { (b l : List ℕ) → AreShown b l → (why : ModelShowStop)
        → UnshownRightly b why → IsOfNoBytes why }
{}

/// What is written of a part's cursor is read as that cursor, unless memory runs out.
pub fn part_reads_back(
    alloc: Global,
    ends: &PartEnds,
    cursor: &Cursor,
) -> Result<Cursor, PartRefused>
    ensures same { IfOk result (λ read. read ≡ cursor.now) }
    ensures not_refused { IfErr result (λ refused. refused ≡ PartRefused.Text Refused.Memory) }
{
    match encode_part(alloc, ends, cursor) {
        Ok(text) => decode_part(alloc, &text, ends),
        Err(_) => Err(PartRefused::Text(Refused::Memory)),
    }
}

/// What a run's meter charged may be added to any cursor: it is at most 2^63, and no less than the
/// files that were started. Only the count of runs, or a place of more than 255 names, can keep a
/// cursor from going on.
pub fn what_a_meter_charged_fits_a_cursor()
    ensures { (c : ModelCursor) (m : ModelMeter) (s : ModelState) → IsCursor c → IsMeter m
        → c.runs + 1 < 2 ^ 64 → IsShortPlace s → IsCursor (after_run c m.spent m.files s) }
{}

/// If a meter starts no further file, the budget is spent, or just as many files were started as
/// may be.
pub fn a_meter_stops_at_its_limits()
    ensures { (m : ModelMeter) → IsMeter m → (MayStart m → ⊥)
        → (m.limits.budget ≤ m.spent) ⊎ (m.files ≡ m.limits.files) }
{}
