//! Writing a cursor's text, and the lines that are shown of it.
ghost use Rattle.std.specs.Prelude.{◌≡◌, [], ◌∷◌, ◌++◌, IfOk, OnOk};
ghost use Rattle.ocfl_cursor.specs.Cursor.{IsCursor, state_text, further_line, cursor_first_line, cursor_lines, cursor_text};
ghost use Rattle.ocfl_cursor.specs.State.{state_of};

use crate::cursor::Cursor;
use crate::form::{
    AFTER, CHECKS_INVENTORIES, CYCLE, DIGEST, ENDED, FILES, FIRST_LINE_THREE, FIRST_LINE_TWO, RUNS,
    SPENT, START,
};
use crate::number::put_number;
use crate::seal::sealed_text;
use crate::state::State;
use ocfl_report::{Further, put_place};
use std::alloc::{AllocError, Global};

/// The text of the cursor: seven lines, the last of which seals the others by their SHA-256. There
/// is one more if the audit checks the inventories of versions.
pub fn encode(alloc: Global, cursor: &Cursor) -> Result<Vec<u8>, AllocError>
    ensures text { IfOk result (λ text. text.items ≡ cursor_text cursor.now) }
    ensures keeps { IsCursor cursor.now }
{
    let lines = cursor_lines(alloc, cursor)?;
    sealed_text(alloc, DIGEST, first_line(cursor.further()), &lines)
}

/// The first line of the text of such an audit's cursor.
fn first_line(further: Further) -> &'static [u8]
    ensures { result.now ≡ cursor_first_line further }
{
    match further {
        Further::Nothing => FIRST_LINE_TWO,
        Further::Inventories => FIRST_LINE_THREE,
    }
}

/// The text of the cursor without its first line and its last: five or six lines, to be shown.
pub fn cursor_lines(alloc: Global, cursor: &Cursor) -> Result<Vec<u8>, AllocError>
    ensures lines { IfOk result (λ lines. lines.items ≡ cursor_lines cursor.now) }
    ensures keeps { IsCursor cursor.now }
{
    let state = cursor.state();
    let mut lines = Vec::new(alloc);
    put_further(cursor.further(), &mut lines)?;
    put_number(alloc, CYCLE, u128::from(cursor.cycle()), &mut lines)?;
    put_number(alloc, RUNS, u128::from(cursor.runs()), &mut lines)?;
    put_number(alloc, SPENT, cursor.spent(), &mut lines)?;
    put_number(alloc, FILES, cursor.files(), &mut lines)?;
    put_state(state, &mut lines)?;
    Ok(lines)
}

/// Appends the line of what the audit checks further.
fn put_further(further: Further, text: &mut Vec<u8>) -> Result<(), AllocError>
    ensures { OnOk result (text.new.items ≡ text.old.items ++ further_line further) }
{
    match further {
        Further::Nothing => Ok(()),
        Further::Inventories => text.extend_from_slice(CHECKS_INVENTORIES),
    }
}

/// Appends the line that says where the next run begins.
fn put_state(state: &State, text: &mut Vec<u8>) -> Result<(), AllocError>
    ensures { OnOk result
        (text.new.items ≡ text.old.items ++ state_text (state_of state.now) ++ 10 ∷ []) }
{
    match state {
        State::Start => text.extend_from_slice(START)?,
        State::After(place) => {
            text.extend_from_slice(AFTER)?;
            put_place(place, text)?;
        }
        State::Ended => text.extend_from_slice(ENDED)?,
    }
    text.push(b'\n')?;
    Ok(())
}
