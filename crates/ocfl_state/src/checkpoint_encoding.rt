//! Writing a checkpoint's text, and the lines that are shown of it.
ghost use Rattle.std.specs.Prelude.{◌≡◌, ◌++◌, [], ◌∷◌, IfOk, OnOk, flat_map, decimal, codes};
ghost use Rattle.hex.specs.Hex.{encode_lower};
ghost use Rattle.ocfl_state.specs.Checkpoint.{checkpoint_first_line, shown_text, checkpoint_text, path_text, left_text, stood_text, phase_text, yes_or_no};
ghost use Rattle.ocfl_state.specs.CheckpointLines.{root_lines, names_line, standing_lines};
ghost use Rattle.ocfl_state.specs.CheckpointLines.{mark_lines, said_line, all_left, field_line};
ghost use Rattle.ocfl_state.specs.CheckpointLines.{sizes_text};

use crate::checkpoint::Checkpoint;
use crate::checkpoint_fields::hex_digits;
use crate::checkpoint_form::{
    AFTER, CLOSING, DECLARED, FIRST_LINE_ONE, FIRST_LINE_TWO, LEFT, NAMES, NO, OPEN, PHASE, PIECES,
    REPORT, ROOT, SAID, SHA256, START, TAIL, WHOLE, YES,
};
use crate::checkpoint_parts::{Left, Phase, ReportMark, RootIdentity, TopNames};
use ocfl_cursor::{sealed_text, stored_lines};
use ocfl_report::{Further, put_place};
use ocfl_tree::Place;
use std::alloc::{AllocError, Global};

/// The text of the checkpoint: a line for each of its parts, those of the cursor, and a last line
/// that seals the others by their SHA-256.
pub fn encode_checkpoint(alloc: Global, checkpoint: &Checkpoint) -> Result<Vec<u8>, AllocError>
    ensures { IfOk result (λ text. text.items ≡ checkpoint_text checkpoint.now) }
{
    let lines = checkpoint_lines(alloc, checkpoint)?;
    let further = checkpoint.cursor.further();
    sealed_text(alloc, SHA256, first_line(further), &lines)
}

/// The first line of the text of such an audit's checkpoint.
fn first_line(further: Further) -> &'static [u8]
    ensures { result.now ≡ checkpoint_first_line further }
{
    match further {
        Further::Nothing => FIRST_LINE_ONE,
        Further::Inventories => FIRST_LINE_TWO,
    }
}

/// The text of the checkpoint without its first line and its last, to be shown.
pub fn checkpoint_lines(alloc: Global, checkpoint: &Checkpoint) -> Result<Vec<u8>, AllocError>
    ensures { IfOk result (λ lines. lines.items ≡ shown_text checkpoint.now) }
{
    let mut lines = Vec::new(alloc);
    put_root(&checkpoint.root, &mut lines)?;
    put_names(alloc, checkpoint.names, &mut lines)?;
    put_standing(checkpoint.phase, checkpoint.whole, &mut lines)?;
    put_mark(alloc, checkpoint.report, &mut lines)?;
    put_count(alloc, SAID, checkpoint.said, &mut lines)?;
    put_all_left(alloc, &checkpoint.left, &mut lines)?;
    let cursor = stored_lines(alloc, &checkpoint.part, &checkpoint.cursor)?;
    lines.extend_from_slice(&cursor)?;
    Ok(lines)
}

/// Appends a line.
fn put_line(front: &[u8], field: &[u8], text: &mut Vec<u8>) -> Result<(), AllocError>
    ensures { OnOk result
        (text.new.items ≡ text.old.items ++ field_line front.now field.now []) }
{
    text.extend_from_slice(front)?;
    text.extend_from_slice(field)?;
    text.push(b'\n')?;
    Ok(())
}

/// Appends the line of a digest.
fn put_digest(front: &[u8], digest: [u8; 32], text: &mut Vec<u8>) -> Result<(), AllocError>
    ensures { OnOk result
        (text.new.items ≡ text.old.items ++ field_line front.now (encode_lower digest) []) }
{
    put_line(front, &hex_digits(digest), text)
}

/// Appends the line of a number.
fn put_count(alloc: Global, front: &[u8], count: u64, text: &mut Vec<u8>) -> Result<(), AllocError>
    ensures { OnOk result
        (text.new.items ≡ text.old.items ++ field_line front.now (decimal count) []) }
{
    let digits = format!(in alloc; "{count}")?;
    put_line(front, digits.as_bytes(), text)
}

/// Appends the lines of the storage root.
fn put_root(root: &RootIdentity, text: &mut Vec<u8>) -> Result<(), AllocError>
    ensures { OnOk result (text.new.items ≡ text.old.items ++ root_lines root.now []) }
{
    text.extend_from_slice(ROOT)?;
    put_path(&root.path, text)?;
    text.push(b'\n')?;
    put_digest(DECLARED, root.declared, text)
}

/// Appends the path of a storage root from `/` on.
fn put_path(path: &Place, text: &mut Vec<u8>) -> Result<(), AllocError>
    ensures { OnOk result (text.new.items ≡ text.old.items ++ path_text path.now) }
{
    text.push(b'/')?;
    if path.depth() > 0 {
        put_place(path, text)?;
    }
    Ok(())
}

/// Appends the line of the names in the top folder.
fn put_names(alloc: Global, names: TopNames, text: &mut Vec<u8>) -> Result<(), AllocError>
    ensures { OnOk result (text.new.items ≡ text.old.items ++ names_line names []) }
{
    let count = names.count;
    let digits = format!(in alloc; "{count} ")?;
    text.extend_from_slice(NAMES)?;
    put_digest(digits.as_bytes(), names.digest, text)
}

/// Appends the lines of the phase, and of whether the report is whole.
fn put_standing(phase: Phase, whole: bool, text: &mut Vec<u8>) -> Result<(), AllocError>
    ensures { OnOk result (text.new.items ≡ text.old.items ++ standing_lines phase whole []) }
{
    put_phase(phase, text)?;
    put_whole(whole, text)
}

fn put_phase(phase: Phase, text: &mut Vec<u8>) -> Result<(), AllocError>
    ensures { OnOk result (text.new.items
        ≡ text.old.items ++ field_line (codes "phase ") (phase_text phase) []) }
{
    match phase {
        Phase::Open => put_line(PHASE, OPEN, text),
        Phase::Closing => put_line(PHASE, CLOSING, text),
    }
}

fn put_whole(whole: bool, text: &mut Vec<u8>) -> Result<(), AllocError>
    ensures { OnOk result (text.new.items
        ≡ text.old.items ++ field_line (codes "whole ") (yes_or_no whole) []) }
{
    if whole {
        put_line(WHOLE, YES, text)
    } else {
        put_line(WHOLE, NO, text)
    }
}

/// Appends the lines of the report.
fn put_mark(alloc: Global, mark: ReportMark, text: &mut Vec<u8>) -> Result<(), AllocError>
    ensures { OnOk result (text.new.items ≡ text.old.items ++ mark_lines mark []) }
{
    put_sizes(alloc, mark.bytes, mark.lines, text)?;
    put_digest(PIECES, mark.pieces, text)?;
    put_digest(TAIL, mark.tail, text)?;
    Ok(())
}

/// Appends the line of the report's size.
fn put_sizes(alloc: Global, bytes: u64, lines: u64, text: &mut Vec<u8>) -> Result<(), AllocError>
    ensures { OnOk result (text.new.items
        ≡ text.old.items ++ field_line (codes "report ") (sizes_text bytes lines) []) }
{
    let sizes = format!(in alloc; "{bytes} {lines}")?;
    put_line(REPORT, sizes.as_bytes(), text)
}

/// Appends the line of how many branches were left out, and the lines of each.
fn put_all_left(alloc: Global, left: &[Left], text: &mut Vec<u8>) -> Result<(), AllocError>
    ensures { OnOk result (text.new.items ≡ text.old.items ++ all_left left.now []) }
{
    put_count(alloc, LEFT, left.len() as u64, text)?;
    put_each_left(left, text)
}

/// Appends the lines of each branch that was left out.
fn put_each_left(left: &[Left], text: &mut Vec<u8>) -> Result<(), AllocError>
    ensures { OnOk result (text.new.items ≡ text.old.items ++ flat_map left_text left.now) }
{
    for one in left {
        put_left(one, text)?;
    }
    Ok(())
}

/// Appends the lines of a branch that was left out.
fn put_left(left: &Left, text: &mut Vec<u8>) -> Result<(), AllocError>
    ensures { OnOk result (text.new.items ≡ text.old.items ++ left_text left.now) }
{
    text.extend_from_slice(LEFT)?;
    put_place(&left.place, text)?;
    text.push(b'\n')?;
    put_stood(&left.after, text)
}

/// Appends the line of where the cursor was.
fn put_stood(after: &Option<Place>, text: &mut Vec<u8>) -> Result<(), AllocError>
    ensures { OnOk result
        (text.new.items ≡ text.old.items ++ stood_text after.now ++ 10 ∷ []) }
{
    match after {
        Some(place) => {
            text.extend_from_slice(AFTER)?;
            put_place(place, text)?;
        }
        None => text.extend_from_slice(START)?,
    }
    text.push(b'\n')?;
    Ok(())
}
