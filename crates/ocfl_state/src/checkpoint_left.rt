//! Reading the lines of the branches that were left out of a checkpoint's cycle.
ghost use Rattle.std.specs.Prelude.{◌≡◌, ◌≢◌, ℕ, List, ◌++◌, All, Err, IfOk, IfErr, length, flat_map, IfSome, IsNone, OnOk, ◌∷◌, []};
ghost use Rattle.ocfl_state.specs.Checkpoint.{IsLeft, left_text};
ghost use Rattle.ocfl_state.specs.CheckpointLines.{left_fields, OneLine};
ghost use Rattle.ocfl_state.specs.declared.checkpoint_parts.Left.{Left as ModelLeft};

use crate::checkpoint_fields::{read_stood, split_line};
use crate::checkpoint_form::LEFT;
use crate::checkpoint_parts::Left;
use ocfl_report::{TextStop, read_place};
use std::alloc::Global;

/// Reads the lines of `count` branches. Gives what follows them too.
pub(crate) fn read_all_left(
    alloc: Global,
    count: u64,
    text: &[u8],
) -> Result<(Vec<Left>, &[u8]), TextStop>
    ensures found { IfOk result
        (λ read. text.now ≡ flat_map left_text read.0.items ++ read.1.now) }
    ensures count { IfOk result (λ read. length read.0.items ≡ count) }
    ensures names { IfOk result (λ read. All IsLeft read.0.items) }
    ensures bad { result ≡ Err TextStop.Bad → (ls : List ModelLeft) (rest : List ℕ)
        → All IsLeft ls → length ls ≡ count → text.now ≢ flat_map left_text ls ++ rest }
{
    let mut left = Vec::new(alloc);
    let mut rest = text;
    'branches: while (left.len() as u64) < count {
        let (one, after) = match read_left(alloc, rest) {
            Ok(read) => read,
            Err(why) => return Err(why),
        };
        match push_left(one, &mut left) {
            Ok(()) => rest = after,
            Err(why) => return Err(why),
        }
    }
    Ok((left, rest))
}

/// Appends a branch. The only refusal is `Memory`.
fn push_left(one: Left, left: &mut Vec<Left>) -> Result<(), TextStop>
    ensures ok { OnOk result (left.new.items ≡ left.old.items ++ one ∷ []) }
    ensures err { IfErr result (λ e. e ≡ TextStop.Memory) }
{
    match left.push(one) {
        Ok(()) => Ok(()),
        Err(_) => Err(TextStop::Memory),
    }
}

/// Reads the lines of a branch. Gives what follows them too.
fn read_left(alloc: Global, text: &[u8]) -> Result<(Left, &[u8]), TextStop>
    ensures found { IfOk result (λ read. text.now ≡ left_text read.0 ++ read.1.now) }
    ensures names { IfOk result (λ read. IsLeft read.0) }
    ensures bad { result ≡ Err TextStop.Bad → (l : ModelLeft) (rest : List ℕ)
        → IsLeft l → text.now ≢ left_text l ++ rest }
{
    let Some((path, stood, rest)) = split_left(text) else {
        return Err(TextStop::Bad);
    };
    let place = match read_place(alloc, path) {
        Ok(place) => place,
        Err(why) => return Err(why),
    };
    match read_stood(alloc, stood) {
        Ok(after) => Ok((Left { place, after }, rest)),
        Err(why) => Err(why),
    }
}

/// The place of a branch, where the cursor was, and what follows their lines.
fn split_left(text: &[u8]) -> Option<(&[u8], &[u8], &[u8])>
    ensures found { IfSome result
        (λ parts. text.now ≡ left_fields parts.0.now parts.1.now parts.2.now) }
    ensures first { IfSome result (λ parts. OneLine parts.0.now × OneLine parts.1.now) }
    ensures missing { IsNone result → (path stood rest : List ℕ) → OneLine path
        → text.now ≢ left_fields path stood rest }
{
    let (path, line) = split_line(LEFT, text)?;
    let (stood, rest) = split_line(b"", line)?;
    Some((path, stood, rest))
}
