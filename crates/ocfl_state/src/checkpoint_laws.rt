//! The laws of a checkpoint's text: it determines the checkpoint, and it reads back.
ghost use Rattle.std.specs.Prelude.{◌≡◌, ◌≤◌, ◌^◌, ◌<◌, List, ℕ, All, length, IfOk, IfErr, IfSome};
ghost use Rattle.ocfl_tree.specs.Name.{IsPlace};
ghost use Rattle.ocfl_cursor.specs.{Part.{AreEnds}, declared.refused.Refused.{Refused as ModelRefused}};
ghost use Rattle.ocfl_state.specs.Checkpoint.{Checkpoint as ModelCheckpoint, IsCheckpointText, IsCheckpoint, IsRoot, AreNames, IsMark, IsLeft};
ghost use Rattle.ocfl_state.specs.CheckpointRefusal.{RefusedRightly};

use crate::checkpoint::Checkpoint;
use crate::checkpoint_decoding::decode_checkpoint;
use crate::checkpoint_encoding::encode_checkpoint;
use crate::checkpoint_fields::digest_fits;
use crate::checkpoint_parts::{Left, ReportMark, RootIdentity, TopNames};
use ocfl_cursor::{PartEnds, Refused, every_part_has_ends};
use ocfl_tree::Place;
use ocfl_tree::laws::every_place_has_names;
use std::alloc::Global;

/// A text determines the checkpoint whose text it is.
pub fn text_determines_the_checkpoint()
    ensures { (b : List ℕ) (c d : ModelCheckpoint) → IsCheckpointText b c → IsCheckpointText b d
        → c ≡ d }
{}

/// The text of a checkpoint is refused for want of memory alone.
pub fn no_checkpoint_is_refused()
    ensures { (b : List ℕ) (c : ModelCheckpoint) → IsCheckpointText b c
        → (r : ModelRefused) → RefusedRightly b r → r ≡ Refused.Memory }
{}

/// Every [`Checkpoint`] that counts no more as said than belongs to the cursor keeps the rule of
/// checkpoints, so that its text is read.
pub fn every_checkpoint_fits(checkpoint: &Checkpoint)
    ensures { checkpoint.now.said ≤ checkpoint.now.report.bytes → IsCheckpoint checkpoint.now }
{
    root_fits(&checkpoint.root);
    names_fit(checkpoint.names);
    mark_fits(checkpoint.report);
    each_left_fits(&checkpoint.left);
    part_fits(&checkpoint.part);
    let _ = checkpoint.cursor.state();
}

fn root_fits(root: &RootIdentity)
    ensures { IsRoot root.now }
{
    every_place_has_names(&root.path);
    digest_fits(root.declared);
}

fn names_fit(names: TopNames)
    ensures { AreNames names }
{
    digest_fits(names.digest);
}

fn mark_fits(mark: ReportMark)
    ensures { IsMark mark }
{
    digest_fits(mark.pieces);
    digest_fits(mark.tail);
}

fn each_left_fits(left: &[Left])
    ensures each { All IsLeft left.now }
    ensures count { length left.now < 2 ^ 64 }
{
    for one in left {
        left_fits(one);
    }
}

fn left_fits(left: &Left)
    ensures { IsLeft left.now }
{
    every_place_has_names(&left.place);
    after_fits(&left.after);
}

fn after_fits(after: &Option<Place>)
    ensures { IfSome after.now IsPlace }
{
    if let Some(place) = after {
        every_place_has_names(place);
    }
}

fn part_fits(part: &Option<PartEnds>)
    ensures { IfSome part.now AreEnds }
{
    if let Some(ends) = part {
        every_part_has_ends(ends);
    }
}

/// What is written of a checkpoint is read as that checkpoint, unless memory runs out, if it counts
/// no more as said than belongs to the cursor.
pub fn checkpoint_reads_back(alloc: Global, checkpoint: &Checkpoint) -> Result<Checkpoint, Refused>
    ensures same { checkpoint.now.said ≤ checkpoint.now.report.bytes
        → IfOk result (λ read. read ≡ checkpoint.now) }
    ensures not_refused { checkpoint.now.said ≤ checkpoint.now.report.bytes
        → IfErr result (λ refused. refused ≡ Refused.Memory) }
{
    every_checkpoint_fits(checkpoint);
    let text = encode_checkpoint(alloc, checkpoint)?;
    decode_checkpoint(alloc, &text)
}
