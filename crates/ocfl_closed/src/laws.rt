//! The laws of the disk of closed reports.
ghost use Rattle.std.specs.Prelude.{List};
ghost use Rattle.ocfl_closed.specs.{Cut.{IsClosedDisk}, Files.{AreRead, Files}};
ghost use Rattle.ocfl_closed.specs.Losing.{ListCall, Loses, after_calls};

/// The clauses of a disk can hold together, and its laws ask for no less loss than its calls do:
/// from any files on, after any calls on their lists, the disk that loses the most that the clauses
/// allow is one, and does at each further call what they say.
#[tactic(auto, using(crate::proofs::Losing::is_disk, crate::proofs::Losing::loses))]
pub fn the_disk_that_loses_most_keeps_the_laws()
    ensures laws { (files : Files) → AreRead files → (calls : List ListCall)
        → IsClosedDisk (after_calls files calls) }
    ensures calls { (files : Files) (calls : List ListCall) → Loses (after_calls files calls) }
{}
