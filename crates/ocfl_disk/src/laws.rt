//! The laws of a disk.
ghost use Rattle.std.specs.Prelude.{List};
ghost use Rattle.ocfl_disk.specs.PowerCut.{IsDisk};
ghost use Rattle.ocfl_disk.specs.Losing.{DiskCall, AreAllowed, Loses, after_calls};

/// The clauses of a disk can hold together, and its laws ask for no less loss than its calls do:
/// from an empty folder on, after any calls that a state folder may make, the disk that loses the
/// most that their clauses allow is one, and does at each further call what its clauses say.
#[tactic(auto, using(crate::proofs::Losing::is_disk, crate::proofs::Losing::loses_at))]
pub fn the_disk_that_loses_most_keeps_the_laws()
    ensures laws { (calls : List DiskCall) → AreAllowed calls → IsDisk (after_calls calls) }
    ensures calls { (calls : List DiskCall) → AreAllowed calls → Loses (after_calls calls) }
{}
