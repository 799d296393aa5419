//! The main promise: what a cycle keeps while the root stays unchanged and every call succeeds. It
//! follows from what the contract of a cycle says of its runs (`told`).
ghost use Rattle.std.specs.Prelude.{List};
ghost use Rattle.ocfl_rules.specs.{Parts.{Part, whole}, Runs.{Limits}};
ghost use Rattle.ocfl_scrub.specs.Call.{Call, IsUnfailing};
ghost use Rattle.ocfl_scrub.specs.declared.cycling.CycleEnd.{CycleEnd};
ghost use Rattle.ocfl_scrub.specs.Chaining.{CycleOfRunsWithin};
ghost use Rattle.ocfl_scrub.specs.Cycling.{HeadlineOf, HeadlineOfPart};

/// The reports of a cycle's runs, joined, are the cuts of the audit by their limits; each run
/// starts a file only while its cost is below its budget and its files are below its limit. If the
/// cycle has ended the reports are exactly the audit, each hashed file was opened once, in order,
/// and it has ended within as many runs as the cost by the budget and the files by their limit,
/// each rounded down, and one more. So too of a part, by what the audit has there.
pub fn a_cycle_keeps_the_headline()
    ensures whole { (call : Call) (limits : List Limits) (ran : CycleEnd)
        → CycleOfRunsWithin call whole limits ran → IsUnfailing call
        → HeadlineOf call limits ran.runs ran.end }
    ensures part { (call : Call) (part : Part) (limits : List Limits) (ran : CycleEnd)
        → CycleOfRunsWithin call part limits ran → IsUnfailing call
        → HeadlineOfPart call part limits ran.runs ran.end }
{}
