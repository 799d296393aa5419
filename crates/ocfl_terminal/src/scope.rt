//! Which items of the storage root a command takes, by what its command line chooses.
ghost use Rattle.std.specs.Prelude.{◌≡◌, ◌⊎◌, ◌↔◌, IfErr, IfOk};
ghost use Rattle.std.specs.IoError.{error_kind};
ghost use Rattle.ocfl_scope.specs.Stop.{stop_status};
ghost use Rattle.ocfl_terminal.specs.Chosen.{IsScopeOf, ScopeStops};

use crate::paths::why_no_place;
use ocfl_arguments::Chosen;
use ocfl_files::saying::say;
use ocfl_scope::{Scope, ScopeStop, find_branch, find_part};
use ocfl_separators::PartsStop;
use std::fs::File;
use std::io::{self, ErrorKind};
use std::rt::Files;

/// The items that are chosen. Reads the file of the separators if a part is. It fails as
/// `find_branch` and `find_part` do, and with `Parts` if that file was not opened.
#[tactic(auto, using(crate::proofs::Scopes::found_any, crate::proofs::Scopes::stopped_any))]
pub fn read_scope<R: Files + AllocGlobal>(rt: &R, chosen: &Chosen) -> Result<Scope, ScopeStop>
    ensures scope { IfOk result (IsScopeOf chosen.now) }
    ensures refused { IfErr result (ScopeStops chosen.now) }
{
    match chosen {
        Chosen::All => Ok(Scope::Whole),
        Chosen::Branch(path) => find_branch(rt.alloc(), path.as_str()),
        Chosen::Part { parts, number } => match File::open(rt, parts.as_str()) {
            Ok(mut opened) => find_part(rt.alloc(), &mut opened, *number),
            Err(error) => Err(ScopeStop::Parts(unopened(&error))),
        },
    }
}

/// Why the separators' file was not opened.
fn unopened(error: &io::Error) -> PartsStop
    ensures memory { (result ≡ PartsStop.Memory) ↔ (error_kind error.now ≡ ErrorKind.OutOfMemory) }
    ensures either { (result ≡ PartsStop.Memory) ⊎ (result ≡ PartsStop.Read) }
{
    match error.kind() {
        ErrorKind::OutOfMemory => PartsStop::Memory,
        _ => PartsStop::Read,
    }
}

/// Says why no scope is found, and of a branch why its path names no place. Gives the status.
pub fn say_no_scope<R: Eprint>(rt: &R, chosen: &Chosen, stop: &ScopeStop) -> u8
    ensures { result ≡ stop_status stop.now }
{
    let _ = eprintln!(rt; "ocfl-scrub: {stop}");
    if let (ScopeStop::BadPath, Chosen::Branch(path)) = (stop, chosen) {
        say(rt, why_no_place(path.as_str()));
    }
    stop.status()
}
