//! What the program says on standard error, and the statuses that go with it.
ghost use Rattle.std.specs.Prelude.{◌≡◌};
ghost use Rattle.ocfl_files.specs.Failing.{stopped_status};

/// The exit status of a bad command line, path, part number, separators or report, and of a
/// cursor's file inside the storage root.
pub const USAGE: u8 = 2;

/// The exit status if a command stopped.
pub const STOPPED: u8 = 3;

/// Says one line on standard error. A standard error that cannot be written changes nothing.
pub fn say<R: Eprint>(rt: &R, line: &str) {
    let _ = eprintln!(rt; "ocfl-scrub: {line}");
}

/// Says that memory ran out, and gives the status.
pub fn say_out_of_memory<R: Eprint>(rt: &R) -> u8
    ensures { result ≡ stopped_status }
{
    say(rt, "out of memory");
    STOPPED
}
