//! The exit status of what lacks or finds something.
ghost use Rattle.std.specs.Prelude.{◌≡◌};
ghost use Rattle.ocfl_status.specs.Status.{status_of};

/// The exit status: 3 if something is lacking, 1 if something was found, else 0.
pub fn status_of(lacks: bool, finds: bool) -> u8
    ensures { result ≡ status_of lacks finds }
{
    if lacks {
        return 3;
    }
    if finds { 1 } else { 0 }
}
