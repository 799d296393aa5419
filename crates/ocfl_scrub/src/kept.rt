//! The walk that one run leaves to the next.
ghost use Rattle.std.specs.Prelude.{◌≡◌, ◌≤◌, None, length};

use ocfl_walk::{Pending, Walk};

/// A walk, and the item that it met and that was not taken.
#[derive(Drop)]
pub(crate) struct Met {
    pub(crate) walk: Walk,
    pub(crate) item: Pending,
    ghost short: { length item.place ≤ 255 },
}

/// What a run keeps of its walk, so that the next one lists and reads nothing again.
///
/// It holds what a walk holds and one item, no file's bytes. It is of use for a run of the same
/// part of the same root that goes on from the cursor that the run before answered. A run whose
/// cursor has the other option does not use it.
pub struct KeptWalk {
    pub(crate) met: Option<Met>,
}

/// Written by hand, so that letting it go is one call where it is let go.
impl Drop for KeptWalk {
    fn drop(self) {
        let KeptWalk { met: _met } = self;
    }
}

impl KeptWalk {
    /// No walk: the next run begins one.
    pub fn none() -> KeptWalk
        ensures { result.met ≡ None }
    {
        KeptWalk { met: None }
    }

    /// Lets the walk go: the next run begins one.
    pub fn forget(&mut self)
        ensures { self.new.met ≡ None }
    {
        self.met = None;
    }
}
