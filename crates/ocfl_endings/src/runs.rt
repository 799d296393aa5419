//! What the runs of a night came to.
ghost use Rattle.std.specs.Prelude.{◌≡◌, IfOk, string_bytes};
ghost use Rattle.std.specs.Option.{option_map};
ghost use Rattle.ocfl_plan.specs.Status.{closed_by, is_logged, night_status};
ghost use Rattle.ocfl_endings.specs.Runs.{IsSaidOf, is_lost};

use crate::ending::ending_text;
use ocfl_disk::Reason;
use ocfl_journal::ending::Ended;
use ocfl_journal::noting::Totals;
use ocfl_kept::names::Names;
use ocfl_kept::state::words_of;
use ocfl_plan::{closed_by, is_logged, night_status};
use ocfl_terms::NightEnd;
use std::alloc::{AllocError, Global};

/// What the runs of a night came to.
pub struct Runs {
    pub end: NightEnd,
    /// Why the last call over the storage root failed that did.
    pub why: Option<String>,
    pub totals: Totals,
}

/// Written by hand, so that to let it go is one call wherever that happens.
impl Drop for Runs {
    fn drop(self) {
        let Runs {
            end: _end,
            why: _why,
            totals: _totals,
        } = self;
    }
}

impl Runs {
    /// What is said of how the night ended; nothing if it ended well. `reason` is why the last call
    /// on its state folder failed.
    pub fn said(
        &self,
        alloc: Global,
        names: Names<'_>,
        reason: Option<Reason>,
    ) -> Result<Option<String>, AllocError>
        ensures { IfOk result (λ said. IsSaidOf self.now.end.end reason
            (option_map string_bytes self.now.why) names.entry (option_map string_bytes said)) }
    {
        let words = words_of(alloc, reason)?;
        ending_text(
            alloc,
            &self.end.end,
            text_of(&words),
            text_of(&self.why),
            names,
        )
    }

    /// How the night ended. `said` is what is said of that.
    pub fn ended<'e>(&'e self, said: &'e Option<String>) -> Ended<'e>
        ensures closed { result.closed ≡ closed_by self.now.end.end }
        ensures logged { result.is_logged ≡ is_logged self.now.end.end }
        ensures runs { result.runs ≡ self.now.end.runs }
        ensures lost { result.is_lost ≡ is_lost self.now.end self.now.totals.broken }
        ensures left { result.left.now ≡ self.now.end.left.items }
        ensures totals { result.totals.now ≡ self.now.totals }
        ensures said { option_map (λ s. s.now) result.said ≡ option_map string_bytes said.now }
    {
        Ended {
            closed: closed_by(&self.end.end),
            is_logged: is_logged(&self.end.end),
            runs: self.end.runs,
            is_lost: self.end.lost || self.totals.broken > 0,
            left: &self.end.left,
            totals: &self.totals,
            said: text_of(said),
        }
    }

    /// The status of the night, with this one of what was said of closed cycles.
    pub fn status(&self, closings: u8) -> u8
        ensures { result
            ≡ night_status self.now.end self.now.totals.broken self.now.totals.findings closings }
    {
        night_status(
            &self.end,
            self.totals.broken,
            self.totals.findings,
            closings,
        )
    }
}

/// The text, if there is one.
fn text_of(text: &Option<String>) -> Option<&str>
    ensures { option_map (λ t. t.now) result ≡ option_map string_bytes text.now }
{
    match text {
        Some(text) => Some(text.as_str()),
        None => None,
    }
}
