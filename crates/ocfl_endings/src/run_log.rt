//! The log of the runs of a night.
ghost use Rattle.std.specs.Prelude.{◌≡◌, IsTrue, OnOk};
ghost use Rattle.ocfl_journal.specs.{Logging.{Logs, log_of}, Rows.{run_row}};

use ocfl_journal::{Journal, NightLog, RunMade};
use ocfl_plan::Listener;
use ocfl_terms::Made;
use std::alloc::AllocError;

/// What logs the runs of a night.
#[derive(Drop)]
pub struct RunLog<L: Drop> {
    journal: Journal<L>,
    /// The time that the clock showed last: when the run under way began.
    began: u64,
}

impl<L: NightLog + Drop> RunLog<L> {
    /// That of a night that began then, in seconds since the epoch.
    pub fn of(journal: Journal<L>, began: u64) -> RunLog<L>
        ensures { result ≡ record { journal = journal; began = began } }
    {
        RunLog { journal, began }
    }

    /// The journal that it logs in.
    pub fn journal(&self) -> &Journal<L>
        ensures { result.now ≡ self.now.journal }
    {
        &self.journal
    }

    /// Logs a run. The only error is that there is no memory for its line, which is left out then.
    fn log_run(&mut self, made: &Made, status: u8) -> Result<(), AllocError>
        ensures logged { IsTrue L.told → OnOk result
            (Logs (run_row self.old.journal.night made.now.checkpoint made.now.spent status
            self.old.began) (log_of L.calls self.old.journal) (log_of L.calls self.new.journal)) }
        ensures began { self.new.began ≡ self.old.began }
    {
        let run = RunMade {
            checkpoint: &made.checkpoint,
            cost: made.spent,
            status,
        };
        self.journal.run(run, self.began)
    }
}

impl<L: NightLog + Drop> Listener for RunLog<L> {
    fn note_time(&mut self, now: u64)
        ensures { self.new ≡ record self.old { began = now } }
    {
        self.began = now;
    }

    /// Logs a run.
    fn note_run(&mut self, made: &Made, status: u8)
        ensures { self.new.began ≡ self.old.began }
    {
        let _ = self.log_run(made, status);
    }
}
