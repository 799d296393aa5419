//! The calls that the clock of a night makes, in memory.
ghost use Rattle.std.specs.Prelude.{◌≡◌, ◌++◌, ◌∷◌, [], false, map, not};
ghost use Rattle.ocfl_mem_clock.specs.Answered.{answer_of};

use crate::answered::Answered;
use crate::copying::copy_made;
use ocfl_plan::StopCalls;
use ocfl_terms::Made;
use std::alloc::Global;

/// What calls in memory answer.
#[derive(Clone, Copy, Debug)]
pub struct Course {
    /// The time that the next reading shows, in seconds since the epoch. `None` if the clock cannot
    /// be read.
    pub time: Option<u64>,
    /// How many seconds each reading takes.
    pub per_reading: u64,
    /// How many seconds each run takes.
    pub per_run: u64,
    /// How often the file that asks the night to stop is looked for before it is there.
    pub asked_after: u64,
}

/// The calls of the system that the clock of a night makes, in memory. They keep what they answer,
/// and do not tell from the first answer on that they cannot keep.
pub struct MemStopCalls {
    alloc: Global,
    course: Course,
    answers: Vec<Answered>,
    /// Whether an answer is not among these, since memory was refused.
    lost: bool,
}

/// Written by hand, so that to let it go is one call wherever that happens.
impl Drop for MemStopCalls {
    fn drop(self) {
        let MemStopCalls {
            alloc: _alloc,
            course: _course,
            answers: _answers,
            lost: _lost,
        } = self;
    }
}

/// The time so many seconds later, at most 2^64 - 1.
fn later(time: Option<u64>, seconds: u64) -> Option<u64> {
    Some(time?.saturating_add(seconds))
}

impl MemStopCalls {
    /// Calls that have answered nothing yet.
    pub fn new(alloc: Global, course: Course) -> MemStopCalls
        ensures answers { result.answers.items ≡ [] }
        ensures lost { result.lost ≡ false }
        ensures course { result.course ≡ course }
    {
        MemStopCalls {
            alloc,
            course,
            answers: Vec::new(alloc),
            lost: false,
        }
    }

    /// What they answered, and the runs that were made meanwhile, oldest first. After memory was
    /// refused some may be missing.
    pub fn answers(&self) -> &[Answered]
        ensures { result.now ≡ self.now.answers.items }
    {
        self.answers.as_slice()
    }

    /// Whether they still tell: no answer is missing.
    pub fn is_told(&self) -> bool
        ensures { result ≡ not self.now.lost }
    {
        !self.lost
    }

    /// Keeps an answer.
    fn keep(&mut self, answer: Answered)
        ensures lost { self.new.lost ≡ false → self.old.lost ≡ false }
        ensures kept { self.new.lost ≡ false
            → self.new.answers.items ≡ self.old.answers.items ++ answer ∷ [] }
    {
        if self.answers.push(answer).is_err() {
            self.lost = true;
        }
    }
}

impl StopCalls for MemStopCalls {
    ghost told = { λ c. not c.lost };

    ghost answers = { λ c. map answer_of c.answers.items };

    fn seconds(&mut self) -> Option<u64> {
        let time = self.course.time;
        self.course.time = later(time, self.course.per_reading);
        self.keep(Answered::Seconds(time));
        time
    }

    fn has_stop(&mut self) -> bool {
        let has = self.course.asked_after == 0;
        self.course.asked_after = self.course.asked_after.saturating_sub(1);
        self.keep(Answered::HasStop(has));
        has
    }

    fn hears(&mut self, made: &Made) {
        self.course.time = later(self.course.time, self.course.per_run);
        match copy_made(self.alloc, made) {
            Ok(made) => self.keep(Answered::Ran(made)),
            Err(_) => self.lost = true,
        }
    }
}
