//! Calls in memory that are made to fail.
ghost use Rattle.std.specs.Prelude.{◌≡◌, ◌<◌, IfErr, None, Some};
ghost use Rattle.ocfl_closing.specs.Calls.{HasFault};
ghost use Rattle.ocfl_files.specs.Failing.{stopped_status};
ghost use Rattle.ocfl_mem_disk.specs.Closings.{IsFault};

use ocfl_files::failing::Failure;
use std::alloc::{AllocError, Global};

/// How often a call has failed, and which one is made to.
#[derive(Debug, Drop)]
pub(crate) struct MemFaults {
    pub(crate) count: u64,
    due: Option<u64>,
}

impl MemFaults {
    /// No call has failed, and none is made to.
    pub(crate) fn none() -> MemFaults
        ensures count { result.count ≡ 0 }
        ensures due { result.due ≡ None }
    {
        MemFaults {
            count: 0,
            due: None,
        }
    }

    /// Of the following calls the one of this number, counted from 1, fails.
    pub(crate) fn plan(&mut self, number: u64)
        requires { 0 < number }
        ensures count { self.new.count ≡ self.old.count }
        ensures due { self.new.due ≡ Some number }
    {
        self.due = Some(number);
    }

    /// Counts a call. Whether it is the one that is made to fail.
    pub(crate) fn is_due(&mut self) -> bool
        ensures { self.new.count ≡ self.old.count }
    {
        let due = self.due == Some(1);
        self.due = match self.due {
            Some(number) if number > 1 => Some(number - 1),
            _ => None,
        };
        due
    }

    /// A call fails. Memory runs out if no more faults can be counted.
    pub(crate) fn fail(&mut self, alloc: Global) -> Failure
        ensures fault { IsFault self.old.count self.new.count result }
        ensures failed { result.status ≡ stopped_status }
    {
        if self.count == u64::MAX {
            return Failure::from(AllocError);
        }
        self.count += 1;
        Failure::saying(String::from_str(alloc, "a call failed\n"))
    }

    /// Counts a call. It fails if it is the one that is made to fail.
    pub(crate) fn begin(&mut self, alloc: Global) -> Result<(), Failure>
        ensures fault { HasFault self.old.count self.new.count result }
        ensures failed { IfErr result (λ failure. failure.status ≡ stopped_status) }
    {
        if self.is_due() {
            return Err(self.fail(alloc));
        }
        Ok(())
    }
}
