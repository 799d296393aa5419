//! The clock of a night.

use ocfl_disk::StateFile;
use ocfl_files::timing::read_seconds;
use ocfl_plan::{StopCalls, StopFile};
use ocfl_terms::Made;
use std::alloc::AllocError;
use std::fs;
use std::rt::Files;
use std::time::Clock;

/// The calls of the system that the clock of a night makes. What they answer is not told.
#[derive(Drop)]
pub(crate) struct System<'a, R> {
    rt: &'a R,
    /// The path of the file that asks the night to stop.
    path: String,
}

/// The clock of a night over a state folder, in which a file asks it to stop.
pub(crate) fn stop_file<'a, R>(
    rt: &'a R,
    state: &str,
) -> Result<StopFile<System<'a, R>>, AllocError>
where
    R: Files + AllocGlobal + Clock,
{
    let path = format!(in rt.alloc(); "{state}/{}", StateFile::Stop)?;
    Ok(StopFile::over(System { rt, path }))
}

impl<R: Files + Clock> StopCalls for System<'_, R> {
    fn seconds(&mut self) -> Option<u64> {
        read_seconds(self.rt)
    }

    fn has_stop(&mut self) -> bool {
        fs::symlink_metadata(self.rt, self.path.as_str()).is_ok()
    }

    fn hears(&mut self, _made: &Made) {}
}
