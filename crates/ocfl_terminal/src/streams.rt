//! The standard streams.

use ocfl_files::failing::Failure;
use ocfl_files::making::failed_file;
use std::fs::File;
use std::rt::Files;

/// Takes the numbers of standard streams that are closed, so that no file of the state gets one,
/// and what is said with it. They are taken while the result lives.
pub fn take_streams<R: Files + AllocGlobal>(rt: &R) -> Result<Vec<R::File>, Failure> {
    let mut taken = Vec::new(rt.alloc());
    for _ in 0..3 {
        match File::open(rt, "/") {
            Ok(file) => taken.push(file)?,
            Err(error) => return Err(failed_file(rt.alloc(), "/", &error)),
        }
    }
    Ok(taken)
}
