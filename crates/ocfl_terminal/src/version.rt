//! What `--version` prints below the version: what `install` noted, and the running file's digest.

use ocfl_files::files::folder_of;
use sha2::{Digest, Sha256};
use std::alloc::Global;
use std::env;
use std::fs::{self, File};
use std::io::{self, Read};
use std::rt::Files;

/// The running file itself, whatever was put in its place since it was started.
const RUNNING_FILE: &str = "/proc/self/exe";

/// What `install` noted beside the program that it installed, if there is such a file.
fn build_notes<R: Files + AllocGlobal>(rt: &R) -> Option<String> {
    let program = env::current_exe(rt).ok()?;
    let prefix = folder_of(folder_of(program.to_str()?));
    let file = format!(in rt.alloc(); "{prefix}/share/ocfl-scrub/BUILD").ok()?;
    fs::read_to_string(rt, file.as_str()).ok()
}

/// The digest that those notes name.
fn noted_digest(notes: &str) -> Option<&str> {
    for line in notes.lines() {
        if let Some(digest) = line.strip_prefix("sha256 ") {
            return Some(digest);
        }
    }
    None
}

/// The SHA-256 of all that a reader gives, in hexadecimal digits.
fn hash_reader<T: Read>(alloc: Global, reader: &mut T) -> io::Result<String> {
    let mut hasher = Sha256::new();
    let mut block = [0; 4096];
    for _ in 0..u64::MAX {
        let count = reader.read(&mut block)?;
        if count == 0 {
            break;
        }
        hasher.update(&block[..count]);
    }
    Ok(hex::encode(alloc, hasher.finalize())?)
}

/// The SHA-256 of the running file, in hexadecimal digits.
pub fn running_digest<R: Files + AllocGlobal>(rt: &R) -> io::Result<String> {
    let mut file = File::open(rt, RUNNING_FILE)?;
    hash_reader(rt.alloc(), &mut file)
}

/// Prints the digest of the running file, and whether the notes name another one. The line does not
/// begin as the one of the notes does, since scripts look for that.
fn print_digest<R>(rt: &R, noted: Option<&str>) -> io::Result<()>
where
    R: Files + AllocGlobal + Print,
{
    let Ok(digest) = running_digest(rt) else {
        return println!(rt; "this file cannot be read, so its sha256 is not known");
    };
    match noted {
        Some(noted) if noted != digest.as_str() => {
            println!(rt; "this file has sha256 {digest} (differs from BUILD)")
        }
        _ => println!(rt; "this file has sha256 {digest}"),
    }
}

/// Prints the notes without their first line, which is the version, and the digest.
pub(crate) fn print_build<R: Files + AllocGlobal + Print>(rt: &R) -> io::Result<()> {
    let notes = build_notes(rt);
    let rest = match notes.as_ref().and_then(|notes| notes.split_once('\n')) {
        Some((_, rest)) => rest,
        None => "",
    };
    print!(rt; "{rest}")?;
    print_digest(rt, noted_digest(rest))
}
