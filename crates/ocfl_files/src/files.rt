//! Files by their paths: where they are, opening them, and putting one in the place of another.
ghost use Rattle.std.specs.Prelude.{◌≡◌, ◌≢◌, ◌↔◌, IsTrue, IfOk, IfErr, Ok, Err, Some, None};
ghost use Rattle.std.specs.{IoError.{error_kind}, Option.{option_map}, Path.{path_buf_bytes}};
ghost use Rattle.ocfl_files.specs.Paths.{LiesBelow, folder_of as folder_of_path};

use std::fs::{self, File, OpenFile};
use std::io::{self, ErrorKind, Write};
use std::path::PathBuf;
use std::rt::Files;

/// The folder that a file is in.
pub fn folder_of(file: &str) -> &str
    ensures { result.now ≡ folder_of_path file.now }
{
    match file.rsplit_once('/') {
        Some((folder, _)) if folder.is_empty() => "/",
        Some((folder, _)) => folder,
        None => ".",
    }
}

/// What the system answers of a path: `None` if that cannot be resolved. The error is that of
/// memory.
fn resolved(answer: io::Result<PathBuf>) -> io::Result<Option<PathBuf>>
    ensures found { IfOk answer (λ path. result ≡ Ok (Some path)) }
    ensures memory { IfErr answer (λ error.
        error_kind error ≡ ErrorKind.OutOfMemory → result ≡ Err error) }
    ensures none { IfErr answer (λ error.
        error_kind error ≢ ErrorKind.OutOfMemory → result ≡ Ok None) }
    ensures only_memory { IfErr result (λ error. error_kind error ≡ ErrorKind.OutOfMemory) }
{
    match answer {
        Ok(path) => Ok(Some(path)),
        Err(error) => match error.kind() {
            ErrorKind::OutOfMemory => Err(error),
            _ => Ok(None),
        },
    }
}

/// A folder's own path. `None` if it cannot be resolved. The error is that of memory.
pub fn path_of<R: Files + AllocGlobal>(rt: &R, folder: &str) -> io::Result<Option<PathBuf>>
    ensures memory { IfErr result (λ error. error_kind error ≡ ErrorKind.OutOfMemory) }
{
    resolved(fs::canonicalize(rt, folder))
}

/// Whether a file is in a storage root, or would be. If one of the two folders cannot be
/// resolved, it is not. The error is that of memory.
pub fn lies_inside<R>(rt: &R, file: &str, root: &str) -> io::Result<bool>
where
    R: Files + AllocGlobal,
    ensures memory { IfErr result (λ error. error_kind error ≡ ErrorKind.OutOfMemory) }
{
    let folder = path_of(rt, folder_of(file))?;
    let root = path_of(rt, root)?;
    Ok(lies_below(&folder, &root))
}

/// Whether a path is that of a folder, or below it. If one cannot be resolved, it is not.
fn lies_below(path: &Option<PathBuf>, folder: &Option<PathBuf>) -> bool
    ensures { IsTrue result ↔ LiesBelow (option_map path_buf_bytes path.now)
        (option_map path_buf_bytes folder.now) }
{
    match (path, folder) {
        (Some(path), Some(folder)) => path.as_path().starts_with(folder.as_path()),
        _ => false,
    }
}

/// What the system answers to an opening: `None` if there is no such file.
fn found<F>(answer: io::Result<F>) -> io::Result<Option<F>>
    ensures found { IfOk answer (λ file. result ≡ Ok (Some file)) }
    ensures none { IfErr answer (λ error.
        error_kind error ≡ ErrorKind.NotFound → result ≡ Ok None) }
    ensures failed { IfErr answer (λ error.
        error_kind error ≢ ErrorKind.NotFound → result ≡ Err error) }
    ensures only_failed { IfErr result (λ error. error_kind error ≢ ErrorKind.NotFound) }
{
    match answer {
        Ok(file) => Ok(Some(file)),
        Err(error) => match error.kind() {
            ErrorKind::NotFound => Ok(None),
            _ => Err(error),
        },
    }
}

/// Opens a file, and gives `None` if there is no such file.
pub fn open_if_there<R: Files>(rt: &R, file: &str) -> io::Result<Option<R::File>>
    ensures { IfErr result (λ error. error_kind error ≢ ErrorKind.NotFound) }
{
    found(File::open(rt, file))
}

fn write_synced<R: Files>(rt: &R, file: &str, text: &[u8]) -> io::Result<()> {
    // Removes what a killed run left, and does not write through a link there.
    let _ = fs::remove_file(rt, file);
    let mut made = File::create_new(rt, file)?;
    made.write_all(text)?;
    made.sync_all()
}

/// Brings the name of a file to the disk.
pub fn sync_name<R: Files>(rt: &R, file: &str) {
    // Not every system can sync a folder; the file is whole without it.
    if let Ok(folder) = File::open(rt, folder_of(file)) {
        let _ = folder.sync_all();
    }
}

/// Puts a text in the place of a file, by way of the one beside it.
fn put_by<R: Files>(rt: &R, beside: &str, file: &str, text: &[u8]) -> io::Result<()> {
    write_synced(rt, beside, text)?;
    fs::rename(rt, beside, file)
}

/// Puts a text in the place of a file: it is written beside it, synced and renamed over it, so that
/// the file is whole at each moment.
pub fn put_in_place<R>(rt: &R, file: &str, text: &[u8]) -> io::Result<()>
where
    R: Files + AllocGlobal,
{
    let beside = format!(in rt.alloc(); "{file}.ocfl-scrub.new")?;
    let placed = put_by(rt, beside.as_str(), file, text);
    if placed.is_ok() {
        sync_name(rt, file);
    } else {
        let _ = fs::remove_file(rt, beside.as_str());
    }
    placed
}
