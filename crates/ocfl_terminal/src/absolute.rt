//! Absolute paths, which lead from `/` on. The process goes into the storage root, where other
//! paths would lead elsewhere. Paths of items as reports write them.
ghost use Rattle.std.specs.Prelude.{◌≡◌, ◌⊎◌, false, Err, IfOk, IsTrue, OnOk, option_map};
ghost use Rattle.std.specs.Prelude.{string_bytes};
ghost use Rattle.ocfl_tree.specs.Place.{Text};
ghost use Rattle.ocfl_terminal.specs.Absolute.{in_folder, is_show, is_absolute, absolute_in};
ghost use Rattle.ocfl_terminal.specs.Absolute.{IsAskedAbsolute, IsChosenAbsolute, IsDeedAsReports};
ghost use Rattle.ocfl_terminal.specs.Absolute.{IsNightAbsolute, IsTaskAbsolute};
ghost use Rattle.ocfl_terminal.specs.declared.absolute.NotAbsolute.TheVariants.{Memory, NoFolder};

use crate::paths::write_as_reports;
use ocfl_arguments::{Asked, Chosen, NightAsked, Split, Task};
use ocfl_deed::Deed;
use std::alloc::{AllocError, Global};
use std::path::PathBuf;
use std::rt::Env;
use std::{env, io};

/// Why paths were not made absolute.
#[derive(Debug, Drop)]
pub(crate) enum NotAbsolute {
    /// The current folder has no absolute path.
    NoFolder,
    /// Memory was refused.
    Memory,
}

impl From<AllocError> for NotAbsolute {
    ghost from_gives = { λ _ e. e ≡ Memory };

    fn from(_error: AllocError) -> NotAbsolute {
        NotAbsolute::Memory
    }
}

/// Whether a path leads from `/` on.
fn is_absolute(path: &str) -> bool
    ensures { result ≡ is_absolute path.now }
{
    path.starts_with('/')
}

/// A path in a folder.
fn in_folder(alloc: Global, here: &str, path: &str) -> Result<String, AllocError>
    ensures { IfOk result (λ text. string_bytes text ≡ in_folder here.now path.now) }
{
    if here.ends_with('/') {
        format!(in alloc; "{here}{path}")
    } else {
        format!(in alloc; "{here}/{path}")
    }
}

/// Makes the path of what is in a folder absolute. A folder outside of what the process takes for
/// `/` has a path that begins otherwise.
fn make_absolute(alloc: Global, here: &str, path: &mut String) -> Result<(), NotAbsolute>
    ensures absolute { OnOk result (string_bytes path.new
        ≡ absolute_in here.now (string_bytes path.old)) }
    ensures none { result ≡ Err NoFolder → is_absolute here.now ≡ false }
{
    if path.is_empty() || is_absolute(path.as_str()) {
        return Ok(());
    }
    if !is_absolute(here) {
        return Err(NotAbsolute::NoFolder);
    }
    *path = in_folder(alloc, here, path.as_str())?;
    Ok(())
}

/// Makes a path absolute, if there is one.
fn make_absolute_if_any(
    alloc: Global,
    here: &str,
    path: &mut Option<String>,
) -> Result<(), NotAbsolute>
    ensures absolute { OnOk result (option_map string_bytes path.new
        ≡ option_map (λ p. absolute_in here.now (string_bytes p)) path.old) }
    ensures none { result ≡ Err NoFolder → is_absolute here.now ≡ false }
{
    match path {
        Some(path) => make_absolute(alloc, here, path),
        None => Ok(()),
    }
}

/// Makes the path of a file of separators absolute. Writes that of a branch, which is one in the
/// storage root, as reports do.
fn make_chosen_absolute(alloc: Global, here: &str, chosen: &mut Chosen) -> Result<(), NotAbsolute>
    ensures absolute { OnOk result (IsChosenAbsolute here.now chosen.old chosen.new) }
    ensures none { result ≡ Err NoFolder → is_absolute here.now ≡ false }
{
    match chosen {
        Chosen::Part { parts, .. } => make_absolute(alloc, here, parts),
        Chosen::Branch(path) => Ok(write_as_reports(alloc, path)?),
        Chosen::All => Ok(()),
    }
}

/// Writes the path of a deed, which is one in the storage root, as reports do.
fn write_deed_as_reports(alloc: Global, deed: &mut Deed) -> Result<(), AllocError>
    ensures { OnOk result (IsDeedAsReports deed.old deed.new) }
{
    match deed {
        Deed::Check(_, path) => write_as_reports(alloc, path),
        Deed::Audit(_) | Deed::Run(_, _) | Deed::Cycle(_, _, _) | Deed::Show => Ok(()),
    }
}

/// Makes the paths of a task absolute, unless it only shows a file.
fn make_task_absolute(alloc: Global, here: &str, task: &mut Task) -> Result<(), NotAbsolute>
    ensures absolute { OnOk result ((IsTrue (is_show task.old.deed) × (task.new ≡ task.old))
        ⊎ ((is_show task.old.deed ≡ false) × IsTaskAbsolute here.now task.old task.new)) }
    ensures none { result ≡ Err NoFolder → is_absolute here.now ≡ false }
{
    if let Deed::Show = &task.deed {
        return Ok(());
    }
    make_chosen_absolute(alloc, here, &mut task.chosen)?;
    make_absolute_if_any(alloc, here, &mut task.root)?;
    make_absolute_if_any(alloc, here, &mut task.file)?;
    Ok(write_deed_as_reports(alloc, &mut task.deed)?)
}

/// Makes the paths of a night absolute.
fn make_night_absolute(alloc: Global, here: &str, night: &mut NightAsked) -> Result<(), NotAbsolute>
    ensures absolute { OnOk result (IsNightAbsolute here.now night.old night.new) }
    ensures none { result ≡ Err NoFolder → is_absolute here.now ≡ false }
{
    make_absolute(alloc, here, &mut night.state)?;
    make_absolute(alloc, here, &mut night.root)?;
    make_chosen_absolute(alloc, here, &mut night.chosen)?;
    make_absolute_if_any(alloc, here, &mut night.known)?;
    make_absolute_if_any(alloc, here, &mut night.expected)
}

/// Makes the paths of what is asked for absolute, if a storage root is read for it. Those that are
/// not are in the folder `here`.
fn make_paths_absolute(alloc: Global, here: &str, asked: &mut Asked) -> Result<(), NotAbsolute>
    ensures absolute { OnOk result (IsAskedAbsolute here.now asked.old asked.new) }
    ensures none { result ≡ Err NoFolder → is_absolute here.now ≡ false }
{
    match asked {
        Asked::Task(task) => make_task_absolute(alloc, here, task),
        Asked::Split(Split::Listing { root, .. }) => make_absolute(alloc, here, root),
        Asked::Night(night) => make_night_absolute(alloc, here, night),
        Asked::Split(Split::Report { .. }) | Asked::Join(_) | Asked::Codes { .. } => Ok(()),
    }
}

/// Makes all paths of what is asked for absolute, if a storage root is read for it. Those that are
/// not are in the current folder.
pub(crate) fn make_asked_absolute<R>(rt: &R, asked: &mut Asked) -> io::Result<()>
where
    R: Env + AllocGlobal,
    ensures { OnOk result ((here : Text) × IsAskedAbsolute here asked.old asked.new) }
{
    let here = env::current_dir(rt);
    let path = match &here {
        Ok(here) => here.as_path().as_str(),
        Err(_) => "",
    };
    match make_paths_absolute(rt.alloc(), path, asked) {
        Ok(()) => Ok(()),
        Err(NotAbsolute::Memory) => Err(io::Error::from(io::ErrorKind::OutOfMemory)),
        Err(NotAbsolute::NoFolder) => Err(why_none(here)),
    }
}

/// Why the current folder has no absolute path.
fn why_none(here: io::Result<PathBuf>) -> io::Error {
    match here {
        Ok(_) => io::Error::from(io::ErrorKind::NotFound),
        Err(error) => error,
    }
}
