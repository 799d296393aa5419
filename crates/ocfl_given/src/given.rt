//! What a night is made with.
ghost use Rattle.std.specs.Prelude.{◌≡◌, IfOk, option_map, string_bytes};
ghost use Rattle.ocfl_terminal.specs.Chosen.{part_number};
ghost use Rattle.ocfl_given.specs.Given.{IsMadeWith};

use crate::apart::refuse_overlap;
use crate::ends::find_shown;
use ocfl_arguments::NightAsked;
use ocfl_cursor::PartEnds;
use ocfl_files::failing::Failure;
use ocfl_kept::names::{About, Names};
use ocfl_messages::Known;
use ocfl_reading::expected::refuse_unfit;
use ocfl_reading::known::find_known;
use ocfl_terminal::roots::{Root, find_ends, find_root, part_number};
use ocfl_terminal::version::running_digest;
use ocfl_tree::Place;
use std::rt::{Env, Files};

/// What a night is made with.
pub struct Given<'a> {
    pub asked: &'a NightAsked,
    /// When the night began, in seconds since the epoch.
    pub began: u64,
    /// The path of the storage root.
    pub root: String,
    pub known: Known,
    /// When the clock next shows the time of day at which the night ends, in seconds since the
    /// epoch. `None` if no such time is asked for.
    pub shown: Option<u64>,
    /// The SHA-256 of the program that makes the night, in hexadecimal digits; empty if it is not
    /// known.
    pub program: String,
}

/// Written by hand, so that to let it go is one call wherever that happens.
impl Drop for Given<'_> {
    fn drop(self) {
        let Given {
            asked: _asked,
            began: _began,
            root: _root,
            known: _known,
            shown: _shown,
            program: _program,
        } = self;
    }
}

/// What a night is made with, and what of the storage root it reads.
#[derive(Drop)]
pub struct Found<'a> {
    pub given: Given<'a>,
    /// The path of the storage root, as names.
    pub place: Place,
    /// The ends of the part that is read; `None` for all of the root.
    pub ends: Option<PartEnds>,
}

/// The text, if there is one.
pub fn text_of(text: &Option<String>) -> Option<&str>
    ensures { option_map (λ t. t.now) result ≡ option_map string_bytes text.now }
{
    match text {
        Some(text) => Some(text.as_str()),
        None => None,
    }
}

impl Given<'_> {
    /// How what the night speaks of is called.
    pub fn names(&self) -> Names<'_>
        ensures root { result.root.now ≡ string_bytes self.now.root }
        ensures part { result.part ≡ part_number self.now.asked.now.chosen }
        ensures state { result.state.now ≡ string_bytes self.now.asked.now.state }
    {
        Names {
            root: self.root.as_str(),
            part: part_number(&self.asked.chosen),
            state: self.asked.state.as_str(),
        }
    }

    /// What is noted, logged and said of the night by.
    pub fn about(&self) -> About<'_>
        ensures root { result.names.root.now ≡ string_bytes self.now.root }
        ensures part { result.names.part ≡ part_number self.now.asked.now.chosen }
        ensures state { result.names.state.now ≡ string_bytes self.now.asked.now.state }
        ensures began { result.began ≡ self.now.began }
        ensures known { result.known.now ≡ self.now.known }
        ensures program { result.program.now ≡ string_bytes self.now.program }
    {
        About {
            names: self.names(),
            began: self.began,
            known: &self.known,
            program: self.program.as_str(),
        }
    }
}

/// The SHA-256 of the running program, in hexadecimal digits; empty if it is not known.
pub fn program_digest<R: Files + AllocGlobal>(rt: &R) -> String {
    running_digest(rt).unwrap_or(String::new(rt.alloc()))
}

/// The storage root, which does not overlap with the state folder.
fn find_apart<R>(rt: &R, asked: &NightAsked) -> Result<Root, Failure>
where
    R: Files + AllocGlobal,
{
    let root = find_root(rt, asked.root.as_str(), asked.state.as_str())?;
    refuse_overlap(rt, asked.state.as_str(), root.path.as_str())?;
    Ok(root)
}

/// The known findings. Refuses an unfit list of the objects that must be there.
fn find_lists<R>(rt: &R, asked: &NightAsked) -> Result<Known, Failure>
where
    R: Files + AllocGlobal,
{
    let known = find_known(rt, text_of(&asked.known))?;
    refuse_unfit(rt, text_of(&asked.expected))?;
    Ok(known)
}

/// Reads all that a night is made with, but for its state folder.
pub fn find_given<'a, R>(rt: &R, asked: &'a NightAsked, began: u64) -> Result<Found<'a>, Failure>
where
    R: Files + Env + AllocGlobal,
    ensures { IfOk result (IsMadeWith asked.now began) }
{
    let root = find_apart(rt, asked)?;
    let ends = find_ends(rt, &asked.chosen)?;
    let known = find_lists(rt, asked)?;
    let shown = find_shown(rt, asked.bounds.until, began)?;
    let Root { path, place } = root;
    Ok(Found {
        given: Given {
            asked,
            began,
            root: path,
            known,
            shown,
            program: program_digest(rt),
        },
        place,
        ends,
    })
}
