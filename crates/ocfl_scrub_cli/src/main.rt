//! The program `ocfl-scrub`: which of its tasks is done, nights over a state folder, and the exit
//! status.
#![tactic(auto)]

mod nights;

use nights::make_night;
use ocfl_arguments::Asked;
use ocfl_part_folders::joining::join_parts;
use ocfl_tasks::{do_task, show_codes};
use ocfl_terminal::progress::{Terminals, find_terminals};
use ocfl_terminal::splits::split_root;
use ocfl_terminal::words::read_asked;
use std::fs::File;
use std::process::ExitCode;
use std::rt::{Env, Files};
use std::time::Clock;

/// Does what is asked for, and gives the exit status.
fn do_asked<R>(rt: &R, asked: &Asked, terminals: Terminals) -> u8
where
    R: Files<File = File> + Env + AllocGlobal + Clock + Print + Eprint,
{
    match asked {
        Asked::Task(task) => do_task(rt, task, terminals),
        Asked::Split(split) => split_root(rt, split),
        Asked::Night(night) => make_night(rt, night, terminals),
        Asked::Join(join) => join_parts(rt, join),
        Asked::Codes { json } => show_codes(rt, *json),
    }
}

/// Runs the program, and gives its exit status.
fn run_program<R>(rt: &R, terminals: Terminals) -> u8
where
    R: Files<File = File> + Env + AllocGlobal + Clock + Print + Eprint,
{
    match read_asked(rt) {
        Ok(asked) => do_asked(rt, &asked, terminals),
        Err(status) => status,
    }
}

fn main(rt: HostRuntime) -> ExitCode {
    ExitCode::from(run_program(&rt, find_terminals(&rt)))
}
