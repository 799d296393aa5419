//! A night beside its runs: what its log has, and how it ends.
use crate::tests::common::store::place_of;
use ocfl_cursor::{Cursor, State};
use ocfl_endings::{RunLog, Runs};
use ocfl_files::failing::Failure;
use ocfl_journal::SystemLog;
use ocfl_journal::ending::{end_night, log_ended, log_unbegun, say_if_failed};
use ocfl_journal::noting::{Beside, OnDisk, Totals, open_noting};
use ocfl_kept::names::{About, Names};
use ocfl_messages::Known;
use ocfl_plan::Listener;
use ocfl_report::Further;
use ocfl_state::{
    Checkpoint, Left, Phase, ReportMark, RootIdentity, StateFolder, TopNames, encode_checkpoint,
};
use ocfl_terms::{Halt, Made, NightEnd, SliceEnd};
use std::alloc::Global;
use std::fs;
use std::test::Fail;

/// The night began ten seconds after 1970 did.
fn about<'a>(state: &'a str, known: &'a Known) -> About<'a> {
    About {
        names: Names {
            root: "/srv/ocfl",
            part: Some(2),
            state,
        },
        began: 10,
        known,
        program: "abc",
    }
}

/// The checkpoint of the first cycle after so many runs, with branches that are left out.
fn checkpoint(alloc: Global, runs: u64, branches: &[&str]) -> Result<Checkpoint, Fail> {
    let mut left = Vec::new(alloc);
    for branch in branches {
        let (place, after) = (place_of(alloc, branch)?, None);
        left.push(Left { place, after })?;
    }
    let state = State::After(place_of(alloc, "o")?);
    let (spent, files) = (u128::from(runs) * 7, u128::from(runs));
    Ok(Checkpoint {
        root: RootIdentity {
            path: place_of(alloc, "srv/ocfl")?,
            declared: [0x11; 32],
        },
        names: TopNames {
            count: 3,
            digest: [0xAB; 32],
        },
        phase: Phase::Open,
        whole: true,
        report: ReportMark {
            bytes: 90,
            lines: 4,
            pieces: [0; 32],
            tail: [0x22; 32],
        },
        said: 0,
        left,
        part: None,
        cursor: Cursor::from_parts(1, runs, spent, files, Further::Nothing, state).ok_or(
            "a cursor",
        )?,
    })
}

/// Puts the checkpoint after so many runs, with branches that are left out.
fn put<'a>(
    alloc: Global,
    noting: &mut OnDisk<'a, HostRuntime>,
    runs: u64,
    branches: &[&str],
) -> Result<(), Fail> {
    let bytes = encode_checkpoint(alloc, &checkpoint(alloc, runs, branches)?)?;
    noting.folder.put_checkpoint(&bytes)?;
    Ok(())
}

/// Each line of a log up to its time, which the clock shows.
fn untimed(alloc: Global, log: &str) -> Result<String, Fail> {
    let mut text = String::new(alloc);
    for line in log.lines() {
        let line = line.split_once(",\"time\"").map_or(line, |parts| parts.0);
        text.push_str(line)?;
        text.push('\n')?;
    }
    Ok(text)
}

const LOGGED: &str =
    r#"{"bytes":90,"cycle":1,"lines":4,"night":10,"part":2,"program":"abc","root":"/srv/ocfl","row":"began","stands":"after o"
{"cycle":1,"night":10,"place":"b","row":"left"
{"cycle":1,"night":10,"place":"d e","row":"left"
"#;

#[test]
fn a_night_logs_where_it_begins_and_what_it_leaves_out(rt: HostRuntime) -> Result<(), Fail> {
    let alloc = rt.alloc();
    let known = Known::new(alloc);
    let mut noting = open_noting(&rt, about("noted", &known), true).or(Err("not opened"))?;
    assert_eq!(rt; noting.began().runs, 0);
    put(alloc, &mut noting, 1, &[])?;
    put(alloc, &mut noting, 2, &["b"])?;
    put(alloc, &mut noting, 3, &["b"])?;
    put(alloc, &mut noting, 4, &["b", "d e"])?;
    let log = fs::read_to_string(&rt, "noted/log")?;
    assert_eq!(rt; untimed(alloc, log.as_str())?.as_str(), LOGGED);
    Ok(())
}

const ENDED: &str = r#"{"night":10,"row":"refusal","said":"stopped.%0A","status":1,"time":90}
{"cost":14,"findings":0,"left":1,"night":10,"program":"abc","row":"night","runs":2,"seconds":80,"status":1,"time":90}
"#;

/// What the runs of a night came to that left one branch out.
fn runs_of(alloc: Global, totals: Totals) -> Result<Runs, Fail> {
    let mut left = Vec::new(alloc);
    left.push(place_of(alloc, "b")?)?;
    Ok(Runs {
        end: NightEnd {
            runs: 2,
            lost: false,
            left,
            end: Halt::TimeUp,
        },
        why: None,
        totals,
    })
}

#[test]
fn a_night_is_logged_with_why_it_stopped(rt: HostRuntime) -> Result<(), Fail> {
    let alloc = rt.alloc();
    let known = Known::new(alloc);
    let about = about("ended", &known);
    let mut noting = open_noting(&rt, about, true).or(Err("not opened"))?;
    let log = SystemLog::at(&rt, "ended")?;
    let Beside {
        journal,
        speaker,
        ..
    } = noting.beside(about, log)?;
    put(alloc, &mut noting, 2, &["b"])?;
    fs::remove_file(&rt, "ended/log")?;
    let runs = runs_of(alloc, noting.totals_by(speaker, &journal))?;
    assert!(rt; runs.said(alloc, about.names, None)?.is_none());
    let said = Some(String::from_str(alloc, "stopped.\n")?);
    let ended = runs.ended(&said);
    assert_eq!(rt;
        (ended.closed, ended.is_logged, ended.is_lost),
        (Some(0), true, false)
    );
    let status = runs.status(1);
    assert_eq!(rt; status, 3);
    let mut folder = end_night(&rt, alloc, "ended", noting, ended)?;
    assert_eq!(rt; folder.before, 0);
    assert_eq!(rt; log_ended(&rt, alloc, &mut folder, about, ended, 1, 90), 1);
    let log = fs::read_to_string(&rt, "ended/log")?;
    assert_eq!(rt; log.as_str(), ENDED);
    Ok(())
}

const RUN: &str =
    r#"{"bytes":90,"cost":7,"cycle":1,"files":3,"lines":4,"night":10,"row":"slice","run":3,"seconds":0,"spent":21,"stands":"after o","status":1,"time":18446744073709551615}
"#;

#[test]
fn runs_are_logged_from_when_they_began(rt: HostRuntime) -> Result<(), Fail> {
    let alloc = rt.alloc();
    let known = Known::new(alloc);
    let about = about("runs", &known);
    let mut noting = open_noting(&rt, about, true).or(Err("not opened"))?;
    let log = SystemLog::at(&rt, "runs")?;
    let mut runs = RunLog::of(noting.beside(about, log)?.journal, 10);
    runs.note_time(u64::MAX);
    let made = Made {
        checkpoint: checkpoint(alloc, 3, &[])?,
        spent: 7,
        files: 1,
        found: true,
        end: SliceEnd::Spent,
    };
    runs.note_run(&made, 1);
    let log = fs::read_to_string(&rt, "runs/log")?;
    assert_eq!(rt; log.as_str(), RUN);
    let _ = runs.journal();
    Ok(())
}

#[test]
fn a_night_that_did_not_begin_is_logged_if_its_root_is_read(rt: HostRuntime) -> Result<(), Fail> {
    let alloc = rt.alloc();
    let known = Known::new(alloc);
    let mut noting = open_noting(&rt, about("unbegun", &known), true).or(Err("not opened"))?;
    put(alloc, &mut noting, 1, &[])?;
    drop(noting);
    fs::remove_file(&rt, "unbegun/log")?;
    let failure = Failure::stopped(String::from_str(alloc, "gone\n")?);
    log_unbegun(&rt, "unbegun", "/srv/other", 10, &failure, "abc");
    assert!(rt; !fs::exists(&rt, "unbegun/log")?);
    let usage = Failure::usage(String::from_str(alloc, "no such part\n")?);
    log_unbegun(&rt, "unbegun", "/srv/ocfl", 10, &usage, "abc");
    assert!(rt; !fs::exists(&rt, "unbegun/log")?);
    log_unbegun(&rt, "unbegun", "/srv/ocfl/", 10, &failure, "abc");
    let log = fs::read_to_string(&rt, "unbegun/log")?;
    let first = r#"{"night":10,"row":"refusal","said":"gone%0A","status":3,"time":"#;
    assert!(rt; log.as_str().starts_with(first), "{log}");
    assert_eq!(rt; say_if_failed(&rt, Err(failure)), 3);
    assert_eq!(rt; say_if_failed(&rt, Ok(1)), 1);
    Ok(())
}
