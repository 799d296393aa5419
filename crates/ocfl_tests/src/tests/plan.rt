//! From what is asked of a night to what it does, over clocks and outputs in memory. The ends, and
//! what a run may spend, are those of the manual page.
ghost use Rattle.std.specs.Prelude.{None, ⊤};

use crate::tests::common::digests::lines_of;
use crate::tests::common::output::Narrow;
use crate::tests::common::roots::three_files;
use crate::tests::common::store::place_of;
use ocfl_arguments::{Chosen, NightAsked, NightBounds, Until};
use ocfl_cursor::{Budget, State};
use ocfl_digest::Block;
use ocfl_mem_clock::{Answered, Course, MemStopCalls};
use ocfl_night::{Site, night};
use ocfl_plan::{
    Budgeted, Hearing, Listener, Message, StopFile, Telling, closed_by, is_kept, is_logged,
    night_status, plan_of, run_status,
};
use ocfl_report::Further;
use ocfl_state::MemState;
use ocfl_terms::{Clock, Flushing, Halt, Made, NightEnd, Output, OutputFailed, Refusal};
use ocfl_tree::Place;
use std::alloc::Global;
use std::io::Write;
use std::test::Fail;

/// A night without options, whose runs may spend all that a budget can be.
fn asked(alloc: Global) -> Result<NightAsked, Fail> {
    Ok(NightAsked {
        state: String::from_str(alloc, "/state")?,
        root: String::from_str(alloc, "/root")?,
        bounds: NightBounds {
            budget: None,
            files: None,
            slice: None,
            until: Until::Never,
            every: None,
        },
        chosen: Chosen::All,
        further: Further::Nothing,
        known: None,
        expected: None,
        create: false,
        force_root: false,
        stop_at_faults: false,
    })
}

/// What is asked for, when the clock shows its time, and the end of a night that began at 1,000.
const ENDS: [(&str, Until, Option<u64>, Option<u64>); 6] = [
    ("never", Until::Never, None, None),
    ("two hours", Until::Hours(2), None, Some(8_200)),
    ("at a second", Until::At(999), None, Some(999)),
    (
        "at half past five",
        Until::TimeOfDay {
            hour: 5,
            minute: 30,
        },
        Some(4_242),
        Some(4_242),
    ),
    (
        "at a time that no clock shows",
        Until::TimeOfDay {
            hour: 5,
            minute: 30,
        },
        None,
        Some(0),
    ),
    ("a day", Until::Hours(24), None, Some(87_400)),
];

// Fails if hours are minutes.
#[test]
fn a_night_ends_when_it_is_asked_to(rt: HostRuntime) -> Result<(), Fail> {
    for (row, until, shown, end) in ENDS {
        let mut asked = asked(rt.alloc())?;
        asked.bounds.until = until;
        assert_eq!(rt; plan_of(&asked, 1_000, shown, false).end, end, "{row}");
        assert_eq!(rt; plan_of(&asked, 1_000, shown, true).end, Some(0), "{row}");
    }
    Ok(())
}

/// A budget of so much, if that is one.
fn budget(most: u64) -> Option<Budget> {
    Budget::new(most)
}

// Fails if a run may spend 1 GiB in a night that may spend less.
#[test]
fn a_run_spends_no_more_than_the_night(rt: HostRuntime) -> Result<(), Fail> {
    let gibibyte = 1_073_741_824;
    let rows = [
        ("neither", None, None, gibibyte),
        ("a small budget", budget(100), None, 100),
        ("a large budget", budget(5 * gibibyte), None, gibibyte),
        ("a slice", None, budget(7), 7),
        ("both", budget(100), budget(7), 7),
    ];
    for (row, all, slice, most) in rows {
        let mut asked = asked(rt.alloc())?;
        asked.bounds.budget = all;
        asked.bounds.slice = slice;
        let plan = plan_of(&asked, 0, None, false);
        assert_eq!(rt; Some(plan.slice_budget), budget(most), "{row}");
        assert_eq!(rt; plan.slice_files, 20_000, "{row}");
    }
    Ok(())
}

// Fails if two of the options are exchanged.
#[test]
fn each_option_reaches_the_plan(rt: HostRuntime) -> Result<(), Fail> {
    for chosen in 0..3 {
        let mut asked = asked(rt.alloc())?;
        asked.create = chosen == 0;
        asked.force_root = chosen == 1;
        asked.stop_at_faults = chosen == 2;
        asked.bounds.files = Some(5);
        let plan = plan_of(&asked, 0, None, false);
        assert_eq!(rt; plan.create, chosen == 0);
        assert_eq!(rt; plan.force_root, chosen == 1);
        assert_eq!(rt; plan.stop_at_faults, chosen == 2);
        assert_eq!(rt; plan.files, Some(5));
    }
    Ok(())
}

/// The clock of a night that begins at second 11. It goes on by a second each time it is read, and
/// by a minute with each run. It stops the night after so many questions.
fn ticking(alloc: Global, stops_after: u64) -> StopFile<MemStopCalls> {
    let course = Course {
        time: Some(11),
        per_reading: 1,
        per_run: 60,
        asked_after: stops_after,
    };
    StopFile::over(MemStopCalls::new(alloc, course))
}

/// The times that a clock showed last before each run, and what the runs were.
#[derive(Drop)]
struct Heard {
    time: u64,
    times: Vec<u64>,
    costs: Vec<u64>,
    statuses: Vec<u8>,
    kept: u64,
}

impl Listener for Heard {
    fn note_time(&mut self, now: u64) {
        self.time = now;
    }

    fn note_run(&mut self, made: &Made, status: u8) {
        let _ = self.times.push(self.time);
        let _ = self.costs.push(made.spent);
        let _ = self.statuses.push(status);
        self.kept = self.kept.saturating_add(u64::from(is_kept(made)));
    }
}

type Watch = Hearing<Budgeted<StopFile<MemStopCalls>>, Heard>;

/// The clock of a night that is asked for, which stops it after so many questions.
fn watch(alloc: Global, asked: &NightAsked, stops_after: u64) -> Watch {
    Hearing {
        clock: Budgeted::of(asked, ticking(alloc, stops_after)),
        listener: Heard {
            time: 0,
            times: Vec::new(alloc),
            costs: Vec::new(alloc),
            statuses: Vec::new(alloc),
            kept: 0,
        },
    }
}

/// Makes a night over the root of three files, which cost 4, 1 and 4, one a run.
fn night_by<C: Clock, O: Output>(
    alloc: Global,
    asked: &NightAsked,
    clock: &mut C,
    out: &mut O,
) -> Result<NightEnd, Fail> {
    let mut folder = MemState::new(alloc);
    let mut tree = three_files(alloc)?;
    let mut block = Block::new(alloc)?;
    let mut plan = plan_of(asked, 0, None, false);
    plan.slice_files = 1;
    let site = Site {
        path: place_of(alloc, "srv/ocfl")?,
        ends: None,
        further: asked.further,
    };
    Ok(night(
        alloc,
        &mut folder,
        &mut tree,
        &site,
        &plan,
        clock,
        &mut block,
        out,
    ))
}

// Fails if a budget ends no night, if a clock is not asked, and if a run is not heard of.
#[test]
fn a_night_ends_once_its_budget_is_spent(rt: HostRuntime) -> Result<(), Fail> {
    let alloc = rt.alloc();
    for (row, most, stops_after, costs) in [
        ("a budget of two files", 5, 9, &[4, 1][..]),
        ("a budget of one file", 4, 9, &[4][..]),
        ("the clock stops it first", 5, 1, &[4][..]),
        ("a budget of them all", 10, 9, &[4, 1, 4][..]),
    ] {
        let mut asked = asked(alloc)?;
        asked.create = true;
        asked.bounds.budget = budget(most);
        let mut clock = watch(alloc, &asked, stops_after);
        let mut said = Vec::new(alloc);
        let end = night_by(alloc, &asked, &mut clock, &mut Flushing::over(&mut said))?;
        let is_whole = costs.len() == 3;
        assert_eq!(rt; matches!(end.end, Halt::Asked), !is_whole, "{row}");
        assert_eq!(rt; matches!(end.end, Halt::CycleEnded(1)), is_whole, "{row}");
        assert_eq!(rt; clock.listener.costs.as_slice(), costs, "{row}");
        assert_eq!(rt; clock.listener.kept, costs.len() as u64, "{row}");
        assert_eq!(rt; clock.clock.spent(), costs.iter().sum::<u64>(), "{row}");
        let statuses = clock.listener.statuses.as_slice();
        assert_eq!(rt; statuses, &[0, 0, 0][..costs.len()], "{row}");
        let times = clock.listener.times.as_slice();
        assert_eq!(rt; times, &[11, 72, 133][..costs.len()], "{row}");
    }
    Ok(())
}

/// Messages that have what was given, each in brackets.
#[derive(Drop)]
struct Bracketed {
    given: Vec<u8>,
    /// How many of these bytes were said.
    said: usize,
}

impl Message for Bracketed {
    ghost given = { λ _. None };

    ghost said = { λ _. None };

    ghost words = { λ _ _. ⊤ };

    fn take(&mut self, bytes: &[u8]) -> Result<(), OutputFailed> {
        self.given.extend_from_slice(bytes).or(Err(OutputFailed))
    }

    fn message(&mut self) -> Result<Vec<u8>, OutputFailed> {
        let mut text = Vec::new(*self.given.allocator());
        let rest = &self.given[self.said.min(self.given.len())..];
        for piece in [&b"["[..], rest, &b"]"[..]] {
            text.extend_from_slice(piece).or(Err(OutputFailed))?;
        }
        Ok(text)
    }

    fn end(&mut self) {
        self.said = self.given.len();
    }
}

fn nothing_given(alloc: Global) -> Bracketed {
    Bracketed {
        given: Vec::new(alloc),
        said: 0,
    }
}

// Fails if a message is not written, and if what was said is said again.
#[test]
fn a_message_is_said_at_each_commit(rt: HostRuntime) -> Result<(), Fail> {
    let mut said = Vec::new(rt.alloc());
    let mut out = Telling::over(nothing_given(rt.alloc()), &mut said);
    for text in [&b"one"[..], &b" two"[..]] {
        assert!(rt; out.give(text).is_ok());
    }
    assert!(rt; out.commit().is_ok());
    assert!(rt; out.give(b"three").is_ok());
    assert!(rt; out.commit().is_ok());
    let message = out.into_message();
    assert_eq!(rt; message.said, 12);
    assert_eq!(rt; said.as_slice(), b"[one two][three]".as_slice());
    Ok(())
}

// Fails if what an output did not take whole is committed.
#[test]
fn what_an_output_did_not_take_is_not_said(rt: HostRuntime) -> Result<(), Fail> {
    let mut narrow = Narrow::new(rt.alloc(), 4);
    let mut out = Telling::over(nothing_given(rt.alloc()), &mut narrow);
    assert!(rt; out.give(b"one two").is_ok());
    assert!(rt; out.commit().is_err());
    let message = out.into_message();
    assert_eq!(rt; message.said, 0);
    assert_eq!(rt; narrow.kept.as_slice(), b"[one".as_slice());
    Ok(())
}

// Fails if bytes that are given go nowhere.
#[test]
fn a_night_tells_its_whole_report(rt: HostRuntime) -> Result<(), Fail> {
    let alloc = rt.alloc();
    let mut asked = asked(alloc)?;
    asked.create = true;
    let mut clock = watch(alloc, &asked, 9);
    let mut said = Vec::new(alloc);
    let mut out = Telling::over(nothing_given(alloc), &mut said);
    let end = night_by(alloc, &asked, &mut clock, &mut out)?;
    assert!(rt; matches!(end.end, Halt::CycleEnded(1)));
    let message = out.into_message();
    let report = lines_of(
        alloc,
        "ok|.|-\nok|o|-\nok|o/v1/content/a|3\nok|o/v1/content/b|0\nok|o/v1/content/c|3\n",
    )?;
    assert_eq!(rt; message.given.as_slice(), report.as_bytes());
    assert_eq!(rt; message.said, report.as_bytes().len());
    Ok(())
}

/// A night that ended so and left these branches out.
fn ended(alloc: Global, end: Halt, lost: bool, left: &[&str]) -> Result<NightEnd, Fail> {
    let mut branches: Vec<Place> = Vec::new(alloc);
    for path in left {
        branches.push(place_of(alloc, path)?)?;
    }
    Ok(NightEnd {
        runs: 1,
        lost,
        left: branches,
        end,
    })
}

// Fails if a broken line, a lost report, or a branch that is left out counts nothing.
#[test]
fn a_night_that_lacks_something_ends_with_3(rt: HostRuntime) -> Result<(), Fail> {
    for (row, broken, lost, left, status) in [
        ("nothing", 0, false, &[][..], 0),
        ("a broken line", 1, false, &[][..], 3),
        ("a lost report", 0, true, &[][..], 3),
        ("a branch", 0, false, &["a"][..], 3),
    ] {
        let end = ended(rt.alloc(), Halt::Asked, lost, left)?;
        assert_eq!(rt; night_status(&end, broken, 0, 0), status, "{row}");
        assert_eq!(rt; night_status(&end, broken, 1, 1), status.max(1), "{row}");
    }
    Ok(())
}

// Fails if findings or closed cycles count nothing.
#[test]
fn a_night_ends_with_the_gravest_of_what_it_said(rt: HostRuntime) -> Result<(), Fail> {
    let end = ended(rt.alloc(), Halt::CycleEnded(4), false, &[])?;
    for (row, findings, closings, status) in [
        ("nothing", 0, 0, 0),
        ("findings", 2, 0, 1),
        ("news of a cycle", 0, 1, 1),
        ("a cycle left out", 1, 3, 3),
    ] {
        assert_eq!(rt; night_status(&end, 0, findings, closings), status, "{row}");
    }
    Ok(())
}

// Fails if a night that stopped ends as one that ended as it may.
#[test]
fn a_night_ends_with_the_status_of_its_end(rt: HostRuntime) -> Result<(), Fail> {
    let alloc = rt.alloc();
    let rows = [
        ("at its end", ended(alloc, Halt::TimeUp, false, &[])?, 0),
        ("with its files", ended(alloc, Halt::Spent, false, &[])?, 0),
        (
            "over another root",
            ended(alloc, Halt::RootChanged, false, &[])?,
            3,
        ),
        (
            "refused",
            ended(alloc, Halt::Refused(Refusal::NoRoot), false, &[])?,
            3,
        ),
    ];
    for (row, end, status) in &rows {
        assert_eq!(rt; night_status(end, 0, 0, 0), *status, "{row}");
    }
    Ok(())
}

// Fails if another's log is written, and if a night closes a report that it did not.
#[test]
fn a_refused_night_leaves_anothers_log(rt: HostRuntime) -> Result<(), Fail> {
    let other = Halt::Refused(Refusal::OtherRoot(place_of(rt.alloc(), "x")?));
    let rows = [
        ("of another root", other, false, None),
        (
            "of another part",
            Halt::Refused(Refusal::OtherPart),
            false,
            None,
        ),
        (
            "of another audit",
            Halt::Refused(Refusal::OtherAudit(Further::Inventories)),
            false,
            None,
        ),
        ("of no root", Halt::Refused(Refusal::NoRoot), true, None),
        (
            "of an older folder",
            Halt::Refused(Refusal::Older(3)),
            true,
            None,
        ),
        ("in time", Halt::TimeUp, true, Some(0)),
        ("with its cycle", Halt::CycleEnded(7), true, Some(7)),
    ];
    for (row, halt, logged, closed) in &rows {
        assert_eq!(rt; is_logged(halt), *logged, "{row}");
        assert_eq!(rt; closed_by(halt), *closed, "{row}");
    }
    Ok(())
}

// Fails if a file that is there stops no night, or a clock that cannot be read shows an early time.
#[test]
fn a_file_stops_a_night(rt: HostRuntime) -> Result<(), Fail> {
    for (row, time, asked_after, now) in [
        ("a clock", Some(7), 1, 7),
        ("a clock that cannot be read", None, 1, u64::MAX),
        ("a file that is there", Some(9), 0, 9),
    ] {
        let course = Course {
            time,
            per_reading: 0,
            per_run: 0,
            asked_after,
        };
        let mut clock = StopFile::over(MemStopCalls::new(rt.alloc(), course));
        assert_eq!(rt; clock.now(), now, "{row}");
        assert_eq!(rt; clock.is_stopped(), asked_after == 0, "{row}");
    }
    Ok(())
}

/// A line for each answer of calls in memory; of a run its cost, and the place that it ended after.
fn answers_of(alloc: Global, calls: &MemStopCalls) -> Result<String, Fail> {
    let mut text = String::new(alloc);
    for answer in calls.answers() {
        let line = match answer {
            Answered::Seconds(Some(time)) => format!(in alloc; "shows {time}\n")?,
            Answered::Seconds(None) => format!(in alloc; "shows nothing\n")?,
            Answered::HasStop(is_there) => format!(in alloc; "stops {is_there}\n")?,
            Answered::Ran(made) => {
                let state = made.checkpoint.cursor.state();
                let path = match state {
                    State::After(place) => place.path(),
                    State::Start => "the start",
                    State::Ended => "the end",
                };
                format!(in alloc; "ran {} {path}\n", made.spent)?
            }
        };
        text.push_str(line.as_str())?;
    }
    Ok(text)
}

// Fails if an answer or a run is not kept, or is kept as another one.
#[test]
fn calls_in_memory_tell_what_they_answered(rt: HostRuntime) -> Result<(), Fail> {
    let alloc = rt.alloc();
    let mut asked = asked(alloc)?;
    asked.create = true;
    let mut clock = ticking(alloc, 2);
    let mut said = Vec::new(alloc);
    let end = night_by(alloc, &asked, &mut clock, &mut Flushing::over(&mut said))?;
    assert!(rt; matches!(end.end, Halt::Asked));
    let calls = clock.into_calls();
    assert!(rt; calls.is_told());
    let wanted = "stops false\nshows 11\nran 4 o/v1/content/a\nstops false\nshows 72\n\
                  ran 1 o/v1/content/b\nstops true\n";
    assert_eq!(rt; answers_of(alloc, &calls)?.as_str(), wanted);
    Ok(())
}
