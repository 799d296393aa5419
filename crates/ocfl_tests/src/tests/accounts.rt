//! Which closed cycles are said, and what each is compared with.
use crate::tests::common::store::place_of;
use ocfl_accounts::{
    ClosedCycle, ClosingStop, Closings, MemClosings, MemCycle, find_earlier, find_pair,
    find_unsaid, say_cycle, say_cycles, status_of,
};
use ocfl_say::MemOutput;
use ocfl_tree::Place;
use std::alloc::Global;
use std::test::Fail;

/// What is there of a cycle: a whole report, one that lost lines, one that left a place out; or
/// none, of a whole report, of one that lost lines, or of one that left a place out.
#[derive(Clone, Copy, PartialEq, Eq)]
enum Kept {
    Whole,
    Lost,
    Left(&'static str),
    Away,
    AwayLost,
    AwayLeft,
}

impl Kept {
    fn is_there(&self) -> bool {
        matches!(self, Kept::Whole | Kept::Lost | Kept::Left(_))
    }

    fn is_whole(&self) -> bool {
        matches!(self, Kept::Whole | Kept::Away)
    }
}

/// A cycle, with a report of these lines if it is there.
fn cycle_of(alloc: Global, cycle: u64, kept: Kept, lines: &str) -> Result<MemCycle, Fail> {
    let mut left = Vec::new(alloc);
    if let Kept::Left(path) = kept {
        left.push(place_of(alloc, path)?)?;
    }
    let is_lost = matches!(kept, Kept::Lost | Kept::AwayLost);
    Ok(MemCycle {
        closed: ClosedCycle::new(cycle, kept.is_whole(), is_lost, left),
        report: if kept.is_there() {
            Some(Vec::from_slice(alloc, lines.as_bytes())?)
        } else {
            None
        },
    })
}

/// Cycles from 1 on, of which each has an object of its own alone.
fn cycles_of(alloc: Global, all: &[Kept]) -> Result<MemClosings, Fail> {
    let mut cycles = Vec::new(alloc);
    for kept in all {
        let number = cycles.len() as u64 + 1;
        let lines = format!(in alloc; "ok\t.\t-\nok\to{number}\t-\n")?;
        cycles.push(cycle_of(alloc, number, *kept, lines.as_str())?)?;
    }
    Ok(MemClosings::new(alloc, cycles, None))
}

/// The numbers of the cycles whose account was put.
fn put_in(alloc: Global, closings: &MemClosings) -> Result<Vec<u64>, Fail> {
    let mut numbers = Vec::new(alloc);
    for account in closings.accounts() {
        numbers.push(account.cycle)?;
    }
    Ok(numbers)
}

/// The cycles that one is compared with: the last one that lost nothing, and the last one whole;
/// and the last one that is missing before each.
const EARLIER: [(&[Kept], u64, [Option<u64>; 4]); 9] = [
    (&[], 1, [None, None, None, None]),
    (&[Kept::Whole], 2, [Some(1), None, Some(1), None]),
    (&[Kept::Away], 2, [None, Some(1), None, Some(1)]),
    (&[Kept::AwayLost], 2, [None, None, None, None]),
    (&[Kept::AwayLeft], 2, [None, Some(1), None, None]),
    (
        &[Kept::Away, Kept::AwayLeft, Kept::Left("p")],
        4,
        [Some(3), None, None, Some(1)],
    ),
    (
        &[Kept::Whole, Kept::Left("p"), Kept::Lost],
        4,
        [Some(2), None, Some(1), None],
    ),
    (
        &[
            Kept::Whole,
            Kept::Away,
            Kept::Left("p"),
            Kept::Away,
            Kept::Away,
        ],
        6,
        [Some(3), Some(5), Some(1), Some(5)],
    ),
    (&[Kept::Whole, Kept::Whole], 0, [None, None, None, None]),
];

#[test]
fn a_cycle_is_compared_with_the_last_report_that_lost_nothing(rt: HostRuntime) -> Result<(), Fail> {
    let alloc = rt.alloc();
    for (kept, cycle, wanted) in EARLIER {
        let mut cycles = cycles_of(alloc, kept)?;
        let any = find_earlier(&mut cycles, cycle, false)?;
        let whole = find_earlier(&mut cycles, cycle, true)?;
        let found = [
            any.found.as_ref().map(|found| found.cycle()),
            any.missing,
            whole.found.as_ref().map(|found| found.cycle()),
            whole.missing,
        ];
        assert_eq!(rt; found, wanted, "{cycle}");
    }
    Ok(())
}

#[test]
fn places_left_out_before_are_compared_with_the_last_whole_report(
    rt: HostRuntime,
) -> Result<(), Fail> {
    let alloc = rt.alloc();
    let kept: &[Kept] = &[Kept::Whole, Kept::Left("p/q"), Kept::Left("p")];
    let mut cycles = cycles_of(alloc, kept)?;
    let now = ClosedCycle::new(4, true, false, Vec::new(alloc));
    assert_eq!(rt;
        (now.is_whole(), now.is_lost(), now.left().len()),
        (true, false, 0)
    );
    let pair = find_pair(alloc, &mut cycles, now)?;
    assert_eq!(rt; pair.before.as_ref().map(|before| before.cycle()), Some(3));
    assert_eq!(rt; pair.again.as_slice(), [place_of(alloc, "p")?].as_slice());
    assert_eq!(rt; pair.whole.as_ref().map(|whole| whole.cycle()), Some(1));
    assert_eq!(rt; (pair.lacks(), pair.waits()), (false, false));
    assert_eq!(rt; (status_of(&pair, true), status_of(&pair, false)), (1, 0));
    // What this one left out too is not compared.
    let mut left = Vec::new(alloc);
    left.push(place_of(alloc, "p")?)?;
    let pair = find_pair(alloc, &mut cycles, ClosedCycle::new(4, false, false, left))?;
    assert_eq!(rt; (pair.again.len(), pair.whole.is_none()), (0, true));
    assert_eq!(rt; status_of(&pair, false), 3);
    // One that lost lines is not compared.
    let lost = ClosedCycle::new(4, false, true, Vec::new(alloc));
    let pair = find_pair(alloc, &mut cycles, lost)?;
    assert_eq!(rt; (pair.before.is_none(), pair.waits()), (true, false));
    Ok(())
}

#[test]
fn no_whole_report_is_missed_if_none_was_whole(rt: HostRuntime) -> Result<(), Fail> {
    let alloc = rt.alloc();
    for (oldest, is_missed) in [(Kept::AwayLeft, false), (Kept::Away, true)] {
        let mut cycles = cycles_of(alloc, &[oldest, Kept::Left("q")])?;
        let now = ClosedCycle::new(3, true, false, Vec::new(alloc));
        let pair = find_pair(alloc, &mut cycles, now)?;
        assert_eq!(rt; pair.before.as_ref().map(|before| before.cycle()), Some(2));
        assert_eq!(rt; pair.again.as_slice(), [place_of(alloc, "q")?].as_slice());
        assert_eq!(rt; pair.lacks(), is_missed);
        assert_eq!(rt; status_of(&pair, false), if is_missed { 3 } else { 0 });
    }
    Ok(())
}

#[test]
fn a_closing_is_said_once(rt: HostRuntime) -> Result<(), Fail> {
    let alloc = rt.alloc();
    let mut cycles = cycles_of(alloc, &[Kept::Whole, Kept::Whole, Kept::Away])?;
    let mut out = MemOutput::new(alloc);
    out.fail_call(1, 0);
    let failed = say_cycle(alloc, &mut cycles, 2, &mut out);
    assert_eq!(rt; failed, Err(ClosingStop::Output));
    assert_eq!(rt; cycles.accounts().len(), 0);
    assert_eq!(rt; say_cycle(alloc, &mut cycles, 2, &mut out), Ok(1));
    assert_eq!(rt; say_cycle(alloc, &mut cycles, 2, &mut out), Ok(0));
    assert_eq!(rt; say_cycle(alloc, &mut cycles, 3, &mut out), Ok(0));
    assert_eq!(rt; out.text(), [2, 1].as_slice());
    assert_eq!(rt; put_in(alloc, &cycles)?.as_slice(), [2].as_slice());
    // It can be compared once a report is back.
    let mut cycles = cycles_of(alloc, &[Kept::Away, Kept::Whole])?;
    assert_eq!(rt; say_cycle(alloc, &mut cycles, 2, &mut out), Ok(3));
    assert_eq!(rt; cycles.accounts().len(), 0);
    assert_eq!(rt; out.text(), [2, 1, 2, 0].as_slice());
    Ok(())
}

#[test]
fn closings_are_said_in_order(rt: HostRuntime) -> Result<(), Fail> {
    let alloc = rt.alloc();
    let kept: &[Kept] = &[Kept::Whole, Kept::Away, Kept::Whole, Kept::Whole];
    let mut cycles = cycles_of(alloc, kept)?;
    let mut out = MemOutput::new(alloc);
    assert_eq!(rt; say_cycles(alloc, &mut cycles, 3, 3, &mut out), 0);
    assert_eq!(rt; cycles.accounts().len(), 0);
    // The report of cycle 2 is not there, with which cycle 3 is to be compared.
    assert_eq!(rt; say_cycles(alloc, &mut cycles, 1, 5, &mut out), 3);
    assert_eq!(rt; put_in(alloc, &cycles)?.as_slice(), [1, 3, 4].as_slice());
    assert_eq!(rt; out.text(), [1, 0, 3, 1, 4, 1].as_slice());
    assert_eq!(rt; say_cycles(alloc, &mut cycles, 1, 5, &mut out), 0);
    // One that fails does not keep those after it from being said.
    let mut cycles = cycles_of(alloc, kept)?;
    out.fail_call(2, 1);
    assert_eq!(rt; say_cycles(alloc, &mut cycles, 1, 5, &mut out), 3);
    assert_eq!(rt; put_in(alloc, &cycles)?.as_slice(), [1, 4].as_slice());
    assert_eq!(rt; out.text(), [1, 0, 3, 1, 4, 1, 1, 0, 3, 4, 1].as_slice());
    Ok(())
}

/// Five cycles, of which the third has no report.
fn five_cycles(alloc: Global) -> Result<MemClosings, Fail> {
    let kept: &[Kept] = &[
        Kept::Whole,
        Kept::Whole,
        Kept::Away,
        Kept::Whole,
        Kept::Whole,
    ];
    cycles_of(alloc, kept)
}

/// What is found of those before a cycle.
fn first_before(cycles: &mut MemClosings, cycle: u64) -> Result<u64, ClosingStop> {
    let mut first = cycle;
    find_unsaid(cycles, &mut first)?;
    Ok(first)
}

#[test]
fn those_before_a_cycle_that_were_not_said_are_found(rt: HostRuntime) -> Result<(), Fail> {
    let mut cycles = five_cycles(rt.alloc())?;
    for (cycle, wanted) in [
        (0, 0),
        (1, 1),
        (2, 1),
        (4, 1),
        (9, 1),
        (1_001, 1),
        (1_005, 5),
        (1_006, 1_006),
    ] {
        assert_eq!(rt; first_before(&mut cycles, cycle), Ok(wanted), "{cycle}");
    }
    Ok(())
}

#[test]
fn what_was_said_or_is_not_there_is_passed_over(rt: HostRuntime) -> Result<(), Fail> {
    let alloc = rt.alloc();
    let mut cycles = five_cycles(alloc)?;
    let mut out = MemOutput::new(alloc);
    assert_eq!(rt; say_cycle(alloc, &mut cycles, 1, &mut out), Ok(0));
    assert_eq!(rt; first_before(&mut cycles, 3), Ok(2));
    assert_eq!(rt; say_cycle(alloc, &mut cycles, 2, &mut out), Ok(1));
    for (cycle, wanted) in [(3, 3), (4, 4), (9, 4)] {
        assert_eq!(rt; first_before(&mut cycles, cycle), Ok(wanted), "{cycle}");
    }
    // A failure ends it at the cycle that it looked at: two accounts, and of cycle 3 no report.
    cycles.fail_call(4, false);
    let mut first = 6;
    assert_eq!(rt;
        find_unsaid(&mut cycles, &mut first),
        Err(ClosingStop::Failed)
    );
    assert_eq!(rt; first, 3);
    Ok(())
}

/// What a night says that closed a cycle, after this one.
fn say_night(alloc: Global, cycles: &mut MemClosings, before: u64, out: &mut MemOutput) -> u8 {
    let mut first = before;
    let _ = find_unsaid(cycles, &mut first);
    say_cycles(alloc, cycles, first, before + 2, out)
}

#[test]
fn a_closing_that_failed_is_said_later(rt: HostRuntime) -> Result<(), Fail> {
    let alloc = rt.alloc();
    let mut cycles = cycles_of(alloc, [Kept::Whole; 7].as_slice())?;
    let mut out = MemOutput::new(alloc);
    assert_eq!(rt; say_cycles(alloc, &mut cycles, 1, 4, &mut out), 1);
    // Cycle 4 fails in three nights, of which two close and say others.
    for before in [3, 4, 5] {
        out.fail_call(1, 0);
        assert_eq!(rt;
            say_night(alloc, &mut cycles, before, &mut out),
            3,
            "{before}"
        );
    }
    assert_eq!(rt;
        put_in(alloc, &cycles)?.as_slice(),
        [1, 2, 3, 5, 6].as_slice()
    );
    assert_eq!(rt; say_night(alloc, &mut cycles, 6, &mut out), 1);
    assert_eq!(rt;
        put_in(alloc, &cycles)?.as_slice(),
        [1, 2, 3, 5, 6, 4, 7].as_slice()
    );
    assert_eq!(rt; &out.text()[10..], [4, 1, 7, 1].as_slice());
    Ok(())
}

#[test]
fn a_search_that_fails_costs_no_closing(rt: HostRuntime) -> Result<(), Fail> {
    let alloc = rt.alloc();
    for number in 1..=CALLS {
        let mut cycles = cycles_of(alloc, [Kept::Whole; 3].as_slice())?;
        let mut out = MemOutput::new(alloc);
        assert_eq!(rt; say_cycle(alloc, &mut cycles, 2, &mut out), Ok(1));
        cycles.fail_call(number, false);
        let _ = say_night(alloc, &mut cycles, 3, &mut out);
        cycles.fail_none();
        let _ = say_night(alloc, &mut cycles, 4, &mut out);
        assert_eq!(rt; cycles.accounts().len(), 3, "{number}");
    }
    Ok(())
}

/// Two branches, of which the second cycle left one out, and the third none; and a list with an
/// object that is in no report.
const BRANCHES: [(Kept, &str); 3] = [
    (Kept::Whole, "ok\t.\t-\nok\ta/o\t-\nok\tb/o\t-\n"),
    (Kept::Left("b"), "ok\t.\t-\nok\ta/o\t-\n"),
    (Kept::Whole, "ok\t.\t-\nE060\ta/o\tsha512 aa bb\n"),
];

#[test]
fn an_account_has_all_that_a_cycle_found(rt: HostRuntime) -> Result<(), Fail> {
    let alloc = rt.alloc();
    let mut cycles = Vec::new(alloc);
    for (kept, lines) in BRANCHES {
        let number = cycles.len() as u64 + 1;
        cycles.push(cycle_of(alloc, number, kept, lines)?)?;
    }
    let mut listed: Vec<Place> = Vec::new(alloc);
    for path in ["c/o", "a/o"] {
        listed.push(place_of(alloc, path)?)?;
    }
    let mut closings = MemClosings::new(alloc, cycles, Some(listed));
    let mut out = MemOutput::new(alloc);
    assert_eq!(rt; say_cycles(alloc, &mut closings, 1, 4, &mut out), 3);
    let mut all = Vec::new(alloc);
    for account in closings.accounts() {
        all.extend_from_slice(format!(in alloc; "{}:\n", account.cycle)?.as_bytes())?;
        all.extend_from_slice(&account.list)?;
    }
    assert_eq!(rt;
        all.as_slice(),
        b"1:\nexpected\tc/o\n2:\nexpected\tc/o\n3:\nobject\tb/o\nexpected\tc/o\n".as_slice()
    );
    // The last byte of each number, and how much was found.
    assert_eq!(rt; out.text(), [1, 1, 2, 1, 3, 3].as_slice());
    Ok(())
}

/// What three cycles of one object each say.
const SAID: [[u8; 2]; 3] = [[1, 0], [2, 1], [3, 1]];

/// More calls than three closings make.
const CALLS: u64 = 30;

/// How often each of the three was said, and whether all that was said is whole texts.
fn times_said(text: &[u8]) -> ([usize; 3], bool) {
    let mut times = [0; 3];
    let mut whole = 0;
    for (index, said) in SAID.iter().enumerate() {
        for two in text.chunks_exact(2) {
            if two == said.as_slice() {
                times[index] += 1;
                whole += 2;
            }
        }
    }
    (times, whole == text.len())
}

/// Whether those that were said are in the order of cycles.
fn are_in_order(text: &[u8]) -> bool {
    let mut last = 0;
    for two in text.chunks_exact(2) {
        if two[0] <= last {
            return false;
        }
        last = two[0];
    }
    true
}

#[test]
fn a_crash_costs_no_closing(rt: HostRuntime) -> Result<(), Fail> {
    let alloc = rt.alloc();
    let three: &[Kept] = &[Kept::Whole, Kept::Whole, Kept::Whole];
    let mut twice = 0;
    for number in 1..=CALLS {
        let mut closings = cycles_of(alloc, three)?;
        let mut out = MemOutput::new(alloc);
        // The process ends in this call: all calls after it do nothing.
        closings.fail_call(number, true);
        let _ = say_cycles(alloc, &mut closings, 1, 4, &mut out);
        let (said, put) = (out.text().len() / 2, closings.accounts().len());
        assert!(rt; said == put || said == put + 1, "{number}: {said}, {put}");
        assert!(rt; are_in_order(out.text()), "{number}");
        closings.fail_none();
        let _ = say_cycles(alloc, &mut closings, 1, 4, &mut out);
        assert!(rt; are_in_order(&out.text()[2 * said..]), "{number}");
        let (times, is_whole) = times_said(out.text());
        assert!(rt;
            is_whole && times.iter().all(|count| *count >= 1),
            "{number}: {times:?}"
        );
        // Only the one whose account was being put is said again.
        assert_eq!(rt; times.iter().sum::<usize>(), 3 + said - put, "{number}");
        assert_eq!(rt; put_in(alloc, &closings)?.as_slice(), [1, 2, 3].as_slice());
        twice += said - put;
    }
    assert_eq!(rt; twice, 3);
    Ok(())
}

#[test]
fn a_call_that_fails_costs_no_closing(rt: HostRuntime) -> Result<(), Fail> {
    let alloc = rt.alloc();
    let three: &[Kept] = &[Kept::Whole, Kept::Whole, Kept::Whole];
    let (mut failed, mut twice) = (0, 0);
    for number in 1..=CALLS {
        let mut closings = cycles_of(alloc, three)?;
        let mut out = MemOutput::new(alloc);
        closings.fail_call(number, false);
        let status = say_cycles(alloc, &mut closings, 1, 4, &mut out);
        let put = closings.accounts().len();
        // One closing fails, if the call is one of those that are made, and the others go on.
        assert_eq!(rt;
            (status, put),
            if put < 3 { (3, 2) } else { (1, 3) },
            "{number}"
        );
        failed += usize::from(put < 3);
        let _ = say_cycles(alloc, &mut closings, 1, 4, &mut out);
        let (times, is_whole) = times_said(out.text());
        assert!(rt;
            is_whole && times.iter().all(|count| *count >= 1),
            "{number}: {times:?}"
        );
        twice += times.iter().sum::<usize>() - 3;
        assert_eq!(rt; closings.accounts().len(), 3, "{number}");
    }
    // Each call of the three failed once: two, two and two more looks for what each is compared
    // with, and two to find and to put.
    assert_eq!(rt; (failed, twice), (14, 3));
    Ok(())
}

#[test]
fn an_output_that_fails_costs_no_closing(rt: HostRuntime) -> Result<(), Fail> {
    let alloc = rt.alloc();
    let three: &[Kept] = &[Kept::Whole, Kept::Whole, Kept::Whole];
    for (number, taken) in [(1, 0), (1, 1), (1, 2), (2, 0), (2, 2), (3, 1), (3, 2)] {
        let mut closings = cycles_of(alloc, three)?;
        let mut out = MemOutput::new(alloc);
        out.fail_call(number, taken);
        assert_eq!(rt; say_cycles(alloc, &mut closings, 1, 4, &mut out), 3);
        assert_eq!(rt; closings.accounts().len(), 2, "{number}");
        let first = out.text().len();
        assert_eq!(rt; first, 4 + taken, "{number}");
        // What was not said whole is said once more, and nothing else.
        let _ = say_cycles(alloc, &mut closings, 1, 4, &mut out);
        let wanted = SAID[number as usize - 1].as_slice();
        assert_eq!(rt; &out.text()[first..], wanted, "{number}");
        assert_eq!(rt; closings.accounts().len(), 3, "{number}");
    }
    Ok(())
}

#[test]
fn each_call_in_memory_fails_once(rt: HostRuntime) -> Result<(), Fail> {
    let alloc = rt.alloc();
    let mut closings = cycles_of(alloc, &[Kept::Whole])?;
    closings.fail_call(2, false);
    assert_eq!(rt; closings.has_account(1), Ok(false));
    assert_eq!(rt; closings.has_account(1), Err(ClosingStop::Failed));
    assert_eq!(rt; closings.has_account(1), Ok(false));
    closings.fail_call(1, true);
    assert_eq!(rt; closings.has_account(1), Err(ClosingStop::Failed));
    assert_eq!(rt; closings.has_account(1), Err(ClosingStop::Failed));
    Ok(())
}
