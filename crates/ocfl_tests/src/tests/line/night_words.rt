//! Nights on the command line, and joining their reports.

use super::{expect_in_usage, fault, read, usage_text, words_fault};
use crate::tests::common::Runtime;
use clap::error::ErrorKind;
use ocfl_arguments::{Asked, Chosen, NightAsked, NightBounds, Until, asked};
use ocfl_cursor::Budget;
use ocfl_report::Further;
use std::alloc::{AllocError, Global};
use std::test::Fail;

/// Options of a night, and which value of theirs is no size.
const NO_SIZES: [(&str, &str); 5] = [
    ("--budget 10x", "'10x' for '--budget <N>'"),
    ("--files 5Ki", "'5Ki' for '--files <N>'"),
    ("--slice 1.5G", "'1.5G' for '--slice <N>'"),
    ("--slice 0 --budget 1 --files 1", "'0' for '--slice <N>'"),
    ("--slice 0 --until 24:00", "'0' for '--slice <N>'"),
];

/// A night without limits, ends and files, over the root `R` with the state folder `S`.
fn plain(alloc: Global) -> Result<NightAsked, AllocError> {
    Ok(NightAsked {
        state: String::from_str(alloc, "S")?,
        root: String::from_str(alloc, "R")?,
        bounds: NightBounds {
            budget: None,
            files: None,
            slice: None,
            until: Until::Never,
            every: None,
        },
        chosen: Chosen::All,
        further: Further::Nothing,
        known: None,
        expected: None,
        create: false,
        force_root: false,
        stop_at_faults: false,
    })
}

/// The night that a line asks for.
fn read_night(alloc: Global, line: &str) -> Result<NightAsked, Fail> {
    match read(alloc, line)? {
        Asked::Night(night) => Ok(night),
        _ => Err(Fail::from("no night")),
    }
}

/// The bounds of a night are those that are wanted.
fn expect_bounds(rt: &impl Runtime, bounds: NightBounds, wanted: NightBounds) {
    let NightBounds {
        budget,
        files,
        slice,
        until,
        every,
    } = bounds;
    assert_eq!(rt; (budget, slice), (wanted.budget, wanted.slice));
    assert_eq!(rt; (files, every), (wanted.files, wanted.every));
    assert_eq!(rt; until, wanted.until);
}

/// A night is the one that is wanted.
fn expect_night(rt: &impl Runtime, night: NightAsked, wanted: &NightAsked) {
    let NightAsked {
        state,
        root,
        bounds,
        chosen,
        further,
        known,
        expected,
        create,
        force_root,
        stop_at_faults,
    } = night;
    expect_bounds(rt, bounds, wanted.bounds);
    assert_eq!(rt;
        (state.as_str(), root.as_str()),
        (wanted.state.as_str(), wanted.root.as_str())
    );
    assert_eq!(rt; chosen, wanted.chosen);
    assert_eq!(rt; further, wanted.further);
    assert_eq!(rt; known.as_deref(), wanted.known.as_deref());
    assert_eq!(rt; expected.as_deref(), wanted.expected.as_deref());
    let flags = (wanted.create, wanted.force_root, wanted.stop_at_faults);
    assert_eq!(rt; (create, force_root, stop_at_faults), flags);
}

#[test]
fn reads_a_night(rt: HostRuntime) -> Result<(), Fail> {
    let alloc = rt.alloc();
    let night = read_night(alloc, "night --state S R")?;
    expect_night(&rt, night, &plain(alloc)?);
    let line = "night R --files 20k --slice=1G --expected E --budget 500G --state S --known K \
                --until 06:00 --every 30 --create --force-root --stop-at-faults --inventories";
    let mut wanted = plain(alloc)?;
    wanted.bounds = NightBounds {
        budget: Budget::new(500 << 30),
        files: Some(20 << 10),
        slice: Budget::new(1 << 30),
        until: Until::TimeOfDay { hour: 6, minute: 0 },
        every: Some(30),
    };
    wanted.known = Some(String::from_str(alloc, "K")?);
    wanted.expected = Some(String::from_str(alloc, "E")?);
    wanted.further = Further::Inventories;
    wanted.create = true;
    wanted.force_root = true;
    wanted.stop_at_faults = true;
    expect_night(&rt, read_night(alloc, line)?, &wanted);
    Ok(())
}

#[test]
fn reads_a_night_of_a_part(rt: HostRuntime) -> Result<(), Fail> {
    let alloc = rt.alloc();
    let night = read_night(
        alloc,
        "night --state S --part 7 --parts F --known K --expected E R",
    )?;
    let parts = String::from_str(alloc, "F")?;
    assert_eq!(rt; night.chosen, Chosen::Part { parts, number: 7 });
    assert_eq!(rt; night.known.as_deref(), Some("K"));
    assert_eq!(rt; night.expected.as_deref(), Some("E"));
    Ok(())
}

#[test]
fn reads_each_flag_of_a_night(rt: HostRuntime) -> Result<(), Fail> {
    for (line, create, force_root, stop_at_faults) in [
        ("night --state S --create R", true, false, false),
        ("night --state S R --force-root", false, true, false),
        ("night --state S --stop-at-faults R", false, false, true),
        ("night --inventories --state S R", false, false, false),
        ("night --state create inventories", false, false, false),
    ] {
        let night = read_night(rt.alloc(), line)?;
        assert_eq!(rt; night.create, create, "{line}");
        assert_eq!(rt; night.force_root, force_root, "{line}");
        assert_eq!(rt; night.stop_at_faults, stop_at_faults, "{line}");
    }
    Ok(())
}

#[test]
fn reads_what_a_night_checks_further(rt: HostRuntime) -> Result<(), Fail> {
    for (line, further) in [
        ("night --state S --create R", Further::Nothing),
        ("night --state S R --force-root", Further::Nothing),
        ("night --state S --stop-at-faults R", Further::Nothing),
        ("night --inventories --state S R", Further::Inventories),
        ("night --state create inventories", Further::Nothing),
    ] {
        let night = read_night(rt.alloc(), line)?;
        assert_eq!(rt; night.further, further, "{line}");
    }
    Ok(())
}

#[test]
fn reads_the_end_of_a_night(rt: HostRuntime) -> Result<(), Fail> {
    for (end, until) in [
        ("--hours 1", Until::Hours(1)),
        ("--hours 24", Until::Hours(24)),
        ("--until 00:00", Until::TimeOfDay { hour: 0, minute: 0 }),
        ("--until 09:08", Until::TimeOfDay { hour: 9, minute: 8 }),
        (
            "--until 19:10",
            Until::TimeOfDay {
                hour: 19,
                minute: 10,
            },
        ),
        (
            "--until 23:59",
            Until::TimeOfDay {
                hour: 23,
                minute: 59,
            },
        ),
        ("--end 0", Until::At(0)),
        ("--end 1700000000", Until::At(1_700_000_000)),
        ("--end 18446744073709551615", Until::At(u64::MAX)),
    ] {
        let line = format!(in rt.alloc(); "night --state S {end} R")?;
        let night = read_night(rt.alloc(), line.as_str())?;
        assert_eq!(rt; night.bounds.until, until, "{end}");
    }
    Ok(())
}

#[test]
fn reads_the_days_between_cycles(rt: HostRuntime) -> Result<(), Fail> {
    for (days, every) in [("1", 1), ("3650", 3650), ("+7", 7)] {
        let line = format!(in rt.alloc(); "night --state S --every {days} R")?;
        let night = read_night(rt.alloc(), line.as_str())?;
        assert_eq!(rt; night.bounds.every, Some(every), "{days}");
    }
    Ok(())
}

#[test]
fn reads_folders_that_begin_with_a_hyphen(rt: HostRuntime) -> Result<(), Fail> {
    let words = ["ocfl-scrub", "night", "--state=-s", "--", "-r"];
    match asked(rt.alloc(), words.as_slice())? {
        Asked::Night(night) => {
            assert_eq!(rt; night.state.as_str(), "-s");
            assert_eq!(rt; night.root.as_str(), "-r");
            Ok(())
        }
        _ => Err(Fail::from("no night")),
    }
}

#[test]
fn reads_a_join(rt: HostRuntime) -> Result<(), Fail> {
    let alloc = rt.alloc();
    for line in ["join --parts F --state S", "join --state=S --parts=F"] {
        let Asked::Join(join) = read(alloc, line)? else {
            return Err(Fail::from("no join"));
        };
        assert_eq!(rt;
            (join.parts.as_str(), join.state.as_str()),
            ("F", "S"),
            "{line}"
        );
    }
    Ok(())
}

#[test]
fn refuses_other_times_of_day(rt: HostRuntime) {
    for text in [
        "",
        "6",
        "06",
        "6:00",
        "06:0",
        "006:00",
        "06:000",
        "24:00",
        "23:60",
        "06:60",
        "99:99",
        "0600",
        "06.00",
        "06-00",
        " 06:00",
        "06:00 ",
        "+6:00",
        "06:+1",
        "0x:00",
        "06:0x",
        "a6:00",
        "06:/0",
        "0::00",
        "06:00:00",
        "06:00am",
        "\u{0661}:00",
    ] {
        let words = ["ocfl-scrub", "night", "--state", "S", "--until", text, "R"];
        let kind = words_fault(rt.alloc(), words.as_slice());
        assert_eq!(rt; kind, Some(ErrorKind::ValueValidation), "{text}");
    }
}

#[test]
fn refuses_other_values_of_a_night(rt: HostRuntime) -> Result<(), Fail> {
    for end in [
        "--hours 0",
        "--hours 25",
        "--hours 7.5",
        "--hours x",
        "--end x",
        "--end 18446744073709551616",
        "--end 1.5",
        "--budget 0",
        "--files 0",
        "--slice 0",
        "--slice 4611686018427387905",
        "--parts F --part 0",
        "--parts F --part 100002",
    ] {
        for words in ["night --state S R ", "night R --state S --create "] {
            let line = format!(in rt.alloc(); "{words}{end}")?;
            let kind = fault(rt.alloc(), line.as_str());
            assert_eq!(rt; kind, Some(ErrorKind::ValueValidation), "{end}");
        }
    }
    Ok(())
}

#[test]
fn refuses_words_that_a_night_does_not_take(rt: HostRuntime) {
    let alloc = rt.alloc();
    for (line, kind) in [
        ("night R", ErrorKind::MissingRequiredArgument),
        ("night --state S", ErrorKind::MissingRequiredArgument),
        ("join --parts F", ErrorKind::MissingRequiredArgument),
        ("join --state S", ErrorKind::MissingRequiredArgument),
        ("join --parts F --state S R", ErrorKind::UnknownArgument),
        ("night --state S --under o R", ErrorKind::UnknownArgument),
        ("night --state S --quiet R", ErrorKind::UnknownArgument),
        ("night --state S --cursor C R", ErrorKind::UnknownArgument),
        ("night --state S --state T R", ErrorKind::ArgumentConflict),
        (
            "night --state S --hours 1 --hours 2 R",
            ErrorKind::ArgumentConflict,
        ),
    ] {
        assert_eq!(rt; fault(alloc, line), Some(kind), "{line}");
    }
}

/// Words of a night that do not go together, or that are no value, and what is said of them.
const COMPLAINTS: &[(&str, &str)] = &[
    (
        "--hours 1 --until 06:00",
        "only one of '--hours <H>', '--until <HH:MM>' and '--end <SECONDS>' can be used",
    ),
    (
        "--hours 1 --end 5",
        "only one of '--hours <H>', '--until <HH:MM>' and '--end <SECONDS>' can be used",
    ),
    (
        "--until 06:00 --end 5",
        "only one of '--hours <H>', '--until <HH:MM>' and '--end <SECONDS>' can be used",
    ),
    (
        "--hours 1 --until 24:00 --end 5",
        "only one of '--hours <H>', '--until <HH:MM>' and '--end <SECONDS>' can be used",
    ),
    (
        "--until 24:00",
        "invalid value '24:00' for '--until <HH:MM>': HH:MM is 00:00 to 23:59",
    ),
    (
        "--until=",
        "invalid value '' for '--until <HH:MM>': HH:MM is 00:00 to 23:59",
    ),
    (
        "--parts F",
        "'--parts <FILE>' and '--part <K>' must be used together",
    ),
    (
        "--part 1",
        "'--parts <FILE>' and '--part <K>' must be used together",
    ),
];

/// What a night with these options shows.
fn night_usage(alloc: Global, options: &str) -> Result<String, Fail> {
    let line = format!(in alloc; "night --state S {options} R")?;
    usage_text(alloc, line.as_str())
}

#[test]
fn says_what_is_wrong_with_a_night(rt: HostRuntime) -> Result<(), Fail> {
    let alloc = rt.alloc();
    for &(words, why) in COMPLAINTS {
        let wanted = format!(in alloc;
            "error: {why}\n\nUsage: ocfl-scrub night [OPTIONS] --state <DIR> <ROOT>\n\n\
             For more information, try '--help'.\n"
        )?;
        let shown = night_usage(alloc, words)?;
        assert_eq!(rt; shown.as_str(), wanted.as_str(), "{words}");
    }
    Ok(())
}

#[test]
fn says_which_size_of_a_night_is_none(rt: HostRuntime) -> Result<(), Fail> {
    let alloc = rt.alloc();
    for (words, value) in NO_SIZES {
        let shown = night_usage(alloc, words)?;
        let wanted = format!(in alloc; "error: invalid value {value}: N is 1 to ")?;
        assert!(rt; shown.starts_with(wanted.as_str()), "{words}");
    }
    Ok(())
}

#[test]
fn shows_help_of_nights(rt: HostRuntime) -> Result<(), Fail> {
    expect_in_usage(
        &rt,
        &[
            ("--help", "\n  night  Makes one night"),
            ("--help", "\n  join   Joins the closed reports "),
            ("--help", "\n  75 another night holds the lock"),
            (
                "night --help",
                "\nUsage: ocfl-scrub night [OPTIONS] --state <DIR> <ROOT>\n",
            ),
            ("night --help", "\n      --until <HH:MM>    "),
            ("night --help", "\n      --force-root       "),
            // A root at another path is refused all the same.
            ("night --help", " has changed or most of its names are gone"),
            (
                "night --help",
                "a root at another path needs a new state folder",
            ),
            ("night --help", "\n      --stop-at-faults   "),
            (
                "join --help",
                "\nUsage: ocfl-scrub join --parts <FILE> --state <DIR>\n",
            ),
        ],
    )
}
