//! Times of day in time zones, whose ends were computed by Python's `zoneinfo`, and days between
//! cycles, which `date -d` has added.
use jiff::tz::TimeZone;
use ocfl_clock::{may_begin, next_time};
use std::test::Fail;

const BERLIN: &str = "CET-1CEST,M3.5.0,M10.5.0/3";

const NEW_YORK: &str = "EST5EDT,M3.2.0,M11.1.0";

/// What is asked, in which zone, at which second, for which hour and minute, and when that is.
const ROWS: [(&str, &str, u64, (u8, u8), u64); 17] = [
    ("an hour later", BERLIN, 1768449600, (6, 0), 1768453200),
    ("at that time", BERLIN, 1768453200, (6, 0), 1768539600),
    ("a second before", BERLIN, 1768453199, (6, 0), 1768453200),
    ("over midnight", BERLIN, 1768510800, (6, 0), 1768539600),
    ("at midnight", BERLIN, 1768510800, (0, 0), 1768518000),
    ("leapt over", BERLIN, 1774731600, (2, 30), 1774746000),
    ("after the leap", BERLIN, 1774731600, (6, 0), 1774756800),
    ("as it leaps", BERLIN, 1774731600, (2, 0), 1774746000),
    ("as it has leapt", BERLIN, 1774731600, (3, 0), 1774746000),
    ("shown twice", BERLIN, 1792872000, (2, 30), 1792888200),
    ("shown once more", BERLIN, 1792889100, (2, 30), 1792891800),
    ("as it is set back", BERLIN, 1792889100, (2, 0), 1792890000),
    ("after that", BERLIN, 1792872000, (6, 0), 1792904400),
    // 25 hours later the clock would show it: a day is the most.
    ("a day of 25 hours", BERLIN, 1792814400, (6, 0), 1792900800),
    ("within that day", BERLIN, 1792816200, (6, 0), 1792902600),
    (
        "leapt over in New York",
        NEW_YORK,
        1772938800,
        (2, 30),
        1772953200,
    ),
    (
        "shown twice in New York",
        NEW_YORK,
        1793498400,
        (1, 30),
        1793511000,
    ),
];

#[test]
fn clocks_come_to_a_time(rt: HostRuntime) -> Result<(), Fail> {
    for (row, zone, now, (hour, minute), end) in ROWS {
        let zone = TimeZone::posix(zone)?;
        assert_eq!(rt; next_time(&zone, now, hour, minute), Some(end), "{row}");
    }
    Ok(())
}

#[test]
fn clocks_end_in_the_year_9999(rt: HostRuntime) -> Result<(), Fail> {
    let zone = TimeZone::UTC;
    assert_eq!(rt; next_time(&zone, 253402207200, 6, 0), None);
    assert_eq!(rt; next_time(&zone, u64::MAX, 6, 0), None);
    // 253402120800 is 9999-12-29T22:00:00Z.
    assert_eq!(rt; next_time(&zone, 253402120800, 22, 1), Some(253402120860));
    Ok(())
}

/// When the last cycle ended, whether a new one may begin then, and after how many days.
const WAITS: [(&str, Option<u64>, u64, u64, bool); 8] = [
    ("none has ended", None, 1768449600, 30, true),
    // 1768449600 is 2026-01-15T04:00:00Z, and 1771041600 thirty days later.
    ("a second early", Some(1768449600), 1771041599, 30, false),
    ("on the second", Some(1768449600), 1771041600, 30, true),
    ("a day", Some(1768449600), 1768535999, 1, false),
    ("a day later", Some(1768449600), 1768536000, 1, true),
    ("as it ended", Some(1768449600), 1768449600, 1, false),
    (
        "a second before it ended",
        Some(1768449600),
        1768449599,
        1,
        true,
    ),
    ("no clock", Some(1768449600), u64::MAX, u64::MAX, false),
];

#[test]
fn cycles_begin_after_days(rt: HostRuntime) -> Result<(), Fail> {
    for (row, ended, now, days, may) in WAITS {
        assert_eq!(rt; may_begin(ended, now, days), may, "{row}");
    }
    Ok(())
}
