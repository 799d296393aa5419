//! What a night logs.
use crate::tests::common::store::place_of;
use ocfl_messages::{
    BeganRow, ClosingRow, LeftRow, LogRow, NightRow, RefusalRow, SliceRow, Stands, log_line,
};
use ocfl_tree::Place;
use std::test::Fail;

fn began_row(place: &Place) -> LogRow<'_> {
    LogRow::Began(BeganRow {
        time: 2,
        night: 1,
        cycle: 3,
        stands: Stands::After(place),
        lines: 4,
        bytes: 5,
        root: "/s/\u{9b}",
        part: 6,
        program: "0f",
    })
}

/// A run after which the cursor stands after this place.
fn slice_row(place: &Place) -> LogRow<'_> {
    LogRow::Slice(SliceRow {
        time: 1700000001,
        night: 1700000000,
        cycle: 1,
        run: 2,
        status: 3,
        cost: 4,
        spent: 5,
        files: 6,
        lines: 7,
        bytes: 8,
        seconds: 9,
        stands: Stands::After(place),
    })
}

/// The leaving out of this place.
fn left_row(place: &Place) -> LogRow<'_> {
    LogRow::Left(LeftRow {
        time: 1,
        night: 2,
        cycle: 3,
        place,
        why: "Permission\tdenied",
    })
}

const CLOSING_ROW: ClosingRow<'static> = ClosingRow {
    time: 1,
    night: 2,
    cycle: 3,
    report: "/s/\u{9b}",
    whole: true,
    findings: 4,
    lines: 17,
    runs: 18,
    read_bytes: 19,
    read_files: 20,
    compared: 2,
    compared_whole: 1,
    why: "\u{9b}",
    appeared: 5,
    known: 16,
    repaired: 6,
    back: 15,
    gone: 33,
    objects: 10,
    files: 11,
    unlooked: 14,
    expected: 12,
    listed: 13,
    list: "0a",
    left: 8,
};

const REFUSAL_ROW: RefusalRow<'static> = RefusalRow {
    time: 1,
    night: 2,
    status: 75,
    said: "no\tone",
};

const NIGHT_ROW: NightRow<'static> = NightRow {
    time: 1,
    night: 2,
    status: 0,
    runs: 3,
    cost: 18446744073709551615,
    seconds: 4,
    findings: 5,
    left: 6,
    program: "0f",
};

/// The lines of the log were compared with what Python's `json.dumps` writes of the same objects.
#[test]
fn rows_are_json(rt: HostRuntime) -> Result<(), Fail> {
    let alloc = rt.alloc();
    let odd = place_of(alloc, "a\"\\/\n")?;
    let lower = place_of(alloc, "a/b\n")?;
    for (row, line) in [
        (began_row(&odd), BEGAN),
        (slice_row(&odd), SLICE),
        (left_row(&lower), LEFT),
        (LogRow::Closing(CLOSING_ROW), CLOSING),
        (LogRow::Refusal(REFUSAL_ROW), REFUSAL),
        (LogRow::Night(NIGHT_ROW), NIGHT_LINE),
    ] {
        assert_eq!(rt; log_line(alloc, &row)?.as_str(), line);
    }
    Ok(())
}

const BEGAN: &str = "{\"bytes\":5,\"cycle\":3,\"lines\":4,\"night\":1,\"part\":6,\
\"program\":\"0f\",\"root\":\"/s/%C2%9B\",\"row\":\"began\",\
\"stands\":\"after a\\\"\\\\/%0A\",\"time\":2}\n";

const SLICE: &str =
    "{\"bytes\":8,\"cost\":4,\"cycle\":1,\"files\":6,\"lines\":7,\"night\":1700000000,\
\"row\":\"slice\",\"run\":2,\"seconds\":9,\"spent\":5,\"stands\":\"after a\\\"\\\\/%0A\",\
\"status\":3,\"time\":1700000001}\n";

const LEFT: &str = "{\"cycle\":3,\"night\":2,\"place\":\"a/b%0A\",\"row\":\"left\",\"time\":1,\
\"why\":\"Permission%09denied\"}\n";

const CLOSING: &str =
    "{\"back\":15,\"compared\":2,\"compared_whole\":1,\"cycle\":3,\"expected\":12,\"files\":11,\
\"findings\":4,\"gone\":33,\"known\":16,\"left\":8,\"lines\":17,\"list\":\"0a\",\
\"listed\":13,\"new\":5,\"night\":2,\"objects\":10,\"read_bytes\":19,\"read_files\":20,\
\"repaired\":6,\"report\":\"/s/%C2%9B\",\"row\":\"closing\",\"runs\":18,\"time\":1,\
\"unlooked\":14,\"whole\":true,\"why\":\"%C2%9B\"}\n";

const REFUSAL: &str =
    "{\"night\":2,\"row\":\"refusal\",\"said\":\"no%09one\",\"status\":75,\"time\":1}\n";

const NIGHT_LINE: &str = "{\"cost\":18446744073709551615,\"findings\":5,\"left\":6,\"night\":2,\
\"program\":\"0f\",\"row\":\"night\",\"runs\":3,\"seconds\":4,\"status\":0,\"time\":1}\n";
