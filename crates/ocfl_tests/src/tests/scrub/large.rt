//! Many lines, places, members and runs: memory for them is there, so none of them may be given up.
use super::expected::{FILE_IS_OK, HEADS, expect, expect_audit};
use super::run_figures::{MOST, items_in, limits};
use crate::tests::common::Runtime;
use crate::tests::common::digests::lines_of;
use crate::tests::common::object::{FILE, inventory, listing, object_listing, object_with};
use crate::tests::common::odd_store::{Odd, Oddity};
use crate::tests::common::output::Counting;
use crate::tests::common::roots::{ROOTS, built, right_object};
use crate::tests::common::store::{place_of, put};
use ocfl_cursor::Cursor;
use ocfl_deed::Deed;
use ocfl_digest::Block;
use ocfl_memory::{MemTree, Point};
use ocfl_report::Further;
use ocfl_scrub::{audited, checked, perform, run};
use std::alloc::Global;
use std::test::Fail;

/// `count` numbers from 10,000 on, each in a text of its own.
fn numbered(
    alloc: Global,
    count: u64,
    front: &str,
    back: &str,
    between: &str,
) -> Result<String, Fail> {
    let mut text = String::new(alloc);
    for number in 0..count {
        let one = number.saturating_add(10_000);
        let parts = if number > 0 { between } else { "" };
        text.push_str(format!(in alloc; "{parts}{front}{one}{back}")?.as_str())?;
    }
    Ok(text)
}

/// A storage root whose object lists 2,000 bad paths beside its file, and the lines of its head.
fn two_thousand_bad_paths(alloc: Global) -> Result<(MemTree, String), Fail> {
    let paths = numbered(alloc, 2_000, "\"/", "\"", ",")?;
    let manifest = format!(in alloc; "\"ABC_SHA256\":[{paths},\"v1/content/f\"]")?;
    let store = object_with(alloc, listing(alloc, manifest.as_str(), "")?.as_str())?;
    Ok((store, numbered(alloc, 2_000, "E100|o|/", "\n", "")?))
}

// Seen to fail if memory is refused for an item of more than 1,000 lines.
#[test]
fn head_of_two_thousand_lines(rt: HostRuntime) -> Result<(), Fail> {
    let alloc = rt.alloc();
    let (mut store, lines) = two_thousand_bad_paths(alloc)?;
    let text = format!(in alloc; "ok|.|-\n{lines}{FILE_IS_OK}")?;
    let row = "2,000 lines";
    expect_audit(&rt, row, &mut store, text.as_str(), 1, "")?;
    expect(&rt, row, &mut store, "o", lines.as_str(), 1, "")
}

// Seen to fail if memory is refused for an item of more than 1,000 lines.
#[test]
fn file_of_two_thousand_lines(rt: HostRuntime) -> Result<(), Fail> {
    let alloc = rt.alloc();
    let manifest = numbered(alloc, 2_000, "\"", "\":[\"v1/content/f\"]", ",")?;
    let front = "E092|o/v1/content/f|sha256 ";
    let lines = numbered(alloc, 2_000, front, " ABC_SHA256\n", "")?;
    let mut store = object_with(alloc, listing(alloc, manifest.as_str(), "")?.as_str())?;
    let text = format!(in alloc; "ok|.|-\nE101|o|v1/content/f\n{lines}")?;
    let row = "2,000 digests";
    expect_audit(&rt, row, &mut store, text.as_str(), 1, "")?;
    expect(&rt, row, &mut store, FILE, lines.as_str(), 1, "")
}

// Seen to fail if memory is refused after 4,096 places in a row without lines.
#[test]
fn ten_thousand_places_without_lines(rt: HostRuntime) -> Result<(), Fail> {
    let inner = right_object(rt.alloc())?;
    let oddity = Oddity::Crowds(10_000);
    let text = format!(in rt.alloc(); "{HEADS}{FILE_IS_OK}")?;
    let row = "10,000 files of no object";
    expect_audit(&rt, row, &mut Odd { inner, oddity }, text.as_str(), 0, "")
}

// Seen to fail if memory is refused for an inventory of more than 64 members.
#[test]
fn inventory_of_three_hundred_members(rt: HostRuntime) -> Result<(), Fail> {
    let alloc = rt.alloc();
    let further = numbered(alloc, 300, "\"member", "\":0", ",")?;
    let manifest = "{\"ABC_SHA256\":[\"v1/content/f\"]}";
    let members = format!(in alloc;
        "\"digestAlgorithm\":\"sha256\",\"manifest\":{manifest},{further}"
    )?;
    let mut store = object_with(alloc, inventory(alloc, members.as_str())?.as_str())?;
    let text = format!(in alloc; "{HEADS}{FILE_IS_OK}")?;
    let row = "300 members";
    expect_audit(&rt, row, &mut store, text.as_str(), 0, "")?;
    expect(&rt, row, &mut store, FILE, FILE_IS_OK, 0, "")
}

/// What a deed writes, its status and its note, if no cursor is stored.
pub(super) fn performed(
    alloc: Global,
    store: &mut MemTree,
    deed: &Deed,
) -> Result<(String, String), Fail> {
    let (mut block, mut out) = (Block::new(alloc)?, Vec::new(alloc));
    let reader: Option<&mut &[u8]> = None;
    let done = perform(alloc, store, deed, reader, &mut block, &mut out);
    let said = format!(in alloc; "{} {}", done.status, done.note)?;
    Ok((String::from_utf8(out)?, said))
}

// Seen to fail if memory is refused after a cycle of more than 50 runs.
#[test]
fn command_of_two_hundred_runs(rt: HostRuntime) -> Result<(), Fail> {
    let alloc = rt.alloc();
    let paths = numbered(alloc, 200, "\"v1/content/", "\"", ",")?;
    let mut store = object_listing(alloc, paths.as_str())?;
    for number in 10_000..10_200u64 {
        let path = format!(in alloc; "o/v1/content/{number}")?;
        put(alloc, &mut store, path.as_str(), b"abc")?;
    }
    let deed = Deed::Cycle(Further::Nothing, limits(1, MOST)?, 300);
    let (text, said) = performed(alloc, &mut store, &deed)?;
    let lines = numbered(alloc, 200, "ok|o/v1/content/", "|3\n", "")?;
    let right = format!(in alloc; "{HEADS}{lines}")?;
    assert_eq!(rt; said.as_str(), "0 runs 200, cost 800, ended");
    assert_eq!(rt; text.as_str(), lines_of(alloc, right.as_str())?.as_str());
    Ok(())
}

// Seen to fail if unreadable content is reported as out of memory.
#[test]
fn unread_content_is_no_lack_of_memory(rt: HostRuntime) -> Result<(), Fail> {
    let alloc = rt.alloc();
    let unread = "S08|o/v1/content/f|-\n";
    let right = lines_of(alloc, format!(in alloc; "{HEADS}{unread}")?.as_str())?;
    for (row, point, cost) in [
        ("the opening", Point::Open, 1),
        ("the first byte", Point::Read(0), 1),
        ("the end", Point::Read(3), 4),
    ] {
        let run = format!(in alloc; "1 cycle 1, run 1, cost {cost}, ended")?;
        let cycle = format!(in alloc; "1 runs 1, cost {cost}, ended")?;
        for (deed, note) in [
            (Deed::Audit(Further::Nothing), "1 "),
            (Deed::Run(Further::Nothing, limits(9, MOST)?), run.as_str()),
            (
                Deed::Cycle(Further::Nothing, limits(9, MOST)?, 2),
                cycle.as_str(),
            ),
        ] {
            let mut store = right_object(alloc)?;
            store.fail_at(&place_of(alloc, FILE)?, point)?;
            let (text, said) = performed(alloc, &mut store, &deed)?;
            assert_eq!(rt; said.as_str(), note, "{row}: {note}");
            assert_eq!(rt; text.as_str(), right.as_str(), "{row}: {note}");
        }
    }
    Ok(())
}

// ---- one write for each item

/// The writer was called once for each item of these lines.
fn expect_calls(rt: &impl Runtime, row: &str, out: &Counting, lines: &str) {
    assert!(rt; out.kept.as_slice() == lines.as_bytes(), "{row}: {lines}");
    assert_eq!(rt; out.calls, items_in(lines), "{row}: {lines}");
}

// Seen to fail if an item's lines go out in pieces.
#[test]
fn lines_of_an_item_go_out_as_one_piece(rt: HostRuntime) -> Result<(), Fail> {
    let alloc = rt.alloc();
    let mut block = Block::new(alloc)?;
    let mut pieces = 0usize;
    for root in &ROOTS {
        let (row, _, _, report, _) = root;
        let lines = lines_of(alloc, report)?;
        let mut store = built(alloc, root)?;
        let mut out = Counting::new(alloc);
        let _ = audited(alloc, &mut store, Further::Nothing, &mut block, &mut out);
        expect_calls(&rt, row, &out, lines.as_str());
        let mut out = Counting::new(alloc);
        let most = limits(MOST, MOST)?;
        let _ = run(
            alloc,
            &mut store,
            Cursor::new(Further::Nothing),
            most,
            &mut block,
            &mut out,
        );
        expect_calls(&rt, row, &out, lines.as_str());
        let count = lines.as_str().lines().count();
        pieces = pieces.saturating_add(count.saturating_sub(out.calls));
    }
    // Some items have more than one line.
    assert!(rt; pieces > 5);
    Ok(())
}

#[test]
fn lines_of_a_missing_file_go_out_as_one_piece(rt: HostRuntime) -> Result<(), Fail> {
    let alloc = rt.alloc();
    let mut block = Block::new(alloc)?;
    let mut out = Counting::new(alloc);
    let (listed, missing) = ("v1/content/g", "o/v1/content/g");
    let fixity = format!(in alloc; "\"md5\":{{\"ABC_MD5\":[\"{listed}\"]}}")?;
    let manifest = format!(in alloc; "\"ABC_SHA256\":[\"{listed}\"]")?;
    let inventory = listing(alloc, manifest.as_str(), fixity.as_str())?;
    let mut store = object_with(alloc, inventory.as_str())?;
    let _ = checked(
        alloc,
        &mut store,
        Further::Nothing,
        missing,
        &mut block,
        &mut out,
    );
    let lines = "E092|o/v1/content/g|sha256 missing\nE093|o/v1/content/g|md5 missing\n";
    let lines = lines_of(alloc, lines)?;
    expect_calls(&rt, "a missing file", &out, lines.as_str());
    Ok(())
}

/// The writer was called `count` times, and kept these lines.
fn expect_pieces(rt: &impl Runtime, row: &str, out: &Counting, lines: &str, count: usize) {
    assert_eq!(rt; out.calls, count, "{row}");
    assert!(rt; out.kept.as_slice() == lines.as_bytes(), "{row}");
}

// Seen to fail if an item's lines go out in pieces of 4,096 bytes.
#[test]
fn long_items_go_out_as_one_piece(rt: HostRuntime) -> Result<(), Fail> {
    let alloc = rt.alloc();
    let (mut store, lines) = two_thousand_bad_paths(alloc)?;
    let text = format!(in alloc; "ok|.|-\n{lines}{FILE_IS_OK}")?;
    let text = lines_of(alloc, text.as_str())?;
    assert!(rt; text.len() > 20_000);
    let mut block = Block::new(alloc)?;
    let mut out = Counting::new(alloc);
    let _ = audited(alloc, &mut store, Further::Nothing, &mut block, &mut out);
    expect_pieces(&rt, "an audit", &out, text.as_str(), 3);
    let mut out = Counting::new(alloc);
    let _ = checked(
        alloc,
        &mut store,
        Further::Nothing,
        "o",
        &mut block,
        &mut out,
    );
    let head = lines_of(alloc, lines.as_str())?;
    expect_pieces(&rt, "a check", &out, head.as_str(), 1);
    let mut out = Counting::new(alloc);
    let most = limits(MOST, MOST)?;
    let _ = run(
        alloc,
        &mut store,
        Cursor::new(Further::Nothing),
        most,
        &mut block,
        &mut out,
    );
    expect_pieces(&rt, "a run", &out, text.as_str(), 3);
    Ok(())
}
