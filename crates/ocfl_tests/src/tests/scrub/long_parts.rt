//! Long names, details and cycles, and parts with long ends: memory for them is there, so none of
//! them may be given up.
use super::expected::expect_audit;
use super::large::performed;
use super::perform::{expect_within, run_of};
use super::run_figures::{MOST, limits};
use crate::tests::common::digests::lines_of;
use crate::tests::common::object::{bare_root, listing, object_with, put_object};
use crate::tests::common::store::{place_of, put, put_dir};
use ocfl_cursor::PartEnds;
use ocfl_deed::Deed;
use ocfl_memory::MemTree;
use ocfl_report::Further;
use ocfl_scrub::Scope;
use std::alloc::Global;
use std::test::Fail;

/// A path of `count` names, each of these letters.
fn long_path(alloc: Global, name: &str, count: usize) -> Result<String, Fail> {
    let mut path = format!(in alloc; "{name}/")?.repeat(alloc, count)?;
    path.pop();
    Ok(path)
}

// Seen to fail if memory is refused for a branch of more than 64 names.
#[test]
fn branches_and_parts_of_a_hundred_names(rt: HostRuntime) -> Result<(), Fail> {
    let alloc = rt.alloc();
    for count in [65usize, 100, 127] {
        let path = long_path(alloc, "d", count)?;
        let mut store = bare_root(alloc)?;
        put_dir(alloc, &mut store, path.as_str())?;
        let line = format!(in alloc; "E073|{path}|-\n")?;
        let branch = Scope::Branch(place_of(alloc, path.as_str())?);
        let part = Scope::Part(PartEnds {
            from: Some(place_of(alloc, path.as_str())?),
            below: Some(place_of(alloc, format!(in alloc; "{path}/e")?.as_str())?),
        });
        for (row, scope) in [("branch", &branch), ("part", &part)] {
            let row = format!(in alloc; "{row} of {count} names")?;
            let wanted = (line.as_str(), 1, "");
            expect_within(
                &rt,
                row.as_str(),
                &mut store,
                &Deed::Audit(Further::Nothing),
                Some(scope),
                None,
                wanted,
            )?;
        }
    }
    Ok(())
}

/// A directory of the hierarchy whose path has more bytes than 65,536.
fn put_deep_directory(alloc: Global, store: &mut MemTree) -> Result<String, Fail> {
    let name = "n".repeat(alloc, 255)?;
    let path = long_path(alloc, name.as_str(), 120)?;
    put_dir(alloc, store, path.as_str())?;
    Ok(path)
}

// Seen to fail if memory is refused for a part with an end of more than 4,096 bytes.
#[test]
fn runs_of_a_part_with_long_ends(rt: HostRuntime) -> Result<(), Fail> {
    let alloc = rt.alloc();
    let mut store = bare_root(alloc)?;
    let path = put_deep_directory(alloc, &mut store)?;
    let ends = PartEnds {
        from: Some(place_of(alloc, path.as_str())?),
        below: Some(place_of(alloc, format!(in alloc; "{path}/e")?.as_str())?),
    };
    let scope = Scope::Part(ends);
    let line = format!(in alloc; "E073|{path}|-\n")?;
    let mut file: Option<Vec<u8>> = None;
    // The second run reads the cursor that the first has stored.
    for cycle in 1..3 {
        let note = format!(in alloc; "cycle {cycle}, run 1, cost 0, ended")?;
        let stored = expect_within(
            &rt,
            note.as_str(),
            &mut store,
            &run_of(9)?,
            Some(&scope),
            file.as_deref(),
            (line.as_str(), 1, note.as_str()),
        )?;
        let text = stored.ok_or("a cursor")?;
        assert!(rt; text.len() > 60_000, "{note}");
        file = Some(text);
    }
    Ok(())
}

// Seen to fail if memory is refused for a detail of more than 1,024 bytes, in writing or in reading
// a line.
#[test]
fn details_of_many_bytes(rt: HostRuntime) -> Result<(), Fail> {
    let alloc = rt.alloc();
    for size in [1_025usize, 5_000, 70_000] {
        let row = format!(in alloc; "a detail of {size} bytes")?;
        let path = "p".repeat(alloc, size)?;
        let manifest = format!(in alloc; "\"ABC_SHA256\":[\"/{path}\",\"v1/content/f\"]")?;
        let mut store = object_with(alloc, listing(alloc, manifest.as_str(), "")?.as_str())?;
        let text = format!(in alloc; "ok|.|-\nE100|o|/{path}\nok|o/v1/content/f|3\n")?;
        expect_audit(&rt, row.as_str(), &mut store, text.as_str(), 1, "")?;
    }
    Ok(())
}

/// Puts `count` objects, each with twenty files of the bytes `abc`. Gives the lines of its audit.
fn put_objects(alloc: Global, store: &mut MemTree, count: u64) -> Result<String, Fail> {
    let mut paths = String::new(alloc);
    for number in 10..30u64 {
        let comma = if number > 10 { "," } else { "" };
        paths.push_str(format!(in alloc; "{comma}\"v1/content/{number}\"")?.as_str())?;
    }
    let manifest = format!(in alloc; "\"ABC_SHA256\":[{paths}]")?;
    let inventory = listing(alloc, manifest.as_str(), "")?;
    let mut lines = String::from_str(alloc, "ok|.|-\n")?;
    for number in 0..count {
        let object = format!(in alloc; "o{}", number + 100)?;
        put_object(alloc, store, object.as_str(), inventory.as_str())?;
        lines.push_str(format!(in alloc; "ok|{object}|-\n")?.as_str())?;
        for file in 10..30u64 {
            let path = format!(in alloc; "{object}/v1/content/{file}")?;
            put(alloc, store, path.as_str(), b"abc")?;
            lines.push_str(format!(in alloc; "ok|{path}|3\n")?.as_str())?;
        }
    }
    Ok(lines)
}

// Seen to fail if memory is refused after a cycle of more than 1,000 runs.
#[test]
fn command_of_eleven_hundred_runs(rt: HostRuntime) -> Result<(), Fail> {
    let alloc = rt.alloc();
    let mut store = bare_root(alloc)?;
    let right = put_objects(alloc, &mut store, 55)?;
    let deed = Deed::Cycle(Further::Nothing, limits(1, MOST)?, 2_000);
    let (text, said) = performed(alloc, &mut store, &deed)?;
    assert_eq!(rt; said.as_str(), "0 runs 1100, cost 4400, ended");
    assert_eq!(rt; text.as_str(), lines_of(alloc, right.as_str())?.as_str());
    Ok(())
}
