//! Closed reports of parts, joined on a disk in memory.
use crate::tests::common::store::place_of;
use ocfl_join_disk::{ComparedReports, JoinDisk, MakingReports};
use ocfl_joining::{ClosedPart, KeptMark, MemoryReport, PartReports, join};
use ocfl_mem_disk::{MemDisk, MemJoinDisk};
use ocfl_report::Further;
use ocfl_say::MemOutput;
use ocfl_separators::{Separators, read_parts};
use std::alloc::Global;
use std::io::Read;
use std::test::Fail;

/// The reports of the two parts that `b` makes.
const REPORTS: [&str; 2] = ["ok\t.\t-\nok\ta\t-\n", "ok\tb\t-\n"];

/// Another report of the second part.
const OTHER: [&str; 2] = ["ok\t.\t-\nok\ta\t-\n", "ok\tc\t-\n"];

/// One that has a line less.
const LESS: [&str; 2] = ["ok\t.\t-\nok\ta\t-\n", ""];

/// One that has a line more.
const MORE: [&str; 2] = ["ok\t.\t-\nok\ta\t-\n", "ok\tb\t-\nok\tc\t-\n"];

const JOINED: &[u8] = b"ok\t.\t-\nok\ta\t-\nok\tb\t-\n";

const ROOT: &[u8] = b"/srv/ocfl";

/// What is known of the closed report of a part, from 0, of cycle 7.
fn closed(alloc: Global, index: usize, whole: bool) -> Result<ClosedPart, Fail> {
    let end = Some(place_of(alloc, "b")?);
    let (from, below) = if index == 0 { (None, end) } else { (end, None) };
    Ok(ClosedPart {
        root: Vec::from_slice(alloc, ROOT)?,
        from,
        below,
        further: Further::Nothing,
        cycle: 7,
        whole,
        has_said: true,
        names: None,
        left: Vec::new(alloc),
    })
}

fn separators(alloc: Global) -> Result<Separators, Fail> {
    let mut text = b"b\n".as_slice();
    Ok(read_parts(alloc, &mut text)?)
}

/// These closed reports.
fn parts_of(alloc: Global, texts: [&str; 2]) -> Result<Vec<MemoryReport>, Fail> {
    let mut all = Vec::new(alloc);
    for text in texts {
        all.push(MemoryReport {
            bytes: Vec::from_slice(alloc, text.as_bytes())?,
            kept: KeptMark::NotKept,
        })?;
    }
    Ok(all)
}

/// The same over a disk.
fn on(alloc: Global, disk: MemDisk, texts: [&str; 2]) -> Result<MemJoinDisk, Fail> {
    Ok(MemJoinDisk::new(alloc, disk, parts_of(alloc, texts)?))
}

/// Joins reports of parts that are whole or not.
fn joins<R: PartReports>(alloc: Global, whole: bool, reports: &mut R) -> Result<bool, Fail> {
    let mut out = MemOutput::new(alloc);
    says(alloc, whole, reports, &mut out)
}

/// The same, with an output for the word.
fn says<R: PartReports>(
    alloc: Global,
    whole: bool,
    reports: &mut R,
    out: &mut MemOutput,
) -> Result<bool, Fail> {
    let mut parts = Vec::new(alloc);
    parts.push(Some(closed(alloc, 0, true)?))?;
    parts.push(Some(closed(alloc, 1, whole)?))?;
    match join(alloc, &separators(alloc)?, ROOT, 7, &parts, reports, out) {
        Ok(joined) => Ok(joined.whole == whole),
        Err(_) => Ok(false),
    }
}

/// The joined report of cycle 7 that is on a disk.
fn joined_on(alloc: Global, disk: &mut MemJoinDisk, whole: bool) -> Result<Option<Vec<u8>>, Fail> {
    let mut bytes = Vec::new(alloc);
    match disk.open_joined(7, whole) {
        Ok(mut report) => report.read_to_end(&mut bytes)?,
        Err(_) => return Ok(None),
    };
    Ok(Some(bytes))
}

#[test]
fn a_joined_report_is_made_on_a_disk(rt: HostRuntime) -> Result<(), Fail> {
    let alloc = rt.alloc();
    for whole in [true, false] {
        let disk = on(alloc, MemDisk::new(alloc), REPORTS)?;
        let mut reports = MakingReports::over(alloc, disk, 7);
        assert!(rt; joins(alloc, whole, &mut reports)?);
        let mut disk = reports.into_disk();
        let made = joined_on(alloc, &mut disk, whole)?;
        assert_eq!(rt; made.as_deref(), Some(JOINED));
        assert!(rt; joined_on(alloc, &mut disk, !whole)?.is_none());
        // It is found to be the joined one, by one that asks for that.
        for asked in [true, false] {
            let mut reports = ComparedReports::over(alloc, disk, 7, asked);
            assert_eq!(rt; joins(alloc, whole, &mut reports)?, asked == whole);
            disk = reports.into_disk();
        }
        // It is not made twice.
        let mut reports = MakingReports::over(alloc, disk, 7);
        assert!(rt; !joins(alloc, whole, &mut reports)?);
    }
    Ok(())
}

#[test]
fn the_word_is_said_before_a_joined_report_is_put(rt: HostRuntime) -> Result<(), Fail> {
    let alloc = rt.alloc();
    for whole in [true, false] {
        let word = [7, if whole { 1 } else { 0 }];
        let mut out = MemOutput::new(alloc);
        out.fail_call(1, 1);
        let disk = on(alloc, MemDisk::new(alloc), REPORTS)?;
        let mut reports = MakingReports::over(alloc, disk, 7);
        assert!(rt; !says(alloc, whole, &mut reports, &mut out)?);
        let mut disk = reports.into_disk();
        assert!(rt; joined_on(alloc, &mut disk, whole)?.is_none());
        assert_eq!(rt; out.text(), &word[..1]);
        // An output that takes it has it, once.
        let mut out = MemOutput::new(alloc);
        let disk = on(alloc, MemDisk::new(alloc), REPORTS)?;
        let mut reports = MakingReports::over(alloc, disk, 7);
        assert!(rt; says(alloc, whole, &mut reports, &mut out)?);
        assert_eq!(rt; out.text(), word.as_slice());
        // And not when it is compared.
        let mut reports = ComparedReports::over(alloc, reports.into_disk(), 7, whole);
        assert!(rt; says(alloc, whole, &mut reports, &mut out)?);
        assert_eq!(rt; out.text(), word.as_slice());
    }
    Ok(())
}

#[test]
fn another_joined_report_is_not_taken_for_it(rt: HostRuntime) -> Result<(), Fail> {
    let alloc = rt.alloc();
    for texts in [OTHER, LESS, MORE] {
        let mut reports = MakingReports::over(alloc, on(alloc, MemDisk::new(alloc), REPORTS)?, 7);
        assert!(rt; joins(alloc, true, &mut reports)?);
        let mut disk = reports.into_disk();
        disk.put_parts(parts_of(alloc, texts)?);
        let mut reports = ComparedReports::over(alloc, disk, 7, true);
        assert!(rt; !joins(alloc, true, &mut reports)?, "{}", texts[1]);
    }
    Ok(())
}

/// More calls than a joining makes of a disk.
const MANY: u64 = 40;

#[test]
fn a_joined_report_is_whole_or_not_there(rt: HostRuntime) -> Result<(), Fail> {
    let alloc = rt.alloc();
    let mut failed = 0;
    for number in 1..MANY {
        let mut disk = MemDisk::new(alloc);
        disk.fail_call(number);
        let mut reports = MakingReports::over(alloc, on(alloc, disk, REPORTS)?, 7);
        let is_joined = joins(alloc, true, &mut reports)?;
        if !is_joined {
            failed += 1;
        }
        let mut disk = reports.into_disk();
        let mut found = joined_on(alloc, &mut disk, true)?;
        if found.is_none() {
            // The call that is made to fail may be this one.
            found = joined_on(alloc, &mut disk, true)?;
        }
        match found {
            Some(bytes) => assert_eq!(rt; bytes.as_slice(), JOINED, "{number}"),
            None => assert!(rt; !is_joined, "{number}"),
        }
    }
    assert!(rt; failed > 3 && failed < MANY - 1);
    Ok(())
}
