//! The lines that a taker of changes sees.
ghost use Rattle.std.specs.Prelude.{⊤};

use super::{BEFORE, NOW};
use crate::tests::common::store::place_of;
use ocfl_compare::{Change, CompareStop, Side, TakeChange, TakeStop, compare, find_expected};
use ocfl_report::{Line, put_place};
use ocfl_tree::Place;
use std::alloc::{AllocError, Global};
use std::test::Fail;

/// Writes down what it sees and takes: `-` and a line of the report before, `+` and a line of this
/// one, `!` and the place of a change. After so many lines it fails.
#[derive(Drop)]
struct Watching {
    text: Vec<u8>,
    most: usize,
    stop: TakeStop,
}

impl Watching {
    fn new(alloc: Global, most: usize, stop: TakeStop) -> Watching {
        Watching {
            text: Vec::new(alloc),
            most,
            stop,
        }
    }

    fn put_line(&mut self, sign: u8, line: &Line) -> Result<(), AllocError> {
        self.text.push(sign)?;
        line.put(&mut self.text)
    }

    fn put_change(&mut self, place: &Place) -> Result<(), AllocError> {
        self.text.push(b'!')?;
        put_place(place, &mut self.text)?;
        self.text.push(b'\n')?;
        Ok(())
    }
}

impl TakeChange for Watching {
    ghost takes = { λ _ _ _. ⊤ };

    fn see(&mut self, side: Side, line: &Line) -> Result<(), TakeStop> {
        if self.most == 0 {
            return Err(self.stop);
        }
        self.most -= 1;
        match side {
            Side::Before => self.put_line(b'-', line)?,
            Side::Now => self.put_line(b'+', line)?,
        }
        Ok(())
    }

    fn take(&mut self, place: &Place, _change: Change) -> Result<(), TakeStop> {
        self.put_change(place)?;
        Ok(())
    }

    ghost nothing = { λ _. tt };

    ghost joined = { λ _ _ _ _ _ _ _. tt };
}

/// Two reports, and what is seen and taken of them.
const SEEN: [(&str, &str, &str); 3] = [
    (
        BEFORE,
        NOW,
        "-ok\t.\t-\n+ok\t.\t-\n-ok\to\t-\n+ok\to\t-\n\
-ok\to/v1/content/a\t3\n+E092\to/v1/content/a\tsha512 aa bb\n!o/v1/content/a\n\
-E092\to/v1/content/b\tsha256 missing\n+ok\to/v1/content/b\t4\n!o/v1/content/b\n\
-ok\tp\t-\n!p\n-ok\tp/v1/content/c\t0\n!p/v1/content/c\n",
    ),
    // All lines of a place come first, also those that say the same.
    (
        "E101\to\ta\nE101\to\tb\nok\tp\t-\n",
        "S07\tn\ta\nS07\tn\ta\nE060\to\tsha512 aa bb\nE101\to\tb\n",
        "+S07\tn\ta\n+S07\tn\ta\n\
-E101\to\ta\n-E101\to\tb\n+E060\to\tsha512 aa bb\n+E101\to\tb\n!o\n-ok\tp\t-\n!p\n",
    ),
    ("", "", ""),
];

#[test]
fn the_lines_of_a_place_come_before_its_changes(rt: HostRuntime) -> Result<(), Fail> {
    let alloc = rt.alloc();
    for (before, now, wanted) in SEEN {
        let mut first = before.as_bytes();
        let mut second = now.as_bytes();
        let mut seen = Watching::new(alloc, 100, TakeStop::Failed);
        compare(alloc, &mut first, &mut second, &[], &mut seen)?;
        assert_eq!(rt; str::from_utf8(&seen.text)?, wanted);
    }
    Ok(())
}

/// Lines of places that were left out are seen, and no changes are taken there.
#[test]
fn lines_of_what_was_left_out_are_seen(rt: HostRuntime) -> Result<(), Fail> {
    let alloc = rt.alloc();
    let left = vec![in alloc; place_of(alloc, ".")?]?;
    let mut seen = Watching::new(alloc, 100, TakeStop::Failed);
    compare(
        alloc,
        &mut BEFORE.as_bytes(),
        &mut NOW.as_bytes(),
        &left,
        &mut seen,
    )?;
    let text = str::from_utf8(&seen.text)?;
    assert_eq!(rt; text.lines().count(), 10);
    assert_eq!(rt; text.contains("!"), false);
    Ok(())
}

/// A taker that cannot see a line stops a comparison.
#[test]
fn what_cannot_be_seen_stops(rt: HostRuntime) -> Result<(), Fail> {
    let alloc = rt.alloc();
    for (stop, wanted) in [
        (TakeStop::Failed, CompareStop::Output),
        (TakeStop::Memory, CompareStop::Memory),
    ] {
        for most in 0..10 {
            let mut seen = Watching::new(alloc, most, stop);
            let (mut first, mut second) = (BEFORE.as_bytes(), NOW.as_bytes());
            let got = compare(alloc, &mut first, &mut second, &[], &mut seen).err();
            assert_eq!(rt; got, Some(wanted), "{most}");
        }
    }
    Ok(())
}

/// What is looked for in a report is not shown, and neither are its lines.
#[test]
fn no_line_of_a_search_is_seen(rt: HostRuntime) -> Result<(), Fail> {
    let alloc = rt.alloc();
    let mut listed = vec![in alloc; place_of(alloc, "o")?, place_of(alloc, "p")?]?;
    let mut seen = Watching::new(alloc, 0, TakeStop::Failed);
    find_expected(alloc, &mut listed, &mut NOW.as_bytes(), &[], &mut seen)?;
    assert_eq!(rt; seen.text.as_slice(), b"!p\n".as_slice());
    Ok(())
}
