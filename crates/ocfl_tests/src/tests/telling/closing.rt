//! What is said of a closed cycle.
use crate::tests::common::store::place_of;
use crate::tests::telling::line_of;
use ocfl_messages::{
    Closing, Counts, Finding, Gone, GoneKind, Gravest, Joined, Moved, SHOWN, Tally, closing_text,
    joined_text,
};
use ocfl_report::Line;
use ocfl_tree::Place;
use std::alloc::Global;
use std::test::Fail;

/// A finding in no object that is known.
fn finding_of(alloc: Global, text: &str) -> Result<Finding, Fail> {
    let line = line_of(alloc, text)?;
    Ok(Finding {
        line,
        object: None,
        files: None,
    })
}

/// A closing of which there is nothing to say, with these findings that were not said.
fn quiet<'a>(appeared: &'a Gravest) -> Closing<'a> {
    Closing {
        root: "/srv",
        counts: None,
        runs: 0,
        cycle: 3,
        before: 2,
        uncompared: "",
        whole: true,
        report: "reports/cycle-000003",
        earlier: "reports/cycle-000002",
        list: "reports/gone-000003",
        appeared,
        appeared_count: 0,
        said: 0,
        repaired: &[],
        repaired_count: 0,
        back: &[],
        back_count: 0,
        gone: &[],
        gone_count: 0,
        unlooked: 0,
        moved: moved(0, 0, 0),
    }
}

/// So many root inventories are others: of the same version, of older ones, of newer ones.
fn moved(rewritten: u64, went_back: u64, newer: u64) -> Moved {
    Moved {
        rewritten,
        went_back,
        newer,
    }
}

/// In 13 lines, which is all that there are.
const CLOSED: &str = "Cycle 3 ended, but its report is incomplete: reports/cycle-000003
In it: 926 of 930 files right, 160 objects, 51.2 MB, 12 runs.
25 new findings, 4 objects and files gone since cycle 2.
4 objects and files are gone or missing in cycle 3:
object\to
3 not shown here: cat 'reports/gone-000003'
5 files of objects that are gone, or whose inventory cannot be used, are not looked at any more.
25 findings of cycle 3 are new since cycle 2, 3 of them above:
22 not shown here: ocfl-scrub-reports findings 'reports/cycle-000003'
22 findings of cycle 2 are repaired in cycle 3:
22 not shown here: ocfl-scrub-reports changed 'reports/cycle-000002' 'reports/cycle-000003'
2 objects are back in cycle 3:
2 not shown here: ocfl-scrub-reports changed 'reports/cycle-000002' 'reports/cycle-000003'
";

/// The same of a whole report with fewer findings.
const WHOLE: &str = "Cycle 3 ended: 926 of 930 files right, 160 objects, 51.2 MB.
Nothing new, 4 objects and files gone since cycle 2.
4 objects and files are gone or missing in cycle 3:
object\to
undeclared\tp
file\tq/v1/content/Brief an M\u{fc}ller.pdf
expected\tr%25
1 finding of cycle 2 is repaired in cycle 3:
\tb: a file outside of any object (E072)
1 object is back in cycle 3:
object\ts
";

/// What changed in a cycle: of each kind as much as is shown.
#[derive(Drop)]
struct Changed {
    new: Gravest,
    repaired: Vec<Line>,
    back: Vec<Place>,
    gone: Vec<Gone>,
}

/// One more of what is gone.
fn add_gone(alloc: Global, gone: &mut Vec<Gone>, kind: GoneKind, path: &str) -> Result<(), Fail> {
    let place = place_of(alloc, path)?;
    gone.push(Gone { kind, place })?;
    Ok(())
}

/// Two new findings, one that is repaired, an object that is back, and four places that are gone.
fn make_changes(alloc: Global) -> Result<Changed, Fail> {
    let mut new = Gravest::new(alloc);
    new.add(finding_of(alloc, "E072\ta\t-\n")?)?;
    new.add(finding_of(alloc, "E092\tb\tx\n")?)?;
    let mut repaired = Vec::new(alloc);
    repaired.push(line_of(alloc, "E072\tb\t-\n")?)?;
    let mut back = Vec::new(alloc);
    back.push(place_of(alloc, "s")?)?;
    let mut gone = Vec::new(alloc);
    for (kind, path) in [
        (GoneKind::Object, "o"),
        (GoneKind::Undeclared, "p"),
        (GoneKind::File, "q/v1/content/Brief an M\u{fc}ller.pdf"),
        (GoneKind::Expected, "r%"),
    ] {
        add_gone(alloc, &mut gone, kind, path)?;
    }
    Ok(Changed {
        new,
        repaired,
        back,
        gone,
    })
}

/// The closing of a whole report with these changes, of which all but the new ones are shown.
fn closing_of<'a>(changed: &'a Changed) -> Closing<'a> {
    Closing {
        counts: Some(COUNTS),
        repaired: changed.repaired.as_slice(),
        repaired_count: 1,
        back: changed.back.as_slice(),
        back_count: 1,
        gone: changed.gone.as_slice(),
        gone_count: 4,
        ..quiet(&changed.new)
    }
}

#[test]
fn closings_of_nothing_are_empty(rt: HostRuntime) -> Result<(), Fail> {
    let none = Gravest::new(rt.alloc());
    assert!(rt; closing_text(rt.alloc(), &quiet(&none))?.is_empty());
    Ok(())
}

#[test]
fn closings_say_what_changed(rt: HostRuntime) -> Result<(), Fail> {
    let alloc = rt.alloc();
    let changed = make_changes(alloc)?;
    let text = String::from_utf8(closing_text(alloc, &closing_of(&changed))?)?;
    assert_eq!(rt; text.as_str(), WHOLE);
    Ok(())
}

#[test]
fn closings_of_incomplete_reports_say_where_the_rest_is(rt: HostRuntime) -> Result<(), Fail> {
    let alloc = rt.alloc();
    let changed = make_changes(alloc)?;
    let closing = Closing {
        whole: false,
        runs: 12,
        appeared_count: 25,
        said: 3,
        repaired_count: 22,
        back_count: 2,
        unlooked: 5,
        ..closing_of(&changed)
    };
    let text = String::from_utf8(closing_text(alloc, &closing)?)?;
    assert_eq!(rt; text.as_str(), CLOSED);
    Ok(())
}

/// How many root inventories are others, and what is said of them.
const MOVED: [(u64, u64, u64, &str); 4] = [
    (0, 0, 0, ""),
    (
        0,
        0,
        7,
        "Root inventories: 0 changed without a new version, 0 went back, 7 of a new version: \
         cat 'reports/gone-000003'\n",
    ),
    (
        1,
        0,
        0,
        "Root inventories: 1 changed without a new version, 0 went back, 0 of a new version: \
         cat 'reports/gone-000003'\n",
    ),
    (
        12,
        3,
        40,
        "Root inventories: 12 changed without a new version, 3 went back, 40 of a new version: \
         cat 'reports/gone-000003'\n",
    ),
];

#[test]
fn closings_count_other_root_inventories(rt: HostRuntime) -> Result<(), Fail> {
    let alloc = rt.alloc();
    let none = Gravest::new(alloc);
    for (rewritten, went_back, newer, wanted) in MOVED {
        let closing = Closing {
            moved: moved(rewritten, went_back, newer),
            ..quiet(&none)
        };
        let text = String::from_utf8(closing_text(alloc, &closing)?)?;
        assert_eq!(rt; text.as_str(), wanted);
    }
    Ok(())
}

#[test]
fn their_line_takes_no_room_from_others(rt: HostRuntime) -> Result<(), Fail> {
    let alloc = rt.alloc();
    let changed = make_changes(alloc)?;
    let closing = Closing {
        whole: false,
        runs: 12,
        appeared_count: 25,
        said: 3,
        repaired_count: 22,
        back_count: 2,
        unlooked: 5,
        moved: moved(1, 2, 3),
        ..closing_of(&changed)
    };
    let text = String::from_utf8(closing_text(alloc, &closing)?)?;
    let line =
        "Root inventories: 1 changed without a new version, 2 went back, 3 of a new version: \
                cat 'reports/gone-000003'\n";
    let rest = text.as_str().replace(alloc, line, "")?;
    assert_eq!(rt; rest.as_str(), CLOSED);
    assert_eq!(rt; text.as_str().split_inclusive('\n').count(), 14);
    Ok(())
}

/// How many objects are gone, how many of them are shown, and how many are not. There are eleven
/// lines for them and the line before them.
const GONE: [(usize, usize, usize); 4] = [(10, 10, 0), (11, 9, 2), (20, 9, 11), (157, 9, 148)];

#[test]
fn closings_show_what_is_gone_while_there_is_room(rt: HostRuntime) -> Result<(), Fail> {
    let alloc = rt.alloc();
    let none = Gravest::new(alloc);
    for (count, shown, more) in GONE {
        let mut gone = Vec::new(alloc);
        for number in 0..count.min(SHOWN) {
            let path = format!(in alloc; "o{number:03}")?;
            add_gone(alloc, &mut gone, GoneKind::Object, path.as_str())?;
        }
        let closing = Closing {
            gone: gone.as_slice(),
            gone_count: count as u64,
            counts: Some(COUNTS),
            ..quiet(&none)
        };
        let text = String::from_utf8(closing_text(alloc, &closing)?)?;
        let text = text.as_str();
        assert_eq!(rt; text.matches("object\to").count(), shown, "{count}");
        let left = format!(in alloc; "{more} not shown here: cat 'reports/gone-000003'\n")?;
        assert_eq!(rt; text.ends_with(left.as_str()), more > 0, "{count}");
        assert!(rt; text.split_inclusive('\n').count() <= 13, "{count}");
    }
    Ok(())
}

const COUNTS: Counts = Counts {
    right: 926,
    files: 930,
    objects: 160,
    bytes: 51_299_999,
};

/// The runs of a cycle, the cycle before, why nothing was compared, and what is said at its end.
const ENDED: [(u64, u64, &str, &str); 4] = [
    (0, 2, "", ".\nNothing new, nothing gone since cycle 2"),
    (
        1,
        2,
        "",
        ", 1 run.\nNothing new, nothing gone since cycle 2",
    ),
    (12, 0, "", ", 12 runs.\nNothing to compare with"),
    (2, 0, "lines were lost", ", 2 runs.\nNot compared"),
];

#[test]
fn closings_say_that_all_is_well(rt: HostRuntime) -> Result<(), Fail> {
    let alloc = rt.alloc();
    let none = Gravest::new(alloc);
    for (runs, before, uncompared, wanted) in ENDED {
        let closing = Closing {
            counts: Some(COUNTS),
            runs,
            before,
            uncompared,
            ..quiet(&none)
        };
        let text = String::from_utf8(closing_text(alloc, &closing)?)?;
        let wanted = format!(in alloc;
            "Cycle 3 ended: 926 of 930 files right, 160 objects, 51.2 MB{wanted}.\n"
        )?;
        assert!(rt; text.as_str().starts_with(wanted.as_str()), "{uncompared}");
    }
    Ok(())
}

/// Whether a joined report is whole, the runs of its parts, and the word on it.
const JOINED: [(bool, u64, &str); 3] = [
    (
        true,
        0,
        "Cycle 3 ended: 926 of 930 files right, 160 objects, 51.2 MB.\n",
    ),
    (
        true,
        1,
        "Cycle 3 ended: 926 of 930 files right, 160 objects, 51.2 MB, 1 run.\n",
    ),
    (
        false,
        12,
        "Cycle 3 ended, but its report is incomplete: reports/cycle-000003\n\
         In it: 926 of 930 files right, 160 objects, 51.2 MB, 12 runs.\n",
    ),
];

#[test]
fn joined_reports_have_a_word(rt: HostRuntime) -> Result<(), Fail> {
    for (whole, runs, wanted) in JOINED {
        let joined = Joined {
            cycle: 3,
            whole,
            report: "reports/cycle-000003",
            counts: COUNTS,
            runs,
        };
        let text = joined_text(rt.alloc(), &joined)?;
        assert_eq!(rt; text.as_str(), wanted, "{runs}");
    }
    Ok(())
}

/// Numbers of bytes, and as they are said.
const SIZES: [(u64, &str); 6] = [
    (0, "0 bytes"),
    (1, "1 byte"),
    (999, "999 bytes"),
    (1_000, "1.0 kB"),
    (1_999_999_999, "1.9 GB"),
    (12_345_000_000_000, "12.3 TB"),
];

#[test]
fn sizes_are_said_in_units(rt: HostRuntime) -> Result<(), Fail> {
    let alloc = rt.alloc();
    let none = Gravest::new(alloc);
    for (bytes, wanted) in SIZES {
        let closing = Closing {
            counts: Some(Counts {
                right: 1,
                files: 1,
                objects: 1,
                bytes,
            }),
            ..quiet(&none)
        };
        let text = String::from_utf8(closing_text(alloc, &closing)?)?;
        let wanted = format!(in alloc;
            "Cycle 3 ended: 1 of 1 file right, 1 object, {wanted}.\nNothing new"
        )?;
        assert!(rt; text.as_str().starts_with(wanted.as_str()), "{bytes}");
    }
    Ok(())
}

#[test]
fn lines_are_counted(rt: HostRuntime) -> Result<(), Fail> {
    let alloc = rt.alloc();
    let mut tally = Tally::new();
    for text in [
        "ok\t.\t-\n",
        "E072\ta\t-\n",
        "ok\to\t-\n",
        "S07\to\tx\n",
        "ok\to/v1/content/a\t7\n",
        "E092\to/v1/content/b\tsha512 00 11\n",
        "E093\to/v1/content/b\tmd5 00 11\n",
        "E023\to/v1/content/c\t-\n",
        "E060\tp\tsha512\n",
        "ok\tp/v1/content/a\t0\n",
    ] {
        tally.add(&line_of(alloc, text)?)?;
    }
    let counts = tally.counts();
    assert_eq!(rt; (counts.right, counts.files), (2, 4));
    assert_eq!(rt; (counts.objects, counts.bytes), (2, 7));
    Ok(())
}

/// How many findings are new, how many of them the night said, and what is said of them then.
const ABOVE: [(u64, u64, &str); 4] = [
    (0, 0, ""),
    (
        1,
        0,
        "1 finding of cycle 3 is new since cycle 2:\nElsewhere, E092:\n\ta: bytes have changed \
         (E092)\n\tTo do: restore the file from a copy with the expected digest\n\tTo look again: \
         ocfl-scrub check '/srv' 'a'\n",
    ),
    (
        2,
        1,
        "2 findings of cycle 3 are new since cycle 2, 1 of them above:\nElsewhere, E092:\n\ta: \
         bytes have changed (E092)\n\tTo do: restore the file from a copy with the expected \
         digest\n\tTo look again: ocfl-scrub check '/srv' 'a'\n",
    ),
    (
        2,
        2,
        "2 findings of cycle 3 are new since cycle 2, 2 of them above.\n",
    ),
];

#[test]
fn closings_say_no_line_twice(rt: HostRuntime) -> Result<(), Fail> {
    let alloc = rt.alloc();
    let mut new = Gravest::new(alloc);
    new.add(finding_of(alloc, "E092\ta\tx\n")?)?;
    for (appeared_count, said, wanted) in ABOVE {
        let closing = Closing {
            appeared_count,
            said,
            ..quiet(&new)
        };
        let text = String::from_utf8(closing_text(alloc, &closing)?)?;
        assert_eq!(rt; text.as_str(), wanted);
    }
    Ok(())
}

#[test]
fn closings_say_why_nothing_was_compared(rt: HostRuntime) -> Result<(), Fail> {
    let alloc = rt.alloc();
    let none = Gravest::new(alloc);
    let closing = Closing {
        whole: false,
        uncompared: "/s/reports/cycle-000002\nis gone",
        ..quiet(&none)
    };
    let text = String::from_utf8(closing_text(alloc, &closing)?)?;
    assert_eq!(rt;
        text.as_str(),
        "Cycle 3 ended, but its report is incomplete: reports/cycle-000003\nWhat is new or gone \
         since the last report is not known: /s/reports/cycle-000002%0Ais gone\n"
    );
    Ok(())
}
