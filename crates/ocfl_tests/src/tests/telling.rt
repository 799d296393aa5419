//! What a night says and logs.
mod closing;
mod files;
mod respelt;
mod rows;

use crate::tests::common::store::place_of;
use ocfl_messages::{
    Found, Gravest, Heads, Known, KnownEntry, KnownStop, Night, Quoted, Reach, RefusalMessage,
    StopMessage, find_shown, night_text, read_known, refusal_text, stop_text,
};
use ocfl_report::{Further, Line, TextStop, read_line};
use std::alloc::Global;
use std::test::Fail;

/// What is found in a report that comes in pieces of `piece` bytes.
fn found_in(alloc: Global, known: &Known, report: &str, piece: usize) -> Result<Gravest, TextStop> {
    let mut found = Found::new(alloc, Heads::new());
    let mut rest = report.as_bytes();
    for _ in 0..report.len() {
        let count = piece.min(rest.len());
        found = found.take(alloc, known, &rest[..count])?;
        rest = &rest[count..];
    }
    let (gravest, _) = found.end(true)?;
    Ok(gravest)
}

const NIGHT: Night<'static> = Night {
    root: "/srv/\u{e9}\n",
    part: None,
    cycle: 2,
    first: 3,
    last: 4,
    report: "/state/report",
};

const REPORT: &str = "ok\t.\t-\nE072\ta\t-\nE092\tb/v1/content/f\tsha512 00 11\nS07\tb\tx\n\
E060\tc\tsha512\nE092\td\tmd5 missing\n";

const MESSAGE: &str = "4 findings tonight in /srv/%C3%A9%0A, cycle 2, runs 3 to 4:
Elsewhere, E092:
\tb/v1/content/f: bytes have changed (E092), expected sha512 00, found 11
\td: missing (E092)
\tTo do: restore the file from a copy with the expected digest
Object c:
\tits inventory and the sidecar differ (E060)
\tTo do: look for the expected digest among the inventories of its version folders
Elsewhere, E072:
\ta: a file outside of any object (E072)
\tTo do: see whether the files are those of an object, and restore its declaration
What to do first about a code: ocfl-scrub codes
";

#[test]
fn nights_say_what_is_gravest_first(rt: HostRuntime) -> Result<(), Fail> {
    let alloc = rt.alloc();
    let known = Known::new(alloc);
    for piece in [1, 5, 1000] {
        let found = found_in(alloc, &known, REPORT, piece)?;
        assert_eq!(rt; found.count(), 4, "{piece}");
        let text = String::from_utf8(night_text(alloc, &NIGHT, &found)?)?;
        assert_eq!(rt; text.as_str(), MESSAGE, "{piece}");
    }
    Ok(())
}

const OBJECTS: &str = "ok\t.\t-\nok\to\t-\nE023\to/v1/content/a\t-\n\
E092\to/v1/content/b%25\tsha256 0123456789abcdef 0123456789ab\nok\to-\t-\n\
E092\to-/v1/content/a\tsha512 missing\nE023\to-/v1/content/b\t-\nE023\to-/v1/content/c\t-\n\
E023\to-/v1/content/d\t-\nE023\to-/v1/content/e\t-\nE023\to-/v1/content/f\t-\n\
E101\tp\ta%0Ab\nok\tp/v1/content/a\t5\n";

const BY_OBJECT: &str = "9 findings tonight in /srv, cycle 2, run 4:
Object o, 0 of 2 files right:
\tv1/content/b%25: bytes have changed (E092), expected sha256 0123456789ab.., found 0123456789ab
\tv1/content/a: not in the inventory (E023)
\tTo do: restore the file from a copy with the expected digest
\tTo look again: ocfl-scrub check '/srv' 'o/v1/content/b%25'
Object o-, 0 of 6 files right:
\tv1/content/a: missing (E092)
\tv1/content/b: not in the inventory (E023)
\tv1/content/c: not in the inventory (E023)
\tv1/content/d: not in the inventory (E023)
\tand 2 more: not in the inventory (E023)
\tTo look again: ocfl-scrub check '/srv' 'o-/v1/content/a'
Object p, 1 of 1 file right:
\tits manifest has a path twice, or one below a file (E101): a%0Ab
\tTo do: validate the object, and tell whoever wrote its inventory
\tTo look again: ocfl-scrub check '/srv' 'p'
What to do first about a code: ocfl-scrub codes
";

#[test]
fn findings_of_an_object_come_together(rt: HostRuntime) -> Result<(), Fail> {
    let alloc = rt.alloc();
    let night = Night {
        root: "/srv",
        first: 4,
        ..NIGHT
    };
    for piece in [1, 7, 1000] {
        let found = found_in(alloc, &Known::new(alloc), OBJECTS, piece)?;
        let text = String::from_utf8(night_text(alloc, &night, &found)?)?;
        assert_eq!(rt; text.as_str(), BY_OBJECT, "{piece}");
    }
    Ok(())
}

/// The lines of a report before those of a night that begins in the middle of an object, and these.
const BEFORE: &str = "ok\t.\t-\nok\ta\t-\nok\ta/v1/content/f\t3\nok\tb\t-\nok\tb/v1/content/f\t3\n";

const WITHIN: &str = "E092\tb/v1/content/g\tmd5 missing\nE092\tc/v1/content/f\tmd5 missing\n";

const WITHIN_MESSAGE: &str = "2 findings tonight in /srv/%C3%A9%0A, cycle 2, runs 3 to 4:
Object b, 0 of 1 file right of those read tonight:
\tv1/content/g: missing (E092)
\tTo do: restore the file from a copy with the expected digest
Elsewhere, E092:
\tc/v1/content/f: missing (E092)
What to do first about a code: ocfl-scrub codes
";

#[test]
fn nights_go_on_within_an_object(rt: HostRuntime) -> Result<(), Fail> {
    let alloc = rt.alloc();
    let known = Known::new(alloc);
    // What follows the last line feed is no line yet.
    let before = format!(in alloc; "{BEFORE}ok\tc\t")?;
    let heads = Heads::within(alloc, before.as_str().as_bytes())?;
    let found = Found::new(alloc, heads).take(alloc, &known, WITHIN.as_bytes())?;
    let (gravest, heads) = found.end(true)?;
    let text = String::from_utf8(night_text(alloc, &NIGHT, &gravest)?)?;
    assert_eq!(rt; text.as_str(), WITHIN_MESSAGE);
    // What comes then goes on there too.
    let found = Found::new(alloc, heads).take(alloc, &known, WITHIN.as_bytes())?;
    let (gravest, _) = found.end(true)?;
    let text = String::from_utf8(night_text(alloc, &NIGHT, &gravest)?)?;
    assert_eq!(rt; text.as_str(), WITHIN_MESSAGE);
    Ok(())
}

#[test]
fn no_head_is_found_before_bad_lines(rt: HostRuntime) -> Result<(), Fail> {
    let stop = match Heads::within(rt.alloc(), b"ok\tb\t-\nno line\n") {
        Ok(_) => None,
        Err(stop) => Some(stop),
    };
    assert_eq!(rt; stop, Some(TextStop::Bad));
    Ok(())
}

/// A storage root, the path of a place in reports, and the words of the command to look at it.
const COMMANDS: [(&str, &str, &str); 10] = [
    ("/srv/ocfl", "a/f.txt", "'/srv/ocfl' 'a/f.txt'"),
    ("/srv/ocfl", ".", "'/srv/ocfl' '.'"),
    (
        "/srv/it's",
        "a;b$(touch ran).txt",
        "'/srv/it'\\''s' 'a;b$(touch ran).txt'",
    ),
    (
        "/srv/ocfl",
        "it's 'so'",
        "'/srv/ocfl' 'it'\\''s '\\''so'\\'''",
    ),
    (
        "/srv/\u{e9}",
        "Brief an M%C3%BCller.pdf",
        "'/srv/\u{e9}' 'Brief an M\u{fc}ller.pdf'",
    ),
    // A path of a report is read as that: the name `a%25b` is not the one of `a%b`.
    ("/srv/ocfl", "a%25b", "'/srv/ocfl' 'a%25b'"),
    ("/srv/ocfl", "a%0A'b", "'/srv/ocfl' 'a%0A'\\''b'"),
    ("/srv/ocfl", "a%C2%9B2J", "'/srv/ocfl' 'a%C2%9B2J'"),
    (
        "/srv/ocfl",
        "photo %E2%80%AEgpj.exe",
        "'/srv/ocfl' 'photo %E2%80%AEgpj.exe'",
    ),
    ("/srv/ocfl", "-r/f", "-- '/srv/ocfl' '-r/f'"),
];

#[test]
fn nights_show_a_command_to_paste(rt: HostRuntime) -> Result<(), Fail> {
    let alloc = rt.alloc();
    let known = Known::new(alloc);
    for (root, path, words) in COMMANDS {
        let report = format!(in alloc; "E072\t{path}\t-\n")?;
        let found = found_in(alloc, &known, report.as_str(), 1000)?;
        let night = Night { root, ..NIGHT };
        let text = String::from_utf8(night_text(alloc, &night, &found)?)?;
        let wanted = format!(in alloc;
            "\n\tTo do: see whether the files are those of an object, and restore its declaration\n\
             \tTo look again: ocfl-scrub check {words}\n"
        )?;
        assert!(rt; text.as_str().ends_with(wanted.as_str()), "{path}");
    }
    Ok(())
}

/// A text, and as a word of a command line.
const QUOTED: [(&str, &str); 8] = [
    ("", "''"),
    ("a b", "'a b'"),
    ("'", "''\\'''"),
    ("$(ran)`ran`;\\", "'$(ran)`ran`;\\'"),
    ("100% \u{fc}", "'100% \u{fc}'"),
    ("\u{fc}%\u{1b}[2J'", "'%C3%BC%25%1B[2J'\\'''"),
    ("\u{fc}'\u{202e}'", "'%C3%BC'\\''%E2%80%AE'\\'''"),
    ("\u{fc}\u{200d}\u{2060}", "'\u{fc}\u{200d}\u{2060}'"),
];

#[test]
fn texts_are_quoted(rt: HostRuntime) -> Result<(), Fail> {
    for (text, word) in QUOTED {
        let quoted = format!(in rt.alloc(); "{}", Quoted(text))?;
        assert_eq!(rt; quoted.as_str(), word, "{text}");
    }
    Ok(())
}

/// Marks of direction (`Bidi_Control` of Unicode 15.0), and what ends a line or a paragraph.
const TURNING: [(&str, &str); 14] = [
    ("\u{61c}", "%D8%9C"),
    ("\u{200e}", "%E2%80%8E"),
    ("\u{200f}", "%E2%80%8F"),
    ("\u{2028}", "%E2%80%A8"),
    ("\u{2029}", "%E2%80%A9"),
    ("\u{202a}", "%E2%80%AA"),
    ("\u{202b}", "%E2%80%AB"),
    ("\u{202c}", "%E2%80%AC"),
    ("\u{202d}", "%E2%80%AD"),
    ("\u{202e}", "%E2%80%AE"),
    ("\u{2066}", "%E2%81%A6"),
    ("\u{2067}", "%E2%81%A7"),
    ("\u{2068}", "%E2%81%A8"),
    ("\u{2069}", "%E2%81%A9"),
];

#[test]
fn no_name_turns_a_line_around(rt: HostRuntime) -> Result<(), Fail> {
    let alloc = rt.alloc();
    let known = Known::new(alloc);
    for (mark, bytes) in TURNING {
        let report = format!(in alloc; "E092\ta{bytes}b/f\tmd5 missing\n")?;
        let found = found_in(alloc, &known, report.as_str(), 1000)?;
        let text = String::from_utf8(night_text(alloc, &NIGHT, &found)?)?;
        let wanted = format!(in alloc; "\ta{bytes}b/f: missing (E092)\n")?;
        assert!(rt; text.as_str().contains(wanted.as_str()), "{bytes}");
        assert!(rt; !text.as_str().contains(mark), "{bytes}");
        let root = format!(in alloc; "/srv/{mark}")?;
        let night = Night {
            root: root.as_str(),
            ..NIGHT
        };
        let text = String::from_utf8(night_text(alloc, &night, &found)?)?;
        assert!(rt; !text.as_str().contains(mark), "{bytes} in the root");
        assert!(rt;
            !text.as_str().contains("To look again"),
            "{bytes} in the root"
        );
    }
    Ok(())
}

/// A report with `count` findings of one code, at the places `p000` on.
fn many(alloc: Global, code: &str, count: usize) -> Result<String, Fail> {
    let mut text = String::new(alloc);
    for number in 0..count {
        text.push_str(format!(in alloc; "{code}\tp{number:03}\t-\n")?.as_str())?;
    }
    Ok(text)
}

const MANY: &str = "Elsewhere, E072:
\tp000: a file outside of any object (E072)
\tp001: a file outside of any object (E072)
\tp002: a file outside of any object (E072)
\tand 197 more: a file outside of any object (E072)
\tTo do: see whether the files are those of an object, and restore its declaration
";

#[test]
fn nights_keep_two_hundred(rt: HostRuntime) -> Result<(), Fail> {
    let alloc = rt.alloc();
    let known = Known::new(alloc);
    let part = Night {
        part: Some(7),
        first: 4,
        ..NIGHT
    };
    for (count, more) in [
        (200, ""),
        (
            201,
            "1 not shown here: ocfl-scrub-reports findings '/state/report'\n",
        ),
    ] {
        let report = many(alloc, "E072", count)?;
        let found = found_in(alloc, &known, report.as_str(), 1000)?;
        let text = String::from_utf8(night_text(alloc, &part, &found)?)?;
        let wanted = format!(in alloc;
            "{count} findings tonight in part 7 of /srv/%C3%A9%0A, cycle 2, run 4:\n{MANY}{more}"
        )?;
        assert_eq!(rt; text.as_str(), wanted.as_str(), "{count}");
    }
    Ok(())
}

/// A report of `count` objects, of each of which a file is missing and another one is strange.
fn damaged(alloc: Global, count: usize) -> Result<String, Fail> {
    let mut text = String::new(alloc);
    for number in 0..count {
        let object = format!(in alloc;
            "ok\to{number:03}\t-\nE092\to{number:03}/v1/content/a\tsha512 missing\n\
             E023\to{number:03}/v1/content/b\t-\n"
        )?;
        text.push_str(object.as_str())?;
    }
    Ok(text)
}

/// The numbers of damaged objects, those that are shown whole, those with one line, and those with
/// none. A message has 24 lines for objects: the first one has five if it is whole, each other
/// four.
const CUT: [(usize, usize, usize, usize); 6] = [
    (1, 1, 0, 0),
    (5, 5, 0, 0),
    (6, 5, 1, 0),
    (20, 1, 19, 0),
    (24, 0, 24, 0),
    (30, 0, 24, 6),
];

/// What is said of objects from one on, each in a line.
fn in_lines(alloc: Global, first: usize, end: usize) -> Result<String, Fail> {
    let mut text = String::new(alloc);
    for number in first..end {
        let line = format!(in alloc;
            "Object o{number:03}: v1/content/a: missing (E092), and 1 more\n"
        )?;
        text.push_str(line.as_str())?;
    }
    Ok(text)
}

#[test]
fn objects_are_cut_to_a_line_before_one_is_left_out(rt: HostRuntime) -> Result<(), Fail> {
    let alloc = rt.alloc();
    let night = Night {
        root: "/srv",
        ..NIGHT
    };
    for (count, whole, cut, none) in CUT {
        assert_eq!(rt; count, whole + cut + none, "{count}");
        let found = found_in(
            alloc,
            &Known::new(alloc),
            damaged(alloc, count)?.as_str(),
            1000,
        )?;
        let text = String::from_utf8(night_text(alloc, &night, &found)?)?;
        let text = text.as_str();
        assert!(rt; text.split_inclusive('\n').count() <= 27, "{count}");
        assert_eq!(rt; text.matches("\tTo look again: ").count(), whole, "{count}");
        let lines = in_lines(alloc, whole, whole + cut)?;
        assert!(rt; text.contains(lines.as_str()), "{count}");
        let left = format!(in alloc;
            "\n{} not shown here: ocfl-scrub-reports findings '/state/report'\n",
            2 * none
        )?;
        assert_eq!(rt; text.contains(left.as_str()), none > 0, "{count}");
        assert_eq!(rt;
            find_shown(alloc, &found)?.len(),
            2 * (whole + cut),
            "{count}"
        );
    }
    Ok(())
}

/// What is said of 18 files in the wrong place, 15 without an entry, and one that cannot be read.
const GRAVER: &str = "34 findings tonight in /srv/%C3%A9%0A, cycle 2, runs 3 to 4:
Elsewhere, S08:
\tp000: could not be read (S08)
\tTo do: look at its permissions and at the kernel's log, then check it again
Elsewhere, E023:
\tp000: not in the inventory (E023)
\tp001: not in the inventory (E023)
\tp002: not in the inventory (E023)
\tand 12 more: not in the inventory (E023)
\tTo do: see whether a version is being written; if not, find out whose it is and move it away
Elsewhere, E072:
\tp000: a file outside of any object (E072)
\tp001: a file outside of any object (E072)
\tp002: a file outside of any object (E072)
\tand 15 more: a file outside of any object (E072)
\tTo do: see whether the files are those of an object, and restore its declaration
What to do first about a code: ocfl-scrub codes
";

#[test]
fn graver_findings_come_first(rt: HostRuntime) -> Result<(), Fail> {
    let alloc = rt.alloc();
    let mut report = many(alloc, "E072", 18)?;
    report.push_str(many(alloc, "E023", 15)?.as_str())?;
    report.push_str(many(alloc, "S08", 1)?.as_str())?;
    let found = found_in(alloc, &Known::new(alloc), report.as_str(), 1000)?;
    let text = String::from_utf8(night_text(alloc, &NIGHT, &found)?)?;
    assert_eq!(rt; text.as_str(), GRAVER);
    Ok(())
}

#[test]
fn nothing_found_is_not_said(rt: HostRuntime) -> Result<(), Fail> {
    let alloc = rt.alloc();
    for report in ["", "ok\t.\t-\n", "ok\t.\t-\nS07\ta\tx\n"] {
        let found = found_in(alloc, &Known::new(alloc), report, 1000)?;
        assert!(rt; night_text(alloc, &NIGHT, &found)?.is_empty(), "{report}");
    }
    Ok(())
}

#[test]
fn bytes_of_no_report_are_refused(rt: HostRuntime) -> Result<(), Fail> {
    let alloc = rt.alloc();
    let broken = "ok\t.\t-\nE999\ta\t-\nok\tb\t-\n";
    for report in ["ok\t.\t-", "ok\t.\n", broken, "\n"] {
        for piece in [1, 1000] {
            let stop = found_in(alloc, &Known::new(alloc), report, piece).err();
            assert_eq!(rt; stop, Some(TextStop::Bad), "{report}");
        }
    }
    Ok(())
}

fn line_of(alloc: Global, text: &str) -> Result<Line, Fail> {
    Ok(read_line(alloc, text.as_bytes())?)
}

/// A list with one entry.
fn known_as(alloc: Global, reach: Reach, text: &str) -> Result<Known, Fail> {
    let mut entries = Vec::new(alloc);
    let line = line_of(alloc, text)?;
    entries.push(KnownEntry { reach, line })?;
    Ok(Known::of(entries)?)
}

/// An entry, a report of lines that it names, and one of lines that it does not.
const NAMED: [(Reach, &str, &str, &str); 4] = [
    (
        Reach::One,
        "E092\ta/b\tx\n",
        "E092\ta/b\tx\n",
        "E092\ta/b\ty\nE093\ta/b\tx\nE092\ta\tx\n",
    ),
    (
        Reach::Place,
        "E092\ta/b\t-\n",
        "E092\ta/b\ty\n",
        "E092\ta/b/c\ty\nE072\ta/b\t-\n",
    ),
    (
        Reach::Branch,
        "E072\ta/b\t-\n",
        "E072\ta/b\t-\nE072\ta/b/c\t-\n",
        "E072\ta/bc\t-\nE073\ta/b/c\t-\n",
    ),
    (Reach::Branch, "E072\t.\t-\n", "E072\tz\t-\n", ""),
];

#[test]
fn lists_name_findings(rt: HostRuntime) -> Result<(), Fail> {
    let alloc = rt.alloc();
    for (reach, entry, named, others) in NAMED {
        let known = known_as(alloc, reach, entry)?;
        for (report, wanted) in [(named, true), (others, false)] {
            for line in report.split_inclusive('\n') {
                let line = line_of(alloc, line)?;
                assert_eq!(rt; known.names(&line), wanted, "{entry}{line:?}");
            }
        }
    }
    Ok(())
}

/// Places by their paths, each before those that come after it.
const PLACES: [&str; 7] = [".", "a", "a/b", "a/b/c", "a-b", "a-b/c", "b"];

/// Whether an entry of this place names a finding of another one.
fn is_reached(reach: Reach, path: &str, other: &str) -> bool {
    match reach {
        Reach::One | Reach::Place => path == other,
        Reach::Branch if path == "." || path == other => true,
        Reach::Branch => match other.strip_prefix(path) {
            Some(rest) => rest.starts_with('/'),
            None => false,
        },
    }
}

/// Entries of each reach at two places, in both orders, name what one of them names.
#[test]
fn lists_of_two_entries_name_what_each_names(rt: HostRuntime) -> Result<(), Fail> {
    let alloc = rt.alloc();
    for path in PLACES {
        for next in PLACES {
            for reach in [Reach::One, Reach::Place, Reach::Branch] {
                let mut entries = Vec::new(alloc);
                for (reach, path) in [(reach, path), (Reach::Branch, next)] {
                    let line = line_of(alloc, format!(in alloc; "E092\t{path}\t-\n")?.as_str())?;
                    entries.push(KnownEntry { reach, line })?;
                }
                let known = Known::of(entries)?;
                for other in PLACES {
                    let text = format!(in alloc; "E092\t{other}\t-\n")?;
                    let wanted = is_reached(reach, path, other)
                        || is_reached(Reach::Branch, next, other);
                    assert_eq!(rt;
                        known.names(&line_of(alloc, text.as_str())?),
                        wanted,
                        "{path} {next} {other}"
                    );
                }
            }
        }
    }
    Ok(())
}

/// Each entry of a long list names its finding, in whichever order they come, and no other.
#[test]
fn long_lists_name_their_findings(rt: HostRuntime) -> Result<(), Fail> {
    let alloc = rt.alloc();
    let mut entries = Vec::new(alloc);
    for number in 0..100u64 {
        let path = number * 37 % 100;
        let line = line_of(alloc, format!(in alloc; "E092\to/{path}\t-\n")?.as_str())?;
        let reach = Reach::Place;
        entries.push(KnownEntry { reach, line })?;
    }
    let known = Known::of(entries)?;
    assert_eq!(rt; known.count(), 100);
    for path in 0..200u64 {
        let line = line_of(alloc, format!(in alloc; "E092\to/{path}\tx\n")?.as_str())?;
        assert_eq!(rt; known.names(&line), path < 100, "{path}");
    }
    Ok(())
}

#[test]
fn known_findings_are_left_out(rt: HostRuntime) -> Result<(), Fail> {
    let alloc = rt.alloc();
    let known = known_as(alloc, Reach::Branch, "E092\tb\t-\n")?;
    let found = found_in(alloc, &known, REPORT, 1000)?;
    assert_eq!(rt; found.count(), 3);
    assert_eq!(rt; found.bytes.count, 1);
    Ok(())
}

/// What a night refuses a root or a folder for, and the message.
const REFUSALS: [(RefusalMessage, &str); 7] = [
    (
        RefusalMessage::NoCheckpoint,
        "S has no checkpoint: is its file system mounted? For a first night, give --create. \
         Nothing was run.\n",
    ),
    (
        RefusalMessage::OtherRoot("/srv/\u{1b}[2J"),
        "S belongs to the storage root /srv/%1B[2J, and this one is R. A root at another path \
         needs a new state folder, whose first cycle is compared with nothing. To find what was \
         lost in the move, give --expected the list that ocfl-scrub-reports expected 'S' \
         writes. Nothing was run.\n",
    ),
    (
        RefusalMessage::NamesGone { gone: 3, before: 5 },
        "3 of the 5 names in R are gone: is its file system mounted? --force-root runs it \
         anyway. Nothing was run.\n",
    ),
    (
        RefusalMessage::Older { cycle: 7 },
        "S/checkpoint is older than S/reports, where cycle 7 is closed already. Restore its \
         newest copy. Without one, move S/report to another folder, and copy the last \
         checkpoint-N in S/reports to S/checkpoint. Nothing was run.\n",
    ),
    (
        RefusalMessage::OtherAudit(Further::Nothing),
        "S: the folder's nights are of an audit without --inventories. Nothing was run.\n",
    ),
    (
        RefusalMessage::OtherAudit(Further::Inventories),
        "S: the folder's nights are of an audit with --inventories. Nothing was run.\n",
    ),
    (
        RefusalMessage::RootChanged,
        "R is not the storage root that the night began with: is its file system mounted? The \
         run does not count; the next night makes it again.\n",
    ),
];

#[test]
fn refusals_say_why(rt: HostRuntime) -> Result<(), Fail> {
    let alloc = rt.alloc();
    for (refusal, wanted) in REFUSALS {
        let text = refusal_text(alloc, refusal, "R", "S")?;
        assert_eq!(rt; text.as_str(), wanted);
    }
    Ok(())
}

#[test]
fn stops_say_why(rt: HostRuntime) -> Result<(), Fail> {
    let alloc = rt.alloc();
    let place = place_of(alloc, "a/b\n")?;
    for (stop, words, part, wanted) in [
        (
            StopMessage::At(&place),
            Some("Permission denied"),
            None,
            "The night of R stopped: stopped at a/b%0A (Permission denied). The next one tries \
             that place again.\n",
        ),
        (
            StopMessage::State,
            Some("No space left on device"),
            Some(2),
            "The night of part 2 of R stopped: S failed (No space left on device). The next one \
             continues from the checkpoint.\n",
        ),
        (
            StopMessage::Memory,
            None,
            None,
            "The night of R stopped: out of memory. The next one continues from the checkpoint.\n",
        ),
    ] {
        let text = stop_text(alloc, stop, words, part, "R", "S")?;
        assert_eq!(rt; text.as_str(), wanted);
    }
    Ok(())
}

/// A list, and how many entries it has.
const LISTS: [(&str, usize); 9] = [
    ("", 0),
    ("# a remark\n\n#\n", 0),
    ("object\ta\nundeclared\tb\nfile\tc/f\nexpected\td\n", 0),
    ("E092\ta/b\tsha512 00 11\n", 1),
    ("E092\ta/b\n", 1),
    ("E072\ta/\n", 1),
    ("E072\t./\n", 1),
    ("E072\ta/\n# why\nE092\tb", 2),
    ("E092\t%C3%A9/\n", 1),
];

#[test]
fn lists_of_known_findings_are_read(rt: HostRuntime) -> Result<(), Fail> {
    let alloc = rt.alloc();
    for (text, count) in LISTS {
        let mut reader = text.as_bytes();
        assert_eq!(rt; read_known(alloc, &mut reader)?.count(), count, "{text}");
    }
    let mut reader = b"E072\t./\nE092\ta\nE093\tb\tmd5 missing\n".as_slice();
    let known = read_known(alloc, &mut reader)?;
    for (line, wanted) in [
        ("E072\tz/y\t-\n", true),
        ("E092\ta\tx\n", true),
        ("E092\ta/b\tx\n", false),
        ("E093\tb\tmd5 missing\n", true),
        ("E093\tb\tmd5 00 11\n", false),
    ] {
        assert_eq!(rt; known.names(&line_of(alloc, line)?), wanted, "{line}");
    }
    Ok(())
}

#[test]
fn lines_of_what_is_gone_name_no_finding(rt: HostRuntime) -> Result<(), Fail> {
    let alloc = rt.alloc();
    for text in [
        "object\ta/b\nE092\ta\nE072\tb/\n",
        "E092\ta\nfile\ta/b/v1/content/c\nE072\tb/\n",
        "E092\ta\nE072\tb/\nexpected\td\n",
        "object\ta\nE092\ta\nfile\tb\nE072\tb/\nexpected\tc",
    ] {
        let mut reader = text.as_bytes();
        let known = read_known(alloc, &mut reader)?;
        assert_eq!(rt; known.count(), 2, "{text}");
        for (line, wanted) in [
            ("E092\ta\t-\n", true),
            ("E072\tb/c\t-\n", true),
            ("E072\ta/b\t-\n", false),
            ("E092\tc\t-\n", false),
        ] {
            assert_eq!(rt; known.names(&line_of(alloc, line)?), wanted, "{text}{line}");
        }
    }
    Ok(())
}

/// A list, and the number of its first line that names nothing.
const BAD_LISTS: [(&str, usize); 11] = [
    ("E999\ta\n", 1),
    ("E092\n", 1),
    ("E092\ta//\n", 1),
    ("E092\t/a\n", 1),
    ("#x\nE092 a\n", 2),
    ("E092\ta\tb\tc\n", 1),
    ("E092\ta/b\n\n x", 3),
    ("E092\t%c3%a9\n", 1),
    ("object a\n", 1),
    ("object\ta\nfiles\ta\n", 2),
    (" expected\ta\n", 1),
];

#[test]
fn bad_lists_name_their_line(rt: HostRuntime) -> Result<(), Fail> {
    for (text, line) in BAD_LISTS {
        let mut reader = text.as_bytes();
        let stop = read_known(rt.alloc(), &mut reader).err();
        assert_eq!(rt; stop, Some(KnownStop::Line(line)), "{text}");
    }
    Ok(())
}
