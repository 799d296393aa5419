//! Files that are there under another spelling of their names.
use crate::tests::telling::{NIGHT, found_in};
use ocfl_messages::{Known, Night, night_text};
use std::alloc::Global;
use std::test::Fail;

/// Findings of two objects. In Unicode `\u{fc}` and `u` with `\u{308}` are one letter, and
/// `\u{1e69}` is `s` with two dots, in either order.
const RESPELT: &str = "ok\t.\t-\nok\to\t-\n\
E092\to/v1/content/Bu%CC%88r%25\tsha512 missing\nE023\to/v1/content/B%C3%BCr%25\t-\n\
E092\to/v1/content/M%C3%BC\tsha512 missing\nE023\to/v1/content/Mu\t-\n\
E023\to/v1/content/Mu%CC%88\t-\n\
E092\to/v1/content/a%C3%BC\tsha512 00 11\nE023\to/v1/content/au%CC%88\t-\n\
ok\tp\t-\nE092\tp/v1/content/%E1%B9%A9\tmd5 missing\n\
E023\tp/v1/content/s%CC%87%CC%A3\t-\nE023\tp/v1/content/s%CC%A3%CC%87\t-\n";

const ONE_LINE: &str = "10 findings tonight in /srv, cycle 2, run 4:
Object o, 0 of 7 files right:
\tv1/content/a\u{fc}: bytes have changed (E092), expected sha512 00, found 11
\tv1/content/Mu: not in the inventory (E023)
\tv1/content/au\u{308}: not in the inventory (E023)
\tv1/content/Bu%CC%88r%25: here under another spelling of its name (E092, E023)
\tv1/content/M\u{fc}: here under another spelling of its name (E092, E023)
\tTo do: restore the file from a copy with the expected digest
\tTo look again: ocfl-scrub check '/srv' 'o/v1/content/Bu%CC%88r%25'
Object p, 0 of 3 files right:
\tv1/content/s\u{323}\u{307}: not in the inventory (E023)
\tv1/content/\u{1e69}: here under another spelling of its name (E092, E023)
\tTo do: see whether a version is being written; if not, find out whose it is and move it away
\tTo look again: ocfl-scrub check '/srv' 'p/v1/content/\u{1e69}'
What to do first about a code: ocfl-scrub codes
";

/// The message of a night that found what this report says.
fn message_on(alloc: Global, report: &str) -> Result<String, Fail> {
    let night = Night {
        root: "/srv",
        first: 4,
        ..NIGHT
    };
    let found = found_in(alloc, &Known::new(alloc), report, 1000)?;
    Ok(String::from_utf8(night_text(alloc, &night, &found)?)?)
}

#[test]
fn another_spelling_is_one_line(rt: HostRuntime) -> Result<(), Fail> {
    let text = message_on(rt.alloc(), RESPELT)?;
    assert_eq!(rt; text.as_str(), ONE_LINE);
    Ok(())
}

/// An object with so many files whose names were written in another form.
fn copied(alloc: Global, count: usize) -> Result<String, Fail> {
    let mut text = String::from_str(alloc, "ok\t.\t-\nok\to\t-\n")?;
    for number in 0..count {
        let there = format!(in alloc; "E023\to/v1/content/{number:03}e%CC%81\t-\n")?;
        let lost = format!(in alloc; "E092\to/v1/content/{number:03}%C3%A9\tmd5 missing\n")?;
        text.push_str(there.as_str())?;
        text.push_str(lost.as_str())?;
    }
    Ok(text)
}

const COPIED: &str = "100 findings tonight in /srv, cycle 2, run 4:
Object o, 0 of 100 files right:
\tv1/content/000\u{e9}: here under another spelling of its name (E092, E023)
\tv1/content/001\u{e9}: here under another spelling of its name (E092, E023)
\tv1/content/002\u{e9}: here under another spelling of its name (E092, E023)
\tand 47 more: here under another spelling of its name (E092, E023)
\tTo look again: ocfl-scrub check '/srv' 'o/v1/content/000\u{e9}'
";

#[test]
fn objects_in_another_form_have_few_lines(rt: HostRuntime) -> Result<(), Fail> {
    let report = copied(rt.alloc(), 50)?;
    let text = message_on(rt.alloc(), report.as_str())?;
    assert_eq!(rt; text.as_str(), COPIED);
    Ok(())
}

/// The fixity block names the file too, and another one, and a third one has another digest there.
const OF_FIXITY: &str = "ok\t.\t-\nok\to\t-\n\
E092\to/v1/content/M%C3%BC\tsha512 missing\nE093\to/v1/content/M%C3%BC\tmd5 missing\n\
E023\to/v1/content/Mu%CC%88\t-\nE093\to/v1/content/a\tmd5 missing\n\
E093\to/v1/content/b\tmd5 00 11\n";

const WITHOUT_FIXITY: &str = "5 findings tonight in /srv, cycle 2, run 4:
Object o, 0 of 4 files right:
\tv1/content/a: missing (E093)
\tv1/content/b: not the digest of the fixity block (E093), expected md5 00, found 11
\tv1/content/M\u{fc}: here under another spelling of its name (E092, E023)
\tTo do: see whether E092 is there too; if not, compare the fixity block with its source
\tTo look again: ocfl-scrub check '/srv' 'o/v1/content/M\u{fc}'
";

#[test]
fn what_the_fixity_block_says_of_a_pair_has_no_line(rt: HostRuntime) -> Result<(), Fail> {
    let text = message_on(rt.alloc(), OF_FIXITY)?;
    assert_eq!(rt; text.as_str(), WITHOUT_FIXITY);
    Ok(())
}

/// So many objects with such a file that each has one line.
const IN_ONE_LINE: &str = "\
Object 12: v1/content/\u{e9}: here under another spelling of its name (E092, E023)
Object 13: v1/content/a: missing (E092), and 2 more
";

#[test]
fn a_pair_is_two_findings_of_an_object_in_one_line(rt: HostRuntime) -> Result<(), Fail> {
    let alloc = rt.alloc();
    let mut report = String::from_str(alloc, "ok\t.\t-\n")?;
    for number in 10..33 {
        let pair = format!(in alloc;
            "ok\t{number}\t-\nE023\t{number}/v1/content/e%CC%81\t-\n\
             E092\t{number}/v1/content/%C3%A9\tmd5 missing\n\
             E093\t{number}/v1/content/%C3%A9\tsha1 missing\n"
        )?;
        report.push_str(pair.as_str())?;
        if number == 13 {
            report.push_str("E092\t13/v1/content/a\tmd5 missing\n")?;
        }
    }
    let text = message_on(alloc, report.as_str())?;
    assert!(rt; text.as_str().contains(IN_ONE_LINE));
    Ok(())
}
