//! Sizes on a command line: what each text says, and what is refused.
use super::{MOST, expect_run, expect_split, fault, limits, usage_text, words_fault};
use clap::error::ErrorKind;
use std::test::Fail;

/// Texts of sizes, each with a name and the number that it says.
const SIZES: &[(&str, &str, u64)] = &[
    ("digits", "7", 7),
    ("leading zeros", "007", 7),
    ("the least", "1", 1),
    ("the most", "4611686018427387904", 4611686018427387904),
    ("K", "10K", 10240),
    ("k", "10k", 10240),
    ("KiB", "10KiB", 10240),
    ("kib", "10kib", 10240),
    ("KIB", "10KIB", 10240),
    ("kIb", "10kIb", 10240),
    ("kB", "10kB", 10000),
    ("KB", "10KB", 10000),
    ("kb", "10kb", 10000),
    ("Kb", "10Kb", 10000),
    ("M", "3M", 3145728),
    ("m", "3m", 3145728),
    ("MiB", "3MiB", 3145728),
    ("mIB", "3mIB", 3145728),
    ("MB", "3MB", 3000000),
    ("mb", "3mb", 3000000),
    ("G", "10G", 10737418240),
    ("g", "10g", 10737418240),
    ("GiB", "10GiB", 10737418240),
    ("gib", "10gib", 10737418240),
    ("GB", "10GB", 10000000000),
    ("Gb", "10Gb", 10000000000),
    ("T", "5T", 5497558138880),
    ("t", "5t", 5497558138880),
    ("TiB", "5TiB", 5497558138880),
    ("tiB", "5tiB", 5497558138880),
    ("TB", "5TB", 5000000000000),
    ("tb", "5tb", 5000000000000),
    ("leading zeros before a unit", "0010k", 10240),
    ("the most in T", "4194304T", 4611686018427387904),
    (
        "the most in KiB",
        "4503599627370496KiB",
        4611686018427387904,
    ),
    ("nearly the most in TB", "4611686TB", 4611686000000000000),
    (
        "nearly the most in kB",
        "4611686018427387kB",
        4611686018427387000,
    ),
];

/// Texts that are no sizes, each with a name.
const REFUSED: &[(&str, &str)] = &[
    ("nothing", ""),
    ("zero", "0"),
    ("zero in K", "0K"),
    ("zero in kB", "0kB"),
    ("one above the most", "4611686018427387905"),
    ("above the most in T", "4194305T"),
    ("above the most in KiB", "4503599627370497KiB"),
    ("above the most in TB", "4611687TB"),
    ("above the most in kB", "4611686018427388kB"),
    ("2^64", "18446744073709551616"),
    ("a product of 2^64", "16777216T"),
    ("a product just past 2^64", "16777217TiB"),
    ("a product past 2^64 in TB", "18446745TB"),
    ("a sign", "+1"),
    ("a sign before a unit", "+1K"),
    ("a space before the unit", "1 K"),
    ("a space behind", "1 "),
    ("a space in front", " 1"),
    ("a fraction", "1.5G"),
    ("a decimal comma", "1,5G"),
    ("hexadecimal", "0x1"),
    ("K alone", "K"),
    ("KiB alone", "KiB"),
    ("kB alone", "kB"),
    ("two units", "1KK"),
    ("digits behind the unit", "1K1"),
    ("i alone", "10i"),
    ("iB alone", "10iB"),
    ("B alone", "10B"),
    ("b alone", "10b"),
    ("Ki", "10Ki"),
    ("Ti", "4Ti"),
    ("KBi", "10KBi"),
    ("KiBs", "10KiBs"),
    ("another letter", "10x"),
    ("a unit beyond T", "1P"),
    ("the sign of kelvin for K", "1\u{212A}"),
    ("a digit that is not ASCII", "\u{0661}"),
];

/// Reads each of the sizes in a line.
fn each_size(read: impl Fn(&str, &str, u64) -> Result<(), Fail>) -> Result<(), Fail> {
    for (name, text, number) in SIZES {
        read(name, text, *number)?;
    }
    Ok(())
}

#[test]
fn reads_sizes_of_budgets(rt: HostRuntime) -> Result<(), Fail> {
    each_size(|name, text, number| {
        let line = format!(in rt.alloc(); "run --cursor F --budget {text} R")?;
        expect_run(&rt, name, line.as_str(), limits(number, MOST)?)
    })
}

#[test]
fn reads_sizes_of_file_limits(rt: HostRuntime) -> Result<(), Fail> {
    each_size(|name, text, number| {
        let line = format!(in rt.alloc(); "run --cursor F --budget 9 --files {text} R")?;
        expect_run(&rt, name, line.as_str(), limits(9, number)?)
    })
}

#[test]
fn reads_sizes_of_parts(rt: HostRuntime) -> Result<(), Fail> {
    each_size(|name, text, number| {
        let line = format!(in rt.alloc(); "split --budget {text} --report P")?;
        expect_split(&rt, name, line.as_str(), number)
    })
}

#[test]
fn refuses_what_is_no_size(rt: HostRuntime) {
    let alloc = rt.alloc();
    for &(name, text) in REFUSED {
        for words in [
            ["ocfl-scrub", "run", "--cursor", "F", "--budget", text, "R"].as_slice(),
            ["ocfl-scrub", "cycle", "--runs", "2", "--budget", text, "R"].as_slice(),
            ["ocfl-scrub", "split", "--report", "P", "--budget", text].as_slice(),
        ] {
            let kind = words_fault(alloc, words);
            assert_eq!(rt; kind, Some(ErrorKind::ValueValidation), "{name}");
        }
        let files = [
            "ocfl-scrub",
            "cycle",
            "--runs",
            "2",
            "--budget",
            "1",
            "--files",
            text,
            "R",
        ];
        let kind = words_fault(alloc, files.as_slice());
        assert_eq!(rt; kind, Some(ErrorKind::ValueValidation), "{name}");
    }
    let negative = fault(alloc, "run --cursor F --budget -1 R");
    assert_eq!(rt; negative, Some(ErrorKind::UnknownArgument));
}

/// Lines with a bad size, what they say it is of, and the usage that they show.
const BAD_SIZES: [(&str, &str, &str); 5] = [
    (
        "run --cursor F --budget 10x R",
        "'10x' for '--budget <N>'",
        "run [OPTIONS] --cursor <FILE> --budget <N> <ROOT>",
    ),
    (
        "run --cursor F --budget 1 --files 5Ki R",
        "'5Ki' for '--files <N>'",
        "run [OPTIONS] --cursor <FILE> --budget <N> <ROOT>",
    ),
    (
        "cycle --budget 1.5G --runs 2 R",
        "'1.5G' for '--budget <N>'",
        "cycle [OPTIONS] --budget <N> --runs <COUNT> <ROOT>",
    ),
    (
        "cycle --budget 1 --files 0 --runs 2 R",
        "'0' for '--files <N>'",
        "cycle [OPTIONS] --budget <N> --runs <COUNT> <ROOT>",
    ),
    (
        "split --budget= --report P",
        "'' for '--budget <N>'",
        "split --parts <COUNT> <ROOT>\n       ocfl-scrub split --budget <N> --report <FILE>",
    ),
];

#[test]
fn says_what_a_size_is(rt: HostRuntime) -> Result<(), Fail> {
    for (line, value, usage) in BAD_SIZES {
        let wanted = format!(in rt.alloc();
            "error: invalid value {value}: N is 1 to 4611686018427387904, as digits alone or with \
             K, M, G, T, KiB, MiB, GiB or TiB (powers of 1024), or kB, MB, GB or TB (powers of \
             1000)\n\nUsage: ocfl-scrub {usage}\n\nFor more information, try '--help'.\n"
        )?;
        let shown = usage_text(rt.alloc(), line)?;
        assert_eq!(rt; shown.as_str(), wanted.as_str(), "{line}");
    }
    Ok(())
}
