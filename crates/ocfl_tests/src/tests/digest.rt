//! Algorithms and digests, the block, and files that are read once.
use crate::tests::common::Runtime;
use crate::tests::common::digests::with_digests;
use crate::tests::common::store::place_of;
use ocfl_digest::{
    Algorithm, Block, Bounded, Cause, Digests, ReadStop, Wanted, hash_bytes, hash_open,
    read_bounded,
};
use ocfl_folder::FsTree;
use ocfl_memory::{MemTree, Point};
use ocfl_tree::{Tree, Trouble};
use std::alloc::Global;
use std::fs;
use std::test::Fail;

const ALL: [Algorithm; 5] = [
    Algorithm::Md5,
    Algorithm::Sha1,
    Algorithm::Sha256,
    Algorithm::Sha512,
    Algorithm::Sha512_256,
];

const OF_ABC: [&str; 5] = [
    "ABC_MD5",
    "ABC_SHA1",
    "ABC_SHA256",
    "ABC_SHA512",
    "ABC_SHA512/256",
];

const OF_NOTHING: [&str; 5] = [
    "NOTHING_MD5",
    "NOTHING_SHA1",
    "NOTHING_SHA256",
    "NOTHING_SHA512",
    "NOTHING_SHA512/256",
];

/// The digests of the first 65,536 bytes of `rising`, as `openssl dgst` gives them.
const OF_ONE_BLOCK: [&str; 5] = [
    "9cc60713923528a1dd94e1c1ab0ebc9e",
    "fefb71740a82b94a2da3bcd2fd72fc64a7fb8666",
    "4b640d85ab3ba30fd02c9fc9db4a8928f416322ad27022ea58a65aaee68a4df2",
    "ca073ef2daf10b6e3b761d5db007b8f609c7de85419ed2319fdfd35cc4c4e1f7feb61e5618d9d574552b7e2788d674d7144ea2062b1500173528afb3352e55a4",
    "b89d172ed07a555f4ce64b64f37250f40eed07a5a3bea6d6522725da561289ff",
];

/// Those of its first 131,073 bytes.
const OF_TWO_BLOCKS_AND_ONE: [&str; 5] = [
    "060bb13f48ee4b4ef00c6e28d0f4fce8",
    "f6cff13d349328296b30e7bd727d21b6bc309093",
    "dd84db969f4ff2abb79c8c2fbc06e8d8e02c46d6481c958e057f7ad7a24c58a7",
    "88d8ac0226b181d1504c85e9f029976613c496934c7d74be97db666910b4e297f11621b11ba3283a289b1f4105d606a9c4c66606a5c3d0f3e7938c3ad4f4a400",
    "95fe2cb999724f836b53b0ea00e1df066ab40aa83e2da4e358ec7a060a868d17",
];

fn all() -> Wanted {
    let mut wanted = Wanted::none();
    for algorithm in ALL {
        wanted = wanted.with(algorithm);
    }
    wanted
}

/// `count` bytes: 0 to 250, again and again.
fn rising(alloc: Global, count: u32) -> Result<Vec<u8>, Fail> {
    let mut bytes = Vec::new(alloc);
    for i in 0..count {
        bytes.push((i % 251) as u8)?;
    }
    Ok(bytes)
}

/// A tree with the file `f` alone.
fn tree_of(alloc: Global, bytes: Vec<u8>) -> Result<MemTree, Fail> {
    let mut store = MemTree::new(alloc);
    store.put_file(&place_of(alloc, "f")?, bytes)?;
    Ok(store)
}

/// A digest as lower-case hexadecimal, and no text if there is no digest.
fn text_of(alloc: Global, digest: Option<&[u8]>) -> Result<String, Fail> {
    let mut text = String::new(alloc);
    for byte in digest.unwrap_or(&[]) {
        text.push_str(format!(in alloc; "{byte:02x}")?.as_str())?;
    }
    Ok(text)
}

fn are(rt: &impl Runtime, row: &str, digests: &Digests, want: &[&str; 5]) -> Result<(), Fail> {
    for (algorithm, want) in ALL.iter().zip(want) {
        let text = text_of(rt.alloc(), digests.get(*algorithm))?;
        let want = with_digests(rt.alloc(), want)?;
        assert_eq!(rt; text.as_str(), want.as_str(), "{row}, {algorithm:?}");
    }
    Ok(())
}

/// The file `f` was opened once, gave `given` bytes, and nothing was listed.
fn opened_once(
    rt: &impl Runtime,
    row: &str,
    store: &MemTree,
    given: u64,
    failed: bool,
) -> Result<(), Fail> {
    let place = place_of(rt.alloc(), "f")?;
    let openings = store.openings();
    assert!(rt; openings.len() == 1, "{row}");
    let first = &openings[0];
    assert!(rt; first.place == place && first.given == given, "{row}");
    assert!(rt;
        first.failed == failed && store.failures() == u64::from(failed),
        "{row}"
    );
    assert!(rt; store.listings().is_empty(), "{row}");
    Ok(())
}

#[test]
fn algorithms_have_their_names(rt: HostRuntime) {
    let names = ["md5", "sha1", "sha256", "sha512", "sha512/256"];
    for (algorithm, name) in ALL.iter().zip(names) {
        assert_eq!(rt; algorithm.name(), name, "{name}");
        assert!(rt; Algorithm::named(name) == Some(*algorithm), "{name}");
    }
    for name in ["", "MD5", "sha-256", "sha512/224", "blake2b-512"] {
        assert!(rt; Algorithm::named(name).is_none(), "{name}");
    }
}

#[test]
fn a_set_has_what_was_put_in(rt: HostRuntime) {
    let two = Wanted::none()
        .with(Algorithm::Sha1)
        .with(Algorithm::Sha512)
        .with(Algorithm::Sha1);
    for algorithm in ALL {
        let is_right = !Wanted::none().has(algorithm) && all().has(algorithm);
        assert!(rt; is_right, "{algorithm:?}");
        let put = algorithm == Algorithm::Sha1 || algorithm == Algorithm::Sha512;
        assert!(rt; two.has(algorithm) == put, "{algorithm:?}");
    }
}

#[test]
fn bytes_are_hashed(rt: HostRuntime) -> Result<(), Fail> {
    are(&rt, "abc", &hash_bytes(b"abc", all()), &OF_ABC)?;
    are(&rt, "no bytes", &hash_bytes(b"", all()), &OF_NOTHING)?;
    let one = hash_bytes(b"abc", Wanted::none().with(Algorithm::Sha256));
    are(&rt, "one algorithm", &one, &["", "", OF_ABC[2], "", ""])
}

/// What hashing the file `f` from one opening gives.
fn hashed<T: Tree>(
    alloc: Global,
    store: &mut T,
    wanted: Wanted,
) -> Result<Result<(Digests, u64), ReadStop>, Fail> {
    let place = place_of(alloc, "f")?;
    Ok(hash_open(store, &place, wanted, &mut Block::new(alloc)?))
}

/// What reading the file `f` within a limit gives.
fn read_within<T: Tree>(
    alloc: Global,
    store: &mut T,
    limit: usize,
) -> Result<Result<Bounded, Trouble>, Fail> {
    let place = place_of(alloc, "f")?;
    Ok(read_bounded(alloc, store, &place, limit))
}

/// Hashing a file of these bytes by all algorithms gives these digests, by one opening.
fn expect_all(
    rt: &impl Runtime,
    row: &str,
    bytes: Vec<u8>,
    step: usize,
    want: &[&str; 5],
) -> Result<(), Fail> {
    let count = bytes.len() as u64;
    let mut store = tree_of(rt.alloc(), bytes)?;
    store.step(step);
    let (digests, length) = hashed(rt.alloc(), &mut store, all())??;
    are(rt, row, &digests, want)?;
    assert!(rt; length == count && store.largest_read() == 65_536, "{row}");
    opened_once(rt, row, &store, count, false)?;
    assert!(rt; store.read(&mut [0; 1]) == Err(Trouble::Absent), "{row}");
    Ok(())
}

#[test]
fn all_five_from_one_opening(rt: HostRuntime) -> Result<(), Fail> {
    let alloc = rt.alloc();
    expect_all(&rt, "abc", b"abc".to_vec(alloc)?, usize::MAX, &OF_ABC)?;
    expect_all(&rt, "no bytes", Vec::new(alloc), usize::MAX, &OF_NOTHING)?;
    for step in [1, 7, 65_535, usize::MAX] {
        let row = format!(in alloc; "two blocks and one byte, {step} a read")?;
        let bytes = rising(alloc, 131_073)?;
        expect_all(&rt, row.as_str(), bytes, step, &OF_TWO_BLOCKS_AND_ONE)?;
    }
    let bytes = rising(alloc, 65_536)?;
    expect_all(&rt, "one block", bytes, usize::MAX, &OF_ONE_BLOCK)
}

#[test]
fn no_algorithm_gives_the_length_alone(rt: HostRuntime) -> Result<(), Fail> {
    let mut store = tree_of(rt.alloc(), b"abc".to_vec(rt.alloc())?)?;
    let (digests, length) = hashed(rt.alloc(), &mut store, Wanted::none())??;
    are(&rt, "no algorithm", &digests, &["", "", "", "", ""])?;
    assert!(rt; length == 3);
    opened_once(&rt, "no algorithm", &store, 3, false)
}

#[test]
fn a_stop_says_what_was_given(rt: HostRuntime) -> Result<(), Fail> {
    for (row, point, bytes) in [
        ("a read after one block", Point::Read(65_536), 65_536),
        ("the opening", Point::Open, 0),
    ] {
        let mut store = tree_of(rt.alloc(), rising(rt.alloc(), 65_537)?)?;
        store.fail_at(&place_of(rt.alloc(), "f")?, point)?;
        let stop = hashed(rt.alloc(), &mut store, all())?.err();
        let cause = Cause::Device;
        assert!(rt; stop == Some(ReadStop { bytes, cause }), "{row}: {stop:?}");
        opened_once(&rt, row, &store, bytes, true)?;
    }
    let mut store = MemTree::new(rt.alloc());
    let stop = hashed(rt.alloc(), &mut store, all())?.err();
    let cause = Cause::Absent;
    assert!(rt; stop == Some(ReadStop { bytes: 0, cause }), "{stop:?}");
    assert!(rt; store.openings().is_empty() && store.failures() == 0);
    Ok(())
}

/// How many bytes a file has, within which limit it is read, and how many bytes it gives.
const LIMITS: [(&str, u32, usize, u64); 8] = [
    ("as many bytes as the limit", 4, 4, 4),
    ("one byte more than the limit", 5, 4, 5),
    ("no bytes and limit 0", 0, 0, 0),
    ("one byte and limit 0", 1, 0, 1),
    ("twice the limit and one", 9, 4, 5),
    ("as many in several reads", 10_000, 10_000, 10_000),
    ("one more in several reads", 10_000, 9_999, 10_000),
    ("no limit", 10_000, usize::MAX, 10_000),
];

#[test]
fn a_file_is_read_within_a_limit(rt: HostRuntime) -> Result<(), Fail> {
    for (name, count, limit, given) in LIMITS {
        let bytes = rising(rt.alloc(), count)?;
        for step in [1, 3_000, usize::MAX] {
            let mut store = tree_of(rt.alloc(), rising(rt.alloc(), count)?)?;
            store.step(step);
            let row = format!(in rt.alloc(); "{name}, {step} a read")?;
            match read_within(rt.alloc(), &mut store, limit)?? {
                Bounded::Whole(whole) => {
                    assert!(rt; whole == bytes && bytes.len() <= limit, "{row}")
                }
                Bounded::Over => assert!(rt; limit < bytes.len(), "{row}"),
            }
            assert!(rt; store.largest_read() <= 4_096, "{row}");
            opened_once(&rt, row.as_str(), &store, given, false)?;
        }
    }
    Ok(())
}

#[test]
fn a_limited_read_tells_its_trouble(rt: HostRuntime) -> Result<(), Fail> {
    let mut missing = MemTree::new(rt.alloc());
    let read = read_within(rt.alloc(), &mut missing, 9_999)?;
    assert!(rt; read == Err(Trouble::Absent));
    assert!(rt; missing.openings().is_empty() && missing.failures() == 0);
    for (row, point, given) in [
        ("a read after three bytes", Point::Read(3), 4_096),
        ("the opening", Point::Open, 0),
    ] {
        let mut store = tree_of(rt.alloc(), rising(rt.alloc(), 5_000)?)?;
        store.fail_at(&place_of(rt.alloc(), "f")?, point)?;
        let read = read_within(rt.alloc(), &mut store, 9_999)?;
        assert!(rt; read == Err(Trouble::Device), "{row}");
        opened_once(&rt, row, &store, given, true)?;
    }
    Ok(())
}

#[test]
fn a_file_of_a_folder_is_read(rt: HostRuntime) -> Result<(), Fail> {
    let bytes = rising(rt.alloc(), 131_073)?;
    if !fs::exists(&rt, "folder")? {
        fs::create_dir(&rt, "folder")?;
    }
    fs::write(&rt, "folder/f", bytes.as_slice())?;
    let mut store = FsTree::at(&rt, "folder")?;
    let (digests, length) = hashed(rt.alloc(), &mut store, all())??;
    are(&rt, "a folder", &digests, &OF_TWO_BLOCKS_AND_ONE)?;
    assert!(rt; length == 131_073);
    let whole = read_within(rt.alloc(), &mut store, 131_073)??;
    assert!(rt; whole == Bounded::Whole(bytes));
    let over = read_within(rt.alloc(), &mut store, 131_072)??;
    assert!(rt; over == Bounded::Over);
    fs::remove_dir_all(&rt, "folder")?;
    Ok(())
}
