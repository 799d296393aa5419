//! Cursors as texts, and the ends of parts.
use crate::tests::common::store::place_of;
use ocfl_cursor::PartEnds;
use ocfl_tree::Place;
use sha2::{Digest, Sha256};
use std::alloc::Global;
use std::test::Fail;

/// A text of a cursor after `o/v1/content/c`, before its digest line.
pub const BODY: &str =
    "ocfl-scrub cursor 2\ncycle 3\nruns 2\nspent 9\nfiles 3\nafter o/v1/content/c\n";

/// The SHA-256 of that, by `sha256sum`.
pub const DIGEST: &str = "894422823bd158b8102505a5075ffb65b0f4cfeb1067789d3830a518ec8f4b26";

/// The same of version 1, which does not tell the files.
pub const OLD_BODY: &str = "ocfl-scrub cursor 1\ncycle 3\nruns 2\nspent 9\nafter o/v1/content/c\n";

/// The SHA-256 of that, by `sha256sum`.
pub const OLD_DIGEST: &str = "822836e04ff6618e0a7571237f0049f590a6f9890506f09338f0505902d351d7";

/// The same of version 3, of an audit that checks the inventories of versions.
pub const CHECKING_BODY: &str = "ocfl-scrub cursor 3\nchecks inventories\n\
    cycle 3\nruns 2\nspent 9\nfiles 3\nafter o/v1/content/c\n";

/// The SHA-256 of that, by `sha256sum`.
pub const CHECKING_DIGEST: &str =
    "916840502fbca1329d44a9d683a6ffff5d6b796cea5c97378ecabe129c010ba6";

/// What is shown of the first of these cursors, of that of version 1, and of that of version 3.
pub const LINES: &str = "cycle 3\nruns 2\nspent 9\nfiles 3\nafter o/v1/content/c\n";

pub const OLD_LINES: &str = "cycle 3\nruns 2\nspent 9\nfiles 0\nafter o/v1/content/c\n";

pub const CHECKING_LINES: &str =
    "checks inventories\ncycle 3\nruns 2\nspent 9\nfiles 3\nafter o/v1/content/c\n";

/// The whole text.
pub fn whole_text(alloc: Global) -> Result<Vec<u8>, Fail> {
    Ok(format!(in alloc; "{BODY}digest {DIGEST}\n")?.into_bytes())
}

/// The whole text of version 1.
pub fn old_text(alloc: Global) -> Result<Vec<u8>, Fail> {
    Ok(format!(in alloc; "{OLD_BODY}digest {OLD_DIGEST}\n")?.into_bytes())
}

/// The whole text of version 3.
pub fn checking_text(alloc: Global) -> Result<Vec<u8>, Fail> {
    Ok(format!(in alloc; "{CHECKING_BODY}digest {CHECKING_DIGEST}\n")?.into_bytes())
}

/// The text with its right digest line.
pub fn sealed(alloc: Global, body: &str) -> Result<Vec<u8>, Fail> {
    let digest = hex::encode(alloc, Sha256::digest(body.as_bytes()))?;
    Ok(format!(in alloc; "{body}digest {digest}\n")?.into_bytes())
}

/// The text without its last byte.
pub fn cut(mut text: Vec<u8>) -> Vec<u8> {
    text.pop();
    text
}

/// The place at a path, or `None` for `-`.
pub fn end_at(alloc: Global, path: &str) -> Result<Option<Place>, Fail> {
    if path == "-" {
        Ok(None)
    } else {
        Ok(Some(place_of(alloc, path)?))
    }
}

/// The ends of a part at these paths, where `-` stands for no end.
pub fn ends_of(alloc: Global, from: &str, below: &str) -> Result<PartEnds, Fail> {
    Ok(PartEnds {
        from: end_at(alloc, from)?,
        below: end_at(alloc, below)?,
    })
}
