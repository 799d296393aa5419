//! Digests of `abc`, of no bytes and of `{}`, and texts that name them.
use std::alloc::Global;
use std::test::Fail;

pub const ABC_SHA256: &str = "ba7816bf8f01cfea414140de5dae2223b00361a396177a9cb410ff61f20015ad";

pub const NOTHING_SHA256: &str = "e3b0c44298fc1c149afbf4c8996fb92427ae41e4649b934ca495991b7852b855";

/// What the texts of tests call each digest (FIPS 180-4, RFC 1321). A name that another one begins
/// with comes after that one.
const DIGESTS: [(&str, &str); 15] = [
    ("ABC_MD5", "900150983cd24fb0d6963f7d28e17f72"),
    ("ABC_SHA1", "a9993e364706816aba3e25717850c26c9cd0d89d"),
    ("ABC_SHA256", ABC_SHA256),
    (
        "ABC_CAPITALS",
        "BA7816BF8F01CFEA414140DE5DAE2223B00361A396177A9CB410FF61F20015AD",
    ),
    (
        "ABC_SHA512/256",
        "53048e2681941ef99b2e29b76b4c7dabe4c2d0c634fc6d46e0e2f13107e7af23",
    ),
    (
        "ABC_SHA512",
        "ddaf35a193617abacc417349ae20413112e6fa4e89a97ea20a9eeee64b55d39a2192992a274fc1a836ba3c23a3feebbd454d4423643ce80e2a9ac94fa54ca49f",
    ),
    (
        "ABC_LONG_CAPITALS",
        "DDAF35A193617ABACC417349AE20413112E6FA4E89A97EA20A9EEEE64B55D39A2192992A274FC1A836BA3C23A3FEEBBD454D4423643CE80E2A9AC94FA54CA49F",
    ),
    ("NOTHING_MD5", "d41d8cd98f00b204e9800998ecf8427e"),
    ("NOTHING_SHA1", "da39a3ee5e6b4b0d3255bfef95601890afd80709"),
    ("NOTHING_SHA256", NOTHING_SHA256),
    (
        "NOTHING_SHA512/256",
        "c672b8d1ef56ed28ab87c3622c5114069bdd3ad7b8f9737498d0c01ecef0967a",
    ),
    (
        "NOTHING_SHA512",
        "cf83e1357eefb8bdf1542850d66d8007d620e4050b5715dc83f4a921d36ce9ce47d0d13c5d85f2b0ff8318d2877eec2f63b931bd47417a81a538327af927da3e",
    ),
    (
        "BRACES_SHA256",
        "44136fa355b3678a1146ad16f7e8649e94fb4fc21fe77e8310c060f61caaff8a",
    ),
    (
        "BRACES_CAPITALS",
        "44136FA355B3678A1146AD16F7E8649E94FB4FC21FE77E8310C060F61CAAFF8A",
    ),
    (
        "ZEROS",
        "0000000000000000000000000000000000000000000000000000000000000000",
    ),
];

/// The text, with the digest in place of each name of one.
pub fn with_digests(alloc: Global, text: &str) -> Result<String, Fail> {
    let mut whole = String::from_str(alloc, text)?;
    for (name, digest) in DIGESTS {
        if whole.contains(name) {
            whole = whole.replace(alloc, name, digest)?;
        }
    }
    Ok(whole)
}

/// The text of lines that are written with a bar for each tab and with names of digests.
pub fn lines_of(alloc: Global, text: &str) -> Result<String, Fail> {
    with_digests(alloc, text.replace(alloc, "|", "\t")?.as_str())
}
