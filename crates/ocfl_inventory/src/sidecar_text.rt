//! The text of a sidecar file.
ghost use Rattle.std.specs.Prelude.{◌≡◌, option_map, length, ◌≤◌, ◌&&◌, drop, codes, nat_eq, IfSome, MatchOption, None};
ghost use Rattle.std.specs.List.{list_all, starts_with};
ghost use Rattle.ocfl_inventory.specs.Sidecar.{is_blank as is_blank_byte, is_tail as is_tail_byte, leading, is_after_digits as goes_on, sidecar_of_len, decoded, sidecar_of, sum_view};

use hex::FromHex;
use ocfl_digest::Algorithm;

/// No declaration or sidecar of more bytes is of its form.
pub const SIDE_LIMIT: usize = 4096;

/// The digest that a sidecar names, as bytes.
#[derive(Clone, Copy)]
pub enum Sum {
    /// The 32 bytes of a `sha256` digest.
    Short([u8; 32]),
    /// The 64 bytes of a `sha512` digest.
    Long([u8; 64]),
}

impl Sum {
    /// The digest's 32 or 64 bytes.
    pub fn bytes(&self) -> &[u8]
        ensures { result.now ≡ sum_view self.now }
    {
        match self {
            Sum::Short(bytes) => bytes,
            Sum::Long(bytes) => bytes,
        }
    }
}

/// A space or a tab.
fn is_blank(byte: u8) -> bool
    ensures { result ≡ is_blank_byte byte }
{
    byte == b' ' || byte == b'\t'
}

/// A space, a tab, or a byte of a line's end.
fn is_tail(byte: u8) -> bool
    ensures { result ≡ is_tail_byte byte }
{
    is_blank(byte) || byte == b'\r' || byte == b'\n'
}

/// How many spaces and tabs are in front.
fn blanks(bytes: &[u8]) -> usize
    ensures value { result ≡ length (leading is_blank_byte bytes.now) }
    ensures bound { result ≤ length bytes.now }
{
    let mut count = 0;
    for byte in bytes {
        if !is_blank(*byte) {
            return count;
        }
        count += 1;
    }
    count
}

/// Whether nothing but blanks and line ends is left.
fn are_tail(bytes: &[u8]) -> bool
    ensures { result ≡ list_all is_tail_byte bytes.now }
{
    bytes.iter().all(|byte| is_tail(*byte))
}

/// Whether this is the inventory's name and what may follow it.
fn is_name_and_tail(name: &[u8]) -> bool
    ensures { result ≡ (starts_with nat_eq name.now
        (codes "inventory.json") && list_all is_tail_byte (drop 14 name.now)) }
{
    if !name.starts_with(b"inventory.json") {
        return false;
    }
    let (_, tail) = name.split_at(14);
    are_tail(tail)
}

/// Whether this may follow the digits.
fn is_after_digits(rest: &[u8]) -> bool
    ensures { result ≡ goes_on rest.now }
{
    let gap = blanks(rest);
    if gap == 0 {
        return false;
    }
    let (_, name) = rest.split_at(gap);
    is_name_and_tail(name)
}

/// The digits of a sidecar that has `count` of them, if all else of it is of the form.
#[tactic(auto, using(crate::proofs::Sidecars::too_short))]
fn digits(bytes: &[u8], count: usize) -> Option<&[u8]>
    ensures value { MatchOption result (sidecar_of_len count bytes.now ≡ None)
        (λ digits. sidecar_of_len count bytes.now ≡ decoded digits.now) }
    ensures size { IfSome result (λ digits. length digits.now ≡ count) }
{
    if bytes.len() > SIDE_LIMIT {
        return None;
    }
    if bytes.len() < count {
        return None;
    }
    let (digits, rest) = bytes.split_at(count);
    if is_after_digits(rest) {
        Some(digits)
    } else {
        None
    }
}

/// The digest of a sidecar with 64 digits.
fn short(bytes: &[u8]) -> Option<Sum>
    ensures { option_map sum_view result ≡ sidecar_of_len 64 bytes.now }
{
    match <[u8; 32] as FromHex>::from_hex(digits(bytes, 64)?) {
        Ok(sum) => Some(Sum::Short(sum)),
        Err(_) => None,
    }
}

/// The digest of a sidecar with 128 digits.
fn long(bytes: &[u8]) -> Option<Sum>
    ensures { option_map sum_view result ≡ sidecar_of_len 128 bytes.now }
{
    match <[u8; 64] as FromHex>::from_hex(digits(bytes, 128)?) {
        Ok(sum) => Some(Sum::Long(sum)),
        Err(_) => None,
    }
}

/// The digest that the bytes of a sidecar name (OCFL 1.1, 3.6 Inventory Digest).
///
/// The bytes are 64 (`sha256`) or 128 (`sha512`) hexadecimal digits of either case, one or more
/// spaces or tabs, `inventory.json`, and then only spaces, tabs, CR and LF; at most 4,096 of them.
/// `None` is answered for all other bytes, and for each algorithm that has no sidecars. Takes no
/// memory.
pub fn sidecar(bytes: &[u8], algorithm: Algorithm) -> Option<Sum>
    ensures { option_map sum_view result ≡ sidecar_of algorithm bytes.now }
{
    match algorithm {
        Algorithm::Md5 | Algorithm::Sha1 | Algorithm::Sha512_256 => None,
        Algorithm::Sha256 => short(bytes),
        Algorithm::Sha512 => long(bytes),
    }
}
