//! The digests of a file, one for each algorithm that was wanted.
ghost use Rattle.std.specs.{Prelude.{◌≡◌}, Option.{option_copied}};
ghost use Rattle.ocfl_digest.specs.Digests.{digest_in};

use crate::algorithm::Algorithm;

/// The digests of some bytes, one for each algorithm that was wanted.
#[derive(Clone, Copy, Debug, PartialEq, Eq)]
pub struct Digests {
    pub(crate) md5: Option<[u8; 16]>,
    pub(crate) sha1: Option<[u8; 20]>,
    pub(crate) sha256: Option<[u8; 32]>,
    pub(crate) sha512: Option<[u8; 64]>,
    pub(crate) sha512_256: Option<[u8; 32]>,
}

fn as_bytes<const N: usize>(digest: &Option<[u8; N]>) -> Option<&[u8]>
    ensures { option_copied result ≡ digest.now }
{
    match digest {
        Some(bytes) => Some(bytes),
        None => None,
    }
}

impl Digests {
    /// The digest under an algorithm, if that was wanted: 16 bytes under `md5`, 20 under `sha1`,
    /// 32 under `sha256` and `sha512/256`, and 64 under `sha512`.
    pub fn get(&self, algorithm: Algorithm) -> Option<&[u8]>
        ensures { option_copied result ≡ digest_in self.now algorithm }
    {
        match algorithm {
            Algorithm::Md5 => as_bytes(&self.md5),
            Algorithm::Sha1 => as_bytes(&self.sha1),
            Algorithm::Sha256 => as_bytes(&self.sha256),
            Algorithm::Sha512 => as_bytes(&self.sha512),
            Algorithm::Sha512_256 => as_bytes(&self.sha512_256),
        }
    }
}
