//! A set of algorithms.
ghost use Rattle.std.specs.Prelude.{◌≡◌, ◌≢◌, true, false};
ghost use Rattle.ocfl_digest.specs.{Wanted.{wants}, declared.algorithm.Algorithm.{Algorithm}};

use crate::algorithm::Algorithm;

/// A set of algorithms: those whose digests are wanted.
#[derive(Clone, Copy, Debug, PartialEq, Eq)]
pub struct Wanted {
    md5: bool,
    sha1: bool,
    sha256: bool,
    sha512: bool,
    sha512_256: bool,
}

impl Wanted {
    /// The empty set.
    pub fn none() -> Wanted
        ensures { (a : Algorithm) → wants result a ≡ false }
    {
        Wanted {
            md5: false,
            sha1: false,
            sha256: false,
            sha512: false,
            sha512_256: false,
        }
    }

    /// The set with one more algorithm, or the same set if that one is in it.
    pub fn with(self, algorithm: Algorithm) -> Wanted
        ensures added { wants result algorithm ≡ true }
        ensures others { (a : Algorithm) → a ≢ algorithm → wants result a ≡ wants self a }
    {
        let mut more = self;
        match algorithm {
            Algorithm::Md5 => more.md5 = true,
            Algorithm::Sha1 => more.sha1 = true,
            Algorithm::Sha256 => more.sha256 = true,
            Algorithm::Sha512 => more.sha512 = true,
            Algorithm::Sha512_256 => more.sha512_256 = true,
        }
        more
    }

    /// Whether an algorithm is in the set.
    pub fn has(self, algorithm: Algorithm) -> bool
        ensures { result ≡ wants self algorithm }
    {
        match algorithm {
            Algorithm::Md5 => self.md5,
            Algorithm::Sha1 => self.sha1,
            Algorithm::Sha256 => self.sha256,
            Algorithm::Sha512 => self.sha512,
            Algorithm::Sha512_256 => self.sha512_256,
        }
    }
}
