//! The digest algorithms, and their names.
ghost use Rattle.std.specs.Prelude.{◌≡◌};
ghost use Rattle.ocfl_digest.specs.Algorithm.{algorithm_name, algorithm_named};

use ocfl_tree::is_text;

/// A digest algorithm that is computed, in the order of the names.
#[derive(Clone, Copy, Debug, PartialEq, Eq)]
pub enum Algorithm {
    /// `md5`, of RFC 1321.
    Md5,
    /// `sha1`, of FIPS 180-4.
    Sha1,
    /// `sha256`, of FIPS 180-4.
    Sha256,
    /// `sha512`, of FIPS 180-4.
    Sha512,
    /// `sha512/256`, the SHA-512/256 of FIPS 180-4.
    Sha512_256,
}

impl Algorithm {
    /// Every algorithm that is computed, in the order of the names.
    pub const ALL: [Algorithm; 5] = [
        Algorithm::Md5,
        Algorithm::Sha1,
        Algorithm::Sha256,
        Algorithm::Sha512,
        Algorithm::Sha512_256,
    ];

    /// The algorithm of a name, whose capitals count (OCFL 1.1, 3.4 Digests).
    pub fn named(name: &str) -> Option<Algorithm>
        ensures { result ≡ algorithm_named name.now }
    {
        for algorithm in Algorithm::ALL {
            if is_text(algorithm.name(), name) {
                return Some(algorithm);
            }
        }
        None
    }

    /// Its name.
    pub fn name(&self) -> &'static str
        ensures { result.now ≡ algorithm_name self.now }
    {
        match self {
            Algorithm::Md5 => "md5",
            Algorithm::Sha1 => "sha1",
            Algorithm::Sha256 => "sha256",
            Algorithm::Sha512 => "sha512",
            Algorithm::Sha512_256 => "sha512/256",
        }
    }
}
