//! The hashers of the wanted algorithms, fed piece by piece.
ghost use Rattle.std.specs.Prelude.{◌≡◌, ◌++◌, [], Bool, if◌then◌else◌, Some, None};
ghost use Rattle.sha1.specs.Sha1 as sha1;
ghost use Rattle.md5.specs.Md5 as md5;
ghost use Rattle.ocfl_tree.specs.Place.{Text};
ghost use Rattle.ocfl_digest.specs.{Internal.Hashers.{IsFed, AreFed}, Digests.{AreDigests}};
ghost use Rattle.ocfl_digest.specs.declared.wanted.Wanted.{Wanted};

use crate::algorithm::Algorithm;
use crate::digests::Digests;
use crate::wanted::Wanted;
use md5::{Digest as Md5Digest, Md5};
use sha1::Sha1;
use sha2::{Digest, Sha256, Sha512, Sha512_256};

fn new_md5(wanted: bool) -> Option<Md5>
    ensures { IsFed md5.Holds wanted [] result }
{
    if wanted { Some(Md5::new()) } else { None }
}

fn new_sha1(wanted: bool) -> Option<Sha1>
    ensures { IsFed sha1.Holds wanted [] result }
{
    if wanted { Some(Sha1::new()) } else { None }
}

fn new_sha2<H: Digest>(wanted: bool) -> Option<H>
    ensures { IsFed H.holds wanted [] result }
{
    if wanted { Some(H::new()) } else { None }
}

fn feed_md5(hasher: &mut Option<Md5>, piece: &[u8])
    ensures { (wanted : Bool) (bytes : Text) → IsFed md5.Holds wanted bytes hasher.old
        → IsFed md5.Holds wanted (bytes ++ piece.now) hasher.new }
{
    if let Some(hasher) = hasher {
        hasher.update(piece);
    }
}

fn feed_sha1(hasher: &mut Option<Sha1>, piece: &[u8])
    ensures { (wanted : Bool) (bytes : Text) → IsFed sha1.Holds wanted bytes hasher.old
        → IsFed sha1.Holds wanted (bytes ++ piece.now) hasher.new }
{
    if let Some(hasher) = hasher {
        hasher.update(piece);
    }
}

fn feed_sha2<H: Digest>(hasher: &mut Option<H>, piece: &[u8])
    ensures { (wanted : Bool) (bytes : Text) → IsFed H.holds wanted bytes hasher.old
        → IsFed H.holds wanted (bytes ++ piece.now) hasher.new }
{
    if let Some(hasher) = hasher {
        hasher.update(piece);
    }
}

fn end_md5(hasher: Option<Md5>) -> Option<[u8; 16]>
    ensures { (wanted : Bool) (bytes : Text) → IsFed md5.Holds wanted bytes hasher
        → result ≡ (if wanted then Some (md5.md5 bytes) else None) }
{
    Some(hasher?.finalize())
}

fn end_sha1(hasher: Option<Sha1>) -> Option<[u8; 20]>
    ensures { (wanted : Bool) (bytes : Text) → IsFed sha1.Holds wanted bytes hasher
        → result ≡ (if wanted then Some (sha1.sha1 bytes) else None) }
{
    Some(hasher?.finalize())
}

fn end_sha2<H: Digest>(hasher: Option<H>) -> Option<H::Output>
    ensures { (wanted : Bool) (bytes : Text) → IsFed H.holds wanted bytes hasher
        → IsFed (λ digest m. H.digest_of m digest) wanted bytes result }
{
    Some(hasher?.finalize())
}

/// A hasher for each wanted algorithm, which hold the same bytes.
#[derive(Drop)]
pub(crate) struct Hashers {
    md5: Option<Md5>,
    sha1: Option<Sha1>,
    sha256: Option<Sha256>,
    sha512: Option<Sha512>,
    sha512_256: Option<Sha512_256>,
}

impl Hashers {
    pub(crate) fn new(wanted: Wanted) -> Hashers
        ensures { AreFed wanted [] result }
    {
        Hashers {
            md5: new_md5(wanted.has(Algorithm::Md5)),
            sha1: new_sha1(wanted.has(Algorithm::Sha1)),
            sha256: new_sha2(wanted.has(Algorithm::Sha256)),
            sha512: new_sha2(wanted.has(Algorithm::Sha512)),
            sha512_256: new_sha2(wanted.has(Algorithm::Sha512_256)),
        }
    }

    /// Adds a piece to what each hasher holds.
    pub(crate) fn feed(&mut self, piece: &[u8])
        ensures { (wanted : Wanted) (bytes : Text) → AreFed wanted bytes self.old
            → AreFed wanted (bytes ++ piece.now) self.new }
    {
        feed_md5(&mut self.md5, piece);
        feed_sha1(&mut self.sha1, piece);
        feed_sha2(&mut self.sha256, piece);
        feed_sha2(&mut self.sha512, piece);
        feed_sha2(&mut self.sha512_256, piece);
    }

    /// The digests of what the hashers hold.
    pub(crate) fn end(self) -> Digests
        ensures { (wanted : Wanted) (bytes : Text) → AreFed wanted bytes self
            → AreDigests wanted bytes result }
    {
        Digests {
            md5: end_md5(self.md5),
            sha1: end_sha1(self.sha1),
            sha256: end_sha2(self.sha256),
            sha512: end_sha2(self.sha512),
            sha512_256: end_sha2(self.sha512_256),
        }
    }
}

/// The digest of some bytes under each wanted algorithm (RFC 1321, section 3; FIPS 180-4, sections
/// 6.1, 6.2, 6.4 and 6.7).
pub fn hash_bytes(bytes: &[u8], wanted: Wanted) -> Digests
    ensures { AreDigests wanted bytes.now result }
{
    let mut hashers = Hashers::new(wanted);
    hashers.feed(bytes);
    hashers.end()
}
