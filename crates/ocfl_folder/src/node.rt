//! What a look saw, and which file or directory that is.
ghost use Rattle.std.specs.Prelude.{◌≡◌, ◌≢◌, ◌↔◌, IsTrue, IsSome, false};
ghost use Rattle.std.specs.Fs.{IsDir, IsFile, file_type};

use ocfl_tree::Kind;
use std::fs::Metadata;
use std::os::unix::fs::MetadataExt;
use std::time::SystemTime;

/// Which file or directory it is: its device, its number there, and when it was made, if the system
/// reports that. A new file may get the number of a removed one.
#[derive(Clone, Copy, Debug)]
pub struct Node {
    pub device: u64,
    pub number: u64,
    pub made: Option<SystemTime>,
}

/// What a look saw. A link is `Other`.
#[derive(Clone, Copy, Debug)]
pub struct Seen {
    pub kind: Kind,
    pub node: Node,
}

/// Whether two times are known, and differ.
fn differ(time: Option<SystemTime>, other: Option<SystemTime>) -> bool
    ensures { IsTrue result ↔ (IsSome time × IsSome other × (time ≢ other)) }
{
    match (time, other) {
        (Some(time), Some(other)) => time != other,
        (None, _) | (_, None) => false,
    }
}

fn kind_of(metadata: &Metadata) -> Kind
    ensures dir { (result ≡ Kind.Dir) ↔ IsDir (file_type metadata.now) }
    ensures file { result ≡ Kind.File → IsFile (file_type metadata.now) }
    ensures other { result ≡ Kind.Other → IsFile (file_type metadata.now) → ⊥ }
{
    if metadata.is_dir() {
        Kind::Dir
    } else if metadata.is_file() {
        Kind::File
    } else {
        Kind::Other
    }
}

impl Node {
    /// Whether it is the same as another.
    pub fn is(self, other: Node) -> bool
        ensures device { IsTrue result → self.device ≡ other.device }
        ensures number { IsTrue result → self.number ≡ other.number }
        ensures made { IsTrue result → IsSome self.made → IsSome other.made
            → self.made ≡ other.made }
    {
        self.device == other.device && self.number == other.number && !differ(self.made, other.made)
    }
}

impl Seen {
    /// What the system reports.
    pub(crate) fn of(metadata: &Metadata) -> Seen
        ensures dir { (result.kind ≡ Kind.Dir) ↔ IsDir (file_type metadata.now) }
        ensures file { result.kind ≡ Kind.File → IsFile (file_type metadata.now) }
        ensures other { result.kind ≡ Kind.Other → IsFile (file_type metadata.now) → ⊥ }
    {
        Seen {
            kind: kind_of(metadata),
            node: Node {
                device: metadata.dev(),
                number: metadata.ino(),
                made: metadata.created().ok(),
            },
        }
    }

    /// Whether the same is seen again: of this kind, and the same file or directory.
    pub(crate) fn is(self, kind: Kind, node: Node) -> bool
        ensures kind { IsTrue result → self.kind ≡ kind }
        ensures device { IsTrue result → self.node.device ≡ node.device }
        ensures number { IsTrue result → self.node.number ≡ node.number }
        ensures made { IsTrue result → IsSome self.node.made → IsSome node.made
            → self.node.made ≡ node.made }
    {
        self.kind == kind && self.node.is(node)
    }
}
