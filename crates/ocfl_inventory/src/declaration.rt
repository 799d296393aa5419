//! Which version a directory declares.
ghost use Rattle.std.specs.Prelude.{◌≡◌, ◌≢◌, ◌≤◌, ◌++◌, MatchOption, length, true};
ghost use Rattle.ocfl_tree.specs.Place.{Text};
ghost use Rattle.ocfl_inventory.specs.Declaration.{prefix as level_prefix, begins_with_digit, after_prefix, is_declaration, declared as declared_of, declaration_name as name_of_declaration, declaration_bytes as bytes_of_declaration};
ghost use Rattle.ocfl_inventory.specs.Entries.{is_counted, IsNext, IsVersionOf, meaning, file_names, PointsAtOne};

use ocfl_tree::{Entry, Kind, is_bytes};

/// Where a declaration is: in the storage root, or in an object root.
#[derive(Clone, Copy)]
pub enum Level {
    Root,
    Object,
}

/// A known version of OCFL.
#[derive(Clone, Copy, PartialEq, Eq)]
pub enum Version {
    V1_0,
    V1_1,
}

/// What a directory declares.
#[derive(Clone, Copy, PartialEq, Eq)]
pub enum Declared {
    /// No file is a declaration.
    None,
    /// One file declares a known version.
    One(Version),
    /// One file declares a version that is not known: its index among the entries.
    Unknown(usize),
    /// Two or more files are declarations.
    Several,
}

/// What the names of declarations begin with.
fn prefix(level: Level) -> &'static str
    ensures { result.now ≡ level_prefix level }
{
    match level {
        Level::Root => "0=ocfl_",
        Level::Object => "0=ocfl_object_",
    }
}

/// The name of the declaration of a known version (OCFL 1.1, 4.2 Root Conformance Declaration and
/// 3.2 Object Conformance Declaration).
pub fn declaration_name(level: Level, version: Version) -> &'static str
    ensures { result.now ≡ name_of_declaration level version }
{
    match (level, version) {
        (Level::Root, Version::V1_0) => "0=ocfl_1.0",
        (Level::Root, Version::V1_1) => "0=ocfl_1.1",
        (Level::Object, Version::V1_0) => "0=ocfl_object_1.0",
        (Level::Object, Version::V1_1) => "0=ocfl_object_1.1",
    }
}

/// The exact bytes of the declaration of a known version: its name after `0=`, and a line feed.
pub fn declaration_bytes(level: Level, version: Version) -> &'static [u8]
    ensures { result.now ≡ bytes_of_declaration level version }
{
    match (level, version) {
        (Level::Root, Version::V1_0) => b"ocfl_1.0\n",
        (Level::Root, Version::V1_1) => b"ocfl_1.1\n",
        (Level::Object, Version::V1_0) => b"ocfl_object_1.0\n",
        (Level::Object, Version::V1_1) => b"ocfl_object_1.1\n",
    }
}

/// What of a name follows the prefix of declarations' names, known version or not; none if
/// the name lacks that.
pub fn version_in_name(level: Level, name: &str) -> Option<&str>
    ensures { MatchOption result ((rest : Text) → name.now ≢ level_prefix level ++ rest)
        (λ text. text.now ≡ after_prefix level name.now) }
{
    name.strip_prefix(prefix(level))
}

fn is_digit_first(bytes: &[u8]) -> bool
    ensures { result ≡ begins_with_digit bytes.now }
{
    match bytes {
        [first, ..] => first.is_ascii_digit(),
        [] => false,
    }
}

/// What follows as many bytes as the prefix has.
fn behind_prefix(level: Level, name: &[u8]) -> &[u8]
    requires { length (level_prefix level) ≤ length name.now }
    ensures { result.now ≡ after_prefix level name.now }
{
    let (_, rest) = name.split_at(prefix(level).len());
    rest
}

/// Whether a file of this name counts as a declaration: `0=ocfl_` (in the storage root) or
/// `0=ocfl_object_` (in an object root), and then an ASCII digit.
pub fn is_declaration_name(level: Level, name: &str) -> bool
    ensures { result ≡ is_declaration level name.now }
{
    if !name.as_bytes().starts_with(prefix(level).as_bytes()) {
        return false;
    }
    is_digit_first(behind_prefix(level, name.as_bytes()))
}

fn is_declaration_entry(level: Level, entry: &Entry) -> bool
    ensures { result ≡ is_counted level entry.now }
{
    match entry.kind {
        Kind::File => is_declaration_name(level, entry.name.as_str()),
        Kind::Dir | Kind::Other => false,
    }
}

/// The index of the first declaration at or after an index.
fn next_declaration(entries: &[Entry], level: Level, from: usize) -> Option<usize>
    ensures { IsNext level entries.now from result }
{
    for index in from..entries.len() {
        if is_declaration_entry(level, &entries[index]) {
            return Some(index);
        }
    }
    None
}

fn known_version(text: &[u8]) -> Option<Version>
    ensures { IsVersionOf text.now result }
{
    if is_bytes(text, b"1.0") {
        return Some(Version::V1_0);
    }
    if is_bytes(text, b"1.1") {
        return Some(Version::V1_1);
    }
    None
}

/// The version that a declaration's name names.
fn version_of(level: Level, entry: &Entry) -> Option<Version>
    requires { is_counted level entry.now ≡ true }
    ensures { IsVersionOf (after_prefix level entry.now.name) result }
{
    known_version(behind_prefix(level, entry.name.as_str().as_bytes()))
}

/// What the files among the entries of a directory declare (OCFL 1.1, 4.2 Root Conformance
/// Declaration and 3.2 Object Conformance Declaration).
///
/// The entries may be in any order. A file counts whose name is `0=ocfl_` (in the storage root)
/// or `0=ocfl_object_` (in an object root) and then begins with an ASCII digit; known are `1.0` and
/// `1.1`. Takes no memory.
pub fn declaration(entries: &[Entry], level: Level) -> Declared
    ensures declared { meaning level entries.now result
        ≡ declared_of level (file_names entries.now) }
    ensures unknown { PointsAtOne level entries.now result }
{
    let Some(first) = next_declaration(entries, level, 0) else {
        return Declared::None;
    };
    if next_declaration(entries, level, first + 1).is_some() {
        return Declared::Several;
    }
    match version_of(level, &entries[first]) {
        Some(version) => Declared::One(version),
        None => Declared::Unknown(first),
    }
}
