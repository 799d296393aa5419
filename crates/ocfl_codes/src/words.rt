//! What codes mean in a few words, and what to do first about a finding.
ghost use Rattle.std.specs.Prelude.{◌≡◌};
ghost use Rattle.ocfl_codes.specs.Meaning.{first_step_at as step_there, first_step_of};
ghost use Rattle.ocfl_codes.specs.Meaning.{meaning_at as meaning_there, meaning_of};
ghost use Rattle.ocfl_codes.specs.Meaning.{version_meaning_of, version_step_of};

use crate::inventory::is_version_inventory;
use ocfl_report::Code;
use ocfl_tree::Place;

/// What is so of the place of a line with this code, in a few words: of an object's line, the words
/// go with the object. [`meaning_at`] knows the inventories in version directories.
pub fn meaning(code: Code) -> &'static str
    ensures { result.now ≡ meaning_of code }
{
    match code {
        Code::Clean => "nothing was found",
        Code::E001 => "not allowed in an object's folder",
        Code::E003 => "several declarations, so nothing in it was looked at",
        Code::E007 => "its declaration has wrong bytes",
        Code::E015 => "not allowed in a version's folder",
        Code::E017 => "its content folder's name has a slash, so nothing in it was looked at",
        Code::E018 => "its content folder is called . or .., so nothing in it was looked at",
        Code::E023 => "not in the inventory",
        Code::E024 => "an empty folder",
        Code::E025 => "its digest algorithm cannot be used, so nothing in it was looked at",
        Code::E033 => "its inventory is not JSON, so nothing in it was looked at",
        Code::E036 => "its inventory names no digest algorithm, so nothing in it was looked at",
        Code::E041 => "its inventory has no manifest, so nothing in it was looked at",
        Code::E058 => "its inventory's sidecar is missing",
        Code::E060 => "its inventory and the sidecar differ",
        Code::E061 => "its inventory's sidecar cannot be used",
        Code::E063 => "its inventory is missing, so nothing in it was looked at",
        Code::E064 => "differs from the root inventory, which is of the same version",
        Code::E069 => "no declaration, so nothing was looked at",
        Code::E072 => "a file outside of any object",
        Code::E073 => "an empty folder where an object should be",
        Code::E076 => "several declarations, so nothing was looked at",
        Code::E080 => "the declaration has wrong bytes",
        Code::E092 => "bytes have changed",
        Code::E093 => "not the digest of the fixity block",
        Code::E096 => "its manifest has a digest twice",
        Code::E097 => "its fixity block has a digest twice",
        Code::E099 => "its inventory has a path with an empty element, . or ..",
        Code::E100 => "its inventory has a path that begins or ends with a slash",
        Code::E101 => "its manifest has a path twice, or one below a file",
        Code::S01 => "of an unknown OCFL version, so nothing in it was looked at",
        Code::S02 => "its inventory is too long, so nothing in it was looked at",
        Code::S03 => "its inventory has a value of the wrong kind, so nothing in it was looked at",
        Code::S04 => "a link, or something else that is neither a file nor a folder",
        Code::S05 => "a folder too deep to be looked into",
        Code::S06 => "its inventory has a path that no content file can have",
        Code::S07 => "has an algorithm in its fixity block that is not computed",
        Code::S08 => "could not be read",
        Code::S09 => "what its root inventory is",
    }
}

/// What is so of an inventory in a version directory with a line of this code.
fn version_meaning(code: Code) -> &'static str
    ensures { result.now ≡ version_meaning_of code }
{
    match code {
        Code::E058 => "its sidecar is missing",
        Code::E060 => "differs from its sidecar",
        Code::E061 => "its sidecar cannot be used",
        _ => meaning(code),
    }
}

/// What is so of a place with a line of this code, in a few words: those of an inventory in a
/// version directory are of that file, and not of its object.
pub fn meaning_at(code: Code, place: &Place) -> &'static str
    ensures { result.now ≡ meaning_there code place.now }
{
    if is_version_inventory(place) {
        return version_meaning(code);
    }
    meaning(code)
}

/// What to do first about a finding of this code: a sentence without its full stop.
/// [`first_step_at`] knows the inventories in version directories.
pub fn first_step(code: Code) -> &'static str
    ensures { result.now ≡ first_step_of code }
{
    match code {
        Code::Clean => "nothing",
        Code::E001 | Code::E015 => "find out whose it is, and move it out of the object",
        Code::E003 => {
            "keep the declaration of the version that its inventory names, and move the others away"
        }
        Code::E007 | Code::E080 => "write it again: its name after 0= and a line feed",
        Code::E017 | Code::E018 | Code::E025 | Code::E033 | Code::E036 | Code::E041 | Code::S03 => {
            "compare its inventory with the one in its newest version folder and with a copy"
        }
        Code::E023 => {
            "see whether a version is being written; if not, find out whose it is and move it away"
        }
        Code::E024 => "see whether files are missing from it; if not, remove it",
        Code::E058 | Code::E061 | Code::E063 => {
            "compare it with the one in its newest version folder, and copy that one if it is right"
        }
        Code::E060 => "look for the expected digest among the inventories of its version folders",
        Code::E064 =>
            "find out by a copy which of the two is right, and whether the object went back",
        Code::E069 => "see whether this is the storage root and its disk is mounted",
        Code::E072 => "see whether the files are those of an object, and restore its declaration",
        Code::E073 => "restore the object; if it was moved on purpose, remove the folder",
        Code::E076 => {
            "keep the declaration of the storage root's version, and move the others away"
        }
        Code::E092 => "restore the file from a copy with the expected digest",
        Code::E093 => {
            "see whether E092 is there too; if not, compare the fixity block with its source"
        }
        Code::E096 | Code::E097 | Code::E099 | Code::E100 | Code::E101 | Code::S06 => {
            "validate the object, and tell whoever wrote its inventory"
        }
        Code::S01 => "audit the object with a program for its version",
        Code::S02 | Code::S05 => "audit the object with another program",
        Code::S04 => "find out what it is, and put the file itself in its place",
        Code::S07 => "audit that digest with another program",
        Code::S08 => "look at its permissions and at the kernel's log, then check it again",
        Code::S09 => "nothing",
    }
}

/// What to do first about a finding of this code at an inventory in a version directory.
fn version_step(code: Code) -> &'static str
    ensures { result.now ≡ version_step_of code }
{
    match code {
        Code::E058 | Code::E061 => {
            "compare it with a copy, and write its sidecar again if it is right"
        }
        Code::E060 =>
            "compare it and its sidecar with a copy, and restore the one that has changed",
        _ => first_step(code),
    }
}

/// What to do first about a finding of this code at a place: a sentence without its full stop.
pub fn first_step_at(code: Code, place: &Place) -> &'static str
    ensures { result.now ≡ step_there code place.now }
{
    if is_version_inventory(place) {
        return version_step(code);
    }
    first_step(code)
}
