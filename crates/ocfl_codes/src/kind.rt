//! What a line of a report is about.
ghost use Rattle.std.specs.Prelude.{◌≡◌};
ghost use Rattle.ocfl_report.specs.Line.{line_of};
ghost use Rattle.ocfl_codes.specs.Kinds.{is_dash as is_dash_text, is_file, is_head};
ghost use Rattle.ocfl_codes.specs.Kinds.{is_hiding as hiding, kind_at as kind_by_place};
ghost use Rattle.ocfl_codes.specs.Kinds.{kind_of as kind_by_code, tells_file, tells_object};

use crate::inventory::{is_by_sidecar, is_version_inventory};
use ocfl_report::{Code, Line};
use ocfl_tree::{Place, is_text};

/// What the lines of a code are about.
#[derive(Clone, Copy, Debug, PartialEq, Eq)]
pub enum Kind {
    /// An object: the lines of its head stand before those of its files.
    Object,
    /// A content file, which may be missing, or the inventory of a version.
    File,
    /// A place that is neither: of the storage root, of its hierarchy or of an object's folder.
    Place,
    /// A content file if the detail is a number of bytes; an object, or the storage root, if it is
    /// `-`.
    ObjectOrFile,
}

/// What the lines of a code are about. Those of an inventory by its sidecars are about an object
/// here: [`is_of_object`] and [`is_of_file`] know the inventories in version directories.
pub fn kind_of(code: Code) -> Kind
    ensures { result ≡ kind_by_code code }
{
    match code {
        Code::Clean => Kind::ObjectOrFile,
        Code::E001
        | Code::E015
        | Code::E024
        | Code::E069
        | Code::E072
        | Code::E073
        | Code::E076
        | Code::E080
        | Code::S04
        | Code::S05 => Kind::Place,
        Code::E003
        | Code::E007
        | Code::E017
        | Code::E018
        | Code::E025
        | Code::E033
        | Code::E036
        | Code::E041
        | Code::E058
        | Code::E060
        | Code::E061
        | Code::E063
        | Code::E096
        | Code::E097
        | Code::E099
        | Code::E100
        | Code::E101
        | Code::S01
        | Code::S02
        | Code::S03
        | Code::S06
        | Code::S07
        | Code::S09 => Kind::Object,
        Code::E023 | Code::E064 | Code::E092 | Code::E093 | Code::S08 => Kind::File,
    }
}

/// What a line of a code at a place is about.
fn kind_at(code: Code, place: &Place) -> Kind
    ensures { result ≡ kind_by_place code place.now }
{
    if is_by_sidecar(code) && is_version_inventory(place) {
        return Kind::File;
    }
    kind_of(code)
}

/// Whether it is a line of an object's head. A line of an inventory in a version directory is not;
/// an object at a place like that of such an inventory is mistaken for one.
pub fn is_of_object(line: &Line) -> bool
    ensures { result ≡ tells_object (line_of line.now) }
{
    if line.place.depth() == 0 {
        return false;
    }
    is_of_head(kind_at(line.code, &line.place), &line.detail)
}

fn is_of_head(kind: Kind, detail: &str) -> bool
    ensures { result ≡ is_head kind detail.now }
{
    match kind {
        Kind::Object => true,
        Kind::ObjectOrFile => is_dash(detail),
        Kind::File | Kind::Place => false,
    }
}

/// Whether it is a line of a content file, which may be missing, or of an inventory in a version
/// directory.
pub fn is_of_file(line: &Line) -> bool
    ensures { result ≡ tells_file (line_of line.now) }
{
    is_of_content(kind_at(line.code, &line.place), &line.detail)
}

fn is_of_content(kind: Kind, detail: &str) -> bool
    ensures { result ≡ is_file kind detail.now }
{
    match kind {
        Kind::File => true,
        Kind::ObjectOrFile => !is_dash(detail),
        Kind::Object | Kind::Place => false,
    }
}

/// Whether other findings of its place may be there that are not looked for.
pub fn is_hiding(code: Code) -> bool
    ensures { result ≡ hiding code }
{
    match code {
        Code::E001
        | Code::E003
        | Code::E015
        | Code::E017
        | Code::E018
        | Code::E023
        | Code::E024
        | Code::E025
        | Code::E033
        | Code::E036
        | Code::E041
        | Code::E063
        | Code::E069
        | Code::E072
        | Code::E073
        | Code::E076
        | Code::S01
        | Code::S02
        | Code::S03
        | Code::S04
        | Code::S05
        | Code::S08 => true,
        Code::Clean
        | Code::E007
        | Code::E058
        | Code::E060
        | Code::E061
        | Code::E064
        | Code::E080
        | Code::E092
        | Code::E093
        | Code::E096
        | Code::E097
        | Code::E099
        | Code::E100
        | Code::E101
        | Code::S06
        | Code::S07
        | Code::S09 => false,
    }
}

fn is_dash(detail: &str) -> bool
    ensures { result ≡ is_dash_text detail.now }
{
    is_text(detail, "-")
}
