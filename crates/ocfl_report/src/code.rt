//! The codes of report lines.
ghost use Rattle.std.specs.Prelude.{◌≡◌, IfSome, IsNone};
ghost use Rattle.ocfl_report.specs.{Text.{code_text}, declared.code.Code.{Code as ModelCode}};

use ocfl_tree::is_bytes;

/// What a line of the report says. Codes that begin with `E` have the numbers of OCFL 1.1's
/// validation codes.
#[derive(Clone, Copy, Debug, PartialEq, Eq)]
pub enum Code {
    /// Nothing was found.
    Clean,
    /// An entry that is not allowed in an object root.
    E001,
    /// Several object declarations.
    E003,
    /// The bytes of an object declaration are not exact.
    E007,
    /// A file that is not allowed in a version directory.
    E015,
    /// The content directory's name holds a slash.
    E017,
    /// The content directory's name is `.` or `..`.
    E018,
    /// A content file that the manifest does not name.
    E023,
    /// An empty directory in a content directory.
    E024,
    /// A digest algorithm that no inventory may use.
    E025,
    /// An inventory that is not JSON.
    E033,
    /// An inventory without a digest algorithm.
    E036,
    /// An inventory without a manifest.
    E041,
    /// A sidecar that is not there.
    E058,
    /// The inventory's bytes do not have the sidecar's digest.
    E060,
    /// A sidecar that is not of the form.
    E061,
    /// An object without an inventory.
    E063,
    /// An inventory of the newest version that is not the root inventory: only an audit that checks
    /// the inventories of versions has it.
    E064,
    /// A storage root without a declaration.
    E069,
    /// A file in the storage hierarchy.
    E072,
    /// An empty directory in the storage hierarchy.
    E073,
    /// Several declarations of the storage root.
    E076,
    /// The bytes of the storage root's declaration are not exact.
    E080,
    /// A content file is missing, or does not have a digest that the manifest names.
    E092,
    /// A content file is missing, or does not have a digest that a fixity block names.
    E093,
    /// A digest that several keys of the manifest have.
    E096,
    /// A digest that several keys of one algorithm in the fixity block have.
    E097,
    /// A listed path with an element that is empty, `.` or `..`.
    E099,
    /// A listed path that begins or ends with a slash.
    E100,
    /// A listed path that is repeated, or that another one begins with.
    E101,
    /// A declaration of a version that is not known.
    S01,
    /// An inventory that is too long to be read.
    S02,
    /// A value that is needed is of a wrong kind, or empty.
    S03,
    /// What is neither a file nor a directory.
    S04,
    /// A directory that is too deep to be listed.
    S05,
    /// A listed path that cannot be one of a content file.
    S06,
    /// An algorithm in the fixity block that is not computed: a note, and no finding.
    S07,
    /// A content file that could not be read.
    S08,
    /// What an object's root inventory is: a note, and no finding. Only an audit that checks the
    /// inventories of versions has it.
    S09,
}

impl Code {
    /// The code as a report line begins with it: `ok`, or the code's letter and its digits.
    pub fn text(self) -> &'static str
        ensures { result.now ≡ code_text self }
    {
        match self {
            Code::Clean => "ok",
            Code::E001 => "E001",
            Code::E003 => "E003",
            Code::E007 => "E007",
            Code::E015 => "E015",
            Code::E017 => "E017",
            Code::E018 => "E018",
            Code::E023 => "E023",
            Code::E024 => "E024",
            Code::E025 => "E025",
            Code::E033 => "E033",
            Code::E036 => "E036",
            Code::E041 => "E041",
            Code::E058 => "E058",
            Code::E060 => "E060",
            Code::E061 => "E061",
            Code::E063 => "E063",
            Code::E064 => "E064",
            Code::E069 => "E069",
            Code::E072 => "E072",
            Code::E073 => "E073",
            Code::E076 => "E076",
            Code::E080 => "E080",
            Code::E092 => "E092",
            Code::E093 => "E093",
            Code::E096 => "E096",
            Code::E097 => "E097",
            Code::E099 => "E099",
            Code::E100 => "E100",
            Code::E101 => "E101",
            Code::S01 => "S01",
            Code::S02 => "S02",
            Code::S03 => "S03",
            Code::S04 => "S04",
            Code::S05 => "S05",
            Code::S06 => "S06",
            Code::S07 => "S07",
            Code::S08 => "S08",
            Code::S09 => "S09",
        }
    }
}

/// All codes.
const CODES: [Code; 39] = [
    Code::Clean,
    Code::E001,
    Code::E003,
    Code::E007,
    Code::E015,
    Code::E017,
    Code::E018,
    Code::E023,
    Code::E024,
    Code::E025,
    Code::E033,
    Code::E036,
    Code::E041,
    Code::E058,
    Code::E060,
    Code::E061,
    Code::E063,
    Code::E064,
    Code::E069,
    Code::E072,
    Code::E073,
    Code::E076,
    Code::E080,
    Code::E092,
    Code::E093,
    Code::E096,
    Code::E097,
    Code::E099,
    Code::E100,
    Code::E101,
    Code::S01,
    Code::S02,
    Code::S03,
    Code::S04,
    Code::S05,
    Code::S06,
    Code::S07,
    Code::S08,
    Code::S09,
];

/// The code that has this text, and `None` if no code has it.
pub(crate) fn read_code(text: &[u8]) -> Option<Code>
    ensures some { IfSome result (λ code. text.now ≡ code_text code) }
    ensures none { IsNone result → (code : ModelCode) → text.now ≡ code_text code → ⊥ }
{
    for code in CODES {
        if is_bytes(text, code.text().as_bytes()) {
            return Some(code);
        }
    }
    None
}
