//! The lines of one place, as they are gathered and as text. The place is held once.
ghost use Rattle.std.specs.{Prelude.{◌≡◌, ◌∷◌, [], IfOk, OnOk, string_bytes}, List.{list_any}};
ghost use Rattle.ocfl_report.specs.{Line.{is_finding_code}, Text.{lines_text}};
ghost use Rattle.ocfl_inventory.specs.{Note.{note, plain}, TripleView.{named_view}};
ghost use Rattle.ocfl_rules.specs.{Head.{mismatch}, Lines.{block_code}};
ghost use Rattle.ocfl_item.specs.{Internal.Lines.{Adds, HasLines}, PlaceLines.{lines_of}};

use ocfl_digest::Algorithm;
use ocfl_inventory::{Named, Remark};
use ocfl_report::{Code, Line};
use ocfl_tree::Place;
use std::alloc::{AllocError, Global};

/// The lines of a place.
#[derive(Debug, Drop)]
pub struct PlaceLines {
    pub(crate) place: Place,
    pub(crate) remarks: Vec<Remark>,
}

/// The lines of a place as they go out.
#[derive(Debug, Drop)]
pub struct Piece {
    pub place: Place,
    pub text: Vec<u8>,
    /// Whether a line of it is a finding.
    pub found: bool,
}

impl PlaceLines {
    /// A place without lines.
    pub(crate) fn new(alloc: Global, place: Place) -> PlaceLines
        ensures place { result.place ≡ place }
        ensures lines { HasLines result [] }
    {
        PlaceLines {
            place,
            remarks: Vec::new(alloc),
        }
    }

    /// A place that has one line, whose detail is a dash.
    pub(crate) fn plain(alloc: Global, place: Place, code: Code) -> Result<PlaceLines, AllocError>
        ensures place { IfOk result (λ lines. lines.place ≡ place) }
        ensures lines { IfOk result (λ lines. HasLines lines (plain code ∷ [])) }
    {
        let mut lines = PlaceLines::new(alloc, place);
        lines.add_plain(code)?;
        Ok(lines)
    }

    /// The allocator of the lines.
    pub(crate) fn alloc(&self) -> Global {
        *self.remarks.allocator()
    }

    /// Appends a line.
    pub(crate) fn add(&mut self, code: Code, detail: String) -> Result<(), AllocError>
        ensures { OnOk result (Adds self.old self.new (note code (string_bytes detail) ∷ [])) }
    {
        self.remarks.push(Remark { code, detail })?;
        Ok(())
    }

    /// Appends a line whose detail is a dash.
    pub(crate) fn add_plain(&mut self, code: Code) -> Result<(), AllocError>
        ensures { OnOk result (Adds self.old self.new (plain code ∷ [])) }
    {
        let detail = String::from_str(self.alloc(), "-")?;
        self.add(code, detail)
    }

    /// Appends the line of a digest that is not the one that was found.
    pub(crate) fn add_mismatch(
        &mut self,
        code: Code,
        algorithm: Algorithm,
        wanted: &str,
        found: &str,
    ) -> Result<(), AllocError>
        ensures { OnOk result (Adds self.old self.new
            (mismatch code algorithm wanted.now found.now ∷ [])) }
    {
        let detail = format!(in self.alloc(); "{} {} {}", algorithm.name(), wanted, found)?;
        self.add(code, detail)
    }

    /// The text of the lines, for each of which the place is put in. The error is running out of
    /// memory.
    pub fn into_piece(self, alloc: Global) -> Result<Piece, AllocError>
        ensures place { IfOk result (λ piece. piece.place ≡ self.place) }
        ensures text { IfOk result (λ piece. piece.text.items ≡ lines_text (lines_of self)) }
        ensures found { IfOk result (λ piece. piece.found
            ≡ list_any (λ l. is_finding_code l.code) (lines_of self)) }
    {
        let mut line = Line {
            code: Code::Clean,
            place: self.place,
            detail: String::new(alloc),
        };
        let mut text = Vec::new(alloc);
        let mut found = false;
        for remark in self.remarks {
            line.code = remark.code;
            line.detail = remark.detail;
            line.put(&mut text)?;
            if line.is_finding() {
                found = true;
            }
        }
        Ok(Piece {
            place: line.place,
            text,
            found,
        })
    }
}

/// The code of what is wrong with a named digest.
pub(crate) fn code_of(named: &Named) -> Code
    ensures { result ≡ block_code (named_view named.now) }
{
    if named.fixity { Code::E093 } else { Code::E092 }
}
