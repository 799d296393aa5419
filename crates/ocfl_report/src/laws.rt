//! The laws of the texts of places and lines.
ghost use Rattle.std.specs.Prelude.{◌≡◌, ◌≢◌, ◌↔◌, ◌⊎◌, List, All, Any, IfOk, flat_map, true, false};
ghost use Rattle.ocfl_tree.specs.{Place.{Place as ModelPlace}, Name.{IsPlace}};
ghost use Rattle.ocfl_report.specs.Line.{Line as ModelLine, Item, line_of, is_finding_code, has_finding, found};
ghost use Rattle.ocfl_report.specs.declared.code.Code.{Code as ModelCode};
ghost use Rattle.ocfl_report.specs.declared.code.Code.TheVariants.{Clean, S07, S09};
ghost use Rattle.ocfl_report.specs.Text.{place_text, line_text, lines_text, text, IsLine};

use crate::line::Line;
use crate::path::{put_place, read_place};
use crate::reading::read_line;
use crate::stop::TextStop;
use ocfl_tree::Place;
use ocfl_tree::laws::every_place_has_names;
use std::alloc::Global;

/// The text of a place determines the place.
#[tactic(auto, using(crate::proofs::PlaceTexts::place_text_determines))]
pub fn text_determines_the_place()
    ensures { (p q : ModelPlace) → IsPlace p → IsPlace q → place_text p ≡ place_text q → p ≡ q }
{}

/// What is written of a place is read as that place, unless memory runs out.
pub fn place_reads_back(alloc: Global, place: &Place) -> Result<Place, TextStop>
    ensures same { IfOk result (λ read. read ≡ place.now) }
    ensures never_bad { result ≢ Err TextStop.Bad }
{
    every_place_has_names(place);
    let mut written = Vec::new(alloc);
    put_place(place, &mut written)?;
    read_place(alloc, written.as_slice())
}

/// The text of a line determines the line.
#[tactic(auto, using(crate::proofs::LineTexts::line_text_determines))]
pub fn text_determines_the_line()
    ensures { (l m : ModelLine) → IsLine l → IsLine m → line_text l ≡ line_text m → l ≡ m }
{}

/// Every [`Line`] is one of those of which the laws speak.
pub fn every_line_fits(line: &Line)
    ensures { IsLine (line_of line.now) }
{
    every_place_has_names(&line.place);
    let _ = line.detail.as_str();
}

/// What is written of a line is read as that line, unless memory runs out.
pub fn line_reads_back(alloc: Global, line: &Line) -> Result<Line, TextStop>
    ensures same { IfOk result (λ read. line_of read ≡ line_of line.now) }
    ensures never_bad { result ≢ Err TextStop.Bad }
{
    every_line_fits(line);
    let mut written = Vec::new(alloc);
    line.put(&mut written)?;
    read_line(alloc, written.as_slice())
}

/// The text of items is that of all their lines.
#[tactic(auto, using(crate::proofs::LineTexts::text_is_lines_text))]
pub fn text_is_that_of_lines()
    ensures { (items : List Item) → text items ≡ lines_text (flat_map (λ i. i.lines) items) }
{}

/// The text of a report determines its lines: a reader can tell them apart again.
#[tactic(auto, using(crate::proofs::LineTexts::lines_text_determines))]
pub fn text_determines_the_lines()
    ensures { (ls ms : List ModelLine) → All IsLine ls → All IsLine ms
        → lines_text ls ≡ lines_text ms → ls ≡ ms }
{}

/// Each line is a finding but that of what is right and the notes, on an algorithm that is not
/// computed and on what a root inventory is. Items are a finding exactly if a line of one of them
/// is.
#[tactic(auto, using(crate::proofs::FindingLaws::finding_codes))]
pub fn findings_are_exact()
    ensures codes { (c : ModelCode)
        → (is_finding_code c ≡ false) ↔ ((c ≡ Clean) ⊎ ((c ≡ S07) ⊎ (c ≡ S09))) }
    ensures items { (i : Item)
        → (has_finding i ≡ true) ↔ Any (λ l. is_finding_code l.code ≡ true) i.lines }
    ensures lists { (items : List Item)
        → (found items ≡ true) ↔ Any (λ i. has_finding i ≡ true) items }
{}
