//! The laws of the table of codes.
ghost use Rattle.std.specs.Prelude.{◌≡◌, is_some, length};
ghost use Rattle.std.specs.List.{filter};
ghost use Rattle.ocfl_report.specs.Line.{is_finding_code};
ghost use Rattle.ocfl_report.specs.declared.code.Code.{Code as ModelCode};
ghost use Rattle.ocfl_codes.specs.{Weight.{weight_of}, Table.{has_text_of, every_code}};

/// Just the findings have a weight.
#[tactic(auto, using(crate::proofs::Weights::weighed))]
pub fn findings_have_weights()
    ensures { (c : ModelCode) → is_some (weight_of c) ≡ is_finding_code c }
{}

/// Each code has one row of the table.

pub fn each_code_has_one_row()
    ensures { (c : ModelCode) → length (filter (has_text_of c) every_code) ≡ 1 }
{}
