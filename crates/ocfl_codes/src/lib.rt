//! What each code of a report line means: one table, which messages, comparisons and scripts read.
//!
//! # What is proved
//!
//! - `weigh`, `kind_of`, `is_hiding`, `meaning` and `first_step` have a value for each code, which
//!   is that of its definition. A new code without a row does not compile.
//! - `is_of_object` and `is_of_file` tell what a line is of by its code, its place and its detail:
//!   a line of an inventory in a version directory is of a file. `meaning_at` and `first_step_at`
//!   have the words for it.
//! - Just the findings have a weight (`findings_have_weights`).
//! - `codes_text` and `codes_json` write the table, a row for each code (`each_code_has_one_row`).
#![tactic(auto)]

mod as_json;
mod inventory;
mod kind;
pub mod laws;
mod table;
mod weight;
mod words;

pub use as_json::codes_json;
pub use inventory::{is_version_inventory, is_version_name};
pub use kind::{Kind, is_hiding, is_of_file, is_of_object, kind_of};
pub use table::codes_text;
pub use weight::{Weight, weigh};
pub use words::{first_step, first_step_at, meaning, meaning_at};
