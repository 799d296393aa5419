//! The laws without a body: each is proved, and a call of it does nothing.
use ocfl_codes::laws::{each_code_has_one_row, findings_have_weights};
use ocfl_cursor::{
    no_part_is_refused, no_stored_part_is_refused, parts_and_whole_are_apart,
    text_determines_the_cursor, text_determines_the_part, text_determines_what_is_shown,
};
use ocfl_messages::laws::all_findings_are_ordered;
use ocfl_scope::laws::ends_are_of_the_numbered_part;
use ocfl_separators::laws::text_determines_the_separators;
use ocfl_state::{no_checkpoint_is_refused, text_determines_the_checkpoint};

#[test]
fn laws_can_be_called(_rt: HostRuntime) {
    text_determines_the_cursor();
    text_determines_the_part();
    no_part_is_refused();
    no_stored_part_is_refused();
    parts_and_whole_are_apart();
    text_determines_what_is_shown();
    text_determines_the_separators();
    ends_are_of_the_numbered_part();
    text_determines_the_checkpoint();
    no_checkpoint_is_refused();
    findings_have_weights();
    each_code_has_one_row();
    all_findings_are_ordered();
}
