//! Cursors of the whole and of a part, which say where the next run begins, with their text and why
//! other bytes are refused. What a run may spend and start, and the meter of that.
//!
//! # What is proved
//!
//! - Every `Cursor` keeps its rule by its type.
//! - `encode` writes exactly the lines of the definition, seven or eight, and `cursor_lines` those
//!   that are shown of a cursor. A text determines the cursor whose text it is, and so what its
//!   audit checks further.
//! - `decode` answers a cursor only for bytes that are its text as `encode` writes it or, if it has
//!   no files and its audit checks nothing further, in version 1. It refuses only bytes that are
//!   not the text of any cursor, for the first reason that applies.
//! - `decode` asks for memory only after the front, the version and the digest line were found
//!   right. `read_cursor` answers as `decode` of all the bytes of a reader that tells them.
//! - A part's cursor has a text that names the part's two ends (`encode_part`). `decode_part`
//!   answers a cursor only for bytes that are the text of a cursor for that part, and refuses
//!   others for the first reason that applies. Neither reader takes the other's texts.
//!   `read_part_cursor` answers as `decode_part` of all the bytes of a reader that tells them, up
//!   to 67,108,864 bytes.
//! - `read_shown` gives the lines that are shown of a stored cursor, of the whole or of any part.
//!   It refuses other bytes by the kind that their first line names.
//! - `sealed_text` ends a text with the line that seals it, and `sealed_body` gives what stands
//!   before a last line exactly where that seals it. `body_of` looks at the front and the version
//!   first, and gives the first reason that applies. Checkpoints are sealed and read by these calls
//!   too, and by `after_prefix`.
//! - A meter starts a file only while less than the budget is spent and fewer files than their
//!   limit are started. It adds exactly what is charged, and cannot overflow. It counts as one file
//!   exactly what costs something.
#![tactic(auto)]

mod cursor;
mod decoding;
mod encoding;
mod ends;
mod form;
mod laws;
mod limits;
mod lines;
mod meter;
mod number;
mod part_decoding;
mod part_encoding;
mod part_reading;
mod pieces;
mod reading;
mod refused;
mod seal;
mod showing;
mod state;

pub use cursor::Cursor;
pub use decoding::decode;
pub use encoding::{cursor_lines, encode};
pub use ends::{PartEnds, every_part_has_ends, is_same_part};
pub use laws::{
    a_meter_stops_at_its_limits, cursor_reads_back, no_part_is_refused, no_stored_part_is_refused,
    part_reads_back, parts_and_whole_are_apart, text_determines_the_cursor,
    text_determines_the_part, text_determines_what_is_shown, what_a_meter_charged_fits_a_cursor,
};
pub use limits::{Budget, FileLimit, Limit, Limits};
pub use lines::{read_stored_lines, stored_lines};
pub use meter::Meter;
pub use part_decoding::decode_part;
pub use part_encoding::{encode_part, part_lines};
pub use part_reading::{PartCursorStop, read_part_cursor};
pub use pieces::{after_prefix, first_line};
pub use reading::{CursorStop, read_cursor};
pub use refused::{PartRefused, Refused, TextKind};
pub use seal::{body_of, sealed_body, sealed_text};
pub use showing::{ShowStop, read_shown};
pub use state::State;
