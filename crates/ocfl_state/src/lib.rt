//! The state folder of a fixity auditor: a checkpoint with its text, the open cycle's report, the
//! reports of earlier cycles, and what a crash may leave of them. One is in memory, and loses what
//! a power cut takes. The digests of a report by pieces.
#![tactic(auto)]

mod checking;
mod checkpoint;
mod checkpoint_account;
mod checkpoint_decoding;
mod checkpoint_encoding;
mod checkpoint_fields;
mod checkpoint_form;
mod checkpoint_laws;
mod checkpoint_left;
mod checkpoint_parts;
mod checkpoint_showing;
mod comparing;
mod extending;
mod finding;
mod folder;
mod held;
pub mod laws;
mod memory;
mod observed;
mod pieces;

pub use checking::ReportCheck;
pub use checkpoint::Checkpoint;
pub use checkpoint_decoding::decode_checkpoint;
pub use checkpoint_encoding::{checkpoint_lines, encode_checkpoint};
pub use checkpoint_laws::{
    checkpoint_reads_back, every_checkpoint_fits, no_checkpoint_is_refused,
    text_determines_the_checkpoint,
};
pub use checkpoint_parts::{Left, Phase, ReportMark, RootIdentity, TopNames};
pub use checkpoint_showing::{NotShown, read_stored, show_stored};
pub use comparing::{digests_of_front, digests_of_report, is_report_of, resume_digests};
pub use extending::append_marked;
pub use finding::{FoundReport, find_report, may_close_whole};
pub use folder::{FolderTrouble, MOST_CHECKPOINT, StateFolder};
pub use held::ClosedReport;
pub use memory::MemState;
pub use observed::{Observed, Observer};
pub use pieces::{PIECE_LEN, ReportDigests};
