//! The codes and lines of a report, their text, and output that says how much of it went out.
//!
//! # Example
//!
//! ```
//! use ocfl_report::{Code, read_line};
//! use std::test::Fail;
//!
//! fn a_line_is_read_and_written_again(rt: HostRuntime) -> Result<(), Fail> {
//!     let text = b"E092\to/v1/content/a%25\tsha512 ab cd\n".as_slice();
//!     let line = read_line(rt.alloc(), text)?;
//!     assert!(rt; line.code == Code::E092 && line.is_finding());
//!     assert_eq!(rt; line.place.path(), "o/v1/content/a%");
//!     let mut written = Vec::new(rt.alloc());
//!     line.put(&mut written)?;
//!     assert!(rt; written.as_slice() == text);
//!     Ok(())
//! }
//! ```
//!
//! # What is proved
//!
//! - A line and a place are appended exactly as the definitions say (`Line::put`, `put_place`). If
//!   memory is refused, nothing is changed; that happens only if the output has too little room.
//! - `read_place` answers a place exactly if the bytes are that place's text, and `Bad` exactly if
//!   they are not the text of any place, unless memory runs out. `read_line` does the same for
//!   lines.
//! - Output that ends well sent all bytes. Output that stops sent exactly the first `gone` bytes,
//!   fewer than all (`write_all_of`).
//! - Input is read up to a limit, or to the end of the next line, byte for byte (`read_limited`,
//!   `read_next_line`).
#![tactic(auto)]

mod code;
mod display;
mod escaped;
mod further;
mod input;
pub mod laws;
mod line;
mod number;
mod output;
mod path;
mod reading;
mod stop;

pub use code::Code;
pub use display::DisplayPlace;
pub use further::Further;
pub use input::{InputStop, read_limited, read_next_line};
pub use line::Line;
pub use number::read_decimal;
pub use output::{OutStop, write_all_of};
pub use path::{put_place, read_place};
pub use reading::{read_line, split_once};
pub use stop::TextStop;
