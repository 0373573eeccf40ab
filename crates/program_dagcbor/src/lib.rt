//! The program `dagcbor`, line by line: tests lines of hexadecimal text against DAG-CBOR, or lists
//! their links.
//!
//! Each line of input is answered by a line of output (`tests_programs`):
//!
//! ```rust
//! const LINES: &[u8] = b"1817\nzz\n\nF6\n63616263\r\nF5\n420102";
//! run_check(alloc, &mut &LINES[..], &mut output)?;
//! assert_eq!(rt; output.as_slice(), ANSWERS);
//! ```
#![tactic(auto)]

mod answer;
mod command;
mod line;
mod run;

pub use command::{Command, OUT_OF_MEMORY, USAGE, run_command};
pub use run::{run_check, run_links};
