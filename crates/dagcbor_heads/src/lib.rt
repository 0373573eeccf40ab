//! Readers and writers of bytes, and the heads of DAG-CBOR items on them, with the errors of
//! `dagcbor_core`.
//!
//! The beginning of a list of three items, whose first is 1 (`src/tests/writers.rt` of `tests_io`):
//!
//! ```rust
//! push_head(&mut writer, 4, 3)?;
//! push_head(&mut writer, 0, 1)?;
//! ```
#![tactic(auto)]

mod input;
mod io_read;
mod io_ref_read;
mod io_ref_write;
mod io_write;
mod pull;
mod push;
mod read;
mod steps;
mod tally;
mod window;
mod write;

pub use dagcbor_core::{
    ArithmeticOverflow, DEFAULT_STEPS, DecodeError, EncodeError, Len, Message, Name, laws,
    split_head,
};
pub use input::Input;
pub use io_read::IoReader;
pub use io_ref_read::IoRefReader;
pub use io_ref_write::IoRefWriter;
pub use io_write::IoWriter;
pub use pull::{
    is_at_end, is_indefinite, peek_one, pull_head, pull_head_argument, pull_one, pull_payload,
    pull_short_payload,
};
pub use push::{head_bytes, push_head, push_head_at_once, push_headed_at_once};
pub use read::{Read, ReadResult, Reference, SliceReader};
pub use steps::spend_step;
pub use tally::Tally;
pub use write::{BufWriter, Write, WriteResult};
