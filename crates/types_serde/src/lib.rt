//! DAG-CBOR as a format of serde: a type derives `Serialize` and `Deserialize`, and that is all its
//! code.
//!
//! ```rust
//! #[derive(Debug, Drop, PartialEq, Serialize, Deserialize)]
//! struct Note {
//!     year: u16,
//!     text: String,
//! }
//!
//! let block = to_vec(alloc, &note)?;
//! let again: Note = from_slice(alloc, &block)?;
//! ```
#![tactic(auto)]

mod any;
pub mod as_any;
pub mod as_bytes;
pub mod as_link;
mod block;
mod byte_buf;
mod device;
mod entries;
mod error;
mod frame;
pub mod laws;
mod link;
mod log;
mod rest;
mod sink;
mod source;
mod stream;
mod taken;
mod whole;
mod writer;

pub use any::Any;
pub use byte_buf::ByteBuf;
pub use device::{push_value, to_writer};
pub use error::{DeviceError, Error, Misfit, WriteError};
pub use link::Link;
pub use rest::{Entries, Rest};
pub use source::{block_from_reader, block_from_reader_once, from_reader, from_reader_once};
pub use stream::{Stream, iter_from_reader};
pub use whole::{from_slice, from_slice_lossless, from_slice_owned, to_vec};
