//! The data of DAG-CBOR: what a tree is, its one spelling, and trees as values.
//!
//! 128 nested lists, the innermost empty, take 256 steps to read:
//!
//! ```rust
//! let tree = lists(rt.alloc(), 128)?;
//! assert_eq!(rt; tree.depth_need(), 256);
//! assert_eq!(rt; Ipld::Null.depth_need(), 1);
//! ```
#![tactic(auto)]

mod bytes;
mod cid;
mod cid_error;
mod cid_iter;
mod codec;
mod ipld;
mod key;
pub mod laws;
mod links;

pub use bytes::{ByteSlice, Bytes};
pub use cid::{Cid, split_varint};
pub use cid_error::CidError;
pub use cid_iter::CidIter;
pub use codec::Codec;
pub use ipld::Ipld;
pub use key::{comes_before, key_cmp};
pub use links::Links;
