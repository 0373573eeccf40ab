//! Decides whether bytes are a block of DAG-CBOR, and of which kind, or why not, and where, as one
//! function, `decode` of `specs/Decode.antt`, defines it. No tree is built, and only links take
//! memory.
//!
//! ```rust
//! agree(check_slice(b"\x82\x39\x01\x2b\x61a")?, Kind::List)?;
//! ```
#![tactic(auto)]

mod cause;
mod cid;
mod front;
mod judge;
mod kind;
mod links;
mod part;
mod printed_names;
mod slices;
mod text;

pub use cid::is_cid;
pub use front::{after_leaf, after_link, split_payload};
pub use kind::{Kind, kind_at, kind_of_front};
pub use links::{first_item, links_from_slice, links_of_items, next_link};
pub use part::follows;
pub use printed_names::{kind_name, variant_name};
pub use slices::{Refused, check_slice, judge_slice};
pub use text::{is_short_ascii, is_text};
