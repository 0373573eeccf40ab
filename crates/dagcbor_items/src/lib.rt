//! Reads items of DAG-CBOR from an input: leaves, keys, links, and items of any kind.
//!
//! The data of a block, or why it is refused:
//!
//! ```rust
//! let place = r#"Err(NonMinimal { name: "u64", found: 24 })"#;
//! is_told(alloc, &any_from_slice(alloc, b"\x81\x18\x17"), place)
//! ```
#![tactic(auto)]

mod any;
mod enter;
mod key;
pub mod laws;
mod leaf;
mod link;
mod majors;
mod numbers;
mod order;
mod payloads;
mod simple;
mod sink;
mod skip;
mod slices;
mod strings;
mod utf8;
mod walk;

pub use any::read_any;
pub use dagcbor_decode::after_link;
pub use key::{is_name, no_key, read_key, take_key, take_name, take_one_of};
pub use link::{pull_link, take_link};
pub use majors::pull_major;
pub use numbers::{pull_i128, pull_signed, pull_u128, pull_unsigned};
pub use order::follows;
pub use payloads::PayloadReader;
pub use simple::{pull_bool, pull_null};
pub use sink::{LinkSink, NoLinks};
pub use skip::{after_item, after_items, after_token};
pub use slices::any_from_slice;
pub use strings::{pull_char, pull_owned_bytes, pull_owned_text, pull_slice, pull_str};
pub use walk::{gather_links, skip_any, walk_any};
