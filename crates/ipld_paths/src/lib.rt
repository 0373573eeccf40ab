//! Paths in data, such as `a/0/b`: what they lead to in a block, and over blocks from a CID.
#![tactic(auto)]

mod find;
mod item;
pub mod laws;
mod parts;
mod resolution;
mod segments;
mod way;

pub use find::{
    Found, Item, Stop, find_in_block, find_judged, find_segments, find_slice, follow_slice,
};
pub use item::{Readable, item_bytes};
pub use resolution::{End, Next, Resolved, Step, bytes_under, resolve, resolve_step};
pub use segments::next_segment;
pub use way::{Way, each_once, resolve_way};
