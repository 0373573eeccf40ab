//! CAR files of version 2 with an index: the index made, validated and read, and the blocks on a
//! path's way by it.
#![tactic(auto)]

mod copy;
mod find;
mod gather;
mod header;
mod index;
mod judged;
pub mod laws;
mod layout;
mod placing;
mod way;

pub use find::{Found, find_block};
pub use index::write_index;
pub use judged::{Judged, Judgement, Listed, judge_index, list_index};
pub use way::{Gathered, gather_way};
