//! What tests of many crates share, and what needs no reader of types: comparisons of answers and
//! of written values with expected ones, devices of std, and pieces of blocks.
#![tactic(auto)]

mod failing_devices;
mod pieces_of_blocks;
mod std_devices;
mod told;
mod written;

pub use failing_devices::{FaultySource, StingySink};
pub use pieces_of_blocks::{LINK, THREE_LINKS, joined, nested};
pub use std_devices::{Sink, Source};
pub use told::{agree, is_told};
pub use written::{each_writes, is_unwritten, writes};
