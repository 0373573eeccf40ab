//! What tests of types that are read share: reads that must agree whatever pieces the bytes come
//! in, and devices of a caller's own.
#![tactic(auto)]

mod alike;
mod examples;
mod own_devices;
mod reads;

pub use alike::{beginnings_are_cut, each_is_refused, is_refused, is_written_again};
pub use examples::{BLUE_TOLD, DEMO_TOLD, note_goes_both_ways};
pub use own_devices::{FaultyWriter, Pieces};
pub use reads::{answers, each_answers, tells};
