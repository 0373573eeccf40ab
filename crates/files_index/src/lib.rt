//! The index of a CAR file of version 2: where the section of each multihash begins. Also reads
//! bytes at places.
#![tactic(auto)]

mod encode;
mod entries;
mod entry;
mod find;
mod judging;
pub mod laws;
mod number;
mod read_at;
mod run;

pub use encode::encode_index;
pub use entries::{Format, IndexError, IndexFault, Listing, read_index};
pub use entry::Entry;
pub use find::{Bucket, find_bucket};
pub use judging::{Findings, Placed, judge};
pub use number::{count_at, fill, number_at};
pub use read_at::{ReadAt, Rest, buffered_from};
