//! CAR files (version 1) made of the sections of others.
#![tactic(auto)]

mod filter;
mod kept;
mod merge;
mod names;
mod new_files;
mod part;
mod send;
mod split;
mod split_words;
mod words;

pub use filter::{Filter, write_filtered, write_listed};
pub use kept::Kept;
pub use merge::write_merged;
pub use new_files::{NewFiles, NotBegun};
pub use split::{SplitEnd, parts_are_all, parts_are_within, parts_have_sections, write_split};
pub use split_words::{Split, split_of};
pub use words::{By, FilterWords, filter_of, merge_of};
