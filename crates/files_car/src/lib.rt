//! CAR files, versions 1 and 2.
#![tactic(auto)]

mod blocks;
mod check;
mod each;
mod error;
mod header;
pub mod laws;
mod pull;
mod push;
mod read_section;
mod reader;
mod section;
mod tree;
mod version;
mod writer;

pub use blocks::{CarBlocks, read_blocks};
pub use check::CarCheck;
pub use each::{ReadCarError, SectionSink, each_section};
pub use error::{CarError, CarWriteError};
pub use header::{judge_header, split_header};
pub use pull::{pull_header, pull_section};
pub use push::{push_header, push_section};
pub use read_section::ReadSection;
pub use reader::{Begun, CarReader};
pub use section::{Section, split_section};
pub use tree::push_tree;
pub use version::{Span, file_span};
pub use writer::CarWriter;
