//! What CAR files hold, in numbers.
#![tactic(auto)]

mod counts;
mod facts;
mod front;
mod inspect;
mod json;
mod kinds;
mod names;
mod plain;
mod rows;
mod words;

pub use counts::Counts;
pub use facts::{Facts, Index, Root, index_word};
pub use front::read_front;
pub use inspect::{Form, write_inspected};
pub use json::json_text;
pub use kinds::{Kind, kind_word, shown_number};
pub use names::Names;
pub use plain::{plain_text, push_number};
pub use rows::{Row, Rows};
pub use words::{Inspection, inspection_of};
