//! Data as DAG-JSON.
//!
//! In DAG-JSON, a map that has the key `/` looks like a link or like bytes. Such a map is written
//! as it is, because this text is for people to read. No text is read as such a map.
#![tactic(auto)]

mod error;
pub mod laws;
mod leaves;
mod number;
mod parse;
mod place;
mod read;
mod reserved;
mod text;
mod tree;

pub use error::{DagJsonError, Refusal};
pub use leaves::push_link;
pub use parse::data_from_json;
pub use reserved::has_reserved_key;
pub use text::push_text;
pub use tree::dag_json;
