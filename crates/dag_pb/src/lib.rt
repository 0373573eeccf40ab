//! The blocks of DAG-PB: validates them, reads their fields and links, and encodes nodes. Only
//! `encode_node` allocates.
#![tactic(auto)]

mod encode;
mod error;
mod field;
pub mod laws;
mod link;
mod node;
mod place;
mod stop;
mod varint;

pub use encode::encode_node;
pub use error::{PbCause, PbEncodeError, PbError};
pub use field::PbField;
pub use link::PbLink;
pub use node::{check_node, next_field, next_link};
pub use place::{data_length, link_length, put_data, put_link};
