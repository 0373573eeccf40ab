//! Writing values as DAG-CBOR.
//!
//! The examples here are taken from `src/tests/recipes.rt` of `tests_by_hand`. `agree` belongs to
//! the tests, and fails if the result differs:
//!
//! ```rust
//! let block = to_vec(alloc, &(-300i16, "a"))?;
//! agree(block.as_slice(), b"\x82\x39\x01\x2b\x61a".as_slice())?;
//! ```
#![tactic(auto)]

mod collect;
pub mod laws;
mod places;
mod row;
mod serialize;
mod serializer;
mod structs;
mod types;
mod whole;

pub use collect::bounded::BoundedCollect;
pub use collect::collect_map::CollectMap;
pub use collect::collect_seq::CollectSeq;
pub use collect::gathered::{Span, entry_bytes, entry_key, put_in_order};
pub use places::{Place, Places};
pub use row::{Field, FieldRow, Optional};
pub use serialize::Serialize;
pub use serializer::Serializer;
pub use structs::{write_struct, write_struct_variant};
pub use whole::{to_vec, to_writer};
