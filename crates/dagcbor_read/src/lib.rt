//! Reading values from DAG-CBOR.
//!
//! The examples here are taken from `src/tests/recipes.rt` of `tests_by_hand`. `agree` and
//! `is_told` belong to the tests, and fail if the result differs:
//!
//! ```rust
//! let block = to_vec(alloc, &(-300i16, "a"))?;
//! agree(block.as_slice(), b"\x82\x39\x01\x2b\x61a".as_slice())?;
//! let pair: (i16, &str) = from_slice(alloc, &block)?;
//! agree(pair, (-300, "a"))?;
//! ```
#![tactic(auto)]

mod access;
mod deserialize;
mod deserializer;
pub mod laws;
mod shown;
mod source;
mod stream;
mod types;
mod whole;

pub use access::accessor::Accessor;
pub use access::enum_accessor::EnumAccessor;
pub use access::fields::{Fields, read_fields, read_into, skip_value};
pub use access::group::{FieldGroup, Omissible, Required};
pub use access::row::{OmissibleItem, Row, read_tuple};
pub use access::structs::{Closed, read_struct, read_struct_variant};
pub use access::variants::{Variants, read_enum};
pub use deserialize::{Deserialize, DeserializeOwned};
pub use deserializer::Deserializer;
pub use shown::Shown;
pub use source::{from_reader, from_reader_once};
pub use stream::{StreamDeserializer, iter_from_reader};
pub use types::data::IgnoredAny;
pub use whole::{from_slice, from_slice_owned, from_slice_with_depth};
