//! DAG-CBOR, read and written with proofs, under the names of the crate `serde_ipld_dagcbor`.
//!
//! docs/TYPES.md lists the calls. This example is a test in
//! `crates/tests_by_hand/src/tests/recipes.rt`. `agree` and `is_told` belong to the tests, and fail
//! if the result differs:
//!
//! ```rust
//! let block = to_vec(alloc, &(-300i16, "a"))?;
//! agree(block.as_slice(), b"\x82\x39\x01\x2b\x61a".as_slice())?;
//! let pair: (i16, &str) = from_slice(alloc, &block)?;
//! agree(pair, (-300, "a"))?;
//! let value: Ipld = from_slice(alloc, &block)?;
//! is_told(alloc, &value, r#"List([Integer(-300), String("a")])"#)
//! ```
#![tactic(auto)]

pub mod codec;
pub mod de;
pub mod error;
pub mod laws;
pub mod ser;

pub use dagcbor_core::{
    ArithmeticOverflow, DEFAULT_STEPS, DecodeError, EncodeError, Len, Message, Name,
};
pub use dagcbor_decode::{Kind, check_slice, links_from_slice};
pub use dagcbor_heads::{
    BufWriter, Input, IoReader, IoRefReader, IoRefWriter, IoWriter, Read, ReadResult, Reference,
    SliceReader, Tally, Write, WriteResult, is_at_end, is_indefinite, peek_one, pull_head,
    pull_one, pull_payload, pull_short_payload, push_head,
};
pub use dagcbor_items::any_from_slice;
pub use dagcbor_read::{
    Accessor, Closed, Deserialize, DeserializeOwned, Deserializer, EnumAccessor, FieldGroup,
    Fields, IgnoredAny, Omissible, OmissibleItem, Required, Row, Shown, StreamDeserializer,
    Variants, from_reader, from_reader_once, from_slice, from_slice_owned, from_slice_with_depth,
    iter_from_reader, read_enum, read_fields, read_into, read_struct, read_struct_variant,
    read_tuple, skip_value,
};
pub use dagcbor_write::{
    BoundedCollect, CollectMap, CollectSeq, Field, FieldRow, Optional, Serialize, Serializer,
    to_vec, to_writer, write_struct, write_struct_variant,
};
pub use ipld_tree::{ByteSlice, Bytes, Cid, CidError, CidIter, Codec, Ipld, Links};

/// The code of DAG-CBOR in the multicodec table.
pub const DAG_CBOR_CODE: u64 = 0x71;
