//! Writing values.

pub use dagcbor_heads::{BufWriter, IoRefWriter, IoWriter, Tally, Write, WriteResult, push_head};
pub use dagcbor_write::{
    BoundedCollect, CollectMap, CollectSeq, Field, FieldRow, Optional, Serialize, Serializer,
    to_vec, to_writer, write_struct, write_struct_variant,
};
