//! Reading values.

pub use dagcbor_core::DEFAULT_STEPS;
pub use dagcbor_decode::{Kind, check_slice, links_from_slice};
pub use dagcbor_heads::{
    Input, IoReader, IoRefReader, Read, ReadResult, Reference, SliceReader, Tally, is_at_end,
    is_indefinite, peek_one, pull_head, pull_one, pull_payload, pull_short_payload,
};
pub use dagcbor_items::any_from_slice;
pub use dagcbor_read::{
    Accessor, Closed, Deserialize, DeserializeOwned, Deserializer, EnumAccessor, FieldGroup,
    Fields, IgnoredAny, Omissible, OmissibleItem, Required, Row, Shown, StreamDeserializer,
    Variants, from_reader, from_reader_once, from_slice, from_slice_owned, from_slice_with_depth,
    iter_from_reader, read_enum, read_fields, read_into, read_struct, read_struct_variant,
    read_tuple, skip_value,
};
