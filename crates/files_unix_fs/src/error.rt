//! Why bytes are not a message of UnixFS.

use thiserror::Error;

/// The first fault in the bytes.
#[derive(Copy, Clone, Debug, PartialEq, Eq, Error)]
pub enum UnixFsCause {
    /// The bytes end inside a number, or before the bytes of a field end.
    #[error("a field is cut short")]
    Truncated,
    /// A number has more than ten bytes, or is not below 2^64.
    #[error("a number is too large")]
    InvalidVarint,
    /// No field of the message has this tag: a field of the standard has another wire type, the
    /// field's number is out of range, or the wire type is that of a group or of nothing. A tag is
    /// eight times the field's number, plus its wire type.
    #[error("no field has the tag {0}")]
    UnexpectedField(u64),
    /// The block sizes are packed into one field. Writers give each size its own field, and sizes
    /// are read from those only.
    #[error("block sizes are packed")]
    PackedSizes,
    /// The standard has no kind of data with this number.
    #[error("no kind of data has the number {0}")]
    UnknownKind(u64),
    /// The kind of data, field 1, is missing.
    #[error("the kind of data is missing")]
    NoKind,
}

/// Why bytes are not a message of UnixFS, and where the wrong field begins, counted from 0. If the
/// kind is missing, the place is the end.
#[derive(Copy, Clone, Debug, PartialEq, Eq, Error)]
#[error("{cause} at byte {place}")]
pub struct UnixFsError {
    pub cause: UnixFsCause,
    pub place: usize,
}
