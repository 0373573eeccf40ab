//! Why bytes are not a block of DAG-PB, and why a node is not encoded.

use ipld_tree::CidError;
use thiserror::Error;

/// The first fault in the bytes.
#[derive(Copy, Clone, Debug, PartialEq, Eq, Error)]
pub enum PbCause {
    /// The block, or a link's message, ends inside a number, or before the bytes that it counts
    /// end.
    #[error("a field is cut short")]
    Truncated,
    /// A number has more than ten bytes, or is not below 2^64.
    #[error("a number is too large")]
    InvalidVarint,
    /// A field with this tag is not allowed there. No field has this tag, or the field comes twice
    /// or out of order. A tag is eight times the field's number, plus its wire type.
    #[error("a field of the tag {0} can't stand there")]
    UnexpectedField(u64),
    /// A link is empty.
    #[error("a link has no CID")]
    NoHash,
    /// A link's field of the CID does not hold a CID.
    #[error("a link has no CID: {0}")]
    InvalidCid(CidError),
}

/// Why bytes are not a block of DAG-PB, and where: the number of bytes before the number, tag or
/// CID that is wrong.
#[derive(Copy, Clone, Debug, PartialEq, Eq, Error)]
#[error("{cause} at byte {place}")]
pub struct PbError {
    pub cause: PbCause,
    pub place: usize,
}

/// Why a node is not encoded.
#[derive(Copy, Clone, Debug, PartialEq, Eq, Error)]
pub enum PbEncodeError {
    /// Memory could not be allocated. A node without links and data needs none.
    #[error("out of memory")]
    OutOfMemory,
    /// A link comes before one with a lesser name, by its bytes.
    #[error("the links are not sorted by their names")]
    UnsortedLinks,
}
