//! Why a text is not data.

use text_cid::CidTextError;
use thiserror::Error;

/// Why a text is not data in DAG-JSON.
#[derive(Copy, Clone, Debug, PartialEq, Eq, Error)]
pub enum DagJsonError {
    /// The bytes are not UTF-8.
    #[error("the bytes are no UTF-8")]
    NoText,
    /// The text is not JSON, or it has half of a surrogate pair.
    #[error("the text is not JSON")]
    NoJson,
    /// More text comes after the value.
    #[error("more stands after the value")]
    TrailingData,
    /// More than 127 lists and maps are around a part, or 128 around an empty list or map.
    #[error("lists and maps nest too deep")]
    TooDeep,
    /// A number has a fraction or an exponent.
    #[error("a number has a fraction or an exponent")]
    Float,
    /// An integer is below -2^64 or above 2^64 - 1.
    #[error("an integer is out of range")]
    OutOfRange,
    /// A map has the same key twice.
    #[error("a key is there twice")]
    RepeatedKey,
    /// A map has the key `/`, and is neither a link nor bytes.
    #[error("a map with the key / is neither a link nor bytes")]
    ReservedKey,
    /// The text of a link is not that of a CID.
    #[error("the text of a link is that of no CID")]
    NoCid(CidTextError),
    /// The text of bytes is not base64 without padding.
    #[error("the text of bytes is not base64 without padding")]
    NoBase64,
    /// Memory for the data ran out.
    #[error("out of memory")]
    OutOfMemory,
}

/// A text that is not data: the cause, and the offset of the byte where it was found.
#[derive(Copy, Clone, Debug, PartialEq, Eq)]
pub struct Refusal {
    pub cause: DagJsonError,
    pub offset: usize,
}
