//! What is wrong with bytes that are not a CID.

use thiserror::Error;

/// Why bytes are not a CID: the first fault from the front.
#[derive(Copy, Clone, Debug, PartialEq, Eq, Error)]
pub enum CidError {
    /// The first byte is not 01, and the bytes are not a CID of version 0.
    #[error("the version of the CID is neither 0 nor 1")]
    InvalidVersion,
    /// The codec, the hash code or the digest's length is not a varint in shortest form below 2^64.
    #[error("a number of the CID is not in shortest form or too large")]
    InvalidVarint,
    /// The digest has more than 64 bytes.
    #[error("the digest of the CID has more than 64 bytes")]
    DigestTooLong,
    /// There are no bytes, or they end inside a field.
    #[error("the CID is cut short")]
    Truncated,
    /// Bytes come after the digest.
    #[error("bytes follow the CID")]
    TrailingBytes,
}
