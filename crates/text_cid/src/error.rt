//! Why a text is not that of a CID.

use ipld_tree::CidError;
use thiserror::Error;

/// Why a text does not spell a CID.
#[derive(Copy, Clone, Debug, PartialEq, Eq, Error)]
pub enum CidTextError {
    /// The first character is not `b`, `B`, `f`, `z` or `Q`, or the text is empty.
    #[error("the first character names no base that is read here")]
    UnknownBase,
    /// More than 172 characters come after the prefix. No CID has this many.
    #[error("the text is longer than that of any CID")]
    TooLong,
    /// A character is not in the base's alphabet.
    #[error("a character is not in the alphabet of the base")]
    InvalidCharacter,
    /// No bytes are spelled with this number of characters.
    #[error("the last character begins a byte and does not end it")]
    InvalidLength,
    /// The bits after the last byte are not all zero.
    #[error("bits that are not zero stand after the last byte")]
    TrailingBits,
    /// A text in base58btc begins with `1`, which means a zero byte. No CID begins with a zero
    /// byte.
    #[error("the text begins with a zero byte, as no CID does")]
    LeadingZero,
    /// The bytes are not a CID.
    #[error("the bytes are no CID")]
    InvalidCid(CidError),
    /// The bytes are a CID of version 0 after a prefix, or one of version 1 without a prefix.
    #[error("version 0 has no prefix, and version 1 has one")]
    InvalidVersion,
}
