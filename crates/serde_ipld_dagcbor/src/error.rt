//! Why a value was not read or not written.

pub use dagcbor_core::{ArithmeticOverflow, DecodeError, EncodeError, Len, Message, Name};
use std::convert::Infallible;
use std::io;
use thiserror::Error;

/// Why a call of the codec was refused.
#[derive(Debug, Drop, Error)]
pub enum CodecError {
    /// From `links`.
    #[error("decode error: {0}")]
    Decode(#[from] DecodeError<Infallible>),
    /// From `encode_to_vec`.
    #[error("encode error: {0}")]
    Encode(#[from] EncodeError<Infallible>),
    /// From `decode` and `decode_from_slice`.
    #[error("decode io error: {0}")]
    DecodeIo(#[from] DecodeError<io::Error>),
    /// From `encode`.
    #[error("encode io error: {0}")]
    EncodeIo(#[from] EncodeError<io::Error>),
}
