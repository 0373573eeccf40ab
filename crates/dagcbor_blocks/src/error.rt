//! Why a block was not stored or not read.

ghost use Rattle.dagcbor_blocks.specs.Errors.{TellsOfDecoding, TellsOfEncoding};

use serde_ipld_dagcbor::{DecodeError, EncodeError};
use std::convert::Infallible;
use thiserror::Error;

/// Why a block was not stored or not read.
#[derive(Debug, Drop, Error)]
pub enum BlockError {
    /// The value cannot be encoded.
    #[error("encode error: {0}")]
    Encode(EncodeError<Infallible>),
    /// In `get`: the block is not read as the type within 256 steps. In `put`: the links of the
    /// spelling are not read within 256 steps.
    #[error("decode error: {0}")]
    Decode(DecodeError<Infallible>),
    #[error("other bytes are held under the name")]
    Collision,
    /// Memory could not be allocated.
    #[error("out of memory")]
    OutOfMemory,
    /// In `get`: the codec of the block is not DAG-CBOR.
    #[error("the block is of another codec than DAG-CBOR")]
    OtherCodec,
}

impl BlockError {
    /// Converts the error. Out of memory becomes `OutOfMemory`.
    pub(crate) fn of_decoding(error: DecodeError<Infallible>) -> BlockError
        ensures { TellsOfDecoding error result }
    {
        match error {
            DecodeError::OutOfMemory => BlockError::OutOfMemory,
            _ => BlockError::Decode(error),
        }
    }

    /// Converts the error. Out of memory becomes `OutOfMemory`.
    pub(crate) fn of_encoding(error: EncodeError<Infallible>) -> BlockError
        ensures { TellsOfEncoding error result }
    {
        match error {
            EncodeError::OutOfMemory => BlockError::OutOfMemory,
            _ => BlockError::Encode(error),
        }
    }
}
