//! Why bytes are not a CAR file, and why a file is not written.

use dagcbor_core::DecodeError;
use ipld_tree::CidError;
use std::convert::Infallible;
use thiserror::Error;

/// Why bytes are not a CAR file, at the first place where that shows; or why they were not read.
/// `E` is the reader's error.
#[derive(Debug, Drop, Error)]
pub enum CarError<E> {
    /// The reader returned this error.
    #[error("the input failed")]
    Read(E),
    /// The bytes end inside a length, or before the bytes that it counts end.
    #[error("the file is cut short")]
    Truncated,
    /// A length is not a varint in shortest form below 2^64.
    #[error("a length is not in shortest form or too large")]
    InvalidLength,
    /// A section does not begin with a CID.
    #[error("no name stands before a block: {0}")]
    InvalidCid(CidError),
    /// The header is not a block of DAG-CBOR that is read within 256 steps.
    #[error("the header is no block: {0}")]
    NoBlock(DecodeError<Infallible>),
    /// The header is a block, but not the map of the roots and the version 1.
    #[error("the header is not that of version 1")]
    OtherHeader,
    /// The file of version 1 begins inside the header of version 2, or its end is not below 2^64.
    #[error("the file of version 1 stands at no place of version 2")]
    InvalidOffset,
    /// Memory could not be allocated.
    #[error("out of memory")]
    OutOfMemory,
}

/// Why a header or a section was not written. `E` is the writer's error.
#[derive(Debug, Drop, Error)]
pub enum CarWriteError<E> {
    /// The writer returned this error.
    #[error("the output failed")]
    Write(E),
    /// Memory could not be allocated.
    #[error("out of memory")]
    OutOfMemory,
    /// An earlier call was refused, so the file may end inside a section. Nothing was sent.
    #[error("an earlier section was not written")]
    Failed,
}
