//! Why a frame is not read.

use dagcbor_core::DecodeError;
use std::convert::Infallible;
use thiserror::Error;

/// Why a frame is not read.
#[derive(Debug, Drop, Error)]
pub enum FrameError {
    /// Out of memory.
    #[error("out of memory")]
    OutOfMemory,
    /// The bytes do not begin with two items, so the end of the frame is unknown.
    #[error("the bytes are not two items")]
    NoEnd,
    /// The first item is not a header.
    #[error("the header is not read: {0}")]
    NoHeader(DecodeError<Infallible>),
    /// The header's `op` is neither 1 nor -1.
    #[error("the operation of the header is {0}, and neither 1 nor -1")]
    OtherOperation(i64),
    /// The header's `op` is 1, but it names no kind.
    #[error("the header tells no kind")]
    NoKind,
    /// The second item is not a body of this kind.
    #[error("the body is not read: {0}")]
    NoBody(DecodeError<Infallible>),
}
