//! Why a node is not written.

use dagcbor_core::DecodeError;
use std::convert::Infallible;
use thiserror::Error;

/// Why a data model is not written as a node.
#[derive(Debug, Drop, Error)]
pub enum NodeError {
    /// The bytes are not a block of DAG-CBOR.
    #[error("no DAG-CBOR: {0}")]
    NoBlock(DecodeError<Infallible>),
    /// The bytes are a block, but not the data model of a node.
    #[error("the data is not that of a DAG-PB node")]
    NotANode,
    /// A link comes before one with a lesser name, by its bytes.
    #[error("the links are not sorted by their names")]
    UnsortedLinks,
}
