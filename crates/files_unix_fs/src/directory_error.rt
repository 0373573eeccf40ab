//! Why a block is not a directory.

use crate::error::UnixFsError;
use crate::kind::Kind;
use dag_pb::PbError;
use thiserror::Error;

/// Why a block is not a directory that can be read.
#[derive(Copy, Clone, Debug, PartialEq, Eq, Error)]
pub enum DirectoryError {
    #[error("the block is no node: {0}")]
    NotANode(PbError),
    #[error("the node has no data")]
    NoData,
    #[error("the data of the node are no message: {0}")]
    NoMessage(UnixFsError),
    /// The node is the root of a directory in shards, or another part of one.
    #[error("the directory is in shards, which are not read")]
    InShards,
    /// The node is a file, or a symbolic link.
    #[error("the node is no directory")]
    NotADirectory(Kind),
}
