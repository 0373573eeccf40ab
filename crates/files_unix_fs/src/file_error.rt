//! Why blocks are not a file.

use crate::error::UnixFsError;
use crate::kind::Kind;
use dag_pb::PbError;
use thiserror::Error;

/// Why a block is not a part of a file. If several causes hold, the first in this order is
/// returned; but memory may run out before `WrongLinks` is found, for a node with links only.
#[derive(Copy, Clone, Debug, PartialEq, Eq, Error)]
pub enum FileError {
    /// The file was read to its end.
    #[error("no block is wanted")]
    NothingWanted,
    /// The links lead deeper than is allowed.
    #[error("the links of the file lead too deep")]
    TooDeep,
    /// The codec is neither `raw` nor `dag-pb`.
    #[error("no file has blocks of the codec {0:#x}")]
    OtherCodec(u64),
    #[error("the block is no node: {0}")]
    NotANode(PbError),
    #[error("the node has no data")]
    NoData,
    #[error("the data of the node are no message: {0}")]
    NoMessage(UnixFsError),
    /// The node is not a file. It may be a directory, for example.
    #[error("the node is no file")]
    NotAFile(Kind),
    /// A block size is 0. Such a link would add no bytes, however many blocks are below it.
    #[error("the node announces no bytes for a link")]
    EmptyPart,
    /// The announced size of a node or block is not its real size, or not the sum of the sizes
    /// below it.
    #[error("a size is not the one that was announced")]
    WrongSize,
    /// The node has more links than block sizes, or fewer.
    #[error("the node announces no size for a link, or one too many")]
    WrongLinks,
    #[error("out of memory")]
    OutOfMemory,
}
