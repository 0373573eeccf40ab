//! Why a tree is not built, read or searched.

ghost use Rattle.std.specs.Prelude.{◌≡◌};

use ipld_tree::Cid;
use std::alloc::AllocError;
use thiserror::Error;

/// Why a tree is not built, read or searched. A CID is that of the node concerned.
#[derive(Debug, Clone, Copy, Drop, PartialEq, Eq, Error)]
pub enum MstError {
    /// Out of memory.
    #[error("out of memory")]
    OutOfMemory,
    /// A key is empty, or has more than 1024 bytes.
    #[error("a key has no byte, or more than 1024")]
    KeyLength,
    /// A key does not come after the one before it in the order of bytes.
    #[error("the keys do not rise")]
    KeyOrder,
    /// An entry claims to share more bytes with the key before it than that key has.
    #[error("an entry shares more bytes with the key before it than that has")]
    KeyFront,
    /// No block is stored under this CID.
    #[error("a node is missing")]
    MissingNode(Cid),
    /// The bytes stored under this CID do not match it.
    #[error("under the name of a node other bytes are stored")]
    OtherBytes(Cid),
    /// The block under this CID is not a node: a field is missing, unknown or of another kind.
    #[error("a block is no node")]
    NoNode(Cid),
    /// The node is below 129 others, more than there are layers.
    #[error("nodes stand below each other more deeply than there are layers")]
    TooDeep(Cid),
    /// The nodes are not those of the tree that their entries make.
    #[error("the nodes are not those of the tree of their entries")]
    OtherTree,
}

impl From<AllocError> for MstError {
    ghost use Rattle.atproto_mst.specs.declared.error.MstError.TheVariants.{OutOfMemory};

    ghost from_gives = { λ e result. result ≡ OutOfMemory };

    fn from(_error: AllocError) -> MstError {
        MstError::OutOfMemory
    }
}
