//! Why changes are not undone.

ghost use Rattle.std.specs.Prelude.{◌≡◌};

use ipld_tree::Cid;
use std::alloc::AllocError;
use thiserror::Error;

/// Why changes are not undone. A CID is that of the node concerned.
#[derive(Debug, Clone, Copy, Drop, PartialEq, Eq, Error)]
pub enum UndoError {
    /// Out of memory.
    #[error("out of memory")]
    OutOfMemory,
    /// No block is stored under this CID, and the changes cannot be undone without it.
    #[error("a node is missing")]
    MissingNode(Cid),
    /// The bytes stored under this CID do not match it.
    #[error("under the name of a node other bytes are stored")]
    OtherBytes(Cid),
    /// The block under this CID is not a node.
    #[error("a block is no node")]
    NoNode(Cid),
    /// The nodes are not those of a tree: keys do not rise, or are in other layers.
    #[error("the nodes are not those of a tree")]
    OtherTree,
    /// The key of a change is empty, or has more than 1024 bytes.
    #[error("a key has no byte, or more than 1024")]
    KeyLength,
    /// The tree does not have the record that a change leads to.
    #[error("the tree has not what a change leads to")]
    OtherState,
}

impl From<AllocError> for UndoError {
    ghost use Rattle.atproto_events.specs.declared.error.UndoError.TheVariants.{OutOfMemory};

    ghost from_gives = { λ e result. result ≡ OutOfMemory };

    fn from(_error: AllocError) -> UndoError {
        UndoError::OutOfMemory
    }
}
