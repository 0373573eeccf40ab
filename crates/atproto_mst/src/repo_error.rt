//! Why a repository is not read.

ghost use Rattle.std.specs.Prelude.{◌≡◌};

use crate::error::MstError;
use dagcbor_core::DecodeError;
use std::alloc::AllocError;
use std::convert::Infallible;
use thiserror::Error;

/// Why a repository is not read.
#[derive(Debug, Drop, Error)]
pub enum RepoError {
    /// Out of memory.
    #[error("out of memory")]
    OutOfMemory,
    /// No block is stored under the commit's CID.
    #[error("the commit is missing")]
    Missing,
    /// The bytes stored under the commit's CID do not match it.
    #[error("under the name of the commit other bytes are stored")]
    OtherBytes,
    /// The block is not a commit: it is not DAG-CBOR, or a field is missing, unknown or of another
    /// kind.
    #[error("the block is no commit: {0}")]
    NoCommit(DecodeError<Infallible>),
    /// The commit is of this version, not of version 3.
    #[error("the commit is of version {0}, and not of version 3")]
    OtherVersion(u8),
    /// The commit's tree is not read, for this reason.
    #[error("the tree of the commit is not read: {0}")]
    Tree(MstError),
}

impl From<AllocError> for RepoError {
    ghost use Rattle.atproto_mst.specs.declared.repo_error.RepoError.TheVariants.{OutOfMemory};

    ghost from_gives = { λ e result. result ≡ OutOfMemory };

    fn from(_error: AllocError) -> RepoError {
        RepoError::OutOfMemory
    }
}
