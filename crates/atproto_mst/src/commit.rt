//! A repository's commit.

ghost use Rattle.std.specs.Prelude.{IfOk, MatchResult};
ghost use Rattle.dagcbor_write.specs.Answers.{AreSpellingOf};
ghost use Rattle.atproto_mst.specs.Commits.{commit_tree, unsigned_tree};
ghost use Rattle.atproto_mst.specs.UnreadCommits.{UnreadCommit};

use crate::repo_error::RepoError;
use dagcbor_core::DecodeError;
use dagcbor_read::from_slice;
use dagcbor_write::to_vec;
use std::alloc::{AllocError, Global};
use types_repository::{Commit, UnsignedCommit};

/// Encodes the commit without its signature: the bytes that are signed.
pub fn spell_unsigned(alloc: Global, commit: &Commit) -> Result<Vec<u8>, AllocError>
    ensures { IfOk result (λ v. AreSpellingOf (unsigned_tree commit.now) v.items) }
{
    let unsigned = UnsignedCommit {
        did: commit.did.clone()?,
        version: commit.version,
        data: commit.data,
        rev: commit.rev.clone()?,
        prev: commit.prev,
    };
    // Every commit can be encoded, so the only refusal is out of memory.
    match to_vec(alloc, &unsigned) {
        Ok(block) => Ok(block),
        Err(_) => Err(AllocError),
    }
}

/// Decodes a block as a commit, of any version.
pub(crate) fn read_commit(alloc: Global, block: &[u8]) -> Result<Commit, RepoError>
    ensures { MatchResult result (λ commit. AreSpellingOf (commit_tree commit) block.now)
        (UnreadCommit block.now) }
{
    match from_slice::<Commit>(alloc, block) {
        Ok(commit) => Ok(commit),
        Err(error) => match error {
            DecodeError::OutOfMemory => Err(RepoError::OutOfMemory),
            _ => Err(RepoError::NoCommit(error)),
        },
    }
}
