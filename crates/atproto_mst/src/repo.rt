//! Reading a stored repository.

ghost use Rattle.std.specs.Prelude.{◌≡◌, List, IfOk, IfErr};
ghost use Rattle.ipld_links.specs.Reaching.{stored_in};
ghost use Rattle.atproto_mst.specs.Repos.{IsRepo, RepoRefused, IsStoredCommit, CommitRefused};
ghost use Rattle.types_repository.specs.declared.repository.Commit.{Commit};
ghost use Rattle.atproto_mst.specs.declared.entries.MstEntry.{MstEntry};
ghost use Rattle.atproto_mst.specs.declared.repo_error.RepoError.TheVariants.{OutOfMemory};

use crate::commit::read_commit;
use crate::entries::MstEntry;
use crate::error::MstError;
use crate::read::read_mst;
use crate::repo_error::RepoError;
use ipld_links::{name_of_block, stored_bytes};
use ipld_tree::Cid;
use std::alloc::Global;
use std::collections::BTreeMap;
use types_repository::Commit;

/// The only version of commits that is read.
const VERSION: u8 = 3;

/// A commit, and the records of its tree.
#[derive(Debug, Drop)]
pub struct Repo {
    pub commit: Commit,
    pub records: Vec<MstEntry>,
}

/// Reads the repository whose commit is stored under this CID. The signature is not checked:
/// `spell_unsigned` returns the bytes that it signs.
pub fn read_repo(
    alloc: Global,
    blocks: &BTreeMap<Cid, Vec<u8>>,
    root: &Cid,
) -> Result<Repo, RepoError>
    ensures read { IfOk result
        (λ r. IsRepo (stored_in blocks.now) root.now r.commit r.records.items) }
    ensures refused { IfErr result (RepoRefused (stored_in blocks.now) root.now) }
    ensures whole { (c : Commit) (records : List MstEntry)
        → IsRepo (stored_in blocks.now) root.now c records → IfErr result (λ e. e ≡ OutOfMemory) }
{
    let commit = stored_commit(alloc, blocks, root)?;
    // Calling `version` gives the proof that this is a CID.
    let _version = commit.data.version();
    match read_mst(alloc, blocks, &commit.data) {
        Ok(records) => Ok(Repo { commit, records }),
        Err(error) => match error {
            MstError::OutOfMemory => Err(RepoError::OutOfMemory),
            _ => Err(RepoError::Tree(error)),
        },
    }
}

/// Reads the commit that is stored under this CID, and checks that its bytes match the CID and that
/// its version is 3.
pub fn stored_commit(
    alloc: Global,
    blocks: &BTreeMap<Cid, Vec<u8>>,
    name: &Cid,
) -> Result<Commit, RepoError>
    ensures read { IfOk result (IsStoredCommit (stored_in blocks.now) name.now) }
    ensures refused { IfErr result (CommitRefused (stored_in blocks.now) name.now) }
    ensures whole { (c : Commit) → IsStoredCommit (stored_in blocks.now) name.now c
        → IfErr result (λ e. e ≡ OutOfMemory) }
{
    let Some(block) = stored_bytes(blocks, name) else {
        return Err(RepoError::Missing);
    };
    if name_of_block(block) != *name {
        return Err(RepoError::OtherBytes);
    }
    let commit = read_commit(alloc, block)?;
    if commit.version != VERSION {
        return Err(RepoError::OtherVersion(commit.version));
    }
    Ok(commit)
}
