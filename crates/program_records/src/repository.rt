//! The repository in a CAR file.

ghost use Rattle.std.specs.Prelude.{◌≡◌, ◌∷◌, [], List, IfOk, IfSome, MatchResult};
ghost use Rattle.ipld_tree.specs.Cid.{CidParts};
ghost use Rattle.ipld_links.specs.Reaching.{stored_in};
ghost use Rattle.atproto_mst.specs.Repos.{IsRepo};
ghost use Rattle.program_records.specs.Words.{no_root_line};
ghost use Rattle.program_records.specs.Repositories.{IsUnread, IsUnreadOf, IsRepoFile, IsNoRepoFile};

use crate::words::{no_root_line, repo_line};
use atproto_mst::{Repo, read_repo};
use ipld_tree::Cid;
use program_parts::{Kept, held_of};
use program_shared::ToolError;
use std::alloc::{AllocError, Global};
use std::collections::BTreeMap;
use std::io::BufRead;

/// A repository, or the line that says why there is none.
pub type RepoFound = Result<Repo, Vec<u8>>;

/// Returns the first root, or the line that says that there is none.
pub fn first_root(alloc: Global, roots: &[Cid]) -> Result<Result<Cid, Vec<u8>>, AllocError>
    ensures { IfOk result (λ r. MatchResult r
        (λ root. (others : List CidParts) × (roots.now ≡ root ∷ others))
        (λ line. (roots.now ≡ []) × (line.items ≡ no_root_line))) }
{
    match roots.first() {
        Some(root) => Ok(Ok(*root)),
        None => {
            let line = no_root_line(alloc)?;
            Ok(Err(line))
        }
    }
}

/// Reads the repository whose commit has this CID.
fn repo_at(
    alloc: Global,
    blocks: &BTreeMap<Cid, Vec<u8>>,
    root: &Cid,
) -> Result<RepoFound, AllocError>
    ensures { IfOk result (λ r. MatchResult r
        (λ repo. IsRepo (stored_in blocks.now) root.now repo.commit repo.records.items)
        (λ line. IsUnread (stored_in blocks.now) root.now line.items)) }
{
    match read_repo(alloc, blocks, root) {
        Ok(repo) => Ok(Ok(repo)),
        Err(error) => {
            let line = repo_line(alloc, root, &error)?;
            Ok(Err(line))
        }
    }
}

/// Reads the repository whose commit is the first root.
pub(crate) fn repo_of(
    alloc: Global,
    roots: &[Cid],
    blocks: &BTreeMap<Cid, Vec<u8>>,
) -> Result<RepoFound, AllocError>
    ensures { IfOk result (λ r. MatchResult r
        (λ repo. (root : CidParts) × (others : List CidParts) × (roots.now ≡ root ∷ others)
        × IsRepo (stored_in blocks.now) root repo.commit repo.records.items)
        (λ line. IsUnreadOf (stored_in blocks.now) roots.now line.items)) }
{
    match first_root(alloc, roots)? {
        Ok(root) => repo_at(alloc, blocks, &root),
        Err(line) => Ok(Err(line)),
    }
}

/// Reads the whole repository in the input, a CAR file, or returns the line that says why there is
/// none. The records themselves need not be in the file. All its blocks are in memory during the
/// call.
pub fn read_file<R: BufRead>(alloc: Global, input: &mut R) -> Result<RepoFound, ToolError>
    ensures { IfSome (R.remaining input.old) (λ b. IfOk result (λ r. MatchResult r
        (λ repo. IsRepoFile b repo.commit repo.records.items)
        (λ line. IsNoRepoFile b line.items))) }
{
    match held_of(alloc, Kept::All, input) {
        Ok(Ok(held)) => {
            let found = repo_of(alloc, &held.roots, &held.blocks)?;
            Ok(found)
        }
        Ok(Err(line)) => Ok(Err(line)),
        Err(fault) => Err(fault),
    }
}
