//! What the calls return for a CAR file: as a repository, for its commit, and for a record.

ghost use Rattle.std.specs.Prelude.{◌≡◌, true, false, IfOk, MatchResult};
ghost use Rattle.program_records.specs.Repositories.{IsNoRepoFile};
ghost use Rattle.program_records.specs.Commits.{IsNoCommitFile};
ghost use Rattle.abi_memory_calls.specs.Answers.{IsMadeOrTold, IsRepoBlock, IsCommitBlock, IsProofFile};
ghost use Rattle.abi_memory_calls.specs.Answers.{IsNoProofFile};

use crate::told::{commit_block, repo_block};
use program_parts::Answer;
use program_records::{read_commit, read_file, record_proof};
use std::alloc::{AllocError, Global};

/// The bytes that were made, or the line that says why none were.
pub type Made = Result<Vec<u8>, Vec<u8>>;

/// Makes a block that describes a whole repository: a map of the texts `did` and `rev`, the bytes
/// `sig` and `signed` (`sig` is the signature of `signed`), the link `data` to the tree, `prev`, a
/// link or null, and `records`, a list of pairs: a key, as bytes, and the link to its record, in
/// the order of keys. If the file is not a repository, the line says why. The records need not be
/// in the file.
pub fn repo_answer(alloc: Global, file: &[u8]) -> Result<Made, AllocError>
    ensures { IfOk result (IsMadeOrTold (IsRepoBlock file.now) (IsNoRepoFile file.now)) }
{
    let mut input = file;
    // A file in memory has no device errors, so only memory can run out.
    match read_file(alloc, &mut input) {
        Ok(Ok(repo)) => {
            let block = repo_block(alloc, &repo)?;
            Ok(Ok(block))
        }
        Ok(Err(line)) => Ok(Err(line)),
        Err(_) => Err(AllocError),
    }
}

/// Makes a block that describes the commit that the file's first root names: a map of `cid`, the
/// link to it, and of all entries of `repo_answer` but `records`. If there is no commit, the line
/// says why. Of the file's blocks only the commit's is needed.
pub fn commit_answer(alloc: Global, file: &[u8]) -> Result<Made, AllocError>
    ensures { IfOk result (IsMadeOrTold (IsCommitBlock file.now) (IsNoCommitFile file.now)) }
{
    let mut input = file;
    match read_commit(alloc, &mut input) {
        Ok(Ok((name, commit))) => {
            let block = commit_block(alloc, name, &commit)?;
            Ok(Ok(block))
        }
        Ok(Err(told)) => Ok(Err(told)),
        Err(_) => Err(AllocError),
    }
}

/// Returns standard output's bytes if all is well, else standard error's.
fn made_of(answer: Answer) -> Made
    ensures { MatchResult result (λ v. (answer.0.1 ≡ true) × (v.items ≡ answer.0.0.items))
        (λ line. (answer.0.1 ≡ false) × (line.items ≡ answer.1.items)) }
{
    let ((said, well), told) = answer;
    if well { Ok(said) } else { Err(told) }
}

/// Makes the CAR file that proves which record the key has, or that it has none, with
/// `program_records::record_proof`. If there is none, the line says why.
pub fn proof_answer(alloc: Global, file: &[u8], key: &[u8]) -> Result<Made, AllocError>
    ensures { IfOk result (IsMadeOrTold (IsProofFile file.now key.now) (IsNoProofFile file.now key.now)) }
{
    let mut input = file;
    match record_proof(alloc, key, &mut input) {
        Ok(answer) => Ok(made_of(answer)),
        Err(_) => Err(AllocError),
    }
}
