//! Answers, put into the caller's memory.

ghost use Rattle.std.specs.Prelude.{pos, MatchResult};
ghost use Rattle.abi_calls.specs.CidTexts.{IsPutText};
ghost use Rattle.abi_memory_calls.specs.Answers.{WantsMemory, IsRepositoryAnswer, IsCommitAnswer};
ghost use Rattle.abi_memory_calls.specs.Answers.{IsProofAnswer};

use crate::answer::{Made, commit_answer, proof_answer, repo_answer};
use abi_calls::put_front;
use std::alloc::{AllocError, Global};

/// The number returned if the call ran out of memory.
pub(crate) const NO_MEMORY: i32 = -42;

/// Puts the made bytes and returns 0, or puts the line and returns 1.
fn put_answer(answer: &Result<Made, AllocError>, out: &mut [u8], needed: &mut usize) -> i32
    ensures { MatchResult answer.now (λ it. MatchResult it
        (λ made. IsPutText (pos 0) made.items out.old out.new needed.new result)
        (λ line. IsPutText (pos 1) line.items out.old out.new needed.new result))
        (λ _. WantsMemory out.old out.new needed.new result) }
{
    match answer {
        Ok(Ok(made)) => put_front(0, made, out, needed),
        Ok(Err(line)) => put_front(1, line, out, needed),
        Err(_) => {
            *needed = 0;
            NO_MEMORY
        }
    }
}

/// Puts the block that describes the repository, or the line that says why the file is not one.
#[tactic(auto, using(crate::proofs::Putting::put_so))]
pub fn put_repo(alloc: Global, file: &[u8], out: &mut [u8], needed: &mut usize) -> i32
    ensures { IsRepositoryAnswer file.now out.old out.new needed.new result }
{
    put_answer(&repo_answer(alloc, file), out, needed)
}

/// Puts the block that describes the commit that the file's first root names, or the line that says
/// why there is none.
#[tactic(auto, using(crate::proofs::Putting::put_so))]
pub fn put_commit(alloc: Global, file: &[u8], out: &mut [u8], needed: &mut usize) -> i32
    ensures { IsCommitAnswer file.now out.old out.new needed.new result }
{
    put_answer(&commit_answer(alloc, file), out, needed)
}

/// Puts the CAR file that proves which record the key has, or that it has none, or the line that
/// says why there is none.
#[tactic(auto, using(crate::proofs::Putting::put_so))]
pub fn put_proof(alloc: Global, file: &[u8], key: &[u8], out: &mut [u8], needed: &mut usize) -> i32
    ensures { IsProofAnswer file.now key.now out.old out.new needed.new result }
{
    put_answer(&proof_answer(alloc, file, key), out, needed)
}
