//! The calls that allocate memory, for callers in other languages, by the C ABI: DAG-JSON,
//! repositories of signed records (AT Protocol), and the frames of their changes.
//!
//! A slice crosses as a pointer and a length, and nothing is passed for a `Global`. Unlike
//! `dagcbor_ffi` this library allocates, by functions of the program that links it.
//! `include/dagcbor_memory.h` has the C declarations, and what a caller must ensure.
#![tactic(auto)]

ghost use Rattle.abi_memory_calls.specs.Answers.{IsRepositoryAnswer, IsCommitAnswer, IsProofAnswer};
ghost use Rattle.abi_memory_calls.specs.JsonAnswers.{IsToJsonAnswer, IsFromJsonAnswer};
ghost use Rattle.abi_memory_calls.specs.Frames.{IsFrameAnswer};
ghost use Rattle.abi_memory_calls.specs.Events.{IsEventAnswer};

use abi_memory_calls::{
    place_frame, put_block, put_commit, put_event, put_json, put_proof, put_repo,
};
use std::alloc::Global;

/// Puts the data of the block, in DAG-JSON, at the front of `out`, if it fits, and returns the
/// number of the block's kind, at least 0, or -21 if there is no room. `needed` becomes its length.
/// Else it returns the number of the refusal, below 0, or -50 if a map has the key `/`, or -42 if
/// memory runs out. Then `needed` becomes 0, and `out` stays.
#[unsafe(no_mangle)]
pub extern "C" fn dagcbor_to_json(
    alloc: Global,
    block: &[u8],
    out: &mut [u8],
    needed: &mut usize,
) -> i32
    ensures { IsToJsonAnswer block.now out.old out.new needed.new result }
{
    put_json(alloc, block, out, needed)
}

/// Puts the block of the data that the text spells, in DAG-JSON, at the front of `out`, if it fits,
/// and returns the number of its kind, at least 0, or -21 if there is no room. `needed` becomes its
/// length, and `place` that of the text. Else it returns the number of the fault in the text, below
/// 0, and `place` becomes where it is; or -42 if memory runs out, and `place` becomes 0. Then
/// `needed` becomes 0, and `out` stays.
#[unsafe(no_mangle)]
pub extern "C" fn dagcbor_from_json(
    alloc: Global,
    text: &[u8],
    out: &mut [u8],
    needed: &mut usize,
    place: &mut usize,
) -> i32
    ensures { IsFromJsonAnswer text.now out.old out.new needed.new place.new result }
{
    put_block(alloc, text, out, needed, place)
}

/// Makes a block that describes the repository in a CAR file with one root, which names its commit,
/// if that and its tree are whole, and returns 0; else it makes a line that says why not, and
/// returns 1. `needed` becomes its length; if it fits, it is put at the front of `out`; else `out`
/// stays, and it returns -21. If memory runs out, it returns -42, `needed` becomes 0, and `out`
/// stays. `abi_memory_calls::repo_answer` says what is in the block.
#[unsafe(no_mangle)]
pub extern "C" fn dagcbor_repository(
    alloc: Global,
    file: &[u8],
    out: &mut [u8],
    needed: &mut usize,
) -> i32
    ensures { IsRepositoryAnswer file.now out.old out.new needed.new result }
{
    put_repo(alloc, file, out, needed)
}

/// Makes a block that describes the commit that the first root of a CAR file names, and returns 0;
/// else it makes a line that says why there is none, and returns 1. Of the file's blocks only the
/// commit's is needed. `needed`, `out` and the other numbers are as for `dagcbor_repository`.
/// `abi_memory_calls::commit_answer` says what is in the block.
#[unsafe(no_mangle)]
pub extern "C" fn dagcbor_commit(
    alloc: Global,
    file: &[u8],
    out: &mut [u8],
    needed: &mut usize,
) -> i32
    ensures { IsCommitAnswer file.now out.old out.new needed.new result }
{
    put_commit(alloc, file, out, needed)
}

/// Makes the CAR file that proves which record the key has, or that it has none, in the tree of the
/// commit that the first root of a CAR file names, and returns 0; else it makes a line that says
/// why there is none, and returns 1. Of the file's blocks only the commit, the nodes on the way to
/// the key and the record are needed. `needed`, `out` and the other numbers are as for
/// `dagcbor_repository`.
#[unsafe(no_mangle)]
pub extern "C" fn dagcbor_record_proof(
    alloc: Global,
    file: &[u8],
    key: &[u8],
    out: &mut [u8],
    needed: &mut usize,
) -> i32
    ensures { IsProofAnswer file.now key.now out.old out.new needed.new result }
{
    put_proof(alloc, file, key, out, needed)
}

/// Returns the number of the kind of the frame at the front of the bytes, at least 0, or of why
/// there is none, below 0. A frame of a host's stream (com.atproto.sync.subscribeRepos) is two
/// blocks, a header and a body. If there are two items, `body` becomes where the second begins, and
/// `end` where it ends, even if they are not a frame; else both become 0.
#[unsafe(no_mangle)]
pub extern "C" fn dagcbor_event_frame(
    alloc: Global,
    bytes: &[u8],
    body: &mut usize,
    end: &mut usize,
) -> i32
    ensures { IsFrameAnswer bytes.now body.new end.new result }
{
    place_frame(alloc, bytes, body, end)
}

/// Verifies the commit in the frame at the front of the bytes, from the frame alone, and against
/// the known root and revision, or against nothing if `root` is empty. Puts a block that describes
/// what is verified at the front of `out`, if it fits, and returns 0; or puts the CID of the node
/// that is the cause, if one is, and returns the number of why the commit is not verified, below 0.
/// `needed` becomes the length of these bytes. It returns -21 if there is no room; then `out`
/// stays. After any other number `needed` is 0, and `out` stays.
#[unsafe(no_mangle)]
pub extern "C" fn dagcbor_verify_event(
    alloc: Global,
    bytes: &[u8],
    root: &[u8],
    rev: &[u8],
    out: &mut [u8],
    needed: &mut usize,
) -> i32
    ensures { IsEventAnswer bytes.now root.now rev.now out.old out.new needed.new result }
{
    put_event(alloc, bytes, root, rev, out, needed)
}
