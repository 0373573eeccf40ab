//! Lines that say why a repository is not read.

ghost use Rattle.std.specs.Prelude.{◌≡◌, ◌++◌, ◌&&◌, codes, decimal, string_bytes, IfOk, OnOk};
ghost use Rattle.program_parts.specs.Codecs.{codec_text};
ghost use Rattle.program_records.specs.Words.{IsOfTree, IsOfRepo, name_fault_line, tree_line, repo_line};
ghost use Rattle.program_records.specs.Words.{cause_text, no_root_line, other_codec_line};
ghost use Rattle.program_records.specs.Records.{IsToldAlone};

use atproto_mst::{MstError, RepoError};
use dagcbor_core::DecodeError;
use dagcbor_decode::variant_name;
use ipld_tree::Cid;
use program_parts::{Answer, codec_name, line_of, missing_line};
use std::alloc::{AllocError, Global};
use std::convert::Infallible;
use text_cid::cid_text;

/// Returns this line as the error message, without output.
pub fn told_alone(alloc: Global, line: Vec<u8>) -> Answer
    ensures { IsToldAlone line.items result.0.1 result.0.0.items result.1.items }
{
    ((Vec::new(alloc), false), line)
}

/// Appends an answer to others.
pub fn append_answer(all: &mut Answer, next: &Answer) -> Result<(), AllocError>
    ensures { OnOk result ((all.new.0.1 ≡ (all.old.0.1 && next.now.0.1))
        × (all.new.0.0.items ≡ all.old.0.0.items ++ next.now.0.0.items)
        × (all.new.1.items ≡ all.old.1.items ++ next.now.1.items)) }
{
    let ((lines, well), told) = all;
    let ((next_lines, next_well), next_told) = next;
    lines.extend_from_slice(next_lines)?;
    told.extend_from_slice(next_told)?;
    *well = *well && *next_well;
    Ok(())
}

/// Returns the line of a CID, and what is wrong with it.
pub fn name_fault_line(alloc: Global, name: &Cid, words: &[u8]) -> Result<Vec<u8>, AllocError>
    ensures { IfOk result (λ v. v.items ≡ name_fault_line name.now words.now) }
{
    line_of(alloc, &cid_text(name), words, b"")
}

/// Returns the line that says why a tree is not read. Out of memory has no line.
pub fn tree_line(alloc: Global, error: &MstError) -> Result<Vec<u8>, AllocError>
    ensures { IfOk result (λ v. IsOfTree error.now × (v.items ≡ tree_line error.now)) }
{
    match error {
        MstError::OutOfMemory => Err(AllocError),
        MstError::KeyLength => line_of(alloc, b"a key has no byte, or more than 1024", b"", b""),
        MstError::KeyOrder => line_of(alloc, b"the keys do not rise", b"", b""),
        MstError::KeyFront => {
            let words = b"an entry shares more bytes with the key before it than that has";
            line_of(alloc, words, b"", b"")
        }
        MstError::MissingNode(name) => missing_line(alloc, name),
        MstError::OtherBytes(name) => name_fault_line(alloc, name, b" other bytes"),
        MstError::NoNode(name) => name_fault_line(alloc, name, b" is no node"),
        MstError::TooDeep(name) => name_fault_line(alloc, name, b" stands below 129 nodes"),
        MstError::OtherTree => {
            let words = b"the nodes are not those of the tree of their entries";
            line_of(alloc, words, b"", b"")
        }
    }
}

/// Returns the line of a commit's CID and its version.
fn version_line(alloc: Global, name: &Cid, version: u8) -> Result<Vec<u8>, AllocError>
    ensures { IfOk result
        (λ v. v.items
        ≡ name_fault_line name.now (codes " is a commit of version " ++ decimal version)) }
{
    let words = format!(in alloc; " is a commit of version {version}")?;
    name_fault_line(alloc, name, words.as_bytes())
}

/// Returns why a block is not a commit: the message, or otherwise the name of the error.
pub fn cause_text(cause: &DecodeError<Infallible>) -> &str
    ensures { result.now ≡ cause_text cause.now }
{
    match cause {
        DecodeError::Msg(message) => message.as_str(),
        _ => variant_name(cause),
    }
}

/// Returns the line that says why the repository of this commit is not read. Out of memory has no
/// line.
pub fn repo_line(alloc: Global, name: &Cid, error: &RepoError) -> Result<Vec<u8>, AllocError>
    ensures { IfOk result (λ v. IsOfRepo error.now × (v.items ≡ repo_line name.now error.now)) }
{
    match error {
        RepoError::OutOfMemory => Err(AllocError),
        RepoError::Missing => missing_line(alloc, name),
        RepoError::OtherBytes => name_fault_line(alloc, name, b" other bytes"),
        RepoError::NoCommit(cause) => {
            let cause = cause_text(cause);
            line_of(alloc, &cid_text(name), b" is no commit: ", cause.as_bytes())
        }
        RepoError::OtherVersion(version) => version_line(alloc, name, *version),
        RepoError::Tree(error) => tree_line(alloc, error),
    }
}

/// Returns the line for a file without a root, which has no commit.
pub fn no_root_line(alloc: Global) -> Result<Vec<u8>, AllocError>
    ensures { IfOk result (λ v. v.items ≡ no_root_line) }
{
    let words = b"the file has no commit: it has no root";
    line_of(alloc, words, b"", b"")
}

/// Returns a codec in words.
fn codec_text(alloc: Global, codec: u64) -> Result<String, AllocError>
    ensures { IfOk result (λ text. string_bytes text ≡ codec_text codec) }
{
    match codec_name(codec) {
        Some(name) => format!(in alloc; "{name}"),
        None => format!(in alloc; "codec 0x{:x}", codec),
    }
}

/// Returns the line for a record whose CID has another codec than DAG-CBOR.
pub fn other_codec_line(alloc: Global, name: &Cid) -> Result<Vec<u8>, AllocError>
    ensures { IfOk result (λ v. v.items ≡ other_codec_line name.now) }
{
    let codec = codec_text(alloc, name.codec())?;
    let words = format!(in alloc; " is {codec}, not dag-cbor")?;
    name_fault_line(alloc, name, words.as_bytes())
}
