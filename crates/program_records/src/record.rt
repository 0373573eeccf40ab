//! `record`: the data of one record of a repository.

ghost use Rattle.std.specs.Prelude.{List, ℕ, IfOk, IfSome};
ghost use Rattle.ipld_links.specs.Reaching.{stored_in};
ghost use Rattle.program_parts.specs.Lines.{verdict_line, SaysBoth};
ghost use Rattle.program_records.specs.Records.{IsToldAlone, AreVerifiedSaid, AreBytesSaid, IsBlockSaid};
ghost use Rattle.program_records.specs.Records.{IsSaidOfKey, IsRecordAt, IsRecordOf, IsRecord};

use crate::key::named_key;
use crate::repository::first_root;
use crate::words::{other_codec_line, repo_line, told_alone, tree_line};
use atproto_mst::{find_record, stored_commit};
use ipld_links::{Verdict, stored_bytes, verify};
use ipld_tree::Cid;
use program_parts::{Answer, Kept, held_of, line_of, missing_line, say_both, shown, verdict_line};
use program_shared::ToolError;
use std::alloc::{AllocError, Global};
use std::collections::BTreeMap;
use std::io::{BufRead, Write};

/// The codec of records (multicodec table).
const DAG_CBOR: u64 = 0x71;

/// Returns the error message for a record whose bytes do not match its CID.
fn verdict_told(alloc: Global, name: &Cid, verdict: &Verdict) -> Result<Answer, AllocError>
    ensures { (bytes : List ℕ) → IfOk result (λ p.
        IsToldAlone (verdict_line ((name.now, bytes), verdict.now)) p.0.1 p.0.0.items p.1.items) }
{
    let (line, _well) = verdict_line(alloc, name, verdict)?;
    Ok(told_alone(alloc, line))
}

/// Returns the answer for the bytes stored under a record's CID: their data if they match the CID,
/// otherwise the verdict on them.
fn bytes_said(alloc: Global, name: &Cid, bytes: &[u8]) -> Result<Answer, AllocError>
    ensures { IfOk result
        (λ p. AreBytesSaid name.now bytes.now p.0.1 p.0.0.items p.1.items) }
{
    let verdict = verify(name, bytes);
    match &verdict {
        Verdict::OtherBytes => verdict_told(alloc, name, &verdict),
        Verdict::Unverified => verdict_told(alloc, name, &verdict),
        _ => verified_said(alloc, name, bytes),
    }
}

/// Returns the answer for bytes that match the record's CID: their data if its codec is DAG-CBOR,
/// otherwise an error message with the codec.
fn verified_said(alloc: Global, name: &Cid, bytes: &[u8]) -> Result<Answer, AllocError>
    ensures { IfOk result
        (λ p. AreVerifiedSaid name.now bytes.now p.0.1 p.0.0.items p.1.items) }
{
    if name.codec() == DAG_CBOR {
        return shown(alloc, bytes);
    }
    let line = other_codec_line(alloc, name)?;
    Ok(told_alone(alloc, line))
}

/// Returns the answer for a record's CID.
pub(crate) fn block_said(
    alloc: Global,
    blocks: &BTreeMap<Cid, Vec<u8>>,
    name: &Cid,
) -> Result<Answer, AllocError>
    ensures { IfOk result
        (λ p. IsBlockSaid (stored_in blocks.now) name.now p.0.1 p.0.0.items p.1.items) }
{
    match stored_bytes(blocks, name) {
        Some(bytes) => bytes_said(alloc, name, bytes),
        None => {
            let line = missing_line(alloc, name)?;
            Ok(told_alone(alloc, line))
        }
    }
}

/// Returns the answer for the key in the tree of this root.
fn key_said(
    alloc: Global,
    blocks: &BTreeMap<Cid, Vec<u8>>,
    tree: &Cid,
    key: &[u8],
) -> Result<Answer, AllocError>
    ensures { IfOk result
        (λ p. IsSaidOfKey (stored_in blocks.now) key.now tree.now p.0.1 p.0.0.items p.1.items) }
{
    match find_record(alloc, blocks, tree, key) {
        Ok(found) => match found {
            Some(name) => block_said(alloc, blocks, &name),
            None => {
                let line = line_of(alloc, b"no record has the key", b"", b"")?;
                Ok(told_alone(alloc, line))
            }
        },
        Err(error) => {
            let line = tree_line(alloc, &error)?;
            Ok(told_alone(alloc, line))
        }
    }
}

/// Returns the answer for the key in the tree of the commit of this CID.
fn record_at(
    alloc: Global,
    blocks: &BTreeMap<Cid, Vec<u8>>,
    root: &Cid,
    key: &[u8],
) -> Result<Answer, AllocError>
    ensures { IfOk result
        (λ p. IsRecordAt (stored_in blocks.now) key.now root.now p.0.1 p.0.0.items p.1.items) }
{
    match stored_commit(alloc, blocks, root) {
        Ok(commit) => key_said(alloc, blocks, &commit.data, key),
        Err(error) => {
            let line = repo_line(alloc, root, &error)?;
            Ok(told_alone(alloc, line))
        }
    }
}

/// Returns the answer for the key in the tree of the commit that is the first root.
fn record_of(
    alloc: Global,
    roots: &[Cid],
    blocks: &BTreeMap<Cid, Vec<u8>>,
    key: &[u8],
) -> Result<Answer, AllocError>
    ensures { IfOk result
        (λ p. IsRecordOf key.now (stored_in blocks.now) roots.now p.0.1 p.0.0.items p.1.items) }
{
    match first_root(alloc, roots)? {
        Ok(root) => record_at(alloc, blocks, &root, key),
        Err(line) => Ok(told_alone(alloc, line)),
    }
}

/// Returns the answer for the key that the word names, in the input file.
fn record_in<R: BufRead>(alloc: Global, word: &[u8], input: &mut R) -> Result<Answer, ToolError>
    ensures { IfSome (R.remaining input.old)
        (λ b. IfOk result (λ p. IsRecord word.now b p.0.1 p.0.0.items p.1.items)) }
{
    match held_of(alloc, Kept::All, input) {
        Ok(Ok(held)) => {
            let key = named_key(alloc, word)?;
            let answer = record_of(alloc, &held.roots, &held.blocks, &key)?;
            Ok(answer)
        }
        Ok(Err(line)) => Ok(told_alone(alloc, line)),
        Err(fault) => Err(fault),
    }
}

/// Writes the data of the key's record, in the tree of the commit that is the file's first root, or
/// an error message that says why there is none. Returns whether it was written. The word is the
/// key as `records` prints it, with `%20` for a space. A word that is not such a text is the key
/// itself. Only the commit, the nodes on the way to the key and the record must be in the file. The
/// blocks of the input are in memory.
pub fn write_record<R: BufRead, W: Write, V: Write>(
    alloc: Global,
    word: &str,
    input: &mut R,
    output: &mut W,
    errors: &mut V,
) -> Result<bool, ToolError>
    ensures { IfSome (R.remaining input.old) (λ b.
        SaysBoth (IsRecord word.now b) (W.contents output.old) (V.contents errors.old) result
        (W.contents output.new) (V.contents errors.new)) }
{
    match record_in(alloc, word.as_bytes(), input) {
        Ok((said, told)) => say_both(said, &told, output, errors),
        Err(fault) => Err(fault),
    }
}
