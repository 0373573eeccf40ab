//! `record-proof`: the CAR file that proves a record.

ghost use Rattle.std.specs.Prelude.{◌≡◌, ◌⊎◌, [], ◌∷◌, Some, IfOk, IfErr, IfSome, MatchOption};
ghost use Rattle.ipld_tree.specs.Cid.{CidParts, cid_bytes};
ghost use Rattle.ipld_links.specs.Reaching.{stored_in};
ghost use Rattle.ipld_links.specs.Verdicts.{IsVerified};
ghost use Rattle.files_car.specs.Car.{IsCar};
ghost use Rattle.files_car.specs.Reached.{sections_at};
ghost use Rattle.program_parts.specs.Lines.{SaysBoth};
ghost use Rattle.atproto_mst.specs.Walks.{most_layers};
ghost use Rattle.atproto_mst.specs.Finding.{FindsRecord, FindStops, IsWay};
ghost use Rattle.atproto_mst.specs.declared.error.MstError.TheVariants.{OutOfMemory};
ghost use Rattle.program_records.specs.Commits.{OfRoots, OfFile};
ghost use Rattle.program_records.specs.Proofs.{deciding, IsThereVerified, IsRecordLost, AreOtherBytesTold};
ghost use Rattle.program_records.specs.Proofs.{IsProofGiven, IsProofSaid, IsProofAt, IsProofOf};

use crate::commit::commit_of;
use crate::key::named_key;
use crate::words::{told_alone, tree_line};
use atproto_mst::{MstError, find_record, record_way};
use dagcbor_heads::BufWriter;
use files_car::push_tree;
use ipld_links::{Verdict, stored_bytes, verify};
use ipld_paths::each_once;
use ipld_tree::Cid;
use program_parts::{Answer, Held, Kept, held_of, missing_line, say_both, verdict_line};
use program_shared::ToolError;
use std::alloc::{AllocError, Global};
use std::collections::BTreeMap;
use std::io::{BufRead, Write};

/// Returns the error message for bytes that do not match the record's CID, `None` if they do.
fn other_told(alloc: Global, name: &Cid, bytes: &[u8]) -> Result<Option<Answer>, AllocError>
    ensures { IfOk result (λ o. MatchOption o (IsVerified (name.now, bytes.now))
        (λ p. AreOtherBytesTold name.now bytes.now p.0.1 p.0.0.items p.1.items)) }
{
    let verdict = verify(name, bytes);
    match &verdict {
        Verdict::OtherBytes => {
            let (line, _well) = verdict_line(alloc, name, &verdict)?;
            Ok(Some(told_alone(alloc, line)))
        }
        Verdict::Unverified => {
            let (line, _well) = verdict_line(alloc, name, &verdict)?;
            Ok(Some(told_alone(alloc, line)))
        }
        _ => Ok(None),
    }
}

/// Returns the error message for a record that is missing or has other bytes, `None` if it is
/// stored.
fn lost_told(
    alloc: Global,
    blocks: &BTreeMap<Cid, Vec<u8>>,
    name: &Cid,
) -> Result<Option<Answer>, AllocError>
    ensures { IfOk result (λ o. MatchOption o (IsThereVerified (stored_in blocks.now) name.now)
        (λ p. IsRecordLost (stored_in blocks.now) name.now p.0.1 p.0.0.items p.1.items)) }
{
    match stored_bytes(blocks, name) {
        Some(bytes) => other_told(alloc, name, bytes),
        None => {
            let line = missing_line(alloc, name)?;
            Ok(Some(told_alone(alloc, line)))
        }
    }
}

/// Does the same for a record, `None` if there is no record.
fn lost_of(
    alloc: Global,
    blocks: &BTreeMap<Cid, Vec<u8>>,
    found: &Option<Cid>,
) -> Result<Option<Answer>, AllocError>
    ensures { IfOk result (λ o. MatchOption o (IfSome found.now (IsThereVerified (stored_in blocks.now)))
        (λ p. (name : CidParts) × (found.now ≡ Some name)
        × IsRecordLost (stored_in blocks.now) name p.0.1 p.0.0.items p.1.items)) }
{
    match found {
        Some(name) => lost_told(alloc, blocks, name),
        None => Ok(None),
    }
}

/// Returns the CIDs of the blocks that decide: the commit, the nodes on the way, and the record, if
/// there is one.
fn names_of(
    alloc: Global,
    root: &Cid,
    way: &[Cid],
    found: &Option<Cid>,
) -> Result<Vec<Cid>, AllocError>
    ensures { IfOk result (λ v. v.items ≡ deciding root.now way.now found.now) }
{
    let mut names = Vec::new(alloc);
    names.push(*root)?;
    names.extend_from_slice(way)?;
    if let Some(name) = found {
        names.push(*name)?;
    }
    Ok(names)
}

/// Encodes the CAR file with this root and the blocks of these CIDs.
fn file_of(
    alloc: Global,
    root: &Cid,
    blocks: &BTreeMap<Cid, Vec<u8>>,
    names: &[Cid],
) -> Result<Vec<u8>, AllocError>
    ensures { IfOk result (λ v. IsCar v.items (cid_bytes root.now ∷ [])
        (sections_at (stored_in blocks.now) names.now)) }
{
    let mut writer = BufWriter::new(Vec::new(alloc));
    match push_tree(alloc, &mut writer, root, blocks, names) {
        Ok(()) => Ok(writer.into_inner()),
        Err(_) => Err(AllocError),
    }
}

/// Returns the CIDs of the nodes on the way to the key, and its record, if the tree has one.
fn sought(
    alloc: Global,
    blocks: &BTreeMap<Cid, Vec<u8>>,
    tree: &Cid,
    key: &[u8],
) -> Result<(Vec<Cid>, Option<Cid>), MstError>
    ensures found { IfOk result (λ p.
        IsWay most_layers (stored_in blocks.now) key.now tree.now p.0.items
        × FindsRecord most_layers (stored_in blocks.now) key.now tree.now p.1) }
    ensures refused { IfErr result (λ e. (e ≡ OutOfMemory)
        ⊎ FindStops most_layers (stored_in blocks.now) key.now tree.now e) }
{
    let way = record_way(alloc, blocks, tree, key)?;
    let found = find_record(alloc, blocks, tree, key)?;
    Ok((way, found))
}

/// Returns the CAR file that proves the record or its absence, or the error message for a record
/// that is not stored.
fn found_said(
    alloc: Global,
    blocks: &BTreeMap<Cid, Vec<u8>>,
    root: &Cid,
    way: &[Cid],
    found: &Option<Cid>,
) -> Result<Answer, AllocError>
    ensures { IfOk result (λ p. IsProofGiven (stored_in blocks.now) root.now way.now found.now
        p.0.1 p.0.0.items p.1.items) }
{
    if let Some(told) = lost_of(alloc, blocks, found)? {
        return Ok(told);
    }
    let names = names_of(alloc, root, way, found)?;
    let once = each_once(alloc, &names)?;
    let file = file_of(alloc, root, blocks, &once)?;
    Ok(((file, true), Vec::new(alloc)))
}

/// Returns the answer for the key in the tree of this root, whose commit has this CID.
fn proof_said(
    alloc: Global,
    blocks: &BTreeMap<Cid, Vec<u8>>,
    root: &Cid,
    tree: &Cid,
    key: &[u8],
) -> Result<Answer, AllocError>
    ensures { IfOk result (λ p. IsProofSaid (stored_in blocks.now) key.now root.now tree.now
        p.0.1 p.0.0.items p.1.items) }
{
    match sought(alloc, blocks, tree, key) {
        Ok((way, found)) => found_said(alloc, blocks, root, &way, &found),
        Err(error) => {
            let line = tree_line(alloc, &error)?;
            Ok(told_alone(alloc, line))
        }
    }
}

/// Returns the answer for the key, in the stored blocks of a file.
fn proof_of(alloc: Global, held: &Held, key: &[u8]) -> Result<Answer, AllocError>
    ensures { IfOk result (λ p. OfRoots (IsProofAt key.now) (stored_in held.now.blocks)
        held.now.roots.items p.0.1 p.0.0.items p.1.items) }
{
    match commit_of(alloc, held)? {
        Ok(found) => proof_said(alloc, &held.blocks, &found.0, &found.1.data, key),
        Err(line) => Ok(told_alone(alloc, line)),
    }
}

/// Returns the CAR file that proves which record the key has, or that it has none, in the tree of
/// the commit that is the input's first root. If there is no such file, returns an error message.
/// Only the commit, the nodes on the way to the key and the record must be in the input. The blocks
/// of the input are in memory.
pub fn record_proof<R: BufRead>(
    alloc: Global,
    key: &[u8],
    input: &mut R,
) -> Result<Answer, ToolError>
    ensures { IfSome (R.remaining input.old)
        (λ b. IfOk result (λ p. OfFile (IsProofAt key.now) b p.0.1 p.0.0.items p.1.items)) }
{
    match held_of(alloc, Kept::All, input) {
        Ok(Ok(held)) => {
            let said = proof_of(alloc, &held, key)?;
            Ok(said)
        }
        Ok(Err(line)) => Ok(told_alone(alloc, line)),
        Err(fault) => Err(fault),
    }
}

/// Writes the CAR file of `record_proof` for the key that the word names, or an error message that
/// says why there is none. Returns whether it was written. The word is the key as `records` prints
/// it. A word that is not such a text is the key itself.
pub fn write_record_proof<R: BufRead, W: Write, V: Write>(
    alloc: Global,
    word: &str,
    input: &mut R,
    output: &mut W,
    errors: &mut V,
) -> Result<bool, ToolError>
    ensures { IfSome (R.remaining input.old) (λ b.
        SaysBoth (OfFile (IsProofOf word.now) b) (W.contents output.old) (V.contents errors.old)
        result (W.contents output.new) (V.contents errors.new)) }
{
    let key = named_key(alloc, word.as_bytes())?;
    match record_proof(alloc, &key, input) {
        Ok((said, told)) => say_both(said, &told, output, errors),
        Err(fault) => Err(fault),
    }
}
