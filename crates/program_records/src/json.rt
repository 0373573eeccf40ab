//! `records --json`: the data of each record of a repository, as DAG-JSON.

ghost use Rattle.std.specs.Prelude.{◌≡◌, IfOk, IfSome};
ghost use Rattle.ipld_links.specs.Reaching.{stored_in};
ghost use Rattle.program_parts.specs.Lines.{SaysBoth};
ghost use Rattle.atproto_mst.specs.Entries.{entries, entry_of};
ghost use Rattle.program_records.specs.Keys.{key_text};
ghost use Rattle.program_records.specs.Json.{json_line, keyed, IsRecordSaid, AreRecordsSaid, IsHeldSaid, IsRecordsJson};

use crate::key::push_key;
use crate::record::block_said;
use crate::repository::repo_of;
use crate::words::{append_answer, told_alone};
use atproto_mst::MstEntry;
use ipld_tree::Cid;
use program_parts::{Answer, Held, Kept, held_of, say_both};
use program_shared::ToolError;
use std::alloc::{AllocError, Global};
use std::collections::BTreeMap;
use std::io::{BufRead, Write};
use text_dag_json::{push_link, push_text};

/// Returns a key as text.
fn key_text(alloc: Global, key: &[u8]) -> Result<Vec<u8>, AllocError>
    ensures { IfOk result (λ v. v.items ≡ key_text key.now) }
{
    let mut text = Vec::new(alloc);
    push_key(key, &mut text)?;
    Ok(text)
}

/// Returns the line of a record whose data is this DAG-JSON.
fn json_line(alloc: Global, found: &MstEntry, json: &[u8]) -> Result<Vec<u8>, AllocError>
    ensures { IfOk result (λ v. v.items ≡ json_line (entry_of found.now) json.now) }
{
    let key = key_text(alloc, &found.key)?;
    let mut out = Vec::new(alloc);
    out.extend_from_slice(b"{\"cid\":")?;
    push_link(&found.value, &mut out)?;
    out.extend_from_slice(b",\"key\":")?;
    push_text(&key, &mut out)?;
    out.extend_from_slice(b",\"value\":")?;
    out.extend_from_slice(json)?;
    out.extend_from_slice(b"}\n")?;
    Ok(out)
}

/// Prefixes an error message about a record with its key. An empty message stays empty.
fn keyed(alloc: Global, found: &MstEntry, told: Vec<u8>) -> Result<Vec<u8>, AllocError>
    ensures { IfOk result (λ v. v.items ≡ keyed (entry_of found.now) told.items) }
{
    if told.is_empty() {
        return Ok(told);
    }
    let mut out = Vec::new(alloc);
    push_key(&found.key, &mut out)?;
    out.extend_from_slice(b": ")?;
    out.extend_from_slice(&told)?;
    Ok(out)
}

/// Returns the answer for a record.
fn record_said(
    alloc: Global,
    blocks: &BTreeMap<Cid, Vec<u8>>,
    found: &MstEntry,
) -> Result<Answer, AllocError>
    ensures { IfOk result (λ p. IsRecordSaid (stored_in blocks.now) (entry_of found.now)
        p.0.1 p.0.0.items p.1.items) }
{
    let ((mut text, well), told) = block_said(alloc, blocks, &found.value)?;
    let told = keyed(alloc, found, told)?;
    if !well {
        return Ok(told_alone(alloc, told));
    }
    let _line_feed = text.pop();
    let line = json_line(alloc, found, &text)?;
    Ok(((line, true), told))
}

/// Returns the answer for these records.
fn records_said(
    alloc: Global,
    blocks: &BTreeMap<Cid, Vec<u8>>,
    records: &[MstEntry],
) -> Result<Answer, AllocError>
    ensures { IfOk result (λ p. AreRecordsSaid (stored_in blocks.now) (entries records.now)
        p.0.1 p.0.0.items p.1.items) }
{
    let mut all = ((Vec::new(alloc), true), Vec::new(alloc));
    for found in records {
        let next = record_said(alloc, blocks, found)?;
        append_answer(&mut all, &next)?;
    }
    Ok(all)
}

/// Returns the answer for the repository in the stored blocks.
fn held_said(alloc: Global, held: &Held) -> Result<Answer, AllocError>
    ensures { IfOk result (λ p. IsHeldSaid (stored_in held.now.blocks) held.now.roots.items
        p.0.1 p.0.0.items p.1.items) }
{
    match repo_of(alloc, &held.roots, &held.blocks)? {
        Ok(repo) => records_said(alloc, &held.blocks, &repo.records),
        Err(line) => Ok(told_alone(alloc, line)),
    }
}

/// Returns the answer for the file.
fn json_of<R: BufRead>(alloc: Global, input: &mut R) -> Result<Answer, ToolError>
    ensures { IfSome (R.remaining input.old)
        (λ b. IfOk result (λ p. IsRecordsJson b p.0.1 p.0.0.items p.1.items)) }
{
    match held_of(alloc, Kept::All, input) {
        Ok(Ok(held)) => {
            let said = held_said(alloc, &held)?;
            Ok(said)
        }
        Ok(Err(line)) => Ok(told_alone(alloc, line)),
        Err(fault) => Err(fault),
    }
}

/// Writes a line for each record of the repository in the input, in key order: a DAG-JSON map of
/// `cid`, `key` and `value`, with the key as `records` prints it. A record that is missing, has
/// bytes that do not match its CID, or is not DAG-CBOR has no line, but an error message after its
/// key. If the input is not a repository, writes only an error message that says why. Returns
/// whether the data of every record was written. The blocks of the input and the lines are in
/// memory.
pub fn write_records_json<R: BufRead, W: Write, V: Write>(
    alloc: Global,
    input: &mut R,
    output: &mut W,
    errors: &mut V,
) -> Result<bool, ToolError>
    ensures { IfSome (R.remaining input.old) (λ b.
        SaysBoth (IsRecordsJson b) (W.contents output.old) (V.contents errors.old) result
        (W.contents output.new) (V.contents errors.new)) }
{
    match json_of(alloc, input) {
        Ok((said, told)) => say_both(said, &told, output, errors),
        Err(fault) => Err(fault),
    }
}
