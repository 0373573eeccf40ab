//! `changes`: the differences between the records of two repositories.

ghost use Rattle.std.specs.Prelude.{◌≡◌, ◌++◌, List, IfOk, IfSome, OnOk};
ghost use Rattle.std.specs.List.{flat_map};
ghost use Rattle.program_parts.specs.Lines.{SaysBoth};
ghost use Rattle.atproto_mst.specs.Changes.{changes, change_of, Changed, AreChanges};
ghost use Rattle.atproto_mst.specs.Entries.{entries};
ghost use Rattle.atproto_mst.specs.Keys.{Rise};
ghost use Rattle.program_records.specs.Records.{IsToldAlone};
ghost use Rattle.program_records.specs.Differing.{change_word, name_word, change_line};
ghost use Rattle.program_records.specs.Differing.{IsChangesTo, IsChangesOf};

use crate::key::push_key;
use crate::repository::read_file;
use crate::words::told_alone;
use atproto_mst::{Change, MstEntry, diff_entries};
use ipld_tree::Cid;
use program_parts::{Answer, say_both};
use program_shared::ToolError;
use std::alloc::{AllocError, Global};
use std::io::{BufRead, Write};
use text_cid::cid_text;

/// Returns the word for what happened to the record.
fn change_word(change: &Change) -> &'static [u8]
    ensures { result.now ≡ change_word change.now.old change.now.new }
{
    if change.old.is_none() {
        b"added "
    } else if change.new.is_none() {
        b"removed "
    } else {
        b"changed "
    }
}

/// Appends a space and the CID, if there is one.
pub fn push_name(name: &Option<Cid>, out: &mut Vec<u8>) -> Result<(), AllocError>
    ensures { OnOk result (out.new.items ≡ out.old.items ++ name_word name.now) }
{
    if let Some(name) = name {
        out.extend_from_slice(b" ")?;
        out.extend_from_slice(&cid_text(name))?;
    }
    Ok(())
}

/// Appends the line of a key whose record differs.
fn push_change(change: &Change, out: &mut Vec<u8>) -> Result<(), AllocError>
    ensures { OnOk result (out.new.items ≡ out.old.items ++ change_line (change_of change.now)) }
{
    out.extend_from_slice(change_word(change))?;
    push_key(&change.key, out)?;
    push_name(&change.old, out)?;
    push_name(&change.new, out)?;
    out.extend_from_slice(b"\n")
}

/// Returns the lines of these changes.
fn change_lines(alloc: Global, found: &[Change]) -> Result<Vec<u8>, AllocError>
    ensures { IfOk result (λ v. v.items ≡ flat_map change_line (changes found.now)) }
{
    let mut lines = Vec::new(alloc);
    for change in found {
        push_change(change, &mut lines)?;
    }
    Ok(lines)
}

/// Returns the error message about one of the files: which file, and the line.
fn told_of(alloc: Global, which: &[u8], line: &[u8]) -> Result<Answer, ToolError>
    ensures { IfOk result
        (λ p. IsToldAlone (which.now ++ line.now) p.0.1 p.0.0.items p.1.items) }
{
    let mut told = Vec::new(alloc);
    told.extend_from_slice(which)?;
    told.extend_from_slice(line)?;
    Ok(told_alone(alloc, told))
}

/// Returns the lines of the changes between these records, whose keys must rise.
fn lines_between(alloc: Global, old: &[MstEntry], new: &[MstEntry]) -> Result<Vec<u8>, AllocError>
    ensures { Rise (entries old.now) → Rise (entries new.now) → IfOk result (λ v. (cs : List Changed)
        × AreChanges (entries old.now) (entries new.now) cs × (v.items ≡ flat_map change_line cs)) }
{
    let found = diff_entries(alloc, old, new)?;
    change_lines(alloc, &found)
}

/// Returns the answer for the new file, compared with these records.
fn changes_to<S: BufRead>(
    alloc: Global,
    before: &[MstEntry],
    new: &mut S,
) -> Result<Answer, ToolError>
    ensures { Rise (entries before.now) → IfSome (S.remaining new.old) (λ b.
        IfOk result (λ p. IsChangesTo before.now b p.0.1 p.0.0.items p.1.items)) }
{
    match read_file(alloc, new) {
        Ok(Ok(after)) => {
            let lines = lines_between(alloc, before, &after.records)?;
            Ok(((lines, true), Vec::new(alloc)))
        }
        Ok(Err(line)) => told_of(alloc, b"new: ", &line),
        Err(fault) => Err(fault),
    }
}

/// Returns the answer for the two files.
fn changes_between<R: BufRead, S: BufRead>(
    alloc: Global,
    old: &mut R,
    new: &mut S,
) -> Result<Answer, ToolError>
    ensures { IfSome (R.remaining old.old) (λ b. IfSome (S.remaining new.old) (λ c.
        IfOk result (λ p. IsChangesOf b c p.0.1 p.0.0.items p.1.items))) }
{
    match read_file(alloc, old) {
        Ok(Ok(before)) => changes_to(alloc, &before.records, new),
        Ok(Err(line)) => told_of(alloc, b"old: ", &line),
        Err(fault) => Err(fault),
    }
}

/// Writes a line for each key whose records differ between two CAR files, each the whole repository
/// of its first root, in key order: `added <key> <CID>`, `removed <key> <CID>`, or `changed <key>
/// <CID before> <CID after>`. If one of them is not such a file, writes only an error message that
/// says why, after `old: ` or `new: `; the old file is checked first. Returns whether both are. The
/// blocks of one file are in memory at a time.
pub fn write_changes<R: BufRead, S: BufRead, W: Write, V: Write>(
    alloc: Global,
    old: &mut R,
    new: &mut S,
    output: &mut W,
    errors: &mut V,
) -> Result<bool, ToolError>
    ensures { IfSome (R.remaining old.old) (λ b. IfSome (S.remaining new.old) (λ c.
        SaysBoth (IsChangesOf b c) (W.contents output.old) (V.contents errors.old) result
        (W.contents output.new) (V.contents errors.new))) }
{
    match changes_between(alloc, old, new) {
        Ok((said, told)) => say_both(said, &told, output, errors),
        Err(fault) => Err(fault),
    }
}
