//! `records`: a line for each record of a repository.

ghost use Rattle.std.specs.Prelude.{◌≡◌, ◌++◌, IfOk, IfSome, OnOk};
ghost use Rattle.std.specs.List.{flat_map};
ghost use Rattle.program_parts.specs.Lines.{SaysBoth};
ghost use Rattle.atproto_mst.specs.Entries.{entries, entry_of};
ghost use Rattle.program_records.specs.Records.{record_line, IsRecords};

use crate::key::push_key;
use crate::repository::read_file;
use crate::words::told_alone;
use atproto_mst::MstEntry;
use program_parts::{Answer, say_both};
use program_shared::ToolError;
use std::alloc::{AllocError, Global};
use std::io::{BufRead, Write};
use text_cid::cid_text;

/// Appends the line of a record.
fn push_record(found: &MstEntry, out: &mut Vec<u8>) -> Result<(), AllocError>
    ensures { OnOk result (out.new.items ≡ out.old.items ++ record_line (entry_of found.now)) }
{
    push_key(&found.key, out)?;
    out.extend_from_slice(b" ")?;
    out.extend_from_slice(&cid_text(&found.value))?;
    out.extend_from_slice(b"\n")
}

/// Returns the lines of these records.
fn record_lines(alloc: Global, records: &[MstEntry]) -> Result<Vec<u8>, AllocError>
    ensures { IfOk result (λ v. v.items ≡ flat_map record_line (entries records.now)) }
{
    let mut lines = Vec::new(alloc);
    for found in records {
        push_record(found, &mut lines)?;
    }
    Ok(lines)
}

/// Returns the answer for the input file.
fn records_of<R: BufRead>(alloc: Global, input: &mut R) -> Result<Answer, ToolError>
    ensures { IfSome (R.remaining input.old)
        (λ b. IfOk result (λ p. IsRecords b p.0.1 p.0.0.items p.1.items)) }
{
    match read_file(alloc, input) {
        Ok(Ok(repo)) => {
            let lines = record_lines(alloc, &repo.records)?;
            Ok(((lines, true), Vec::new(alloc)))
        }
        Ok(Err(line)) => Ok(told_alone(alloc, line)),
        Err(fault) => Err(fault),
    }
}

/// Writes a line for each record of the repository in the input, in key order: the key, a space,
/// and the CID of the record. In the key, `%` and two hexadecimal digits stand for a byte that
/// could end a word, and for `%`. If the input is not a repository, writes only an error message
/// that says why. Returns whether it is one. The records themselves need not be in the file. The
/// blocks of the input are in memory.
pub fn write_records<R: BufRead, W: Write, V: Write>(
    alloc: Global,
    input: &mut R,
    output: &mut W,
    errors: &mut V,
) -> Result<bool, ToolError>
    ensures { IfSome (R.remaining input.old) (λ b.
        SaysBoth (IsRecords b) (W.contents output.old) (V.contents errors.old) result
        (W.contents output.new) (V.contents errors.new)) }
{
    match records_of(alloc, input) {
        Ok((said, told)) => say_both(said, &told, output, errors),
        Err(fault) => Err(fault),
    }
}
