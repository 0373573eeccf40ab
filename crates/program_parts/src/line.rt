//! The lines that programs write about files and blocks.

ghost use Rattle.std.specs.Prelude.{◌≡◌, ◌++◌, IfOk};
ghost use Rattle.std.specs.List.{flat_map};
ghost use Rattle.ipld_tree.specs.Cid.{cid_bytes};
ghost use Rattle.dagcbor_items.specs.Walks.{forms};
ghost use Rattle.program_parts.specs.Lines.{line, listed_line, named_line};
ghost use Rattle.program_parts.specs.Lines.{missing_line, root_line, refused_line, SaysLines, SaysBoth};

use crate::codec::codec_name;
use crate::names::fault_name;
use files_car::CarError;
use ipld_tree::Cid;
use program_shared::{ToolError, write_all};
use std::alloc::{AllocError, Global};
use std::io::Write;
use text_cid::cid_text;

/// Lines, and whether all is well.
pub type Said = (Vec<u8>, bool);

/// Writes the lines. Returns whether all is well.
pub fn say<W: Write>(said: Said, output: &mut W) -> Result<bool, ToolError>
    ensures { SaysLines said.0.items said.1 (W.contents output.old) result (W.contents output.new) }
{
    let (lines, well) = said;
    write_all(output, &lines)?;
    Ok(well)
}

/// Writes the lines to the output, and `told` to the error output. Returns whether all is well.
#[tactic(auto, using(crate::proofs::Saying::first_broken))]
pub fn say_both<W: Write, V: Write>(
    said: Said,
    told: &[u8],
    output: &mut W,
    errors: &mut V,
) -> Result<bool, ToolError>
    ensures { SaysBoth (λ well lines text. (well ≡ said.1) × (lines ≡ said.0.items)
        × (text ≡ told.now)) (W.contents output.old) (V.contents errors.old) result
        (W.contents output.new) (V.contents errors.new) }
{
    let (lines, well) = said;
    write_all(output, &lines)?;
    write_all(errors, told)?;
    Ok(well)
}

/// Room for a line of a CID and two words, so that most lines need one allocation.
const ROOM: usize = 160;

/// Returns the texts joined, and a line feed.
pub fn line_of(
    alloc: Global,
    first: &[u8],
    second: &[u8],
    third: &[u8],
) -> Result<Vec<u8>, AllocError>
    ensures { IfOk result (λ v. v.items ≡ line (first.now ++ (second.now ++ third.now))) }
{
    let mut out = Vec::with_capacity(alloc, ROOM)?;
    out.extend_from_slice(first)?;
    out.extend_from_slice(second)?;
    out.extend_from_slice(third)?;
    out.push(b'\n')?;
    Ok(out)
}

/// Returns the line of a section, with the length of the block in bytes.
pub fn listed_line(alloc: Global, cid: &Cid, block: &[u8]) -> Result<Vec<u8>, AllocError>
    ensures { IfOk result (λ v. v.items ≡ listed_line (cid.now, block.now)) }
{
    let length = format!(in alloc; "{}", block.len())?;
    line_of(alloc, &cid_text(cid), b" ", length.as_bytes())
}

/// Returns the line of a CID after a word.
pub fn named_line(alloc: Global, word: &[u8], cid: &Cid) -> Result<Vec<u8>, AllocError>
    ensures { IfOk result (λ v. v.items ≡ named_line word.now (cid_bytes cid.now)) }
{
    line_of(alloc, word, &cid_text(cid), b"")
}

/// Returns the line of a missing root or link, with its codec.
pub fn missing_line(alloc: Global, cid: &Cid) -> Result<Vec<u8>, AllocError>
    ensures { IfOk result (λ v. v.items ≡ missing_line cid.now) }
{
    match codec_name(cid.codec()) {
        Some(name) => {
            let following = format!(in alloc; " {name}")?;
            line_of(alloc, b"missing ", &cid_text(cid), following.as_bytes())
        }
        None => {
            let following = format!(in alloc; " codec 0x{:x}", cid.codec())?;
            line_of(alloc, b"missing ", &cid_text(cid), following.as_bytes())
        }
    }
}

/// Returns the lines of the missing roots and links.
pub fn missing_lines(alloc: Global, missing: &[Cid]) -> Result<Vec<u8>, AllocError>
    ensures { IfOk result (λ v. v.items ≡ flat_map missing_line missing.now) }
{
    let mut lines = Vec::new(alloc);
    for cid in missing {
        let line = missing_line(alloc, cid)?;
        lines.extend_from_slice(&line)?;
    }
    Ok(lines)
}

/// Returns the lines of the roots.
pub fn root_lines(alloc: Global, roots: &[Cid]) -> Result<Vec<u8>, AllocError>
    ensures { IfOk result (λ v. v.items ≡ flat_map root_line (forms roots.now)) }
{
    let mut lines = Vec::new(alloc);
    for cid in roots {
        let line = named_line(alloc, b"root ", cid)?;
        lines.extend_from_slice(&line)?;
    }
    Ok(lines)
}

/// Returns the line of a refused file.
pub fn refused_line<E>(alloc: Global, error: &CarError<E>) -> Result<Vec<u8>, AllocError>
    ensures { IfOk result (λ v. v.items ≡ refused_line error.now) }
{
    line_of(alloc, b"refused ", fault_name(error).as_bytes(), b"")
}
