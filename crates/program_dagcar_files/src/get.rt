//! `get`: one block of a random-access file.

ghost use Rattle.std.specs.Prelude.{List, ℕ, IfOk, IfSome};
ghost use Rattle.program_parts.specs.Lines.{SaysBoth};
ghost use Rattle.program_dagcar.specs.Finding.{IsGot};
ghost use Rattle.ipld_tree.specs.Cid.{CidParts};
ghost use Rattle.program_index.specs.Finds.{IsFound};
ghost use Rattle.program_dagcar_files.specs.Gets.{IsGotNamed, IsGotPast};

use files_index::{ReadAt, buffered_from};
use ipld_tree::Cid;
use program_dagcar::got;
use program_index::{Found, find_block};
use program_parts::{Answer, say_both};
use program_shared::ToolError;
use std::alloc::Global;
use std::io::Write;

/// The error line if the index does not lead to a block that the file has.
const NO_ENTRY: &str = "dagcar: the index has no right entry of this block\n";

/// Returns the block with this CID, or the error line if there is none. Reads the file from its
/// start.
fn got_at<S: ReadAt>(alloc: Global, name: &Cid, source: &S) -> Result<Answer, ToolError>
    ensures { IfSome (S.bytes source.now) (λ b. IfOk result
        (λ p. IsGot name.now b p.0.1 p.0.0.items p.1.items)) }
{
    match buffered_from(alloc, source, 0) {
        Ok(mut input) => got(alloc, name, &mut input),
        Err(_) => Err(ToolError::OutOfMemory),
    }
}

/// Returns the same, with an error line if there is a block, since the index did not lead to it.
fn past_index(alloc: Global, answer: Answer) -> Result<Answer, ToolError>
    ensures { (name : CidParts) (b : List ℕ)
        → IsGot name b answer.0.1 answer.0.0.items answer.1.items
        → IfOk result (λ p. IsGotPast name b p.0.1 p.0.0.items p.1.items) }
{
    let (said, told) = answer;
    if !said.1 {
        return Ok((said, told));
    }
    match NO_ENTRY.as_bytes().to_vec(alloc) {
        Ok(line) => Ok((said, line)),
        Err(_) => Err(ToolError::OutOfMemory),
    }
}

/// The block of the name, or what is told of a file that has none.
fn got_by<S: ReadAt>(
    alloc: Global,
    name: &Cid,
    source: &S,
    found: Found,
) -> Result<Answer, ToolError>
    ensures { IfSome (S.bytes source.now) (λ b. IsFound (S.bytes source.now) name.now found
        → IfOk result (λ p. IsGotNamed name.now b p.0.1 p.0.0.items p.1.items)) }
{
    match found {
        Found::Block(block) => Ok(((block, true), Vec::new(alloc))),
        Found::NoIndex => got_at(alloc, name, source),
        Found::NoEntry => {
            let answer = got_at(alloc, name, source)?;
            past_index(alloc, answer)
        }
    }
}

/// Writes the block with this CID in a random-access file, or an error line that says why there is
/// none. Returns whether it was found. Looks it up in the file's index, if it has one. If the index
/// does not lead to it, reads the file from its start.
pub fn get_named<S: ReadAt, W: Write, V: Write>(
    alloc: Global,
    name: &Cid,
    source: &S,
    output: &mut W,
    errors: &mut V,
) -> Result<bool, ToolError>
    ensures { IfSome (S.bytes source.now) (λ b.
        SaysBoth (IsGotNamed name.now b) (W.contents output.old) (V.contents errors.old) result
        (W.contents output.new) (V.contents errors.new)) }
{
    let found = find_block(alloc, source, name)?;
    let (said, told) = got_by(alloc, name, source, found)?;
    say_both(said, &told, output, errors)
}
