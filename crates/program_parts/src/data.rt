//! The data of a block as DAG-JSON, or why bytes are not a block.

ghost use Rattle.std.specs.Prelude.{◌≡◌, ◌++◌, [], codes, true, false, IfOk, if◌then◌else◌};
ghost use Rattle.dagcbor_decode.specs.PrintedNames.{variant_name};
ghost use Rattle.ipld_tree.specs.Ipld.{tree_of};
ghost use Rattle.text_dag_json.specs.DagJson.{dag_json, has_reserved_key};
ghost use Rattle.program_parts.specs.Lines.{line, SaysBoth};
ghost use Rattle.program_parts.specs.Shown.{fault_place_line, reserved_line, IsShown};

use crate::line::{Said, line_of, say_both};
use dagcbor_decode::{Refused, judge_slice, variant_name};
use dagcbor_items::any_from_slice;
use ipld_tree::Ipld;
use program_shared::ToolError;
use std::alloc::{AllocError, Global};
use std::io::Write;
use text_dag_json::{dag_json, has_reserved_key};

/// The output and whether all is well, and the error output.
pub type Answer = (Said, Vec<u8>);

/// Returns the error line for bytes that are not a block, with the offset of the fault.
pub fn fault_place_line(alloc: Global, refused: &Refused) -> Result<Vec<u8>, AllocError>
    ensures { IfOk result (λ v. v.items ≡ fault_place_line refused.now.cause refused.now.place) }
{
    let place = format!(in alloc; " at byte {}", refused.place)?;
    let name = variant_name(&refused.cause);
    line_of(alloc, b"refused ", name.as_bytes(), place.as_bytes())
}

/// Returns the answer for bytes that are not a block, with the offset of the fault on the error
/// output.
pub fn no_block_answer(alloc: Global, refused: &Refused) -> Result<Answer, AllocError>
    ensures { IfOk result (λ p. (p.0.1 ≡ false)
        × (p.0.0.items ≡ line (codes "refused " ++ variant_name refused.now.cause))
        × (p.1.items ≡ fault_place_line refused.now.cause refused.now.place)) }
{
    let name = variant_name(&refused.cause);
    let line = line_of(alloc, b"refused ", name.as_bytes(), b"")?;
    let told = fault_place_line(alloc, refused)?;
    Ok(((line, false), told))
}

/// Returns the line of the data.
fn data_line(alloc: Global, value: &Ipld) -> Result<Vec<u8>, AllocError>
    ensures { IfOk result (λ v. v.items ≡ line (dag_json (tree_of value.now))) }
{
    let text = dag_json(alloc, value)?;
    line_of(alloc, &text, b"", b"")
}

/// The warning for data in which a map has the key `/`.
const RESERVED_LINE: &[u8] = b"dagcar: a map with the key / looks like a link or like bytes\n";

/// Returns the warning for the data, if there is one.
fn told_of(alloc: Global, value: &Ipld) -> Result<Vec<u8>, AllocError>
    ensures { IfOk result (λ v. v.items
        ≡ (if has_reserved_key (tree_of value.now) then reserved_line else [])) }
{
    if has_reserved_key(value) {
        RESERVED_LINE.to_vec(alloc)
    } else {
        Ok(Vec::new(alloc))
    }
}

/// Returns the line of the data, and the warning.
fn data_of(alloc: Global, value: &Ipld) -> Result<Answer, AllocError>
    ensures { IfOk result (λ p. (p.0.1 ≡ true) × (p.0.0.items ≡ line (dag_json (tree_of value.now)))
        × (p.1.items ≡ (if has_reserved_key (tree_of value.now) then reserved_line else []))) }
{
    let line = data_line(alloc, value)?;
    let told = told_of(alloc, value)?;
    Ok(((line, true), told))
}

/// Returns the data of the block and the warning, or why the bytes are not a block. Judges the
/// bytes first, so bytes that are not a block take no memory for a tree, and a block fails only if
/// memory runs out.
pub fn shown(alloc: Global, block: &[u8]) -> Result<Answer, AllocError>
    ensures { IfOk result (λ p. IsShown block.now p.0.1 p.0.0.items p.1.items) }
{
    if let Err(refused) = judge_slice(block) {
        return no_block_answer(alloc, &refused);
    }
    match any_from_slice(alloc, block) {
        Ok(data) => data_of(alloc, &data),
        Err(_) => Err(AllocError),
    }
}

/// Writes the data of the block, or why the bytes are not one. Returns whether they are one.
pub fn say_shown<W: Write, V: Write>(
    alloc: Global,
    block: &[u8],
    output: &mut W,
    errors: &mut V,
) -> Result<bool, ToolError>
    ensures { SaysBoth (IsShown block.now) (W.contents output.old) (V.contents errors.old) result
        (W.contents output.new) (V.contents errors.new) }
{
    let (said, told) = shown(alloc, block)?;
    say_both(said, &told, output, errors)
}
