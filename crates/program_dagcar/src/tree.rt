//! `tree`: a CAR file of the blocks that links lead to.

ghost use Rattle.std.specs.Prelude.{◌∷◌, [], IfSome, MatchBool};
ghost use Rattle.ipld_tree.specs.Cid.{cid_bytes};
ghost use Rattle.files_car.specs.Car.{car_bytes};
ghost use Rattle.ipld_links.specs.Reaching.{stored_in, IsLost, ReachesKnown};
ghost use Rattle.files_car.specs.Reached.{sections_at};
ghost use Rattle.program_dagcar.specs.Finding.{IsTreeFound, IsTreeOf, IsTreeOfFile, SendsTree};
ghost use Rattle.program_parts.specs.Lines.{SaysText, SaysBoth};

use crate::check::names_said;
use dagcbor_core::EncodeError;
use dagcbor_heads::IoRefWriter;
use files_car::push_tree;
use ipld_links::{IDENTITY, Reached, reach_known};
use ipld_tree::Cid;
use program_parts::{Kept, held_of, is_there, say_both, verdict_line};
use program_shared::{ToolError, write_all};
use std::alloc::Global;
use std::collections::BTreeMap;
use std::io::{BufRead, Write};

/// Writes the CAR file of the root and the blocks of these names.
fn send<W: Write>(
    alloc: Global,
    root: &Cid,
    blocks: &BTreeMap<Cid, Vec<u8>>,
    names: &[Cid],
    output: &mut W,
) -> Result<(), ToolError>
    ensures { SaysText
        (car_bytes (cid_bytes root.now ∷ []) (sections_at (stored_in blocks.now) names.now))
        (W.contents output.old) result (W.contents output.new) }
{
    let mut writer = IoRefWriter::new(output);
    let sent = push_tree(alloc, &mut writer, root, blocks, names);
    // No effect at run time. The proof reads what `output` holds from this use of it.
    let _ = &*writer.into_inner();
    match sent {
        Ok(()) => Ok(()),
        Err(error) => match error {
            EncodeError::Write(_) => Err(ToolError::Output),
            _ => Err(ToolError::OutOfMemory),
        },
    }
}

/// Returns whether the name is missing: not among the blocks, and not an identity CID.
fn is_lost(name: &Cid, blocks: &BTreeMap<Cid, Vec<u8>>) -> bool
    ensures { MatchBool result (IsLost (stored_in blocks.now) name.now)
        (¬ IsLost (stored_in blocks.now) name.now) }
{
    if name.hash_code() == IDENTITY {
        return false;
    }
    !is_there(blocks, name)
}

/// Writes the CAR file of the root and the blocks of these names. Writes nothing if the root is
/// missing.
fn send_tree<W: Write>(
    alloc: Global,
    root: &Cid,
    blocks: &BTreeMap<Cid, Vec<u8>>,
    names: &[Cid],
    output: &mut W,
) -> Result<(), ToolError>
    ensures { SendsTree (stored_in blocks.now) root.now names.now
        (W.contents output.old) result (W.contents output.new) }
{
    if is_lost(root, blocks) {
        return Ok(());
    }
    send(alloc, root, blocks, names, output)
}

/// Writes the CAR file of the root and the blocks that links lead to from there, and an error line
/// for each missing name. Returns whether none is missing.
fn say_reached<W: Write, V: Write>(
    alloc: Global,
    root: &Cid,
    blocks: &BTreeMap<Cid, Vec<u8>>,
    reached: &Reached,
    output: &mut W,
    errors: &mut V,
) -> Result<bool, ToolError>
    ensures { ReachesKnown (stored_in blocks.now) root.now reached.now.found.items reached.now.lost.items
        → SaysBoth (IsTreeFound (stored_in blocks.now) root.now) (W.contents output.old)
        (V.contents errors.old) result (W.contents output.new) (V.contents errors.new) }
{
    let (told, whole) = names_said(alloc, &reached.lost)?;
    send_tree(alloc, root, blocks, &reached.found, output)?;
    write_all(errors, &told)?;
    Ok(whole)
}

/// Writes the tree from the root; or nothing, and an error line for the first block on the way
/// whose links cannot be read. Returns whether all is well.
fn say_tree<W: Write, V: Write>(
    alloc: Global,
    root: &Cid,
    blocks: &BTreeMap<Cid, Vec<u8>>,
    output: &mut W,
    errors: &mut V,
) -> Result<bool, ToolError>
    ensures { SaysBoth (IsTreeOf (stored_in blocks.now) root.now) (W.contents output.old)
        (V.contents errors.old) result (W.contents output.new) (V.contents errors.new) }
{
    match reach_known(alloc, blocks, root)? {
        Ok(reached) => say_reached(alloc, root, blocks, &reached, output, errors),
        Err(hidden) => {
            let (line, _well) = verdict_line(alloc, &hidden.0, &hidden.1)?;
            say_both((Vec::new(alloc), false), &line, output, errors)
        }
    }
}

/// Writes the CAR file of the root and the blocks that links lead to from there, within the input's
/// CAR file, and an error line for each missing name. Or writes only an error line: the input is
/// not a CAR file, or the links of a block on the way cannot be read. Returns whether all is well.
/// Holds the blocks of the input in memory.
pub fn write_tree<R: BufRead, W: Write, V: Write>(
    alloc: Global,
    root: &Cid,
    input: &mut R,
    output: &mut W,
    errors: &mut V,
) -> Result<bool, ToolError>
    ensures { IfSome (R.remaining input.old) (λ b.
        SaysBoth (IsTreeOfFile root.now b) (W.contents output.old) (V.contents errors.old) result
        (W.contents output.new) (V.contents errors.new)) }
{
    match held_of(alloc, Kept::Verified, input) {
        Ok(Ok(held)) => say_tree(alloc, root, &held.blocks, output, errors),
        Ok(Err(line)) => say_both((Vec::new(alloc), false), &line, output, errors),
        Err(fault) => Err(fault),
    }
}
