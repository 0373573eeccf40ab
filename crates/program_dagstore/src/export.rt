//! `export` and `tree`: CAR files.

ghost use Rattle.std.specs.Prelude.{◌≡◌, ◌↔◌, [], IsTrue, false, flat_map};
ghost use Rattle.dagcbor_items.specs.Walks.{forms};
ghost use Rattle.store_on_disk.specs.Ends.{Quiet};
ghost use Rattle.program_dagstore.specs.Files.{fault_of, Exports};
ghost use Rattle.program_dagstore.specs.Roots.{ExportsMeant};
ghost use Rattle.program_dagstore.specs.Trees.{SaysTree, TellsText};
ghost use Rattle.program_parts.specs.Lines.{missing_line};

use crate::block::NO_BLOCK;
use crate::fault::Fault;
use crate::roots::meant_roots;
use dagcbor_core::EncodeError;
use dagcbor_heads::IoRefWriter;
use ipld_tree::Cid;
use program_parts::missing_lines;
use program_shared::{ToolError, write_all};
use std::alloc::Global;
use std::io::Write;
use store_on_disk::{BlockStore, Store, WriteCarError, WriteTreeError};

/// Converts the error for a CAR file that is not written.
fn fault_of<E: Drop>(error: WriteCarError<E>) -> Fault
    ensures { result ≡ fault_of error }
{
    match error {
        WriteCarError::Write(error) => match error {
            EncodeError::Write(_) => Fault::Tool(ToolError::Output),
            _ => Fault::Tool(ToolError::OutOfMemory),
        },
        WriteCarError::Store(refusal) => Fault::Store(refusal),
    }
}

/// Writes the CAR file of these roots and of all blocks.
pub fn export_blocks<S: Store, W: Write>(
    store: &mut BlockStore<S>,
    roots: &[Cid],
    output: &mut W,
) -> Result<bool, Fault>
    ensures exports { Exports S.Store (forms roots.now) store.old (W.contents output.old) result store.new
        (W.contents output.new) }
    ensures quiet { Quiet S.Store store.old store.new }
{
    let mut writer = IoRefWriter::new(output);
    let written = store.write_car(roots, &mut writer);
    // No effect at run time. The proof reads what `output` holds from this use of it.
    let _ = &*writer.into_inner();
    match written {
        Ok(()) => Ok(true),
        Err(error) => Err(fault_of(error)),
    }
}

/// Writes the CAR file of all blocks, with the roots that are given or, if none is, those that are
/// stored.
pub fn export_meant<S: Store, W: Write>(
    store: &mut BlockStore<S>,
    given: Vec<Cid>,
    output: &mut W,
) -> Result<bool, Fault>
    ensures exports { ExportsMeant S.Store given.items store.old (W.contents output.old) result
        store.new (W.contents output.new) }
    ensures quiet { Quiet S.Store store.old store.new }
{
    match meant_roots(store, given) {
        Ok(roots) => export_blocks(store, &roots, output),
        Err(refusal) => Err(Fault::Store(refusal)),
    }
}

/// Writes the CAR file of the root and of the blocks that links lead to from there. Reports the
/// links that lead to no block, or that the root has no block. Returns whether all is well.
pub fn write_tree<S: Store, W: Write, V: Write>(
    alloc: Global,
    store: &mut BlockStore<S>,
    root: &Cid,
    output: &mut W,
    errors: &mut V,
) -> Result<bool, Fault>
    ensures says { SaysTree S.Store root.now store.old (W.contents output.old) (V.contents errors.old) result
        store.new (W.contents output.new) (V.contents errors.new) }
    ensures quiet { Quiet S.Store store.old store.new }
{
    let mut writer = IoRefWriter::new(output);
    let written = store.write_tree(root, &mut writer);
    // No effect at run time. The proof reads what `output` holds from this use of it.
    let _ = &*writer.into_inner();
    match written {
        Ok(lost) => tell_lost(alloc, &lost, errors),
        Err(error) => match error {
            WriteTreeError::NotStored => tell_wrong(NO_BLOCK, errors),
            WriteTreeError::Unwritten(error) => Err(fault_of(error)),
        },
    }
}

/// Reports which links lead to no block. Returns whether there are none.
#[tactic(auto, using(program_parts::proofs::Saying::told_empty))]
fn tell_lost<V: Write>(alloc: Global, lost: &[Cid], errors: &mut V) -> Result<bool, Fault>
    ensures { TellsText (flat_map missing_line lost.now) (λ well. IsTrue well ↔ (lost.now ≡ []))
        (V.contents errors.old) result (V.contents errors.new) }
{
    let told = missing_lines(alloc, lost)?;
    write_all(errors, &told)?;
    Ok(lost.is_empty())
}

/// Reports the line of what is wrong, and returns false.
pub fn tell_wrong<V: Write>(line: &[u8], errors: &mut V) -> Result<bool, Fault>
    ensures { TellsText line.now (λ well. well ≡ false) (V.contents errors.old) result
        (V.contents errors.new) }
{
    write_all(errors, line)?;
    Ok(false)
}
