//! `count`, `get` and `has`: a store as a whole, and one block in it.

ghost use Rattle.std.specs.Prelude.{◌≡◌, IfOk, IfErr};
ghost use Rattle.store_on_disk.specs.Ends.{Quiet};
ghost use Rattle.store_on_disk.specs.Stored.{JustReads};
ghost use Rattle.program_dagstore.specs.Blocks.{SaysCount, IsGotBlock, GetFails, Has};
ghost use Rattle.program_dagstore.specs.Lines.{holds_line};
ghost use Rattle.program_dagstore.specs.Said.{StoreFails, SaysAll};

use crate::fault::Fault;
use ipld_tree::Cid;
use program_parts::{line_of, say, say_both};
use std::alloc::{AllocError, Global};
use std::io::Write;
use store_on_disk::{BlockStore, Store};

/// The message if no block has the name.
pub const NO_BLOCK: &[u8] = b"dagstore: no block has the name\n";

/// Returns the line of how many names are listed.
fn holds_line(alloc: Global, count: u64) -> Result<Vec<u8>, AllocError>
    ensures { IfOk result (λ v. v.items ≡ holds_line count) }
{
    let count = format!(in alloc; "{count}")?;
    line_of(alloc, b"holds ", count.as_bytes(), b"")
}

/// Writes how many names are listed.
pub fn count_blocks<S: Store, W: Write>(
    alloc: Global,
    store: &mut BlockStore<S>,
    output: &mut W,
) -> Result<bool, Fault>
    ensures says { SaysCount (S.Store.view store.old) (W.contents output.old) result
        (S.Store.view store.new) (W.contents output.new) }
    ensures fault { IfErr result (StoreFails S.Store store.old store.new) }
    ensures reads { JustReads S.Store result store.old store.new }
{
    let count = store.len()?;
    let line = holds_line(alloc, count)?;
    let well = say((line, true), output)?;
    Ok(well)
}

/// Writes the block under the name, or reports that there is none. Returns whether there is one.
pub fn get_block<S: Store, W: Write, V: Write>(
    alloc: Global,
    store: &mut BlockStore<S>,
    name: &Cid,
    output: &mut W,
    errors: &mut V,
) -> Result<bool, Fault>
    ensures says { SaysAll (IsGotBlock name.now (S.Store.view store.old) (S.Store.view store.new))
        (W.contents output.old) (V.contents errors.old) result (W.contents output.new)
        (V.contents errors.new) }
    ensures fault { IfErr result (GetFails S.Store name.now store.old store.new) }
    ensures reads { JustReads S.Store result store.old store.new }
{
    match store.get_block(name) {
        Ok(Some(block)) => {
            let well = say_both((block, true), b"", output, errors)?;
            Ok(well)
        }
        Ok(None) => {
            let well = say_both((Vec::new(alloc), false), NO_BLOCK, output, errors)?;
            Ok(well)
        }
        Err(refusal) => Err(Fault::Store(refusal)),
    }
}

/// Returns whether something is listed under the name.
pub fn has_block<S: Store>(store: &mut BlockStore<S>, name: &Cid) -> Result<bool, Fault>
    ensures has { Has S.Store name.now store.old result store.new }
    ensures quiet { Quiet S.Store store.old store.new }
{
    match store.contains(name) {
        Ok(found) => Ok(found),
        Err(refusal) => Err(Fault::Store(refusal)),
    }
}
