//! `list`: each name, and the length of the block under it.

ghost use Rattle.std.specs.Prelude.{IfOk, IfErr};
ghost use Rattle.sqlite_trees.specs.View.{IsClean};
ghost use Rattle.store_on_disk.specs.Stored.{JustReads, ListsName};
ghost use Rattle.program_dagstore.specs.Said.{StoreFails};
ghost use Rattle.program_dagstore.specs.Names.{IsListedLine, SaysNames, SaysNext};

use crate::fault::Fault;
use crate::line::damaged_said;
use ipld_tree::Cid;
use program_parts::{Said, listed_line, say};
use program_shared::ToolError;
use std::alloc::Global;
use std::io::Write;
use store_on_disk::{BlockStore, Store, StoreRefusal};

/// Returns the line of the name, under which something is listed, and whether all is well with it.
fn listed_said<S: Store>(
    alloc: Global,
    store: &mut BlockStore<S>,
    name: &Cid,
) -> Result<Said, Fault>
    ensures said { IfOk result
        (λ p. (IsClean (S.Store.view store.new) → ListsName (S.Store.view store.old) name.now)
        → IsListedLine (S.Store.view store.old) (S.Store.view store.new) name.now p.1 p.0.items) }
    ensures fault { IfErr result (StoreFails S.Store store.old store.new) }
    ensures reads { JustReads S.Store result store.old store.new }
{
    match store.get_block(name) {
        Ok(Some(block)) => {
            let line = listed_line(alloc, name, &block)?;
            Ok((line, true))
        }
        Ok(None) => Ok(damaged_said(alloc, name)?),
        Err(StoreRefusal::Damaged(_)) => Ok(damaged_said(alloc, name)?),
        Err(refusal) => Err(Fault::Store(refusal)),
    }
}

/// Writes the line of the first name after the last one. Returns the name, and whether all is well
/// with it.
fn list_next<S: Store, W: Write>(
    alloc: Global,
    store: &mut BlockStore<S>,
    last: Option<Cid>,
    output: &mut W,
) -> Result<Option<(Cid, bool)>, Fault>
    ensures says { SaysNext IsListedLine (S.Store.view store.old) last (W.contents output.old) result
        (S.Store.view store.new) (W.contents output.new) }
    ensures fault { IfErr result (StoreFails S.Store store.old store.new) }
    ensures reads { JustReads S.Store result store.old store.new }
{
    let Some(name) = store.next_name(last)? else {
        return Ok(None);
    };
    let said = listed_said(alloc, store, &name)?;
    let well = say(said, output)?;
    Ok(Some((name, well)))
}

/// Writes a line for each listed name. Returns whether no block is damaged.
pub fn list_blocks<S: Store, W: Write>(
    alloc: Global,
    store: &mut BlockStore<S>,
    output: &mut W,
) -> Result<bool, Fault>
    ensures says { SaysNames IsListedLine (S.Store.view store.old) (W.contents output.old) result
        (S.Store.view store.new) (W.contents output.new) }
    ensures fault { IfErr result (StoreFails S.Store store.old store.new) }
    ensures reads { JustReads S.Store result store.old store.new }
{
    let mut well = true;
    let mut last = None;
    for _count in 0..u64::MAX {
        match list_next(alloc, store, last, output)? {
            Some(next) => {
                last = Some(next.0);
                well &= next.1;
            }
            None => return Ok(well),
        }
    }
    Err(Fault::Tool(ToolError::OutOfMemory))
}
