//! `at`: what a path leads to in a store.

ghost use Rattle.std.specs.Prelude.{◌≡◌, IfErr};
ghost use Rattle.ipld_paths.specs.Paths.{segments};
ghost use Rattle.store_on_disk.specs.Stored.{JustReads};
ghost use Rattle.program_dagstore.specs.Said.{SaysAll};
ghost use Rattle.program_dagstore.specs.Ways.{asked_of, IsAnswerIn, WayFails};

use crate::fault::Fault;
use crate::way::gather_way;
use ipld_tree::Cid;
use program_parts::{Asked, say_asked};
use std::alloc::Global;
use std::io::Write;
use store_on_disk::{BlockStore, Store};

/// Returns what is asked of a path: the bytes of the item, or its data.
fn asked_of(is_raw: bool) -> Asked
    ensures { result ≡ asked_of is_raw }
{
    if is_raw { Asked::Bytes } else { Asked::Data }
}

/// Writes what the path leads to from the root, as DAG-JSON or as its own bytes, or reports why it
/// leads to nothing. Returns whether it leads to something. The blocks on the way are in memory.
pub fn write_at<S: Store, W: Write, V: Write>(
    alloc: Global,
    store: &mut BlockStore<S>,
    is_raw: bool,
    root: &Cid,
    path: &str,
    output: &mut W,
    errors: &mut V,
) -> Result<bool, Fault>
    ensures says { SaysAll (IsAnswerIn is_raw root.now (segments path.now) (S.Store.view store.old)
        (S.Store.view store.new)) (W.contents output.old) (V.contents errors.old) result
        (W.contents output.new) (V.contents errors.new) }
    ensures fault { IfErr result (WayFails S.Store root.now (segments path.now) store.old store.new) }
    ensures reads { JustReads S.Store result store.old store.new }
{
    let held = gather_way(alloc, store, root, path)?;
    let well = say_asked(alloc, asked_of(is_raw), root, path, &held, output, errors)?;
    Ok(well)
}
