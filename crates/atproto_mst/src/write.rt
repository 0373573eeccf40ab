//! Building the tree of a list of entries.

ghost use Rattle.std.specs.Prelude.{◌≡◌, ◌⊎◌, ⊤, IfOk, OnOk, IfErr};
ghost use Rattle.atproto_mst.specs.Keys.{AreMstEntries};
ghost use Rattle.atproto_mst.specs.Trees.{root_of, nodes_of};
ghost use Rattle.atproto_mst.specs.Entries.{entries, EntriesRefused};
ghost use Rattle.atproto_mst.specs.Sinks.{HandsOver, HandsOverFirst, RefusesOne};

use crate::build::name_node;
use crate::entries::{MstEntry, check_entries, place, top_of};
use crate::error::MstError;
use crate::sink::NodeSink;
use ipld_tree::Cid;
use std::alloc::Global;

/// Hands over the nodes of the tree of these entries, each once and after those below it, and
/// returns the CID of the root, which comes last. If the entries are refused, no node is handed
/// over. If memory runs out or the sink refuses a node, only a first part of the nodes was handed
/// over.
pub fn write_mst<S: NodeSink>(
    alloc: Global,
    all: &[MstEntry],
    sink: &mut S,
) -> Result<Cid, MstError>
    ensures root { IfOk result
        (λ root. root ≡ root_of (entries all.now)) }
    ensures valid { OnOk result (AreMstEntries (entries all.now)) }
    ensures taken { OnOk result (HandsOver S.holds sink.old
        (nodes_of (entries all.now)) sink.new) }
    ensures refused { IfErr result
        (λ e. (EntriesRefused e (entries all.now) × (sink.new ≡ sink.old))
        ⊎ (AreMstEntries (entries all.now) × RefusesOne S.holds S.refuses sink.old
        (nodes_of (entries all.now)) e)) }
    ensures begun { IfErr result (λ _. HandsOverFirst S.holds sink.old
        (nodes_of (entries all.now)) sink.new) }
{
    check_entries(all)?;
    let leaves = place(alloc, all)?;
    name_node(alloc, &leaves, top_of(&leaves), sink)
}

/// A sink that keeps no node.
#[derive(Drop)]
struct Forgotten;

impl NodeSink for Forgotten {
    ghost World = { Unit {0} };

    ghost holds = { λ s world nodes. ⊤ };

    ghost refuses = { λ world node e. ⊥ };

    fn take(&mut self, _name: Cid, _block: Vec<u8>) -> Result<(), MstError> {
        Ok(())
    }
}

/// Returns the root CID of the tree of these entries.
pub fn mst_root(alloc: Global, all: &[MstEntry]) -> Result<Cid, MstError>
    ensures root { IfOk result
        (λ root. root ≡ root_of (entries all.now)) }
    ensures valid { OnOk result (AreMstEntries (entries all.now)) }
    ensures refused { IfErr result (λ e. EntriesRefused e (entries all.now)) }
{
    write_mst(alloc, all, &mut Forgotten)
}
