//! The nodes of a tree that are not stored yet.

ghost use Rattle.std.specs.Prelude.{◌≡◌, ◌⊎◌, List, ◌++◌, None, IfOk, OnOk, IfErr};
ghost use Rattle.files_car.specs.Car.{Section};
ghost use Rattle.ipld_links.specs.Reaching.{stored_in, Stored};
ghost use Rattle.atproto_mst.specs.Keys.{AreMstEntries};
ghost use Rattle.atproto_mst.specs.Trees.{root_of, nodes_of};
ghost use Rattle.atproto_mst.specs.Entries.{entries, EntriesRefused};
ghost use Rattle.atproto_mst.specs.Sinks.{HandsOver, HandsOverFirst, RefusesOne, not_stored};

use crate::entries::MstEntry;
use crate::error::MstError;
use crate::sink::NodeSink;
use crate::write::write_mst;
use ipld_links::stored_bytes;
use ipld_tree::Cid;
use std::alloc::Global;
use std::collections::BTreeMap;

/// A sink that passes on only the nodes that are not stored.
#[derive(Drop)]
struct Unstored<'a, S> {
    blocks: &'a BTreeMap<Cid, Vec<u8>>,
    sink: S,
}

impl<S: NodeSink> NodeSink for Unstored<'_, S> {
    ghost World = { Stored × (S.World × List Section) };

    ghost holds = { λ s world nodes. (world.0 ≡ stored_in s.blocks.now)
        × S.holds s.sink world.1.0 (world.1.1 ++ not_stored world.0 nodes) };

    ghost refuses = { λ world node e. (world.0 node.0 ≡ None) × S.refuses world.1.0 node e };

    fn take(&mut self, name: Cid, block: Vec<u8>) -> Result<(), MstError> {
        match stored_bytes(self.blocks, &name) {
            Some(_) => Ok(()),
            None => self.sink.take(name, block),
        }
    }
}

/// Does what `write_mst` does, but hands over only the nodes that are not stored yet: after a
/// change of entries, the new ones. Returns the sink too.
pub fn write_changes<S: NodeSink>(
    alloc: Global,
    blocks: &BTreeMap<Cid, Vec<u8>>,
    all: &[MstEntry],
    sink: S,
) -> (S, Result<Cid, MstError>)
    ensures root { IfOk result.1
        (λ root. root ≡ root_of (entries all.now)) }
    ensures valid { OnOk result.1 (AreMstEntries (entries all.now)) }
    ensures taken { OnOk result.1 (HandsOver S.holds sink
        (not_stored (stored_in blocks.now) (nodes_of (entries all.now))) result.0) }
    ensures refused { IfErr result.1
        (λ e. (EntriesRefused e (entries all.now) × (result.0 ≡ sink))
        ⊎ (AreMstEntries (entries all.now) × RefusesOne S.holds S.refuses sink
        (not_stored (stored_in blocks.now) (nodes_of (entries all.now))) e)) }
    ensures begun { IfErr result.1 (λ _. HandsOverFirst S.holds sink
        (not_stored (stored_in blocks.now) (nodes_of (entries all.now))) result.0) }
{
    let mut unstored = Unstored { blocks, sink };
    let root = write_mst(alloc, all, &mut unstored);
    let Unstored { sink, .. } = unstored;
    (sink, root)
}
