//! Maps, sorted and hashed.

ghost use Rattle.std.specs.Prelude.{◌≡◌, List, OnOk, IfSome, IfErr, map, true, ◌||◌};
ghost use Rattle.std.specs.Iterator.{IsFinite};
ghost use Rattle.dagcbor_heads.specs.Written.{Writes, WantsMemoryOnlyIf};
ghost use Rattle.ipld_tree.specs.Tree.{IsTree, entries_tree};
ghost use Rattle.ipld_tree.specs.Spelled.{spelled_tree};
ghost use Rattle.dagcbor_write.specs.Trees.{Pair};
ghost use Rattle.dagcbor_write.specs.Maps.{ShowsPairs, RefusesMap, RefusesEntries};
ghost use Rattle.dagcbor_write.specs.Answers.{OnMessage, LacksBefore};

use crate::collect::collect_map::REPEATED_KEY;
use crate::collect::keyed::Keyed;
use crate::serialize::Serialize;
use crate::serializer::Serializer;
use dagcbor_core::EncodeError;
use dagcbor_heads::{Write, WriteResult};
use std::alloc::Global;
use std::collections::{BTreeMap, HashMap};
use std::hash::Hash;

/// Appends the map of the entries that an iterator has left, in key order. `count` is their number,
/// for speed only. Nothing is written before each key is spelled. Then each value goes straight to
/// the writer.
fn write_entries<
    'a,
    K: Serialize + 'a,
    V: Serialize + 'a,
    I: Iterator<Item = (&'a K, &'a V)> + Drop,
    W: Write,
>(alloc: Global, count: usize, entries: I, ser: &mut Serializer<W>) -> WriteResult<(), W>
    requires can { I.can_next entries }
    requires ends { IsFinite (I.remaining entries) }
    ensures written { (rest : I → List Pair)
        → ShowsPairs I.next_gives (λ e. (K.tree e.0.now, V.tree e.1.now)) rest
        → Writes (spelled_tree (entries_tree (rest entries)))
        (W.written ser.old) (W.written ser.new) result }
    ensures well_formed { (rest : I → List Pair)
        → ShowsPairs I.next_gives (λ e. (K.tree e.0.now, V.tree e.1.now)) rest
        → OnOk result (IfSome (entries_tree (rest entries)) IsTree) }
    ensures message { (rest : I → List Pair)
        → ShowsPairs I.next_gives (λ e. (K.tree e.0.now, V.tree e.1.now)) rest
        → IfErr result (OnMessage (RefusesMap ser.old ser.new (rest entries))) }
    ensures memory { LacksBefore (V.takes_memory || W.takes_memory) (ser.new ≡ ser.old) result }
{
    let Ok(mut keyed) = Keyed::with_room(alloc, count) else {
        return Err(EncodeError::OutOfMemory);
    };
    for (key, value) in entries {
        keyed.take(alloc, key, value)?;
    }
    if !keyed.put_in_order() {
        return Err(EncodeError::custom(REPEATED_KEY));
    }
    keyed.write(alloc, ser)
}

impl<K: Ord + Serialize, V: Serialize> Serialize for BTreeMap<K, V> {
    ghost tree = { λ m. entries_tree (map (λ e. (K.tree e.0, V.tree e.1)) m.entries) };

    ghost takes_memory = { true };

    ghost message = { λ m. RefusesEntries (map (λ e. (K.tree e.0, V.tree e.1)) m.entries) };

    /// Appends the map. Its message is that of the part without a spelling: a key, a repeated key,
    /// or a value. If it is that of a key, nothing was written. If memory runs out, nothing was
    /// written either, unless the values or the writer take memory.
    fn serialize<W: Write>(&self, alloc: Global, ser: &mut Serializer<W>) -> WriteResult<(), W>
        ensures written { Writes (spelled_tree (entries_tree
            (map (λ e. (K.tree e.0, V.tree e.1)) self.now.entries)))
            (W.written ser.old) (W.written ser.new) result }
        ensures well_formed { OnOk result (IfSome (entries_tree
            (map (λ e. (K.tree e.0, V.tree e.1)) self.now.entries)) IsTree) }
        ensures memory { WantsMemoryOnlyIf (true || W.takes_memory) result }
        ensures lacks { LacksBefore (V.takes_memory || W.takes_memory) (ser.new ≡ ser.old) result }
        ensures message { IfErr result (OnMessage (RefusesMap ser.old ser.new
            (map (λ e. (K.tree e.0, V.tree e.1)) self.now.entries))) }
        ensures told { IfErr result (OnMessage (RefusesEntries
            (map (λ e. (K.tree e.0, V.tree e.1)) self.now.entries))) }
    {
        write_entries(alloc, self.len(), self.iter(), ser)
    }
}

impl<K: Eq + Hash + Serialize, V: Serialize> Serialize for HashMap<K, V> {
    ghost tree = { λ m. entries_tree (map (λ e. (K.tree e.0, V.tree e.1)) m.entries) };

    ghost takes_memory = { true };

    ghost message = { λ m. RefusesEntries (map (λ e. (K.tree e.0, V.tree e.1)) m.entries) };

    /// Appends the map. Its message is that of the part without a spelling: a key, a repeated key,
    /// or a value. If it is that of a key, nothing was written. If memory runs out, nothing was
    /// written either, unless the values or the writer take memory.
    fn serialize<W: Write>(&self, alloc: Global, ser: &mut Serializer<W>) -> WriteResult<(), W>
        ensures written { Writes (spelled_tree (entries_tree
            (map (λ e. (K.tree e.0, V.tree e.1)) self.now.entries)))
            (W.written ser.old) (W.written ser.new) result }
        ensures well_formed { OnOk result (IfSome (entries_tree
            (map (λ e. (K.tree e.0, V.tree e.1)) self.now.entries)) IsTree) }
        ensures memory { WantsMemoryOnlyIf (true || W.takes_memory) result }
        ensures lacks { LacksBefore (V.takes_memory || W.takes_memory) (ser.new ≡ ser.old) result }
        ensures message { IfErr result (OnMessage (RefusesMap ser.old ser.new
            (map (λ e. (K.tree e.0, V.tree e.1)) self.now.entries))) }
        ensures told { IfErr result (OnMessage (RefusesEntries
            (map (λ e. (K.tree e.0, V.tree e.1)) self.now.entries))) }
    {
        write_entries(alloc, self.len(), self.iter(), ser)
    }
}
