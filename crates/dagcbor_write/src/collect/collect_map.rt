//! The collector of a map.

ghost use Rattle.std.specs.Prelude.{◌≡◌, List, Option, Some, None, IfOk, IfErr, OnErr, OnOk};
ghost use Rattle.std.specs.Prelude.{IfSome, IsSome, IsTrue, is_some, length};
ghost use Rattle.std.specs.Borrow.{sem};
ghost use Rattle.std.specs.Fmt.{◌++?◌};
ghost use Rattle.dagcbor_heads.specs.Written.{Writes, WroteAll, WantsMemoryOnlyIf};
ghost use Rattle.ipld_tree.specs.Tree.{text, IsTree, entries_tree};
ghost use Rattle.ipld_tree.specs.Spelled.{spelled_head};
ghost use Rattle.dagcbor_write.specs.Answers.{OnMessage};
ghost use Rattle.dagcbor_write.specs.Gathering.{Collects};
ghost use Rattle.dagcbor_write.specs.Trees.{Pair, variant_head};
ghost use Rattle.dagcbor_write.specs.Maps.{no_entry_yet, is_complete, HoldsKey, JoinsValue};
ghost use Rattle.dagcbor_write.specs.Maps.{TakesEntry, IsKeyMessage, IsValueMessage, IsEntryMessage};
ghost use Rattle.dagcbor_write.specs.Maps.{AreSpellingsOf, RefusesKeys, map_rest};
ghost use Rattle.dagcbor_write.specs.Order.{head_rest, entries_bytes};
ghost use Rattle.dagcbor_write.specs.Lending.{map_lent, map_state, SameLoan, WritesNothing};
ghost use Rattle.dagcbor_write.specs.Lending.{BeginsOrStops};

use crate::collect::gathered::Gathered;
use crate::serialize::Serialize;
use crate::serializer::Serializer;
use dagcbor_core::EncodeError;
use dagcbor_heads::{Write, WriteResult};
use std::alloc::Global;

/// The message for a map with two equal keys.
pub(crate) const REPEATED_KEY: &str = "Map keys must be unique";

/// The collector of a map. It writes the entries at the map's end, in key order.
pub struct CollectMap<'a, W, G = Gathered> {
    ser: &'a mut Serializer<W>,
    alloc: Global,
    state: G,
}

impl<W, G: Drop> Drop for CollectMap<'_, W, G> {
    fn drop(self)
        ensures { self.exit.0.now ≡ (map_lent self.entry).now }
    {
        let Self {
            ser: _,
            alloc: _,
            state: _,
        } = self;
    }
}

impl<W: Write> Serializer<W> {
    /// Begins a map. Nothing is written before its end. The length is ignored.
    pub fn serialize_map(&mut self, alloc: Global, _len: Option<usize>) -> CollectMap<'_, W>
        ensures same_reference { SameLoan self.entry (map_lent result) }
        ensures unchanged { (map_lent result).now ≡ self.old }
        ensures nothing { map_state result ≡ no_entry_yet None }
    {
        CollectMap {
            ser: self,
            alloc,
            state: Gathered::new(alloc, None),
        }
    }

    /// Begins a struct of `len` fields, as a map, and writes its head at once.
    pub fn serialize_struct(
        &mut self,
        alloc: Global,
        _name: &'static str,
        len: usize,
    ) -> WriteResult<CollectMap<'_, W>, W>
        ensures* refused { sem 𝓛 (BeginsOrStops W.row W.written map_lent self.entry
            (spelled_head 5 len) result) }
        ensures same_reference { IfOk result (λ c. SameLoan self.entry (map_lent c)) }
        ensures head { IfOk result (λ c. WroteAll (spelled_head 5 len)
            (W.written self.old) (W.written (map_lent c).now)) }
        ensures nothing { IfOk result (λ c. map_state c ≡ no_entry_yet (Some len)) }
        ensures memory { WantsMemoryOnlyIf W.takes_memory result }
    {
        self.push_head(5, len)?;
        Ok(CollectMap {
            ser: self,
            alloc,
            state: Gathered::new(alloc, Some(len)),
        })
    }

    /// Begins a variant of `len` fields: a map of one entry, whose key is the variant's name and
    /// whose value is the map of the fields.
    pub fn serialize_struct_variant(
        &mut self,
        alloc: Global,
        _name: &'static str,
        _index: u32,
        variant: &'static str,
        len: usize,
    ) -> WriteResult<CollectMap<'_, W>, W>
        ensures* refused { sem 𝓛 (BeginsOrStops W.row W.written map_lent self.entry
            (variant_head variant.now ++? spelled_head 5 len) result) }
        ensures same_reference { IfOk result (λ c. SameLoan self.entry (map_lent c)) }
        ensures head { IfOk result (λ c. WroteAll (variant_head variant.now ++? spelled_head 5 len)
            (W.written self.old) (W.written (map_lent c).now)) }
        ensures nothing { IfOk result (λ c. map_state c ≡ no_entry_yet (Some len)) }
        ensures good_name { OnOk result (IsTree (text variant.now)) }
        ensures memory { WantsMemoryOnlyIf W.takes_memory result }
    {
        self.push_variant_of(variant, 5, len)?;
        Ok(CollectMap {
            ser: self,
            alloc,
            state: Gathered::new(alloc, Some(len)),
        })
    }

    /// Writes the entries in key order, after the map's head if that was not written yet.
    fn push_map(&mut self, mut state: Gathered) -> WriteResult<(), W>
        ensures written { (given : List Pair) → AreSpellingsOf given state.entries
            → Writes (map_rest (is_some state.announced) given)
            (W.written self.old) (W.written self.new) result }
        ensures well_formed { (given : List Pair) → AreSpellingsOf given state.entries
            → OnOk result (IfSome (entries_tree given) IsTree) }
        ensures message { (given : List Pair) → AreSpellingsOf given state.entries
            → IfErr result (OnMessage (λ m. RefusesKeys given m × (self.new ≡ self.old))) }
        ensures memory { WantsMemoryOnlyIf W.takes_memory result }
    {
        if state.put_in_order() {
            self.push_entries(&state)
        } else {
            Err(EncodeError::custom(REPEATED_KEY))
        }
    }

    /// Writes the head of a map, if it was not written yet.
    fn push_head_if_due(&mut self, announced: Option<usize>, count: usize) -> WriteResult<(), W>
        ensures written { Writes (head_rest (is_some announced) count)
            (W.written self.old) (W.written self.new) result }
        ensures memory { WantsMemoryOnlyIf W.takes_memory result }
    {
        match announced {
            Some(_) => Ok(()),
            None => self.push_head(5, count),
        }
    }

    /// Writes the entries in their present order, after the map's head if that was not written yet.
    fn push_entries(&mut self, state: &Gathered) -> WriteResult<(), W>
        ensures written { Writes
            (head_rest (is_some state.now.announced) (length state.now.entries)
            ++? Some (entries_bytes state.now.entries))
            (W.written self.old) (W.written self.new) result }
        ensures memory { WantsMemoryOnlyIf W.takes_memory result }
    {
        self.push_head_if_due(state.announced(), state.len())?;
        for i in 0..state.len() {
            self.push(state.entry(i))?;
        }
        Ok(())
    }
}

impl<W: Write> CollectMap<'_, W> {
    /// Returns whether a key waits for its value.
    pub fn has_key(&self) -> bool
        ensures { result ≡ is_some (map_state self.now).key }
    {
        self.state.has_key()
    }

    /// Returns whether no key waits for its value, and there are as many entries as were announced.
    pub fn is_complete(&self) -> bool
        ensures { result ≡ is_complete (map_state self.now) }
    {
        self.state.is_complete()
    }

    /// Takes a key, whose value comes next. It is refused with
    /// `Msg("Map key cannot be serialized.")` if it has no spelling, and with
    /// `Msg("Map keys must be strings")` if it is not a text.
    pub fn serialize_key<K: Serialize>(&mut self, key: &K) -> WriteResult<(), W>
        requires { (map_state self.old).key ≡ None }
        ensures nothing_written { WritesNothing self.old self.new }
        ensures entries { (map_state self.new).entries ≡ (map_state self.old).entries }
        ensures key { Collects (λ u. HoldsKey (K.tree key.now) (map_state self.new).key)
            (IsKeyMessage (K.tree key.now)) result }
        ensures no_key { OnErr result ((map_state self.new).key ≡ None) }
    {
        self.state.take_key(self.alloc, key)
    }

    /// Takes the value of the last key. It is refused with
    /// `Msg("Struct value cannot be serialized.")` if it has no spelling.
    pub fn serialize_value<V: Serialize>(&mut self, value: &V) -> WriteResult<(), W>
        requires { IsSome (map_state self.old).key }
        ensures nothing_written { WritesNothing self.old self.new }
        ensures key { (map_state self.new).key ≡ None }
        ensures entry { Collects
            (λ u. JoinsValue (map_state self.old).key (V.tree value.now)
            (map_state self.old).entries (map_state self.new).entries)
            (IsValueMessage (V.tree value.now)) result }
        ensures kept { OnErr result ((map_state self.new).entries ≡ (map_state self.old).entries) }
    {
        self.state.take_value(self.alloc, value)
    }

    /// Takes a key and its value.
    pub fn serialize_entry<K: Serialize, V: Serialize>(
        &mut self,
        key: &K,
        value: &V,
    ) -> WriteResult<(), W>
        requires { (map_state self.old).key ≡ None }
        ensures nothing_written { WritesNothing self.old self.new }
        ensures entry { TakesEntry (K.tree key.now) (V.tree value.now)
            (IsEntryMessage (K.tree key.now) (V.tree value.now))
            (map_state self.old) (map_state self.new) result }
    {
        self.serialize_key(key)?;
        self.serialize_value(value)
    }

    /// Takes a field of a struct. Its name is a text, so only its value can be without a spelling.
    pub fn serialize_field<V: Serialize>(
        &mut self,
        name: &'static str,
        value: &V,
    ) -> WriteResult<(), W>
        requires { (map_state self.old).key ≡ None }
        ensures nothing_written { WritesNothing self.old self.new }
        ensures entry { TakesEntry (Some (text name.now)) (V.tree value.now)
            (IsValueMessage (V.tree value.now)) (map_state self.old) (map_state self.new) result }
    {
        self.serialize_entry(&name, value)
    }

    /// Ends the map, and writes its entries in key order. Two equal keys are refused with
    /// `Msg("Map keys must be unique")` before anything is written.
    pub fn end(self) -> WriteResult<(), W>
        requires { IsTrue (is_complete (map_state self)) }
        ensures written { (given : List Pair) → AreSpellingsOf given (map_state self.entry).entries
            → Writes (map_rest (is_some (map_state self.entry).announced) given)
            (W.written (map_lent self.entry).now) (W.written self.exit.0.now) result }
        ensures well_formed { (given : List Pair)
            → AreSpellingsOf given (map_state self.entry).entries
            → OnOk result (IfSome (entries_tree given) IsTree) }
        ensures message { (given : List Pair) → AreSpellingsOf given (map_state self.entry).entries
            → IfErr result (OnMessage (λ m. RefusesKeys given m
            × (self.exit.0.now ≡ (map_lent self.entry).now))) }
        ensures memory { WantsMemoryOnlyIf W.takes_memory result }
    {
        let Self {
            ser,
            alloc: _,
            state,
        } = self;
        ser.push_map(state)
    }
}
