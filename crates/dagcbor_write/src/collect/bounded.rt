//! The collector of a list whose number of items is known.

ghost use Rattle.std.specs.Prelude.{◌≡◌, ◌<◌, OnOk, IsOk, ◌||◌};
ghost use Rattle.std.specs.Borrow.{sem};
ghost use Rattle.std.specs.Fmt.{◌++?◌};
ghost use Rattle.ipld_tree.specs.Tree.{text, IsTree};
ghost use Rattle.ipld_tree.specs.Spelled.{spelled_head};
ghost use Rattle.dagcbor_write.specs.Trees.{variant_head};
ghost use Rattle.dagcbor_write.specs.Lending.{bounded_lent, bounded_left, BeginsOrStops};
ghost use Rattle.dagcbor_write.specs.Bounded.{BeginsList, WritesItem};

use crate::serialize::Serialize;
use crate::serializer::Serializer;
use dagcbor_heads::{Write, WriteResult};
use std::alloc::Global;

/// The collector of a list whose number of items was announced. It writes each item at once.
pub struct BoundedCollect<'a, W> {
    ser: &'a mut Serializer<W>,
    alloc: Global,
    left: usize,
}

impl<W> Drop for BoundedCollect<'_, W> {
    fn drop(self)
        ensures { self.exit.0.now ≡ (bounded_lent self.entry).now }
    {
        let Self {
            ser: _,
            alloc: _,
            left: _,
        } = self;
    }
}

impl<W: Write> Serializer<W> {
    /// Begins a list of `len` items, and writes its head at once.
    pub fn serialize_tuple(
        &mut self,
        alloc: Global,
        len: usize,
    ) -> WriteResult<BoundedCollect<'_, W>, W>
        ensures* refused { sem 𝓛 (BeginsOrStops W.row W.written bounded_lent self.entry
            (spelled_head 4 len) result) }
        ensures begins { BeginsList W.written W.takes_memory (spelled_head 4 len)
            len self.entry result }
    {
        self.push_head(4, len)?;
        Ok(BoundedCollect {
            ser: self,
            alloc,
            left: len,
        })
    }

    /// Begins a struct of `len` fields without names, as a list.
    pub fn serialize_tuple_struct(
        &mut self,
        alloc: Global,
        _name: &'static str,
        len: usize,
    ) -> WriteResult<BoundedCollect<'_, W>, W>
        ensures* refused { sem 𝓛 (BeginsOrStops W.row W.written bounded_lent self.entry
            (spelled_head 4 len) result) }
        ensures begins { BeginsList W.written W.takes_memory (spelled_head 4 len)
            len self.entry result }
    {
        self.serialize_tuple(alloc, len)
    }

    /// Begins a variant of `len` fields without names: a map of one entry, whose key is the
    /// variant's name and whose value is the list of the fields.
    pub fn serialize_tuple_variant(
        &mut self,
        alloc: Global,
        _name: &'static str,
        _index: u32,
        variant: &'static str,
        len: usize,
    ) -> WriteResult<BoundedCollect<'_, W>, W>
        ensures* refused { sem 𝓛 (BeginsOrStops W.row W.written bounded_lent self.entry
            (variant_head variant.now ++? spelled_head 4 len) result) }
        ensures begins { BeginsList W.written W.takes_memory
            (variant_head variant.now ++? spelled_head 4 len) len self.entry result }
        ensures good_name { OnOk result (IsTree (text variant.now)) }
    {
        self.push_variant_of(variant, 4, len)?;
        Ok(BoundedCollect {
            ser: self,
            alloc,
            left: len,
        })
    }
}

impl<W: Write> BoundedCollect<'_, W> {
    /// Returns how many of the announced items are still to come.
    pub fn left(&self) -> usize
        ensures { result ≡ bounded_left self.now }
    {
        self.left
    }

    /// Writes the next item.
    pub fn serialize_element<T: Serialize>(&mut self, value: &T) -> WriteResult<(), W>
        requires { 0 < bounded_left self.old }
        ensures { WritesItem W.written (T.takes_memory || W.takes_memory)
            (T.tree value.now) (T.message value.now) self.old self.new result }
    {
        self.left -= 1;
        value.serialize(self.alloc, self.ser)
    }

    /// Writes the next field, as `serialize_element`.
    pub fn serialize_field<T: Serialize>(&mut self, value: &T) -> WriteResult<(), W>
        requires { 0 < bounded_left self.old }
        ensures { WritesItem W.written (T.takes_memory || W.takes_memory)
            (T.tree value.now) (T.message value.now) self.old self.new result }
    {
        self.serialize_element(value)
    }

    /// Ends the list.
    pub fn end(self) -> WriteResult<(), W>
        requires { bounded_left self ≡ 0 }
        ensures ok { IsOk result }
        ensures unchanged { self.exit.0.now ≡ (bounded_lent self.entry).now }
    {
        let Self {
            ser: _,
            alloc: _,
            left: _,
        } = self;
        Ok(())
    }
}
