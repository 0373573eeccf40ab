//! The entries of a map in memory: its keys, spelled in one buffer, each with its value.

ghost use Rattle.std.specs.Prelude.{◌≡◌, ◌<◌, ◌++◌, List, [], length, map, IfOk, OnOk, IfErr};
ghost use Rattle.std.specs.Prelude.{slice_index_or, codes, ℕ, Option};
ghost use Rattle.std.specs.Prelude.{None, Bool, Err, IfSome, ◌||◌};
ghost use Rattle.std.specs.Fmt.{◌++?◌};
ghost use Rattle.dagcbor_heads.specs.Written.{Written, Writes, Stops, WantsMemoryOnlyIf};
ghost use Rattle.ipld_tree.specs.Tree.{IsTree};
ghost use Rattle.ipld_tree.specs.Spelled.{spelled_head, spelled_tree};
ghost use Rattle.dagcbor_write.specs.Answers.{IsMessage, OnMessage};
ghost use Rattle.dagcbor_write.specs.Each.{AreTrees};
ghost use Rattle.dagcbor_write.specs.Gathering.{Grows, Refused, RefusedFor, Collects};
ghost use Rattle.dagcbor_write.specs.Keyed.{JoinsKeyed, PutsKeysInOrder, spelled_keyed, value_trees};
ghost use Rattle.dagcbor_write.specs.Keyed.{RefusesKeyedValue};
ghost use Rattle.dagcbor_write.specs.Maps.{IsKeyMessage};
ghost use Rattle.dagcbor_write.specs.Order.{KeysDiffer};

use crate::collect::buffer::FIRST_ROOM;
use crate::collect::gathered::{BAD_KEY, BAD_VALUE, NO_TEXT, begins_text, range};
use crate::serialize::Serialize;
use crate::serializer::Serializer;
use dagcbor_core::EncodeError;
use dagcbor_heads::{BufWriter, Write, WriteResult};
use std::alloc::{AllocError, Global};
use std::convert::Infallible;
use std::marker::Model;

/// A key, which is in the buffer from `start` to `end`, and its value.
#[derive_where(Clone, Copy)]
pub(crate) struct KeySpan<'a, V> {
    start: usize,
    end: usize,
    value: &'a V,
}

/// Entries of a map. The keys are spelled in the buffer, and the values stay in the map.
#[derive(Drop)]
pub(crate) struct Keyed<'a, V> {
    keys: Serializer<BufWriter>,
    spans: Vec<KeySpan<'a, V>>,
}

impl<'a, V> Model for Keyed<'a, V> {
    ghost use Rattle.std.specs.Prelude.{ℕ, List, length, map};
    ghost use Rattle.std.specs.List.{All};
    ghost use Rattle.dagcbor_write.specs.Spans.{keyed_at, EndsWithin};

    ghost Value = { List (List ℕ × V) };

    ghost view = { λ k. map (keyed_at k.keys) k.spans.items };

    ghost invariant = { λ k. All (EndsWithin (length k.keys)) k.spans.items };
}

impl<'a, V> Keyed<'a, V> {
    /// Returns an empty list of entries, with room for `count`.
    pub(crate) fn with_room(alloc: Global, count: usize) -> Result<Keyed<'a, V>, AllocError>
        ensures { IfOk result (λ k. k ≡ []) }
    {
        let mut bytes = Vec::new(alloc);
        let mut spans = Vec::new(alloc);
        if count > 0 {
            bytes.reserve(FIRST_ROOM)?;
            spans.reserve(count)?;
        }
        Ok(Keyed {
            keys: Serializer::new(BufWriter::new(bytes)),
            spans,
        })
    }

    fn len(&self) -> usize
        ensures { result ≡ length self.now }
    {
        self.spans.len()
    }

    /// Returns the spelled key of entry `i`.
    fn key(&self, i: usize) -> &[u8]
        requires { i < length self.now }
        ensures { (d : List ℕ × V) → result.now ≡ (slice_index_or self.now i d).0 }
    {
        let span = &self.spans[i];
        &self.keys.writer().buffer()[span.start..span.end]
    }

    /// Returns the value of entry `i`.
    fn value(&self, i: usize) -> &V
        requires { i < length self.now }
        ensures { (d : List ℕ × V) → result.now ≡ (slice_index_or self.now i d).1 }
    {
        self.spans[i].value
    }

    /// Takes a key, and its value.
    pub(crate) fn take<K: Serialize, E>(
        &mut self,
        alloc: Global,
        key: &K,
        value: &'a V,
    ) -> Result<(), EncodeError<E>>
        ensures { Collects (λ u. JoinsKeyed (K.tree key.now) value.now self.old self.new)
            (IsKeyMessage (K.tree key.now)) result }
    {
        let start = self.keys.writer().buffer().len();
        spell_key(alloc, &mut self.keys, key)?;
        let bytes = self.keys.writer().buffer();
        let end = bytes.len();
        if !begins_text(&bytes[start..]) {
            return Err(EncodeError::custom(NO_TEXT));
        }
        match self.spans.push(KeySpan { start, end, value }) {
            Ok(()) => {}
            Err(_) => return Err(EncodeError::OutOfMemory),
        }
        Ok(())
    }

    /// Sorts the entries by the bytes of their keys, which is key order, and returns whether no key
    /// is repeated.
    pub(crate) fn put_in_order(&mut self) -> bool
        ensures { PutsKeysInOrder self.old self.new result }
    {
        let bytes = self.keys.writer().buffer();
        self.spans.sort_unstable_by(|a, b| {
            range(bytes, a.start, a.end).cmp(range(bytes, b.start, b.end))
        });
        self.keys_differ()
    }

    /// Returns whether no entry has the key of the previous one.
    fn keys_differ(&self) -> bool
        ensures { KeysDiffer self.now result }
    {
        for i in 1..self.len() {
            if self.key(i - 1) == self.key(i) {
                return false;
            }
        }
        true
    }
}

impl<V: Serialize> Keyed<'_, V> {
    /// Writes the head of the map, and the entries in their present order.
    #[tactic(auto, using(crate::proofs::Messages::none_as))]
    pub(crate) fn write<W: Write>(
        &self,
        alloc: Global,
        ser: &mut Serializer<W>,
    ) -> WriteResult<(), W>
        ensures written { Writes
            (spelled_head 5 (length self.now) ++? spelled_keyed V.tree self.now)
            (W.written ser.old) (W.written ser.new) result }
        ensures well_formed { OnOk result (AreTrees (value_trees V.tree self.now)) }
        ensures message { IfErr result (OnMessage (RefusesKeyedValue V.tree self.now)) }
        ensures memory { WantsMemoryOnlyIf (V.takes_memory || W.takes_memory) result }
    {
        ser.push_head(5, self.len())?;
        for i in 0..self.len() {
            let value = self.value(i);
            ser.push(self.key(i))?;
            write_value(alloc, value, ser)?;
        }
        Ok(())
    }
}

/// Appends a key's spelling to the others. A key without a spelling is refused.
fn spell_key<K: Serialize, E>(
    alloc: Global,
    keys: &mut Serializer<BufWriter>,
    key: &K,
) -> Result<(), EncodeError<E>>
    ensures taken { Collects (λ u. Grows (K.tree key.now) keys.old keys.new)
        (RefusedFor (codes "Map key cannot be serialized.") (K.tree key.now)) result }
    ensures grown { (more : List ℕ) × (keys.new ≡ keys.old ++ more) }
{
    match key.serialize(alloc, keys) {
        Ok(()) => Ok(()),
        Err(error) => Err(refused_key(error)),
    }
}

/// Returns the refusal of a map whose key was refused with this error.
#[cold]
#[inline(never)]
fn refused_key<E>(error: EncodeError<Infallible>) -> EncodeError<E>
    ensures { (text : Option (List ℕ)) (old new : Written) → Stops text old new error
        → Refused (λ m. (m ≡ codes "Map key cannot be serialized.") × (text ≡ None)) result }
{
    match error {
        EncodeError::Msg(_) => EncodeError::custom(BAD_KEY),
        EncodeError::OutOfMemory => EncodeError::OutOfMemory,
        EncodeError::Write(never) => match never {},
    }
}

/// Appends a value of a map. A value without a spelling is refused with one message, whatever the
/// reason.
#[inline(always)]
pub(crate) fn write_value<V: Serialize, W: Write>(
    alloc: Global,
    value: &V,
    ser: &mut Serializer<W>,
) -> WriteResult<(), W>
    ensures written { Writes (spelled_tree (V.tree value.now))
        (W.written ser.old) (W.written ser.new) result }
    ensures well_formed { OnOk result (IfSome (V.tree value.now) IsTree) }
    ensures memory { WantsMemoryOnlyIf (V.takes_memory || W.takes_memory) result }
    ensures message { IfErr result (IsMessage (codes "Struct value cannot be serialized.")) }
{
    match value.serialize(alloc, ser) {
        Ok(()) => Ok(()),
        Err(error) => Err(refused_value(error)),
    }
}

/// Returns the refusal of a map whose value was refused with this error.
#[cold]
#[inline(never)]
fn refused_value<E>(error: EncodeError<E>) -> EncodeError<E>
    ensures stops { (text : Option (List ℕ)) (old new : Written) → Stops text old new error
        → Stops text old new result }
    ensures memory { (may : Bool) → WantsMemoryOnlyIf {T = Unit {0}} may (Err error)
        → WantsMemoryOnlyIf {T = Unit {0}} may (Err result) }
    ensures message { IsMessage (codes "Struct value cannot be serialized.") result }
{
    match error {
        EncodeError::Msg(_) => EncodeError::custom(BAD_VALUE),
        EncodeError::OutOfMemory => EncodeError::OutOfMemory,
        EncodeError::Write(fault) => EncodeError::Write(fault),
    }
}
