//! What the collector of a map holds.

ghost use Rattle.std.specs.Prelude.{◌≡◌, ◌<◌, ◌≤◌, ◌++◌, is_some, Some, None, IsSome, IfSome};
ghost use Rattle.std.specs.Prelude.{OnErr, length, map, option_map, drop, slice_index_or};
ghost use Rattle.std.specs.List.{All, slice_range};
ghost use Rattle.dagcbor_write.specs.Gathering.{Collects};
ghost use Rattle.dagcbor_write.specs.Maps.{MapState, Texts, no_entry_yet, is_complete, begins_text};
ghost use Rattle.dagcbor_write.specs.Maps.{HoldsKey, JoinsValue, IsKeyMessage, IsValueMessage};
ghost use Rattle.dagcbor_write.specs.Order.{KeysDiffer, PutsInOrder};
ghost use Rattle.dagcbor_write.specs.Spans.{entry_at, whole_at, IsWithin};

use crate::collect::buffer::append;
use crate::serialize::Serialize;
use dagcbor_core::EncodeError;
use std::alloc::Global;
use std::marker::Model;

/// The message for a key without a spelling.
pub(crate) const BAD_KEY: &str = "Map key cannot be serialized.";

/// The message for a key that is not a text.
pub(crate) const NO_TEXT: &str = "Map keys must be strings";

/// The message for a value without a spelling.
pub(crate) const BAD_VALUE: &str = "Struct value cannot be serialized.";

/// The place of an entry: its key from `start` to `key_end`, its value from there to `end`.
#[derive(Clone, Copy, Default, Drop)]
pub struct Span {
    pub start: usize,
    pub key_end: usize,
    pub end: usize,
}

/// The entries of a map, encoded in one buffer. A key that waits for its value begins at `key`, and
/// ends the buffer. Bytes outside all spans do not count, such as a key whose value was refused.
#[derive(Drop)]
pub struct Gathered {
    bytes: Vec<u8>,
    spans: Vec<Span>,
    key: Option<usize>,
    announced: Option<usize>,
}

impl Model for Gathered {
    ghost use Rattle.std.specs.Prelude.{◌≤◌, IfSome, length, map, option_map, drop};
    ghost use Rattle.std.specs.List.{All};
    ghost use Rattle.dagcbor_write.specs.Maps.{MapState};
    ghost use Rattle.dagcbor_write.specs.Spans.{entry_at, IsWithin};

    ghost Value = { MapState };

    ghost view = { λ g. record {
      entries = map (entry_at g.bytes.items) g.spans.items;
      key = option_map (λ start. drop start g.bytes.items) g.key;
      announced = g.announced;
    } };

    ghost invariant = { λ g. All (IsWithin (length g.bytes.items)) g.spans.items
        × IfSome g.key (λ start. start ≤ length g.bytes.items) };
}

impl Gathered {
    pub(crate) fn new(alloc: Global, announced: Option<usize>) -> Gathered
        ensures { result ≡ no_entry_yet announced }
    {
        Gathered {
            bytes: Vec::new(alloc),
            spans: Vec::new(alloc),
            key: None,
            announced,
        }
    }

    pub(crate) fn announced(&self) -> Option<usize>
        ensures { result ≡ self.now.announced }
    {
        self.announced
    }

    pub(crate) fn len(&self) -> usize
        ensures { result ≡ length self.now.entries }
    {
        self.spans.len()
    }

    /// Returns the key and the value of entry `i`, one after the other.
    pub(crate) fn entry(&self, i: usize) -> &[u8]
        requires { i < length self.now.entries }
        ensures { (d : Texts)
            → result.now ≡ (slice_index_or self.now.entries i d).0
            ++ (slice_index_or self.now.entries i d).1 }
    {
        let span = &self.spans[i];
        &self.bytes[span.start..span.end]
    }

    pub(crate) fn has_key(&self) -> bool
        ensures { result ≡ is_some self.now.key }
    {
        self.key.is_some()
    }

    pub(crate) fn is_complete(&self) -> bool
        ensures { result ≡ is_complete self.now }
    {
        match (self.key, self.announced) {
            (Some(_), _) => false,
            (None, Some(announced)) => self.spans.len() == announced,
            (None, None) => true,
        }
    }

    /// Takes a key, whose value comes next.
    pub(crate) fn take_key<K: Serialize, E>(
        &mut self,
        alloc: Global,
        key: &K,
    ) -> Result<(), EncodeError<E>>
        requires { self.old.key ≡ None }
        ensures entries { self.new.entries ≡ self.old.entries }
        ensures announced { self.new.announced ≡ self.old.announced }
        ensures key { Collects (λ u. HoldsKey (K.tree key.now) self.new.key)
            (IsKeyMessage (K.tree key.now)) result }
        ensures no_key { OnErr result (self.new.key ≡ None) }
    {
        let start = self.bytes.len();
        append(alloc, &mut self.bytes, key, BAD_KEY)?;
        if begins_text(&self.bytes[start..]) {
            self.key = Some(start);
            Ok(())
        } else {
            Err(EncodeError::custom(NO_TEXT))
        }
    }

    /// Takes the value of the last key. After a refusal the key is gone, and the entries are as
    /// before.
    pub(crate) fn take_value<V: Serialize, E>(
        &mut self,
        alloc: Global,
        value: &V,
    ) -> Result<(), EncodeError<E>>
        requires { IsSome self.old.key }
        ensures key { self.new.key ≡ None }
        ensures announced { self.new.announced ≡ self.old.announced }
        ensures entry { Collects
            (λ u. JoinsValue self.old.key (V.tree value.now) self.old.entries self.new.entries)
            (IsValueMessage (V.tree value.now)) result }
        ensures kept { OnErr result (self.new.entries ≡ self.old.entries) }
    {
        let Some(start) = self.key.take() else {
            return Ok(());
        };
        let key_end = self.bytes.len();
        append(alloc, &mut self.bytes, value, BAD_VALUE)?;
        let end = self.bytes.len();
        match self.spans.push(Span {
            start,
            key_end,
            end,
        }) {
            Ok(()) => {}
            Err(_) => return Err(EncodeError::OutOfMemory),
        }
        Ok(())
    }

    /// Sorts the entries, and returns whether no key is repeated.
    pub(crate) fn put_in_order(&mut self) -> bool
        ensures announced { self.new.announced ≡ self.old.announced }
        ensures order { PutsInOrder self.old.entries self.new.entries result }
    {
        put_in_order(&self.bytes, &mut self.spans)
    }
}

/// Returns the bytes of a range, as far as it lies within them.
#[inline(always)]
pub(crate) fn range(bytes: &[u8], start: usize, end: usize) -> &[u8]
    ensures { result.now ≡ slice_range bytes.now start end }
{
    let end = end.min(bytes.len());
    &bytes[start.min(end)..end]
}

/// Returns the key of entry `i`.
#[inline(always)]
pub fn entry_key<'a>(bytes: &'a [u8], spans: &[Span], i: usize) -> &'a [u8]
    requires { i < length spans.now }
    ensures { (d : Texts)
        → result.now ≡ (slice_index_or (map (entry_at bytes.now) spans.now) i d).0 }
{
    let span = &spans[i];
    range(bytes, span.start, span.key_end)
}

/// Returns the key and the value of entry `i`, one after the other.
#[inline(always)]
pub fn entry_bytes<'a>(bytes: &'a [u8], spans: &[Span], i: usize) -> &'a [u8]
    requires { i < length spans.now }
    ensures { (d : Span) → result.now ≡ whole_at bytes.now (slice_index_or spans.now i d) }
{
    let span = &spans[i];
    range(bytes, span.start, span.end)
}

/// Returns whether no entry has the key of the previous one.
fn keys_differ(bytes: &[u8], spans: &[Span]) -> bool
    ensures { KeysDiffer (map (entry_at bytes.now) spans.now) result }
{
    for i in 1..spans.len() {
        if entry_key(bytes, spans, i - 1) == entry_key(bytes, spans, i) {
            return false;
        }
    }
    true
}

/// Sorts entries by their bytes, and returns whether no key is repeated. For different keys this is
/// key order.
pub fn put_in_order(bytes: &[u8], spans: &mut [Span]) -> bool
    ensures order { All (IsWithin (length bytes.now)) spans.old
        → PutsInOrder (map (entry_at bytes.now) spans.old)
        (map (entry_at bytes.now) spans.new) result }
    ensures within { All (IsWithin (length bytes.now)) spans.old
        → All (IsWithin (length bytes.now)) spans.new }
    ensures count { length spans.new ≡ length spans.old }
{
    spans.sort_unstable_by(|a, b| range(bytes, a.start, a.end).cmp(range(bytes, b.start, b.end)));
    keys_differ(bytes, spans)
}

/// Returns whether a spelling is that of a text.
pub(crate) fn begins_text(bytes: &[u8]) -> bool
    ensures { result ≡ begins_text bytes.now }
{
    match bytes.first() {
        Some(first) => *first / 32 == 3,
        None => false,
    }
}
