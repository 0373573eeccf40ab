//! The entries of a map, all in one buffer, and their order.

ghost use Rattle.std.specs.Prelude.{◌≡◌, ◌<◌, ◌++◌, length, map, IsTrue, OnOk, IfErr, IsPermutation};
ghost use Rattle.std.specs.List.{All, flat_map};
ghost use Rattle.dagcbor_write.specs.Order.{PutsInOrder};
ghost use Rattle.types_serde.specs.Holds.{AreInOrder, StandsBefore};
ghost use Rattle.dagcbor_write.specs.Spans.{whole_at, IsWithin, entry_at};
ghost use Rattle.types_serde.specs.Refusing.{LacksMemory};

use crate::error::Refusal;
use crate::frame::push;
use dagcbor_write::{Span, entry_bytes, entry_key, put_in_order};

/// The most entries that are sorted by moving each one back to its place.
const FEW: usize = 16;

/// Returns whether a key comes before another by the first byte in which they differ. A key begins
/// with its length, so no key is the beginning of another.
#[inline(always)]
fn stands_before(a: &[u8], b: &[u8]) -> bool
    ensures { IsTrue result → StandsBefore a.now b.now }
{
    for i in 0..a.len().min(b.len()) {
        if a[i] != b[i] {
            return a[i] < b[i];
        }
    }
    false
}

/// Returns whether each entry's key comes before the next one's.
pub(crate) fn are_in_order(bytes: &[u8], spans: &[Span]) -> bool
    ensures { IsTrue result → All (IsWithin (length bytes.now)) spans.now
        → AreInOrder (map (entry_at bytes.now) spans.now) }
{
    for i in 1..spans.len() {
        if !stands_before(entry_key(bytes, spans, i - 1), entry_key(bytes, spans, i)) {
            return false;
        }
    }
    true
}

/// Moves an entry back to its place among those before it.
fn move_back(bytes: &[u8], spans: &mut [Span], from: usize)
    requires { from < length spans.old }
    ensures { IsPermutation spans.old spans.new }
{
    for step in 0..from {
        let i = from - step;
        if !stands_before(entry_key(bytes, spans, i), entry_key(bytes, spans, i - 1)) {
            return;
        }
        spans.swap(i - 1, i);
    }
}

/// Moves each entry back to its place among those before it.
fn move_each_back(bytes: &[u8], spans: &mut [Span])
    ensures { IsPermutation spans.old spans.new }
{
    for i in 1..spans.len() {
        move_back(bytes, spans, i);
    }
}

/// Sorts the entries if they are few, and returns whether they are in order now.
fn sort_few(bytes: &[u8], spans: &mut [Span]) -> bool
    ensures moved { IsPermutation spans.old spans.new }
    ensures order { IsTrue result → All (IsWithin (length bytes.now)) spans.new
        → AreInOrder (map (entry_at bytes.now) spans.new) }
{
    if spans.len() > FEW {
        return false;
    }
    move_each_back(bytes, spans);
    are_in_order(bytes, spans)
}

/// Sorts the entries by their bytes, and returns whether no key is repeated.
pub(crate) fn sort(bytes: &[u8], spans: &mut [Span]) -> bool
    ensures order { All (IsWithin (length bytes.now)) spans.old
        → PutsInOrder (map (entry_at bytes.now) spans.old)
        (map (entry_at bytes.now) spans.new) result }
    ensures within { All (IsWithin (length bytes.now)) spans.old
        → All (IsWithin (length bytes.now)) spans.new }
    ensures count { length spans.new ≡ length spans.old }
{
    if sort_few(bytes, spans) {
        return true;
    }
    put_in_order(bytes, spans)
}

/// Appends the entries.
pub(crate) fn push_entries(out: &mut Vec<u8>, bytes: &[u8], spans: &[Span]) -> Result<(), Refusal>
    ensures appended { OnOk result (out.new.items
        ≡ out.old.items ++ flat_map (whole_at bytes.now) spans.now) }
    ensures refused { IfErr result LacksMemory }
{
    for i in 0..spans.len() {
        push(out, entry_bytes(bytes, spans, i))?;
    }
    Ok(())
}
