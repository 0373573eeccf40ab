//! Setting and removing one of a sorted list of entries.

ghost use Rattle.std.specs.Prelude.{◌≡◌, MatchResult, IfOk, OnOk, IfErr, OnErr, length};
ghost use Rattle.std.specs.List.Sorted.{IsSearchInRange};
ghost use Rattle.std.specs.Ordering.{nat_cmp};
ghost use Rattle.std.specs.Cmp.Lexicographic.{slice_cmp};
ghost use Rattle.atproto_mst.specs.Keys.{IsKey, Rise};
ghost use Rattle.atproto_mst.specs.Entries.{entries};
ghost use Rattle.atproto_mst.specs.Finding.{lookup};
ghost use Rattle.atproto_mst.specs.Changes.{set_entry, unset_entry, SetRefused, IsKeyAt, WouldBeKeyAt};

use crate::entries::{LONGEST_KEY, MstEntry};
use crate::error::MstError;
use ipld_tree::Cid;
use std::alloc::{AllocError, Global};
use std::cmp::Ordering;
use std::mem::replace;

/// Sets the record of a key in entries sorted by key, and returns the record that it had. A refused
/// call leaves the entries unchanged. Only a new key takes memory.
pub fn put_entry(
    alloc: Global,
    all: &mut Vec<MstEntry>,
    key: &[u8],
    value: Cid,
) -> Result<Option<Cid>, MstError>
    ensures put { Rise (entries all.old.items) → OnOk result
        (entries all.new.items ≡ set_entry key.now value (entries all.old.items)) }
    ensures before { Rise (entries all.old.items) → IfOk result
        (λ before. before ≡ lookup key.now (entries all.old.items)) }
    ensures key { OnOk result (IsKey key.now) }
    ensures refused { IfErr result (SetRefused key.now (entries all.old.items)) }
    ensures kept { OnErr result (all.new.items ≡ all.old.items) }
{
    let length = key.len();
    if length < 1 || length > LONGEST_KEY {
        return Err(MstError::KeyLength);
    }
    match find_place(all, key) {
        Ok(at) => Ok(Some(replace(&mut all[at].value, value))),
        Err(at) => {
            let entry = new_entry(alloc, key, value)?;
            match all.insert(at, entry) {
                Ok(()) => Ok(None),
                Err(_) => Err(MstError::OutOfMemory),
            }
        }
    }
}

/// Removes a key from entries sorted by key, and returns the record that it had.
pub fn remove_entry(all: &mut Vec<MstEntry>, key: &[u8]) -> Option<Cid>
    ensures removed { Rise (entries all.old.items) →
        entries all.new.items ≡ unset_entry key.now (entries all.old.items) }
    ensures before { Rise (entries all.old.items) →
        result ≡ lookup key.now (entries all.old.items) }
{
    match find_place(all, key) {
        Ok(at) => Some(all.remove(at).value),
        Err(_) => None,
    }
}

/// Returns an entry of this key and record.
fn new_entry(alloc: Global, key: &[u8], value: Cid) -> Result<MstEntry, AllocError>
    ensures { IfOk result (λ e. (e.key.items ≡ key.now) × (e.value ≡ value)) }
{
    let key = key.to_vec(alloc)?;
    Ok(MstEntry { key, value })
}

/// Returns the index of the key, or the index where it would be inserted.
fn find_place(all: &[MstEntry], key: &[u8]) -> Result<usize, usize>
    ensures bound { IsSearchInRange result (length all.now) }
    ensures place { Rise (entries all.now) → MatchResult result
        (λ i. IsKeyAt key.now i (entries all.now)) (λ i. WouldBeKeyAt key.now i (entries all.now)) }
{
    all.binary_search_by(
        |entry: &MstEntry| -> Ordering
            ensures { result ≡ slice_cmp nat_cmp entry.now.key.items key.entry.now }
        { entry.key.as_slice().cmp(key) },
    )
}
