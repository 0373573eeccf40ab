//! Entries, and the layers of their keys.

ghost use Rattle.std.specs.Prelude.{◌≡◌, MatchResult, IfOk};
ghost use Rattle.atproto_mst.specs.Keys.{HaveKeys, HaveCids, Rise, AreMstEntries};
ghost use Rattle.atproto_mst.specs.Trees.{leaves, top_layer};
ghost use Rattle.atproto_mst.specs.Placed.{all_told};
ghost use Rattle.atproto_mst.specs.Entries.{entries, EntriesRefused};
ghost use Rattle.atproto_mst.specs.declared.error.MstError.TheVariants.{KeyLength, KeyOrder};

use crate::error::MstError;
use crate::keys::layer_of_key;
use crate::leaves::Placed;
use ipld_tree::Cid;
use std::alloc::{AllocError, Global};
use std::cmp::Ordering;

/// The greatest length of a key, in bytes.
pub(crate) const LONGEST_KEY: usize = 1024;

/// A key, and the CID of its record.
#[derive(Debug, Drop)]
pub struct MstEntry {
    /// The collection, `/`, and the record key: 1 to 1024 bytes.
    pub key: Vec<u8>,
    pub value: Cid,
}

/// Checks that the keys have 1 to 1024 bytes, and rise.
pub(crate) fn check_entries(all: &[MstEntry]) -> Result<(), MstError>
    ensures { MatchResult result (λ _. AreMstEntries (entries all.now))
        (λ e. EntriesRefused e (entries all.now)) }
{
    // Calling `len` gives the proof that there are fewer than 2^64 entries.
    let _count = all.len();
    check_lengths(all)?;
    check_order(all)
}

/// Checks that each key has 1 to 1024 bytes.
fn check_lengths(all: &[MstEntry]) -> Result<(), MstError>
    ensures { MatchResult result (λ _. HaveKeys (entries all.now) × HaveCids (entries all.now))
        (λ e. (e ≡ KeyLength) × ¬ HaveKeys (entries all.now)) }
{
    for entry in all {
        // Calling `version` gives the proof that this is a CID.
        let _version = entry.value.version();
        let length = entry.key.len();
        if length < 1 || length > LONGEST_KEY {
            return Err(MstError::KeyLength);
        }
    }
    Ok(())
}

/// Checks that the keys rise in the order of bytes.
fn check_order(all: &[MstEntry]) -> Result<(), MstError>
    ensures { MatchResult result (λ _. Rise (entries all.now))
        (λ e. (e ≡ KeyOrder) × ¬ Rise (entries all.now)) }
{
    let Some(last) = all.len().checked_sub(1) else {
        return Ok(());
    };
    for index in 0..last {
        let key = all[index].key.as_slice();
        match key.cmp(all[index + 1].key.as_slice()) {
            Ordering::Less => {}
            _ => return Err(MstError::KeyOrder),
        }
    }
    Ok(())
}

/// Pairs each entry with the layer of its key.
pub(crate) fn place(alloc: Global, all: &[MstEntry]) -> Result<Vec<Placed<'_>>, AllocError>
    ensures { IfOk result (λ v. all_told v.items ≡ leaves (entries all.now)) }
{
    let mut placed = Vec::new(alloc);
    for entry in all {
        let leaf = Placed {
            layer: layer_of_key(&entry.key),
            key: &entry.key,
            value: entry.value,
        };
        placed.reserve(1)?;
        placed.push_reserved(leaf);
    }
    Ok(placed)
}

/// Returns the greatest layer of a leaf, or 0 if there are no leaves.
pub(crate) fn top_of(leaves: &[Placed<'_>]) -> u8
    ensures { result ≡ top_layer (all_told leaves.now) }
{
    let mut top = 0;
    for leaf in leaves {
        top = leaf.layer.max(top);
    }
    top
}
