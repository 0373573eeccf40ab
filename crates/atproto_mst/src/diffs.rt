//! The differences between the entries of two trees.

ghost use Rattle.std.specs.Prelude.{◌≡◌, ◌≢◌, ◌⊎◌, [], ◌∷◌, ◌++◌, List, None, Some, MatchResult, IfOk, OnOk, IfErr};
ghost use Rattle.ipld_links.specs.Reaching.{stored_in};
ghost use Rattle.atproto_mst.specs.Keys.{Entry, Rise};
ghost use Rattle.atproto_mst.specs.Entries.{entries, IsMst};
ghost use Rattle.atproto_mst.specs.Stops.{MstRefused};
ghost use Rattle.atproto_mst.specs.Changes.{changes, AreChanges};
ghost use Rattle.atproto_mst.specs.Merging.{removed, added, changes_of_key};
ghost use Rattle.atproto_mst.specs.declared.error.MstError.TheVariants.{OutOfMemory};

use crate::entries::MstEntry;
use crate::error::MstError;
use crate::read::read_mst;
use ipld_tree::Cid;
use std::alloc::{AllocError, Global};
use std::cmp::Ordering;
use std::collections::BTreeMap;

/// A key whose record differs.
#[derive(Debug, Drop)]
pub struct Change {
    pub key: Vec<u8>,
    /// The record before, `None` if the key was absent.
    pub old: Option<Cid>,
    /// The record after, `None` if the key is absent.
    pub new: Option<Cid>,
}

/// Returns the keys whose records differ between the stored trees with these roots, in key order.
/// Both trees are read whole.
pub(crate) fn diff_whole(
    alloc: Global,
    blocks: &BTreeMap<Cid, Vec<u8>>,
    old: &Cid,
    new: &Cid,
) -> Result<Vec<Change>, MstError>
    ensures read { IfOk result (λ v. (es fs : List Entry) × IsMst (stored_in blocks.now) old.now es
        × IsMst (stored_in blocks.now) new.now fs × AreChanges es fs (changes v.items)) }
    ensures refused { IfErr result (λ e. MstRefused (stored_in blocks.now) old.now e
        ⊎ ((es : List Entry) × IsMst (stored_in blocks.now) old.now es
        × MstRefused (stored_in blocks.now) new.now e)) }
    ensures whole { (es fs : List Entry) → IsMst (stored_in blocks.now) old.now es
        → IsMst (stored_in blocks.now) new.now fs
        → MatchResult result (λ v. AreChanges es fs (changes v.items)) (λ e. e ≡ OutOfMemory) }
{
    let before = read_mst(alloc, blocks, old)?;
    let after = read_mst(alloc, blocks, new)?;
    let found = diff_entries(alloc, &before, &after)?;
    Ok(found)
}

/// Returns the keys whose records differ between two lists of entries sorted by key, in key order.
pub fn diff_entries(
    alloc: Global,
    old: &[MstEntry],
    new: &[MstEntry],
) -> Result<Vec<Change>, AllocError>
    ensures found { Rise (entries old.now) → Rise (entries new.now)
        → IfOk result (λ v. AreChanges (entries old.now) (entries new.now) (changes v.items)) }
    ensures memory { IfErr result (λ _. entries old.now ≢ entries new.now) }
{
    let mut found = Vec::new(alloc);
    let mut i = 0;
    let mut j = 0;
    while i < old.len() && j < new.len() {
        let before = &old[i];
        let after = &new[j];
        match before.key.as_slice().cmp(after.key.as_slice()) {
            Ordering::Less => {
                add_change(alloc, &before.key, Some(before.value), None, &mut found)?;
                i += 1;
            }
            Ordering::Equal => {
                add_if_changed(alloc, before, after, &mut found)?;
                i += 1;
                j += 1;
            }
            Ordering::Greater => {
                add_change(alloc, &after.key, None, Some(after.value), &mut found)?;
                j += 1;
            }
        }
    }
    add_removed(alloc, &old[i..], &mut found)?;
    add_added(alloc, &new[j..], &mut found)?;
    Ok(found)
}

/// Appends a change.
fn add_change(
    alloc: Global,
    key: &[u8],
    old: Option<Cid>,
    new: Option<Cid>,
    found: &mut Vec<Change>,
) -> Result<(), AllocError>
    ensures { OnOk result
        (changes found.new.items ≡ changes found.old.items ++ (key.now, (old, new)) ∷ []) }
{
    let key = key.to_vec(alloc)?;
    found.reserve(1)?;
    found.push_reserved(Change { key, old, new });
    Ok(())
}

/// Appends the change between two entries of the same key, if their records differ.
fn add_if_changed(
    alloc: Global,
    before: &MstEntry,
    after: &MstEntry,
    found: &mut Vec<Change>,
) -> Result<(), AllocError>
    ensures added { OnOk result (changes found.new.items ≡ changes found.old.items
        ++ changes_of_key before.now.key.items (Some before.now.value) (Some after.now.value)) }
    ensures memory { IfErr result (λ _. before.now.value ≢ after.now.value) }
{
    if before.value == after.value {
        return Ok(());
    }
    add_change(
        alloc,
        &before.key,
        Some(before.value),
        Some(after.value),
        found,
    )
}

/// Appends the changes of entries that only the first list has.
fn add_removed(alloc: Global, rest: &[MstEntry], found: &mut Vec<Change>) -> Result<(), AllocError>
    ensures added { OnOk result
        (changes found.new.items ≡ changes found.old.items ++ removed (entries rest.now)) }
    ensures memory { IfErr result (λ _. rest.now ≢ []) }
{
    for entry in rest {
        add_change(alloc, &entry.key, Some(entry.value), None, found)?;
    }
    Ok(())
}

/// Appends the changes of entries that only the second list has.
fn add_added(alloc: Global, rest: &[MstEntry], found: &mut Vec<Change>) -> Result<(), AllocError>
    ensures added { OnOk result
        (changes found.new.items ≡ changes found.old.items ++ added (entries rest.now)) }
    ensures memory { IfErr result (λ _. rest.now ≢ []) }
{
    for entry in rest {
        add_change(alloc, &entry.key, None, Some(entry.value), found)?;
    }
    Ok(())
}
