//! The differences between two trees, found without reading the subtrees that both have.

ghost use Rattle.std.specs.Prelude.{◌≡◌, ◌⊎◌, [], List, MatchResult, IfOk, IfErr};
ghost use Rattle.ipld_links.specs.Reaching.{stored_in};
ghost use Rattle.ipld_links.specs.Sets.{members};
ghost use Rattle.atproto_mst.specs.Keys.{Entry};
ghost use Rattle.atproto_mst.specs.Entries.{IsMst};
ghost use Rattle.atproto_mst.specs.Nodes.{NodeParts, IsNodeAt};
ghost use Rattle.atproto_mst.specs.Stops.{IsStoredNamed, NodeFault};
ghost use Rattle.atproto_mst.specs.Changes.{changes, AreChanges};
ghost use Rattle.atproto_mst.specs.Levels.{level_items, link_names, DropsShared, StepsDown};
ghost use Rattle.atproto_mst.specs.Levels.{IsOfShape, LevelLinksRefused};
ghost use Rattle.atproto_mst.specs.Differing.{AreChangesOf, LacksOne, DiffRefused};
ghost use Rattle.atproto_mst.specs.declared.error.MstError.TheVariants.{OutOfMemory};

use crate::diffs::{Change, diff_entries, diff_whole};
use crate::error::MstError;
use crate::levels::{
    Level, common_names, is_of_shape, link_names, only_entries, open_if, whole_level,
};
use crate::read::{MOST_LAYERS, root_layer};
use crate::stored::node_at;
use ipld_links::CidSet;
use ipld_tree::Cid;
use std::alloc::{AllocError, Global};
use std::collections::BTreeMap;

/// Returns the keys whose records differ between the trees with these roots, in key order. Subtrees
/// that both trees have are skipped, so they need not be stored. Different roots are both read.
/// Equal roots have no changes, and no block is read. No tree has a node below its root twice, so
/// each is read once on the way down. If the keys or the shape of a tree are wrong, both trees are
/// read whole, to find the reason. But an answer does not say that both are valid trees.
pub fn diff(
    alloc: Global,
    blocks: &BTreeMap<Cid, Vec<u8>>,
    old: &Cid,
    new: &Cid,
) -> Result<Vec<Change>, MstError>
    ensures read { IfOk result
        (λ v. AreChangesOf (stored_in blocks.now) old.now new.now (changes v.items)) }
    ensures same { old.now ≡ new.now → MatchResult result (λ v. v.items ≡ []) (λ _. ⊥) }
    ensures refused { IfErr result (DiffRefused (stored_in blocks.now) old.now new.now) }
    ensures whole { (es fs : List Entry) → IsMst (stored_in blocks.now) old.now es
        → IsMst (stored_in blocks.now) new.now fs
        → MatchResult result (λ v. AreChanges es fs (changes v.items)) (λ e. e ≡ OutOfMemory) }
{
    if old == new {
        return Ok(Vec::new(alloc));
    }
    diff_apart(alloc, blocks, old, new)
}

/// Returns the keys whose records differ between the trees with these roots, both of which are
/// read.
fn diff_apart(
    alloc: Global,
    blocks: &BTreeMap<Cid, Vec<u8>>,
    old: &Cid,
    new: &Cid,
) -> Result<Vec<Change>, MstError>
    ensures read { IfOk result
        (λ v. AreChangesOf (stored_in blocks.now) old.now new.now (changes v.items)) }
    ensures refused { IfErr result (DiffRefused (stored_in blocks.now) old.now new.now) }
    ensures whole { (es fs : List Entry) → IsMst (stored_in blocks.now) old.now es
        → IsMst (stored_in blocks.now) new.now fs
        → MatchResult result (λ v. AreChanges es fs (changes v.items)) (λ e. e ≡ OutOfMemory) }
{
    match diff_levels(alloc, blocks, old, new) {
        Ok(found) => Ok(found),
        Err(error) => {
            if is_of_shape(&error) {
                diff_whole(alloc, blocks, old, new)
            } else {
                Err(error)
            }
        }
    }
}

/// Returns the keys whose records differ, by a walk down both trees that skips what they share.
fn diff_levels(
    alloc: Global,
    blocks: &BTreeMap<Cid, Vec<u8>>,
    old: &Cid,
    new: &Cid,
) -> Result<Vec<Change>, MstError>
    ensures read { IfOk result
        (λ v. AreChangesOf (stored_in blocks.now) old.now new.now (changes v.items)) }
    ensures refused { IfErr result
        (λ e. ((e ≡ OutOfMemory) × IsStoredNamed (stored_in blocks.now) old.now)
        ⊎ (IsOfShape e ⊎ LacksOne (stored_in blocks.now) old.now new.now e)) }
{
    let old_top = top_layer_at(alloc, blocks, old)?;
    let new_top = top_layer_at(alloc, blocks, new)?;
    let mut before = whole_level(alloc, old);
    let mut after = whole_level(alloc, new);
    for round in 0..MOST_LAYERS {
        let layer = MOST_LAYERS - 1 - round;
        let asked = (layer <= old_top, layer <= new_top);
        let below = step_down(alloc, blocks, asked, before, after)?;
        before = below.0;
        after = below.1;
    }
    let before = only_entries(alloc, before)?;
    let after = only_entries(alloc, after)?;
    let found = diff_entries(alloc, &before, &after)?;
    Ok(found)
}

/// Returns the layer of the root's first key, or 0 if the tree is empty.
fn top_layer_at(alloc: Global, blocks: &BTreeMap<Cid, Vec<u8>>, root: &Cid) -> Result<u8, MstError>
    ensures { MatchResult result
        (λ _. (p : NodeParts) × IsNodeAt (stored_in blocks.now) root.now p)
        (λ e. ((e ≡ OutOfMemory) × IsStoredNamed (stored_in blocks.now) root.now)
        ⊎ NodeFault (stored_in blocks.now) root.now e) }
{
    let node = node_at(alloc, blocks, root)?;
    Ok(root_layer(&node))
}

/// Returns, for each tree, the level below if that one is asked for. If both are, links that both
/// levels have are dropped.
fn step_down(
    alloc: Global,
    blocks: &BTreeMap<Cid, Vec<u8>>,
    asked: (bool, bool),
    before: Level,
    after: Level,
) -> Result<(Level, Level), MstError>
    ensures { MatchResult result
        (λ r. StepsDown (stored_in blocks.now) asked (level_items before) (level_items after)
        (level_items r.0) (level_items r.1))
        (λ e. LevelLinksRefused (stored_in blocks.now) (link_names (level_items before)) e
        ⊎ LevelLinksRefused (stored_in blocks.now) (link_names (level_items after)) e) }
{
    let both = asked.0 && asked.1;
    let dropped = dropped_of(alloc, both, &before, &after)?;
    let before = open_if(alloc, blocks, asked.0, &dropped, before)?;
    let after = open_if(alloc, blocks, asked.1, &dropped, after)?;
    Ok((before, after))
}

/// Returns the CIDs of the links that both levels have if both are opened, and otherwise the empty
/// set.
fn dropped_of(
    alloc: Global,
    both: bool,
    before: &Level,
    after: &Level,
) -> Result<CidSet, AllocError>
    ensures { IfOk result (λ s. DropsShared both (link_names (level_items before.now))
        (link_names (level_items after.now)) (members s)) }
{
    if !both {
        return Ok(CidSet::new(alloc));
    }
    let names = link_names(alloc, before)?;
    let others = link_names(alloc, after)?;
    common_names(alloc, &names, &others)
}
