//! Reading the entries of a stored tree.

ghost use Rattle.std.specs.Prelude.{◌≡◌, ◌≤◌, ◌⊎◌, [], ℕ, List, length, map};
ghost use Rattle.std.specs.Prelude.{Decides, MatchResult, IfOk, OnOk, IfErr};
ghost use Rattle.ipld_links.specs.Reaching.{stored_in};
ghost use Rattle.atproto_mst.specs.Keys.{Entry, IsKey};
ghost use Rattle.atproto_mst.specs.Entries.{entries, IsMst};
ghost use Rattle.atproto_mst.specs.Nodes.{row_told, node_told, key_of_row};
ghost use Rattle.atproto_mst.specs.Walks.{WalksTree, WalksLink, WalksRows, WalksNode};
ghost use Rattle.atproto_mst.specs.Stops.{RowFault, StopsWalk, StopsAfter, StopsInRows, StopsInNode};
ghost use Rattle.atproto_mst.specs.Stops.{MstRefused, last_entry_key};
ghost use Rattle.atproto_mst.specs.InLayers.{first_layer, IsLayerRow, IfLinked, AreRowsOf, IsOfLayer};
ghost use Rattle.atproto_mst.specs.InLayers.{IsEmpty, IsRightBelow};
ghost use Rattle.atproto_mst.specs.Gathering.{GathersEntries, AddsRow, key_after};
ghost use Rattle.atproto_mst.specs.declared.error.MstError.TheVariants.{OutOfMemory};

use crate::entries::{LONGEST_KEY, MstEntry};
use crate::error::MstError;
use crate::keys::{layer_of_key, shared_front};
use crate::stored::node_at;
use ipld_tree::Cid;
use std::alloc::Global;
use std::collections::BTreeMap;
use types_repository::{Entry as Row, Node};

/// The greatest number of nodes on a path from the root: one for each of the layers 0 to 128.
pub(crate) const MOST_LAYERS: u8 = 129;

/// Returns the entries of the stored tree with this root, in key order. Each of its nodes is read
/// once; other blocks of the map are ignored. The first fault ends the walk, as does a subtree
/// without entries. A node that is linked a second time repeats its keys, so that its second
/// reading ends the walk. The records themselves need not be stored.
pub fn read_mst(
    alloc: Global,
    blocks: &BTreeMap<Cid, Vec<u8>>,
    root: &Cid,
) -> Result<Vec<MstEntry>, MstError>
    ensures read { IfOk result (λ v. IsMst (stored_in blocks.now) root.now (entries v.items)) }
    ensures refused { IfErr result (MstRefused (stored_in blocks.now) root.now) }
    ensures whole { (es : List Entry) → IsMst (stored_in blocks.now) root.now es →
        MatchResult result (λ v. entries v.items ≡ es) (λ e. e ≡ OutOfMemory) }
{
    let node = node_at(alloc, blocks, root)?;
    let mut found = Vec::new(alloc);
    let layer = root_layer(&node);
    let is_root = gather_node(alloc, blocks, &node, MOST_LAYERS - 1, layer, &mut found)?;
    if is_root {
        Ok(found)
    } else {
        Err(MstError::OtherTree)
    }
}

/// Returns the layer of the root's first key, or 0 if it has no entry.
pub(crate) fn root_layer(root: &Node) -> u8
    ensures { result ≡ first_layer (node_told root.now).rows }
{
    match root.e.first() {
        Some(row) => layer_of_key(&row.k.0),
        None => 0,
    }
}

/// Appends the entries of the subtree with this root, whose keys must come after the last. Returns
/// whether its nodes are in the layers right below `above`.
#[cycle(gather)]
fn gather(
    alloc: Global,
    blocks: &BTreeMap<Cid, Vec<u8>>,
    name: &Cid,
    layers: u8,
    above: u8,
    found: &mut Vec<MstEntry>,
) -> Result<bool, MstError>
    ensures walked { OnOk result
        (GathersEntries (WalksTree layers (stored_in blocks.now) name.now) found.old found.new) }
    ensures stopped { IfErr result (λ e. (e ≡ OutOfMemory) ⊎ StopsWalk layers (stored_in blocks.now)
        (last_entry_key [] (entries found.old.items)) name.now e) }
    ensures fits { IfOk result
        (λ fits. Decides fits (IsRightBelow (stored_in blocks.now) above name.now)) }
{
    let Some(lower) = layers.checked_sub(1) else {
        return Err(MstError::TooDeep(*name));
    };
    let node = node_at(alloc, blocks, name)?;
    let is_node = is_lower(&node, above);
    let fits = gather_node(alloc, blocks, &node, lower, above.saturating_sub(1), found)?;
    Ok(fits & is_node)
}

/// Returns whether a node may be below layer `above`: the layer is not 0, and the node is not
/// empty.
fn is_lower(node: &Node, above: u8) -> bool
    ensures { Decides result ((1 ≤ above) × ¬ IsEmpty (node_told node.now)) }
{
    if above == 0 {
        return false;
    }
    node.l.is_some() || !node.e.is_empty()
}

/// Appends the entries of a node and of the subtrees below it. Returns whether the node is in this
/// layer, and its subtrees are right below.
#[cycle(gather)]
fn gather_node(
    alloc: Global,
    blocks: &BTreeMap<Cid, Vec<u8>>,
    node: &Node,
    layers: u8,
    layer: u8,
    found: &mut Vec<MstEntry>,
) -> Result<bool, MstError>
    ensures walked { OnOk result
        (GathersEntries (WalksNode (WalksTree layers (stored_in blocks.now)) (node_told node.now)) found.old
        found.new) }
    ensures stopped { IfErr result (λ e. (e ≡ OutOfMemory)
        ⊎ StopsInNode (WalksTree layers (stored_in blocks.now)) (StopsWalk layers (stored_in blocks.now))
        (last_entry_key [] (entries found.old.items)) (node_told node.now) e) }
    ensures fits { IfOk result (λ fits. Decides fits
        (IsOfLayer (IsRightBelow (stored_in blocks.now) layer) layer (node_told node.now))) }
{
    let left = gather_below(alloc, blocks, &node.l, layers, layer, found)?;
    let rows = gather_rows(alloc, blocks, &node.e, layers, layer, found)?;
    Ok(left & rows)
}

/// Appends the entries of the subtree under the link, if there is one. Returns whether it is right
/// below the layer. A subtree without entries ends the walk.
#[cycle(gather)]
fn gather_below(
    alloc: Global,
    blocks: &BTreeMap<Cid, Vec<u8>>,
    link: &Option<Cid>,
    layers: u8,
    above: u8,
    found: &mut Vec<MstEntry>,
) -> Result<bool, MstError>
    ensures walked { OnOk result
        (GathersEntries (WalksLink (WalksTree layers (stored_in blocks.now)) link.now) found.old found.new) }
    ensures stopped { IfErr result (λ e. (e ≡ OutOfMemory)
        ⊎ StopsAfter (WalksTree layers (stored_in blocks.now)) (StopsWalk layers (stored_in blocks.now))
        (last_entry_key [] (entries found.old.items)) link.now e) }
    ensures fits { IfOk result
        (λ fits. Decides fits (IfLinked (IsRightBelow (stored_in blocks.now) above) link.now)) }
{
    let Some(name) = link else {
        return Ok(true);
    };
    let before = found.len();
    let fits = gather(alloc, blocks, name, layers, above, found)?;
    if found.len() == before {
        return Err(MstError::OtherTree);
    }
    Ok(fits)
}

/// Appends the entries of a node's rows and of the subtrees after them. Returns whether the rows
/// are of this layer, and the subtrees right below.
#[cycle(gather)]
fn gather_rows(
    alloc: Global,
    blocks: &BTreeMap<Cid, Vec<u8>>,
    rows: &[Row],
    layers: u8,
    layer: u8,
    found: &mut Vec<MstEntry>,
) -> Result<bool, MstError>
    ensures walked { OnOk result
        (GathersEntries (WalksRows (WalksTree layers (stored_in blocks.now)) [] (map row_told rows.now))
        found.old found.new) }
    ensures stopped { IfErr result (λ e. (e ≡ OutOfMemory)
        ⊎ StopsInRows (WalksTree layers (stored_in blocks.now)) (StopsWalk layers (stored_in blocks.now))
        (last_entry_key [] (entries found.old.items)) [] (map row_told rows.now) e) }
    ensures fits { IfOk result (λ fits. Decides fits
        (AreRowsOf (IsRightBelow (stored_in blocks.now) layer) layer [] (map row_told rows.now))) }
{
    let mut fits = true;
    // How many entries were found up to and including the row before.
    let mut previous = 0;
    for row in rows {
        let is_row = add_row(alloc, row, layer, previous, found)?;
        previous = found.len();
        let below = gather_below(alloc, blocks, &row.t, layers, layer, found)?;
        fits = fits & is_row & below;
    }
    Ok(fits)
}

/// Appends the entry of a row. The key before it in its node is that of the last of the first
/// `previous` entries. Returns whether the row is of this layer.
fn add_row(
    alloc: Global,
    row: &Row,
    layer: u8,
    previous: usize,
    found: &mut Vec<MstEntry>,
) -> Result<bool, MstError>
    requires { previous ≤ length found.old.items }
    ensures added { OnOk result
        (AddsRow (row_told row.now) (key_after previous found.old.items) found.old found.new) }
    ensures stopped { IfErr result (λ e. (e ≡ OutOfMemory)
        ⊎ RowFault (key_after previous found.old.items)
        (last_entry_key [] (entries found.old.items))
        (row_told row.now) e) }
    ensures fits { IfOk result
        (λ fits. Decides fits
        (IsLayerRow layer (key_after previous found.old.items) (row_told row.now))) }
{
    let before = key_of_last(&found[..previous]);
    let key = make_key(alloc, before, row)?;
    if key_of_last(found).cmp(key.as_slice()).is_ge() {
        return Err(MstError::KeyOrder);
    }
    let shared = shared_front(before, &key) as u64;
    let fits = (layer_of_key(&key) == layer) & (shared == row.p);
    let value = row.v;
    found.reserve(1)?;
    found.push_reserved(MstEntry { key, value });
    Ok(fits)
}

/// Returns the key of a row that follows this key in its node.
fn make_key(alloc: Global, previous: &[u8], row: &Row) -> Result<Vec<u8>, MstError>
    ensures made { IfOk result (λ key. (row.now.p ≤ length previous.now)
        × (key.items ≡ key_of_row previous.now (row_told row.now)) × IsKey key.items) }
    ensures stopped { (before : List ℕ) → IfErr result (λ e. (e ≡ OutOfMemory)
        ⊎ RowFault previous.now before (row_told row.now) e) }
{
    if row.p > previous.len() as u64 {
        return Err(MstError::KeyFront);
    }
    let shared = row.p as usize;
    let length = row.k.0.len().saturating_add(shared);
    if length < 1 || length > LONGEST_KEY {
        return Err(MstError::KeyLength);
    }
    let mut key = Vec::with_capacity(alloc, length)?;
    key.extend_from_slice(&previous[..shared])?;
    key.extend_from_slice(&row.k.0)?;
    Ok(key)
}

/// Returns the key of the last entry, or an empty slice if there is no entry.
fn key_of_last(found: &[MstEntry]) -> &[u8]
    ensures { result.now ≡ last_entry_key [] (entries found.now) }
{
    match found.last() {
        Some(last) => &last.key,
        None => &[],
    }
}
