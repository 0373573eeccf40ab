//! Opening a partly stored tree as pieces.

ghost use Rattle.std.specs.Prelude.{◌≡◌, ◌⊎◌, ◌++◌, IsTrue, [], ◌∷◌, List, None, Some, map};
ghost use Rattle.std.specs.Prelude.{option_map, MatchOption, IfOk, OnOk, IfErr};
ghost use Rattle.std.specs.List.{AllByRecursion};
ghost use Rattle.ipld_tree.specs.Cid.{AreCidParts};
ghost use Rattle.ipld_links.specs.Reaching.{stored_in};
ghost use Rattle.atproto_mst.specs.Keys.{key_layer};
ghost use Rattle.atproto_mst.specs.Nodes.{IsNodeAt, IsCidIfAny, row_told, node_told, key_of_row};
ghost use Rattle.atproto_mst.specs.InLayers.{IsEmpty, first_layer};
ghost use Rattle.atproto_events.specs.Pieces.{PieceParts, subtree_piece, pieces, OpensLink};
ghost use Rattle.atproto_events.specs.Pieces.{OpensBelow, OpensNode, OpensTree};
ghost use Rattle.atproto_events.specs.Opening.{UnreadNode, RowUnfit, LinkStops, NodeStops};
ghost use Rattle.atproto_events.specs.Opening.{StopsBelow, TreeFault};
ghost use Rattle.atproto_events.specs.Opening.{last_key, comes_after, HoldsSubtree, AreHeld};
ghost use Rattle.atproto_events.specs.declared.error.UndoError.TheVariants.{OutOfMemory, OtherTree};

use crate::error::UndoError;
use crate::pieces::Piece;
use atproto_mst::layer_of_key;
use dagcbor_core::DecodeError;
use dagcbor_read::from_slice;
use ipld_links::{CidSet, name_of_block, stored_bytes};
use ipld_tree::Cid;
use std::alloc::Global;
use std::collections::BTreeMap;
use types_repository::{Entry as Row, Node};

/// The greatest length of a key, in bytes.
pub(crate) const LONGEST_KEY: usize = 1024;

/// Returns the pieces of the tree of this root, whose node must be stored.
pub(crate) fn open_tree(
    alloc: Global,
    blocks: &BTreeMap<Cid, Vec<u8>>,
    root: &Cid,
) -> Result<Vec<Piece>, UndoError>
    ensures opened { IfOk result (λ v. OpensTree (stored_in blocks.now) root.now (pieces v.items)) }
    ensures refused { IfErr result (TreeFault (stored_in blocks.now) root.now) }
{
    let Some(node) = find_node(alloc, blocks, root)? else {
        return Err(UndoError::MissingNode(*root));
    };
    let mut found = Vec::new(alloc);
    let mut lost = CidSet::new(alloc);
    open_node(
        alloc,
        blocks,
        &node,
        root_layer(&node),
        &mut lost,
        &mut found,
    )?;
    Ok(found)
}

/// Returns the layer of the root's first key, or 0 if it has no entry.
fn root_layer(root: &Node) -> u8
    ensures { result ≡ first_layer (node_told root.now).rows }
{
    match root.e.first() {
        Some(row) => layer_of_key(&row.k.0),
        None => 0,
    }
}

/// Reads the node of this CID, or returns `None` if it is not stored.
fn find_node(
    alloc: Global,
    blocks: &BTreeMap<Cid, Vec<u8>>,
    name: &Cid,
) -> Result<Option<Node>, UndoError>
    ensures found { IfOk result (λ found. MatchOption found (stored_in blocks.now name.now ≡ None)
        (λ node. IsNodeAt (stored_in blocks.now) name.now (node_told node))) }
    ensures refused { IfErr result (UnreadNode (stored_in blocks.now) name.now) }
{
    let Some(block) = stored_bytes(blocks, name) else {
        return Ok(None);
    };
    if name_of_block(block) != *name {
        return Err(UndoError::OtherBytes(*name));
    }
    match from_slice::<Node>(alloc, block) {
        Ok(node) => {
            has_cid(&node.l);
            have_cids(&node.e);
            Ok(Some(node))
        }
        Err(error) => match error {
            DecodeError::OutOfMemory => Err(UndoError::OutOfMemory),
            _ => Err(UndoError::NoNode(*name)),
        },
    }
}

/// Does nothing. Calling `version` gives the proof that the link is a CID.
fn has_cid(link: &Option<Cid>)
    ensures { IsCidIfAny link.now }
{
    if let Some(cid) = link {
        let _version = cid.version();
    }
}

/// Does the same for the CIDs of the entries.
fn have_cids(rows: &[Row])
    ensures { AllByRecursion (λ r. AreCidParts r.value × IsCidIfAny r.after)
        (map row_told rows.now) }
{
    for row in rows {
        let _version = row.v.version();
        has_cid(&row.t);
    }
}

/// Appends the pieces of a node of this layer.
#[cycle(open)]
fn open_node(
    alloc: Global,
    blocks: &BTreeMap<Cid, Vec<u8>>,
    node: &Node,
    layer: u8,
    lost: &mut CidSet,
    found: &mut Vec<Piece>,
) -> Result<(), UndoError>
    requires { AreHeld lost.old (pieces found.old.items) }
    ensures opened { OnOk result ((more : List PieceParts)
        × OpensNode (OpensBelow (stored_in blocks.now) layer) layer (node_told node.now) more
        × (pieces found.new.items ≡ pieces found.old.items ++ more)) }
    ensures held { OnOk result (AreHeld lost.new (pieces found.new.items)) }
    ensures refused { IfErr result (λ e. (e ≡ OutOfMemory)
        ⊎ NodeStops (OpensBelow (stored_in blocks.now) layer)
        (StopsBelow (stored_in blocks.now) layer) layer (pieces found.old.items) (node_told node.now) e) }
{
    open_link(alloc, blocks, &node.l, layer, lost, found)?;
    let mut key = Vec::new(alloc);
    for row in &node.e {
        push_row(alloc, row, layer, &mut key, found)?;
        open_link(alloc, blocks, &row.t, layer, lost, found)?;
    }
    Ok(())
}

/// Appends the pieces of the subtree under the link, which must be right below this layer. If its
/// root is not stored, it is one piece.
#[cycle(open)]
fn open_link(
    alloc: Global,
    blocks: &BTreeMap<Cid, Vec<u8>>,
    link: &Option<Cid>,
    above: u8,
    lost: &mut CidSet,
    found: &mut Vec<Piece>,
) -> Result<(), UndoError>
    requires { AreHeld lost.old (pieces found.old.items) }
    ensures opened { OnOk result ((more : List PieceParts)
        × OpensLink (OpensBelow (stored_in blocks.now) above) link.now more
        × (pieces found.new.items ≡ pieces found.old.items ++ more)) }
    ensures held { OnOk result (AreHeld lost.new (pieces found.new.items)) }
    ensures refused { IfErr result (λ e. (e ≡ OutOfMemory)
        ⊎ LinkStops (StopsBelow (stored_in blocks.now) above) (pieces found.old.items) link.now e) }
{
    let Some(name) = link else {
        return Ok(());
    };
    let Some(layer) = above.checked_sub(1) else {
        return Err(UndoError::OtherTree);
    };
    let Some(node) = find_node(alloc, blocks, name)? else {
        return push_subtree(layer, name, lost, found);
    };
    if is_empty(&node) {
        return Err(UndoError::OtherTree);
    }
    open_node(alloc, blocks, &node, layer, lost, found)
}

/// Returns whether the node has neither entries nor a subtree, which is allowed only in a root.
fn is_empty(node: &Node) -> bool
    ensures { IsTrue result → IsEmpty (node_told node.now) }
{
    node.l.is_none() && node.e.is_empty()
}

/// Appends a subtree that is not opened. Refuses one that was met before: no tree has a subtree
/// twice.
fn push_subtree(
    layer: u8,
    name: &Cid,
    lost: &mut CidSet,
    found: &mut Vec<Piece>,
) -> Result<(), UndoError>
    requires { AreHeld lost.old (pieces found.old.items) }
    ensures pushed { OnOk result (pieces found.new.items ≡ pieces found.old.items
        ++ (subtree_piece layer name.now ∷ [])) }
    ensures held { OnOk result (AreHeld lost.new (pieces found.new.items)) }
    ensures refused { IfErr result (λ e. (e ≡ OutOfMemory)
        ⊎ ((e ≡ OtherTree) × HoldsSubtree name.now (pieces found.old.items))) }
{
    if lost.contains(name) {
        return Err(UndoError::OtherTree);
    }
    lost.add(*name)?;
    push_piece(layer, None, *name, found)
}

/// Appends the entry of a row. Turns `key`, the key of the row before, into that of this row.
fn push_row(
    alloc: Global,
    row: &Row,
    layer: u8,
    key: &mut Vec<u8>,
    found: &mut Vec<Piece>,
) -> Result<(), UndoError>
    ensures key { OnOk result (key.new.items ≡ key_of_row key.old.items (row_told row.now)) }
    ensures layer { OnOk result (key_layer key.new.items ≡ layer) }
    ensures pushed { OnOk result (pieces found.new.items ≡ pieces found.old.items
        ++ record { layer = layer; key = Some key.new.items; cid = row.now.v } ∷ []) }
    ensures refused { IfErr result (λ e. (e ≡ OutOfMemory) ⊎ ((e ≡ OtherTree)
        × RowUnfit layer (pieces found.old.items) key.old.items (row_told row.now))) }
{
    if row.p > key.len() as u64 {
        return Err(UndoError::OtherTree);
    }
    let length = row.k.0.len().saturating_add(row.p as usize);
    if length < 1 || length > LONGEST_KEY {
        return Err(UndoError::OtherTree);
    }
    key.truncate(row.p as usize);
    key.extend_from_slice(&row.k.0)?;
    if layer_of_key(key) != layer {
        return Err(UndoError::OtherTree);
    }
    if !comes_last(found, key) {
        return Err(UndoError::OtherTree);
    }
    let key = key.to_vec(alloc)?;
    push_piece(layer, Some(key), row.v, found)
}

/// Returns whether the last entry, if there is one, comes before the key. One of any two adjacent
/// pieces is an entry.
fn comes_last(found: &[Piece], key: &[u8]) -> bool
    ensures { result ≡ comes_after key.now (last_key (pieces found.now)) }
{
    let mut at = found.len();
    while at > 0 {
        at -= 1;
        if let Some(other) = &found[at].key {
            return other.as_slice().cmp(key).is_lt();
        }
    }
    true
}

/// Appends a piece.
fn push_piece(
    layer: u8,
    key: Option<Vec<u8>>,
    cid: Cid,
    found: &mut Vec<Piece>,
) -> Result<(), UndoError>
    ensures pushed { OnOk result (pieces found.new.items ≡ pieces found.old.items
        ++ record { layer = layer; key = option_map (λ k. k.items) key; cid = cid } ∷ []) }
    ensures refused { IfErr result (λ e. e ≡ OutOfMemory) }
{
    found.reserve(1)?;
    found.push_reserved(Piece { layer, key, cid });
    Ok(())
}
