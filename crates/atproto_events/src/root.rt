//! Computing the root of the tree that pieces make.

ghost use Rattle.std.specs.Prelude.{◌≡◌, ◌≢◌, ◌≤◌, [], ◌∷◌, suc, length, map, IfOk, IfErr};
ghost use Rattle.std.specs.Prelude.{MatchOption};
ghost use Rattle.ipld_tree.specs.Cid.{CidParts};
ghost use Rattle.ipld_tree.specs.Tree.{Tree};
ghost use Rattle.ipld_tree.specs.Spelling.{spelling};
ghost use Rattle.ipld_links.specs.Names.{block_name};
ghost use Rattle.atproto_mst.specs.Trees.{shared, leaf_of, entry_tree};
ghost use Rattle.atproto_mst.specs.Nodes.{tree_of_row, tree_of_node, row_told, node_told};
ghost use Rattle.atproto_events.specs.Pieces.{pieces, subtree_piece, lower_pieces};
ghost use Rattle.atproto_events.specs.Naming.{NamesRows, NamesOver, NamesBelow, NamesRoot};
ghost use Rattle.atproto_events.specs.Naming.{AreLower, NodeFault, FirstOrFault, AloneOrFault};
ghost use Rattle.atproto_events.specs.Naming.{RootFault};
ghost use Rattle.atproto_events.specs.declared.error.UndoError.TheVariants.{OutOfMemory};

use crate::error::UndoError;
use crate::pieces::{Piece, split_lower, top_of};
use dagcbor_write::to_vec;
use ipld_links::name_of_block;
use ipld_tree::{Bytes, Cid};
use std::alloc::{AllocError, Global};
use types_repository::{Entry, Node};

/// Returns the root CID of the tree of the entries that the pieces stand for. Refused if it depends
/// on the content of a subtree that is not stored.
pub(crate) fn root_of_pieces(alloc: Global, all: &[Piece]) -> Result<Cid, UndoError>
    ensures named { IfOk result (NamesRoot (pieces all.now)) }
    ensures refused { IfErr result (RootFault (pieces all.now)) }
{
    node_of(alloc, all, top_of(all))
}

/// Returns the CID of the node over pieces that are all below the layer, or `None` if there are no
/// pieces.
#[cycle(build)]
fn subtree_of(alloc: Global, all: &[Piece], layer: u8) -> Result<Option<Cid>, UndoError>
    requires { AreLower layer (pieces all.now) }
    ensures named { IfOk result (NamesBelow layer (pieces all.now)) }
    ensures refused { IfErr result (NodeFault (pieces all.now)) }
{
    if layer == 0 || all.is_empty() {
        return Ok(None);
    }
    if let Some(name) = lone_subtree(all, layer - 1) {
        return Ok(Some(name));
    }
    let name = node_of(alloc, all, layer - 1)?;
    Ok(Some(name))
}

/// Returns the CID of the only piece, if it is a subtree of this layer.
fn lone_subtree(all: &[Piece], layer: u8) -> Option<Cid>
    ensures { MatchOption result
        ((name : CidParts) → pieces all.now ≢ subtree_piece layer name ∷ [])
        (λ name. pieces all.now ≡ subtree_piece layer name ∷ []) }
{
    let (one, others) = all.split_first()?;
    if !others.is_empty() || one.layer != layer || one.key.is_some() {
        return None;
    }
    Some(one.cid)
}

/// Returns the CID of the node of this layer over pieces that are not above it.
#[cycle(build)]
fn node_of(alloc: Global, all: &[Piece], layer: u8) -> Result<Cid, UndoError>
    requires { AreLower (suc layer) (pieces all.now) }
    ensures named { IfOk result (λ name. (t : Tree)
        × NamesOver (NamesBelow layer) layer (pieces all.now) t
        × (name ≡ block_name (spelling t))) }
    ensures refused { IfErr result (AloneOrFault layer (pieces all.now)) }
{
    let (lower, rest) = split_lower(all, layer);
    let left = subtree_of(alloc, lower, layer)?;
    let rows = rows_of(alloc, rest, layer)?;
    name_of_node(alloc, &Node { l: left, e: rows })
}

/// Returns the rows of a node of this layer over pieces, the first of which must not be below it.
#[cycle(build)]
fn rows_of(alloc: Global, all: &[Piece], layer: u8) -> Result<Vec<Entry>, UndoError>
    requires tops { lower_pieces layer (pieces all.now) ≡ [] }
    requires within { AreLower (suc layer) (pieces all.now) }
    ensures named { IfOk result (λ rows. NamesRows (NamesBelow layer) layer [] (pieces all.now)
        (map tree_of_row (map row_told rows.items))) }
    ensures refused { IfErr result (FirstOrFault layer (pieces all.now)) }
{
    let mut rows = Vec::new(alloc);
    let mut previous: &[u8] = &[];
    let mut rest = all;
    while let Some((top, following)) = rest.split_first() {
        let Some(key) = &top.key else {
            return Err(UndoError::MissingNode(top.cid));
        };
        let (below, next) = split_lower(following, layer);
        rows.reserve(1)?;
        let after = subtree_of(alloc, below, layer)?;
        let row = row_of(alloc, previous, key, top.cid, after)?;
        rows.push_reserved(row);
        previous = key;
        rest = next;
    }
    Ok(rows)
}

/// Returns the row of an entry that follows this key, with this subtree after it.
fn row_of(
    alloc: Global,
    previous: &[u8],
    key: &[u8],
    value: Cid,
    after: Option<Cid>,
) -> Result<Entry, AllocError>
    ensures { IfOk result (λ row. tree_of_row (row_told row)
        ≡ entry_tree previous.now (leaf_of (key.now, value)) after) }
{
    let shared = shared_front(previous, key);
    let rest = key[shared..].to_vec(alloc)?;
    Ok(Entry {
        p: shared as u64,
        k: Bytes(rest),
        v: value,
        t: after,
    })
}

/// Returns how many leading bytes the two keys share.
fn shared_front(first: &[u8], second: &[u8]) -> usize
    ensures value { result ≡ shared first.now second.now }
    ensures bound { result ≤ length second.now }
{
    let most = first.len().min(second.len());
    for index in 0..most {
        if first[index] != second[index] {
            return index;
        }
    }
    most
}

/// Returns the CID of the node.
fn name_of_node(alloc: Global, node: &Node) -> Result<Cid, UndoError>
    ensures named { IfOk result
        (λ name. name ≡ block_name (spelling (tree_of_node (node_told node.now)))) }
    ensures refused { IfErr result (λ e. e ≡ OutOfMemory) }
{
    // Every node can be encoded, so the only refusal is out of memory.
    match to_vec(alloc, node) {
        Ok(block) => Ok(name_of_block(&block)),
        Err(_) => Err(UndoError::OutOfMemory),
    }
}
