//! Builds the nodes of a tree from its leaves.

ghost use Rattle.std.specs.Prelude.{◌≡◌, [], ◌∷◌, map, Some, IfOk, OnOk, IfErr};
ghost use Rattle.ipld_tree.specs.Spelling.{spelling};
ghost use Rattle.ipld_links.specs.Names.{block_name};
ghost use Rattle.atproto_mst.specs.Trees.{lower_run, entry_tree, entry_trees, node_section};
ghost use Rattle.atproto_mst.specs.Trees.{subtree, node, subtree_nodes, nodes, nodes_between};
ghost use Rattle.atproto_mst.specs.Nodes.{tree_of_row, tree_of_node, row_told, node_told};
ghost use Rattle.atproto_mst.specs.Placed.{told, all_told};
ghost use Rattle.atproto_mst.specs.Sinks.{HandsOver, HandsOverFirst, RefusesOne};

use crate::error::MstError;
use crate::keys::shared_front;
use crate::leaves::{Placed, count_lower, split_lower};
use crate::rows::spell_node;
use crate::sink::NodeSink;
use ipld_links::name_of_block;
use ipld_tree::{Bytes, Cid};
use std::alloc::{AllocError, Global};
use types_repository::{Entry, Node};

/// Hands over the nodes of the subtree over leaves that are all below the layer. Returns the CID of
/// the last node, or `None` if there are no leaves.
#[cycle(build)]
fn name_subtree<S: NodeSink>(
    alloc: Global,
    leaves: &[Placed<'_>],
    layer: u8,
    sink: &mut S,
) -> Result<Option<Cid>, MstError>
    ensures name { IfOk result (λ name. name ≡ subtree layer (all_told leaves.now)) }
    ensures taken { OnOk result
        (HandsOver S.holds sink.old (subtree_nodes layer (all_told leaves.now)) sink.new) }
    ensures refused { IfErr result
        (RefusesOne S.holds S.refuses sink.old (subtree_nodes layer (all_told leaves.now))) }
    ensures begun { IfErr result
        (λ _. HandsOverFirst S.holds sink.old (subtree_nodes layer (all_told leaves.now)) sink.new) }
{
    if layer == 0 || leaves.is_empty() {
        return Ok(None);
    }
    let name = name_node(alloc, leaves, layer - 1, sink)?;
    Ok(Some(name))
}

/// Hands over the nodes of the tree whose root is in this layer, the root last. Returns the root's
/// CID.
#[cycle(build)]
pub(crate) fn name_node<S: NodeSink>(
    alloc: Global,
    leaves: &[Placed<'_>],
    layer: u8,
    sink: &mut S,
) -> Result<Cid, MstError>
    ensures name { IfOk result
        (λ name. name ≡ block_name (spelling (node layer (all_told leaves.now)))) }
    ensures taken { OnOk result
        (HandsOver S.holds sink.old (nodes layer (all_told leaves.now)) sink.new) }
    ensures refused { IfErr result
        (RefusesOne S.holds S.refuses sink.old (nodes layer (all_told leaves.now))) }
    ensures begun { IfErr result
        (λ _. HandsOverFirst S.holds sink.old (nodes layer (all_told leaves.now)) sink.new) }
{
    let (lower, rest) = split_lower(leaves, layer);
    let left = name_subtree(alloc, lower, layer, sink)?;
    let rows = name_rows(alloc, rest, layer, sink)?;
    hand_over(alloc, &Node { l: left, e: rows }, sink)
}

/// Hands over the nodes between and after the leaves of this layer. The first leaf must be of the
/// layer. Returns the node's entries.
#[cycle(build)]
fn name_rows<S: NodeSink>(
    alloc: Global,
    leaves: &[Placed<'_>],
    layer: u8,
    sink: &mut S,
) -> Result<Vec<Entry>, MstError>
    requires { lower_run layer (all_told leaves.now) ≡ [] }
    ensures rows { IfOk result (λ rows. map tree_of_row (map row_told rows.items)
        ≡ entry_trees (subtree layer) layer [] (all_told leaves.now)) }
    ensures taken { OnOk result (HandsOver S.holds sink.old
        (nodes_between (subtree_nodes layer) layer (all_told leaves.now)) sink.new) }
    ensures refused { IfErr result (RefusesOne S.holds S.refuses sink.old
        (nodes_between (subtree_nodes layer) layer (all_told leaves.now))) }
    ensures begun { IfErr result (λ _. HandsOverFirst S.holds sink.old
        (nodes_between (subtree_nodes layer) layer (all_told leaves.now)) sink.new) }
{
    let mut rows = Vec::new(alloc);
    let mut previous: &[u8] = &[];
    let mut at = 0;
    while at < leaves.len() {
        let top = &leaves[at];
        let following = &leaves[at + 1..];
        let count = count_lower(following, layer);
        rows.reserve(1)?;
        let after = name_subtree(alloc, &following[..count], layer, sink)?;
        let row = row_of(alloc, previous, top, after)?;
        rows.push_reserved(row);
        previous = top.key;
        at += 1 + count;
    }
    Ok(rows)
}

/// Returns the node entry of a leaf that follows this key, with this subtree after it.
fn row_of(
    alloc: Global,
    previous: &[u8],
    leaf: &Placed<'_>,
    after: Option<Cid>,
) -> Result<Entry, AllocError>
    ensures { IfOk result
        (λ row. tree_of_row (row_told row) ≡ entry_tree previous.now (told leaf.now) after) }
{
    let shared = shared_front(previous, leaf.key);
    let rest = leaf.key[shared..].to_vec(alloc)?;
    Ok(Entry {
        p: shared as u64,
        k: Bytes(rest),
        v: leaf.value,
        t: after,
    })
}

/// Encodes the node, hands it over, and returns its CID.
fn hand_over<S: NodeSink>(alloc: Global, node: &Node, sink: &mut S) -> Result<Cid, MstError>
    ensures name { IfOk result (λ name. name ≡ block_name (spelling
        (tree_of_node (node_told node.now)))) }
    ensures taken { OnOk result (HandsOver S.holds sink.old (node_section
        (tree_of_node (node_told node.now)) ∷ []) sink.new) }
    ensures refused { IfErr result (RefusesOne S.holds S.refuses sink.old (node_section
        (tree_of_node (node_told node.now)) ∷ [])) }
    ensures begun { IfErr result (λ _. HandsOverFirst S.holds sink.old (node_section
        (tree_of_node (node_told node.now)) ∷ []) sink.new) }
{
    let block = spell_node(alloc, node)?;
    let name = name_of_block(&block);
    sink.take(name, block)?;
    Ok(name)
}
