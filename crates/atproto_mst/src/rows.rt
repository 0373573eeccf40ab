//! Nodes as they are stored in blocks.

ghost use Rattle.std.specs.Prelude.{map, IfOk, MatchOption};
ghost use Rattle.std.specs.List.{AllByRecursion};
ghost use Rattle.ipld_tree.specs.Cid.{AreCidParts};
ghost use Rattle.ipld_tree.specs.Spelling.{IsSpelling};
ghost use Rattle.atproto_mst.specs.Nodes.{NodeParts, IsCidIfAny, IsNode, tree_of_node};
ghost use Rattle.atproto_mst.specs.Nodes.{row_told, node_told};

use dagcbor_core::DecodeError;
use dagcbor_read::from_slice;
use dagcbor_write::to_vec;
use ipld_tree::Cid;
use std::alloc::{AllocError, Global};
use types_repository::{Entry, Node};

/// Decodes a block as a node. Returns `None` if it is not one, such as a map with other fields.
pub(crate) fn read_node(alloc: Global, block: &[u8]) -> Result<Option<Node>, AllocError>
    ensures { IfOk result (λ found. MatchOption found ((p : NodeParts) → ¬ IsNode block.now p)
        (λ node. IsNode block.now (node_told node))) }
{
    match from_slice::<Node>(alloc, block) {
        Ok(node) => {
            has_cid(&node.l);
            have_cids(&node.e);
            Ok(Some(node))
        }
        Err(error) => match error {
            DecodeError::OutOfMemory => Err(AllocError),
            _ => Ok(None),
        },
    }
}

/// Does nothing. Calling `version` gives the proof that the link is a CID.
fn has_cid(link: &Option<Cid>)
    ensures { IsCidIfAny link.now }
{
    if let Some(cid) = link {
        let _version = cid.version();
    }
}

/// Does the same for the CIDs of the entries.
fn have_cids(rows: &[Entry])
    ensures { AllByRecursion (λ r. AreCidParts r.value × IsCidIfAny r.after)
        (map row_told rows.now) }
{
    for row in rows {
        let _version = row.v.version();
        has_cid(&row.t);
    }
}

/// Encodes a node as its block.
pub(crate) fn spell_node(alloc: Global, node: &Node) -> Result<Vec<u8>, AllocError>
    ensures { IfOk result (λ v. IsSpelling v.items
        (tree_of_node (node_told node.now))) }
{
    // Every node can be encoded, so the only refusal is out of memory.
    match to_vec(alloc, node) {
        Ok(block) => Ok(block),
        Err(_) => Err(AllocError),
    }
}
