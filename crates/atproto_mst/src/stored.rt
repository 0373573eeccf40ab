//! Reading a stored node.

ghost use Rattle.std.specs.Prelude.{◌≡◌, ◌⊎◌, MatchResult};
ghost use Rattle.ipld_links.specs.Reaching.{stored_in};
ghost use Rattle.atproto_mst.specs.Nodes.{IsNodeAt, node_told};
ghost use Rattle.atproto_mst.specs.Stops.{IsStoredNamed, NodeFault};
ghost use Rattle.atproto_mst.specs.declared.error.MstError.TheVariants.{OutOfMemory};

use crate::error::MstError;
use crate::rows::read_node;
use ipld_links::{name_of_block, stored_bytes};
use ipld_tree::Cid;
use std::alloc::Global;
use std::collections::BTreeMap;
use types_repository::Node;

/// Reads the node that is stored under this CID, and checks that its bytes match the CID.
pub(crate) fn node_at(
    alloc: Global,
    blocks: &BTreeMap<Cid, Vec<u8>>,
    name: &Cid,
) -> Result<Node, MstError>
    ensures { MatchResult result
        (λ node. IsNodeAt (stored_in blocks.now) name.now (node_told node))
        (λ e. ((e ≡ OutOfMemory) × IsStoredNamed (stored_in blocks.now) name.now)
        ⊎ NodeFault (stored_in blocks.now) name.now e) }
{
    let Some(block) = stored_bytes(blocks, name) else {
        return Err(MstError::MissingNode(*name));
    };
    if name_of_block(block) != *name {
        return Err(MstError::OtherBytes(*name));
    }
    match read_node(alloc, block)? {
        Some(node) => Ok(node),
        None => Err(MstError::NoNode(*name)),
    }
}
