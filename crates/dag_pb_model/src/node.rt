//! Writes the node of a data model.

ghost use Rattle.std.specs.Prelude.{◌≡◌, length, option_map, MatchOption, MatchResult};
ghost use Rattle.dagcbor_decode.specs.Blocks.{IsBlock};
ghost use Rattle.lent_memory.specs.Puts.{with_front};
ghost use Rattle.dag_pb.specs.Node.{NodeParts};
ghost use Rattle.dag_pb.specs.Spelling.{node_spelling, AreSorted, IsSpellable};
ghost use Rattle.dag_pb_model.specs.Model.{node_model};
ghost use Rattle.dag_pb_model.specs.Reading.{IsMeasuredModel, HasNoNode};
ghost use Rattle.dag_pb_model.specs.Written.{IsNotPut};

use crate::fill_node::fill_node;
use crate::measure_links::measure_links;
use crate::node_error::NodeError;
use crate::open::open_node;
use dag_pb::data_length;
use dagcbor_decode::check_slice;

/// The data of a node, the data models of its links, the length of its block in bytes, and whether
/// its links are sorted.
#[derive(Clone, Copy, Debug)]
struct Measured<'a> {
    data: Option<&'a [u8]>,
    links: &'a [u8],
    size: usize,
    sorted: bool,
}

/// Returns the measure of the node with this data model. `None` if the bytes are not a node's data
/// model.
fn measure_node(model: &[u8]) -> Option<Measured<'_>>
    ensures { MatchOption result (HasNoNode model.now)
        (λ m. IsMeasuredModel model.now (option_map (λ b. b.now) m.«data») m.links.now m.size m.sorted) }
{
    let (data, count, links) = open_node(model)?;
    let (fields, sorted) = measure_links(count, links)?;
    let size = fields + data_length(data);
    Some(Measured {
        data,
        links,
        size,
        sorted,
    })
}

/// Returns why the bytes are not a node's data model.
fn refusal(model: &[u8]) -> NodeError
    requires { HasNoNode model.now }
    ensures { IsNotPut model.now result }
{
    match check_slice(model) {
        Ok(_) => NodeError::NotANode,
        Err(e) => NodeError::NoBlock(e),
    }
}

/// Writes the block of DAG-PB whose data model is this block of DAG-CBOR at the front of `out`, if
/// it has room; else `out` stays as it is. Returns the length of the block in bytes. Refuses links
/// that are not sorted by the bytes of their names, as encoders of DAG-PB write them.
pub fn put_node(model: &[u8], out: &mut [u8]) -> Result<usize, NodeError>
    ensures { MatchResult result
        (λ n. (node : NodeParts) × IsBlock model.now (node_model node) × IsSpellable node
        × AreSorted node.links × (n ≡ length (node_spelling node))
        × (out.new ≡ with_front (node_spelling node) out.old))
        (λ e. IsNotPut model.now e × (out.new ≡ out.old)) }
{
    let Some(node) = measure_node(model) else {
        return Err(refusal(model));
    };
    if !node.sorted {
        return Err(NodeError::UnsortedLinks);
    }
    if node.size > out.len() {
        return Ok(node.size);
    }
    fill_node(node.data, node.links, out);
    Ok(node.size)
}
