//! Validates blocks of the codecs whose links are read.

ghost use Rattle.std.specs.Prelude.{◌↔◌, IsTrue};
ghost use Rattle.dag_pb.specs.Node.{HasNode};
ghost use Rattle.ipld_links.specs.Blocks.{HasBlock, IsBlockOf};

use crate::name::{DAG_CBOR, DAG_PB};
use dag_pb::check_node;
use dagcbor_decode::check_slice;

/// Returns whether the bytes are a block of DAG-CBOR.
pub fn is_item(bytes: &[u8]) -> bool
    ensures { IsTrue result ↔ HasBlock bytes.now }
{
    check_slice(bytes).is_ok()
}

/// Returns whether the bytes are a block of DAG-PB.
pub fn is_node(bytes: &[u8]) -> bool
    ensures { IsTrue result ↔ HasNode bytes.now }
{
    check_node(bytes).is_ok()
}

/// Returns whether the codec is DAG-CBOR or DAG-PB, and the bytes are a block of it. Links are read
/// only in such blocks.
pub fn is_block_of(codec: u64, bytes: &[u8]) -> bool
    ensures { IsTrue result ↔ IsBlockOf codec bytes.now }
{
    match codec {
        DAG_CBOR => is_item(bytes),
        DAG_PB => is_node(bytes),
        _ => false,
    }
}
