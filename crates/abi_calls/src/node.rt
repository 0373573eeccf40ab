//! Blocks of DAG-PB as DAG-CBOR of their data model, written into the caller's memory.

ghost use Rattle.std.specs.Prelude.{◌≡◌, pos, negsuc, if◌then◌else◌, nat_lt};
ghost use Rattle.abi_calls.specs.Nodes.{pb_code, node_refusal_code};
ghost use Rattle.abi_calls.specs.Nodes.{IsFromNodeAnswer, IsToNodeAnswer, IsNodeLinksAnswer};

use crate::code::{NO_ROOM, refusal_code};
use crate::links::pack_fields;
use dag_pb::{PbCause, check_node};
use dag_pb_model::{ModelError, NodeError, put_model, put_node};

/// The number returned if the name of a link is not UTF-8.
const NAME_NOT_TEXT: i32 = -58;

/// Returns the number of why bytes are not a block of DAG-PB.
fn pb_code(cause: &PbCause) -> i32
    ensures { result ≡ pb_code cause.now }
{
    match cause {
        PbCause::Truncated => -53,
        PbCause::InvalidVarint => -54,
        PbCause::UnexpectedField(_) => -55,
        PbCause::NoHash => -56,
        PbCause::InvalidCid(_) => -57,
    }
}

/// Returns the number of why data is not written as a node.
fn node_refusal_code(refusal: &NodeError) -> i32
    ensures { result ≡ node_refusal_code refusal.now }
{
    match refusal {
        NodeError::NoBlock(refusal) => refusal_code(refusal),
        NodeError::NotANode => -59,
        NodeError::UnsortedLinks => -60,
    }
}

/// Returns 0 if `count` bytes fit, and else -21.
fn room_code(count: usize, room: usize) -> i32
    ensures { result ≡ (if nat_lt room count then negsuc 20 else pos 0) }
{
    if room < count { NO_ROOM } else { 0 }
}

/// Writes the links of the block of DAG-PB, packed, whatever their names are.
pub fn put_node_links(node: &[u8], out: &mut [u8], needed: &mut usize, place: &mut usize) -> i32
    ensures { IsNodeLinksAnswer node.now out.old out.new needed.new place.new result }
{
    *needed = 0;
    *place = 0;
    match check_node(node) {
        Ok(()) => {
            *needed = pack_fields(node, &mut [0; 0]);
            if *needed <= out.len() {
                pack_fields(node, out);
            }
            0
        }
        Err(error) => {
            *place = error.place;
            pb_code(&error.cause)
        }
    }
}

/// Writes the data model of the block of DAG-PB, as a block of DAG-CBOR.
pub fn put_from_node(node: &[u8], out: &mut [u8], needed: &mut usize, place: &mut usize) -> i32
    ensures { IsFromNodeAnswer node.now out.old out.new needed.new place.new result }
{
    *needed = 0;
    *place = 0;
    match put_model(node, out) {
        Ok(count) => {
            *needed = count;
            room_code(count, out.len())
        }
        Err(ModelError::NoNode(error)) => {
            *place = error.place;
            pb_code(&error.cause)
        }
        Err(ModelError::NameNotText) => NAME_NOT_TEXT,
    }
}

/// Writes the block of DAG-PB whose data model is the block of DAG-CBOR.
pub fn put_to_node(block: &[u8], out: &mut [u8], needed: &mut usize) -> i32
    ensures { IsToNodeAnswer block.now out.old out.new needed.new result }
{
    *needed = 0;
    match put_node(block, out) {
        Ok(count) => {
            *needed = count;
            room_code(count, out.len())
        }
        Err(refusal) => node_refusal_code(&refusal),
    }
}
