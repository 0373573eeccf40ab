//! The data of a node, and the message in it.

ghost use Rattle.std.specs.Prelude.{◌≡◌, [], ◌∷◌, option_map, MatchOption, MatchResult};
ghost use Rattle.files_unix_fs.specs.Held.{held_field, held_parts};
ghost use Rattle.files_unix_fs.specs.Nodes.{data_in, data_of};
ghost use Rattle.files_unix_fs.specs.Messages.{Says, SaysNothing};

use crate::error::UnixFsError;
use crate::field::{Field, Value, split_field};
use crate::message::{UnixFs, read_unix_fs};
use dag_pb::{PbError, check_node};

/// The tag of a node's data: field 1, of bytes.
const DATA: u64 = 0x0a;

/// Why a block has no message of a file or a directory.
#[derive(Clone, Copy)]
pub(crate) enum NodeError {
    NotANode(PbError),
    NoData,
    NoMessage(UnixFsError),
}

/// Validates the block as DAG-PB, and reads the message in its data.
pub(crate) fn read_message(block: &[u8]) -> Result<UnixFs<'_>, NodeError>
    ensures { MatchResult result
        (λ said. Says block.now (held_parts said))
        (λ e. SaysNothing e block.now) }
{
    if let Err(fault) = check_node(block) {
        return Err(NodeError::NotANode(fault));
    }
    let Some(message) = node_data(block) else {
        return Err(NodeError::NoData);
    };
    match read_unix_fs(message) {
        Ok(said) => Ok(said),
        Err(fault) => Err(NodeError::NoMessage(fault)),
    }
}

/// Returns the data of a block of DAG-PB, which hold the message. From other bytes it returns the
/// first field 1 of bytes. `None` if there is none.
#[tactic(auto, using(crate::proofs::Nodes::data_found, crate::proofs::Nodes::no_data), unfolding(crate::specs::Nodes::data_of))]
pub fn node_data(block: &[u8]) -> Option<&[u8]>
    ensures { option_map (λ s. s.now) result ≡ data_of block.now }
{
    let mut rest = block;
    while let Ok((field, following)) = split_field(rest) {
        if let Some(inner) = data_of_field(&field) {
            return Some(inner);
        }
        rest = following;
    }
    None
}

/// Returns the data, if the field holds them.
fn data_of_field<'a>(field: &Field<'a>) -> Option<&'a [u8]>
    ensures { MatchOption result (data_in (held_field field.now) ≡ [])
        (λ inner. data_in (held_field field.now) ≡ inner.now ∷ []) }
{
    match field.value {
        Value::Bytes(inner) if field.tag == DATA => Some(inner),
        _ => None,
    }
}
