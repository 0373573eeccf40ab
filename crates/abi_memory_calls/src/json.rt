//! DAG-JSON of a block, and the block of a text, written into the caller's memory.

ghost use Rattle.std.specs.Prelude.{◌≡◌, IfOk};
ghost use Rattle.ipld_tree.specs.Ipld.{tree_of};
ghost use Rattle.ipld_tree.specs.Spelling.{IsSpelling};
ghost use Rattle.dagcbor_decode.specs.TreeKinds.{kind_of};
ghost use Rattle.abi_calls.specs.Codes.{kind_code};
ghost use Rattle.abi_calls.specs.CidTexts.{IsPutText};
ghost use Rattle.abi_memory_calls.specs.JsonAnswers.{json_code, IsDataAnswer, IsToJsonAnswer};
ghost use Rattle.abi_memory_calls.specs.JsonAnswers.{IsFromJsonAnswer};

use crate::call::NO_MEMORY;
use abi_calls::{kind_code, put_front, refusal_code};
use dagcbor_decode::{Kind, check_slice};
use dagcbor_items::any_from_slice;
use dagcbor_write::to_vec;
use ipld_tree::Ipld;
use std::alloc::{AllocError, Global};
use text_dag_json::{DagJsonError, dag_json, data_from_json, has_reserved_key};

/// The number returned for a map that has the key `/`, and is neither a link nor bytes.
const RESERVED_KEY: i32 = -50;

/// Returns the number of why a text is not data.
fn json_code(cause: &DagJsonError) -> i32
    ensures { result ≡ json_code cause.now }
{
    match cause {
        DagJsonError::NoText => -43,
        DagJsonError::NoJson => -44,
        DagJsonError::TrailingData => -45,
        DagJsonError::TooDeep => -46,
        DagJsonError::Float => -47,
        DagJsonError::OutOfRange => -48,
        DagJsonError::RepeatedKey => -49,
        DagJsonError::ReservedKey => RESERVED_KEY,
        DagJsonError::NoCid(_) => -51,
        DagJsonError::NoBase64 => -52,
        DagJsonError::OutOfMemory => NO_MEMORY,
    }
}

/// Returns the kind of the data.
fn kind_of(value: &Ipld) -> Kind
    ensures { result ≡ kind_of (tree_of value.now) }
{
    match value {
        Ipld::Null => Kind::Null,
        Ipld::Bool(_) => Kind::Bool,
        Ipld::Integer(_) => Kind::Integer,
        Ipld::String(_) => Kind::String,
        Ipld::Bytes(_) => Kind::Bytes,
        Ipld::List(_) => Kind::List,
        Ipld::Map(_) => Kind::Map,
        Ipld::Link(_) => Kind::Link,
    }
}

/// Puts the bytes that are made of the data. Returns the number of its kind.
fn put_made(value: &Ipld, made: &[u8], out: &mut [u8], needed: &mut usize) -> i32
    ensures { IsPutText (kind_code (kind_of (tree_of value.now))) made.now out.old out.new needed.new
        result }
{
    put_front(kind_code(kind_of(value)), made, out, needed)
}

/// Puts the text of a block's data. If a map has the key `/`, no text can be read as that data.
fn put_data(alloc: Global, value: &Ipld, out: &mut [u8], needed: &mut usize) -> i32
    ensures { IsDataAnswer (tree_of value.now) out.old out.new needed.new result }
{
    *needed = 0;
    if has_reserved_key(value) {
        return RESERVED_KEY;
    }
    match dag_json(alloc, value) {
        Ok(text) => put_made(value, &text, out, needed),
        Err(_) => NO_MEMORY,
    }
}

/// Puts the DAG-JSON of the block. The bytes are judged first, so nothing is allocated if they are
/// not a block.
pub fn put_json(alloc: Global, block: &[u8], out: &mut [u8], needed: &mut usize) -> i32
    ensures { IsToJsonAnswer block.now out.old out.new needed.new result }
{
    *needed = 0;
    if let Err(refusal) = check_slice(block) {
        return refusal_code(&refusal);
    }
    match any_from_slice(alloc, block) {
        Ok(value) => put_data(alloc, &value, out, needed),
        Err(_) => NO_MEMORY,
    }
}

/// Returns the block of the data. Data read from a text always has one, so only memory can run out.
fn block_of(alloc: Global, value: &Ipld) -> Result<Vec<u8>, AllocError>
    ensures { IfOk result (λ v. IsSpelling v.items (tree_of value.now)) }
{
    match to_vec(alloc, value) {
        Ok(block) => Ok(block),
        Err(_) => Err(AllocError),
    }
}

/// Puts the block of the data that the text spells in DAG-JSON.
#[tactic(auto, using(crate::proofs::JsonReading::block_read))]
pub fn put_block(
    alloc: Global,
    text: &[u8],
    out: &mut [u8],
    needed: &mut usize,
    place: &mut usize,
) -> i32
    ensures { IsFromJsonAnswer text.now out.old out.new needed.new place.new result }
{
    *needed = 0;
    *place = 0;
    match data_from_json(alloc, text) {
        Ok(value) => match block_of(alloc, &value) {
            Ok(block) => {
                *place = text.len();
                put_made(&value, &block, out, needed)
            }
            Err(_) => NO_MEMORY,
        },
        Err(refusal) => match refusal.cause {
            DagJsonError::OutOfMemory => NO_MEMORY,
            _ => {
                *place = refusal.offset;
                json_code(&refusal.cause)
            }
        },
    }
}
