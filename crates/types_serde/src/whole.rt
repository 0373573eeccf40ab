//! Reading and writing whole values.

ghost use Rattle.std.specs.Prelude.{◌≤◌, [], Some, length, IfOk, IfErr, OnOk};
ghost use Rattle.serde.specs.Event.{Log};
ghost use Rattle.dagcbor_decode.specs.Blocks.{IsBlock};
ghost use Rattle.ipld_tree.specs.Tree.{Tree};
ghost use Rattle.types_serde.specs.Blocks.{IsBlockOfLog, IsRefused, IsMisfitIn};

use crate::block::Block;
use crate::error::{Error, Misfit, WriteError};
use crate::writer::Writer;
use dagcbor_decode::check_slice;
use serde::{Deserialize, DeserializeOwned, Deserializer, Serialize};
use std::alloc::Global;
use std::convert::Infallible;

/// Returns the one spelling of the tree of the value's events.
pub fn to_vec<T: Serialize>(alloc: Global, value: &T) -> Result<Vec<u8>, WriteError>
    ensures { IfOk result
        (λ v. (log : Log) × T.writes value.now (Some []) log × IsBlockOfLog log v.items) }
{
    let Ok(out) = Vec::with_capacity(alloc, 128) else {
        return Err(WriteError::OutOfMemory);
    };
    let mut writer = Writer::new(alloc, out);
    value.serialize(&mut writer)?;
    writer.into_bytes()
}

/// Reads a value of the type from a block.
pub fn from_slice<'de, T: Deserialize<'de>>(
    alloc: Global,
    bytes: &'de [u8],
) -> Result<T, Error<Infallible>>
    ensures block { OnOk result ((t : Tree) × IsBlock bytes.now t) }
    ensures refused { IfErr result (λ e. IsRefused e bytes.now) }
{
    judge(bytes)?;
    let mut block = Block::new(alloc, bytes);
    match read_whole(alloc, bytes, &mut block) {
        Ok(value) => Ok(value),
        Err(cause) => Err(misfit(cause, &block, bytes)),
    }
}

/// Does what `from_slice` does, for a type that borrows nothing.
pub fn from_slice_owned<T: DeserializeOwned>(
    alloc: Global,
    bytes: &[u8],
) -> Result<T, Error<Infallible>>
    ensures block { OnOk result ((t : Tree) × IsBlock bytes.now t) }
    ensures refused { IfErr result (λ e. IsRefused e bytes.now) }
{
    judge(bytes)?;
    fit(alloc, bytes)
}

/// Does what `from_slice_owned` does, for a value that holds all that the block says. Such a value
/// is written as the same bytes again.
pub fn from_slice_lossless<T: Serialize + DeserializeOwned>(
    alloc: Global,
    bytes: &[u8],
) -> Result<T, Error<Infallible>>
    ensures value { IfOk result
        (λ v. (log : Log) × T.writes v (Some []) log × IsBlockOfLog log bytes.now) }
    ensures refused { IfErr result (λ e. IsRefused e bytes.now) }
{
    let value: T = from_slice_owned(alloc, bytes)?;
    let again = match to_vec(alloc, &value) {
        Ok(again) => again,
        Err(error) => {
            let cause = unwritten(error);
            return Err(Error::Misfit { cause, at: 0 });
        }
    };
    if again.as_slice() != bytes {
        let at = first_difference(bytes, &again);
        return Err(Error::Misfit {
            cause: Misfit::Lossy,
            at,
        });
    }
    Ok(value)
}

/// Returns why a value that was read is not written again.
fn unwritten(error: WriteError) -> Misfit {
    match error {
        WriteError::OutOfMemory => Misfit::OutOfMemory,
        _ => Misfit::Lossy,
    }
}

/// Returns the index of the first byte that differs, or the length if none does.
fn first_difference(bytes: &[u8], others: &[u8]) -> usize
    ensures { result ≤ length bytes.now }
{
    for at in 0..bytes.len() {
        if others.get(at) != Some(&bytes[at]) {
            return at;
        }
    }
    bytes.len()
}

/// Reads a value of the type from bytes that are a block.
pub(crate) fn fit<T: DeserializeOwned, E>(alloc: Global, bytes: &[u8]) -> Result<T, Error<E>>
    ensures { IfErr result (IsMisfitIn bytes.now) }
{
    let mut block = Block::new(alloc, bytes);
    match read_whole_owned(alloc, bytes, &mut block) {
        Ok(value) => Ok(value),
        Err(cause) => Err(misfit(cause, &block, bytes)),
    }
}

/// Returns the refusal of a block, with the place that the reader reached.
fn misfit<E>(cause: Misfit, block: &Block<'_>, bytes: &[u8]) -> Error<E>
    ensures { IsMisfitIn bytes.now result }
{
    let at = block.place_in(bytes);
    Error::Misfit { cause, at }
}

/// Rejects bytes that are not a block.
fn judge(bytes: &[u8]) -> Result<(), Error<Infallible>>
    ensures block { OnOk result ((t : Tree) × IsBlock bytes.now t) }
    ensures refused { IfErr result (λ e. IsRefused e bytes.now) }
{
    match check_slice(bytes) {
        Ok(_) => Ok(()),
        Err(error) => Err(Error::NoBlock(error)),
    }
}

fn read_whole<'de, T: Deserialize<'de>>(
    alloc: Global,
    bytes: &'de [u8],
    block: &mut Block<'_>,
) -> Result<T, Misfit> {
    let value = T::deserialize(alloc, &mut Deserializer::new(bytes, block))?;
    block.end()?;
    Ok(value)
}

fn read_whole_owned<T: DeserializeOwned>(
    alloc: Global,
    bytes: &[u8],
    block: &mut Block<'_>,
) -> Result<T, Misfit> {
    let value = T::deserialize_owned(alloc, &mut Deserializer::new(bytes, block))?;
    block.end()?;
    Ok(value)
}
