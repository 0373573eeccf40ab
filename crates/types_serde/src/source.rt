//! Reading whole values from sources, through the bytes of one block: a `Deserializer` of serde
//! reads a slice.

ghost use Rattle.std.specs.Prelude.{IfOk, IfErr, OnOk, IfSome};
ghost use Rattle.dagcbor_heads.specs.Inputs.{OverInput};
ghost use Rattle.dagcbor_items.specs.AnsweredVariants.{OfItem};
ghost use Rattle.types_serde.specs.Sources.{PullsBlock, IsBlockWith, SourceRefused};
ghost use Rattle.types_serde.specs.Sources.{TakesBlockBytes, FirstRefused, IsSourceMisfit};
ghost use Rattle.types_serde.specs.Sources.{IsFirstMisfit, IsSomeBlock, TakesSomeBlock};

use crate::error::Error;
use crate::whole::fit;
use dagcbor_core::DecodeError;
use dagcbor_heads::{Input, IoReader, IoRefReader, Read, ReadResult, is_at_end};
use dagcbor_items::read_any;
use dagcbor_write::to_vec as spelling_of;
use serde::DeserializeOwned;
use std::alloc::Global;
use std::io;
use std::io::BufRead;

/// Takes the item at the front and returns its bytes. An announced length by itself takes no
/// memory.
pub(crate) fn pull_block<R: Read>(alloc: Global, input: &mut Input<'_, R>) -> ReadResult<Vec<u8>, R>
    ensures block { OverInput R.reading PullsBlock input.old result input.new }
    ensures variant { IfErr result OfItem }
{
    let tree = read_any(alloc, input)?;
    match spelling_of(alloc, &tree) {
        Ok(bytes) => Ok(bytes),
        Err(_) => Err(DecodeError::OutOfMemory),
    }
}

/// Reads the source's bytes, if they are a block. It reads them item by item as far as they are
/// one, so that an announced length takes no memory.
pub fn block_from_reader<R: BufRead + Drop>(
    alloc: Global,
    reader: R,
) -> Result<Vec<u8>, DecodeError<io::Error>>
    ensures block { IfOk result (λ v. IfSome (R.remaining reader) (λ b. IsBlockWith b v.items)) }
    ensures refused { IfErr result (λ e. IfSome (R.remaining reader) (SourceRefused e)) }
{
    let mut input = Input::Reader(IoReader::new(reader));
    let block = pull_block(alloc, &mut input)?;
    if is_at_end(&mut input)? {
        Ok(block)
    } else {
        Err(DecodeError::TrailingData)
    }
}

/// Reads the bytes of the first block of the source, which is then left with exactly the bytes
/// after it. After a refusal, nothing is known of the bytes left.
pub fn block_from_reader_once<R: BufRead>(
    alloc: Global,
    reader: &mut R,
) -> Result<Vec<u8>, DecodeError<io::Error>>
    ensures block { IfOk result (λ v. IfSome (R.remaining reader.old)
        (λ b. TakesBlockBytes b v.items (R.remaining reader.new))) }
    ensures refused { IfErr result (λ e. IfSome (R.remaining reader.old) (FirstRefused e)) }
{
    let mut input = Input::Reader(IoRefReader::new(reader));
    let result = pull_block(alloc, &mut input);
    if let Some(lent) = input.into_reader() {
        let source = lent.into_inner();
        // No effect at run time. The proof reads what `reader` has left from this use of `source`.
        let _ = &*source;
    }
    result
}

/// Reads a value of the type from a source that is a block as a whole.
pub fn from_reader<T: DeserializeOwned, R: BufRead + Drop>(
    alloc: Global,
    reader: R,
) -> Result<T, Error<io::Error>>
    ensures block { OnOk result (IfSome (R.remaining reader) IsSomeBlock) }
    ensures refused { IfErr result (λ e. IfSome (R.remaining reader) (IsSourceMisfit e)) }
{
    match block_from_reader(alloc, reader) {
        Ok(block) => fit(alloc, &block),
        Err(error) => Err(Error::NoBlock(error)),
    }
}

/// Reads a value of the type from the first block of a source. The source is then left with exactly
/// the bytes after the block, even if the type does not accept it.
pub fn from_reader_once<T: DeserializeOwned, R: BufRead>(
    alloc: Global,
    reader: &mut R,
) -> Result<T, Error<io::Error>>
    ensures block { OnOk result (IfSome (R.remaining reader.old)
        (λ b. TakesSomeBlock b (R.remaining reader.new))) }
    ensures refused { IfErr result (λ e. IfSome (R.remaining reader.old)
        (λ b. IsFirstMisfit e b (R.remaining reader.new))) }
{
    match block_from_reader_once(alloc, reader) {
        Ok(block) => fit(alloc, &block),
        Err(error) => Err(Error::NoBlock(error)),
    }
}
