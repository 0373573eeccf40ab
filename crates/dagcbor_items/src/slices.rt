//! Reads a slice as one item of any kind.

ghost use Rattle.std.specs.Prelude.{◌≡◌, Some, [], true, IfOk, IfErr};
ghost use Rattle.dagcbor_core.specs.Steps.{default_steps};
ghost use Rattle.dagcbor_heads.specs.Reading.{fresh_reading};
ghost use Rattle.dagcbor_heads.specs.Inputs.{input_reading};
ghost use Rattle.ipld_tree.specs.Ipld.{tree_of};
ghost use Rattle.dagcbor_decode.specs.Blocks.{IsBlock};
ghost use Rattle.dagcbor_items.specs.Slices.{SliceRefused, PullsEnd};

use crate::any::read_any;
use dagcbor_core::DecodeError;
use dagcbor_heads::{Input, Read, ReadResult, SliceReader, is_at_end};
use ipld_tree::Ipld;
use std::alloc::Global;
use std::convert::Infallible;

/// Returns the data of which these bytes are the spelling, as `from_slice` does. Its contract also
/// names the cause of a refusal.
///
/// ```rust
/// let place = r#"Err(NonMinimal { name: "u64", found: 24 })"#;
/// is_told(alloc, &any_from_slice(alloc, b"\x81\x18\x17"), place)
/// ```
pub fn any_from_slice(alloc: Global, bytes: &[u8]) -> Result<Ipld, DecodeError<Infallible>>
    ensures value { IfOk result (λ v. IsBlock bytes.now (tree_of v)) }
    ensures refused { IfErr result (λ e. SliceRefused e bytes.now) }
{
    let mut input = lent(bytes);
    let value = read_any(alloc, &mut input)?;
    pull_end(&mut input)?;
    Ok(value)
}

/// Returns the bytes as an input, which lends them, with a budget of `DEFAULT_STEPS`.
fn lent<'de>(bytes: &'de [u8]) -> Input<'de, SliceReader<'de>>
    ensures { input_reading (λ r. r) result ≡ fresh_reading (Some bytes.now) default_steps true [] }
{
    Input::Slice(SliceReader::new(bytes))
}

/// Refuses with `TrailingData` if a byte is left. Takes nothing.
fn pull_end<R: Read>(reader: &mut R) -> ReadResult<(), R>
    ensures { PullsEnd (R.reading reader.old) result (R.reading reader.new) }
{
    if is_at_end(reader)? {
        Ok(())
    } else {
        Err(DecodeError::TrailingData)
    }
}
