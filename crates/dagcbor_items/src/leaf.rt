//! Reads leaves other than links.

ghost use Rattle.std.specs.Prelude.{◌≡◌, ◌≢◌, ◌≤◌, ◌/◌, ◌%◌, true, false, IfErr, IfSome, MatchOption};
ghost use Rattle.dagcbor_heads.specs.Inputs.{input_reading, OverInput};
ghost use Rattle.dagcbor_heads.specs.Fronts.{StartsWith};
ghost use Rattle.dagcbor_heads.specs.Looking.{LooksAtTaken, LooksAfter};
ghost use Rattle.ipld_tree.specs.Tree.{integer};
ghost use Rattle.dagcbor_items.specs.Untyped.{ReadsEnteredItem, ReadsText, ReadsLeaf};
ghost use Rattle.dagcbor_items.specs.Untyped.{IsSimple, StartsWithMajor, StartsDefinite};
ghost use Rattle.dagcbor_items.specs.Untyped.{TakesEnteredItem};
ghost use Rattle.dagcbor_items.specs.Leaves.{number_name};
ghost use Rattle.dagcbor_items.specs.AnsweredVariants.{OfItem};

use crate::link::{read_link, take_link};
use crate::numbers::number_of;
use crate::strings::{no_text, pull_peeked_owned_bytes, pull_peeked_owned_text};
use crate::utf8::as_text;
use dagcbor_core::DecodeError;
use dagcbor_heads::{Input, Read, ReadResult, pull_head, pull_one};
use ipld_tree::Ipld;
use std::alloc::Global;

/// Takes the integer whose first byte was peeked, if its head is at hand. Else takes nothing.
#[inline(always)]
pub(crate) fn take_integer<R: Read>(reader: &mut R, first: u8) -> Option<i128>
    requires { StartsWith (R.reading reader.old) first }
    ensures taken { MatchOption result
        (R.reading reader.new ≡ R.reading reader.old)
        (λ n. TakesEnteredItem (R.reading reader.old) (integer n) (R.reading reader.new)) }
    ensures looked { IfSome result
        (λ _. LooksAtTaken 3 1 (R.reading reader.old) (R.reading reader.new)) }
{
    if first / 32 > 1 {
        return None;
    }
    let (_, argument, _) = reader.take_head()?;
    Some(number_of(first / 32, argument))
}

/// Reads an integer whose first byte was peeked, and whose head is not all at hand.
#[tactic(auto, using(crate::proofs::PartRefusals::named_item))]
fn read_integer<R: Read>(name: &str, reader: &mut R, first: u8) -> ReadResult<Ipld, R>
    requires starts { StartsWith (R.reading reader.old) first }
    requires major { first / 32 ≤ 1 }
    requires named { name.now ≡ number_name (first / 32) }
    ensures leaf { ReadsLeaf (R.reading reader.old) result (R.reading reader.new) }
    ensures looked { LooksAfter 3 1 (R.reading reader.old) result (R.reading reader.new) }
    ensures variant { IfErr result OfItem }
{
    let (_, argument, _) = pull_head(name, reader)?;
    Ok(Ipld::Integer(number_of(first / 32, argument)))
}

#[tactic(auto, using(crate::proofs::PartRefusals::kind_item, crate::proofs::StringItems::bytes_items))]
fn read_bytes<R: Read>(alloc: Global, input: &mut Input<'_, R>) -> ReadResult<Ipld, R>
    requires { StartsWithMajor (input_reading R.reading input.old) 2 }
    ensures item { OverInput R.reading ReadsEnteredItem input.old result input.new }
    ensures looked { OverInput R.reading (LooksAfter 3 1) input.old result input.new }
    ensures variant { IfErr result OfItem }
{
    Ok(Ipld::Bytes(pull_peeked_owned_bytes(alloc, input)?))
}

/// Reads a text whose first byte was peeked.
#[tactic(auto, using(crate::proofs::PartRefusals::text_item, crate::proofs::StringItems::text_items))]
pub(crate) fn read_text<R: Read>(alloc: Global, input: &mut Input<'_, R>) -> ReadResult<String, R>
    requires { StartsWithMajor (input_reading R.reading input.old) 3 }
    ensures item { OverInput R.reading ReadsText input.old result input.new }
    ensures looked { OverInput R.reading (LooksAfter 3 1) input.old result input.new }
    ensures variant { IfErr result OfItem }
{
    if let Some(payload) = input.take_string(3) {
        return match as_text(payload) {
            Some(text) => match String::from_str(alloc, text) {
                Ok(text) => Ok(text),
                Err(_) => Err(DecodeError::OutOfMemory),
            },
            None => Err(no_text("string")),
        };
    }
    let text = pull_peeked_owned_text(alloc, input)?;
    Ok(text)
}

fn simple_value(byte: u8) -> Option<Ipld>
    ensures { IsSimple byte result }
{
    match byte {
        0xf4 => Some(Ipld::Bool(false)),
        0xf5 => Some(Ipld::Bool(true)),
        0xf6 => Some(Ipld::Null),
        _ => None,
    }
}

#[tactic(auto, using(crate::proofs::PartRefusals::end_item))]
fn read_simple<R: Read>(reader: &mut R, first: u8) -> ReadResult<Ipld, R>
    requires starts { StartsWith (R.reading reader.old) first }
    requires major { first / 32 ≡ 7 }
    requires definite { first % 32 ≢ 31 }
    ensures leaf { ReadsLeaf (R.reading reader.old) result (R.reading reader.new) }
    ensures looked { LooksAfter 3 1 (R.reading reader.old) result (R.reading reader.new) }
    ensures variant { IfErr result OfItem }
{
    match simple_value(first) {
        Some(value) => {
            pull_one("any", reader)?;
            Ok(value)
        }
        None => Err(DecodeError::unsupported("any", first)),
    }
}

/// Reads a link whose first byte was peeked: in one piece, if a slice has all of it.
fn read_link_at_once<R: Read>(input: &mut Input<'_, R>) -> ReadResult<Ipld, R>
    requires { StartsDefinite (input_reading R.reading input.old) 6 }
    ensures leaf { OverInput R.reading ReadsLeaf input.old result input.new }
    ensures looked { OverInput R.reading (LooksAfter 3 1) input.old result input.new }
    ensures variant { IfErr result OfItem }
{
    if let Some(cid) = take_link(input) {
        return Ok(Ipld::Link(cid));
    }
    read_link(input)
}

/// Reads an integer, a byte string, a link or a simple value, whose first byte was peeked.
pub(crate) fn read_leaf<R: Read>(
    alloc: Global,
    input: &mut Input<'_, R>,
    first: u8,
) -> ReadResult<Ipld, R>
    requires starts { StartsWith (input_reading R.reading input.old) first }
    requires leaf { 3 ≤ first / 32 → 6 ≤ first / 32 }
    requires definite { first % 32 ≢ 31 }
    ensures item { OverInput R.reading ReadsEnteredItem input.old result input.new }
    ensures looked { OverInput R.reading (LooksAfter 3 1) input.old result input.new }
    ensures variant { IfErr result OfItem }
{
    match first / 32 {
        0 => read_integer("u64", input, first),
        1 => read_integer("any", input, first),
        2 => read_bytes(alloc, input),
        6 => read_link_at_once(input),
        _ => read_simple(input, first),
    }
}
