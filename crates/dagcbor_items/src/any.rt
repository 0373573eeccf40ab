//! Reads items of any kind.

ghost use Rattle.std.specs.Prelude.{◌≡◌, ◌≢◌, ◌%◌, IfErr, IfSome, MatchOption};
ghost use Rattle.dagcbor_heads.specs.Inputs.{input_reading, OverInput};
ghost use Rattle.dagcbor_heads.specs.Fronts.{StartsWith};
ghost use Rattle.dagcbor_heads.specs.Looking.{Looks, LooksSome, LooksAfter, LooksAtTaken};
ghost use Rattle.dagcbor_items.specs.Untyped.{ReadsItem, PutsItem, PutsEnteredItem};
ghost use Rattle.dagcbor_items.specs.Untyped.{ReadsList, ReadsMap, StartsDefinite, TakesItem};
ghost use Rattle.ipld_tree.specs.Tree.{integer};
ghost use Rattle.dagcbor_items.specs.Items.{ReadsItems};
ghost use Rattle.dagcbor_items.specs.Entries.{ReadsEntries};
ghost use Rattle.dagcbor_items.specs.AnsweredVariants.{OfItem};

use crate::enter::enter;
use crate::key::read_key;
use crate::leaf::{read_leaf, read_text, take_integer};
use dagcbor_core::DecodeError;
use dagcbor_heads::{Input, Read, ReadResult, is_indefinite, peek_one, spend_step};
use ipld_tree::Ipld;
use std::alloc::Global;
use std::collections::BTreeMap;

/// Reads an item of any kind, at most as deep as the steps left.
#[tactic(auto, using(dagcbor_heads::proofs::Refusing::as_refusal))]
pub fn read_any<R: Read>(alloc: Global, input: &mut Input<'_, R>) -> ReadResult<Ipld, R>
    ensures item { OverInput R.reading ReadsItem input.old result input.new }
    ensures looked { OverInput R.reading (Looks 3) input.old result input.new }
    ensures variant { IfErr result OfItem }
{
    let mut item = Ipld::Null;
    read_into(alloc, input, &mut item)?;
    Ok(item)
}

/// Reads an item of any kind into the place. It returns only a refusal, because a value is large.
#[tactic(auto, using(crate::proofs::PartRefusals::depth_item))]
#[cycle(any)]
#[inline(always)]
fn read_into<R: Read>(
    alloc: Global,
    input: &mut Input<'_, R>,
    place: &mut Ipld,
) -> ReadResult<(), R>
    ensures item { OverInput R.reading (PutsItem place.new) input.old result input.new }
    ensures looked { OverInput R.reading (Looks 3) input.old result input.new }
    ensures variant { IfErr result OfItem }
{
    spend_step("any", input)?;
    read_item(alloc, input, place)?;
    input.step_out();
    Ok(())
}

#[tactic(auto, using(crate::proofs::PartRefusals::end_item))]
#[cycle(any)]
#[inline(always)]
fn read_item<R: Read>(
    alloc: Global,
    input: &mut Input<'_, R>,
    place: &mut Ipld,
) -> ReadResult<(), R>
    ensures item { OverInput R.reading (PutsEnteredItem place.new) input.old result input.new }
    ensures looked { OverInput R.reading (Looks 3) input.old result input.new }
    ensures variant { IfErr result OfItem }
{
    let first = peek_one("any", input)?;
    if is_indefinite(first) {
        return Err(DecodeError::IndefiniteSize);
    }
    if let Some(number) = take_integer(input, first) {
        *place = Ipld::Integer(number);
        return Ok(());
    }
    put_of_major(alloc, input, first, place)
}

#[cycle(any)]
#[inline(never)]
fn put_of_major<R: Read>(
    alloc: Global,
    input: &mut Input<'_, R>,
    first: u8,
    place: &mut Ipld,
) -> ReadResult<(), R>
    requires starts { StartsWith (input_reading R.reading input.old) first }
    requires definite { first % 32 ≢ 31 }
    ensures item { OverInput R.reading (PutsEnteredItem place.new) input.old result input.new }
    ensures looked { OverInput R.reading (LooksAfter 3 1) input.old result input.new }
    ensures variant { IfErr result OfItem }
{
    match first / 32 {
        3 => {
            *place = Ipld::String(read_text(alloc, input)?);
            Ok(())
        }
        4 => {
            *place = Ipld::List(read_list(alloc, input)?);
            Ok(())
        }
        5 => {
            *place = Ipld::Map(read_map(alloc, input)?);
            Ok(())
        }
        _ => {
            *place = read_leaf(alloc, input, first)?;
            Ok(())
        }
    }
}

#[cycle(any)]
fn read_list<R: Read>(alloc: Global, input: &mut Input<'_, R>) -> ReadResult<Vec<Ipld>, R>
    requires { StartsDefinite (input_reading R.reading input.old) 4 }
    ensures item { OverInput R.reading ReadsList input.old result input.new }
    ensures looked { OverInput R.reading (LooksAfter 3 1) input.old result input.new }
    ensures variant { IfErr result OfItem }
{
    let count = enter("array", input)?;
    let items = read_items(alloc, input, count)?;
    input.step_out();
    Ok(items)
}

#[cycle(any)]
fn read_items<R: Read>(
    alloc: Global,
    input: &mut Input<'_, R>,
    count: u64,
) -> ReadResult<Vec<Ipld>, R>
    ensures items { OverInput R.reading (ReadsItems count) input.old result input.new }
    ensures looked { OverInput R.reading (LooksSome 3) input.old result input.new }
    ensures variant { IfErr result OfItem }
{
    let mut items = Vec::new(alloc);
    for _index in 0..count {
        if let Some(number) = take_number(input) {
            if items.push(Ipld::Integer(number)).is_err() {
                return Err(DecodeError::OutOfMemory);
            }
            continue;
        }
        if items.is_empty() {
            let mut first = Ipld::Null;
            read_into(alloc, input, &mut first)?;
            if items.push(first).is_err() {
                return Err(DecodeError::OutOfMemory);
            }
            continue;
        }
        if items.push(Ipld::Null).is_err() {
            return Err(DecodeError::OutOfMemory);
        }
        let last = items.len() - 1;
        read_into(alloc, input, &mut items[last])?;
    }
    Ok(items)
}

/// Takes an integer, if the input is a slice that has all of it. It may take nothing.
#[inline(always)]
fn take_number<R: Read>(input: &mut Input<'_, R>) -> Option<i128>
    ensures taken { MatchOption result
        (input_reading R.reading input.new ≡ input_reading R.reading input.old)
        (λ n. TakesItem 0 (input_reading R.reading input.old) (integer n)
        (input_reading R.reading input.new)) }
    ensures looked { IfSome result
        (λ _. LooksAtTaken 3 0 (input_reading R.reading input.old)
        (input_reading R.reading input.new)) }
{
    let first = *input.rest()?.first()?;
    if first / 32 > 1 || !input.step_in() {
        return None;
    }
    match take_integer(input, first) {
        Some(number) => {
            input.step_out();
            Some(number)
        }
        None => {
            input.step_out();
            None
        }
    }
}

#[cycle(any)]
fn read_map<R: Read>(
    alloc: Global,
    input: &mut Input<'_, R>,
) -> ReadResult<BTreeMap<String, Ipld>, R>
    requires { StartsDefinite (input_reading R.reading input.old) 5 }
    ensures item { OverInput R.reading ReadsMap input.old result input.new }
    ensures looked { OverInput R.reading (LooksAfter 3 1) input.old result input.new }
    ensures variant { IfErr result OfItem }
{
    let count = enter("map", input)?;
    let entries = read_entries(alloc, input, count)?;
    input.step_out();
    Ok(entries)
}

#[tactic(auto, using(crate::proofs::PartRefusals::key_item))]
#[cycle(any)]
fn read_entries<R: Read>(
    alloc: Global,
    input: &mut Input<'_, R>,
    count: u64,
) -> ReadResult<BTreeMap<String, Ipld>, R>
    ensures entries { OverInput R.reading (ReadsEntries count) input.old result input.new }
    ensures looked { OverInput R.reading (LooksSome 3) input.old result input.new }
    ensures variant { IfErr result OfItem }
{
    let mut entries = BTreeMap::new(alloc);
    let mut previous = None;
    for _index in 0..count {
        let key = read_key(alloc, input, &previous)?;
        let mut value = Ipld::Null;
        read_into(alloc, input, &mut value)?;
        let Ok(name) = String::from_str(alloc, key.as_str()) else {
            return Err(DecodeError::OutOfMemory);
        };
        if entries.insert(name, value).is_err() {
            return Err(DecodeError::OutOfMemory);
        }
        previous = Some(key);
    }
    Ok(entries)
}
