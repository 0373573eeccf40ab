//! Walks through items of any kind, as `any` reads them, without building anything. The caller
//! decides how their strings are read, and what is done with their links.

ghost use Rattle.std.specs.Prelude.{◌≡◌, ◌≢◌, ◌≤◌, ◌/◌, ◌%◌, IfErr};
ghost use Rattle.dagcbor_heads.specs.Fronts.{StartsWith};
ghost use Rattle.dagcbor_heads.specs.Looking.{Looks, LooksSome, LooksAfter};
ghost use Rattle.dagcbor_items.specs.Untyped.{SkipsItem, SkipsEnteredItem, StartsDefinite};
ghost use Rattle.dagcbor_items.specs.Leaves.{number_name};
ghost use Rattle.dagcbor_items.specs.AnsweredVariants.{OfItem};
ghost use Rattle.dagcbor_items.specs.Walks.{WalksItem, WalksEnteredItem, WalksItems, WalksEntries};
ghost use Rattle.dagcbor_items.specs.Walks.{GathersLinks};
ghost use Rattle.dagcbor_heads.specs.Inputs.{OverInput};

use crate::enter::enter;
use crate::link::pull_link;
use crate::payloads::PayloadReader;
use crate::sink::{LinkSink, NoLinks};
use dagcbor_core::DecodeError;
use dagcbor_heads::{
    Input, Read, ReadResult, is_indefinite, peek_one, pull_head_argument, pull_one, spend_step,
};
use ipld_tree::Cid;
use std::alloc::Global;

/// Skips an item of any kind, at most as deep as the steps left. It takes no memory if the input is
/// a slice.
pub fn skip_any<R: Read>(alloc: Global, input: &mut Input<'_, R>) -> ReadResult<(), R>
    ensures item { OverInput R.reading SkipsItem input.old result input.new }
    ensures looked { OverInput R.reading (Looks 3) input.old result input.new }
    ensures variant { IfErr result OfItem }
{
    walk_any(alloc, input, &mut NoLinks)
}

/// Returns the links of an item of any kind, in order, with repeats.
pub fn gather_links<R: Read>(alloc: Global, input: &mut Input<'_, R>) -> ReadResult<Vec<Cid>, R>
    ensures links { OverInput R.reading GathersLinks input.old result input.new }
    ensures looked { OverInput R.reading (Looks 3) input.old result input.new }
    ensures variant { IfErr result OfItem }
{
    let mut links = Vec::new(alloc);
    walk_any(alloc, input, &mut links)?;
    Ok(links)
}

/// Walks through an item of any kind, at most as deep as the steps left, and hands its links to the
/// sink.
#[cycle(walk)]
#[inline(always)]
pub fn walk_any<I: PayloadReader, S: LinkSink>(
    alloc: I::Alloc,
    input: &mut I,
    links: &mut S,
) -> ReadResult<(), I>
    ensures item { WalksItem S.sink (I.reading input.old) links.old result
        (I.reading input.new) links.new }
    ensures looked { Looks 3 (I.reading input.old) result (I.reading input.new) }
    ensures variant { IfErr result OfItem }
{
    if input.take_leaf() {
        return Ok(());
    }
    walk_by_bytes(alloc, input, links)
}

/// Walks through an item byte by byte, so that a refusal names its cause.
#[tactic(auto, using(crate::proofs::PartRefusals::depth_item))]
#[cycle(walk)]
fn walk_by_bytes<I: PayloadReader, S: LinkSink>(
    alloc: I::Alloc,
    input: &mut I,
    links: &mut S,
) -> ReadResult<(), I>
    ensures item { WalksItem S.sink (I.reading input.old) links.old result
        (I.reading input.new) links.new }
    ensures looked { Looks 3 (I.reading input.old) result (I.reading input.new) }
    ensures variant { IfErr result OfItem }
{
    spend_step("any", input)?;
    walk_item(alloc, input, links)?;
    input.step_out();
    Ok(())
}

#[tactic(auto, using(crate::proofs::PartRefusals::end_item))]
#[cycle(walk)]
fn walk_item<I: PayloadReader, S: LinkSink>(
    alloc: I::Alloc,
    input: &mut I,
    links: &mut S,
) -> ReadResult<(), I>
    ensures item { WalksEnteredItem S.sink (I.reading input.old) links.old result
        (I.reading input.new) links.new }
    ensures looked { Looks 3 (I.reading input.old) result (I.reading input.new) }
    ensures variant { IfErr result OfItem }
{
    let first = peek_one("any", input)?;
    if is_indefinite(first) {
        return Err(DecodeError::IndefiniteSize);
    }
    walk_of_major(alloc, input, links, first)
}

#[cycle(walk)]
fn walk_of_major<I: PayloadReader, S: LinkSink>(
    alloc: I::Alloc,
    input: &mut I,
    links: &mut S,
    first: u8,
) -> ReadResult<(), I>
    requires starts { StartsWith (I.reading input.old) first }
    requires definite { first % 32 ≢ 31 }
    ensures item { WalksEnteredItem S.sink (I.reading input.old) links.old result
        (I.reading input.new) links.new }
    ensures looked { LooksAfter 3 1 (I.reading input.old) result (I.reading input.new) }
    ensures variant { IfErr result OfItem }
{
    match first / 32 {
        4 => walk_list(alloc, input, links),
        5 => walk_map(alloc, input, links),
        6 => walk_link(input, links),
        _ => skip_leaf(alloc, input, first),
    }
}

#[tactic(auto, using(crate::proofs::PartRefusals::link_item))]
fn walk_link<R: Read, S: LinkSink>(reader: &mut R, links: &mut S) -> ReadResult<(), R>
    requires { StartsDefinite (R.reading reader.old) 6 }
    ensures item { WalksEnteredItem S.sink (R.reading reader.old) links.old result
        (R.reading reader.new) links.new }
    ensures looked { LooksAfter 3 1 (R.reading reader.old) result (R.reading reader.new) }
    ensures variant { IfErr result OfItem }
{
    let cid = pull_link(reader)?;
    match links.take(cid) {
        Ok(()) => Ok(()),
        Err(_) => Err(DecodeError::OutOfMemory),
    }
}

/// Skips an item that is not a list, a map or a link.
#[tactic(auto, using(crate::proofs::PartRefusals::kind_item, crate::proofs::PartRefusals::text_item))]
fn skip_leaf<I: PayloadReader>(alloc: I::Alloc, input: &mut I, first: u8) -> ReadResult<(), I>
    requires starts { StartsWith (I.reading input.old) first }
    requires no_list { first / 32 ≢ 4 }
    requires no_map { first / 32 ≢ 5 }
    requires no_link { first / 32 ≢ 6 }
    requires definite { first % 32 ≢ 31 }
    ensures item { SkipsEnteredItem (I.reading input.old) result (I.reading input.new) }
    ensures looked { LooksAfter 3 1 (I.reading input.old) result (I.reading input.new) }
    ensures variant { IfErr result OfItem }
{
    match first / 32 {
        0 => skip_integer("u64", input, first),
        1 => skip_integer("any", input, first),
        2 => input.skip_bytes(alloc),
        3 => input.skip_text(alloc),
        _ => skip_simple(input, first),
    }
}

#[tactic(auto, using(crate::proofs::PartRefusals::named_item))]
fn skip_integer<R: Read>(name: &str, reader: &mut R, first: u8) -> ReadResult<(), R>
    requires starts { StartsWith (R.reading reader.old) first }
    requires major { first / 32 ≤ 1 }
    requires named { name.now ≡ number_name (first / 32) }
    ensures item { SkipsEnteredItem (R.reading reader.old) result (R.reading reader.new) }
    ensures looked { LooksAfter 3 1 (R.reading reader.old) result (R.reading reader.new) }
    ensures variant { IfErr result OfItem }
{
    pull_head_argument(name, reader)?;
    Ok(())
}

#[tactic(auto, using(crate::proofs::PartRefusals::end_item))]
fn skip_simple<R: Read>(reader: &mut R, first: u8) -> ReadResult<(), R>
    requires starts { StartsWith (R.reading reader.old) first }
    requires major { first / 32 ≡ 7 }
    requires definite { first % 32 ≢ 31 }
    ensures item { SkipsEnteredItem (R.reading reader.old) result (R.reading reader.new) }
    ensures looked { LooksAfter 3 1 (R.reading reader.old) result (R.reading reader.new) }
    ensures variant { IfErr result OfItem }
{
    if first < 0xf4 || first > 0xf6 {
        return Err(DecodeError::unsupported("any", first));
    }
    pull_one("any", reader)?;
    Ok(())
}

#[cycle(walk)]
fn walk_list<I: PayloadReader, S: LinkSink>(
    alloc: I::Alloc,
    input: &mut I,
    links: &mut S,
) -> ReadResult<(), I>
    requires { StartsDefinite (I.reading input.old) 4 }
    ensures item { WalksEnteredItem S.sink (I.reading input.old) links.old result
        (I.reading input.new) links.new }
    ensures looked { LooksAfter 3 1 (I.reading input.old) result (I.reading input.new) }
    ensures variant { IfErr result OfItem }
{
    let count = enter("array", input)?;
    walk_items(alloc, input, links, count)?;
    input.step_out();
    Ok(())
}

#[cycle(walk)]
fn walk_items<I: PayloadReader, S: LinkSink>(
    alloc: I::Alloc,
    input: &mut I,
    links: &mut S,
    count: u64,
) -> ReadResult<(), I>
    ensures items { WalksItems S.sink count (I.reading input.old) links.old result
        (I.reading input.new) links.new }
    ensures looked { LooksSome 3 (I.reading input.old) result (I.reading input.new) }
    ensures variant { IfErr result OfItem }
{
    for _index in 0..count {
        walk_any(alloc, input, links)?;
    }
    Ok(())
}

#[cycle(walk)]
fn walk_map<I: PayloadReader, S: LinkSink>(
    alloc: I::Alloc,
    input: &mut I,
    links: &mut S,
) -> ReadResult<(), I>
    requires { StartsDefinite (I.reading input.old) 5 }
    ensures item { WalksEnteredItem S.sink (I.reading input.old) links.old result
        (I.reading input.new) links.new }
    ensures looked { LooksAfter 3 1 (I.reading input.old) result (I.reading input.new) }
    ensures variant { IfErr result OfItem }
{
    let count = enter("map", input)?;
    walk_entries(alloc, input, links, count)?;
    input.step_out();
    Ok(())
}

#[tactic(auto, using(crate::proofs::PartRefusals::key_item))]
#[cycle(walk)]
fn walk_entries<I: PayloadReader, S: LinkSink>(
    alloc: I::Alloc,
    input: &mut I,
    links: &mut S,
    count: u64,
) -> ReadResult<(), I>
    ensures entries { WalksEntries S.sink count (I.reading input.old) links.old result
        (I.reading input.new) links.new }
    ensures looked { LooksSome 3 (I.reading input.old) result (I.reading input.new) }
    ensures variant { IfErr result OfItem }
{
    let mut previous = None;
    for _index in 0..count {
        let key = input.pull_key(alloc, &previous)?;
        walk_any(alloc, input, links)?;
        previous = Some(key);
    }
    Ok(())
}
