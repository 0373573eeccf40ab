//! Reads the bytes of the item at which a path ended.

ghost use Rattle.std.specs.Prelude.{◌≡◌, ◌⊎◌, List, ℕ, IfOk, MatchResult};
ghost use Rattle.ipld_tree.specs.Cid.{CidParts};
ghost use Rattle.ipld_links.specs.Reaching.{stored_in};
ghost use Rattle.ipld_links.specs.Names.{IsInline};
ghost use Rattle.ipld_links.specs.Verdicts.{IsDagPb};
ghost use Rattle.ipld_paths.specs.Laws.{GivesItem};
ghost use Rattle.ipld_paths.specs.Resolving.{IsReadAs, GivesBetween, readable_bytes, Resolves};

use crate::resolution::{End, Resolved};
use dag_pb_model::model_of;
use ipld_links::{DAG_PB, IDENTITY, stored_bytes};
use ipld_tree::Cid;
use std::alloc::{AllocError, Global};
use std::collections::BTreeMap;

/// Bytes of DAG-CBOR: those of a stored block, or made from a node of DAG-PB or from a name.
#[derive(Debug, Drop)]
pub enum Readable<'b> {
    Stored(&'b [u8]),
    Made(Vec<u8>),
}

impl Readable<'_> {
    /// Returns the bytes.
    pub fn bytes(&self) -> &[u8]
        ensures { result.now ≡ readable_bytes self.now }
    {
        match self {
            Readable::Stored(bytes) => bytes,
            Readable::Made(bytes) => bytes,
        }
    }
}

/// Returns the bytes of the block from `place` to `end`.
fn part_between<'b>(block: &'b [u8], place: usize, end: usize) -> Option<&'b [u8]>
    ensures { GivesBetween (λ s. s.now) block.now place end result }
{
    let (front, _following) = block.split_at_checked(end)?;
    let (_before, part) = front.split_at_checked(place)?;
    Some(part)
}

/// Returns a copy of the bytes of the block from `place` to `end`.
fn copy_between(
    alloc: Global,
    block: &[u8],
    place: usize,
    end: usize,
) -> Result<Option<Vec<u8>>, AllocError>
    ensures { IfOk result (GivesBetween (λ v. v.items) block.now place end) }
{
    match part_between(block, place, end) {
        Some(part) => Ok(Some(part.to_vec(alloc)?)),
        None => Ok(None),
    }
}

/// Returns the bytes from `place` to `end` of the block of the node's data model.
fn part_of_node(
    alloc: Global,
    node: &[u8],
    place: usize,
    end: usize,
) -> Result<Option<Vec<u8>>, AllocError>
    ensures { IfOk result (λ r. (name : CidParts) (block : List ℕ) → IsDagPb name
        → IsReadAs name node.now block → GivesBetween (λ v. v.items) block place end r) }
{
    match model_of(alloc, node)? {
        Ok(block) => copy_between(alloc, &block, place, end),
        Err(_) => Ok(None),
    }
}

/// Returns a copy of the bytes from `place` to `end` of the block under the name. For DAG-PB that
/// is the block of the node's data model.
fn copy_in(
    alloc: Global,
    name: &Cid,
    bytes: &[u8],
    place: usize,
    end: usize,
) -> Result<Option<Vec<u8>>, AllocError>
    ensures { IfOk result (λ r. (block : List ℕ) → IsReadAs name.now bytes.now block
        → GivesBetween (λ v. v.items) block place end r) }
{
    if name.codec() == DAG_PB {
        part_of_node(alloc, bytes, place, end)
    } else {
        copy_between(alloc, bytes, place, end)
    }
}

/// Returns the bytes from `place` to `end` of the block under the name. For DAG-PB that is the
/// block of the node's data model; else the bytes are lent.
fn part_in<'b>(
    alloc: Global,
    name: &Cid,
    bytes: &'b [u8],
    place: usize,
    end: usize,
) -> Result<Option<Readable<'b>>, AllocError>
    ensures { MatchResult result
        (λ r. (block : List ℕ) → IsReadAs name.now bytes.now block
        → GivesBetween readable_bytes block place end r)
        (λ _. IsDagPb name.now) }
{
    if name.codec() == DAG_PB {
        match part_of_node(alloc, bytes, place, end)? {
            Some(part) => Ok(Some(Readable::Made(part))),
            None => Ok(None),
        }
    } else {
        match part_between(bytes, place, end) {
            Some(part) => Ok(Some(Readable::Stored(part))),
            None => Ok(None),
        }
    }
}

/// Returns the bytes of the item at which a path over the blocks of the map ended. They are a
/// block. `None` if the path ended otherwise. If the item is in a stored block of DAG-CBOR, the
/// bytes are lent, and nothing is allocated.
pub fn item_bytes<'b>(
    alloc: Global,
    blocks: &'b BTreeMap<Cid, Vec<u8>>,
    resolved: &Resolved<'_>,
) -> Result<Option<Readable<'b>>, AllocError>
    ensures { MatchResult result
        (λ item. (root : CidParts) (path : List (List ℕ))
        → Resolves (stored_in blocks.now) root path resolved.now
        → GivesItem readable_bytes (stored_in blocks.now) root path resolved.now.end item)
        (λ _. IsDagPb resolved.now.block ⊎ IsInline resolved.now.block) }
{
    let End::Item(_kind, place, end) = &resolved.end else {
        return Ok(None);
    };
    let name = &resolved.block;
    match stored_bytes(blocks, name) {
        Some(bytes) => part_in(alloc, name, bytes, *place, *end),
        None if name.hash_code() == IDENTITY => {
            match copy_in(alloc, name, name.digest(), *place, *end)? {
                Some(part) => Ok(Some(Readable::Made(part))),
                None => Ok(None),
            }
        }
        None => Ok(None),
    }
}
