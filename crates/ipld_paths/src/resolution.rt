//! Resolves a path over blocks, from a root.

ghost use Rattle.std.specs.Prelude.{◌≡◌, option_map, MatchResult};
ghost use Rattle.ipld_tree.specs.Cid.{CidParts};
ghost use Rattle.ipld_paths.specs.Paths.{segments};
ghost use Rattle.ipld_tree.specs.Tree.{Tree};
ghost use Rattle.dagcbor_decode.specs.Blocks.{IsBlock};
ghost use Rattle.ipld_links.specs.Reaching.{Stored, AreBytesOf, stored_in};
ghost use Rattle.ipld_links.specs.Verdicts.{IsVerified, IsDagPb};
ghost use Rattle.dag_pb_model.specs.Model.{IsNodeOf};
ghost use Rattle.ipld_paths.specs.Resolving.{IsReadUnder, IsStep, FindsBytes, Resolves};
ghost use Rattle.ipld_paths.specs.Resolving.{HasModelUnder, HoldsModel};

use crate::find::{Found, Item, find_judged};
use dag_pb_model::{ModelError, model_of};
use dagcbor_decode::Kind;
use ipld_links::{IDENTITY, Verdict, stored_bytes, verify};
use ipld_tree::Cid;
use std::alloc::{AllocError, Global};
use std::collections::BTreeMap;

/// How a path ends at a block.
#[derive(Debug, Drop)]
pub enum End<'p> {
    /// The path leads to an item of this kind. The numbers are the bytes of the block at which it
    /// begins and ends, counted from 0. In a node of DAG-PB, they count in the block of its data
    /// model.
    Item(Kind, usize, usize),
    /// The path leads to an item that is not a link. From there the first segment of this rest of
    /// the path leads nowhere.
    NoSuchPath(&'p str),
    /// No block is stored under the name.
    NotHeld,
    /// The bytes are not those that the name says, or they are neither a block of DAG-CBOR nor a
    /// node of DAG-PB.
    NoBlock(Verdict),
    /// The bytes are a node of DAG-PB without a data model, because the name of a link is not
    /// UTF-8.
    NoModel,
    /// 2^64 - 1 blocks were passed. That takes a store whose links form a cycle.
    Endless,
}

/// The block at which a path goes on.
#[derive(Debug, Drop)]
pub struct Next<'p> {
    /// The name of the block.
    pub block: Cid,
    /// The rest of the path, from this block.
    pub path: &'p str,
}

/// The outcome of one block: the path ends at it, or goes on at another.
#[derive(Debug, Drop)]
pub enum Step<'p> {
    Ends(End<'p>),
    GoesOn(Next<'p>),
}

/// The block at which a path ended, and how.
#[derive(Debug, Drop)]
pub struct Resolved<'p> {
    /// The name of the block.
    pub block: Cid,
    /// The rest of the path in that block.
    pub path: &'p str,
    pub end: End<'p>,
}

/// Returns the bytes under the name. `stored` are those stored; if there are none, a name by the
/// identity holds its block itself.
pub fn bytes_under<'b>(name: &'b Cid, stored: Option<&'b [u8]>) -> Option<&'b [u8]>
    ensures { (all : Stored) → all name.now ≡ option_map (λ b. b.now) stored.entry
        → FindsBytes (λ b. b.now) all name.now result }
{
    match stored {
        Some(bytes) => Some(bytes),
        None if name.hash_code() == IDENTITY => Some(name.digest()),
        None => None,
    }
}

/// Follows the path in the block that is read under a name.
fn step_at<'p>(block: &[u8], path: &'p str) -> Step<'p>
    requires { (t : Tree) × IsBlock block.now t }
    ensures { (all : Stored) (name : CidParts) → IsReadUnder all name block.now
        → IsStep all name (segments path.now) result }
{
    match &find_judged(block, path) {
        Found::Item(Item { kind, place, bytes }) => {
            Step::Ends(End::Item(*kind, *place, *place + bytes.len()))
        }
        Found::Link(next, left) => Step::GoesOn(Next {
            block: *next,
            path: left,
        }),
        Found::Nothing(left) => Step::Ends(End::NoSuchPath(left)),
    }
}

/// Follows the path in the data model of a node of DAG-PB.
fn step_in_node<'p>(alloc: Global, node: &[u8], path: &'p str) -> Result<Step<'p>, AllocError>
    ensures { MatchResult result
        (λ r. (all : Stored) (name : CidParts) → AreBytesOf all name node.now
        → IsVerified (name, node.now) → IsDagPb name → IsStep all name (segments path.now) r)
        (λ _. (t : Tree) × IsNodeOf node.now t) }
{
    match model_of(alloc, node)? {
        Ok(block) => Ok(step_at(&block, path)),
        Err(ModelError::NameNotText) => Ok(Step::Ends(End::NoModel)),
        Err(ModelError::NoNode(error)) => Ok(Step::Ends(End::NoBlock(Verdict::NoNode(error)))),
    }
}

/// Verifies these bytes against the name, and follows the path in them.
fn step_in<'p>(
    alloc: Global,
    name: &Cid,
    bytes: &[u8],
    path: &'p str,
) -> Result<Step<'p>, AllocError>
    ensures { MatchResult result
        (λ r. (all : Stored) → AreBytesOf all name.now bytes.now
        → IsStep all name.now (segments path.now) r)
        (λ _. (all : Stored) → AreBytesOf all name.now bytes.now → HasModelUnder all name.now) }
{
    match verify(name, bytes) {
        Verdict::Block(_kind) => Ok(step_at(bytes, path)),
        Verdict::Node => step_in_node(alloc, bytes, path),
        Verdict::Refused(error) => Ok(Step::Ends(End::NoBlock(Verdict::Refused(error)))),
        Verdict::NoNode(error) => Ok(Step::Ends(End::NoBlock(Verdict::NoNode(error)))),
        Verdict::OtherBytes => Ok(Step::Ends(End::NoBlock(Verdict::OtherBytes))),
        Verdict::NotRead => Ok(Step::Ends(End::NoBlock(Verdict::NotRead))),
        Verdict::LinksNotRead => Ok(Step::Ends(End::NoBlock(Verdict::LinksNotRead))),
        Verdict::Unverified => Ok(Step::Ends(End::NoBlock(Verdict::Unverified))),
    }
}

/// Follows the path in one block. `stored` are the bytes stored under its name. The path goes on if
/// a first part of it leads to a link; a link at its end is an item. The caller looks up each name
/// that is returned, so anything can store the blocks. It allocates only for the data model of a
/// node of DAG-PB.
pub fn resolve_step<'p>(
    alloc: Global,
    name: &Cid,
    stored: Option<&[u8]>,
    path: &'p str,
) -> Result<Step<'p>, AllocError>
    ensures { MatchResult result
        (λ r. (all : Stored) → all name.now ≡ option_map (λ b. b.now) stored.entry
        → IsStep all name.now (segments path.now) r)
        (λ _. (all : Stored) → all name.now ≡ option_map (λ b. b.now) stored.entry
        → HasModelUnder all name.now) }
{
    match bytes_under(name, stored) {
        Some(bytes) => step_in(alloc, name, bytes, path),
        None => Ok(Step::Ends(End::NotHeld)),
    }
}

/// Resolves the path over the blocks of the map, from the block of the root.
pub fn resolve<'p>(
    alloc: Global,
    blocks: &BTreeMap<Cid, Vec<u8>>,
    root: &Cid,
    path: &'p str,
) -> Result<Resolved<'p>, AllocError>
    ensures { MatchResult result
        (λ r. Resolves (stored_in blocks.now) root.now (segments path.now) r)
        (λ _. HoldsModel (stored_in blocks.now)) }
{
    let mut block = *root;
    let mut left = path;
    for _count in 0..u64::MAX {
        match resolve_step(alloc, &block, stored_bytes(blocks, &block), left) {
            Ok(Step::GoesOn(next)) => {
                block = next.block;
                left = next.path;
            }
            Ok(Step::Ends(end)) => {
                return Ok(Resolved {
                    block,
                    path: left,
                    end,
                });
            }
            Err(fault) => return Err(fault),
        }
    }
    Ok(Resolved {
        block,
        path: left,
        end: End::Endless,
    })
}
