//! A walk along links, whatever stores the blocks.

ghost use Rattle.std.specs.Prelude.{◌≡◌, [], None, option_map, is_some, IfOk, OnOk, MatchOption, MatchResult};
ghost use Rattle.ipld_links.specs.Blocks.{HasLinks};
ghost use Rattle.ipld_links.specs.Names.{IsInline};
ghost use Rattle.ipld_links.specs.Reaching.{Stored, NamesLinks, Walks, GoesOn, Visits, AreLinksOf};
ghost use Rattle.ipld_links.specs.Reaching.{PushesAll, Sees, SeesAlso, SortsOut, stored_in};
ghost use Rattle.ipld_links.specs.Reaching.{ListsReachable, ListsLost};
ghost use Rattle.ipld_links.specs.Reaching.{KnowsLinks, HidesLinksUnder, ReachesKnown, IsHiddenFrom};

use crate::block::is_block_of;
use crate::links::links_of_block;
use crate::name::IDENTITY;
use crate::verdict::{Verdict, hidden_links};
use ipld_tree::Cid;
use std::alloc::{AllocError, Global};
use std::collections::{BTreeMap, BTreeSet};

/// A walk along links from a root, depth first, taking the links of a block in their order. The
/// caller looks up each name that `next` returns, and passes the bytes stored under it to `visit`,
/// so anything can store the blocks. A name by the identity holds its block itself: if nothing is
/// stored under it, the walk follows the links in that block, and lists the name neither as found
/// nor as lost.
#[derive(Drop)]
pub struct Walk {
    alloc: Global,
    /// The names that were visited.
    seen: BTreeSet<Cid>,
    /// The names to be visited, the next one last.
    waiting: Vec<Cid>,
    /// The visited names under which bytes are stored, in the order of the walk.
    found: Vec<Cid>,
    /// The visited names under which nothing is stored, in the order of the walk.
    lost: Vec<Cid>,
}

/// The names that a walk visited.
#[derive(Drop)]
pub struct Reached {
    /// The names of the stored blocks, in the order of the walk, the root first.
    pub found: Vec<Cid>,
    /// The names under which nothing is stored, in the order of the walk.
    pub lost: Vec<Cid>,
}

/// Returns the links of the bytes as a block of the codec, or no links if they are not a block of
/// it.
fn links_in(alloc: Global, codec: u64, bytes: &[u8]) -> Result<Vec<Cid>, AllocError>
    ensures { IfOk result (λ v. AreLinksOf (HasLinks codec bytes.now) v.items) }
{
    if is_block_of(codec, bytes) {
        links_of_block(alloc, codec, bytes)
    } else {
        Ok(Vec::new(alloc))
    }
}

/// Returns the links of the block under the name. `stored` are the bytes stored under it.
fn links_under(alloc: Global, name: &Cid, stored: Option<&[u8]>) -> Result<Vec<Cid>, AllocError>
    ensures { (all : Stored) → all name.now ≡ option_map (λ b. b.now) stored.entry
        → IfOk result (λ v. AreLinksOf (NamesLinks all name.now) v.items) }
{
    match stored {
        Some(bytes) => links_in(alloc, name.codec(), bytes),
        None => links_in_name(alloc, name),
    }
}

/// Returns the links of the block that the name holds itself, or no links if it holds none.
fn links_in_name(alloc: Global, name: &Cid) -> Result<Vec<Cid>, AllocError>
    ensures { IfOk result
        (λ v. AreLinksOf (λ all. IsInline name.now × HasLinks name.now.codec name.now.digest all)
        v.items) }
{
    if name.hash_code() != IDENTITY {
        return Ok(Vec::new(alloc));
    }
    links_in(alloc, name.codec(), name.digest())
}

/// Returns the verdict on the bytes under the name, if their links are not known. `None` if they
/// are, or if there are no bytes. `stored` are the bytes stored under the name.
pub fn hidden_under(name: &Cid, stored: Option<&[u8]>) -> Option<Verdict>
    ensures { (all : Stored) → all name.now ≡ option_map (λ b. b.now) stored.entry
        → MatchOption result (KnowsLinks all name.now) (HidesLinksUnder all name.now) }
{
    match stored {
        Some(bytes) => hidden_links(name.codec(), bytes),
        None => hidden_in_name(name),
    }
}

/// Returns the verdict on the block that the name holds itself, if its links are not known.
fn hidden_in_name(name: &Cid) -> Option<Verdict>
    ensures { (all : Stored) → all name.now ≡ None
        → MatchOption result (KnowsLinks all name.now) (HidesLinksUnder all name.now) }
{
    if name.hash_code() != IDENTITY {
        return None;
    }
    hidden_links(name.codec(), name.digest())
}

/// Appends the links to the list.
fn push_all(list: &mut Vec<Cid>, links: &[Cid]) -> Result<(), AllocError>
    ensures { OnOk result (PushesAll links.now list.old.items list.new.items) }
{
    for link in links {
        // The contract of `version` tells the proof what holds of a CID.
        let _version = link.version();
        list.push(*link)?;
    }
    Ok(())
}

impl Walk {
    /// Begins a walk from the root.
    pub fn new(alloc: Global, root: &Cid) -> Result<Walk, AllocError>
        ensures walks { IfOk result (λ walk. (stored : Stored) → Walks stored root.now walk) }
        ensures unseen { IfOk result (λ walk. walk.seen.keys ≡ []) }
    {
        // The contract of `version` tells the proof what holds of a CID.
        let _version = root.version();
        let mut waiting = Vec::new(alloc);
        waiting.push(*root)?;
        Ok(Walk {
            alloc,
            seen: BTreeSet::new(alloc),
            waiting,
            found: Vec::new(alloc),
            lost: Vec::new(alloc),
        })
    }

    /// Returns the next name to visit, which was not visited before. `None` if the walk is over.
    pub fn next(&mut self) -> Option<Cid>
        ensures next { GoesOn self.old result self.new }
        ensures kept { (self.new.seen ≡ self.old.seen) × (self.new.found ≡ self.old.found)
            × (self.new.lost ≡ self.old.lost) }
    {
        while let Some(name) = self.waiting.pop() {
            if !self.seen.contains(&name) {
                return Some(name);
            }
        }
        None
    }

    /// Visits the name that `next` returned. `stored` are the bytes stored under it. After a
    /// refusal the state of the walk is unspecified.
    pub fn visit(&mut self, name: Cid, stored: Option<&[u8]>) -> Result<(), AllocError>
        ensures visits { OnOk result
            (Visits name (option_map (λ b. b.now) stored.entry) self.old self.new) }
        ensures sees { OnOk result (SeesAlso name self.old self.new) }
    {
        let mut links = links_under(self.alloc, &name, stored)?;
        self.see(name)?;
        self.sort_out(name, stored.is_some())?;
        links.reverse();
        push_all(&mut self.waiting, &links)
    }

    /// Adds the name to those that were seen.
    fn see(&mut self, name: Cid) -> Result<(), AllocError>
        ensures { OnOk result (Sees name self.old self.new) }
    {
        // The contract of `version` tells the proof what holds of a CID.
        let _version = name.version();
        self.seen.insert(name)?;
        Ok(())
    }

    /// Lists the name as found or as lost.
    fn sort_out(&mut self, name: Cid, is_there: bool) -> Result<(), AllocError>
        ensures { OnOk result (SortsOut name is_there self.old self.new) }
    {
        if is_there {
            self.found.push(name)?;
        } else if name.hash_code() != IDENTITY {
            self.lost.push(name)?;
        }
        Ok(())
    }

    /// Returns the names that the walk found, and those that it lost.
    pub fn into_reached(self) -> Reached
        ensures found { result.found ≡ self.found }
        ensures lost { result.lost ≡ self.lost }
    {
        let Self { found, lost, .. } = self;
        Reached { found, lost }
    }
}

/// Returns the bytes that the map has under the name.
pub fn stored_bytes<'a>(blocks: &'a BTreeMap<Cid, Vec<u8>>, name: &Cid) -> Option<&'a [u8]>
    ensures { option_map (λ b. b.now) result ≡ stored_in blocks.now name.now }
{
    match blocks.get(name) {
        Some(block) => Some(block.as_slice()),
        None => None,
    }
}

/// Returns where a walk from the root leads within the map.
pub fn reach_from(
    alloc: Global,
    blocks: &BTreeMap<Cid, Vec<u8>>,
    root: &Cid,
) -> Result<Reached, AllocError>
    ensures reachable { IfOk result
        (λ r. ListsReachable (stored_in blocks.now) root.now r.found.items) }
    ensures lost { IfOk result (λ r. ListsLost (stored_in blocks.now) root.now r.lost.items) }
{
    let mut walk = Walk::new(alloc, root)?;
    // Each turn allocates for a name not seen before, and no memory holds 2^64 - 1 names.
    for _count in 0..u64::MAX {
        let Some(name) = walk.next() else {
            return Ok(walk.into_reached());
        };
        walk.visit(name, stored_bytes(blocks, &name))?;
    }
    Err(AllocError)
}

/// Returns where a walk from the root leads within the map. If the links of a block on the way are
/// not known, returns the first such name, and the verdict on the bytes under it.
pub fn reach_known(
    alloc: Global,
    blocks: &BTreeMap<Cid, Vec<u8>>,
    root: &Cid,
) -> Result<Result<Reached, (Cid, Verdict)>, AllocError>
    ensures { IfOk result (λ reached. MatchResult reached
        (λ r. ReachesKnown (stored_in blocks.now) root.now r.found.items r.lost.items)
        (IsHiddenFrom (stored_in blocks.now) root.now)) }
{
    let mut walk = Walk::new(alloc, root)?;
    // Each turn allocates for a name not seen before, and no memory holds 2^64 - 1 names.
    for _count in 0..u64::MAX {
        let Some(name) = walk.next() else {
            return Ok(Ok(walk.into_reached()));
        };
        let stored = stored_bytes(blocks, &name);
        if let Some(verdict) = hidden_under(&name, stored) {
            return Ok(Err((name, verdict)));
        }
        walk.visit(name, stored)?;
    }
    Err(AllocError)
}
