//! The blocks that links lead to, in order.

use crate::tests::store::put;
use dagcbor_blocks::Blocks;
use serde_ipld_dagcbor::{Cid, Ipld, from_slice};
use std::alloc::Global;
use std::test::Fail;
use tests_shared::{LINK, agree};

/// Stores a list of links, and returns its CID.
fn put_links(alloc: Global, blocks: &mut Blocks, names: &[Cid]) -> Result<Cid, Fail> {
    let mut links = Vec::new(alloc);
    for name in names {
        links.push(Ipld::Link(*name))?;
    }
    put(blocks, &Ipld::List(links))
}

/// Fails if other CIDs are reached from the root, or in another order.
fn reaches(blocks: &Blocks, root: Cid, names: &[Cid]) -> Result<(), Fail> {
    agree(blocks.reachable(&root)?.as_slice(), names)
}

#[test]
fn what_links_lead_to_is_reached_once(rt: HostRuntime) -> Result<(), Fail> {
    let alloc = rt.alloc();
    let nowhere: Cid = from_slice(alloc, LINK)?;
    let mut blocks = Blocks::new(alloc);
    let leaf = put(&mut blocks, &"a")?;
    let _other = put(&mut blocks, &"b")?;
    let left = put_links(alloc, &mut blocks, &[leaf])?;
    let right = put_links(alloc, &mut blocks, &[leaf, leaf])?;
    let root = put_links(alloc, &mut blocks, &[right, left, nowhere])?;
    reaches(&blocks, root, &[root, right, leaf, left])?;
    reaches(&blocks, right, &[right, leaf])?;
    reaches(&blocks, nowhere, &[])?;
    agree(blocks.remove(&left), true)?;
    reaches(&blocks, root, &[root, right, leaf])
}
