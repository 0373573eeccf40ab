//! The differences between trees of which only differing nodes are stored, with rows that a program
//! in another language made.

use crate::changes::{are_told, change_one};
use crate::tests::{Kept, agree, is_named, numbered_all};
use atproto_mst::{MstEntry, MstError, diff, read_mst, write_mst};
use ipld_links::name_of_block;
use ipld_tree::Cid;
use std::alloc::{AllocError, Global};
use std::collections::BTreeMap;
use std::test::Fail;

type Blocks = BTreeMap<Cid, Vec<u8>>;

/// For 200 records with the step 11: the number of each changed key, of its record before and
/// after; how many nodes only the tree before has, and only the tree after; and the root of the
/// tree after.
const SHARES: &[(&[(u32, Option<u32>, Option<u32>)], usize, usize, &[u8])] = &[
    (
        &[(33, Some(33), Some(34))],
        5,
        5,
        b"bafyreifhdxvko276fnlbdl4ke7lkq7xd244w6uppl46e4cimrlbnkrxyhu",
    ),
    (
        &[(2189, Some(2189), None)],
        1,
        0,
        b"bafyreidndt477x64h3f43xaovvg53ozipmlkwy2drdq66noha7zilc554y",
    ),
    (
        &[(3, None, Some(3))],
        4,
        4,
        b"bafyreiavlwzlomrkotktneyqot6c3alm7laarkk5vaszffpfuchbsjb2mm",
    ),
    (
        &[(4560, None, Some(4560))],
        0,
        2,
        b"bafyreie73yio2jk4ajpiqzum2jg452t5d3vxeeuhcqmufsjapkmebqbcua",
    ),
    (
        &[(0, Some(0), None), (2189, Some(2189), None)],
        5,
        3,
        b"bafyreibuuaeyovpo4rx5u7wcsbrsx7blpi2sf6y27drz4zuaotwwzdpeny",
    ),
    (
        &[(1148, None, Some(1148))],
        5,
        11,
        b"bafyreieqsno6hlvdkwtwlaucb3pt6swb6my4dpdcr6ntm7hyyejlfs7fai",
    ),
    (
        &[
            (0, Some(0), Some(1)),
            (110, Some(110), Some(111)),
            (220, Some(220), Some(221)),
            (330, Some(330), Some(331)),
            (440, Some(440), Some(441)),
            (550, Some(550), Some(551)),
            (660, Some(660), Some(661)),
            (770, Some(770), Some(771)),
            (880, Some(880), Some(881)),
            (990, Some(990), Some(991)),
            (1100, Some(1100), Some(1101)),
            (1210, Some(1210), Some(1211)),
            (1320, Some(1320), Some(1321)),
            (1430, Some(1430), Some(1431)),
            (1540, Some(1540), Some(1541)),
            (1650, Some(1650), Some(1651)),
            (1760, Some(1760), Some(1761)),
            (1870, Some(1870), Some(1871)),
            (1980, Some(1980), Some(1981)),
            (2090, Some(2090), Some(2091)),
        ],
        31,
        31,
        b"bafyreihfmnnuvrtlqyzvkus2nc4uoekqq5ypxpf6ztdptjtz5qrup4v56i",
    ),
    (
        &[
            (5, None, Some(5)),
            (16, None, Some(16)),
            (1001, Some(1001), Some(1)),
            (1012, Some(1012), None),
            (2200, None, Some(2200)),
        ],
        7,
        9,
        b"bafyreiacljrnfga5vvkfbpkrxtlxixf5sogfg2avney3usxmoa7ll3tn7y",
    ),
];

/// Returns the nodes of the tree of these entries, and its root.
fn tree_of(alloc: Global, all: &[MstEntry]) -> Result<(Kept, Cid), Fail> {
    let mut kept = Kept {
        blocks: BTreeMap::new(alloc),
    };
    let root = write_mst(alloc, all, &mut kept)?;
    Ok((kept, root))
}

/// Returns the nodes that the first store has and the other lacks.
fn apart(alloc: Global, one: &Blocks, other: &Blocks) -> Result<Blocks, Fail> {
    let mut found = BTreeMap::new(alloc);
    for (name, block) in one.iter() {
        if other.get(name).is_none() {
            found.insert(*name, block.as_slice().to_vec(alloc)?)?;
        }
    }
    Ok(found)
}

/// Copies a block from the first store to the other.
fn put(alloc: Global, from: &Blocks, name: &Cid, blocks: &mut Blocks) -> Result<(), Fail> {
    match from.get(name) {
        Some(block) => {
            blocks.insert(*name, block.as_slice().to_vec(alloc)?)?;
            Ok(())
        }
        None => Err(Fail::from("a node is not there")),
    }
}

/// Moves all blocks from the first store to the other.
fn put_all(from: Blocks, blocks: &mut Blocks) -> Result<(), Fail> {
    for (name, block) in from {
        blocks.insert(name, block)?;
    }
    Ok(())
}

/// Returns the CIDs of the blocks, in order.
fn names_of(alloc: Global, blocks: &Blocks) -> Result<Vec<Cid>, AllocError> {
    let mut names = Vec::new(alloc);
    for (name, _block) in blocks.iter() {
        names.push(*name)?;
    }
    Ok(names)
}

/// Fails unless the absence of any one of the blocks is reported.
fn each_is_read(alloc: Global, blocks: &mut Blocks, old: &Cid, new: &Cid) -> Result<(), Fail> {
    let names = names_of(alloc, blocks)?;
    for name in &names {
        let Some(block) = blocks.remove(name) else {
            return Err(Fail::from("a node is not there"));
        };
        is_refused(alloc, blocks, old, new, MstError::MissingNode(*name))?;
        blocks.insert(*name, block)?;
    }
    Ok(())
}

fn is_refused(
    alloc: Global,
    blocks: &Blocks,
    old: &Cid,
    new: &Cid,
    wanted: MstError,
) -> Result<(), Fail> {
    let found = diff(alloc, blocks, old, new);
    match &found {
        Err(error) => agree(*error, wanted),
        Ok(_) => Err(Fail::from("a fault was not told")),
    }
}

fn is_unread(alloc: Global, blocks: &Blocks, root: &Cid, wanted: MstError) -> Result<(), Fail> {
    match &read_mst(alloc, blocks, root) {
        Err(error) => agree(*error, wanted),
        Ok(_) => Err(Fail::from("a fault was not told")),
    }
}

/// Returns the entries after these changes.
fn changed(alloc: Global, rows: &[(u32, Option<u32>, Option<u32>)]) -> Result<Vec<MstEntry>, Fail> {
    let mut all = numbered_all(alloc, 200, 11)?;
    for row in rows {
        change_one(alloc, &mut all, row.0, row.2)?;
    }
    Ok(all)
}

/// Fails unless exactly the differing nodes and the roots are read.
fn is_told_apart(
    alloc: Global,
    row: &(&[(u32, Option<u32>, Option<u32>)], usize, usize, &[u8]),
) -> Result<(), Fail> {
    let (before, old) = tree_of(alloc, &numbered_all(alloc, 200, 11)?)?;
    let (after, new) = tree_of(alloc, &changed(alloc, row.0)?)?;
    agree(is_named(&new, row.3), true)?;
    let mut stored = apart(alloc, &before.blocks, &after.blocks)?;
    agree(stored.len(), row.1)?;
    let fresh = apart(alloc, &after.blocks, &before.blocks)?;
    agree(fresh.len(), row.2)?;
    put_all(fresh, &mut stored)?;
    put(alloc, &before.blocks, &old, &mut stored)?;
    put(alloc, &after.blocks, &new, &mut stored)?;
    are_told(alloc, &diff(alloc, &stored, &old, &new)?, row.0)?;
    each_is_read(alloc, &mut stored, &old, &new)?;
    put_all(before.blocks, &mut stored)?;
    put_all(after.blocks, &mut stored)?;
    are_told(alloc, &diff(alloc, &stored, &old, &new)?, row.0)
}

#[test]
fn shared_nodes_need_not_be_stored(rt: HostRuntime) -> Result<(), Fail> {
    for row in SHARES {
        is_told_apart(rt.alloc(), row)?;
    }
    Ok(())
}

#[test]
fn of_equal_roots_nothing_is_read(rt: HostRuntime) -> Result<(), Fail> {
    let alloc = rt.alloc();
    let root = name_of_block(b"no node");
    are_told(
        alloc,
        &diff(alloc, &BTreeMap::new(alloc), &root, &root)?,
        &[],
    )
}

/// A key of layer 8.
const HIGH: &[u8] = b"app.bsky.feed.post/9adeb165882c";

/// Appends null, or a link.
fn push_link(alloc: Global, link: &Option<Cid>, out: &mut Vec<u8>) -> Result<(), AllocError> {
    match link {
        Some(name) => {
            out.extend_from_slice(b"\xd8\x2a\x58\x25\x00")?;
            out.extend_from_slice(&name.to_bytes(alloc)?)
        }
        None => out.extend_from_slice(b"\xf6"),
    }
}

/// Returns a node of one key, with this node on both its sides.
fn twice(alloc: Global, below: &Option<Cid>) -> Result<Vec<u8>, AllocError> {
    let mut out = Vec::new(alloc);
    out.extend_from_slice(b"\xa2\x61\x65\x81\xa4\x61\x6b\x58\x1f")?;
    out.extend_from_slice(HIGH)?;
    out.extend_from_slice(b"\x61\x70\x00\x61\x74")?;
    push_link(alloc, below, &mut out)?;
    out.extend_from_slice(b"\x61\x76")?;
    push_link(alloc, &Some(name_of_block(HIGH)), &mut out)?;
    out.extend_from_slice(b"\x61\x6c")?;
    push_link(alloc, below, &mut out)?;
    Ok(out)
}

/// Returns a node without keys, over this node.
fn keyless(alloc: Global, below: &Option<Cid>) -> Result<Vec<u8>, AllocError> {
    let mut out = Vec::new(alloc);
    out.extend_from_slice(b"\xa2\x61\x65\x80\x61\x6c")?;
    push_link(alloc, below, &mut out)?;
    Ok(out)
}

/// Returns a chain of nodes without keys, under a root of one key that links to it on both sides,
/// and the root.
fn chained(alloc: Global, count: u32) -> Result<(Blocks, Cid), Fail> {
    let mut blocks = BTreeMap::new(alloc);
    let mut below = None;
    for _node in 0..count {
        let block = keyless(alloc, &below)?;
        let name = name_of_block(&block);
        blocks.insert(name, block)?;
        below = Some(name);
    }
    let block = twice(alloc, &below)?;
    let root = name_of_block(&block);
    blocks.insert(root, block)?;
    Ok((blocks, root))
}

/// The lengths of chains. The root has a key of layer 8.
const CHAINS: &[u32] = &[1, 2, 8, 9, 128];

#[test]
fn chains_without_keys_are_told(rt: HostRuntime) -> Result<(), Fail> {
    let alloc = rt.alloc();
    let (empty, none) = tree_of(alloc, &[])?;
    for &count in CHAINS {
        let (mut blocks, root) = chained(alloc, count)?;
        blocks.insert(none, keyless(alloc, &None)?)?;
        is_unread(alloc, &blocks, &root, MstError::OtherTree)?;
        is_refused(alloc, &blocks, &root, &none, MstError::OtherTree)?;
        is_refused(alloc, &blocks, &none, &root, MstError::OtherTree)?;
    }
    let (mut blocks, root) = chained(alloc, 129)?;
    put_all(empty.blocks, &mut blocks)?;
    let deepest = name_of_block(&keyless(alloc, &None)?);
    is_unread(alloc, &blocks, &root, MstError::TooDeep(deepest))
}

#[test]
fn keys_that_repeat_are_told(rt: HostRuntime) -> Result<(), Fail> {
    let alloc = rt.alloc();
    let mut blocks = BTreeMap::new(alloc);
    let mut below = None;
    for _layer in 0..100 {
        let block = twice(alloc, &below)?;
        let name = name_of_block(&block);
        blocks.insert(name, block)?;
        below = Some(name);
    }
    let Some(root) = below else {
        return Err(Fail::from("there is no root"));
    };
    let (empty, none) = tree_of(alloc, &[])?;
    put_all(empty.blocks, &mut blocks)?;
    is_refused(alloc, &blocks, &root, &none, MstError::KeyOrder)?;
    is_refused(alloc, &blocks, &none, &root, MstError::KeyOrder)
}
