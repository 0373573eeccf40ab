//! Records that are found, and the nodes on the way to them, which a program in another language
//! found.

use crate::tests::{Kept, agree, is_named, numbered, numbered_all};
use atproto_mst::{MstError, NodeSink, find_record, record_way, write_mst};
use ipld_links::name_of_block;
use ipld_tree::Cid;
use std::alloc::Global;
use std::collections::BTreeMap;
use std::test::Fail;

/// For the 200 records of `SETS`: a number, whether it is that of a record, and the nodes on the
/// way.
const WAYS: &[(u32, bool, &[&[u8]])] = &[
    (
        2189,
        true,
        &[b"bafyreiaykn4fatdtpdduw4bbdxkpikkdzegbikx4uuvqjlxe2wfwvylpse"],
    ),
    (
        440,
        true,
        &[
            b"bafyreiaykn4fatdtpdduw4bbdxkpikkdzegbikx4uuvqjlxe2wfwvylpse",
            b"bafyreidndt477x64h3f43xaovvg53ozipmlkwy2drdq66noha7zilc554y",
        ],
    ),
    (
        253,
        true,
        &[
            b"bafyreiaykn4fatdtpdduw4bbdxkpikkdzegbikx4uuvqjlxe2wfwvylpse",
            b"bafyreidndt477x64h3f43xaovvg53ozipmlkwy2drdq66noha7zilc554y",
            b"bafyreibn6bhsj2uvfxpo2gjwpnghx5w4zkxn5pympx46iahui6woayugc4",
        ],
    ),
    (
        33,
        true,
        &[
            b"bafyreiaykn4fatdtpdduw4bbdxkpikkdzegbikx4uuvqjlxe2wfwvylpse",
            b"bafyreidndt477x64h3f43xaovvg53ozipmlkwy2drdq66noha7zilc554y",
            b"bafyreibn6bhsj2uvfxpo2gjwpnghx5w4zkxn5pympx46iahui6woayugc4",
            b"bafyreihsa2vtrg4mfntzburkbdivwwp3kabxgaigk7ch4vg6kxfhiy5ya4",
            b"bafyreiebmwcb6ygui3yibplwfyal2djwvdwo7dvpqvqdzsi2xymppcooae",
        ],
    ),
    (
        2195,
        false,
        &[b"bafyreiaykn4fatdtpdduw4bbdxkpikkdzegbikx4uuvqjlxe2wfwvylpse"],
    ),
    (
        243,
        false,
        &[
            b"bafyreiaykn4fatdtpdduw4bbdxkpikkdzegbikx4uuvqjlxe2wfwvylpse",
            b"bafyreidndt477x64h3f43xaovvg53ozipmlkwy2drdq66noha7zilc554y",
            b"bafyreibn6bhsj2uvfxpo2gjwpnghx5w4zkxn5pympx46iahui6woayugc4",
            b"bafyreihsa2vtrg4mfntzburkbdivwwp3kabxgaigk7ch4vg6kxfhiy5ya4",
        ],
    ),
    (
        5,
        false,
        &[
            b"bafyreiaykn4fatdtpdduw4bbdxkpikkdzegbikx4uuvqjlxe2wfwvylpse",
            b"bafyreidndt477x64h3f43xaovvg53ozipmlkwy2drdq66noha7zilc554y",
            b"bafyreibn6bhsj2uvfxpo2gjwpnghx5w4zkxn5pympx46iahui6woayugc4",
            b"bafyreihsa2vtrg4mfntzburkbdivwwp3kabxgaigk7ch4vg6kxfhiy5ya4",
            b"bafyreif7behiksxlktm4kwnz7loua2kewy57lv4pzu24xq7xjamfje7lfu",
        ],
    ),
];

/// A node whose first entry shares a byte, with no key before it.
const FRONT: &[u8] =
    b"\xa2\x61\x65\x81\xa4\x61\x6b\x41\x61\x61\x70\x01\x61\x74\xf6\x61\x76\xd8\x2a\x58\x25\x00\x01\x71\x12\x20\x2d\x71\x16\x42\xb7\x26\xb0\x44\x01\x62\x7c\xa9\xfb\xac\x32\xf5\xc8\x53\x0f\xb1\x90\x3c\xc4\xdb\x02\x25\x87\x17\x92\x1a\x48\x81\x61\x6c\xf6";

/// A node with the key `b`, and then an entry that shares two bytes with it.
const FRONTS: &[u8] =
    b"\xa2\x61\x65\x82\xa4\x61\x6b\x41\x62\x61\x70\x00\x61\x74\xf6\x61\x76\xd8\x2a\x58\x25\x00\x01\x71\x12\x20\x2d\x71\x16\x42\xb7\x26\xb0\x44\x01\x62\x7c\xa9\xfb\xac\x32\xf5\xc8\x53\x0f\xb1\x90\x3c\xc4\xdb\x02\x25\x87\x17\x92\x1a\x48\x81\xa4\x61\x6b\x41\x61\x61\x70\x02\x61\x74\xf6\x61\x76\xd8\x2a\x58\x25\x00\x01\x71\x12\x20\x2d\x71\x16\x42\xb7\x26\xb0\x44\x01\x62\x7c\xa9\xfb\xac\x32\xf5\xc8\x53\x0f\xb1\x90\x3c\xc4\xdb\x02\x25\x87\x17\x92\x1a\x48\x81\x61\x6c\xf6";

/// A node with no key and no subtree.
const LOWEST: &[u8] = b"\xa2\x61\x65\x80\x61\x6c\xf6";

/// The front of a node with no key, before the digest of the node below it.
const ABOVE: &[u8] = b"\xa2\x61\x65\x80\x61\x6c\xd8\x2a\x58\x25\x00\x01\x71\x12\x20";

/// The last of 129 nodes, each above the next.
const OF_129: &[u8] = b"bafyreifmf4qubytiiw6o64efy7dpugwdesm7s3euul3sytyojctwx6udw4";

/// The node above it.
const OF_130: &[u8] = b"bafyreigy2vjzndb2uklrwtoapieh67j3xrps5atw6mu25l7zoh3bvyb5zu";

fn kept(alloc: Global) -> Kept {
    Kept {
        blocks: BTreeMap::new(alloc),
    }
}

/// Returns only the nodes of these CIDs.
fn those_of(alloc: Global, all: &Kept, names: &[Cid]) -> Result<Kept, Fail> {
    let mut some = kept(alloc);
    for name in names {
        match all.blocks.get(name) {
            Some(block) => some.take(*name, block.to_vec(alloc)?)?,
            None => return Err(Fail::from("a name of no node")),
        }
    }
    Ok(some)
}

#[test]
fn each_record_is_found(rt: HostRuntime) -> Result<(), Fail> {
    let alloc = rt.alloc();
    let all = numbered_all(alloc, 200, 11)?;
    let mut nodes = kept(alloc);
    let root = write_mst(alloc, &all, &mut nodes)?;
    for record in &all {
        let found = find_record(alloc, &nodes.blocks, &root, &record.key)?;
        agree(found, Some(record.value))?;
    }
    for index in 0..200 {
        let other = numbered(alloc, 11 * index + 1)?;
        let found = find_record(alloc, &nodes.blocks, &root, &other.key)?;
        agree(found, None)?;
    }
    let found = find_record(alloc, &nodes.blocks, &root, b"")?;
    agree(found, None)
}

#[test]
fn ways_are_told_and_suffice(rt: HostRuntime) -> Result<(), Fail> {
    let alloc = rt.alloc();
    let all = numbered_all(alloc, 200, 11)?;
    let mut nodes = kept(alloc);
    let root = write_mst(alloc, &all, &mut nodes)?;
    for row in WAYS {
        let record = numbered(alloc, row.0)?;
        let wanted = if row.1 { Some(record.value) } else { None };
        let names = record_way(alloc, &nodes.blocks, &root, &record.key)?;
        are_named(&names, row.2)?;
        they_suffice(alloc, &nodes, &root, &record.key, &names, wanted)?;
        the_last_is_needed(alloc, &nodes, &root, &record.key, &names)?;
    }
    Ok(())
}

/// Fails unless these nodes alone give this record.
fn they_suffice(
    alloc: Global,
    nodes: &Kept,
    root: &Cid,
    key: &[u8],
    names: &[Cid],
    wanted: Option<Cid>,
) -> Result<(), Fail> {
    let few = those_of(alloc, nodes, names)?;
    let found = find_record(alloc, &few.blocks, root, key)?;
    agree(found, wanted)
}

fn are_named(names: &[Cid], texts: &[&[u8]]) -> Result<(), Fail> {
    agree(names.len(), texts.len())?;
    for (name, text) in names.iter().zip(texts.iter()) {
        agree(is_named(name, *text), true)?;
    }
    Ok(())
}

/// Fails unless a search without the last node of the way reports it as missing.
fn the_last_is_needed(
    alloc: Global,
    nodes: &Kept,
    root: &Cid,
    key: &[u8],
    names: &[Cid],
) -> Result<(), Fail> {
    let Some((last, before)) = names.split_last() else {
        return Err(Fail::from("a way of no node"));
    };
    let few = those_of(alloc, nodes, before)?;
    match &find_record(alloc, &few.blocks, root, key) {
        Err(MstError::MissingNode(lost)) => agree(*lost, *last),
        _ => Err(Fail::from("a lost node was not told")),
    }
}

#[test]
fn entries_share_no_more_than_there_is(rt: HostRuntime) -> Result<(), Fail> {
    let alloc = rt.alloc();
    let mut nodes = kept(alloc);
    let front = name_of_block(FRONT);
    nodes.take(front, FRONT.to_vec(alloc)?)?;
    let fronts = name_of_block(FRONTS);
    nodes.take(fronts, FRONTS.to_vec(alloc)?)?;
    is_refused_for_its_front(alloc, &nodes, &front, b"a")?;
    is_refused_for_its_front(alloc, &nodes, &fronts, b"c")?;
    let found = find_record(alloc, &nodes.blocks, &fronts, b"a")?;
    agree(found, None)?;
    let found = find_record(alloc, &nodes.blocks, &fronts, b"b")?;
    agree(found, Some(name_of_block(b"x")))
}

fn is_refused_for_its_front(
    alloc: Global,
    nodes: &Kept,
    root: &Cid,
    key: &[u8],
) -> Result<(), Fail> {
    match find_record(alloc, &nodes.blocks, root, key) {
        Err(MstError::KeyFront) => {}
        _ => return Err(Fail::from("a front was not told")),
    }
    match record_way(alloc, &nodes.blocks, root, key) {
        Err(MstError::KeyFront) => Ok(()),
        _ => Err(Fail::from("a front on the way was not told")),
    }
}

#[test]
fn the_layers_are_counted(rt: HostRuntime) -> Result<(), Fail> {
    let alloc = rt.alloc();
    let mut nodes = kept(alloc);
    let lowest = name_of_block(LOWEST);
    nodes.take(lowest, LOWEST.to_vec(alloc)?)?;
    let mut name = lowest;
    for _layer in 1..129 {
        name = add_above(alloc, &mut nodes, &name)?;
    }
    agree(is_named(&name, OF_129), true)?;
    let found = find_record(alloc, &nodes.blocks, &name, b"a")?;
    agree(found, None)?;
    name = add_above(alloc, &mut nodes, &name)?;
    agree(is_named(&name, OF_130), true)?;
    match &find_record(alloc, &nodes.blocks, &name, b"a") {
        Err(MstError::TooDeep(deepest)) => agree(*deepest, lowest),
        _ => Err(Fail::from("a depth was not told")),
    }
}

/// Adds a node with no key above this one, and returns its CID.
fn add_above(alloc: Global, nodes: &mut Kept, below: &Cid) -> Result<Cid, Fail> {
    let mut block = ABOVE.to_vec(alloc)?;
    block.extend_from_slice(below.digest())?;
    let name = name_of_block(&block);
    nodes.take(name, block)?;
    Ok(name)
}
