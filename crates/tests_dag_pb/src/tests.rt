//! Blocks of DAG-PB, with bytes from another program, and where their links lead.

use dag_pb::check_node;
use ipld_links::reach_from;
use ipld_tree::Cid;
use std::alloc::Global;
use std::collections::BTreeMap;
use std::test::Fail;
use tests_shared::is_told;

/// Bytes, and the answer for them.
const ROWS: &[(&[u8], &str)] = &[
    // nothing
    (b"", "Ok(())"),
    // data of no bytes
    (b"\x0a\x00", "Ok(())"),
    // data
    (b"\x0a\x02\x61\x62", "Ok(())"),
    // a link
    (b"\x12\x06\x0a\x04\x01\x55\x00\x00", "Ok(())"),
    // a link with a CID of version 0
    (
        b"\x12\x24\x0a\x22\x12\x20\x00\x00\x00\x00\x00\x00\x00\x00\x00\x00\x00\x00\x00\x00\x00\x00\x00\x00\x00\x00\x00\x00\x00\x00\x00\x00\x00\x00\x00\x00\x00\x00",
        "Ok(())",
    ),
    // a link with all its fields
    (
        b"\x12\x0b\x0a\x04\x01\x55\x00\x00\x12\x01\x61\x18\x05",
        "Ok(())",
    ),
    // a link without a name
    (b"\x12\x08\x0a\x04\x01\x55\x00\x00\x18\x05", "Ok(())"),
    // an empty name, and one that is not UTF-8
    (
        b"\x12\x08\x0a\x04\x01\x55\x00\x00\x12\x00\x12\x09\x0a\x04\x01\x55\x00\x00\x12\x01\xff",
        "Ok(())",
    ),
    // links that are not sorted
    (
        b"\x12\x09\x0a\x04\x01\x55\x00\x00\x12\x01\x62\x12\x09\x0a\x04\x01\x55\x00\x00\x12\x01\x61",
        "Ok(())",
    ),
    // links, then data
    (b"\x12\x06\x0a\x04\x01\x55\x00\x00\x0a\x01\x78", "Ok(())"),
    // data, then links
    (b"\x0a\x01\x78\x12\x06\x0a\x04\x01\x55\x00\x00", "Ok(())"),
    // a tag in a long form
    (b"\x92\x00\x06\x0a\x04\x01\x55\x00\x00", "Ok(())"),
    // a size in a long form
    (
        b"\x12\x0a\x0a\x04\x01\x55\x00\x00\x18\x85\x80\x00",
        "Ok(())",
    ),
    // the greatest size
    (
        b"\x12\x11\x0a\x04\x01\x55\x00\x00\x18\xff\xff\xff\xff\xff\xff\xff\xff\xff\x01",
        "Ok(())",
    ),
    // data between links
    (
        b"\x12\x06\x0a\x04\x01\x55\x00\x00\x0a\x00\x12\x06\x0a\x04\x01\x55\x00\x00",
        "Err(PbError { cause: UnexpectedField(18), place: 10 })",
    ),
    // data twice
    (
        b"\x0a\x00\x0a\x00",
        "Err(PbError { cause: UnexpectedField(10), place: 2 })",
    ),
    // data around links
    (
        b"\x0a\x00\x12\x06\x0a\x04\x01\x55\x00\x00\x0a\x00",
        "Err(PbError { cause: UnexpectedField(10), place: 10 })",
    ),
    // no length
    (b"\x12", "Err(PbError { cause: Truncated, place: 1 })"),
    // an empty link
    (b"\x12\x00", "Err(PbError { cause: NoHash, place: 2 })"),
    // too few bytes
    (b"\x12\x01", "Err(PbError { cause: Truncated, place: 1 })"),
    // the name before the CID
    (
        b"\x12\x02\x12\x00",
        "Err(PbError { cause: UnexpectedField(18), place: 2 })",
    ),
    // an empty CID
    (
        b"\x12\x02\x0a\x00",
        "Err(PbError { cause: InvalidCid(Truncated), place: 4 })",
    ),
    // a CID with a number in a long form
    (
        b"\x12\x07\x0a\x05\x01\x55\x80\x00\x00",
        "Err(PbError { cause: InvalidCid(InvalidVarint), place: 4 })",
    ),
    // an unknown field
    (
        b"\x12\x08\x0a\x04\x01\x55\x00\x00\x20\x01",
        "Err(PbError { cause: UnexpectedField(32), place: 8 })",
    ),
    // two CIDs
    (
        b"\x12\x0c\x0a\x04\x01\x55\x00\x00\x0a\x04\x01\x55\x00\x00",
        "Err(PbError { cause: UnexpectedField(10), place: 8 })",
    ),
    // the name first
    (
        b"\x12\x09\x12\x01\x61\x0a\x04\x01\x55\x00\x00",
        "Err(PbError { cause: UnexpectedField(18), place: 2 })",
    ),
    // the size before the name
    (
        b"\x12\x0b\x0a\x04\x01\x55\x00\x00\x18\x05\x12\x01\x61",
        "Err(PbError { cause: UnexpectedField(18), place: 10 })",
    ),
    // two names
    (
        b"\x12\x0c\x0a\x04\x01\x55\x00\x00\x12\x01\x61\x12\x01\x61",
        "Err(PbError { cause: UnexpectedField(18), place: 11 })",
    ),
    // half a length
    (b"\x0a\x80", "Err(PbError { cause: Truncated, place: 1 })"),
    // field 3
    (
        b"\x1a\x00",
        "Err(PbError { cause: UnexpectedField(26), place: 0 })",
    ),
    // a number as data
    (
        b"\x08\x00",
        "Err(PbError { cause: UnexpectedField(8), place: 0 })",
    ),
    // 2 ^ 64
    (
        b"\x80\x80\x80\x80\x80\x80\x80\x80\x80\x02",
        "Err(PbError { cause: InvalidVarint, place: 0 })",
    ),
    // a number of ten bytes
    (
        b"\x80\x80\x80\x80\x80\x80\x80\x80\x80\x80",
        "Err(PbError { cause: InvalidVarint, place: 0 })",
    ),
    // a length beyond the block
    (
        b"\x0a\xff\xff\xff\xff\xff\xff\xff\xff\xff\x01",
        "Err(PbError { cause: Truncated, place: 1 })",
    ),
    // a size of 2 ^ 64 and more
    (
        b"\x12\x11\x0a\x04\x01\x55\x00\x00\x18\xff\xff\xff\xff\xff\xff\xff\xff\xff\x02",
        "Err(PbError { cause: InvalidVarint, place: 9 })",
    ),
    // half a size
    (
        b"\x12\x07\x0a\x04\x01\x55\x00\x00\x18",
        "Err(PbError { cause: Truncated, place: 9 })",
    ),
];

#[test]
fn blocks_are_told_from_others(rt: HostRuntime) -> Result<(), Fail> {
    for (block, wanted) in ROWS {
        is_told(rt.alloc(), &check_node(block), wanted)?;
    }
    Ok(())
}

/// CIDs, and their blocks: a directory that links to a missing block, and to a node by a CID of
/// version 0, which links to a leaf.
const BLOCKS: &[(&[u8], &[u8])] = &[
    (
        b"\x01\x70\x12\x20\x9f\xe1\x3a\xa9\x38\x71\x69\x63\xa8\x91\x8c\x50\x19\x30\xc3\x0b\x7a\x10\xaa\xd3\x15\x3c\xb9\x47\x4c\x20\x29\xee\x5a\x02\xa4\x32",
        b"\x12\x26\x0a\x24\x01\x55\x12\x20\x28\x3b\xb9\xde\xef\x02\xe6\x84\x3a\xbf\xb5\x38\xef\xa1\xec\xa7\x08\x01\xbd\x8a\x70\x1c\x3f\x98\x19\x1e\x12\x34\x96\x33\x92\x47\x12\x24\x0a\x22\x12\x20\xcc\x44\xaa\x60\xa9\xb2\xb7\x75\xad\x1d\x86\x4b\xdb\x89\x99\x13\x90\x60\x80\x2f\xc8\xdd\x87\xf6\x15\xa0\xd6\x2e\x8e\x8a\x50\xa6\x0a\x03\x64\x69\x72",
    ),
    (
        b"\x12\x20\xcc\x44\xaa\x60\xa9\xb2\xb7\x75\xad\x1d\x86\x4b\xdb\x89\x99\x13\x90\x60\x80\x2f\xc8\xdd\x87\xf6\x15\xa0\xd6\x2e\x8e\x8a\x50\xa6",
        b"\x12\x2c\x0a\x24\x01\x55\x12\x20\x9f\x91\x16\x1f\x43\x43\x3e\x49\xa6\xde\x6d\xb6\x80\xd7\x9f\x60\x15\x9f\x2e\x4a\xc9\x17\x26\x21\xa1\x28\x46\x42\x81\x58\x44\x0b\x12\x04\x6c\x65\x61\x66\x0a\x00",
    ),
    (
        b"\x01\x55\x12\x20\x9f\x91\x16\x1f\x43\x43\x3e\x49\xa6\xde\x6d\xb6\x80\xd7\x9f\x60\x15\x9f\x2e\x4a\xc9\x17\x26\x21\xa1\x28\x46\x42\x81\x58\x44\x0b",
        b"\x6c\x65\x61\x66",
    ),
];

/// Returns the blocks, by their CIDs.
fn stored(alloc: Global) -> Result<BTreeMap<Cid, Vec<u8>>, Fail> {
    let mut blocks = BTreeMap::new(alloc);
    for (name, block) in BLOCKS {
        blocks.insert(Cid::try_from(*name)?, block.to_vec(alloc)?)?;
    }
    Ok(blocks)
}

#[test]
fn walks_go_along_links_of_nodes(rt: HostRuntime) -> Result<(), Fail> {
    let alloc = rt.alloc();
    let blocks = stored(alloc)?;
    let root = Cid::try_from(BLOCKS[0].0)?;
    let reached = reach_from(alloc, &blocks, &root)?;
    is_told(alloc, &(reached.found.len(), reached.lost.len()), "(3, 1)")
}
