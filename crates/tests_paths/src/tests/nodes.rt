//! Rows of paths that lead into nodes of DAG-PB. The blocks, their CIDs and the expected answers
//! come from a separate program in Python, which walks over the data model of the DAG-PB
//! specification.

use crate::tests::resolve::{are_named, put};
use ipld_paths::{item_bytes, resolve, resolve_way};
use ipld_tree::Cid;
use std::alloc::Global;
use std::collections::BTreeMap;
use std::test::Fail;
use tests_shared::{agree, is_told};

/// A node with data. Its links lead to the others, with and without names and sizes.
const NODE: &[u8] =
    b"\x12\x2e\x0a\x24\x01\x71\x12\x20\x87\x1b\x2f\x0e\xa1\x93\xdf\x9a\xe5\xe5\x25\x48\xf8\x19\xb5\
    \x41\xc7\x78\x83\x7d\xa3\x53\x9a\x2e\x8b\x20\x09\x13\xb7\xeb\xc6\x5a\x12\x04\x6c\x65\x61\x66\
    \x18\x3c\x12\x26\x0a\x22\x12\x20\x06\xb5\xa8\xb0\x23\xe8\x0d\x86\xcb\x95\x4e\x09\xc1\x76\xac\
    \x5c\xae\x31\x1b\x52\x10\xbd\x60\xff\x36\x58\x24\x8b\x30\x5c\xca\x1c\x12\x00\x12\x09\x0a\x07\
    \x01\x70\x00\x03\x0a\x01\x21\x12\x32\x0a\x24\x01\x70\x12\x20\xb7\x72\xd2\x9f\xfa\x63\x99\xa1\
    \xa0\x89\x7a\x03\xb9\xb9\xbf\x53\x4a\xec\xdd\x4f\x48\x4a\xf5\x34\x83\xda\xd9\x46\x61\xcd\xa3\
    \x39\x12\x07\x75\x6e\x6e\x61\x6d\x65\x64\x18\xac\x02\x12\x26\x0a\x24\x01\x70\x12\x20\xfb\x8d\
    \xa7\xeb\x5b\x1b\x39\x9e\x73\x21\x17\x9d\xac\x9e\x9f\x65\x77\x3d\x73\x31\xe1\xe3\x05\x54\xe3\
    \x91\x1e\x43\x25\xe1\xef\x19\x12\x28\x0a\x24\x01\x70\x12\x20\x98\x20\xee\x6b\x9b\xcc\xa3\x0c\
    \x40\x0e\xd0\x4f\xf7\x85\x3d\xea\xa9\x9f\x90\xe2\x95\xa0\xfe\xd5\x81\x39\xe0\x1f\x27\x4b\x7b\
    \x16\x18\x00\x0a\x02\x08\x01";

/// A block of DAG-CBOR: an integer, and a link to the inner node.
const LEAF: &[u8] =
    b"\xa2\x61\x6e\x07\x62\x69\x6e\xd8\x2a\x58\x25\x00\x01\x70\x12\x20\x06\xb5\xa8\xb0\x23\xe8\x0d\
    \x86\xcb\x95\x4e\x09\xc1\x76\xac\x5c\xae\x31\x1b\x52\x10\xbd\x60\xff\x36\x58\x24\x8b\x30\x5c\
    \xca\x1c";

/// A node with data and no links.
const INNER: &[u8] = b"\x0a\x02hi";

/// A node with a link whose name is not UTF-8.
const UNNAMED: &[u8] =
    b"\x12\x29\x0a\x24\x01\x71\x12\x20\x87\x1b\x2f\x0e\xa1\x93\xdf\x9a\xe5\xe5\x25\x48\xf8\x19\xb5\
    \x41\xc7\x78\x83\x7d\xa3\x53\x9a\x2e\x8b\x20\x09\x13\xb7\xeb\xc6\x5a\x12\x01\xff\x0a\x01\x78";

/// The node's CID, in binary.
const NODE_NAME: &[u8] =
    b"\x01\x70\x12\x20\x8c\x6f\x2e\x93\x25\xcc\x02\x01\x52\x3d\x54\x03\xc1\xc7\x95\x06\x11\xa2\x3a\
    \x70\xb2\x28\xe6\xbc\x84\xd2\xcd\x5c\x96\x03\xac\x03";

/// A CID, in binary.
const LEAF_NAME: &[u8] =
    b"\x01\x71\x12\x20\x87\x1b\x2f\x0e\xa1\x93\xdf\x9a\xe5\xe5\x25\x48\xf8\x19\xb5\x41\xc7\x78\x83\
    \x7d\xa3\x53\x9a\x2e\x8b\x20\x09\x13\xb7\xeb\xc6\x5a";

/// A CID, in binary.
const INNER_NAME: &[u8] =
    b"\x01\x70\x12\x20\x06\xb5\xa8\xb0\x23\xe8\x0d\x86\xcb\x95\x4e\x09\xc1\x76\xac\x5c\xae\x31\x1b\
    \x52\x10\xbd\x60\xff\x36\x58\x24\x8b\x30\x5c\xca\x1c";

/// The CID of the inner node, of version 0.
const INNER_OLD_NAME: &[u8] =
    b"\x12\x20\x06\xb5\xa8\xb0\x23\xe8\x0d\x86\xcb\x95\x4e\x09\xc1\x76\xac\x5c\xae\x31\x1b\x52\x10\
    \xbd\x60\xff\x36\x58\x24\x8b\x30\x5c\xca\x1c";

/// An identity CID of a node.
const INLINE_NAME: &[u8] = b"\x01\x70\x00\x03\x0a\x01\x21";

/// A CID, in binary.
const UNNAMED_NAME: &[u8] =
    b"\x01\x70\x12\x20\xb7\x72\xd2\x9f\xfa\x63\x99\xa1\xa0\x89\x7a\x03\xb9\xb9\xbf\x53\x4a\xec\xdd\
    \x4f\x48\x4a\xf5\x34\x83\xda\xd9\x46\x61\xcd\xa3\x39";

/// The CID of two bytes that are not a node.
const BAD_NAME: &[u8] =
    b"\x01\x70\x12\x20\xfb\x8d\xa7\xeb\x5b\x1b\x39\x9e\x73\x21\x17\x9d\xac\x9e\x9f\x65\x77\x3d\x73\
    \x31\xe1\xe3\x05\x54\xe3\x91\x1e\x43\x25\xe1\xef\x19";

/// A CID under which a node is stored that does not match it.
const OTHER_NAME: &[u8] =
    b"\x01\x70\x12\x20\x98\x20\xee\x6b\x9b\xcc\xa3\x0c\x40\x0e\xd0\x4f\xf7\x85\x3d\xea\xa9\x9f\x90\
    \xe2\x95\xa0\xfe\xd5\x81\x39\xe0\x1f\x27\x4b\x7b\x16";

fn blocks(alloc: Global) -> Result<BTreeMap<Cid, Vec<u8>>, Fail> {
    let mut blocks = BTreeMap::new(alloc);
    put(&mut blocks, alloc, NODE_NAME, NODE)?;
    put(&mut blocks, alloc, LEAF_NAME, LEAF)?;
    put(&mut blocks, alloc, INNER_NAME, INNER)?;
    put(&mut blocks, alloc, INNER_OLD_NAME, INNER)?;
    put(&mut blocks, alloc, UNNAMED_NAME, UNNAMED)?;
    put(&mut blocks, alloc, BAD_NAME, b"\x08\x01")?;
    put(&mut blocks, alloc, OTHER_NAME, b"\x0a\x01x")?;
    Ok(blocks)
}

/// Fails if the path ends otherwise, or leads to another item.
fn ends(alloc: Global, blocks: &BTreeMap<Cid, Vec<u8>>, root: &Cid, row: &Row) -> Result<(), Fail> {
    let (path, name, left, told, wanted) = *row;
    let Ok(resolved) = resolve(alloc, blocks, root, path) else {
        return Err(Fail::new("no memory"));
    };
    agree(resolved.block.to_bytes(alloc)?.as_slice(), name)?;
    agree(resolved.path, left)?;
    is_told(alloc, &resolved.end, told)?;
    match item_bytes(alloc, blocks, &resolved)? {
        Some(item) => agree(Some(item.bytes()), wanted),
        None => agree(None, wanted),
    }
}

#[test]
fn paths_into_nodes(rt: HostRuntime) -> Result<(), Fail> {
    let alloc = rt.alloc();
    let blocks = blocks(alloc)?;
    let Ok(root) = Cid::try_from(NODE_NAME) else {
        return Err(Fail::new("no CID"));
    };
    for row in ROWS {
        ends(alloc, &blocks, &root, row)?;
    }
    Ok(())
}

/// A path; the block where it ends, and the rest of the path there; how it ends; and the item's
/// bytes.
type Row = (
    &'static str,
    &'static [u8],
    &'static str,
    &'static str,
    Option<&'static [u8]>,
);

const ROWS: &[Row] = &[
    (
        "Data",
        NODE_NAME,
        "Data",
        r#"Item(Bytes, 6, 9)"#,
        Some(b"\x42\x08\x01"),
    ),
    (
        "Links/0/Hash",
        NODE_NAME,
        "Links/0/Hash",
        r#"Item(Link, 22, 63)"#,
        Some(
            b"\xd8\x2a\x58\x25\x00\x01\x71\x12\x20\x87\x1b\x2f\x0e\xa1\x93\xdf\x9a\xe5\xe5\x25\x48\xf8\x19\xb5\x41\xc7\x78\x83\x7d\xa3\x53\x9a\x2e\x8b\x20\x09\x13\xb7\xeb\xc6\x5a",
        ),
    ),
    (
        "Links/0/Name",
        NODE_NAME,
        "Links/0/Name",
        r#"Item(String, 68, 73)"#,
        Some(b"\x64\x6c\x65\x61\x66"),
    ),
    (
        "Links/0/Tsize",
        NODE_NAME,
        "Links/0/Tsize",
        r#"Item(Integer, 79, 81)"#,
        Some(b"\x18\x3c"),
    ),
    (
        "Links/1/Name",
        NODE_NAME,
        "Links/1/Name",
        r#"Item(String, 131, 132)"#,
        Some(b"\x60"),
    ),
    (
        "Links/1/Tsize",
        NODE_NAME,
        "Links/1/Tsize",
        r#"NoSuchPath("Tsize")"#,
        None,
    ),
    (
        "Links/2/Name",
        NODE_NAME,
        "Links/2/Name",
        r#"NoSuchPath("Name")"#,
        None,
    ),
    (
        "Links/3/Tsize",
        NODE_NAME,
        "Links/3/Tsize",
        r#"Item(Integer, 215, 218)"#,
        Some(b"\x19\x01\x2c"),
    ),
    (
        "Links/5/Tsize",
        NODE_NAME,
        "Links/5/Tsize",
        r#"Item(Integer, 318, 319)"#,
        Some(b"\x00"),
    ),
    ("Links/9", NODE_NAME, "Links/9", r#"NoSuchPath("9")"#, None),
    ("data", NODE_NAME, "data", r#"NoSuchPath("data")"#, None),
    (
        "Links/0/Hash/n",
        LEAF_NAME,
        "n",
        r#"Item(Integer, 3, 4)"#,
        Some(b"\x07"),
    ),
    (
        "Links/0/Hash/in",
        LEAF_NAME,
        "in",
        r#"Item(Link, 7, 48)"#,
        Some(
            b"\xd8\x2a\x58\x25\x00\x01\x70\x12\x20\x06\xb5\xa8\xb0\x23\xe8\x0d\x86\xcb\x95\x4e\x09\xc1\x76\xac\x5c\xae\x31\x1b\x52\x10\xbd\x60\xff\x36\x58\x24\x8b\x30\x5c\xca\x1c",
        ),
    ),
    (
        "Links/0/Hash/in/Data",
        INNER_NAME,
        "Data",
        r#"Item(Bytes, 6, 9)"#,
        Some(b"\x42\x68\x69"),
    ),
    (
        "Links/0/Hash/in/Links/0",
        INNER_NAME,
        "Links/0",
        r#"NoSuchPath("0")"#,
        None,
    ),
    (
        "Links/1/Hash/Links",
        INNER_OLD_NAME,
        "Links",
        r#"Item(List, 15, 16)"#,
        Some(b"\x80"),
    ),
    (
        "Links/2/Hash/Data",
        INLINE_NAME,
        "Data",
        r#"Item(Bytes, 6, 8)"#,
        Some(b"\x41\x21"),
    ),
    (
        "Links/3/Hash",
        NODE_NAME,
        "Links/3/Hash",
        r#"Item(Link, 155, 196)"#,
        Some(
            b"\xd8\x2a\x58\x25\x00\x01\x70\x12\x20\xb7\x72\xd2\x9f\xfa\x63\x99\xa1\xa0\x89\x7a\x03\xb9\xb9\xbf\x53\x4a\xec\xdd\x4f\x48\x4a\xf5\x34\x83\xda\xd9\x46\x61\xcd\xa3\x39",
        ),
    ),
    (
        "Links/3/Hash/Data",
        UNNAMED_NAME,
        "Data",
        r#"NoModel"#,
        None,
    ),
    (
        "Links/3/Hash/Links/0/Name",
        UNNAMED_NAME,
        "Links/0/Name",
        r#"NoModel"#,
        None,
    ),
    (
        "Links/4/Hash/Data",
        BAD_NAME,
        "Data",
        r#"NoBlock(NoNode(PbError { cause: UnexpectedField(8), place: 0 }))"#,
        None,
    ),
    (
        "Links/5/Hash/Data",
        OTHER_NAME,
        "Data",
        r#"NoBlock(OtherBytes)"#,
        None,
    ),
];

#[test]
fn ways_into_nodes(rt: HostRuntime) -> Result<(), Fail> {
    let alloc = rt.alloc();
    let blocks = blocks(alloc)?;
    let Ok(root) = Cid::try_from(NODE_NAME) else {
        return Err(Fail::new("no CID"));
    };
    for (path, names) in WAYS {
        let way = resolve_way(alloc, &blocks, &root, path)?;
        are_named(alloc, &way.names, names)?;
    }
    Ok(())
}

/// A path, and the CIDs of the blocks on its way.
const WAYS: &[(&str, &[&[u8]])] = &[
    ("Data", &[NODE_NAME]),
    ("Links/0/Hash", &[NODE_NAME]),
    ("Links/0/Hash/n", &[NODE_NAME, LEAF_NAME]),
    ("Links/0/Hash/in/Data", &[NODE_NAME, LEAF_NAME, INNER_NAME]),
    ("Links/1/Hash/Links", &[NODE_NAME, INNER_OLD_NAME]),
    ("Links/2/Hash/Data", &[NODE_NAME, INLINE_NAME]),
    ("Links/3/Hash/Data", &[NODE_NAME, UNNAMED_NAME]),
];
