//! Paths over blocks. The rows and CIDs come from a separate program in Python, which walks over
//! decoded blocks.

use ipld_paths::{resolve, resolve_way};
use ipld_tree::Cid;
use std::alloc::Global;
use std::collections::BTreeMap;
use std::test::Fail;
use tests_shared::{agree, is_told};

/// Links to each of the others, and to a block that is not stored.
const ROOT: &[u8] =
    b"\xa5\x61\x61\x82\xd8\x2a\x58\x25\x00\x01\x71\x12\x20\x00\xf5\x02\x9e\xcb\x58\x10\x5a\x66\
    \x97\x01\x18\x34\x7e\xde\x24\xbc\xdd\xf4\x04\xc2\x28\x99\x16\xed\x98\x28\x57\x60\x41\x45\
    \x56\x05\x63\x72\x61\x77\xd8\x2a\x58\x25\x00\x01\x55\x12\x20\xd7\x43\x9b\xee\x24\x77\x3b\
    \xcb\xfa\x2d\x0a\x97\x94\x7e\xe3\x62\x27\xb1\x0d\x10\x22\xb1\xa5\x58\x47\xe9\x28\x96\x5b\
    \xb6\xbf\xde\x63\x77\x61\x79\xd8\x2a\x58\x25\x00\x01\x71\x12\x20\x3a\x2b\x7b\xcd\x72\x6f\
    \xdd\x8e\x9a\x90\x97\xa3\x85\xfc\x28\xd3\x8a\x97\xd2\x89\xf6\x60\xc6\x3d\x56\xb2\xf1\x52\
    \x0a\x5c\x86\xf2\x64\x67\x6f\x6e\x65\xd8\x2a\x58\x25\x00\x01\x71\x12\x20\x61\xf8\xef\xee\
    \xe0\xc3\xf0\x81\x7f\x69\x8f\x72\xd5\x25\x4d\x43\xb2\x3c\x01\x2d\x23\x0a\x3e\x6e\xdd\xe5\
    \x6e\xc6\x40\x88\x31\xbb\x65\x6f\x74\x68\x65\x72\xd8\x2a\x58\x25\x00\x01\x71\x12\x20\xd9\
    \x29\x8a\x10\xd1\xb0\x73\x58\x37\xdc\x4b\xd8\x5d\xac\x64\x1b\x0f\x3c\xef\x27\xa4\x7e\x5d\
    \x53\xa5\x4f\x2f\x3f\x5b\x2f\xcf\xfa";

/// Links to a leaf, and to a block with the identity hash.
const MID: &[u8] =
    b"\xa3\x61\x62\xd8\x2a\x58\x25\x00\x01\x71\x12\x20\x98\xc0\x45\xc0\xa4\x62\x0c\x07\x68\x88\
    \xf7\x02\x50\x80\xed\xfe\x57\x87\x31\x66\xbc\xa9\x1a\x07\xe7\x6a\x2f\xe9\x5a\xc1\x37\x25\
    \x61\x63\x61\x78\x62\x69\x64\xd8\x2a\x4b\x00\x01\x71\x00\x06\xa1\x61\x78\x82\x01\x02";

/// An integer and a text.
const LEAF: &[u8] = b"\x82\x18\x2a\x64\x6c\x65\x61\x66";

/// A block that is a link, to the one in the middle.
const ONLY: &[u8] =
    b"\xd8\x2a\x58\x25\x00\x01\x71\x12\x20\x00\xf5\x02\x9e\xcb\x58\x10\x5a\x66\x97\x01\x18\x34\
    \x7e\xde\x24\xbc\xdd\xf4\x04\xc2\x28\x99\x16\xed\x98\x28\x57\x60\x41\x45\x56";

/// A CID, in binary.
const ROOT_NAME: &[u8] =
    b"\x01\x71\x12\x20\xec\x31\x39\x0b\x86\xc4\x20\x7a\x72\x57\x7b\x15\xa3\xe8\xfc\x57\x15\xda\
    \x4f\xcc\x3c\x66\x0c\xc8\x6e\xd2\x1d\x10\x2a\xe6\x34\x90";

/// A CID, in binary.
const MID_NAME: &[u8] =
    b"\x01\x71\x12\x20\x00\xf5\x02\x9e\xcb\x58\x10\x5a\x66\x97\x01\x18\x34\x7e\xde\x24\xbc\xdd\
    \xf4\x04\xc2\x28\x99\x16\xed\x98\x28\x57\x60\x41\x45\x56";

/// A CID, in binary.
const LEAF_NAME: &[u8] =
    b"\x01\x71\x12\x20\x98\xc0\x45\xc0\xa4\x62\x0c\x07\x68\x88\xf7\x02\x50\x80\xed\xfe\x57\x87\
    \x31\x66\xbc\xa9\x1a\x07\xe7\x6a\x2f\xe9\x5a\xc1\x37\x25";

/// A CID, in binary.
const ONLY_NAME: &[u8] =
    b"\x01\x71\x12\x20\x3a\x2b\x7b\xcd\x72\x6f\xdd\x8e\x9a\x90\x97\xa3\x85\xfc\x28\xd3\x8a\x97\
    \xd2\x89\xf6\x60\xc6\x3d\x56\xb2\xf1\x52\x0a\x5c\x86\xf2";

/// A CID, in binary.
const RAW_NAME: &[u8] =
    b"\x01\x55\x12\x20\xd7\x43\x9b\xee\x24\x77\x3b\xcb\xfa\x2d\x0a\x97\x94\x7e\xe3\x62\x27\xb1\
    \x0d\x10\x22\xb1\xa5\x58\x47\xe9\x28\x96\x5b\xb6\xbf\xde";

/// A CID, in binary.
const OTHER_NAME: &[u8] =
    b"\x01\x71\x12\x20\xd9\x29\x8a\x10\xd1\xb0\x73\x58\x37\xdc\x4b\xd8\x5d\xac\x64\x1b\x0f\x3c\
    \xef\x27\xa4\x7e\x5d\x53\xa5\x4f\x2f\x3f\x5b\x2f\xcf\xfa";

/// A CID, in binary.
const GONE_NAME: &[u8] =
    b"\x01\x71\x12\x20\x61\xf8\xef\xee\xe0\xc3\xf0\x81\x7f\x69\x8f\x72\xd5\x25\x4d\x43\xb2\x3c\
    \x01\x2d\x23\x0a\x3e\x6e\xdd\xe5\x6e\xc6\x40\x88\x31\xbb";

/// A CID, in binary.
const INLINE_NAME: &[u8] = b"\x01\x71\x00\x06\xa1\x61\x78\x82\x01\x02";

/// Stores the block under the CID.
pub fn put(
    blocks: &mut BTreeMap<Cid, Vec<u8>>,
    alloc: Global,
    name: &[u8],
    block: &[u8],
) -> Result<(), Fail> {
    let Ok(cid) = Cid::try_from(name) else {
        return Err(Fail::new("no CID"));
    };
    match blocks.insert(cid, block.to_vec(alloc)?) {
        Ok(_) => Ok(()),
        Err(_) => Err(Fail::new("no memory")),
    }
}

/// Returns the blocks, and one under another block's CID.
fn blocks(alloc: Global) -> Result<BTreeMap<Cid, Vec<u8>>, Fail> {
    let mut blocks = BTreeMap::new(alloc);
    put(&mut blocks, alloc, ROOT_NAME, ROOT)?;
    put(&mut blocks, alloc, MID_NAME, MID)?;
    put(&mut blocks, alloc, LEAF_NAME, LEAF)?;
    put(&mut blocks, alloc, ONLY_NAME, ONLY)?;
    put(&mut blocks, alloc, RAW_NAME, b"raw")?;
    put(&mut blocks, alloc, OTHER_NAME, b"\x01")?;
    Ok(blocks)
}

#[test]
fn paths_over_blocks(rt: HostRuntime) -> Result<(), Fail> {
    let alloc = rt.alloc();
    let blocks = blocks(alloc)?;
    let Ok(root) = Cid::try_from(ROOT_NAME) else {
        return Err(Fail::new("no CID"));
    };
    for (path, name, left, told) in ROWS {
        let Ok(resolved) = resolve(alloc, &blocks, &root, path) else {
            return Err(Fail::new("no memory"));
        };
        agree(resolved.block.to_bytes(alloc)?.as_slice(), *name)?;
        agree(resolved.path, *left)?;
        is_told(alloc, &resolved.end, told)?;
    }
    Ok(())
}

/// A path; the block where it ends, and the rest of the path there; and how it ends.
const ROWS: &[(&str, &[u8], &str, &str)] = &[
    ("", ROOT_NAME, "", r#"Item(Map, 0, 229)"#),
    ("a", ROOT_NAME, "a", r#"Item(List, 3, 46)"#),
    ("a/1", ROOT_NAME, "a/1", r#"Item(Integer, 45, 46)"#),
    ("a/0", ROOT_NAME, "a/0", r#"Item(Link, 4, 45)"#),
    ("a/0/c", MID_NAME, "c", r#"Item(String, 46, 48)"#),
    ("a/0/b", MID_NAME, "b", r#"Item(Link, 3, 44)"#),
    ("a/0/b/0", LEAF_NAME, "0", r#"Item(Integer, 1, 3)"#),
    ("a/0/b/1", LEAF_NAME, "1", r#"Item(String, 3, 8)"#),
    ("a/0/b/2", LEAF_NAME, "2", r#"NoSuchPath("2")"#),
    ("a/0/b/00/x", LEAF_NAME, "00/x", r#"NoSuchPath("00/x")"#),
    ("/a//0//b//1//", LEAF_NAME, "/1//", r#"Item(String, 3, 8)"#),
    ("way", ROOT_NAME, "way", r#"Item(Link, 95, 136)"#),
    ("way/c", MID_NAME, "c", r#"Item(String, 46, 48)"#),
    ("way/b/1", LEAF_NAME, "1", r#"Item(String, 3, 8)"#),
    ("way/id/x/1", INLINE_NAME, "x/1", r#"Item(Integer, 5, 6)"#),
    ("a/0/id/x", INLINE_NAME, "x", r#"Item(List, 3, 6)"#),
    ("a/0/id/y", INLINE_NAME, "y", r#"NoSuchPath("y")"#),
    ("gone", ROOT_NAME, "gone", r#"Item(Link, 141, 182)"#),
    ("gone/a", GONE_NAME, "a", r#"NotHeld"#),
    ("other", ROOT_NAME, "other", r#"Item(Link, 188, 229)"#),
    ("other/0", OTHER_NAME, "0", r#"NoBlock(OtherBytes)"#),
    ("raw", ROOT_NAME, "raw", r#"Item(Link, 50, 91)"#),
    ("raw/0", RAW_NAME, "0", r#"NoBlock(NotRead)"#),
    ("zz/0", ROOT_NAME, "zz/0", r#"NoSuchPath("zz/0")"#),
    ("a/2", ROOT_NAME, "a/2", r#"NoSuchPath("2")"#),
    ("a/1/0", ROOT_NAME, "a/1/0", r#"NoSuchPath("0")"#),
];

/// Fails if the CIDs are others.
pub fn are_named(alloc: Global, names: &[Cid], forms: &[&[u8]]) -> Result<(), Fail> {
    agree(names.len(), forms.len())?;
    let mut left = forms;
    for name in names {
        let [form, more @ ..] = left else {
            return Err(Fail::new("a name too many"));
        };
        agree(name.to_bytes(alloc)?.as_slice(), *form)?;
        left = more;
    }
    Ok(())
}

#[test]
fn ways_over_blocks(rt: HostRuntime) -> Result<(), Fail> {
    let alloc = rt.alloc();
    let blocks = blocks(alloc)?;
    let Ok(root) = Cid::try_from(ROOT_NAME) else {
        return Err(Fail::new("no CID"));
    };
    for (path, names) in WAYS {
        let way = resolve_way(alloc, &blocks, &root, path)?;
        are_named(alloc, &way.names, names)?;
    }
    Ok(())
}

/// A path, and the CIDs of the blocks on its way.
const WAYS: &[(&str, &[&[u8]])] = &[
    ("", &[ROOT_NAME]),
    ("a", &[ROOT_NAME]),
    ("a/1", &[ROOT_NAME]),
    ("a/0", &[ROOT_NAME]),
    ("a/0/c", &[ROOT_NAME, MID_NAME]),
    ("a/0/b", &[ROOT_NAME, MID_NAME]),
    ("a/0/b/0", &[ROOT_NAME, MID_NAME, LEAF_NAME]),
    ("a/0/b/1", &[ROOT_NAME, MID_NAME, LEAF_NAME]),
    ("a/0/b/2", &[ROOT_NAME, MID_NAME, LEAF_NAME]),
    ("a/0/b/00/x", &[ROOT_NAME, MID_NAME, LEAF_NAME]),
    ("/a//0//b//1//", &[ROOT_NAME, MID_NAME, LEAF_NAME]),
    ("way", &[ROOT_NAME]),
    ("way/c", &[ROOT_NAME, ONLY_NAME, MID_NAME]),
    ("way/b/1", &[ROOT_NAME, ONLY_NAME, MID_NAME, LEAF_NAME]),
    ("way/id/x/1", &[ROOT_NAME, ONLY_NAME, MID_NAME, INLINE_NAME]),
    ("a/0/id/x", &[ROOT_NAME, MID_NAME, INLINE_NAME]),
    ("a/0/id/y", &[ROOT_NAME, MID_NAME, INLINE_NAME]),
    ("gone", &[ROOT_NAME]),
    ("gone/a", &[ROOT_NAME, GONE_NAME]),
    ("other", &[ROOT_NAME]),
    ("other/0", &[ROOT_NAME, OTHER_NAME]),
    ("raw", &[ROOT_NAME]),
    ("raw/0", &[ROOT_NAME, RAW_NAME]),
    ("zz/0", &[ROOT_NAME]),
    ("a/2", &[ROOT_NAME]),
    ("a/1/0", &[ROOT_NAME]),
];
