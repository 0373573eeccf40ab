//! Nodes, and their bytes or refusals from an encoder in Python.

use dag_pb::{PbLink, encode_node};
use ipld_tree::Cid;
use std::alloc::Global;
use std::test::Fail;
use tests_shared::{agree, is_told};

/// A CID, a name and a size.
type LinkRow<'a> = (&'a [u8], Option<&'a [u8]>, Option<u64>);

/// A CID of version 1, with the identity hash.
const RAW: &[u8] = b"\x01\x55\x00\x05\x00\x01\x02\x03\x04";

/// A CID of version 0.
const NODE: &[u8] =
    b"\x12\x20\x00\x01\x02\x03\x04\x05\x06\x07\x08\x09\x0a\x0b\x0c\x0d\x0e\x0f\x10\x11\x12\x13\x14\x15\x16\x17\x18\x19\x1a\x1b\x1c\x1d\x1e\x1f";

/// Links, data, and the block.
const ROWS: &[(&[LinkRow<'_>], Option<&[u8]>, &[u8])] = &[
    // nothing
    (&[], None, b""),
    // data of no bytes
    (&[], Some(b""), b"\x0a\x00"),
    // data
    (
        &[],
        Some(b"some data"),
        b"\x0a\x09\x73\x6f\x6d\x65\x20\x64\x61\x74\x61",
    ),
    // a link
    (
        &[(RAW, None, None)],
        None,
        b"\x12\x0b\x0a\x09\x01\x55\x00\x05\x00\x01\x02\x03\x04",
    ),
    // an empty name
    (
        &[(RAW, Some(b""), None)],
        None,
        b"\x12\x0d\x0a\x09\x01\x55\x00\x05\x00\x01\x02\x03\x04\x12\x00",
    ),
    // a name
    (
        &[(RAW, Some(b"some name"), None)],
        None,
        b"\x12\x16\x0a\x09\x01\x55\x00\x05\x00\x01\x02\x03\x04\x12\x09\x73\x6f\x6d\x65\x20\x6e\x61\x6d\x65",
    ),
    // sizes: zero, and the greatest that JavaScript writes
    (
        &[(RAW, None, Some(0)), (RAW, None, Some(9007199254740991))],
        None,
        b"\x12\x0d\x0a\x09\x01\x55\x00\x05\x00\x01\x02\x03\x04\x18\x00\x12\x14\x0a\x09\x01\x55\x00\x05\x00\x01\x02\x03\x04\x18\xff\xff\xff\xff\xff\xff\xff\x0f",
    ),
    // all of a link
    (
        &[(NODE, Some(b"a"), Some(128))],
        Some(b"x"),
        b"\x12\x2a\x0a\x22\x12\x20\x00\x01\x02\x03\x04\x05\x06\x07\x08\x09\x0a\x0b\x0c\x0d\x0e\x0f\x10\x11\x12\x13\x14\x15\x16\x17\x18\x19\x1a\x1b\x1c\x1d\x1e\x1f\x12\x01\x61\x18\x80\x01\x0a\x01\x78",
    ),
    // two links and data
    (
        &[(RAW, Some(b"a"), Some(5)), (RAW, Some(b"b"), Some(300))],
        Some(b"\x08\x01"),
        b"\x12\x10\x0a\x09\x01\x55\x00\x05\x00\x01\x02\x03\x04\x12\x01\x61\x18\x05\x12\x11\x0a\x09\x01\x55\x00\x05\x00\x01\x02\x03\x04\x12\x01\x62\x18\xac\x02\x0a\x02\x08\x01",
    ),
    // the same name on both sides of an empty one, a name twice, a name that begins another, and a
    // byte above 0x7f
    (
        &[
            (RAW, None, None),
            (RAW, Some(b""), None),
            (RAW, None, None),
            (RAW, Some(b"a"), None),
            (RAW, Some(b"a"), None),
            (RAW, Some(b"a\x00"), None),
            (RAW, Some(b"\xff"), None),
        ],
        None,
        b"\x12\x0b\x0a\x09\x01\x55\x00\x05\x00\x01\x02\x03\x04\x12\x0d\x0a\x09\x01\x55\x00\x05\x00\x01\x02\x03\x04\x12\x00\x12\x0b\x0a\x09\x01\x55\x00\x05\x00\x01\x02\x03\x04\x12\x0e\x0a\x09\x01\x55\x00\x05\x00\x01\x02\x03\x04\x12\x01\x61\x12\x0e\x0a\x09\x01\x55\x00\x05\x00\x01\x02\x03\x04\x12\x01\x61\x12\x0f\x0a\x09\x01\x55\x00\x05\x00\x01\x02\x03\x04\x12\x02\x61\x00\x12\x0e\x0a\x09\x01\x55\x00\x05\x00\x01\x02\x03\x04\x12\x01\xff",
    ),
];

/// Links that are not sorted.
const UNSORTED: &[&[LinkRow<'_>]] = &[
    &[(RAW, Some(b"b"), None), (RAW, Some(b"a"), None)],
    // a name, and then no name
    &[(RAW, Some(b"a"), None), (RAW, None, None)],
    // a name, and then a prefix of it
    &[(RAW, Some(b"ab"), None), (RAW, Some(b"a"), None)],
    // the shorter name is the greater one
    &[(RAW, Some(b"b"), None), (RAW, Some(b"ab"), None)],
    // only the last two are unsorted
    &[
        (RAW, None, None),
        (RAW, Some(b"\xff"), None),
        (RAW, Some(b"\x7f"), None),
    ],
];

/// Returns the links of these rows.
fn links_of<'a>(alloc: Global, rows: &[LinkRow<'a>]) -> Result<Vec<PbLink<'a>>, Fail> {
    let mut links = Vec::new(alloc);
    for &(hash, name, tsize) in rows {
        let hash = Cid::try_from(hash)?;
        if links.push(PbLink { hash, name, tsize }).is_err() {
            return Err(Fail::new(format_args!("out of memory")));
        }
    }
    Ok(links)
}

#[test]
fn nodes_are_encoded(rt: HostRuntime) -> Result<(), Fail> {
    let alloc = rt.alloc();
    for &(rows, data, wanted) in ROWS {
        let links = links_of(alloc, rows)?;
        let block = encode_node(alloc, &links, data)?;
        agree(block.as_slice(), wanted)?;
    }
    Ok(())
}

#[test]
fn unsorted_links_are_refused(rt: HostRuntime) -> Result<(), Fail> {
    let alloc = rt.alloc();
    for rows in UNSORTED {
        let links = links_of(alloc, rows)?;
        is_told(
            alloc,
            &encode_node(alloc, &links, None),
            "Err(UnsortedLinks)",
        )?;
    }
    Ok(())
}
