//! Roots from the tests of the reference implementation. A program in another language made the
//! other roots and counts of nodes, for 1 to 1,000 records.

ghost use Rattle.std.specs.Prelude.{⊤};

use atproto_mst::{
    MstEntry, MstError, NodeSink, Repo, RepoError, layer_of_key, mst_root, read_mst, read_repo,
    spell_unsigned, write_mst,
};
use ipld_links::name_of_block;
use ipld_tree::Cid;
use std::alloc::{AllocError, Global};
use std::collections::BTreeMap;
use std::test::Fail;
use text_cid::cid_from_text;

/// Keys, and the layers that the specification and the reference's tests give.
const LAYERS: &[(&[u8], u8)] = &[
    (b"", 0),
    (b"asdf", 0),
    (b"blue", 1),
    (b"2653ae71", 0),
    (b"88bfafc7", 2),
    (b"2a92d355", 4),
    (b"884976f5", 6),
    (b"app.bsky.feed.post/454397e440ec", 4),
    (b"app.bsky.feed.post/9adeb165882c", 8),
];

/// The value in the reference's tests.
const VALUE: &[u8] = b"bafyreie5cvv4h45feadgeuwhbcutmh6t2ceseocckahdoe6uat64zmz454";

/// Keys, and the root of their tree.
const ROOTS: &[(&[&[u8]], &[u8])] = &[
    (
        &[],
        b"bafyreie5737gdxlw5i64vzichcalba3z2v5n6icifvx5xytvske7mr3hpm",
    ),
    (
        &[b"com.example.record/3jqfcqzm3fo2j"],
        b"bafyreibj4lsc3aqnrvphp5xmrnfoorvru4wynt6lwidqbm2623a6tatzdu",
    ),
    (
        &[b"com.example.record/3jqfcqzm3fx2j"],
        b"bafyreih7wfei65pxzhauoibu3ls7jgmkju4bspy4t2ha2qdjnzqvoy33ai",
    ),
    (
        &[
            b"com.example.record/3jqfcqzm3fp2j",
            b"com.example.record/3jqfcqzm3fr2j",
            b"com.example.record/3jqfcqzm3fs2j",
            b"com.example.record/3jqfcqzm3ft2j",
            b"com.example.record/3jqfcqzm4fc2j",
        ],
        b"bafyreicmahysq4n6wfuxo522m6dpiy7z7qzym3dzs756t5n7nfdgccwq7m",
    ),
];

/// How many records, the step between their numbers, how many nodes, and the root.
const SETS: &[(u32, u32, usize, &[u8])] = &[
    (
        1,
        1,
        1,
        b"bafyreif7behiksxlktm4kwnz7loua2kewy57lv4pzu24xq7xjamfje7lfu",
    ),
    (
        2,
        1,
        1,
        b"bafyreifeqwnd4652kilzv26xtqwryvd3zhqufu3mvroot5yyx47qapcule",
    ),
    (
        10,
        3,
        5,
        b"bafyreigkibkt2os6aetm36ngwmgas42cnlyuwwwn532dbt54msyrlpuql4",
    ),
    (
        50,
        7,
        15,
        b"bafyreibh7ylaroywcfp2g2vemvexl4oeyog3zz5c3fz5zhdkqxgwjfv6hi",
    ),
    (
        200,
        11,
        55,
        b"bafyreiaykn4fatdtpdduw4bbdxkpikkdzegbikx4uuvqjlxe2wfwvylpse",
    ),
    (
        1000,
        13,
        248,
        b"bafyreickr4z7oyvt5oiks6wtdjdmhqkbnmelxumqjmcejcmzzappmqzfwu",
    ),
];

/// A commit over the 50 records of `SETS`, its CID, and the bytes that its signature signs.
const COMMIT: &[u8] =
    b"\xa6\x63\x64\x69\x64\x6b\x64\x69\x64\x3a\x70\x6c\x63\x3a\x61\x62\x63\x63\x72\x65\x76\x6d\x33\x6a\x7a\x66\x63\x69\x6a\x70\x6a\x32\x7a\x32\x61\x63\x73\x69\x67\x58\x40\x00\x01\x02\x03\x04\x05\x06\x07\x08\x09\x0a\x0b\x0c\x0d\x0e\x0f\x10\x11\x12\x13\x14\x15\x16\x17\x18\x19\x1a\x1b\x1c\x1d\x1e\x1f\x20\x21\x22\x23\x24\x25\x26\x27\x28\x29\x2a\x2b\x2c\x2d\x2e\x2f\x30\x31\x32\x33\x34\x35\x36\x37\x38\x39\x3a\x3b\x3c\x3d\x3e\x3f\x64\x64\x61\x74\x61\xd8\x2a\x58\x25\x00\x01\x71\x12\x20\x27\xfe\x16\x08\xbb\x16\x11\x5f\xa3\x6a\xa4\x65\x49\x75\xf1\xc4\xc3\x8d\xbc\xe7\xa2\xd9\x73\xdc\x9c\x6a\x85\xcd\x64\x96\xbe\x3a\x64\x70\x72\x65\x76\xf6\x67\x76\x65\x72\x73\x69\x6f\x6e\x03";

const COMMIT_NAME: &[u8] = b"bafyreidpqqjkmqwk27vdrkqsviuooxhlh43tj74gvawhoncl3j7con4l5u";

const SIGNED: &[u8] =
    b"\xa5\x63\x64\x69\x64\x6b\x64\x69\x64\x3a\x70\x6c\x63\x3a\x61\x62\x63\x63\x72\x65\x76\x6d\x33\x6a\x7a\x66\x63\x69\x6a\x70\x6a\x32\x7a\x32\x61\x64\x64\x61\x74\x61\xd8\x2a\x58\x25\x00\x01\x71\x12\x20\x27\xfe\x16\x08\xbb\x16\x11\x5f\xa3\x6a\xa4\x65\x49\x75\xf1\xc4\xc3\x8d\xbc\xe7\xa2\xd9\x73\xdc\x9c\x6a\x85\xcd\x64\x96\xbe\x3a\x64\x70\x72\x65\x76\xf6\x67\x76\x65\x72\x73\x69\x6f\x6e\x03";

/// Nodes, kept in a map.
#[derive(Drop)]
pub(crate) struct Kept {
    pub blocks: BTreeMap<Cid, Vec<u8>>,
}

impl NodeSink for Kept {
    ghost World = { Unit {0} };

    ghost holds = { λ s world nodes. ⊤ };

    ghost refuses = { λ world node e. ⊤ };

    fn take(&mut self, name: Cid, block: Vec<u8>) -> Result<(), MstError> {
        match self.blocks.insert(name, block) {
            Ok(_) => Ok(()),
            Err(_) => Err(MstError::OutOfMemory),
        }
    }
}

pub(crate) fn agree<T: PartialEq + Drop>(found: T, wanted: T) -> Result<(), Fail> {
    if found == wanted {
        Ok(())
    } else {
        Err(Fail::from("they differ"))
    }
}

pub(crate) fn entry(alloc: Global, key: &[u8], value: Cid) -> Result<MstEntry, AllocError> {
    let key = key.to_vec(alloc)?;
    Ok(MstEntry { key, value })
}

pub(crate) fn is_named(name: &Cid, text: &[u8]) -> bool {
    match cid_from_text(text) {
        Ok(wanted) => *name == wanted,
        Err(_) => false,
    }
}

/// Returns the record of this number, whose value is the CID of its key's bytes.
pub(crate) fn numbered(alloc: Global, number: u32) -> Result<MstEntry, AllocError> {
    let text = format!(in alloc; "com.example.record/{number:06}")?;
    entry(alloc, text.as_bytes(), name_of_block(text.as_bytes()))
}

pub(crate) fn numbered_all(
    alloc: Global,
    count: u32,
    step: u32,
) -> Result<Vec<MstEntry>, AllocError> {
    let mut all = Vec::new(alloc);
    for index in 0..count {
        all.push(numbered(alloc, index.saturating_mul(step))?)?;
    }
    Ok(all)
}

#[test]
fn keys_have_layers() -> Result<(), Fail> {
    for row in LAYERS {
        agree(layer_of_key(row.0), row.1)?;
    }
    Ok(())
}

#[test]
fn roots_are_the_references(rt: HostRuntime) -> Result<(), Fail> {
    let alloc = rt.alloc();
    let value = cid_from_text(VALUE)?;
    for row in ROOTS {
        let mut all = Vec::new(alloc);
        for key in row.0 {
            all.push(entry(alloc, *key, value)?)?;
        }
        let root = mst_root(alloc, &all)?;
        agree(is_named(&root, row.1), true)?;
    }
    Ok(())
}

#[test]
fn trees_are_written_and_read(rt: HostRuntime) -> Result<(), Fail> {
    let alloc = rt.alloc();
    for row in SETS {
        let all = numbered_all(alloc, row.0, row.1)?;
        let mut kept = Kept {
            blocks: BTreeMap::new(alloc),
        };
        let root = write_mst(alloc, &all, &mut kept)?;
        agree(is_named(&root, row.3), true)?;
        agree(kept.blocks.len(), row.2)?;
        let found = read_mst(alloc, &kept.blocks, &root)?;
        agree(found.len(), all.len())?;
        for (one, other) in found.iter().zip(all.iter()) {
            agree(one.key.as_slice(), other.key.as_slice())?;
            agree(one.value, other.value)?;
        }
    }
    Ok(())
}

#[test]
fn a_lost_node_is_told(rt: HostRuntime) -> Result<(), Fail> {
    let alloc = rt.alloc();
    let all = numbered_all(alloc, 50, 7)?;
    let mut kept = Kept {
        blocks: BTreeMap::new(alloc),
    };
    let root = write_mst(alloc, &all, &mut kept)?;
    let _ = kept.blocks.remove(&root);
    match &read_mst(alloc, &kept.blocks, &root) {
        Err(MstError::MissingNode(name)) => agree(*name, root),
        _ => Err(Fail::from("a lost node was not told")),
    }
}

#[test]
fn keys_rise(rt: HostRuntime) -> Result<(), Fail> {
    let alloc = rt.alloc();
    let value = cid_from_text(VALUE)?;
    let mut all = Vec::new(alloc);
    all.push(entry(alloc, b"b", value)?)?;
    all.push(entry(alloc, b"a", value)?)?;
    match mst_root(alloc, &all) {
        Err(MstError::KeyOrder) => {}
        _ => return Err(Fail::from("an order was not told")),
    }
    all.push(entry(alloc, b"", value)?)?;
    match mst_root(alloc, &all) {
        Err(MstError::KeyLength) => Ok(()),
        _ => Err(Fail::from("a length was not told")),
    }
}

#[test]
fn a_repository_is_read(rt: HostRuntime) -> Result<(), Fail> {
    let alloc = rt.alloc();
    let all = numbered_all(alloc, 50, 7)?;
    let mut kept = Kept {
        blocks: BTreeMap::new(alloc),
    };
    let root = write_mst(alloc, &all, &mut kept)?;
    let name = name_of_block(COMMIT);
    agree(is_named(&name, COMMIT_NAME), true)?;
    kept.take(name, COMMIT.to_vec(alloc)?)?;
    is_the_repository(alloc, &kept, &name, root)?;
    is_no_repository(alloc, &kept, &root)
}

fn is_the_repository(alloc: Global, kept: &Kept, name: &Cid, root: Cid) -> Result<(), Fail> {
    let Repo { commit, records } = read_repo(alloc, &kept.blocks, name)?;
    agree(records.len(), 50)?;
    agree(commit.data, root)?;
    agree(commit.did.as_str(), "did:plc:abc")?;
    let unsigned = spell_unsigned(alloc, &commit)?;
    agree(unsigned.as_slice(), SIGNED)
}

/// Fails if a tree is read as a repository.
fn is_no_repository(alloc: Global, kept: &Kept, root: &Cid) -> Result<(), Fail> {
    match read_repo(alloc, &kept.blocks, root) {
        Err(RepoError::NoCommit(_)) => Ok(()),
        _ => Err(Fail::from("a tree was read as a repository")),
    }
}
