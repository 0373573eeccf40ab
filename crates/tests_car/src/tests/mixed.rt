//! A file of a block of DAG-CBOR, of raw bytes, and of a node with another codec. Its bytes are
//! made by another program.

use crate::tests::sections::RAW;
use crate::tests::store::{gives, lacks};
use dagcbor_blocks::Blocks;
use serde_ipld_dagcbor::{BufWriter, Cid, Input, SliceReader};
use std::alloc::Global;
use std::test::Fail;
use tests_shared::{agree, is_told, joined};

/// The header with one root, the CID of `PARENT`.
const HEADER: &[u8] =
    b"\x3a\xa2\x65\x72\x6f\x6f\x74\x73\x81\xd8\x2a\x58\x25\x00\x01\x71\x12\x20\x48\xae\x11\xc5\x9a\xca\xfe\xc2\xcc\x46\xbd\xc1\x80\xbc\xea\x50\x0d\x27\xc3\xeb\xb1\x59\x17\x47\x8e\x98\xd9\x86\x55\xb3\xf0\xea\x67\x76\x65\x72\x73\x69\x6f\x6e\x01";

/// The section of the list of a link to `RAW`, one to `NODE`, and one to the number 5.
const PARENT: &[u8] =
    b"\xa0\x01\x01\x71\x12\x20\x48\xae\x11\xc5\x9a\xca\xfe\xc2\xcc\x46\xbd\xc1\x80\xbc\xea\x50\x0d\x27\xc3\xeb\xb1\x59\x17\x47\x8e\x98\xd9\x86\x55\xb3\xf0\xea\x83\xd8\x2a\x58\x25\x00\x01\x55\x12\x20\x2c\x26\xb4\x6b\x68\xff\xc6\x8f\xf9\x9b\x45\x3c\x1d\x30\x41\x34\x13\x42\x2d\x70\x64\x83\xbf\xa0\xf9\x8a\x5e\x88\x62\x66\xe7\xae\xd8\x2a\x58\x25\x00\x01\x70\x12\x20\xcc\x4f\x9b\xdc\x12\x82\xb3\x2a\xe4\xbb\x65\x9e\xab\x53\xd2\x21\x05\xd9\x56\xdc\xb2\xf5\xee\x91\x2d\x73\x47\x55\x6f\x89\x1c\x76\xd8\x2a\x58\x25\x00\x01\x71\x12\x20\xe7\x7b\x9a\x9a\xe9\xe3\x0b\x0d\xbd\xb6\xf5\x10\xa2\x64\xef\x9d\xe7\x81\x50\x1d\x7b\x6b\x92\xae\x89\xeb\x05\x9c\x5a\xb7\x43\xdb";

/// The section of a node with the codec 0x70, with a link to other raw bytes, "bar".
const NODE: &[u8] =
    b"\x55\x01\x70\x12\x20\xcc\x4f\x9b\xdc\x12\x82\xb3\x2a\xe4\xbb\x65\x9e\xab\x53\xd2\x21\x05\xd9\x56\xdc\xb2\xf5\xee\x91\x2d\x73\x47\x55\x6f\x89\x1c\x76\x12\x2b\x0a\x24\x01\x55\x12\x20\xfc\xde\x2b\x2e\xdb\xa5\x6b\xf4\x08\x60\x1f\xb7\x21\xfe\x9b\x5c\x33\x8d\x10\xee\x42\x9e\xa0\x4f\xae\x55\x11\xb6\x8f\xbf\x8f\xb9\x12\x01\x61\x18\x03\x0a\x02\x08\x01";

/// The CID of the number 5, which is not stored.
const FIVE: &[u8] =
    b"\x01\x71\x12\x20\xe7\x7b\x9a\x9a\xe9\xe3\x0b\x0d\xbd\xb6\xf5\x10\xa2\x64\xef\x9d\xe7\x81\x50\x1d\x7b\x6b\x92\xae\x89\xeb\x05\x9c\x5a\xb7\x43\xdb";

/// The CID of "bar", which is not stored.
const BAR: &[u8] =
    b"\x01\x55\x12\x20\xfc\xde\x2b\x2e\xdb\xa5\x6b\xf4\x08\x60\x1f\xb7\x21\xfe\x9b\x5c\x33\x8d\x10\xee\x42\x9e\xa0\x4f\xae\x55\x11\xb6\x8f\xbf\x8f\xb9";

/// The CID of version 0 of a node whose data is "foo".
const OLD: &[u8] =
    b"\x12\x20\x22\x3b\x40\x72\x1d\xf0\x08\x89\xcc\x40\xf7\xca\x79\x54\xa5\x24\x7c\xed\x4a\x9d\xfd\xda\x64\x97\xf3\x20\x46\xc9\x61\x85\xbd\xac";

/// Returns the CID of a section, whose length prefix has `length` bytes.
fn name_in(section: &[u8], length: usize) -> Result<Cid, Fail> {
    let Some(following) = section.get(length..) else {
        return Err(Fail::new("no length"));
    };
    match following.get(..36) {
        Some(name) => Ok(Cid::try_from(name)?),
        None => Err(Fail::new("too short")),
    }
}

/// Returns the store of the file's blocks.
fn store(alloc: Global) -> Result<Blocks, Fail> {
    let file = joined(alloc, &[HEADER, PARENT, RAW, NODE])?;
    let mut blocks = Blocks::new(alloc);
    let mut input = Input::<SliceReader>::Slice(SliceReader::new(&file));
    let roots = blocks.read_car(&mut input)?;
    agree(roots.as_slice(), [name_in(PARENT, 2)?].as_slice())?;
    Ok(blocks)
}

#[test]
fn blocks_of_each_codec_are_kept(rt: HostRuntime) -> Result<(), Fail> {
    let alloc = rt.alloc();
    let blocks = store(alloc)?;
    let raw = name_in(RAW, 1)?;
    agree(blocks.get_block(&raw), Some(b"foo".as_slice()))?;
    gives::<Vec<u8>>(alloc, &blocks, &raw, "Err(OtherCodec)")?;
    let mut writer = BufWriter::new(Vec::new(alloc));
    blocks.write_car(&[name_in(PARENT, 2)?], &mut writer)?;
    let file = joined(alloc, &[HEADER, RAW, NODE, PARENT])?;
    agree(writer.buffer(), file.as_slice())
}

#[test]
fn links_lead_to_blocks_of_each_codec(rt: HostRuntime) -> Result<(), Fail> {
    let alloc = rt.alloc();
    let mut blocks = store(alloc)?;
    let root = name_in(PARENT, 2)?;
    let raw = name_in(RAW, 1)?;
    let node = name_in(NODE, 1)?;
    let bar = Cid::try_from(BAR)?;
    let five = Cid::try_from(FIVE)?;
    lacks(&blocks, &[bar, five])?;
    agree(
        blocks.reachable(&root)?.as_slice(),
        [root, raw, node].as_slice(),
    )?;
    agree(blocks.remove(&raw), true)?;
    lacks(&blocks, &[raw, bar, five])?;
    agree(blocks.reachable(&root)?.as_slice(), [root, node].as_slice())
}

#[test]
fn a_name_of_version_0_is_kept(rt: HostRuntime) -> Result<(), Fail> {
    let alloc = rt.alloc();
    let mut blocks = Blocks::new(alloc);
    let name = Cid::try_from(OLD)?;
    is_told(alloc, &blocks.put_block(&name, b"\x0a\x03foo"), "Ok(())")?;
    is_told(
        alloc,
        &blocks.put_block(&name, b"bar"),
        "Err(Unsound(OtherBytes))",
    )?;
    agree(blocks.get_block(&name), Some(b"\x0a\x03foo".as_slice()))?;
    gives::<Vec<u8>>(alloc, &blocks, &name, "Err(OtherCodec)")
}
