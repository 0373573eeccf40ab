use super::*;
use dagcbor_core::DecodeError;
use dagcbor_heads::{BufWriter, Input, SliceReader};
use files_car::CarError;
use ipld_links::name_of_block;
use ipld_tree::Cid;
use std::alloc::Global;
use std::convert::Infallible;
use std::fs;
use std::test::Fail;

// Not tested here: what the contracts already determine, and what `faults/run store` tests of the
// program: the order of roots, a file of the earlier version, what is kept of a tree, refused
// blocks.

const FOLDER: &str = "dagcbor_store_values";

const FILE: &str = "dagcbor_store_values/a.db";

const LOG: &str = "dagcbor_store_values/a.db-wal";

/// Fails if the condition does not hold.
fn agree(holds: bool, wanted: &str) -> Result<(), Fail> {
    if holds {
        Ok(())
    } else {
        Err(Fail::new(wanted))
    }
}

/// The name of the block 17, which encodes 23. Names and files here are made by another program.
const NAME: &[u8] =
    b"\x01\x71\x12\x20\x8f\x11\xb0\x5d\xa7\x85\xe4\x3e\x71\x3d\x03\x77\x4c\x6b\xd3\x40\x5d\x99\xcd\
    \x30\x24\xaf\x33\x4f\xfd\x68\xdb\x66\x3a\xa3\x70\x34";

/// Puts 23, and adds 24 without a commit.
fn puts_a_value<S: Store>(store: &mut BlockStore<S>) -> Result<(), Fail> {
    let Ok(name) = store.put(&23u8) else {
        return Err(Fail::new("not put"));
    };
    let value: Option<u8> = store.get(&name)?;
    agree(value == Some(23), "23")?;
    agree(name == Cid::try_from(NAME)?, "its name")?;
    let text = store.get::<String>(&name);
    agree(matches!(text, Err(GetError::Decode(_))), "no text")?;
    store.add_block(&name_of_block(b"\x18\x18"), b"\x18\x18")?;
    agree(store.len()? == 2, "two blocks")
}

/// Fails if anything but 23 was committed.
fn has_one_value<S: Store>(store: &mut BlockStore<S>) -> Result<(), Fail> {
    agree(store.contains(&Cid::try_from(NAME)?)?, "it is listed")?;
    agree(store.len()? == 1, "one block")
}

/// Puts and adds in the file, without another commit.
#[tactic(auto, using(crate::proofs::Trusting::nothing_left))]
fn put_in_file(rt: &HostRuntime) -> Result<(), Fail> {
    let mut store = BlockStore::open(rt, FILE, Wary)?;
    puts_a_value(&mut store)
}

/// Fails if the file has anything but what was committed.
fn read_from_file(rt: &HostRuntime) -> Result<(), Fail> {
    let mut store = BlockStore::open_whole(rt, FILE, Wary)?;
    has_one_value(&mut store)
}

/// Moves the log into the file.
fn close(store: BlockStore<FileStore<FileFrom<Wary>>>) {
    let _ = store.into_file();
}

/// Opens the file, and moves its log into it.
#[tactic(auto, using(crate::proofs::Trusting::nothing_left))]
fn open_and_close(rt: &HostRuntime) -> Result<(), Fail> {
    let mut store = BlockStore::open(rt, FILE, Wary)?;
    has_one_value(&mut store)?;
    close(store);
    Ok(())
}

/// Fails if a frame stays in the log.
fn log_is_moved(rt: &HostRuntime) -> Result<(), Fail> {
    let log = fs::metadata(rt, LOG)?;
    agree(log.len() < 56, "no frame is left")
}

#[test]
fn values_last(rt: HostRuntime) -> Result<(), Fail> {
    let _ = fs::remove_dir_all(&rt, FOLDER);
    fs::create_dir(&rt, FOLDER)?;
    put_in_file(&rt)?;
    // What was added and not committed is lost.
    read_from_file(&rt)?;
    open_and_close(&rt)?;
    log_is_moved(&rt)?;
    read_from_file(&rt)?;
    fs::remove_dir_all(&rt, FOLDER)?;
    Ok(())
}

/// The header of one root, the name of `PARENT`.
const HEADER: &[u8] =
    b"\x3a\xa2\x65\x72\x6f\x6f\x74\x73\x81\xd8\x2a\x58\x25\x00\x01\x71\x12\x20\xb6\xd4\x90\x59\x17\
    \xeb\x67\x5f\x73\xeb\x84\x4b\xaf\xe7\xc3\xa4\xc7\x48\x18\xcb\xa0\x0b\xdb\x24\x77\xf1\x68\x6d\
    \x61\x94\x21\x5f\x67\x76\x65\x72\x73\x69\x6f\x6e\x01";

/// The section of the list of 1, 2 and 3.
const NUMBERS: &[u8] =
    b"\x28\x01\x71\x12\x20\x4a\xbc\x31\x13\x7c\xe7\x38\xd9\xac\xeb\x8a\x1d\x1d\x51\xf1\x5c\xad\x42\
    \xc2\xb0\x8d\xcb\x7e\xd1\x79\xf7\x37\xa1\x94\xb3\x55\xe7\x83\x01\x02\x03";

/// The section of the text "a".
const TEXT: &[u8] =
    b"\x26\x01\x71\x12\x20\x96\x1b\x6d\xd3\xed\xe3\xcb\x8e\xcb\xaa\xcb\xd6\x8d\xe0\x40\xcd\x78\xeb\
    \x2e\xd5\x88\x91\x30\xcc\xeb\x4c\x49\x26\x8e\xa4\xd5\x06\x61\x61";

/// The section of the list of a link to `NUMBERS` and one to `TEXT`.
const PARENT: &[u8] =
    b"\x77\x01\x71\x12\x20\xb6\xd4\x90\x59\x17\xeb\x67\x5f\x73\xeb\x84\x4b\xaf\xe7\xc3\xa4\xc7\x48\
    \x18\xcb\xa0\x0b\xdb\x24\x77\xf1\x68\x6d\x61\x94\x21\x5f\x82\xd8\x2a\x58\x25\x00\x01\x71\x12\
    \x20\x4a\xbc\x31\x13\x7c\xe7\x38\xd9\xac\xeb\x8a\x1d\x1d\x51\xf1\x5c\xad\x42\xc2\xb0\x8d\xcb\
    \x7e\xd1\x79\xf7\x37\xa1\x94\xb3\x55\xe7\xd8\x2a\x58\x25\x00\x01\x71\x12\x20\x96\x1b\x6d\xd3\
    \xed\xe3\xcb\x8e\xcb\xaa\xcb\xd6\x8d\xe0\x40\xcd\x78\xeb\x2e\xd5\x88\x91\x30\xcc\xeb\x4c\x49\
    \x26\x8e\xa4\xd5\x06";

/// The section of "foo", of the codec 0x55.
const RAW: &[u8] =
    b"\x27\x01\x55\x12\x20\x2c\x26\xb4\x6b\x68\xff\xc6\x8f\xf9\x9b\x45\x3c\x1d\x30\x41\x34\x13\x42\
    \x2d\x70\x64\x83\xbf\xa0\xf9\x8a\x5e\x88\x62\x66\xe7\xae\x66\x6f\x6f";

/// The section of a list of a link to `RAW`, one to `NODE`, and one to the number 5.
const MIXED: &[u8] =
    b"\xa0\x01\x01\x71\x12\x20\x48\xae\x11\xc5\x9a\xca\xfe\xc2\xcc\x46\xbd\xc1\x80\xbc\xea\x50\x0d\
    \x27\xc3\xeb\xb1\x59\x17\x47\x8e\x98\xd9\x86\x55\xb3\xf0\xea\x83\xd8\x2a\x58\x25\x00\x01\x55\
    \x12\x20\x2c\x26\xb4\x6b\x68\xff\xc6\x8f\xf9\x9b\x45\x3c\x1d\x30\x41\x34\x13\x42\x2d\x70\x64\
    \x83\xbf\xa0\xf9\x8a\x5e\x88\x62\x66\xe7\xae\xd8\x2a\x58\x25\x00\x01\x70\x12\x20\xcc\x4f\x9b\
    \xdc\x12\x82\xb3\x2a\xe4\xbb\x65\x9e\xab\x53\xd2\x21\x05\xd9\x56\xdc\xb2\xf5\xee\x91\x2d\x73\
    \x47\x55\x6f\x89\x1c\x76\xd8\x2a\x58\x25\x00\x01\x71\x12\x20\xe7\x7b\x9a\x9a\xe9\xe3\x0b\x0d\
    \xbd\xb6\xf5\x10\xa2\x64\xef\x9d\xe7\x81\x50\x1d\x7b\x6b\x92\xae\x89\xeb\x05\x9c\x5a\xb7\x43\
    \xdb";

/// The section of a node of the codec 0x70, with a link to other raw bytes, "bar".
const NODE: &[u8] =
    b"\x55\x01\x70\x12\x20\xcc\x4f\x9b\xdc\x12\x82\xb3\x2a\xe4\xbb\x65\x9e\xab\x53\xd2\x21\x05\xd9\
    \x56\xdc\xb2\xf5\xee\x91\x2d\x73\x47\x55\x6f\x89\x1c\x76\x12\x2b\x0a\x24\x01\x55\x12\x20\xfc\
    \xde\x2b\x2e\xdb\xa5\x6b\xf4\x08\x60\x1f\xb7\x21\xfe\x9b\x5c\x33\x8d\x10\xee\x42\x9e\xa0\x4f\
    \xae\x55\x11\xb6\x8f\xbf\x8f\xb9\x12\x01\x61\x18\x03\x0a\x02\x08\x01";

/// The name of "bar", which is not stored.
const BAR: &[u8] =
    b"\x01\x55\x12\x20\xfc\xde\x2b\x2e\xdb\xa5\x6b\xf4\x08\x60\x1f\xb7\x21\xfe\x9b\x5c\x33\x8d\x10\
    \xee\x42\x9e\xa0\x4f\xae\x55\x11\xb6\x8f\xbf\x8f\xb9";

/// The name of the number 5, which is not stored.
const FIVE: &[u8] =
    b"\x01\x71\x12\x20\xe7\x7b\x9a\x9a\xe9\xe3\x0b\x0d\xbd\xb6\xf5\x10\xa2\x64\xef\x9d\xe7\x81\x50\
    \x1d\x7b\x6b\x92\xae\x89\xeb\x05\x9c\x5a\xb7\x43\xdb";

/// The name of `NUMBERS`, with a list of 1, 2 and 4: the wrong bytes.
const CHANGED: &[u8] =
    b"\x28\x01\x71\x12\x20\x4a\xbc\x31\x13\x7c\xe7\x38\xd9\xac\xeb\x8a\x1d\x1d\x51\xf1\x5c\xad\x42\
    \xc2\xb0\x8d\xcb\x7e\xd1\x79\xf7\x37\xa1\x94\xb3\x55\xe7\x83\x01\x02\x04";

/// The section of the number 5, whose name holds it inline as its digest.
const IDENTITY: &[u8] = b"\x06\x01\x71\x00\x01\x05\x05";

/// The section of a map whose keys are out of order.
const UNORDERED: &[u8] =
    b"\x2b\x01\x71\x12\x20\x36\x84\xf1\x97\xac\x45\x14\xab\x69\xc1\x1b\x98\x76\x1f\x2c\x8c\x1b\xeb\
    \xb5\x68\xf8\x97\xb4\xbe\xb5\x62\xe7\x4f\xa6\xfa\x17\x27\xa2\x61\x62\x01\x61\x61\x02";

/// Returns the name in a section, by SHA-256, after a length of one or two bytes.
fn name_in(section: &[u8]) -> Result<Cid, Fail> {
    let start = if section.first().is_some_and(|first| *first < 0x80) {
        1
    } else {
        2
    };
    match section.get(start..start + 36) {
        Some(name) => Ok(Cid::try_from(name)?),
        None => Err(Fail::new("too short")),
    }
}

/// Returns the parts, one after the other.
fn joined(alloc: Global, parts: &[&[u8]]) -> Result<Vec<u8>, Fail> {
    let mut whole = Vec::new(alloc);
    for part in parts {
        whole.extend_from_slice(part)?;
    }
    Ok(whole)
}

/// Returns why a block is not kept, in a word.
fn cause_of(cause: &Unsound) -> &'static str {
    match cause {
        Unsound::OtherHash => "other hash",
        Unsound::OtherBytes => "other bytes",
        Unsound::NoBlock(DecodeError::UnorderedKey, 5) => "unordered at byte 5",
        Unsound::NoBlock(_, _) => "no block",
        Unsound::NoNode(_) => "no node",
    }
}

/// Returns the answer for a file, in a word.
fn word_of(answer: &Result<(Vec<Cid>, u64), ReadCarError<Infallible>>) -> &'static str {
    match answer {
        Ok(_) => "read",
        Err(ReadCarError::Section(1, CarError::Truncated)) => "cut",
        Err(ReadCarError::Block(1, _, StoreRefusal::Unsound(cause))) => cause_of(cause),
        Err(_) => "other",
    }
}

/// Returns the answer for the file of `TEXT` and these sections after it, in a word.
fn answer_to<S: Store>(
    alloc: Global,
    store: &mut BlockStore<S>,
    more: &[u8],
) -> Result<&'static str, Fail> {
    let file = joined(alloc, &[HEADER, TEXT, more])?;
    let mut input = Input::<SliceReader>::Slice(SliceReader::new(&file));
    Ok(word_of(&store.read_car(&mut input)))
}

/// Which sections follow `TEXT` in a file, and the answer for it. The file of the last row is kept.
const ANSWERS: &[(&[&[u8]], &str)] = &[
    (&[CHANGED], "other bytes"),
    (&[IDENTITY], "other hash"),
    (&[UNORDERED], "unordered at byte 5"),
    (&[b"\x77\x01\x71"], "cut"),
    (&[PARENT, MIXED, NODE, RAW, NUMBERS], "read"),
];

/// Reads files that are refused and change nothing, and then a file of blocks of three codecs.
fn reads_files<S: Store>(alloc: Global, store: &mut BlockStore<S>) -> Result<(), Fail> {
    for (sections, word) in ANSWERS {
        agree(store.len()? == 0, "nothing is kept")?;
        let more = joined(alloc, sections)?;
        agree(answer_to(alloc, store, &more)? == *word, word)?;
    }
    agree(store.len()? == 6, "six blocks")
}

/// Fails if the file of all blocks, or that of what `PARENT` leads to, has other bytes.
fn writes_files<S: Store>(alloc: Global, store: &mut BlockStore<S>) -> Result<(), Fail> {
    let mut whole = BufWriter::new(Vec::new(alloc));
    store.write_car(&[name_in(PARENT)?], &mut whole)?;
    let wanted = joined(alloc, &[HEADER, RAW, NODE, MIXED, NUMBERS, TEXT, PARENT])?;
    agree(
        whole.buffer() == wanted.as_slice(),
        "the file of all blocks",
    )?;
    let mut tree = BufWriter::new(Vec::new(alloc));
    let lost = store.write_tree(&name_in(PARENT)?, &mut tree)?;
    let wanted = joined(alloc, &[HEADER, PARENT, NUMBERS, TEXT])?;
    agree(tree.buffer() == wanted.as_slice(), "the file of a tree")?;
    agree(lost.is_empty(), "no link is lost")
}

/// Fails if, after `TEXT` is removed, the lost links are not just those to it, to "bar" and to the
/// number 5.
fn loses_links<S: Store>(store: &mut BlockStore<S>) -> Result<(), Fail> {
    let text = name_in(TEXT)?;
    agree(store.remove(&text)?, "it was there")?;
    let wanted = [Cid::try_from(BAR)?, text, Cid::try_from(FIVE)?];
    agree(store.lost()?.as_slice() == wanted.as_slice(), "three links")?;
    let typed = store.get::<u8>(&name_in(RAW)?);
    agree(matches!(typed, Err(GetError::OtherCodec)), "another codec")
}

/// Reads files, writes them, and removes a block.
fn keeps_files<S: Store>(alloc: Global, store: &mut BlockStore<S>) -> Result<(), Fail> {
    reads_files(alloc, store)?;
    writes_files(alloc, store)?;
    loses_links(store)
}

#[test]
fn files_are_kept_whole(rt: HostRuntime) -> Result<(), Fail> {
    let _ = fs::remove_dir_all(&rt, "dagcbor_store_files");
    fs::create_dir(&rt, "dagcbor_store_files")?;
    let mut store = BlockStore::open(&rt, "dagcbor_store_files/a.db", Wary)?;
    keeps_files(rt.alloc(), &mut store)?;
    drop(store);
    fs::remove_dir_all(&rt, "dagcbor_store_files")?;
    Ok(())
}
