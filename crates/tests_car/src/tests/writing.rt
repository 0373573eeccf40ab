//! Files that are written, and read again.

use crate::tests::files::cids_of;
use crate::tests::sections::{EMPTY, NUMBERS};
use dagcbor_heads::{BufWriter, SliceReader};
use files_car::{CarReader, CarWriter};
use ipld_tree::Cid;
use std::alloc::Global;
use std::test::Fail;
use tests_shared::{agree, joined};

/// The CID of "foo", of version 0.
const FOO: &[u8] =
    b"\x12\x20\x2c\x26\xb4\x6b\x68\xff\xc6\x8f\xf9\x9b\x45\x3c\x1d\x30\x41\x34\x13\x42\x2d\x70\x64\x83\xbf\xa0\xf9\x8a\x5e\x88\x62\x66\xe7\xae";

/// The identity CID of the number 5.
const FIVE: &[u8] = b"\x01\x71\x00\x01\x05";

/// The CID of the empty byte string, with the codec 0x55.
const NOTHING: &[u8] =
    b"\x01\x55\x12\x20\xe3\xb0\xc4\x42\x98\xfc\x1c\x14\x9a\xfb\xf4\xc8\x99\x6f\xb9\x24\x27\xae\x41\xe4\x64\x9b\x93\x4c\xa4\x95\x99\x1b\x78\x52\xb8\x55";

/// The CID of 200 letters, with the codec 0x55.
const LETTERS: &[u8] =
    b"\x01\x55\x12\x20\xc2\xa9\x08\xd9\x8f\x5d\xf9\x87\xad\xe4\x1b\x5f\xce\x21\x30\x67\xef\xbc\xc2\x1e\xf2\x24\x02\x12\xa4\x1e\x54\xb5\xe7\xc2\x8a\xe5";

/// The file of the roots `NUMBERS` and `FOO`, with the sections of `FOO`, `FIVE` and `NOTHING`.
const SHORT: &[u8] =
    b"\x61\xa2\x65\x72\x6f\x6f\x74\x73\x82\xd8\x2a\x58\x25\x00\x01\x71\x12\x20\x4a\xbc\x31\x13\x7c\xe7\x38\xd9\xac\xeb\x8a\x1d\x1d\x51\xf1\x5c\xad\x42\xc2\xb0\x8d\xcb\x7e\xd1\x79\xf7\x37\xa1\x94\xb3\x55\xe7\xd8\x2a\x58\x23\x00\x12\x20\x2c\x26\xb4\x6b\x68\xff\xc6\x8f\xf9\x9b\x45\x3c\x1d\x30\x41\x34\x13\x42\x2d\x70\x64\x83\xbf\xa0\xf9\x8a\x5e\x88\x62\x66\xe7\xae\x67\x76\x65\x72\x73\x69\x6f\x6e\x01\x25\x12\x20\x2c\x26\xb4\x6b\x68\xff\xc6\x8f\xf9\x9b\x45\x3c\x1d\x30\x41\x34\x13\x42\x2d\x70\x64\x83\xbf\xa0\xf9\x8a\x5e\x88\x62\x66\xe7\xae\x66\x6f\x6f\x06\x01\x71\x00\x01\x05\x05\x24\x01\x55\x12\x20\xe3\xb0\xc4\x42\x98\xfc\x1c\x14\x9a\xfb\xf4\xc8\x99\x6f\xb9\x24\x27\xae\x41\xe4\x64\x9b\x93\x4c\xa4\x95\x99\x1b\x78\x52\xb8\x55";

/// The CIDs and the blocks of the sections of `SHORT`.
const SHORT_SECTIONS: &[(&[u8], &[u8])] = &[(FOO, b"foo"), (FIVE, b"\x05"), (NOTHING, b"")];

/// The letters.
const BLOCK: &[u8] = &[b'a'; 200];

/// The CID of the letters, and the letters.
const LONG_SECTIONS: &[(&[u8], &[u8])] = &[(LETTERS, BLOCK)];

/// The file of the root `FIVE`, with the section of `LETTERS`, up to its block.
const LONG: &[u8] =
    b"\x1a\xa2\x65\x72\x6f\x6f\x74\x73\x81\xd8\x2a\x46\x00\x01\x71\x00\x01\x05\x67\x76\x65\x72\x73\x69\x6f\x6e\x01\xec\x01\x01\x55\x12\x20\xc2\xa9\x08\xd9\x8f\x5d\xf9\x87\xad\xe4\x1b\x5f\xce\x21\x30\x67\xef\xbc\xc2\x1e\xf2\x24\x02\x12\xa4\x1e\x54\xb5\xe7\xc2\x8a\xe5";

/// Writes the file of these roots and sections into memory.
fn written(alloc: Global, roots: &[Cid], sections: &[(&[u8], &[u8])]) -> Result<Vec<u8>, Fail> {
    let mut writer = CarWriter::new(alloc, BufWriter::new(Vec::new(alloc)), roots)?;
    for (name, block) in sections {
        let cid = Cid::try_from(*name)?;
        writer.write(&cid, block)?;
    }
    Ok(writer.into_writer().into_inner())
}

/// Returns whether the next section is this one.
fn comes_next(
    reader: &mut CarReader<'_, SliceReader<'_>>,
    name: &[u8],
    block: &[u8],
) -> Result<bool, Fail> {
    let cid = Cid::try_from(name)?;
    match reader.next() {
        Some(Ok(section)) => Ok(section.cid() == cid && section.block() == block),
        _ => Ok(false),
    }
}

/// Returns whether the file is read as these roots and sections.
fn is_read_as(
    alloc: Global,
    file: &[u8],
    roots: &[Cid],
    sections: &[(&[u8], &[u8])],
) -> Result<bool, Fail> {
    let (read, mut reader) = CarReader::from_slice(alloc, file)?;
    if read.as_slice() != roots {
        return Ok(false);
    }
    for (name, block) in sections {
        let comes = comes_next(&mut reader, name, block)?;
        if !comes {
            return Ok(false);
        }
    }
    Ok(reader.next().is_none())
}

/// Fails if the file of these roots and sections is written as other bytes, or is not read back.
fn goes_both_ways(
    alloc: Global,
    roots: &[&[u8]],
    sections: &[(&[u8], &[u8])],
    wanted: &[u8],
) -> Result<(), Fail> {
    let roots = cids_of(alloc, roots)?;
    let file = written(alloc, &roots, sections)?;
    agree(file.as_slice(), wanted)?;
    agree(is_read_as(alloc, &file, &roots, sections)?, true)
}

#[test]
fn files_are_written_and_read_back(rt: HostRuntime) -> Result<(), Fail> {
    let alloc = rt.alloc();
    goes_both_ways(alloc, &[], &[], EMPTY)?;
    goes_both_ways(alloc, &[NUMBERS, FOO], SHORT_SECTIONS, SHORT)?;
    let file = joined(alloc, &[LONG, BLOCK])?;
    goes_both_ways(alloc, &[FIVE], LONG_SECTIONS, &file)
}
