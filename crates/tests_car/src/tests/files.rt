//! Whole files. The rows of `conformance/` and of `faults/run` have more files, and bytes that are
//! not files.

use crate::tests::sections::{CHANGED, EMPTY, HEADER, NUMBERS, SECTION, UNORDERED};
use dagcbor_heads::SliceReader;
use files_car::{CarCheck, CarReader};
use ipld_links::Verdict;
use ipld_tree::Cid;
use std::alloc::Global;
use std::test::Fail;
use tests_shared::{agree, joined};

/// The header of the root `PARENT`, its section, and that of `NUMBERS`. The block of `PARENT` is
/// the list of a link to `NUMBERS`, one to `FOO`, and again one to `NUMBERS`.
const LINKED: &[u8] =
    b"\x3a\xa2\x65\x72\x6f\x6f\x74\x73\x81\xd8\x2a\x58\x25\x00\x01\x71\x12\x20\x4e\xd9\x06\x5c\x0d\xac\x82\xb6\x65\xdf\x8f\xd5\xa1\x81\xff\xf5\xf4\x1b\x01\x96\x2b\x8e\x9b\x4f\x25\xb9\x22\x28\x39\x8c\xd0\x97\x67\x76\x65\x72\x73\x69\x6f\x6e\x01\xa0\x01\x01\x71\x12\x20\x4e\xd9\x06\x5c\x0d\xac\x82\xb6\x65\xdf\x8f\xd5\xa1\x81\xff\xf5\xf4\x1b\x01\x96\x2b\x8e\x9b\x4f\x25\xb9\x22\x28\x39\x8c\xd0\x97\x83\xd8\x2a\x58\x25\x00\x01\x71\x12\x20\x4a\xbc\x31\x13\x7c\xe7\x38\xd9\xac\xeb\x8a\x1d\x1d\x51\xf1\x5c\xad\x42\xc2\xb0\x8d\xcb\x7e\xd1\x79\xf7\x37\xa1\x94\xb3\x55\xe7\xd8\x2a\x58\x25\x00\x01\x55\x12\x20\x2c\x26\xb4\x6b\x68\xff\xc6\x8f\xf9\x9b\x45\x3c\x1d\x30\x41\x34\x13\x42\x2d\x70\x64\x83\xbf\xa0\xf9\x8a\x5e\x88\x62\x66\xe7\xae\xd8\x2a\x58\x25\x00\x01\x71\x12\x20\x4a\xbc\x31\x13\x7c\xe7\x38\xd9\xac\xeb\x8a\x1d\x1d\x51\xf1\x5c\xad\x42\xc2\xb0\x8d\xcb\x7e\xd1\x79\xf7\x37\xa1\x94\xb3\x55\xe7\x28\x01\x71\x12\x20\x4a\xbc\x31\x13\x7c\xe7\x38\xd9\xac\xeb\x8a\x1d\x1d\x51\xf1\x5c\xad\x42\xc2\xb0\x8d\xcb\x7e\xd1\x79\xf7\x37\xa1\x94\xb3\x55\xe7\x83\x01\x02\x03";

/// The CID of "foo", with the codec 0x55.
const FOO: &[u8] =
    b"\x01\x55\x12\x20\x2c\x26\xb4\x6b\x68\xff\xc6\x8f\xf9\x9b\x45\x3c\x1d\x30\x41\x34\x13\x42\x2d\x70\x64\x83\xbf\xa0\xf9\x8a\x5e\x88\x62\x66\xe7\xae";

/// A CID with another hash function.
const OTHER: &[u8] = b"\x01\x55\x13\x02\x05\x06";

/// The section of "foo", with the codec 0x55 and a digest of twenty bytes.
const FOO_CUT: &[u8] =
    b"\x1b\x01\x55\x12\x14\x2c\x26\xb4\x6b\x68\xff\xc6\x8f\xf9\x9b\x45\x3c\x1d\x30\x41\x34\x13\x42\x2d\x70\x66\x6f\x6f";

/// The header of a root with the identity hash, whose block is a link to `OTHER`.
const INLINE_ROOT: &[u8] =
    b"\x23\xa2\x65\x72\x6f\x6f\x74\x73\x81\xd8\x2a\x4f\x00\x01\x71\x00\x0a\xd8\x2a\x47\x00\x01\x55\x13\x02\x05\x06\x67\x76\x65\x72\x73\x69\x6f\x6e\x01";

/// The section of a block with the identity hash: a link by the identity hash to a link by the
/// identity hash to a link to `OTHER`.
const INLINE_TWICE: &[u8] =
    b"\x38\x01\x71\x00\x1a\xd8\x2a\x57\x00\x01\x71\x00\x12\xd8\x2a\x4f\x00\x01\x71\x00\x0a\xd8\x2a\x47\x00\x01\x55\x13\x02\x05\x06\xd8\x2a\x57\x00\x01\x71\x00\x12\xd8\x2a\x4f\x00\x01\x71\x00\x0a\xd8\x2a\x47\x00\x01\x55\x13\x02\x05\x06";

/// Returns a letter for each verdict.
fn letter_of(verdict: &Verdict) -> u8 {
    match verdict {
        Verdict::Block(_) => b'B',
        Verdict::Refused(_) => b'R',
        Verdict::Node => b'P',
        Verdict::NoNode(_) => b'Q',
        Verdict::OtherBytes => b'O',
        Verdict::NotRead => b'N',
        Verdict::LinksNotRead => b'L',
        Verdict::Unverified => b'U',
    }
}

/// Returns the letter of the next section's verdict. Fails if there is no section.
fn next_letter(
    reader: &mut CarReader<'_, SliceReader<'_>>,
    check: &mut CarCheck,
) -> Result<u8, Fail> {
    match reader.next() {
        Some(Ok(section)) => Ok(letter_of(&check.take(&section.section())?)),
        _ => Err(Fail::new("no section")),
    }
}

/// Returns the CIDs of these binary forms.
pub(crate) fn cids_of(alloc: Global, names: &[&[u8]]) -> Result<Vec<Cid>, Fail> {
    let mut cids = Vec::new(alloc);
    for name in names {
        cids.push(Cid::try_from(*name)?)?;
    }
    Ok(cids)
}

/// Fails if the file has sections other than those of these letters, or lacks other blocks.
fn tells(alloc: Global, file: &[u8], letters: &[u8], missing: &[&[u8]]) -> Result<(), Fail> {
    let (roots, mut reader) = CarReader::from_slice(alloc, file)?;
    let mut check = CarCheck::new(alloc, &roots)?;
    for letter in letters {
        agree(next_letter(&mut reader, &mut check)?, *letter)?;
    }
    agree(reader.next().is_none(), true)?;
    let missing = cids_of(alloc, missing)?;
    agree(check.missing(alloc)?.as_slice(), missing.as_slice())
}

/// The parts of files, the letters of their sections, and the missing blocks.
const FILES: &[(&[&[u8]], &[u8], &[&[u8]])] = &[
    (&[EMPTY], b"", &[]),
    (&[HEADER], b"", &[NUMBERS]),
    (&[HEADER, SECTION], b"B", &[]),
    (&[LINKED], b"BB", &[FOO]),
    (&[HEADER, CHANGED], b"O", &[NUMBERS]),
    (&[HEADER, UNORDERED, SECTION], b"RB", &[]),
    // An identity CID whose block links to a CID with another hash function, and such a block.
    (
        &[
            EMPTY,
            b"\x18\x01\x71\x00\x0a\xd8\x2a\x47\x00\x01\x55\x13\x02\x05\x06\xd8\x2a\x47\x00\x01\x55\x13\x02\x05\x06",
            b"\x08\x01\x55\x13\x02\x05\x06\x78\x79",
        ],
        b"BU",
        &[OTHER],
    ),
    // The first twenty bytes of a SHA-256.
    (&[EMPTY, FOO_CUT], b"U", &[]),
    // A root with the identity hash, whose block links to that CID.
    (&[INLINE_ROOT], b"", &[OTHER]),
    // A link by the identity hash to a block with another codec.
    (
        &[
            EMPTY,
            b"\x16\x01\x71\x00\x09\xd8\x2a\x46\x00\x01\x55\x00\x01\x78\xd8\x2a\x46\x00\x01\x55\x00\x01\x78",
        ],
        b"B",
        &[],
    ),
    // A link by the identity hash to a link by the identity hash to a link to that CID.
    (&[EMPTY, INLINE_TWICE], b"B", &[OTHER]),
];

#[test]
fn files_are_gone_through(rt: HostRuntime) -> Result<(), Fail> {
    let alloc = rt.alloc();
    for (parts, letters, missing) in FILES {
        tells(alloc, &joined(alloc, parts)?, letters, missing)?;
    }
    Ok(())
}
