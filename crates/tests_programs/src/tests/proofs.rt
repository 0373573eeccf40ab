//! Rows of `dagcar prove` and `dagcar at --raw`. A separate program in Python, which walks over
//! decoded blocks, found the sections of the file on the way and the bytes of the item.

use crate::tests::dagcar::run_words;
use crate::tests::paths::FILE;
use std::alloc::Global;
use std::test::Fail;
use tests_shared::agree;

const ROOT: &str = "bafyreihmge4qxbweeb5hev33cwr6r7cxcxne7tb4mygmq3wsduicvzrusa";

/// Where a part of `FILE` begins and ends: its header, and all its sections but the last two.
pub type Part = (usize, usize);

const HEADER: Part = (0, 59);

const TOP: Part = (59, 326);

const MID: Part = (326, 428);

const LEAF: Part = (428, 473);

/// A block that is a link.
const ONLY: Part = (473, 551);

/// A path; the status, the sections on the way, and the error message.
const PROOFS: &[(&str, u8, &[Part], &[u8])] = &[
    ("", 0, &[TOP], b""),
    ("a", 0, &[TOP], b""),
    ("a/1", 0, &[TOP], b""),
    ("a/0", 0, &[TOP], b""),
    ("a/0/c", 0, &[TOP, MID], b""),
    ("a/0/b", 0, &[TOP, MID], b""),
    ("a/0/b/0", 0, &[TOP, MID, LEAF], b""),
    ("a/0/b/1", 0, &[TOP, MID, LEAF], b""),
    ("a/0/b/2", 0, &[TOP, MID, LEAF], b""),
    ("a/0/b/00/x", 0, &[TOP, MID, LEAF], b""),
    ("/a//0//b//1//", 0, &[TOP, MID, LEAF], b""),
    ("way", 0, &[TOP], b""),
    ("way/c", 0, &[TOP, ONLY, MID], b""),
    ("way/b/1", 0, &[TOP, ONLY, MID, LEAF], b""),
    ("way/id/x/1", 0, &[TOP, ONLY, MID], b""),
    ("a/0/id/x", 0, &[TOP, MID], b""),
    ("a/0/id/y", 0, &[TOP, MID], b""),
    ("gone", 0, &[TOP], b""),
    (
        "gone/a",
        1,
        &[],
        b"missing bafyreidb7dx65ygd6cax62mpolksktkdwi6acljdbi7g5xpfn3debcbrxm dag-cbor\n",
    ),
    ("other", 0, &[TOP], b""),
    (
        "other/0",
        1,
        &[],
        b"bafyreigzfgfbbunqonmdpxcl3bo2yza3b46o6j5epzovhjkpf47vwl6p7i other bytes\n",
    ),
    ("raw", 0, &[TOP], b""),
    (
        "raw/0",
        1,
        &[],
        b"bafkreigxion64jdxhpf7uliks6kh5y3ce6yq2ebcwgsvqr7jfclfxnv73y not read\n",
    ),
    ("zz/0", 0, &[TOP], b""),
    ("a/2", 0, &[TOP], b""),
    ("a/1/0", 0, &[TOP], b""),
    ("a/18446744073709551615", 0, &[TOP], b""),
    ("a/18446744073709551616", 0, &[TOP], b""),
    ("a/99999999999999999999999999", 0, &[TOP], b""),
    ("way/b", 0, &[TOP, ONLY, MID], b""),
    (
        "raw/0/1",
        1,
        &[],
        b"bafkreigxion64jdxhpf7uliks6kh5y3ce6yq2ebcwgsvqr7jfclfxnv73y not read\n",
    ),
];

/// A path; the status, the bytes of the item, and the error message.
const ITEMS: &[(&str, u8, &[u8], &[u8])] = &[
    (
        "a",
        0,
        b"\x82\xd8\x2a\x58\x25\x00\x01\x71\x12\x20\x00\xf5\x02\x9e\xcb\x58\x10\x5a\x66\x97\x01\x18\x34\x7e\xde\x24\xbc\xdd\xf4\x04\xc2\x28\x99\x16\xed\x98\x28\x57\x60\x41\x45\x56\x05",
        b"",
    ),
    ("a/1", 0, b"\x05", b""),
    (
        "a/0",
        0,
        b"\xd8\x2a\x58\x25\x00\x01\x71\x12\x20\x00\xf5\x02\x9e\xcb\x58\x10\x5a\x66\x97\x01\x18\x34\x7e\xde\x24\xbc\xdd\xf4\x04\xc2\x28\x99\x16\xed\x98\x28\x57\x60\x41\x45\x56",
        b"",
    ),
    ("a/0/c", 0, b"\x61\x78", b""),
    (
        "a/0/b",
        0,
        b"\xd8\x2a\x58\x25\x00\x01\x71\x12\x20\x98\xc0\x45\xc0\xa4\x62\x0c\x07\x68\x88\xf7\x02\x50\x80\xed\xfe\x57\x87\x31\x66\xbc\xa9\x1a\x07\xe7\x6a\x2f\xe9\x5a\xc1\x37\x25",
        b"",
    ),
    ("a/0/b/0", 0, b"\x18\x2a", b""),
    ("a/0/b/1", 0, b"\x64\x6c\x65\x61\x66", b""),
    (
        "a/0/b/2",
        1,
        b"",
        b"bafyreieyybc4bjdcbqdwrchxajiib3p6k6dtczv4venapz3kf7uvvqjxeu has nothing at 2\n",
    ),
    (
        "a/0/b/00/x",
        1,
        b"",
        b"bafyreieyybc4bjdcbqdwrchxajiib3p6k6dtczv4venapz3kf7uvvqjxeu has nothing at 00/x\n",
    ),
    ("/a//0//b//1//", 0, b"\x64\x6c\x65\x61\x66", b""),
    (
        "way",
        0,
        b"\xd8\x2a\x58\x25\x00\x01\x71\x12\x20\x3a\x2b\x7b\xcd\x72\x6f\xdd\x8e\x9a\x90\x97\xa3\x85\xfc\x28\xd3\x8a\x97\xd2\x89\xf6\x60\xc6\x3d\x56\xb2\xf1\x52\x0a\x5c\x86\xf2",
        b"",
    ),
    ("way/c", 0, b"\x61\x78", b""),
    ("way/b/1", 0, b"\x64\x6c\x65\x61\x66", b""),
    ("way/id/x/1", 0, b"\x02", b""),
    ("a/0/id/x", 0, b"\x82\x01\x02", b""),
    ("a/0/id/y", 1, b"", b"bafyqabvbmf4ieaic has nothing at y\n"),
    (
        "gone",
        0,
        b"\xd8\x2a\x58\x25\x00\x01\x71\x12\x20\x61\xf8\xef\xee\xe0\xc3\xf0\x81\x7f\x69\x8f\x72\xd5\x25\x4d\x43\xb2\x3c\x01\x2d\x23\x0a\x3e\x6e\xdd\xe5\x6e\xc6\x40\x88\x31\xbb",
        b"",
    ),
    (
        "other",
        0,
        b"\xd8\x2a\x58\x25\x00\x01\x71\x12\x20\xd9\x29\x8a\x10\xd1\xb0\x73\x58\x37\xdc\x4b\xd8\x5d\xac\x64\x1b\x0f\x3c\xef\x27\xa4\x7e\x5d\x53\xa5\x4f\x2f\x3f\x5b\x2f\xcf\xfa",
        b"",
    ),
    (
        "other/0",
        1,
        b"",
        b"bafyreigzfgfbbunqonmdpxcl3bo2yza3b46o6j5epzovhjkpf47vwl6p7i other bytes\n",
    ),
    (
        "raw",
        0,
        b"\xd8\x2a\x58\x25\x00\x01\x55\x12\x20\xd7\x43\x9b\xee\x24\x77\x3b\xcb\xfa\x2d\x0a\x97\x94\x7e\xe3\x62\x27\xb1\x0d\x10\x22\xb1\xa5\x58\x47\xe9\x28\x96\x5b\xb6\xbf\xde",
        b"",
    ),
    (
        "raw/0",
        1,
        b"",
        b"bafkreigxion64jdxhpf7uliks6kh5y3ce6yq2ebcwgsvqr7jfclfxnv73y not read\n",
    ),
    (
        "a/1/0",
        1,
        b"",
        b"bafyreihmge4qxbweeb5hev33cwr6r7cxcxne7tb4mygmq3wsduicvzrusa has nothing at 0\n",
    ),
    (
        "a/99999999999999999999999999",
        1,
        b"",
        b"bafyreihmge4qxbweeb5hev33cwr6r7cxcxne7tb4mygmq3wsduicvzrusa has nothing at 99999999999999999999999999\n",
    ),
    (
        "way/b",
        0,
        b"\xd8\x2a\x58\x25\x00\x01\x71\x12\x20\x98\xc0\x45\xc0\xa4\x62\x0c\x07\x68\x88\xf7\x02\x50\x80\xed\xfe\x57\x87\x31\x66\xbc\xa9\x1a\x07\xe7\x6a\x2f\xe9\x5a\xc1\x37\x25",
        b"",
    ),
];

/// Returns the argument for a root and a path.
pub fn on_path(alloc: Global, root: &str, path: &str) -> Result<String, Fail> {
    let mut word = String::from_str(alloc, root)?;
    word.push_str("/")?;
    word.push_str(path)?;
    Ok(word)
}

/// Fails if the arguments give anything else for the file.
pub fn answer(
    alloc: Global,
    words: &[&str],
    file: &[u8],
    wanted: (u8, &[u8], &[u8]),
) -> Result<(), Fail> {
    let (mut output, mut errors) = (Vec::new(alloc), Vec::new(alloc));
    let mut input = file;
    let status = run_words(alloc, words, &mut input, &mut output, &mut errors)?;
    agree((status, output.as_slice(), errors.as_slice()), wanted)
}

/// Returns the part of `FILE`.
fn part_of(part: Part) -> Result<&'static [u8], Fail> {
    match FILE.get(part.0..part.1) {
        Some(bytes) => Ok(bytes),
        None => Err(Fail::new("no part")),
    }
}

/// Returns the header of `FILE`, and these of its sections.
fn file_of(alloc: Global, sections: &[Part]) -> Result<Vec<u8>, Fail> {
    let mut file = part_of(HEADER)?.to_vec(alloc)?;
    for section in sections {
        file.extend_from_slice(part_of(*section)?)?;
    }
    Ok(file)
}

#[test]
fn a_proof_has_the_blocks_on_the_way(rt: HostRuntime) -> Result<(), Fail> {
    let alloc = rt.alloc();
    for (path, status, sections, told) in PROOFS {
        let word = on_path(alloc, ROOT, path)?;
        let file = file_of(alloc, sections)?;
        let wanted = if *status == 0 { file.as_slice() } else { b"" };
        answer(alloc, &["prove", &word], FILE, (*status, wanted, told))?;
    }
    Ok(())
}

#[test]
fn items_are_written_as_they_are(rt: HostRuntime) -> Result<(), Fail> {
    let alloc = rt.alloc();
    for (path, status, item, told) in ITEMS {
        let word = on_path(alloc, ROOT, path)?;
        answer(alloc, &["at", "--raw", &word], FILE, (*status, item, told))?;
    }
    // The whole block of the root, after its length and its CID.
    let block = part_of((59 + 38, 326))?;
    answer(alloc, &["at", "--raw", ROOT], FILE, (0, block, b""))
}
