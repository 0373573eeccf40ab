//! The lines, arguments and faults of `dagcar`. The expected lines are made by another program.

use program_dagcar::run_command;
use std::alloc::Global;
use std::io::{BufRead, Write};
use std::test::Fail;
use tests_shared::{StingySink, agree};

/// A file whose root links to its second section. The third section has another codec.
pub const GOOD: &[u8] =
    b"\x3a\xa2\x65\x72\x6f\x6f\x74\x73\x81\xd8\x2a\x58\x25\x00\x01\x71\x12\x20\x5e\x8a\xd8\xa0\x65\xee\x39\xe8\xbf\xf2\xf8\xa7\xbb\xc3\x4b\x8a\xdf\xd0\x30\xea\x99\xf4\x7f\x5a\x44\x81\x04\x86\x8f\xfb\xca\x30\x67\x76\x65\x72\x73\x69\x6f\x6e\x01\x4e\x01\x71\x12\x20\x5e\x8a\xd8\xa0\x65\xee\x39\xe8\xbf\xf2\xf8\xa7\xbb\xc3\x4b\x8a\xdf\xd0\x30\xea\x99\xf4\x7f\x5a\x44\x81\x04\x86\x8f\xfb\xca\x30\x81\xd8\x2a\x58\x25\x00\x01\x71\x12\x20\x4a\xbc\x31\x13\x7c\xe7\x38\xd9\xac\xeb\x8a\x1d\x1d\x51\xf1\x5c\xad\x42\xc2\xb0\x8d\xcb\x7e\xd1\x79\xf7\x37\xa1\x94\xb3\x55\xe7\x28\x01\x71\x12\x20\x4a\xbc\x31\x13\x7c\xe7\x38\xd9\xac\xeb\x8a\x1d\x1d\x51\xf1\x5c\xad\x42\xc2\xb0\x8d\xcb\x7e\xd1\x79\xf7\x37\xa1\x94\xb3\x55\xe7\x83\x01\x02\x03\x27\x01\x55\x12\x20\x2c\x26\xb4\x6b\x68\xff\xc6\x8f\xf9\x9b\x45\x3c\x1d\x30\x41\x34\x13\x42\x2d\x70\x64\x83\xbf\xa0\xf9\x8a\x5e\x88\x62\x66\xe7\xae\x66\x6f\x6f";

const GOOD_LINES: &[u8] =
    b"bafyreic6rlmkazpohhul74xyu654gs4k37idb2uz6r7vurebasdi766kga ok list\nbafyreickxqyrg7hhhdm2z24kduovd4k4vvbmfmenzn7nc6pxg6qzjm2v44 ok list\nbafkreibme22gw2h7y2h7tg2fhqotaqjucnbc24deqo72b6mkl2egezxhvy not read\n";

/// A link to a missing block twice, keys out of order, bytes that do not match their CID, and
/// another hash function.
pub const MIXED: &[u8] =
    b"\x3a\xa2\x65\x72\x6f\x6f\x74\x73\x81\xd8\x2a\x58\x25\x00\x01\x71\x12\x20\xbb\x75\xe7\xf6\x62\x9b\xa2\xc6\xd8\x24\xb2\xdf\x32\x88\x72\xdc\x5d\xcf\x03\x48\xe6\xb5\x0e\xed\x68\xe1\xc7\xa0\x0e\x5b\x0c\xe1\x67\x76\x65\x72\x73\x69\x6f\x6e\x01\xa0\x01\x01\x71\x12\x20\xbb\x75\xe7\xf6\x62\x9b\xa2\xc6\xd8\x24\xb2\xdf\x32\x88\x72\xdc\x5d\xcf\x03\x48\xe6\xb5\x0e\xed\x68\xe1\xc7\xa0\x0e\x5b\x0c\xe1\x83\xd8\x2a\x58\x25\x00\x01\x71\x12\x20\x4a\xbc\x31\x13\x7c\xe7\x38\xd9\xac\xeb\x8a\x1d\x1d\x51\xf1\x5c\xad\x42\xc2\xb0\x8d\xcb\x7e\xd1\x79\xf7\x37\xa1\x94\xb3\x55\xe7\xd8\x2a\x58\x25\x00\x01\x71\x12\x20\xc2\x79\x68\x8c\xf6\x7b\xfa\x45\x09\x0d\x10\xaf\x80\x85\xb0\x2b\x16\xe6\x63\xce\x8f\x4a\x64\x6d\xf8\xea\xa1\x8e\x6e\x4f\x04\x8b\xd8\x2a\x58\x25\x00\x01\x71\x12\x20\xc2\x79\x68\x8c\xf6\x7b\xfa\x45\x09\x0d\x10\xaf\x80\x85\xb0\x2b\x16\xe6\x63\xce\x8f\x4a\x64\x6d\xf8\xea\xa1\x8e\x6e\x4f\x04\x8b\x28\x01\x71\x12\x20\x4a\xbc\x31\x13\x7c\xe7\x38\xd9\xac\xeb\x8a\x1d\x1d\x51\xf1\x5c\xad\x42\xc2\xb0\x8d\xcb\x7e\xd1\x79\xf7\x37\xa1\x94\xb3\x55\xe7\x83\x01\x02\x03\x2b\x01\x71\x12\x20\x36\x84\xf1\x97\xac\x45\x14\xab\x69\xc1\x1b\x98\x76\x1f\x2c\x8c\x1b\xeb\xb5\x68\xf8\x97\xb4\xbe\xb5\x62\xe7\x4f\xa6\xfa\x17\x27\xa2\x61\x62\x01\x61\x61\x02\x27\x01\x55\x12\x20\x2c\x26\xb4\x6b\x68\xff\xc6\x8f\xf9\x9b\x45\x3c\x1d\x30\x41\x34\x13\x42\x2d\x70\x64\x83\xbf\xa0\xf9\x8a\x5e\x88\x62\x66\xe7\xae\x66\x6f\x70\x06\x01\x55\x13\x01\x78\x78";

const MIXED_LINES: &[u8] =
    b"bafyreif3oxt7myu3uldnqjfs34ziq4w4lxhqgshgwuho22hby6qa4wym4e ok list\nbafyreickxqyrg7hhhdm2z24kduovd4k4vvbmfmenzn7nc6pxg6qzjm2v44 ok list\nbafyreibwqtyzplcfcsvwtqi3tb3b6lemdpv3k2hys62l5nlc45h2n6qxe4 refused UnorderedKey\nbafkreibme22gw2h7y2h7tg2fhqotaqjucnbc24deqo72b6mkl2egezxhvy other bytes\nbafkrgaly not verified\nmissing bafyreigcpfuiz5t37jcqsdiqv6ailmblc3tghtupjjsg36hkughg4tyerm dag-cbor\n";

const MIXED_LISTED: &[u8] =
    b"root bafyreif3oxt7myu3uldnqjfs34ziq4w4lxhqgshgwuho22hby6qa4wym4e\nbafyreif3oxt7myu3uldnqjfs34ziq4w4lxhqgshgwuho22hby6qa4wym4e 124\nbafyreickxqyrg7hhhdm2z24kduovd4k4vvbmfmenzn7nc6pxg6qzjm2v44 4\nbafyreibwqtyzplcfcsvwtqi3tb3b6lemdpv3k2hys62l5nlc45h2n6qxe4 7\nbafkreibme22gw2h7y2h7tg2fhqotaqjucnbc24deqo72b6mkl2egezxhvy 3\nbafkrgaly 1\n";

/// The CID of the list of 1, 2 and 3, as a line.
const NUMBERS_LINE: &[u8] = b"bafyreickxqyrg7hhhdm2z24kduovd4k4vvbmfmenzn7nc6pxg6qzjm2v44\n";

/// Data of each kind. Its keys are in another order here than in DAG-JSON.
pub const DATA: &[u8] =
    b"\xa3\x61\x62\x85\xf5\xf6\x3b\xff\xff\xff\xff\xff\xff\xff\xff\x1b\xff\xff\xff\xff\xff\xff\xff\xff\x68\x61\x22\x5c\x0a\x01\x7f\xc3\xa9\x61\x63\xd8\x2a\x58\x25\x00\x01\x71\x12\x20\x4a\xbc\x31\x13\x7c\xe7\x38\xd9\xac\xeb\x8a\x1d\x1d\x51\xf1\x5c\xad\x42\xc2\xb0\x8d\xcb\x7e\xd1\x79\xf7\x37\xa1\x94\xb3\x55\xe7\x62\x61\x61\xa2\x60\x44\x01\x02\x03\x04\x61\x6b\xd8\x2a\x58\x23\x00\x12\x20\x5e\x8a\xd8\xa0\x65\xee\x39\xe8\xbf\xf2\xf8\xa7\xbb\xc3\x4b\x8a\xdf\xd0\x30\xea\x99\xf4\x7f\x5a\x44\x81\x04\x86\x8f\xfb\xca\x30";

pub const DATA_LINE: &[u8] =
    b"{\"aa\":{\"\":{\"/\":{\"bytes\":\"AQIDBA\"}},\"k\":{\"/\":\"QmUhhq4PAFturoCmeccqMaYxb8yWcRATkVt5nTdmsWj4Es\"}},\"b\":[true,null,-18446744073709551616,18446744073709551615,\"a\\\"\\\\\\n\\u0001\x7f\xc3\xa9\"],\"c\":{\"/\":\"bafyreickxqyrg7hhhdm2z24kduovd4k4vvbmfmenzn7nc6pxg6qzjm2v44\"}}\n";

/// Returns the arguments as a program has them.
pub fn owned_words(alloc: Global, words: &[&str]) -> Result<Vec<String>, Fail> {
    let mut args = Vec::new(alloc);
    for word in words {
        args.push(String::from_str(alloc, word)?)?;
    }
    Ok(args)
}

pub fn run_words(
    alloc: Global,
    words: &[&str],
    input: &mut impl BufRead,
    output: &mut impl Write,
    errors: &mut impl Write,
) -> Result<u8, Fail> {
    Ok(run_command(alloc, &owned_words(alloc, words)?, input, output, errors))
}

/// Runs one word, and returns the status, the output and the error messages.
pub fn run_word(alloc: Global, word: &str, bytes: &[u8]) -> Result<(u8, Vec<u8>, Vec<u8>), Fail> {
    let mut input = bytes;
    let (mut output, mut errors) = (Vec::new(alloc), Vec::new(alloc));
    let status = run_words(alloc, &[word], &mut input, &mut output, &mut errors)?;
    Ok((status, output, errors))
}

/// Fails if a run of one word ends with another status or writes other lines.
pub fn writes(
    alloc: Global,
    word: &str,
    bytes: &[u8],
    status: u8,
    lines: &[u8],
) -> Result<(), Fail> {
    let (ended, written, _told) = run_word(alloc, word, bytes)?;
    agree((written.as_slice(), ended), (lines, status))
}

/// Fails if a run of one word ends with another status, or writes other lines or error messages.
pub fn gives(
    alloc: Global,
    word: &str,
    bytes: &[u8],
    status: u8,
    lines: &[u8],
    line: &[u8],
) -> Result<(), Fail> {
    let (ended, written, told) = run_word(alloc, word, bytes)?;
    agree(
        (written.as_slice(), ended, told.as_slice()),
        (lines, status, line),
    )
}

/// Fails if a run whose output has room for this many bytes does not write that beginning of the
/// lines, or does not report the fault.
pub fn fills(
    alloc: Global,
    words: &[&str],
    bytes: &[u8],
    room: usize,
    lines: &[u8],
) -> Result<(), Fail> {
    let mut errors = Vec::new(alloc);
    let mut full = StingySink::new(alloc, room, None);
    let mut input = bytes;
    let ended = run_words(alloc, words, &mut input, &mut full, &mut errors)?;
    let line = b"dagcar: output failed\n".as_slice();
    agree((ended, errors.as_slice()), (2, line))?;
    agree(full.held(), &lines[..room.min(lines.len())])
}

/// A file of one block, a list of links to missing blocks: of each codec that has a name, of two
/// that have none, and of version 0.
const CODECS: &[u8] =
    b"\x3a\xa2\x65\x72\x6f\x6f\x74\x73\x81\xd8\x2a\x58\x25\x00\x01\x71\x12\x20\x83\x98\x73\x41\x8b\x4b\xd8\x73\x3f\x5c\x6d\xaf\x20\xe0\xa3\xa7\x0f\x7b\x89\x67\x12\xdb\xbd\xe8\xc3\x6d\x30\xd0\xd6\x30\x7c\x09\x67\x76\x65\x72\x73\x69\x6f\x6e\x01\x98\x03\x01\x71\x12\x20\x83\x98\x73\x41\x8b\x4b\xd8\x73\x3f\x5c\x6d\xaf\x20\xe0\xa3\xa7\x0f\x7b\x89\x67\x12\xdb\xbd\xe8\xc3\x6d\x30\xd0\xd6\x30\x7c\x09\x89\xd8\x2a\x58\x25\x00\x01\x55\x12\x20\x76\xf7\x5e\x61\x29\xfe\x30\x13\x5b\xd4\x4d\x80\xab\x7c\xc4\x6f\xdb\xa8\x19\x07\x75\x8d\xc8\x08\xf3\xe2\x51\x7b\xee\xf2\xb1\xe9\xd8\x2a\x58\x25\x00\x01\x70\x12\x20\x76\xf7\x5e\x61\x29\xfe\x30\x13\x5b\xd4\x4d\x80\xab\x7c\xc4\x6f\xdb\xa8\x19\x07\x75\x8d\xc8\x08\xf3\xe2\x51\x7b\xee\xf2\xb1\xe9\xd8\x2a\x58\x25\x00\x01\x71\x12\x20\x76\xf7\x5e\x61\x29\xfe\x30\x13\x5b\xd4\x4d\x80\xab\x7c\xc4\x6f\xdb\xa8\x19\x07\x75\x8d\xc8\x08\xf3\xe2\x51\x7b\xee\xf2\xb1\xe9\xd8\x2a\x58\x26\x00\x01\xa9\x02\x12\x20\x76\xf7\x5e\x61\x29\xfe\x30\x13\x5b\xd4\x4d\x80\xab\x7c\xc4\x6f\xdb\xa8\x19\x07\x75\x8d\xc8\x08\xf3\xe2\x51\x7b\xee\xf2\xb1\xe9\xd8\x2a\x58\x25\x00\x01\x72\x12\x20\x76\xf7\x5e\x61\x29\xfe\x30\x13\x5b\xd4\x4d\x80\xab\x7c\xc4\x6f\xdb\xa8\x19\x07\x75\x8d\xc8\x08\xf3\xe2\x51\x7b\xee\xf2\xb1\xe9\xd8\x2a\x58\x26\x00\x01\x80\x04\x12\x20\x76\xf7\x5e\x61\x29\xfe\x30\x13\x5b\xd4\x4d\x80\xab\x7c\xc4\x6f\xdb\xa8\x19\x07\x75\x8d\xc8\x08\xf3\xe2\x51\x7b\xee\xf2\xb1\xe9\xd8\x2a\x58\x25\x00\x01\x78\x12\x20\x76\xf7\x5e\x61\x29\xfe\x30\x13\x5b\xd4\x4d\x80\xab\x7c\xc4\x6f\xdb\xa8\x19\x07\x75\x8d\xc8\x08\xf3\xe2\x51\x7b\xee\xf2\xb1\xe9\xd8\x2a\x58\x27\x00\x01\x81\xe4\x02\x12\x20\x76\xf7\x5e\x61\x29\xfe\x30\x13\x5b\xd4\x4d\x80\xab\x7c\xc4\x6f\xdb\xa8\x19\x07\x75\x8d\xc8\x08\xf3\xe2\x51\x7b\xee\xf2\xb1\xe9\xd8\x2a\x58\x23\x00\x12\x20\x76\xf7\x5e\x61\x29\xfe\x30\x13\x5b\xd4\x4d\x80\xab\x7c\xc4\x6f\xdb\xa8\x19\x07\x75\x8d\xc8\x08\xf3\xe2\x51\x7b\xee\xf2\xb1\xe9";

const CODECS_LINES: &[u8] =
    b"bafyreiedtbzudc2l3bzt6xdnv4qobi5hb55yszys3o66rq3ngdinmmd4be ok list\nmissing QmWM3bHfxC7Prszf82gqKrjGyWHXHWcuCrriXhgre87RB6 dag-pb\nmissing bafkreidw65pgckp6gajvxvcnqcvxzrdp3oubsb3vrxear47ckf5654vr5e raw\nmissing bafybeidw65pgckp6gajvxvcnqcvxzrdp3oubsb3vrxear47ckf5654vr5e dag-pb\nmissing bafyreidw65pgckp6gajvxvcnqcvxzrdp3oubsb3vrxear47ckf5654vr5e dag-cbor\nmissing bafzbeidw65pgckp6gajvxvcnqcvxzrdp3oubsb3vrxear47ckf5654vr5e libp2p-key\nmissing baf4beidw65pgckp6gajvxvcnqcvxzrdp3oubsb3vrxear47ckf5654vr5e codec 0x78\nmissing baguqeerao33v4yjj7yybgw6ujwakw7gen7n2qgihowg4qcht4jixx3xswhuq dag-json\nmissing bagaaierao33v4yjj7yybgw6ujwakw7gen7n2qgihowg4qcht4jixx3xswhuq json\nmissing baga6iaqseb3poxtbfh7dae232rgybk34yrx5xkaza52y3sai6prfc67o6ky6s codec 0xb201\n";

/// The error message for the section of `MIXED` that is refused.
const MIXED_PLACES: &[u8] =
    b"bafyreibwqtyzplcfcsvwtqi3tb3b6lemdpv3k2hys62l5nlc45h2n6qxe4: refused UnorderedKey at byte 5\n";

const FILES: &[(&str, &[u8], u8, &[u8], &[u8])] = &[
    ("check", GOOD, 0, GOOD_LINES, b""),
    ("check", MIXED, 1, MIXED_LINES, MIXED_PLACES),
    ("check", CODECS, 1, CODECS_LINES, b""),
    ("list", MIXED, 0, MIXED_LISTED, b""),
];

#[test]
fn files_are_checked_and_listed(rt: HostRuntime) -> Result<(), Fail> {
    for (word, file, status, lines, places) in FILES {
        gives(rt.alloc(), word, file, *status, lines, places)?;
    }
    Ok(())
}

const CUT: &[u8] = b"refused Truncated\n";

/// What `check --summary` writes.
const GOOD_COUNTS: &[u8] =
    b"sections 3\nok 2\nnot read 1\nlinks not read 0\nrefused 0\nother bytes 0\nnot verified 0\nmissing 0\n";

const MIXED_COUNTS: &[u8] =
    b"sections 5\nok 2\nnot read 0\nlinks not read 0\nrefused 1\nother bytes 1\nnot verified 1\nmissing 1\n";

const CODECS_COUNTS: &[u8] =
    b"sections 1\nok 1\nnot read 0\nlinks not read 0\nrefused 0\nother bytes 0\nnot verified 0\nmissing 9\n";

/// Files, and what `check --summary` writes for them. There is no other output, and no error
/// message.
const SUMMED: &[(&[u8], u8, &[u8])] = &[
    (GOOD, 0, GOOD_COUNTS),
    (MIXED, 1, MIXED_COUNTS),
    (CODECS, 1, CODECS_COUNTS),
];

/// Fails if `check --summary` ends with another status, or writes anything else.
fn sums_up(alloc: Global, file: &[u8], status: u8, counts: &[u8]) -> Result<(), Fail> {
    let mut input = file;
    let (mut output, mut errors) = (Vec::new(alloc), Vec::new(alloc));
    let words = &["check", "--summary"];
    let ended = run_words(alloc, words, &mut input, &mut output, &mut errors)?;
    agree(
        (output.as_slice(), ended, errors.as_slice()),
        (counts, status, b"".as_slice()),
    )
}

#[test]
fn verdicts_are_counted(rt: HostRuntime) -> Result<(), Fail> {
    for (file, status, counts) in SUMMED {
        sums_up(rt.alloc(), file, *status, counts)?;
    }
    sums_up(rt.alloc(), &GOOD[..GOOD.len() - 1], 1, CUT)
}

const NUMBERS: &[u8] = b"\x83\x01\x02\x03";

const BLOCKS: &[(&str, &[u8], u8, &[u8])] = &[
    ("name", NUMBERS, 0, NUMBERS_LINE),
    ("one", NUMBERS, 0, b"ok list\n"),
    ("show", NUMBERS, 0, b"[1,2,3]\n"),
    ("show", DATA, 0, DATA_LINE),
    ("show", b"\xa0", 0, b"{}\n"),
    (
        "show",
        b"\xa2\x61b\x01\x61a\x02",
        1,
        b"refused UnorderedKey\n",
    ),
    ("name", b"\x18\x17", 1, b"refused NonMinimal\n"),
    ("one", b"", 1, b"refused Eof\n"),
];

#[test]
fn blocks_are_named_judged_and_shown(rt: HostRuntime) -> Result<(), Fail> {
    for (word, bytes, status, lines) in BLOCKS {
        writes(rt.alloc(), word, bytes, *status, lines)?;
    }
    Ok(())
}

/// A word, bytes that are not a block, and the error message for them: at which byte they are
/// refused, and what reads two blocks.
const PLACES: &[(&str, &[u8], &[u8], &[u8])] = &[
    (
        "one",
        b"\x82\x01\x18\x17",
        b"refused NonMinimal\n",
        b"refused NonMinimal at byte 3\n",
    ),
    (
        "name",
        b"\x18\x17",
        b"refused NonMinimal\n",
        b"refused NonMinimal at byte 1\n",
    ),
    (
        "show",
        b"\xa2\x61b\x01\x61a\x02",
        b"refused UnorderedKey\n",
        b"refused UnorderedKey at byte 5\n",
    ),
    ("one", b"\x81", b"refused Eof\n", b"refused Eof at byte 1\n"),
    (
        "name",
        b"\x01\x02",
        b"refused TrailingData\n",
        b"refused TrailingData at byte 1\n",
    ),
    (
        "one",
        b"\x81\x01\xa0",
        b"refused TrailingData\n",
        b"refused TrailingData at byte 2\ndagcar: two blocks, one after the other: dagcar event reads frames\n",
    ),
    (
        "show",
        b"\xa1\x62op\x01\xa1\x61a\x20",
        b"refused TrailingData\n",
        b"refused TrailingData at byte 5\ndagcar: two blocks, one after the other: dagcar event reads frames\n",
    ),
    (
        "show",
        b"\x81\x01\xa0\xa0",
        b"refused TrailingData\n",
        b"refused TrailingData at byte 2\n",
    ),
    (
        "one",
        b"\x81\x01\x18\x17",
        b"refused TrailingData\n",
        b"refused TrailingData at byte 2\n",
    ),
];

#[test]
fn refusals_are_told_with_a_place(rt: HostRuntime) -> Result<(), Fail> {
    for (word, bytes, lines, line) in PLACES {
        gives(rt.alloc(), word, bytes, 1, lines, line)?;
    }
    Ok(())
}

#[test]
fn the_program_tells_of_itself(rt: HostRuntime) -> Result<(), Fail> {
    let alloc = rt.alloc();
    gives(alloc, "--version", b"", 0, b"dagcar 0.7.0\n", b"")?;
    let (ended, written, told) = run_word(alloc, "--help", b"")?;
    agree((ended, told.as_slice()), (0, b"".as_slice()))?;
    agree(
        written.starts_with(b"usage: dagcar check ".as_slice()),
        true,
    )?;
    agree(written.ends_with(b"\n".as_slice()), true)
}
