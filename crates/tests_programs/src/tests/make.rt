//! `make`: blocks from DAG-JSON. The expected bytes are made by another program.

use crate::tests::dagcar::{gives, run_word};
use std::test::Fail;
use tests_shared::agree;

/// Texts that are not DAG-JSON, and the error messages for them.
const REFUSED: &[(&[u8], &str)] = &[
    (b"\"\xff\"", "refused NoText 1\n"),
    (b"", "refused NoJson 0\n"),
    (b"[1,]", "refused NoJson 3\n"),
    (b"[1 2]", "refused NoJson 3\n"),
    (b"{\"a\" 1}", "refused NoJson 5\n"),
    (b"\"\\ud83d\"", "refused NoJson 0\n"),
    (b"\"\\ude00\\ud83d\"", "refused NoJson 0\n"),
    (b"[01]", "refused NoJson 1\n"),
    (b"[1", "refused NoJson 2\n"),
    (b"1 2", "refused TrailingData 2\n"),
    (b"{}}", "refused TrailingData 2\n"),
    (b"1.5", "refused Float 0\n"),
    (b"[0,1E0]", "refused Float 3\n"),
    (b"-1e400", "refused Float 0\n"),
    (b"18446744073709551616", "refused OutOfRange 0\n"),
    (b"[-18446744073709551617]", "refused OutOfRange 1\n"),
    (
        b"100000000000000000000000000000000000000000000000000",
        "refused OutOfRange 0\n",
    ),
    (b"{\"a\":1,\"a\":2}", "refused RepeatedKey 7\n"),
    (
        b"{\"a\":{\"b\":[]}, \"\\u0061\":2}",
        "refused RepeatedKey 15\n",
    ),
    (b"{\"/\":1}", "refused ReservedKey 0\n"),
    (b"{\"/\":\"x\",\"a\":1}", "refused ReservedKey 0\n"),
    (b"[{\"a\":{\"/\":{}}}]", "refused ReservedKey 6\n"),
    (b"{\"/\":{\"bytes\":1}}", "refused ReservedKey 0\n"),
    (b"{\"/\":{\"Bytes\":\"AQ\"}}", "refused ReservedKey 0\n"),
    (
        b"{\"/\":{\"bytes\":\"AQ\",\"a\":1}}",
        "refused ReservedKey 0\n",
    ),
    (b"{\"a\":1,\"/\":null}", "refused ReservedKey 0\n"),
    (b"{\"/\":\"bafy\"}", "refused NoCid 5\n"),
    (b"[{\"/\":\"\"}]", "refused NoCid 6\n"),
    (b"{\"/\":{\"bytes\":\"AQ==\"}}", "refused NoBase64 14\n"),
    (b"{\"/\":{\"bytes\":\"AR\"}}", "refused NoBase64 14\n"),
    (b"{\"/\":{\"bytes\":\"-_\"}}", "refused NoBase64 14\n"),
];

#[test]
fn other_texts_are_refused(rt: HostRuntime) -> Result<(), Fail> {
    for (text, line) in REFUSED {
        gives(rt.alloc(), "make", text, 1, b"", line.as_bytes())?;
    }
    Ok(())
}

/// The error message for data that looks like a link.
const LOOKS: &[u8] = b"dagcar: a map with the key / looks like a link or like bytes\n";

/// Blocks of such data and of other data, with their output and error messages.
const SHOWN: &[(&[u8], &[u8], &[u8])] = &[
    (b"\xa1\x61/\x01", b"{\"/\":1}\n", LOOKS),
    (
        b"\x81\xa2\x61/\xf6\x61a\xa0",
        b"[{\"/\":null,\"a\":{}}]\n",
        LOOKS,
    ),
    (
        b"\xa1\x61a\xa1\x61/\x61x",
        b"{\"a\":{\"/\":\"x\"}}\n",
        LOOKS,
    ),
];

#[test]
fn data_that_looks_like_a_link_is_told(rt: HostRuntime) -> Result<(), Fail> {
    let alloc = rt.alloc();
    for (block, line, told) in SHOWN {
        gives(alloc, "show", block, 0, line, told)?;
    }
    let (_ended, _written, told) = run_word(alloc, "show", b"\xa1\x62//\x01")?;
    agree(told.is_empty(), true)
}
