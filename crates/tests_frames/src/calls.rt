//! The answers that C gets for the frames, compared with those of a program in another language.

use crate::answers::ANSWERS;
use crate::cases::CASES;
use abi_memory_calls::{place_frame, put_event};
use std::alloc::Global;
use std::test::Fail;

/// Returns the word for the number.
fn word(code: i32) -> &'static str {
    match code {
        0 => "ok",
        -68 => "big",
        -69 => "rebase",
        -70 => "many",
        -71 => "many",
        -72 => "after",
        -73 => "known",
        -74 => "known",
        -75 => "form",
        -76 => "car",
        -77 => "root",
        -78 => "commit",
        -79 => "repository",
        -80 => "revision",
        -81 => "before",
        -82 => "missing",
        -83 => "bytes",
        -85 => "tree",
        -87 => "state",
        _ => "other",
    }
}

/// Returns whether the answer has the right length: a CID if a node is the cause, a block if the
/// frame is verified.
fn is_right_length(code: i32, needed: usize) -> bool {
    match code {
        0 => needed > 100,
        -82 => needed == 36,
        -83 => needed == 36,
        -84 => needed == 36,
        _ => needed == 0,
    }
}

#[test]
fn frames_are_answered(rt: HostRuntime) -> Result<(), Fail> {
    let alloc = rt.alloc();
    for row in CASES {
        let (mut out, mut needed) = ([0u8; 4096], 7);
        let rev = row.3.as_bytes();
        let code = put_event(alloc, row.1, row.2, rev, &mut out, &mut needed);
        if word(code) != row.4 || !is_right_length(code, needed) {
            return Err(Fail::from(format!(in alloc; "{}: {code}, {needed} bytes", row.0)?));
        }
    }
    Ok(())
}

#[test]
fn what_is_verified_is_answered(rt: HostRuntime) -> Result<(), Fail> {
    let alloc = rt.alloc();
    let mut answers = ANSWERS;
    for row in CASES {
        let (mut out, mut needed) = ([0u8; 4096], 7);
        if put_event(alloc, row.1, row.2, row.3.as_bytes(), &mut out, &mut needed) == 0 {
            let [answer, others @ ..] = answers else {
                return Err(Fail::from("too few answers"));
            };
            if out.get(..needed) != Some(*answer) {
                return Err(Fail::from(row.0));
            }
            answers = others;
        }
    }
    if !answers.is_empty() {
        return Err(Fail::from("answers are left"));
    }
    Ok(())
}

/// Returns the numbers for the bytes: the kind or why there is none, where the second item begins,
/// and where it ends.
fn placed(alloc: Global, bytes: &[u8]) -> (i32, usize, usize) {
    let (mut body, mut end) = (7, 7);
    let code = place_frame(alloc, bytes, &mut body, &mut end);
    (code, body, end)
}

#[test]
fn frames_are_placed(rt: HostRuntime) -> Result<(), Fail> {
    let alloc = rt.alloc();
    for row in CASES {
        if placed(alloc, row.1) != (0, 15, row.1.len()) {
            return Err(Fail::from(row.0));
        }
    }
    let rows: &[(&[u8], (i32, usize, usize))] = &[
        (b"", (-61, 0, 0)),
        (b"\xa0", (-61, 0, 0)),
        (b"\xf6\xf6\0", (-62, 1, 2)),
        (b"\xa1\x62op\x02\xf6", (-63, 5, 6)),
        (b"\xa1\x62op\x01\x61a\0", (-64, 5, 7)),
        (b"\xa2\x61t\x65#info\x62op\x01\xf6", (-65, 13, 14)),
        (
            b"\xa2\x61t\x65#info\x62op\x01\xa1\x64name\x61a",
            (4, 13, 21),
        ),
        (b"\xa1\x62op\x20\xa1\x65error\x61a", (5, 5, 14)),
        (b"\xa2\x61t\x64#new\x62op\x01\0\0", (6, 12, 13)),
    ];
    for row in rows {
        if placed(alloc, row.0) != row.1 {
            let (code, body, end) = placed(alloc, row.0);
            return Err(Fail::from(format!(in alloc; "{code} {body} {end}")?));
        }
    }
    Ok(())
}

#[test]
fn what_is_known_is_asked(rt: HostRuntime) -> Result<(), Fail> {
    let alloc = rt.alloc();
    let Some(row) = CASES.first() else {
        return Err(Fail::from("no case"));
    };
    let (mut out, mut needed) = ([0u8; 4096], 7);
    let rows: &[(&[u8], &[u8], i32)] = &[
        (b"", b"\xff", 0),
        (row.2, b"3k", 0),
        (row.2, b"3l", -72),
        (row.2, b"\xff", -67),
        (b"\x01\x71", b"3k", -67),
    ];
    for asked in rows {
        let code = put_event(alloc, row.1, asked.0, asked.1, &mut out, &mut needed);
        if code != asked.2 {
            return Err(Fail::from(format!(in alloc; "{code}, and not {}", asked.2)?));
        }
    }
    if put_event(alloc, row.1, b"", b"", &mut out[..9], &mut needed) != -21 || needed < 100 {
        return Err(Fail::from("there is no room"));
    }
    Ok(())
}
