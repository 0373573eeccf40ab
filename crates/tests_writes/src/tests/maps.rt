//! Written maps whose keys come in any order, or are not valid.

use dagcbor_core::EncodeError;
use dagcbor_heads::BufWriter;
use dagcbor_write::Serializer;
use std::alloc::Global;
use std::convert::Infallible;
use std::test::Fail;
use tests_shared::{agree, is_told, joined};

/// A number that cannot be encoded.
pub(crate) const LARGE: u128 = 18_446_744_073_709_551_616;

/// The answer at the end of a map, and what is written of it.
pub(crate) type Ended = (Result<(), EncodeError<Infallible>>, Vec<u8>);

/// Writes a map of these entries.
fn map_of_entries(
    alloc: Global,
    len: Option<usize>,
    entries: &[(&str, u8)],
) -> Result<Ended, EncodeError<Infallible>> {
    let mut ser = Serializer::new(BufWriter::new(Vec::new(alloc)));
    let mut map = ser.serialize_map(alloc, len);
    for (key, value) in entries {
        if map.has_key() {
            return Err(EncodeError::custom("a key waits"));
        }
        map.serialize_entry(key, value)?;
    }
    if !map.is_complete() {
        return Err(EncodeError::custom("an entry is missing"));
    }
    let answer = map.end();
    Ok((answer, ser.into_inner().into_inner()))
}

/// Fails if a map is answered or written otherwise.
pub(crate) fn is_ended(
    alloc: Global,
    map: Result<Ended, EncodeError<Infallible>>,
    told: &str,
    spelling: &[u8],
) -> Result<(), Fail> {
    let (answer, written) = map?;
    is_told(alloc, &answer, told)?;
    agree(written.as_slice(), spelling)
}

/// The number of entries, if it is announced; the entries; the answer; and the written bytes.
const MAPS: &[(Option<usize>, &[(&str, u8)], &str, &[u8])] = &[
    (
        None,
        &[("b", 1), ("a", 2)],
        "Ok(())",
        b"\xa2\x61a\x02\x61b\x01",
    ),
    (Some(2), &[("a", 1), ("a", 2)], REPEATED, b""),
    (None, &[("a", 1), ("b", 2), ("a", 3)], REPEATED, b""),
    (None, &[("a", 1), ("a", 3), ("b", 2)], REPEATED, b""),
    (None, &[("b", 2), ("a", 1), ("a", 3)], REPEATED, b""),
    (None, &[("b", 2), ("a", 3), ("a", 1)], REPEATED, b""),
    (None, &[("a", 3), ("a", 1), ("b", 2)], REPEATED, b""),
    (None, &[("a", 3), ("b", 2), ("a", 1)], REPEATED, b""),
];

const REPEATED: &str = r#"Err(Msg("Map keys must be unique"))"#;

#[test]
fn keys_are_unique_in_any_order(rt: HostRuntime) -> Result<(), Fail> {
    let alloc = rt.alloc();
    for (len, entries, told, spelling) in MAPS {
        is_ended(alloc, map_of_entries(alloc, *len, entries), told, spelling)?;
    }
    Ok(())
}

#[test]
fn shorter_keys_come_first(rt: HostRuntime) -> Result<(), Fail> {
    let alloc = rt.alloc();
    let a = "a".repeat(alloc, 256)?;
    let z = "z".repeat(alloc, 255)?;
    let entries = &[
        (a.as_str(), 0),
        (z.as_str(), 0),
        (&a[..24], 0),
        (&z[..23], 0),
    ];
    let parts: &[&[u8]] = &[
        b"\xa4\x77",
        &z.as_bytes()[..23],
        b"\x00\x78\x18",
        &a.as_bytes()[..24],
        b"\x00\x78\xff",
        z.as_bytes(),
        b"\x00\x79\x01\x00",
        a.as_bytes(),
        b"\x00",
    ];
    let wanted = joined(alloc, parts)?;
    agree(wanted.len(), 571)?;
    is_ended(
        alloc,
        map_of_entries(alloc, None, entries),
        "Ok(())",
        &wanted,
    )
}
