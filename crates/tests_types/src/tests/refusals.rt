//! What is rejected, and with which error, from each kind of reader: also if the bytes are skipped,
//! or only validated.

use serde_ipld_dagcbor::Deserializer;
use std::alloc::Global;
use std::test::Fail;
use tests_shared::{LINK, is_told, joined};
use tests_shared_reads::{Pieces, each_is_refused, is_refused};

const LEAVES: &[(&[u8], &str)] = &[
    (b"\x18\x17", r#"NonMinimal { name: "u64", found: 24 }"#),
    (b"\x38\x05", r#"NonMinimal { name: "any", found: 56 }"#),
    (b"\x58\x17", r#"NonMinimal { name: "bytes", found: 88 }"#),
    (b"\x19\x01", r#"Eof { name: "u64", expect: Small(2) }"#),
    (b"", r#"Eof { name: "any", expect: Small(1) }"#),
    (b"\x62\xc3\x28\xff", r#"RequireUtf8 { name: "string" }"#),
    (b"\xff", "IndefiniteSize"),
    (b"\x1f", "IndefiniteSize"),
    (b"\x9f\x01\x02\x03\xff", "IndefiniteSize"),
    (b"\xf7", r#"Unsupported { name: "any", found: 247 }"#),
    (
        b"\xfb\x00\x00\x00\x00\x00\x00\x00\x00",
        r#"Unsupported { name: "any", found: 251 }"#,
    ),
    (b"\x1c", r#"Unsupported { name: "u64", found: 28 }"#),
    (
        b"\x5b\xff\xff\xff\xff\xff\xff\xff\xff",
        r#"Eof { name: "bytes", expect: Big }"#,
    ),
    (
        b"\x79\xff\xff\x61",
        r#"Eof { name: "string", expect: Small(65535) }"#,
    ),
    (
        b"\x7a\x00\x01\x00\x00\x61",
        r#"Eof { name: "string", expect: Big }"#,
    ),
    (
        b"\x7a\x00\x00\xff\xff\x61",
        r#"NonMinimal { name: "string", found: 122 }"#,
    ),
    (b"\x63\xed\xa0\x80", r#"RequireUtf8 { name: "string" }"#),
    (b"\x7f\x61\x61\xff", "IndefiniteSize"),
    (b"\xf4trailing", "TrailingData"),
];

const TREES: &[(&[u8], &str)] = &[
    (
        b"\x9b\xff\xff\xff\xff\xff\xff\xff\xff",
        r#"Eof { name: "any", expect: Small(1) }"#,
    ),
    (
        b"\x9a\xff\xff\xff\xff",
        r#"Eof { name: "any", expect: Small(1) }"#,
    ),
    (
        b"\xbb\xff\xff\xff\xff\xff\xff\xff\xff",
        r#"Eof { name: "map key", expect: Small(1) }"#,
    ),
    (
        b"\x98\x01\xf6",
        r#"NonMinimal { name: "array", found: 152 }"#,
    ),
    (
        b"\xb8\x01\x60\xf6",
        r#"NonMinimal { name: "map", found: 184 }"#,
    ),
    (
        b"\xa1\x78\x01\x61\x01",
        r#"NonMinimal { name: "map key", found: 120 }"#,
    ),
    (
        b"\xf9\x3e\x00",
        r#"Unsupported { name: "any", found: 249 }"#,
    ),
    (
        b"\xfa\x3f\xc0\x00\x00",
        r#"Unsupported { name: "any", found: 250 }"#,
    ),
    (
        b"\xbf\x61\x61\x01\x61\x62\x9f\x02\x03\xff\xff",
        "IndefiniteSize",
    ),
    (b"\x5f\x42\x01\x23\x42\x45\x67\xff", "IndefiniteSize"),
    (b"\xa2\x61\x62\x01\x61\x61\x02", "UnorderedKey"),
    (b"\xa2\x61\x61\x01\x61\x61\x02", "UnorderedKey"),
    (b"\xa2\x61\x62\x01\x61\x61\x18\x05", "UnorderedKey"),
    (b"\xa1\x7f\x61\x61\xff\x01", "IndefiniteSize"),
    (
        b"\xa1\x62\xc0\x80\x00",
        r#"RequireUtf8 { name: "map key" }"#,
    ),
    (b"\x82\x01", r#"Eof { name: "any", expect: Small(1) }"#),
    (
        b"\x81\xa1\x61\x61",
        r#"Eof { name: "any", expect: Small(1) }"#,
    ),
    (b"\x81\x01\x02", "TrailingData"),
];

const LINKS: &[(&[u8], &str)] = &[
    (b"\xd8\x2a\x40", r#"Msg("Invalid CID")"#),
    (b"\xd8\x2a\x41\x00", r#"Msg("Invalid CID")"#),
    (
        b"\xd8\x2a\x4a\x00\x01\xce\x01\x9b\x01\x02\x63\xc8\x00",
        r#"Msg("Invalid CID")"#,
    ),
    (b"\xd8\x2a\x58\x58", r#"Msg("Invalid CID")"#),
    (
        b"\xd8\x2a\x58\x57",
        r#"Eof { name: "cid", expect: Small(87) }"#,
    ),
    (b"\xd8\x2a\x60", r#"Unsupported { name: "cid", found: 96 }"#),
    (b"\xd8\x2a\x5f", "IndefiniteSize"),
    (
        b"\xd9\x00\x2a\x43\x00\x01\x02",
        r#"Mismatch { name: "CBOR tag head", found: 217 }"#,
    ),
    (
        b"\xd8\x28\x42\x00\x01",
        r#"Mismatch { name: "CBOR tag", found: 40 }"#,
    ),
    (
        b"\xda\x00\x00\x00\x2a\x43\x00\x01\x02",
        r#"Mismatch { name: "CBOR tag head", found: 218 }"#,
    ),
    (
        b"\xdb\x00\x00\x00\x00\x00\x00\x00\x2a\x43\x00\x01\x02",
        r#"Mismatch { name: "CBOR tag head", found: 219 }"#,
    ),
    (b"\xd8", r#"Eof { name: "tag", expect: Small(1) }"#),
    (b"\xd8\x2a", r#"Eof { name: "cid", expect: Small(1) }"#),
];

#[test]
fn refusals_name_their_cause(rt: HostRuntime) -> Result<(), Fail> {
    for rows in [LEAVES, TREES, LINKS] {
        each_is_refused(rt.alloc(), rows)?;
    }
    let tags = [0xd1u8].repeat(rt.alloc(), 1000)?;
    let told = r#"Mismatch { name: "CBOR tag head", found: 209 }"#;
    is_refused(rt.alloc(), &tags, told)
}

/// Bytes that do not begin a link, although they may begin an item.
const NO_LINKS: &[(&[u8], &str)] = &[
    (
        b"\x42\xaf\xfe",
        r#"Mismatch { name: "CBOR tag head", found: 66 }"#,
    ),
    (
        b"\x58\x25\x00\x01\x55\x12\x20\x2c\x26\xb4\x6b\x68\xff\xc6\x8f\xf9\x9b\x45\x3c\x1d\x30\x41\x34\x13\x42\x2d\x70\x64\x83\xbf\xa0\xf9\x8a\x5e\x88\x62\x66\xe7\xae",
        r#"Mismatch { name: "CBOR tag head", found: 88 }"#,
    ),
    (b"", r#"Eof { name: "tag head", expect: Small(1) }"#),
];

#[test]
fn what_begins_no_link_is_refused(rt: HostRuntime) -> Result<(), Fail> {
    for rows in [LINKS, NO_LINKS] {
        each_is_no_link(rt.alloc(), rows)?;
    }
    Ok(())
}

/// Fails unless reading a link from each row's bytes is refused with the row's error, both from a
/// slice and from a reader that shows one byte at a time.
fn each_is_no_link(alloc: Global, rows: &[(&[u8], &str)]) -> Result<(), Fail> {
    for (input, told) in rows {
        let refusal = format!(in alloc; "Some({told})")?;
        let mut slice = Deserializer::from_slice(input);
        is_told(alloc, &slice.deserialize_cid().err(), &refusal)?;
        let mut reader = Deserializer::from_reader(Pieces::new(input, 1));
        is_told(alloc, &reader.deserialize_cid().err(), &refusal)?;
    }
    Ok(())
}

/// Maps whose key is not a text, and the first byte of the key.
const NO_KEYS: &[(&[u8], u8)] = &[
    (b"\xa1\x01\x02", 1),
    (b"\xa1\x01\x18\x05", 1),
    (b"\xa1\x20\x02", 32),
    (b"\xa1\x41\x01\x02", 65),
    (b"\xa1\x80\x02", 128),
    (b"\xa1\xa0\x02", 160),
    (b"\xa1\xd8\x2a\x45\x00\x01\x55\x00\x00\x02", 216),
    (b"\xa1\xf4\x02", 244),
    (b"\xa1\xf5\x02", 245),
    (b"\xa1\xf6\x02", 246),
    (b"\xa1\xfa\x3f\x80\x00\x00\x02", 250),
];

#[test]
fn keys_are_texts(rt: HostRuntime) -> Result<(), Fail> {
    let alloc = rt.alloc();
    for (map, found) in NO_KEYS {
        let told = format!(in alloc; r#"Mismatch {{ name: "map key", found: {found} }}"#)?;
        is_refused(alloc, map, &told)?;
    }
    let map = joined(alloc, &[b"\xa1", LINK, b"\x02"])?;
    is_refused(alloc, &map, r#"Mismatch { name: "map key", found: 216 }"#)
}
