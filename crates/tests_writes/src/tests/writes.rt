//! Written values of the library's types.

use dagcbor_write::Serialize;
use ipld_tree::{ByteSlice, Bytes, Cid, Ipld};
use std::alloc::{AllocError, Global};
use std::collections::{BTreeMap, HashMap};
use std::test::Fail;
use tests_shared::{is_unwritten, writes};

/// Numbers of each width, four by four.
const NUMBERS: &[u8] =
    b"\x84\x84\x17\x19\xff\xff\x1a\x00\x01\x00\x00\x1b\xff\xff\xff\xff\xff\xff\xff\xff\x84\x1a\x00\xbc\x61\x4e\x00\x18\x18\x39\x01\x2b\x84\x3a\x01\x67\x9e\x7c\x3b\x7f\xff\xff\xff\xff\xff\xff\xff\x39\x01\x00\x3b\xff\xff\xff\xff\xff\xff\xff\xff\x84\x1a\x05\xe2\xbe\x12\x39\x07\xde\x3b\xa5\xf7\x02\xb3\xa5\xf7\x02\xb3\x20";

/// Leaves, texts and bytes, references and optional values, and lists.
const OTHERS: &[u8] =
    b"\x84\x84\xf5\xf6\x61\x00\x64\xf0\x9f\x92\x94\x84\x66foobar\x62\xc3\xa9\x42\xaf\xfe\x46foobar\x84\x07\x07\xf6\x18\x2a\x84\x83\x01\x02\x03\x83\x01\x02\x03\x82\x81\x01\x82\x01\x61a\x83\x01\x20\xf4";

#[test]
fn values_are_written(rt: HostRuntime) -> Result<(), Fail> {
    let alloc = rt.alloc();
    let numbers = (
        (23u8, 65_535u16, 65_536u32, u64::MAX),
        (12_345_678usize, 0u128, 24i8, -300i16),
        (-23_567_997i32, i64::MIN, -257isize, -(1i128 << 64)),
        (
            98_745_874i32,
            -2015i32,
            -11_959_030_306_112_471_732i128,
            -1i8,
        ),
    );
    writes(alloc, &numbers, NUMBERS)?;
    let octets = byte_string(alloc, b"foobar")?;
    let items: &[i32] = &[1, 2, 3];
    let others = (
        (true, (), '\0', '\u{1f494}'),
        ("foobar", text(alloc, "é")?, ByteSlice(b"\xaf\xfe"), octets),
        (&7u8, Box::new(alloc, 7u8)?, None::<u8>, Some(42u8)),
        (
            items,
            Vec::from_slice(alloc, items)?,
            ((1u8,), (1u8, "a")),
            (1u8, -1i8, false),
        ),
    );
    writes(alloc, &others, OTHERS)
}

fn text(alloc: Global, s: &str) -> Result<String, AllocError> {
    String::from_str(alloc, s)
}

fn byte_string(alloc: Global, bytes: &[u8]) -> Result<Bytes, AllocError> {
    Ok(Bytes(Vec::from_slice(alloc, bytes)?))
}

/// Returns the map from "b" to 1 and from "aa" to 2, whichever is inserted first.
fn hashed(alloc: Global, keys: [&str; 2]) -> Result<HashMap<String, u8>, AllocError> {
    let mut map = HashMap::new(alloc);
    for key in keys {
        drop(map.insert(text(alloc, key)?, if key == "b" { 1 } else { 2 })?);
    }
    Ok(map)
}

/// Returns the map from this key to zero.
fn under_key<K: Ord + Drop>(alloc: Global, key: K) -> Result<BTreeMap<K, u8>, AllocError> {
    let mut map = BTreeMap::new(alloc);
    drop(map.insert(key, 0u8)?);
    Ok(map)
}

#[test]
fn maps_are_written_in_key_order(rt: HostRuntime) -> Result<(), Fail> {
    let alloc = rt.alloc();
    let spelling = b"\xa2\x61b\x01\x62aa\x02";
    writes(alloc, &under_key(alloc, 'c')?, b"\xa1\x61\x63\x00")?;
    writes(alloc, &hashed(alloc, ["b", "aa"])?, spelling)?;
    writes(alloc, &hashed(alloc, ["aa", "b"])?, spelling)
}

/// Fails if a key is accepted as a text.
fn is_no_text<K: Serialize + Ord + Drop>(alloc: Global, key: K) -> Result<(), Fail> {
    is_unwritten(
        alloc,
        &under_key(alloc, key)?,
        r#"Err(Msg("Map keys must be strings"))"#,
    )
}

#[test]
fn keys_are_texts(rt: HostRuntime) -> Result<(), Fail> {
    let alloc = rt.alloc();
    is_no_text(alloc, 1u8)?;
    is_no_text(alloc, -1i8)?;
    is_no_text(alloc, byte_string(alloc, b"a")?)?;
    is_no_text(alloc, Vec::<u8>::new(alloc))?;
    is_no_text(alloc, true)?;
    is_no_text(alloc, ())?;
    is_no_text(alloc, None::<u8>)?;
    is_no_text(alloc, Cid::new_v0([0; 32]))
}

/// Returns the map from 'a' to a number that cannot be encoded.
fn large_value(alloc: Global) -> Result<BTreeMap<char, i128>, AllocError> {
    let mut map = BTreeMap::new(alloc);
    drop(map.insert('a', i128::MAX)?);
    Ok(map)
}

#[test]
fn values_without_a_spelling(rt: HostRuntime) -> Result<(), Fail> {
    let alloc = rt.alloc();
    let unsigned = r#"Err(Msg("Unsigned integer must be within [0, u64::MAX] range"))"#;
    is_unwritten(alloc, &18_446_744_073_709_551_616u128, unsigned)?;
    let signed = r#"Err(Msg("Integer must be within [-u64::MAX-1, u64::MAX] range"))"#;
    is_unwritten(alloc, &Ipld::Integer(18_446_744_073_709_551_616), signed)?;
    is_unwritten(alloc, &Ipld::Integer(-18_446_744_073_709_551_617), signed)?;
    let key = r#"Err(Msg("Map key cannot be serialized."))"#;
    is_unwritten(alloc, &under_key(alloc, i128::MAX)?, key)?;
    let value = r#"Err(Msg("Struct value cannot be serialized."))"#;
    is_unwritten(alloc, &large_value(alloc)?, value)
}
