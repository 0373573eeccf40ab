//! Values of the library's types, read from each kind of reader.

use serde_ipld_dagcbor::{Bytes, Cid, IgnoredAny, Ipld, from_slice};
use std::alloc::Global;
use std::collections::{BTreeMap, HashMap};
use std::test::Fail;
use tests_shared::{LINK, agree};
use tests_shared_reads::answers;

/// A type of the library.
enum Type {
    Bool,
    Char,
    U8,
    U64,
    U128,
    I8,
    I64,
    I128,
    Text,
    Bytes,
    Cid,
    Any,
    Ignored,
    List,
    Twins,
    SortedMap,
    HashedMap,
}

/// Fails if reading the bytes as this type, from any kind of reader, gives a result other than
/// `told`, as text.
fn reads(alloc: Global, as_type: &Type, bytes: &[u8], told: &str) -> Result<(), Fail> {
    match as_type {
        Type::Bool => answers::<bool>(alloc, bytes, told),
        Type::Char => answers::<char>(alloc, bytes, told),
        Type::U8 => answers::<u8>(alloc, bytes, told),
        Type::U64 => answers::<u64>(alloc, bytes, told),
        Type::U128 => answers::<u128>(alloc, bytes, told),
        Type::I8 => answers::<i8>(alloc, bytes, told),
        Type::I64 => answers::<i64>(alloc, bytes, told),
        Type::I128 => answers::<i128>(alloc, bytes, told),
        Type::Text => answers::<String>(alloc, bytes, told),
        Type::Bytes => answers::<Bytes>(alloc, bytes, told),
        Type::Cid => answers::<Cid>(alloc, bytes, told),
        Type::Any => answers::<Ipld>(alloc, bytes, told),
        Type::Ignored => answers::<IgnoredAny>(alloc, bytes, told),
        Type::List => answers::<Vec<u8>>(alloc, bytes, told),
        Type::Twins => answers::<(u8, u8)>(alloc, bytes, told),
        Type::SortedMap => answers::<BTreeMap<String, u8>>(alloc, bytes, told),
        Type::HashedMap => answers::<HashMap<String, u8>>(alloc, bytes, told),
    }
}

const NUMBERS: &[(Type, &[u8], &str)] = &[
    (Type::U8, b"\x17", "Ok(23)"),
    (Type::U8, b"\x18\xff", "Ok(255)"),
    (
        Type::U8,
        b"\x18\x17",
        r#"Err(NonMinimal { name: "u8", found: 24 })"#,
    ),
    (
        Type::U8,
        b"\x19\x01\x00",
        r#"Err(CastOverflow { name: "u8" })"#,
    ),
    (Type::U8, b"\x20", r#"Err(CastOverflow { name: "u8" })"#),
    (Type::U8, b"\x01\x02", "Err(TrailingData)"),
    (Type::I8, b"\x38\x80", r#"Err(CastOverflow { name: "i8" })"#),
];

/// Numbers as byte strings after the tags 2 and 3: 1, -2, and the first beyond what a head can
/// hold.
const BIG_NUMBERS: &[(Type, &[u8], &str)] = &[
    (
        Type::U128,
        b"\xc2\x41\x01",
        r#"Err(Unsupported { name: "u128", found: 194 })"#,
    ),
    (
        Type::U128,
        b"\xc3\x41\x01",
        r#"Err(Unsupported { name: "u128", found: 195 })"#,
    ),
    (
        Type::I128,
        b"\xc2\x41\x01",
        r#"Err(Unsupported { name: "i128", found: 194 })"#,
    ),
    (
        Type::I128,
        b"\xc3\x41\x01",
        r#"Err(Unsupported { name: "i128", found: 195 })"#,
    ),
    (
        Type::U128,
        b"\xc2\x49\x01\x00\x00\x00\x00\x00\x00\x00\x00",
        r#"Err(Unsupported { name: "u128", found: 194 })"#,
    ),
    (
        Type::I128,
        b"\xc3\x49\x01\x00\x00\x00\x00\x00\x00\x00\x00",
        r#"Err(Unsupported { name: "i128", found: 195 })"#,
    ),
    (
        Type::U64,
        b"\xc2\x41\x01",
        r#"Err(Mismatch { name: "u64", found: 194 })"#,
    ),
    (
        Type::I64,
        b"\xc3\x41\x01",
        r#"Err(Mismatch { name: "i64", found: 195 })"#,
    ),
    (
        Type::Any,
        b"\xc2\x41\x01",
        r#"Err(Mismatch { name: "CBOR tag head", found: 194 })"#,
    ),
    (
        Type::Any,
        b"\xc3\x41\x01",
        r#"Err(Mismatch { name: "CBOR tag head", found: 195 })"#,
    ),
];

const LEAVES: &[(Type, &[u8], &str)] = &[
    (
        Type::Char,
        b"\x62ab",
        r#"Err(Msg("Char must be one character"))"#,
    ),
    (
        Type::Text,
        b"\x61\xc3",
        r#"Err(RequireUtf8 { name: "string" })"#,
    ),
    (Type::Text, b"\x7f\x61\x61\xff", "Err(IndefiniteSize)"),
    (Type::Bytes, b"\x5f", "Err(IndefiniteSize)"),
    (
        Type::Bytes,
        LINK,
        r#"Err(Mismatch { name: "bytes", found: 216 })"#,
    ),
    (
        Type::Bool,
        b"\xf8\x20",
        r#"Err(Mismatch { name: "bool", found: 248 })"#,
    ),
    (Type::Cid, b"\xd8\x2a\x40", r#"Err(Msg("Invalid CID"))"#),
    (
        Type::Cid,
        b"\x42\xaf\xfe",
        r#"Err(Mismatch { name: "CBOR tag head", found: 66 })"#,
    ),
];

const PARTS: &[(Type, &[u8], &str)] = &[
    (Type::Any, b"\x81\x01", "Ok(List([Integer(1)]))"),
    (
        Type::List,
        LINK,
        r#"Err(Mismatch { name: "array", found: 216 })"#,
    ),
    (
        Type::List,
        b"\x9f\x67\x72\x65\x71\x75\x69\x72\x65\xff",
        "Err(IndefiniteSize)",
    ),
    (
        Type::Twins,
        b"\x83\x01\x02\x03",
        r#"Err(LengthMismatch { name: "tuple", expect: 2, value: 3 })"#,
    ),
    (Type::Twins, b"\x81\x01", r#"Err(Msg("Too few elements"))"#),
    (
        Type::SortedMap,
        b"\xa2\x61b\x01\x62aa\x02",
        r#"Ok({"aa": 2, "b": 1})"#,
    ),
    (
        Type::SortedMap,
        b"\xa2\x61a\x01\x61a\x02",
        "Err(UnorderedKey)",
    ),
    (
        Type::SortedMap,
        b"\xa2\x61b\x01\x61a\x02",
        "Err(UnorderedKey)",
    ),
    (
        Type::SortedMap,
        b"\xa2\x62aa\x01\x61b\x02",
        "Err(UnorderedKey)",
    ),
    (
        Type::HashedMap,
        b"\xa2\x61a\x01\x61a\x02",
        "Err(UnorderedKey)",
    ),
    (
        Type::HashedMap,
        b"\xa2\x61b\x01\x61a\x02",
        "Err(UnorderedKey)",
    ),
    (
        Type::HashedMap,
        b"\xa2\x62aa\x01\x61b\x02",
        "Err(UnorderedKey)",
    ),
    // Skipped data is read as strictly as data that is kept.
    (Type::Ignored, b"\x82\x01\xa0", "Ok(IgnoredAny)"),
    (Type::Ignored, b"\xa2\x61a\x01\x61b\x05", "Ok(IgnoredAny)"),
    (
        Type::Ignored,
        b"\xa2\x61a\x01\x61b\x18\x05",
        r#"Err(NonMinimal { name: "u64", found: 24 })"#,
    ),
    (
        Type::Ignored,
        b"\xa2\x61b\x01\x61a\x02",
        "Err(UnorderedKey)",
    ),
    (
        Type::Ignored,
        b"\xa2\x61a\x01\x61a\x02",
        "Err(UnorderedKey)",
    ),
    (
        Type::Ignored,
        b"\xa2\x61b\x01\x61a\x18\x05",
        "Err(UnorderedKey)",
    ),
    (
        Type::Ignored,
        b"\xa1\x7f\x61a\xff\x01",
        "Err(IndefiniteSize)",
    ),
    (
        Type::Ignored,
        b"\xa1\x62\xc0\x80\x00",
        r#"Err(RequireUtf8 { name: "map key" })"#,
    ),
];

#[test]
fn values_are_read_or_refused(rt: HostRuntime) -> Result<(), Fail> {
    for rows in [NUMBERS, BIG_NUMBERS, LEAVES, PARTS] {
        each_is_read(rt.alloc(), rows)?;
    }
    Ok(())
}

/// Fails if reading a row's bytes as its type, from any kind of reader, gives a result other than
/// the row's.
fn each_is_read(alloc: Global, rows: &[(Type, &[u8], &str)]) -> Result<(), Fail> {
    for (as_type, bytes, told) in rows {
        reads(alloc, as_type, bytes, told)?;
    }
    Ok(())
}

/// Numbers of each width, in groups of four.
type Numbers = (
    (u8, u16, u32, u64),
    (usize, u128, i8, i16),
    (i32, i64, isize, i128),
);

const OF_NUMBERS: &[u8] =
    b"\x83\x84\x17\x19\xff\xff\x1a\x00\x01\x00\x00\x1b\xff\xff\xff\xff\xff\xff\xff\xff\x84\x00\x18\x18\x38\x7f\x39\x01\x2b\x84\x3a\x01\x67\x9e\x7c\x3b\x7f\xff\xff\xff\xff\xff\xff\xff\x20\x3b\xff\xff\xff\xff\xff\xff\xff\xff";

/// Texts and bytes, values that may be absent, and lists.
type Others = (
    (char, char, String, Bytes),
    (bool, (), Option<Option<u8>>, Option<u8>),
    (Box<u8>, Vec<u8>, (u8,), (u8, bool)),
    ((u8, u8, u8), (u8, u8, u8, u8)),
);

const OF_OTHERS: &[u8] =
    b"\x84\x84\x64\xf0\x9f\x92\x94\x61\x00\x62\xc3\xa9\x42\xaf\xfe\x84\xf5\xf6\xf6\x18\x2a\x84\x07\x83\x01\x02\x03\x81\x01\x82\x01\xf4\x82\x83\x01\x02\x03\x84\x01\x02\x03\x04";

#[test]
fn values_of_each_type_are_read(rt: HostRuntime) -> Result<(), Fail> {
    let told =
        "Ok(((23, 65535, 65536, 18446744073709551615), (0, 24, -128, -300), (-23567997, -9223372036854775808, -1, -18446744073709551616)))";
    answers::<Numbers>(rt.alloc(), OF_NUMBERS, told)?;
    let told =
        r#"Ok((('💔', '\0', "é", Bytes([175, 254])), (true, (), None, Some(42)), (7, [1, 2, 3], (1,), (1, false)), ((1, 2, 3), (1, 2, 3, 4))))"#;
    answers::<Others>(rt.alloc(), OF_OTHERS, told)
}

#[test]
fn parts_of_what_is_read(rt: HostRuntime) -> Result<(), Fail> {
    let alloc = rt.alloc();
    let hashed: HashMap<String, u8> = from_slice(alloc, b"\xa2\x61b\x01\x62aa\x02")?;
    agree((hashed.get("aa").copied(), hashed.len()), (Some(2), 2))?;
    let cid: Cid = from_slice(alloc, b"\xd8\x2a\x49\x00\x01\xce\x01\x9b\x01\x02\x63\xc8")?;
    agree(cid.codec(), 206)?;
    // The bytes of a link after its tag.
    let bytes: Bytes = from_slice(alloc, &LINK[2..])?;
    agree((bytes.0.len(), bytes.0.as_slice()), (37, &LINK[4..]))?;
    let told = format!(in alloc; "Ok(Bytes({:?}))", &LINK[4..])?;
    answers::<Bytes>(alloc, &LINK[2..], &told)
}
