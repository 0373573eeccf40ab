//! Types written by hand only to test the library: written, and read from each kind of reader.

mod data_enum;
mod enum_struct;
mod kinded;
mod my_struct;
mod newtype;
mod one;
mod one_by_loop;
mod second;
mod tagged;
mod variant_fields;

use data_enum::DataEnum;
use enum_struct::{Enum, EnumStruct};
use kinded::Kinded;
use my_struct::MyStruct;
use newtype::{Externally, Newtype};
use one::One;
use one_by_loop::read_one_by_loop;
use second::Second;
use serde_ipld_dagcbor::{Bytes, Cid, Deserializer};
use std::alloc::Global;
use std::test::Fail;
use tagged::CidInInternallyTaggedEnum;
use tests_shared::{LINK, agree, is_told, joined, writes};
use tests_shared_reads::answers;

/// A type by hand.
enum Type {
    One,
    MyStruct,
    EnumStruct,
    Enum,
    Enums,
    DataEnum,
    Second,
    Newtype,
    Externally,
    Kinded,
    Tagged,
}

/// Fails if reading the bytes as this type, from any kind of reader, gives a result other than
/// `told`, as text.
fn reads(alloc: Global, as_type: &Type, bytes: &[u8], told: &str) -> Result<(), Fail> {
    match as_type {
        Type::One => answers::<One>(alloc, bytes, told),
        Type::MyStruct => answers::<MyStruct>(alloc, bytes, told),
        Type::EnumStruct => answers::<EnumStruct>(alloc, bytes, told),
        Type::Enum => answers::<Enum>(alloc, bytes, told),
        Type::Enums => answers::<Vec<Enum>>(alloc, bytes, told),
        Type::DataEnum => answers::<DataEnum>(alloc, bytes, told),
        Type::Second => answers::<Second>(alloc, bytes, told),
        Type::Newtype => answers::<Newtype>(alloc, bytes, told),
        Type::Externally => answers::<Externally>(alloc, bytes, told),
        Type::Kinded => answers::<Kinded>(alloc, bytes, told),
        Type::Tagged => answers::<CidInInternallyTaggedEnum>(alloc, bytes, told),
    }
}

const ROWS: &[(Type, &[u8], &str)] = &[
    (Type::One, b"\xa1\x61a\x01", "Ok(One { a: 1 })"),
    (Type::One, b"\xa2\x61a\x01\x61b\x05", "Ok(One { a: 1 })"),
    // Skipped data is read strictly.
    (
        Type::One,
        b"\xa2\x61a\x01\x61b\x18\x05",
        r#"Err(NonMinimal { name: "u64", found: 24 })"#,
    ),
    (Type::One, b"\xa1\x61b\x01", r#"Err(Msg("missing field"))"#),
    (Type::One, b"\xa2\x61a\x01\x61a\x02", "Err(UnorderedKey)"),
    (Type::One, b"\xa2\x61b\x01\x61a\x02", "Err(UnorderedKey)"),
    (Type::One, b"\xa2\x62aa\x01\x61b\x02", "Err(UnorderedKey)"),
    (Type::Newtype, b"\x18\x8e", "Ok(Newtype(142))"),
    (Type::Enum, b"\x61A", "Ok(A)"),
    (Type::Enum, b"\x61B", "Ok(B)"),
    (
        Type::EnumStruct,
        b"\xa1\x61e\x61B",
        "Ok(EnumStruct { e: B })",
    ),
    (Type::Enums, b"\x82\x61A\x61B", "Ok([A, B])"),
    (Type::Enums, b"\x9f\x67require\xff", "Err(IndefiniteSize)"),
    (Type::DataEnum, b"\xa1\x61A\x04", "Ok(A(4))"),
    (Type::DataEnum, b"\xa1\x61B\x82\xf5\x05", "Ok(B(true, 5))"),
    (
        Type::DataEnum,
        b"\xa1\x61C\xa2\x61x\x06\x61y\x61z",
        r#"Ok(C { x: 6, y: "z" })"#,
    ),
    (
        Type::DataEnum,
        b"\x61A\x04",
        r#"Err(Mismatch { name: "enum", found: 97 })"#,
    ),
    (
        Type::DataEnum,
        b"\xa1\x61C\xa1\x61x\x06",
        r#"Err(Msg("missing field"))"#,
    ),
    (
        Type::Second,
        b"\xa1\x64Data\xa3\x61a\x01\x61b\x02\x63abc\x03",
        "Ok(Data { b: 2, abc: 3, a: 1 })",
    ),
    (Type::Kinded, b"\x41a", "Ok(Bytes(Bytes([97])))"),
    (
        Type::Kinded,
        b"\x61a",
        r#"Err(Msg("No matching enum variant found"))"#,
    ),
    (
        Type::Tagged,
        b"\xa1\x64type\x65MyCid",
        r#"Err(Msg("missing field"))"#,
    ),
    (Type::Tagged, b"\xa0", r#"Err(Msg("missing field"))"#),
];

/// The parts of a block with a link, and what it is read as. The CID replaces `#`.
const LINKED: &[(Type, &[&[u8]], &str)] = &[
    (
        Type::MyStruct,
        &[b"\xa2\x63cid", LINK, b"\x64data\xf5"],
        "Ok(MyStruct { cid: #, data: true })",
    ),
    (
        Type::MyStruct,
        &[b"\xa2\x64data\xf5\x63cid", LINK],
        "Err(UnorderedKey)",
    ),
    (Type::Externally, &[b"\xa1\x63Cid", LINK], "Ok(Cid(#))"),
    (Type::Kinded, &[LINK], "Ok(Link(#))"),
    (
        Type::Tagged,
        &[b"\xa2\x63cid", LINK, b"\x64type\x65MyCid"],
        "Ok(MyCid { cid: # })",
    ),
    (
        Type::Tagged,
        &[b"\xa2\x63cid", LINK, b"\x64type\x65Other"],
        r#"Err(Msg("No matching enum variant found"))"#,
    ),
];

/// A link with a hash of two bytes.
const SHORT_LINK: &[u8] = b"\xd8\x2a\x49\x00\x01\xce\x01\x9b\x01\x02\x63\xc8";

#[test]
fn values_by_hand_are_read(rt: HostRuntime) -> Result<(), Fail> {
    let alloc = rt.alloc();
    for (as_type, bytes, told) in ROWS {
        reads(alloc, as_type, bytes, told)?;
    }
    let texts = b"\x61x".repeat(alloc, 1000)?;
    let long = joined(alloc, &[b"\xa2\x61a\x01\x61b\x99\x03\xe8", &texts])?;
    reads(alloc, &Type::One, &long, "Ok(One { a: 1 })")?;
    let mut de = Deserializer::from_slice(b"\xa2\x61a\x01\x61b\x05");
    let one = read_one_by_loop(alloc, &mut de);
    is_told(alloc, &(one, de.end()), "(Ok(One { a: 1 }), Ok(()))")
}

#[test]
fn links_in_values_by_hand_are_read(rt: HostRuntime) -> Result<(), Fail> {
    let alloc = rt.alloc();
    let cid = Cid::new_v1(0x55, 0x12, &LINK[9..])?;
    let text = format!(in alloc; "{cid:?}")?;
    for (as_type, parts, told) in LINKED {
        let told = told.replace(alloc, "#", &text)?;
        reads(alloc, as_type, &joined(alloc, parts)?, &told)?;
    }
    let cid = Cid::new_v1(206, 155, b"\x63\xc8")?;
    let told = format!(in alloc; "Ok(Link({cid:?}))")?;
    reads(alloc, &Type::Kinded, SHORT_LINK, &told)
}

#[test]
fn values_by_hand_are_written(rt: HostRuntime) -> Result<(), Fail> {
    let alloc = rt.alloc();
    writes(alloc, &One { a: 1 }, b"\xa1\x61a\x01")?;
    writes(alloc, &Newtype(142), b"\x18\x8e")?;
    writes(alloc, &EnumStruct { e: Enum::A }, b"\xa1\x61e\x61A")?;
    writes(alloc, &EnumStruct { e: Enum::B }, b"\xa1\x61e\x61B")?;
    writes(alloc, &DataEnum::A(4), b"\xa1\x61A\x04")?;
    writes(alloc, &DataEnum::B(true, 5), b"\xa1\x61B\x82\xf5\x05")?;
    let y = String::from_str(alloc, "z")?;
    let spelling = b"\xa1\x61C\xa2\x61x\x06\x61y\x61z";
    writes(alloc, &DataEnum::C { x: 6, y }, spelling)?;
    let spelling = b"\xa1\x64Data\xa3\x61a\x01\x61b\x02\x63abc\x03";
    writes(alloc, &Second::Data { b: 2, abc: 3, a: 1 }, spelling)?;
    let bytes = Bytes(Vec::from_slice(alloc, b"a")?);
    writes(alloc, &Kinded::Bytes(bytes), b"\x41a")
}

#[test]
fn links_in_values_by_hand_are_written(rt: HostRuntime) -> Result<(), Fail> {
    let alloc = rt.alloc();
    let cid = Cid::new_v1(206, 155, b"\x63\xc8")?;
    writes(alloc, &Kinded::Link(cid), SHORT_LINK)?;
    let named = joined(alloc, &[b"\xa1\x63Cid", SHORT_LINK])?;
    writes(alloc, &Externally::Cid(cid), &named)?;
    let cid = Cid::new_v1(0x55, 0x12, &LINK[9..])?;
    let fields = joined(alloc, &[b"\xa2\x63cid", LINK, b"\x64data\xf5"])?;
    agree(fields.len(), 52)?;
    writes(alloc, &MyStruct { cid, data: true }, &fields)
}
