//! Trees, read and written: the examples of the format.

use serde_ipld_dagcbor::{IgnoredAny, Ipld, check_slice, from_slice};
use std::test::Fail;
use tests_shared::{agree, is_told, joined, nested};
use tests_shared_reads::{beginnings_are_cut, is_refused, is_written_again, tells};

const TREES: &[(&[u8], &str)] = &[
    (b"\x17", "Ok(Integer(23))"),
    (b"\x18\x18", "Ok(Integer(24))"),
    (b"\x18\xff", "Ok(Integer(255))"),
    (b"\x19\x01\x00", "Ok(Integer(256))"),
    (b"\x19\xff\xff", "Ok(Integer(65535))"),
    (b"\x1a\x00\x01\x00\x00", "Ok(Integer(65536))"),
    (
        b"\x1b\x00\x00\x00\x01\x00\x00\x00\x00",
        "Ok(Integer(4294967296))",
    ),
    (b"\x39\x01\x2b", "Ok(Integer(-300))"),
    (
        b"\x3b\xff\xff\xff\xff\xff\xff\xff\xff",
        "Ok(Integer(-18446744073709551616))",
    ),
    (b"\x3a\x01\x67\x9e\x7c", "Ok(Integer(-23567997))"),
    (b"\x1a\x05\xe2\xbe\x12", "Ok(Integer(98745874))"),
    (b"\x38\xff", "Ok(Integer(-256))"),
    (b"\x39\x01\x00", "Ok(Integer(-257))"),
    (
        b"\x3b\x7f\xff\xff\xff\xff\xff\xff\xff",
        "Ok(Integer(-9223372036854775808))",
    ),
    (
        b"\x3b\xa5\xf7\x02\xb3\xa5\xf7\x02\xb3",
        "Ok(Integer(-11959030306112471732))",
    ),
    (b"\x39\x07\xde", "Ok(Integer(-2015))"),
    (b"\x1a\x00\xbc\x61\x4e", "Ok(Integer(12345678))"),
    (b"\x00", "Ok(Integer(0))"),
    (b"\xf6", "Ok(Null)"),
    (b"\xf4", "Ok(Bool(false))"),
    (b"\xf5", "Ok(Bool(true))"),
    (b"\x66foobar", r#"Ok(String("foobar"))"#),
    (
        b"\x6a\x61\xc3\xa2\xc3\xb8\xe2\x86\x93\xc3\xa9",
        r#"Ok(String("aâø↓é"))"#,
    ),
    (b"\x46foobar", "Ok(Bytes([102, 111, 111, 98, 97, 114]))"),
    (b"\x42\xaf\xfe", "Ok(Bytes([175, 254]))"),
    (b"\x80", "Ok(List([]))"),
    (b"\xa0", "Ok(Map({}))"),
    (
        b"\x83\x01\x02\x03",
        "Ok(List([Integer(1), Integer(2), Integer(3)]))",
    ),
    (
        b"\x82\x01\x82\x02\x81\x03",
        "Ok(List([Integer(1), List([Integer(2), List([Integer(3)])])]))",
    ),
    (b"\x82\x17\x18\x2a", "Ok(List([Integer(23), Integer(42)]))"),
    (
        b"\x84\x17\x18\x2a\x64\xf0\x9f\x91\x8c\xf4",
        r#"Ok(List([Integer(23), Integer(42), String("👌"), Bool(false)]))"#,
    ),
    (
        b"\x85\x1b\x00\x00\x00\x1c\xbe\x99\x1d\xc7\x3b\x00\x7a\xcf\x51\xdc\x51\x70\xdb\x3a\x1b\x3a\x06\xdd\xf5\xf6",
        "Ok(List([Integer(123456789959), Integer(-34567897654325468), Integer(-456787678), Bool(true), Null]))",
    ),
    (
        b"\xa2\x61\x61\x01\x61\x62\x82\x02\x03",
        r#"Ok(Map({"a": Integer(1), "b": List([Integer(2), Integer(3)])}))"#,
    ),
    (
        b"\x82\x01\xa1\x61\x61\x61\x62",
        r#"Ok(List([Integer(1), Map({"a": String("b")})]))"#,
    ),
    (
        b"\xa3\x61\x61\x01\x61\x62\x02\x63\x61\x62\x63\x03",
        r#"Ok(Map({"a": Integer(1), "abc": Integer(3), "b": Integer(2)}))"#,
    ),
    // Properties of three languages: 103 bytes.
    (
        b"\xa3\x62js\x83\x6blightweight\x6binterpreted\x6fobject-oriented\x64rust\x83\x64safe\x6aconcurrent\x64fast\x66python\x83\x68powerful\x68friendly\x64open",
        r#"Ok(Map({"js": List([String("lightweight"), String("interpreted"), String("object-oriented")]), "python": List([String("powerful"), String("friendly"), String("open")]), "rust": List([String("safe"), String("concurrent"), String("fast")])}))"#,
    ),
];

#[test]
fn trees_are_read_and_written(rt: HostRuntime) -> Result<(), Fail> {
    for (bytes, told) in TREES {
        tells::<Ipld>(rt.alloc(), bytes, told)?;
        is_written_again(rt.alloc(), bytes)?;
        beginnings_are_cut(rt.alloc(), bytes)?;
    }
    Ok(())
}

/// The bytes that are repeated 127 times, the bytes after them, and the kind of the whole.
const WITHIN: &[(&[u8], &[u8], &str)] = &[
    (b"\x81", b"\x80", "Ok(List)"),
    (b"\x81", b"\x00", "Ok(List)"),
    (b"\xa1\x60", b"\xa0", "Ok(Map)"),
];

#[test]
fn what_is_within_the_steps_is_read(rt: HostRuntime) -> Result<(), Fail> {
    let alloc = rt.alloc();
    for (piece, end, kind) in WITHIN {
        let bytes = nested(alloc, piece, 127, end)?;
        is_written_again(alloc, &bytes)?;
        tells::<IgnoredAny>(alloc, &bytes, "Ok(IgnoredAny)")?;
        is_told(alloc, &check_slice(&bytes), kind)?;
    }
    // The steps of 300 items are given back.
    let nulls = b"\xf6".repeat(alloc, 300)?;
    is_written_again(alloc, &joined(alloc, &[b"\x99\x01\x2c", &nulls])?)
}

/// The bytes that are repeated 128 times, and the bytes after them.
const BEYOND: &[(&[u8], &[u8])] = &[
    (b"\x81", b"\x80"),
    (b"\x81", b"\x00"),
    (b"\x81", b""),
    (b"\xa1\x60", b"\xa0"),
];

#[test]
fn what_is_beyond_the_steps_is_refused(rt: HostRuntime) -> Result<(), Fail> {
    let alloc = rt.alloc();
    for (piece, end) in BEYOND {
        let bytes = nested(alloc, piece, 128, end)?;
        is_refused(alloc, &bytes, r#"DepthOverflow { name: "any" }"#)?;
    }
    // A typed read takes steps only for lists.
    let bytes = nested(alloc, b"\x81", 128, b"\x00")?;
    agree(from_slice::<Vec<Ipld>>(alloc, &bytes).is_ok(), true)
}

/// Blocks, and the steps that reading them as an `Ipld` takes.
const NEEDS: &[(&[u8], u64)] = &[
    (b"\xf6", 1),
    (b"\x80", 2),
    (b"\xa0", 2),
    (b"\x81\x00", 3),
    (b"\x82\x00\x81\x80", 6),
    (b"\xa2\x61a\x81\x00\x61b\x00", 5),
];

#[test]
fn a_tree_is_cloned_and_says_its_need(rt: HostRuntime) -> Result<(), Fail> {
    let alloc = rt.alloc();
    let other = Ipld::Integer(1);
    for (bytes, need) in NEEDS {
        let tree: Ipld = from_slice(alloc, bytes)?;
        let copy = tree.try_clone(alloc)?;
        agree(
            (copy == tree, copy == other, copy.depth_need()),
            (true, false, *need),
        )?;
    }
    Ok(())
}
