//! Values without a spelling, and bytes that a type does not accept.

use super::{is_read, is_refused, is_written_again};
use crate::types::{Even, Plain, Point, Renamed, Shape, Twice};
use serde::{DeserializeOwned, Serialize};
use std::alloc::Global;
use std::collections::BTreeMap;
use std::test::Fail;
use tests_shared::is_told;
use types_serde::{ByteBuf, Link, to_vec};

/// A map of one entry, whose key is that of a link in JSON.
const SLASH: &[u8] = b"\xa1\x61\x2f\x44\x01\x55\x00\x00";

const PINNED: &[u8] = b"\xd8\x2a\x45\x00\x01\x55\x00\x00";

/// Checks that the type does not accept the bytes of any row, with the row's error.
fn each_is_refused<T: DeserializeOwned>(alloc: Global, rows: &[(&[u8], &str)]) -> Result<(), Fail> {
    for (bytes, told) in rows {
        is_refused::<T>(alloc, bytes, told)?;
    }
    Ok(())
}

/// Checks that the value has no spelling, with this error.
fn is_unwritten<T: Serialize>(alloc: Global, value: &T, told: &str) -> Result<(), Fail> {
    is_told(alloc, &to_vec(alloc, value), told)
}

#[test]
fn what_has_no_spelling_is_refused(rt: HostRuntime) -> Result<(), Fail> {
    let alloc = rt.alloc();
    is_unwritten(alloc, &1.5f64, "Err(Float)")?;
    is_unwritten(alloc, &(1u8, 1.5f32), "Err(Float)")?;
    is_unwritten(alloc, &(1u128 << 64), "Err(OutOfRange)")?;
    is_unwritten(alloc, &(-1 - (1i128 << 64)), "Err(OutOfRange)")?;
    let mut numbered = BTreeMap::new(alloc);
    numbered.insert(1u8, 2u8)?;
    is_unwritten(alloc, &numbered, "Err(KeyIsNoText)")?;
    let twice = Twice {
        b: 1,
        rest: Plain { b: 2 },
    };
    is_unwritten(alloc, &twice, "Err(RepeatedKey)")
}

const NUMBERS: &[(&[u8], &str)] = &[
    (
        b"\x18\x17",
        r#"NoBlock(NonMinimal { name: "u64", found: 24 })"#,
    ),
    (b"\x01\x02", "NoBlock(TrailingData)"),
    (b"\x61a", "Misfit { cause: Mismatch(97), at: 0 }"),
    (b"\x20", "Misfit { cause: OutOfRange, at: 0 }"),
    (b"\x19\x01\x00", "Misfit { cause: Invalid, at: 3 }"),
    (b"\xf6", "Misfit { cause: Mismatch(246), at: 0 }"),
    (b"\x82\x01\x02", "Misfit { cause: Mismatch(130), at: 0 }"),
    (PINNED, "Misfit { cause: Mismatch(216), at: 0 }"),
];

const STRUCTS: &[(&[u8], &str)] = &[
    (
        b"\xa1\x61a\x01",
        r#"Misfit { cause: MissingField("b"), at: 4 }"#,
    ),
    // A struct with named fields is not read from a list.
    (b"\x81\x01", "Misfit { cause: Mismatch(129), at: 0 }"),
];

const POINTS: &[(&[u8], &str)] = &[
    (b"\x81\x01", "Misfit { cause: WrongLength, at: 2 }"),
    (b"\x83\x01\x02\x03", "Misfit { cause: WrongLength, at: 3 }"),
];

#[test]
fn what_no_type_accepts_is_refused(rt: HostRuntime) -> Result<(), Fail> {
    let alloc = rt.alloc();
    each_is_refused::<u8>(alloc, NUMBERS)?;
    each_is_refused::<Plain>(alloc, STRUCTS)?;
    each_is_refused::<Point>(alloc, POINTS)?;
    is_refused::<char>(alloc, b"\x62ab", "Misfit { cause: Invalid, at: 3 }")?;
    is_refused::<Even>(alloc, b"\x05", r#"Misfit { cause: Custom("odd"), at: 1 }"#)?;
    let unknown = "Misfit { cause: UnknownField, at: 8 }";
    is_refused::<Renamed>(alloc, b"\xa1\x66FOURTH\x01", unknown)?;
    // An unknown field is skipped.
    let skipping = b"\xa2\x61a\x81\xa1\x61y\x80\x61b\x05";
    is_read(alloc, skipping, &Plain { b: 5 })
}

const SHAPES: &[(&[u8], &str)] = &[
    (b"\x65arrow", "Misfit { cause: UnknownVariant, at: 6 }"),
    (
        b"\xa1\x65arrow\x01",
        "Misfit { cause: UnknownVariant, at: 7 }",
    ),
    (b"\x66circle", "Misfit { cause: Invalid, at: 7 }"),
    (
        b"\xa2\x63dot\xf6\x66circle\x01",
        "Misfit { cause: Invalid, at: 13 }",
    ),
    (b"\x81\x63dot", "Misfit { cause: Mismatch(129), at: 0 }"),
    (b"\x66circle\x07", "NoBlock(TrailingData)"),
];

#[test]
fn variants_that_are_none_are_refused(rt: HostRuntime) -> Result<(), Fail> {
    each_is_refused::<Shape>(rt.alloc(), SHAPES)?;
    is_read(rt.alloc(), b"\xa1\x63dot\xf6", &Shape::Dot)
}

/// A map with that name is not a link, and a link is not such a map.
#[test]
fn no_other_value_is_a_link(rt: HostRuntime) -> Result<(), Fail> {
    let alloc = rt.alloc();
    is_written_again::<BTreeMap<String, ByteBuf>>(alloc, SLASH)?;
    let refused = "Misfit { cause: Mismatch(216), at: 0 }";
    is_refused::<BTreeMap<String, ByteBuf>>(alloc, PINNED, refused)?;
    is_refused::<ByteBuf>(alloc, PINNED, refused)?;
    is_refused::<Link>(alloc, SLASH, "Misfit { cause: Mismatch(97), at: 1 }")
}
