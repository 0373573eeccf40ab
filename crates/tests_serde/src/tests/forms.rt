//! The forms of a derive, with the bytes that serde_ipld_dagcbor 0.7.0 writes for them in Rust,
//! unless docs/TYPES.md says otherwise. A separate encoder made the bytes. Each row is a list of
//! values.

use super::{CID, goes_both_ways, is_read, is_written_again, link};
use crate::types::{
    Adjacent, Either, Even, Flat, Level, Metres, Plain, Point, Renamed, Shape, Side, Tagged, Unit,
    Wrapper,
};
use ipld_tree::Ipld;
use serde::DeserializeOwned;
use std::alloc::Global;
use std::collections::{BTreeMap, BTreeSet};
use std::fmt::Debug;
use std::test::Fail;
use tests_shared::{agree, is_told};
use types_serde::{Any, ByteBuf, from_slice_owned, to_vec};

#[test]
fn types_of_std_have_one_form(rt: HostRuntime) -> Result<(), Fail> {
    let alloc = rt.alloc();
    let numbers = b"\x84\xf5\x39\x01\x00\x18\xff\x38\x7f";
    is_written_again::<(bool, isize, usize, i8)>(alloc, numbers)?;
    let ends =
        b"\x84\x1b\xff\xff\xff\xff\xff\xff\xff\xff\x3b\x7f\xff\xff\xff\xff\xff\xff\xff\x1b\xff\xff\xff\xff\xff\xff\xff\xff\x3b\xff\xff\xff\xff\xff\xff\xff\xff";
    is_written_again::<(u64, i64, u128, i128)>(alloc, ends)?;
    let texts = b"\x84\x61\x00\x62\xc3\xa9\xf6\xf6";
    is_written_again::<(char, char, (), Unit)>(alloc, texts)?;
    is_written_again::<(Option<u8>, Option<u8>, Box<u8>)>(alloc, b"\x83\xf6\x05\x04")?;
    let lists = b"\x84\x82\x01\xf5\x83\x01\x02\x03\x82\x01\x03\x82\x09\x08";
    is_written_again::<((u8, bool), [u8; 3], BTreeSet<u8>, Vec<u8>)>(alloc, lists)?;
    // As in Rust, the outer `Option` takes the null.
    is_told(alloc, &to_vec(alloc, &Some(None::<u8>)), "Ok([246])")?;
    is_shown::<Option<Option<u8>>>(alloc, b"\xf6", "Ok(None)")
}

/// Checks that the bytes are read as this value, as text.
fn is_shown<T: DeserializeOwned + Debug>(
    alloc: Global,
    bytes: &[u8],
    told: &str,
) -> Result<(), Fail> {
    is_told(alloc, &from_slice_owned::<T>(alloc, bytes), told)
}

/// Chars and variants are keys of maps, and are written in key order.
#[test]
fn keys_are_chars_and_variants(rt: HostRuntime) -> Result<(), Fail> {
    let bytes = b"\x82\xa2\x64Left\x01\x65Right\x02\xa2\x61a\x02\x62\xc3\xa9\x01";
    is_written_again::<(BTreeMap<Side, u8>, BTreeMap<char, u8>)>(rt.alloc(), bytes)
}

#[test]
fn structs_without_names_are_lists(rt: HostRuntime) -> Result<(), Fail> {
    let wrapper = Wrapper {
        inner: Point(1, -1),
    };
    let structs = (Metres(7), Point(1, -1), wrapper);
    goes_both_ways(rt.alloc(), &structs, b"\x83\x07\x82\x01\x20\x82\x01\x20")
}

#[test]
fn types_go_through_others(rt: HostRuntime) -> Result<(), Fail> {
    goes_both_ways(rt.alloc(), &(Level { height: 3 }, Even(4)), b"\x82\x03\x04")
}

/// Makes a struct whose third field is left out or made if it is absent, as the second is.
fn renamed(second: u8, third: u8, fifth: Option<u8>) -> Renamed {
    Renamed {
        first_name: 1,
        second,
        third,
        fourth: 0,
        fifth,
    }
}

#[test]
fn fields_have_other_names(rt: HostRuntime) -> Result<(), Fail> {
    let alloc = rt.alloc();
    let whole = b"\xa4\x65FIFTH\x05\x65THIRD\x03\x65other\x02\x6aFIRST-NAME\x01";
    goes_both_ways(alloc, &renamed(2, 3, Some(5)), whole)?;
    let left_out = b"\xa3\x65THIRD\x03\x65other\x02\x6aFIRST-NAME\x01";
    goes_both_ways(alloc, &renamed(2, 3, None), left_out)?;
    let old = b"\xa2\x63old\x03\x6aFIRST-NAME\x01";
    is_read(alloc, old, &renamed(0, 3, None))?;
    is_read(alloc, b"\xa1\x6aFIRST-NAME\x01", &renamed(0, 7, None))
}

const SHAPES: &[u8] =
    b"\x84\x63dot\xa1\x66circle\x07\xa1\x64line\x82\x20\x01\xa1\x69turn_left\xa1\x69byDegrees\x18\x5a";

const ADJACENT: &[u8] =
    b"\x83\xa1\x61t\x64Unit\xa2\x61c\x82\x01\x02\x61t\x63Two\xa2\x61c\xa1\x61b\x02\x61t\x65Whole";

#[test]
fn variants_are_told_apart(rt: HostRuntime) -> Result<(), Fail> {
    let shapes = (
        Shape::Dot,
        Shape::Circle(7),
        Shape::Line(-1, 1),
        Shape::TurnLeft { by_degrees: 90 },
    );
    goes_both_ways(rt.alloc(), &shapes, SHAPES)?;
    let adjacent = (
        Adjacent::Unit,
        Adjacent::Two(1, 2),
        Adjacent::Whole(Plain { b: 2 }),
    );
    goes_both_ways(rt.alloc(), &adjacent, ADJACENT)
}

const TAGGED: &[u8] =
    b"\x83\xa1\x64type\x65Empty\xa2\x61b\x02\x64type\x65Whole\xa2\x63cid\xd8\x2a\x45\x00\x01\x55\x00\x00\x64type\x66Pinned";

const EITHER: &[u8] =
    b"\x83\x44\x01\x55\x00\x00\xd8\x2a\x45\x00\x01\x55\x00\x00\x82\xd8\x2a\x45\x00\x01\x55\x00\x00\x01";

/// A link in data that is read twice stays a link. A byte string is not read as a link, nor a link
/// as bytes.
#[test]
fn links_stay_links_in_variants(rt: HostRuntime) -> Result<(), Fail> {
    let alloc = rt.alloc();
    let tagged = (
        Tagged::Empty,
        Tagged::Whole(Plain { b: 2 }),
        Tagged::Pinned { cid: link()? },
    );
    goes_both_ways(alloc, &tagged, TAGGED)?;
    is_read(alloc, b"\xa2\x61q\x01\x64type\x61x", &Tagged::Unknown)?;
    let octets = ByteBuf(Vec::from_slice(alloc, CID)?);
    let either = (
        Either::Octets(octets),
        Either::Pinned(link()?),
        Either::Pair(link()?, 1),
    );
    goes_both_ways(alloc, &either, EITHER)
}

const FLAT: &[u8] =
    b"\xa4\x61b\x02\x61z\xa2\x61/\x01\x61c\x80\x63cid\xd8\x2a\x45\x00\x01\x55\x00\x00\x64type\x66Pinned";

/// The entries inside `Any` data stay there.
#[test]
fn flattened_maps_are_put_in_order(rt: HostRuntime) -> Result<(), Fail> {
    let alloc = rt.alloc();
    let read: Flat = from_slice_owned(alloc, FLAT)?;
    let told = r#"Any(Map({"/": Integer(1), "c": List([])}))"#;
    is_told(alloc, &read.z, told)?;
    agree(read.more.b, 2)?;
    goes_both_ways(alloc, &read, FLAT)?;
    let empty = Flat {
        tagged: Tagged::Empty,
        z: Any(Ipld::Integer(3)),
        more: Plain { b: 4 },
    };
    goes_both_ways(alloc, &empty, b"\xa3\x61b\x04\x61z\x03\x64type\x65Empty")
}
