//! Calls of a `Serializer` and of its collectors that neither the library's types nor those by hand
//! make, and the state that they show.

use crate::tests::maps::{Ended, LARGE, is_ended};
use dagcbor_core::EncodeError;
use dagcbor_heads::BufWriter;
use dagcbor_write::{Field, Serializer, write_struct};
use std::alloc::Global;
use std::convert::Infallible;
use std::test::Fail;
use tests_shared::agree;

/// The answer of calls.
type Answer = Result<(), EncodeError<Infallible>>;

/// Returns a refusal if this is false.
fn holds(is_so: bool) -> Answer {
    if is_so {
        return Ok(());
    }
    Err(EncodeError::custom("a collector tells another state"))
}

fn a_tuple_struct(alloc: Global, ser: &mut Serializer<BufWriter>) -> Answer {
    let mut fields = ser.serialize_tuple_struct(alloc, "Single", 1)?;
    let left = fields.left();
    fields.serialize_field(&4u8)?;
    fields.end()?;
    holds(left == 1)
}

fn no_fields(alloc: Global, ser: &mut Serializer<BufWriter>) -> Answer {
    let fields = ser.serialize_struct(alloc, "Empty", 0)?;
    let is_complete = fields.is_complete();
    fields.end()?;
    holds(is_complete)
}

fn a_map(alloc: Global, ser: &mut Serializer<BufWriter>) -> Answer {
    let mut map = ser.serialize_map(alloc, None);
    map.serialize_entry(&"b", &2u8)?;
    let before = map.has_key();
    map.serialize_key(&'a')?;
    let following = map.has_key() && !map.is_complete();
    map.serialize_value(&1u8)?;
    map.end()?;
    holds(!before && following)
}

fn a_list(alloc: Global, ser: &mut Serializer<BufWriter>) -> Answer {
    let mut list = ser.serialize_seq(alloc, None)?;
    let left = list.left();
    list.serialize_element(&1u8)?;
    list.serialize_element(&2u8)?;
    list.serialize_element(&3u8)?;
    list.end()?;
    holds(left == None)
}

fn an_announced_list(alloc: Global, ser: &mut Serializer<BufWriter>) -> Answer {
    let mut list = ser.serialize_seq(alloc, Some(2))?;
    list.serialize_element(&1u8)?;
    let left = list.left();
    list.serialize_element(&"a")?;
    let last = list.left();
    list.end()?;
    holds(left == Some(1) && last == Some(0))
}

/// A sequence of calls.
enum Calls {
    Structs,
    Map,
    List,
    AnnouncedList,
}

fn called(alloc: Global, calls: &Calls, ser: &mut Serializer<BufWriter>) -> Answer {
    match calls {
        Calls::Structs => {
            ser.serialize_unit_struct("Unit")?;
            a_tuple_struct(alloc, ser)?;
            no_fields(alloc, ser)
        }
        Calls::Map => a_map(alloc, ser),
        Calls::List => a_list(alloc, ser),
        Calls::AnnouncedList => an_announced_list(alloc, ser),
    }
}

const CALLS: &[(Calls, &[u8])] = &[
    (Calls::Structs, b"\xf6\x81\x04\xa0"),
    (Calls::Map, b"\xa2\x61a\x01\x61b\x02"),
    (Calls::List, b"\x83\x01\x02\x03"),
    (Calls::AnnouncedList, b"\x82\x01\x61a"),
];

#[test]
fn each_call_appends(rt: HostRuntime) -> Result<(), Fail> {
    for (calls, spelling) in CALLS {
        let mut ser = Serializer::new(BufWriter::new(Vec::new(rt.alloc())));
        called(rt.alloc(), calls, &mut ser)?;
        agree(ser.into_inner().buffer(), spelling)?;
    }
    Ok(())
}

fn a_large_element(alloc: Global) -> Result<Ended, EncodeError<Infallible>> {
    let mut ser = Serializer::new(BufWriter::new(Vec::new(alloc)));
    let mut list = ser.serialize_seq(alloc, None)?;
    let answer = list.serialize_element(&LARGE);
    drop(list);
    Ok((answer, ser.into_inner().into_inner()))
}

fn a_large_element_of_one(alloc: Global) -> Result<Ended, EncodeError<Infallible>> {
    let mut ser = Serializer::new(BufWriter::new(Vec::new(alloc)));
    let mut list = ser.serialize_seq(alloc, Some(1))?;
    let answer = list.serialize_element(&LARGE);
    drop(list);
    Ok((answer, ser.into_inner().into_inner()))
}

fn a_large_field_of_a_row(alloc: Global) -> Result<Ended, EncodeError<Infallible>> {
    let mut ser = Serializer::new(BufWriter::new(Vec::new(alloc)));
    let fields = (Field("a", &1u8), (Field("b", &LARGE), ()));
    let answer = write_struct(alloc, fields, &mut ser);
    Ok((answer, ser.into_inner().into_inner()))
}

#[test]
fn parts_without_a_spelling(rt: HostRuntime) -> Result<(), Fail> {
    let alloc = rt.alloc();
    let waits = r#"Err(Msg("List element cannot be serialized"))"#;
    is_ended(alloc, a_large_element(alloc), waits, b"")?;
    let announced = r#"Err(Msg("Unsigned integer must be within [0, u64::MAX] range"))"#;
    is_ended(alloc, a_large_element_of_one(alloc), announced, b"\x81")?;
    let field = r#"Err(Msg("Struct value cannot be serialized."))"#;
    is_ended(alloc, a_large_field_of_a_row(alloc), field, b"")
}
