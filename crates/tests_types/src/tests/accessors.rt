//! A `Deserializer` after a refusal, and the parts of a list, a map and an enum one by one.

use serde_ipld_dagcbor::{DecodeError, Deserializer, EnumAccessor, SliceReader};
use std::alloc::Global;
use std::borrow::CowStr;
use std::convert::Infallible;
use std::test::Fail;
use tests_shared::{agree, is_told};

#[test]
fn a_refusal_of_a_typed_read_lasts(rt: HostRuntime) -> Result<(), Fail> {
    let alloc = rt.alloc();
    let mut de = Deserializer::from_slice(b"\x18\x17\x01");
    let answers = (de.deserialize_u8(), de.deserialize_u8());
    let told = r#"(Err(NonMinimal { name: "u8", found: 24 }), Err(Failed))"#;
    is_told(alloc, &answers, told)?;
    let mut de = Deserializer::from_slice(b"\x01\x02");
    let answers = (de.deserialize_u8(), de.end(), de.deserialize_u8(), de.end());
    is_told(alloc, &answers, "(Ok(1), Err(TrailingData), Ok(2), Ok(()))")
}

/// Returns a list's size hint, its first item, and the result of an end before its second item.
fn begun_list(
    alloc: Global,
    de: &mut Deserializer<'_, SliceReader<'_>>,
) -> Result<
    (
        Option<usize>,
        Option<u8>,
        Result<(), DecodeError<Infallible>>,
    ),
    DecodeError<Infallible>,
> {
    let mut items = de.deserialize_seq()?;
    let hint = items.size_hint();
    let first: Option<u8> = items.next_element(alloc, de)?;
    Ok((hint, first, items.end(de)))
}

/// Returns whether a key is lent, and is this text.
fn is_lent_key(key: &Option<CowStr<'_>>, wanted: &str) -> bool {
    match key {
        Some(CowStr::Borrowed(lent)) => *lent == wanted,
        _ => false,
    }
}

/// Returns whether a map's key is "a" and lent, whether a value is then owed, and the value. The
/// map then ends.
fn one_entry(
    alloc: Global,
    de: &mut Deserializer<'_, SliceReader<'_>>,
) -> Result<(bool, bool, u8), DecodeError<Infallible>> {
    let mut entries = de.deserialize_map()?;
    let key = entries.next_key(alloc, de)?;
    let is_lent = is_lent_key(&key, "a");
    let owes_value = entries.is_map() && entries.owes_value();
    if !owes_value {
        return Err(DecodeError::custom("no value is owed"));
    }
    let value: u8 = entries.next_value(alloc, de)?;
    entries.end(de)?;
    Ok((is_lent, owes_value, value))
}

#[test]
fn items_and_entries_one_by_one(rt: HostRuntime) -> Result<(), Fail> {
    let mut de = Deserializer::from_slice(b"\x82\x01\x02");
    let items = begun_list(rt.alloc(), &mut de);
    is_told(
        rt.alloc(),
        &(items, de.end()),
        r#"(Ok((Some(2), Some(1), Err(LengthMismatch { name: "array", expect: 1, value: 2 }))), Err(Failed))"#,
    )?;
    let mut de = Deserializer::from_slice(b"\xa1\x61a\x01");
    let entry = one_entry(rt.alloc(), &mut de);
    is_told(
        rt.alloc(),
        &(entry, de.end()),
        "(Ok((true, true, 1)), Ok(()))",
    )
}

#[test]
fn an_enum_begins_with_a_text_or_with_a1(rt: HostRuntime) -> Result<(), Fail> {
    let alloc = rt.alloc();
    let mut de = Deserializer::from_slice(b"\xa1\x61B\x01");
    let (name, variant) = EnumAccessor::enum_(&mut de)?.variant(alloc, &mut de)?;
    agree(name.as_str(), "B")?;
    let part: u8 = variant.newtype_variant(alloc, &mut de)?;
    is_told(alloc, &(part, de.end()), "(1, Ok(()))")?;
    // The text is left, and is read as the name. No step is spent, because none is left.
    let mut de = Deserializer::from_slice_reader(SliceReader::with_depth(b"\x61A", 0));
    let (name, variant) = EnumAccessor::enum_(&mut de)?.variant(alloc, &mut de)?;
    agree(name.as_str(), "A")?;
    is_told(
        alloc,
        &(variant.unit_variant(&mut de), de.end()),
        "(Ok(()), Ok(()))",
    )?;
    for (bytes, told) in [
        (
            b"\xa2".as_slice(),
            r#"Some(Mismatch { name: "enum", found: 162 })"#,
        ),
        (
            b"\x01".as_slice(),
            r#"Some(Mismatch { name: "enum", found: 1 })"#,
        ),
        (
            b"".as_slice(),
            r#"Some(Eof { name: "enum", expect: Small(1) })"#,
        ),
    ] {
        let mut de = Deserializer::from_slice(bytes);
        is_told(alloc, &EnumAccessor::enum_(&mut de).err(), told)?;
    }
    Ok(())
}
