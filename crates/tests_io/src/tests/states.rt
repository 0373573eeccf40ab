//! The state of a `Deserializer`, a `Serializer` and their devices between calls.

use serde_ipld_dagcbor::{
    BufWriter, DecodeError, Deserializer, EncodeError, Message, Name, Serializer, SliceReader,
    Write,
};
use std::alloc::{AllocError, Global};
use std::convert::Infallible;
use std::fmt::Display;
use std::test::Fail;
use tests_shared::{agree, is_told};
use tests_shared_reads::{FaultyWriter, Pieces};

/// Reads an item and the end after it, twice, and returns the answers as text.
fn twice(alloc: Global, bytes: &[u8]) -> Result<String, AllocError> {
    let mut de = Deserializer::from_slice(bytes);
    let first = (de.deserialize_any(alloc), de.end());
    let second = (de.deserialize_any(alloc), de.end());
    format!(in alloc; "{first:?} {second:?}")
}

/// Bytes, and the answers of two items and the ends after them.
const TWICE: &[(&[u8], &str)] = &[
    (
        b"\x18\x17\x01",
        r#"(Err(NonMinimal { name: "u64", found: 24 }), Err(Failed)) (Err(Failed), Err(Failed))"#,
    ),
    (
        b"\x01\x02",
        "(Ok(Integer(1)), Err(TrailingData)) (Ok(Integer(2)), Ok(()))",
    ),
];

#[test]
fn a_refusal_lasts_and_trailing_data_changes_nothing(rt: HostRuntime) -> Result<(), Fail> {
    for (bytes, told) in TWICE {
        agree(twice(rt.alloc(), bytes)?.as_str(), *told)?;
    }
    Ok(())
}

/// Reads three items and the end after them from a reader that shows `size` bytes a fill, and
/// returns the answers as text.
fn three_items(alloc: Global, bytes: &[u8], size: usize) -> Result<String, AllocError> {
    let mut de = Deserializer::from_reader(Pieces::new(bytes, size));
    let items = (
        de.deserialize_any(alloc),
        de.deserialize_any(alloc),
        de.deserialize_any(alloc),
        de.end(),
    );
    format!(in alloc; "{items:?}")
}

#[test]
fn fills_of_any_size_read_the_same(rt: HostRuntime) -> Result<(), Fail> {
    let alloc = rt.alloc();
    let input =
        b"\x1b\x00\x00\x00\x01\x00\x00\x00\x00\x6a\x61\xc3\xa2\xc3\xb8\xe2\x86\x93\xc3\xa9\xf6";
    let told = r#"(Ok(Integer(4294967296)), Ok(String("aâø↓é")), Ok(Null), Ok(()))"#;
    for size in [1, 3, 64] {
        agree(three_items(alloc, input, size)?.as_str(), told)?;
    }
    // An announced length reserves no memory.
    let input = b"\x5b\xff\xff\xff\xff\xff\xff\xff\xffab";
    let mut de = Deserializer::from_reader(Pieces::new(input, 1));
    let cut = r#"Err(Eof { name: "bytes", expect: Big })"#;
    is_told(alloc, &de.deserialize_any(alloc), cut)?;
    let mut de = Deserializer::from_reader(SliceReader::new(b"\x43abc"));
    is_told(alloc, &de.deserialize_any(alloc), "Ok(Bytes([97, 98, 99]))")
}

/// Fails if a read whose reader faults at this fill, and the end after it, give any other answers.
fn text_and_end(alloc: Global, fill: u64, told: &str) -> Result<(), Fail> {
    let mut de = Deserializer::from_reader(Pieces::failing(b"\x62ab", 1, fill));
    let answer = de.deserialize_any(alloc);
    is_told(alloc, &(answer, de.end()), told)
}

#[test]
fn a_fault_is_passed_on_and_lasts(rt: HostRuntime) -> Result<(), Fail> {
    // Fill by fill: the first byte for the item's kind, the head, the two bytes after it.
    for fill in 1..5 {
        text_and_end(rt.alloc(), fill, "(Err(Read(7)), Err(Failed))")?;
    }
    text_and_end(rt.alloc(), 5, r#"(Ok(String("ab")), Err(Read(7)))"#)
}

#[test]
fn a_fault_of_a_writer_leaves_a_beginning(rt: HostRuntime) -> Result<(), Fail> {
    let mut writer = FaultyWriter::new(rt.alloc(), 1);
    let mut ser = Serializer::new(&mut writer);
    let refused = ser.serialize_str("abc");
    let _ = ser.into_inner();
    is_told(rt.alloc(), &refused, "Err(Write(9))")?;
    agree(writer.held(), b"\x63".as_slice())?;
    let mut writer = BufWriter::new(Vec::from_slice(rt.alloc(), b"ab")?);
    writer.clear();
    writer.push(b"c")?;
    agree(writer.into_inner().as_slice(), b"c".as_slice())
}

#[test]
fn data_is_for_no_human(rt: HostRuntime) -> Result<(), Fail> {
    let ser = Serializer::new(BufWriter::new(Vec::new(rt.alloc())));
    agree(ser.is_human_readable(), false)?;
    agree(Deserializer::from_slice(b"").is_human_readable(), false)
}

#[test]
fn names(rt: HostRuntime) -> Result<(), Fail> {
    // Thirty bytes and a character of two bytes, which does not fit whole.
    agree(
        Name::new("aaaaaaaaaaaaaaaaaaaaaaaaaaaaaaé").as_str(),
        "aaaaaaaaaaaaaaaaaaaaaaaaaaaaaa",
    )?;
    agree(Name::new("map key"), Name::new("map key"))?;
    is_told(rt.alloc(), &Name::new("any"), r#""any""#)?;
    is_shown(rt.alloc(), &Name::new("any"), "any")
}

/// Fails if the value is displayed as another text.
fn is_shown<T: Display>(alloc: Global, value: &T, wanted: &str) -> Result<(), Fail> {
    let text = format!(in alloc; "{value}")?;
    agree(text.as_str(), wanted)
}

#[test]
fn messages(rt: HostRuntime) -> Result<(), Fail> {
    let alloc = rt.alloc();
    // Sixty-two bytes and a character of two bytes, which does not fit whole.
    agree(
        Message::new("aaaaaaaaaaaaaaaaaaaaaaaaaaaaaaaaaaaaaaaaaaaaaaaaaaaaaaaaaaaaaaé").as_str(),
        "aaaaaaaaaaaaaaaaaaaaaaaaaaaaaaaaaaaaaaaaaaaaaaaaaaaaaaaaaaaaaa",
    )?;
    agree(Message::new("any"), Message::new("any"))?;
    agree(Message::new("any") != Message::new("all"), true)?;
    is_told(alloc, &Message::new("any"), r#""any""#)?;
    is_shown(alloc, &Message::new("any"), "any")?;
    let own: DecodeError<Infallible> = DecodeError::custom("no such thing");
    is_shown(alloc, &own, r#"Msg("no such thing")"#)?;
    let own: EncodeError<Infallible> = EncodeError::custom("no such thing");
    is_shown(alloc, &own, r#"Msg("no such thing")"#)
}
