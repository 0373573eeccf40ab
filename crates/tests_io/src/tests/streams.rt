//! Streams of values.

ghost use Rattle.std.specs.Prelude.{◌+◌, ◌≤◌, length, IfOk, List, Option, true};
ghost use Rattle.serde_ipld_dagcbor.specs.Streams.{AreStreamItems, AreUpTo};

use serde_ipld_dagcbor::{
    DecodeError, Deserialize, Deserializer, IoReader, Ipld, Read, SliceReader, StreamDeserializer,
    from_slice, iter_from_reader, laws,
};
use std::alloc::{AllocError, Global};
use std::convert::Infallible;
use std::fmt::Debug;
use std::test::Fail;
use tests_shared::{Source, agree, is_told, joined};
use tests_shared_reads::Pieces;

/// Fails if anything else comes next, as text.
fn comes<'de, T: Deserialize<'de> + Debug, R: Read>(
    alloc: Global,
    stream: &mut StreamDeserializer<'de, R, T>,
    told: &str,
) -> Result<(), Fail>
where
    R::Error: Debug,
{
    is_told(alloc, &stream.next(), told)
}

/// Fails if anything but these texts comes, in order, and then the end.
fn gives<'de, T: Deserialize<'de> + Debug, R: Read>(
    alloc: Global,
    mut stream: StreamDeserializer<'de, R, T>,
    told: &[&str],
) -> Result<(), Fail>
where
    R::Error: Debug,
{
    for item in told {
        comes(alloc, &mut stream, item)?;
    }
    comes(alloc, &mut stream, "None")
}

/// Fails if readers of the bytes give any other texts.
fn gives_texts(alloc: Global, bytes: &[u8], told: &[&str]) -> Result<(), Fail> {
    gives(alloc, iter_from_reader::<String, _>(alloc, bytes), told)?;
    let reader = Deserializer::from_reader(IoReader::new(bytes));
    gives(alloc, reader.into_iter::<String>(alloc), told)?;
    let slice = Deserializer::from_slice(bytes);
    gives(alloc, slice.into_iter::<String>(alloc), told)
}

#[test]
fn texts_one_after_the_other(rt: HostRuntime) -> Result<(), Fail> {
    let told = &[r#"Some(Ok("foobar"))"#, r#"Some(Ok("baz"))"#];
    gives_texts(rt.alloc(), b"\x66foobar\x63baz", told)?;
    let refused = r#"Some(Err(Eof { name: "string", expect: Small(3) }))"#;
    let told = &[r#"Some(Ok("foobar"))"#, refused];
    gives_texts(rt.alloc(), b"\x66foobar\x63ba", told)
}

/// Fails if a fault at this fill is not the only and last item.
fn is_fault(alloc: Global, fill: u64) -> Result<(), Fail> {
    let reader = Pieces::failing(b"\x83\x01\x02\x03", 1, fill);
    let stream = Deserializer::from_reader(reader).into_iter::<Ipld>(alloc);
    gives(alloc, stream, &["Some(Err(Read(7)))"])
}

#[test]
fn a_fault_is_the_last(rt: HostRuntime) -> Result<(), Fail> {
    for fill in 1..7 {
        is_fault(rt.alloc(), fill)?;
    }
    Ok(())
}

#[test]
fn a_refusal_is_the_last(rt: HostRuntime) -> Result<(), Fail> {
    let alloc = rt.alloc();
    let stream = Deserializer::from_slice(b"\x18\x17\x01").into_iter::<u8>(alloc);
    let refused = r#"Some(Err(NonMinimal { name: "u8", found: 24 }))"#;
    gives(alloc, stream, &[refused])?;
    let mut de = Deserializer::from_slice(b"\x18\x17");
    agree(de.deserialize_u8().is_err(), true)?;
    gives(alloc, de.into_iter::<u8>(alloc), &["Some(Err(Failed))"])?;
    // A list whose head was read.
    let mut de = Deserializer::from_slice(b"\x82\x01\x02\x01");
    agree(de.deserialize_seq().is_ok(), true)?;
    let items = &["Some(Ok(1))", "Some(Ok(2))", "Some(Ok(1))"];
    gives(alloc, de.into_iter::<u8>(alloc), items)
}

/// Returns how many items come from the bytes. The iterator's contract says that it ends.
fn how_many(alloc: Global, bytes: &[u8]) -> usize
    ensures { result ≤ length bytes.now + 1 }
{
    Deserializer::from_slice(bytes)
        .into_iter::<u8>(alloc)
        .count()
}

/// Returns the items that come from the bytes: by the law, the stream of the type on them.
fn items_of<'a, T: Deserialize<'a>>(
    alloc: Global,
    bytes: &'a [u8],
) -> Result<Vec<Result<T, DecodeError<Infallible>>>, AllocError>
    ensures { IfOk result (λ v. (items : List (Option T.View)) → AreStreamItems T.shape 256 bytes.now items
        → AreUpTo T.meaning T.shape true true v.items items) }
{
    laws::streams_exact::<T, SliceReader>();
    Deserializer::from_slice(bytes)
        .into_iter::<T>(alloc)
        .collect(alloc)
}

/// Returns whether the items are these two values.
fn are(items: &[Result<Ipld, DecodeError<Infallible>>], one: &Ipld, other: &Ipld) -> bool {
    match items {
        [Ok(first), Ok(second)] => first == one && second == other,
        _ => false,
    }
}

/// Returns whether a source that shows few bytes a fill gives these two values, and nothing more.
fn gives_two(alloc: Global, bytes: &[u8], one: &Ipld, other: &Ipld) -> bool {
    let mut stream = iter_from_reader::<Ipld, _>(alloc, Source::new(bytes, 64));
    match (stream.next(), stream.next(), stream.next()) {
        (Some(Ok(first)), Some(Ok(second)), None) => first == *one && second == *other,
        _ => false,
    }
}

/// Fails if the two blocks, one after the other, give a stream other than the two.
pub(crate) fn is_split(alloc: Global, first: &[u8], second: &[u8]) -> Result<(), Fail> {
    let bytes = joined(alloc, &[first, second])?;
    let one: Ipld = from_slice(alloc, first)?;
    let other: Ipld = from_slice(alloc, second)?;
    let are_two = are(&items_of::<Ipld>(alloc, &bytes)?, &one, &other);
    agree((first, second, are_two), (first, second, true))?;
    let gives_two = gives_two(alloc, &bytes, &one, &other);
    agree((first, second, gives_two), (first, second, true))
}

#[test]
fn a_stream_is_an_iterator(rt: HostRuntime) -> Result<(), Fail> {
    let alloc = rt.alloc();
    laws::stream_unique::<u8>();
    let items = items_of::<u8>(alloc, b"\x01\x02\x20\x03")?;
    let told = r#"[Ok(1), Ok(2), Err(CastOverflow { name: "u8" })]"#;
    is_told(alloc, &items, told)?;
    agree(how_many(alloc, b"\x01\x02\x20\x03"), 3)?;
    agree(how_many(alloc, b"\x01\x02"), 2)?;
    agree(how_many(alloc, b""), 0)
}
