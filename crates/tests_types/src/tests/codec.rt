//! DAG-CBOR as a codec: each call, a caller that knows only the trait, links, errors.

ghost use Rattle.tests_types.specs.ThereAndBack.{IsThereAndBack};

use serde_ipld_dagcbor::codec::DagCborCodec;
use serde_ipld_dagcbor::error::CodecError;
use serde_ipld_dagcbor::{
    Cid, Codec, DAG_CBOR_CODE, DecodeError, Ipld, Links, from_slice, laws, to_vec,
};
use std::alloc::Global;
use std::test::Fail;
use tests_shared::{LINK, THREE_LINKS, agree, is_told, joined};

const HELLO: &[u8] = b"\x6c\x68\x65\x6c\x6c\x6f\x20\x77\x6f\x72\x6c\x64\x21";

/// Encodes the value, and decodes the bytes again.
fn there_and_back<'de, T, C: Codec<'de, T>>(
    alloc: Global,
    value: &T,
) -> Result<(Vec<u8>, T), C::Error>
    ensures { IsThereAndBack C.is_encoding C.is_read C.meaning C.is_excuse (C.data_of value.now) result }
{
    match C::encode_to_vec(alloc, value) {
        Ok(bytes) => match C::decode_from_slice(alloc, &bytes) {
            Ok(back) => Ok((bytes, back)),
            Err(error) => Err(error),
        },
        Err(error) => Err(error),
    }
}

/// Fails if any call writes the text as other bytes.
fn is_written(alloc: Global, text: &String, wanted: &[u8]) -> Result<(), Fail> {
    let mut device = Vec::new(alloc);
    DagCborCodec::encode(alloc, &mut device, text)?;
    agree(device.as_slice(), wanted)?;
    agree(DagCborCodec::encode_to_vec(alloc, text)?.as_slice(), wanted)
}

/// Fails if any call reads the bytes as another text.
fn is_read(alloc: Global, bytes: &[u8], wanted: &str) -> Result<(), Fail> {
    let from_source: Result<String, CodecError> = DagCborCodec::decode(alloc, bytes);
    agree(from_source?.as_str(), wanted)?;
    let from_slice: Result<String, CodecError> = DagCborCodec::decode_from_slice(alloc, bytes);
    agree(from_slice?.as_str(), wanted)
}

#[test]
fn a_text_goes_through_each_call(rt: HostRuntime) -> Result<(), Fail> {
    let alloc = rt.alloc();
    is_written(alloc, &"hello world!".to_owned(alloc)?, HELLO)?;
    is_read(alloc, HELLO, "hello world!")?;
    let text = "hello world!".to_owned(alloc)?;
    let (written, back) = there_and_back::<String, DagCborCodec>(alloc, &text)?;
    agree((written.as_slice(), back.as_str()), (HELLO, "hello world!"))?;
    let codec = DagCborCodec;
    agree(codec, codec.clone()?)?;
    is_told(alloc, &codec, "DagCborCodec")?;
    agree(<DagCborCodec as Codec<String>>::CODE, DAG_CBOR_CODE)?;
    agree(DAG_CBOR_CODE, 0x71)
}

/// Returns the links in the bytes, as a list.
fn links(alloc: Global, bytes: &[u8]) -> Result<Vec<Cid>, CodecError> {
    match DagCborCodec::links(alloc, bytes)?.collect(alloc) {
        Ok(links) => Ok(links),
        Err(_) => Err(CodecError::Decode(DecodeError::OutOfMemory)),
    }
}

/// Fails if other links are found.
fn finds(alloc: Global, bytes: &[u8], wanted: &[Cid]) -> Result<(), Fail> {
    agree(links(alloc, bytes)?.as_slice(), wanted)
}

#[test]
fn links_come_in_their_order_with_repeats(rt: HostRuntime) -> Result<(), Fail> {
    let alloc = rt.alloc();
    let block = joined(alloc, THREE_LINKS)?;
    agree(block.len(), 146)?;
    let link: Cid = from_slice(alloc, LINK)?;
    finds(alloc, &block, &[link, link, link])?;
    // A map with the keys "b" and "aa", and an item after it.
    let block =
        b"\xa2\x61\x62\xd8\x2a\x45\x00\x01\x55\x00\x00\x62\x61\x61\xd8\x2a\x45\x00\x01\x71\x00\x00\xf6";
    let links = &[Cid::new_v1(0x55, 0, b"")?, Cid::new_v1(0x71, 0, b"")?];
    finds(alloc, block, links)?;
    finds(alloc, b"\xf6\x00", &[])
}

/// Fails if the call is not refused, or not with this error.
fn is_refused<T: Drop>(
    alloc: Global,
    refused: Result<T, CodecError>,
    told: &str,
) -> Result<(), Fail> {
    match refused {
        Ok(_value) => Err(Fail::new("not refused")),
        Err(error) => agree(format!(in alloc; "{error}")?.as_str(), told),
    }
}

/// Checks the errors of the calls.
fn refusals(alloc: Global, bytes: &[u8], large: u128) -> Result<(), Fail> {
    is_refused::<Ipld>(
        alloc,
        DagCborCodec::decode_from_slice(alloc, bytes),
        r#"decode io error: Eof { name: "any", expect: Small(1) }"#,
    )?;
    is_refused(
        alloc,
        DagCborCodec::links(alloc, bytes),
        r#"decode error: Eof { name: "any", expect: Small(1) }"#,
    )?;
    is_refused(
        alloc,
        DagCborCodec::encode_to_vec(alloc, &large),
        r#"encode error: Msg("Unsigned integer must be within [0, u64::MAX] range")"#,
    )
}

#[test]
fn errors_have_texts(rt: HostRuntime) -> Result<(), Fail> {
    let large = 1u128 << 64;
    refusals(rt.alloc(), b"\x81", large)?;
    let mut device = Vec::new(rt.alloc());
    is_refused(
        rt.alloc(),
        DagCborCodec::encode(rt.alloc(), &mut device, &large),
        r#"encode io error: Msg("Unsigned integer must be within [0, u64::MAX] range")"#,
    )?;
    agree(device.is_empty(), true)
}

/// `?` turns an error of the calls in memory into one of the codec.
fn written_again(alloc: Global, bytes: &[u8]) -> Result<Vec<u8>, CodecError> {
    let value: Ipld = from_slice(alloc, bytes)?;
    Ok(to_vec(alloc, &value)?)
}

#[test]
fn bytes_are_written_again(rt: HostRuntime) -> Result<(), Fail> {
    agree(written_again(rt.alloc(), HELLO)?.as_slice(), HELLO)?;
    is_refused(
        rt.alloc(),
        written_again(rt.alloc(), b"\x81"),
        r#"decode error: Eof { name: "any", expect: Small(1) }"#,
    )?;
    laws::read_then_written();
    laws::typed_read_then_written::<String>();
    laws::written_then_read();
    laws::typed_written_then_read::<String>();
    Ok(())
}
