//! Examples of most calls that docs/TYPES.md lists. That page has them beside the calls, word for
//! word.

use serde_ipld_dagcbor::codec::DagCborCodec;
use serde_ipld_dagcbor::{
    Codec, Ipld, Kind, Links, any_from_slice, check_slice, from_reader, from_reader_once,
    from_slice, from_slice_with_depth, iter_from_reader, links_from_slice, to_vec, to_writer,
};
use std::collections::BTreeMap;
use std::test::Fail;
use tests_shared::{LINK, agree, is_told};

#[test]
fn a_pair(rt: HostRuntime) -> Result<(), Fail> {
    let alloc = rt.alloc();
    let block = to_vec(alloc, &(-300i16, "a"))?;
    agree(block.as_slice(), b"\x82\x39\x01\x2b\x61a".as_slice())?;
    let pair: (i16, &str) = from_slice(alloc, &block)?;
    agree(pair, (-300, "a"))?;
    let value: Ipld = from_slice(alloc, &block)?;
    is_told(alloc, &value, r#"List([Integer(-300), String("a")])"#)
}

#[test]
fn a_judgement(rt: HostRuntime) -> Result<(), Fail> {
    let alloc = rt.alloc();
    agree(check_slice(b"\x82\x39\x01\x2b\x61a")?, Kind::List)?;
    is_told(alloc, &check_slice(b"\x01\x02"), "Err(TrailingData)")?;
    let place = r#"Err(NonMinimal { name: "u64", found: 24 })"#;
    is_told(alloc, &any_from_slice(alloc, b"\x81\x18\x17"), place)
}

#[test]
fn a_budget(rt: HostRuntime) -> Result<(), Fail> {
    let alloc = rt.alloc();
    let nested = b"\x81\x81\x01";
    let list: Vec<Vec<u8>> = from_slice_with_depth(alloc, nested, 2)?;
    agree(list.len(), 1)?;
    let shallow = from_slice_with_depth::<Vec<Vec<u8>>>(alloc, nested, 1);
    is_told(alloc, &shallow, r#"Err(DepthOverflow { name: "array" })"#)
}

#[test]
fn a_map(rt: HostRuntime) -> Result<(), Fail> {
    let alloc = rt.alloc();
    let mut map = BTreeMap::new(alloc);
    drop(map.insert("aa", 1u8)?);
    drop(map.insert("b", 2u8)?);
    let block = to_vec(alloc, &map)?;
    agree(block.as_slice(), b"\xa2\x61b\x02\x62aa\x01".as_slice())?;
    let back: BTreeMap<String, u8> = from_slice(alloc, &block)?;
    is_told(alloc, &back, r#"{"aa": 1, "b": 2}"#)
}

#[test]
fn a_device(rt: HostRuntime) -> Result<(), Fail> {
    let alloc = rt.alloc();
    let mut device = Vec::new(alloc);
    to_writer(alloc, &mut device, &(1u8, "a"))?;
    to_writer(alloc, &mut device, &2u8)?;
    agree(device.as_slice(), b"\x82\x01\x61a\x02".as_slice())?;
    let mut source = device.as_slice();
    let first: (u8, String) = from_reader_once(alloc, &mut source)?;
    let last: u8 = from_reader(alloc, source)?;
    agree((first.0, first.1.as_str(), last), (1, "a", 2))
}

#[test]
fn a_stream(rt: HostRuntime) -> Result<(), Fail> {
    let alloc = rt.alloc();
    let source = b"\x66foobar\x63baz".as_slice();
    let mut texts = Vec::new(alloc);
    for text in iter_from_reader::<String, _>(alloc, source) {
        texts.push(text?)?;
    }
    is_told(alloc, &texts, r#"["foobar", "baz"]"#)
}

#[test]
fn links(rt: HostRuntime) -> Result<(), Fail> {
    let alloc = rt.alloc();
    let link = LINK;
    let links = links_from_slice(alloc, link)?;
    let Some(first) = links.first() else {
        return Err(Fail::new("no link"));
    };
    agree(first.to_bytes(alloc)?.as_slice(), &link[5..])
}

#[test]
fn a_codec(rt: HostRuntime) -> Result<(), Fail> {
    let alloc = rt.alloc();
    let text = String::from_str(alloc, "hello world!")?;
    let block = DagCborCodec::encode_to_vec(alloc, &text)?;
    let back: String = DagCborCodec::decode_from_slice(alloc, &block)?;
    agree(back.as_str(), "hello world!")?;
    let links = DagCborCodec::links(alloc, &block)?;
    agree(links.count(), 0)
}
