//! Any data in fields, and the data of another format.

use super::{CID, is_refused, is_written_again, link};
use crate::types::Envelope;
use ipld_tree::Cid;
use std::alloc::Global;
use std::collections::BTreeMap;
use std::test::Fail;
use tests_shared::{agree, nested};
use types_serde::{Any, Link, from_slice_owned, to_vec};

pub(super) const ENVELOPE: &[u8] =
    b"\xa5\x63cid\xd8\x2a\x45\x00\x01\x55\x00\x00\x63raw\x42\x09\x08\x64body\xa2\x61a\xa1\x61/\x41\x01\x62zz\x87\x01\x20\xf6\xf5\x41\xff\x61t\xa0\x64data\x82\xd8\x2a\x45\x00\x01\x55\x00\x00\x41x\x64link\xd8\x2a\x45\x00\x01\x55\x00\x00";

/// A list of a map, with a link at each of the keys "b" and "aa", and a number.
const PINS: &[u8] =
    b"\x82\xa2\x61b\xd8\x2a\x45\x00\x01\x55\x00\x00\x62aa\xd8\x2a\x45\x00\x01\x55\x00\x00\x07";

#[test]
fn any_data_goes_both_ways(rt: HostRuntime) -> Result<(), Fail> {
    let alloc = rt.alloc();
    let read: Envelope = from_slice_owned(alloc, ENVELOPE)?;
    agree(read.raw.as_slice(), b"\x09\x08".as_slice())?;
    agree(read.cid, Cid::try_from(CID)?)?;
    agree(to_vec(alloc, &read)?.as_slice(), ENVELOPE)?;
    is_written_again::<(BTreeMap<String, Link>, Option<Any>)>(alloc, PINS)
}

/// The deepest block is read. With one more list it is not a block.
#[test]
fn any_data_is_as_deep_as_a_block(rt: HostRuntime) -> Result<(), Fail> {
    let alloc = rt.alloc();
    is_written_again::<Any>(alloc, &nested(alloc, b"\x81", 127, b"\x80")?)?;
    let deeper = nested(alloc, b"\x81", 128, b"\x80")?;
    is_refused::<Any>(alloc, &deeper, r#"NoBlock(DepthOverflow { name: "any" })"#)
}

/// Fails if data from JSON is written as other JSON.
fn is_told_again(alloc: Global, told: &str) -> Result<(), Fail> {
    let read: Any = serde_json::from_str(alloc, told)?;
    agree(serde_json::to_string(alloc, &read)?.as_str(), told)
}

const JSON: &str = r#"{"a":{"/":[1,85,0,0]},"b":[1,-2,null,true,"t",{}]}"#;

const OF_JSON: &[u8] =
    b"\xa2\x61a\xd8\x2a\x45\x00\x01\x55\x00\x00\x61b\x86\x01\x21\xf6\xf5\x61t\xa0";

/// A link in JSON is read as a link, and other maps with the key `/` as maps.
#[test]
fn any_data_goes_through_json(rt: HostRuntime) -> Result<(), Fail> {
    let alloc = rt.alloc();
    let read: Any = serde_json::from_str(alloc, JSON)?;
    agree(to_vec(alloc, &read)?.as_slice(), OF_JSON)?;
    let rows = &[
        JSON,
        r#"{"/":"x"}"#,
        r#"{"/":[1,85,0]}"#,
        r#"{"/":[1,85,0,0],"a":1}"#,
    ];
    for told in rows {
        is_told_again(alloc, told)?;
    }
    agree(serde_json::from_str::<Any>(alloc, "1.5").is_err(), true)
}

/// In JSON a link is a map with its name, and is read back from that.
#[test]
fn a_link_goes_through_json(rt: HostRuntime) -> Result<(), Fail> {
    let alloc = rt.alloc();
    let text = serde_json::to_string(alloc, &link()?)?;
    agree(text.as_str(), r#"{"/":[1,85,0,0]}"#)?;
    let again: Link = serde_json::from_str(alloc, text.as_str())?;
    agree(again, link()?)
}
