//! Records whose unknown fields are kept. A separate encoder made the blocks.

use super::{is_refused, is_written_again};
use crate::types::{Around, Beside, Item, Late, Post, Record, Shared};
use ipld_tree::{Cid, Ipld};
use std::alloc::Global;
use std::collections::BTreeMap;
use std::test::Fail;
use tests_shared::{LINK, agree, is_told, joined};
use types_serde::{Any, Rest, from_slice_lossless, from_slice_owned, to_vec};

/// Blocks of posts, with the keys that are kept, in the order of their bytes.
const POSTS: &[(&[u8], &str)] = &[
    (b"\xa3\x64text\x62hi\x65$type\x61p\x69createdAt\x61z", "[]"),
    (
        b"\xa6\x60\xf6\x61a\x01\x62zz\x81\xf5\x64text\x62hi\x65$type\x61p\x69createdAt\x61z",
        r#"["", "a", "zz"]"#,
    ),
    (
        b"\xa6\x64tags\x81\x61x\x64text\x62hi\x65$type\x61p\x65langs\x81\x62en\x67unknown\x20\x69createdAt\x61z",
        r#"["langs", "tags", "unknown"]"#,
    ),
    (
        b"\xa5\x64text\x62hi\x65$type\x61p\x69createdAt\x61z\x6aextensions\xa3\x61a\xd8\x2a\x45\x00\x01\x55\x00\x00\x61b\xa1\x60\x81\xa0\x64text\x41\x01\x6cdisplayNames\xa1\x61/\x61x",
        r#"["displayNames", "extensions"]"#,
    ),
    (
        b"\xa5\x61/\xd8\x2a\x45\x00\x01\x55\x00\x00\x64text\x62hi\x65$type\x61p\x65embed\xa2\x65$type\x61q\x66images\x81\xa2\x63ref\xd8\x2a\x45\x00\x01\x55\x00\x00\x64size\x1a\x00\x01\x11\x70\x69createdAt\x61z",
        r#"["/", "embed"]"#,
    ),
    (
        b"\xa7\x61a\x01\x64tags\x81\x61x\x64text\x62hi\x65$type\x61p\x67unknown\xd8\x2a\x45\x00\x01\x55\x00\x00\x69createdAt\x61z\x6aextensions\xa0",
        r#"["a", "extensions", "tags", "unknown"]"#,
    ),
];

/// Checks that the keys of the entries that are kept are these.
fn are_kept(alloc: Global, rest: &Rest, told: &str) -> Result<(), Fail> {
    let mut keys = Vec::new(alloc);
    for (key, _) in rest.entries.0.iter() {
        keys.push(key.as_str())?;
    }
    is_told(alloc, &keys, told)
}

#[test]
fn a_post_keeps_what_it_does_not_name(rt: HostRuntime) -> Result<(), Fail> {
    let alloc = rt.alloc();
    for (block, told) in POSTS {
        let post: Post = from_slice_lossless(alloc, block)?;
        agree(to_vec(alloc, &post)?.as_slice(), *block)?;

        agree(post.text.as_str(), "hi")?;
        are_kept(alloc, &post.rest, told)?;
    }
    Ok(())
}

/// Makes a post with one more entry.
fn post(alloc: Global, key: &str, value: Ipld) -> Result<Post, Fail> {
    let mut rest = BTreeMap::new(alloc);
    rest.insert(String::from_str(alloc, "a")?, Ipld::Integer(1))?;
    rest.insert(String::from_str(alloc, "zzzzzzzzzz")?, Ipld::Null)?;
    rest.insert(String::from_str(alloc, key)?, value)?;
    Ok(Post {
        kind: String::from_str(alloc, "p")?,
        created_at: String::from_str(alloc, "z")?,
        text: String::from_str(alloc, "hi")?,
        rest: Rest::from(rest),
    })
}

/// The entries are in key order, whichever of them are fields.
#[test]
fn a_post_is_written_in_order(rt: HostRuntime) -> Result<(), Fail> {
    let alloc = rt.alloc();
    let tagged = post(alloc, "tags", Ipld::Link(Cid::try_from(super::CID)?))?;
    let block =
        b"\xa6\x61a\x01\x64tags\xd8\x2a\x45\x00\x01\x55\x00\x00\x64text\x62hi\x65$type\x61p\x69createdAt\x61z\x6azzzzzzzzzz\xf6";
    agree(to_vec(alloc, &tagged)?.as_slice(), block.as_slice())
}

#[test]
fn a_key_of_a_field_is_not_written_twice(rt: HostRuntime) -> Result<(), Fail> {
    let alloc = rt.alloc();
    for key in &["text", "$type", "createdAt"] {
        let twice = post(alloc, key, Ipld::Null)?;
        is_told(alloc, &to_vec(alloc, &twice), "Err(RepeatedKey)")?;
    }
    let other = post(alloc, "created_at", Ipld::Null)?;
    agree(to_vec(alloc, &other).is_ok(), true)
}

/// Blocks that are not posts.
const NO_POSTS: &[(&[u8], &str)] = &[
    (
        b"\xa3\x61x\x01\x64text\x62hi\x65$type\x61p",
        r#"Misfit { cause: MissingField("created_at"), at: 20 }"#,
    ),
    (
        b"\xa3\x64text\x07\x65$type\x61p\x69createdAt\x61z",
        "Misfit { cause: Mismatch(7), at: 6 }",
    ),
    (b"\x80", "Misfit { cause: Mismatch(128), at: 0 }"),
    (LINK, "Misfit { cause: Mismatch(216), at: 0 }"),
];

#[test]
fn a_post_has_its_fields(rt: HostRuntime) -> Result<(), Fail> {
    for (block, told) in NO_POSTS {
        is_refused::<Post>(rt.alloc(), block, told)?;
    }
    Ok(())
}

/// Makes a post after `before` entries with keys of one byte, and before `after` entries with keys
/// of ten.
fn wide(alloc: Global, before: u8, after: u8) -> Result<Vec<u8>, Fail> {
    let count = before.saturating_add(after).saturating_add(3);
    let mut block = vec![in alloc; 0xb8u8, count]?;
    for key in 0..before {
        block.extend_from_slice(&[0x61, key, 0x01])?;
    }
    block.extend_from_slice(b"\x64text\x62hi\x65$type\x61p\x69createdAt\x61z")?;
    for key in 0..after {
        block.extend_from_slice(b"\x6azzzzzzzzz")?;
        block.extend_from_slice(&[key, 0x01])?;
    }
    Ok(block)
}

/// Which fields were read is known only for the first 63 entries. A field after these is refused,
/// and no other variant is tried.
#[test]
fn fields_are_among_the_first_entries(rt: HostRuntime) -> Result<(), Fail> {
    let alloc = rt.alloc();
    for (before, after) in [(60, 0), (60, 100), (0, 100), (21, 0)] {
        is_written_again::<Post>(alloc, &wide(alloc, before, after)?)?;
    }
    let refused = r#"Misfit { cause: Custom("a field after the 63rd entry"), at: 201 }"#;
    is_refused::<Post>(alloc, &wide(alloc, 61, 0)?, refused)?;
    is_refused::<Post>(alloc, &wide(alloc, 61, 1)?, refused)?;
    is_refused::<Item>(alloc, &wide(alloc, 61, 1)?, refused)
}

/// The tag is a field of its own.
#[test]
fn a_variant_keeps_what_it_does_not_name(rt: HostRuntime) -> Result<(), Fail> {
    let alloc = rt.alloc();
    let like =
        b"\xa4\x63via\xd8\x2a\x45\x00\x01\x55\x00\x00\x65$type\x64Like\x67subject\x61s\x69createdAt\x61z";
    is_written_again::<Record>(alloc, like)?;
    let Record::Like { rest, .. } = from_slice_owned(alloc, like)? else {
        return Err(Fail::new(format_args!("another variant")));
    };
    are_kept(alloc, &rest, r#"["createdAt", "via"]"#)?;
    is_written_again::<Record>(alloc, b"\xa3\x61a\x01\x65$type\x64Mark\x66zzzzzz\x80")?;
    let items =
        b"\x82\xa2\x64text\x62hi\x65$type\x61p\xa4\x61x\xd8\x2a\x45\x00\x01\x55\x00\x00\x64text\x62hi\x65$type\x61p\x69createdAt\x61z";
    is_written_again::<Vec<Item>>(alloc, items)
}

const SHARED: &[u8] = b"\xa3\x61a\x01\x61b\x02\x61c\xa1\x61b\x03";

/// Each entry goes to one place, the first that takes it.
#[test]
fn what_is_kept_is_kept_once(rt: HostRuntime) -> Result<(), Fail> {
    let alloc = rt.alloc();
    is_written_again::<Shared>(alloc, SHARED)?;
    let shared: Shared = from_slice_owned(alloc, SHARED)?;
    agree(shared.plain.b, 2)?;
    are_kept(alloc, &shared.rest, r#"["a", "c"]"#)?;
    are_kept(alloc, &shared.none, "[]")?;
    let refused = r#"Misfit { cause: MissingField("b"), at: 13 }"#;
    is_refused::<Late>(alloc, SHARED, refused)
}

/// An enum that is flattened does not tell which entries it took, nor does a struct that flattens
/// values of its own. So `Rest` keeps these entries too.
#[test]
fn entries_of_which_nothing_is_told_are_kept_too(rt: HostRuntime) -> Result<(), Fail> {
    let alloc = rt.alloc();
    let block = b"\xa3\x61x\x01\x63cid\xd8\x2a\x45\x00\x01\x55\x00\x00\x64type\x66Pinned";
    let beside: Beside = from_slice_owned(alloc, block)?;
    are_kept(alloc, &beside.rest, r#"["cid", "type", "x"]"#)?;
    is_told(alloc, &to_vec(alloc, &beside), "Err(RepeatedKey)")?;
    let around: Around = from_slice_owned(alloc, SHARED)?;
    are_kept(alloc, &around.rest, r#"["a", "b", "c"]"#)?;
    is_told(alloc, &to_vec(alloc, &around), "Err(RepeatedKey)")
}

/// If nothing else reads the map, all of it is kept.
#[test]
fn the_rest_may_be_all(rt: HostRuntime) -> Result<(), Fail> {
    let alloc = rt.alloc();
    let block = joined(alloc, &[b"\x82\xa2\x61b\x01\x62aa", LINK, b"\xa0"])?;
    is_written_again::<Vec<Rest>>(alloc, &block)?;
    is_written_again::<Vec<Any>>(alloc, &block)
}

const JSON: &str =
    r#"{"$type":"p","createdAt":"z","text":"hi","langs":["en"],"via":{"/":[1,85,0,0]}}"#;

/// In another format, such entries are kept too, after the fields.
#[test]
fn a_post_goes_through_json(rt: HostRuntime) -> Result<(), Fail> {
    let alloc = rt.alloc();
    let post: Post = serde_json::from_str(alloc, JSON)?;
    are_kept(alloc, &post.rest, r#"["langs", "via"]"#)?;
    agree(serde_json::to_string(alloc, &post)?.as_str(), JSON)
}
