//! Paths in a block. The rows come from a separate program in Python, which walks over decoded
//! data.

use dagcbor_decode::Kind;
use ipld_paths::find_slice;
use std::test::Fail;
use tests_shared::agree;

/// The kind of an item, where it begins, and its length.
pub(super) type Place = (Kind, usize, usize);

/// A map with an array and these keys: digits, a slash, an empty key, and one that is not ASCII.
const DOC: &[u8] =
    b"\xa6\x60\x65\x65\x6d\x70\x74\x79\x61\x30\x63\x6b\x65\x79\x61\x61\x86\xa3\x60\x07\x61\x30\
    \x64\x7a\x65\x72\x6f\x61\x62\x62\x68\x69\x82\x01\x82\x02\x22\xf6\xf5\x42\x78\x79\xd8\x2a\
    \x58\x25\x00\x01\x71\x12\x20\x4b\xf5\x12\x2f\x34\x45\x54\xc5\x3b\xde\x2e\xbb\x8c\xd2\xb7\
    \xe3\xd1\x60\x0a\xd6\x31\xc3\x85\xa5\xd7\xcc\xe2\x3c\x77\x85\x45\x9a\x62\x61\x61\xa1\x61\
    \x78\xa0\x62\xc3\xa9\x81\xf4\x63\x61\x2f\x62\x01";

/// Returns where the path leads in the block.
fn place(block: &[u8], path: &str) -> Result<Option<Place>, Fail> {
    match find_slice(block, path) {
        Ok(Some(item)) => Ok(Some((item.kind, item.place, item.bytes.len()))),
        Ok(None) => Ok(None),
        Err(_) => Err(Fail::new("no block")),
    }
}

fn each_leads(block: &[u8], rows: &[(&str, Option<Place>)]) -> Result<(), Fail> {
    for (path, wanted) in rows {
        agree(place(block, path)?, *wanted)?;
    }
    Ok(())
}

#[test]
fn paths_lead_to_items(_rt: HostRuntime) -> Result<(), Fail> {
    each_leads(
        DOC,
        &[
            ("", Some((Kind::Map, 0, 100))),
            ("/", Some((Kind::Map, 0, 100))),
            ("//", Some((Kind::Map, 0, 100))),
            ("a", Some((Kind::List, 16, 67))),
            ("a/0", Some((Kind::Map, 17, 15))),
            ("/a/0/", Some((Kind::Map, 17, 15))),
            ("a//0//b", Some((Kind::String, 29, 3))),
            ("a/0/b", Some((Kind::String, 29, 3))),
            ("a/0/b/0", None),
            ("a/0/0", Some((Kind::String, 22, 5))),
            ("a/1/1/1", Some((Kind::Integer, 36, 1))),
            ("a/1/1/2", None),
            ("a/2", Some((Kind::Null, 37, 1))),
            ("a/2/x", None),
            ("a/3", Some((Kind::Bool, 38, 1))),
            ("a/4", Some((Kind::Bytes, 39, 3))),
            ("a/5", Some((Kind::Link, 42, 41))),
            ("a/5/x", None),
            ("a/6", None),
            ("a/00", None),
            ("a/01", None),
            ("a/+1", None),
            ("a/-0", None),
            ("a/-1", None),
            ("a/1 ", None),
            ("a/ 1", None),
            ("a/1.0", None),
            ("a/0x1", None),
            ("a/18446744073709551615", None),
            ("a/18446744073709551616", None),
            ("a/99999999999999999999999999", None),
            ("0", Some((Kind::String, 10, 4))),
            ("00", None),
            ("a/b", None),
            ("é", Some((Kind::List, 93, 2))),
            ("é/0", Some((Kind::Bool, 94, 1))),
            ("e", None),
            ("aa", Some((Kind::Map, 86, 4))),
            ("aa/x", Some((Kind::Map, 89, 1))),
            ("aa/x/y", None),
            ("ab", None),
            ("b", None),
            ("zz", None),
            ("aaa", None),
            ("~", None),
            ("a~1b", None),
            (".", None),
            ("a/..", None),
        ],
    )
}
