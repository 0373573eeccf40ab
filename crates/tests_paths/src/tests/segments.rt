//! Paths as lists of segments, each matched whole. Offsets are counted by hand in the bytes.

use super::find::Place;
use dagcbor_decode::Kind;
use ipld_paths::find_segments;
use std::test::Fail;
use tests_shared::agree;

/// `{"": {"": 1}, "/": 2, "0": [3], "a/b": {"/": {"c/": 4}}, "a//b": 5}`, with keys ordered by
/// length.
const SLASHES: &[u8] =
    b"\xa5\x60\xa1\x60\x01\x61/\x02\x610\x81\x03\x63a/b\xa1\x61/\xa1\x62c/\x04\x64a//b\x05";

fn place(block: &[u8], segments: &[&str]) -> Result<Option<Place>, Fail> {
    match find_segments(block, segments) {
        Ok(Some(item)) => Ok(Some((item.kind, item.place, item.bytes.len()))),
        Ok(None) => Ok(None),
        Err(_) => Err(Fail::new("no block")),
    }
}

fn each_leads(block: &[u8], rows: &[(&[&str], Option<Place>)]) -> Result<(), Fail> {
    for (segments, wanted) in rows {
        agree(place(block, segments)?, *wanted)?;
    }
    Ok(())
}

#[test]
fn segments_are_taken_whole(_rt: HostRuntime) -> Result<(), Fail> {
    each_leads(
        SLASHES,
        &[
            (&[], Some((Kind::Map, 0, 30))),
            (&[""], Some((Kind::Map, 2, 3))),
            (&["", ""], Some((Kind::Integer, 4, 1))),
            (&["", "", ""], None),
            (&["/"], Some((Kind::Integer, 7, 1))),
            (&["0"], Some((Kind::List, 10, 2))),
            (&["0", "0"], Some((Kind::Integer, 11, 1))),
            (&["0/0"], None),
            (&["0", ""], None),
            (&["0", "/0"], None),
            (&["", "0", "0"], None),
            (&["a/b"], Some((Kind::Map, 16, 8))),
            (&["a", "b"], None),
            (&["a"], None),
            (&["/a/b"], None),
            (&["a/b/"], None),
            (&["a/b", "/"], Some((Kind::Map, 19, 5))),
            (&["a/b", "", "/"], None),
            (&["a/b", "/", "c/"], Some((Kind::Integer, 23, 1))),
            (&["a/b", "/", "c"], None),
            (&["a/b", "/", "c/", ""], None),
            (&["a//b"], Some((Kind::Integer, 29, 1))),
        ],
    )
}

/// The example in the documentation of `find_segments`.
#[test]
fn the_example(_rt: HostRuntime) -> Result<(), Fail> {
    agree(
        place(b"\xa1\x63a/b\x82\x01\x17", &["a/b", "1"])?,
        Some((Kind::Integer, 7, 1)),
    )
}
