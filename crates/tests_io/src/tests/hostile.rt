//! Hostile bytes: bytes that are cut off are refused as such, whatever pieces they come in.

use std::test::Fail;
use tests_shared_reads::beginnings_are_cut;

/// Spellings whose beginnings no other test reads.
const SPELLINGS: &[&[u8]] = &[
    b"\x61\x00",
    b"\x64\xf0\x9f\x92\x94",
    b"\xa1\x65Other\x18\x2a",
    b"\xa1\x65Alpha\x82\x1a\x00\x03\x94\x47\x18\x3c",
    b"\xa1\x64Data\xa3\x61a\x01\x61b\x02\x63abc\x03",
    b"\xd8\x2a\x49\x00\x01\xce\x01\x9b\x01\x02\x63\xc8",
    b"\xa3\x64name\x6cGrace Hopper\x6aprofession\x72computer scientist\x6dyear_of_birth\x19\x07\x72",
    b"\xa3\x62js\x83\x6blightweight\x6binterpreted\x6fobject-oriented\x64rust\x83\x64safe\x6aconcurrent\x64fast\x66python\x83\x68powerful\x68friendly\x64open",
    b"\x58\x18\xa5\xa5\xa5\xa5\xa5\xa5\xa5\xa5\xa5\xa5\xa5\xa5\xa5\xa5\xa5\xa5\xa5\xa5\xa5\xa5\xa5\xa5\xa5\xa5",
];

#[test]
fn each_beginning_is_cut(rt: HostRuntime) -> Result<(), Fail> {
    for spelling in SPELLINGS {
        beginnings_are_cut(rt.alloc(), spelling)?;
    }
    let mut long = Vec::from_slice(rt.alloc(), b"\x59\x01\x00")?;
    long.resize(259, 0xa5)?;
    beginnings_are_cut(rt.alloc(), &long)
}
