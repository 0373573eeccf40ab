//! Rows of `at`, `at --raw`, `prove` and `show` for nodes of DAG-PB. The file and the expected
//! answers come from a separate program in Python, which walks over the data model of the DAG-PB
//! specification.

use crate::tests::dagcar::gives;
use crate::tests::proofs::{Part, answer, on_path};
use std::alloc::Global;
use std::test::Fail;

/// A file of a node, a block that it links to, and a node that this links to; of that node under
/// its CID of version 0; of a node with a name that is not UTF-8; of bytes that are not a node; and
/// of bytes that do not match their CID.
const FILE: &[u8] =
    b"\x3a\xa2\x65\x72\x6f\x6f\x74\x73\x81\xd8\x2a\x58\x25\x00\x01\x70\x12\x20\x8c\x6f\x2e\x93\x25\
    \xcc\x02\x01\x52\x3d\x54\x03\xc1\xc7\x95\x06\x11\xa2\x3a\x70\xb2\x28\xe6\xbc\x84\xd2\xcd\x5c\
    \x96\x03\xac\x03\x67\x76\x65\x72\x73\x69\x6f\x6e\x01\x91\x02\x01\x70\x12\x20\x8c\x6f\x2e\x93\
    \x25\xcc\x02\x01\x52\x3d\x54\x03\xc1\xc7\x95\x06\x11\xa2\x3a\x70\xb2\x28\xe6\xbc\x84\xd2\xcd\
    \x5c\x96\x03\xac\x03\x12\x2e\x0a\x24\x01\x71\x12\x20\x87\x1b\x2f\x0e\xa1\x93\xdf\x9a\xe5\xe5\
    \x25\x48\xf8\x19\xb5\x41\xc7\x78\x83\x7d\xa3\x53\x9a\x2e\x8b\x20\x09\x13\xb7\xeb\xc6\x5a\x12\
    \x04\x6c\x65\x61\x66\x18\x3c\x12\x26\x0a\x22\x12\x20\x06\xb5\xa8\xb0\x23\xe8\x0d\x86\xcb\x95\
    \x4e\x09\xc1\x76\xac\x5c\xae\x31\x1b\x52\x10\xbd\x60\xff\x36\x58\x24\x8b\x30\x5c\xca\x1c\x12\
    \x00\x12\x09\x0a\x07\x01\x70\x00\x03\x0a\x01\x21\x12\x32\x0a\x24\x01\x70\x12\x20\xb7\x72\xd2\
    \x9f\xfa\x63\x99\xa1\xa0\x89\x7a\x03\xb9\xb9\xbf\x53\x4a\xec\xdd\x4f\x48\x4a\xf5\x34\x83\xda\
    \xd9\x46\x61\xcd\xa3\x39\x12\x07\x75\x6e\x6e\x61\x6d\x65\x64\x18\xac\x02\x12\x26\x0a\x24\x01\
    \x70\x12\x20\xfb\x8d\xa7\xeb\x5b\x1b\x39\x9e\x73\x21\x17\x9d\xac\x9e\x9f\x65\x77\x3d\x73\x31\
    \xe1\xe3\x05\x54\xe3\x91\x1e\x43\x25\xe1\xef\x19\x12\x28\x0a\x24\x01\x70\x12\x20\x98\x20\xee\
    \x6b\x9b\xcc\xa3\x0c\x40\x0e\xd0\x4f\xf7\x85\x3d\xea\xa9\x9f\x90\xe2\x95\xa0\xfe\xd5\x81\x39\
    \xe0\x1f\x27\x4b\x7b\x16\x18\x00\x0a\x02\x08\x01\x54\x01\x71\x12\x20\x87\x1b\x2f\x0e\xa1\x93\
    \xdf\x9a\xe5\xe5\x25\x48\xf8\x19\xb5\x41\xc7\x78\x83\x7d\xa3\x53\x9a\x2e\x8b\x20\x09\x13\xb7\
    \xeb\xc6\x5a\xa2\x61\x6e\x07\x62\x69\x6e\xd8\x2a\x58\x25\x00\x01\x70\x12\x20\x06\xb5\xa8\xb0\
    \x23\xe8\x0d\x86\xcb\x95\x4e\x09\xc1\x76\xac\x5c\xae\x31\x1b\x52\x10\xbd\x60\xff\x36\x58\x24\
    \x8b\x30\x5c\xca\x1c\x28\x01\x70\x12\x20\x06\xb5\xa8\xb0\x23\xe8\x0d\x86\xcb\x95\x4e\x09\xc1\
    \x76\xac\x5c\xae\x31\x1b\x52\x10\xbd\x60\xff\x36\x58\x24\x8b\x30\x5c\xca\x1c\x0a\x02\x68\x69\
    \x26\x12\x20\x06\xb5\xa8\xb0\x23\xe8\x0d\x86\xcb\x95\x4e\x09\xc1\x76\xac\x5c\xae\x31\x1b\x52\
    \x10\xbd\x60\xff\x36\x58\x24\x8b\x30\x5c\xca\x1c\x0a\x02\x68\x69\x52\x01\x70\x12\x20\xb7\x72\
    \xd2\x9f\xfa\x63\x99\xa1\xa0\x89\x7a\x03\xb9\xb9\xbf\x53\x4a\xec\xdd\x4f\x48\x4a\xf5\x34\x83\
    \xda\xd9\x46\x61\xcd\xa3\x39\x12\x29\x0a\x24\x01\x71\x12\x20\x87\x1b\x2f\x0e\xa1\x93\xdf\x9a\
    \xe5\xe5\x25\x48\xf8\x19\xb5\x41\xc7\x78\x83\x7d\xa3\x53\x9a\x2e\x8b\x20\x09\x13\xb7\xeb\xc6\
    \x5a\x12\x01\xff\x0a\x01\x78\x26\x01\x70\x12\x20\xfb\x8d\xa7\xeb\x5b\x1b\x39\x9e\x73\x21\x17\
    \x9d\xac\x9e\x9f\x65\x77\x3d\x73\x31\xe1\xe3\x05\x54\xe3\x91\x1e\x43\x25\xe1\xef\x19\x08\x01\
    \x27\x01\x70\x12\x20\x98\x20\xee\x6b\x9b\xcc\xa3\x0c\x40\x0e\xd0\x4f\xf7\x85\x3d\xea\xa9\x9f\
    \x90\xe2\x95\xa0\xfe\xd5\x81\x39\xe0\x1f\x27\x4b\x7b\x16\x0a\x01\x78";

const ROOT: &str = "bafybeiemn4xjgjomaiavepkuapa4pfigcgrdu4fsfdtlzbgszvojma5mam";

const HEADER: Part = (0, 59);

const NODE: Part = (59, 334);

const LEAF: Part = (334, 419);

const INNER: Part = (419, 460);

const OLD: Part = (460, 499);

/// A path; the status; its data, its bytes, and the error message; and the sections on its way, if
/// it proves something.
type Row = (
    &'static str,
    u8,
    &'static [u8],
    &'static [u8],
    &'static [u8],
    &'static [Part],
);

const ROWS: &[Row] = &[
    (
        "Data",
        0,
        b"{\"/\":{\"bytes\":\"CAE\"}}\n",
        b"\x42\x08\x01",
        b"",
        &[NODE],
    ),
    (
        "Links/0",
        0,
        b"{\"Hash\":{\"/\":\"bafyreiehdmxq5imt36nolzjfjd4btnkby54ig7ndkonc5czabej3p26gli\"},\"Name\":\"leaf\",\"Tsize\":60}\n",
        b"\xa3\x64\x48\x61\x73\x68\xd8\x2a\x58\x25\x00\x01\x71\x12\x20\x87\x1b\x2f\x0e\xa1\x93\xdf\x9a\xe5\xe5\x25\x48\xf8\x19\xb5\x41\xc7\x78\x83\x7d\xa3\x53\x9a\x2e\x8b\x20\x09\x13\xb7\xeb\xc6\x5a\x64\x4e\x61\x6d\x65\x64\x6c\x65\x61\x66\x65\x54\x73\x69\x7a\x65\x18\x3c",
        b"",
        &[NODE],
    ),
    (
        "Links/0/Hash",
        0,
        b"{\"/\":\"bafyreiehdmxq5imt36nolzjfjd4btnkby54ig7ndkonc5czabej3p26gli\"}\n",
        b"\xd8\x2a\x58\x25\x00\x01\x71\x12\x20\x87\x1b\x2f\x0e\xa1\x93\xdf\x9a\xe5\xe5\x25\x48\xf8\x19\xb5\x41\xc7\x78\x83\x7d\xa3\x53\x9a\x2e\x8b\x20\x09\x13\xb7\xeb\xc6\x5a",
        b"",
        &[NODE],
    ),
    (
        "Links/0/Name",
        0,
        b"\"leaf\"\n",
        b"\x64\x6c\x65\x61\x66",
        b"",
        &[NODE],
    ),
    ("Links/0/Tsize", 0, b"60\n", b"\x18\x3c", b"", &[NODE]),
    ("Links/1/Name", 0, b"\"\"\n", b"\x60", b"", &[NODE]),
    (
        "Links/1/Tsize",
        1,
        b"",
        b"",
        b"bafybeiemn4xjgjomaiavepkuapa4pfigcgrdu4fsfdtlzbgszvojma5mam has nothing at Tsize\n",
        &[NODE],
    ),
    (
        "Links/2/Name",
        1,
        b"",
        b"",
        b"bafybeiemn4xjgjomaiavepkuapa4pfigcgrdu4fsfdtlzbgszvojma5mam has nothing at Name\n",
        &[NODE],
    ),
    ("Links/3/Tsize", 0, b"300\n", b"\x19\x01\x2c", b"", &[NODE]),
    ("Links/5/Tsize", 0, b"0\n", b"\x00", b"", &[NODE]),
    (
        "Links/9",
        1,
        b"",
        b"",
        b"bafybeiemn4xjgjomaiavepkuapa4pfigcgrdu4fsfdtlzbgszvojma5mam has nothing at 9\n",
        &[NODE],
    ),
    (
        "data",
        1,
        b"",
        b"",
        b"bafybeiemn4xjgjomaiavepkuapa4pfigcgrdu4fsfdtlzbgszvojma5mam has nothing at data\n",
        &[NODE],
    ),
    ("Links/0/Hash/n", 0, b"7\n", b"\x07", b"", &[NODE, LEAF]),
    (
        "Links/0/Hash/in",
        0,
        b"{\"/\":\"bafybeiagwwulai7ibwdmxfkobhaxnlc4vyyrwuqqxvqp6nsyesftaxgkdq\"}\n",
        b"\xd8\x2a\x58\x25\x00\x01\x70\x12\x20\x06\xb5\xa8\xb0\x23\xe8\x0d\x86\xcb\x95\x4e\x09\xc1\x76\xac\x5c\xae\x31\x1b\x52\x10\xbd\x60\xff\x36\x58\x24\x8b\x30\x5c\xca\x1c",
        b"",
        &[NODE, LEAF],
    ),
    (
        "Links/0/Hash/in/Data",
        0,
        b"{\"/\":{\"bytes\":\"aGk\"}}\n",
        b"\x42\x68\x69",
        b"",
        &[NODE, LEAF, INNER],
    ),
    (
        "Links/0/Hash/in/Links/0",
        1,
        b"",
        b"",
        b"bafybeiagwwulai7ibwdmxfkobhaxnlc4vyyrwuqqxvqp6nsyesftaxgkdq has nothing at 0\n",
        &[NODE, LEAF, INNER],
    ),
    ("Links/1/Hash/Links", 0, b"[]\n", b"\x80", b"", &[NODE, OLD]),
    (
        "Links/2/Hash/Data",
        0,
        b"{\"/\":{\"bytes\":\"IQ\"}}\n",
        b"\x41\x21",
        b"",
        &[NODE],
    ),
    (
        "Links/3/Hash",
        0,
        b"{\"/\":\"bafybeifxoljj76tdtgq2bcl2ao43tp2tjlwn2t2ijl2tja623fdgdtndhe\"}\n",
        b"\xd8\x2a\x58\x25\x00\x01\x70\x12\x20\xb7\x72\xd2\x9f\xfa\x63\x99\xa1\xa0\x89\x7a\x03\xb9\xb9\xbf\x53\x4a\xec\xdd\x4f\x48\x4a\xf5\x34\x83\xda\xd9\x46\x61\xcd\xa3\x39",
        b"",
        &[NODE],
    ),
    (
        "Links/3/Hash/Data",
        1,
        b"",
        b"",
        b"bafybeifxoljj76tdtgq2bcl2ao43tp2tjlwn2t2ijl2tja623fdgdtndhe refused NameNotText\n",
        &[],
    ),
    (
        "Links/3/Hash/Links/0/Name",
        1,
        b"",
        b"",
        b"bafybeifxoljj76tdtgq2bcl2ao43tp2tjlwn2t2ijl2tja623fdgdtndhe refused NameNotText\n",
        &[],
    ),
    (
        "Links/4/Hash/Data",
        1,
        b"",
        b"",
        b"bafybeih3rwt6wwy3hgphgiixtwwj5h3fo46xgmpb4mcvjy4rdzbslyppde refused UnexpectedField\n",
        &[],
    ),
    (
        "Links/5/Hash/Data",
        1,
        b"",
        b"",
        b"bafybeieyedxgxg6mumgeadwqj73ykppkvgpzbyuvud7nlajz4apsos33cy other bytes\n",
        &[],
    ),
];

/// Returns the header of `FILE`, and these of its sections.
fn proof_of(alloc: Global, sections: &[Part]) -> Result<Vec<u8>, Fail> {
    let mut file = Vec::new(alloc);
    for part in [&[HEADER], sections] {
        for (begin, end) in part {
            let Some(bytes) = FILE.get(*begin..*end) else {
                return Err(Fail::new("no part"));
            };
            file.extend_from_slice(bytes)?;
        }
    }
    Ok(file)
}

/// Fails if the path gives anything else.
fn leads(alloc: Global, row: &Row) -> Result<(), Fail> {
    let (path, status, data, item, told, sections) = *row;
    let word = on_path(alloc, ROOT, path)?;
    answer(alloc, &["at", &word], FILE, (status, data, told))?;
    answer(alloc, &["at", "--raw", &word], FILE, (status, item, told))?;
    if sections.is_empty() {
        return answer(alloc, &["prove", &word], FILE, (1, b"", told));
    }
    let proof = proof_of(alloc, sections)?;
    answer(alloc, &["prove", &word], FILE, (0, &proof, b""))?;
    answer(alloc, &["at", &word], &proof, (status, data, told))
}

#[test]
fn paths_lead_into_nodes(rt: HostRuntime) -> Result<(), Fail> {
    for row in ROWS {
        leads(rt.alloc(), row)?;
    }
    Ok(())
}

/// Bytes; the status, the data, and the error message.
const SHOWN: &[(&[u8], u8, &[u8], &[u8])] = &[
    (
        b"\x0a\x02\x68\x69",
        0,
        b"{\"Data\":{\"/\":{\"bytes\":\"aGk\"}},\"Links\":[]}\n",
        b"",
    ),
    (
        b"\x12\x29\x0a\x22\x12\x20\x06\xb5\xa8\xb0\x23\xe8\x0d\x86\xcb\x95\x4e\x09\xc1\x76\xac\x5c\xae\x31\x1b\x52\x10\xbd\x60\xff\x36\x58\x24\x8b\x30\x5c\xca\x1c\x12\x01\x61\x18\x01",
        0,
        b"{\"Links\":[{\"Hash\":{\"/\":\"QmNnqpGdvgQayTy9CvUhD2BvDVUixoGjdPJxxKroeoPDTR\"},\"Name\":\"a\",\"Tsize\":1}]}\n",
        b"",
    ),
    // An integer in DAG-CBOR.
    (b"\x0a", 0, b"10\n", b""),
    // Two blocks, which are not a node, and a node with a name that is not UTF-8.
    (
        b"\x08\x01",
        1,
        b"refused TrailingData\n",
        b"refused TrailingData at byte 1\ndagcar: two blocks, one after the other: dagcar event reads frames\n",
    ),
    (
        b"\x12\x29\x0a\x24\x01\x71\x12\x20\x87\x1b\x2f\x0e\xa1\x93\xdf\x9a\xe5\xe5\x25\x48\xf8\x19\xb5\x41\xc7\x78\x83\x7d\xa3\x53\x9a\x2e\x8b\x20\x09\x13\xb7\xeb\xc6\x5a\x12\x01\xff\x0a\x01\x78",
        1,
        b"refused TrailingData\n",
        b"refused TrailingData at byte 1\n",
    ),
    (b"", 1, b"refused Eof\n", b"refused Eof at byte 0\n"),
];

#[test]
fn nodes_are_shown(rt: HostRuntime) -> Result<(), Fail> {
    for (bytes, status, data, told) in SHOWN {
        gives(rt.alloc(), "show", bytes, *status, data, told)?;
    }
    Ok(())
}
