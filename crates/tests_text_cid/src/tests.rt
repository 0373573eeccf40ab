//! Common spellings, the shortest and the longest ones, and texts that are rejected. The binary
//! forms come from another program.

use ipld_tree::{Cid, CidError};
use std::test::Fail;
use text_cid::{CidTextError, cid_from_text, cid_text};

/// A text, the binary form of its CID, and the text that is written for the CID.
const ROWS: &[(&[u8], &[u8], &[u8])] = &[
    (
        b"QmUNLLsPACCz1vLxQVkXqqLX5R1X345qqfHbsf67hvA3Nn",
        b"\x12\x20\x59\x94\x84\x39\x06\x5f\x29\x61\x9e\xf4\x12\x80\xcb\xb9\x32\xbe\x52\xc5\x6d\x99\xc5\x96\x6b\x65\xe0\x11\x12\x39\xf0\x98\xbb\xef",
        b"QmUNLLsPACCz1vLxQVkXqqLX5R1X345qqfHbsf67hvA3Nn",
    ),
    (
        b"bafybeiczsscdsbs7ffqz55asqdf3smv6klcw3gofszvwlyarci47bgf354",
        b"\x01\x70\x12\x20\x59\x94\x84\x39\x06\x5f\x29\x61\x9e\xf4\x12\x80\xcb\xb9\x32\xbe\x52\xc5\x6d\x99\xc5\x96\x6b\x65\xe0\x11\x12\x39\xf0\x98\xbb\xef",
        b"bafybeiczsscdsbs7ffqz55asqdf3smv6klcw3gofszvwlyarci47bgf354",
    ),
    (
        b"QmYwAPJzv5CZsnA625s3Xf2nemtYgPpHdWEz79ojWKU4xs",
        b"\x12\x20\x9d\x6c\x2b\xe5\x0f\x70\x69\x53\x47\x9a\xb9\xdf\x2c\xe3\xed\xca\x90\xb6\x80\x53\xc0\x0b\x30\x04\xb7\xf0\xac\xcb\xcf\xbf\xfe\x0c",
        b"QmYwAPJzv5CZsnA625s3Xf2nemtYgPpHdWEz79ojWKU4xs",
    ),
    (
        b"bafybeigdyrzt5sfp7udm7hu76uh7y26nf3efuylqabf3oclgtqy55fbzdi",
        b"\x01\x70\x12\x20\xc3\xc4\x73\x3e\xc8\xaf\xfd\x06\xcf\x9e\x9f\xf5\x0f\xfc\x6b\xcd\x2e\xc8\x5a\x61\x70\x00\x4b\xb7\x09\x66\x9c\x31\xde\x94\x39\x1a",
        b"bafybeigdyrzt5sfp7udm7hu76uh7y26nf3efuylqabf3oclgtqy55fbzdi",
    ),
    (
        b"zb2rhe5P4gXftAwvA4eXQ5HJwsER2owDyS9sKaQRRVQPn93bA",
        b"\x01\x55\x12\x20\x6e\x6f\xf7\x95\x0a\x36\x18\x7a\x80\x16\x13\x42\x6e\x85\x8d\xce\x68\x6c\xd7\xd7\xe3\xc0\xfc\x42\xee\x03\x30\x07\x2d\x24\x5c\x95",
        b"bafkreidon73zkcrwdb5iafqtijxildoonbwnpv7dyd6ef3qdgads2jc4su",
    ),
    (
        b"zdj7WhuEjrB52m1BisYCtmjH1hSKa7yZ3jEZ9JcXaFRD51wVz",
        b"\x01\x70\x12\x20\xb9\x4d\x27\xb9\x93\x4d\x3e\x08\xa5\x2e\x52\xd7\xda\x7d\xab\xfa\xc4\x84\xef\xe3\x7a\x53\x80\xee\x90\x88\xf7\xac\xe2\xef\xcd\xe9",
        b"bafybeifzjut3te2nhyekklss27nh3k72ysco7y32koao5eei66wof36n5e",
    ),
    (
        b"BAFYBEIGDYRZT5SFP7UDM7HU76UH7Y26NF3EFUYLQABF3OCLGTQY55FBZDI",
        b"\x01\x70\x12\x20\xc3\xc4\x73\x3e\xc8\xaf\xfd\x06\xcf\x9e\x9f\xf5\x0f\xfc\x6b\xcd\x2e\xc8\x5a\x61\x70\x00\x4b\xb7\x09\x66\x9c\x31\xde\x94\x39\x1a",
        b"bafybeigdyrzt5sfp7udm7hu76uh7y26nf3efuylqabf3oclgtqy55fbzdi",
    ),
    (
        b"f01701220c3c4733ec8affd06cf9e9ff50ffc6bcd2ec85a6170004bb709669c31de94391a",
        b"\x01\x70\x12\x20\xc3\xc4\x73\x3e\xc8\xaf\xfd\x06\xcf\x9e\x9f\xf5\x0f\xfc\x6b\xcd\x2e\xc8\x5a\x61\x70\x00\x4b\xb7\x09\x66\x9c\x31\xde\x94\x39\x1a",
        b"bafybeigdyrzt5sfp7udm7hu76uh7y26nf3efuylqabf3oclgtqy55fbzdi",
    ),
    (b"bafkqaaa", b"\x01\x55\x00\x00", b"bafkqaaa"),
    (
        b"f01ffffffffffffffffff01ffffffffffffffffff0140000102030405060708090a0b0c0d0e0f101112131415161718191a1b1c1d1e1f202122232425262728292a2b2c2d2e2f303132333435363738393a3b3c3d3e3f",
        b"\x01\xff\xff\xff\xff\xff\xff\xff\xff\xff\x01\xff\xff\xff\xff\xff\xff\xff\xff\xff\x01\x40\x00\x01\x02\x03\x04\x05\x06\x07\x08\x09\x0a\x0b\x0c\x0d\x0e\x0f\x10\x11\x12\x13\x14\x15\x16\x17\x18\x19\x1a\x1b\x1c\x1d\x1e\x1f\x20\x21\x22\x23\x24\x25\x26\x27\x28\x29\x2a\x2b\x2c\x2d\x2e\x2f\x30\x31\x32\x33\x34\x35\x36\x37\x38\x39\x3a\x3b\x3c\x3d\x3e\x3f",
        b"bah77777777777777ah77777777777777afaaaaicamcakbqhbaequcymbuha6earcijrifiwc4mbsgq3dqor4hzaeercgjbfeytsqkjkfmwc2lrpgaytemzugu3doobzhi5typj6h4",
    ),
    (
        b"z3n9DVFbeZdE4xy1YK5ev4Wffzo39FfezjNEsdGx2gEFiwdP2UW38ptCiKfSwXJDnDXUk1TLq3LzrNAfNjnhQMKF3DQLQuJgbMP64W1QZWMMiNaD1FoGog",
        b"\x01\xff\xff\xff\xff\xff\xff\xff\xff\xff\x01\xff\xff\xff\xff\xff\xff\xff\xff\xff\x01\x40\x00\x01\x02\x03\x04\x05\x06\x07\x08\x09\x0a\x0b\x0c\x0d\x0e\x0f\x10\x11\x12\x13\x14\x15\x16\x17\x18\x19\x1a\x1b\x1c\x1d\x1e\x1f\x20\x21\x22\x23\x24\x25\x26\x27\x28\x29\x2a\x2b\x2c\x2d\x2e\x2f\x30\x31\x32\x33\x34\x35\x36\x37\x38\x39\x3a\x3b\x3c\x3d\x3e\x3f",
        b"bah77777777777777ah77777777777777afaaaaicamcakbqhbaequcymbuha6earcijrifiwc4mbsgq3dqor4hzaeercgjbfeytsqkjkfmwc2lrpgaytemzugu3doobzhi5typj6h4",
    ),
    (
        b"bah77777777777777ah77777777777777afaaaaicamcakbqhbaequcymbuha6earcijrifiwc4mbsgq3dqor4hzaeercgjbfeytsqkjkfmwc2lrpgaytemzugu3doobzhi5typj6h4",
        b"\x01\xff\xff\xff\xff\xff\xff\xff\xff\xff\x01\xff\xff\xff\xff\xff\xff\xff\xff\xff\x01\x40\x00\x01\x02\x03\x04\x05\x06\x07\x08\x09\x0a\x0b\x0c\x0d\x0e\x0f\x10\x11\x12\x13\x14\x15\x16\x17\x18\x19\x1a\x1b\x1c\x1d\x1e\x1f\x20\x21\x22\x23\x24\x25\x26\x27\x28\x29\x2a\x2b\x2c\x2d\x2e\x2f\x30\x31\x32\x33\x34\x35\x36\x37\x38\x39\x3a\x3b\x3c\x3d\x3e\x3f",
        b"bah77777777777777ah77777777777777afaaaaicamcakbqhbaequcymbuha6earcijrifiwc4mbsgq3dqor4hzaeercgjbfeytsqkjkfmwc2lrpgaytemzugu3doobzhi5typj6h4",
    ),
];

const REFUSED: &[(&[u8], CidTextError)] = &[
    (b"", CidTextError::UnknownBase),
    (b"mAXASIA", CidTextError::UnknownBase),
    (b"0", CidTextError::UnknownBase),
    (
        b"bafybeiczsscdsbs7ffqz55asqdf3smv6klcw3gofszvwlyarci47bgf351",
        CidTextError::InvalidCharacter,
    ),
    (
        b"Bafybeiczsscdsbs7ffqz55asqdf3smv6klcw3gofszvwlyarci47bgf354",
        CidTextError::InvalidCharacter,
    ),
    (b"f0A", CidTextError::InvalidCharacter),
    (b"z0", CidTextError::InvalidCharacter),
    (b"Qm0", CidTextError::InvalidCharacter),
    (b"baea", CidTextError::InvalidLength),
    (b"f0", CidTextError::InvalidLength),
    (b"baf", CidTextError::TrailingBits),
    (
        b"bafybeiczsscdsbs7ffqz55asqdf3smv6klcw3gofszvwlyarci47bgf355",
        CidTextError::TrailingBits,
    ),
    (b"z1x", CidTextError::LeadingZero),
    (b"bae", CidTextError::InvalidCid(CidError::Truncated)),
    (b"b", CidTextError::InvalidCid(CidError::Truncated)),
    (b"faa", CidTextError::InvalidCid(CidError::InvalidVersion)),
    (
        b"f0170122059948439065f29619ef41280cbb932be52c56d99c5966b65e0111239f098bbef00",
        CidTextError::InvalidCid(CidError::TrailingBytes),
    ),
    (b"Qm", CidTextError::InvalidCid(CidError::InvalidVersion)),
    (
        b"zQmUNLLsPACCz1vLxQVkXqqLX5R1X345qqfHbsf67hvA3Nn",
        CidTextError::InvalidVersion,
    ),
    (
        b"bciqftfeehedf6klbt32bfaglxezl4uwfnwm4lftlmxqbcerz6cmlx3y",
        CidTextError::InvalidVersion,
    ),
    (
        b"f000000000000000000000000000000000000000000000000000000000000000000000000000000000000000000000000000000000000000000000000000000000000000000000000000000000000000000000000000000",
        CidTextError::TooLong,
    ),
];

#[test]
fn texts_are_read_and_written(rt: HostRuntime) -> Result<(), Fail> {
    let alloc = rt.alloc();
    for (text, form, written) in ROWS {
        let cid = cid_from_text(text)?;
        assert_eq!(rt; cid.to_bytes(alloc)?.as_slice(), *form);
        assert_eq!(rt; cid, Cid::try_from(*form)?);
        assert_eq!(rt; cid_text(&cid).as_slice(), *written);
    }
    Ok(())
}

#[test]
fn other_texts_are_refused(rt: HostRuntime) -> Result<(), Fail> {
    for (text, error) in REFUSED {
        assert_eq!(rt; cid_from_text(text), Err(*error));
    }
    Ok(())
}
