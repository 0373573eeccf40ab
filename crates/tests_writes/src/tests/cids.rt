//! CIDs, their parts, and bytes that are not CIDs.

use ipld_tree::{Cid, CidError};
use std::alloc::Global;
use std::test::Fail;
use tests_shared::{agree, is_told};

/// The CID of the SHA-256 of "foo", in a link.
const FOO: &[u8] =
    b"\x01\x55\x12\x20\x2c\x26\xb4\x6b\x68\xff\xc6\x8f\xf9\x9b\x45\x3c\x1d\x30\x41\x34\x13\x42\x2d\x70\x64\x83\xbf\xa0\xf9\x8a\x5e\x88\x62\x66\xe7\xae";

/// A CID of version 0.
const NODE: &[u8] =
    b"\x12\x20\x11\x11\x11\x11\x11\x11\x11\x11\x11\x11\x11\x11\x11\x11\x11\x11\x11\x11\x11\x11\x11\x11\x11\x11\x11\x11\x11\x11\x11\x11\x11\x11";

/// Bytes that are not a CID, and why.
const NO_CIDS: &[(&[u8], &str)] = &[
    (b"", "Err(Truncated)"),
    (b"\x02", "Err(InvalidVersion)"),
    (b"\x01\x80\x00\x12\x00", "Err(InvalidVarint)"),
    (b"\x01\x55\x12\x41", "Err(DigestTooLong)"),
    (b"\x01\x55\x12\x02\x63", "Err(Truncated)"),
    (b"\x01\x55\x00\x00\x00", "Err(TrailingBytes)"),
];

/// Fails if the bytes are a CID, or are refused for another reason.
fn is_no_cid(alloc: Global, bytes: &[u8], told: &str) -> Result<(), Fail> {
    is_told(alloc, &Cid::try_from(bytes), told)
}

#[test]
fn refuses_bytes_that_are_no_cid(rt: HostRuntime) -> Result<(), Fail> {
    for (bytes, told) in NO_CIDS {
        is_no_cid(rt.alloc(), bytes, told)?;
    }
    is_no_cid(rt.alloc(), &NODE[..33], "Err(InvalidVersion)")?;
    let text = format!(in rt.alloc(); "{}", CidError::Truncated)?;
    agree(text.as_str(), "the CID is cut short")
}

/// Fails if the bytes have other parts: the version, the codec and the hash function, and the
/// digest. Fails also if their CID is written otherwise.
fn has_parts(
    alloc: Global,
    bytes: &[u8],
    parts: (u64, u64, u64),
    digest: &[u8],
) -> Result<(), Fail> {
    let cid = Cid::try_from(bytes)?;
    agree((cid.version(), cid.codec(), cid.hash_code()), parts)?;
    agree(cid.digest(), digest)?;
    agree(cid.to_bytes(alloc)?.as_slice(), bytes)
}

/// Bytes, their parts, and where the digest begins.
const CIDS: &[(&[u8], (u64, u64, u64), usize)] = &[
    (FOO, (1, 0x55, 0x12), 4),
    (NODE, (0, 0x70, 0x12), 2),
    (b"\x01\x55\x00\x00", (1, 0x55, 0), 4),
    // Fields of two bytes each.
    (b"\x01\xce\x01\x9b\x01\x02\x63\xc8", (1, 206, 155), 6),
];

#[test]
fn parts_of_a_cid(rt: HostRuntime) -> Result<(), Fail> {
    for (bytes, parts, digest) in CIDS {
        has_parts(
            rt.alloc(),
            bytes,
            *parts,
            bytes.get(*digest..).unwrap_or(b""),
        )?;
    }
    Ok(())
}
