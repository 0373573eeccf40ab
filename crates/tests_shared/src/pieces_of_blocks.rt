//! Pieces of blocks.

use std::alloc::{AllocError, Global};

/// The link of the SHA-256 of "foo".
pub const LINK: &[u8] =
    b"\xd8\x2a\x58\x25\x00\x01\x55\x12\x20\x2c\x26\xb4\x6b\x68\xff\xc6\x8f\xf9\x9b\x45\x3c\x1d\x30\x41\x34\x13\x42\x2d\x70\x64\x83\xbf\xa0\xf9\x8a\x5e\x88\x62\x66\xe7\xae";

/// The parts of `{"or": [link, link], "foo": true, "some": {"nested": link}}`.
pub const THREE_LINKS: &[&[u8]] = &[
    b"\xa3\x62\x6f\x72\x82",
    LINK,
    LINK,
    b"\x63\x66\x6f\x6f\xf5\x64\x73\x6f\x6d\x65\xa1\x66\x6e\x65\x73\x74\x65\x64",
    LINK,
];

/// Returns the parts joined.
pub fn joined(alloc: Global, parts: &[&[u8]]) -> Result<Vec<u8>, AllocError> {
    let mut bytes = Vec::new(alloc);
    for part in parts {
        bytes.extend_from_slice(part)?;
    }
    Ok(bytes)
}

/// Returns the piece this many times, and then the end.
pub fn nested(
    alloc: Global,
    piece: &[u8],
    times: usize,
    end: &[u8],
) -> Result<Vec<u8>, AllocError> {
    let mut bytes = piece.repeat(alloc, times)?;
    bytes.extend_from_slice(end)?;
    Ok(bytes)
}
