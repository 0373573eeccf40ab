//! The CARv2 header.

ghost use Rattle.std.specs.Prelude.{◌≡◌, ◌+◌, ◌≤◌, ◌^◌, MatchOption};
ghost use Rattle.program_index.specs.Indexed.{version_2_header};

use arrayvec::ArrayVec;

/// The pragma of version 2, and the characteristics: all sections are listed.
const BEGINNING: [u8; 27] = [
    0x0a, 0xa1, 0x67, 0x76, 0x65, 0x72, 0x73, 0x69, 0x6f, 0x6e, 0x02, 0x80, 0, 0, 0, 0, 0, 0, 0, 0,
    0, 0, 0, 0, 0, 0, 0,
];

/// The length of the CARv2 header, in bytes.
const HEADER_LENGTH: u64 = 51;

/// Returns the CARv2 header before a CARv1 payload of this length and an index. `None` if the
/// offset of the index is not below 2^64.
pub(crate) fn header_of(length: u64) -> Option<ArrayVec<u8, 51>>
    ensures { MatchOption result (2 ^ 64 ≤ 51 + length) (λ h. h.items ≡ version_2_header length) }
{
    let index = HEADER_LENGTH.checked_add(length)?;
    let mut header = ArrayVec::new();
    header.try_extend_from_slice(&BEGINNING).unwrap();
    header
        .try_extend_from_slice(&HEADER_LENGTH.to_le_bytes())
        .unwrap();
    header.try_extend_from_slice(&length.to_le_bytes()).unwrap();
    header.try_extend_from_slice(&index.to_le_bytes()).unwrap();
    Some(header)
}
