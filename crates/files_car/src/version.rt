//! The place of the file of version 1 in a file of version 2.

ghost use Rattle.std.specs.Prelude.{◌≡◌, ◌≤◌, ◌<◌, ◌+◌, ◌^◌, ◌∷◌, ◌++◌, ◌⊎◌, ◌↔◌, length, IsTrue};
ghost use Rattle.std.specs.Prelude.{MatchResult, MatchOption};
ghost use Rattle.files_car.specs.Versions.{pragma, number_after, begin_of, length_of, HasSpan};
ghost use Rattle.files_car.specs.Versions.{MayBeVersion2, SpanRefused};

use crate::error::CarError;
use std::convert::Infallible;

/// The bytes that begin version 2: a length, and the map of the version alone (CARv2).
const PRAGMA: [u8; 11] = [
    0x0a, 0xa1, 0x67, 0x76, 0x65, 0x72, 0x73, 0x69, 0x6f, 0x6e, 0x02,
];

/// How many bytes the header of version 2 takes.
pub(crate) const HEADER_LENGTH: u64 = 51;

/// The place of the file of version 1 in a file of version 2, in bytes. `begin` counts from the
/// first byte.
#[derive(Clone, Copy, Debug)]
pub struct Span {
    pub begin: u64,
    pub length: u64,
}

/// Returns the place of the file of version 1, if the bytes begin a file of version 2. The first 51
/// bytes say it, and it may lie after these bytes. `None` if they cannot begin version 2.
pub fn file_span(bytes: &[u8]) -> Result<Option<Span>, CarError<Infallible>>
    ensures { MatchResult result
        (λ found. MatchOption found
        (¬ MayBeVersion2 bytes.now)
        (λ span. HasSpan bytes.now × (span.begin ≡ begin_of bytes.now)
        × (span.length ≡ length_of bytes.now)))
        (λ e. SpanRefused e bytes.now) }
{
    if !may_be_version_2(bytes) {
        return Ok(None);
    }
    if bytes.len() < HEADER_LENGTH as usize {
        return Err(CarError::Truncated);
    }
    match span_of(&bytes[PRAGMA.len()..]) {
        Some(span) => Ok(Some(span)),
        None => Err(CarError::InvalidOffset),
    }
}

/// Returns whether the bytes begin version 2, or are the first of those that do.
fn may_be_version_2(bytes: &[u8]) -> bool
    ensures { IsTrue result ↔ MayBeVersion2 bytes.now }
{
    let count = bytes.len().min(PRAGMA.len());
    bytes[..count] == PRAGMA[..count]
}

/// Returns whether the bytes, after their length, begin version 2.
pub(crate) fn is_version_2(bytes: &[u8]) -> bool
    ensures { IsTrue result ↔ (0x0a ∷ bytes.now ≡ pragma) }
{
    bytes == &PRAGMA[1..]
}

/// Returns the place of the file of version 1 that the header's fields say. `None` if it begins
/// inside that header, or its end is not below 2^64.
pub(crate) fn span_of(fields: &[u8]) -> Option<Span>
    requires { 40 ≤ length fields.now }
    ensures { MatchOption result
        ((begin_of (pragma ++ fields.now) < 51)
        ⊎ (2 ^ 64 ≤ begin_of (pragma ++ fields.now) + length_of (pragma ++ fields.now)))
        (λ span. HasSpan (pragma ++ fields.now) × (span.begin ≡ begin_of (pragma ++ fields.now))
        × (span.length ≡ length_of (pragma ++ fields.now))) }
{
    let begin = number_after(fields, 16);
    let length = number_after(fields, 24);
    if begin < HEADER_LENGTH || begin.checked_add(length).is_none() {
        return None;
    }
    Some(Span { begin, length })
}

/// Returns the little-endian number in the eight bytes after the first `before` ones.
fn number_after(bytes: &[u8], before: usize) -> u64
    requires { before + 8 ≤ length bytes.now }
    ensures { result ≡ number_after before bytes.now }
{
    match bytes[before..].split_first_chunk::<8>() {
        Some((number, _following)) => u64::from_le_bytes(*number),
        None => unreachable!(),
    }
}
