//! Checks that untyped reads of a buffered source, skips and checks agree with untyped reads of a
//! slice.

use crate::reads::tells;
use serde_ipld_dagcbor::{DecodeError, IgnoredAny, Ipld, check_slice, from_reader, from_slice};
use std::alloc::{AllocError, Global};
use std::test::Fail;
use tests_shared::{Source, agree, is_told, writes};

/// Returns the answer of an untyped read, as text.
fn told(alloc: Global, bytes: &[u8]) -> Result<String, AllocError> {
    format!(in alloc; "{:?}", from_slice::<Ipld>(alloc, bytes))
}

/// Returns the text of an untyped read's refusal, if any.
fn refusal(alloc: Global, bytes: &[u8]) -> Result<String, AllocError> {
    format!(in alloc; "{:?}", from_slice::<Ipld>(alloc, bytes).err())
}

/// Fails if a skip or a check is refused otherwise, or is not refused.
fn skips_alike(alloc: Global, bytes: &[u8], refusal: &str) -> Result<(), Fail> {
    is_told(
        alloc,
        &from_slice::<IgnoredAny>(alloc, bytes).err(),
        refusal,
    )?;
    is_told(alloc, &check_slice(bytes).err(), refusal)
}

/// Fails if a source that shows `size` bytes a fill gives any other answer.
fn comes(alloc: Global, bytes: &[u8], size: usize, told: &str) -> Result<(), Fail> {
    let read = from_reader::<Ipld, Source<'_>>(alloc, Source::new(bytes, size));
    is_told(alloc, &read, told)
}

/// Fails if sources that show one byte a fill, or three, do not give what the slice gives: the same
/// tree, or the same refusal. Fails also if a skip or a check does not.
pub fn reads_alike(alloc: Global, bytes: &[u8]) -> Result<(), Fail> {
    skips_alike(alloc, bytes, &refusal(alloc, bytes)?)?;
    comes(alloc, bytes, 1, &told(alloc, bytes)?)?;
    comes(alloc, bytes, 3, &told(alloc, bytes)?)
}

/// Fails if the bytes are not refused for this reason, whatever pieces they come in.
pub fn is_refused(alloc: Global, bytes: &[u8], told: &str) -> Result<(), Fail> {
    reads_alike(alloc, bytes)?;
    let wanted = format!(in alloc; "Err({told})")?;
    tells::<Ipld>(alloc, bytes, &wanted)
}

/// Fails if a row's bytes are not refused for the row's reason, whatever pieces they come in.
pub fn each_is_refused(alloc: Global, rows: &[(&[u8], &str)]) -> Result<(), Fail> {
    for (bytes, told) in rows {
        is_refused(alloc, bytes, told)?;
    }
    Ok(())
}

/// Fails if the bytes are not read as a value that is written as the same bytes, whatever pieces
/// they come in.
pub fn is_written_again(alloc: Global, bytes: &[u8]) -> Result<(), Fail> {
    writes(alloc, &from_slice::<Ipld>(alloc, bytes)?, bytes)?;
    reads_alike(alloc, bytes)
}

/// Returns whether the bytes are refused as cut off.
fn is_cut(alloc: Global, bytes: &[u8]) -> bool {
    matches!(
        from_slice::<Ipld>(alloc, bytes),
        Err(DecodeError::Eof { .. })
    )
}

/// Fails if a proper prefix of the bytes is not refused as cut off.
pub fn beginnings_are_cut(alloc: Global, bytes: &[u8]) -> Result<(), Fail> {
    for count in 0..bytes.len() {
        let beginning = &bytes[..count];
        reads_alike(alloc, beginning)?;
        agree((beginning, is_cut(alloc, beginning)), (beginning, true))?;
    }
    Ok(())
}
