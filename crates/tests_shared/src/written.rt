//! Comparisons of written values with expected bytes.

use crate::told::{agree, is_told};
use dagcbor_write::{Serialize, to_vec};
use std::alloc::Global;
use std::test::Fail;

/// Fails if the value is written as other bytes, or is refused.
pub fn writes<T: Serialize>(alloc: Global, value: &T, spelling: &[u8]) -> Result<(), Fail> {
    let written = to_vec(alloc, value)?;
    agree(written.as_slice(), spelling)
}

/// Fails if the value of a row is written as other bytes than the row's, or is refused.
pub fn each_writes<T: Serialize>(alloc: Global, rows: &[(T, &[u8])]) -> Result<(), Fail> {
    for (value, spelling) in rows {
        writes(alloc, value, spelling)?;
    }
    Ok(())
}

/// Fails if a write gives any other answer, as text.
pub fn is_unwritten<T: Serialize>(alloc: Global, value: &T, wanted: &str) -> Result<(), Fail> {
    is_told(alloc, &to_vec(alloc, value), wanted)
}
