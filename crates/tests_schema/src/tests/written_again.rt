//! Blocks that are read and written again.

use serde_ipld_dagcbor::{Deserialize, Serialize, from_slice};
use std::alloc::Global;
use std::test::Fail;
use tests_shared::writes;

/// Fails where a block is refused, or written again as other bytes.
pub(crate) fn each_is_written_again<'de, T: Deserialize<'de> + Serialize>(
    alloc: Global,
    blocks: &[&'de [u8]],
) -> Result<(), Fail> {
    for block in blocks {
        let value: T = from_slice(alloc, block)?;
        writes(alloc, &value, block)?;
    }
    Ok(())
}
