//! A store of blocks in memory.

ghost use Rattle.std.specs.List.{AllByRecursion};
ghost use Rattle.dagcbor_blocks.specs.Sound.{IsSoundEntry};

use serde_ipld_dagcbor::Cid;
use std::alloc::Global;
use std::collections::BTreeMap;

/// Blocks in memory, each under its name.
#[derive(Drop)]
pub struct Blocks {
    pub(crate) alloc: Global,
    pub(crate) blocks: BTreeMap<Cid, Vec<u8>>,
    // Each block is sound under its name.
    ghost sound: { ∥ AllByRecursion IsSoundEntry blocks.entries ∥₁ },
}
