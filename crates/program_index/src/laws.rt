//! A law about indexes, which is the contract of a function that does nothing.

ghost use Rattle.program_index.specs.Finds.{IndexLists};

/// The index that `index` writes lists each verified block that is among the first 16 with its
/// multihash, if there are less than 2^32 entries and the file has less than 2^64 bytes.
pub fn index_lists()
    ensures { IndexLists }
{}
