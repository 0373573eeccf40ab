//! The facts about a file.

ghost use Rattle.std.specs.Prelude.{◌≡◌};
ghost use Rattle.program_inspect.specs.Facts.{index_word};

use crate::rows::Row;
use ipld_tree::Cid;

/// What is reported of the index that a file says it has.
#[derive(Clone, Copy, Debug, PartialEq, Eq)]
pub enum Index {
    /// It was not judged.
    There,
    Right,
    Wrong,
}

/// Returns the word for an index, or for none.
pub fn index_word(index: Option<Index>) -> &'static str
    ensures { result.now ≡ index_word index }
{
    match index {
        None => "no",
        Some(Index::There) => "yes",
        Some(Index::Right) => "right",
        Some(Index::Wrong) => "wrong",
    }
}

/// A root, and whether its block is there.
#[derive(Clone, Copy, Drop)]
pub struct Root {
    pub cid: Cid,
    pub there: bool,
}

/// The facts about a file.
#[derive(Drop)]
pub struct Facts {
    pub version: u64,
    /// What is reported of the index, if the file says that it has one.
    pub index: Option<Index>,
    pub roots: Vec<Root>,
    /// The number and total length of all sections' blocks.
    pub all: Row,
    /// How many sections have the CID of an earlier one.
    pub repeated: u64,
    /// The length of the shortest block, in bytes.
    pub least: u64,
    /// The length of the longest block, in bytes.
    pub greatest: u64,
    pub codecs: Vec<(u64, Row)>,
    pub hashes: Vec<(u64, Row)>,
    /// How many roots and links lead to no block.
    pub missing: u64,
}
