//! What a store replies to a request.

use ipld_tree::Cid;
use store_on_disk::StoreRefusal;

/// What a store replies to a request.
#[derive(Debug, Drop)]
pub enum Reply {
    /// It is done; or the answer is yes.
    Done,
    /// There is nothing to return; or the answer is no.
    Nothing,
    /// The bytes of a block.
    Block(Vec<u8>),
    Name(Cid),
    Names(Vec<Cid>),
    Count(u64),
    Refused(StoreRefusal),
}
