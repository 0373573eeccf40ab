//! The pieces of a partly stored tree.

ghost use Rattle.std.specs.Prelude.{◌≡◌, ◌≤◌, length, take, drop};
ghost use Rattle.atproto_events.specs.Pieces.{pieces, piece_of, lower_pieces, upper_pieces};
ghost use Rattle.atproto_events.specs.Pieces.{top_piece};
ghost use Rattle.atproto_events.specs.Undone.{comes_before, from_entry, EndsBefore, IsNotBefore};

use ipld_tree::Cid;

/// An entry, or a subtree that is not stored.
#[derive(Drop)]
pub(crate) struct Piece {
    /// The layer of the key, or of the subtree's root.
    pub layer: u8,
    /// The key of an entry, `None` for a subtree.
    pub key: Option<Vec<u8>>,
    /// The record of an entry, or the CID of the subtree's root.
    pub cid: Cid,
}

/// Splits the pieces before the first that is not below the layer.
pub(crate) fn split_lower(all: &[Piece], layer: u8) -> (&[Piece], &[Piece])
    ensures lower { pieces result.0.now ≡ lower_pieces layer (pieces all.now) }
    ensures rest { pieces result.1.now ≡ upper_pieces layer (pieces all.now) }
    ensures bound { length result.1.now ≤ length all.now }
{
    all.split_at(count_lower(all, layer))
}

/// Returns how many pieces come before the first that is not below the layer.
fn count_lower(all: &[Piece], layer: u8) -> usize
    ensures count { result ≡ length (lower_pieces layer (pieces all.now)) }
    ensures bound { result ≤ length all.now }
{
    let mut count = 0;
    for piece in all {
        if piece.layer >= layer {
            return count;
        }
        count += 1;
    }
    count
}

/// Returns the greatest layer of a piece, or 0 if there are no pieces.
pub(crate) fn top_of(all: &[Piece]) -> u8
    ensures { result ≡ top_piece (pieces all.now) }
{
    let mut top = 0;
    for piece in all {
        top = piece.layer.max(top);
    }
    top
}

/// Returns the index of the first entry at or after `from`, or the length if there is no entry.
pub(crate) fn next_entry(all: &[Piece], from: usize) -> usize
    requires { from ≤ length all.now }
    ensures entry { drop result (pieces all.now) ≡ from_entry (drop from (pieces all.now)) }
    ensures after { from ≤ result }
    ensures bound { result ≤ length all.now }
{
    let mut at = from;
    while at < all.len() {
        if all[at].key.is_some() {
            return at;
        }
        at += 1;
    }
    at
}

/// Returns the index of the key among pieces whose keys rise. The piece right before it, if there
/// is one, is an entry with a smaller key, and the next entry has this key or a greater one.
pub(crate) fn find_place(all: &[Piece], key: &[u8]) -> usize
    ensures bound { result ≤ length all.now }
    ensures front { EndsBefore key.now (take result (pieces all.now)) }
    ensures rest { IsNotBefore key.now (from_entry (drop result (pieces all.now))) }
{
    let mut low = 0;
    let mut high = all.len();
    while low < high {
        let middle = low + (high - low) / 2;
        let at = next_entry(all, middle);
        if at < high && is_before(&all[at], key) {
            low = at + 1;
        } else {
            high = middle;
        }
    }
    low
}

/// Returns whether the piece is an entry whose key comes before this key.
fn is_before(piece: &Piece, key: &[u8]) -> bool
    ensures { result ≡ comes_before key.now (piece_of piece.now).key }
{
    match &piece.key {
        Some(other) => other.as_slice().cmp(key).is_lt(),
        None => false,
    }
}
