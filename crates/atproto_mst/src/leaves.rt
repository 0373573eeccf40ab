//! Entries with the layers of their keys.

ghost use Rattle.std.specs.Prelude.{◌≡◌, ◌≤◌, ◌+◌, length};
ghost use Rattle.atproto_mst.specs.Trees.{lower_run};
ghost use Rattle.atproto_mst.specs.Placed.{all_told, upper_rest};

use ipld_tree::Cid;

/// An entry with the layer of its key.
#[derive(Clone, Copy, Debug)]
pub(crate) struct Placed<'a> {
    pub layer: u8,
    pub key: &'a [u8],
    pub value: Cid,
}

/// Returns how many leaves come before the first that is not below the layer.
pub(crate) fn count_lower(leaves: &[Placed<'_>], layer: u8) -> usize
    ensures count { result ≡ length (lower_run layer (all_told leaves.now)) }
    ensures bound { result ≤ length leaves.now }
{
    let mut count = 0;
    for leaf in leaves {
        if leaf.layer >= layer {
            return count;
        }
        count += 1;
    }
    count
}

/// Splits the leaves before the first that is not below the layer.
pub(crate) fn split_lower<'a, 'b>(
    leaves: &'b [Placed<'a>],
    layer: u8,
) -> (&'b [Placed<'a>], &'b [Placed<'a>])
    ensures lower { all_told result.0.now ≡ lower_run layer (all_told leaves.now) }
    ensures rest { all_told result.1.now ≡ upper_rest layer (all_told leaves.now) }
    ensures bound { length result.1.now ≤ length leaves.now }
{
    leaves.split_at(count_lower(leaves, layer))
}
