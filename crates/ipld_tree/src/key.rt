//! The order of a map's keys.

ghost use Rattle.std.specs.Prelude.{◌≡◌};
ghost use Rattle.ipld_tree.specs.Key.{comes_before, key_cmp};

use std::cmp::Ordering;

/// Returns the order of two keys: the shorter first, and keys of equal length by their bytes.
pub fn key_cmp(key: &[u8], other: &[u8]) -> Ordering
    ensures { result ≡ key_cmp key.now other.now }
{
    match key.len().cmp(&other.len()) {
        Ordering::Equal => key.cmp(other),
        order => order,
    }
}

/// Returns whether a key comes before another. Keys of equal length are compared by their first
/// bytes first.
#[inline]
pub fn comes_before(key: &[u8], other: &[u8]) -> bool
    ensures { result ≡ comes_before key.now other.now }
{
    if key.len() != other.len() {
        return key.len() < other.len();
    }
    if let (Some(first), Some(second)) = (key.first(), other.first()) {
        if *first != *second {
            return *first < *second;
        }
    }
    key.cmp(other).is_lt()
}
