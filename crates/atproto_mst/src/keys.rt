//! Keys, and their layers.

ghost use Rattle.std.specs.Prelude.{◌≡◌, ◌/◌, ◌≤◌, ◌*◌, length};
ghost use Rattle.atproto_mst.specs.Keys.{key_layer, zero_bits};
ghost use Rattle.atproto_mst.specs.Trees.{shared};

use sha2::{Digest, Sha256};

/// Returns the layer of a key: half the number of leading zero bits of its SHA-256, rounded down.
pub fn layer_of_key(key: &[u8]) -> u8
    ensures value { result ≡ key_layer key.now }
    ensures bound { result ≤ 128 }
{
    let digest = Sha256::digest(key);
    (leading_zeros(digest.as_slice()) / 2) as u8
}

/// Returns how many leading bits are zero.
fn leading_zeros(digest: &[u8]) -> u32
    requires { length digest.now ≤ 32 }
    ensures value { result ≡ zero_bits digest.now }
    ensures bound { result ≤ 8 * length digest.now }
{
    let mut zeros = 0;
    for byte in digest {
        if *byte != 0 {
            return zeros + byte.leading_zeros();
        }
        zeros += 8;
    }
    zeros
}

/// Returns how many leading bytes the two keys share.
pub(crate) fn shared_front(first: &[u8], second: &[u8]) -> usize
    ensures value { result ≡ shared first.now second.now }
    ensures bound { result ≤ length second.now }
{
    let most = first.len().min(second.len());
    for index in 0..most {
        if first[index] != second[index] {
            return index;
        }
    }
    most
}
