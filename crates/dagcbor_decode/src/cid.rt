//! Tests whether bytes are a CID.

ghost use Rattle.std.specs.Prelude.{◌≡◌, ◌↔◌, ◌<◌, ◌≤◌, IsTrue, length};
ghost use Rattle.ipld_tree.specs.Cid.{IsCid};
ghost use Rattle.dagcbor_decode.specs.CidTest.{is_cid};

use ipld_tree::Cid;

/// Returns whether these are fields of one byte each, and the digest has `count` bytes.
#[inline(always)]
fn are_short_fields(codec: u8, hash_code: u8, count: u8, digest: &[u8]) -> bool
    ensures { IsTrue result → (codec < 128) × (hash_code < 128) × (count ≤ 64)
        × (length digest.now ≡ count) }
{
    if codec >= 128 || hash_code >= 128 || count > 64 {
        return false;
    }
    digest.len() == usize::from(count)
}

/// Returns whether the bytes are a CID of version 1 with fields of one byte each, as most are.
#[inline(always)]
fn is_plain_cid(bytes: &[u8]) -> bool
    ensures { IsTrue result → IsCid bytes.now }
{
    let Some((version, fields)) = bytes.split_first() else {
        return false;
    };
    let Some((codec, fields)) = fields.split_first() else {
        return false;
    };
    let Some((hash_code, fields)) = fields.split_first() else {
        return false;
    };
    let Some((count, digest)) = fields.split_first() else {
        return false;
    };
    if *version != 1 {
        return false;
    }
    are_short_fields(*codec, *hash_code, *count, digest)
}

#[cold]
#[inline(never)]
fn is_any_cid(bytes: &[u8]) -> bool
    ensures { IsTrue result ↔ IsCid bytes.now }
{
    Cid::try_from(bytes).is_ok()
}

/// Returns whether the bytes are a CID.
#[inline(always)]
pub fn is_cid(bytes: &[u8]) -> bool
    ensures { result ≡ is_cid bytes.now }
{
    is_plain_cid(bytes) || is_any_cid(bytes)
}
