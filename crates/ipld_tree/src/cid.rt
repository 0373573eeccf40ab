//! CIDs, the names of blocks.

ghost use Rattle.std.proofs.Common.{rules};
ghost use Rattle.std.specs.Ordering.{eq_by_cmp, as_partial_cmp};
ghost use Rattle.std.specs.Cmp.{partial_order_from_own_ties};
ghost use Rattle.std.specs.Cmp.Rules.{comparing};
ghost use Rattle.std.specs.Prelude.{◌≡◌, ◌≢◌, ◌↔◌, ◌⊎◌, IsTrue, ◌+◌, ◌<◌, ◌≤◌, ◌^◌};
ghost use Rattle.std.specs.Prelude.{◌++◌, ◌∷◌, [], length, IfOk, MatchResult};
ghost use Rattle.arrayvec.specs.ArrayVec.{array_vec_len};
ghost use Rattle.ipld_tree.specs.Cid.{cid_cmp, cid_bytes, varint, cid_parts, AreCidParts};
ghost use Rattle.ipld_tree.specs.CidFault.{ReadsBinaryCid, IsVarintFault};
ghost use Rattle.ipld_tree.specs.declared.cid_error.CidError.TheVariants.{DigestTooLong};

use crate::cid_error::CidError;
use arrayvec::ArrayVec;
use std::alloc::{AllocError, Global};
use std::cmp::Ordering;
use std::hash::{Hash, Hasher};
use std::marker::Model;

/// The codec of version 0, `dag-pb`.
const DAG_PB: u64 = 0x70;

/// The hash code of version 0, SHA-256.
const SHA2_256: u64 = 0x12;

/// The greatest length of a digest.
const LONGEST_DIGEST: usize = 64;

/// A CID of version 0 or 1.
#[derive(Clone, Copy, Debug)]
pub struct Cid {
    version: u8,
    length: u8,
    codec: u64,
    hash_code: u64,
    digest: [u8; 64],
}

impl Model for Cid {
    ghost use Rattle.ipld_tree.specs.Cid.{CidParts};
    ghost use Rattle.ipld_tree.specs.CidFields.{parts, IsOrderly, fields, fields_of_parts};

    ghost Value = { CidParts };

    ghost view = { parts };

    ghost invariant = { IsOrderly };

    ghost inverse = { fields };

    ghost inverse_ok = { fields_of_parts };
}

impl Cid {
    /// Returns the CID of version 0: a `dag-pb` node by its SHA-256 digest.
    pub fn new_v0(digest: [u8; 32]) -> Cid
        ensures { result ≡ cid_parts 0 0x70 0x12 digest }
    {
        from_parts(0, DAG_PB, SHA2_256, &digest)
    }

    /// Returns a CID of version 1. Refuses only a digest of more than 64 bytes.
    pub fn new_v1(codec: u64, hash_code: u64, digest: &[u8]) -> Result<Cid, CidError>
        ensures { MatchResult result
            (λ cid. (cid ≡ cid_parts 1 codec hash_code digest.now) × (length digest.now ≤ 64))
            (λ error. (error ≡ DigestTooLong) × (64 < length digest.now)) }
    {
        if digest.len() > LONGEST_DIGEST {
            return Err(CidError::DigestTooLong);
        }
        Ok(from_parts(1, codec, hash_code, digest))
    }

    /// Returns the version, 0 or 1.
    pub fn version(&self) -> u64
        ensures valid { AreCidParts self.now }
        ensures version { result ≡ self.now.version }
    {
        u64::from(self.version)
    }

    /// Returns the code of the format of the linked block (the multicodec table): 0x70 in version
    /// 0.
    pub fn codec(&self) -> u64
        ensures { result ≡ self.now.codec }
    {
        self.codec
    }

    /// Returns the code of the hash function.
    pub fn hash_code(&self) -> u64
        ensures { result ≡ self.now.hash_code }
    {
        self.hash_code
    }

    /// Returns the digest, of at most 64 bytes.
    pub fn digest(&self) -> &[u8]
        ensures { result.now ≡ self.now.digest }
    {
        &self.digest[..self.length as usize]
    }

    /// Returns the binary form, in newly allocated memory.
    pub fn to_bytes(&self, alloc: Global) -> Result<Vec<u8>, AllocError>
        ensures bytes { IfOk result (λ v. v.items ≡ cid_bytes self.now) }
        ensures valid { AreCidParts self.now }
    {
        let mut bytes = ArrayVec::new();
        self.write_bytes(&mut bytes);
        bytes.as_slice().to_vec(alloc)
    }

    /// Replaces what `out` holds with the binary form.
    pub fn write_bytes(&self, out: &mut ArrayVec<u8, 86>)
        ensures bytes { out.new.items ≡ cid_bytes self.now }
        ensures valid { AreCidParts self.now }
    {
        out.clear();
        self.push_front(out);
        out.try_extend_from_slice(self.digest()).unwrap();
    }

    /// Appends the bytes that come before the digest.
    #[tactic(auto, using(crate::proofs::Cids::varint_length, crate::proofs::Cids::one_byte))]
    fn push_front(&self, out: &mut ArrayVec<u8, 86>)
        requires { out.old.items ≡ [] }
        ensures bytes { out.new.items ++ self.now.digest ≡ cid_bytes self.now }
        ensures room { array_vec_len out.new + length self.now.digest ≤ 86 }
        ensures valid { AreCidParts self.now }
    {
        if self.version == 0 {
            out.push(0x12);
            out.push(0x20);
        } else {
            out.push(0x01);
            push_varint(out, self.codec);
            push_varint(out, self.hash_code);
            push_varint(out, u64::from(self.length));
        }
    }
}

impl TryFrom<&[u8]> for Cid {
    type Error = CidError;

    ghost try_from_gives = { λ bytes result. ReadsBinaryCid bytes.now result };

    fn try_from(bytes: &[u8]) -> Result<Cid, CidError> {
        match bytes {
            [] => Err(CidError::Truncated),
            [0x01, following @ ..] => read_version_1(following),
            [0x12, 0x20, digest @ ..] if digest.len() == 32 => {
                Ok(from_parts(0, DAG_PB, SHA2_256, digest))
            }
            _ => Err(CidError::InvalidVersion),
        }
    }
}

/// Returns the CID of these parts, with zeros after its digest.
fn from_parts(version: u8, codec: u64, hash_code: u64, digest: &[u8]) -> Cid
    requires { AreCidParts (cid_parts version codec hash_code digest.now) }
    ensures { result ≡ cid_parts version codec hash_code digest.now }
{
    let mut padded = [0; 64];
    padded[..digest.len()].copy_from_slice(digest);
    Cid {
        version,
        codec,
        hash_code,
        length: digest.len() as u8,
        digest: padded,
    }
}

/// Reads a CID of version 1 from the bytes after its first byte.
fn read_version_1(following: &[u8]) -> Result<Cid, CidError>
    ensures { ReadsBinaryCid (0x01 ∷ following.now) result }
{
    let (codec, rest) = split_varint(following)?;
    let (hash_code, rest) = split_varint(rest)?;
    let (length, digest) = split_varint(rest)?;
    if length > LONGEST_DIGEST as u64 {
        return Err(CidError::DigestTooLong);
    }
    match digest.len().cmp(&(length as usize)) {
        Ordering::Less => Err(CidError::Truncated),
        Ordering::Equal => Ok(from_parts(1, codec, hash_code, digest)),
        Ordering::Greater => Err(CidError::TrailingBytes),
    }
}

/// Returns the number whose varint is at the front, and the bytes after it.
pub fn split_varint(bytes: &[u8]) -> Result<(u64, &[u8]), CidError>
    ensures { MatchResult result
        (λ p. (p.0 < 2 ^ 64) × (bytes.now ≡ varint p.0 ++ p.1.now))
        (λ error. IsVarintFault error bytes.now) }
{
    let mut number = 0;
    let mut unit = 1;
    for (place, &group) in bytes.iter().enumerate() {
        if is_misplaced(group, place) {
            return Err(CidError::InvalidVarint);
        }
        number += u64::from(group % 128) * unit;
        if group < 128 {
            return Ok((number, &bytes[place + 1..]));
        }
        unit *= 128;
    }
    Err(CidError::Truncated)
}

/// Returns whether no varint has this group at this place. A zero after other groups is not the
/// shortest form, and of the tenth group only the lowest bit is below 2^64.
fn is_misplaced(group: u8, place: usize) -> bool
    ensures { IsTrue result ↔ ((group ≡ 0) × (0 < place) ⊎ (place ≡ 9) × (group ≢ 1)) }
{
    (group == 0 && place > 0) || (place == 9 && group != 1)
}

/// Appends the varint of the number: groups of seven bits, the lowest first.
#[tactic(auto, using(crate::proofs::Varint::all_left))]
fn push_varint(out: &mut ArrayVec<u8, 86>, number: u64)
    requires { array_vec_len out.old + length (varint number) ≤ 86 }
    ensures items { out.new.items ≡ out.old.items ++ varint number }
    ensures len { array_vec_len out.new ≡ array_vec_len out.old + length (varint number) }
{
    let mut rest = number;
    while rest >= 128 {
        out.push(128 + (rest % 128) as u8);
        rest /= 128;
    }
    out.push(rest as u8);
}

impl PartialEq for Cid {
    ghost eq = { eq_by_cmp cid_cmp };

    ghost laws = { Prim.search (comparing, rules) depth 9 };

    fn eq(&self, other: &Cid) -> bool {
        self.cmp(other).is_eq()
    }
}

impl Eq for Cid {
    ghost laws = { Prim.search (comparing, rules) depth 9 };
}

impl Ord for Cid {
    ghost cmp = { cid_cmp };

    ghost total = { Prim.search (comparing, rules) depth 9 };

    ghost matches_partial_cmp = { Prim.search (comparing, rules) };

    ghost matches_eq = { Prim.search (comparing, rules) };

    fn cmp(&self, other: &Cid) -> Ordering {
        self.version
            .cmp(&other.version)
            .then(self.codec.cmp(&other.codec))
            .then(self.hash_code.cmp(&other.hash_code))
            .then(self.digest().cmp(other.digest()))
    }
}

impl PartialOrd for Cid {
    ghost partial_cmp = { as_partial_cmp cid_cmp };

    ghost laws = { partial_order_from_own_ties (Prim.search (comparing, rules) depth 9)
        (Prim.search (comparing, rules)) };

    fn partial_cmp(&self, other: &Cid) -> Option<Ordering> {
        Some(self.cmp(other))
    }
}

impl Hash for Cid {
    ghost use Rattle.ipld_tree.specs.CidHash.{cid_hash_input, hashes_alike};

    ghost hash_input = { cid_hash_input };

    ghost respects_eq = { hashes_alike };

    fn hash<H: Hasher>(&self, state: &mut H) {
        self.version().hash(state);
        self.codec.hash(state);
        self.hash_code.hash(state);
        self.digest().hash(state);
    }
}
