//! An entry of an index.

ghost use Rattle.std.proofs.Common.{rules};
ghost use Rattle.std.specs.Ordering.{eq_by_cmp, as_partial_cmp};
ghost use Rattle.std.specs.Cmp.{partial_order_from_own_ties};
ghost use Rattle.std.specs.Cmp.Rules.{comparing};
ghost use Rattle.std.specs.Prelude.{◌≡◌, ◌≤◌, length};
ghost use Rattle.files_index.specs.Index.{entry_cmp};

use arrayvec::ArrayVec;
use ipld_tree::Cid;
use std::cmp::Ordering;
use std::marker::Model;

/// The greatest length of a digest, in bytes.
const LONGEST_DIGEST: usize = 64;

/// An entry: a multihash, and where its section begins, counted from the first byte of the file of
/// version 1.
#[derive(Debug, Drop)]
pub struct Entry {
    hash_code: u64,
    digest: ArrayVec<u8, LONGEST_DIGEST>,
    offset: u64,
}

impl Model for Entry {
    ghost use Rattle.files_index.specs.Index.{EntryParts};

    ghost Value = { EntryParts };

    ghost view = { λ e. record {
      hash_code = e.hash_code;
      digest = e.digest.items;
      offset = e.offset;
    } };
}

impl Entry {
    /// Returns the entry of a section with this name at this offset.
    pub fn new(cid: &Cid, offset: u64) -> Entry
        ensures hash_code { result.hash_code ≡ cid.now.hash_code }
        ensures digest { result.digest ≡ cid.now.digest }
        ensures offset { result.offset ≡ offset }
    {
        let mut digest = ArrayVec::new();
        // The contract of `version` tells the proof that a digest has at most 64 bytes.
        let _version = cid.version();
        digest.try_extend_from_slice(cid.digest()).unwrap();
        Entry {
            hash_code: cid.hash_code(),
            digest,
            offset,
        }
    }

    /// Returns the entry of a section with this hash code and digest at this offset.
    pub fn of_digest(hash_code: u64, digest: &[u8], offset: u64) -> Entry
        requires { length digest.now ≤ 64 }
        ensures hash_code { result.hash_code ≡ hash_code }
        ensures digest { result.digest ≡ digest.now }
        ensures offset { result.offset ≡ offset }
    {
        let mut bytes = ArrayVec::new();
        bytes.try_extend_from_slice(digest).unwrap();
        Entry {
            hash_code,
            digest: bytes,
            offset,
        }
    }

    /// Returns a copy of the entry.
    pub fn copied(&self) -> Entry
        ensures { result ≡ self.now }
    {
        Entry::of_digest(self.hash_code, self.digest(), self.offset)
    }

    /// Returns the code of the hash function.
    pub fn hash_code(&self) -> u64
        ensures { result ≡ self.now.hash_code }
    {
        self.hash_code
    }

    /// Returns the digest, of at most 64 bytes.
    pub fn digest(&self) -> &[u8]
        ensures digest { result.now ≡ self.now.digest }
        ensures short { length self.now.digest ≤ 64 }
    {
        self.digest.as_slice()
    }

    /// Returns the offset of the section: how many bytes of the file of version 1 come before it.
    pub fn offset(&self) -> u64
        ensures { result ≡ self.now.offset }
    {
        self.offset
    }
}

impl PartialEq for Entry {
    ghost eq = { eq_by_cmp entry_cmp };

    ghost laws = { Prim.search (comparing, rules) depth 9 };

    fn eq(&self, other: &Entry) -> bool {
        self.cmp(other).is_eq()
    }
}

impl Eq for Entry {
    ghost laws = { Prim.search (comparing, rules) depth 9 };
}

impl Ord for Entry {
    ghost cmp = { entry_cmp };

    ghost total = { Prim.search (comparing, rules) depth 9 };

    ghost matches_partial_cmp = { Prim.search (comparing, rules) };

    ghost matches_eq = { Prim.search (comparing, rules) };

    fn cmp(&self, other: &Entry) -> Ordering {
        self.hash_code
            .cmp(&other.hash_code)
            .then(self.digest().len().cmp(&other.digest().len()))
            .then(self.digest().cmp(other.digest()))
            .then(self.offset.cmp(&other.offset))
    }
}

impl PartialOrd for Entry {
    ghost partial_cmp = { as_partial_cmp entry_cmp };

    ghost laws = { partial_order_from_own_ties (Prim.search (comparing, rules) depth 9)
        (Prim.search (comparing, rules)) };

    fn partial_cmp(&self, other: &Entry) -> Option<Ordering> {
        Some(self.cmp(other))
    }
}
