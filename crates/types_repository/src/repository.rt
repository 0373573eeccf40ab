//! The types of repository.ipldsch, by ./dagcbor-types. Change that file, and run it again.

ghost use Rattle.std.specs.Prelude.{[], ◌∷◌, Option, Some, codes, pos, string_bytes, true, refl};
ghost use Rattle.serde_ipld_dagcbor.specs.Cid.{cid_bytes};
ghost use Rattle.serde_ipld_dagcbor.specs.Tree.{text, bytes, integer, link, entries_tree};
ghost use Rattle.serde_ipld_dagcbor.specs.Trees.{field};
ghost use Rattle.types_repository.specs.Repository.{CommitView, commit_shape};
ghost use Rattle.types_repository.specs.Repository.{UnsignedCommitView, unsigned_commit_shape};
ghost use Rattle.types_repository.specs.Repository.{EntryView, entry_shape};
ghost use Rattle.types_repository.specs.Repository.{NodeView, node_shape};

use serde_ipld_dagcbor::{
    Bytes, Cid, Closed, Deserialize, DeserializeOwned, Deserializer, Field, Read, ReadResult,
    Required, Serialize, Serializer, Shown, Write, WriteResult, read_struct, write_struct,
};
use std::alloc::Global;

/// Who signs, as a DID.
pub type Did = String;

/// A signed state of a repository of the AT Protocol.
#[derive(Debug, Drop)]
pub struct Commit {
    pub did: Did,
    pub version: u8,
    pub data: Cid,
    pub rev: String,
    pub prev: Option<Cid>,
    pub sig: Bytes,
}

/// What is signed: a commit but for its signature.
#[derive(Debug, Drop)]
pub struct UnsignedCommit {
    pub did: Did,
    pub version: u8,
    pub data: Cid,
    pub rev: String,
    pub prev: Option<Cid>,
}

/// An entry: how many bytes of its key are those of the one before it, the others, the record, and
/// the node between it and the next.
#[derive(Debug, Drop)]
pub struct Entry {
    pub p: u64,
    pub k: Bytes,
    pub v: Cid,
    pub t: Option<Cid>,
}

/// A node of a repository's tree: what stands left of its entries, and these.
#[derive(Debug, Drop)]
pub struct Node {
    pub l: Option<Cid>,
    pub e: Vec<Entry>,
}

impl Serialize for Commit {
    ghost tree = { λ v. entries_tree (
        field (codes "did") (Some (text (string_bytes v.did))) ∷
        field (codes "rev") (Some (text (string_bytes v.rev))) ∷
        field (codes "sig") (Some (bytes v.sig.0.items)) ∷
        field (codes "data") (Some (link (cid_bytes v.data))) ∷
        field (codes "prev") (⟦<Option<Cid> as Serialize>⟧.tree v.prev) ∷
        field (codes "version") (Some (integer (pos v.version))) ∷ []) };

    ghost takes_memory = { true };

    fn serialize<W: Write>(&self, alloc: Global, ser: &mut Serializer<W>) -> WriteResult<(), W> {
        let row = ();
        let row = (Field("version", &self.version), row);
        let row = (Field("prev", &self.prev), row);
        let row = (Field("data", &self.data), row);
        let row = (Field("sig", &self.sig), row);
        let row = (Field("rev", &self.rev), row);
        let row = (Field("did", &self.did), row);
        write_struct(alloc, row, ser)
    }
}

impl Shown for Commit {
    ghost View = { CommitView };

    ghost meaning = { λ v. (
      string_bytes v.did,
      (
        v.version,
        (
          cid_bytes v.data,
          (string_bytes v.rev, (⟦<Option<Cid> as Shown>⟧.meaning v.prev, (v.sig.0.items, tt))),
        ),
      ),
    ) };

    ghost shape = { commit_shape };
}

impl<'de> Deserialize<'de> for Commit {
    fn deserialize<R: Read>(alloc: Global, de: &mut Deserializer<'de, R>) -> ReadResult<Self, R> {
        let names = &["did", "version", "data", "rev", "prev", "sig"];
        let row = read_struct(alloc, "Commit", names, de)?;
        let (Required(did), row) = row;
        let (Required(version), row) = row;
        let (Required(data), row) = row;
        let (Required(rev), row) = row;
        let (Required(prev), row) = row;
        let (Required(sig), Closed) = row;
        Ok(Commit {
            did,
            version,
            data,
            rev,
            prev,
            sig,
        })
    }
}

impl<'de> DeserializeOwned<'de> for Commit {
    ghost owned = { refl };
}

impl Serialize for UnsignedCommit {
    ghost tree = { λ v. entries_tree (
        field (codes "did") (Some (text (string_bytes v.did))) ∷
        field (codes "rev") (Some (text (string_bytes v.rev))) ∷
        field (codes "data") (Some (link (cid_bytes v.data))) ∷
        field (codes "prev") (⟦<Option<Cid> as Serialize>⟧.tree v.prev) ∷
        field (codes "version") (Some (integer (pos v.version))) ∷ []) };

    ghost takes_memory = { true };

    fn serialize<W: Write>(&self, alloc: Global, ser: &mut Serializer<W>) -> WriteResult<(), W> {
        let row = ();
        let row = (Field("version", &self.version), row);
        let row = (Field("prev", &self.prev), row);
        let row = (Field("data", &self.data), row);
        let row = (Field("rev", &self.rev), row);
        let row = (Field("did", &self.did), row);
        write_struct(alloc, row, ser)
    }
}

impl Shown for UnsignedCommit {
    ghost View = { UnsignedCommitView };

    ghost meaning = { λ v. (
      string_bytes v.did,
      (
        v.version,
        (cid_bytes v.data, (string_bytes v.rev, (⟦<Option<Cid> as Shown>⟧.meaning v.prev, tt))),
      ),
    ) };

    ghost shape = { unsigned_commit_shape };
}

impl<'de> Deserialize<'de> for UnsignedCommit {
    fn deserialize<R: Read>(alloc: Global, de: &mut Deserializer<'de, R>) -> ReadResult<Self, R> {
        let names = &["did", "version", "data", "rev", "prev"];
        let row = read_struct(alloc, "UnsignedCommit", names, de)?;
        let (Required(did), row) = row;
        let (Required(version), row) = row;
        let (Required(data), row) = row;
        let (Required(rev), row) = row;
        let (Required(prev), Closed) = row;
        Ok(UnsignedCommit {
            did,
            version,
            data,
            rev,
            prev,
        })
    }
}

impl<'de> DeserializeOwned<'de> for UnsignedCommit {
    ghost owned = { refl };
}

impl Serialize for Entry {
    ghost tree = { λ v. entries_tree (
        field (codes "k") (Some (bytes v.k.0.items)) ∷
        field (codes "p") (Some (integer (pos v.p))) ∷
        field (codes "t") (⟦<Option<Cid> as Serialize>⟧.tree v.t) ∷
        field (codes "v") (Some (link (cid_bytes v.v))) ∷ []) };

    ghost takes_memory = { true };

    fn serialize<W: Write>(&self, alloc: Global, ser: &mut Serializer<W>) -> WriteResult<(), W> {
        let row = ();
        let row = (Field("v", &self.v), row);
        let row = (Field("t", &self.t), row);
        let row = (Field("p", &self.p), row);
        let row = (Field("k", &self.k), row);
        write_struct(alloc, row, ser)
    }
}

impl Shown for Entry {
    ghost View = { EntryView };

    ghost meaning = { λ v. (
      v.p,
      (v.k.0.items, (cid_bytes v.v, (⟦<Option<Cid> as Shown>⟧.meaning v.t, tt))),
    ) };

    ghost shape = { entry_shape };
}

impl<'de> Deserialize<'de> for Entry {
    fn deserialize<R: Read>(alloc: Global, de: &mut Deserializer<'de, R>) -> ReadResult<Self, R> {
        let names = &["p", "k", "v", "t"];
        let row = read_struct(alloc, "Entry", names, de)?;
        let (Required(p), row) = row;
        let (Required(k), row) = row;
        let (Required(v), row) = row;
        let (Required(t), Closed) = row;
        Ok(Entry { p, k, v, t })
    }
}

impl<'de> DeserializeOwned<'de> for Entry {
    ghost owned = { refl };
}

impl Serialize for Node {
    ghost tree = { λ v. entries_tree (
        field (codes "e") (⟦<Vec<Entry> as Serialize>⟧.tree v.e) ∷
        field (codes "l") (⟦<Option<Cid> as Serialize>⟧.tree v.l) ∷ []) };

    ghost takes_memory = { true };

    fn serialize<W: Write>(&self, alloc: Global, ser: &mut Serializer<W>) -> WriteResult<(), W> {
        let row = ();
        let row = (Field("l", &self.l), row);
        let row = (Field("e", &self.e), row);
        write_struct(alloc, row, ser)
    }
}

impl Shown for Node {
    ghost View = { NodeView };

    ghost meaning = { λ v. (
      ⟦<Option<Cid> as Shown>⟧.meaning v.l,
      (⟦<Vec<Entry> as Shown>⟧.meaning v.e, tt),
    ) };

    ghost shape = { node_shape };
}

impl<'de> Deserialize<'de> for Node {
    fn deserialize<R: Read>(alloc: Global, de: &mut Deserializer<'de, R>) -> ReadResult<Self, R> {
        let names = &["l", "e"];
        let row = read_struct(alloc, "Node", names, de)?;
        let (Required(l), row) = row;
        let (Required(e), Closed) = row;
        Ok(Node { l, e })
    }
}

impl<'de> DeserializeOwned<'de> for Node {
    ghost owned = { refl };
}
