//! Blocks that describe a repository, and its commit.

ghost use Rattle.std.specs.Prelude.{◌≡◌, [], ◌∷◌, map, Some, codes, true, string_bytes, IfOk};
ghost use Rattle.ipld_tree.specs.Cid.{cid_bytes};
ghost use Rattle.ipld_tree.specs.Tree.{bytes, link, text, entries_tree};
ghost use Rattle.dagcbor_write.specs.Trees.{field};
ghost use Rattle.atproto_mst.specs.Entries.{entries};
ghost use Rattle.abi_memory_calls.specs.Blocks.{repo_tree, commit_tree, IsBlockOf, entry_of_row};

use atproto_mst::{Commit, MstEntry, Repo, spell_unsigned};
use dagcbor_heads::{Write, WriteResult};
use dagcbor_write::{Field, Serialize, Serializer, to_vec, write_struct};
use ipld_tree::{ByteSlice, Cid};
use std::alloc::{AllocError, Global};

/// A key, and the CID of its record.
type Row<'a> = (ByteSlice<'a>, Cid);

/// The description of a repository.
#[derive(Clone, Copy)]
struct Told<'a> {
    commit: &'a Commit,
    /// The bytes that are signed.
    signed: &'a [u8],
    rows: &'a [Row<'a>],
}

impl<'a> Serialize for Told<'a> {
    ghost tree = { λ v. entries_tree (
        field (codes "did") (Some (text (string_bytes v.commit.now.did))) ∷
        field (codes "rev") (Some (text (string_bytes v.commit.now.rev))) ∷
        field (codes "sig") (Some (bytes v.commit.now.sig.0.items)) ∷
        field (codes "data") (Some (link (cid_bytes v.commit.now.data))) ∷
        field (codes "prev") (⟦<Option<Cid> as Serialize>⟧.tree v.commit.now.prev) ∷
        field (codes "signed") (Some (bytes v.signed.now)) ∷
        field (codes "records") (⟦<&'a [Row<'a>] as Serialize>⟧.tree v.rows) ∷ []) };

    ghost takes_memory = { true };

    fn serialize<W: Write>(&self, alloc: Global, ser: &mut Serializer<W>) -> WriteResult<(), W> {
        let row = (Field("records", &self.rows), ());
        let signed = ByteSlice(self.signed);
        let row = (Field("signed", &signed), row);
        let row = (Field("prev", &self.commit.prev), row);
        let row = (Field("data", &self.commit.data), row);
        let row = (Field("sig", &self.commit.sig), row);
        let row = (Field("rev", &self.commit.rev), row);
        let row = (Field("did", &self.commit.did), row);
        write_struct(alloc, row, ser)
    }
}

/// Returns the keys of records, each with its record's CID.
fn rows_of(alloc: Global, records: &[MstEntry]) -> Result<Vec<Row<'_>>, AllocError>
    ensures { IfOk result (λ v. map entry_of_row v.items ≡ entries records.now) }
{
    let mut rows = Vec::new(alloc);
    for record in records {
        rows.reserve(1)?;
        rows.push_reserved((ByteSlice(&record.key), record.value));
    }
    Ok(rows)
}

/// Returns the block that describes a repository.
pub(crate) fn repo_block(alloc: Global, repo: &Repo) -> Result<Vec<u8>, AllocError>
    ensures { IfOk result (λ v.
        IsBlockOf (λ signed. repo_tree repo.now.commit signed (entries repo.now.records.items))
        repo.now.commit v.items) }
{
    let signed = spell_unsigned(alloc, &repo.commit)?;
    let rows = rows_of(alloc, &repo.records)?;
    let told = Told {
        commit: &repo.commit,
        signed: &signed,
        rows: &rows,
    };
    // Each can be encoded, so only memory can run out.
    match to_vec(alloc, &told) {
        Ok(block) => Ok(block),
        Err(_) => Err(AllocError),
    }
}

/// The description of a commit.
#[derive(Clone, Copy)]
struct ToldCommit<'a> {
    name: Cid,
    commit: &'a Commit,
    /// The bytes that are signed.
    signed: &'a [u8],
}

impl<'a> Serialize for ToldCommit<'a> {
    ghost tree = { λ v. entries_tree (
        field (codes "cid") (Some (link (cid_bytes v.name))) ∷
        field (codes "did") (Some (text (string_bytes v.commit.now.did))) ∷
        field (codes "rev") (Some (text (string_bytes v.commit.now.rev))) ∷
        field (codes "sig") (Some (bytes v.commit.now.sig.0.items)) ∷
        field (codes "data") (Some (link (cid_bytes v.commit.now.data))) ∷
        field (codes "prev") (⟦<Option<Cid> as Serialize>⟧.tree v.commit.now.prev) ∷
        field (codes "signed") (Some (bytes v.signed.now)) ∷ []) };

    ghost takes_memory = { true };

    fn serialize<W: Write>(&self, alloc: Global, ser: &mut Serializer<W>) -> WriteResult<(), W> {
        let signed = ByteSlice(self.signed);
        let row = (Field("signed", &signed), ());
        let row = (Field("prev", &self.commit.prev), row);
        let row = (Field("data", &self.commit.data), row);
        let row = (Field("sig", &self.commit.sig), row);
        let row = (Field("rev", &self.commit.rev), row);
        let row = (Field("did", &self.commit.did), row);
        let row = (Field("cid", &self.name), row);
        write_struct(alloc, row, ser)
    }
}

/// Returns the block that describes the commit of this name.
pub(crate) fn commit_block(alloc: Global, name: Cid, commit: &Commit) -> Result<Vec<u8>, AllocError>
    ensures { IfOk result (λ v. IsBlockOf (commit_tree name commit.now) commit.now v.items) }
{
    let signed = spell_unsigned(alloc, commit)?;
    let told = ToldCommit {
        name,
        commit,
        signed: &signed,
    };
    // Each can be encoded, so only memory can run out.
    match to_vec(alloc, &told) {
        Ok(block) => Ok(block),
        Err(_) => Err(AllocError),
    }
}
