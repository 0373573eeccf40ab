//! What is verified of a commit, as a block.

ghost use Rattle.std.specs.Prelude.{◌≡◌, [], ◌∷◌, map, Some, codes, true, IfOk};
ghost use Rattle.ipld_tree.specs.Cid.{cid_bytes};
ghost use Rattle.ipld_tree.specs.Tree.{bytes, link, entries_tree};
ghost use Rattle.dagcbor_write.specs.Trees.{field};
ghost use Rattle.dagcbor_write.specs.Answers.{AreSpellingOf};
ghost use Rattle.atproto_mst.specs.Changes.{changes};
ghost use Rattle.atproto_mst.specs.Commits.{commit_tree};
ghost use Rattle.abi_memory_calls.specs.EventBlocks.{verified_tree, change_of_row};

use atproto_events::{Change, Commit, Verified};
use dagcbor_heads::{Write, WriteResult};
use dagcbor_write::{Field, Serialize, Serializer, to_vec, write_struct};
use ipld_tree::{ByteSlice, Cid};
use std::alloc::{AllocError, Global};

/// A key, its record before, and its record after.
type Row<'a> = (ByteSlice<'a>, Option<Cid>, Option<Cid>);

/// The description of a verified commit.
#[derive(Clone, Copy)]
struct Told<'a> {
    /// The name of the commit.
    name: Cid,
    before: Cid,
    commit: &'a Commit,
    /// The bytes that are signed.
    signed: &'a [u8],
    rows: &'a [Row<'a>],
}

impl<'a> Serialize for Told<'a> {
    ghost tree = { λ v. entries_tree (
        field (codes "cid") (Some (link (cid_bytes v.name))) ∷
        field (codes "before") (Some (link (cid_bytes v.before))) ∷
        field (codes "commit") (commit_tree v.commit.now) ∷
        field (codes "signed") (Some (bytes v.signed.now)) ∷
        field (codes "changes") (⟦<&'a [Row<'a>] as Serialize>⟧.tree v.rows) ∷ []) };

    ghost takes_memory = { true };

    fn serialize<W: Write>(&self, alloc: Global, ser: &mut Serializer<W>) -> WriteResult<(), W> {
        let row = (Field("changes", &self.rows), ());
        let signed = ByteSlice(self.signed);
        let row = (Field("signed", &signed), row);
        let row = (Field("commit", self.commit), row);
        let row = (Field("before", &self.before), row);
        let row = (Field("cid", &self.name), row);
        write_struct(alloc, row, ser)
    }
}

/// Returns the changes, each as a row.
fn rows_of(alloc: Global, done: &[Change]) -> Result<Vec<Row<'_>>, AllocError>
    ensures { IfOk result (λ v. map change_of_row v.items ≡ changes done.now) }
{
    let mut rows = Vec::new(alloc);
    for change in done {
        rows.reserve(1)?;
        rows.push_reserved((ByteSlice(&change.key), change.old, change.new));
    }
    Ok(rows)
}

/// Returns the block that describes what is verified of the commit of this name.
pub(crate) fn verified_block(
    alloc: Global,
    name: &Cid,
    verified: &Verified,
) -> Result<Vec<u8>, AllocError>
    ensures { IfOk result (λ v. AreSpellingOf (verified_tree name.now verified.now) v.items) }
{
    let rows = rows_of(alloc, &verified.changes)?;
    let told = Told {
        name: *name,
        before: verified.before,
        commit: &verified.commit,
        signed: &verified.signed,
        rows: &rows,
    };
    // Each can be encoded, so only memory can run out.
    match to_vec(alloc, &told) {
        Ok(block) => Ok(block),
        Err(_) => Err(AllocError),
    }
}
