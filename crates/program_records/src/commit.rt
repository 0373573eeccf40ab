//! `commit`: the fields of a repository's commit.

ghost use Rattle.std.specs.Prelude.{◌≡◌, List, [], ◌∷◌, ◌++◌, codes, string_bytes, false, IfOk};
ghost use Rattle.std.specs.Prelude.{IfSome, OnOk, MatchResult};
ghost use Rattle.ipld_tree.specs.Cid.{CidParts};
ghost use Rattle.ipld_links.specs.Reaching.{stored_in};
ghost use Rattle.text_cid.specs.Texts.{cid_text};
ghost use Rattle.program_parts.specs.Lines.{SaysBoth, line};
ghost use Rattle.atproto_mst.specs.Repos.{IsStoredCommit};
ghost use Rattle.program_records.specs.Keys.{key_text};
ghost use Rattle.program_records.specs.Commits.{commit_lines, prev_text, IsNoCommitTold, IsCommitSaid};
ghost use Rattle.program_records.specs.Commits.{OfRoots, OfFile, IsCommitFile, IsNoCommitFile};

use crate::key::push_key;
use crate::repository::first_root;
use crate::words::{repo_line, told_alone};
use atproto_mst::{Commit, stored_commit};
use ipld_tree::Cid;
use program_parts::{Answer, Held, Kept, held_of, say_both};
use program_shared::ToolError;
use std::alloc::{AllocError, Global};
use std::collections::BTreeMap;
use std::io::{BufRead, Write};
use text_cid::cid_text;

/// A commit and its CID, or the line that says why there is none.
pub type CommitFound = Result<(Cid, Commit), Vec<u8>>;

/// Appends a line of a word and a CID.
fn push_cid(word: &[u8], name: &Cid, out: &mut Vec<u8>) -> Result<(), AllocError>
    ensures { OnOk result (out.new.items ≡ out.old.items ++ line (word.now ++ cid_text name.now)) }
{
    out.extend_from_slice(word)?;
    out.extend_from_slice(&cid_text(name))?;
    out.extend_from_slice(b"\n")
}

/// Appends a line of a word and a text, escaped as keys are.
fn push_text(word: &[u8], text: &String, out: &mut Vec<u8>) -> Result<(), AllocError>
    ensures { OnOk result (out.new.items
        ≡ out.old.items ++ line (word.now ++ key_text (string_bytes text.now))) }
{
    out.extend_from_slice(word)?;
    push_key(text.as_str().as_bytes(), out)?;
    out.extend_from_slice(b"\n")
}

/// Appends the line with the CID of the commit before.
fn push_prev(prev: &Option<Cid>, out: &mut Vec<u8>) -> Result<(), AllocError>
    ensures { OnOk result (out.new.items ≡ out.old.items ++ line (codes "prev " ++ prev_text prev.now)) }
{
    match prev {
        Some(name) => push_cid(b"prev ", name, out),
        None => out.extend_from_slice(b"prev none\n"),
    }
}

/// Returns the lines of the commit of this CID.
fn lines_of(alloc: Global, name: &Cid, commit: &Commit) -> Result<Vec<u8>, AllocError>
    ensures { IfOk result (λ v. v.items ≡ commit_lines name.now commit.now) }
{
    let mut out = Vec::new(alloc);
    push_cid(b"commit ", name, &mut out)?;
    push_text(b"did ", &commit.did, &mut out)?;
    push_text(b"rev ", &commit.rev, &mut out)?;
    push_cid(b"data ", &commit.data, &mut out)?;
    push_prev(&commit.prev, &mut out)?;
    Ok(out)
}

/// Reads the commit of this CID, or returns the line that says why there is none.
fn commit_at(
    alloc: Global,
    blocks: &BTreeMap<Cid, Vec<u8>>,
    root: &Cid,
) -> Result<Result<Commit, Vec<u8>>, AllocError>
    ensures { IfOk result (λ r. MatchResult r (IsStoredCommit (stored_in blocks.now) root.now)
        (λ line. IsNoCommitTold (stored_in blocks.now) root.now false [] line.items)) }
{
    match stored_commit(alloc, blocks, root) {
        Ok(commit) => Ok(Ok(commit)),
        Err(error) => {
            let line = repo_line(alloc, root, &error)?;
            Ok(Err(line))
        }
    }
}

/// Reads the commit that is the first root of a file, or returns the line that says why there is
/// none.
pub(crate) fn commit_of(alloc: Global, held: &Held) -> Result<CommitFound, AllocError>
    ensures { IfOk result (λ r. MatchResult r
        (λ p. (others : List CidParts) × (held.now.roots.items ≡ p.0 ∷ others)
        × IsStoredCommit (stored_in held.now.blocks) p.0 p.1)
        (λ line. OfRoots IsNoCommitTold (stored_in held.now.blocks) held.now.roots.items false []
        line.items)) }
{
    match first_root(alloc, &held.roots)? {
        Ok(root) => match commit_at(alloc, &held.blocks, &root)? {
            Ok(commit) => Ok(Ok((root, commit))),
            Err(line) => Ok(Err(line)),
        },
        Err(line) => Ok(Err(line)),
    }
}

/// Reads the commit that is the first root of a CAR file, or returns the line that says why there
/// is none. No other block of the file is needed. All blocks are in memory during the call.
pub fn read_commit<R: BufRead>(alloc: Global, input: &mut R) -> Result<CommitFound, ToolError>
    ensures { IfSome (R.remaining input.old) (λ b. IfOk result (λ r. MatchResult r
        (λ p. IsCommitFile b p.0 p.1) (λ line. IsNoCommitFile b line.items))) }
{
    match held_of(alloc, Kept::All, input) {
        Ok(Ok(held)) => {
            let found = commit_of(alloc, &held)?;
            Ok(found)
        }
        Ok(Err(line)) => Ok(Err(line)),
        Err(fault) => Err(fault),
    }
}

/// Returns what `commit` prints for a CAR file.
fn commit_in<R: BufRead>(alloc: Global, input: &mut R) -> Result<Answer, ToolError>
    ensures { IfSome (R.remaining input.old)
        (λ b. IfOk result (λ p. OfFile IsCommitSaid b p.0.1 p.0.0.items p.1.items)) }
{
    match read_commit(alloc, input) {
        Ok(Ok((name, commit))) => {
            let lines = lines_of(alloc, &name, &commit)?;
            Ok(((lines, true), Vec::new(alloc)))
        }
        Ok(Err(line)) => Ok(told_alone(alloc, line)),
        Err(fault) => Err(fault),
    }
}

/// Writes the fields of the commit that is the file's first root, or an error message that says why
/// there is none. Returns whether there is one. The blocks of the input are in memory.
pub fn write_commit<R: BufRead, W: Write, V: Write>(
    alloc: Global,
    input: &mut R,
    output: &mut W,
    errors: &mut V,
) -> Result<bool, ToolError>
    ensures { IfSome (R.remaining input.old) (λ b.
        SaysBoth (OfFile IsCommitSaid b) (W.contents output.old) (V.contents errors.old) result
        (W.contents output.new) (V.contents errors.new)) }
{
    match commit_in(alloc, input) {
        Ok((said, told)) => say_both(said, &told, output, errors),
        Err(fault) => Err(fault),
    }
}
