//! Names that are to be removed, and what is written of them.

ghost use Rattle.std.specs.Prelude.{◌≡◌, ◌<◌, ◌-◌, ◌^◌, [], IfOk, OnOk, flat_map};
ghost use Rattle.store_on_disk.specs.Ends.{Quiet};
ghost use Rattle.store_on_disk.specs.Stored.{FailsByStore};
ghost use Rattle.ipld_tree.specs.Cid.{AreCidParts};
ghost use Rattle.program_parts.specs.Lines.{SaysText};
ghost use Rattle.program_dagstore.specs.Changes.{line_after, Notes, SaysTaken};
ghost use Rattle.program_dagstore.specs.Lines.{removed_line};

use crate::fault::Fault;
use ipld_tree::Cid;
use program_parts::line_of;
use program_shared::{ToolError, write_all};
use std::alloc::{AllocError, Global};
use std::io::Write;
use store_on_disk::{BlockStore, Store, StoreRefusal};
use text_cid::cid_text;

/// The outcome for names that are to be removed: how many were there, and the others, in their
/// order.
#[derive(Debug, Drop)]
pub struct Taken {
    pub count: u64,
    pub others: Vec<Cid>,
}

impl Taken {
    /// Returns the outcome for no names.
    pub fn new(alloc: Global) -> Taken
        ensures count { result.count ≡ 0 }
        ensures others { result.others.items ≡ [] }
    {
        Taken {
            count: 0,
            others: Vec::new(alloc),
        }
    }

    /// Counts the name if it was there, and else appends it to the others.
    pub fn note(&mut self, name: &Cid, was_there: bool) -> Result<(), AllocError>
        requires { self.old.count < 2 ^ 64 - 1 }
        ensures valid { AreCidParts name.now }
        ensures notes { OnOk result (Notes name.now was_there self.old self.new) }
    {
        // The proof learns from this call that the CID is valid.
        let _version = name.version();
        if was_there {
            self.count += 1;
            return Ok(());
        }
        self.others.push(*name)?;
        Ok(())
    }
}

/// Undoes what is not committed, because memory ran out.
pub fn give_up<S: Store>(store: &mut BlockStore<S>) -> StoreRefusal
    ensures refused { FailsByStore S.Store ⊥ store.old store.new result }
    ensures quiet { Quiet S.Store store.old store.new }
{
    store.rollback();
    StoreRefusal::OutOfMemory
}

/// Returns the lines of the names, each with these words after it.
pub fn lines_of(alloc: Global, names: &[Cid], words: &[u8]) -> Result<Vec<u8>, AllocError>
    ensures { IfOk result (λ v. v.items ≡ flat_map (line_after words.now) names.now) }
{
    let mut lines = Vec::new(alloc);
    for name in names {
        let line = line_of(alloc, b"", &cid_text(name), words)?;
        lines.extend_from_slice(&line)?;
    }
    Ok(lines)
}

/// Returns the line of how many names were removed.
fn removed_line(alloc: Global, count: u64) -> Result<Vec<u8>, AllocError>
    ensures { IfOk result (λ v. v.items ≡ removed_line count) }
{
    let count = format!(in alloc; "{count}")?;
    line_of(alloc, b"removed ", count.as_bytes(), b"")
}

/// Writes how many names were removed.
pub fn say_removed<W: Write>(alloc: Global, count: u64, output: &mut W) -> Result<(), ToolError>
    ensures { SaysText (removed_line count) (W.contents output.old) result (W.contents output.new) }
{
    let line = removed_line(alloc, count)?;
    write_all(output, &line)
}

/// Reports each of the names, one a line, with these words after it.
fn tell_others<V: Write>(
    alloc: Global,
    names: &[Cid],
    words: &[u8],
    errors: &mut V,
) -> Result<(), ToolError>
    ensures { SaysText (flat_map (line_after words.now) names.now) (V.contents errors.old) result
        (V.contents errors.new) }
{
    let lines = lines_of(alloc, names, words)?;
    write_all(errors, &lines)
}

/// Writes how many names were removed, and reports each of the others, one a line, with these words
/// after it. Returns whether there were no others.
pub fn say_taken<W: Write, V: Write>(
    alloc: Global,
    taken: &Taken,
    words: &[u8],
    output: &mut W,
    errors: &mut V,
) -> Result<bool, Fault>
    ensures { SaysTaken words.now taken.now (W.contents output.old) (V.contents errors.old) result
        (W.contents output.new) (V.contents errors.new) }
{
    if let Err(error) = say_removed(alloc, taken.count, output) {
        return Err(Fault::Tool(error));
    }
    if taken.others.is_empty() {
        return Ok(true);
    }
    match tell_others(alloc, &taken.others, words, errors) {
        Ok(()) => Ok(false),
        Err(error) => Err(Fault::Tool(error)),
    }
}
