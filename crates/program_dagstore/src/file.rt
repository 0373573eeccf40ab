//! `cat`: the bytes of an IPFS file, read from a store.

ghost use Rattle.std.specs.Prelude.{◌≡◌, [], false, List, option_map, map, MatchResult, IfOk, IfErr};
ghost use Rattle.ipld_paths.specs.Paths.{segments};
ghost use Rattle.files_unix_fs.specs.Reading.{Asked, asked};
ghost use Rattle.program_parts.specs.Lines.{SaysBoth};
ghost use Rattle.program_parts.specs.Content.{IsNextName, SaysContent, SaysNext};
ghost use Rattle.program_parts.specs.FileNames.{HasEntry, NamesNothing, LeadsByNames, EndsByNames};
ghost use Rattle.program_parts.specs.FileNames.{names_line};
ghost use Rattle.store_on_disk.specs.Stored.{JustReads};
ghost use Rattle.program_dagstore.specs.Blocks.{GetFails};
ghost use Rattle.program_dagstore.specs.Contents.{OfGot, SaysFile, IsOnTheWay, IsWantedIn};
ghost use Rattle.program_dagstore.specs.Contents.{IsOfFile, FailsAt, FailsAtNext};

use crate::fault::Fault;
use files_unix_fs::FileReader;
use ipld_paths::next_segment;
use ipld_tree::Cid;
use program_parts::{
    NamesEnd, NoEntry, begin_content, entry_stored, names_line, say_block, say_both,
};
use program_shared::ToolError;
use std::alloc::Global;
use std::io::Write;
use store_on_disk::{BlockStore, Store};

/// Returns the bytes that were read, if there are any.
pub(crate) fn bytes_got(got: &Option<Vec<u8>>) -> Option<&[u8]>
    ensures { option_map (λ b. b.now) result ≡ option_map (λ v. v.items) got.now }
{
    match got {
        Some(block) => Some(block.as_slice()),
        None => None,
    }
}

/// Returns where the name leads from the block that is stored under the CID.
fn find_entry<S: Store>(
    store: &mut BlockStore<S>,
    block: &Cid,
    name: &str,
) -> Result<Result<Cid, NoEntry>, Fault>
    ensures found { IfOk result (λ entry. OfGot (S.Store.view store.old) (S.Store.view store.new)
        (λ stored. MatchResult entry (HasEntry stored block.now name.now)
        (NamesNothing stored block.now name.now))) }
    ensures fault { IfErr result (GetFails S.Store block.now store.old store.new) }
    ensures reads { JustReads S.Store result store.old store.new }
{
    let got = store.get_block(block)?;
    Ok(entry_stored(block, bytes_got(&got), name))
}

/// Returns where the path of names leads from the root. One block is in memory at a time.
pub fn find_file<'p, S: Store>(
    store: &mut BlockStore<S>,
    root: &Cid,
    path: &'p str,
) -> Result<Result<Cid, NamesEnd<'p>>, Fault>
    ensures found { IfOk result (λ found. OfGot (S.Store.view store.old) (S.Store.view store.new)
        (λ stored. MatchResult found (LeadsByNames stored root.now (segments path.now))
        (EndsByNames stored root.now (segments path.now)))) }
    ensures fault { IfErr result
        (FailsAt S.Store (IsOnTheWay root.now (segments path.now)) store.old store.new) }
    ensures reads { JustReads S.Store result store.old store.new }
{
    let mut block = *root;
    let mut left = path;
    while let Some((name, more)) = next_segment(left) {
        match find_entry(store, &block, name)? {
            Ok(next) => {
                block = next;
                left = more;
            }
            Err(cause) => return Ok(Err(NamesEnd { block, name, cause })),
        }
    }
    Ok(Ok(block))
}

/// Writes the bytes of the file that are in the block of this name, the one that is wanted next.
/// Returns `None` if the file may go on, and else whether it is complete.
fn write_block<S: Store, W: Write, V: Write>(
    alloc: Global,
    store: &mut BlockStore<S>,
    reader: &mut FileReader,
    name: &Cid,
    output: &mut W,
    errors: &mut V,
) -> Result<Option<bool>, Fault>
    ensures says { (below : List Asked) (w : Asked)
        → IsNextName (map asked reader.old.wanted.items) below w name.now
        → OfGot (S.Store.view store.old) (S.Store.view store.new)
        (λ stored. SaysNext stored (map asked reader.old.wanted.items)
        (map asked reader.new.wanted.items) (W.contents output.old) (V.contents errors.old) result
        (W.contents output.new) (V.contents errors.new)) }
    ensures fault { IfErr result (GetFails S.Store name.now store.old store.new) }
    ensures reads { JustReads S.Store result store.old store.new }
{
    let got = store.get_block(name)?;
    let well = say_block(alloc, reader, name, bytes_got(&got), output, errors)?;
    Ok(well)
}

/// Writes the bytes of the file that are in its next block, if one is wanted. Returns `None` if the
/// file may go on, and else whether it is complete.
fn write_next<S: Store, W: Write, V: Write>(
    alloc: Global,
    store: &mut BlockStore<S>,
    reader: &mut FileReader,
    output: &mut W,
    errors: &mut V,
) -> Result<Option<bool>, Fault>
    ensures says { OfGot (S.Store.view store.old) (S.Store.view store.new)
        (λ stored. SaysNext stored (map asked reader.old.wanted.items)
        (map asked reader.new.wanted.items) (W.contents output.old) (V.contents errors.old) result
        (W.contents output.new) (V.contents errors.new)) }
    ensures fault { IfErr result (FailsAtNext S.Store (map asked reader.old.wanted.items) store.old
        store.new) }
    ensures reads { JustReads S.Store result store.old store.new }
{
    let Some(wanted) = reader.next_wanted() else {
        return Ok(Some(true));
    };
    let name = wanted.cid;
    // The proof learns from this call that the CID is valid.
    let _version = name.version();
    write_block(alloc, store, reader, &name, output, errors)
}

/// Writes the bytes of the file under the root, block by block as they are verified, or reports why
/// it ends early. Returns whether it is complete. One block is in memory at a time.
fn write_content<S: Store, W: Write, V: Write>(
    alloc: Global,
    store: &mut BlockStore<S>,
    root: &Cid,
    output: &mut W,
    errors: &mut V,
) -> Result<bool, Fault>
    ensures says { OfGot (S.Store.view store.old) (S.Store.view store.new)
        (λ stored. SaysContent stored root.now (W.contents output.old) (V.contents errors.old) result
        (W.contents output.new) (V.contents errors.new)) }
    ensures fault { IfErr result (FailsAt S.Store (IsWantedIn root.now) store.old store.new) }
    ensures reads { JustReads S.Store result store.old store.new }
{
    let mut reader = begin_content(alloc, root)?;
    for _count in 0..u64::MAX {
        if let Some(well) = write_next(alloc, store, &mut reader, output, errors)? {
            return Ok(well);
        }
    }
    Err(Fault::Tool(ToolError::OutOfMemory))
}

/// Reports why a path leads to no block.
fn tell_end<W: Write, V: Write>(
    alloc: Global,
    end: &NamesEnd<'_>,
    output: &mut W,
    errors: &mut V,
) -> Result<bool, ToolError>
    ensures { SaysBoth (λ well out told. (well ≡ false) × (out ≡ []) × (told ≡ names_line end.now))
        (W.contents output.old) (V.contents errors.old) result (W.contents output.new)
        (V.contents errors.new) }
{
    let line = names_line(alloc, end)?;
    say_both((Vec::new(alloc), false), &line, output, errors)
}

/// Writes the bytes of the file to which the path of names leads from the root, block by block as
/// they are verified. If the file ends early, or the path leads nowhere, it reports why. Returns
/// whether the file is complete. One block is in memory at a time.
pub fn write_file<S: Store, W: Write, V: Write>(
    alloc: Global,
    store: &mut BlockStore<S>,
    root: &Cid,
    path: &str,
    output: &mut W,
    errors: &mut V,
) -> Result<bool, Fault>
    ensures says { OfGot (S.Store.view store.old) (S.Store.view store.new)
        (λ stored. SaysFile stored root.now (segments path.now) (W.contents output.old)
        (V.contents errors.old) result (W.contents output.new) (V.contents errors.new)) }
    ensures fault { IfErr result
        (FailsAt S.Store (IsOfFile root.now (segments path.now)) store.old store.new) }
    ensures reads { JustReads S.Store result store.old store.new }
{
    match find_file(store, root, path) {
        Ok(Ok(found)) => write_content(alloc, store, &found, output, errors),
        Ok(Err(end)) => {
            let well = tell_end(alloc, &end, output, errors)?;
            Ok(well)
        }
        Err(fault) => Err(fault),
    }
}
