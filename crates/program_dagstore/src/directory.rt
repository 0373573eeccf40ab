//! `ls`: what is under a path of names, read from a store.

ghost use Rattle.std.specs.Prelude.{IfOk, IfErr};
ghost use Rattle.ipld_paths.specs.Paths.{segments};
ghost use Rattle.dag_pb.specs.Node.{NodeParts, IsNode};
ghost use Rattle.dag_pb.specs.Reads.{link_of};
ghost use Rattle.files_unix_fs.specs.Reading.{HasRow};
ghost use Rattle.program_parts.specs.Lines.{IsSaidOfEach};
ghost use Rattle.program_parts.specs.Entries.{AreWordsOf, KnowsWords, IsEntry, IsListingUnder, IsListing};
ghost use Rattle.store_on_disk.specs.Stored.{JustReads};
ghost use Rattle.program_dagstore.specs.Blocks.{GetFails};
ghost use Rattle.program_dagstore.specs.Contents.{OfGot, FailsAt};
ghost use Rattle.program_dagstore.specs.Directories.{IsLinked, IsOfEntries, IsOfListing};
ghost use Rattle.program_dagstore.specs.Said.{SaysAll};

use crate::fault::Fault;
use crate::file::{bytes_got, find_file};
use dag_pb::{PbLink, next_link};
use ipld_tree::Cid;
use program_parts::{
    Answer, Listed, Said, entry_line, keep_words, known_words, listed_stored, names_line, say_both,
    words_stored,
};
use std::alloc::Global;
use std::collections::BTreeMap;
use std::io::Write;
use store_on_disk::{BlockStore, Store};

/// Returns the words for the block under the CID, and whether it has a kind. They are kept, so that
/// each block is read once.
fn words_got<S: Store>(
    alloc: Global,
    store: &mut BlockStore<S>,
    cid: &Cid,
    known: &mut BTreeMap<Cid, Said>,
) -> Result<Said, Fault>
    ensures says { IfOk result (λ p. OfGot (S.Store.view store.old) (S.Store.view store.new)
        (λ stored. KnowsWords stored known.old → KnowsWords stored known.new
        × AreWordsOf stored cid.now p.1 p.0.items)) }
    ensures fault { IfErr result (GetFails S.Store cid.now store.old store.new) }
    ensures reads { JustReads S.Store result store.old store.new }
{
    if let Some(said) = known_words(alloc, cid, known)? {
        return Ok(said);
    }
    let got = store.get_block(cid)?;
    let (words, has_kind) = words_stored(alloc, cid, bytes_got(&got))?;
    keep_words(alloc, cid, &words, has_kind, known)?;
    Ok((words, has_kind))
}

/// Returns the line of an entry, and whether it has a kind.
fn entry_got<S: Store>(
    alloc: Global,
    store: &mut BlockStore<S>,
    link: &PbLink<'_>,
    known: &mut BTreeMap<Cid, Said>,
) -> Result<Said, Fault>
    ensures says { IfOk result (λ p. OfGot (S.Store.view store.old) (S.Store.view store.new)
        (λ stored. KnowsWords stored known.old → KnowsWords stored known.new
        × IsEntry stored (link_of link.now) p.1 p.0.items)) }
    ensures fault { IfErr result (GetFails S.Store (link_of link.now).hash store.old store.new) }
    ensures reads { JustReads S.Store result store.old store.new }
{
    let (words, has_kind) = words_got(alloc, store, &link.hash, known)?;
    let line = entry_line(alloc, &words, link)?;
    Ok((line, has_kind))
}

/// Returns the lines of the links in the block, and whether each has a kind. Besides the block, one
/// more is in memory at a time.
fn entries_got<S: Store>(
    alloc: Global,
    store: &mut BlockStore<S>,
    block: &[u8],
) -> Result<Said, Fault>
    requires { HasRow block.now }
    ensures says { (node : NodeParts) → IsNode block.now node → IfOk result
        (λ p. OfGot (S.Store.view store.old) (S.Store.view store.new)
        (λ stored. IsSaidOfEach (IsEntry stored) node.links p.1 p.0.items)) }
    ensures fault { (node : NodeParts) → IsNode block.now node
        → IfErr result (FailsAt S.Store (IsLinked node.links) store.old store.new) }
    ensures reads { JustReads S.Store result store.old store.new }
{
    let mut known = BTreeMap::new(alloc);
    let mut lines = Vec::new(alloc);
    let mut well = true;
    let mut links = block;
    while let Some((link, more)) = next_link(links) {
        let (line, has_kind) = entry_got(alloc, store, &link, &mut known)?;
        lines.extend_from_slice(&line)?;
        well = well && has_kind;
        links = more;
    }
    Ok((lines, well))
}

/// Returns what is written and reported of the block under the CID. A directory's block is held
/// while those of its entries are read, so two blocks are in memory at a time.
fn listing_under<S: Store>(
    alloc: Global,
    store: &mut BlockStore<S>,
    cid: &Cid,
) -> Result<Answer, Fault>
    ensures says { IfOk result (λ p. OfGot (S.Store.view store.old) (S.Store.view store.new)
        (λ stored. IsListingUnder stored cid.now p.0.1 p.0.0.items p.1.items)) }
    ensures fault { IfErr result (FailsAt S.Store (IsOfEntries cid.now) store.old store.new) }
    ensures reads { JustReads S.Store result store.old store.new }
{
    let got = store.get_block(cid)?;
    match listed_stored(alloc, cid, bytes_got(&got)) {
        Ok(Listed::Whole(answer)) => Ok(answer),
        Ok(Listed::Entries(block)) => {
            let said = entries_got(alloc, store, block)?;
            Ok((said, Vec::new(alloc)))
        }
        Err(error) => Err(Fault::from(error)),
    }
}

/// Returns what is written and reported of what is under the path.
fn listing<S: Store>(
    alloc: Global,
    store: &mut BlockStore<S>,
    root: &Cid,
    path: &str,
) -> Result<Answer, Fault>
    ensures says { IfOk result (λ p. OfGot (S.Store.view store.old) (S.Store.view store.new)
        (λ stored. IsListing stored root.now (segments path.now) p.0.1 p.0.0.items p.1.items)) }
    ensures fault { IfErr result
        (FailsAt S.Store (IsOfListing root.now (segments path.now)) store.old store.new) }
    ensures reads { JustReads S.Store result store.old store.new }
{
    match find_file(store, root, path) {
        Ok(Ok(found)) => listing_under(alloc, store, &found),
        Ok(Err(end)) => {
            let line = names_line(alloc, &end)?;
            Ok(((Vec::new(alloc), false), line))
        }
        Err(fault) => Err(fault),
    }
}

/// Lists what is under the path of names from the root: each entry of a directory, with its kind,
/// size and CID, or any other block itself. Reports why if there is nothing to list. Returns
/// whether all that is listed has a kind. The lines are made in memory, and then written. Besides
/// them, a directory's block and that of one entry are in memory at a time, and the words for each
/// block that its links lead to.
pub fn write_listing<S: Store, W: Write, V: Write>(
    alloc: Global,
    store: &mut BlockStore<S>,
    root: &Cid,
    path: &str,
    output: &mut W,
    errors: &mut V,
) -> Result<bool, Fault>
    ensures says { OfGot (S.Store.view store.old) (S.Store.view store.new)
        (λ stored. SaysAll (IsListing stored root.now (segments path.now)) (W.contents output.old)
        (V.contents errors.old) result (W.contents output.new) (V.contents errors.new)) }
    ensures fault { IfErr result
        (FailsAt S.Store (IsOfListing root.now (segments path.now)) store.old store.new) }
    ensures reads { JustReads S.Store result store.old store.new }
{
    match listing(alloc, store, root, path) {
        Ok((said, told)) => {
            let well = say_both(said, &told, output, errors)?;
            Ok(well)
        }
        Err(fault) => Err(fault),
    }
}
