//! `check`: a verdict on each block, and then the links that lead to no block.

ghost use Rattle.std.specs.Prelude.{◌≡◌, [], OnOk, IfOk, IfErr};
ghost use Rattle.sqlite_trees.specs.View.{IsClean};
ghost use Rattle.store_on_disk.specs.Stored.{JustReads, ListsName, HoldsOnly, IsNamedBy};
ghost use Rattle.program_dagstore.specs.Said.{StoreFails};
ghost use Rattle.program_dagstore.specs.Names.{SaysNames, SaysNext};
ghost use Rattle.program_dagstore.specs.Checks.{is_linked, IsCheckedLine, SaysCheck};
ghost use Rattle.program_dagstore.specs.Checks.{AddsUnlistedLinks, AddsOfNext, IsMissing, SaysKeys};

use crate::fault::Fault;
use crate::line::damaged_said;
use crate::progress::Progress;
use ipld_links::{Verdict, verdict_on};
use ipld_tree::Cid;
use program_parts::{Said, missing_line, say, verdict_line};
use program_shared::ToolError;
use std::alloc::{AllocError, Global};
use std::collections::BTreeSet;
use std::io::Write;
use store_on_disk::{BlockStore, Store, StoreRefusal};

/// Returns whether the verdict is that the bytes are a block whose links are read.
fn is_linked(verdict: &Verdict) -> bool
    ensures { result ≡ is_linked verdict.now }
{
    match verdict {
        Verdict::Block(_) => true,
        Verdict::Node => true,
        Verdict::Refused(_) => false,
        Verdict::NoNode(_) => false,
        Verdict::NotRead => false,
        Verdict::LinksNotRead => false,
        Verdict::OtherBytes => false,
        Verdict::Unverified => false,
    }
}

/// Returns the line of the verdict on the block, which matches its name and alone is stored under
/// it. Its links under which nothing is listed are added to the set.
fn judged_said<S: Store>(
    alloc: Global,
    store: &mut BlockStore<S>,
    name: &Cid,
    block: &[u8],
    missing: &mut BTreeSet<Cid>,
) -> Result<Said, Fault>
    ensures said { IfOk result (λ p. IsNamedBy name.now block.now
        → (IsClean (S.Store.view store.new) → HoldsOnly (S.Store.view store.old) name.now block.now)
        → IsCheckedLine (S.Store.view store.old) (S.Store.view store.new) name.now p.1 p.0.items) }
    ensures missing { OnOk result (IsNamedBy name.now block.now → IsClean (S.Store.view store.new)
        → HoldsOnly (S.Store.view store.old) name.now block.now
        → AddsUnlistedLinks (S.Store.view store.old) name.now missing.old missing.new) }
    ensures fault { IfErr result (StoreFails S.Store store.old store.new) }
    ensures reads { JustReads S.Store result store.old store.new }
{
    let verdict = verdict_on(name.codec(), block);
    if is_linked(&verdict) {
        store.add_lost(name.codec(), block, missing)?;
    }
    Ok(verdict_line(alloc, name, &verdict)?)
}

/// Returns the line of the name, under which something is listed. The links of its block under
/// which nothing is listed are added to the set.
fn checked_said<S: Store>(
    alloc: Global,
    store: &mut BlockStore<S>,
    name: &Cid,
    missing: &mut BTreeSet<Cid>,
) -> Result<Said, Fault>
    ensures said { IfOk result
        (λ p. (IsClean (S.Store.view store.new) → ListsName (S.Store.view store.old) name.now)
        → IsCheckedLine (S.Store.view store.old) (S.Store.view store.new) name.now p.1 p.0.items) }
    ensures missing { OnOk result (IsClean (S.Store.view store.new)
        → ListsName (S.Store.view store.old) name.now
        → AddsUnlistedLinks (S.Store.view store.old) name.now missing.old missing.new) }
    ensures fault { IfErr result (StoreFails S.Store store.old store.new) }
    ensures reads { JustReads S.Store result store.old store.new }
{
    match store.get_block(name) {
        Ok(Some(block)) => judged_said(alloc, store, name, &block, missing),
        Ok(None) => Ok(damaged_said(alloc, name)?),
        Err(StoreRefusal::Damaged(_)) => Ok(damaged_said(alloc, name)?),
        Err(refusal) => Err(Fault::Store(refusal)),
    }
}

/// Writes the line of the first name after the last one. Returns the name, and whether all is well
/// with it.
fn check_next<S: Store, W: Write>(
    alloc: Global,
    store: &mut BlockStore<S>,
    last: Option<Cid>,
    missing: &mut BTreeSet<Cid>,
    output: &mut W,
) -> Result<Option<(Cid, bool)>, Fault>
    ensures says { SaysNext IsCheckedLine (S.Store.view store.old) last (W.contents output.old) result
        (S.Store.view store.new) (W.contents output.new) }
    ensures missing { IfOk result (λ next. IsClean (S.Store.view store.new)
        → AddsOfNext (S.Store.view store.old) next missing.old missing.new) }
    ensures fault { IfErr result (StoreFails S.Store store.old store.new) }
    ensures reads { JustReads S.Store result store.old store.new }
{
    let Some(name) = store.next_name(last)? else {
        return Ok(None);
    };
    let said = checked_said(alloc, store, &name, missing)?;
    let well = say(said, output)?;
    Ok(Some((name, well)))
}

/// Writes a line for each listed name, and adds the links under which nothing is listed to the set,
/// which is empty before. Returns whether no block is damaged.
fn check_names<S: Store, W: Write, E: Write>(
    alloc: Global,
    store: &mut BlockStore<S>,
    missing: &mut BTreeSet<Cid>,
    output: &mut W,
    progress: &mut Progress<E>,
) -> Result<bool, Fault>
    requires { missing.old.keys ≡ [] }
    ensures says { SaysNames IsCheckedLine (S.Store.view store.old) (W.contents output.old) result
        (S.Store.view store.new) (W.contents output.new) }
    ensures missing { OnOk result (IsClean (S.Store.view store.new)
        → IsMissing (S.Store.view store.old) missing.new) }
    ensures fault { IfErr result (StoreFails S.Store store.old store.new) }
    ensures reads { JustReads S.Store result store.old store.new }
{
    let mut well = true;
    let mut last = None;
    for _count in 0..u64::MAX {
        match check_next(alloc, store, last, missing, output)? {
            Some(next) => {
                last = Some(next.0);
                well &= next.1;
                progress.add(1);
            }
            None => return Ok(well),
        }
    }
    Err(Fault::Tool(ToolError::OutOfMemory))
}

/// Returns the lines of the links in a set. All is well if the set is empty.
fn missing_said(alloc: Global, missing: BTreeSet<Cid>) -> Result<Said, AllocError>
    ensures { SaysKeys missing.keys result }
{
    let none_missing = missing.is_empty();
    let mut lines = Vec::new(alloc);
    for name in missing {
        let line = missing_line(alloc, &name)?;
        lines.extend_from_slice(&line)?;
    }
    Ok((lines, none_missing))
}

/// Writes a line for each listed name, and then one for each link that leads to no block. Returns
/// whether no block is damaged or missing.
pub fn check_blocks<S: Store, W: Write, E: Write>(
    alloc: Global,
    store: &mut BlockStore<S>,
    output: &mut W,
    progress: &mut Progress<E>,
) -> Result<bool, Fault>
    ensures says { SaysCheck (S.Store.view store.old) (W.contents output.old) result
        (S.Store.view store.new) (W.contents output.new) }
    ensures fault { IfErr result (StoreFails S.Store store.old store.new) }
    ensures reads { JustReads S.Store result store.old store.new }
{
    let mut missing = BTreeSet::new(alloc);
    let all_sound = check_names(alloc, store, &mut missing, output, progress)?;
    let said = missing_said(alloc, missing)?;
    let none_missing = say(said, output)?;
    Ok(all_sound & none_missing)
}
