//! The blocks on the way of a path.

ghost use Rattle.std.specs.Prelude.{IfOk};
ghost use Rattle.ipld_paths.specs.Paths.{segments};
ghost use Rattle.ipld_links.specs.Reaching.{stored_in};
ghost use Rattle.ipld_paths.specs.Resolving.{Resolves, AreOnTheWay, AreOnceEach};

use crate::resolution::{Resolved, Step, resolve_step};
use ipld_links::{CidSet, stored_bytes};
use ipld_tree::Cid;
use std::alloc::{AllocError, Global};
use std::collections::BTreeMap;

/// Where a path ended, and the blocks that it went over.
#[derive(Debug, Drop)]
pub struct Way<'p> {
    /// The names of the blocks, in the order of the path, the root first. There may be no block
    /// under the last name.
    pub names: Vec<Cid>,
    pub resolved: Resolved<'p>,
}

/// Resolves the path over the blocks of the map, from the block of the root, and lists the names on
/// its way.
pub fn resolve_way<'p>(
    alloc: Global,
    blocks: &BTreeMap<Cid, Vec<u8>>,
    root: &Cid,
    path: &'p str,
) -> Result<Way<'p>, AllocError>
    ensures resolved { IfOk result
        (λ w. Resolves (stored_in blocks.now) root.now (segments path.now) w.resolved) }
    ensures names { IfOk result
        (λ w. AreOnTheWay (stored_in blocks.now) root.now (segments path.now) w.names.items) }
{
    let mut names = Vec::new(alloc);
    let mut block = *root;
    let mut left = path;
    // Each turn allocates for a name, and no memory holds 2^64 - 1 names.
    for _count in 0..u64::MAX {
        names.push(block)?;
        match resolve_step(alloc, &block, stored_bytes(blocks, &block), left) {
            Ok(Step::GoesOn(next)) => {
                block = next.block;
                left = next.path;
            }
            Ok(Step::Ends(end)) => {
                return Ok(Way {
                    names,
                    resolved: Resolved {
                        block,
                        path: left,
                        end,
                    },
                });
            }
            Err(fault) => return Err(fault),
        }
    }
    Err(AllocError)
}

/// Returns each of the names once, in the order in which they first come.
pub fn each_once(alloc: Global, names: &[Cid]) -> Result<Vec<Cid>, AllocError>
    ensures { IfOk result (λ v. AreOnceEach names.now v.items) }
{
    let mut seen = CidSet::new(alloc);
    let mut once = Vec::new(alloc);
    for name in names {
        if !seen.contains(name) {
            seen.add(*name)?;
            once.push(*name)?;
        }
    }
    Ok(once)
}
