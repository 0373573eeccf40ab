//! Which sections of a file are kept.

ghost use Rattle.std.specs.Prelude.{◌≡◌, ◌++◌, ◌∷◌, [], if◌then◌else◌, IfOk, OnOk};
ghost use Rattle.std.specs.BTreeSet.{insert_key};
ghost use Rattle.ipld_tree.specs.Cid.{cid_cmp};
ghost use Rattle.program_sections.specs.Kept.{keeps, note, others, missing_of, kept_roots, roots_of};

use ipld_tree::Cid;
use std::alloc::{AllocError, Global};
use std::collections::BTreeSet;

/// Which sections of a file are kept.
#[derive(Drop)]
pub enum Kept {
    /// Those whose CIDs have this codec.
    Codec(u64),
    /// Those with these CIDs.
    Named(BTreeSet<Cid>),
}

impl Kept {
    /// Returns whether a section with this CID is kept.
    pub fn keeps(&self, cid: &Cid) -> bool
        ensures { result ≡ keeps self.now cid.now }
    {
        match self {
            Kept::Codec(codec) => cid.codec() == *codec,
            Kept::Named(names) => names.contains(cid),
        }
    }
}

/// Adds the name to the set.
pub(crate) fn add_name(names: &mut BTreeSet<Cid>, cid: &Cid) -> Result<(), AllocError>
    ensures { OnOk result (names.new.keys ≡ insert_key cid_cmp names.old.keys cid.now) }
{
    match names.insert(*cid) {
        Ok(_added) => Ok(()),
        Err(_) => Err(AllocError),
    }
}

/// Notes the name of a kept section, if names are looked for.
pub(crate) fn note(kept: &Kept, found: &mut BTreeSet<Cid>, cid: &Cid) -> Result<(), AllocError>
    ensures { OnOk result (found.new.keys ≡ note kept.now found.old.keys cid.now) }
{
    match kept {
        Kept::Codec(_) => Ok(()),
        Kept::Named(_) => add_name(found, cid),
    }
}

/// Appends the name, if `is_kept`.
fn push_if(left: &mut Vec<Cid>, is_kept: bool, cid: &Cid) -> Result<(), AllocError>
    ensures { OnOk result
        (left.new.items ≡ (if is_kept then left.old.items ++ cid.now ∷ [] else left.old.items)) }
{
    if is_kept {
        left.push(*cid)?;
    }
    Ok(())
}

/// Returns the names that are not among those found.
fn others(
    alloc: Global,
    names: &BTreeSet<Cid>,
    found: &BTreeSet<Cid>,
) -> Result<Vec<Cid>, AllocError>
    ensures { IfOk result (λ v. v.items ≡ others names.now.keys found.now.keys) }
{
    let mut left = Vec::new(alloc);
    for name in names {
        push_if(&mut left, !found.contains(name), name)?;
    }
    Ok(left)
}

/// Returns the wanted names that no section has, if these were found.
pub(crate) fn missing_of(
    alloc: Global,
    kept: &Kept,
    found: &BTreeSet<Cid>,
) -> Result<Vec<Cid>, AllocError>
    ensures { IfOk result (λ v. v.items ≡ missing_of kept.now found.now.keys) }
{
    match kept {
        Kept::Codec(_) => Ok(Vec::new(alloc)),
        Kept::Named(names) => others(alloc, names, found),
    }
}

/// Returns the roots that are kept.
fn kept_roots(alloc: Global, kept: &Kept, roots: &[Cid]) -> Result<Vec<Cid>, AllocError>
    ensures { IfOk result (λ v. v.items ≡ kept_roots kept.now roots.now) }
{
    let mut left = Vec::new(alloc);
    for root in roots {
        push_if(&mut left, kept.keeps(root), root)?;
    }
    Ok(left)
}

/// Returns the roots of the new file: those given, or else the file's roots that are kept.
pub(crate) fn roots_of(
    alloc: Global,
    given: &[Cid],
    kept: &Kept,
    roots: &[Cid],
) -> Result<Vec<Cid>, AllocError>
    ensures { IfOk result (λ v. v.items ≡ roots_of given.now kept.now roots.now) }
{
    if given.is_empty() {
        return kept_roots(alloc, kept, roots);
    }
    given.to_vec(alloc)
}
