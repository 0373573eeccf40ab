//! Checks a CAR file section by section: the verdicts, and the links that lead to no block in it.

ghost use Rattle.std.specs.Prelude.{◌≡◌, ◌≢◌, ◌⊎◌, [], IfOk, OnOk, OnErr, List, ℕ, true, false, is_err};
ghost use Rattle.dagcbor_items.specs.Walks.{forms};
ghost use Rattle.files_car.specs.Car.{Section as CarSection};
ghost use Rattle.ipld_links.specs.Verdicts.{IsVerified, IsVerdict};
ghost use Rattle.ipld_links.specs.Blocks.{IsBlockOf};
ghost use Rattle.files_car.specs.Checks.{HoldsName, FollowsLinks};
ghost use Rattle.files_car.specs.Checks.{IsAfter, TakesSection, ListsMissingInFile};

use crate::section::Section;
use ipld_links::{CidSet, HeldNames, Verdict, verify};
use ipld_tree::Cid;
use std::alloc::{AllocError, Global};

/// The state of a check after some of a file's sections: which blocks the file has, and which roots
/// and links lead to no block so far. A name by the identity holds its block itself: it is never
/// missing, and the links in that block are followed, however deeply such names are nested. Each
/// digest is shorter than the block that it is in, so this ends. After `take` was refused, `take`
/// and `missing` are refused.
#[derive(Drop)]
pub struct CarCheck {
    held: HeldNames,
    missing: CidSet,
    failed: bool,
}

impl CarCheck {
    /// Begins the check, after a header with these roots.
    pub fn new(alloc: Global, roots: &[Cid]) -> Result<CarCheck, AllocError>
        ensures after { IfOk result (λ check. IsAfter check (forms roots.now) []) }
        ensures sound { IfOk result (λ check. check.failed ≡ false) }
        ensures memory { OnErr result (roots.now ≢ []) }
    {
        let held = HeldNames::new(alloc);
        let mut missing = CidSet::new(alloc);
        missing.add_all(roots, &held)?;
        Ok(CarCheck {
            held,
            missing,
            failed: false,
        })
    }

    /// Takes the next section, and returns the verdict on it.
    pub fn take(&mut self, section: &Section<'_>) -> Result<Verdict, AllocError>
        ensures verdict { IfOk result (IsVerdict (section.now.cid, section.now.block.now)) }
        ensures after { OnOk result
            (TakesSection (section.now.cid, section.now.block.now) self.old self.new) }
        ensures memory { OnErr result ((self.old.failed ≡ true)
            ⊎ IsVerified (section.now.cid, section.now.block.now)) }
        ensures stops { self.new.failed ≡ is_err result }
        ensures stopped { self.old.failed ≡ true → (is_err result ≡ true) × (self.new ≡ self.old) }
    {
        if self.failed {
            return Err(AllocError);
        }
        let verdict = verify(&section.cid, section.block);
        self.failed = true;
        self.note(section, &verdict)?;
        self.failed = false;
        Ok(verdict)
    }

    /// Records the section, according to its verdict.
    fn note(&mut self, section: &Section<'_>, verdict: &Verdict) -> Result<(), AllocError>
        requires { IsVerdict (section.now.cid, section.now.block.now) verdict.now }
        ensures after { OnOk result
            (TakesSection (section.now.cid, section.now.block.now) self.old self.new) }
        ensures memory { OnErr result (IsVerified (section.now.cid, section.now.block.now)) }
        ensures same { self.new.failed ≡ self.old.failed }
    {
        match verdict {
            Verdict::Block(_) => self.hold_linked(section),
            Verdict::Node => self.hold_linked(section),
            Verdict::Refused(_) => self.hold(section.cid),
            Verdict::NoNode(_) => self.hold(section.cid),
            Verdict::NotRead => self.hold(section.cid),
            Verdict::LinksNotRead => self.hold(section.cid),
            Verdict::OtherBytes => Ok(()),
            Verdict::Unverified => Ok(()),
        }
    }

    /// Records a verified block, and its links.
    fn hold_linked(&mut self, section: &Section<'_>) -> Result<(), AllocError>
        requires verified { IsVerified (section.now.cid, section.now.block.now) }
        requires linked { IsBlockOf section.now.cid.codec section.now.block.now }
        ensures after { OnOk result
            (TakesSection (section.now.cid, section.now.block.now) self.old self.new) }
        ensures same { self.new.failed ≡ self.old.failed }
    {
        self.hold(section.cid)?;
        self.follow(section.cid.codec(), section.block)
    }

    /// Records the name of a verified block.
    fn hold(&mut self, cid: Cid) -> Result<(), AllocError>
        ensures held { OnOk result (HoldsName cid self.old self.new) }
        ensures same { self.new.failed ≡ self.old.failed }
    {
        self.missing.remove(&cid);
        self.held.add(cid)
    }

    /// Records the links of a block, and those within them, that lead to no verified block so far.
    #[tactic(auto, using(crate::proofs::Checking::links_followed))]
    fn follow(&mut self, codec: u64, block: &[u8]) -> Result<(), AllocError>
        requires { IsBlockOf codec block.now }
        ensures followed { OnOk result (FollowsLinks codec block.now self.old self.new) }
        ensures same { self.new.failed ≡ self.old.failed }
    {
        self.missing.add_links(codec, block, &self.held)
    }

    /// Returns the roots and links that lead to no verified block, each once, in the order of CIDs.
    pub fn missing(self, alloc: Global) -> Result<Vec<Cid>, AllocError>
        ensures lists { (roots : List (List ℕ)) (sections : List CarSection)
            → IsAfter self roots sections → IfOk result (ListsMissingInFile roots sections) }
        ensures stopped { self.failed ≡ true → is_err result ≡ true }
    {
        if self.failed {
            return Err(AllocError);
        }
        self.missing.into_vec(alloc)
    }
}
