//! `check --summary`: how many sections got each verdict, and how many roots and links are missing.

ghost use Rattle.std.specs.Prelude.{◌≡◌, ◌↔◌, ◌++◌, ◌+◌, [], length, IsTrue, IfOk, OnOk, refl};
ghost use Rattle.files_car.specs.Checks.{TakesSection};
ghost use Rattle.program_dagcar.specs.Answers.{summary_speech};
ghost use Rattle.program_dagcar.specs.Summary.{CountsOne, CountsSection, AreCounts, KnowsCounts};
ghost use Rattle.program_dagcar.specs.Summary.{IsVerdictCounted, counts_lines};

use crate::walk::Teller;
use files_car::{CarCheck, Section};
use ipld_links::Verdict;
use ipld_tree::Cid;
use program_inspect::push_number;
use program_parts::{Answer, Said, is_well};
use std::alloc::{AllocError, Global};

/// How many sections got each verdict.
#[derive(Clone, Copy)]
pub struct Counts {
    pub sections: u64,
    pub ok: u64,
    pub not_read: u64,
    pub links_not_read: u64,
    pub refused: u64,
    pub other_bytes: u64,
    pub unverified: u64,
}

/// Returns `count + 1`. The count never gets large enough to overflow.
fn add_one(count: u64) -> Result<u64, AllocError>
    ensures { IfOk result (λ n. n ≡ count + 1) }
{
    count.checked_add(1).ok_or(AllocError)
}

impl Counts {
    /// Returns the counts of no sections.
    fn new() -> Counts
        ensures { AreCounts result [] }
    {
        Counts {
            sections: 0,
            ok: 0,
            not_read: 0,
            links_not_read: 0,
            refused: 0,
            other_bytes: 0,
            unverified: 0,
        }
    }

    /// Counts the section with this verdict.
    fn count(&mut self, verdict: &Verdict) -> Result<(), AllocError>
        ensures { OnOk result (CountsOne verdict.now self.old self.new) }
    {
        self.sections = add_one(self.sections)?;
        match verdict {
            Verdict::Block(_) => self.ok = add_one(self.ok)?,
            Verdict::Node => self.ok = add_one(self.ok)?,
            Verdict::NoNode(_) => self.refused = add_one(self.refused)?,
            Verdict::NotRead => self.not_read = add_one(self.not_read)?,
            Verdict::LinksNotRead => self.links_not_read = add_one(self.links_not_read)?,
            Verdict::Refused(_) => self.refused = add_one(self.refused)?,
            Verdict::OtherBytes => self.other_bytes = add_one(self.other_bytes)?,
            Verdict::Unverified => self.unverified = add_one(self.unverified)?,
        }
        Ok(())
    }
}

/// What is known of a file, and how many of its sections got each verdict.
#[derive(Drop)]
pub struct Summing {
    check: CarCheck,
    counts: Counts,
}

/// Appends the lines of the counts.
fn push_counts(
    alloc: Global,
    out: &mut Vec<u8>,
    counts: &Counts,
    missing: u64,
) -> Result<(), AllocError>
    ensures { OnOk result (out.new.items ≡ out.old.items ++ counts_lines counts.now missing) }
{
    push_number(alloc, out, "sections", counts.sections)?;
    push_number(alloc, out, "ok", counts.ok)?;
    push_number(alloc, out, "not read", counts.not_read)?;
    push_number(alloc, out, "links not read", counts.links_not_read)?;
    push_number(alloc, out, "refused", counts.refused)?;
    push_number(alloc, out, "other bytes", counts.other_bytes)?;
    push_number(alloc, out, "not verified", counts.unverified)?;
    push_number(alloc, out, "missing", missing)
}

/// Returns the lines of the counts. All is well if no root or link is missing.
#[tactic(auto, using(program_parts::proofs::Saying::told_empty))]
fn summary_said(alloc: Global, missing: &[Cid], counts: &Counts) -> Result<Said, AllocError>
    ensures lines { IfOk result (λ p. p.0.items ≡ counts_lines counts.now (length missing.now)) }
    ensures well { IfOk result (λ p. IsTrue p.1 ↔ (missing.now ≡ [])) }
{
    let mut lines = Vec::new(alloc);
    push_counts(alloc, &mut lines, counts, missing.len() as u64)?;
    Ok((lines, missing.is_empty()))
}

/// Takes the section, and counts its verdict. Returns whether that is well.
fn count_section(
    check: &mut CarCheck,
    counts: &mut Counts,
    section: &Section<'_>,
) -> Result<bool, AllocError>
    ensures said { IfOk result
        (λ well. IsVerdictCounted (section.now.cid, section.now.block.now) well []) }
    ensures taken { OnOk result
        (TakesSection (section.now.cid, section.now.block.now) check.old check.new) }
    ensures counted { OnOk result
        (CountsSection (section.now.cid, section.now.block.now) counts.old counts.new) }
{
    match check.take(section) {
        Ok(verdict) => {
            counts.count(&verdict)?;
            Ok(is_well(&verdict))
        }
        Err(error) => Err(error),
    }
}

impl Teller for Summing {
    ghost speech = { summary_speech };

    ghost tells = { λ s text. text ≡ [] };

    ghost knows = { KnowsCounts };

    ghost says_faults = { λ line. refl };

    fn begin(alloc: Global, roots: &[Cid]) -> Result<(Summing, Vec<u8>), AllocError> {
        let check = CarCheck::new(alloc, roots)?;
        let counts = Counts::new();
        Ok((Summing { check, counts }, Vec::new(alloc)))
    }

    fn tell(&mut self, alloc: Global, section: &Section<'_>) -> Result<Answer, AllocError> {
        let well = count_section(&mut self.check, &mut self.counts, section)?;
        Ok(((Vec::new(alloc), well), Vec::new(alloc)))
    }

    fn end(self, alloc: Global) -> Result<Said, AllocError> {
        let Summing { check, counts } = self;
        let missing = check.missing(alloc)?;
        summary_said(alloc, &missing, &counts)
    }
}
