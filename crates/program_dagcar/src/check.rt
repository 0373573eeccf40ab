//! `check`: the verdict on each section, then the missing roots and links.

ghost use Rattle.std.specs.Prelude.{◌≡◌, ◌↔◌, [], IsTrue, IfOk, OnOk, refl};
ghost use Rattle.std.specs.List.{flat_map};
ghost use Rattle.files_car.specs.Checks.{IsAfter, TakesSection};
ghost use Rattle.program_parts.specs.Lines.{missing_line};
ghost use Rattle.ipld_links.specs.Verdicts.{IsVerdict};
ghost use Rattle.program_dagcar.specs.Answers.{IsVerdictLine, TellsPlace, check_speech};
ghost use Rattle.program_dagcar.specs.Lines.{section_place_line};
ghost use Rattle.program_dagcar.specs.Steps.{SaysAtEnd};

use crate::walk::Teller;
use dagcbor_decode::{Refused, judge_slice};
use files_car::{CarCheck, Section};
use ipld_links::Verdict;
use ipld_tree::Cid;
use program_parts::{Answer, Said, fault_place_line, missing_lines, verdict_line};
use std::alloc::{AllocError, Global};
use text_cid::cid_text;

/// Returns the line with the offset at which the section's block is refused.
fn section_place_line(
    alloc: Global,
    section: &Section<'_>,
    refused: &Refused,
) -> Result<Vec<u8>, AllocError>
    ensures { IfOk result (λ v. v.items ≡ section_place_line section.now.cid refused.now.cause
        refused.now.place) }
{
    let mut line = Vec::new(alloc);
    line.extend_from_slice(&cid_text(&section.cid))?;
    line.extend_from_slice(b": ")?;
    line.extend_from_slice(&fault_place_line(alloc, refused)?)?;
    Ok(line)
}

/// Returns the error output for a section with this verdict: if it is refused, the line with the
/// offset.
fn section_told(
    alloc: Global,
    section: &Section<'_>,
    verdict: &Verdict,
) -> Result<Vec<u8>, AllocError>
    ensures { IsVerdict (section.now.cid, section.now.block.now) verdict.now → IfOk result
        (λ v. TellsPlace (section.now.cid, section.now.block.now) v.items) }
{
    if !matches!(verdict, Verdict::Refused(_)) {
        return Ok(Vec::new(alloc));
    }
    match judge_slice(section.block) {
        Ok(_) => Ok(Vec::new(alloc)),
        Err(refused) => section_place_line(alloc, section, &refused),
    }
}

/// Returns the line of the section with this verdict, and the error output.
pub fn section_answer(
    alloc: Global,
    section: &Section<'_>,
    verdict: &Verdict,
) -> Result<Answer, AllocError>
    ensures said { IsVerdict (section.now.cid, section.now.block.now) verdict.now → IfOk result
        (λ p. IsVerdictLine (section.now.cid, section.now.block.now) p.0.1 p.0.0.items) }
    ensures told { IsVerdict (section.now.cid, section.now.block.now) verdict.now → IfOk result
        (λ p. TellsPlace (section.now.cid, section.now.block.now) p.1.items) }
{
    let said = verdict_line(alloc, &section.cid, verdict)?;
    let told = section_told(alloc, section, verdict)?;
    Ok((said, told))
}

/// Takes the section. Returns the line of its verdict, and the error output.
fn verdict_said(
    alloc: Global,
    check: &mut CarCheck,
    section: &Section<'_>,
) -> Result<Answer, AllocError>
    ensures said { IfOk result
        (λ p. IsVerdictLine (section.now.cid, section.now.block.now) p.0.1 p.0.0.items) }
    ensures told { IfOk result
        (λ p. TellsPlace (section.now.cid, section.now.block.now) p.1.items) }
    ensures taken { OnOk result
        (TakesSection (section.now.cid, section.now.block.now) check.old check.new) }
{
    match check.take(section) {
        Ok(verdict) => section_answer(alloc, section, &verdict),
        Err(error) => Err(error),
    }
}

/// Returns the lines of these names. All is well if there are none.
#[tactic(auto, using(program_parts::proofs::Saying::told_empty))]
pub(crate) fn names_said(alloc: Global, names: &[Cid]) -> Result<Said, AllocError>
    ensures lines { IfOk result (λ p. p.0.items ≡ flat_map missing_line names.now) }
    ensures well { IfOk result (λ p. IsTrue p.1 ↔ (names.now ≡ [])) }
{
    let lines = missing_lines(alloc, names)?;
    Ok((lines, names.is_empty()))
}

/// Returns the lines of the missing roots and links.
fn missing_said(alloc: Global, check: CarCheck) -> Result<Said, AllocError>
    ensures { SaysAtEnd check_speech IsAfter check result }
{
    let missing = check.missing(alloc)?;
    names_said(alloc, &missing)
}

impl Teller for CarCheck {
    ghost speech = { check_speech };

    ghost tells = { TellsPlace };

    ghost knows = { IsAfter };

    ghost says_faults = { λ line. refl };

    fn begin(alloc: Global, roots: &[Cid]) -> Result<(CarCheck, Vec<u8>), AllocError> {
        let check = CarCheck::new(alloc, roots)?;
        Ok((check, Vec::new(alloc)))
    }

    fn tell(&mut self, alloc: Global, section: &Section<'_>) -> Result<Answer, AllocError> {
        verdict_said(alloc, self, section)
    }

    fn end(self, alloc: Global) -> Result<Said, AllocError> {
        missing_said(alloc, self)
    }
}
