//! What the program says about an index.

ghost use Rattle.std.specs.Prelude.{IfOk};
ghost use Rattle.program_dagcar_files.specs.Indexes.{IsToldAlone, IsListingSaid, IsJudgementSaid};
ghost use Rattle.program_index.specs.declared.judged.Judged.TheVariants.{Found};
ghost use Rattle.program_dagcar_files.specs.Indexes.{IsBesideSaid, IsWordOf};

use crate::texts::{findings_text, index_fault_line, listing_text, push_count};
use program_index::{Judged, Judgement, Listed};
use program_inspect::Index;
use program_parts::Answer;
use std::alloc::{AllocError, Global};

/// The error line for a file without an index.
const NO_INDEX: &str = "refused NoIndex\n";

/// Returns this error line as the only one.
fn told_alone(alloc: Global, line: &str) -> Result<Answer, AllocError>
    ensures { IfOk result (λ p. IsToldAlone line.now p.0.1 p.0.0.items p.1.items) }
{
    let told = line.as_bytes().to_vec(alloc)?;
    Ok(((Vec::new(alloc), false), told))
}

/// Returns what `list --index` says about what an index holds.
pub(crate) fn listing_answer(alloc: Global, listed: Listed) -> Result<Answer, AllocError>
    ensures { IfOk result (λ p. IsListingSaid listed p.0.1 p.0.0.items p.1.items) }
{
    match listed {
        Listed::NoIndex => told_alone(alloc, NO_INDEX),
        Listed::NoEntries(fault) => told_alone(alloc, index_fault_line(fault)),
        Listed::Index(listing) => {
            let lines = listing_text(alloc, &listing)?;
            Ok(((lines, true), Vec::new(alloc)))
        }
    }
}

/// Returns the lines of the findings, and of the number of entries.
fn judgement_answer(alloc: Global, it: Judgement) -> Result<Answer, AllocError>
    ensures { IfOk result (λ p. IsJudgementSaid (Found it) p.0.1 p.0.0.items p.1.items) }
{
    let mut lines = findings_text(alloc, &it.findings)?;
    push_count(alloc, &mut lines, it.count)?;
    Ok(((lines, it.findings.is_empty()), Vec::new(alloc)))
}

/// Returns what `check --index` says about what was found wrong with an index.
pub(crate) fn judged_answer(alloc: Global, judged: Judged) -> Result<Answer, AllocError>
    ensures { IfOk result (λ p. IsJudgementSaid judged p.0.1 p.0.0.items p.1.items) }
{
    match judged {
        Judged::NoIndex => told_alone(alloc, NO_INDEX),
        Judged::NoFile(line) => Ok(((Vec::new(alloc), false), line)),
        Judged::NoEntries(fault) => told_alone(alloc, index_fault_line(fault)),
        Judged::Found(it) => judgement_answer(alloc, it),
    }
}

/// Returns the lines of the findings.
fn findings_answer(alloc: Global, it: Judgement) -> Result<Answer, AllocError>
    ensures { IfOk result (λ p. IsBesideSaid (Found it) p.0.1 p.0.0.items p.1.items) }
{
    let lines = findings_text(alloc, &it.findings)?;
    Ok(((lines, it.findings.is_empty()), Vec::new(alloc)))
}

/// Returns what `check` says about what was found wrong with an index.
pub(crate) fn beside_answer(alloc: Global, judged: Judged) -> Result<Answer, AllocError>
    ensures { IfOk result (λ p. IsBesideSaid judged p.0.1 p.0.0.items p.1.items) }
{
    match judged {
        Judged::NoIndex => Ok(((Vec::new(alloc), true), Vec::new(alloc))),
        Judged::NoFile(_line) => Ok(((Vec::new(alloc), true), Vec::new(alloc))),
        Judged::NoEntries(fault) => told_alone(alloc, index_fault_line(fault)),
        Judged::Found(it) => findings_answer(alloc, it),
    }
}

/// Returns the word for an index, given the judgement.
pub(crate) fn word_of(judged: &Judged) -> Index
    ensures { IsWordOf judged.now result }
{
    match judged {
        Judged::NoIndex => Index::There,
        Judged::NoFile(_line) => Index::There,
        Judged::NoEntries(_fault) => Index::Wrong,
        Judged::Found(it) => {
            if it.findings.is_empty() {
                Index::Right
            } else {
                Index::Wrong
            }
        }
    }
}
