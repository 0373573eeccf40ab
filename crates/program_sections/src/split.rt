//! `split`: CAR files of the parts of a file.

ghost use Rattle.std.specs.Prelude.{◌≡◌, List, ℕ, Some, IfOk, IfSome};
ghost use Rattle.dagcbor_heads.specs.Inputs.{input_reading};
ghost use Rattle.program_sections.specs.Parts.{PartsAreAll, PartsAreWithin, PartsHaveSections};
ghost use Rattle.program_sections.specs.Splitting.{Splits, there_line};
ghost use Rattle.program_sections.specs.SplitSteps.{SplitsSections, SplitsAfter, TellsSplit};
ghost use Rattle.program_sections.specs.SplitSteps.{EndsTold, EndsParts, begun, made};
ghost use Rattle.program_sections.specs.Splitting.{making};
ghost use Rattle.program_sections.specs.Steps.{following};

use crate::new_files::NewFiles;
use crate::part::{Part, PartFault, Plan, Splitting, begin_part, finish_part, plan_of};
use crate::split_words::Split;
use dagcbor_heads::{Input, IoRefReader, Read};
use files_car::pull_header;
use ipld_tree::Cid;
use program_parts::{Ended, fault_line, input_over, take_sections};
use program_shared::{ToolError, write_all};
use std::alloc::{AllocError, Global};
use std::io::{BufRead, Write};

/// How a split ended.
#[derive(Drop)]
pub enum SplitEnd {
    /// The parts of the whole file were made.
    Whole,
    /// The file has a fault, and the parts before it were made.
    Fault,
    /// A file with the name of a part exists already, and the parts before that were made.
    Exists,
}

/// Returns the error line for a file that exists already.
fn there_line(alloc: Global, name: &str) -> Result<Vec<u8>, AllocError>
    ensures { IfOk result (λ v. v.items ≡ there_line name.now) }
{
    Ok(format!(in alloc; "dagcar: there is a file {name}\n")?.into_bytes())
}

/// Writes the error line, and returns how the split ended.
fn end_told<V: Write>(end: SplitEnd, line: &[u8], errors: &mut V) -> Result<SplitEnd, ToolError>
    ensures { EndsTold end line.now (V.contents errors.old) result (V.contents errors.new) }
{
    write_all(errors, line)?;
    Ok(end)
}

/// Writes the error line for how far the sections were split, if any. Returns how the split ended.
fn tell_split<V: Write>(
    alloc: Global,
    ended: Result<Ended<PartFault>, ToolError>,
    errors: &mut V,
) -> Result<SplitEnd, ToolError>
    ensures { TellsSplit ended (V.contents errors.old) result (V.contents errors.new) }
{
    match ended? {
        Ended::Whole => Ok(SplitEnd::Whole),
        Ended::Fault(line) => end_told(SplitEnd::Fault, &line, errors),
        Ended::Stopped(PartFault::Failed(fault)) => Err(fault),
        Ended::Stopped(PartFault::Exists(name)) => {
            let line = there_line(alloc, &name)?;
            end_told(SplitEnd::Exists, &line, errors)
        }
    }
}

/// Finishes the last part.
fn end_parts<N: NewFiles>(
    alloc: Global,
    plan: &Plan<'_>,
    ended: Result<Ended<PartFault>, ToolError>,
    part: Part<N::File>,
    files: &mut N,
) -> Result<Ended<PartFault>, ToolError>
    ensures { EndsParts plan.now ended (begun N.File.contents part)
        (made (N.whole files.old) (N.has files.old)) result
        (made (N.whole files.new) (N.has files.new)) }
{
    let Part {
        mut file,
        number,
        ..
    } = part;
    match ended? {
        Ended::Stopped(fault) => Ok(Ended::Stopped(fault)),
        Ended::Whole => {
            finish_part(alloc, plan, number, &mut file, files)?;
            Ok(Ended::Whole)
        }
        Ended::Fault(line) => {
            finish_part(alloc, plan, number, &mut file, files)?;
            Ok(Ended::Fault(line))
        }
    }
}

/// Splits the sections after the header, up to `extent` if given.
fn split_sections<'de, R: Read, N: NewFiles>(
    alloc: Global,
    plan: &Plan<'_>,
    input: &mut Input<'de, R>,
    extent: Option<u64>,
    files: &mut N,
) -> Result<Ended<PartFault>, ToolError>
    ensures { SplitsSections plan.now extent (input_reading R.reading input.old) result
        (making (N.whole files.old) (N.whole files.new) (N.has files.new)) }
{
    let part = match begin_part(alloc, plan, 0, files) {
        Ok(part) => part,
        Err(fault) => return Ok(Ended::Stopped(fault)),
    };
    let mut splitting = Splitting::new(alloc, plan, files, part);
    let ended = take_sections(alloc, &mut splitting, input, extent);
    let Splitting {
        alloc: _alloc,
        plan: _plan,
        files,
        part,
    } = splitting;
    // No effect at run time. The proof reads what `files` holds from this use of it.
    let _ = &*files;
    end_parts(alloc, plan, ended, part, files)
}

/// Splits the sections after the header with these roots, and writes how that ended.
fn split_after<'de, R: Read, N: NewFiles, V: Write>(
    alloc: Global,
    asked: &Split<'_>,
    roots: &[Cid],
    input: &mut Input<'de, R>,
    extent: Option<u64>,
    files: &mut N,
    errors: &mut V,
) -> Result<SplitEnd, ToolError>
    ensures { SplitsAfter asked.now roots.now (following extent (input_reading R.reading input.old))
        (making (N.whole files.old) (N.whole files.new) (N.has files.new)) (V.contents errors.old)
        result (V.contents errors.new) }
{
    let plan = plan_of(alloc, asked, roots)?;
    let ended = split_sections(alloc, &plan, input, extent, files);
    tell_split(alloc, ended, errors)
}

/// Splits the CAR file of a source.
fn split_file<'de, R: Read, N: NewFiles, V: Write>(
    alloc: Global,
    asked: &Split<'_>,
    input: &mut Input<'de, R>,
    files: &mut N,
    errors: &mut V,
) -> Result<SplitEnd, ToolError>
    ensures { (b : List ℕ) → (input_reading R.reading input.old).left ≡ Some b
        → Splits asked.now b (making (N.whole files.old) (N.whole files.new) (N.has files.new))
        (V.contents errors.old) result (V.contents errors.new) }
{
    match pull_header(alloc, input) {
        Ok((roots, extent)) => split_after(alloc, asked, &roots, input, extent, files, errors),
        Err(error) => {
            let line = fault_line(alloc, error)?;
            end_told(SplitEnd::Fault, &line, errors)
        }
    }
}

/// Writes the parts of the input's CAR file, each to a file of its own, and an error line for a
/// fault or for a part's file that exists already. One part is begun at a time. One section is in
/// memory at a time, as read and as written.
pub fn write_split<R: BufRead, N: NewFiles, V: Write>(
    alloc: Global,
    asked: &Split<'_>,
    input: &mut R,
    files: &mut N,
    errors: &mut V,
) -> Result<SplitEnd, ToolError>
    ensures { IfSome (R.remaining input.old) (λ b. Splits asked.now b
        (making (N.whole files.old) (N.whole files.new) (N.has files.new)) (V.contents errors.old)
        result (V.contents errors.new)) }
{
    let mut source = input_over(IoRefReader::new(input));
    split_file(alloc, asked, &mut source, files, errors)
}

/// The sections of all parts, in order, are those of the file.
#[tactic(auto, using(crate::proofs::Dividing::are_all))]
pub fn parts_are_all()
    ensures { PartsAreAll }
{}

/// Each part is within the size, or has at most one section.
#[tactic(auto, using(crate::proofs::Dividing::are_within))]
pub fn parts_are_within()
    ensures { PartsAreWithin }
{}

/// Only a file without sections has a part without sections.
#[tactic(auto, using(crate::proofs::Dividing::have_sections))]
pub fn parts_have_sections()
    ensures { PartsHaveSections }
{}
