//! The parts of a split file, one after the other.

ghost use Rattle.std.specs.Prelude.{◌≡◌, ◌<◌, length, string_bytes, IfOk, MatchResult};
ghost use Rattle.dagcbor_items.specs.Walks.{forms};
ghost use Rattle.files_car.specs.Car.{header_bytes, section_bytes};
ghost use Rattle.program_sections.specs.Parts.{part_name};
ghost use Rattle.program_sections.specs.SplitSteps.{IsBegun, IsFaultOf, FinishesPart, IsPlanOf};
ghost use Rattle.program_sections.specs.SplitSteps.{splitting_work, BeginsNext, MakesRoom, PutsBytes};
ghost use Rattle.program_sections.specs.SplitSteps.{SplitsSection};

use crate::new_files::{NewFiles, NotBegun};
use crate::split_words::Split;
use files_car::{Section, SectionSink, push_header, push_section};
use ipld_tree::Cid;
use program_shared::{ToolError, write_all};
use std::alloc::{AllocError, Global};
use std::io::Write;

/// Why a part was not made.
#[derive(Drop)]
pub(crate) enum PartFault {
    /// A file with the part's name, which is given, exists already.
    Exists(String),
    Failed(ToolError),
}

impl From<AllocError> for PartFault {
    ghost use Rattle.program_sections.specs.declared.part.PartFault.TheVariants.{Failed};
    ghost use Rattle.program_shared.specs.declared.fault.ToolError.TheVariants.{OutOfMemory};

    ghost from_gives = { λ _ e. e ≡ Failed OutOfMemory };

    fn from(_e: AllocError) -> PartFault {
        PartFault::Failed(ToolError::OutOfMemory)
    }
}

impl From<ToolError> for PartFault {
    ghost use Rattle.program_sections.specs.declared.part.PartFault.TheVariants.{Failed};

    ghost from_gives = { λ fault e. e ≡ Failed fault };

    fn from(fault: ToolError) -> PartFault {
        PartFault::Failed(fault)
    }
}

/// What all parts share.
#[derive(Drop)]
pub(crate) struct Plan<'a> {
    asked: &'a Split<'a>,
    header: Vec<u8>,
}

/// The current part.
#[derive(Drop)]
pub(crate) struct Part<F> {
    pub file: F,
    pub number: u64,
    /// How many more bytes it may have.
    room: u64,
    /// `true` if it has a section.
    holds: bool,
}

/// A split at work. One part is begun, and those before it are finished.
#[derive(Drop)]
pub(crate) struct Splitting<'p, 'a, N, F> {
    pub alloc: Global,
    pub plan: &'p Plan<'p>,
    pub files: &'a mut N,
    pub part: Part<F>,
}

/// Returns the file name of the part with this number.
fn part_name(alloc: Global, prefix: &str, number: u64) -> Result<String, AllocError>
    ensures { IfOk result (λ name. string_bytes name ≡ part_name prefix.now number) }
{
    format!(in alloc; "{prefix}-{number}.car")
}

/// Returns the header of a CAR file with these roots.
fn header_of(alloc: Global, roots: &[Cid]) -> Result<Vec<u8>, ToolError>
    ensures { IfOk result (λ v. v.items ≡ header_bytes (forms roots.now)) }
{
    let mut header = Vec::new(alloc);
    match push_header(alloc, &mut header, roots) {
        Ok(()) => Ok(header),
        Err(_) => Err(ToolError::OutOfMemory),
    }
}

/// Returns the bytes of the section.
fn bytes_of(alloc: Global, section: &Section<'_>) -> Result<Vec<u8>, ToolError>
    ensures { IfOk result
        (λ v. v.items ≡ section_bytes (section.now.cid, section.now.block.now)) }
{
    let mut bytes = Vec::new(alloc);
    match push_section(&mut bytes, &section.cid, section.block) {
        Ok(()) => Ok(bytes),
        Err(_) => Err(ToolError::OutOfMemory),
    }
}

/// Returns what the parts of a file with these roots share.
pub(crate) fn plan_of<'a>(
    alloc: Global,
    asked: &'a Split<'a>,
    roots: &[Cid],
) -> Result<Plan<'a>, ToolError>
    ensures { IfOk result (λ plan. IsPlanOf roots.now plan × (plan.asked.now ≡ asked.now)) }
{
    let roots = if asked.roots.is_empty() {
        roots
    } else {
        &asked.roots
    };
    let header = header_of(alloc, roots)?;
    Ok(Plan { asked, header })
}

/// Begins the part with this number.
pub(crate) fn begin_part<N: NewFiles>(
    alloc: Global,
    plan: &Plan<'_>,
    number: u64,
    files: &mut N,
) -> Result<Part<N::File>, PartFault>
    ensures whole { N.whole files.new ≡ N.whole files.old }
    ensures begun { MatchResult result
        (IsBegun N.File.contents plan.now number (N.whole files.old))
        (IsFaultOf plan.now number (N.has files.new)) }
{
    let name = part_name(alloc, plan.asked.prefix, number)?;
    match files.begin(&name) {
        Ok(mut file) => {
            write_all(&mut file, &plan.header)?;
            Ok(Part {
                file,
                number,
                room: plan.asked.size.saturating_sub(plan.header.len() as u64),
                holds: false,
            })
        }
        Err(NotBegun::Exists) => Err(PartFault::Exists(name)),
        Err(NotBegun::Failed(fault)) => Err(PartFault::Failed(fault)),
    }
}

/// Finishes the part with this number.
pub(crate) fn finish_part<N: NewFiles>(
    alloc: Global,
    plan: &Plan<'_>,
    number: u64,
    file: &mut N::File,
    files: &mut N,
) -> Result<(), ToolError>
    ensures { FinishesPart plan.now number (N.File.contents file.old) (N.whole files.old) result
        (N.whole files.new) }
{
    let name = part_name(alloc, plan.asked.prefix, number)?;
    files.finish(&name, file)
}

impl<'p, 'a, N: NewFiles<File = F>, F: Write + Drop> Splitting<'p, 'a, N, F> {
    /// Returns a split that has taken no section, with its first part begun.
    pub fn new(
        alloc: Global,
        plan: &'p Plan<'p>,
        files: &'a mut N,
        part: Part<F>,
    ) -> Splitting<'p, 'a, N, F>
        ensures plan { result.plan.now ≡ plan.now }
        ensures part { result.part ≡ part }
        ensures reference { result.files.ghost_name ≡ files.entry.ghost_name }
        ensures files { result.files.now ≡ files.old }
    {
        Splitting {
            alloc,
            plan,
            files,
            part,
        }
    }

    /// Finishes the current part, and begins the next.
    fn begin_next(&mut self) -> Result<(), PartFault>
        ensures { BeginsNext (splitting_work N.whole N.has F.contents self.old) result
            (splitting_work N.whole N.has F.contents self.new) }
    {
        finish_part(
            self.alloc,
            self.plan,
            self.part.number,
            &mut self.part.file,
            self.files,
        )?;
        // No file has this many parts, but a source that never ends may.
        let Some(number) = self.part.number.checked_add(1) else {
            return Err(PartFault::Failed(ToolError::OutOfMemory));
        };
        self.part = begin_part(self.alloc, self.plan, number, self.files)?;
        Ok(())
    }

    /// Begins the next part, if the current one has no room for `length` bytes.
    fn make_room(&mut self, length: u64) -> Result<(), PartFault>
        ensures { MakesRoom length (splitting_work N.whole N.has F.contents self.old) result
            (splitting_work N.whole N.has F.contents self.new) }
    {
        if !self.part.holds || length <= self.part.room {
            return Ok(());
        }
        self.begin_next()
    }

    /// Writes the bytes of a section to the current part.
    fn put(&mut self, bytes: &[u8]) -> Result<(), PartFault>
        ensures { PutsBytes bytes.now (splitting_work N.whole N.has F.contents self.old) result
            (splitting_work N.whole N.has F.contents self.new) }
    {
        write_all(&mut self.part.file, bytes)?;
        self.part.room = self.part.room.saturating_sub(bytes.len() as u64);
        self.part.holds = true;
        Ok(())
    }
}

impl<N: NewFiles<File = F>, F: Write + Drop> SectionSink for Splitting<'_, '_, N, F> {
    type Stop = PartFault;

    ghost takes = { λ s old result new. SplitsSection s (splitting_work N.whole N.has F.contents old)
        result (splitting_work N.whole N.has F.contents new) };

    fn take(&mut self, section: &Section<'_>) -> Result<(), PartFault> {
        let bytes = bytes_of(self.alloc, section)?;
        self.make_room(bytes.len() as u64)?;
        self.put(&bytes)
    }
}
