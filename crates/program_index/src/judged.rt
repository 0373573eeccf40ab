//! Reads the whole index of a file, and judges it.

ghost use Rattle.std.specs.Prelude.{IfOk, IfSome, drop};
ghost use Rattle.files_index.specs.Entries.{index_entries};
ghost use Rattle.program_index.specs.Judged.{HoldsEntries, IsJudged, JudgesListing, JudgesEntries};

use crate::layout::layout_of;
use crate::placing::place_at;
use files_index::{Findings, IndexError, IndexFault, Listing, Placed, ReadAt, judge, read_index};
use program_shared::ToolError;
use std::alloc::Global;

/// What the index of a file holds.
#[derive(Drop)]
pub enum Listed {
    /// The file has no index.
    NoIndex,
    /// The bytes in the place of the index are not one.
    NoEntries(IndexFault),
    Index(Listing),
}

/// What is wrong with the entries of an index, and their number.
#[derive(Drop)]
pub struct Judgement {
    pub count: u64,
    pub findings: Findings,
}

/// What is found by judging the index of a file.
#[derive(Drop)]
pub enum Judged {
    /// The file has no index.
    NoIndex,
    /// The bytes are not a CAR file. The line says why.
    NoFile(Vec<u8>),
    /// The bytes in the place of the index are not one.
    NoEntries(IndexFault),
    Found(Judgement),
}

/// Returns what the index of the file holds. Reads only the CARv2 header and the index.
pub fn list_index<S: ReadAt>(alloc: Global, source: &S) -> Result<Listed, ToolError>
    ensures { IfSome (S.bytes source.now) (λ b. IfOk result (HoldsEntries b)) }
{
    let Some(layout) = layout_of(source)? else {
        return Ok(Listed::NoIndex);
    };
    match read_index(alloc, source, layout.index) {
        Ok(listing) => Ok(Listed::Index(listing)),
        Err(IndexError::Fault(fault)) => Ok(Listed::NoEntries(fault)),
        Err(IndexError::Read) => Err(ToolError::Input),
        Err(IndexError::OutOfMemory) => Err(ToolError::OutOfMemory),
    }
}

/// Judges an index against the sections of its file.
fn judge_listing(alloc: Global, listing: Listing, sections: &[Placed]) -> Result<Judged, ToolError>
    ensures { IfOk result (JudgesListing listing.format listing.entries.items sections.now) }
{
    let count = listing.entries.len() as u64;
    match judge(alloc, listing, sections) {
        Ok(findings) => Ok(Judged::Found(Judgement { count, findings })),
        Err(_) => Err(ToolError::OutOfMemory),
    }
}

/// Judges the index at this offset against the sections of its file.
fn judge_at<S: ReadAt>(
    alloc: Global,
    source: &S,
    place: u64,
    sections: &[Placed],
) -> Result<Judged, ToolError>
    ensures { IfSome (S.bytes source.now) (λ b. IfOk result
        (JudgesEntries (index_entries (drop place b)) sections.now)) }
{
    match read_index(alloc, source, place) {
        Ok(listing) => judge_listing(alloc, listing, sections),
        Err(IndexError::Fault(fault)) => Ok(Judged::NoEntries(fault)),
        Err(IndexError::Read) => Err(ToolError::Input),
        Err(IndexError::OutOfMemory) => Err(ToolError::OutOfMemory),
    }
}

/// Judges the index of the file against its sections. Reads the file once from its start, one
/// section in memory at a time, and then the index.
pub fn judge_index<S: ReadAt>(alloc: Global, source: &S) -> Result<Judged, ToolError>
    ensures { IfSome (S.bytes source.now) (λ b. IfOk result (IsJudged b)) }
{
    let Some(layout) = layout_of(source)? else {
        return Ok(Judged::NoIndex);
    };
    match place_at(alloc, source)? {
        Ok(sections) => judge_at(alloc, source, layout.index, &sections),
        Err(line) => Ok(Judged::NoFile(line)),
    }
}
