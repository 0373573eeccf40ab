//! Finds a block by an index. Anyone may have made the index, so no block is returned unless its
//! bytes match its CID.

ghost use Rattle.std.specs.Prelude.{◌≡◌, List, ℕ, Some, Ok, IfOk, OnOk, IfSome, MatchBool};
ghost use Rattle.dagcbor_heads.specs.Inputs.{input_reading};
ghost use Rattle.ipld_links.specs.Verdicts.{IsVerified};
ghost use Rattle.program_parts.specs.Taking.{IsOfBytes};
ghost use Rattle.program_index.specs.Finds.{IsFound, BeginsSought, GivesVerified, GivesWhere, GivesOf};
ghost use Rattle.program_index.specs.Finds.{IsSoughtAt, LeadsIn, LeadsBy};

use crate::layout::{Layout, layout_of};
use dagcbor_heads::{Input, IoRefReader, Read};
use files_car::{CarError, Section, pull_section};
use files_index::{Bucket, ReadAt, buffered_from, find_bucket};
use ipld_links::{Verdict, verify};
use ipld_tree::Cid;
use program_parts::input_over;
use program_shared::ToolError;
use std::alloc::Global;
use std::io;
use std::io::BufRead;

/// The most entries of a digest that are tried.
const MOST_TRIES: u64 = 16;

/// The greatest length of a digest, in bytes.
const LONGEST_DIGEST: usize = 64;

/// What the index of a file yields for a CID.
#[derive(Drop)]
pub enum Found {
    /// The bytes of the block, which match the CID.
    Block(Vec<u8>),
    /// No entry leads to the block.
    NoEntry,
    /// The file has no index.
    NoIndex,
}

/// Returns the answer of a positioned read. Its errors become input errors.
fn read_so<T: Drop>(read: io::Result<T>) -> Result<T, ToolError>
    ensures { IfOk result (λ value. read ≡ Ok value) }
{
    match read {
        Ok(value) => Ok(value),
        Err(_) => Err(ToolError::Input),
    }
}

/// Returns whether the section has this CID and its bytes match it.
fn is_sought(name: &Cid, section: &Section<'_>) -> bool
    ensures { MatchBool result
        ((section.now.cid ≡ name.now) × IsVerified (section.now.cid, section.now.block.now))
        (¬ ((section.now.cid ≡ name.now) × IsVerified (section.now.cid, section.now.block.now))) }
{
    if section.cid != *name {
        return false;
    }
    match verify(&section.cid, section.block) {
        Verdict::OtherBytes => false,
        Verdict::Unverified => false,
        _ => true,
    }
}

/// Returns the block of the section, if it is the one looked for.
fn block_sought(
    alloc: Global,
    name: &Cid,
    section: &Section<'_>,
) -> Result<Option<Vec<u8>>, ToolError>
    ensures given { GivesVerified name.now result }
    ensures sought { GivesWhere ((section.now.cid ≡ name.now)
        × IsVerified (section.now.cid, section.now.block.now)) result }
{
    if !is_sought(name, section) {
        return Ok(None);
    }
    match section.block.to_vec(alloc) {
        Ok(block) => Ok(Some(block)),
        Err(_) => Err(ToolError::OutOfMemory),
    }
}

/// Returns the error for which no section was read, unless its cause is in the bytes.
fn unread<E: Drop>(error: CarError<E>) -> Result<(), ToolError>
    ensures { OnOk result (IsOfBytes error) }
{
    match error {
        CarError::Read(_) => Err(ToolError::Input),
        CarError::OutOfMemory => Err(ToolError::OutOfMemory),
        _ => Ok(()),
    }
}

/// Returns the block of the next section, if it is the one looked for.
fn pull_sought<'de, R: Read>(
    alloc: Global,
    name: &Cid,
    input: &mut Input<'de, R>,
    length: u64,
) -> Result<Option<Vec<u8>>, ToolError>
    ensures given { GivesVerified name.now result }
    ensures sought { (b : List ℕ) → (input_reading R.reading input.old).left ≡ Some b
        → GivesWhere (BeginsSought name.now length b) result }
{
    let mut left = Some(length);
    match pull_section(alloc, input, &mut left) {
        Ok(Some(section)) => block_sought(alloc, name, &section.section()),
        Ok(None) => Ok(None),
        Err(error) => {
            unread(error)?;
            Ok(None)
        }
    }
}

/// The same, for a buffered source.
fn pull_from<R: BufRead>(
    alloc: Global,
    name: &Cid,
    input: &mut R,
    length: u64,
) -> Result<Option<Vec<u8>>, ToolError>
    ensures given { GivesVerified name.now result }
    ensures sought { IfSome (R.remaining input.old)
        (λ b. GivesWhere (BeginsSought name.now length b) result) }
{
    let mut source = input_over(IoRefReader::new(input));
    let result = pull_sought(alloc, name, &mut source, length);
    if let Some(lent) = source.into_reader() {
        let _source = lent.into_inner();
    }
    result
}

/// Returns the block of the section at this offset in the CARv1 payload, if it is the one looked
/// for.
fn block_at<S: ReadAt>(
    alloc: Global,
    source: &S,
    layout: &Layout,
    name: &Cid,
    offset: u64,
) -> Result<Option<Vec<u8>>, ToolError>
    ensures given { GivesVerified name.now result }
    ensures sought { GivesOf (S.bytes source.now) (IsSoughtAt name.now layout.now offset) result }
{
    let Some(length) = layout.length.checked_sub(offset) else {
        return Ok(None);
    };
    let Some(place) = layout.begin.checked_add(offset) else {
        return Ok(None);
    };
    match buffered_from(alloc, source, place) {
        Ok(mut input) => pull_from(alloc, name, &mut input, length),
        Err(_) => Err(ToolError::OutOfMemory),
    }
}

/// Returns the first block looked for that the entries of the digest lead to.
fn block_in<S: ReadAt>(
    alloc: Global,
    source: &S,
    layout: &Layout,
    bucket: &Bucket,
    name: &Cid,
) -> Result<Option<Vec<u8>>, ToolError>
    ensures given { GivesVerified name.now result }
    ensures sought { GivesOf (S.bytes source.now) (LeadsIn name.now layout.now bucket.now) result }
{
    // No CID has a longer digest.
    let digest = name.digest();
    if digest.len() > LONGEST_DIGEST {
        return Ok(None);
    }
    let Some(first) = read_so(bucket.first_of(source, digest))? else {
        return Ok(None);
    };
    for number in first..first.saturating_add(MOST_TRIES) {
        let Some(offset) = read_so(bucket.offset_of(source, number, digest))? else {
            return Ok(None);
        };
        if let Some(block) = block_at(alloc, source, layout, name, offset)? {
            return Ok(Some(block));
        }
    }
    Ok(None)
}

/// Returns the block of this CID that the index leads to.
fn block_by<S: ReadAt>(
    alloc: Global,
    source: &S,
    layout: &Layout,
    name: &Cid,
) -> Result<Option<Vec<u8>>, ToolError>
    ensures given { GivesVerified name.now result }
    ensures sought { GivesOf (S.bytes source.now) (LeadsBy name.now layout.now) result }
{
    match read_so(find_bucket(source, layout.index, name.hash_code(), name.digest()))? {
        Some(bucket) => block_in(alloc, source, layout, &bucket, name),
        None => Ok(None),
    }
}

/// Returns what the index of the file yields for the CID. Reads only the CARv2 header, parts of the
/// index, and the sections that entries of the digest lead to.
pub fn find_block<S: ReadAt>(alloc: Global, source: &S, name: &Cid) -> Result<Found, ToolError>
    ensures { IfOk result (IsFound (S.bytes source.now) name.now) }
{
    let Some(layout) = layout_of(source)? else {
        return Ok(Found::NoIndex);
    };
    match block_by(alloc, source, &layout, name)? {
        Some(block) => Ok(Found::Block(block)),
        None => Ok(Found::NoEntry),
    }
}
