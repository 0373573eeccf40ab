//! The blocks of a CAR file, held in memory.

ghost use Rattle.std.specs.Prelude.{◌≡◌, is_some, option_map, IfOk, IfSome, MatchBool};
ghost use Rattle.ipld_links.specs.Reaching.{stored_in};
ghost use Rattle.ipld_links.specs.Verdicts.{IsVerified};
ghost use Rattle.program_parts.specs.Holding.{IsBest, Replaces, Yields, KeepsSection};
ghost use Rattle.program_parts.specs.Holding.{KeepsNext, HoldsFile};

use crate::take::{Ended, take_input};
use files_car::{Section, SectionSink};
use ipld_links::{SHA2_256, Verdict, stored_bytes, verify};
use ipld_tree::Cid;
use program_shared::ToolError;
use std::alloc::{AllocError, Global};
use std::collections::BTreeMap;
use std::io::BufRead;

/// Which sections of a file are kept.
#[derive(Clone, Copy, Drop)]
pub enum Kept {
    /// All, whatever their bytes. Whoever reads a block judges it.
    All,
    /// Those whose bytes match their CID, by SHA-256.
    Verified,
}

/// The blocks of a file, by CID.
#[derive(Drop)]
struct Holding {
    alloc: Global,
    kept: Kept,
    blocks: BTreeMap<Cid, Vec<u8>>,
}

/// A CAR file in memory: its roots, and its blocks by CID.
#[derive(Drop)]
pub struct Held {
    pub roots: Vec<Cid>,
    pub blocks: BTreeMap<Cid, Vec<u8>>,
}

/// Returns whether a block is held under the CID.
pub fn is_there(blocks: &BTreeMap<Cid, Vec<u8>>, name: &Cid) -> bool
    ensures { result ≡ is_some (stored_in blocks.now name.now) }
{
    stored_bytes(blocks, name).is_some()
}

/// Returns whether the section's bytes match its CID.
fn is_named(section: &Section<'_>) -> bool
    ensures { MatchBool result (IsVerified (section.now.cid, section.now.block.now))
        (¬ IsVerified (section.now.cid, section.now.block.now)) }
{
    match verify(&section.cid, section.block) {
        Verdict::OtherBytes => false,
        Verdict::Unverified => false,
        _ => true,
    }
}

/// Returns whether no section with the same CID is better.
fn is_good(kept: Kept, section: &Section<'_>) -> bool
    ensures { MatchBool result (IsBest kept (section.now.cid, section.now.block.now))
        (¬ IsBest kept (section.now.cid, section.now.block.now)) }
{
    match kept {
        Kept::All => is_named(section),
        Kept::Verified => section.cid.hash_code() == SHA2_256 && is_named(section),
    }
}

/// Returns whether a section replaces what is held under its CID. Verifies its bytes only if that
/// decides.
fn replaces(kept: Kept, held: Option<&[u8]>, section: &Section<'_>) -> bool
    ensures { MatchBool result
        (Replaces kept (option_map (λ b. b.now) held.entry) (section.now.cid, section.now.block.now))
        (Yields kept (option_map (λ b. b.now) held.entry) (section.now.cid, section.now.block.now)) }
{
    match held {
        Some(block) if block == section.block => false,
        None if matches!(kept, Kept::All) => true,
        _ => is_good(kept, section),
    }
}

/// Holds the block of a section, if it is to be kept. Of two blocks with the same CID, the one that
/// matches it stays.
fn hold(
    alloc: Global,
    kept: Kept,
    blocks: &mut BTreeMap<Cid, Vec<u8>>,
    section: &Section<'_>,
) -> Result<(), AllocError>
    ensures { KeepsSection kept (section.now.cid, section.now.block.now) (stored_in blocks.old) result
        (stored_in blocks.new) }
{
    if !replaces(kept, stored_bytes(blocks, &section.cid), section) {
        return Ok(());
    }
    let block = section.block.to_vec(alloc)?;
    match blocks.insert(section.cid, block) {
        Ok(_) => Ok(()),
        Err(_) => Err(AllocError),
    }
}

impl SectionSink for Holding {
    type Stop = AllocError;

    ghost takes = { KeepsNext };

    fn take(&mut self, section: &Section<'_>) -> Result<(), AllocError> {
        hold(self.alloc, self.kept, &mut self.blocks, section)
    }
}

/// Reads the input's CAR file. Returns its roots and blocks, or a line that says why it is not one.
pub fn held_of<R: BufRead>(
    alloc: Global,
    kept: Kept,
    input: &mut R,
) -> Result<Result<Held, Vec<u8>>, ToolError>
    ensures { IfSome (R.remaining input.old) (λ b. IfOk result (HoldsFile kept b)) }
{
    let mut holding = Holding {
        alloc,
        kept,
        blocks: BTreeMap::new(alloc),
    };
    let (roots, ended) = take_input(alloc, &mut holding, input)?;
    match ended {
        Ended::Whole => Ok(Ok(Held {
            roots,
            blocks: holding.blocks,
        })),
        Ended::Stopped(_) => Err(ToolError::OutOfMemory),
        Ended::Fault(line) => Ok(Err(line)),
    }
}
