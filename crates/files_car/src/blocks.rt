//! The blocks of a CAR file of version 1.

ghost use Rattle.std.specs.Prelude.{IfErr, IfOk, MatchResult, OnOk, ◌≡◌};
ghost use Rattle.dagcbor_items.specs.Walks.{forms};
ghost use Rattle.ipld_links.specs.Reaching.{stored_in};
ghost use Rattle.files_car.specs.Blocks.{put_section, HoldsBlocks, HoldsSections, NoSections, BlocksRefused};

use crate::error::CarError;
use crate::header::split_header;
use crate::section::{Section, split_section};
use ipld_tree::Cid;
use std::alloc::{AllocError, Global};
use std::collections::BTreeMap;
use std::convert::Infallible;

/// The roots of a file, and its blocks, each under its name.
#[derive(Drop)]
pub struct CarBlocks {
    pub roots: Vec<Cid>,
    pub blocks: BTreeMap<Cid, Vec<u8>>,
}

/// Stores the block of a section under its name, and replaces a block that was there.
fn put_block(
    alloc: Global,
    blocks: &mut BTreeMap<Cid, Vec<u8>>,
    section: &Section<'_>,
) -> Result<(), AllocError>
    ensures { OnOk result (stored_in
        blocks.new ≡ put_section (stored_in blocks.old) (section.now.cid, section.now.block.now)) }
{
    let block = section.block.to_vec(alloc)?;
    match blocks.insert(section.cid, block) {
        Ok(_before) => Ok(()),
        Err(_) => Err(AllocError),
    }
}

/// Reads the bytes as sections, one after another, and returns their blocks.
fn section_blocks(
    alloc: Global,
    bytes: &[u8],
) -> Result<BTreeMap<Cid, Vec<u8>>, CarError<Infallible>>
    ensures { MatchResult result (λ blocks. HoldsSections bytes.now (stored_in blocks))
        (NoSections bytes.now) }
{
    let mut blocks = BTreeMap::new(alloc);
    let mut rest = bytes;
    while !rest.is_empty() {
        let (section, following) = match split_section(rest) {
            Ok(found) => found,
            Err(error) => return Err(error),
        };
        match put_block(alloc, &mut blocks, &section) {
            Ok(()) => rest = following,
            Err(_) => return Err(CarError::OutOfMemory),
        }
    }
    Ok(blocks)
}

/// Returns the roots and the blocks of a file of version 1. Of two blocks with the same name the
/// last is kept. No block is compared with its name, or validated.
#[tactic(auto, using(crate::proofs::Holding::whole, crate::proofs::Holding::header_refused, crate::proofs::Holding::sections_refused))]
pub fn read_blocks(alloc: Global, bytes: &[u8]) -> Result<CarBlocks, CarError<Infallible>>
    ensures read { IfOk result
        (λ file. HoldsBlocks bytes.now (forms file.roots.items) (stored_in file.blocks)) }
    ensures refused { IfErr result (BlocksRefused bytes.now) }
{
    match split_header(alloc, bytes) {
        Ok((roots, sections)) => match section_blocks(alloc, sections) {
            Ok(blocks) => Ok(CarBlocks { roots, blocks }),
            Err(error) => Err(error),
        },
        Err(error) => Err(error),
    }
}
