//! `get`: one block of a CAR file.

ghost use Rattle.std.specs.Prelude.{◌≡◌, IfOk, IfSome, MatchBool};
ghost use Rattle.ipld_links.specs.Verdicts.{IsVerified};
ghost use Rattle.program_dagcar.specs.Finding.{IsGot, Seeks};
ghost use Rattle.program_parts.specs.Lines.{SaysBoth};

use files_car::{Section, SectionSink};
use ipld_links::{Verdict, verify};
use ipld_tree::Cid;
use program_parts::{Answer, Ended, missing_lines, say_both, take_input};
use program_shared::ToolError;
use std::alloc::Global;
use std::io::{BufRead, Write};

/// The CID looked for, and the block once it is found.
#[derive(Drop)]
pub struct Search {
    alloc: Global,
    name: Cid,
    block: Vec<u8>,
}

/// Why a search stops.
#[derive(Clone, Copy, Drop)]
pub enum Stop {
    Enough,
    OutOfMemory,
}

/// Returns whether the section has this CID and its bytes match it.
fn is_sought(name: &Cid, section: &Section<'_>) -> bool
    ensures { MatchBool result
        ((section.now.cid ≡ name.now) × IsVerified (section.now.cid, section.now.block.now))
        (¬ ((section.now.cid ≡ name.now) × IsVerified (section.now.cid, section.now.block.now))) }
{
    if section.cid != *name {
        return false;
    }
    match verify(&section.cid, section.block) {
        Verdict::OtherBytes => false,
        Verdict::Unverified => false,
        _ => true,
    }
}

impl SectionSink for Search {
    type Stop = Stop;

    ghost takes = { Seeks };

    fn take(&mut self, section: &Section<'_>) -> Result<(), Stop> {
        if !is_sought(&self.name, section) {
            return Ok(());
        }
        match section.block.to_vec(self.alloc) {
            Ok(block) => {
                self.block = block;
                Err(Stop::Enough)
            }
            Err(_) => Err(Stop::OutOfMemory),
        }
    }
}

/// Returns the block of this CID in the input's CAR file, or the error line if there is none. Does
/// not read past the block.
pub fn got<R: BufRead>(alloc: Global, name: &Cid, input: &mut R) -> Result<Answer, ToolError>
    ensures { IfSome (R.remaining input.old) (λ b. IfOk result
        (λ p. IsGot name.now b p.0.1 p.0.0.items p.1.items)) }
{
    let mut search = Search {
        alloc,
        name: *name,
        block: Vec::new(alloc),
    };
    let (_roots, ended) = take_input(alloc, &mut search, input)?;
    match ended {
        Ended::Stopped(stop) => match stop {
            Stop::Enough => Ok(((search.block, true), Vec::new(alloc))),
            Stop::OutOfMemory => Err(ToolError::OutOfMemory),
        },
        Ended::Whole => {
            let line = missing_lines(alloc, &[*name])?;
            Ok(((Vec::new(alloc), false), line))
        }
        Ended::Fault(line) => Ok(((Vec::new(alloc), false), line)),
    }
}

/// Writes the block of this CID in the input's CAR file, or an error line that says why there is
/// none. Returns whether it was found.
pub fn get_block<R: BufRead, W: Write, V: Write>(
    alloc: Global,
    name: &Cid,
    input: &mut R,
    output: &mut W,
    errors: &mut V,
) -> Result<bool, ToolError>
    ensures { IfSome (R.remaining input.old) (λ b.
        SaysBoth (IsGot name.now b) (W.contents output.old) (V.contents errors.old) result
        (W.contents output.new) (V.contents errors.new)) }
{
    let (said, told) = got(alloc, name, input)?;
    say_both(said, &told, output, errors)
}
