//! `name`, `one` and `show`: the name, the kind or the data of a block.

ghost use Rattle.std.specs.Prelude.{◌≡◌, ◌≢◌, ◌⊎◌, [], IfOk, MatchBool, MatchOption};
ghost use Rattle.ipld_tree.specs.Tree.{Tree};
ghost use Rattle.text_cid.specs.Texts.{cid_text};
ghost use Rattle.dag_pb_model.specs.Model.{IsNodeOf};
ghost use Rattle.program_parts.specs.Lines.{line};
ghost use Rattle.program_parts.specs.Shown.{IsSaidOfNoBlock};
ghost use Rattle.program_dagcar.specs.Answers.{IsDataSaid, IsDataShown, IsJudged, IsNameSaid};
ghost use Rattle.program_dagcar.specs.Answers.{AreTwoBlocks, IsHint, IsUnreadSaid};

use crate::answer::Answering;
use dag_pb_model::model_of;
use dagcbor_core::DecodeError;
use dagcbor_decode::{judge_slice, kind_name};
use ipld_links::name_of_block;
use ipld_tree::Cid;
use program_parts::{Answer, Said, line_of, no_block_answer, shown};
use program_shared::ToolError;
use std::alloc::{AllocError, Global};
use text_cid::cid_text;

/// The error line for two blocks in a row.
const TWO_BLOCKS: &[u8] = b"dagcar: two blocks, one after the other: dagcar event reads frames\n";

/// Returns whether the bytes are a block and then a second block.
fn are_two_blocks(bytes: &[u8]) -> bool
    ensures { MatchBool result (AreTwoBlocks bytes.now) (¬ AreTwoBlocks bytes.now) }
{
    let Err(refused) = judge_slice(bytes) else {
        return false;
    };
    match refused.cause {
        DecodeError::TrailingData => judge_slice(&bytes[refused.place..]).is_ok(),
        _ => false,
    }
}

/// Returns the hint for bytes that are not a block: the command for two blocks, or nothing.
fn hint_of(alloc: Global, bytes: &[u8]) -> Result<Vec<u8>, AllocError>
    ensures { IfOk result (λ v. IsHint bytes.now v.items) }
{
    if are_two_blocks(bytes) {
        TWO_BLOCKS.to_vec(alloc)
    } else {
        Ok(Vec::new(alloc))
    }
}

/// Returns the answer for bytes that are not a block, from the lines that say why.
fn unread_answer(
    alloc: Global,
    bytes: &[u8],
    said: Said,
    mut told: Vec<u8>,
) -> Result<Answer, AllocError>
    ensures { IfOk result (λ p. IsSaidOfNoBlock bytes.now said.1 said.0.items told.items
        → IsUnreadSaid bytes.now p.0.1 p.0.0.items p.1.items) }
{
    let hint = hint_of(alloc, bytes)?;
    told.extend_from_slice(&hint)?;
    Ok((said, told))
}

/// Returns the line of a CID.
fn name_line(alloc: Global, cid: &Cid) -> Result<Vec<u8>, AllocError>
    ensures { IfOk result (λ v. v.items ≡ line (cid_text cid.now)) }
{
    line_of(alloc, &cid_text(cid), b"", b"")
}

/// `name`: the CID of the block, or why the bytes are not a block.
#[derive(Clone, Copy)]
pub struct Naming;

impl Answering for Naming {
    ghost is_said = { IsNameSaid };

    fn answer(alloc: Global, bytes: &[u8]) -> Result<Answer, ToolError> {
        match judge_slice(bytes) {
            Ok(_kind) => {
                let line = name_line(alloc, &name_of_block(bytes))?;
                Ok(((line, true), Vec::new(alloc)))
            }
            Err(refused) => Ok(no_block_answer(alloc, &refused)?),
        }
    }
}

/// `one`: the kind of the block, or why the bytes are not a block.
#[derive(Clone, Copy)]
pub struct Judging;

impl Answering for Judging {
    ghost is_said = { IsJudged };

    fn answer(alloc: Global, bytes: &[u8]) -> Result<Answer, ToolError> {
        match judge_slice(bytes) {
            Ok(kind) => {
                let line = line_of(alloc, b"ok ", kind_name(kind).as_bytes(), b"")?;
                Ok(((line, true), Vec::new(alloc)))
            }
            Err(refused) => {
                let (said, told) = no_block_answer(alloc, &refused)?;
                Ok(unread_answer(alloc, bytes, said, told)?)
            }
        }
    }
}

/// Returns the data model of a DAG-PB node. `None` if the bytes are not a node whose names are
/// texts, or are empty (an empty node).
fn model_shown(alloc: Global, bytes: &[u8]) -> Result<Option<Answer>, AllocError>
    ensures { IfOk result (λ r. MatchOption r ((bytes.now ≡ []) ⊎ ((t : Tree) → ¬ IsNodeOf bytes.now t))
        (λ p. (bytes.now ≢ []) × ((t : Tree) × IsNodeOf bytes.now t
        × IsDataSaid t p.0.1 p.0.0.items p.1.items))) }
{
    if bytes.is_empty() {
        return Ok(None);
    }
    match model_of(alloc, bytes)? {
        Ok(block) => Ok(Some(shown(alloc, &block)?)),
        Err(_) => Ok(None),
    }
}

/// Returns the data of the block or of the DAG-PB node, or why the bytes are not a block.
fn data_shown(alloc: Global, bytes: &[u8]) -> Result<Answer, AllocError>
    ensures { IfOk result (λ p. IsDataShown bytes.now p.0.1 p.0.0.items p.1.items) }
{
    let (said, told) = shown(alloc, bytes)?;
    if said.1 {
        return Ok((said, told));
    }
    match model_shown(alloc, bytes)? {
        Some(answer) => Ok(answer),
        None => unread_answer(alloc, bytes, said, told),
    }
}

/// `show`: the data of the block or of the DAG-PB node, or why the bytes are not a block.
#[derive(Clone, Copy)]
pub struct Showing;

impl Answering for Showing {
    ghost is_said = { IsDataShown };

    fn answer(alloc: Global, bytes: &[u8]) -> Result<Answer, ToolError> {
        Ok(data_shown(alloc, bytes)?)
    }
}
