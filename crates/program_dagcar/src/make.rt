//! `make`: the block of the data that a DAG-JSON text spells.

ghost use Rattle.std.specs.Prelude.{true, false, IfOk};
ghost use Rattle.ipld_tree.specs.Ipld.{tree_of};
ghost use Rattle.ipld_tree.specs.Spelling.{IsSpelling};
ghost use Rattle.program_dagcar.specs.Answers.{IsMade};

use crate::answer::Answering;
use crate::names::cause_line;
use dagcbor_write::to_vec;
use ipld_tree::Ipld;
use program_parts::Answer;
use program_shared::ToolError;
use std::alloc::Global;
use text_dag_json::{DagJsonError, data_from_json};

/// Returns the block of the data. The only error is out of memory, since what a text spells has a
/// block.
fn block_of(alloc: Global, value: &Ipld) -> Result<Vec<u8>, ToolError>
    ensures { IfOk result (λ v. IsSpelling v.items (tree_of value.now)) }
{
    to_vec(alloc, value).map_err(|_| ToolError::OutOfMemory)
}

/// Returns the block of the text's data, or the error line if the text is refused.
fn made(alloc: Global, text: &[u8]) -> Result<Answer, ToolError>
    ensures { IfOk result (λ p. IsMade text.now p.0.1 p.0.0.items p.1.items) }
{
    match data_from_json(alloc, text) {
        Ok(value) => Ok(((block_of(alloc, &value)?, true), Vec::new(alloc))),
        Err(refusal) => match refusal.cause {
            DagJsonError::OutOfMemory => Err(ToolError::OutOfMemory),
            _ => match cause_line(alloc, &refusal) {
                Ok(line) => Ok(((Vec::new(alloc), false), line)),
                Err(_) => Err(ToolError::OutOfMemory),
            },
        },
    }
}

/// `make`: the block of data in DAG-JSON.
#[derive(Clone, Copy)]
pub struct Making;

impl Answering for Making {
    ghost is_said = { IsMade };

    fn answer(alloc: Global, bytes: &[u8]) -> Result<Answer, ToolError> {
        made(alloc, bytes)
    }
}
