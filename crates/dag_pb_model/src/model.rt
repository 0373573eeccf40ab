//! Writes the data model of a node.

ghost use Rattle.std.specs.Prelude.{◌≡◌, ◌^◌, ◌-◌, min, length, MatchResult};
ghost use Rattle.ipld_tree.specs.Tree.{Tree};
ghost use Rattle.ipld_tree.specs.Spelling.{spelling};
ghost use Rattle.dagcbor_decode.specs.Blocks.{IsBlock};
ghost use Rattle.lent_memory.specs.Puts.{with_front};
ghost use Rattle.dag_pb_model.specs.Model.{IsNodeOf};
ghost use Rattle.dag_pb_model.specs.Refusals.{HasNoModel};

use crate::error::ModelError;
use crate::fill::fill;
use crate::measure::measured;
use std::alloc::{AllocError, Global};

/// Writes the data model of a block of DAG-PB, as a block of DAG-CBOR, at the front of `out`, if it
/// has room. Returns the length of the data model in bytes, at most 2^64 - 1. It allocates nothing.
pub fn put_model(node: &[u8], out: &mut [u8]) -> Result<usize, ModelError>
    ensures { MatchResult result
        (λ n. (t : Tree) × IsNodeOf node.now t × (n ≡ min (length (spelling t)) (2 ^ 64 - 1))
        × (out.new ≡ with_front (spelling t) out.old))
        (λ e. HasNoModel node.now e × (out.new ≡ out.old)) }
{
    let found = measured(node)?;
    let count = found.total();
    if count <= out.len() {
        fill(node, &found, out);
    }
    Ok(count)
}

/// Returns the data model of a block of DAG-PB, as a block of DAG-CBOR. Memory is needed only if
/// there is one.
pub fn model_of(alloc: Global, node: &[u8]) -> Result<Result<Vec<u8>, ModelError>, AllocError>
    ensures { MatchResult result
        (λ r. MatchResult r
        (λ v. (t : Tree) × IsNodeOf node.now t × IsBlock v.items t)
        (λ e. HasNoModel node.now e))
        (λ _. (t : Tree) × IsNodeOf node.now t) }
{
    let found = match measured(node) {
        Ok(found) => found,
        Err(refusal) => return Ok(Err(refusal)),
    };
    let mut model = Vec::new(alloc);
    model.resize(found.total(), 0)?;
    fill(node, &found, &mut model);
    Ok(Ok(model))
}
