//! A CAR file that proves what a path leads to.

ghost use Rattle.std.specs.Prelude.{List, ℕ, [], ◌∷◌, IfOk, MatchBool};
ghost use Rattle.ipld_tree.specs.Cid.{cid_bytes};
ghost use Rattle.ipld_paths.specs.Paths.{segments};
ghost use Rattle.ipld_links.specs.Reaching.{stored_in};
ghost use Rattle.files_car.specs.Car.{IsCar};
ghost use Rattle.files_car.specs.Reached.{sections_at};
ghost use Rattle.ipld_paths.specs.Resolving.{AreOnTheWay};
ghost use Rattle.program_parts.specs.Lines.{SaysBoth};
ghost use Rattle.program_parts.specs.Proof.{IsDecided, IsProofFile, IsProofOf};

use crate::end::say_end;
use crate::line::say_both;
use dagcbor_heads::BufWriter;
use files_car::push_tree;
use ipld_paths::{End, each_once, resolve_way};
use ipld_tree::Cid;
use program_shared::ToolError;
use std::alloc::{AllocError, Global};
use std::collections::BTreeMap;
use std::io::Write;

/// Returns whether the blocks on the way decide the path: it leads to an item, or to nothing.
fn is_decided(end: &End<'_>) -> bool
    ensures { MatchBool result (IsDecided end.now) (¬ IsDecided end.now) }
{
    match end {
        End::Item(_, _, _) => true,
        End::NoSuchPath(_) => true,
        End::NotHeld => false,
        End::NoBlock(_) => false,
        End::NoModel => false,
        End::Endless => false,
    }
}

/// Returns the CAR file of the root and the blocks of these names.
fn file_of(
    alloc: Global,
    root: &Cid,
    blocks: &BTreeMap<Cid, Vec<u8>>,
    names: &[Cid],
) -> Result<Vec<u8>, AllocError>
    ensures { IfOk result (λ v. IsCar v.items (cid_bytes root.now ∷ [])
        (sections_at (stored_in blocks.now) names.now)) }
{
    let mut writer = BufWriter::new(Vec::new(alloc));
    match push_tree(alloc, &mut writer, root, blocks, names) {
        Ok(()) => Ok(writer.into_inner()),
        Err(_) => Err(AllocError),
    }
}

/// Returns the CAR file that proves what the path leads to from the root, whose way has these
/// names.
fn proof_over(
    alloc: Global,
    root: &Cid,
    blocks: &BTreeMap<Cid, Vec<u8>>,
    way: &[Cid],
) -> Result<Vec<u8>, AllocError>
    ensures { (path : List (List ℕ)) → AreOnTheWay (stored_in blocks.now) root.now path way.now
        → IfOk result (λ v. IsProofFile (stored_in blocks.now) root.now path v.items) }
{
    let names = each_once(alloc, way)?;
    file_of(alloc, root, blocks, &names)
}

/// Writes the CAR file that proves what the path leads to from the root, or that it leads to
/// nothing; or an error line that says why this is not decided. Returns whether it is. Makes the
/// file in memory, and then writes it.
pub fn say_proof<W: Write, V: Write>(
    alloc: Global,
    root: &Cid,
    path: &str,
    blocks: &BTreeMap<Cid, Vec<u8>>,
    output: &mut W,
    errors: &mut V,
) -> Result<bool, ToolError>
    ensures { SaysBoth (IsProofOf (stored_in blocks.now) root.now (segments path.now))
        (W.contents output.old) (V.contents errors.old) result
        (W.contents output.new) (V.contents errors.new) }
{
    let way = resolve_way(alloc, blocks, root, path)?;
    if !is_decided(&way.resolved.end) {
        return say_end(alloc, &way.resolved, output, errors);
    }
    let file = proof_over(alloc, root, blocks, &way.names)?;
    say_both((file, true), b"", output, errors)
}
