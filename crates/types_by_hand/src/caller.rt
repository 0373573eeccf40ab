//! The caller of docs/TYPES.md, word for word.

ghost use Rattle.std.specs.Prelude.{◌≡◌, ◌⊎◌, IfOk, IfErr, List, ℕ};
ghost use Rattle.serde_ipld_dagcbor.specs.DecodeError.TheVariants.{OutOfMemory};
ghost use Rattle.serde_ipld_dagcbor.specs.Steps.{default_steps};
ghost use Rattle.serde_ipld_dagcbor.specs.Whole.{IsWhole, HoldsNoValue};
ghost use Rattle.types_by_hand.specs.Note.{note_shape};

use crate::note::Note;
use serde_ipld_dagcbor::{DecodeError, from_slice};
use std::alloc::Global;
use std::convert::Infallible;

/// The year of the note that a block holds. Refused exactly if it holds none, or if memory was
/// refused.
pub fn year_of(alloc: Global, block: &[u8]) -> Result<u16, DecodeError<Infallible>>
    ensures value { IfOk result
        (λ year. (text : List ℕ) × IsWhole note_shape default_steps block.now (year, (text, tt))) }
    ensures refused { IfErr result
        (λ e. (e ≡ OutOfMemory) ⊎ HoldsNoValue note_shape default_steps block.now) }
{
    let note: Note = from_slice(alloc, block)?;
    Ok(note.year)
}
