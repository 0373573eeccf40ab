//! A value made of parts, which are read in another form.

ghost use Rattle.std.specs.Prelude.{◌≡◌, Option, option_map, Result, codes, ⊤};
ghost use Rattle.serde_ipld_dagcbor.specs.Tree.{Tree};
ghost use Rattle.serde_ipld_dagcbor.specs.Shapes.{Shape};
ghost use Rattle.serde_ipld_dagcbor.specs.Collections.{finishing};
ghost use Rattle.serde_ipld_dagcbor.specs.DecodeError.{DecodeError};
ghost use Rattle.serde_ipld_dagcbor.specs.Deserializers.{DeState, StaysFailed, Over};
ghost use Rattle.serde_ipld_dagcbor.specs.Values.{ReadsValue};
ghost use Rattle.types_schema.specs.SchemaAnswers.{Makes};

use serde_ipld_dagcbor::{DecodeError, Deserializer, Read, ReadResult};
use std::alloc::Global;

/// A value made of parts, which are read first.
pub trait FromParts<'de>: Sized + Drop {
    type Parts: Drop;

    ghost PartsView: { Type 0 };

    ghost parts_meaning: { Self.Parts → PartsView };

    ghost parts_shape: { Shape Tree PartsView };

    ghost View: { Type 0 };

    ghost meaning: { Self → View };

    /// What the parts make, or `None` if they do not make a value.
    ghost made: { PartsView → Option View };

    /// What reading the parts promises in addition to the law.
    ghost parts_answers: { {E : Type 0} → DeState → Result Self.Parts (DecodeError E) → DeState
        → Type 0 } = { λ old result new. ⊤ };

    fn read_parts<R: Read>(
        alloc: Global,
        de: &mut Deserializer<'de, R>,
    ) -> ReadResult<Self::Parts, R>
        ensures value { Over R.reading (ReadsValue parts_meaning parts_shape) de.old result
            de.new }
        ensures failed { Over R.reading StaysFailed de.old result de.new }
        ensures answers { Over R.reading Self.parts_answers de.old result de.new };

    fn from_parts(parts: Self::Parts) -> Option<Self>
        ensures { option_map meaning result ≡ made (parts_meaning parts) };
}

/// Reads the parts and makes the value of them. Parts that do not make a value are refused with
/// `Msg("no such value")`.
pub fn read_from_parts<'de, T: FromParts<'de>, R: Read>(
    alloc: Global,
    de: &mut Deserializer<'de, R>,
) -> ReadResult<T, R>
    ensures value { Over R.reading (ReadsValue T.meaning (finishing T.made T.parts_shape)) de.old
        result de.new }
    ensures failed { Over R.reading StaysFailed de.old result de.new }
    ensures answers { Over R.reading (Makes T.meaning (λ p. T.made (T.parts_meaning p))
        (codes "no such value") T.parts_answers) de.old result de.new }
{
    let parts = T::read_parts(alloc, de)?;
    match T::from_parts(parts) {
        Some(value) => Ok(value),
        None => Err(DecodeError::custom("no such value")),
    }
}
