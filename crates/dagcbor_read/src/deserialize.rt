//! The traits of types that can be read.

ghost use Rattle.std.specs.Prelude.{◌≡◌, Bool, false, ⊤, IfOk, Result};
ghost use Rattle.dagcbor_core.specs.declared.error.DecodeError.{DecodeError};
ghost use Rattle.dagcbor_read.specs.Deserializers.{DeState, de_state, StaysFailed, Over};
ghost use Rattle.dagcbor_read.specs.Values.{ReadsValue};

use crate::deserializer::Deserializer;
use crate::shown::Shown;
use dagcbor_heads::{Read, ReadResult};
use std::alloc::Global;

/// A type whose values can be read from a `Deserializer`, from an input that lives for `'de`.
pub trait Deserialize<'de>: Shown + Sized + Drop {
    /// Where a value that was read is in memory, depending on whether the input lends. A type whose
    /// values may be lent says here when they are.
    ghost lies: { Bool → Self → Type 0 } = { λ lends v. ⊤ };

    /// What reading a value promises in addition to the law: the causes of its refusals, its looks,
    /// and whether it has failed after that. Calls that read a part pass it on.
    ghost answers: { {E : Type 0} → DeState → Result Self (DecodeError E) → DeState → Type 0 } = { λ old result new. ⊤ };

    /// Reads a value. It succeeds exactly if the type accepts the tree at the front, within the
    /// steps left.
    fn deserialize<R: Read>(alloc: Global, de: &mut Deserializer<'de, R>) -> ReadResult<Self, R>
        ensures value { Over R.reading (ReadsValue Self.meaning Self.shape) de.old result de.new }
        ensures failed { Over R.reading StaysFailed de.old result de.new }
        ensures lies { IfOk result (Self.lies (de_state R.reading de.old).input.lends) }
        ensures answers { Over R.reading Self.answers de.old result de.new };
}

/// A type whose values need no loan of the input, so that any reader will do.
pub trait DeserializeOwned<'de>: Deserialize<'de> {
    ghost owned: { Self.shape.wants_loan ≡ false };
}
