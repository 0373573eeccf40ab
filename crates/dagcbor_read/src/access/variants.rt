//! Enums: their variants are read by name.

ghost use Rattle.std.specs.Prelude.{◌≡◌, ◌+◌, ◌≤◌, false, IfErr, ⊤};
ghost use Rattle.dagcbor_core.specs.declared.error.DecodeError.{DecodeError};
ghost use Rattle.dagcbor_read.specs.Parts.{IfRefused, RefusesEnumAs};
ghost use Rattle.dagcbor_read.specs.Deserializers.{DeState, de_state, StaysFailed, Over};
ghost use Rattle.dagcbor_read.specs.Values.{ReadsValue, RefusesToBegin};
ghost use Rattle.dagcbor_read.specs.Enums.{enum_state, HasStepEnum, SpendsEnum};
ghost use Rattle.dagcbor_read.specs.EnumViews.{EnumShape, enum_of, ReadsVariant};

use crate::access::enum_accessor::EnumAccessor;
use crate::deserializer::Deserializer;
use dagcbor_heads::{Read, ReadResult};
use std::alloc::Global;

/// An enum that is read by a match on the variant's name.
pub trait Variants<'de>: Sized + Drop {
    /// What a value holds, wherever it is in memory.
    ghost View: { Type 0 };

    ghost meaning: { Self → View };

    /// The view of its variants.
    ghost shape: { EnumShape View };

    /// How a variant is refused, in addition to the law.
    ghost refuses: { {E : Type 0} → DeState → DecodeError E → DeState → Type 0 } = { λ old e new. ⊤ };

    /// Reads what the variant of this name holds, or ends a variant that is its name alone.
    fn read_variant<R: Read>(
        alloc: Global,
        name: &str,
        variant: EnumAccessor,
        de: &mut Deserializer<'de, R>,
    ) -> ReadResult<Self, R>
        requires sound { (de_state R.reading de.old).failed ≡ false }
        requires out { (de_state R.reading de.old).input.steps + (enum_state variant).steps ≤
            (de_state R.reading de.old).input.budget }
        ensures variant { Over R.reading
            (ReadsVariant meaning Self.shape name.now (enum_state variant)) de.old result de.new }
        ensures refuses { IfErr result
            (λ e. Self.refuses (de_state R.reading de.old) e (de_state R.reading de.new)) };
}

/// Reads an enum. The names of its variants are not used.
pub fn read_enum<'de, V: Variants<'de>, R: Read>(
    alloc: Global,
    name: &str,
    variants: &[&str],
    de: &mut Deserializer<'de, R>,
) -> ReadResult<V, R>
    ensures value { Over R.reading (ReadsValue V.meaning (enum_of V.shape)) de.old result de.new }
    ensures named { Over R.reading
        (RefusesToBegin HasStepEnum (SpendsEnum name.now)) de.old result de.new }
    ensures failed { Over R.reading StaysFailed de.old result de.new }
    ensures refuses { Over R.reading
        (IfRefused (RefusesEnumAs V.refuses name.now)) de.old result de.new }
{
    let form = de.deserialize_enum(name, variants)?;
    let (variant_name, variant) = form.variant(alloc, de)?;
    V::read_variant(alloc, variant_name.as_str(), variant, de)
}
