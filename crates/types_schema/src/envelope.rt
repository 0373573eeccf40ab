//! A union whose member is identified by a tag that comes before the member's content.

ghost use Rattle.std.specs.Prelude.{◌≡◌, ◌<◌, true, false, IfErr, ⊤};
ghost use Rattle.dagcbor_core.specs.declared.error.DecodeError.{DecodeError};
ghost use Rattle.dagcbor_read.specs.Accessors.{accessor_state, after_value};
ghost use Rattle.dagcbor_read.specs.Deserializers.{DeState, de_state, StaysFailed, Over};
ghost use Rattle.dagcbor_read.specs.EnumViews.{EnumShape, part_of};
ghost use Rattle.dagcbor_read.specs.Parts.{IfRefused};
ghost use Rattle.dagcbor_read.specs.Values.{ReadsValue};
ghost use Rattle.types_schema.specs.Envelopes.{envelope_of, ReadsNamedKey};
ghost use Rattle.types_schema.specs.SchemaAnswers.{RefusesNamedKey, RefusesEnvelope};

use serde_ipld_dagcbor::{Accessor, DecodeError, Deserializer, Read, ReadResult};
use std::alloc::Global;
use std::borrow::CowStr;

/// A union whose members are identified by tags.
pub trait Enveloped<'de>: Sized + Drop {
    ghost View: { Type 0 };

    ghost meaning: { Self → View };

    /// The views of the members' contents, by their tags.
    ghost shape: { EnumShape View };

    /// How a member's content is refused, in addition to the law.
    ghost refuses: { {E : Type 0} → DeState → DecodeError E → DeState → Type 0 } = { λ old e new. ⊤ };

    /// Reads the content of the member with this tag: the value of an entry whose key was read.
    fn read_content<R: Read>(
        alloc: Global,
        tag: &str,
        entries: &mut Accessor<'de>,
        de: &mut Deserializer<'de, R>,
    ) -> ReadResult<Self, R>
        requires owes { (accessor_state entries.old).owes_value ≡ true }
        requires sound { (de_state R.reading de.old).failed ≡ false }
        ensures after { accessor_state entries.new ≡ after_value result
            (accessor_state entries.old) }
        ensures value { Over R.reading
            (ReadsValue meaning (part_of Self.shape tag.now)) de.old result de.new }
        ensures refuses { IfErr result
            (λ e. Self.refuses (de_state R.reading de.old) e (de_state R.reading de.new)) };
}

/// Reads the next key, which must be `name`. Another key is refused with `Msg("unknown field")`.
fn read_named_key<'de, R: Read>(
    alloc: Global,
    name: &str,
    entries: &mut Accessor<'de>,
    de: &mut Deserializer<'de, R>,
) -> ReadResult<(), R>
    requires map { (accessor_state entries.old).is_map ≡ true }
    requires in_turn { (accessor_state entries.old).owes_value ≡ false }
    requires sound { (de_state R.reading de.old).failed ≡ false }
    ensures key { ReadsNamedKey name.now (accessor_state entries.old) (de_state R.reading de.old)
        result (accessor_state entries.new) (de_state R.reading de.new) }
    ensures refuses { IfErr result
        (λ e. RefusesNamedKey name.now (accessor_state entries.old).last
        (accessor_state entries.old).left (de_state R.reading de.old) e
        (de_state R.reading de.new)) }
{
    let Some(key) = entries.next_key(alloc, de)? else {
        return Err(DecodeError::custom("missing field"));
    };
    if key.as_str() == name {
        Ok(())
    } else {
        Err(DecodeError::custom("unknown field"))
    }
}

/// Reads a map of two entries: the tag of the member, and then the member's content.
pub fn read_enveloped<'de, V: Enveloped<'de>, R: Read>(
    alloc: Global,
    tag: &str,
    content: &str,
    de: &mut Deserializer<'de, R>,
) -> ReadResult<V, R>
    ensures value { Over R.reading
        (ReadsValue V.meaning (envelope_of tag.now content.now V.shape)) de.old result de.new }
    ensures failed { Over R.reading StaysFailed de.old result de.new }
    ensures refuses { Over R.reading (IfRefused (RefusesEnvelope tag.now content.now V.refuses))
        de.old result de.new }
{
    let mut entries = de.deserialize_map()?;
    read_named_key(alloc, tag, &mut entries, de)?;
    let name: CowStr<'de> = entries.next_value(alloc, de)?;
    read_named_key(alloc, content, &mut entries, de)?;
    let value = V::read_content(alloc, name.as_str(), &mut entries, de)?;
    entries.end(de)?;
    Ok(value)
}
