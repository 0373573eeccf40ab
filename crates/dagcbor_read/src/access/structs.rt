//! Structs: their fields are read by name.

ghost use Rattle.std.specs.Prelude.{◌≡◌, ◌⊎◌, None, Some, MatchResult, Err, IfErr, codes};
ghost use Rattle.dagcbor_core.specs.declared.name.Name.{Name};
ghost use Rattle.dagcbor_core.specs.declared.error.DecodeError.TheVariants.{Msg};
ghost use Rattle.dagcbor_core.specs.Names.{Names};
ghost use Rattle.dagcbor_items.specs.Looks.{LooksAtAny};
ghost use Rattle.dagcbor_items.specs.LeafReads.{ReadsIgnored};
ghost use Rattle.dagcbor_items.specs.AnsweredVariants.{OfItem};
ghost use Rattle.dagcbor_read.specs.Deserializers.{de_state, StaysFailed, AreOut, Over};
ghost use Rattle.dagcbor_read.specs.Values.{ReadsValue, RefusesToBegin};
ghost use Rattle.dagcbor_read.specs.Accessors.{HasHeadOf, BeginsItems};
ghost use Rattle.dagcbor_read.specs.Enums.{enum_state, BeginsHeld, ReadsFieldsHeld, TakesHeld};
ghost use Rattle.dagcbor_read.specs.Collections.{struct_of, fields_of};
ghost use Rattle.dagcbor_read.specs.Structs.{texts, no_places, no_other_places};
ghost use Rattle.dagcbor_read.specs.Parts.{ReadsOnce, RefusesFieldsAs, RefusesHeldFields};
ghost use Rattle.dagcbor_read.specs.Parts.{IfRefused, LacksField, IsUnknownField};
ghost use Rattle.dagcbor_items.specs.TypedReads.{TakesFront};

use crate::access::accessor::Accessor;
use crate::access::enum_accessor::EnumAccessor;
use crate::access::fields::{Fields, read_entries_left, skip_value};
use crate::deserializer::Deserializer;
use dagcbor_core::DecodeError;
use dagcbor_heads::{Read, ReadResult};
use std::alloc::Global;

/// The end of a row of fields, after which any other key is refused. Use it in place of `()`, which
/// skips the values of other keys.
#[derive(Clone, Copy, Debug, PartialEq, Eq)]
pub struct Closed;

/// No field: the value of any key is skipped.
impl<'de> Fields<'de> for () {
    type Places = ();

    ghost State = { Unit {0} };

    ghost state = { λ u. tt };

    ghost unread = { tt };

    ghost shape = { λ names. no_places };

    ghost View = { Unit {0} };

    ghost meaning = { λ u. tt };

    ghost finish = { Some };

    ghost refuses = { λ old e new. ReadsOnce {T = Unit {0}} ReadsIgnored LooksAtAny OfItem old (Err e) new };

    fn unread(_alloc: Global) -> () {}

    fn read_field<R: Read>(
        _places: &mut (),
        alloc: Global,
        _names: &[&str],
        _key: &str,
        de: &mut Deserializer<'de, R>,
    ) -> ReadResult<(), R> {
        skip_value(alloc, de)
    }

    fn read_named<R: Read>(
        _places: &mut (),
        _alloc: Global,
        _names: &[&str],
        _entries: &mut Accessor<'de>,
        _de: &mut Deserializer<'de, R>,
        _refusal: &mut Option<DecodeError<R::Error>>,
    ) -> bool {
        false
    }

    #[inline(always)]
    fn finish(_places: ()) -> Option<()> {
        Some(())
    }
}

/// No field: any key is refused.
impl<'de> Fields<'de> for Closed {
    type Places = ();

    ghost State = { Unit {0} };

    ghost state = { λ u. tt };

    ghost unread = { tt };

    ghost shape = { λ names. no_other_places };

    ghost View = { Unit {0} };

    ghost meaning = { λ u. tt };

    ghost finish = { Some };

    ghost refuses = { IsUnknownField };

    fn unread(_alloc: Global) -> () {}

    fn read_field<R: Read>(
        _places: &mut (),
        _alloc: Global,
        _names: &[&str],
        _key: &str,
        _de: &mut Deserializer<'de, R>,
    ) -> ReadResult<(), R> {
        Err(DecodeError::custom("unknown field"))
    }

    fn read_named<R: Read>(
        _places: &mut (),
        _alloc: Global,
        _names: &[&str],
        _entries: &mut Accessor<'de>,
        _de: &mut Deserializer<'de, R>,
        _refusal: &mut Option<DecodeError<R::Error>>,
    ) -> bool {
        false
    }

    #[inline(always)]
    fn finish(_places: ()) -> Option<Closed> {
        Some(Closed)
    }
}

/// Returns the fields once all entries were read, or an error if a field is missing.
#[inline(always)]
fn finished<'de, F: Fields<'de>, E>(places: F::Places) -> Result<F, DecodeError<E>>
    ensures finish { MatchResult result
        (λ v. F.finish (F.state places) ≡ Some (F.meaning v))
        (λ e. (F.finish (F.state places) ≡ None) × ((kept : Name) × (e ≡ Msg kept))) }
    ensures said { IfErr result
        (λ e. (kept : Name) × (e ≡ Msg kept) × Names kept (codes "missing field")) }
{
    match F::finish(places) {
        Some(fields) => Ok(fields),
        None => Err(DecodeError::custom("missing field")),
    }
}

/// Reads a struct's fields, which have these names, from a map, whatever their order.
pub fn read_struct<'de, F: Fields<'de>, R: Read>(
    alloc: Global,
    name: &str,
    names: &[&'de str],
    de: &mut Deserializer<'de, R>,
) -> ReadResult<F, R>
    ensures value { Over R.reading
        (ReadsValue F.meaning (struct_of (F.shape (texts names.now)) F.unread F.finish)) de.old
        result de.new }
    ensures named { Over R.reading
        (RefusesToBegin (HasHeadOf 5) (BeginsItems 5 name.now 1)) de.old result de.new }
    ensures failed { Over R.reading StaysFailed de.old result de.new }
    ensures refuses { Over R.reading
        (IfRefused (λ old e new. RefusesFieldsAs F.refuses name.now old e new
        ⊎ LacksField (TakesFront (fields_of (F.shape (texts names.now)) F.unread)) F.finish old e
        new)) de.old result de.new }
{
    let entries = de.deserialize_struct(name, names)?;
    let places = read_entries_left::<F, R>(alloc, names, entries, de)?;
    finished(places)
}

/// Reads the fields that a variant holds, which have these names, in any order.
pub fn read_struct_variant<'de, F: Fields<'de>, R: Read>(
    alloc: Global,
    variant: EnumAccessor,
    names: &[&'de str],
    de: &mut Deserializer<'de, R>,
) -> ReadResult<F, R>
    requires { AreOut (enum_state variant).steps (de_state R.reading de.old) }
    ensures fields { Over R.reading
        (ReadsFieldsHeld F.meaning (struct_of (F.shape (texts names.now)) F.unread F.finish)
        (enum_state variant)) de.old result de.new }
    ensures named { Over R.reading
        (RefusesToBegin (HasHeadOf 5) (BeginsHeld 5 (codes "map") (enum_state variant))) de.old
        result de.new }
    ensures failed { Over R.reading StaysFailed de.old result de.new }
    ensures refuses { Over R.reading
        (IfRefused (λ old e new. RefusesHeldFields F.refuses (enum_state variant) old e new
        ⊎ LacksField (TakesHeld (fields_of (F.shape (texts names.now)) F.unread)
        (enum_state variant)) F.finish old e new)) de.old result de.new }
{
    let entries = variant.struct_variant(names, de)?;
    let places = read_entries_left::<F, R>(alloc, names, entries, de)?;
    finished(places)
}
