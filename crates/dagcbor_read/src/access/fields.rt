//! Reading the entries of a map: into the places of a struct, or into a map.

ghost use Rattle.std.specs.Prelude.{◌≡◌, ◌+◌, ◌<◌, ◌≤◌, ℕ, List, [], Option, option_map, true};
ghost use Rattle.std.specs.Prelude.{false, codes, IfOk, IfErr, IfSome, None, ⊤};
ghost use Rattle.dagcbor_items.specs.Shapes.{ignored_item};
ghost use Rattle.dagcbor_items.specs.Looks.{LooksAtAny};
ghost use Rattle.dagcbor_items.specs.LeafReads.{ReadsIgnored};
ghost use Rattle.dagcbor_items.specs.AnsweredVariants.{OfItem};
ghost use Rattle.dagcbor_read.specs.Parts.{ReadsOnce, FillsAs, RefusesPast, PassesKey, RefusesEntry};
ghost use Rattle.dagcbor_read.specs.Parts.{RefusesFieldsAs, IfRefused, RefusesEntries};
ghost use Rattle.dagcbor_core.specs.declared.error.DecodeError.{DecodeError};
ghost use Rattle.dagcbor_read.specs.Deserializers.{DeState, de_state, StaysFailed, Over};
ghost use Rattle.dagcbor_read.specs.Values.{ReadsValue, RefusesToBegin};
ghost use Rattle.dagcbor_read.specs.Accessors.{accessor_state, HasHeadOf, BeginsItems};
ghost use Rattle.dagcbor_read.specs.Collections.{FieldShape, fields_of, value_of, slot_of};
ghost use Rattle.dagcbor_read.specs.Collections.{ReadsEntriesLeft};
ghost use Rattle.dagcbor_read.specs.Named.{ReadsNamed, ReadsByKey};
ghost use Rattle.dagcbor_read.specs.Structs.{texts};

use crate::access::accessor::Accessor;
use crate::deserialize::Deserialize;
use crate::deserializer::Deserializer;
use dagcbor_core::DecodeError;
use dagcbor_heads::{Read, ReadResult};
use std::alloc::Global;

/// What the entries of a map make: the fields of a struct, or a map of the caller's.
pub trait Fields<'de>: Sized + Drop {
    /// What was read so far.
    type Places: Drop;

    ghost State: { Type 0 };

    ghost state: { Self.Places → State };

    /// The state before anything was read.
    ghost unread: { State };

    /// How the value of a key changes the state, if the fields have these names.
    ghost shape: { List (List ℕ) → FieldShape State };

    /// What the fields hold, wherever that is in memory.
    ghost View: { Type 0 };

    ghost meaning: { Self → View };

    /// The view once all entries were read, or `None` if a field is missing.
    ghost finish: { State → Option View };

    /// How the value of a key is refused, in addition to the law.
    ghost refuses: { {E : Type 0} → DeState → DecodeError E → DeState → Type 0 } = { λ old e new. ⊤ };

    /// Returns the places before anything was read.
    fn unread(alloc: Global) -> Self::Places
        ensures { state result ≡ unread };

    /// Reads the value of the key, or skips it. A refusal leaves the places as they were.
    fn read_field<R: Read>(
        places: &mut Self::Places,
        alloc: Global,
        names: &[&str],
        key: &str,
        de: &mut Deserializer<'de, R>,
    ) -> ReadResult<(), R>
        requires { (de_state R.reading de.old).failed ≡ false }
        ensures value { Over R.reading
            (ReadsValue (λ _. state places.new)
            (value_of (Self.shape (texts names.now)) (state places.old) key.now)) de.old result
            de.new }
        ensures kept { IfErr result (λ _. state places.new ≡ state places.old) }
        ensures refuses { IfErr result
            (λ e. Self.refuses (de_state R.reading de.old) e (de_state R.reading de.new)) };

    /// Reads the next entry, if its key is one of the names and a slice has the key whole. A
    /// refusal of the value goes into `refusal`, which is `None` before. It may read nothing.
    fn read_named<R: Read>(
        places: &mut Self::Places,
        alloc: Global,
        names: &[&str],
        entries: &mut Accessor<'de>,
        de: &mut Deserializer<'de, R>,
        refusal: &mut Option<DecodeError<R::Error>>,
    ) -> bool
        requires some { 0 < (accessor_state entries.old).left }
        requires sound { (de_state R.reading de.old).failed ≡ false }
        requires none { refusal.old ≡ None }
        ensures entry { ReadsNamed (Self.shape (texts names.now)) (state places.old)
            (accessor_state entries.old) (de_state R.reading de.old) result refusal.new
            (state places.new) (accessor_state entries.new) (de_state R.reading de.new) }
        ensures refuses { IfSome refusal.new
            (λ e. RefusesPast (PassesKey (accessor_state entries.old).last) Self.refuses
            (de_state R.reading de.old) e (de_state R.reading de.new)) };

    /// Returns the value once all entries were read, or `None` if a field is missing.
    fn finish(places: Self::Places) -> Option<Self>
        ensures { option_map meaning result ≡ finish (state places) };
}

/// Reads the next entry, whatever its key, and its value.
#[cold]
#[inline(never)]
fn read_by_key<'de, F: Fields<'de>, R: Read>(
    places: &mut F::Places,
    alloc: Global,
    names: &[&'de str],
    entries: &mut Accessor<'de>,
    de: &mut Deserializer<'de, R>,
) -> ReadResult<(), R>
    requires map { (accessor_state entries.old).is_map ≡ true }
    requires in_turn { (accessor_state entries.old).owes_value ≡ false }
    requires some { 0 < (accessor_state entries.old).left }
    requires sound { (de_state R.reading de.old).failed ≡ false }
    ensures entry { ReadsByKey (F.shape (texts names.now)) (F.state places.old)
        (accessor_state entries.old) (de_state R.reading de.old) result (F.state places.new)
        (accessor_state entries.new) (de_state R.reading de.new) }
    ensures refuses { IfErr result
        (λ e. RefusesEntry F.refuses (accessor_state entries.old).last (de_state R.reading de.old) e
        (de_state R.reading de.new)) }
{
    entries.keep_key(alloc, names, de)?;
    F::read_field(places, alloc, names, entries.last_key(), de)?;
    entries.note_value();
    Ok(())
}

/// Reads all entries left of a map, and ends it.
pub(crate) fn read_entries_left<'de, F: Fields<'de>, R: Read>(
    alloc: Global,
    names: &[&'de str],
    entries: Accessor<'de>,
    de: &mut Deserializer<'de, R>,
) -> ReadResult<F::Places, R>
    requires map { (accessor_state entries).is_map ≡ true }
    requires in_turn { (accessor_state entries).owes_value ≡ false }
    requires sound { (de_state R.reading de.old).failed ≡ false }
    requires out { (de_state R.reading de.old).input.steps + (accessor_state entries).steps ≤
        (de_state R.reading de.old).input.budget }
    ensures entries { Over R.reading
        (ReadsEntriesLeft F.state (F.shape (texts names.now)) F.unread
        (accessor_state entries.entry)) de.old result de.new }
    ensures refuses { IfErr result (λ e. RefusesEntries F.refuses (accessor_state entries.entry)
        (de_state R.reading de.old) e (de_state R.reading de.new)) }
{
    let mut places = F::unread(alloc);
    let mut entries = entries;
    while entries.left > 0 {
        let mut refusal = None;
        if F::read_named(&mut places, alloc, names, &mut entries, de, &mut refusal) {
            continue;
        }
        if let Some(e) = refusal {
            return Err(e);
        }
        read_by_key::<F, R>(&mut places, alloc, names, &mut entries, de)?;
    }
    entries.end(de)?;
    Ok(places)
}

/// Reads the entries of a map, in any order, and returns the places before they are finished.
pub fn read_fields<'de, F: Fields<'de>, R: Read>(
    alloc: Global,
    de: &mut Deserializer<'de, R>,
) -> ReadResult<F::Places, R>
    ensures value { Over R.reading
        (ReadsValue F.state (fields_of (F.shape []) F.unread)) de.old result de.new }
    ensures named { Over R.reading
        (RefusesToBegin (HasHeadOf 5) (BeginsItems 5 (codes "map") 1)) de.old result de.new }
    ensures failed { Over R.reading StaysFailed de.old result de.new }
    ensures refuses { Over R.reading
        (IfRefused (RefusesFieldsAs F.refuses (codes "map"))) de.old result de.new }
{
    let entries = de.deserialize_map()?;
    read_entries_left::<F, R>(alloc, &[], entries, de)
}

/// Reads the value of a field into its place. A refusal leaves the place as it was.
pub fn read_into<'de, T: Deserialize<'de>, R: Read>(
    alloc: Global,
    place: &mut Option<T>,
    de: &mut Deserializer<'de, R>,
) -> ReadResult<(), R>
    ensures value { Over R.reading
        (ReadsValue (λ _. option_map T.meaning place.new) (slot_of T.shape)) de.old result de.new }
    ensures kept { IfErr result (λ _. place.new ≡ place.old) }
    ensures failed { Over R.reading StaysFailed de.old result de.new }
    ensures lies { IfOk result
        (λ _. IfSome place.new (T.lies (de_state R.reading de.old).input.lends)) }
    ensures answers { Over R.reading (FillsAs T.answers place.new) de.old result de.new }
{
    let value = T::deserialize(alloc, de)?;
    *place = Some(value);
    Ok(())
}

/// Skips the value of a field that the struct does not have: an item of any kind.
pub fn skip_value<'de, R: Read>(alloc: Global, de: &mut Deserializer<'de, R>) -> ReadResult<(), R>
    ensures value { Over R.reading (ReadsValue (λ _. tt) ignored_item) de.old result de.new }
    ensures failed { Over R.reading StaysFailed de.old result de.new }
    ensures answers { Over R.reading
        (ReadsOnce ReadsIgnored LooksAtAny OfItem) de.old result de.new }
{
    de.deserialize_ignored_any(alloc)
}
