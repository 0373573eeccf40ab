//! Groups of fields that come before others in a row: one field, or two groups.

ghost use Rattle.std.specs.Prelude.{◌≡◌, ◌<◌, ℕ, List, Option, None, Some, option_map, Err, IfErr};
ghost use Rattle.std.specs.Prelude.{IfSome, IsSomeAnd, MatchOption, false};
ghost use Rattle.std.specs.Option.{option_flatten};
ghost use Rattle.dagcbor_core.specs.declared.error.DecodeError.{DecodeError};
ghost use Rattle.dagcbor_items.specs.Shapes.{option_of};
ghost use Rattle.dagcbor_read.specs.Accessors.{accessor_state};
ghost use Rattle.dagcbor_read.specs.Deserializers.{DeState, de_state, Over};
ghost use Rattle.dagcbor_read.specs.Joining.{OwnShape, HeldBefore, ShapeBefore, JoinsShape};
ghost use Rattle.dagcbor_read.specs.Joining.{FinishBefore, JoinsFinish, ReadsOwnNamed};
ghost use Rattle.dagcbor_read.specs.Joining.{after_first, field_own, own_of_both, finish_both};
ghost use Rattle.dagcbor_read.specs.JoiningLaws.{field_joins, required_finish, optional_finish};
ghost use Rattle.dagcbor_read.specs.JoiningLaws.{omissible_finish, both_join, both_finish};
ghost use Rattle.dagcbor_read.specs.Named.{ReadsNamedValue};
ghost use Rattle.dagcbor_read.specs.Parts.{HandsOptionOn, RefusesEither, RefusesPast, PassesKey};
ghost use Rattle.dagcbor_read.specs.Structs.{texts, places, finish_required, finish_optional};
ghost use Rattle.dagcbor_read.specs.Structs.{finish_omissible};
ghost use Rattle.dagcbor_read.specs.Values.{ReadsValue};

use crate::access::accessor::Accessor;
use crate::access::fields::{Fields, read_into};
use crate::deserialize::Deserialize;
use crate::deserializer::Deserializer;
use dagcbor_core::DecodeError;
use dagcbor_heads::{Read, ReadResult};
use dagcbor_items::is_name;
use std::alloc::Global;

/// A field that must be there.
#[derive(Drop)]
pub struct Required<T>(pub T);

/// A field that may be absent. A null in its place is read as any other value of its type. By
/// contrast, an `Option` in a row of fields takes a null for an absent field.
#[derive(Debug, Drop)]
pub struct Omissible<T>(pub Option<T>);

/// A group of fields that comes before others in a row: a field (`Required`, `Option`,
/// `Omissible`), or two groups, the second after the first. What a row holds and shows is flat by
/// computation, however its fields are grouped: `((a, b), (c, ()))` equals `(a, (b, (c, ())))`.
pub trait FieldGroup<'de>: Sized + Drop {
    /// What was read of the group so far.
    type Own: Drop;

    ghost OwnState: { Type 0 };

    ghost own_state: { Self.Own → OwnState };

    /// The state before anything was read.
    ghost own_unread: { OwnState };

    /// How the value of a key changes the state, if the row has these names from here on; `None` if
    /// the key does not belong to the group.
    ghost own_shape: { OwnShape OwnState };

    /// The names after the group's own.
    ghost following: { List (List ℕ) → List (List ℕ) };

    /// What the group holds, wherever it is in memory.
    ghost OwnView: { Type 0 };

    ghost own_meaning: { Self → OwnView };

    /// The view once all fields were read, or `None` if one is missing.
    ghost own_finish: { OwnState → Option OwnView };

    /// The state of the group together with the state of the fields after it.
    ghost Held: { Type 0 → Type 0 };

    ghost held: { HeldBefore Held OwnState };

    ghost shape_before: { ShapeBefore Held };

    ghost joins: { JoinsShape OwnState Held held shape_before following own_shape };

    /// The view of the group together with the view of the fields after it.
    ghost Shows: { Type 0 → Type 0 };

    ghost shows: { HeldBefore Shows OwnView };

    ghost finish_before: { FinishBefore Held Shows };

    ghost finishes: { JoinsFinish OwnState OwnView Held Shows held shows own_finish finish_before };

    /// How the value of one of its keys is refused, in addition to the law.
    ghost own_refuses: { {E : Type 0} → DeState → DecodeError E → DeState → Type 0 };

    fn unread_own(alloc: Global) -> Self::Own
        ensures { own_state result ≡ own_unread };

    /// Returns the names after the group's own.
    fn skip_names<'n, 'm>(names: &'n [&'m str]) -> &'n [&'m str]
        ensures { texts result.now ≡ following (texts names.now) };

    /// Reads the value of the key, if the key belongs to the group. A refusal keeps what was read
    /// before.
    fn read_own<R: Read>(
        own: &mut Self::Own,
        alloc: Global,
        names: &[&str],
        key: &str,
        de: &mut Deserializer<'de, R>,
    ) -> Option<ReadResult<(), R>>
        requires { (de_state R.reading de.old).failed ≡ false }
        ensures value { MatchOption result
            ((Self.own_shape (texts names.now) (own_state own.old) key.now ≡ None)
            × (own.new ≡ own.old) × (de.new ≡ de.old))
            (λ r. IsSomeAnd (Self.own_shape (texts names.now) (own_state own.old) key.now)
            (λ shape. Over R.reading (ReadsValue (λ _. own_state own.new) shape) de.old r de.new)) }
        ensures kept { IfSome result
            (λ r. IfErr r (λ _. own_state own.new ≡ own_state own.old)) }
        ensures refuses { IfSome result (λ r. IfErr r
            (λ e. Self.own_refuses (de_state R.reading de.old) e (de_state R.reading de.new))) };

    /// Reads the next entry, if its key belongs to the group and a slice has the key whole. A
    /// refusal of the value goes into `refusal`, which is `None` before.
    fn read_own_named<R: Read>(
        own: &mut Self::Own,
        alloc: Global,
        names: &[&str],
        entries: &mut Accessor<'de>,
        de: &mut Deserializer<'de, R>,
        refusal: &mut Option<DecodeError<R::Error>>,
    ) -> bool
        requires some { 0 < (accessor_state entries.old).left }
        requires sound { (de_state R.reading de.old).failed ≡ false }
        requires none { refusal.old ≡ None }
        ensures entry { ReadsOwnNamed (Self.own_shape (texts names.now)) (own_state own.old)
            (accessor_state entries.old) (de_state R.reading de.old) result refusal.new
            (own_state own.new) (accessor_state entries.new) (de_state R.reading de.new) }
        ensures refuses { IfSome refusal.new
            (λ e. RefusesPast (PassesKey (accessor_state entries.old).last) Self.own_refuses
            (de_state R.reading de.old) e (de_state R.reading de.new)) };

    /// Returns the group once all fields were read, or `None` if one is missing.
    fn finish_own(own: Self::Own) -> Option<Self>
        ensures { option_map own_meaning result ≡ own_finish (own_state own) };
}

/// Returns the names after the first.
#[inline(always)]
fn skip_first<'n, 'm>(names: &'n [&'m str]) -> &'n [&'m str]
    ensures { texts result.now ≡ after_first (texts names.now) }
{
    let Some((_, others)) = names.split_first() else {
        return names;
    };
    others
}

/// Reads the value of the key into the place of a field, if the key is the first name.
#[inline(always)]
fn read_first<'de, T: Deserialize<'de>, R: Read>(
    own: &mut Option<T>,
    alloc: Global,
    names: &[&str],
    key: &str,
    de: &mut Deserializer<'de, R>,
) -> Option<ReadResult<(), R>>
    requires { (de_state R.reading de.old).failed ≡ false }
    ensures value { MatchOption result
        ((field_own T.shape (texts names.now) (option_map T.meaning own.old) key.now ≡ None)
        × (own.new ≡ own.old) × (de.new ≡ de.old))
        (λ r. IsSomeAnd (field_own T.shape (texts names.now) (option_map T.meaning own.old) key.now)
        (λ shape. Over R.reading (ReadsValue (λ _. option_map T.meaning own.new) shape) de.old r
        de.new)) }
    ensures kept { IfSome result (λ r. IfErr r (λ _. own.new ≡ own.old)) }
    ensures refuses { IfSome result (λ r. IfErr r
        (λ e. T.answers (de_state R.reading de.old) (Err e) (de_state R.reading de.new))) }
{
    let (name, _) = names.split_first()?;
    if !is_name(key, name) {
        return None;
    }
    Some(read_into(alloc, own, de))
}

/// Reads the value of a name that was taken into its place, or puts the refusal into `refusal`.
#[inline(always)]
fn read_named_value<'de, T: Deserialize<'de>, R: Read>(
    place: &mut Option<T>,
    alloc: Global,
    entries: &mut Accessor<'de>,
    de: &mut Deserializer<'de, R>,
    refusal: &mut Option<DecodeError<R::Error>>,
) -> bool
    requires sound { (de_state R.reading de.old).failed ≡ false }
    requires none { refusal.old ≡ None }
    ensures value { ReadsNamedValue T.shape (accessor_state entries.old)
        (de_state R.reading de.old) result refusal.new (option_map T.meaning place.new)
        (accessor_state entries.new) (de_state R.reading de.new) }
    ensures refuses { IfSome refusal.new
        (λ e. T.answers (de_state R.reading de.old) (Err e) (de_state R.reading de.new)) }
{
    match T::deserialize(alloc, de) {
        Ok(value) => {
            *place = Some(value);
            entries.note_value();
            true
        }
        Err(e) => {
            *refusal = Some(e);
            false
        }
    }
}

/// Reads the next entry into the place of a field, if its key is the first name and a slice has the
/// key whole.
#[inline(always)]
fn read_first_named<'de, T: Deserialize<'de>, R: Read>(
    own: &mut Option<T>,
    alloc: Global,
    names: &[&str],
    entries: &mut Accessor<'de>,
    de: &mut Deserializer<'de, R>,
    refusal: &mut Option<DecodeError<R::Error>>,
) -> bool
    requires some { 0 < (accessor_state entries.old).left }
    requires sound { (de_state R.reading de.old).failed ≡ false }
    requires none { refusal.old ≡ None }
    ensures entry { ReadsOwnNamed (field_own T.shape (texts names.now))
        (option_map T.meaning own.old) (accessor_state entries.old) (de_state R.reading de.old)
        result refusal.new (option_map T.meaning own.new) (accessor_state entries.new)
        (de_state R.reading de.new) }
    ensures refuses { IfSome refusal.new
        (λ e. RefusesPast (PassesKey (accessor_state entries.old).last)
        (λ old x new. T.answers old (Err x) new) (de_state R.reading de.old) e
        (de_state R.reading de.new)) }
{
    let Some((name, _)) = names.split_first() else {
        return false;
    };
    if !entries.take_name(name, de) {
        return false;
    }
    read_named_value(own, alloc, entries, de, refusal)
}

/// A field that must be there.
impl<'de, T: Deserialize<'de>> FieldGroup<'de> for Required<T> {
    type Own = Option<T>;

    ghost OwnState = { Option T.View };

    ghost own_state = { option_map T.meaning };

    ghost own_unread = { None };

    ghost own_shape = { field_own T.shape };

    ghost following = { after_first };

    ghost OwnView = { T.View };

    ghost own_meaning = { λ p. T.meaning p.0 };

    ghost own_finish = { λ o. o };

    ghost Held = { λ S. Option T.View × S };

    ghost held = { λ S o s. (o, s) };

    ghost shape_before = { λ S. places T.shape };

    ghost joins = { field_joins T.shape };

    ghost Shows = { λ W. T.View × W };

    ghost shows = { λ W v w. (v, w) };

    ghost finish_before = { λ S W. finish_required };

    ghost finishes = { required_finish };

    ghost own_refuses = { λ old e new. T.answers old (Err e) new };

    fn unread_own(_alloc: Global) -> Option<T> {
        None
    }

    #[inline(always)]
    fn skip_names<'n, 'm>(names: &'n [&'m str]) -> &'n [&'m str] {
        skip_first(names)
    }

    #[inline(always)]
    fn read_own<R: Read>(
        own: &mut Option<T>,
        alloc: Global,
        names: &[&str],
        key: &str,
        de: &mut Deserializer<'de, R>,
    ) -> Option<ReadResult<(), R>> {
        read_first(own, alloc, names, key, de)
    }

    #[inline(always)]
    fn read_own_named<R: Read>(
        own: &mut Option<T>,
        alloc: Global,
        names: &[&str],
        entries: &mut Accessor<'de>,
        de: &mut Deserializer<'de, R>,
        refusal: &mut Option<DecodeError<R::Error>>,
    ) -> bool {
        read_first_named(own, alloc, names, entries, de, refusal)
    }

    #[inline(always)]
    fn finish_own(own: Option<T>) -> Option<Required<T>> {
        Some(Required(own?))
    }
}

/// A field that may be absent or null.
impl<'de, T: Deserialize<'de>> FieldGroup<'de> for Option<T> {
    type Own = Option<Option<T>>;

    ghost OwnState = { Option (Option T.View) };

    ghost own_state = { option_map (option_map T.meaning) };

    ghost own_unread = { None };

    ghost own_shape = { field_own (option_of T.shape) };

    ghost following = { after_first };

    ghost OwnView = { Option T.View };

    ghost own_meaning = { option_map T.meaning };

    ghost own_finish = { λ o. Some (option_flatten o) };

    ghost Held = { λ S. Option (Option T.View) × S };

    ghost held = { λ S o s. (o, s) };

    ghost shape_before = { λ S. places (option_of T.shape) };

    ghost joins = { field_joins (option_of T.shape) };

    ghost Shows = { λ W. Option T.View × W };

    ghost shows = { λ W v w. (v, w) };

    ghost finish_before = { λ S W. finish_optional };

    ghost finishes = { optional_finish };

    ghost own_refuses = { λ old e new. HandsOptionOn T.answers old (Err e) new };

    fn unread_own(_alloc: Global) -> Option<Option<T>> {
        None
    }

    #[inline(always)]
    fn skip_names<'n, 'm>(names: &'n [&'m str]) -> &'n [&'m str] {
        skip_first(names)
    }

    #[inline(always)]
    fn read_own<R: Read>(
        own: &mut Option<Option<T>>,
        alloc: Global,
        names: &[&str],
        key: &str,
        de: &mut Deserializer<'de, R>,
    ) -> Option<ReadResult<(), R>> {
        read_first(own, alloc, names, key, de)
    }

    #[inline(always)]
    fn read_own_named<R: Read>(
        own: &mut Option<Option<T>>,
        alloc: Global,
        names: &[&str],
        entries: &mut Accessor<'de>,
        de: &mut Deserializer<'de, R>,
        refusal: &mut Option<DecodeError<R::Error>>,
    ) -> bool {
        read_first_named(own, alloc, names, entries, de, refusal)
    }

    #[inline(always)]
    fn finish_own(own: Option<Option<T>>) -> Option<Option<T>> {
        Some(own.flatten())
    }
}

/// A field that may be absent, and is null only if its type has a null.
impl<'de, T: Deserialize<'de>> FieldGroup<'de> for Omissible<T> {
    type Own = Option<T>;

    ghost OwnState = { Option T.View };

    ghost own_state = { option_map T.meaning };

    ghost own_unread = { None };

    ghost own_shape = { field_own T.shape };

    ghost following = { after_first };

    ghost OwnView = { Option T.View };

    ghost own_meaning = { λ p. option_map T.meaning p.0 };

    ghost own_finish = { Some };

    ghost Held = { λ S. Option T.View × S };

    ghost held = { λ S o s. (o, s) };

    ghost shape_before = { λ S. places T.shape };

    ghost joins = { field_joins T.shape };

    ghost Shows = { λ W. Option T.View × W };

    ghost shows = { λ W v w. (v, w) };

    ghost finish_before = { λ S W. finish_omissible };

    ghost finishes = { omissible_finish };

    ghost own_refuses = { λ old e new. T.answers old (Err e) new };

    fn unread_own(_alloc: Global) -> Option<T> {
        None
    }

    #[inline(always)]
    fn skip_names<'n, 'm>(names: &'n [&'m str]) -> &'n [&'m str] {
        skip_first(names)
    }

    #[inline(always)]
    fn read_own<R: Read>(
        own: &mut Option<T>,
        alloc: Global,
        names: &[&str],
        key: &str,
        de: &mut Deserializer<'de, R>,
    ) -> Option<ReadResult<(), R>> {
        read_first(own, alloc, names, key, de)
    }

    #[inline(always)]
    fn read_own_named<R: Read>(
        own: &mut Option<T>,
        alloc: Global,
        names: &[&str],
        entries: &mut Accessor<'de>,
        de: &mut Deserializer<'de, R>,
        refusal: &mut Option<DecodeError<R::Error>>,
    ) -> bool {
        read_first_named(own, alloc, names, entries, de, refusal)
    }

    #[inline(always)]
    fn finish_own(own: Option<T>) -> Option<Omissible<T>> {
        Some(Omissible(own))
    }
}

/// Two groups, the second after the first.
impl<'de, A: FieldGroup<'de>, B: FieldGroup<'de>> FieldGroup<'de> for (A, B) {
    type Own = (A::Own, B::Own);

    ghost OwnState = { A.OwnState × B.OwnState };

    ghost own_state = { λ p. (A.own_state p.0, B.own_state p.1) };

    ghost own_unread = { (A.own_unread, B.own_unread) };

    ghost own_shape = { own_of_both A.own_shape A.following B.own_shape };

    ghost following = { λ names. B.following (A.following names) };

    ghost OwnView = { A.OwnView × B.OwnView };

    ghost own_meaning = { λ p. (A.own_meaning p.0, B.own_meaning p.1) };

    ghost own_finish = { finish_both A.own_finish B.own_finish };

    ghost Held = { λ S. A.Held (B.Held S) };

    ghost held = { λ S o s. A.held (B.Held S) o.0 (B.held S o.1 s) };

    ghost shape_before = { λ S others. A.shape_before (B.Held S) (B.shape_before S others) };

    ghost joins = { both_join A.OwnState B.OwnState A.Held B.Held A.held B.held A.shape_before
        B.shape_before A.following B.following A.own_shape B.own_shape A.joins B.joins };

    ghost Shows = { λ W. A.Shows (B.Shows W) };

    ghost shows = { λ W v w. A.shows (B.Shows W) v.0 (B.shows W v.1 w) };

    ghost finish_before = { λ S W others. A.finish_before (B.Held S) (B.Shows W)
        (B.finish_before S W others) };

    ghost finishes = { both_finish A.OwnState B.OwnState A.OwnView B.OwnView A.Held B.Held A.Shows
        B.Shows A.held B.held A.shows B.shows A.own_finish B.own_finish A.finish_before
        B.finish_before A.finishes B.finishes };

    ghost own_refuses = { RefusesEither A.own_refuses B.own_refuses };

    fn unread_own(alloc: Global) -> (A::Own, B::Own) {
        (A::unread_own(alloc), B::unread_own(alloc))
    }

    #[inline(always)]
    fn skip_names<'n, 'm>(names: &'n [&'m str]) -> &'n [&'m str] {
        B::skip_names(A::skip_names(names))
    }

    fn read_own<R: Read>(
        own: &mut (A::Own, B::Own),
        alloc: Global,
        names: &[&str],
        key: &str,
        de: &mut Deserializer<'de, R>,
    ) -> Option<ReadResult<(), R>> {
        match A::read_own(&mut own.0, alloc, names, key, de) {
            Some(result) => Some(result),
            None => B::read_own(&mut own.1, alloc, A::skip_names(names), key, de),
        }
    }

    #[inline(always)]
    fn read_own_named<R: Read>(
        own: &mut (A::Own, B::Own),
        alloc: Global,
        names: &[&str],
        entries: &mut Accessor<'de>,
        de: &mut Deserializer<'de, R>,
        refusal: &mut Option<DecodeError<R::Error>>,
    ) -> bool {
        if A::read_own_named(&mut own.0, alloc, names, entries, de, refusal) {
            return true;
        }
        if refusal.is_some() {
            return false;
        }
        B::read_own_named(
            &mut own.1,
            alloc,
            A::skip_names(names),
            entries,
            de,
            refusal,
        )
    }

    #[inline(always)]
    fn finish_own(own: (A::Own, B::Own)) -> Option<(A, B)> {
        let (first, second) = own;
        let first = A::finish_own(first)?;
        let second = B::finish_own(second)?;
        Some((first, second))
    }
}

/// A group before other fields.
impl<'de, A: FieldGroup<'de>, L: Fields<'de>> Fields<'de> for (A, L) {
    type Places = (A::Own, L::Places);

    ghost State = { A.Held L.State };

    ghost state = { λ p. A.held L.State (A.own_state p.0) (L.state p.1) };

    ghost unread = { A.held L.State A.own_unread L.unread };

    ghost shape = { A.shape_before L.State L.shape };

    ghost View = { A.Shows L.View };

    ghost meaning = { λ p. A.shows L.View (A.own_meaning p.0) (L.meaning p.1) };

    ghost finish = { A.finish_before L.State L.View L.finish };

    ghost refuses = { RefusesEither A.own_refuses L.refuses };

    fn unread(alloc: Global) -> (A::Own, L::Places) {
        (A::unread_own(alloc), L::unread(alloc))
    }

    fn read_field<R: Read>(
        places: &mut (A::Own, L::Places),
        alloc: Global,
        names: &[&str],
        key: &str,
        de: &mut Deserializer<'de, R>,
    ) -> ReadResult<(), R> {
        match A::read_own(&mut places.0, alloc, names, key, de) {
            Some(result) => result,
            None => L::read_field(&mut places.1, alloc, A::skip_names(names), key, de),
        }
    }

    #[inline(always)]
    fn read_named<R: Read>(
        places: &mut (A::Own, L::Places),
        alloc: Global,
        names: &[&str],
        entries: &mut Accessor<'de>,
        de: &mut Deserializer<'de, R>,
        refusal: &mut Option<DecodeError<R::Error>>,
    ) -> bool {
        if A::read_own_named(&mut places.0, alloc, names, entries, de, refusal) {
            return true;
        }
        if refusal.is_some() {
            return false;
        }
        L::read_named(
            &mut places.1,
            alloc,
            A::skip_names(names),
            entries,
            de,
            refusal,
        )
    }

    #[inline(always)]
    fn finish(places: (A::Own, L::Places)) -> Option<(A, L)> {
        let (own, others) = places;
        let own = A::finish_own(own)?;
        let others = L::finish(others)?;
        Some((own, others))
    }
}
