//! The fields of a struct that is written in groups.

ghost use Rattle.std.specs.Prelude.{◌≡◌, ◌+◌, ◌<◌, ◌≤◌, [], length, None, OnOk, IfErr};
ghost use Rattle.std.specs.Prelude.{IfSome, MatchOption, MatchResult, IsTrue, IsOk};
ghost use Rattle.dagcbor_write.specs.Answers.{OnMessage, IsMsg};
ghost use Rattle.dagcbor_heads.specs.Written.{Writes};
ghost use Rattle.dagcbor_write.specs.Rows.{spelled_pairs, ArePairs, KeysRiseTo, pair_at};
ghost use Rattle.dagcbor_write.specs.Rows.{spelled_pair, IsPair, ListsPlaces};
ghost use Rattle.dagcbor_write.specs.Maps.{JoinsPairs, StopsAtPair, LacksValue};
ghost use Rattle.dagcbor_write.specs.Lending.{map_state, WritesNothing};
ghost use Rattle.types_schema.specs.WrittenGroups.{LeadingPairs, both_before, pairs_of};

use dagcbor_write::{Place, Places};
use serde_ipld_dagcbor::{CollectMap, FieldRow, Serializer, Write, WriteResult};
use std::alloc::Global;

/// Some fields of a struct that is lent as `R`. `R` stands for `&X`, whose lifetime a bound cannot
/// name here.
pub trait WrittenGroup<R>: Copy {
    /// The fields, one after another.
    type Row: FieldRow;

    /// The names and trees of the fields that are in the map, before others.
    ghost fields: { R → LeadingPairs };

    fn row(self, whole: R) -> Self::Row
        ensures { Self.Row.pairs result ≡ pairs_of (fields whole) };
}

/// Groups of fields of a struct that is lent as `R`: one group, or two, each of them groups as
/// well. The calls are those of `FieldRow`. None of them names a field's type.
pub trait WrittenGroups<R>: Copy {
    /// The names and trees of the fields that are in the map, before others.
    ghost all: { R → LeadingPairs };

    fn push_fields<W: Write>(self, whole: R, map: &mut CollectMap<'_, W>) -> WriteResult<(), W>
        requires { (map_state map.old).key ≡ None }
        ensures nothing_written { WritesNothing map.old map.new }
        ensures key { (map_state map.new).key ≡ None }
        ensures entries { MatchResult result
            (λ _. JoinsPairs (pairs_of (all whole)) (map_state map.old).entries
            (map_state map.new).entries)
            (StopsAtPair (pairs_of (all whole)) (map_state map.old).entries
            (map_state map.new).entries) };

    fn count_rising(self, whole: R, last: Place) -> Option<Place>
        ensures { IfSome result (λ end. (end.at ≡ last.at + length (pairs_of (all whole)))
            × KeysRiseTo last.name.now (pairs_of (all whole)) end.name.now) };

    fn write_fields<W: Write>(
        self,
        whole: R,
        alloc: Global,
        ser: &mut Serializer<W>,
    ) -> WriteResult<(), W>
        ensures written { Writes (spelled_pairs (pairs_of (all whole)))
            (W.written ser.old) (W.written ser.new) result }
        ensures well_formed { OnOk result (ArePairs (pairs_of (all whole))) }
        ensures message { IfErr result (OnMessage (λ _. LacksValue (pairs_of (all whole)))) }
        ensures empty { pairs_of (all whole) ≡ [] → IsOk result };

    fn list_places(self, whole: R, places: &mut Places) -> bool
        ensures { IsTrue result
            → ListsPlaces (pairs_of (all whole)) places.old.items places.new.items };

    fn following(self, whole: R, place: usize) -> Option<usize>
        ensures { MatchOption result (place < length (pairs_of (all whole)))
            (λ more. place ≡ more + length (pairs_of (all whole))) };

    fn write_field<W: Write>(
        self,
        whole: R,
        place: usize,
        alloc: Global,
        ser: &mut Serializer<W>,
    ) -> WriteResult<(), W>
        ensures written { Writes (spelled_pair (pair_at (pairs_of (all whole)) place))
            (W.written ser.old) (W.written ser.new) result }
        ensures well_formed { OnOk result (IsPair (pair_at (pairs_of (all whole)) place)) }
        ensures message { place < length (pairs_of (all whole))
            → IfErr result (OnMessage (λ _. LacksValue (pairs_of (all whole)))) }
        ensures none { length (pairs_of (all whole)) ≤ place
            → IfErr result IsMsg × (ser.new ≡ ser.old) };
}

/// One group among others: `((OneGroup(X1), OneGroup(X2)), OneGroup(X3))`.
#[derive(Clone, Copy)]
pub struct OneGroup<P>(pub P);

/// The fields of these groups of a lent struct, as a row.
#[derive(Drop)]
pub struct InGroups<R, P>(pub R, pub P);

impl<R: Copy, P: WrittenGroup<R>> WrittenGroups<R> for OneGroup<P> {
    ghost all = { P.fields };

    fn push_fields<W: Write>(self, whole: R, map: &mut CollectMap<'_, W>) -> WriteResult<(), W> {
        self.0.row(whole).push_fields(map)
    }

    fn count_rising(self, whole: R, last: Place) -> Option<Place> {
        self.0.row(whole).count_rising(last)
    }

    fn write_fields<W: Write>(
        self,
        whole: R,
        alloc: Global,
        ser: &mut Serializer<W>,
    ) -> WriteResult<(), W> {
        self.0.row(whole).write_fields(alloc, ser)
    }

    fn list_places(self, whole: R, places: &mut Places) -> bool {
        self.0.row(whole).list_places(places)
    }

    #[inline(always)]
    fn following(self, whole: R, place: usize) -> Option<usize> {
        self.0.row(whole).following(place)
    }

    #[inline(always)]
    fn write_field<W: Write>(
        self,
        whole: R,
        place: usize,
        alloc: Global,
        ser: &mut Serializer<W>,
    ) -> WriteResult<(), W> {
        self.0.row(whole).write_field(place, alloc, ser)
    }
}

impl<R: Copy, A: WrittenGroups<R>, B: WrittenGroups<R>> WrittenGroups<R> for (A, B) {
    ghost all = { λ whole. both_before (A.all whole) (B.all whole) };

    fn push_fields<W: Write>(self, whole: R, map: &mut CollectMap<'_, W>) -> WriteResult<(), W> {
        let row = (InGroups(whole, self.0), InGroups(whole, self.1));
        row.push_fields(map)
    }

    fn count_rising(self, whole: R, last: Place) -> Option<Place> {
        let row = (InGroups(whole, self.0), InGroups(whole, self.1));
        row.count_rising(last)
    }

    fn write_fields<W: Write>(
        self,
        whole: R,
        alloc: Global,
        ser: &mut Serializer<W>,
    ) -> WriteResult<(), W> {
        let row = (InGroups(whole, self.0), InGroups(whole, self.1));
        row.write_fields(alloc, ser)
    }

    fn list_places(self, whole: R, places: &mut Places) -> bool {
        let row = (InGroups(whole, self.0), InGroups(whole, self.1));
        row.list_places(places)
    }

    #[inline(always)]
    fn following(self, whole: R, place: usize) -> Option<usize> {
        let row = (InGroups(whole, self.0), InGroups(whole, self.1));
        row.following(place)
    }

    #[inline(always)]
    fn write_field<W: Write>(
        self,
        whole: R,
        place: usize,
        alloc: Global,
        ser: &mut Serializer<W>,
    ) -> WriteResult<(), W> {
        let row = (InGroups(whole, self.0), InGroups(whole, self.1));
        row.write_field(place, alloc, ser)
    }
}

impl<R: Copy, P: WrittenGroups<R>> FieldRow for InGroups<R, P> {
    ghost pairs = { λ row. pairs_of (P.all row.0) };

    ghost before = { λ row others. (P.all row.0).before others };

    ghost joins = { λ row others. (P.all row.0).joins others };

    fn push_fields<W: Write>(&self, map: &mut CollectMap<'_, W>) -> WriteResult<(), W> {
        self.1.push_fields(self.0, map)
    }

    fn count_rising(&self, last: Place) -> Option<Place> {
        self.1.count_rising(self.0, last)
    }

    fn write_fields<W: Write>(&self, alloc: Global, ser: &mut Serializer<W>) -> WriteResult<(), W> {
        self.1.write_fields(self.0, alloc, ser)
    }

    fn list_places(&self, places: &mut Places) -> bool {
        self.1.list_places(self.0, places)
    }

    #[inline(always)]
    fn following(&self, place: usize) -> Option<usize> {
        self.1.following(self.0, place)
    }

    #[inline(always)]
    fn write_field<W: Write>(
        &self,
        place: usize,
        alloc: Global,
        ser: &mut Serializer<W>,
    ) -> WriteResult<(), W> {
        self.1.write_field(self.0, place, alloc, ser)
    }
}
