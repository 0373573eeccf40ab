//! The fields of a struct that is written, one after another.

ghost use Rattle.std.specs.Prelude.{◌≡◌, ◌+◌, ◌<◌, ◌≤◌, List, [], ◌∷◌, ◌++◌, length, None, OnOk, IfErr};
ghost use Rattle.std.specs.Prelude.{IfSome, MatchOption, MatchResult, IsTrue, IsOk, refl};
ghost use Rattle.dagcbor_write.specs.Answers.{OnMessage, IsMsg};
ghost use Rattle.dagcbor_heads.specs.Written.{Writes};
ghost use Rattle.dagcbor_write.specs.Rows.{spelled_pairs, ArePairs, KeysRiseTo, pair_at};
ghost use Rattle.dagcbor_write.specs.Rows.{spelled_pair, IsPair, ListsPlaces, optional_joins, rows_join};
ghost use Rattle.dagcbor_write.specs.Trees.{Pair, field, optional};
ghost use Rattle.dagcbor_write.specs.Maps.{JoinsPairs, StopsAtPair, LacksValue};
ghost use Rattle.dagcbor_write.specs.Lending.{map_state, WritesNothing};

use crate::collect::collect_map::CollectMap;
use crate::collect::gathered::BAD_VALUE;
use crate::places::{Place, Places};
use crate::serialize::Serialize;
use crate::serializer::Serializer;
use dagcbor_core::EncodeError;
use dagcbor_heads::{Write, WriteResult};
use ipld_tree::comes_before;
use std::alloc::Global;

/// The most fields counted.
const MOST_FIELDS: usize = 65_535;

/// A field of a struct: its name and its value.
#[derive(Drop)]
pub struct Field<'a, T>(pub &'static str, pub &'a T);

/// A field that is left out of the map if its value is `None`. If it is `Some`, the map has its
/// part.
#[derive(Drop)]
pub struct Optional<'a, T>(pub &'static str, pub &'a Option<T>);

/// The fields of a struct in order: a field, no field, or a row and another after it, such as
/// `(Field("x", &self.x), (Optional("y", &self.y), ()))`. Build a row of many fields from halves,
/// and those from halves, because deeply nested pairs take long to check.
pub trait FieldRow: Drop {
    /// The names and the trees of the fields that are in the map.
    ghost pairs: { Self → List Pair };

    /// The names and the trees of the fields, with others after them.
    ghost before: { Self → List Pair → List Pair };

    ghost joins: { (row : Self) (others : List Pair) → before row others ≡ pairs row ++ others };

    /// Hands the fields to the map in order. Refused with
    /// `Msg("Struct value cannot be serialized.")` if one has no spelling; the fields before it
    /// stay.
    fn push_fields<W: Write>(&self, map: &mut CollectMap<'_, W>) -> WriteResult<(), W>
        requires { (map_state map.old).key ≡ None }
        ensures nothing_written { WritesNothing map.old map.new }
        ensures key { (map_state map.new).key ≡ None }
        ensures entries { MatchResult result
            (λ _. JoinsPairs (pairs self.now) (map_state map.old).entries (map_state map.new).entries)
            (StopsAtPair (pairs self.now) (map_state map.old).entries (map_state map.new).entries) };

    /// Returns the last name, and how many names there are up to it, if each name comes after the
    /// previous one in key order, and the first after `last`. `None` if one does not, or if there
    /// are too many.
    fn count_rising(&self, last: Place) -> Option<Place>
        ensures { IfSome result (λ end. (end.at ≡ last.at + length (pairs self.now))
            × KeysRiseTo last.name.now (pairs self.now) end.name.now) };

    /// Writes the names and the values in order.
    fn write_fields<W: Write>(&self, alloc: Global, ser: &mut Serializer<W>) -> WriteResult<(), W>
        ensures written { Writes (spelled_pairs (pairs self.now))
            (W.written ser.old) (W.written ser.new) result }
        ensures well_formed { OnOk result (ArePairs (pairs self.now)) }
        ensures message { IfErr result (OnMessage (λ _. LacksValue (pairs self.now))) }
        ensures empty { pairs self.now ≡ [] → IsOk result };

    /// Appends the names to others, each with its place. Returns false if there is no room for all.
    fn list_places(&self, places: &mut Places) -> bool
        ensures { IsTrue result
            → ListsPlaces (pairs self.now) places.old.items places.new.items };

    /// Returns this place, counted from the end of the fields, or `None` if a field is at this
    /// place.
    fn following(&self, place: usize) -> Option<usize>
        ensures { MatchOption result (place < length (pairs self.now))
            (λ more. place ≡ more + length (pairs self.now)) };

    /// Writes the name and the value of the field at this place, and refuses if there is no such
    /// field. The fields before it are counted off, so n fields, at most 16, take at most n² / 2
    /// tests. When inlined, the place is looked up at once.
    fn write_field<W: Write>(
        &self,
        place: usize,
        alloc: Global,
        ser: &mut Serializer<W>,
    ) -> WriteResult<(), W>
        ensures written { Writes (spelled_pair (pair_at (pairs self.now) place))
            (W.written ser.old) (W.written ser.new) result }
        ensures well_formed { OnOk result (IsPair (pair_at (pairs self.now) place)) }
        ensures message { place < length (pairs self.now)
            → IfErr result (OnMessage (λ _. LacksValue (pairs self.now))) }
        ensures none { length (pairs self.now) ≤ place
            → IfErr result IsMsg × (ser.new ≡ ser.old) };
}

impl FieldRow for () {
    ghost pairs = { λ row. [] };

    ghost before = { λ row others. others };

    ghost joins = { λ row others. refl };

    fn push_fields<W: Write>(&self, _map: &mut CollectMap<'_, W>) -> WriteResult<(), W> {
        Ok(())
    }

    fn count_rising(&self, last: Place) -> Option<Place> {
        Some(last)
    }

    fn write_fields<W: Write>(
        &self,
        _alloc: Global,
        _ser: &mut Serializer<W>,
    ) -> WriteResult<(), W> {
        Ok(())
    }

    fn list_places(&self, _places: &mut Places) -> bool {
        true
    }

    #[inline(always)]
    fn following(&self, place: usize) -> Option<usize> {
        Some(place)
    }

    #[inline(always)]
    fn write_field<W: Write>(
        &self,
        _place: usize,
        _alloc: Global,
        _ser: &mut Serializer<W>,
    ) -> WriteResult<(), W> {
        Err(EncodeError::custom(BAD_VALUE))
    }
}

impl<T: Serialize> FieldRow for Field<'_, T> {
    ghost pairs = { λ row. field row.0.now (T.tree row.1.now) ∷ [] };

    ghost before = { λ row others. field row.0.now (T.tree row.1.now) ∷ others };

    ghost joins = { λ row others. refl };

    fn push_fields<W: Write>(&self, map: &mut CollectMap<'_, W>) -> WriteResult<(), W> {
        let Field(name, value) = self;
        map.serialize_field(name, *value)
    }

    fn count_rising(&self, last: Place) -> Option<Place> {
        let Field(name, _) = self;
        if last.at < MOST_FIELDS && comes_before(last.name.as_bytes(), name.as_bytes()) {
            Some(Place {
                name: *name,
                at: last.at + 1,
            })
        } else {
            None
        }
    }

    fn write_fields<W: Write>(&self, alloc: Global, ser: &mut Serializer<W>) -> WriteResult<(), W> {
        self.write_pair(alloc, ser)
    }

    fn list_places(&self, places: &mut Places) -> bool {
        let Field(name, _) = self;
        let at = places.len();
        places.try_push(Place { name: *name, at }).is_ok()
    }

    #[inline(always)]
    fn following(&self, place: usize) -> Option<usize> {
        if place > 0 { Some(place - 1) } else { None }
    }

    #[inline(always)]
    fn write_field<W: Write>(
        &self,
        place: usize,
        alloc: Global,
        ser: &mut Serializer<W>,
    ) -> WriteResult<(), W> {
        if place > 0 {
            return Err(EncodeError::custom(BAD_VALUE));
        }
        self.write_pair(alloc, ser)
    }
}

impl<T: Serialize> Field<'_, T> {
    /// Writes the name and the value.
    #[inline(always)]
    fn write_pair<W: Write>(&self, alloc: Global, ser: &mut Serializer<W>) -> WriteResult<(), W>
        ensures written { Writes (spelled_pair (field self.now.0.now (T.tree self.now.1.now)))
            (W.written ser.old) (W.written ser.new) result }
        ensures well_formed { OnOk result (IsPair (field self.now.0.now (T.tree self.now.1.now))) }
        ensures message { IfErr result
            (OnMessage (λ _. LacksValue (field self.now.0.now (T.tree self.now.1.now) ∷ []))) }
    {
        let Field(name, value) = self;
        ser.serialize_str(name)?;
        value.serialize(alloc, ser)
    }
}

impl<T: Serialize> FieldRow for Optional<'_, T> {
    ghost pairs = { λ row. optional row.0.now T.tree row.1.now [] };

    ghost before = { λ row others. optional row.0.now T.tree row.1.now others };

    ghost joins = { λ row others. optional_joins row.0.now T.tree row.1.now others };

    fn push_fields<W: Write>(&self, map: &mut CollectMap<'_, W>) -> WriteResult<(), W> {
        let Optional(name, value) = self;
        match *value {
            Some(value) => Field(*name, value).push_fields(map),
            None => Ok(()),
        }
    }

    fn count_rising(&self, last: Place) -> Option<Place> {
        let Optional(name, value) = self;
        match *value {
            Some(value) => Field(*name, value).count_rising(last),
            None => Some(last),
        }
    }

    fn write_fields<W: Write>(&self, alloc: Global, ser: &mut Serializer<W>) -> WriteResult<(), W> {
        let Optional(name, value) = self;
        match *value {
            Some(value) => Field(*name, value).write_fields(alloc, ser),
            None => Ok(()),
        }
    }

    fn list_places(&self, places: &mut Places) -> bool {
        let Optional(name, value) = self;
        match *value {
            Some(value) => Field(*name, value).list_places(places),
            None => true,
        }
    }

    #[inline(always)]
    fn following(&self, place: usize) -> Option<usize> {
        let Optional(name, value) = self;
        match *value {
            Some(value) => Field(*name, value).following(place),
            None => Some(place),
        }
    }

    #[inline(always)]
    fn write_field<W: Write>(
        &self,
        place: usize,
        alloc: Global,
        ser: &mut Serializer<W>,
    ) -> WriteResult<(), W> {
        let Optional(name, value) = self;
        match *value {
            Some(value) => Field(*name, value).write_field(place, alloc, ser),
            None => Err(EncodeError::custom(BAD_VALUE)),
        }
    }
}

impl<A: FieldRow, B: FieldRow> FieldRow for (A, B) {
    ghost pairs = { λ row. A.before row.0 (B.pairs row.1) };

    ghost before = { λ row others. A.before row.0 (B.before row.1 others) };

    ghost joins = { λ row others. rows_join (A.pairs row.0) (A.before row.0) (A.joins row.0)
        (B.pairs row.1) (B.before row.1) (B.joins row.1) others };

    fn push_fields<W: Write>(&self, map: &mut CollectMap<'_, W>) -> WriteResult<(), W> {
        self.0.push_fields(map)?;
        self.1.push_fields(map)
    }

    fn count_rising(&self, last: Place) -> Option<Place> {
        self.1.count_rising(self.0.count_rising(last)?)
    }

    fn write_fields<W: Write>(&self, alloc: Global, ser: &mut Serializer<W>) -> WriteResult<(), W> {
        self.0.write_fields(alloc, ser)?;
        self.1.write_fields(alloc, ser)
    }

    fn list_places(&self, places: &mut Places) -> bool {
        if !self.0.list_places(places) {
            return false;
        }
        self.1.list_places(places)
    }

    #[inline(always)]
    fn following(&self, place: usize) -> Option<usize> {
        self.1.following(self.0.following(place)?)
    }

    #[inline(always)]
    fn write_field<W: Write>(
        &self,
        place: usize,
        alloc: Global,
        ser: &mut Serializer<W>,
    ) -> WriteResult<(), W> {
        match self.0.following(place) {
            Some(more) => self.1.write_field(more, alloc, ser),
            None => self.0.write_field(place, alloc, ser),
        }
    }
}
