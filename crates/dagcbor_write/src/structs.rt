//! Structs that are written from a row of their fields.

ghost use Rattle.std.specs.Prelude.{◌≡◌, [], length, Some, OnOk, IfErr, IfSome};
ghost use Rattle.dagcbor_write.specs.Answers.{OnMessage, LacksBefore};
ghost use Rattle.dagcbor_heads.specs.Written.{Writes, WroteAll};
ghost use Rattle.ipld_tree.specs.Tree.{IsTree, entries_tree};
ghost use Rattle.ipld_tree.specs.Spelled.{spelled_tree};
ghost use Rattle.dagcbor_write.specs.Gathering.{AppendsTo, Collects};
ghost use Rattle.dagcbor_write.specs.Rows.{spelled_pairs, ArePairs, in_order, places_of, HasPlaces};
ghost use Rattle.dagcbor_write.specs.Rows.{IsKeyOrder};
ghost use Rattle.dagcbor_write.specs.Trees.{variant_tree, variant_head};
ghost use Rattle.dagcbor_write.specs.Maps.{LacksValue, RefusesAnyValue, RefusesPairs};

use crate::collect::buffer::FIRST_ROOM;
use crate::collect::gathered::BAD_VALUE;
use crate::places::{Place, list_in_order};
use crate::row::FieldRow;
use crate::serializer::Serializer;
use arrayvec::ArrayVec;
use dagcbor_core::EncodeError;
use dagcbor_heads::{BufWriter, Write, WriteResult};
use std::alloc::Global;

/// Writes the fields at these places, one after the other.
#[inline(always)]
fn write_places<F: FieldRow, W: Write>(
    alloc: Global,
    fields: &F,
    places: &[Place],
    ser: &mut Serializer<W>,
) -> WriteResult<(), W>
    requires { HasPlaces (F.pairs fields.now) (Some places.now) }
    ensures written { Writes (spelled_pairs (in_order (F.pairs fields.now) (Some places.now)))
        (W.written ser.old) (W.written ser.new) result }
    ensures well_formed { OnOk result (ArePairs (in_order (F.pairs fields.now) (Some places.now))) }
    ensures message { IfErr result (OnMessage (λ _. LacksValue (F.pairs fields.now))) }
{
    for place in places {
        fields.write_field(place.at, alloc, ser)?;
    }
    Ok(())
}

/// Returns the spelled names and values of the fields, in their own order or in that of these
/// places. Refused with `Msg("Struct value cannot be serialized.")` if one has no spelling.
#[inline(always)]
fn gather_fields<F: FieldRow, E>(
    alloc: Global,
    fields: &F,
    order: Option<&[Place]>,
) -> Result<Vec<u8>, EncodeError<E>>
    requires { HasPlaces (F.pairs fields.now) (places_of order) }
    ensures { Collects (λ bytes. AppendsTo [] bytes.items
        (spelled_pairs (in_order (F.pairs fields.now) (places_of order.entry)))
        × ArePairs (in_order (F.pairs fields.now) (places_of order.entry)))
        (RefusesAnyValue (F.pairs fields.now)) result }
{
    let Ok(bytes) = Vec::with_capacity(alloc, FIRST_ROOM) else {
        return Err(EncodeError::OutOfMemory);
    };
    let mut ser = Serializer::new(BufWriter::new(bytes));
    let result = match order {
        Some(places) => write_places(alloc, fields, places, &mut ser),
        None => fields.write_fields(alloc, &mut ser),
    };
    match result {
        Ok(()) => Ok(ser.into_inner().into_inner()),
        Err(EncodeError::Msg(_)) => Err(EncodeError::custom(BAD_VALUE)),
        Err(EncodeError::OutOfMemory) => Err(EncodeError::OutOfMemory),
        Err(EncodeError::Write(never)) => match never {},
    }
}

/// Writes a struct of these fields, whose names rise in their own order, or in that of these
/// places.
#[inline(always)]
#[tactic(auto, using(crate::proofs::Fields::exit_row))]
fn write_rising<F: FieldRow, W: Write>(
    alloc: Global,
    fields: &F,
    order: Option<&[Place]>,
    count: usize,
    ser: &mut Serializer<W>,
) -> WriteResult<(), W>
    requires count { count
        ≡ length (in_order (F.pairs fields.now) (places_of order)) }
    requires rising { IsKeyOrder (F.pairs fields.now) (places_of order) }
    ensures written { Writes (spelled_tree (entries_tree (F.pairs fields.now)))
        (W.written ser.old) (W.written ser.new) result }
    ensures well_formed { OnOk result (IfSome (entries_tree (F.pairs fields.now)) IsTree) }
    ensures message { IfErr result
        (OnMessage (λ m. RefusesAnyValue (F.pairs fields.now) m × (ser.new ≡ ser.old))) }
    ensures memory { LacksBefore W.takes_memory (ser.new ≡ ser.old) result }
{
    let bytes = gather_fields(alloc, fields, order)?;
    ser.push_head(5, count)?;
    ser.push(bytes.as_slice())
}

/// Writes a struct of these fields, whose names are not in key order: by their places, or as a map
/// if there are many fields or a name is repeated.
fn write_unordered<F: FieldRow, W: Write>(
    alloc: Global,
    fields: &F,
    ser: &mut Serializer<W>,
) -> WriteResult<(), W>
    ensures written { Writes (spelled_tree (entries_tree (F.pairs fields.now)))
        (W.written ser.old) (W.written ser.new) result }
    ensures well_formed { OnOk result (IfSome (entries_tree (F.pairs fields.now)) IsTree) }
    ensures message { IfErr result
        (OnMessage (λ m. RefusesPairs (F.pairs fields.now) m × (ser.new ≡ ser.old))) }
    ensures memory { LacksBefore W.takes_memory (ser.new ≡ ser.old) result }
{
    let mut places = ArrayVec::new();
    if list_in_order(fields, &mut places) {
        return write_rising(alloc, fields, Some(places.as_slice()), places.len(), ser);
    }
    let mut map = ser.serialize_map(alloc, None);
    fields.push_fields(&mut map)?;
    map.end()
}

/// Writes a struct of these fields, as a map, in key order. Nothing is written before each field
/// has been spelled in memory. If the row is in key order already, nothing is sorted. Else at most
/// 16 fields are sorted by their places, which takes no memory. Refused with
/// `Msg("Struct value cannot be serialized.")` if a value has no spelling, else with
/// `Msg("Map keys must be unique")` if a name is repeated.
///
/// ```rust
/// let fields = (Field("year", &self.year), (Field("text", &self.text), ()));
/// write_struct(alloc, fields, ser)
/// ```
#[tactic(auto, using(crate::proofs::Joining::rise_alone))]
pub fn write_struct<F: FieldRow, W: Write>(
    alloc: Global,
    fields: F,
    ser: &mut Serializer<W>,
) -> WriteResult<(), W>
    ensures written { Writes (spelled_tree (entries_tree (F.pairs fields)))
        (W.written ser.old) (W.written ser.new) result }
    ensures well_formed { OnOk result (IfSome (entries_tree (F.pairs fields)) IsTree) }
    ensures message { IfErr result
        (OnMessage (λ m. RefusesPairs (F.pairs fields) m × (ser.new ≡ ser.old))) }
    ensures memory { LacksBefore W.takes_memory (ser.new ≡ ser.old) result }
{
    match fields.count_rising(Place { name: "", at: 0 }) {
        Some(last) => write_rising(alloc, &fields, None, last.at, ser),
        None => write_unordered(alloc, &fields, ser),
    }
}

/// Writes a variant with these fields: a map of one entry, from the variant's name to the map of
/// the fields. Refused with the messages of `write_struct`, after the variant's name was written.
///
/// ```rust
/// let fields = (Field("x", x), (Field("y", y), ()));
/// write_struct_variant(alloc, "C", fields, ser)
/// ```
pub fn write_struct_variant<F: FieldRow, W: Write>(
    alloc: Global,
    variant: &str,
    fields: F,
    ser: &mut Serializer<W>,
) -> WriteResult<(), W>
    ensures written { Writes
        (spelled_tree (variant_tree variant.now (entries_tree (F.pairs fields))))
        (W.written ser.old) (W.written ser.new) result }
    ensures well_formed { OnOk result
        (IfSome (variant_tree variant.now (entries_tree (F.pairs fields))) IsTree) }
    ensures message { IfErr result (OnMessage (λ m. RefusesPairs (F.pairs fields) m
        × WroteAll (variant_head variant.now) (W.written ser.old) (W.written ser.new))) }
    ensures memory { LacksBefore W.takes_memory
        (WroteAll (variant_head variant.now) (W.written ser.old) (W.written ser.new)) result }
{
    ser.push_variant(variant)?;
    write_struct(alloc, fields, ser)
}
