//! An `Ipld` as a field: `#[serde(with = "types_serde::as_any")]`.

ghost use Rattle.std.specs.Prelude.{◌≡◌, ◌-◌, ◌^◌, OnOk, Some, option_and_then};
ghost use Rattle.ipld_tree.specs.Tree.{list, items_of};
ghost use Rattle.ipld_tree.specs.Ipld.{tree_of, trees_of, pairs_of};
ghost use Rattle.types_serde.specs.Making.{WritesEvents, WritesEntries};

use crate::as_link;
use crate::taken::{ALL, Taken};
use ipld_tree::{Cid, Ipld};
use serde::{Deserializer, Format, Kind, Serializer};
use std::alloc::Global;
use std::collections::BTreeMap;

/// The most lists and maps that may be nested in what is read: a block has no more.
const MAX_DEPTH: usize = 128;

/// Writes the data. Its events make its tree.
#[cycle(send)]
pub fn serialize<S: Serializer>(value: &Ipld, out: &mut S) -> Result<(), S::Error>
    ensures { OnOk result (WritesEvents (tree_of value.now) (S.written out.old) (S.written out.new)) }
{
    match value {
        Ipld::Null => out.unit(),
        Ipld::Bool(b) => out.bool(*b),
        Ipld::Integer(n) => out.i128(*n),
        Ipld::String(text) => out.str(text.as_str()),
        Ipld::Bytes(bytes) => out.bytes(bytes.as_slice()),
        Ipld::List(items) => send_items(items, out),
        Ipld::Map(entries) => send_entries(entries, out),
        Ipld::Link(cid) => as_link::serialize(cid, out),
    }
}

#[cycle(send)]
fn send_items<S: Serializer>(items: &Vec<Ipld>, out: &mut S) -> Result<(), S::Error>
    ensures { OnOk result (WritesEvents (list (items_of (trees_of items.now.items)))
        (S.written out.old) (S.written out.new)) }
{
    out.begin_seq(Some(items.len()))?;
    for item in items {
        serialize(item, out)?;
    }
    out.end_seq()
}

/// Writes the entries, as a map or among those of the map into which they are flattened.
#[cycle(send)]
pub(crate) fn send_entries<S: Serializer>(
    entries: &BTreeMap<String, Ipld>,
    out: &mut S,
) -> Result<(), S::Error>
    ensures { OnOk result (WritesEntries (pairs_of entries.now.entries)
        (S.written out.old) (S.written out.new)) }
{
    out.begin_map(Some(entries.len()))?;
    for (key, value) in entries.iter() {
        out.begin_key()?;
        out.str(key.as_str())?;
        out.end_key()?;
        serialize(value, out)?;
    }
    out.end_map()
}

/// Reads data of any kind. A link of the format is read as a link.
pub fn deserialize<F: Format>(
    alloc: Global,
    from: &mut Deserializer<'_, '_, F>,
) -> Result<Ipld, F::Error> {
    fetch(alloc, from, MAX_DEPTH)
}

#[cycle(fetch)]
fn fetch<F: Format>(
    alloc: Global,
    from: &mut Deserializer<'_, '_, F>,
    depth: usize,
) -> Result<Ipld, F::Error> {
    match from.peek()? {
        Kind::Unit => {
            from.take_unit()?;
            Ok(Ipld::Null)
        }
        Kind::Bool => Ok(Ipld::Bool(from.bool()?)),
        Kind::Unsigned | Kind::Signed => Ok(Ipld::Integer(from.i128()?)),
        Kind::Str => Ok(Ipld::String(from.string(alloc)?)),
        Kind::Bytes => Ok(Ipld::Bytes(from.byte_buf(alloc)?)),
        Kind::Map => fetch_map_or_link(alloc, from, depth),
        Kind::Seq if depth > 0 => Ok(Ipld::List(fetch_items(alloc, from, depth - 1)?)),
        Kind::Seq | Kind::Float => Err(from.invalid()),
    }
}

#[cycle(fetch)]
fn fetch_map_or_link<F: Format>(
    alloc: Global,
    from: &mut Deserializer<'_, '_, F>,
    depth: usize,
) -> Result<Ipld, F::Error> {
    if let Some(cid) = fetch_link(alloc, from)? {
        return Ok(Ipld::Link(cid));
    }
    if depth == 0 {
        return Err(from.invalid());
    }
    Ok(Ipld::Map(fetch_entries(alloc, from, depth - 1, Taken::new(0))?))
}

/// Reads the map's entries that no field took. After that, all entries count as taken.
pub(crate) fn fetch_rest<F: Format>(
    alloc: Global,
    from: &mut Deserializer<'_, '_, F>,
) -> Result<BTreeMap<String, Ipld>, F::Error>
    ensures { OnOk result
        (from.new.taken ≡ option_and_then (λ _. Some (2 ^ 64 - 1)) from.old.taken) }
{
    let taken = from.swap_taken(None);
    let before = Taken::new(taken.unwrap_or(0));
    let entries = fetch_entries(alloc, from, MAX_DEPTH - 1, before)?;
    from.swap_taken(taken.and(Some(ALL)));
    Ok(entries)
}

/// Reads a link if one comes next. Otherwise the place stays.
fn fetch_link<F: Format>(
    alloc: Global,
    from: &mut Deserializer<'_, '_, F>,
) -> Result<Option<Cid>, F::Error> {
    let mark = from.mark();
    match as_link::deserialize(alloc, from) {
        Ok(cid) => {
            from.release(mark);
            return Ok(Some(cid));
        }
        Err(error) => {
            if from.is_fatal(&error) {
                return Err(error);
            }
        }
    }
    from.rewind(mark);
    from.release(mark);
    Ok(None)
}

#[cycle(fetch)]
fn fetch_items<F: Format>(
    alloc: Global,
    from: &mut Deserializer<'_, '_, F>,
    depth: usize,
) -> Result<Vec<Ipld>, F::Error> {
    from.begin_seq()?;
    let mut items = Vec::new(alloc);
    // Memory cannot hold this many items.
    for _ in 0..u64::MAX {
        if !from.next_item()? {
            break;
        }
        if items.push(fetch(alloc, from, depth)?).is_err() {
            return Err(from.no_memory());
        }
    }
    Ok(items)
}

#[cycle(fetch)]
fn fetch_entries<F: Format>(
    alloc: Global,
    from: &mut Deserializer<'_, '_, F>,
    depth: usize,
    mut taken: Taken,
) -> Result<BTreeMap<String, Ipld>, F::Error> {
    from.begin_map()?;
    let mut entries = BTreeMap::new(alloc);
    // Memory cannot hold this many entries.
    for _ in 0..u64::MAX {
        if !from.next_entry()? {
            break;
        }
        match taken.next() {
            Some(false) => {
                let key = from.string(alloc)?;
                let value = fetch(alloc, from, depth)?;
                if entries.insert(key, value).is_err() {
                    return Err(from.no_memory());
                }
            }
            Some(true) => pass_entry(from)?,
            None => return Err(too_late(from)),
        }
    }
    Ok(entries)
}

fn pass_entry<F: Format>(from: &mut Deserializer<'_, '_, F>) -> Result<(), F::Error> {
    from.skip()?;
    from.skip()
}

/// Refuses to read an entry that a field may have taken. No other variant of an untagged enum is
/// tried after that.
fn too_late<F: Format>(from: &mut Deserializer<'_, '_, F>) -> F::Error {
    from.swap_taken(Some(ALL));
    from.custom("a field after the 63rd entry")
}
