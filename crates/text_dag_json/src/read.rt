//! Reading data from JSON values.

ghost use Rattle.std.specs.Prelude.{◌≡◌, ◌≢◌, [], Ok, Err, IfOk, IfErr, List, ℕ, ◌∷◌, ◌++◌, OnOk, string_bytes};
ghost use Rattle.std.specs.Prelude.{string_cmp};
ghost use Rattle.std.specs.BTreeMap.{insert_entry};
ghost use Rattle.json.specs.Value.{value_view, items_view, members_view};
ghost use Rattle.json.specs.Json as json;
ghost use Rattle.ipld_tree.specs.Tree.{Tree, ordered_entries};
ghost use Rattle.ipld_tree.specs.Ipld.{tree_of, trees_of, pairs_of};
ghost use Rattle.text_dag_json.specs.Reading.{read_map, has_slash, bytes_data, ReadsLinkText, ReadsBytes};
ghost use Rattle.text_dag_json.specs.Reading.{ReadsReservedKey, ReadsSlashed};
ghost use Rattle.text_dag_json.specs.Reading.{ReadsReserved, ReadsData, ReadsElements, ReadsMembers};

use crate::error::DagJsonError;
use crate::number::integer_of;
use base64::DecodeAllocError;
use base64::engine::general_purpose::STANDARD_NO_PAD;
use ipld_tree::Ipld;
use json::Value;
use std::alloc::Global;
use std::collections::BTreeMap;
use text_cid::cid_from_text;

/// Counts tokens that were passed.
fn pass(place: &mut usize, tokens: usize) {
    *place = place.wrapping_add(tokens);
}

/// Copies the text into memory of its own.
fn owned_text(alloc: Global, text: &str) -> Result<String, DagJsonError>
    ensures text { IfOk result (λ s. string_bytes s ≡ text.now) }
    ensures memory { IfErr result (λ e. e ≡ DagJsonError.OutOfMemory) }
{
    String::from_str(alloc, text).map_err(|_| DagJsonError::OutOfMemory)
}

/// Adds an item at the end.
fn push_item(items: &mut Vec<Ipld>, item: Ipld) -> Result<(), DagJsonError>
    ensures ok { OnOk result (items.new.items ≡ items.old.items ++ item ∷ []) }
    ensures memory { IfErr result (λ e. e ≡ DagJsonError.OutOfMemory) }
{
    items.push(item).map_err(|_| DagJsonError::OutOfMemory)
}

/// Adds an entry at its place, by the order of the keys.
fn put_entry(
    entries: &mut BTreeMap<String, Ipld>,
    key: String,
    value: Ipld,
) -> Result<(), DagJsonError>
    ensures ok { OnOk result
        (entries.new.entries ≡ insert_entry string_cmp entries.old.entries key value) }
    ensures memory { IfErr result (λ e. e ≡ DagJsonError.OutOfMemory) }
{
    match entries.insert(key, value) {
        Ok(_) => Ok(()),
        Err(_) => Err(DagJsonError::OutOfMemory),
    }
}

/// Returns the link whose CID has this text.
fn link_of(text: &str) -> Result<Ipld, DagJsonError>
    ensures { ReadsLinkText text.now (read_map tree_of result) }
{
    match cid_from_text(text.as_bytes()) {
        Ok(cid) => Ok(Ipld::Link(cid)),
        Err(error) => Err(DagJsonError::NoCid(error)),
    }
}

/// Returns the bytes that this text spells in base64.
fn bytes_of(alloc: Global, text: &str) -> Result<Ipld, DagJsonError>
    ensures data { IfOk result (λ v. bytes_data text.now ≡ Ok (tree_of v)) }
    ensures refused { IfErr result
        (λ e. e ≢ DagJsonError.OutOfMemory → bytes_data text.now ≡ Err e) }
{
    match STANDARD_NO_PAD.decode(alloc, text.as_bytes()) {
        Ok(bytes) => Ok(Ipld::Bytes(bytes)),
        Err(DecodeAllocError::OutOfMemory) => Err(DagJsonError::OutOfMemory),
        Err(_) => Err(DagJsonError::NoBase64),
    }
}

/// Returns whether the key `/` is among the members.
fn has_slash(members: &[(&str, Value<'_>)]) -> bool
    ensures { result ≡ has_slash (members_view members.now) }
{
    for member in members {
        if member.0 == "/" {
            return true;
        }
    }
    false
}

/// Returns the bytes at the key `bytes`.
fn named_bytes(
    alloc: Global,
    key: &str,
    value: &Value<'_>,
    place: &mut usize,
) -> Result<Ipld, DagJsonError>
    ensures data { IfOk result (λ v. ReadsReservedKey key.now (value_view value.now) (Ok (tree_of v))) }
    ensures refused { IfErr result (λ e. e ≢ DagJsonError.OutOfMemory
        → ReadsReservedKey key.now (value_view value.now) (Err e)) }
{
    match value {
        Value::String(text) => {
            if key != "bytes" {
                return Err(DagJsonError::ReservedKey);
            }
            pass(place, 4);
            let found = bytes_of(alloc, text)?;
            pass(place, 2);
            Ok(found)
        }
        Value::Null => Err(DagJsonError::ReservedKey),
        Value::Bool(_) => Err(DagJsonError::ReservedKey),
        Value::Number(_) => Err(DagJsonError::ReservedKey),
        Value::Array(_) => Err(DagJsonError::ReservedKey),
        Value::Object(_) => Err(DagJsonError::ReservedKey),
    }
}

/// Returns the bytes at the key `/`.
#[tactic(auto, using(crate::proofs::Members::no_bytes))]
fn slashed_bytes(
    alloc: Global,
    members: &[(&str, Value<'_>)],
    place: &mut usize,
) -> Result<Ipld, DagJsonError>
    ensures data { IfOk result (λ v. ReadsBytes (members_view members.now) (Ok (tree_of v))) }
    ensures refused { IfErr result (λ e. e ≢ DagJsonError.OutOfMemory
        → ReadsBytes (members_view members.now) (Err e)) }
{
    match members {
        [member] => named_bytes(alloc, member.0, &member.1, place),
        [] => Err(DagJsonError::ReservedKey),
        [_, _, ..] => Err(DagJsonError::ReservedKey),
    }
}

/// Returns the link or the bytes at the key `/`.
fn slashed(alloc: Global, value: &Value<'_>, place: &mut usize) -> Result<Ipld, DagJsonError>
    ensures data { IfOk result (λ v. ReadsSlashed (value_view value.now) (Ok (tree_of v))) }
    ensures refused { IfErr result (λ e. e ≢ DagJsonError.OutOfMemory
        → ReadsSlashed (value_view value.now) (Err e)) }
{
    match value {
        Value::String(text) => {
            pass(place, 2);
            let found = link_of(text)?;
            pass(place, 1);
            Ok(found)
        }
        Value::Object(inner) => slashed_bytes(alloc, inner, place),
        Value::Null => Err(DagJsonError::ReservedKey),
        Value::Bool(_) => Err(DagJsonError::ReservedKey),
        Value::Number(_) => Err(DagJsonError::ReservedKey),
        Value::Array(_) => Err(DagJsonError::ReservedKey),
    }
}

/// Returns the link or bytes that a map with the key `/` means, or refuses the map.
#[tactic(auto, using(crate::proofs::Members::no_reserved))]
fn reserved_of(
    alloc: Global,
    members: &[(&str, Value<'_>)],
    place: &mut usize,
) -> Result<Ipld, DagJsonError>
    ensures data { IfOk result (λ v. ReadsReserved (members_view members.now) (Ok (tree_of v))) }
    ensures refused { IfErr result (λ e. e ≢ DagJsonError.OutOfMemory
        → ReadsReserved (members_view members.now) (Err e)) }
{
    match members {
        [member] => slashed(alloc, &member.1, place),
        [] => Err(DagJsonError::ReservedKey),
        [_, _, ..] => Err(DagJsonError::ReservedKey),
    }
}

/// Returns the data that the JSON value means. The tokens before the value were passed. If the
/// value is data, its tokens are passed too, and otherwise those before the fault.
#[cycle(data)]
pub fn data_of(alloc: Global, value: &Value<'_>, place: &mut usize) -> Result<Ipld, DagJsonError>
    ensures data { IfOk result (λ v. ReadsData (value_view value.now) (Ok (tree_of v))) }
    ensures refused { IfErr result (λ e. e ≢ DagJsonError.OutOfMemory
        → ReadsData (value_view value.now) (Err e)) }
{
    let found = part_of(alloc, value, place)?;
    pass(place, 1);
    Ok(found)
}

/// Returns the data that the value means. Its last token is still to be passed.
#[cycle(data)]
fn part_of(alloc: Global, value: &Value<'_>, place: &mut usize) -> Result<Ipld, DagJsonError>
    ensures data { IfOk result (λ v. ReadsData (value_view value.now) (Ok (tree_of v))) }
    ensures refused { IfErr result (λ e. e ≢ DagJsonError.OutOfMemory
        → ReadsData (value_view value.now) (Err e)) }
{
    match value {
        Value::Null => Ok(Ipld::Null),
        Value::Bool(b) => Ok(Ipld::Bool(*b)),
        Value::Number(text) => Ok(Ipld::Integer(integer_of(text)?)),
        Value::String(text) => Ok(Ipld::String(owned_text(alloc, text)?)),
        Value::Array(items) => Ok(Ipld::List(items_of(alloc, items, place)?)),
        Value::Object(members) => map_of(alloc, members, place),
    }
}

/// Reads the items of a list, without passing the last bracket.
#[cycle(data)]
fn items_of(
    alloc: Global,
    values: &[Value<'_>],
    place: &mut usize,
) -> Result<Vec<Ipld>, DagJsonError>
    ensures data { IfOk result
        (λ v. ReadsElements (items_view values.now) (Ok (trees_of v.items))) }
    ensures refused { IfErr result (λ e. e ≢ DagJsonError.OutOfMemory
        → ReadsElements (items_view values.now) (Err e)) }
{
    pass(place, 1);
    let mut items = Vec::new(alloc);
    for value in values {
        let item = data_of(alloc, value, place)?;
        push_item(&mut items, item)?;
    }
    Ok(items)
}

/// Reads a map, a link or bytes, without passing the last brace.
#[cycle(data)]
fn map_of(
    alloc: Global,
    members: &[(&str, Value<'_>)],
    place: &mut usize,
) -> Result<Ipld, DagJsonError>
    ensures data { IfOk result
        (λ v. ReadsData (json.object (members_view members.now)) (Ok (tree_of v))) }
    ensures refused { IfErr result (λ e. e ≢ DagJsonError.OutOfMemory
        → ReadsData (json.object (members_view members.now)) (Err e)) }
{
    if has_slash(members) {
        return reserved_of(alloc, members, place);
    }
    Ok(Ipld::Map(entries_of(alloc, members, place)?))
}

/// Reads the entries of a map, without passing the last brace.
#[cycle(data)]
fn entries_of(
    alloc: Global,
    members: &[(&str, Value<'_>)],
    place: &mut usize,
) -> Result<BTreeMap<String, Ipld>, DagJsonError>
    ensures data { IfOk result (λ v. (seen : List (List ℕ × Tree))
        × ReadsMembers [] (members_view members.now) (Ok seen)
        × (ordered_entries (pairs_of v.entries) ≡ ordered_entries seen)) }
    ensures refused { IfErr result (λ e. e ≢ DagJsonError.OutOfMemory
        → ReadsMembers [] (members_view members.now) (Err e)) }
{
    pass(place, 1);
    let mut entries = BTreeMap::new(alloc);
    for member in members {
        if entries.contains_key(member.0) {
            return Err(DagJsonError::RepeatedKey);
        }
        pass(place, 1);
        let value = data_of(alloc, &member.1, place)?;
        let key = owned_text(alloc, member.0)?;
        put_entry(&mut entries, key, value)?;
    }
    Ok(entries)
}
