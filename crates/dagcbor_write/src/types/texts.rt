//! Maps whose keys are texts. The keys are written from where they are, and not copied.

ghost use Rattle.std.specs.Prelude.{◌≡◌, Option, IsPermutation, OnOk, IfOk, IfErr, IfSome, IsTrue};
ghost use Rattle.std.specs.Prelude.{codes, ◌||◌};
ghost use Rattle.dagcbor_heads.specs.Written.{Writes, WantsMemoryOnlyIf};
ghost use Rattle.ipld_tree.specs.Tree.{Tree, IsTree, entries_tree};
ghost use Rattle.ipld_tree.specs.Spelled.{spelled_tree};
ghost use Rattle.dagcbor_write.specs.Answers.{IsMessage};
ghost use Rattle.dagcbor_write.specs.Rows.{Rises};
ghost use Rattle.dagcbor_write.specs.Texts.{text_pairs, map_pairs};

use crate::collect::keyed::write_value;
use crate::serialize::Serialize;
use crate::serializer::Serializer;
use dagcbor_core::EncodeError;
use dagcbor_heads::{Write, WriteResult};
use ipld_tree::{comes_before, key_cmp};
use std::alloc::{AllocError, Global};
use std::collections::BTreeMap;

/// An entry: its key, and its value.
#[derive_where(Clone, Copy)]
pub(crate) struct TextEntry<'a, V> {
    key: &'a str,
    value: &'a V,
}

/// Appends the map of the entries. Its message is that of a value that has no spelling.
pub(crate) fn write_texts<V: Serialize, W: Write>(
    alloc: Global,
    entries: &BTreeMap<String, V>,
    ser: &mut Serializer<W>,
) -> WriteResult<(), W>
    ensures written { Writes (spelled_tree (entries_tree (map_pairs V.tree entries.now.entries)))
        (W.written ser.old) (W.written ser.new) result }
    ensures well_formed { OnOk result
        (IfSome (entries_tree (map_pairs V.tree entries.now.entries)) IsTree) }
    ensures message { IfErr result (IsMessage (codes "Struct value cannot be serialized.")) }
{
    let Ok(row) = list_in_order(alloc, entries) else {
        return Err(EncodeError::OutOfMemory);
    };
    if !keys_rise(&row) {
        // Never reached, because the sorted keys of a map rise, but nothing relies on that.
        return write_value(alloc, entries, ser);
    }
    write_row(alloc, &row, ser)
}

/// Returns the entries in key order.
fn list_in_order<V>(
    alloc: Global,
    entries: &BTreeMap<String, V>,
) -> Result<Vec<TextEntry<'_, V>>, AllocError>
    ensures { IfOk result (λ row. (tree : V → Option Tree)
        → IsPermutation (map_pairs tree entries.now.entries) (text_pairs tree row.items)) }
{
    let mut row = list_entries(alloc, entries)?;
    row.sort_unstable_by(|a, b| key_cmp(a.key.as_bytes(), b.key.as_bytes()));
    Ok(row)
}

/// Returns the entries in the map's order.
fn list_entries<V>(
    alloc: Global,
    entries: &BTreeMap<String, V>,
) -> Result<Vec<TextEntry<'_, V>>, AllocError>
    ensures { IfOk result (λ row. (tree : V → Option Tree)
        → text_pairs tree row.items ≡ map_pairs tree entries.now.entries) }
{
    let mut row = Vec::new(alloc);
    row.reserve(entries.len())?;
    for (key, value) in entries.iter() {
        row.push(TextEntry {
            key: key.as_str(),
            value,
        })?;
    }
    Ok(row)
}

/// Returns whether each key comes after the previous one.
fn keys_rise<V>(row: &[TextEntry<'_, V>]) -> bool
    ensures { IsTrue result → (tree : V → Option Tree) → Rises (text_pairs tree row.now) }
{
    let Some((first, others)) = row.split_first() else {
        return true;
    };
    let mut last = first.key.as_bytes();
    for entry in others {
        let key = entry.key.as_bytes();
        if !comes_before(last, key) {
            return false;
        }
        last = key;
    }
    true
}

/// Appends the map of the entries, whose keys rise.
#[tactic(auto, using(crate::proofs::Messages::none_as))]
fn write_row<V: Serialize, W: Write>(
    alloc: Global,
    row: &[TextEntry<'_, V>],
    ser: &mut Serializer<W>,
) -> WriteResult<(), W>
    requires { Rises (text_pairs V.tree row.now) }
    ensures written { Writes (spelled_tree (entries_tree (text_pairs V.tree row.now)))
        (W.written ser.old) (W.written ser.new) result }
    ensures well_formed { OnOk result
        (IfSome (entries_tree (text_pairs V.tree row.now)) IsTree) }
    ensures message { IfErr result (IsMessage (codes "Struct value cannot be serialized.")) }
    ensures memory { WantsMemoryOnlyIf (V.takes_memory || W.takes_memory) result }
{
    ser.push_head(5, row.len())?;
    for entry in row {
        ser.serialize_str(entry.key)?;
        write_value(alloc, entry.value, ser)?;
    }
    Ok(())
}
