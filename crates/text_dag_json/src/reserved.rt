//! The key that DAG-JSON reserves for links and bytes.

ghost use Rattle.std.specs.Prelude.{◌≡◌, ◌||◌, codes};
ghost use Rattle.std.specs.Str.{bytes_eq};
ghost use Rattle.ipld_tree.specs.Tree.{items_of, ordered_entries};
ghost use Rattle.ipld_tree.specs.Ipld.{tree_of, trees_of, pairs_of};
ghost use Rattle.text_dag_json.specs.DagJson.{has_reserved_key, items_reserved, entries_reserved};

use ipld_tree::Ipld;
use std::collections::BTreeMap;

/// Returns whether a map in the data has the key `/`. The text of such a map looks like a link or
/// like bytes.
#[cycle(reserved)]
pub fn has_reserved_key(value: &Ipld) -> bool
    ensures { result ≡ has_reserved_key (tree_of value.now) }
{
    match value {
        Ipld::List(items) => items_reserved(items),
        Ipld::Map(entries) => entries_reserved(entries),
        _ => false,
    }
}

/// Returns whether the key `/` is in one of the items.
#[cycle(reserved)]
fn items_reserved(items: &[Ipld]) -> bool
    ensures { result ≡ items_reserved (items_of (trees_of items.now)) }
{
    for item in items {
        if has_reserved_key(item) {
            return true;
        }
    }
    false
}

/// Returns whether this key is `/`, or the key `/` is in this value.
#[cycle(reserved)]
fn entry_reserved(key: &str, value: &Ipld) -> bool
    ensures { result ≡ (bytes_eq key.now (codes "/") || has_reserved_key (tree_of value.now)) }
{
    key == "/" || has_reserved_key(value)
}

/// Returns whether one of the keys is `/`, or the key `/` is in one of the values.
#[cycle(reserved)]
fn entries_reserved(entries: &BTreeMap<String, Ipld>) -> bool
    ensures { result ≡ entries_reserved (ordered_entries (pairs_of entries.now.entries)) }
{
    for (key, value) in entries.iter() {
        if entry_reserved(key.as_str(), value) {
            return true;
        }
    }
    false
}
