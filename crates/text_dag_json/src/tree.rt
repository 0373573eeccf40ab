//! Writing data of any kind.

ghost use Rattle.std.specs.Prelude.{◌≡◌, map, IfOk};
ghost use Rattle.ipld_tree.specs.Tree.{items_of, mapping, ordered_entries};
ghost use Rattle.ipld_tree.specs.Ipld.{tree_of, trees_of, pairs_of};
ghost use Rattle.text_dag_json.specs.DagJson.{dag_json, item_texts, list_text, Pushes};

use crate::leaves::{push_boolean, push_bytes, push_integer, push_link};
use crate::text::push_text;
use ipld_tree::Ipld;
use std::alloc::{AllocError, Global};
use std::collections::BTreeMap;

/// Returns the data in one line, without a line feed.
pub fn dag_json(alloc: Global, value: &Ipld) -> Result<Vec<u8>, AllocError>
    ensures { IfOk result (λ v. v.items ≡ dag_json (tree_of value.now)) }
{
    let mut out = Vec::new(alloc);
    push_data(alloc, value, &mut out)?;
    Ok(out)
}

/// Appends data of any kind.
#[cycle(push_data)]
fn push_data(alloc: Global, value: &Ipld, out: &mut Vec<u8>) -> Result<(), AllocError>
    ensures { Pushes (dag_json (tree_of value.now)) out.old.items result out.new.items }
{
    match value {
        Ipld::Null => out.extend_from_slice(b"null"),
        Ipld::Bool(b) => push_boolean(*b, out),
        Ipld::Integer(n) => push_integer(alloc, n, out),
        Ipld::String(text) => push_text(text.as_bytes(), out),
        Ipld::Bytes(bytes) => push_bytes(alloc, bytes, out),
        Ipld::List(items) => push_list(alloc, items, out),
        Ipld::Map(entries) => push_map(alloc, entries, out),
        Ipld::Link(cid) => push_link(cid, out),
    }
}

/// Appends a list.
#[cycle(push_data)]
fn push_list(alloc: Global, items: &[Ipld], out: &mut Vec<u8>) -> Result<(), AllocError>
    ensures { Pushes (list_text (item_texts (items_of (trees_of items.now))))
        out.old.items result out.new.items }
{
    out.push(b'[')?;
    let mut is_first = true;
    for item in items {
        if !is_first {
            out.push(b',')?;
        }
        is_first = false;
        push_data(alloc, item, out)?;
    }
    out.push(b']')?;
    Ok(())
}

/// Appends a map. Its keys are in the order of their bytes.
#[cycle(push_data)]
fn push_map(
    alloc: Global,
    entries: &BTreeMap<String, Ipld>,
    out: &mut Vec<u8>,
) -> Result<(), AllocError>
    ensures { Pushes (dag_json (mapping (ordered_entries (pairs_of entries.now.entries))))
        out.old.items result out.new.items }
{
    out.push(b'{')?;
    let mut is_first = true;
    for (key, value) in entries.iter() {
        if !is_first {
            out.push(b',')?;
        }
        is_first = false;
        push_text(key.as_bytes(), out)?;
        out.push(b':')?;
        push_data(alloc, value, out)?;
    }
    out.push(b'}')?;
    Ok(())
}
