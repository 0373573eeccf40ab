//! Data of any kind.

ghost use Rattle.std.specs.Prelude.{◌≡◌, Some, true, IsTrue, OnOk, IfErr};
ghost use Rattle.dagcbor_heads.specs.Written.{Writes, WritesAtOnce};
ghost use Rattle.ipld_tree.specs.Ipld.{tree_of};
ghost use Rattle.ipld_tree.specs.Spelled.{spelled};
ghost use Rattle.ipld_tree.specs.Tree.{IsTree};
ghost use Rattle.dagcbor_write.specs.Answers.{OnMessage};
ghost use Rattle.dagcbor_write.specs.TreeMessages.{tree_message, is_integer};

use crate::serialize::Serialize;
use crate::serializer::Serializer;
use crate::types::texts::write_texts;
use dagcbor_heads::{Write, WriteResult};
use ipld_tree::Ipld;
use std::alloc::Global;

impl Serialize for Ipld {
    ghost tree = { λ v. Some (tree_of v) };

    ghost takes_memory = { true };

    ghost message = { λ v. tree_message (tree_of v) };

    ghost unsent = { λ v. is_integer (tree_of v) };

    #[cycle(serialize)]
    #[inline(always)]
    fn serialize<W: Write>(&self, alloc: Global, ser: &mut Serializer<W>) -> WriteResult<(), W> {
        if leaf_at_once(self, ser) {
            return Ok(());
        }
        push_data(self, alloc, ser)
    }
}

/// Appends a leaf, if the writer has room for it. Else, and for a list or a map, it appends
/// nothing, and returns false.
#[inline(always)]
fn leaf_at_once<W: Write>(value: &Ipld, ser: &mut Serializer<W>) -> bool
    ensures written { WritesAtOnce (spelled (tree_of value.now))
        (W.written ser.old) (W.written ser.new) result }
    ensures well_formed { IsTrue result → IsTree (tree_of value.now) }
{
    match value {
        Ipld::Null => ser.null_at_once(),
        Ipld::Bool(b) => ser.bool_at_once(*b),
        Ipld::Integer(n) => ser.integer_at_once(*n),
        Ipld::String(text) => ser.str_at_once(text.as_str()),
        Ipld::Bytes(bytes) => ser.bytes_at_once(bytes.as_slice()),
        Ipld::Link(cid) => ser.cid_at_once(cid),
        Ipld::List(_) => false,
        Ipld::Map(_) => false,
    }
}

/// Appends data of any kind. This is a separate function, so that a leaf for which there is room
/// does not handle its result.
#[cycle(serialize)]
#[inline(never)]
fn push_data<W: Write>(value: &Ipld, alloc: Global, ser: &mut Serializer<W>) -> WriteResult<(), W>
    ensures written { Writes (spelled (tree_of value.now))
        (W.written ser.old) (W.written ser.new) result }
    ensures well_formed { OnOk result (IsTree (tree_of value.now)) }
    ensures told { IfErr result (OnMessage (tree_message (tree_of value.now))) }
    ensures unsent { IsTrue (is_integer (tree_of value.now))
        → IfErr result (OnMessage (λ _. W.written ser.new ≡ W.written ser.old)) }
{
    match value {
        Ipld::Null => ser.serialize_unit(),
        Ipld::Bool(b) => ser.serialize_bool(*b),
        Ipld::Integer(n) => ser.serialize_i128(*n),
        Ipld::String(text) => ser.serialize_str(text.as_str()),
        Ipld::Bytes(bytes) => ser.serialize_bytes(bytes.as_slice()),
        Ipld::List(items) => items.serialize(alloc, ser),
        Ipld::Map(entries) => {
            // No effect at run time. From this call the proof knows that no key repeats.
            let _ = entries.iter();
            write_texts(alloc, entries, ser)
        }
        Ipld::Link(cid) => ser.serialize_cid(cid),
    }
}
