//! Values that hold others.

ghost use Rattle.std.specs.Prelude.{map, OnOk, IfErr, IfSome, ◌||◌};
ghost use Rattle.dagcbor_heads.specs.Written.{Writes, WantsMemoryOnlyIf};
ghost use Rattle.ipld_tree.specs.Spelled.{spelled_tree};
ghost use Rattle.ipld_tree.specs.Tree.{IsTree, list_tree};
ghost use Rattle.dagcbor_write.specs.Trees.{option_tree};
ghost use Rattle.dagcbor_write.specs.Answers.{OnMessage, IsMessageOfAny};
ghost use Rattle.dagcbor_write.specs.Answers.{option_message, option_unsent};

use crate::serialize::Serialize;
use crate::serializer::Serializer;
use dagcbor_heads::{Write, WriteResult};
use std::alloc::Global;

impl<T: Serialize> Serialize for &T {
    ghost tree = { λ v. T.tree v.now };

    ghost takes_memory = { T.takes_memory };

    ghost message = { λ v. T.message v.now };

    ghost unsent = { λ v. T.unsent v.now };

    fn serialize<W: Write>(&self, alloc: Global, ser: &mut Serializer<W>) -> WriteResult<(), W> {
        Serialize::serialize(*self, alloc, ser)
    }
}

impl<T: Serialize> Serialize for Box<T> {
    ghost tree = { λ v. T.tree v.value };

    ghost takes_memory = { T.takes_memory };

    ghost message = { λ v. T.message v.value };

    ghost unsent = { λ v. T.unsent v.value };

    fn serialize<W: Write>(&self, alloc: Global, ser: &mut Serializer<W>) -> WriteResult<(), W> {
        Serialize::serialize(&**self, alloc, ser)
    }
}

impl<T: Serialize> Serialize for Option<T> {
    ghost tree = { option_tree T.tree };

    ghost takes_memory = { T.takes_memory };

    ghost message = { option_message T.message };

    ghost unsent = { option_unsent T.unsent };

    fn serialize<W: Write>(&self, alloc: Global, ser: &mut Serializer<W>) -> WriteResult<(), W> {
        match self {
            Some(value) => ser.serialize_some(alloc, value),
            None => ser.serialize_none(),
        }
    }
}

impl<T: Serialize> Serialize for Vec<T> {
    ghost tree = { λ v. list_tree (map T.tree v.items) };

    ghost takes_memory = { T.takes_memory };

    ghost message = { λ v. IsMessageOfAny T.tree T.message v.items };

    fn serialize<W: Write>(&self, alloc: Global, ser: &mut Serializer<W>) -> WriteResult<(), W> {
        serialize_items(alloc, self.as_slice(), ser)
    }
}

impl<T: Serialize> Serialize for &[T] {
    ghost tree = { λ v. list_tree (map T.tree v.now) };

    ghost takes_memory = { T.takes_memory };

    ghost message = { λ v. IsMessageOfAny T.tree T.message v.now };

    fn serialize<W: Write>(&self, alloc: Global, ser: &mut Serializer<W>) -> WriteResult<(), W> {
        serialize_items(alloc, *self, ser)
    }
}

/// Appends the list of the items.
#[tactic(auto, using(crate::proofs::Lists::OnOk_of, crate::proofs::Lists::AreTrees_all))]
fn serialize_items<T: Serialize, W: Write>(
    alloc: Global,
    items: &[T],
    ser: &mut Serializer<W>,
) -> WriteResult<(), W>
    ensures written { Writes (spelled_tree (list_tree (map T.tree items.now)))
        (W.written ser.old) (W.written ser.new) result }
    ensures well_formed { OnOk result (IfSome (list_tree (map T.tree items.now)) IsTree) }
    ensures memory { WantsMemoryOnlyIf (T.takes_memory || W.takes_memory) result }
    ensures told { IfErr result (OnMessage (IsMessageOfAny T.tree T.message items.now)) }
{
    let mut list = ser.serialize_tuple(alloc, items.len())?;
    for item in items {
        list.serialize_element(item)?;
    }
    list.end()
}
