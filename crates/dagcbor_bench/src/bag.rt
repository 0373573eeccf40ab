//! A list whose length is only known at its end, so that its items are kept until then.

ghost use Rattle.std.specs.Prelude.{map, true};
ghost use Rattle.ipld_tree.specs.Tree.{list_tree};

use serde_ipld_dagcbor::{Serialize, Serializer, Write, WriteResult};
use std::alloc::Global;

#[derive(Drop)]
pub struct Bag<T> {
    pub items: Vec<T>,
}

impl<T: Serialize> Serialize for Bag<T> {
    ghost tree = { λ bag. list_tree (map T.tree bag.items.items) };

    ghost takes_memory = { true };

    fn serialize<W: Write>(&self, alloc: Global, ser: &mut Serializer<W>) -> WriteResult<(), W> {
        let mut list = ser.serialize_seq(alloc, None)?;
        for item in &self.items {
            list.serialize_element(item)?;
        }
        list.end()
    }
}
