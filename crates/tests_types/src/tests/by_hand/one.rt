//! A struct of one field.

ghost use Rattle.std.specs.Prelude.{ℕ, Some, [], ◌∷◌, codes, pos, true};
ghost use Rattle.serde_ipld_dagcbor.specs.Tree.{integer, entries_tree};
ghost use Rattle.serde_ipld_dagcbor.specs.Trees.{field};
ghost use Rattle.tests_types.specs.One.{one_shape};

use serde_ipld_dagcbor::{
    Deserialize, Deserializer, Field, Read, ReadResult, Required, Serialize, Serializer, Shown,
    Write, WriteResult, read_struct, write_struct,
};
use std::alloc::Global;

#[derive(Debug, Drop)]
pub(crate) struct One {
    pub(crate) a: u8,
}

impl Serialize for One {
    ghost tree = { λ p. entries_tree (field (codes "a") (Some (integer (pos p.a))) ∷ []) };

    ghost takes_memory = { true };

    fn serialize<W: Write>(&self, alloc: Global, ser: &mut Serializer<W>) -> WriteResult<(), W> {
        write_struct(alloc, (Field("a", &self.a), ()), ser)
    }
}

impl Shown for One {
    ghost View = { ℕ × Unit {0} };

    ghost meaning = { λ o. (o.a, tt) };

    ghost shape = { one_shape };
}

impl<'de> Deserialize<'de> for One {
    fn deserialize<R: Read>(alloc: Global, de: &mut Deserializer<'de, R>) -> ReadResult<Self, R> {
        let (Required(a), ()) = read_struct(alloc, "One", &["a"], de)?;
        Ok(One { a })
    }
}
