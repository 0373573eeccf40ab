//! A struct with an implementation by hand, which has the CID of a map of the same entries.

ghost use Rattle.std.specs.Prelude.{Some, [], ◌∷◌, codes, pos, true};
ghost use Rattle.serde_ipld_dagcbor.specs.Tree.{integer, entries_tree};
ghost use Rattle.serde_ipld_dagcbor.specs.Trees.{field};

use dagcbor_blocks::name_of;
use serde_ipld_dagcbor::{Field, Serialize, Serializer, Write, WriteResult, write_struct};
use std::alloc::Global;
use std::collections::HashMap;
use std::test::Fail;
use tests_shared::agree;

struct Pair {
    a: u8,
    b: u8,
}

impl Serialize for Pair {
    ghost tree = { λ p. entries_tree (field (codes "a") (Some (integer (pos p.a)))
        ∷ field (codes "b") (Some (integer (pos p.b))) ∷ []) };

    ghost takes_memory = { true };

    fn serialize<W: Write>(&self, alloc: Global, ser: &mut Serializer<W>) -> WriteResult<(), W> {
        let fields = (Field("a", &self.a), (Field("b", &self.b), ()));
        write_struct(alloc, fields, ser)
    }
}

#[test]
fn a_struct_and_a_map_have_one_name(rt: HostRuntime) -> Result<(), Fail> {
    let alloc = rt.alloc();
    let mut map = HashMap::new(alloc);
    drop(map.insert("b", 2u8)?);
    drop(map.insert("a", 1u8)?);
    agree(name_of(alloc, &Pair { a: 1, b: 2 })?, name_of(alloc, &map)?)
}
