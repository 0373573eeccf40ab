//! A struct with a link.

ghost use Rattle.std.specs.Prelude.{Some, [], ◌∷◌, codes, true};
ghost use Rattle.serde_ipld_dagcbor.specs.Cid.{cid_bytes};
ghost use Rattle.serde_ipld_dagcbor.specs.Tree.{boolean, link, entries_tree};
ghost use Rattle.serde_ipld_dagcbor.specs.Trees.{field};
ghost use Rattle.tests_types.specs.MyStruct.{MyStructView, my_struct_shape};

use serde_ipld_dagcbor::{
    Cid, Deserialize, Deserializer, Read, ReadResult, Required, Serialize, Serializer, Shown,
    Write, WriteResult, read_struct,
};
use std::alloc::Global;

#[derive(Debug, Drop)]
pub(crate) struct MyStruct {
    pub(crate) cid: Cid,
    pub(crate) data: bool,
}

/// Written field by field, so that the calls that `write_struct` makes stay tested.
impl Serialize for MyStruct {
    ghost tree = { λ p. entries_tree (field (codes "cid") (Some (link (cid_bytes p.cid)))
        ∷ field (codes "data") (Some (boolean p.data)) ∷ []) };

    ghost takes_memory = { true };

    fn serialize<W: Write>(&self, alloc: Global, ser: &mut Serializer<W>) -> WriteResult<(), W> {
        let mut fields = ser.serialize_struct(alloc, "MyStruct", 2)?;
        fields.serialize_field("cid", &self.cid)?;
        fields.serialize_field("data", &self.data)?;
        fields.end()
    }
}

impl Shown for MyStruct {
    ghost View = { MyStructView };

    ghost meaning = { λ s. (cid_bytes s.cid, (s.data, tt)) };

    ghost shape = { my_struct_shape };
}

impl<'de> Deserialize<'de> for MyStruct {
    fn deserialize<R: Read>(alloc: Global, de: &mut Deserializer<'de, R>) -> ReadResult<Self, R> {
        let (Required(cid), (Required(data), ())) = read_struct(
            alloc,
            "MyStruct",
            &["cid", "data"],
            de,
        )?;
        Ok(MyStruct { cid, data })
    }
}
