//! A record of four fields, written and read by hand.

ghost use Rattle.std.specs.Prelude.{Some, [], ◌∷◌, codes, pos, string_bytes, map, refl, true};
ghost use Rattle.ipld_tree.specs.Cid.{cid_bytes};
ghost use Rattle.ipld_tree.specs.Tree.{text, integer, link, list_tree, entries_tree};
ghost use Rattle.dagcbor_write.specs.Trees.{field};
ghost use Rattle.dagcbor_bench.specs.Record.{RecordView, record_shape};

use serde_ipld_dagcbor::{
    Cid, Deserialize, DeserializeOwned, Deserializer, Field, Read, ReadResult, Required, Serialize,
    Serializer, Shown, Write, WriteResult, read_struct, write_struct,
};
use std::alloc::Global;

#[derive(Drop)]
pub struct Record {
    pub link: Cid,
    pub name: String,
    pub seq: u32,
    pub tags: Vec<u16>,
}

impl Serialize for Record {
    ghost tree = { λ r. entries_tree (field (codes "seq") (Some (integer (pos r.seq)))
        ∷ field (codes "link") (Some (link (cid_bytes r.link)))
        ∷ field (codes "name") (Some (text (string_bytes r.name)))
        ∷ field (codes "tags") (list_tree (map (λ tag. Some (integer (pos tag))) r.tags.items)) ∷ []) };

    ghost takes_memory = { true };

    fn serialize<W: Write>(&self, alloc: Global, ser: &mut Serializer<W>) -> WriteResult<(), W> {
        let fields = (
            Field("seq", &self.seq),
            (
                Field("link", &self.link),
                (Field("name", &self.name), (Field("tags", &self.tags), ())),
            ),
        );
        write_struct(alloc, fields, ser)
    }
}

impl Shown for Record {
    ghost View = { RecordView };

    ghost meaning = { λ r. (cid_bytes r.link, (string_bytes r.name, (r.seq, (r.tags.items, tt)))) };

    ghost shape = { record_shape };
}

impl<'de> Deserialize<'de> for Record {
    fn deserialize<R: Read>(alloc: Global, de: &mut Deserializer<'de, R>) -> ReadResult<Self, R> {
        let names = &["link", "name", "seq", "tags"];
        let (Required(link), (Required(name), (Required(seq), (Required(tags), ())))) = read_struct(
            alloc, "Record", names, de,
        )?;
        Ok(Record {
            link,
            name,
            seq,
            tags,
        })
    }
}

impl<'de> DeserializeOwned<'de> for Record {
    ghost owned = { refl };
}
