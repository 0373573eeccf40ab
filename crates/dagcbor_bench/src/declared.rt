//! The record again, with its fields in another order than its keys.

ghost use Rattle.std.specs.Prelude.{Some, [], ◌∷◌, codes, pos, string_bytes, map, true};
ghost use Rattle.ipld_tree.specs.Cid.{cid_bytes};
ghost use Rattle.ipld_tree.specs.Tree.{text, integer, link, list_tree, entries_tree};
ghost use Rattle.dagcbor_write.specs.Trees.{field};
ghost use Rattle.dagcbor_bench.specs.Record.{RecordView, record_shape};

use crate::record::Record;
use serde_ipld_dagcbor::{
    Deserialize, Deserializer, Field, Read, ReadResult, Serialize, Serializer, Shown, Write,
    WriteResult, write_struct,
};
use std::alloc::Global;

/// A record that is written in the order in which its fields are declared.
#[derive(Drop)]
pub struct Declared {
    record: Record,
}

impl Serialize for Declared {
    ghost tree = { λ d. entries_tree (field (codes "link") (Some (link (cid_bytes d.record.link)))
        ∷ field (codes "name") (Some (text (string_bytes d.record.name)))
        ∷ field (codes "seq") (Some (integer (pos d.record.seq)))
        ∷ field (codes "tags") (list_tree (map (λ tag. Some (integer (pos tag))) d.record.tags.items))
        ∷ []) };

    ghost takes_memory = { true };

    fn serialize<W: Write>(&self, alloc: Global, ser: &mut Serializer<W>) -> WriteResult<(), W> {
        let record = &self.record;
        let fields = (
            Field("link", &record.link),
            (
                Field("name", &record.name),
                (Field("seq", &record.seq), (Field("tags", &record.tags), ())),
            ),
        );
        write_struct(alloc, fields, ser)
    }
}

impl Shown for Declared {
    ghost View = { RecordView };

    ghost meaning = { λ d. ⟦<Record as Shown>⟧.meaning d.record };

    ghost shape = { record_shape };
}

impl<'de> Deserialize<'de> for Declared {
    fn deserialize<R: Read>(alloc: Global, de: &mut Deserializer<'de, R>) -> ReadResult<Self, R> {
        let record = Record::deserialize(alloc, de)?;
        Ok(Declared { record })
    }
}
