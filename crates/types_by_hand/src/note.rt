//! The struct of the first example by hand in docs/TYPES.md, word for word.

ghost use Rattle.std.specs.Prelude.{Some, [], ◌∷◌, codes, pos, string_bytes, true};
ghost use Rattle.serde_ipld_dagcbor.specs.Tree.{text, integer, entries_tree};
ghost use Rattle.serde_ipld_dagcbor.specs.Trees.{field};
ghost use Rattle.types_by_hand.specs.Note.{NoteView, note_shape};

use serde_ipld_dagcbor::{
    Deserialize, Deserializer, Field, Read, ReadResult, Required, Serialize, Serializer, Shown,
    Write, WriteResult, read_struct, write_struct,
};
use std::alloc::Global;

/// A year, and what was said in it.
#[derive(Debug, Drop)]
pub struct Note {
    pub year: u16,
    pub text: String,
}

impl Serialize for Note {
    ghost tree = { λ n. entries_tree (field (codes "year") (Some (integer (pos n.year)))
        ∷ field (codes "text") (Some (text (string_bytes n.text))) ∷ []) };

    ghost takes_memory = { true };

    fn serialize<W: Write>(&self, alloc: Global, ser: &mut Serializer<W>) -> WriteResult<(), W> {
        let fields = (Field("year", &self.year), (Field("text", &self.text), ()));
        write_struct(alloc, fields, ser)
    }
}

impl Shown for Note {
    ghost View = { NoteView };

    ghost meaning = { λ n. (n.year, (string_bytes n.text, tt)) };

    ghost shape = { note_shape };
}

impl<'de> Deserialize<'de> for Note {
    fn deserialize<R: Read>(alloc: Global, de: &mut Deserializer<'de, R>) -> ReadResult<Self, R> {
        let names = &["year", "text"];
        let (Required(year), (Required(text), ())) = read_struct(alloc, "Note", names, de)?;
        Ok(Note { year, text })
    }
}
