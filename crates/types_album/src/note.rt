//! The types of note.ipldsch, by ./dagcbor-types. Change that file, and run it again.

ghost use Rattle.std.specs.Prelude.{[], ◌∷◌, Some, codes, pos, string_bytes, true, refl};
ghost use Rattle.serde_ipld_dagcbor.specs.Tree.{text, integer, entries_tree};
ghost use Rattle.serde_ipld_dagcbor.specs.Trees.{field};
ghost use Rattle.types_album.specs.Note.{NoteView, note_shape};

use serde_ipld_dagcbor::{
    Closed, Deserialize, DeserializeOwned, Deserializer, Field, Read, ReadResult, Required,
    Serialize, Serializer, Shown, Write, WriteResult, read_struct, write_struct,
};
use std::alloc::Global;

/// A year, and what was said in it.
#[derive(Debug, Drop)]
pub struct Note {
    pub year: u16,
    pub text: String,
}

impl Serialize for Note {
    ghost tree = { λ v. entries_tree (
        field (codes "text") (Some (text (string_bytes v.text))) ∷
        field (codes "year") (Some (integer (pos v.year))) ∷ []) };

    ghost takes_memory = { true };

    fn serialize<W: Write>(&self, alloc: Global, ser: &mut Serializer<W>) -> WriteResult<(), W> {
        let row = ();
        let row = (Field("year", &self.year), row);
        let row = (Field("text", &self.text), row);
        write_struct(alloc, row, ser)
    }
}

impl Shown for Note {
    ghost View = { NoteView };

    ghost meaning = { λ v. (v.year, (string_bytes v.text, tt)) };

    ghost shape = { note_shape };
}

impl<'de> Deserialize<'de> for Note {
    fn deserialize<R: Read>(alloc: Global, de: &mut Deserializer<'de, R>) -> ReadResult<Self, R> {
        let names = &["year", "text"];
        let row = read_struct(alloc, "Note", names, de)?;
        let (Required(year), row) = row;
        let (Required(text), Closed) = row;
        Ok(Note { year, text })
    }
}

impl<'de> DeserializeOwned<'de> for Note {
    ghost owned = { refl };
}
