//! A struct that is written to devices and read from them.

ghost use Rattle.std.specs.Prelude.{Some, [], ◌∷◌, codes, pos, string_bytes, refl, true};
ghost use Rattle.serde_ipld_dagcbor.specs.Tree.{text, integer, entries_tree};
ghost use Rattle.serde_ipld_dagcbor.specs.Trees.{field};
ghost use Rattle.types_by_hand.specs.Mascot.{MascotView, mascot_shape};

use serde_ipld_dagcbor::{
    Deserialize, DeserializeOwned, Deserializer, Field, Read, ReadResult, Required, Serialize,
    Serializer, Shown, Write, WriteResult, read_struct, write_struct,
};
use std::alloc::Global;

/// A mascot.
#[derive(Debug, Drop)]
pub struct Mascot {
    pub name: String,
    pub species: String,
    pub year_of_birth: u32,
}

impl Serialize for Mascot {
    ghost tree = { λ p. entries_tree (field (codes "name") (Some (text (string_bytes p.name)))
        ∷ field (codes "species") (Some (text (string_bytes p.species)))
        ∷ field (codes "year_of_birth") (Some (integer (pos p.year_of_birth))) ∷ []) };

    ghost takes_memory = { true };

    fn serialize<W: Write>(&self, alloc: Global, ser: &mut Serializer<W>) -> WriteResult<(), W> {
        let fields = (
            Field("name", &self.name),
            (
                Field("species", &self.species),
                (Field("year_of_birth", &self.year_of_birth), ()),
            ),
        );
        write_struct(alloc, fields, ser)
    }
}

impl Shown for Mascot {
    ghost View = { MascotView };

    ghost meaning = { λ p. (string_bytes p.name, (string_bytes p.species, (p.year_of_birth, tt))) };

    ghost shape = { mascot_shape };
}

impl<'de> Deserialize<'de> for Mascot {
    fn deserialize<R: Read>(alloc: Global, de: &mut Deserializer<'de, R>) -> ReadResult<Self, R> {
        let names = &["name", "species", "year_of_birth"];
        let (Required(name), (Required(species), (Required(year_of_birth), ()))) = read_struct(
            alloc, "Mascot", names, de,
        )?;
        Ok(Mascot {
            name,
            species,
            year_of_birth,
        })
    }
}

impl<'de> DeserializeOwned<'de> for Mascot {
    ghost owned = { refl };
}
