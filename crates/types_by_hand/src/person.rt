//! A struct with a field that may be absent.

ghost use Rattle.std.specs.Prelude.{Some, [], ◌∷◌, codes, pos, string_bytes, option_map, true};
ghost use Rattle.serde_ipld_dagcbor.specs.Tree.{text, integer, entries_tree};
ghost use Rattle.serde_ipld_dagcbor.specs.Trees.{option_tree, field};
ghost use Rattle.types_by_hand.specs.Person.{PersonView, person_shape};

use serde_ipld_dagcbor::{
    Deserialize, Deserializer, Field, Read, ReadResult, Required, Serialize, Serializer, Shown,
    Write, WriteResult, read_struct, write_struct,
};
use std::alloc::Global;

/// A person, with a profession or without one.
#[derive(Debug, Drop)]
pub struct Person {
    pub name: String,
    pub year_of_birth: u16,
    pub profession: Option<String>,
}

impl Serialize for Person {
    ghost tree = { λ p. entries_tree (field (codes "name") (Some (text (string_bytes p.name)))
        ∷ field (codes "year_of_birth") (Some (integer (pos p.year_of_birth)))
        ∷ field (codes "profession") (option_tree (λ s. Some (text (string_bytes s))) p.profession) ∷ []) };

    ghost takes_memory = { true };

    fn serialize<W: Write>(&self, alloc: Global, ser: &mut Serializer<W>) -> WriteResult<(), W> {
        let fields = (
            Field("name", &self.name),
            (
                Field("year_of_birth", &self.year_of_birth),
                (Field("profession", &self.profession), ()),
            ),
        );
        write_struct(alloc, fields, ser)
    }
}

impl Shown for Person {
    ghost View = { PersonView };

    ghost meaning = { λ p. (string_bytes p.name, (p.year_of_birth, (option_map string_bytes p.profession, tt))) };

    ghost shape = { person_shape };
}

impl<'de> Deserialize<'de> for Person {
    fn deserialize<R: Read>(alloc: Global, de: &mut Deserializer<'de, R>) -> ReadResult<Self, R> {
        let names = &["name", "year_of_birth", "profession"];
        let (Required(name), (Required(year_of_birth), (profession, ()))) = read_struct(
            alloc, "Person", names, de,
        )?;
        Ok(Person {
            name,
            year_of_birth,
            profession,
        })
    }
}
