//! A struct with a field that is left out if it is `None`.

ghost use Rattle.std.specs.Prelude.{Some, [], ◌∷◌, codes, pos, string_bytes, option_map, true};
ghost use Rattle.serde_ipld_dagcbor.specs.Tree.{text, integer, entries_tree};
ghost use Rattle.serde_ipld_dagcbor.specs.Trees.{option_tree, field, optional};
ghost use Rattle.types_by_hand.specs.OptionalPerson.{OptionalPersonView};
ghost use Rattle.types_by_hand.specs.OptionalPerson.{optional_person_shape};

use serde_ipld_dagcbor::{
    Deserialize, Deserializer, Field, Optional, Read, ReadResult, Required, Serialize, Serializer,
    Shown, Write, WriteResult, read_struct, write_struct,
};
use std::alloc::Global;

/// A person, without the year of birth if it is not known.
#[derive(Debug, Drop)]
pub struct OptionalPerson {
    pub name: String,
    pub year_of_birth: Option<u16>,
    pub profession: Option<String>,
}

impl Serialize for OptionalPerson {
    ghost tree = { λ p. entries_tree (field (codes "name") (Some (text (string_bytes p.name)))
        ∷ optional (codes "year_of_birth") (λ year. Some (integer (pos year))) p.year_of_birth
        (field (codes "profession") (option_tree (λ s. Some (text (string_bytes s))) p.profession) ∷ [])) };

    ghost takes_memory = { true };

    fn serialize<W: Write>(&self, alloc: Global, ser: &mut Serializer<W>) -> WriteResult<(), W> {
        let fields = (
            Field("name", &self.name),
            (
                Optional("year_of_birth", &self.year_of_birth),
                (Field("profession", &self.profession), ()),
            ),
        );
        write_struct(alloc, fields, ser)
    }
}

impl Shown for OptionalPerson {
    ghost View = { OptionalPersonView };

    ghost meaning = { λ p. (string_bytes p.name, (option_map (λ n. n) p.year_of_birth, (option_map string_bytes p.profession, tt))) };

    ghost shape = { optional_person_shape };
}

impl<'de> Deserialize<'de> for OptionalPerson {
    fn deserialize<R: Read>(alloc: Global, de: &mut Deserializer<'de, R>) -> ReadResult<Self, R> {
        let names = &["name", "year_of_birth", "profession"];
        let (Required(name), (year_of_birth, (profession, ()))) = read_struct(
            alloc,
            "OptionalPerson",
            names,
            de,
        )?;
        Ok(OptionalPerson {
            name,
            year_of_birth,
            profession,
        })
    }
}
