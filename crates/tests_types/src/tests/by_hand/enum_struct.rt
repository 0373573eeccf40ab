//! An enum of unit variants, and a struct that holds one.

ghost use Rattle.std.specs.Prelude.{Some, [], ◌∷◌, codes, false, true};
ghost use Rattle.serde_ipld_dagcbor.specs.Tree.{text, entries_tree};
ghost use Rattle.serde_ipld_dagcbor.specs.Trees.{field};
ghost use Rattle.tests_types.specs.Letter.{Letter, is_a, is_b, letter_variants};
ghost use Rattle.tests_types.specs.Letter.{letter_shape};
ghost use Rattle.tests_types.specs.EnumStruct.{enum_struct_shape};
ghost use Rattle.tests_types.specs.declared.tests.by_hand.enum_struct.Enum.TheVariants.{A};
ghost use Rattle.tests_types.specs.declared.tests.by_hand.enum_struct.Enum.TheVariants.{B};

use serde_ipld_dagcbor::{
    DecodeError, Deserialize, Deserializer, EnumAccessor, Field, Read, ReadResult, Required,
    Serialize, Serializer, Shown, Variants, Write, WriteResult, read_enum, read_struct,
    write_struct,
};
use std::alloc::Global;

#[derive(Clone, Copy, Debug, PartialEq, Eq)]
pub(crate) enum Enum {
    A,
    B,
}

impl Serialize for Enum {
    ghost tree = { λ e. elim e [ A ↦ Some (text (codes "A")) | B ↦ Some (text (codes "B")) ] };

    ghost takes_memory = { false };

    fn serialize<W: Write>(&self, _alloc: Global, ser: &mut Serializer<W>) -> WriteResult<(), W> {
        match self {
            Enum::A => ser.serialize_unit_variant("Enum", 0, "A"),
            Enum::B => ser.serialize_unit_variant("Enum", 1, "B"),
        }
    }
}

impl Shown for Enum {
    ghost View = { Letter };

    ghost meaning = { λ e. elim e [ A ↦ is_a | B ↦ is_b ] };

    ghost shape = { letter_shape };
}

impl<'de> Variants<'de> for Enum {
    ghost View = { Letter };

    ghost meaning = { λ e. elim e [ A ↦ is_a | B ↦ is_b ] };

    ghost shape = { letter_variants };

    fn read_variant<R: Read>(
        _alloc: Global,
        name: &str,
        variant: EnumAccessor,
        de: &mut Deserializer<'de, R>,
    ) -> ReadResult<Enum, R> {
        match name {
            "A" => {
                variant.unit_variant(de)?;
                Ok(Enum::A)
            }
            "B" => {
                variant.unit_variant(de)?;
                Ok(Enum::B)
            }
            _ => Err(DecodeError::custom("unknown variant")),
        }
    }
}

impl<'de> Deserialize<'de> for Enum {
    fn deserialize<R: Read>(alloc: Global, de: &mut Deserializer<'de, R>) -> ReadResult<Self, R> {
        read_enum(alloc, "Enum", &["A", "B"], de)
    }
}

#[derive(Debug, Drop)]
pub(crate) struct EnumStruct {
    pub(crate) e: Enum,
}

impl Serialize for EnumStruct {
    ghost tree = { λ p. entries_tree (field (codes "e") (⟦<Enum as Serialize>⟧.tree p.e) ∷ []) };

    ghost takes_memory = { true };

    fn serialize<W: Write>(&self, alloc: Global, ser: &mut Serializer<W>) -> WriteResult<(), W> {
        write_struct(alloc, (Field("e", &self.e), ()), ser)
    }
}

impl Shown for EnumStruct {
    ghost View = { Letter × Unit {0} };

    ghost meaning = { λ s. (⟦<Enum as Shown>⟧.meaning s.e, tt) };

    ghost shape = { enum_struct_shape };
}

impl<'de> Deserialize<'de> for EnumStruct {
    fn deserialize<R: Read>(alloc: Global, de: &mut Deserializer<'de, R>) -> ReadResult<Self, R> {
        let (Required(e), ()) = read_struct(alloc, "EnumStruct", &["e"], de)?;
        Ok(EnumStruct { e })
    }
}
