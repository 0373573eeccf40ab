//! An enum with a variant of each form that holds data.

ghost use Rattle.std.specs.Prelude.{Some, [], ◌∷◌, codes, pos, string_bytes, true};
ghost use Rattle.serde_ipld_dagcbor.specs.Tree.{boolean, integer, text, list_tree, entries_tree};
ghost use Rattle.serde_ipld_dagcbor.specs.Trees.{field, variant_tree};
ghost use Rattle.tests_types.specs.DataEnum.{DataView, is_a, is_b, is_c};
ghost use Rattle.tests_types.specs.DataEnum.{data_variants, data_shape};
ghost use Rattle.tests_types.specs.declared.tests.by_hand.data_enum.DataEnum.TheVariants.{A};
ghost use Rattle.tests_types.specs.declared.tests.by_hand.data_enum.DataEnum.TheVariants.{B};
ghost use Rattle.tests_types.specs.declared.tests.by_hand.data_enum.DataEnum.TheVariants.{C};

use crate::tests::by_hand::variant_fields::read_variant_fields;
use serde_ipld_dagcbor::{
    DecodeError, Deserialize, Deserializer, EnumAccessor, Field, Read, ReadResult, Required,
    Serialize, Serializer, Shown, Variants, Write, WriteResult, read_enum, write_struct_variant,
};
use std::alloc::Global;

#[derive(Drop, Debug)]
pub(crate) enum DataEnum {
    A(u32),
    B(bool, u8),
    C { x: u8, y: String },
}

impl Serialize for DataEnum {
    ghost tree = { λ e. elim e [
      | A n ↦ variant_tree (codes "A") (Some (integer (pos n)))
      | B b n ↦ variant_tree (codes "B") (list_tree (Some (boolean b) ∷ Some (integer (pos n)) ∷ []))
      | C x y ↦ variant_tree (codes "C") (entries_tree (field (codes "x") (Some (integer (pos x)))
          ∷ field (codes "y") (Some (text (string_bytes y))) ∷ []))
    ] };

    ghost takes_memory = { true };

    fn serialize<W: Write>(&self, alloc: Global, ser: &mut Serializer<W>) -> WriteResult<(), W> {
        match self {
            DataEnum::A(n) => ser.serialize_newtype_variant(alloc, "DataEnum", 0, "A", n),
            DataEnum::B(flag, n) => {
                let mut parts = ser.serialize_tuple_variant(alloc, "DataEnum", 1, "B", 2)?;
                parts.serialize_field(flag)?;
                parts.serialize_field(n)?;
                parts.end()
            }
            DataEnum::C { x, y } => {
                let fields = (Field("x", x), (Field("y", y), ()));
                write_struct_variant(alloc, "C", fields, ser)
            }
        }
    }
}

impl Shown for DataEnum {
    ghost View = { DataView };

    ghost meaning = { λ e. elim e [ A n ↦ is_a n | B b n ↦ is_b b n | C x y ↦ is_c x (string_bytes y) ] };

    ghost shape = { data_shape };
}

impl<'de> Variants<'de> for DataEnum {
    ghost View = { DataView };

    ghost meaning = { λ e. elim e [ A n ↦ is_a n | B b n ↦ is_b b n | C x y ↦ is_c x (string_bytes y) ] };

    ghost shape = { data_variants };

    fn read_variant<R: Read>(
        alloc: Global,
        name: &str,
        variant: EnumAccessor,
        de: &mut Deserializer<'de, R>,
    ) -> ReadResult<DataEnum, R> {
        match name {
            "A" => Ok(DataEnum::A(variant.newtype_variant(alloc, de)?)),
            "B" => {
                let (flag, n) = variant.newtype_variant(alloc, de)?;
                Ok(DataEnum::B(flag, n))
            }
            "C" => {
                let (Required(x), (Required(y), ())) = read_variant_fields(
                    alloc,
                    variant,
                    &["x", "y"],
                    de,
                )?;
                Ok(DataEnum::C { x, y })
            }
            _ => Err(DecodeError::custom("unknown variant")),
        }
    }
}

impl<'de> Deserialize<'de> for DataEnum {
    fn deserialize<R: Read>(alloc: Global, de: &mut Deserializer<'de, R>) -> ReadResult<Self, R> {
        read_enum(alloc, "DataEnum", &["A", "B", "C"], de)
    }
}
