//! An enum whose variant is a struct.

ghost use Rattle.std.specs.Prelude.{Some, [], ◌∷◌, OnOk, IfSome, codes, pos, true};
ghost use Rattle.serde_ipld_dagcbor.specs.Written.{Writes};
ghost use Rattle.serde_ipld_dagcbor.specs.Tree.{IsTree, integer, entries_tree};
ghost use Rattle.serde_ipld_dagcbor.specs.Spelled.{spelled_tree};
ghost use Rattle.serde_ipld_dagcbor.specs.Trees.{field, variant_tree};
ghost use Rattle.tests_types.specs.Second.{SecondView, second_variants, second_shape};
ghost use Rattle.tests_types.specs.declared.tests.by_hand.second.Second.TheVariants.{Data};

use crate::tests::by_hand::variant_fields::read_variant_fields;
use serde_ipld_dagcbor::{
    DecodeError, Deserialize, Deserializer, EnumAccessor, Read, ReadResult, Required, Serialize,
    Serializer, Shown, Variants, Write, WriteResult, read_enum,
};
use std::alloc::Global;

#[derive(Drop, Debug)]
pub(crate) enum Second {
    Data { b: u8, abc: u8, a: u8 },
}

impl Serialize for Second {
    ghost tree = { λ e. elim e [
      | Data b abc a ↦ variant_tree (codes "Data") (entries_tree (field (codes "b") (Some (integer (pos b)))
          ∷ field (codes "abc") (Some (integer (pos abc)))
          ∷ field (codes "a") (Some (integer (pos a))) ∷ []))
    ] };

    ghost takes_memory = { true };

    fn serialize<W: Write>(&self, alloc: Global, ser: &mut Serializer<W>) -> WriteResult<(), W> {
        match self {
            Second::Data { b, abc, a } => serialize_data(alloc, *b, *abc, *a, ser),
        }
    }
}

/// Writes the variant `Data`. A proof learns nothing from a match of one arm, so the code of the
/// arm is a function. It writes field by field, so that the calls that `write_struct_variant` makes
/// stay tested.
fn serialize_data<W: Write>(
    alloc: Global,
    b: u8,
    abc: u8,
    a: u8,
    ser: &mut Serializer<W>,
) -> WriteResult<(), W>
    ensures written { Writes (spelled_tree (variant_tree (codes "Data") (entries_tree (field (codes "b") (Some (integer (pos b)))
        ∷ field (codes "abc") (Some (integer (pos abc)))
        ∷ field (codes "a") (Some (integer (pos a))) ∷ [])))) (W.written ser.old) (W.written ser.new) result }
    ensures well_formed { OnOk result (IfSome (variant_tree (codes "Data") (entries_tree (field (codes "b") (Some (integer (pos b)))
        ∷ field (codes "abc") (Some (integer (pos abc)))
        ∷ field (codes "a") (Some (integer (pos a))) ∷ []))) IsTree) }
{
    let mut fields = ser.serialize_struct_variant(alloc, "Second", 0, "Data", 3)?;
    fields.serialize_field("b", &b)?;
    fields.serialize_field("abc", &abc)?;
    fields.serialize_field("a", &a)?;
    fields.end()
}

impl Shown for Second {
    ghost View = { SecondView };

    ghost meaning = { λ e. elim e [ Data b abc a ↦ (b, (abc, (a, tt))) ] };

    ghost shape = { second_shape };
}

impl<'de> Variants<'de> for Second {
    ghost View = { SecondView };

    ghost meaning = { λ e. elim e [ Data b abc a ↦ (b, (abc, (a, tt))) ] };

    ghost shape = { second_variants };

    fn read_variant<R: Read>(
        alloc: Global,
        name: &str,
        variant: EnumAccessor,
        de: &mut Deserializer<'de, R>,
    ) -> ReadResult<Second, R> {
        match name {
            "Data" => {
                let (Required(b), (Required(abc), (Required(a), ()))) = read_variant_fields(
                    alloc,
                    variant,
                    &["b", "abc", "a"],
                    de,
                )?;
                Ok(Second::Data { b, abc, a })
            }
            _ => Err(DecodeError::custom("unknown variant")),
        }
    }
}

impl<'de> Deserialize<'de> for Second {
    fn deserialize<R: Read>(alloc: Global, de: &mut Deserializer<'de, R>) -> ReadResult<Self, R> {
        read_enum(alloc, "Second", &["Data"], de)
    }
}
