//! An enum: unit variants, and variants that hold one or two parts.

ghost use Rattle.std.specs.Prelude.{Some, [], ◌∷◌, codes, pos, true};
ghost use Rattle.serde_ipld_dagcbor.specs.Tree.{text, integer, list_tree};
ghost use Rattle.serde_ipld_dagcbor.specs.Trees.{variant_tree};
ghost use Rattle.types_by_hand.specs.Color.{color_variants, color_shape};
ghost use Rattle.types_by_hand.specs.declared.color.Color.{Color};
ghost use Rattle.types_by_hand.specs.declared.color.Color.TheVariants.{Red};
ghost use Rattle.types_by_hand.specs.declared.color.Color.TheVariants.{Blue};
ghost use Rattle.types_by_hand.specs.declared.color.Color.TheVariants.{Yellow};
ghost use Rattle.types_by_hand.specs.declared.color.Color.TheVariants.{Other};
ghost use Rattle.types_by_hand.specs.declared.color.Color.TheVariants.{Alpha};

use serde_ipld_dagcbor::{
    DecodeError, Deserialize, Deserializer, EnumAccessor, Read, ReadResult, Serialize, Serializer,
    Shown, Variants, Write, WriteResult, read_enum,
};
use std::alloc::Global;

/// A color by its name, or by numbers.
#[derive(Clone, Copy, Debug, PartialEq, Eq)]
pub enum Color {
    Red,
    Blue,
    Yellow,
    Other(u64),
    Alpha(u64, u8),
}

impl Serialize for Color {
    ghost tree = { λ color. elim color [
      | Red ↦ Some (text (codes "Red"))
      | Blue ↦ Some (text (codes "Blue"))
      | Yellow ↦ Some (text (codes "Yellow"))
      | Other n ↦ variant_tree (codes "Other") (Some (integer (pos n)))
      | Alpha n a ↦ variant_tree (codes "Alpha") (list_tree (Some (integer (pos n)) ∷ Some (integer (pos a)) ∷ []))
    ] };

    ghost takes_memory = { true };

    fn serialize<W: Write>(&self, alloc: Global, ser: &mut Serializer<W>) -> WriteResult<(), W> {
        match self {
            Color::Red => ser.serialize_unit_variant("Color", 0, "Red"),
            Color::Blue => ser.serialize_unit_variant("Color", 1, "Blue"),
            Color::Yellow => ser.serialize_unit_variant("Color", 2, "Yellow"),
            Color::Other(n) => ser.serialize_newtype_variant(alloc, "Color", 3, "Other", n),
            Color::Alpha(n, alpha) => {
                ser.serialize_newtype_variant(alloc, "Color", 4, "Alpha", &(*n, *alpha))
            }
        }
    }
}

impl Shown for Color {
    ghost View = { Color };

    ghost meaning = { λ color. color };

    ghost shape = { color_shape };
}

impl<'de> Variants<'de> for Color {
    ghost View = { Color };

    ghost meaning = { λ color. color };

    ghost shape = { color_variants };

    #[tactic(auto, using(serde_ipld_dagcbor::specs::ByHand::held_refused))]
    fn read_variant<R: Read>(
        alloc: Global,
        name: &str,
        variant: EnumAccessor,
        de: &mut Deserializer<'de, R>,
    ) -> ReadResult<Color, R> {
        match name {
            "Red" => {
                variant.unit_variant(de)?;
                Ok(Color::Red)
            }
            "Blue" => {
                variant.unit_variant(de)?;
                Ok(Color::Blue)
            }
            "Yellow" => {
                variant.unit_variant(de)?;
                Ok(Color::Yellow)
            }
            "Other" => Ok(Color::Other(variant.newtype_variant(alloc, de)?)),
            "Alpha" => {
                let (n, alpha) = variant.newtype_variant(alloc, de)?;
                Ok(Color::Alpha(n, alpha))
            }
            _ => Err(DecodeError::custom("unknown variant")),
        }
    }
}

impl<'de> Deserialize<'de> for Color {
    fn deserialize<R: Read>(alloc: Global, de: &mut Deserializer<'de, R>) -> ReadResult<Self, R> {
        read_enum(
            alloc,
            "Color",
            &["Red", "Blue", "Yellow", "Other", "Alpha"],
            de,
        )
    }
}
