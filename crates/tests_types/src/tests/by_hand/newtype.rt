//! A newtype, and an enum that holds a link.

ghost use Rattle.std.specs.Prelude.{ℕ, List, ◌^◌, Some, false, codes, pos};
ghost use Rattle.serde_ipld_dagcbor.specs.Cid.{cid_bytes};
ghost use Rattle.serde_ipld_dagcbor.specs.Tree.{integer, link};
ghost use Rattle.serde_ipld_dagcbor.specs.Trees.{variant_tree};
ghost use Rattle.serde_ipld_dagcbor.specs.Shapes.{view_unsigned, leaf};
ghost use Rattle.tests_types.specs.declared.tests.by_hand.newtype.Externally.TheVariants as externally;
ghost use Rattle.tests_types.specs.NamedLink.{named_link_variants, named_link_shape};

use serde_ipld_dagcbor::{
    Cid, DecodeError, Deserialize, Deserializer, EnumAccessor, Read, ReadResult, Serialize,
    Serializer, Shown, Variants, Write, WriteResult, read_enum,
};
use std::alloc::Global;

#[derive(Debug, Drop)]
pub(crate) struct Newtype(pub(crate) u8);

impl Serialize for Newtype {
    ghost tree = { λ n. Some (integer (pos n.0)) };

    ghost takes_memory = { false };

    fn serialize<W: Write>(&self, alloc: Global, ser: &mut Serializer<W>) -> WriteResult<(), W> {
        ser.serialize_newtype_struct(alloc, "Newtype", &self.0)
    }
}

impl Shown for Newtype {
    ghost View = { ℕ };

    ghost meaning = { λ n. n.0 };

    ghost shape = { leaf (view_unsigned (2 ^ 8)) };
}

impl<'de> Deserialize<'de> for Newtype {
    fn deserialize<R: Read>(alloc: Global, de: &mut Deserializer<'de, R>) -> ReadResult<Self, R> {
        Ok(Newtype(de.deserialize_newtype_struct(alloc, "Newtype")?))
    }
}

#[derive(Debug, Drop)]
pub(crate) enum Externally {
    Cid(Cid),
}

impl Serialize for Externally {
    ghost tree = { λ e. elim e [ externally.Cid c ↦ variant_tree (codes "Cid") (Some (link (cid_bytes c))) ] };

    ghost takes_memory = { false };

    fn serialize<W: Write>(&self, alloc: Global, ser: &mut Serializer<W>) -> WriteResult<(), W> {
        match self {
            Externally::Cid(cid) => ser.serialize_newtype_variant(
                alloc,
                "Externally",
                0,
                "Cid",
                cid,
            ),
        }
    }
}

impl Shown for Externally {
    ghost View = { List ℕ };

    ghost meaning = { λ e. elim e [ externally.Cid c ↦ cid_bytes c ] };

    ghost shape = { named_link_shape };
}

impl<'de> Variants<'de> for Externally {
    ghost View = { List ℕ };

    ghost meaning = { λ e. elim e [ externally.Cid c ↦ cid_bytes c ] };

    ghost shape = { named_link_variants };

    fn read_variant<R: Read>(
        alloc: Global,
        name: &str,
        variant: EnumAccessor,
        de: &mut Deserializer<'de, R>,
    ) -> ReadResult<Externally, R> {
        match name {
            "Cid" => Ok(Externally::Cid(variant.newtype_variant(alloc, de)?)),
            _ => Err(DecodeError::custom("unknown variant")),
        }
    }
}

impl<'de> Deserialize<'de> for Externally {
    fn deserialize<R: Read>(alloc: Global, de: &mut Deserializer<'de, R>) -> ReadResult<Self, R> {
        read_enum(alloc, "Externally", &["Cid"], de)
    }
}
