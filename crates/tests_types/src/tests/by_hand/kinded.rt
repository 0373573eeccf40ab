//! An enum that is a byte string or a link, without a name.

ghost use Rattle.std.specs.Prelude.{Some, false};
ghost use Rattle.serde_ipld_dagcbor.specs.Cid.{cid_bytes};
ghost use Rattle.serde_ipld_dagcbor.specs.Tree.{bytes, link};
ghost use Rattle.tests_types.specs.Kinded.{KindedView, is_bytes, is_link};
ghost use Rattle.tests_types.specs.Kinded.{kinded_shape};
ghost use Rattle.tests_types.specs.declared.tests.by_hand.kinded.Kinded.TheVariants as kinded;

use serde_ipld_dagcbor::{
    Bytes, Cid, DecodeError, Deserialize, Deserializer, Ipld, Read, ReadResult, Serialize,
    Serializer, Shown, Write, WriteResult,
};
use std::alloc::Global;

#[derive(Debug, Drop)]
pub(crate) enum Kinded {
    Bytes(Bytes),
    Link(Cid),
}

impl Serialize for Kinded {
    ghost tree = { λ k. elim k [ kinded.Bytes b ↦ Some (bytes b.0.items) | kinded.Link c ↦ Some (link (cid_bytes c)) ] };

    ghost takes_memory = { false };

    fn serialize<W: Write>(&self, alloc: Global, ser: &mut Serializer<W>) -> WriteResult<(), W> {
        match self {
            Kinded::Bytes(bytes) => bytes.serialize(alloc, ser),
            Kinded::Link(cid) => cid.serialize(alloc, ser),
        }
    }
}

impl Shown for Kinded {
    ghost View = { KindedView };

    ghost meaning = { λ k. elim k [ kinded.Bytes b ↦ is_bytes b.0.items | kinded.Link c ↦ is_link (cid_bytes c) ] };

    ghost shape = { kinded_shape };
}

impl<'de> Deserialize<'de> for Kinded {
    fn deserialize<R: Read>(alloc: Global, de: &mut Deserializer<'de, R>) -> ReadResult<Self, R> {
        match Ipld::deserialize(alloc, de)? {
            Ipld::Bytes(bytes) => Ok(Kinded::Bytes(Bytes(bytes))),
            Ipld::Link(cid) => Ok(Kinded::Link(cid)),
            _ => Err(DecodeError::custom("No matching enum variant found")),
        }
    }
}
