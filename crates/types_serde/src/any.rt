//! Any data in derived types.

ghost use Rattle.std.specs.Prelude.{◌≡◌};
ghost use Rattle.ipld_tree.specs.Ipld.{tree_of};
ghost use Rattle.types_serde.specs.Making.{WritesEvents};

use crate::as_any;
use ipld_tree::Ipld;
use serde::{
    Described, Deserialize, DeserializeOwned, Deserializer, Format, Serialize, Serializer,
};
use std::alloc::Global;

/// Any data. For a format that does not know links or bytes, they are written as a `Link` and a
/// `ByteBuf` are.
#[derive(Debug, Drop, PartialEq)]
pub struct Any(pub Ipld);

impl From<Ipld> for Any {
    ghost from_gives = { λ v any. any ≡ record { 0 = v } };

    fn from(value: Ipld) -> Any {
        Any(value)
    }
}

impl From<Any> for Ipld {
    ghost from_gives = { λ any v. v ≡ any.0 };

    fn from(any: Any) -> Ipld {
        let Any(value) = any;
        value
    }
}

impl Described for Any {
    ghost writes = { λ a. WritesEvents (tree_of a.0) };
}

impl Serialize for Any {
    fn serialize<S: Serializer>(&self, out: &mut S) -> Result<(), S::Error> {
        as_any::serialize(&self.0, out)
    }
}

impl<'de> Deserialize<'de> for Any {
    fn deserialize<F: Format>(
        alloc: Global,
        from: &mut Deserializer<'de, '_, F>,
    ) -> Result<Any, F::Error> {
        Ok(Any(as_any::deserialize(alloc, from)?))
    }
}

impl DeserializeOwned for Any {
    fn deserialize_owned<F: Format>(
        alloc: Global,
        from: &mut Deserializer<'_, '_, F>,
    ) -> Result<Any, F::Error> {
        Ok(Any(as_any::deserialize(alloc, from)?))
    }
}
