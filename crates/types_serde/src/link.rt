//! Links in derived types.

ghost use Rattle.std.specs.Prelude.{◌≡◌};
ghost use Rattle.ipld_tree.specs.Cid.{cid_bytes};
ghost use Rattle.types_serde.specs.Links.{WritesLink};

use crate::as_link;
use crate::sink::{LINK_CASE, LINK_NAME};
use ipld_tree::Cid;
use serde::{
    Described, Deserialize, DeserializeOwned, Deserializer, Format, Name, NameKind, Serialize,
    Serializer,
};
use std::alloc::Global;

/// A link. It is written as tag 42, and read from it. For another format it is a map of one entry,
/// `/`, whose value is the binary form of the CID.
#[derive(Clone, Copy, Debug, Drop, PartialEq, Eq)]
pub struct Link(pub Cid);

/// The name that marks a link for a format.
pub(crate) const LINK: Name<'static> = Name {
    name: LINK_NAME,
    kind: NameKind::Field,
    case: LINK_CASE,
    aliases: &[],
    skipped: false,
};

impl From<Cid> for Link {
    ghost from_gives = { λ cid link. link ≡ record { 0 = cid } };

    fn from(cid: Cid) -> Link {
        Link(cid)
    }
}

impl From<Link> for Cid {
    ghost from_gives = { λ link cid. cid ≡ link.0 };

    fn from(link: Link) -> Cid {
        link.0
    }
}

impl Described for Link {
    ghost writes = { λ l. WritesLink (cid_bytes l.0) };
}

impl Serialize for Link {
    fn serialize<S: Serializer>(&self, out: &mut S) -> Result<(), S::Error> {
        as_link::serialize(&self.0, out)
    }
}

impl<'de> Deserialize<'de> for Link {
    fn deserialize<F: Format>(
        alloc: Global,
        from: &mut Deserializer<'de, '_, F>,
    ) -> Result<Link, F::Error> {
        Ok(Link(as_link::deserialize(alloc, from)?))
    }
}

impl DeserializeOwned for Link {
    fn deserialize_owned<F: Format>(
        alloc: Global,
        from: &mut Deserializer<'_, '_, F>,
    ) -> Result<Link, F::Error> {
        Ok(Link(as_link::deserialize(alloc, from)?))
    }
}
