//! The entries that no field takes.

ghost use Rattle.std.specs.Prelude.{◌≡◌};
ghost use Rattle.ipld_tree.specs.Ipld.{pairs_of};
ghost use Rattle.types_serde.specs.Making.{WritesEntries};

use crate::as_any;
use ipld_tree::Ipld;
use serde::{
    Described, Deserialize, DeserializeOwned, Deserializer, Format, Serialize, Serializer,
};
use std::alloc::Global;
use std::collections::BTreeMap;

/// The entries that no field takes: `#[serde(flatten)] rest: Rest`. They are written among those of
/// the fields.
///
/// Only a derive can say that a type shares a map with fields. It says so here for each `E`, and it
/// reads a map with a field `entries` if `E` can be read. `Entries` cannot: a `Rest` of these is
/// read by hand, below.
#[derive(Debug, Drop, PartialEq, Deserialize)]
pub struct Rest<E = Entries> {
    pub entries: E,
}

/// The entries of a map.
#[derive(Debug, Drop, PartialEq)]
pub struct Entries(pub BTreeMap<String, Ipld>);

impl From<BTreeMap<String, Ipld>> for Rest {
    ghost from_gives = { λ entries rest. rest ≡ record { entries = record { 0 = entries } } };

    fn from(entries: BTreeMap<String, Ipld>) -> Rest {
        Rest {
            entries: Entries(entries),
        }
    }
}

impl From<Rest> for BTreeMap<String, Ipld> {
    ghost from_gives = { λ rest entries. entries ≡ rest.entries.0 };

    fn from(rest: Rest) -> BTreeMap<String, Ipld> {
        let Rest {
            entries: Entries(entries),
        } = rest;
        entries
    }
}

impl Described for Rest {
    ghost writes = { λ r. WritesEntries (pairs_of r.entries.0.entries) };
}

impl Serialize for Rest {
    fn serialize<S: Serializer>(&self, out: &mut S) -> Result<(), S::Error> {
        as_any::send_entries(&self.entries.0, out)
    }
}

impl<'de> Deserialize<'de> for Rest<Entries> {
    fn deserialize<F: Format>(
        alloc: Global,
        from: &mut Deserializer<'de, '_, F>,
    ) -> Result<Rest, F::Error> {
        let entries = Entries(as_any::fetch_rest(alloc, from)?);
        Ok(Rest { entries })
    }
}

impl DeserializeOwned for Rest<Entries> {
    fn deserialize_owned<F: Format>(
        alloc: Global,
        from: &mut Deserializer<'_, '_, F>,
    ) -> Result<Rest, F::Error> {
        let entries = Entries(as_any::fetch_rest(alloc, from)?);
        Ok(Rest { entries })
    }
}
